ghost use Rattle.std.specs.Prelude.{◌≡◌, ◌≤◌, Bool, false, ◌++◌, None, IfOk, IfErr};
ghost use Rattle.pec_outside.specs.Flow.{HasRisen};
ghost use Rattle.pec_ledger.specs.Network.{chosen};
ghost use Rattle.pec_chronicle.specs.Carrying.{CarriesOn, NothingMay};
ghost use Rattle.pec_chronicle.specs.Chronicle.{Stands, down_over, past_of};
ghost use Rattle.pec_stock.specs.Opening.{IsOutside};
ghost use Rattle.pec_stock.specs.Stock.{Agree};
ghost use Rattle.pec_stock.specs.declared.faults.ReopenFault.TheVariants as reopen;

use crate::faults::ReopenFault;
use crate::opening::whole;
use pec_chronicle::Chronicle;
use pec_directory::Directory;
use pec_outside::Disk;
use pec_shelf::{Shelf, a_directory_has_a_trade};
use std::alloc::Global;

/// Opens a stock again over the disk that it has, after a crash or a fault of it: its entries are those before, with
/// the interrupted one or without it. It writes nothing and reads each entry once. With a fault it is what it was,
/// down.
pub fn restart<D: Disk>(
    alloc: Global,
    directory: &Directory,
    chronicle: Chronicle<D>,
    shelf: Shelf,
) -> Result<(Chronicle<D>, Shelf), (ReopenFault, Chronicle<D>, Shelf)>
    requires { Agree directory.now chronicle shelf }
    ensures agree { IfOk result (λ made. (made.1.me ≡ shelf.me) × Agree directory.now made.0 made.1) }
    ensures up { IfOk result (λ made. (made.0.down ≡ false) × (made.0.interrupted ≡ None)) }
    ensures found { D.tells → Stands D.sight chronicle → IfOk result (λ made.
        (choice : Bool) × (made.0.entries ≡ chronicle.entries ++ chosen choice chronicle.interrupted)) }
    ensures carries { D.tells → IfOk result (λ made. CarriesOn D.sight NothingMay chronicle made.0) }

    ensures down { IfErr result (λ refused. refused.1 ≡ down_over (past_of chronicle) refused.1.disk) }
    ensures shelf { IfErr result (λ refused. refused.2 ≡ shelf) }
    ensures carries_err { D.tells → IfErr result (λ refused. CarriesOn D.sight NothingMay chronicle refused.1) }

    // What a stock stands on is never refused as unfit.
    ensures outside { D.tells → Stands D.sight chronicle → IfErr result (λ refused. IsOutside refused.0) }
    ensures disk_fault { IfErr result (λ refused. refused.0 ≡ reopen.DiskFault →
        HasRisen (D.faults chronicle.disk) (D.faults refused.1.disk)) }
    ensures later { IfOk result (λ made. D.faults chronicle.disk ≤ D.faults made.0.disk) }
    ensures later_err { IfErr result (λ refused. D.faults chronicle.disk ≤ D.faults refused.1.disk) }
{
    a_directory_has_a_trade();
    match chronicle.restart(alloc) {
        Ok((mut opening, past)) => match whole(alloc, directory, shelf.me(), &mut opening) {
            Ok(taken) => Ok((opening.done(), taken)),
            Err(fault) => Err((fault, opening.back_to(past), shelf)),
        },
        Err((fault, shut)) => Err((fault.into(), shut, shelf)),
    }
}
