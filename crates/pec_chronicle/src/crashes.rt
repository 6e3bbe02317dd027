ghost use Rattle.std.specs.Prelude.{◌≡◌, ◌≢◌, ℕ, ◌<◌, ◌≤◌, [], IfOk, IfErr};
ghost use Rattle.std.specs.Option.{option_map};
ghost use Rattle.pec_outside.specs.Depots.{Alike, depot_places};
ghost use Rattle.pec_outside.specs.DiskModel.{Only, Stays};
ghost use Rattle.pec_outside.specs.Flow.{HasRisen};
ghost use Rattle.pec_records.specs.Entry.{entry_text};
ghost use Rattle.pec_chronicle.specs.Carrying.{CarriesOn, NothingMay};
ghost use Rattle.pec_chronicle.specs.Chronicle.{Stands, down_over, past_of};
ghost use Rattle.pec_chronicle.specs.Fields.{IsPast};
ghost use Rattle.pec_chronicle.specs.Opening.{Finds};
ghost use Rattle.pec_chronicle.specs.declared.faults.OpenFault.TheVariants as faults;

use crate::chronicle::Chronicle;
use crate::drives::Drive;
use crate::encoded::Encoded;
use crate::faults::OpenFault;
use crate::history::History;
use crate::openings::Opening;
use pec_outside::{Depot, Disk, a_disk_is_so};
use pec_types::Text8;
use std::alloc::Global;
use std::marker::Model;

/// What is known of entries besides their disk, before a restart and after a crash. This project's profile.
#[derive(Drop)]
pub struct Past {
    history: History,
    interrupted: Option<Encoded>,
}

impl Model for Past {
    ghost use Rattle.pec_chronicle.specs.Chronicle.{PastState};

    ghost Value = { PastState };

    ghost use Rattle.pec_chronicle.specs.Fields.{IsPast};
    ghost use Rattle.pec_chronicle.specs.Opening.{Finds};

    ghost view = { λ past. record { entries = past.history.items; interrupted = past.interrupted } };

    ghost invariant = { λ past. IsPast past.history.items past.interrupted };
}

impl Past {
    pub(crate) fn new(history: History, interrupted: Option<Encoded>) -> Past
        requires { IsPast history.items interrupted }
        ensures { result ≡ record { entries = history.items; interrupted = interrupted } }
    {
        Past {
            history,
            interrupted,
        }
    }

    /// The bytes of the entry whose append answered a fault of the disk. It takes no memory.
    pub(crate) fn into_interrupted(self) -> Option<Text8>
        ensures { result ≡ option_map entry_text self.interrupted }
    {
        let encoded = self.interrupted?;
        Some(encoded.into_bytes())
    }

    // These entries over a disk, down.
    pub(crate) fn over<D>(self, disk: D) -> Chronicle<D>
        ensures { result ≡ down_over self disk }
    {
        let Past {
            history,
            interrupted,
        } = self;
        Chronicle::of(Drive::Shut(disk), history, interrupted, true)
    }
}

impl<D: Disk> Chronicle<D> {
    /// Crashes the disk, which is one of this depot's and this provider's: it reads then as a crash may have left it,
    /// and the entries are down over it. It takes no memory.
    pub fn crash<P: Depot<D = D>>(self, depot: &mut P, provider: u32) -> Chronicle<D>
        requires { provider < depot_places }
        ensures down { result ≡ down_over (past_of self) result.disk }
        ensures carries { D.tells → CarriesOn D.sight NothingMay self result }
        ensures left { D.tells → (D.sight self.disk).may_leave (D.sight result.disk).seen }
        ensures durable { D.tells → Only (D.sight result.disk).seen (D.sight result.disk).may_leave }
        ensures count { D.faults result.disk ≡ D.faults self.disk }
        ensures home { P.tells → Alike (P.home depot.old) (P.home depot.new) }
        ensures last { Alike (P.last depot.old) (P.last depot.new) }
        ensures later { P.faults depot.old ≤ P.faults depot.new }
    {
        a_disk_is_so::<D>();
        let (disk, past) = self.part();
        past.over(depot.crash(provider, disk))
    }

    /// Opens the journal on the disk again, after a crash or a fault: its entries are those before, with the
    /// interrupted one or without it. They are still to be read, one by one (`next`). Beside them is what was known
    /// before, by which it can go `back_to` there. With a fault the entries are what they were, down.
    pub fn restart(self, alloc: Global) -> Result<(Opening<D>, Past), (OpenFault, Chronicle<D>)>
        ensures fresh { IfOk result (λ read. read.0.read ≡ []) }
        ensures found { D.tells → Stands D.sight self → IfOk result (λ read. Finds D.sight self read.0) }
        ensures past { IfOk result (λ read. read.1 ≡ past_of self) }
        ensures stays { D.tells → IfOk result (λ read. Stays (D.sight self.disk) (D.sight read.0.disk)) }
        ensures down { IfErr result (λ fault. fault.1 ≡ down_over (past_of self) fault.1.disk) }
        ensures carries_err { D.tells → IfErr result (λ fault. CarriesOn D.sight NothingMay self fault.1) }

        // What a chronicle stands on is never refused as bad.
        ensures refused { D.tells → Stands D.sight self → IfErr result (λ fault.
            (n : ℕ) → (fault.0 ≢ faults.NotAJournal n) × (fault.0 ≢ faults.BadEntry n)) }
        ensures disk_fault { IfErr result (λ fault. fault.0 ≡ faults.DiskFault →
            HasRisen (D.faults self.disk) (D.faults fault.1.disk)) }
        ensures later { IfOk result (λ read. D.faults self.disk ≤ D.faults read.0.disk) }
        ensures later_err { IfErr result (λ fault. D.faults self.disk ≤ D.faults fault.1.disk) }
    {
        a_disk_is_so::<D>();
        let (disk, past) = self.part();
        match Chronicle::open(alloc, disk) {
            Ok(opening) => Ok((opening, past)),
            Err((fault, disk)) => Err((fault, past.over(disk))),
        }
    }
}
