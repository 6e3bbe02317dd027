ghost use Rattle.std.specs.Prelude.{◌≡◌, ◌≤◌, map, IfOk, IsErrOf};
ghost use Rattle.pec_outside.specs.Depots.{Alike};
ghost use Rattle.pec_outside.specs.Flow.{behind};
ghost use Rattle.pec_input.specs.Finding.{IsAtEnd};
ghost use Rattle.pec_serving.specs.OfNetworks.{Keeps};
ghost use Rattle.pec_top.specs.Blaming.{BlamesDevices};
ghost use Rattle.pec_top.specs.Scripts.{ReadsOver};
ghost use Rattle.pec_top.specs.Shown.{result_shown};

use crate::ending::{End, Stop};
use crate::laws::a_loop_climbs;
use crate::said::{LONGEST_LINE, Said};
use pec_input::{Buffer, next_line};
use pec_outside::{Depot, Disk, Sink, Source, write_all};
use pec_screen::Judge;
use pec_seal::Sealer;
use pec_serving::{Network, play_and_write, what_is_kept_is_kept_on};
use std::alloc::Global;
use std::thread::Threads;

/// Plays the lines that are left over a network. The lines of each answer are written before the next line is read.
pub(crate) fn play_script<
    X: Threads + Sync,
    D: Disk + Send,
    H: Sealer + Sync,
    P: Depot<D = D>,
    J: Judge + Send,
    S: Source,
    W: Sink,
>(
    rt: &X,
    alloc: Global,
    network: &mut Network<D, H, J>,
    depot: &mut P,
    spares: &mut Vec<J::Spare>,
    source: &mut S,
    buffer: &mut Buffer,
    out: &mut W,
) -> Result<End, Stop>
where
    J::Spare: Send,
    // The script that is left was read, line by line, and its commands were played and written.
    ensures read { ReadsOver (P.tells × D.tells) D.sight D.faults H.seals
        (map J.spare_patterns spares.old.items) (map J.spare_patterns spares.new.items)
        network.old network.new (behind buffer.old (S.left source.old))
        (W.held out.old) (W.held out.new) (W.faults out.old) (W.faults out.new) (result_shown result) }
    ensures keeps { Keeps D.sight D.faults D.tells network.old network.new }
    ensures home { P.tells → Alike (P.home depot.old) (P.home depot.new) }
    ensures last { Alike (P.last depot.old) (P.last depot.new) }
    ensures later { P.faults depot.old ≤ P.faults depot.new }
    ensures blame { BlamesDevices result (S.faults source.old) (S.faults source.new)
        (W.faults out.old) (W.faults out.new) }
    ensures begun { IsErrOf result Stop.StartFault → ⊥ }
    ensures all_read { IfOk result (λ end. end ≡ End.Done → IsAtEnd (behind buffer.new (S.left source.new))) }
{
    a_loop_climbs::<P>();
    what_is_kept_is_kept_on::<D, H>();
    let mut line = Vec::new(alloc);
    let mut number = 1u64;
    'lines: loop {
        line.clear();
        let found = next_line(source, buffer, &mut line, LONGEST_LINE)?;
        let said = Said::of(alloc, network.directory(), number, found, &line)?;
        match said {
            Said::Nothing => {
                number += 1;
                continue 'lines;
            }
            Said::Command(command) => {
                play_and_write(rt, alloc, network, depot, spares, command, out)?;
                number += 1;
            }
            Said::Last(text, end) => {
                write_all(out, &text)?;
                return Ok(end);
            }
        }
    }
}
