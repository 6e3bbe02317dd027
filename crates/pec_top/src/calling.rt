ghost use Rattle.std.specs.Prelude.{◌≡◌, ℕ};
ghost use Rattle.pec_ledger.specs.Ledger.{Fit};
ghost use Rattle.pec_ledger.specs.Network.{journals_in};
ghost use Rattle.pec_ledger.specs.Trade.{Trade};
ghost use Rattle.pec_runs.specs.Happened.{Begun, stage_of};
ghost use Rattle.pec_runs.specs.Openings.{Form, NoMore, Resume};
ghost use Rattle.pec_runs.specs.Passing.{AreEmpty, AreFoundAs, RanHonestly, held};
ghost use Rattle.pec_runs.specs.ScriptLines.{Script};
ghost use Rattle.pec_runs.specs.Through.{RanThrough};
ghost use Rattle.pec_service.specs.Calling.{ServedHonestly};
ghost use Rattle.pec_service.specs.Through.{ServiceRanThrough};
ghost use Rattle.pec_top.specs.Calling.{Call, load_of, run_of, service_of};
ghost use Rattle.pec_top.specs.Tasks.{IsRun, Loads, Plays, Serves};

use pec_outside::{Depot, Disk};
use pec_runs::runs_go_on_from_one_another;
use pec_service::calls_go_on_from_one_another;

/// What the contract of `run_pec` says of its call is what the laws on runs one after another ask of a run. So a
/// program that ran on empty disks, at whatever status, for want of memory too, and is resumed on what it left, and
/// then serves, and then is resumed again, each time on what the one before left or a crash left of it, opens journals
/// that are Fit. So it is with any other row of calls: law `calls_go_on_from_one_another` of pec_service.
pub fn four_calls_go_on_from_one_another<P: Depot>()
    ensures plays { (call : Call P.D) (form : Form)
        → IsRun (P.tells × P.D.tells) P.D.sight P.D.faults call.words call.screens call.spares
        call.status call.old call.new (Plays form)
        → RanThrough (P.tells × P.D.tells) P.D.sight P.D.faults (run_of call).asked (run_of call).status (run_of call).unread
        (run_of call).before (run_of call).after (run_of call).home (run_of call).left (run_of call).old
        (run_of call).new }
    ensures serves { (call : Call P.D) (wanted : ℕ)
        → IsRun (P.tells × P.D.tells) P.D.sight P.D.faults call.words call.screens call.spares
        call.status call.old call.new (Serves wanted)
        → ServiceRanThrough (P.tells × P.D.tells) P.D.sight P.D.faults (service_of wanted call).asked
        (service_of wanted call).status (service_of wanted call).unread (service_of wanted call).before
        (service_of wanted call).after
        (service_of wanted call).home (service_of wanted call).left (service_of wanted call).here
        (service_of wanted call).there (service_of wanted call).old (service_of wanted call).new }
    ensures loads { (call : Call P.D) (count : ℕ)
        → (load : IsRun (P.tells × P.D.tells) P.D.sight P.D.faults call.words call.screens call.spares
        call.status call.old call.new (Loads count))
        → RanThrough (P.tells × P.D.tells) P.D.sight P.D.faults
        (load_of count call load.played load.lines load.source load.sink).asked
        (load_of count call load.played load.lines load.source load.sink).status
        (load_of count call load.played load.lines load.source load.sink).unread
        (load_of count call load.played load.lines load.source load.sink).before
        (load_of count call load.played load.lines load.source load.sink).after
        (load_of count call load.played load.lines load.source load.sink).home
        (load_of count call load.played load.lines load.source load.sink).left
        (load_of count call load.played load.lines load.source load.sink).old
        (load_of count call load.played load.lines load.source load.sink).new }
    ensures four { P.tells × P.D.tells → (trade : Trade) (first second third fourth : Call P.D) (wanted : ℕ)
        → AreEmpty trade (held (P.tells × P.D.tells) P.D.sight first.old.home)
        → RanHonestly (P.tells × P.D.tells) P.D.sight P.D.faults trade (run_of first)
        → AreFoundAs (P.tells × P.D.tells) P.D.sight trade first.new.home second.old.home
        → RanHonestly (P.tells × P.D.tells) P.D.sight P.D.faults trade (run_of second)
        → AreFoundAs (P.tells × P.D.tells) P.D.sight trade second.new.home third.old.home
        → ServedHonestly (P.tells × P.D.tells) P.D.sight P.D.faults trade (service_of wanted third)
        → AreFoundAs (P.tells × P.D.tells) P.D.sight trade third.new.home fourth.old.home
        → (honest : RanHonestly (P.tells × P.D.tells) P.D.sight P.D.faults trade (run_of fourth)) (script : Script)
        → stage_of (run_of fourth).asked honest.ran.ran.happened.hands honest.ran.ran.happened.early
        honest.ran.ran.happened.parts ≡ Begun Resume script
        → honest.ran.ran.happened.opening.next ≡ NoMore
        → Fit trade (journals_in honest.ran.ran.happened.opening.journals) }
{
    runs_go_on_from_one_another::<P>();
    calls_go_on_from_one_another::<P>();
}
