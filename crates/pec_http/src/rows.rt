ghost use Rattle.std.specs.Prelude.{◌≡◌, ◌↔◌, Err, IsOk, Result};
ghost use Rattle.pec_types.specs.Bytes.{Bytes};
ghost use Rattle.pec_http.specs.Asking.{Asks, Question, question_of};
ghost use Rattle.pec_http.specs.Rows.{Case, IsPutToDesk, IsStop};
ghost use Rattle.pec_http.specs.declared.passes.Pass.{Pass as PassShown};
ghost use Rattle.pec_http.specs.declared.stops.Stop.{Stop as StopShown};

use pec_http_head::a_request_is_seen_in_one_way;

/// The law of the rows: a request is stopped for a reason exactly where the row of that reason is the first that
/// applies, and is put to the desk exactly where none does. The function `question_of` says so too, and what is asked
/// then.
pub fn a_request_is_stopped_by_its_first_row()
    ensures stopped { (case : Case) (stop : StopShown) → (question_of case.pass case.seen ≡ Err stop) ↔ IsStop case stop }
    ensures put { (case : Case) → IsOk (question_of case.pass case.seen) ↔ IsPutToDesk case }
{}

/// The bytes of a request ask one thing of a desk, or are stopped for one reason.
pub fn a_request_asks_one_thing()
    ensures { (pass : Bytes → Bytes → PassShown) (input : Bytes) (asked other : Result Question StopShown)
        → Asks pass input asked → Asks pass input other → asked ≡ other }
{
    a_request_is_seen_in_one_way();
}
