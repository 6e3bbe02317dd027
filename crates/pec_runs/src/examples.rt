ghost use Rattle.std.specs.Prelude.{◌≡◌, ℕ, List, [], ◌∷◌, ◌++◌, codes, length, Some, None};
ghost use Rattle.pec_directory.specs.declared.faults.DirectoryFault.TheVariants as refusals;
ghost use Rattle.pec_directory.specs.declared.faults.Field.TheVariants as fields;
ghost use Rattle.pec_script.specs.declared.answers.Unfit.TheVariants as unfits;
ghost use Rattle.pec_script.specs.declared.faults.LineFault.TheVariants as line_faults;
ghost use Rattle.pec_ledger.specs.Network.{at_start};
ghost use Rattle.pec_ledger.specs.SmallWorld.{small};
ghost use Rattle.pec_plays.specs.Commands.{Crash, IsUp, NoFrame, Repeat, Restart, Restarted, played};
ghost use Rattle.pec_plays.specs.Examples.{calm, calmly, left_by, no_screens, to_the_end};
ghost use Rattle.pec_runs.specs.AnswerLines.{answers_text};
ghost use Rattle.pec_runs.specs.Endings as ends;
ghost use Rattle.pec_runs.specs.Examples.{faulty_lucks, faulty_script, full_link, looking_script, none_left, six_lines, some_answers, twice_marked, two};
ghost use Rattle.pec_runs.specs.Examples.{unmarked, unread_lucks};
ghost use Rattle.pec_runs.specs.Headline.{Headline};
ghost use Rattle.pec_input.specs.Directory.{of_directory};
ghost use Rattle.pec_input.specs.Lines.{raw_lines};
ghost use Rattle.pec_input.specs.Parts.{parts_of};
ghost use Rattle.pec_runs.specs.Openings.{Resume, Run, form_in};
ghost use Rattle.pec_runs.specs.Plays.{Ends, MayPlay, Stops, Stopped, ToTheEnd, faults_told, outcome_from};
ghost use Rattle.pec_runs.specs.Resuming.{IsAtRest};
ghost use Rattle.pec_runs.specs.ScriptLines.{TooMany, said_by, script_of};

use crate::headline::the_books_belong_to_the_ledger;
use pec_ledger::{a_world_is_there, soundness};
use pec_outside::Depot;
use pec_plays::a_run_is_there;

/// Worked examples of what goes in and what comes out, computed.
pub fn texts_of_the_examples()
    ensures words { form_in (codes "run" ∷ []) ∷ form_in (codes "resume" ∷ []) ∷ form_in
        (codes "run" ∷ codes "x" ∷ []) ∷ []
        ≡ Some Run ∷ Some Resume ∷ None ∷ [] }
    ensures marked { parts_of (raw_lines twice_marked)
        ≡ record { directory = codes "name\n"; script = Some (codes "# remark\n" ∷ codes "%%\n" ∷ codes "last" ∷ []) } }
    ensures not_marked { parts_of (raw_lines unmarked) ≡ record { directory = unmarked; script = None } }
    // A remark and an empty line are passed over but counted, and nothing behind a refused line is played.
    ensures script { script_of none_left two 1 six_lines ≡ record {
      commands = Crash 1 ∷ Restart 1 ∷ [];
      end = ends.LineRefused 5 (line_faults.UnknownProvider 1);
    } }
    ensures too_many { said_by None two 1000001 (codes "crash alfa\n") ≡ TooMany }
    ensures answers { answers_text two some_answers
        ≡ codes "lost\nno-frame\nlink-full\nfault disk\nclock-back 7\nalfa dropped\nalfa sent beta 3\nround\n" }
    ensures ends { ends.end_text two ends.Done ++ ends.end_text two ends.Usage ++ ends.end_text two ends.LongDirectory
        ++ ends.end_text two ends.NoScript
        ++ ends.end_text two (ends.DirectoryRefused (of_directory (refusals.BadField 0 fields.Key)))
        ++ ends.end_text two (ends.NotEmpty 0) ++ ends.end_text two (ends.NotFit 1 (unfits.Entry 3))
        ++ ends.end_text two (ends.LongLine 5)
        ++ ends.end_text two ends.LongScript ++ ends.end_text two (ends.LineRefused 5 (line_faults.BadNumber 2))
        ≡ codes "usage\ntoo-long directory\nrefused no-script\nrefused directory bad-field 0 key\n"
        ++ codes "not-empty alfa\nnot-fit beta entry 3\n"
        ++ codes "too-long line 5\ntoo-long script\nrefused line 5 bad-number 2\n" }
{}

/// Worked runs in the small world, computed: there are runs of every kind that laws ask for.
pub fn runs_of_the_examples<P: Depot>()
    // An append fails, and the restart finds the entry: one fault of alfa's disk is told, and none of beta's.
    ensures faulty { outcome_from small faulty_lucks ToTheEnd (at_start small no_screens) faulty_script
        ≡ record (outcome_from small faulty_lucks ToTheEnd (at_start small no_screens) faulty_script) { finish = Ends ends.Done } }
    ensures faults { faults_told small 0 faulty_script.commands
        (outcome_from small faulty_lucks ToTheEnd (at_start small no_screens) faulty_script).answers
        ∷ faults_told small 1 faulty_script.commands
        (outcome_from small faulty_lucks ToTheEnd (at_start small no_screens) faulty_script).answers ∷ []
        ≡ 1 ∷ 0 ∷ [] }
    // The read of an item fails, as an account of alfa looks at it: so it is told, once.
    ensures looked { faults_told small 0 looking_script.commands
        (outcome_from small unread_lucks ToTheEnd (at_start small no_screens) looking_script).answers
        ∷ faults_told small 1 looking_script.commands
        (outcome_from small unread_lucks ToTheEnd (at_start small no_screens) looking_script).answers ∷ []
        ≡ 1 ∷ 0 ∷ [] }
    // With a luck too few the script isn't at its end.
    ensures unfinished { (outcome_from small (calm ∷ []) ToTheEnd (at_start small no_screens) faulty_script).finish ≡ Stops }
    // No frame waits at the place, and the link is full: that there is none is told.
    ensures no_frame_first { (played small calm full_link (Repeat 0 0 64)).answer ≡ NoFrame }
    // To the end: all letters are answered, and nothing waits.
    ensures at_rest { IsAtRest small (left_by to_the_end) }
    ensures headline { Headline small (at_start small no_screens) (calmly to_the_end) to_the_end }
{
    the_books_belong_to_the_ledger();
    a_world_is_there();
    a_run_is_there();
    soundness();
}
