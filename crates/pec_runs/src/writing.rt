ghost use Rattle.std.specs.Prelude.{◌≡◌, ℕ, ◌≤◌, List, [], None, Option, length};
ghost use Rattle.pec_types.specs.Bytes.{Bytes};
ghost use Rattle.pec_outside.specs.Flow.{WrotePart, followed_by};
ghost use Rattle.pec_directory.specs.Directory.{Provider};
ghost use Rattle.pec_ledger.specs.Network.{Site};
ghost use Rattle.pec_ledger.specs.Trade.{Trade};
ghost use Rattle.pec_plays.specs.Commands.{Answer, Command, Luck};
ghost use Rattle.pec_plays.specs.Scripts.{script};
ghost use Rattle.pec_runs.specs.AnswerLines.{AreLines, answers_text};
ghost use Rattle.pec_runs.specs.Endings.{End, end_text};
ghost use Rattle.pec_runs.specs.Endings as ends;
ghost use Rattle.pec_runs.specs.Happened.{Asked, Happened, outcome_of, providers_in};
ghost use Rattle.pec_runs.specs.Openings.{form_in};
ghost use Rattle.pec_runs.specs.Plays.{Ends, RoseAlong, RoseBy, faults_told, outcome_text};
ghost use Rattle.pec_runs.specs.Ran.{Counts, RanOver};
ghost use Rattle.pec_runs.specs.Statuses.{Status};
ghost use Rattle.pec_runs.specs.Statuses as statuses;
ghost use Rattle.pec_runs.specs.Writing.{HasEnded, IsDone, IsOfEnd, WroteAnswers};

use pec_outside::Depot;

/// Answers are written as whole lines, and so is a last line. As many commands have answers as had a luck.
pub fn answers_are_whole_lines()
    ensures answers { (providers : List Provider) (answers : List Answer) → AreLines (answers_text providers answers) }
    ensures ends { (providers : List Provider) (end : End) → AreLines (end_text providers end) }
    ensures count { (trade : Trade) (lucks : List Luck) (sites : List Site) (commands : List Command)
        → length lucks ≤ length commands
        → length (script trade lucks sites commands).answers ≡ length lucks }
{}

/// Along a script each fault that is told of a disk raised that disk's count in the command that tells it; so in all
/// the count rose by as many faults at least as were told.
pub fn faults_are_counted()
    ensures { (trade : Trade) (lucks : List Luck) (sites : List Site) (commands : List Command) (from upto : ℕ → ℕ)
        → RoseAlong trade lucks sites commands from upto → (provider : ℕ)
        → RoseBy (faults_told trade provider commands (script trade lucks sites commands).answers)
        (from provider) (upto provider) }
{}

/// What a status says of what was written, over disks that tell what they hold. A run that was stopped by its input
/// or for want of memory wrote the lines of whole commands, and no last line; one whose output failed a front of its
/// outcome; one whose disks failed while journals were made or opened nothing. Any other wrote the lines of its
/// answers, and the last line of its end, which has its status.
pub fn a_status_says_what_was_written<P: Depot>()
    ensures read_fault { (asked : Asked) (unread before after : Option Bytes) (depot left : P) (old new : Counts)
        → P.tells × P.D.tells
        → (ran : RanOver (P.tells × P.D.tells) P.D.sight asked statuses.ReadFault unread before after (P.home depot)
        (P.home left) old new)
        → WroteAnswers asked ran.happened before after }
    ensures no_memory { (asked : Asked) (unread before after : Option Bytes) (depot left : P) (old new : Counts)
        → P.tells × P.D.tells
        → (ran : RanOver (P.tells × P.D.tells) P.D.sight asked statuses.NoMemory unread before after (P.home depot)
        (P.home left) old new)
        → WroteAnswers asked ran.happened before after }
    ensures write_fault { (asked : Asked) (unread before after : Option Bytes) (depot left : P) (old new : Counts)
        → P.tells × P.D.tells
        → (ran : RanOver (P.tells × P.D.tells) P.D.sight asked statuses.WriteFault unread before after (P.home depot)
        (P.home left) old new)
        → WrotePart before after (outcome_text (providers_in ran.happened.setting) (outcome_of asked ran.happened)) }
    ensures start_fault { (asked : Asked) (unread before after : Option Bytes) (depot left : P) (old new : Counts)
        → P.tells × P.D.tells
        → (ran : RanOver (P.tells × P.D.tells) P.D.sight asked statuses.StartFault unread before after (P.home depot)
        (P.home left) old new)
        → after ≡ followed_by before [] }
    ensures ended { (asked : Asked) (status : Status) (unread before after : Option Bytes) (depot left : P)
        (old new : Counts)
        → P.tells × P.D.tells → IsOfEnd status
        → (ran : RanOver (P.tells × P.D.tells) P.D.sight asked status unread before after (P.home depot)
        (P.home left) old new)
        → HasEnded asked ran.happened status before after }
    // Words that are no form are at fault, and nothing else is looked at.
    ensures usage { (asked : Asked) (happened : Happened) → form_in asked.words ≡ None
        → (outcome_of asked happened).finish ≡ Ends ends.Usage }
    // Status 0: the script was played to its end.
    ensures done { (asked : Asked) (unread before after : Option Bytes) (depot left : P) (old new : Counts)
        → P.tells × P.D.tells
        → (ran : RanOver (P.tells × P.D.tells) P.D.sight asked statuses.Done unread before after (P.home depot)
        (P.home left) old new)
        → IsDone asked ran.happened }
{}
