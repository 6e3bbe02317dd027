ghost use Rattle.std.specs.Prelude.{◌≡◌, ◌≢◌, List, [], ◌∷◌, map, Option, Some, None, IfSome};
ghost use Rattle.pec_types.specs.Bytes.{Bytes};
ghost use Rattle.pec_directory.specs.Directory.{Provider};
ghost use Rattle.pec_ledger.specs.Trade.{Trade};
ghost use Rattle.pec_runs.specs.Endings.{End, end_text};
ghost use Rattle.pec_runs.specs.Reading.{AreLinesLeft, GoesOn, IsLineRead, IsRead, LinePoint, Reads, TellsOn, behind_line};
ghost use Rattle.pec_runs.specs.Reading.{commands_by};
ghost use Rattle.pec_runs.specs.ScriptLines.{Hands, Line, nothing_but, said_by, script_of};
ghost use Rattle.pec_runs.specs.Statuses as statuses;
ghost use Rattle.pec_runs.specs.Steps.{Goes, Plays, Point, Stop, WriteFault, Writes, status_by, stopped_status};
ghost use Rattle.pec_screen.specs.Verdicts.{Patterns};

use pec_outside::Depot;

/// How a loop over the lines of a script goes: it starts with none read; what a line says with the spare that is at
/// hand is played, and of one that is passed over nothing is. The script of all lines was played where the loop is at
/// the end of the input, at a line at which the script ends, or is stopped, within what a line says or between two
/// lines.
pub fn lines_are_climbed<P: Depot>()
    ensures starts { (trade : Trade) (providers : List Provider) (first : LinePoint P.D)
        → Reads trade providers (P.tells × P.D.tells) P.D.sight P.D.faults first first }
    ensures on { (trade : Trade) (providers : List Provider) (first here : LinePoint P.D)
        (there : Point P.D) (spare : Option Patterns) (line : Bytes) (what : Line) (behind : Option Bytes)
        → said_by spare providers here.number line ≡ what → GoesOn what
        → IsLineRead here.unread line behind → TellsOn here.unread behind
        → Goes trade providers (P.tells × P.D.tells) P.D.sight P.D.faults (map Plays (commands_by what)) here.point there None
        → Reads trade providers (P.tells × P.D.tells) P.D.sight P.D.faults first here
        → Reads trade providers (P.tells × P.D.tells) P.D.sight P.D.faults first (behind_line here there behind) }
    ensures over { (trade : Trade) (providers : List Provider) (first here : LinePoint P.D)
        → IfSome here.unread (λ text. text ≡ []) → Reads trade providers (P.tells × P.D.tells) P.D.sight P.D.faults first
        here
        → IsRead trade providers (P.tells × P.D.tells) P.D.sight P.D.faults first here.point statuses.Done }
    // The last line is written, or a front of it.
    ensures ended { (trade : Trade) (providers : List Provider) (first here : LinePoint P.D)
        (there : Point P.D) (lines : List Bytes) (end : End) (stop : Option Stop)
        → ((hands : Hands) → script_of hands providers here.number lines ≡ nothing_but end)
        → AreLinesLeft here.unread lines
        → Goes trade providers (P.tells × P.D.tells) P.D.sight P.D.faults (Writes (end_text providers end) ∷ []) here.point there
        stop
        → Reads trade providers (P.tells × P.D.tells) P.D.sight P.D.faults first here
        → IsRead trade providers (P.tells × P.D.tells) P.D.sight P.D.faults first there (status_by end stop) }
    ensures stopped { (trade : Trade) (providers : List Provider) (first here : LinePoint P.D)
        (there : Point P.D) (spare : Option Patterns) (line : Bytes) (what : Line) (behind : Option Bytes) (stop : Stop)
        → said_by spare providers here.number line ≡ what → GoesOn what
        → IsLineRead here.unread line behind → TellsOn here.unread behind
        → Goes trade providers (P.tells × P.D.tells) P.D.sight P.D.faults (map Plays (commands_by what)) here.point there (Some
        stop)
        → Reads trade providers (P.tells × P.D.tells) P.D.sight P.D.faults first here
        → IsRead trade providers (P.tells × P.D.tells) P.D.sight P.D.faults first there (stopped_status stop) }
    ensures halted { (trade : Trade) (providers : List Provider) (first here : LinePoint P.D)
        (stop : Stop) → stop ≢ WriteFault → Reads trade providers (P.tells × P.D.tells) P.D.sight P.D.faults first here
        → IsRead trade providers (P.tells × P.D.tells) P.D.sight P.D.faults first here.point (stopped_status stop) }
{}
