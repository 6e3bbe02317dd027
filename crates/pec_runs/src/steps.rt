ghost use Rattle.std.specs.Prelude.{◌≡◌, ◌≢◌, List, [], ◌∷◌, ◌++◌, Option, Some, None};
ghost use Rattle.pec_types.specs.Bytes.{Bytes};
ghost use Rattle.pec_outside.specs.Flow.{HasRisen, followed_by};
ghost use Rattle.pec_directory.specs.Directory.{Provider};
ghost use Rattle.pec_ledger.specs.Trade.{Trade};
ghost use Rattle.pec_plays.specs.Commands.{Command, Luck, played};
ghost use Rattle.pec_runs.specs.AnswerLines.{answer_text};
ghost use Rattle.pec_runs.specs.Plays.{MayStray};
ghost use Rattle.pec_runs.specs.Ran.{LeavesOff};
ghost use Rattle.pec_runs.specs.ScriptLines.{Script};
ghost use Rattle.pec_runs.specs.Steps.{Act, AreCounted, Climbs, Goes, IsCall, IsHanded, IsMoment, IsScriptPlayed, IsWritten, NoMemory, NoneFell, Plays};
ghost use Rattle.pec_runs.specs.Steps.{Point, Stop, WriteFault, Writes, acts_of_script, status_by};

use pec_outside::Depot;

/// How a run goes on, and how a loop over acts climbs: it starts with all acts left; behind some that were done the
/// others are left; where it is stopped within some, the whole run was stopped so; and where none is left it went by
/// all. `tells` is that disks tell what they hold.
pub fn acts_are_joined<P: Depot>()
    ensures starts { (trade : Trade) (providers : List Provider) (acts : List Act) (first : Point P.D)
        → Climbs trade providers (P.tells × P.D.tells) P.D.sight P.D.faults acts acts first first }
    ensures on { (trade : Trade) (providers : List Provider) (acts some left : List Act) (first here there : Point P.D)
        → Climbs trade providers (P.tells × P.D.tells) P.D.sight P.D.faults acts (some ++ left) first here
        → Goes trade providers (P.tells × P.D.tells) P.D.sight P.D.faults some here there None
        → Climbs trade providers (P.tells × P.D.tells) P.D.sight P.D.faults acts left first there }
    ensures stops { (trade : Trade) (providers : List Provider) (acts some left : List Act)
        (first here there : Point P.D) (stop : Stop)
        → Climbs trade providers (P.tells × P.D.tells) P.D.sight P.D.faults acts (some ++ left) first here
        → Goes trade providers (P.tells × P.D.tells) P.D.sight P.D.faults some here there (Some stop)
        → Goes trade providers (P.tells × P.D.tells) P.D.sight P.D.faults acts first there (Some stop) }
    ensures ends { (trade : Trade) (providers : List Provider) (acts : List Act) (first here : Point P.D)
        → Climbs trade providers (P.tells × P.D.tells) P.D.sight P.D.faults acts [] first here
        → Goes trade providers (P.tells × P.D.tells) P.D.sight P.D.faults acts first here None }
    // A run that went by some acts goes on by others, whether it is stopped within them or not.
    ensures goes_on { (trade : Trade) (providers : List Provider) (done acts : List Act)
        (first here there : Point P.D) (stop : Option Stop)
        → Goes trade providers (P.tells × P.D.tells) P.D.sight P.D.faults done first here None
        → Goes trade providers (P.tells × P.D.tells) P.D.sight P.D.faults acts here there stop
        → Goes trade providers (P.tells × P.D.tells) P.D.sight P.D.faults (done ++ acts) first there stop }
    // Where it was stopped within some acts, more may have been left.
    ensures stops_before { (trade : Trade) (providers : List Provider) (some left : List Act) (here there : Point P.D)
        (stop : Stop) → Goes trade providers (P.tells × P.D.tells) P.D.sight P.D.faults some here there (Some stop)
        → Goes trade providers (P.tells × P.D.tells) P.D.sight P.D.faults (some ++ left) here there (Some stop) }
{}

/// How a run goes by one act: a command was played and its lines were written, or a front of them; memory ran out in
/// it; it strayed; or a text was written. And where acts are left, input and memory may stop it with nothing done. Of a
/// command it has to be said what a crash may leave of disks at any moment of it, and that the counts of faults behind it
/// are those of the disks.
pub fn an_act_is_done<P: Depot>()
    ensures played { (trade : Trade) (providers : List Provider) (command : Command) (luck : Luck)
        (here there : Point P.D) (stop : Option Stop)
        → IsCall trade (P.tells × P.D.tells) here.state.sites here.state.counts there.state.counts command luck
        there.state.sites
        → IsHanded trade here.state.spares here.state.sites command luck there.state.spares
        → AreCounted P.D.faults there.state
        → (P.tells × P.D.tells → IsMoment trade P.D.sight here.state there.state) → NoneFell here there
        → IsWritten (answer_text providers (played trade luck here.state.sites command).answer) here there stop
        → Goes trade providers (P.tells × P.D.tells) P.D.sight P.D.faults (Plays command ∷ []) here there stop }
    ensures stopped { (trade : Trade) (providers : List Provider) (command : Command) (here there : Point P.D)
        → LeavesOff trade here.state.sites (Some command) there.state.sites
        → (P.tells × P.D.tells → IsMoment trade P.D.sight here.state there.state) → NoneFell here there
        → there.held ≡ here.held
        → Goes trade providers (P.tells × P.D.tells) P.D.sight P.D.faults (Plays command ∷ []) here there (Some NoMemory) }
    ensures strayed { (trade : Trade) (providers : List Provider) (command : Command) (here there : Point P.D)
        (text : Bytes) (stop : Option Stop) → MayStray (P.tells × P.D.tells) here.state.sites (Some command)
        → NoneFell here there → there.held ≡ followed_by here.held text
        → (stop ≡ Some WriteFault → HasRisen here.faults there.faults)
        → Goes trade providers (P.tells × P.D.tells) P.D.sight P.D.faults (Plays command ∷ []) here there stop }
    ensures written { (trade : Trade) (providers : List Provider) (text : Bytes) (here there : Point P.D)
        (stop : Option Stop) → there.state ≡ here.state → NoneFell here there → IsWritten text here there stop
        → Goes trade providers (P.tells × P.D.tells) P.D.sight P.D.faults (Writes text ∷ []) here there stop }
    ensures halted { (trade : Trade) (providers : List Provider) (acts : List Act) (here : Point P.D) (stop : Stop)
        → acts ≢ [] → stop ≢ WriteFault
        → Goes trade providers (P.tells × P.D.tells) P.D.sight P.D.faults acts here here (Some stop) }
{}

/// What a run comes to that goes by the acts of a script: the script is played with lucks that may be, to an outcome of
/// which its status says what was written, and it leaves the journals of that outcome.
pub fn acts_are_a_script<P: Depot>()
    ensures { (trade : Trade) (providers : List Provider) (script : Script) (here there : Point P.D)
        (stop : Option Stop)
        → Goes trade providers (P.tells × P.D.tells) P.D.sight P.D.faults (acts_of_script providers script) here there stop
        → IsScriptPlayed trade providers (P.tells × P.D.tells) P.D.sight P.D.faults script (status_by script.end stop) here there }
{}
