ghost use Rattle.std.specs.Prelude.{◌≡◌, ◌<◌, ◌≤◌, ℕ, List, [], ◌∷◌, ◌++◌, map, Option};
ghost use Rattle.pec_types.specs.declared.moments.TheConstants.{END_OF_TIME};
ghost use Rattle.pec_directory.specs.Directory.{Kept, Provider};
ghost use Rattle.pec_ledger.specs.Trade.{Trade};
ghost use Rattle.pec_runs.specs.AnswerLines.{answer_text};
ghost use Rattle.pec_runs.specs.Steps.{Goes, Plays, Point, Stop};
ghost use Rattle.pec_service.specs.Calls.{AllMayCome, AreCalls, Call, ClockWent, IsCall, State, answer_of, calls_text};
ghost use Rattle.pec_service.specs.Calls.{clock_from, commands_of, state_behind};
ghost use Rattle.pec_service.specs.Connections.{Connection, IsConnection, Place, connection_text};
ghost use Rattle.pec_service.specs.Services.{AreConnections, connections_text, place_behind};

use pec_outside::{Depot, Disk};
use pec_plays::a_network_stays_sound;

/// How a loop over calls climbs: one more stands behind those so far, and so do its lines.
pub fn calls_are_joined<P: Depot>()
    ensures one { (trade : Trade) (here : State) (calls : List Call) (call : Call)
        → AreCalls trade (P.tells × P.D.tells) here calls
        → IsCall trade (P.tells × P.D.tells) (state_behind here calls) call
        → AreCalls trade (P.tells × P.D.tells) here (calls ++ call ∷ []) }
    ensures all { (trade : Trade) (here : State) (calls more : List Call)
        → AreCalls trade (P.tells × P.D.tells) here calls
        → AreCalls trade (P.tells × P.D.tells) (state_behind here calls) more
        → AreCalls trade (P.tells × P.D.tells) here (calls ++ more) }
    // The counts of faults may be taken earlier.
    ensures since { (trade : Trade) (here there : State) (calls : List Call) → here.sites ≡ there.sites
        → ((provider : ℕ) → here.counts provider ≤ there.counts provider)
        → AreCalls trade (P.tells × P.D.tells) there calls → AreCalls trade (P.tells × P.D.tells) here calls }
    // What is behind calls, and what is written of them, hangs on the state alone from which they are played.
    ensures same { (here there : State) (calls : List Call) → here.sites ≡ there.sites
        → (state_behind here calls).sites ≡ (state_behind there calls).sites }
    ensures later { (here there : State) (calls : List Call)
        → ((provider : ℕ) → here.counts provider ≤ there.counts provider)
        → (provider : ℕ) → (state_behind here calls).counts provider ≤ (state_behind there calls).counts provider }
    ensures same_text { (trade : Trade) (providers : List Provider) (here there : State) (calls : List Call)
        → here.sites ≡ there.sites
        → calls_text trade providers here calls ≡ calls_text trade providers there calls }
    ensures behind { (here : State) (calls more : List Call)
        → state_behind here (calls ++ more) ≡ state_behind (state_behind here calls) more }
    ensures commands { (calls : List Call) (call : Call)
        → commands_of (calls ++ call ∷ []) ≡ commands_of calls ++ call.command ∷ [] }
    ensures text { (trade : Trade) (providers : List Provider) (here : State) (calls : List Call) (call : Call)
        → calls_text trade providers here (calls ++ call ∷ [])
        ≡ calls_text trade providers here calls
        ++ answer_text providers (answer_of trade (state_behind here calls).sites call) }
{}

/// What a run comes to that goes by the clock calls of so many providers, from one on, and a round: they are calls, one
/// after another, and it can't stray, for none of them is a restart.
pub fn acts_are_calls<P: Depot>()
    ensures went { (trade : Trade) (providers : List Provider) (more from moment : ℕ) (here there : Point P.D)
        (stop : Option Stop)
        → Goes trade providers (P.tells × P.D.tells) P.D.sight P.D.faults (map Plays (clock_from more from moment)) here there stop
        → ClockWent trade providers (P.tells × P.D.tells) P.D.sight P.D.faults (clock_from more from moment) here there stop }
    ensures may_come { (trade : Trade) (more from moment : ℕ) → moment < END_OF_TIME
        → AllMayCome trade (clock_from more from moment) }
{
    a_network_stays_sound();
}

/// How a loop over connections climbs.
pub fn connections_are_joined<P: Depot>()
    ensures one { (trade : Trade) (kept : List Kept) (here : Place) (connections : List Connection)
        (connection : Connection) → AreConnections trade (P.tells × P.D.tells) kept here connections
        → IsConnection trade (P.tells × P.D.tells) kept (place_behind here connections) connection
        → AreConnections trade (P.tells × P.D.tells) kept here (connections ++ connection ∷ []) }
    ensures behind { (here : Place) (connections : List Connection) (connection : Connection)
        → place_behind here (connections ++ connection ∷ []) ≡ connection.behind }
    ensures text { (trade : Trade) (kept : List Kept) (here : Place) (connections : List Connection)
        (connection : Connection)
        → connections_text trade kept here (connections ++ connection ∷ [])
        ≡ connections_text trade kept here connections
        ++ connection_text trade kept (place_behind here connections).network connection }
{}
