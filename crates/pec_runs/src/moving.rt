ghost use Rattle.std.specs.Prelude.{List};
ghost use Rattle.pec_ledger.specs.Trade.{Trade};
ghost use Rattle.pec_runs.specs.Moves.{Moves, MovesOn};
ghost use Rattle.pec_runs.specs.Steps.{State};

use pec_outside::{Depot, Disk};

/// How a network moves on: by no step; by some behind others, of which the last may be one within which it was stopped.
/// What is said of moments where disks tell what they hold is said where the depot tells them, too.
pub fn moves_are_joined<P: Depot>()
    ensures none { (trade : Trade) (here : State P.D) → MovesOn trade (P.tells × P.D.tells) P.D.sight P.D.faults here here }
    ensures on { (trade : Trade) (first here there : State P.D)
        → MovesOn trade (P.tells × P.D.tells) P.D.sight P.D.faults first here
        → MovesOn trade (P.tells × P.D.tells) P.D.sight P.D.faults here there
        → MovesOn trade (P.tells × P.D.tells) P.D.sight P.D.faults first there }
    ensures part { (trade : Trade) (first here there : State P.D)
        → MovesOn trade (P.tells × P.D.tells) P.D.sight P.D.faults first here
        → Moves trade (P.tells × P.D.tells) P.D.sight P.D.faults here there
        → Moves trade (P.tells × P.D.tells) P.D.sight P.D.faults first there }
    ensures told { (trade : Trade) (here there : State P.D) → MovesOn trade P.D.tells P.D.sight P.D.faults here there
        → MovesOn trade (P.tells × P.D.tells) P.D.sight P.D.faults here there }
{}
