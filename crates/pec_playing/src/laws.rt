ghost use Rattle.std.specs.Prelude.{◌≡◌, ℕ, ◌<◌, ◌≤◌, List, length, Ok};
ghost use Rattle.pec_types.specs.Bytes.{Bytes};
ghost use Rattle.pec_types.specs.declared.turns.ProviderFault.{ProviderFault as SomeFault};
ghost use Rattle.pec_types.specs.declared.turns.ProviderFault.TheVariants as faults;
ghost use Rattle.pec_directory.specs.Directory.{Kept, providers_of};
ghost use Rattle.pec_ledger.specs.Trade.{Trade};
ghost use Rattle.pec_plays.specs.Commands.{Refuses};
ghost use Rattle.pec_network.specs.OfProviders.{ProviderState};
ghost use Rattle.pec_network.specs.Carrying.{NoneFalls};
ghost use Rattle.pec_network.specs.Changing.{HasRisenAt};
ghost use Rattle.pec_network.specs.Network.{NetworkState};
ghost use Rattle.pec_screen.specs.Verdicts.{Patterns};
ghost use Rattle.pec_script.specs.LinesReading.{command_of};
ghost use Rattle.pec_script.specs.declared.commands.Command.{Command as Written};
ghost use Rattle.pec_runs.specs.ScriptLines.{longest_line};
ghost use Rattle.pec_runs.specs.Plays.{RoseBy, faults_at};
ghost use Rattle.pec_runs.specs.Steps.{AreCounted, IsMoment};
ghost use Rattle.pec_playing.specs.Doing.{Carries, Keeps};
ghost use Rattle.pec_playing.specs.Playing.{CanPlay, counts_in};
ghost use Rattle.pec_playing.specs.Points.{state_in};

use pec_network::laws::a_call_leaves_what_follows;
use pec_outside::Disk;
use pec_script::a_line_has_one_reading;
use pec_seal::Sealer;

/// What a line says that isn't too long can be played over a network of the same directory.
pub fn what_a_line_says_can_be_played()
    ensures { (kept : List Kept) (line : Bytes) (command : Written) → length line ≤ longest_line
        → command_of (providers_of kept) line ≡ Ok command → CanPlay (length kept) command }
{
    a_line_has_one_reading();
}

/// A call of one provider raises the count of its disk's faults by as many as its answer tells, and no count falls.
pub fn what_is_told_was_counted<D: Disk>()
    ensures refused { (old new : List (ProviderState D)) → length new ≡ length old → (elsewhere : ℕ → ℕ)
        → NoneFalls D.faults old new → (asked : ℕ) → asked < length old → (fault : SomeFault)
        → (fault ≡ faults.DiskFault → HasRisenAt D.faults asked old new) → (number : ℕ)
        → RoseBy (faults_at number asked (Refuses fault)) (counts_in D.faults old elsewhere number)
        (counts_in D.faults new elsewhere number) }
    ensures later { (old new : List (ProviderState D)) → length new ≡ length old → (elsewhere : ℕ → ℕ)
        → NoneFalls D.faults old new → (number : ℕ)
        → counts_in D.faults old elsewhere number ≤ counts_in D.faults new elsewhere number }
{}

/// What every command keeps is kept by all of them: by none, and by one behind others.
pub fn what_is_kept_is_kept_on<D: Disk, S: Sealer>()
    ensures none { (network : NetworkState D S) → Keeps D.sight D.faults D.tells network network }
    ensures one { (old mid new : NetworkState D S) → Keeps D.sight D.faults D.tells old mid
        → Keeps D.sight D.faults D.tells mid new → Keeps D.sight D.faults D.tells old new }
{}

/// Where the providers of a network carry on, a crash leaves at each moment of that what may follow, as a run says it
/// of a step; and the counts of faults of its state are those of its disks.
pub fn what_carries_on_is_a_moment<D: Disk, S: Sealer>()
    ensures counted { (network : NetworkState D S) (elsewhere : ℕ → ℕ) (spares : List Patterns)
        → AreCounted D.faults (state_in D.faults elsewhere spares network) }
    ensures moment { D.tells → (trade : Trade) (old new : NetworkState D S) → length new.providers ≡ length old.providers
        → Carries D.sight D.tells trade old new → (elsewhere : ℕ → ℕ) (spares left : List Patterns)
        → IsMoment trade D.sight (state_in D.faults elsewhere spares old) (state_in D.faults elsewhere left new) }
{
    a_call_leaves_what_follows::<D>();
}
