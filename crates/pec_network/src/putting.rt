ghost use Rattle.std.specs.Prelude.{◌≡◌, ◌≢◌, ◌<◌, ◌≤◌, ◌^◌, ℕ, [], false, length, slice_index_or, Some, None};
ghost use Rattle.std.specs.Prelude.{IfErr, IfOk, IsErrOf};
ghost use Rattle.pec_types.specs.declared.turns.ProviderFault.TheVariants as faults;
ghost use Rattle.pec_outside.specs.Flow.{HasRisen};
ghost use Rattle.pec_plays.specs.Rounds.{link_size, sent_from};
ghost use Rattle.pec_plays.specs.Turns.{puts_from};
ghost use Rattle.pec_provider.specs.OfTrades.{world_at};
ghost use Rattle.pec_chronicle.specs.Carrying.{CarriesOn, NothingMay};
ghost use Rattle.pec_chronicle.specs.Chronicle.{Stands};
ghost use Rattle.pec_provider.specs.Provider.{RunsIn, desk_of};
ghost use Rattle.pec_network.specs.Turning.{NoneIsChanged, Puts, room_in};

use crate::steps::what_rests_carries_on;
use pec_outside::Disk;
use pec_provider::{House, Provider, ProviderFault, a_house_is_a_trade, nothing_has_changed};
use pec_seal::Sealer;
use pec_types::{Frame, Items, NoMemory};
use std::alloc::Global;

/// The frames of the letters that are due to each provider, by number, all composed of entries that are read for them.
pub(crate) fn puts<D: Disk, S: Sealer>(
    alloc: Global,
    house: &House<'_, S>,
    provider: &mut Provider<D>,
    rooms: &[usize],
) -> Result<Vec<Items<Frame>>, ProviderFault>
    requires runs { RunsIn house.now provider.old }
    requires up { provider.old.chronicle.down ≡ false }
    requires rooms { length rooms.now ≡ length house.now.directory.now }
    ensures out { IfOk result (λ out. Puts (D.tells × Stands D.sight provider.old.chronicle)
        (puts_from (world_at house.now) house.now.me provider.old.chronicle.entries (room_in rooms.now)
        provider.old.owed 0 (length house.now.directory.now))
        (room_in rooms.now) (desk_of provider.old) (desk_of provider.new) None out.items) }
    ensures count { IfOk result (λ out. length out.items < 2 ^ 32) }
    ensures failed { IfErr result (λ fault. fault ≢ faults.NoMemory
        → Puts (D.tells × Stands D.sight provider.old.chronicle)
        (puts_from (world_at house.now) house.now.me provider.old.chronicle.entries (room_in rooms.now)
        provider.old.owed 0 (length house.now.directory.now))
        (room_in rooms.now) (desk_of provider.old) (desk_of provider.new) (Some fault) []) }
    ensures unchanged { D.tells × Stands D.sight provider.old.chronicle → IfErr result (λ fault. NoneIsChanged
        (world_at house.now) house.now.me provider.old.chronicle.entries (Some fault)) }
    ensures no_memory { IsErrOf result faults.NoMemory → desk_of provider.new ≡ desk_of provider.old }
    ensures runs { RunsIn house.now provider.new }
    ensures carries { D.tells → CarriesOn D.sight NothingMay provider.old.chronicle provider.new.chronicle }
    ensures disk_fault { IsErrOf result faults.DiskFault
        → HasRisen (D.faults provider.old.chronicle.disk) (D.faults provider.new.chronicle.disk) }
    ensures later { D.faults provider.old.chronicle.disk ≤ D.faults provider.new.chronicle.disk }
{
    a_house_is_a_trade(house);
    nothing_has_changed();
    what_rests_carries_on::<D>();
    let mut out = Vec::new(alloc);
    for to in 0..house.directory.count() {
        out.reserve(1)?;
        let frames = provider.put_due(alloc, house, to, rooms[to as usize])?;
        out.push_reserved(Items::of(frames));
    }
    Ok(out)
}

/// The providers for which there are frames, each with how many.
pub(crate) fn sent(alloc: Global, out: &[Items<Frame>]) -> Result<Vec<(u32, u32)>, NoMemory>
    requires providers { length out.now < 2 ^ 32 }
    requires frames { (to : ℕ) → length (slice_index_or out.now to []) ≤ link_size }
    ensures { IfOk result (λ sent. sent.items ≡ sent_from 0 out.now) }
{
    let mut sent = Vec::new(alloc);
    for (to, frames) in out.iter().enumerate() {
        let count = frames.as_slice().len();
        if count > 0 {
            sent.push((to as u32, count as u32))?;
        }
    }
    Ok(sent)
}
