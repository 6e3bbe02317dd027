ghost use Rattle.std.specs.Prelude.{◌≡◌, ◌≢◌, ℕ, ◌<◌, ◌≤◌, ◌^◌, false, [], length, slice_index_or, Some, None};
ghost use Rattle.std.specs.Prelude.{IfOk, IfErr, IsErrOf, OnOk, OnErr};
ghost use Rattle.pec_types.specs.declared.turns.ProviderFault.TheVariants as faults;
ghost use Rattle.pec_outside.specs.Flow.{HasRisen};
ghost use Rattle.pec_plays.specs.Decisions.{undecided};
ghost use Rattle.pec_plays.specs.Rounds.{link_size, sent_from};
ghost use Rattle.pec_plays.specs.Turns.{frames_in, puts_from};
ghost use Rattle.pec_provider.specs.OfTrades.{world_at};
ghost use Rattle.pec_chronicle.specs.Carrying.{CarriesOn, NothingMay};
ghost use Rattle.pec_chronicle.specs.Chronicle.{Stands};
ghost use Rattle.pec_provider.specs.Provider.{RunsIn, desk_of, site_of};
ghost use Rattle.pec_provider.specs.Working.{IsAtWork};
ghost use Rattle.pec_rows.specs.Rows.{knowns, waits};
ghost use Rattle.pec_network.specs.Looking.{LookAlike};
ghost use Rattle.pec_network.specs.Turning.{CarriesFrames, Ends, Leads, NoneIsChanged, Puts, StopsShort, Took, room_in};
ghost use Rattle.pec_network.specs.Turning.{told_of, turn_of};

use crate::putting::{puts, sent};
use crate::steps::{decide_pairs, take_frames, what_rests_carries_on};
use pec_outside::Disk;
use pec_plays::{a_turn_puts_what_is_due, frames_are_taken_in_order};
use pec_provider::{Event, House, Provider, ProviderFault, a_house_is_a_trade};
use pec_rows::Takers;
use pec_screen::Judge;
use pec_seal::Sealer;
use pec_types::{Frame, Items, Moment, NoMemory, Turn};
use std::alloc::Global;

/// What a provider did in its turn: what is told of it, and the frames that it put for each provider, by number.
#[derive(Drop)]
pub struct Taken {
    pub turn: Turn,
    pub out: Items<Items<Frame>>,
}

/// A provider's turn in a round, with the frames that wait for it, where its links have so much room by number of
/// provider. Where it is down or the clock is behind its journal it takes and puts nothing. Otherwise it handles the
/// frames in their order, decides on what it took, at which its screens look, and puts the letters that are due, once
/// all are composed. A full journal or a fault of the disk ends the turn: the frame in hand is gone, later frames stay,
/// and nothing is put. So does an entry that can't be read for a decision or a letter, or isn't what that is made of:
/// all frames are handled by then.
pub fn take_turn<D: Disk, S: Sealer, J: Judge>(
    alloc: Global,
    house: &House<'_, S>,
    provider: &mut Provider<D>,
    judge: &mut J,
    takers: &mut Takers,
    moment: Moment,
    rooms: &[usize],
) -> Result<Taken, NoMemory>
    requires runs { RunsIn house.now provider.old }
    requires nothing_owed { provider.old.owed ≡ [] }
    requires rooms { length rooms.now ≡ length house.now.directory.now }
    requires short { (to : ℕ) → room_in rooms.now to ≤ link_size }

    // It is a turn of the rounds of pec_plays, with a cut that it tells. Over a disk that tells what it holds, and on
    // which what is kept stood, its screens looked at what was taken, and no other frames were put than those that were
    // due; and where the journals as it ends are Fit it doesn't end by `Changed`.
    ensures took { IfOk result (λ taken. Took (D.tells × Stands D.sight provider.old.chronicle) (world_at house.now)
        house.now.me moment (room_in rooms.now)
        (site_of (desk_of provider.old) (J.patterns judge.old) (waits takers.old))
        (turn_of (site_of (desk_of provider.new) (J.patterns judge.old) (waits takers.new)) taken.turn taken.out)) }
    ensures told { IfOk result (λ taken. taken.turn ≡ told_of house.now.me (turn_of (site_of (desk_of provider.new)
        (J.patterns judge.old) (waits takers.new)) taken.turn taken.out)) }

    // Want of memory is no turn.
    ensures memory { IfOk result (λ taken. taken.turn.ended ≢ Some faults.NoMemory) }

    // It puts no more than there is room for.
    ensures fit { IfOk result (λ taken. (to : ℕ) → length (slice_index_or taken.out to []) ≤ room_in rooms.now to) }

    // On want of memory what was appended is a front of the turn, in which over such a disk its screens looked at what
    // was taken.
    ensures short { OnErr result (StopsShort (D.tells × Stands D.sight provider.old.chronicle) (world_at house.now) house.now.me moment
        (site_of (desk_of provider.old) (J.patterns judge.old) (waits takers.old))
        (site_of (desk_of provider.new) (J.patterns judge.old) (waits takers.new))) }
    ensures nothing_owed { provider.new.owed ≡ [] }

    // Its screens have looked, each as often.
    ensures patterns { J.patterns judge.new ≡ J.patterns judge.old }
    ensures looked { LookAlike (J.seen judge.old) (J.seen judge.new) }
    ensures runs { RunsIn house.now provider.new }
    ensures links { length (waits takers.new) ≡ length (waits takers.old) }
    ensures kept { knowns takers.new ≡ knowns takers.old }

    // At every moment a crash leaves entries that may follow in the ledger of any journals in which the frames are
    // genuine.
    ensures carries { D.tells → CarriesFrames (world_at house.now) house.now.me moment D.sight
        provider.old.chronicle (waits takers.old) provider.new.chronicle (waits takers.new) }

    // What stands on its disk stands there again, whatever the frames are.
    ensures stands { D.tells → Stands D.sight provider.old.chronicle → Stands D.sight provider.new.chronicle }
    ensures disk_fault { IfOk result (λ taken. taken.turn.ended ≡ Some faults.DiskFault →
        HasRisen (D.faults provider.old.chronicle.disk) (D.faults provider.new.chronicle.disk)) }
    ensures later { D.faults provider.old.chronicle.disk ≤ D.faults provider.new.chronicle.disk }
{
    let taken = turn(alloc, house, provider, judge, takers, moment, rooms);
    provider.end_turn();
    taken
}

/// The turn, but for the answers that are owed in it, which are forgotten when it ends.
fn turn<D: Disk, S: Sealer, J: Judge>(
    alloc: Global,
    house: &House<'_, S>,
    provider: &mut Provider<D>,
    judge: &mut J,
    takers: &mut Takers,
    moment: Moment,
    rooms: &[usize],
) -> Result<Taken, NoMemory>
    requires runs { RunsIn house.now provider.old }
    requires nothing_owed { provider.old.owed ≡ [] }
    requires rooms { length rooms.now ≡ length house.now.directory.now }
    requires short { (to : ℕ) → room_in rooms.now to ≤ link_size }
    ensures took { IfOk result (λ taken. Took (D.tells × Stands D.sight provider.old.chronicle) (world_at house.now)
        house.now.me moment (room_in rooms.now)
        (site_of (desk_of provider.old) (J.patterns judge.old) (waits takers.old))
        (turn_of (site_of (desk_of provider.new) (J.patterns judge.old) (waits takers.new)) taken.turn taken.out)) }
    ensures told { IfOk result (λ taken. taken.turn ≡ told_of house.now.me (turn_of (site_of (desk_of provider.new)
        (J.patterns judge.old) (waits takers.new)) taken.turn taken.out)) }
    ensures memory { IfOk result (λ taken. taken.turn.ended ≢ Some faults.NoMemory) }
    ensures fit { IfOk result (λ taken. (to : ℕ) → length (slice_index_or taken.out to []) ≤ room_in rooms.now to) }
    ensures short { OnErr result (StopsShort (D.tells × Stands D.sight provider.old.chronicle) (world_at house.now) house.now.me moment
        (site_of (desk_of provider.old) (J.patterns judge.old) (waits takers.old))
        (site_of (desk_of provider.new) (J.patterns judge.old) (waits takers.new))) }
    ensures patterns { J.patterns judge.new ≡ J.patterns judge.old }
    ensures looked { LookAlike (J.seen judge.old) (J.seen judge.new) }
    ensures runs { RunsIn house.now provider.new }
    ensures links { length (waits takers.new) ≡ length (waits takers.old) }
    ensures kept { knowns takers.new ≡ knowns takers.old }
    ensures carries { D.tells → CarriesFrames (world_at house.now) house.now.me moment D.sight
        provider.old.chronicle (waits takers.old) provider.new.chronicle (waits takers.new) }
    ensures stands { D.tells → Stands D.sight provider.old.chronicle → Stands D.sight provider.new.chronicle }
    ensures disk_fault { IfOk result (λ taken. taken.turn.ended ≡ Some faults.DiskFault →
        HasRisen (D.faults provider.old.chronicle.disk) (D.faults provider.new.chronicle.disk)) }
    ensures later { D.faults provider.old.chronicle.disk ≤ D.faults provider.new.chronicle.disk }
{
    a_house_is_a_trade(house);
    a_turn_puts_what_is_due();
    frames_are_taken_in_order();
    what_rests_carries_on::<D>();
    if let Err(fault) = provider.at_work(moment) {
        return Ok(ended(alloc, house.me, Vec::new(alloc), fault));
    }
    let mut events = Vec::new(alloc);
    match take_steps(alloc, house, provider, judge, takers, moment, &mut events) {
        Ok(()) => whole(alloc, house, provider, rooms, events),
        Err(fault) => cut_off(alloc, house.me, events, fault),
    }
}

/// Handles all frames that wait, and decides on all that was taken.
fn take_steps<D: Disk, S: Sealer, J: Judge>(
    alloc: Global,
    house: &House<'_, S>,
    provider: &mut Provider<D>,
    judge: &mut J,
    takers: &mut Takers,
    moment: Moment,
    events: &mut Vec<Event>,
) -> Result<(), ProviderFault>
    requires runs { RunsIn house.now provider.old }
    requires works { IsAtWork (world_at house.now) house.now.me moment (desk_of provider.old) }
    ensures leads { OnOk result
        (Leads (D.tells × Stands D.sight provider.old.chronicle) (world_at house.now) house.now.me moment
        (J.patterns judge.old) (desk_of provider.old) (waits takers.old) events.old.items
        (desk_of provider.new) (waits takers.new) events.new.items) }
    ensures none { OnOk result (frames_in (waits takers.new) ≡ []) }
    ensures decided { OnOk result (undecided (world_at house.now) house.now.me
        provider.new.chronicle.entries ≡ []) }
    ensures ends { IfErr result (λ fault.
        Ends (D.tells × Stands D.sight provider.old.chronicle) (world_at house.now) house.now.me moment
        (J.patterns judge.old) (desk_of provider.old) (waits takers.old) events.old.items fault
        (desk_of provider.new) (waits takers.new) events.new.items) }
    ensures patterns { J.patterns judge.new ≡ J.patterns judge.old }
    ensures looked { LookAlike (J.seen judge.old) (J.seen judge.new) }
    ensures runs { RunsIn house.now provider.new }
    ensures links { length (waits takers.new) ≡ length (waits takers.old) }
    ensures kept { knowns takers.new ≡ knowns takers.old }
    ensures carries { D.tells → CarriesFrames (world_at house.now) house.now.me moment D.sight
        provider.old.chronicle (waits takers.old) provider.new.chronicle (waits takers.new) }
    ensures stands { D.tells → Stands D.sight provider.old.chronicle → Stands D.sight provider.new.chronicle }
    ensures disk_fault { IsErrOf result faults.DiskFault → HasRisen (D.faults provider.old.chronicle.disk) (D.faults
        provider.new.chronicle.disk) }
    ensures later { D.faults provider.old.chronicle.disk ≤ D.faults provider.new.chronicle.disk }
{
    frames_are_taken_in_order();
    take_frames(alloc, house, provider, takers, moment, events)?;
    decide_pairs(alloc, house, provider, judge, moment, events)?;
    Ok(())
}

/// The turn of a provider that did all its steps: the letters that are due are put, once all are composed. Where a read
/// fails nothing is put.
fn whole<D: Disk, S: Sealer>(
    alloc: Global,
    house: &House<'_, S>,
    provider: &mut Provider<D>,
    rooms: &[usize],
    events: Vec<Event>,
) -> Result<Taken, NoMemory>
    requires runs { RunsIn house.now provider.old }
    requires up { provider.old.chronicle.down ≡ false }
    requires rooms { length rooms.now ≡ length house.now.directory.now }
    requires short { (to : ℕ) → room_in rooms.now to ≤ link_size }
    ensures puts { IfOk result (λ taken. Puts (D.tells × Stands D.sight provider.old.chronicle)
        (puts_from (world_at house.now) house.now.me provider.old.chronicle.entries (room_in rooms.now)
        provider.old.owed 0 (length house.now.directory.now))
        (room_in rooms.now) (desk_of provider.old) (desk_of provider.new) taken.turn.ended taken.out) }
    ensures unchanged { D.tells × Stands D.sight provider.old.chronicle → IfOk result (λ taken. NoneIsChanged
        (world_at house.now) house.now.me provider.old.chronicle.entries taken.turn.ended) }
    ensures turn { IfOk result (λ taken. taken.turn ≡ record {
      provider = house.now.me;
      events = events.items;
      sent = sent_from 0 taken.out;
      ended = taken.turn.ended;
    }) }
    ensures no_memory { OnErr result (desk_of provider.new ≡ desk_of provider.old) }
    ensures runs { RunsIn house.now provider.new }
    ensures carries { D.tells → CarriesOn D.sight NothingMay provider.old.chronicle provider.new.chronicle }
    ensures disk_fault { IfOk result (λ taken. taken.turn.ended ≡ Some faults.DiskFault →
        HasRisen (D.faults provider.old.chronicle.disk) (D.faults provider.new.chronicle.disk)) }
    ensures later { D.faults provider.old.chronicle.disk ≤ D.faults provider.new.chronicle.disk }
{
    match puts(alloc, house, provider, rooms) {
        Ok(out) => all_put(alloc, house.me, events, out),
        Err(fault) => cut_off(alloc, house.me, events, fault),
    }
}

/// A turn that was done, with the frames that it puts.
fn all_put(
    alloc: Global,
    me: u32,
    events: Vec<Event>,
    out: Vec<Items<Frame>>,
) -> Result<Taken, NoMemory>
    requires count { length out.items < 2 ^ 32 }
    requires short { (to : ℕ) → length (slice_index_or out.items to []) ≤ link_size }
    ensures out { IfOk result (λ taken. taken.out ≡ out.items) }
    ensures turn { IfOk result (λ taken. taken.turn ≡ record {
      provider = me;
      events = events.items;
      sent = sent_from 0 out.items;
      ended = None;
    }) }
{
    let sent = sent(alloc, &out)?;
    let turn = Turn {
        provider: me,
        events: Items::of(events),
        sent: Items::of(sent),
        ended: None,
    };
    Ok(Taken {
        turn,
        out: Items::of(out),
    })
}

/// A turn that ended early; want of memory ends the round.
fn cut_off(
    alloc: Global,
    me: u32,
    events: Vec<Event>,
    fault: ProviderFault,
) -> Result<Taken, NoMemory>
    ensures out { IfOk result (λ taken. taken.out ≡ []) }
    ensures turn { IfOk result (λ taken. taken.turn ≡ record {
      provider = me;
      events = events.items;
      sent = [];
      ended =
          Some fault;
    }) }
    ensures other { OnOk result (fault ≢ faults.NoMemory) }
    ensures no_memory { OnErr result (fault ≡ faults.NoMemory) }
{
    match fault {
        ProviderFault::NoMemory => Err(NoMemory),
        other => Ok(ended(alloc, me, events, other)),
    }
}

/// A turn that ended early, or didn't begin. It takes no memory.
fn ended(alloc: Global, me: u32, events: Vec<Event>, fault: ProviderFault) -> Taken
    ensures out { result.out ≡ [] }
    ensures turn { result.turn ≡ record { provider = me; events = events.items; sent = []; ended = Some fault } }
{
    let turn = Turn {
        provider: me,
        events: Items::of(events),
        sent: Items::of(Vec::new(alloc)),
        ended: Some(fault),
    };
    Taken {
        turn,
        out: Items::of(Vec::new(alloc)),
    }
}
