ghost use Rattle.std.specs.Prelude.{◌≡◌, ◌<◌, [], ◌++◌, length, map, IfOk, OnErr, vec_len, vec_capacity};
ghost use Rattle.std.specs.List.{All};
ghost use Rattle.std.specs.Option.{option_to_list};
ghost use Rattle.pec_ledger.specs.Ledger.{Fit, Journals};
ghost use Rattle.pec_provider.specs.OfTrades.{trade_of};
ghost use Rattle.pec_posts.specs.Arrivals.{Waiting};
ghost use Rattle.pec_posts.specs.Parting.{HasRoom, ends_in};
ghost use Rattle.pec_network.specs.Carrying.{AllCarryOn, AllStand, NoneFalls};
ghost use Rattle.pec_network.specs.Looking.{AllLookAlike};
ghost use Rattle.pec_network.specs.Network.{IsOfDirectory, sites, sites_of, world_of};
ghost use Rattle.pec_network.specs.Rounds.{AreRooms, BlamesDisks, FramesAreGenuine, IsRound, StopsOver};
ghost use Rattle.pec_network.specs.Working.{judges_in, providers_in, putters_in, rooms_in, takers_in, tolds_in, turns_told};

use crate::gates::Gate;
use crate::laws::{rounds_keep_a_state_sound, what_rests_carries_on};
use crate::network::Network;
use crate::working::{Slot, all_work};
use pec_directory::Directory;
use pec_link::{Link, Putter, Taker};
use pec_outside::Disk;
use pec_posts::{Arrivals, join, part, rooms, trays};
use pec_provider::Provider;
use pec_rows::{Putters, Takers, a_row_is_delivered_link_by_link};
use pec_screen::Judge;
use pec_seal::Sealer;
use pec_types::{Items, Moment, NoMemory, Turn};
use std::alloc::Global;
use std::thread::Threads;

impl<D: Disk + Send, S: Sealer + Sync, J: Judge + Send> Network<D, S, J>
where
    J::Spare: Send,
{
    /// A round at a moment: each provider has its turn, from the state as the round began, and then what they put is
    /// delivered. Each turn runs in a worker of its own, which holds the provider, its screens and its ends of the
    /// links, and passes the gate first. The answer is what is told of each turn. Where a journal is full, a disk fails
    /// or gives back what it didn't take, a provider is down or the clock is behind its journal, that turn tells how it
    /// ended, and the others go on. Where memory runs out in a turn the others go on too: each provider has the entries
    /// of a front of its turn, and the frames of whole turns are on their links.
    pub fn round<X: Threads + Sync, G: Gate + Sync>(
        &mut self,
        rt: &X,
        alloc: Global,
        moment: Moment,
        gate: &G,
    ) -> Result<Vec<Turn>, NoMemory>

        // It is played as the command, with cuts that its turns tell. Over disks that tell what they hold, and on which
        // what is kept stood, screens looked at what was taken, no turn put other frames than those that were due, and
        // from a Sound state none ended by `Changed`.
        ensures plays { IfOk result (λ turns. IsRound (D.tells × AllStand D.sight self.old.providers)
            (world_of S.seals self.old) moment (sites self.old) turns.items (sites self.new)) }
        ensures stops { OnErr result (StopsOver (D.tells × AllStand D.sight self.old.providers)
            (world_of S.seals self.old) moment
            (sites self.old) (sites self.new)) }
        ensures same { (self.new.kept ≡ self.old.kept) × (self.new.sealer ≡ self.old.sealer) }
        ensures screens { self.new.screens ≡ self.old.screens }

        // Of each provider all screens have looked as often.
        ensures looked { AllLookAlike self.old.looks self.new.looks }

        // At every moment a crash of any disk leaves entries that may follow in the ledger of any journals in which the
        // frames that waited are genuine.
        ensures carries { D.tells → (journals : Journals)
            → Fit (world_of S.seals self.old) journals
            → FramesAreGenuine (world_of S.seals self.old) journals (sites self.old)
            → AllCarryOn D.sight (world_of S.seals self.old) journals self.old.providers self.new.providers }

        // What stands on its disk stands there again, whatever the frames are.
        ensures stands { D.tells → AllStand D.sight self.old.providers → AllStand D.sight self.new.providers }
        ensures disk_fault { IfOk result (λ turns.
            BlamesDisks D.faults turns.items self.old.providers self.new.providers) }
        ensures later { NoneFalls D.faults self.old.providers self.new.providers }
    {
        take_turns(
            rt,
            alloc,
            &self.directory,
            &self.sealer,
            &mut self.providers,
            &mut self.judges,
            &mut self.arrivals,
            moment,
            gate,
        )
    }
}

/// The turns of all providers in a round, side by side, each from the state as the round began. All memory of the round
/// itself is taken before the first move, so want of memory is that of a turn.
fn take_turns<X: Threads + Sync, D: Disk + Send, S: Sealer + Sync, J: Judge + Send, G: Gate + Sync>(
    rt: &X,
    alloc: Global,
    directory: &Directory,
    sealer: &S,
    providers: &mut Vec<Provider<D>>,
    judges: &mut Vec<J>,
    arrivals: &mut Vec<Arrivals>,
    moment: Moment,
    gate: &G,
) -> Result<Vec<Turn>, NoMemory>
where
    J::Spare: Send,
    requires whole { IsOfDirectory directory.now (S.seals sealer.now) providers.old.items arrivals.old.items }
    requires judges { length judges.old.items ≡ length directory.now }
    ensures plays { IfOk result (λ turns. IsRound (D.tells × AllStand D.sight providers.old.items)
        (trade_of directory.now (S.seals sealer.now)) moment
        (sites_of providers.old.items (map J.patterns judges.old.items) arrivals.old.items) turns.items
        (sites_of providers.new.items (map J.patterns judges.old.items) arrivals.new.items)) }
    ensures stops { OnErr result (StopsOver (D.tells × AllStand D.sight providers.old.items) (trade_of directory.now (S.seals sealer.now)) moment
        (sites_of providers.old.items (map J.patterns judges.old.items) arrivals.old.items)
        (sites_of providers.new.items (map J.patterns judges.old.items) arrivals.new.items)) }
    ensures screens { map J.patterns judges.new.items ≡ map J.patterns judges.old.items }
    ensures looked { AllLookAlike (map J.seen judges.old.items) (map J.seen judges.new.items) }
    ensures whole { IsOfDirectory directory.now (S.seals sealer.now) providers.new.items arrivals.new.items }
    ensures carries { D.tells → (journals : Journals)
        → Fit (trade_of directory.now (S.seals sealer.now)) journals
        → FramesAreGenuine (trade_of directory.now (S.seals sealer.now)) journals
        (sites_of providers.old.items (map J.patterns judges.old.items) arrivals.old.items)
        → AllCarryOn D.sight (trade_of directory.now (S.seals sealer.now)) journals
        providers.old.items providers.new.items }
    ensures stands { D.tells → AllStand D.sight providers.old.items → AllStand D.sight providers.new.items }
    ensures disk_fault { IfOk result (λ turns.
        BlamesDisks D.faults turns.items providers.old.items providers.new.items) }
    ensures later { NoneFalls D.faults providers.old.items providers.new.items }
{
    what_rests_carries_on::<D>();
    rounds_keep_a_state_sound::<S>(directory, moment);
    a_row_is_delivered_link_by_link();
    let count = directory.count();
    let Table {
        rooms,
        mut rows,
        taking,
        linking,
        mut putters,
        mut takers,
        mut turns,
    } = laid(alloc, count, arrivals.as_slice())?;
    let mut slots = Vec::with_capacity(alloc, count as usize)?;
    part(arrivals, rows.as_mut_slice(), taking, &mut takers);
    seat(providers, judges, rows, &mut takers, rooms, &mut slots);
    all_work(
        rt,
        alloc,
        directory,
        sealer,
        moment,
        slots.as_mut_slice(),
        gate,
    );
    rise(
        &mut slots,
        providers,
        judges,
        &mut putters,
        &mut takers,
        &mut turns,
    );
    slots.destroy_empty();
    join(putters.as_mut_slice(), takers, linking, arrivals);
    if turns.len() == count as usize {
        Ok(turns)
    } else {
        Err(NoMemory)
    }
}

/// What a round needs beside its workers: the room on the links, by the provider that puts; lists in which links are
/// taken apart and put together; and what is told.
#[derive(Drop)]
struct Table {
    rooms: Vec<Items<usize>>,
    rows: Vec<Vec<Putter>>,
    taking: Vec<Vec<Taker>>,
    linking: Vec<Vec<Link>>,
    putters: Vec<Putters>,
    takers: Vec<Takers>,
    turns: Vec<Turn>,
}

/// All memory of a round among so many providers, but that for its workers.
fn laid(alloc: Global, count: u32, arrivals: &[Arrivals]) -> Result<Table, NoMemory>
    requires { All (λ (links : Waiting). length links ≡ count) arrivals.now }
    ensures rooms { IfOk result (λ table. AreRooms count arrivals.now table.rooms.items) }
    ensures rows { IfOk result (λ table. (length table.rows.items ≡ count) × All (HasRoom count) table.rows.items) }
    ensures taking { IfOk result (λ table. (length table.taking.items ≡ count) × All (HasRoom count) table.taking.items) }
    ensures linking { IfOk result (λ table. (length table.linking.items ≡ count) × All (HasRoom count) table.linking.items) }
    ensures putters { IfOk result (λ table. HasRoom count table.putters) }
    ensures takers { IfOk result (λ table. HasRoom count table.takers) }
    ensures turns { IfOk result (λ table. HasRoom count table.turns) }
{
    let rooms = all_rooms(alloc, count, arrivals)?;
    Ok(Table {
        rooms,
        rows: trays(alloc, count)?,
        taking: trays(alloc, count)?,
        linking: trays(alloc, count)?,
        putters: Vec::with_capacity(alloc, count as usize)?,
        takers: Vec::with_capacity(alloc, count as usize)?,
        turns: Vec::with_capacity(alloc, count as usize)?,
    })
}

/// Gives each worker its provider, its screens and its ends of links. The lists of providers, of screens and of ends
/// are then empty, with as much room as before. It takes no memory.
fn seat<D, J>(
    providers: &mut Vec<Provider<D>>,
    judges: &mut Vec<J>,
    rows: Vec<Vec<Putter>>,
    takers: &mut Vec<Takers>,
    mut rooms: Vec<Items<usize>>,
    slots: &mut Vec<Slot<D, J>>,
)
    requires rows { length rows.items ≡ length providers.old.items }
    requires judges { length judges.old.items ≡ length providers.old.items }
    requires takers { length takers.old.items ≡ length providers.old.items }
    requires rooms { length rooms.items ≡ length providers.old.items }
    requires slots { HasRoom (length providers.old.items) slots.old }
    ensures providers { providers_in slots.new.items ≡ providers.old.items }
    ensures judges { judges_in slots.new.items ≡ judges.old.items }
    ensures putters { putters_in slots.new.items ≡ ends_in rows.items }
    ensures takers { takers_in slots.new.items ≡ takers.old.items }
    ensures rooms { rooms_in slots.new.items ≡ rooms.items }
    ensures providers_room { HasRoom (length providers.old.items) providers.new }
    ensures judges_room { HasRoom (length providers.old.items) judges.new }
    ensures takers_room { HasRoom (length providers.old.items) takers.new }
{
    for row in rows {
        let provider = providers.remove(0);
        let judge = judges.remove(0);
        let ends = takers.remove(0);
        let free = rooms.remove(0);
        slots.push_reserved(Slot {
            provider,
            judge,
            putters: Putters::of(row),
            takers: ends,
            rooms: free,
            told: None,
        });
    }
}

/// Takes from each worker what it held, and what is told of its turn. It takes no memory.
fn rise<D, J>(
    slots: &mut Vec<Slot<D, J>>,
    providers: &mut Vec<Provider<D>>,
    judges: &mut Vec<J>,
    putters: &mut Vec<Putters>,
    takers: &mut Vec<Takers>,
    turns: &mut Vec<Turn>,
)
    requires providers { HasRoom (length slots.old.items) providers.old }
    requires judges { HasRoom (length slots.old.items) judges.old }
    requires putters { HasRoom (length slots.old.items) putters.old }
    requires takers { HasRoom (length slots.old.items) takers.old }
    requires turns { HasRoom (length slots.old.items) turns.old }
    ensures providers { providers.new.items ≡ providers_in slots.old.items }
    ensures judges { judges.new.items ≡ judges_in slots.old.items }
    ensures putters { putters.new.items ≡ putters_in slots.old.items }
    ensures takers { takers.new.items ≡ takers_in slots.old.items }
    ensures turns { turns.new.items ≡ turns_told (tolds_in slots.old.items) }
    ensures none { slots.new.items ≡ [] }
{
    for _ in 0..slots.len() {
        let Slot {
            provider,
            judge,
            putters: puts,
            takers: takes,
            rooms: _,
            told,
        } = slots.remove(0);
        providers.push_reserved(provider);
        judges.push_reserved(judge);
        putters.push_reserved(puts);
        takers.push_reserved(takes);
        tell(told, turns);
    }
}

/// Puts what is told of a turn behind what is told of others.
fn tell(told: Option<Turn>, turns: &mut Vec<Turn>)
    requires { vec_len turns.old < vec_capacity turns.old }
    ensures turns { turns.new.items ≡ turns.old.items ++ option_to_list told }
    ensures room { vec_capacity turns.new ≡ vec_capacity turns.old }
{
    if let Some(turn) = told {
        turns.push_reserved(turn);
    }
}

/// How many more frames the links from each sender hold, by the provider for which they wait.
fn all_rooms(
    alloc: Global,
    senders: u32,
    arrivals: &[Arrivals],
) -> Result<Vec<Items<usize>>, NoMemory>
    requires { All (λ (links : Waiting). length links ≡ senders) arrivals.now }
    ensures { IfOk result (λ rooms. AreRooms senders arrivals.now rooms.items) }
{
    let mut all = Vec::new(alloc);
    for from in 0..senders {
        let frames = rooms(alloc, arrivals, from)?;
        all.push(Items::of(frames))?;
    }
    Ok(all)
}
