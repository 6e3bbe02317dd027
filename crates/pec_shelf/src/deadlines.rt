ghost use Rattle.std.specs.Prelude.{◌≡◌, ◌+◌, ◌-◌, ◌^◌, ◌<◌, ◌≤◌, [], ◌∷◌, ◌++◌, length, map, replicate, slice_get, IfSome, OnOk};
ghost use Rattle.std.specs.List.{range_with_len};
ghost use Rattle.pec_types.specs.Looks.{Rose};
ghost use Rattle.pec_types.specs.Passed.{passed, passing};
ghost use Rattle.pec_types.specs.Timetable.{Rising, last_of};
ghost use Rattle.pec_types.specs.declared.limits.TheConstants.{WARNING_AFTER, NOTICE_AFTER};
ghost use Rattle.pec_shelf.specs.Deadlines.{HoldsCursors, clock_at, moments_of, pairs_in, set_by, spot_at, spots_of};

use crate::rows::MessageRow;
use pec_types::{Moment, NOTICE_AFTER, NoMemory, Steps, Timetable, WARNING_AFTER};
use std::alloc::Global;
use std::marker::Model;

/// Where a pair stands: the number of its message, and the place of its recipient among the certified ones.
#[derive(Clone, Copy)]
pub(crate) struct Spot {
    pub(crate) number: u64,
    pub(crate) index: usize,
}

/// Where the cursors stand behind a clock call, and its moment.
#[derive(Clone, Copy)]
pub(crate) struct Clock {
    pub(crate) at: Moment,
    pub(crate) warned: usize,
    pub(crate) noticed: usize,
}

/// The pairs of a provider's messages in order, when each was accepted, and a cursor for each time limit: the number of
/// pairs whose limit has passed by the last clock call.
pub(crate) struct Deadlines {
    times: Timetable,
    spots: Vec<Spot>,
    room: usize,
    warned: usize,
    noticed: usize,
    ticked: u64,
}

impl Model for Deadlines {
    ghost use Rattle.std.specs.Prelude.{◌+◌, ◌≤◌, vec_capacity, vec_len};
    ghost use Rattle.pec_shelf.specs.Deadlines.{Watch};

    ghost Value = { Watch };

    ghost view = { λ deadlines. record {
      moments = deadlines.times.moments;
      looks = deadlines.times.looks;
      spots = deadlines.spots.items;
      room = deadlines.room;
      warned = deadlines.warned;
      noticed = deadlines.noticed;
      ticked = deadlines.ticked;
    } };

    ghost invariant = { λ deadlines. record {
      times : deadlines.room ≤ deadlines.times.spare;
      spots : vec_len deadlines.spots + deadlines.room ≤ vec_capacity deadlines.spots;
    } };
}

// Written out, so that to drop it is one call, and not the drops of all its lists wherever a shelf is dropped.
impl Drop for Deadlines {
    fn drop(self) {
        let Deadlines {
            times: _,
            spots: _,
            room: _,
            warned: _,
            noticed: _,
            ticked: _,
        } = self;
    }
}

impl Deadlines {
    /// No pair yet. It takes no memory.
    pub(crate) fn new(alloc: Global) -> Deadlines
        ensures { result ≡ record { moments = []; looks = 0; spots = []; room = 0; warned = 0; noticed = 0; ticked = 0 } }
    {
        Deadlines {
            times: Timetable::new(alloc),
            spots: Vec::new(alloc),
            room: 0,
            warned: 0,
            noticed: 0,
            ticked: 0,
        }
    }

    /// Makes room for so many further pairs.
    pub(crate) fn reserve(&mut self, pairs: usize) -> Result<(), NoMemory>
        ensures room { OnOk result (pairs ≤ self.new.room) }
        ensures more { self.old.room ≤ self.new.room }
        ensures same { self.new ≡ record self.old { room = self.new.room } }
    {
        if pairs <= self.room {
            return Ok(());
        }
        self.times.reserve(pairs)?;
        self.spots.reserve(pairs)?;
        self.room = pairs;
        Ok(())
    }

    /// Adds the pairs of messages that are numbered from here on, for which there is room, and which weren't accepted
    /// before those that are there. It takes no memory.
    pub(crate) fn add(&mut self, first: u64, rows: &[MessageRow])
        requires room { length (pairs_in first rows.now) ≤ self.old.room }
        requires rising { Rising (self.old.moments ++ moments_of (pairs_in first rows.now)) }
        requires below { first + length rows.now < 2 ^ 64 }
        ensures moments { self.new.moments ≡ self.old.moments ++ moments_of (pairs_in first rows.now) }
        ensures spots { self.new.spots ≡ self.old.spots ++ spots_of (pairs_in first rows.now) }
        ensures room { self.new.room + length (pairs_in first rows.now) ≡ self.old.room }
        ensures same { HoldsCursors self.old self.new }
    {
        for (offset, row) in rows.iter().enumerate() {
            self.add_pairs(first + offset as u64, row.moment(), row.certified().len());
        }
    }

    /// Adds so many pairs of a message. It takes no memory.
    fn add_pairs(&mut self, number: u64, accepted: Moment, count: usize)
        requires room { count ≤ self.old.room }
        requires rising { Rising (self.old.moments ++ replicate count accepted) }
        ensures moments { self.new.moments ≡ self.old.moments ++ replicate count accepted }
        ensures spots { self.new.spots ≡ self.old.spots ++ map (spot_at number) (range_with_len 0 count) }
        ensures room { self.new.room + count ≡ self.old.room }
        ensures same { HoldsCursors self.old self.new }
    {
        for index in 0..count {
            self.push(accepted, Spot { number, index });
        }
    }

    /// Adds a pair. It takes no memory.
    fn push(&mut self, accepted: Moment, spot: Spot)
        requires room { 0 < self.old.room }
        requires rising { IfSome (last_of self.old.moments) (λ last. last ≤ accepted) }
        ensures moments { self.new.moments ≡ self.old.moments ++ accepted ∷ [] }
        ensures spots { self.new.spots ≡ self.old.spots ++ spot ∷ [] }
        ensures room { self.new.room + 1 ≡ self.old.room }
        ensures same { HoldsCursors self.old self.new }
    {
        self.times.push(accepted);
        self.spots.push_reserved(spot);
        self.room -= 1;
    }

    /// Moves both cursors up to a moment: where they stand then is told, and kept by `set` alone.
    pub(crate) fn pass(&mut self, now: Moment, steps: &mut Steps) -> Clock
        requires rising { Rising self.old.moments }
        requires warned { self.old.warned ≡ passed WARNING_AFTER self.old.ticked self.old.moments }
        requires noticed { self.old.noticed ≡ passed NOTICE_AFTER self.old.ticked self.old.moments }
        requires in_time { self.old.ticked ≤ now }
        ensures clock { result ≡ clock_at now self.old.moments }
        ensures same { self.new ≡ record self.old { looks = self.new.looks } }
        ensures rose { Rose (passing self.old.ticked now self.old.moments + 2) self.old.looks self.new.looks steps.old steps.new }
        ensures few { length self.old.moments ≤ 2 ^ 61 }
    {
        self.times.length();
        let noticed = advance(&mut self.times, self.noticed, NOTICE_AFTER, now, steps);
        let warned = advance(&mut self.times, self.warned, WARNING_AFTER, now, steps);
        Clock {
            at: now,
            warned,
            noticed,
        }
    }

    /// Keeps where the cursors stand behind an entry, if it is a clock call.
    pub(crate) fn set(&mut self, clock: Option<Clock>)
        ensures { self.new ≡ set_by self.old clock }
    {
        let Some(clock) = clock else {
            return;
        };
        self.warned = clock.warned;
        self.noticed = clock.noticed;
        self.ticked = clock.at.seconds();
    }

    /// How many pairs are past their first limit, as the last clock call found it.
    pub(crate) fn warned(&self) -> usize
        ensures { result ≡ self.now.warned }
    {
        self.warned
    }

    /// How many pairs are past their second limit, as the last clock call found it.
    pub(crate) fn noticed(&self) -> usize
        ensures { result ≡ self.now.noticed }
    {
        self.noticed
    }

    /// Where the pair at a place stands.
    pub(crate) fn spot(&self, place: usize) -> Option<Spot>
        ensures { result ≡ slice_get self.now.spots place }
    {
        self.spots.as_slice().get(place).copied()
    }
}

/// From a place up to which the limit has passed, the first place at which it hasn't. Each place on the way is looked
/// up once, and the one where it ends.
fn advance(times: &mut Timetable, from: usize, limit: u64, now: Moment, steps: &mut Steps) -> usize
    requires rising { Rising times.old.moments }
    requires from { from ≤ passed limit now times.old.moments }
    requires limit { limit ≤ 2 ^ 32 }
    requires few { length times.old.moments ≤ 2 ^ 61 }
    ensures place { result ≡ passed limit now times.old.moments }
    ensures moments { times.new.moments ≡ times.old.moments }
    ensures spare { times.new.spare ≡ times.old.spare }
    ensures rose { Rose (result - from + 1) times.old.looks times.new.looks steps.old steps.new }
{
    let mut place = from;
    while let Some(accepted) = times.look(place, steps) {
        if now.seconds() < accepted.seconds() + limit {
            return place;
        }
        place += 1;
    }
    place
}
