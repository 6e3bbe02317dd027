ghost use Rattle.std.specs.Prelude.{◌≡◌, ◌+◌, ◌^◌, ◌<◌, ◌≤◌, [], ◌∷◌, ◌++◌, length, slice_get, IfSome, OnOk};
ghost use Rattle.pec_types.specs.Timetable.{Rising, last_of, raised};

use crate::faults::NoMemory;
use crate::moments::Moment;
use crate::steps::Steps;
use std::alloc::Global;
use std::marker::Model;

/// How many moments a timetable has at most: no memory holds so many.
const MOST: usize = 2_305_843_009_213_693_952;

/// Moments in order, each told by a look-up alone, which is counted. This project's profile.
#[derive(Drop)]
pub struct Timetable {
    moments: Vec<Moment>,
    looks: u64,
    spare: usize,
}

impl Model for Timetable {
    ghost use Rattle.std.specs.Prelude.{◌+◌, ◌^◌, ◌≤◌, length, vec_capacity, vec_len};
    ghost use Rattle.pec_types.specs.Timetable.{Rising, Times};

    ghost Value = { Times };

    ghost view = { λ table. record { moments = table.moments.items; looks = table.looks; spare = table.spare } };

    ghost invariant = { λ table. record {
      room : vec_len table.moments + table.spare ≤ vec_capacity table.moments;
      few : length table.moments.items + table.spare ≤ 2 ^ 61;
      rising : Rising table.moments.items;
    } };
}

impl Timetable {
    /// No moment yet. It takes no memory.
    pub fn new(alloc: Global) -> Timetable
        ensures { result ≡ record { moments = []; looks = 0; spare = 0 } }
    {
        Timetable {
            moments: Vec::new(alloc),
            looks: 0,
            spare: 0,
        }
    }

    /// Makes room for so many further moments.
    pub fn reserve(&mut self, more: usize) -> Result<(), NoMemory>
        ensures spare { OnOk result (more ≤ self.new.spare) }
        ensures kept { self.old.spare ≤ self.new.spare }
        ensures moments { self.new.moments ≡ self.old.moments }
        ensures looks { self.new.looks ≡ self.old.looks }
    {
        if more <= self.spare {
            return Ok(());
        }
        if more > MOST || self.moments.len() > MOST - more {
            return Err(NoMemory);
        }
        self.moments.reserve(more)?;
        self.spare = more;
        Ok(())
    }

    /// Adds a moment for which there is room, and which isn't below the last one. It takes no memory.
    #[tactic(auto, using(crate::proofs::RiseLemmas::rises_on))]
    pub fn push(&mut self, moment: Moment)
        requires room { 0 < self.old.spare }
        requires rising { IfSome (last_of self.old.moments) (λ last. last ≤ moment) }
        ensures moments { self.new.moments ≡ self.old.moments ++ moment ∷ [] }
        ensures looks { self.new.looks ≡ self.old.looks }
        ensures spare { self.new.spare + 1 ≡ self.old.spare }
    {
        self.moments.push_reserved(moment);
        self.spare -= 1;
    }

    /// How many moments there are. It takes no memory.
    pub fn length(&self) -> usize
        ensures value { result ≡ length self.now.moments }
        ensures few { result ≤ 2 ^ 61 }
        ensures rising { Rising self.now.moments }
    {
        self.moments.len()
    }

    /// The moment at a place, counted from 0: None exactly where there are no more. It counts as one look-up, here and
    /// among the steps of the call, and takes no memory.
    pub fn look(&mut self, place: usize, steps: &mut Steps) -> Option<Moment>
        ensures moment { result ≡ slice_get self.old.moments place }
        ensures moments { self.new.moments ≡ self.old.moments }
        ensures spare { self.new.spare ≡ self.old.spare }
        ensures looks { self.new.looks ≡ raised self.old.looks }
        ensures steps { steps.new ≡ raised steps.old }
    {
        self.looks = self.looks.saturating_add(1);
        steps.raise();
        self.moments.as_slice().get(place).copied()
    }
}
