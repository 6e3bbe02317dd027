ghost use Rattle.std.specs.Prelude.{◌≡◌, ◌<◌, ◌≤◌, ◌↔◌, [], ◌∷◌, ◌++◌, length, IsNone};
ghost use Rattle.std.specs.Option.{option_to_list};
ghost use Rattle.pec_plays.specs.Turns.{frames_in, without_first};
ghost use Rattle.pec_rows.specs.Rows.{ArePut, CanPut, knowns, waits};

use pec_link::{Putter, Taker};
use pec_types::{Frame, Items};
use std::marker::Model;

/// The ends that put of the links from one provider, by the number of the provider that takes.
#[derive(Drop)]
pub struct Putters {
    ends: Vec<Putter>,
}

impl Model for Putters {
    ghost use Rattle.std.specs.Prelude.{List};
    ghost use Rattle.pec_link.specs.Ends.{Putting};

    ghost Value = { List Putting };

    ghost view = { λ putters. putters.ends.items };
}

/// The ends that take of the links to one provider, by the number of the provider that puts.
#[derive(Drop)]
pub struct Takers {
    ends: Vec<Taker>,
}

impl Model for Takers {
    ghost use Rattle.std.specs.Prelude.{List};
    ghost use Rattle.pec_link.specs.Ends.{Taking};

    ghost Value = { List Taking };

    ghost view = { λ takers. takers.ends.items };
}

impl Putters {
    /// The ends of this list, in its order. It takes no memory.
    pub fn of(ends: Vec<Putter>) -> Putters
        ensures { result ≡ ends.items }
    {
        Putters { ends }
    }

    /// The end of the first link, which the row then lacks. It takes no memory.
    pub fn take_first(&mut self) -> Putter
        requires { 0 < length self.old }
        ensures { self.old ≡ result ∷ self.new }
    {
        self.ends.remove(0)
    }

    /// Puts frames, a list for each provider by number, behind all that was put on the links to them. It takes no
    /// memory, and copies no frame.
    pub fn put_all(&mut self, mut out: Vec<Items<Frame>>)
        requires { CanPut self.old out.items }
        ensures { ArePut self.old out.items self.new }
    {
        // from the last addressee on
        while let Some(frames) = out.pop() {
            put_each(&mut self.ends[out.len()], frames.into_vec());
        }
    }
}

impl Takers {
    /// The ends of this list, in its order. It takes no memory.
    pub fn of(ends: Vec<Taker>) -> Takers
        ensures { result ≡ ends.items }
    {
        Takers { ends }
    }

    /// The list of its ends. It takes no memory.
    pub fn into_ends(self) -> Vec<Taker>
        ensures { result.items ≡ self }
    {
        self.ends
    }

    /// Takes the frame that is next, from the first provider from which one is known to wait; none exactly where none
    /// is. It takes no memory.
    pub fn take(&mut self) -> Option<Frame>
        ensures taken { frames_in (waits self.old) ≡ option_to_list result ++ frames_in (waits self.new) }
        ensures left { waits self.new ≡ without_first 1 (waits self.old) }
        ensures none { IsNone result ↔ (frames_in (waits self.old) ≡ []) }
        ensures kept { knowns self.new ≡ knowns self.old }
        ensures links { length (waits self.new) ≡ length (waits self.old) }
    {
        next_frame(self.ends.as_mut_slice())
    }
}

/// Puts frames behind all that was put on a link, in their order.
fn put_each(putter: &mut Putter, frames: Vec<Frame>)
    requires { length frames.items ≤ putter.old.free }
    ensures ring { putter.new.ring ≡ putter.old.ring }
    ensures put { putter.new.put ≡ putter.old.put ++ frames.items }
{
    for frame in frames {
        if putter.put(frame).is_err() {
            unreachable!();
        }
    }
}

/// The next frame that is known to wait at one of these ends, from the first end on.
fn next_frame(ends: &mut [Taker]) -> Option<Frame>
    ensures taken { frames_in (waits ends.old) ≡ option_to_list result ++ frames_in (waits ends.new) }
    ensures left { waits ends.new ≡ without_first 1 (waits ends.old) }
    ensures none { IsNone result ↔ (frames_in (waits ends.old) ≡ []) }
    ensures kept { knowns ends.new ≡ knowns ends.old }
    ensures links { length ends.new ≡ length ends.old }
{
    let (first, others) = ends.split_first_mut()?;
    match first.take() {
        Some(frame) => Some(frame),
        None => next_frame(others),
    }
}
