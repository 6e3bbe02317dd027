ghost use Rattle.std.specs.Prelude.{◌≡◌};
ghost use Rattle.pec_grammar.specs.Grammar.{farther};
ghost use Rattle.pec_grammar.specs.Reading.{standing};
ghost use Rattle.pec_grammar.specs.declared.cursors.ReadError.TheVariants as errors;

use std::alloc::{AllocError, AllocFailed};

/// Where a reader stands in a text.
#[derive(Clone, Copy)]
pub struct Cursor<'a> {
    /// The bytes that are left to read.
    pub rest: &'a [u8],
    /// The bytes behind the farthest place that anything tried so far has reached.
    pub farthest: &'a [u8],
}

/// Where a text can't be read: the bytes from there on.
#[derive(Clone, Copy)]
pub struct Stop<'a> {
    pub rest: &'a [u8],
}

/// Why a reader that takes memory gives no value.
#[derive(Clone, Copy)]
pub enum ReadError<'a> {
    NoMemory,
    Stop(Stop<'a>),
}

impl<'a> From<Stop<'a>> for ReadError<'a> {
    ghost from_gives = { λ stop e. e ≡ errors.Stop stop };

    fn from(stop: Stop<'a>) -> Self {
        ReadError::Stop(stop)
    }
}

impl From<AllocError> for ReadError<'_> {
    ghost from_gives = { λ _ e. e ≡ errors.NoMemory };

    fn from(_: AllocError) -> Self {
        ReadError::NoMemory
    }
}

impl<T: Drop> From<AllocFailed<T>> for ReadError<'_> {
    ghost from_gives = { λ _ e. e ≡ errors.NoMemory };

    fn from(_: AllocFailed<T>) -> Self {
        ReadError::NoMemory
    }
}

impl<'a> Cursor<'a> {
    /// The start of a text.
    pub fn new(text: &'a [u8]) -> Cursor<'a>
        ensures { standing result ≡ record { rest = text.now; farthest = text.now } }
    {
        Cursor {
            rest: text,
            farthest: text,
        }
    }

    /// The stop of what can't be read here, unless something else that was tried reached farther.
    pub fn stop(self) -> Stop<'a>
        ensures { result.rest.now ≡ farther self.entry.farthest.now self.entry.rest.now }
    {
        let rest = if self.farthest.len() < self.rest.len() {
            self.farthest
        } else {
            self.rest
        };
        Stop { rest }
    }

    /// The same place, where something was tried that stopped there.
    pub fn tried(self, stop: Stop<'a>) -> Cursor<'a>
        ensures { standing result ≡ record { rest = self.entry.rest.now; farthest = stop.entry.rest.now } }
    {
        Cursor {
            rest: self.rest,
            farthest: stop.rest,
        }
    }
}
