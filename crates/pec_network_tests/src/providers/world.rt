//! Two providers without a network: what one puts, the lines of a script hand to the other.

use super::desk::{Desk, Who};
use super::home::Home;
use super::letters::changed;
use crate::cases::calls_of;
use pec_outside::MemDisk;
use pec_trial::{Answers, behind, first_wrong, text_of, told_word, two, word};
use pec_types::Frame;
use std::alloc::Global;
use std::test::Fail;

/// The providers of the directory of the tests, and a home from whose seals a forger takes. One that isn't made or
/// opened again is gone.
pub(crate) struct World {
    alloc: Global,
    forger: Option<Home>,
    alfa: Option<Desk>,
    beta: Option<Desk>,
}

impl Drop for World {
    fn drop(self) {
        let World {
            alloc: _,
            forger: _,
            alfa: _,
            beta: _,
        } = self;
    }
}

impl World {
    /// Providers on empty disks, of which these calls fail, each by its provider's number and its own, from 0.
    fn new(alloc: Global, failing: &[(u32, u64)]) -> World {
        World {
            alloc,
            forger: Home::of(alloc, two()),
            alfa: desk(alloc, Who::Alfa, calls_of(alloc, failing, 0)),
            beta: desk(alloc, Who::Beta, calls_of(alloc, failing, 1)),
        }
    }

    /// The frame that arrives by a line: `arrive MOMENT FROM PLACE CHANGES`, the one at a place of those that a
    /// provider put last, with changes; or `arrive MOMENT TEXT`. Of another line, no byte; none where there is no such
    /// frame.
    fn frame(&self, line: &str) -> Option<Vec<u8>> {
        if word(line, 1) != "arrive" {
            return Some(Vec::new(self.alloc));
        }
        match word(line, 3) {
            "alfa" => self.changed(put(&self.alfa), line),
            "beta" => self.changed(put(&self.beta), line),
            name => text_of(self.alloc, name).ok(),
        }
    }

    fn changed(&self, put: &[Frame], line: &str) -> Option<Vec<u8>> {
        let frame = frame_at(put, word(line, 4))?;
        match &self.forger {
            Some(forger) => changed(self.alloc, &forger.sealer, frame.bytes(), behind(line, 5)),
            None => None,
        }
    }
}

fn frame_at<'a>(put: &'a [Frame], place: &str) -> Option<&'a Frame> {
    match place.parse::<usize>() {
        Ok(place) => put.get(place),
        Err(_) => None,
    }
}

/// A line is `PROVIDER CALL`; beside the calls of a desk, `reopen` opens a provider again over its disk, and tells
/// whether an entry of it was interrupted.
impl Answers for World {
    fn answer(&mut self, call: &str) -> Result<Vec<u8>, Fail> {
        match self.frame(call) {
            Some(frame) => self.asked(call, &frame),
            None => Err("no such frame".into()),
        }
    }
}

impl World {
    fn asked(&mut self, call: &str, frame: &[u8]) -> Result<Vec<u8>, Fail> {
        if word(call, 0) == "alfa" {
            answer(self.alloc, &mut self.alfa, Who::Alfa, call, frame)
        } else {
            answer(self.alloc, &mut self.beta, Who::Beta, call, frame)
        }
    }
}

fn answer(
    alloc: Global,
    desk: &mut Option<Desk>,
    who: Who,
    call: &str,
    frame: &[u8],
) -> Result<Vec<u8>, Fail> {
    if word(call, 1) == "reopen" {
        return told_word(alloc, reopen(desk, who));
    }
    match desk {
        Some(desk) => desk.answer(call, frame),
        None => Err("the provider is gone".into()),
    }
}

/// Opens a provider again, and tells whether an entry of it was interrupted; or that it is gone.
fn reopen(desk: &mut Option<Desk>, who: Who) -> &'static [u8] {
    match reopened(desk.take(), who) {
        Some((opened, interrupted)) => {
            *desk = Some(opened);
            if interrupted {
                b"interrupted"
            } else {
                b"whole"
            }
        }
        None => b"gone",
    }
}

fn reopened(desk: Option<Desk>, who: Who) -> Option<(Desk, bool)> {
    match desk {
        Some(desk) => desk.reopened(who),
        None => None,
    }
}

/// The frames that a provider put last.
fn put(desk: &Option<Desk>) -> &[Frame] {
    match desk {
        Some(desk) => desk.put(),
        None => &[],
    }
}

/// A provider of the directory of the tests on an empty disk, of which these calls fail.
fn desk(alloc: Global, who: Who, failing: Vec<u64>) -> Option<Desk> {
    match Home::of(alloc, two()) {
        Some(home) => Desk::made(alloc, home, who, MemDisk::new(alloc, failing)).ok(),
        None => None,
    }
}

/// A script over two providers, and what it is about.
#[derive(Clone, Copy)]
pub(crate) struct Case {
    pub(crate) why: &'static str,
    pub(crate) script: &'static str,
}

/// The first line of the cases that isn't answered as it says, and what came.
pub(crate) fn first_wrong_of(alloc: Global, cases: &[Case]) -> Result<Option<String>, Fail> {
    for case in cases {
        let wrong = wrong_line(alloc, &[], case.script)?;
        if wrong.is_some() {
            return Ok(wrong);
        }
    }
    Ok(None)
}

/// The first line of a script that isn't answered as it says where these calls of disks fail, and what came.
pub(crate) fn wrong_line(
    alloc: Global,
    failing: &[(u32, u64)],
    script: &str,
) -> Result<Option<String>, Fail> {
    let mut world = World::new(alloc, failing);
    first_wrong(alloc, &mut world, script)
}
