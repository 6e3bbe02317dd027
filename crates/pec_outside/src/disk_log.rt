ghost use Rattle.std.specs.Prelude.{◌≡◌, ℕ, ◌+◌, ◌-◌, ◌<◌, ◌≤◌, nat_le, nat_lt, ◌&&◌, List, [], ◌∷◌, ◌++◌, length, drop, IfOk, OnOk, vec_len, vec_capacity, if◌then◌else◌};
ghost use Rattle.std.specs.List.{count_by};
ghost use Rattle.pec_outside.specs.DiskModel.{written};
ghost use Rattle.pec_outside.specs.MemoryDisk.{is_pending, crash_image, lost_byte, after_crash, front_of, is_call, looked, wrote, synced, crashed};
ghost use Rattle.pec_outside.specs.DiskLog.{step_of, steps_of, IsLog, HasRoom, Keeps, Goes};

use std::alloc::{AllocError, Global};

// How a pending byte that was not kept reads after a crash.
const LOST_BYTE: u8 = 0xff;

/// Bytes of a disk, so many from place `at` on.
#[derive(Clone, Copy, Debug, PartialEq, Eq)]
pub(crate) struct Span {
    pub(crate) at: usize,
    pub(crate) length: usize,
}

impl Span {
    fn has(&self, place: usize) -> bool
        ensures { result ≡ (nat_le self.now.at place && nat_lt place (self.now.at + self.now.length)) }
    {
        place >= self.at && place - self.at < self.length
    }
}

/// What is kept of a call of a disk in memory, and of a crash.
#[derive(Drop)]
pub(crate) enum Step {
    /// A size or a read.
    Look,
    Write {
        at: usize,
        piece: Vec<u8>,
        answered: bool,
    },
    Sync {
        answered: bool,
    },
    Crash {
        kept: u64,
    },
}

impl Step {
    fn is_call(&self) -> bool
        ensures { result ≡ is_call (step_of self.now) }
    {
        match self {
            Step::Look | Step::Write { .. } | Step::Sync { .. } => true,
            Step::Crash { .. } => false,
        }
    }

    // Of so many calls, how many are left behind this step.
    fn left_behind(&self, calls: usize) -> usize
        ensures { result ≡ (if is_call (step_of self.now) then calls - 1 else calls) }
    {
        if self.is_call() {
            calls.saturating_sub(1)
        } else {
            calls
        }
    }
}

/// The bytes of a disk in memory, and how they came to be. This project's profile.
pub(crate) struct DiskLog {
    pub(crate) bytes: Vec<u8>,
    // What was written since the last sync that was answered, or since a crash.
    pub(crate) pending: Vec<Span>,
    // Each call and crash. While a span is pending there is room for one more, since a crash takes no memory.
    pub(crate) steps: Vec<Step>,
}

impl Drop for DiskLog {
    fn drop(self) {
        let DiskLog {
            bytes: _,
            pending: _,
            steps: _,
        } = self;
    }
}

impl DiskLog {
    pub(crate) fn new(alloc: Global) -> DiskLog
        ensures log { IsLog result }
        ensures steps { steps_of result ≡ [] }
    {
        DiskLog {
            bytes: Vec::new(alloc),
            pending: Vec::new(alloc),
            steps: Vec::new(alloc),
        }
    }

    /// How many calls there were.
    pub(crate) fn calls(&self) -> usize
        ensures { result ≡ count_by is_call (steps_of self.now) }
    {
        calls(self.steps.as_slice())
    }

    /// Makes room for one more step, with a write of so many bytes, and for a crash behind it.
    pub(crate) fn reserve(&mut self, length: usize) -> Result<(), AllocError>
        ensures room { OnOk result (HasRoom length self.new) }
        ensures same { Keeps self.old self.new }
    {
        self.bytes.reserve(length)?;
        self.pending.reserve(1)?;
        self.steps.reserve(2)
    }

    /// A size or a read, answered or not.
    pub(crate) fn look(&mut self)
        requires log { IsLog self.old }
        requires room { HasRoom 0 self.old }
        ensures { Goes self.old looked self.new }
    {
        self.steps.push_reserved(Step::Look);
    }

    /// A write, which changes no byte where it failed. One behind the end is made at the end.
    pub(crate) fn write(&mut self, at: usize, piece: Vec<u8>, answered: bool)
        requires log { IsLog self.old }
        requires room { HasRoom (vec_len piece) self.old }
        ensures { Goes self.old (wrote at piece.items answered) self.new }
    {
        let place = at.min(self.bytes.len());
        put(&mut self.bytes, place, piece.as_slice(), answered);
        self.pending.push_reserved(Span {
            at: place,
            length: piece.len(),
        });
        self.steps.push_reserved(Step::Write {
            at,
            piece,
            answered,
        });
    }

    /// A sync, after which nothing is pending where it was answered.
    pub(crate) fn sync(&mut self, answered: bool)
        requires log { IsLog self.old }
        requires room { HasRoom 0 self.old }
        ensures { Goes self.old (synced answered) self.new }
    {
        self.steps.push_reserved(Step::Sync { answered });
        if answered {
            self.pending.clear();
        }
    }

    /// A crash that keeps the first pending bytes, so many, and loses the others. It takes no memory.
    pub(crate) fn crash(&mut self, kept: u64)
        requires { IsLog self.old }
        ensures log { IsLog self.new }
        ensures steps { steps_of self.new ≡ after_crash (steps_of self.old) kept }
    {
        if self.pending.is_empty() {
            return;
        }
        self.crash_now(kept);
    }

    /// The log up to the call of that number: each step is done again.
    pub(crate) fn front(&self, alloc: Global, calls: usize) -> Result<DiskLog, AllocError>
        ensures log { IfOk result IsLog }
        ensures steps { IfOk result (λ log. steps_of log ≡ front_of calls (steps_of self.now)) }
    {
        let mut log = DiskLog::new(alloc);
        let mut left = calls;
        for step in self.steps.as_slice() {
            if left == 0 {
                return Ok(log);
            }
            log.repeat(alloc, step)?;
            left = step.left_behind(left);
        }
        Ok(log)
    }

    // A step of another log, done again here.
    fn repeat(&mut self, alloc: Global, step: &Step) -> Result<(), AllocError>
        requires { IsLog self.old }
        ensures { OnOk result (Goes self.old (step_of step.now) self.new) }
    {
        match step {
            Step::Look => {
                self.reserve(0)?;
                self.look();
                Ok(())
            }
            Step::Write {
                at,
                piece,
                answered,
            } => {
                let copy = Vec::from_slice(alloc, piece.as_slice())?;
                self.reserve(copy.len())?;
                self.write(*at, copy, *answered);
                Ok(())
            }
            Step::Sync { answered } => {
                self.reserve(0)?;
                self.sync(*answered);
                Ok(())
            }
            Step::Crash { kept } => {
                self.reserve(0)?;
                self.crash_now(*kept);
                Ok(())
            }
        }
    }

    // A crash that is kept among the steps, with something pending or not.
    fn crash_now(&mut self, kept: u64)
        requires log { IsLog self.old }
        requires room { vec_len self.old.steps < vec_capacity self.old.steps }
        ensures { Goes self.old (crashed kept) self.new }
    {
        lose(&mut self.bytes, self.pending.as_slice(), kept);
        self.pending.clear();
        self.steps.push_reserved(Step::Crash { kept });
    }
}

fn calls(steps: &[Step]) -> usize
    ensures { result ≡ count_by (λ step. is_call (step_of step)) steps.now }
{
    steps.iter().filter(|step| step.is_call()).count()
}

// Writes the piece over the bytes, where it was answered.
fn put(bytes: &mut Vec<u8>, at: usize, piece: &[u8], answered: bool)
    requires place { at ≤ vec_len bytes.old }
    requires room { vec_len bytes.old + length piece.now ≤ vec_capacity bytes.old }
    ensures { bytes.new.items ≡ (if answered then written bytes.old.items at piece.now else bytes.old.items) }
{
    if !answered {
        return;
    }
    let inside = piece.len().min(bytes.len() - at);
    bytes[at..at + inside].copy_from_slice(&piece[..inside]);
    match bytes.extend_from_slice(&piece[inside..]) {
        Ok(()) => (),
        Err(_) => unreachable!(),
    }
}

// What a crash does to the bytes: the first pending ones, so many, are kept in order of place.
fn lose(bytes: &mut [u8], pending: &[Span], kept: u64)
    ensures { bytes.new ≡ crash_image pending.now kept 0 bytes.old }
{
    let mut kept = kept;
    for at in 0..bytes.len() {
        let in_danger = is_pending(pending, at);
        bytes[at] = byte_left(bytes[at], in_danger, kept);
        kept = kept_behind(in_danger, kept);
    }
}

fn is_pending(pending: &[Span], place: usize) -> bool
    ensures { result ≡ is_pending pending.now place }
{
    pending.iter().any(|span| span.has(place))
}

fn byte_left(byte: u8, in_danger: bool, kept: u64) -> u8
    ensures { result ≡ (if in_danger && nat_le kept 0 then lost_byte else byte) }
{
    if in_danger && kept == 0 {
        LOST_BYTE
    } else {
        byte
    }
}

fn kept_behind(in_danger: bool, kept: u64) -> u64
    ensures { result ≡ (if in_danger then kept - 1 else kept) }
{
    if in_danger {
        kept.saturating_sub(1)
    } else {
        kept
    }
}
