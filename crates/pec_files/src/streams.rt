ghost use Rattle.std.specs.Prelude.{◌≡◌};
ghost use Rattle.pec_files.specs.Streams.{fresh};

use pec_outside::{Counted, Failed, Sink, Source, Stream};
use std::io::{Read, Write};
use std::marker::Model;

/// A reader as a source. What it gives isn't told. This project's profile.
#[derive(Drop)]
pub struct Input<R> {
    reader: R,
    faults: u64,
}

impl<R> Model for Input<R> {
    ghost use Rattle.pec_files.specs.Streams.{Device};

    ghost Value = { Device R };

    ghost view = { λ input. record { device = input.reader; faults = input.faults } };
}

impl<R> Input<R> {
    /// A reader, with no fault yet.
    pub fn new(reader: R) -> Input<R>
        ensures { result ≡ fresh reader }
    {
        Input { reader, faults: 0 }
    }

    /// How many calls failed.
    pub fn faults(&self) -> u64
        ensures { result ≡ self.now.faults }
    {
        self.faults
    }
}

impl<R: Read> Counted for Input<R> {
    ghost use Rattle.pec_outside.specs.Flow.{as_u64, u64_of};

    ghost faults = { λ input. as_u64 input.faults };

    ghost counted = { λ input. u64_of input.faults };
}

impl<R: Read> Stream for Input<R> {}

impl<R: Read> Source for Input<R> {
    fn read(&mut self, room: &mut [u8]) -> Result<usize, Failed> {
        match self.reader.read(room) {
            Ok(count) => Ok(count),
            Err(_) => {
                self.faults = self.faults.saturating_add(1);
                Err(Failed)
            }
        }
    }
}

/// A writer as a sink. What it takes isn't told. This project's profile.
#[derive(Drop)]
pub struct Output<W> {
    writer: W,
    faults: u64,
}

impl<W> Model for Output<W> {
    ghost use Rattle.pec_files.specs.Streams.{Device};

    ghost Value = { Device W };

    ghost view = { λ output. record { device = output.writer; faults = output.faults } };
}

impl<W> Output<W> {
    /// A writer, with no fault yet.
    pub fn new(writer: W) -> Output<W>
        ensures { result ≡ fresh writer }
    {
        Output { writer, faults: 0 }
    }

    /// How many calls failed.
    pub fn faults(&self) -> u64
        ensures { result ≡ self.now.faults }
    {
        self.faults
    }
}

impl<W: Write> Counted for Output<W> {
    ghost use Rattle.pec_outside.specs.Flow.{as_u64, u64_of};

    ghost faults = { λ output. as_u64 output.faults };

    ghost counted = { λ output. u64_of output.faults };
}

impl<W: Write> Stream for Output<W> {}

impl<W: Write> Sink for Output<W> {
    fn write(&mut self, piece: &[u8]) -> Result<usize, Failed> {
        match self.writer.write(piece) {
            Ok(count) if count > 0 || piece.is_empty() => Ok(count),
            // To take nothing of something is a fault.
            _ => {
                self.faults = self.faults.saturating_add(1);
                Err(Failed)
            }
        }
    }
}
