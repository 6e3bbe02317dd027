//! Readers and writers as sources and sinks.
use crate::texts::are_these;
use pec_files::{Input, Output};
use pec_outside::{Sink, Source, write_all};
use std::alloc::Global;
use std::io;
use std::io::{Error, ErrorKind, Read, Write};

/// A reader and a writer that always fail.
#[derive(Drop)]
struct Broken;

impl Read for Broken {
    fn read(&mut self, _room: &mut [u8]) -> io::Result<usize> {
        Err(Error::from(ErrorKind::BrokenPipe))
    }
}

impl Write for Broken {
    fn write(&mut self, _piece: &[u8]) -> io::Result<usize> {
        Ok(0)
    }

    fn flush(&mut self) -> io::Result<()> {
        Ok(())
    }
}

#[test]
fn a_reader_is_read_to_its_end_and_its_faults_are_counted(rt: HostRuntime) {
    assert!(rt; is_read_to_its_end());
    assert!(rt; fails_to_read());
}

fn is_read_to_its_end() -> bool {
    let mut input = Input::new(b"abc".as_slice());
    let mut room = [0u8; 2];
    gives(&mut input, &mut room, b"ab")
        && gives(&mut input, &mut room, b"c")
        && gives(&mut input, &mut room, b"")
        && input.faults() == 0
}

fn gives<S: Source>(input: &mut S, room: &mut [u8], wanted: &[u8]) -> bool {
    match input.read(room) {
        Ok(count) => count == wanted.len() && room.starts_with(wanted),
        Err(_) => false,
    }
}

fn fails_to_read() -> bool {
    let mut broken = Input::new(Broken);
    let mut room = [0u8; 2];
    broken.read(&mut room).is_err() && broken.faults() == 1
}

#[test]
fn a_writer_takes_all_and_its_faults_are_counted(rt: HostRuntime) {
    assert!(rt; is_written(rt.alloc(), b"abc"));
    assert!(rt; fails_to_write());
}

fn is_written(alloc: Global, piece: &[u8]) -> bool {
    let mut bytes = Vec::new(alloc);
    takes(&mut Output::new(&mut bytes), piece) && are_these(bytes.as_slice(), piece)
}

fn takes<S: Sink>(output: &mut S, piece: &[u8]) -> bool {
    write_all(output, piece).is_ok()
}

fn fails_to_write() -> bool {
    let mut broken = Output::new(Broken);
    broken.write(b"abc").is_err() && broken.faults() == 1
}
