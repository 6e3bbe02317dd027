ghost use Rattle.std.specs.Prelude.{◌≡◌, ◌<◌, ◌≤◌, length, IsErr, IfOk, OnOk, OnErr};
ghost use Rattle.std.specs.Duration.{as_nanos};
ghost use Rattle.std.specs.Io.{ReadsAtMost, WritesAtMost};
ghost use Rattle.pec_outside.specs.Flow.{HasRisen, as_u64, u64_of};
ghost use Rattle.pec_outside.specs.Memory.{risen};
ghost use Rattle.pec_doors.specs.Devices.{ConnectionState, begun};

use pec_outside::{Counted, Failed, Sink, Source, Stream};
use std::io;
use std::io::{ErrorKind, Read, Write};
use std::marker::Model;
use std::net::{Shutdown, TcpStream};
use std::rt::Clock;
use std::time::{Duration, Instant};

// So many pieces of 4,096 bytes are more than the greatest message, 31,457,280 bytes.
const MOST_PIECES: u32 = 8_192;

// So often a read or a write that a signal interrupts is asked again.
const MOST_SIGNALS: u32 = 1_024;

/// A connection of a `TcpDoor`. What it is sent and what reaches the client isn't told. This project's profile.
///
/// The time that its reads and writes take is taken off one limit for all of them. Where none is left they fail.
#[derive(Drop)]
pub struct TcpConnection<R> {
    system: R,
    stream: TcpStream,
    left: Duration,
    faults: u64,
}

impl<R> Model for TcpConnection<R> {
    ghost Value = { ConnectionState };

    ghost view = { λ connection. record { left = as_nanos connection.left; faults = connection.faults } };
}

impl<R> TcpConnection<R> {
    /// A connection over a socket, with no fault yet, whose reads and writes may take so much time together.
    pub(crate) fn new(system: R, stream: TcpStream, limit: Duration) -> TcpConnection<R>
        ensures { result ≡ begun (as_nanos limit) }
    {
        TcpConnection {
            system,
            stream,
            left: limit,
            faults: 0,
        }
    }

    /// How many of its reads and writes failed.
    pub fn faults(&self) -> u64
        ensures { result ≡ self.now.faults }
    {
        self.faults
    }

    fn fault(&mut self) -> Failed
        ensures { self.new ≡ record self.old { faults = risen self.old.faults } }
    {
        self.faults = self.faults.saturating_add(1);
        Failed
    }
}

impl<R: Clock + Drop> TcpConnection<R> {
    /// Closes it in stages (RFC 9112, section 9.6): ends what is written, and then lets go of what the client still
    /// sends, up to its end or as long as time is left. A connection that is closed with bytes unread would be reset,
    /// and the reply lost with it.
    pub(crate) fn end(mut self) {
        if self.stream.shutdown(Shutdown::Write).is_err() {
            return;
        }
        let mut room = [0; 4_096];
        for _ in 0..MOST_PIECES {
            match self.read_in_time(&mut room) {
                Ok(0) | Err(_) => return,
                Ok(_) => (),
            }
        }
    }
}

impl<R: Clock> TcpConnection<R> {
    // A read that waits no longer than time is left. One that a signal interrupts, as it does where the process is
    // stopped and goes on (signal(7), "Interruption of system calls by stop signals"), is asked again.
    fn read_in_time(&mut self, room: &mut [u8]) -> io::Result<usize>
        ensures within { ReadsAtMost result room.new }
        ensures spent { self.new.left ≤ self.old.left }
        ensures faults { self.new.faults ≡ self.old.faults }
        ensures no_time { self.old.left ≡ 0 → IsErr result }
    {
        for _ in 0..MOST_SIGNALS {
            match self.read_once(room) {
                Err(error) if error.kind() == ErrorKind::Interrupted => (),
                answer => return answer,
            }
        }
        Err(io::Error::from(ErrorKind::Interrupted))
    }

    // A write that waits no longer than time is left, and is asked again likewise.
    fn write_in_time(&mut self, piece: &[u8]) -> io::Result<usize>
        ensures within { WritesAtMost result piece.now }
        ensures spent { self.new.left ≤ self.old.left }
        ensures faults { self.new.faults ≡ self.old.faults }
        ensures no_time { self.old.left ≡ 0 → IsErr result }
    {
        for _ in 0..MOST_SIGNALS {
            match self.write_once(piece) {
                Err(error) if error.kind() == ErrorKind::Interrupted => (),
                answer => return answer,
            }
        }
        Err(io::Error::from(ErrorKind::Interrupted))
    }

    // A read that waits no longer than time is left, and its time is gone then.
    fn read_once(&mut self, room: &mut [u8]) -> io::Result<usize>
        ensures within { ReadsAtMost result room.new }
        ensures spent { self.new.left ≤ self.old.left }
        ensures faults { self.new.faults ≡ self.old.faults }
        ensures no_time { self.old.left ≡ 0 → IsErr result }
    {
        let start = Instant::now(&self.system)?;
        self.stream.set_read_timeout(Some(self.left))?;
        let answer = self.stream.read(room);
        self.spend(start);
        answer
    }

    // A write that waits no longer than time is left, and its time is gone then.
    fn write_once(&mut self, piece: &[u8]) -> io::Result<usize>
        ensures within { WritesAtMost result piece.now }
        ensures spent { self.new.left ≤ self.old.left }
        ensures faults { self.new.faults ≡ self.old.faults }
        ensures no_time { self.old.left ≡ 0 → IsErr result }
    {
        let start = Instant::now(&self.system)?;
        self.stream.set_write_timeout(Some(self.left))?;
        let answer = self.stream.write(piece);
        self.spend(start);
        answer
    }

    // Takes the time since the start of a call off what is left: all of it where the clock can't be read.
    fn spend(&mut self, start: Instant)
        ensures spent { self.new.left ≤ self.old.left }
        ensures faults { self.new.faults ≡ self.old.faults }
    {
        let taken = start.elapsed(&self.system).unwrap_or(self.left);
        self.left = self.left.saturating_sub(taken);
    }
}

impl<R> Counted for TcpConnection<R> {
    ghost faults = { λ connection. as_u64 connection.faults };

    ghost counted = { λ connection. u64_of connection.faults };
}

impl<R> Stream for TcpConnection<R> {}

impl<R: Clock> Source for TcpConnection<R> {
    /// As in the trait. It fails where nothing comes as long as time is left, and where none is left.
    fn read(&mut self, room: &mut [u8]) -> Result<usize, Failed>
        ensures within { IfOk result (λ n. n ≤ length room.old) }
        ensures later { as_u64 self.old.faults ≤ as_u64 self.new.faults }
        ensures cause { OnErr result (HasRisen (as_u64 self.old.faults) (as_u64 self.new.faults)) }

        // Beyond the trait.
        ensures ok { OnOk result (self.new.faults ≡ self.old.faults) }
        ensures err { OnErr result (self.new.faults ≡ risen self.old.faults) }
        ensures spent { self.new.left ≤ self.old.left }
        ensures no_time { self.old.left ≡ 0 → IsErr result }
    {
        match self.read_in_time(room) {
            Ok(count) => Ok(count),
            Err(_) => Err(self.fault()),
        }
    }
}

impl<R: Clock> Sink for TcpConnection<R> {
    /// As in the trait. It fails where nothing is taken as long as time is left, and where none is left.
    fn write(&mut self, piece: &[u8]) -> Result<usize, Failed>
        ensures within { IfOk result (λ n. n ≤ length piece.now) }
        ensures some { 0 < length piece.now → IfOk result (λ n. 0 < n) }
        ensures later { as_u64 self.old.faults ≤ as_u64 self.new.faults }
        ensures cause { OnErr result (HasRisen (as_u64 self.old.faults) (as_u64 self.new.faults)) }

        // Beyond the trait.
        ensures ok { OnOk result (self.new.faults ≡ self.old.faults) }
        ensures err { OnErr result (self.new.faults ≡ risen self.old.faults) }
        ensures spent { self.new.left ≤ self.old.left }
        ensures no_time { self.old.left ≡ 0 → IsErr result }
    {
        match self.write_in_time(piece) {
            Ok(count) if count > 0 || piece.is_empty() => Ok(count),
            // To take nothing of something is a fault.
            _ => Err(self.fault()),
        }
    }
}
