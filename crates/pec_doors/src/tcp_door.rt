ghost use Rattle.std.specs.Prelude.{◌≡◌, ◌≢◌, ◌+◌, ◌<◌, ◌≤◌, true, is_some, None, IsErr, IfOk, OnOk, OnErr};
ghost use Rattle.std.specs.Duration.{as_nanos};
ghost use Rattle.pec_outside.specs.Flow.{HasRisen, as_u64, u64_of};
ghost use Rattle.pec_outside.specs.Memory.{risen};
ghost use Rattle.pec_doors.specs.Devices.{DoorState, begun, shut, accepted, closed, Refused};

use crate::descriptors::apart_from_the_streams;
use crate::tcp_connection::TcpConnection;
use pec_outside::{Counted, Door, Failed};
use std::io;
use std::marker::Model;
use std::net::{Ipv4Addr, Net, TcpListener, TcpStream};
use std::rt::Clock;
use std::time::Duration;

#[cfg(test)]
mod tests;

/// A TCP port of this machine alone (127.0.0.1). What its clients send isn't told, nor what reaches them. This
/// project's profile.
///
/// The port is opened as the first connection is asked for, so a door at which none is asks nothing of the system.
#[derive(Drop)]
pub struct TcpDoor<R> {
    system: R,
    port: u16,
    limit: Duration,
    listener: Option<TcpListener>,
    out: u64,
    faulty: u64,
    faults: u64,
}

impl<R> Model for TcpDoor<R> {
    ghost Value = { DoorState };

    ghost view = { λ door. record {
      port = door.port;
      limit = as_nanos door.limit;
      listening = is_some door.listener;
      out = door.out;
      faulty = door.faulty;
      faults = door.faults;
    } };
}

impl<R> TcpDoor<R> {
    /// The door at a port, which isn't opened yet. The reads and writes of a connection take no longer than `limit`,
    /// all of them together. A limit of 0 lets no connection in.
    pub fn new(system: R, port: u16, limit: Duration) -> TcpDoor<R>
        ensures { result ≡ shut port (as_nanos limit) }
    {
        TcpDoor {
            system,
            port,
            limit,
            listener: None,
            out: 0,
            faulty: 0,
            faults: 0,
        }
    }

    /// How many calls of `accept` failed.
    pub fn faults(&self) -> u64
        ensures { result ≡ self.now.faults }
    {
        self.faults
    }

    fn fault(&mut self) -> Failed
        ensures { self.new ≡ record self.old { faults = risen self.old.faults } }
    {
        self.faults = self.faults.saturating_add(1);
        Failed
    }
}

impl<R: Net<Listener = TcpListener, Stream = TcpStream>> TcpDoor<R> {
    // Opens the port where it isn't open yet.
    fn listen(&mut self) -> io::Result<()>
        ensures ok { OnOk result (self.new ≡ record self.old { listening = true }) }
        ensures err { OnErr result (self.new ≡ self.old) }
    {
        if self.listener.is_none() {
            self.listener = Some(listen_at(&self.system, self.port)?);
        }
        Ok(())
    }

    // The socket of the next client.
    fn next_stream(&mut self) -> io::Result<TcpStream>
        ensures ok { OnOk result (self.new ≡ record self.old { listening = true }) }
        ensures err { OnErr result (self.new ≡ record self.old { listening = self.new.listening }) }
        ensures stays { OnErr result (self.old.listening ≡ true → self.new.listening ≡ true) }
    {
        self.listen()?;
        let Some(listener) = &self.listener else {
            unreachable!()
        };
        let (stream, _) = listener.accept()?;
        Ok(TcpStream::from(apart_from_the_streams(stream.into())?))
    }
}

impl<R> Counted for TcpDoor<R> {
    ghost faults = { λ door. as_u64 door.faults };

    ghost counted = { λ door. u64_of door.faults };
}

impl<R: Net<Listener = TcpListener, Stream = TcpStream> + Clock + Copy> Door for TcpDoor<R> {
    type C = TcpConnection<R>;

    ghost requests = { λ _. None };

    ghost replies = { λ _. None };

    ghost faulty = { λ door. as_u64 door.faulty };

    ghost out = { λ door. door.out };

    ghost faulty_counted = { λ door. u64_of door.faulty };

    /// As in the trait. It waits for a client as long as none comes. It fails where the port can't be opened, as one
    /// that is taken, where the system can't give a connection, where 2^64 - 1 are out, and where the limit is 0.
    fn accept(&mut self) -> Result<TcpConnection<R>, Failed>
        ensures fresh { IfOk result (λ connection. as_u64 connection.faults ≡ 0) }
        ensures ok { OnOk result (self.new.out ≡ self.old.out + 1) }
        ensures err { OnErr result (self.new.out ≡ self.old.out) }
        ensures faulty { as_u64 self.new.faulty ≡ as_u64 self.old.faulty }
        ensures later { as_u64 self.old.faults ≤ as_u64 self.new.faults }
        ensures cause { OnErr result (HasRisen (as_u64 self.old.faults) (as_u64 self.new.faults)) }

        // Beyond the trait.
        ensures first { IfOk result (λ connection. connection ≡ begun self.old.limit) }
        ensures after { OnOk result (self.new ≡ accepted self.old) }
        ensures failed { OnErr result (Refused self.old self.new) }
        ensures no_time { self.old.limit ≡ 0 → IsErr result }
    {
        if self.limit.is_zero() {
            return Err(self.fault());
        }
        let Some(out) = self.out.checked_add(1) else {
            return Err(self.fault());
        };
        let Ok(stream) = self.next_stream() else {
            return Err(self.fault());
        };
        self.out = out;
        Ok(TcpConnection::new(self.system, stream, self.limit))
    }

    /// As in the trait. What the client still sends is let go, as long as the connection has time left.
    fn close(&mut self, connection: TcpConnection<R>)
        requires { 0 < self.old.out }
        ensures raised { as_u64 connection.faults ≢ 0 → HasRisen (as_u64 self.old.faulty) (as_u64 self.new.faulty) }
        ensures never_falls { as_u64 self.old.faulty ≤ as_u64 self.new.faulty }
        ensures calm { as_u64 connection.faults ≡ 0 → as_u64 self.new.faulty ≡ as_u64 self.old.faulty }
        ensures out { self.old.out ≡ self.new.out + 1 }
        ensures later { as_u64 self.old.faults ≤ as_u64 self.new.faults }

        // Beyond the trait.
        ensures after { self.new ≡ closed self.old connection.faults }
    {
        self.out -= 1;
        if connection.faults() > 0 {
            self.faulty = self.faulty.saturating_add(1);
        } else {
            connection.end();
        }
    }
}

// Listens on a port of this machine alone.
fn listen_at<R: Net<Listener = TcpListener, Stream = TcpStream>>(
    system: &R,
    port: u16,
) -> io::Result<TcpListener> {
    let listener = TcpListener::bind(system, (Ipv4Addr::LOCALHOST, port))?;
    let socket = apart_from_the_streams(listener.into())?;
    Ok(TcpListener::from(socket))
}
