use super::*;
use pec_outside::{Sink, Source, write_all};
use std::cell::Cell;
use std::io::{ErrorKind, Read, Write};
use std::net::SocketAddr;
use std::time::Instant;

/// The system, with a clock that goes on by 20 ms whenever it is read, so that each read and each write takes as long.
/// It can be read so many times.
#[derive(Clone, Copy)]
struct Hurried<'a> {
    system: &'a HostRuntime,
    readings: &'a Cell<u32>,
    most: u32,
}

impl<'a> Clock for Hurried<'a> {
    fn monotonic(&self) -> io::Result<Duration> {
        let reading = self.readings.get().saturating_add(1);
        self.readings.set(reading);
        if reading > self.most {
            return Err(io::Error::from(ErrorKind::InvalidData));
        }
        Ok(Duration::from_millis(u64::from(reading) * 20))
    }

    fn since_1970(&self) -> io::Result<Duration> {
        self.monotonic()
    }
}

impl<'a> Net for Hurried<'a> {
    type Stream = TcpStream;

    type Listener = TcpListener;

    fn bind(&self, addr: SocketAddr) -> io::Result<TcpListener> {
        self.system.bind(addr)
    }

    fn connect(&self, addr: SocketAddr) -> io::Result<TcpStream> {
        self.system.connect(addr)
    }
}

// The second one is closed with most of its bytes unread.
#[test]
fn a_client_that_wrote_before_is_answered(rt: HostRuntime) {
    assert!(rt; is_answered(&rt, b"abc", b"abc"));
    assert!(rt; is_answered(&rt, &[b'a'; 20_000], b"aaaa"));
}

fn is_answered(rt: &HostRuntime, request: &[u8], begins: &[u8]) -> bool {
    let mut door = TcpDoor::new(rt, 0, limit());
    match client_of(rt, &mut door) {
        Ok(mut client) => {
            client.write_all(request).is_ok()
                && answers(&mut door, begins)
                && is_replied(rt, client)
                && has_counts(&door, 0, 0)
        }
        Err(_) => false,
    }
}

/// Accepts a client, reads four bytes of it at most, and replies.
fn answers<C: Source + Sink, D: Door<C = C>>(door: &mut D, begins: &[u8]) -> bool {
    match door.accept() {
        Ok(mut connection) => {
            let is_answered = gives(&mut connection, begins)
                && write_all(&mut connection, b"reply").is_ok();
            door.close(connection);
            is_answered
        }
        Err(_) => false,
    }
}

fn gives<S: Source>(input: &mut S, wanted: &[u8]) -> bool {
    let mut room = [0; 4];
    match input.read(&mut room) {
        Ok(count) => match room.get(..count) {
            Some(bytes) => bytes == wanted,
            None => false,
        },
        Err(_) => false,
    }
}

fn is_replied(rt: &HostRuntime, client: TcpStream) -> bool {
    match io::read_to_string(rt.alloc(), client) {
        Ok(reply) => reply.as_str() == "reply",
        Err(_) => false,
    }
}

#[test]
fn a_silent_client_is_a_fault_within_the_limit(rt: HostRuntime) {
    match time_of_silence(&rt) {
        Some(waited) => {
            assert!(rt; waited >= Duration::from_millis(100), "waited {waited:?}");
            assert!(rt; waited < Duration::from_secs(20), "waited {waited:?}");
        }
        None => assert!(rt; false, "no fault"),
    }
}

/// How long it takes until a silent client is a fault; none where it is none.
fn time_of_silence(rt: &HostRuntime) -> Option<Duration> {
    let mut door = TcpDoor::new(rt, 0, limit());
    match client_of(rt, &mut door) {
        Ok(client) => {
            let waited = silent_for(rt, &mut door);
            drop(client);
            if has_counts(&door, 0, 1) {
                waited
            } else {
                None
            }
        }
        Err(_) => None,
    }
}

fn silent_for(rt: &HostRuntime, door: &mut TcpDoor<&HostRuntime>) -> Option<Duration> {
    match door.accept() {
        Ok(mut connection) => {
            let waited = time_of_a_fault(rt, &mut connection);
            let faults = connection.faults();
            door.close(connection);
            if faults == 1 { waited } else { None }
        }
        Err(_) => None,
    }
}

fn time_of_a_fault<S: Source>(rt: &HostRuntime, input: &mut S) -> Option<Duration> {
    let start = Instant::now(rt).ok()?;
    if input.read(&mut [0; 4]) != Err(Failed) {
        return None;
    }
    start.elapsed(rt).ok()
}

// The system takes some megabytes for a client that reads nothing.
#[test]
fn a_client_that_does_not_read_is_a_fault(rt: HostRuntime) {
    assert!(rt; is_no_reader(&rt));
}

fn is_no_reader(rt: &HostRuntime) -> bool {
    let mut door = TcpDoor::new(rt, 0, limit());
    match client_of(rt, &mut door) {
        Ok(client) => {
            let is_fault = is_written_in_vain(&mut door);
            drop(client);
            is_fault
        }
        Err(_) => false,
    }
}

fn is_written_in_vain(door: &mut TcpDoor<&HostRuntime>) -> bool {
    match door.accept() {
        Ok(mut connection) => {
            write_on(&mut connection);
            connection.faults() == 1
        }
        Err(_) => false,
    }
}

/// Writes until a write fails, some megabytes at most.
fn write_on<S: Sink>(output: &mut S) {
    for _ in 0..20_000 {
        if output.write(&[b'a'; 8_192]).is_err() {
            break;
        }
    }
}

// How many readings the clock has, and how many reads and writes are made of the ten that the limit of 200 ms leaves
// time for. A clock that can't be read any more ends it too.
const TRICKLES: [(u32, u32, u32); 5] = [(99, 10, 0), (99, 0, 10), (99, 4, 6), (1, 1, 0), (2, 1, 0)];

#[test]
fn a_client_that_trickles_is_ended_at_the_limit(rt: HostRuntime) {
    for (most, reads, writes) in TRICKLES {
        assert!(rt;
            is_ended(&rt, most, reads, writes),
            "{most} {reads} {writes}"
        );
    }
}

fn is_ended(rt: &HostRuntime, most: u32, reads: u32, writes: u32) -> bool {
    let readings = Cell::new(0);
    let mut door = hurried_door(rt, &readings, most);
    match client_of(rt, &mut door) {
        Ok(mut client) => {
            client.write_all(&[b'a'; 64]).is_ok()
                && trickles(&mut door, reads, writes)
                && has_counts(&door, 0, 1)
        }
        Err(_) => false,
    }
}

fn trickles(door: &mut TcpDoor<Hurried<'_>>, reads: u32, writes: u32) -> bool {
    match door.accept() {
        Ok(mut connection) => {
            let is_ended = gives_each(&mut connection, reads)
                && takes_each(&mut connection, writes)
                && fails(&mut connection)
                && connection.faults() == 2;
            door.close(connection);
            is_ended
        }
        Err(_) => false,
    }
}

fn gives_each<S: Source>(input: &mut S, reads: u32) -> bool {
    for _ in 0..reads {
        if input.read(&mut [0]) != Ok(1) {
            return false;
        }
    }
    true
}

fn takes_each<S: Sink>(output: &mut S, writes: u32) -> bool {
    for _ in 0..writes {
        if output.write(b"b") != Ok(1) {
            return false;
        }
    }
    true
}

fn fails<C: Source + Sink>(connection: &mut C) -> bool {
    connection.read(&mut [0]) == Err(Failed) && connection.write(b"b") == Err(Failed)
}

// Two of the ten calls are made before, and what the client sent would take 13 to let go.
#[test]
fn letting_go_ends_at_the_limit(rt: HostRuntime) {
    assert_eq!(rt; readings_until_let_go(&rt), Some(21));
}

/// How often the clock is read until a client is let go that sent much.
fn readings_until_let_go(rt: &HostRuntime) -> Option<u32> {
    let readings = Cell::new(0);
    let mut door = hurried_door(rt, &readings, 99);
    match client_of(rt, &mut door) {
        Ok(mut client) => {
            if client.write_all(&[b'a'; 50_000]).is_ok()
                && talks_and_lets_go(&mut door)
                && has_counts(&door, 0, 0)
            {
                Some(readings.get())
            } else {
                None
            }
        }
        Err(_) => None,
    }
}

fn talks_and_lets_go<C: Source + Sink, D: Door<C = C>>(door: &mut D) -> bool {
    match door.accept() {
        Ok(mut connection) => {
            let talks = connection.read(&mut [0]) == Ok(1) && connection.write(b"b") == Ok(1);
            door.close(connection);
            talks
        }
        Err(_) => false,
    }
}

#[test]
fn a_door_without_time_lets_nobody_in(rt: HostRuntime) {
    assert!(rt; lets_nobody_in(&rt));
}

fn lets_nobody_in(rt: &HostRuntime) -> bool {
    let mut door = TcpDoor::new(rt, 0, Duration::ZERO);
    door.accept().is_err() && has_counts(&door, 1, 0)
}

#[test]
fn a_port_that_is_taken_is_a_fault(rt: HostRuntime) {
    assert!(rt; waits_for_its_port(&rt));
}

fn waits_for_its_port(rt: &HostRuntime) -> bool {
    match TcpListener::bind(rt, (Ipv4Addr::LOCALHOST, 0)) {
        Ok(taken) => match taken.local_addr() {
            Ok(address) => {
                let mut door = TcpDoor::new(rt, address.port(), limit());
                let is_shut = fails_twice(&mut door);
                drop(taken);
                is_shut && lets_a_client_in(rt, &mut door) && has_counts(&door, 2, 0)
            }
            Err(_) => false,
        },
        Err(_) => false,
    }
}

fn fails_twice(door: &mut TcpDoor<&HostRuntime>) -> bool {
    door.accept().is_err() && door.faults() == 1 && door.accept().is_err() && door.faults() == 2
}

/// Whether a client that goes at once is let in, and its end is read.
fn lets_a_client_in(rt: &HostRuntime, door: &mut TcpDoor<&HostRuntime>) -> bool {
    match client_of(rt, door) {
        Ok(client) => {
            drop(client);
            meets_an_end(door)
        }
        Err(_) => false,
    }
}

fn meets_an_end<C: Source + Sink, D: Door<C = C>>(door: &mut D) -> bool {
    match door.accept() {
        Ok(mut connection) => {
            let is_end = connection.read(&mut [0; 4]) == Ok(0);
            door.close(connection);
            is_end
        }
        Err(_) => false,
    }
}

fn limit() -> Duration {
    Duration::from_millis(200)
}

fn hurried_door<'a>(
    rt: &'a HostRuntime,
    readings: &'a Cell<u32>,
    most: u32,
) -> TcpDoor<Hurried<'a>> {
    let system = Hurried {
        system: rt,
        readings,
        most,
    };
    TcpDoor::new(system, 0, limit())
}

/// Whether so many calls of `accept` failed and so many connections were faulty, and none is out.
fn has_counts<R>(door: &TcpDoor<R>, faults: u64, faulty: u64) -> bool {
    door.faults == faults && door.faulty == faulty && door.out == 0
}

// A client that has connected, and waits to be accepted.
fn client_of<R: Net<Listener = TcpListener, Stream = TcpStream>>(
    rt: &HostRuntime,
    door: &mut TcpDoor<R>,
) -> io::Result<TcpStream> {
    door.listen()?;
    match &door.listener {
        Some(listener) => TcpStream::connect(rt, listener.local_addr()?),
        None => Err(io::Error::from(ErrorKind::NotConnected)),
    }
}
