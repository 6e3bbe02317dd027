use super::*;
use pec_types::END_OF_TIME;
use std::io;
use std::io::ErrorKind;
use std::time::{Duration, SystemTime, UNIX_EPOCH};

/// A clock that stands still, or that can't be read.
#[derive(Drop)]
struct Stopped(Option<Duration>);

impl Clock for Stopped {
    fn monotonic(&self) -> io::Result<Duration> {
        self.since_1970()
    }

    fn since_1970(&self) -> io::Result<Duration> {
        self.0.ok_or(io::Error::from(ErrorKind::InvalidData))
    }
}

#[test]
fn the_moment_is_the_systems(rt: HostRuntime) {
    assert!(rt; is_the_systems(&rt));
}

fn is_the_systems(rt: &HostRuntime) -> bool {
    let mut ticks = SystemTicks::new(rt);
    let before = system_seconds(rt);
    let answer = ticks.now();
    let after = system_seconds(rt);
    match (before, answer, after) {
        (Some(before), Ok(moment), Some(after)) => {
            before <= moment.seconds() && moment.seconds() <= after && ticks.faults() == 0
        }
        _ => false,
    }
}

fn system_seconds(rt: &HostRuntime) -> Option<u64> {
    match SystemTime::now(rt) {
        Ok(now) => match now.duration_since(UNIX_EPOCH) {
            Ok(since) => Some(since.as_secs()),
            Err(_) => None,
        },
        Err(_) => None,
    }
}

#[test]
fn a_clock_without_a_moment_fails(rt: HostRuntime) {
    let last = Duration::new(END_OF_TIME - 1, 999_999_999);
    let bound = Duration::from_secs(END_OF_TIME);
    assert!(rt; is_told(Some(Duration::ZERO), Some(0)));
    assert!(rt; is_told(Some(last), Some(END_OF_TIME - 1)));
    assert!(rt; is_told(Some(bound), None));
    assert!(rt; is_told(Some(Duration::MAX), None));
    assert!(rt; is_told(None, None));
}

/// Whether a clock that shows this tells so many seconds, or fails where none are wanted.
fn is_told(shown: Option<Duration>, wanted: Option<u64>) -> bool {
    let mut ticks = SystemTicks::new(Stopped(shown));
    match ticks.now() {
        Ok(moment) => wanted == Some(moment.seconds()) && ticks.faults() == 0,
        Err(_) => wanted.is_none() && ticks.faults() == 1,
    }
}
