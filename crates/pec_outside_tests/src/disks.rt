//! Disks and depots in memory: what is read of what was written, calls that fail, and crashes.
use crate::rows::holds_at;
use crate::texts::calls;
use pec_outside::{Depot, Disk, MemDepot, MemDisk};
use std::alloc::Global;

/// Where a piece is written, the piece, and what the disk holds then.
type Written = (u64, &'static [u8], &'static [u8]);

static WRITES: &[Written] = &[
    (0, b"abc", b"abc"),
    (1, b"XY", b"aXY"), // within
    (2, b"zzz", b"aXzzz"), // over the end
    (5, b"!", b"aXzzz!"), // at the end
    (3, b"", b"aXzzz!"), // nothing
];

/// Where four bytes are read, one row after another, how many there are, and the room then.
type Read = (u64, usize, &'static [u8]);

static READS: &[Read] = &[
    (0, 4, b"aXzz"),
    (4, 2, b"z!zz"),
    (6, 0, b"z!zz"),
    (9, 0, b"z!zz"),
];

#[test]
fn a_disk_reads_as_it_was_written(rt: HostRuntime) {
    assert!(rt; reads_as_written(rt.alloc()));
}

fn reads_as_written(alloc: Global) -> bool {
    let mut disk = MemDisk::new(alloc, Vec::new(alloc));
    let mut room = [b'-'; 4];
    takes_all(&mut disk, WRITES) && gives_all(&mut disk, &mut room, READS)
}

fn takes_all<D: Disk>(disk: &mut D, rows: &[Written]) -> bool {
    for row in rows {
        if !takes(disk, row) {
            return false;
        }
    }
    true
}

fn takes<D: Disk>(disk: &mut D, row: &Written) -> bool {
    disk.write_at(row.0, row.1).is_ok() && holds(disk, row.2) && has_size(disk, row.2.len() as u64)
}

/// Whether these bytes are what the disk holds, up to 40.
fn holds<D: Disk>(disk: &mut D, wanted: &[u8]) -> bool {
    let mut room = [0; 40];
    match disk.read_at(0, &mut room) {
        Ok(count) => count == wanted.len() && room.starts_with(wanted),
        Err(_) => false,
    }
}

fn gives_all<D: Disk>(disk: &mut D, room: &mut [u8], rows: &[Read]) -> bool {
    for row in rows {
        if disk.read_at(row.0, room) != Ok(row.1) || *room != *row.2 {
            return false;
        }
    }
    true
}

// A write that fails changes nothing that is read, and each call is counted, those too that fail.
#[test]
fn each_call_of_a_disk_can_fail(rt: HostRuntime) {
    for number in 0..4 {
        holds_at(&rt, fails_once(rt.alloc(), number), number, "");
    }
}

fn fails_once(alloc: Global, number: u64) -> bool {
    let mut disk = MemDisk::new(alloc, calls(alloc, &[number]));
    fails_at(&mut disk, number) && disk.calls() == 4 && holds_unless_failed(&mut disk, number)
}

/// Whether the disk holds the three bytes, unless their write failed.
fn holds_unless_failed<D: Disk>(disk: &mut D, number: u64) -> bool {
    has_size(disk, if number == 0 { 0 } else { 3 })
}

fn has_size<D: Disk>(disk: &mut D, wanted: u64) -> bool {
    match disk.size() {
        Ok(size) => size == wanted,
        Err(_) => false,
    }
}

fn fails_at<D: Disk>(disk: &mut D, number: u64) -> bool {
    let mut room = [0; 8];
    disk.write_at(0, b"abc").is_err() == (number == 0)
        && disk.sync().is_err() == (number == 1)
        && disk.size().is_err() == (number == 2)
        && disk.read_at(0, &mut room).is_err() == (number == 3)
}

// `abcdef` is durable. Then XY is written at 1, a write at 4 fails, and Z is written at 6: pending are the places 1, 2,
// 4 and 6.
static CRASHES: &[(u64, &[u8])] = &[
    (0, b"a\xff\xffd\xfff\xff"),
    (1, b"aX\xffd\xfff\xff"),
    (2, b"aXYd\xfff\xff"),
    (3, b"aXYdef\xff"),
    (4, b"aXYdefZ"),
    (9, b"aXYdefZ"),
];

#[test]
fn a_crash_keeps_the_first_pending_bytes(rt: HostRuntime) {
    for row in CRASHES {
        holds_at(&rt, keeps_first(rt.alloc(), row), row.0, "");
    }
}

/// Whether a crash that keeps so many pending bytes leaves this.
fn keeps_first(alloc: Global, row: &(u64, &[u8])) -> bool {
    let mut depot = depot_keeping(alloc, row.0);
    is_left_by_crashes(&mut depot, row.1)
}

/// A depot whose first disk fails at its call 3, and whose first crash keeps so many pending bytes.
fn depot_keeping(alloc: Global, kept: u64) -> MemDepot {
    let mut failing = Vec::new(alloc);
    let _ = failing.push(calls(alloc, &[3]));
    MemDepot::new(alloc, failing, calls(alloc, &[kept]))
}

fn is_left_by_crashes<D: Disk + Drop, P: Depot<D = D>>(depot: &mut P, wanted: &[u8]) -> bool {
    match depot.disk(0) {
        Ok(mut disk) => {
            let is_written = is_written(&mut disk);
            let mut disk = depot.crash(0, disk);
            let is_left = holds(&mut disk, wanted);
            // Nothing is pending now, and past the end of the list nothing would be kept.
            let mut disk = depot.crash(0, disk);
            is_written && is_left && holds(&mut disk, wanted)
        }
        Err(_) => false,
    }
}

fn is_written<D: Disk>(disk: &mut D) -> bool {
    disk.write_at(0, b"abcdef").is_ok()
        && disk.sync().is_ok()
        && disk.write_at(1, b"XY").is_ok()
        && disk.write_at(4, b"!").is_err()
        && disk.write_at(6, b"Z").is_ok()
}

#[test]
fn a_depot_gives_the_disk_that_was_kept(rt: HostRuntime) {
    assert!(rt; gives_what_was_kept(rt.alloc()));
}

fn gives_what_was_kept(alloc: Global) -> bool {
    let mut depot = MemDepot::new(alloc, Vec::new(alloc), Vec::new(alloc));
    keeps_a_written_disk(&mut depot) && has_kept(&mut depot)
}

/// Writes to a disk, which isn't handed out twice, and keeps it.
fn keeps_a_written_disk<D: Disk + Drop, P: Depot<D = D>>(depot: &mut P) -> bool {
    match depot.disk(15) {
        Ok(mut disk) => {
            let is_out_once = disk.write_at(0, b"fifteen").is_ok()
                && depot.disk(15).is_err()
                && has_an_empty_disk(depot);
            depot.keep(15, disk);
            is_out_once
        }
        Err(_) => false,
    }
}

/// Whether another provider's disk is another.
fn has_an_empty_disk<D: Disk + Drop, P: Depot<D = D>>(depot: &mut P) -> bool {
    match depot.disk(0) {
        Ok(mut other) => has_size(&mut other, 0),
        Err(_) => false,
    }
}

fn has_kept<D: Disk + Drop, P: Depot<D = D>>(depot: &mut P) -> bool {
    match depot.disk(15) {
        Ok(mut disk) => holds(&mut disk, b"fifteen"),
        Err(_) => false,
    }
}
