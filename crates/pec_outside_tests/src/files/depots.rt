//! Disks and depots: files in folders of the tests' own.
ghost use Rattle.std.specs.Prelude.{◌<◌};

use super::journals::is_entry;
use crate::texts::says;
use pec_files::{FileDepot, FileDisk};
use pec_journal::Journal;
use pec_outside::{Depot, Disk};
use pec_types::Place;
use std::alloc::{AllocError, Global};
use std::fs::{File, OpenOptions};
use std::os::unix::fs::symlink;
use std::{fs, io};

/// Where a piece is written, the piece, and the size then.
type Written = (u64, &'static [u8], u64);

static WRITES: &[Written] = &[
    (0, b"abc", 3),
    (1, b"XY", 3), // within
    (2, b"zzz", 5), // over the end
    (5, b"!", 6), // at the end
    (3, b"", 6), // nothing
];

/// Where four bytes are read, one row after another, how many there are, and the room then.
type Read = (u64, usize, &'static [u8]);

static READS: &[Read] = &[
    (0, 4, b"aXzz"),
    (4, 2, b"z!zz"), // over the end
    (6, 0, b"z!zz"),
    (9, 0, b"z!zz"),
];

#[test]
fn a_file_reads_as_it_was_written(rt: HostRuntime) {
    assert!(rt; is_read_as_written(&rt, "pec_files_written"));
}

fn is_read_as_written(rt: &HostRuntime, folder: &str) -> bool {
    is_made_empty(rt, folder)
        && reads_as_written(rt, folder)
        && has_bytes(rt, "pec_files_written/pec-15.journal", b"aXzzz!")
        && is_removed(rt, folder)
}

fn reads_as_written(rt: &HostRuntime, folder: &str) -> bool {
    match depot_over(rt, folder) {
        Ok(mut owned) => is_written_and_read(&mut owned.depot),
        Err(_) => false,
    }
}

fn is_written_and_read(depot: &mut FileDepot<&HostRuntime>) -> bool {
    match disk_of(depot, 15) {
        Some(mut disk) => takes_and_gives(&mut disk),
        None => false,
    }
}

fn takes_and_gives(disk: &mut FileDisk) -> bool {
    let mut room = [b'-'; 4];
    takes_all(disk, WRITES)
        && gives_all(disk, &mut room, READS)
        && disk.sync().is_ok()
        && disk.faults() == 0
}

fn takes_all(disk: &mut FileDisk, rows: &[Written]) -> bool {
    for row in rows {
        if !takes(disk, row) {
            return false;
        }
    }
    true
}

fn takes(disk: &mut FileDisk, row: &Written) -> bool {
    disk.write_at(row.0, row.1).is_ok() && has_size(disk, row.2)
}

fn has_size(disk: &mut FileDisk, wanted: u64) -> bool {
    match disk.size() {
        Ok(size) => size == wanted,
        Err(_) => false,
    }
}

fn gives_all(disk: &mut FileDisk, room: &mut [u8], rows: &[Read]) -> bool {
    for row in rows {
        if !gives(disk, room, row) {
            return false;
        }
    }
    true
}

fn gives(disk: &mut FileDisk, room: &mut [u8], row: &Read) -> bool {
    match disk.read_at(row.0, room) {
        Ok(count) => count == row.1 && *room == *row.2,
        Err(_) => false,
    }
}

fn has_bytes(rt: &HostRuntime, path: &str, wanted: &[u8]) -> bool {
    match fs::read(rt, path) {
        Ok(bytes) => says(bytes, wanted),
        Err(_) => false,
    }
}

// `/dev/full` has no size, reads as zeros, has no room for a write, and can't be synced.
#[test]
fn a_disk_counts_its_faults(rt: HostRuntime) {
    assert!(rt; opens_full(&rt));
    assert!(rt; opens_a_folder(&rt));
}

fn opens_full(rt: &HostRuntime) -> bool {
    match OpenOptions::new()
        .read(true)
        .write(true)
        .open(rt, "/dev/full")
    {
        Ok(full) => is_full(full),
        Err(_) => false,
    }
}

fn opens_a_folder(rt: &HostRuntime) -> bool {
    match fs::open(rt, ".") {
        Ok(folder) => is_no_file(folder),
        Err(_) => false,
    }
}

fn is_full(file: File) -> bool {
    let mut disk = FileDisk::new(file);
    reads_zeros(&mut disk) && fails_to_write(&mut disk)
}

fn reads_zeros(disk: &mut FileDisk) -> bool {
    let mut room = [b'-'; 2];
    has_size(disk, 0) && gives(disk, &mut room, &(7, 2, b"\0\0")) && disk.faults() == 0
}

fn fails_to_write(disk: &mut FileDisk) -> bool {
    disk.write_at(0, b"abc").is_err()
        && disk.faults() == 1
        && disk.sync().is_err()
        && disk.faults() == 2
}

/// Whether it can't be read as a file is, since it's a folder.
fn is_no_file(folder: File) -> bool {
    let mut disk = FileDisk::new(folder);
    let mut room = [b'-'; 2];
    disk.read_at(0, &mut room).is_err() && disk.faults() == 1
}

#[test]
fn a_depot_hands_out_what_was_kept(rt: HostRuntime) {
    assert!(rt; is_handed_out_again(&rt, "pec_files_kept"));
}

fn is_handed_out_again(rt: &HostRuntime, folder: &str) -> bool {
    is_made_empty(rt, folder) && hands_out_what_was_kept(rt, folder) && is_removed(rt, folder)
}

fn hands_out_what_was_kept(rt: &HostRuntime, folder: &str) -> bool {
    match depot_over(rt, folder) {
        Ok(mut owned) => keeps_what_was_written(rt, folder, &mut owned.depot),
        Err(_) => false,
    }
}

fn keeps_what_was_written(
    rt: &HostRuntime,
    folder: &str,
    depot: &mut FileDepot<&HostRuntime>,
) -> bool {
    fails_without_a_folder(rt, folder, depot)
        && keeps_a_written_disk(depot)
        && has_kept(depot)
        && depot.faults() == 2
}

/// Whether no file can be made in a folder that isn't there. It is there again then.
fn fails_without_a_folder(
    rt: &HostRuntime,
    folder: &str,
    depot: &mut FileDepot<&HostRuntime>,
) -> bool {
    is_removed(rt, folder) && gives_none(depot, 0, 1) && is_made(rt, folder)
}

/// Writes to a disk, which isn't handed out twice, crashes it and keeps it.
fn keeps_a_written_disk(depot: &mut FileDepot<&HostRuntime>) -> bool {
    match disk_of(depot, 0) {
        Some(mut disk) => {
            let is_out_once = disk.write_at(0, b"abc").is_ok() && gives_none(depot, 0, 2);
            let disk = depot.crash(0, disk);
            keep(depot, 0, disk);
            is_out_once
        }
        None => false,
    }
}

/// Whether what was written is there after a crash that was played, and after the disk was at home. Another provider's
/// disk is another.
fn has_kept(depot: &mut FileDepot<&HostRuntime>) -> bool {
    match disk_of(depot, 0) {
        Some(mut disk) => reads_three(&mut disk) && has_an_empty_disk(depot),
        None => false,
    }
}

fn reads_three(disk: &mut FileDisk) -> bool {
    let mut room = [b'-'; 4];
    gives(disk, &mut room, &(0, 3, b"abc-"))
}

fn has_an_empty_disk(depot: &mut FileDepot<&HostRuntime>) -> bool {
    match disk_of(depot, 1) {
        Some(mut disk) => has_size(&mut disk, 0),
        None => false,
    }
}

#[test]
fn a_journal_is_opened_again_by_a_later_run(rt: HostRuntime) {
    assert!(rt; is_opened_again(&rt, "pec_files_journal"));
}

fn is_opened_again(rt: &HostRuntime, folder: &str) -> bool {
    is_made_empty(rt, folder) && is_opened_by_a_later_run(rt, folder) && is_removed(rt, folder)
}

fn is_opened_by_a_later_run(rt: &HostRuntime, folder: &str) -> bool {
    makes_a_journal(rt, folder) && has_a_journal(rt, folder)
}

/// The depot is dropped then, and its files are closed.
fn makes_a_journal(rt: &HostRuntime, folder: &str) -> bool {
    match depot_over(rt, folder) {
        Ok(mut owned) => keeps_a_journal(rt.alloc(), &mut owned.depot),
        Err(_) => false,
    }
}

fn keeps_a_journal(alloc: Global, depot: &mut FileDepot<&HostRuntime>) -> bool {
    match disk_of(depot, 2) {
        Some(disk) => match journal_on(alloc, disk) {
            Some(journal) => {
                keep(depot, 2, journal.into_disk());
                true
            }
            None => false,
        },
        None => false,
    }
}

/// A journal of `abc`.
fn journal_on(alloc: Global, disk: FileDisk) -> Option<Journal<FileDisk>> {
    let mut journal = Journal::create(disk).ok()?;
    if takes_entry(alloc, &mut journal, b"abc") {
        Some(journal)
    } else {
        None
    }
}

fn takes_entry<D: Disk>(alloc: Global, journal: &mut Journal<D>, entry: &[u8]) -> bool {
    journal.reserve(alloc, entry.len()).is_ok() && journal.append(entry).is_ok()
}

fn has_a_journal(rt: &HostRuntime, folder: &str) -> bool {
    match depot_over(rt, folder) {
        Ok(mut later) => gives_a_journal(rt.alloc(), &mut later.depot),
        Err(_) => false,
    }
}

fn gives_a_journal(alloc: Global, depot: &mut FileDepot<&HostRuntime>) -> bool {
    match disk_of(depot, 2) {
        Some(disk) => is_journal(alloc, disk),
        None => false,
    }
}

/// Whether it has one entry, `abc`.
fn is_journal<D: Disk + Drop>(alloc: Global, disk: D) -> bool {
    match Journal::reopen(alloc, disk) {
        Ok((mut journal, places)) => has_one_entry(alloc, &mut journal, &places),
        Err(_) => false,
    }
}

fn has_one_entry<D: Disk>(alloc: Global, journal: &mut Journal<D>, places: &[Place]) -> bool {
    match places {
        [place] => is_entry(alloc, journal, *place, b"abc"),
        _ => false,
    }
}

#[test]
fn a_journal_is_held_by_one_depot(rt: HostRuntime) {
    assert!(rt; is_held_by_one(&rt, "pec_files_held"));
}

fn is_held_by_one(rt: &HostRuntime, folder: &str) -> bool {
    is_made_empty(rt, folder)
        && is_held_out_and_at_home(rt, folder)
        && has_bytes(rt, "pec_files_held/pec-0.journal", b"abc")
        && takes_its_turn(rt, folder)
        && is_removed(rt, folder)
}

/// Whether another depot gets no disk that this one has out or at home, and one that this one hasn't.
fn is_held_out_and_at_home(rt: &HostRuntime, folder: &str) -> bool {
    match depot_over(rt, folder) {
        Ok(mut owned) => {
            is_held_out(rt, folder, &mut owned.depot)
                && is_not_had(rt, folder, 0)
                && is_had(rt, folder, 1)
        }
        Err(_) => false,
    }
}

fn is_held_out(rt: &HostRuntime, folder: &str, depot: &mut FileDepot<&HostRuntime>) -> bool {
    match disk_of(depot, 0) {
        Some(mut disk) => {
            let is_held = is_not_had(rt, folder, 0) && disk.write_at(0, b"abc").is_ok();
            keep(depot, 0, disk);
            is_held
        }
        None => false,
    }
}

/// Whether another depot gets it once the first one is gone.
fn takes_its_turn(rt: &HostRuntime, folder: &str) -> bool {
    is_had(rt, folder, 0) && is_had(rt, folder, 0)
}

fn is_had(rt: &HostRuntime, folder: &str, provider: u32) -> bool
    requires { provider < 16 }
{
    match depot_over(rt, folder) {
        Ok(mut owned) => gives_one(&mut owned.depot, provider),
        Err(_) => false,
    }
}

fn is_not_had(rt: &HostRuntime, folder: &str, provider: u32) -> bool
    requires { provider < 16 }
{
    match depot_over(rt, folder) {
        Ok(mut owned) => gives_none(&mut owned.depot, provider, 1),
        Err(_) => false,
    }
}

fn gives_one(depot: &mut FileDepot<&HostRuntime>, provider: u32) -> bool
    requires { provider < 16 }
{
    disk_of(depot, provider).is_some() && depot.faults() == 0
}

/// Whether the depot doesn't give a disk, and so many of its calls failed by then.
fn gives_none(depot: &mut FileDepot<&HostRuntime>, provider: u32, faults: u64) -> bool
    requires { provider < 16 }
{
    disk_of(depot, provider).is_none() && depot.faults() == faults
}

fn disk_of(depot: &mut FileDepot<&HostRuntime>, provider: u32) -> Option<FileDisk>
    requires { provider < 16 }
{
    depot.disk(provider).ok()
}

fn keep(depot: &mut FileDepot<&HostRuntime>, provider: u32, disk: FileDisk)
    requires { provider < 16 }
{
    depot.keep(provider, disk)
}

#[test]
fn no_link_is_a_journal(rt: HostRuntime) {
    assert!(rt; is_no_link(&rt, "pec_files_linked"));
}

fn is_no_link(rt: &HostRuntime, folder: &str) -> bool {
    is_made_empty(rt, folder)
        && makes_links(rt).is_ok()
        && is_not_had(rt, folder, 0)
        && is_not_had(rt, folder, 1)
        && has_bytes(rt, "pec_files_linked/elsewhere", b"abc")
        && is_not_there(rt, "pec_files_linked/nowhere")
        && is_removed(rt, folder)
}

fn is_not_there(rt: &HostRuntime, path: &str) -> bool {
    match fs::exists(rt, path) {
        Ok(is_there) => !is_there,
        Err(_) => false,
    }
}

/// A link to a file, and one that leads nowhere.
fn makes_links(rt: &HostRuntime) -> io::Result<()> {
    fs::write(rt, "pec_files_linked/elsewhere", b"abc")?;
    symlink(rt, "elsewhere", "pec_files_linked/pec-0.journal")?;
    symlink(rt, "nowhere", "pec_files_linked/pec-1.journal")
}

fn is_made_empty(rt: &HostRuntime, folder: &str) -> bool {
    let _ = is_removed(rt, folder);
    is_made(rt, folder)
}

fn is_removed(rt: &HostRuntime, folder: &str) -> bool {
    fs::remove_dir_all(rt, folder).is_ok()
}

fn is_made(rt: &HostRuntime, folder: &str) -> bool {
    fs::create_dir(rt, folder).is_ok()
}

/// A depot that a test owns.
struct Owned<'a> {
    depot: FileDepot<&'a HostRuntime>,
}

impl Drop for Owned<'_> {
    fn drop(self) {
        let Owned { depot: _ } = self;
    }
}

fn depot_over<'a>(rt: &'a HostRuntime, folder: &str) -> Result<Owned<'a>, AllocError> {
    let folder = String::from_str(rt.alloc(), folder)?;
    Ok(Owned {
        depot: FileDepot::new(rt, folder),
    })
}
