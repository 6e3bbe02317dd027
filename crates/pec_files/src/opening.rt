use crate::names::journal_path;
use std::fs::{File, OpenOptions};
use std::io::ErrorKind;
use std::os::fd::AsRawFd;
use std::os::unix::fs::MetadataExt;
use std::rt::Files;
use std::{fs, io};

// Standard input, output and error have the descriptors below this one.
const BEHIND_THE_STREAMS: i32 = 3;

/// Opens a provider's journal for reading and writing, and makes it where nothing stands at its place. It fails where
/// another program or another depot holds that file, and where it doesn't stand there itself, but by a link. It is held
/// until it is closed.
///
/// The folder is synced, so that a new file outlives a crash, also one that an earlier run made and didn't come to
/// sync.
pub(crate) fn open_journal<R: Files<File = File> + AllocGlobal>(
    system: &R,
    folder: &str,
    provider: u32,
) -> io::Result<File> {
    let path = journal_path(system.alloc(), folder, provider)?;
    let file = open_or_make(system, path.as_str())?;
    let file = apart_from_the_streams(file)?;
    file.try_lock()?;
    check_place(system, path.as_str(), &file)?;
    fs::open(system, folder)?.sync_all()?;
    Ok(file)
}

// Nothing is made through a link that leads nowhere: what is new stands at the path itself.
fn open_or_make<R: Files<File = File>>(system: &R, path: &str) -> io::Result<File> {
    let mut how = OpenOptions::new();
    how.read(true).write(true);
    match how.open(system, path) {
        Err(error) if error.kind() == ErrorKind::NotFound => {
            how.create_new(true).open(system, path)
        }
        answer => answer,
    }
}

// Whether the file is what stands at the path, and no link to it.
fn check_place<R: Files>(system: &R, path: &str, file: &File) -> io::Result<()> {
    let there = fs::symlink_metadata(system, path)?;
    let opened = file.metadata()?;
    if (there.dev(), there.ino()) == (opened.dev(), opened.ino()) {
        Ok(())
    } else {
        Err(io::Error::from(ErrorKind::InvalidInput))
    }
}

// Where a standard stream was closed as the run began, a file gets its descriptor, and what is meant for the stream
// would be written into the file.
fn apart_from_the_streams(file: File) -> io::Result<File> {
    if file.as_raw_fd() >= BEHIND_THE_STREAMS {
        return Ok(file);
    }
    file.try_clone()
}
