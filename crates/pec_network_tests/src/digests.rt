//! What journals know of the directory that they were made with.

use pec_directory::Directory;
use std::alloc::Global;

/// The digest of a directory that is given as text; none where memory is wanting.
pub(crate) fn digest_of(alloc: Global, directory: &str) -> Option<[u8; 32]> {
    match Directory::read(alloc, directory) {
        Ok(directory) => directory.digest(alloc).ok(),
        Err(_) => None,
    }
}
