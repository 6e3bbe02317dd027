//! Where the providers of the tests are at home.

ghost use Rattle.std.specs.Prelude.{◌≤◌, length};
ghost use Rattle.pec_directory.specs.Directory.{providers_of};
ghost use Rattle.pec_letters.specs.Fitting.{Fits};

use pec_directory::Directory;
use pec_seal::{HmacSealer, Sealer};
use pec_trade::sealer_of;
use std::alloc::Global;

/// Where the providers of a directory are at home, at least two.
pub(crate) struct Home {
    pub(crate) directory: Directory,
    pub(crate) sealer: HmacSealer,
    ghost fits: { Fits (⟦<HmacSealer as Sealer>⟧.seals sealer) (providers_of directory) },
    ghost two: { 2 ≤ length directory },
}

impl Drop for Home {
    fn drop(self) {
        let Home {
            directory: _,
            sealer: _,
        } = self;
    }
}

impl Home {
    /// The home of a directory that is given as text, where it has at least two providers.
    pub(crate) fn of(alloc: Global, text: &str) -> Option<Home> {
        match Directory::read(alloc, text) {
            Ok(directory) => Home::within(alloc, directory),
            Err(_) => None,
        }
    }

    fn within(alloc: Global, directory: Directory) -> Option<Home> {
        if directory.count() < 2 {
            return None;
        }
        match sealer_of(alloc, &directory) {
            Ok(sealer) => Some(Home { directory, sealer }),
            Err(_) => None,
        }
    }
}
