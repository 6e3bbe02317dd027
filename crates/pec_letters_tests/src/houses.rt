//! Houses: a directory of three providers and who seals for them.
ghost use Rattle.pec_directory.specs.Directory.{providers_of};
ghost use Rattle.pec_letters.specs.Fitting.{Fits};

use crate::texts::{joined, replaced, written};
use pec_directory::Directory;
use pec_seal::{HmacSealer, Sealer, seal};
use pec_trade::sealer_of;
use pec_trial::two;
use std::alloc::Global;

/// A directory, and the sealer of its providers.
pub(crate) struct House {
    pub(crate) directory: Directory,
    pub(crate) sealer: HmacSealer,
    ghost fits: { Fits (⟦<HmacSealer as Sealer>⟧.seals sealer) (providers_of directory) },
}

impl Drop for House {
    fn drop(self) {
        let House {
            directory: _,
            sealer: _,
        } = self;
    }
}

/// The third provider.
const GAMMA: &str = r#"[[provider]]
name = "gamma"
mailReceipt = "r@GAMMA"
managedDomains = ["GAMMA"]
key = "202122232425262728292a2b2c2d2e2f"
zone = "CET-1CEST,M3.5.0,M10.5.0/3"
"#;

impl House {
    /// The house of `alfa`, `beta` and `gamma`, the third with the domain that is given and no accounts.
    pub(crate) fn of(alloc: Global, gamma: &str) -> Option<House> {
        let text = text_of_three(alloc, gamma);
        match Directory::read(alloc, text.as_str()) {
            Ok(directory) => House::sealing(alloc, directory),
            Err(_) => None,
        }
    }

    fn sealing(alloc: Global, directory: Directory) -> Option<House> {
        match sealer_of(alloc, &directory) {
            Ok(sealer) => Some(House { directory, sealer }),
            Err(_) => None,
        }
    }
}

fn text_of_three(alloc: Global, gamma: &str) -> String {
    let third = replaced(alloc, GAMMA, "GAMMA", gamma);
    joined(alloc, &[two(), third.as_str()])
}

/// The letter that a provider sealed; no byte where there is no such provider.
pub(crate) fn sealed(alloc: Global, house: &House, by: u32, letter: &str) -> Vec<u8> {
    if house.sealer.name(by).is_none() {
        return Vec::new(alloc);
    }
    let letter = written(alloc, letter);
    match seal(alloc, &house.sealer, by, letter.as_bytes()) {
        Ok(text) => text,
        Err(_) => Vec::new(alloc),
    }
}
