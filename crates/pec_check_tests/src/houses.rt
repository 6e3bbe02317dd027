//! A directory of two providers, and who seals for them.

use crate::letters::{Saved, letter_of, replaced};
use pec_check::{CheckFault, Report, check};
use pec_directory::Directory;
use pec_dossier::{Last, Stop, check_lines};
use pec_input::Buffer;
use pec_outside::{MemSink, MemSource};
use pec_seal::{HmacSealer, Sealer, seal};
use pec_trade::sealer_of;
use pec_trial::two;
use std::alloc::Global;

/// A directory, and the sealer of its providers.
pub(crate) struct House {
    directory: Directory,
    sealer: HmacSealer,
}

impl Drop for House {
    fn drop(self) {
        let House {
            directory: _,
            sealer: _,
        } = self;
    }
}

impl House {
    /// The house of `alfa` and `beta`; none where memory is wanting.
    pub(crate) fn new(alloc: Global) -> Option<House> {
        match Directory::read(alloc, two()) {
            Ok(directory) => House::sealing(alloc, directory),
            Err(_) => None,
        }
    }

    fn sealing(alloc: Global, directory: Directory) -> Option<House> {
        match sealer_of(alloc, &directory) {
            Ok(sealer) => Some(House { directory, sealer }),
            Err(_) => None,
        }
    }

    /// The text that a provider sealed; no byte where there is no such provider.
    pub(crate) fn sealed(&self, alloc: Global, by: u32, text: &str) -> Vec<u8> {
        if self.sealer.name(by).is_none() {
            return Vec::new(alloc);
        }
        match seal(alloc, &self.sealer, by, text.as_bytes()) {
            Ok(text) => text,
            Err(_) => Vec::new(alloc),
        }
    }

    /// What a saved text is judged as.
    pub(crate) fn check(&self, alloc: Global, text: &[u8]) -> Result<Report, CheckFault> {
        check(alloc, &self.sealer, &self.directory, text)
    }

    /// What a text that a provider seals is judged as.
    pub(crate) fn check_sealed(
        &self,
        alloc: Global,
        by: u32,
        text: &str,
    ) -> Result<Report, CheckFault> {
        let sealed = self.sealed(alloc, by, text);
        self.check(alloc, &sealed)
    }

    /// What a letter by its name is judged as.
    pub(crate) fn check_letter(&self, alloc: Global, saved: &Saved) -> Result<Report, CheckFault> {
        let letter = letter_of(alloc, saved);
        self.check_sealed(alloc, saved.1, letter.as_str())
    }

    /// A letter by its name, sealed, with other words for some; without words as it is.
    pub(crate) fn sealed_letter(
        &self,
        alloc: Global,
        saved: &Saved,
        words: &str,
        instead: &str,
    ) -> Vec<u8> {
        let letter = letter_of(alloc, saved);
        if words.is_empty() {
            return self.sealed(alloc, saved.1, letter.as_str());
        }
        let letter = replaced(alloc, letter.as_str(), words, instead);
        self.sealed(alloc, saved.1, letter.as_str())
    }

    /// How the lines of a dossier end, and what is written of them, where these reads and writes fail.
    pub(crate) fn check_lines(
        &self,
        alloc: Global,
        lines: Vec<u8>,
        reads: &[u64],
        writes: &[u64],
    ) -> (Result<Last, Stop>, Vec<u8>) {
        let mut source = MemSource::new(alloc, lines, 1000, numbers(alloc, reads));
        let mut sink = MemSink::new(alloc, numbers(alloc, writes));
        let mut buffer = Buffer::new(alloc);
        let end = check_lines(alloc, &self.directory, &mut source, &mut buffer, &mut sink);
        let mut text = Vec::new(alloc);
        let _ = text.extend_from_slice(sink.bytes());
        (end, text)
    }
}

fn numbers(alloc: Global, given: &[u64]) -> Vec<u64> {
    let mut numbers = Vec::new(alloc);
    let _ = numbers.extend_from_slice(given);
    numbers
}
