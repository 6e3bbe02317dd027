//! Frames as they were put, and as a forger changes them.

use pec_seal::{HmacSealer, Sealer, seal};
use std::alloc::Global;

/// A frame: for whom it is, and the sealed letter.
struct Mail {
    path: String,
    letter: String,
}

impl Drop for Mail {
    fn drop(self) {
        let Mail { path: _, letter: _ } = self;
    }
}

/// A frame with these changes, one behind another with a space between two: `path=LIST` has another path, `OLD>NEW`
/// other words under the same seal, and `by=N` is sealed anew by provider N. None where the frame has no path and no
/// seal.
pub(crate) fn changed(
    alloc: Global,
    sealer: &HmacSealer,
    frame: &[u8],
    changes: &str,
) -> Option<Vec<u8>> {
    let mut mail = parted(alloc, frame)?;
    for change in changes.split(' ') {
        mail.change(alloc, sealer, change);
    }
    Some(mail.joined(alloc))
}

/// The parts of a frame whose letter has a line of its seal.
fn parted(alloc: Global, frame: &[u8]) -> Option<Mail> {
    let text = std::str::from_utf8(frame).unwrap_or("");
    let (first, letter) = text.split_once("\r\n")?;
    let path = first.strip_prefix("Per: ")?;
    if !letter.contains("\r\n") {
        return None;
    }
    Some(Mail {
        path: string(alloc, path),
        letter: string(alloc, letter),
    })
}

fn string(alloc: Global, text: &str) -> String {
    String::from_str(alloc, text).unwrap_or(String::new(alloc))
}

impl Mail {
    fn change(&mut self, alloc: Global, sealer: &HmacSealer, change: &str) {
        if let Some(path) = change.strip_prefix("path=") {
            self.path = string(alloc, path);
        } else if let Some(by) = change.strip_prefix("by=") {
            self.letter = resealed(alloc, sealer, self.letter.as_str(), by);
        } else if let Some((old, new)) = change.split_once('>') {
            self.letter = self
                .letter
                .replace(alloc, old, new)
                .unwrap_or(String::new(alloc));
        }
    }

    fn joined(&self, alloc: Global) -> Vec<u8> {
        let mut frame = Vec::new(alloc);
        put(&mut frame, "Per: ");
        put(&mut frame, self.path.as_str());
        put(&mut frame, "\r\n");
        put(&mut frame, self.letter.as_str());
        frame
    }
}

fn put(bytes: &mut Vec<u8>, text: &str) {
    let _ = bytes.extend_from_slice(text.as_bytes());
}

/// A letter under the seal of a provider in place of its own.
fn resealed(alloc: Global, sealer: &HmacSealer, letter: &str, by: &str) -> String {
    let under = match letter.split_once("\r\n") {
        Some((_, under)) => under,
        None => "",
    };
    let provider = if by == "0" { 0 } else { 1 };
    if sealer.name(provider).is_none() {
        return String::new(alloc);
    }
    let sealed = seal(alloc, sealer, provider, under.as_bytes()).unwrap_or(Vec::new(alloc));
    string(alloc, std::str::from_utf8(&sealed).unwrap_or(""))
}
