//! Items that the last line of a run shows.

use crate::running::lines_of;
use base64::engine::general_purpose::STANDARD;
use std::alloc::Global;

/// The bytes of the item in the last line; empty where it shows none.
pub(crate) fn last_item(alloc: Global, written: &[u8]) -> Vec<u8> {
    STANDARD
        .decode(alloc, last_line(written).as_bytes())
        .unwrap_or(Vec::new(alloc))
}

/// The last of several lines.
fn last_line(written: &[u8]) -> &str {
    let text = std::str::from_utf8(written).unwrap_or("");
    let lines = text.strip_suffix('\n').unwrap_or("");
    match lines.rsplit_once('\n') {
        Some((_, last)) => last,
        None => "",
    }
}

/// Whether an item is a text, and a piece stands in it or doesn't, as told. Lines of the piece end at `|`.
pub(crate) fn holds(alloc: Global, item: &[u8], piece: &str, is_there: bool) -> bool {
    let piece = lines_of(alloc, piece);
    match std::str::from_utf8(item) {
        Ok(text) => !text.is_empty() && text.contains(piece.as_str()) == is_there,
        Err(_) => false,
    }
}
