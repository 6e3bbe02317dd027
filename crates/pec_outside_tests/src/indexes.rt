//! Maps from texts to values.
use pec_index::Index;
use std::alloc::Global;

/// A key, its value, and whether the value is put there.
type Row = (&'static [u8], u32, bool);

// In the order in which they are put.
static ROWS: &[Row] = &[
    (b"alfa", 7, true),
    (b"", 8, true), // no byte is a key too
    (b"alfa", 9, false), // the first value stays
    (b"alfb", 10, true), // another last byte, another key
];

#[test]
fn the_first_value_at_a_key_stays(rt: HostRuntime) {
    assert!(rt; keeps_first_values(rt.alloc()));
}

fn keeps_first_values(alloc: Global) -> bool {
    let mut index = Index::new(alloc);
    is_empty(&index) && are_put(alloc, &mut index, ROWS) && has_first_values(&index)
}

fn is_empty(index: &Index<u32>) -> bool {
    index.get(b"alfa").is_none()
}

fn has_first_values(index: &Index<u32>) -> bool {
    value_at(index, b"alfa") == 7 && value_at(index, b"") == 8 && index.get(b"alf").is_none()
}

/// The value at a key; 0 where there is none.
fn value_at(index: &Index<u32>, key: &[u8]) -> u32 {
    match index.get(key) {
        Some(value) => *value,
        None => 0,
    }
}

fn are_put(alloc: Global, index: &mut Index<u32>, rows: &[Row]) -> bool {
    for row in rows {
        if index.add(alloc, row.0, row.1) != Ok(row.2) {
            return false;
        }
    }
    true
}
