//! Loads: what the form `load N` writes, and what keeps it from that. The numbers were counted by hand. Of each ten
//! messages one is for nobody. At alfa a message is an entry when it is accepted, one when beta takes charge, and one
//! when its outcome is known, and each batch adds a clock call; at beta it is taken, decided and acknowledged; each
//! journal has its start beside. The messages of the last batch have a notice each, for nothing is known of them when
//! the limit passes.

use crate::running::{Given, System, depot_failing, ran_afresh, ran_over};
use pec_top::Status;

const TWENTY: &str = "load 20
accepted 20
delivered 18
refused 2
open 0
noticed 4
entries alfa 63
entries beta 61
";

const ALL: &str = "load 20000
accepted 20000
delivered 18000
refused 2000
open 0
noticed 16
entries alfa 61251
entries beta 60001
";

/// Words, and what they come to over empty disks, whatever the input is.
type Row = (&'static [&'static str], &'static str, Status);

static ROWS: [Row; 3] = [
    (&["load", "0"], "usage\n", Status::Usage),
    (&["load", "20001"], "usage\n", Status::Usage),
    (&["load", "020"], "usage\n", Status::Usage),
];

static MORE_ROWS: [Row; 2] = [
    (&["load"], "usage\n", Status::Usage),
    (&["load", "20"], TWENTY, Status::Done),
];

/// The tables and texts, by functions without a clause: the proofs of the tests are spared them.
fn rows() -> &'static [Row] {
    &ROWS
}

fn more_rows() -> &'static [Row] {
    &MORE_ROWS
}

fn twenty() -> &'static str {
    TWENTY
}

fn all() -> &'static str {
    ALL
}

/// The place of the first row that doesn't come as it says.
fn first_other(rt: &impl System, rows: &[Row]) -> Option<usize> {
    for (place, row) in rows.iter().enumerate() {
        let given = Given::of(row.0, b"not read");
        if !ran_afresh(rt, &given).is(row.1.as_bytes(), row.2) {
            return Some(place);
        }
    }
    None
}

/// Whether all that a load may have is summed up.
fn all_is_summed_up(rt: &impl System) -> bool {
    let given = Given::of(&["load", "20000"], b"");
    ran_afresh(rt, &given).is(all().as_bytes(), Status::Done)
}

#[test]
fn a_load_is_of_one_to_twenty_thousand_messages(rt: HostRuntime) {
    assert_eq!(rt; first_other(&rt, rows()), None);
    assert_eq!(rt; first_other(&rt, more_rows()), None);
}

#[test]
fn a_load_of_twenty_thousand_messages_is_summed_up(rt: HostRuntime) {
    assert!(rt; all_is_summed_up(&rt));
}
