//! An item is read from the disk whenever it is shown. The reads for letters are rows of tests/runs/reads.rows.

use crate::faults::calls::{AGAIN, DELIVERED, FIRST, calls_behind};
use crate::items::{holds, last_item};
use crate::running::{System, copied, depot_failing, joined, played, played_afresh, put};
use pec_top::Status;
use pec_trial::alfa;

/// The envelope in anna's mailbox.
const LOOK: &str = "show anna@alfa.example 0\n";

/// Behind a look that fails.
const BEHIND: &str = "book alice@alfa.example\nrestart alfa\n";

/// What is written of a look that fails, and of these. Alfa's journal has seven entries then.
const FAILED: &[u8] = b"fault disk\ndown\nrestarted 7\n";

#[test]
fn an_item_is_read_when_it_is_shown(rt: HostRuntime) {
    assert_eq!(rt; is_read_again(&rt), Some(true));
}

/// Whether a look whose read fails is told so, alfa is down behind it, and the same look gives the envelope once alfa
/// started again. Which call of the disk the read is, is counted where none fails.
fn is_read_again(rt: &impl System) -> Option<bool> {
    let alloc = rt.alloc();
    let mut depot = depot_failing(alloc, &[]);
    let read = calls_behind(rt, &mut depot, "run", FIRST)?;
    let first = played_afresh(rt, alfa(), FIRST);
    let looked = played_afresh(rt, alfa(), joined(alloc, &[FIRST, LOOK]).as_str());
    let shown = looked.text.strip_prefix(first.text.as_slice())?;
    let mut wanted = copied(alloc, &first.text);
    put(&mut wanted, FAILED);
    put(&mut wanted, shown);
    let mut depot = depot_failing(alloc, &[(0, read)]);
    let lines = joined(alloc, &[FIRST, LOOK, BEHIND, LOOK]);
    let ran = played(rt, &mut depot, alfa(), "run", lines.as_str());
    let item = last_item(alloc, &ran.text);
    Some(
        ran.is(&wanted, Status::Done)
            && holds(alloc, &item, "X-Trasporto: posta-certificata|", true),
    )
}
