//! The first record of a log extract and its last one.

use pec_extract::{ExtractFault, Totals, write_header, write_totals};
use pec_outside::{Counted, MemSink};
use std::alloc::Global;

/// The header, and the totals of four different numbers.
const WRITTEN: &[u8] =
    b"provider,entry,moment,event,id,sender,recipients,subject,detail\ntotals,60,30,20,10,,,,\n";

const TOTALS: Totals = Totals {
    accepted: 60,
    delivered: 30,
    refused: 20,
    pending: 10,
};

#[test]
fn header_and_totals_are_a_record_each(rt: HostRuntime) {
    assert!(rt; writes_both(rt.alloc()));
}

#[test]
fn a_sink_that_fails_is_told(rt: HostRuntime) {
    assert!(rt; tells_the_fault(rt.alloc()));
}

fn writes_both(alloc: Global) -> bool {
    let mut out = MemSink::new(alloc, Vec::new(alloc));
    are_written(alloc, &mut out) && out.bytes() == WRITTEN
}

fn are_written(alloc: Global, out: &mut MemSink) -> bool {
    write_header(alloc, out).is_ok() && write_totals(alloc, &TOTALS, out).is_ok()
}

fn tells_the_fault(alloc: Global) -> bool {
    match vec![in alloc; 0] {
        Ok(failing) => fails_once(alloc, &mut MemSink::new(alloc, failing)),
        Err(_) => false,
    }
}

/// Whether the failing first write is told, with nothing written, and the next one isn't.
fn fails_once(alloc: Global, out: &mut MemSink) -> bool {
    write_totals(alloc, &TOTALS, out) == Err(ExtractFault::WriteFault)
        && out.bytes().is_empty()
        && write_header(alloc, out).is_ok()
}
