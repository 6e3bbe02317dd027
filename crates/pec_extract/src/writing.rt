ghost use Rattle.std.specs.Prelude.{◌≡◌, ◌≤◌, map, IfErr, OnOk, OnErr, IsErrOf};
ghost use Rattle.pec_outside.specs.Flow.{HasRisen, WrotePart, followed_by};
ghost use Rattle.pec_extract.specs.Reading.{IsOfSink};
ghost use Rattle.pec_extract.specs.Records.{header, record_text, totals_record};

use crate::faults::ExtractFault;
use crate::records::record_text;
use itoa::Buffer;
use pec_outside::{Sink, write_all};
use std::alloc::Global;

/// What became of the pairs of messages and certified recipients that were accepted in a range of moments: how many
/// there are, and how many of them are known as delivered, as refused, and as neither.
#[derive(Clone, Copy, Debug, PartialEq, Eq)]
pub struct Totals {
    pub accepted: u64,
    pub delivered: u64,
    pub refused: u64,
    pub pending: u64,
}

/// Writes the header of an extract, its first record. The fault is `WriteFault` where the sink failed: then a front of
/// the header was written.
pub fn write_header<W: Sink>(alloc: Global, out: &mut W) -> Result<(), ExtractFault>
    ensures ok { OnOk result (W.held out.new ≡ followed_by (W.held out.old) (record_text header)) }
    ensures err { OnErr result (WrotePart (W.held out.old) (W.held out.new) (record_text header)) }
    ensures kept { W.left out.new ≡ W.left out.old }
    ensures later { W.faults out.old ≤ W.faults out.new }
    ensures sink { IfErr result IsOfSink }
    ensures cause { IsErrOf result ExtractFault.WriteFault → HasRisen (W.faults out.old) (W.faults out.new) }
{
    let fields: [&[u8]; 9] = [
        b"provider",
        b"entry",
        b"moment",
        b"event",
        b"id",
        b"sender",
        b"recipients",
        b"subject",
        b"detail",
    ];
    write_record(alloc, &fields, out)
}

/// Writes the totals of an extract, its last record. The fault is `WriteFault` where the sink failed: then a front of
/// the record was written.
pub fn write_totals<W: Sink>(
    alloc: Global,
    totals: &Totals,
    out: &mut W,
) -> Result<(), ExtractFault>
    ensures ok { OnOk result (W.held out.new ≡ followed_by (W.held out.old) (record_text (totals_record totals.now))) }
    ensures err { OnErr result (WrotePart (W.held out.old) (W.held out.new) (record_text (totals_record totals.now))) }
    ensures kept { W.left out.new ≡ W.left out.old }
    ensures later { W.faults out.old ≤ W.faults out.new }
    ensures sink { IfErr result IsOfSink }
    ensures cause { IsErrOf result ExtractFault.WriteFault → HasRisen (W.faults out.old) (W.faults out.new) }
{
    let mut accepted = Buffer::new();
    let mut delivered = Buffer::new();
    let mut refused = Buffer::new();
    let mut pending = Buffer::new();
    let fields: [&[u8]; 9] = [
        b"totals",
        accepted.format(totals.accepted).as_bytes(),
        delivered.format(totals.delivered).as_bytes(),
        refused.format(totals.refused).as_bytes(),
        pending.format(totals.pending).as_bytes(),
        b"",
        b"",
        b"",
        b"",
    ];
    write_record(alloc, &fields, out)
}

/// Writes the record with these fields.
pub(crate) fn write_record<W: Sink>(
    alloc: Global,
    fields: &[&[u8]],
    out: &mut W,
) -> Result<(), ExtractFault>
    ensures ok { OnOk result
        (W.held out.new ≡ followed_by (W.held out.old) (record_text (map (λ field. field.now) fields.now))) }
    ensures err { OnErr result
        (WrotePart (W.held out.old) (W.held out.new) (record_text (map (λ field. field.now) fields.now))) }
    ensures kept { W.left out.new ≡ W.left out.old }
    ensures later { W.faults out.old ≤ W.faults out.new }
    ensures sink { IfErr result IsOfSink }
    ensures cause { IsErrOf result ExtractFault.WriteFault → HasRisen (W.faults out.old) (W.faults out.new) }
{
    let text = record_text(alloc, fields)?;
    write_all(out, text.as_slice())?;
    Ok(())
}
