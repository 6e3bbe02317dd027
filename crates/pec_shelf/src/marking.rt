ghost use Rattle.std.specs.Prelude.{◌≡◌, ◌≤◌, ◌∷◌, [], length, is_some, option_map, slice_get, slice_range, Some, IfOk, OnOk};
ghost use Rattle.std.specs.List.{filter_map};
ghost use Rattle.pec_types.specs.LimitsReading.{due_of};
ghost use Rattle.pec_types.specs.Passed.{passed};
ghost use Rattle.pec_types.specs.declared.limits.TheConstants.{WARNING_AFTER, NOTICE_AFTER};
ghost use Rattle.pec_types.specs.declared.messages.TheConstants.{MESSAGES};
ghost use Rattle.pec_ledger.specs.Lookups.{charged_of, known_of, notice_of, submitter, warning_of};
ghost use Rattle.pec_ledger.specs.Pairs.{pair_of};
ghost use Rattle.pec_ledger.specs.Steps.{kind_of_due};
ghost use Rattle.pec_shelf.specs.Deadlines.{IsSideOf, IsWatched, clock_at, mark_on, mark_there, pairs_in, spots_of};
ghost use Rattle.pec_shelf.specs.Lines.{mark_at, marks_rows};
ghost use Rattle.pec_shelf.specs.Looked.{acceptances_seen};
ghost use Rattle.pec_records.specs.declared.entries.Entry.TheVariants as entries;
ghost use Rattle.pec_ledger.specs.Trade.{Trade};
ghost use Rattle.pec_shelf.specs.Prepared.{AreRows, nothing, with_marks};
ghost use Rattle.pec_shelf.specs.Seen.{IsFor};
ghost use Rattle.pec_shelf.specs.Sides.{messages_of};

use crate::certified::Certified;
use crate::deadlines::{Clock, Deadlines};
use crate::outbox::Outbox;
use crate::ready::Ready;
use crate::receipts::receipt;
use crate::rows::MarkRow;
use crate::shelf::Shelf;
use pec_types::{Address, Due, Kind, Mark, Moment, MsgId, NoMemory, timed};
use std::alloc::Global;

/// Ticked: the marks that the time table has, each with its notice. It is told where the cursors
/// stand behind it.
pub(crate) fn ticked(shelf: &Shelf, now: Moment, clock: Option<Clock>) -> Result<Ready, NoMemory>
    requires in_time { shelf.now.half.last ≤ now }
    requires clock { clock ≡ Some (clock_at now (acceptances_seen shelf.now)) }
    ensures { (trade : Trade) → IsFor trade shelf.now
        → IfOk result (AreRows trade shelf.now.me shelf.now.half (entries.Ticked now)) }
{
    let Some(clock) = clock else { unreachable!() };
    let (outbox, deadlines) = shelf.watched();
    let ready = marks(shelf, outbox, deadlines, now, clock.warned, clock.noticed)?;
    Ok(ready.with_clock(clock))
}

/// The marks of a clock call, each with its notice, of the sender's side of this shelf: on the pairs whose second limit
/// the cursors pass, and then on those whose first limit they pass and whose second they don't. On every other pair
/// nothing is owed.
fn marks(
    shelf: &Shelf,
    outbox: &Outbox,
    deadlines: &Deadlines,
    now: Moment,
    warned: usize,
    noticed: usize,
) -> Result<Ready, NoMemory>
    requires few { length outbox.now.messages ≤ MESSAGES }
    requires side { IsSideOf shelf.now.me shelf.now.half outbox.now }
    requires watched { IsWatched deadlines.now shelf.now.half.last outbox.now }
    requires in_time { shelf.now.half.last ≤ now }
    requires warned { warned ≡ passed WARNING_AFTER now deadlines.now.moments }
    requires noticed { noticed ≡ passed NOTICE_AFTER now deadlines.now.moments }
    ensures { IfOk result (λ ready. ready ≡ with_marks shelf.now.half nothing
        (marks_rows shelf.now.me shelf.now.half now 0 outbox.now.messages)) }
{
    let ready = Ready::nothing(shelf.alloc);
    let from = deadlines.noticed();
    let ready = with_marks_between(shelf, ready, outbox, deadlines, now, from, noticed)?;
    let from = deadlines.warned().max(noticed);
    let ready = with_marks_between(shelf, ready, outbox, deadlines, now, from, warned)?;
    Ok(ready)
}

/// With the marks of the pairs from a place on, up to another one.
fn with_marks_between(
    shelf: &Shelf,
    mut ready: Ready,
    outbox: &Outbox,
    deadlines: &Deadlines,
    now: Moment,
    from: usize,
    to: usize,
) -> Result<Ready, NoMemory>
    requires few { length outbox.now.messages ≤ MESSAGES }
    requires all { messages_of outbox.now.messages ≡ shelf.now.half.messages }
    requires spots { deadlines.now.spots ≡ spots_of (pairs_in 0 outbox.now.messages) }
    requires order { from ≤ to }
    requires within { to ≤ length (pairs_in 0 outbox.now.messages) }
    ensures { IfOk result (λ with. with ≡ with_marks shelf.now.half ready (filter_map
        (mark_on shelf.now.me shelf.now.half now) (slice_range (pairs_in 0 outbox.now.messages) from to))) }
{
    for place in from..to {
        ready = with_mark_at(shelf, ready, outbox, deadlines, now, place)?;
    }
    Ok(ready)
}

/// With the mark of the pair at a place, if one is due.
fn with_mark_at(
    shelf: &Shelf,
    mut ready: Ready,
    outbox: &Outbox,
    deadlines: &Deadlines,
    now: Moment,
    place: usize,
) -> Result<Ready, NoMemory>
    requires few { length outbox.now.messages ≤ MESSAGES }
    requires all { messages_of outbox.now.messages ≡ shelf.now.half.messages }
    ensures { IfOk result (λ with. with ≡ with_marks shelf.now.half ready (mark_there shelf.now.me shelf.now.half now
        outbox.now.messages (slice_get deadlines.now.spots place))) }
{
    let Some(spot) = deadlines.spot(place) else {
        return Ok(ready);
    };
    let Some(row) = outbox.message(spot.number) else {
        return Ok(ready);
    };
    let Some(recipient) = recipient_at(row.certified(), spot.index) else {
        return Ok(ready);
    };
    let id = MsgId {
        provider: shelf.me,
        number: spot.number,
    };
    push_mark(
        shelf,
        &mut ready,
        now,
        id,
        row.moment(),
        row.sender(),
        recipient,
    )?;
    Ok(ready)
}

/// The certified recipient at a place.
fn recipient_at(recipients: &[Certified], place: usize) -> Option<&Certified>
    ensures { option_map (λ recipient. recipient.now) result ≡ slice_get recipients.now place }
{
    recipients.get(place)
}

/// Adds the mark of a certified recipient, if one is due.
fn push_mark(
    shelf: &Shelf,
    ready: &mut Ready,
    now: Moment,
    id: MsgId,
    accepted: Moment,
    sender: &Address,
    recipient: &Certified,
) -> Result<(), NoMemory>
    requires { submitter shelf.now.half id.number ≡ sender.now }
    ensures { OnOk result (ready.new ≡ with_marks shelf.now.half ready.old
        (filter_map (mark_at shelf.now.half now id accepted) (recipient.now ∷ []))) }
{
    let due = due(shelf, now, id, accepted, recipient);
    if due == Due::Nothing {
        return Ok(());
    }
    push_due(shelf, ready, now, id, sender, &recipient.address, due)
}

/// Adds what is due, with its notice.
fn push_due(
    shelf: &Shelf,
    ready: &mut Ready,
    now: Moment,
    id: MsgId,
    sender: &Address,
    recipient: &Address,
    due: Due,
) -> Result<(), NoMemory>
    requires { submitter shelf.now.half id.number ≡ sender.now }
    ensures { OnOk result (ready.new ≡ with_marks shelf.now.half ready.old
        (record { pair = pair_of id recipient.now; due = due; moment = now } ∷ [])) }
{
    let told = told_of(shelf.alloc, id, recipient, due)?;
    let mark = mark_of(shelf.alloc, id, recipient, due, now)?;
    ready.push_mark(mark, told)?;
    let named = recipient.copy(shelf.alloc)?;
    let item = receipt(shelf, sender, kind_of_due(due), id, Some(named), now)?;
    ready.push_item(item)?;
    Ok(())
}

fn mark_of(
    alloc: Global,
    id: MsgId,
    recipient: &Address,
    due: Due,
    moment: Moment,
) -> Result<MarkRow, NoMemory>
    ensures { IfOk result (λ mark. mark ≡ record { pair = pair_of id recipient.now; due = due; moment = moment }) }
{
    let recipient = recipient.copy(alloc)?;
    Ok(MarkRow {
        id,
        recipient,
        due,
        moment,
    })
}

/// What a clock call tells of a mark.
fn told_of(alloc: Global, id: MsgId, recipient: &Address, due: Due) -> Result<Mark, NoMemory>
    ensures { IfOk result (λ told. told ≡ record { id = id; recipient = recipient.now; due = due }) }
{
    let recipient = recipient.copy(alloc)?;
    Ok(Mark { id, recipient, due })
}

/// The notice that a mark stands for; no mark stands for nothing due.
fn kind_of_due(due: Due) -> Kind
    ensures { result ≡ kind_of_due due }
{
    match due {
        Due::Nothing => Kind::Charge,
        Due::Warning => Kind::Warning,
        Due::Notice => Kind::Notice,
        Due::LateNotice => Kind::LateNotice,
    }
}

fn due(shelf: &Shelf, now: Moment, id: MsgId, accepted: Moment, recipient: &Certified) -> Due
    ensures { result ≡ due_of (record {
      at = now;
      accepted = accepted;
      charged = is_some (charged_of shelf.now.half id recipient.now.home);
      warned = is_some (warning_of shelf.now.half (pair_of id recipient.now.address));
      noticed = is_some (notice_of shelf.now.half (pair_of id recipient.now.address));
      known = is_some (known_of shelf.now.half (pair_of id recipient.now.address));
    }) }
{
    let address = &recipient.address;
    let charged = shelf.charge(id, recipient.home).is_some();
    let warned = shelf.warning(id, address).is_some();
    let noticed = shelf.notice(id, address).is_some();
    let known = shelf.known(id, address).is_some();
    due_at(now, accepted, charged, warned, noticed, known)
}

/// What is due, also at a moment before the acceptance, when nothing is.
fn due_at(
    now: Moment,
    accepted: Moment,
    charged: bool,
    warned: bool,
    noticed: bool,
    known: bool,
) -> Due
    ensures { result ≡ due_of (record {
      at = now;
      accepted = accepted;
      charged = charged;
      warned = warned;
      noticed = noticed;
      known = known;
    }) }
{
    if now.seconds() < accepted.seconds() {
        return Due::Nothing;
    }
    timed(now, accepted, charged, warned, noticed, known)
}
