ghost use Rattle.std.specs.Prelude.{◌≡◌, List, Option, None, Some, IfOk, option_map};
ghost use Rattle.pec_types.specs.declared.turns.Event.TheVariants as events;
ghost use Rattle.pec_types.specs.declared.letters.Letter.TheVariants as letters;
ghost use Rattle.pec_types.specs.declared.receipts.Kind.TheVariants as kinds;
ghost use Rattle.pec_records.specs.declared.entries.Entry.{Entry as SomeEntry};
ghost use Rattle.pec_records.specs.declared.entries.Entry.TheVariants as entries;
ghost use Rattle.pec_ledger.specs.Lookups.{charged_of, taken_of};
ghost use Rattle.pec_ledger.specs.OfDirectory.{IsOf, recipients_named};
ghost use Rattle.pec_ledger.specs.Steps.{half};
ghost use Rattle.pec_ledger.specs.Trade.{Seen, Trade};
ghost use Rattle.pec_plays.specs.Reception.{by_ack, by_outcome, by_receipt, by_seen, charge_fits, charge_rows};
ghost use Rattle.pec_plays.specs.Reception.{envelope_fits, envelope_rows};
ghost use Rattle.pec_seal.specs.Seals.{Seals};
ghost use Rattle.pec_shelf.specs.Seen.{IsFor};
ghost use Rattle.pec_trade.specs.TradeOf.{trade_of};
ghost use Rattle.pec_reception.specs.Shows.{AreLimited, Answers};
ghost use Rattle.pec_reception.specs.Views.{IsWithin, framed_shown, sight_of, stated};

use crate::arrivals;
use crate::framed::Framed;
use crate::received::Received;
use crate::sights::Sight;
use crate::standing::{Standing, stands};
use pec_directory::Directory;
use pec_receipts::ReceiptView;
use pec_records::Entry;
use pec_shelf::{Draft, Shelf, recipients_named};
use pec_types::{Address, Decision, Event, Kind, Letter, Moment, MsgId, NoMemory, Refusal, Text8};
use std::alloc::Global;

/// What is done with a letter. Here and below `None` says that it is none for this provider.
pub(crate) fn answer(
    alloc: Global,
    directory: &Directory,
    shelf: &Shelf,
    moment: Moment,
    framed: &Framed<'_>,
    sight: &Sight,
) -> Result<Option<Received>, NoMemory>
    requires homes { (trade : Trade) → IsOf directory.now trade → IsFor trade shelf.now }
    requires within { IsWithin (framed_shown framed.now) }
    ensures exact { (seals : Seals) (journal : List SomeEntry) →
        let trade = trade_of directory.now seals in
        shelf.now.half ≡ half trade shelf.now.me journal
        → (seen : Option Seen) → Some sight.now ≡ option_map sight_of seen
        → IfOk result (Answers trade shelf.now.me moment journal (framed_shown framed.now)
        (by_seen trade shelf.now.me moment journal (framed_shown framed.now) seen)) }
    ensures limits { IfOk result AreLimited }
{
    match sight {
        Sight::Envelope(id) => {
            let found = envelope(alloc, directory, shelf, moment, framed, *id)?;
            Ok(found)
        }
        Sight::Receipt(view) => {
            let found = receipt(alloc, directory, shelf, moment, framed, view)?;
            Ok(found)
        }
    }
}

/// What is done with the envelope of a message.
fn envelope(
    alloc: Global,
    directory: &Directory,
    shelf: &Shelf,
    moment: Moment,
    framed: &Framed<'_>,
    id: MsgId,
) -> Result<Option<Received>, NoMemory>
    requires within { IsWithin (framed_shown framed.now) }
    ensures exact { (seals : Seals) (journal : List SomeEntry) →
        let trade = trade_of directory.now seals in
        shelf.now.half ≡ half trade shelf.now.me journal
        → IfOk result (Answers trade shelf.now.me moment journal (framed_shown framed.now)
        (envelope_rows trade shelf.now.me moment journal (framed_shown framed.now) id
        (envelope_fits trade shelf.now.me (framed_shown framed.now))
        (taken_of (half trade shelf.now.me journal) id))) }
    ensures limits { IfOk result AreLimited }
{
    let names = recipients_named(alloc, framed.message)?;
    let arrived = arrivals::envelope(directory, shelf, framed, names.as_slice(), id)?;
    let me = shelf.me();
    match stands(me, &arrived) {
        Standing::New => {
            let received = took(alloc, moment, framed.message, names, id, me)?;
            Ok(Some(received))
        }
        Standing::Known => {
            let event = Event::Repeat(Letter::Envelope { id, to: me });
            Ok(Some(Received::passes(event, Some(Letter::Charge { id, by: me }))))
        }
        Standing::Foreign => Ok(None),
    }
}

/// It is taken, with the addresses that it names, and its charge is owed.
fn took(
    alloc: Global,
    moment: Moment,
    message: &[u8],
    names: Vec<Address>,
    id: MsgId,
    me: u32,
) -> Result<Received, NoMemory>
    requires { names.items ≡ recipients_named message.now }
    ensures { IfOk result (λ received. received ≡ record {
      entry = Some (entries.Took moment id message.now);
      event = events.Took id;
      owed = Some (letters.Charge id me);
    }) }
{
    let message = Text8::of(Vec::from_slice(alloc, message)?);
    let entry = Draft::took(moment, id, message, names);
    let owed = Letter::Charge { id, by: me };
    Ok(Received::enters(entry, Event::Took(id), Some(owed)))
}

/// What is done with a receipt: a charge, an outcome and an acknowledgement are letters.
fn receipt(
    alloc: Global,
    directory: &Directory,
    shelf: &Shelf,
    moment: Moment,
    framed: &Framed<'_>,
    view: &ReceiptView,
) -> Result<Option<Received>, NoMemory>
    requires homes { (trade : Trade) → IsOf directory.now trade → IsFor trade shelf.now }
    requires within { IsWithin (framed_shown framed.now) }
    ensures exact { (seals : Seals) (journal : List SomeEntry) →
        let trade = trade_of directory.now seals in
        shelf.now.half ≡ half trade shelf.now.me journal
        → IfOk result (Answers trade shelf.now.me moment journal (framed_shown framed.now)
        (by_receipt trade shelf.now.me moment journal (framed_shown framed.now) (stated view.now) view.now.kind)) }
    ensures limits { IfOk result AreLimited }
{
    match view.kind {
        Kind::Charge => Ok(charge(directory, shelf, moment, framed, view)),
        Kind::Delivery => {
            let found = outcome(
                alloc,
                directory,
                shelf,
                moment,
                framed,
                view,
                Decision::Placed,
            )?;
            Ok(found)
        }
        Kind::DeliveryError(refusal) => {
            let found = refused(alloc, directory, shelf, moment, framed, view, refusal)?;
            Ok(found)
        }
        Kind::VirusFound => {
            let decision = Decision::Refused(Refusal::Virus);
            let found = outcome(alloc, directory, shelf, moment, framed, view, decision)?;
            Ok(found)
        }
        Kind::Ack => {
            let found = ack(alloc, directory, shelf, moment, framed, view)?;
            Ok(found)
        }
        _ => Ok(None),
    }
}

/// What is done with a delivery error: that of a virus is for the sender alone, and no letter.
fn refused(
    alloc: Global,
    directory: &Directory,
    shelf: &Shelf,
    moment: Moment,
    framed: &Framed<'_>,
    view: &ReceiptView,
    refusal: Refusal,
) -> Result<Option<Received>, NoMemory>
    requires homes { (trade : Trade) → IsOf directory.now trade → IsFor trade shelf.now }
    requires within { IsWithin (framed_shown framed.now) }
    ensures exact { (seals : Seals) (journal : List SomeEntry) →
        let trade = trade_of directory.now seals in
        shelf.now.half ≡ half trade shelf.now.me journal
        → IfOk result (Answers trade shelf.now.me moment journal (framed_shown framed.now)
        (by_receipt trade shelf.now.me moment journal (framed_shown framed.now) (stated view.now)
        (kinds.DeliveryError refusal))) }
    ensures limits { IfOk result AreLimited }
{
    match refusal {
        Refusal::NoMailbox => {
            let decision = Decision::Refused(Refusal::NoMailbox);
            let found = outcome(alloc, directory, shelf, moment, framed, view, decision)?;
            Ok(found)
        }
        Refusal::MailboxFull => {
            let decision = Decision::Refused(Refusal::MailboxFull);
            let found = outcome(alloc, directory, shelf, moment, framed, view, decision)?;
            Ok(found)
        }
        Refusal::Virus => Ok(None),
    }
}

/// What is done with a charge.
fn charge(
    directory: &Directory,
    shelf: &Shelf,
    moment: Moment,
    framed: &Framed<'_>,
    view: &ReceiptView,
) -> Option<Received>
    requires homes { (trade : Trade) → IsOf directory.now trade → IsFor trade shelf.now }
    ensures exact { (seals : Seals) (journal : List SomeEntry) →
        let trade = trade_of directory.now seals in
        shelf.now.half ≡ half trade shelf.now.me journal
        → Answers trade shelf.now.me moment journal (framed_shown framed.now)
        (charge_rows trade shelf.now.me moment journal (framed_shown framed.now) (stated view.now)
        (charge_fits trade shelf.now.me moment journal (framed_shown framed.now) (stated view.now))
        (charged_of (half trade shelf.now.me journal) view.now.id view.now.by)) result }
    ensures limits { AreLimited result }
{
    let id = view.id;
    let by = view.by;
    let arrived = arrivals::charge(directory, shelf, framed, view);
    match stands(shelf.me(), &arrived) {
        Standing::New => {
            let entry = Draft::plain(Entry::Charged { moment, id, by });
            Some(Received::enters(entry, Event::Charged(id, by), None))
        }
        Standing::Known => {
            let event = Event::Repeat(Letter::Charge { id, by });
            Some(Received::passes(event, None))
        }
        Standing::Foreign => None,
    }
}

/// What is done with an outcome that says what was decided.
fn outcome(
    alloc: Global,
    directory: &Directory,
    shelf: &Shelf,
    moment: Moment,
    framed: &Framed<'_>,
    view: &ReceiptView,
    decision: Decision,
) -> Result<Option<Received>, NoMemory>
    requires homes { (trade : Trade) → IsOf directory.now trade → IsFor trade shelf.now }
    requires within { IsWithin (framed_shown framed.now) }
    ensures exact { (seals : Seals) (journal : List SomeEntry) →
        let trade = trade_of directory.now seals in
        shelf.now.half ≡ half trade shelf.now.me journal
        → IfOk result (Answers trade shelf.now.me moment journal (framed_shown framed.now)
        (by_outcome trade shelf.now.me moment journal (framed_shown framed.now) (stated view.now) decision
        view.now.recipient)) }
    ensures limits { IfOk result AreLimited }
{
    let Some(recipient) = &view.recipient else {
        return Ok(None);
    };
    let arrived = arrivals::outcome(alloc, directory, shelf, framed, view, recipient, decision)?;
    match stands(shelf.me(), &arrived) {
        Standing::New => {
            let received = learned(alloc, moment, framed.message, view, recipient, decision)?;
            Ok(Some(received))
        }
        Standing::Known => {
            let received = learned_before(alloc, view.id, recipient)?;
            Ok(Some(received))
        }
        Standing::Foreign => Ok(None),
    }
}

/// It is learned, and its acknowledgement is owed.
fn learned(
    alloc: Global,
    moment: Moment,
    message: &[u8],
    view: &ReceiptView,
    recipient: &Address,
    decision: Decision,
) -> Result<Received, NoMemory>
    ensures { IfOk result (λ received. received ≡ record {
      entry = Some (entries.Learned moment view.now.id recipient.now decision view.now.moment message.now);
      event = events.Learned view.now.id recipient.now decision;
      owed = Some (letters.Ack view.now.id recipient.now);
    }) }
{
    let id = view.id;
    let entry = Draft::plain(Entry::Learned {
        moment,
        id,
        recipient: recipient.copy(alloc)?,
        decision,
        decided: view.moment,
        message: Text8::of(Vec::from_slice(alloc, message)?),
    });
    let event = Event::Learned(id, recipient.copy(alloc)?, decision);
    let owed = Letter::Ack {
        id,
        recipient: recipient.copy(alloc)?,
    };
    Ok(Received::enters(entry, event, Some(owed)))
}

/// It was learned before, and its acknowledgement is owed again.
fn learned_before(alloc: Global, id: MsgId, recipient: &Address) -> Result<Received, NoMemory>
    ensures { IfOk result (λ received. received ≡ record {
      entry = None;
      event = events.Repeat (letters.Outcome id recipient.now);
      owed = Some (letters.Ack id recipient.now);
    }) }
{
    let event = Event::Repeat(Letter::Outcome {
        id,
        recipient: recipient.copy(alloc)?,
    });
    let owed = Letter::Ack {
        id,
        recipient: recipient.copy(alloc)?,
    };
    Ok(Received::passes(event, Some(owed)))
}

/// What is done with an acknowledgement.
fn ack(
    alloc: Global,
    directory: &Directory,
    shelf: &Shelf,
    moment: Moment,
    framed: &Framed<'_>,
    view: &ReceiptView,
) -> Result<Option<Received>, NoMemory>
    ensures exact { (seals : Seals) (journal : List SomeEntry) →
        let trade = trade_of directory.now seals in
        shelf.now.half ≡ half trade shelf.now.me journal
        → IfOk result (Answers trade shelf.now.me moment journal (framed_shown framed.now)
        (by_ack trade shelf.now.me moment journal (framed_shown framed.now) (stated view.now) view.now.recipient)) }
    ensures limits { IfOk result AreLimited }
{
    let Some(recipient) = &view.recipient else {
        return Ok(None);
    };
    let arrived = arrivals::ack(alloc, directory, shelf, framed, view, recipient)?;
    match stands(shelf.me(), &arrived) {
        Standing::New => {
            let received = acked(alloc, moment, view.id, recipient)?;
            Ok(Some(received))
        }
        Standing::Known => {
            let received = acked_before(alloc, view.id, recipient)?;
            Ok(Some(received))
        }
        Standing::Foreign => Ok(None),
    }
}

/// It is noted.
fn acked(
    alloc: Global,
    moment: Moment,
    id: MsgId,
    recipient: &Address,
) -> Result<Received, NoMemory>
    ensures { IfOk result (λ received. received ≡ record {
      entry = Some (entries.Acked moment id recipient.now);
      event = events.Acked id recipient.now;
      owed = None;
    }) }
{
    let entry = Draft::plain(Entry::Acked {
        moment,
        id,
        recipient: recipient.copy(alloc)?,
    });
    let event = Event::Acked(id, recipient.copy(alloc)?);
    Ok(Received::enters(entry, event, None))
}

/// It was noted before.
fn acked_before(alloc: Global, id: MsgId, recipient: &Address) -> Result<Received, NoMemory>
    ensures { IfOk result (λ received. received ≡ record {
      entry = None;
      event = events.Repeat (letters.Ack id recipient.now);
      owed = None;
    }) }
{
    let recipient = recipient.copy(alloc)?;
    let event = Event::Repeat(Letter::Ack { id, recipient });
    Ok(Received::passes(event, None))
}
