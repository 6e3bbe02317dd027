ghost use Rattle.std.specs.Prelude.{◌≡◌, List, Some, IfOk};
ghost use Rattle.pec_records.specs.declared.entries.Entry.{Entry};
ghost use Rattle.pec_ledger.specs.Lookups.{accepted_at};
ghost use Rattle.pec_ledger.specs.OfDirectory.{IsOf, recipients_named};
ghost use Rattle.pec_ledger.specs.Steps.{half};
ghost use Rattle.pec_ledger.specs.Trade.{Trade};
ghost use Rattle.pec_plays.specs.Reception.{has_pair, has_pairs_at};
ghost use Rattle.pec_plays.specs.TableSight.{a_charge, an_ack, an_envelope, an_outcome};
ghost use Rattle.pec_seal.specs.Seals.{Seals};
ghost use Rattle.pec_shelf.specs.Seen.{IsFor};
ghost use Rattle.pec_trade.specs.TradeOf.{trade_of};
ghost use Rattle.pec_reception.specs.Standings.{unasked};
ghost use Rattle.pec_reception.specs.Views.{framed_shown, stated};

use crate::framed::Framed;
use crate::paths::{is_for, is_to_addressee, is_to_receipts};
use pec_directory::Directory;
use pec_points::Arrived;
use pec_receipts::ReceiptView;
use pec_shelf::Shelf;
use pec_types::{Address, Decision, Letter, MsgId, NoMemory};
use std::alloc::Global;

/// What is seen of the envelope of a message that names these addresses. Here and below nobody asks which accounts have
/// room: that takes long, and it makes a difference for what is no letter alone.
pub(crate) fn envelope(
    directory: &Directory,
    shelf: &Shelf,
    framed: &Framed<'_>,
    names: &[Address],
    id: MsgId,
) -> Result<Arrived, NoMemory>
    requires names { names.now ≡ recipients_named (framed_shown framed.now).message }
    ensures { (seals : Seals) (journal : List Entry) →
        let trade = trade_of directory.now seals in
        shelf.now.half ≡ half trade shelf.now.me journal
        → IfOk result (λ arrived. arrived
        ≡ unasked (an_envelope trade shelf.now.me journal (framed_shown framed.now) id)) }
{
    let here = shelf.named_here(directory, names)?;
    Ok(Arrived {
        letter: Some(Letter::Envelope { id, to: shelf.me() }),
        sealer: id.provider,
        id_provider: id.provider,
        recipient_home: None,
        path_fits: is_for(framed.path.as_slice(), here.as_slice()),
        row_there: true,
        done: shelf.taken(id).is_some(),
        accounts_with_room: 0,
    })
}

/// What is seen of a charge.
pub(crate) fn charge(
    directory: &Directory,
    shelf: &Shelf,
    framed: &Framed<'_>,
    view: &ReceiptView,
) -> Arrived
    requires homes { (trade : Trade) → IsOf directory.now trade → IsFor trade shelf.now }
    ensures { (seals : Seals) (journal : List Entry) →
        let trade = trade_of directory.now seals in
        shelf.now.half ≡ half trade shelf.now.me journal
        → result ≡ unasked (a_charge trade shelf.now.me journal (framed_shown framed.now) (stated view.now)) }
{
    Arrived {
        letter: Some(Letter::Charge {
            id: view.id,
            by: view.by,
        }),
        sealer: view.by,
        id_provider: view.id.provider,
        recipient_home: None,
        path_fits: is_to_receipts(directory, shelf.me(), framed.path.as_slice()),
        row_there: has_pairs_at(directory, shelf, view.id.number, view.by),
        done: shelf.charge(view.id, view.by).is_some(),
        accounts_with_room: 0,
    }
}

/// What is seen of an outcome for a recipient, which says what was decided.
pub(crate) fn outcome(
    alloc: Global,
    directory: &Directory,
    shelf: &Shelf,
    framed: &Framed<'_>,
    view: &ReceiptView,
    recipient: &Address,
    decision: Decision,
) -> Result<Arrived, NoMemory>
    requires homes { (trade : Trade) → IsOf directory.now trade → IsFor trade shelf.now }
    ensures { (seals : Seals) (journal : List Entry) →
        let trade = trade_of directory.now seals in
        shelf.now.half ≡ half trade shelf.now.me journal
        → IfOk result (λ arrived. arrived ≡ unasked (an_outcome trade shelf.now.me journal (framed_shown framed.now)
        (stated view.now) decision (Some recipient.now))) }
{
    Ok(Arrived {
        letter: Some(Letter::Outcome {
            id: view.id,
            recipient: recipient.copy(alloc)?,
        }),
        sealer: view.by,
        id_provider: view.id.provider,
        recipient_home: directory.home_of(recipient),
        path_fits: is_to_addressee(directory, shelf, view.id, decision, framed.path.as_slice()),
        row_there: has_pair(directory, shelf, view.id.number, recipient),
        done: shelf.known(view.id, recipient).is_some(),
        accounts_with_room: 0,
    })
}

/// What is seen of an acknowledgement for a recipient.
pub(crate) fn ack(
    alloc: Global,
    directory: &Directory,
    shelf: &Shelf,
    framed: &Framed<'_>,
    view: &ReceiptView,
    recipient: &Address,
) -> Result<Arrived, NoMemory>
    ensures { (seals : Seals) (journal : List Entry) →
        let trade = trade_of directory.now seals in
        shelf.now.half ≡ half trade shelf.now.me journal
        → IfOk result (λ arrived. arrived ≡ unasked (an_ack trade shelf.now.me journal (framed_shown framed.now)
        (stated view.now) (Some recipient.now))) }
{
    Ok(Arrived {
        letter: Some(Letter::Ack {
            id: view.id,
            recipient: recipient.copy(alloc)?,
        }),
        sealer: view.by,
        id_provider: view.id.provider,
        recipient_home: directory.home_of(recipient),
        path_fits: is_to_receipts(directory, shelf.me(), framed.path.as_slice()),
        row_there: shelf.fate(view.id, recipient).is_some(),
        done: shelf.is_acked(view.id, recipient),
        accounts_with_room: 0,
    })
}

/// The accepted message of a number has pairs at a provider.
fn has_pairs_at(directory: &Directory, shelf: &Shelf, number: u64, by: u32) -> bool
    requires homes { (trade : Trade) → IsOf directory.now trade → IsFor trade shelf.now }
    ensures { (trade : Trade) → IsOf directory.now trade
        → result ≡ has_pairs_at trade by (accepted_at shelf.now.half number) }
{
    let there = shelf.has_pairs(number, by);
    there
}

/// The accepted message of a number has a pair of this recipient.
fn has_pair(directory: &Directory, shelf: &Shelf, number: u64, recipient: &Address) -> bool
    requires homes { (trade : Trade) → IsOf directory.now trade → IsFor trade shelf.now }
    ensures { (trade : Trade) → IsOf directory.now trade
        → result ≡ has_pair trade recipient.now (accepted_at shelf.now.half number) }
{
    let there = shelf.has_pair(number, recipient);
    there
}
