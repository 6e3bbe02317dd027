ghost use Rattle.std.specs.Prelude.{◌≡◌, ◌++◌, ℕ, [], ◌∷◌, slice_get, Some, IfOk, OnOk};
ghost use Rattle.pec_types.specs.Bytes.{Bytes};
ghost use Rattle.pec_records.specs.declared.entries.Entry.TheVariants as entries;
ghost use Rattle.pec_ledger.specs.Half.{Message, ReceiptItem};
ghost use Rattle.pec_ledger.specs.Lookups.{receipt_kind, submitter};
ghost use Rattle.pec_ledger.specs.OfDirectory.{recipients_named};
ghost use Rattle.pec_ledger.specs.Pairs.{pair_of};
ghost use Rattle.pec_ledger.specs.Steps.{placed_by};
ghost use Rattle.pec_ledger.specs.Trade.{Trade};
ghost use Rattle.pec_shelf.specs.Prepared.{AreRows, nothing};
ghost use Rattle.pec_shelf.specs.Settled.{settled};

use crate::reading::at_home;
use crate::ready::Ready;
use crate::receipts::receipt;
use crate::rows::{AckedRow, ChargeRow, FateRow, KnownRow, Placed, PostedRow, TakenRow};
use crate::shelf::Shelf;
use pec_directory::Directory;
use pec_types::{Address, Decision, Items, Kind, Moment, MsgId, NoMemory};

/// Took: the addresses of the envelope that are at home here.
pub(crate) fn took(
    shelf: &Shelf,
    directory: &Directory,
    moment: Moment,
    id: MsgId,
    named: &[Address],
) -> Result<Ready, NoMemory>
    ensures { (trade : Trade) (message : Bytes) → named.now ≡ recipients_named message
        → IfOk result (AreRows (settled directory.now trade) shelf.now.me shelf.now.half (entries.Took moment id message)) }
{
    let here = at_home(shelf.alloc, directory, shelf.me(), named)?;
    let row = TakenRow {
        id,
        moment,
        recipients: Items::of(here),
        entry: shelf.entries,
        place: shelf.inbox.count_taken(),
    };
    let mut ready = Ready::nothing(shelf.alloc);
    ready.push_taken(row)?;
    Ok(ready)
}

/// Decided: what was decided, and the envelope where it was placed.
pub(crate) fn decided(
    shelf: &Shelf,
    moment: Moment,
    id: MsgId,
    recipient: &Address,
    decision: Decision,
) -> Result<Ready, NoMemory>
    ensures { (trade : Trade)
        → IfOk result (AreRows trade shelf.now.me shelf.now.half (entries.Decided moment id recipient.now decision)) }
{
    let row = FateRow {
        id,
        recipient: recipient.copy(shelf.alloc)?,
        decision,
        moment,
        place: shelf.inbox.count_decided(),
    };
    let mut ready = Ready::nothing(shelf.alloc);
    ready.push_fate(row)?;
    push_placed(shelf, &mut ready, id, recipient, decision)?;
    Ok(ready)
}

/// Adds the envelope in the recipient's mailbox, where that was decided.
fn push_placed(
    shelf: &Shelf,
    ready: &mut Ready,
    id: MsgId,
    recipient: &Address,
    decision: Decision,
) -> Result<(), NoMemory>
    ensures { OnOk result (ready.new ≡ record ready.old {
      adds = record ready.old.adds {
        items = ready.old.adds.items ++ placed_by shelf.now.half id recipient.now decision;
      };
    }) }
{
    if decision != Decision::Placed {
        return Ok(());
    }
    let account = recipient.copy(shelf.alloc)?;
    ready.push_item(PostedRow {
        account,
        item: Placed::Envelope(id),
        entry: shelf.entries,
    })?;
    Ok(())
}

/// Charged: who took charge, and when.
pub(crate) fn charged(shelf: &Shelf, moment: Moment, id: MsgId, by: u32) -> Result<Ready, NoMemory>
    ensures { (trade : Trade) → IfOk result (AreRows trade shelf.now.me shelf.now.half (entries.Charged moment id by)) }
{
    let mut ready = Ready::nothing(shelf.alloc);
    ready.push_charge(ChargeRow { id, by, moment })?;
    Ok(ready)
}

/// Learned: an outcome, and the receipt of it for the account that submitted the message.
pub(crate) fn learned(
    shelf: &Shelf,
    moment: Moment,
    id: MsgId,
    recipient: &Address,
    decision: Decision,
    decided: Moment,
) -> Result<Ready, NoMemory>
    requires { (submitted : Message) × (slice_get shelf.now.half.messages id.number ≡ Some submitted) }
    ensures { (trade : Trade) (message : Bytes) → IfOk result (AreRows trade shelf.now.me shelf.now.half
        (entries.Learned moment id recipient.now decision decided message)) }
{
    let Some(account) = shelf.submitter(id.number) else {
        unreachable!();
    };
    learn(shelf, account, moment, id, recipient, decision, decided)
}

/// What an outcome adds.
fn learn(
    shelf: &Shelf,
    account: &Address,
    moment: Moment,
    id: MsgId,
    recipient: &Address,
    decision: Decision,
    decided: Moment,
) -> Result<Ready, NoMemory>
    requires { submitter shelf.now.half id.number ≡ account.now }
    ensures { IfOk result (λ ready. ready ≡ record nothing {
      adds = record nothing.adds {
        known = record { pair = pair_of id recipient.now; decision = decision; decided = decided; moment = moment } ∷ [];
        items = record {
          account = submitter shelf.now.half id.number;
          item = ReceiptItem (receipt_kind decision) id (Some recipient.now) moment;
          entry = shelf.now.half.entries;
        } ∷ [];
      };
    }) }
{
    let named = recipient.copy(shelf.alloc)?;
    let item = receipt(
        shelf,
        account,
        receipt_kind(decision),
        id,
        Some(named),
        moment,
    )?;
    let mut ready = Ready::nothing(shelf.alloc);
    ready.push_item(item)?;
    ready.push_known(KnownRow {
        id,
        recipient: recipient.copy(shelf.alloc)?,
        decision,
        decided,
        moment,
    })?;
    Ok(ready)
}

/// The kind of the receipt on a decision.
fn receipt_kind(decision: Decision) -> Kind
    ensures { result ≡ receipt_kind decision }
{
    match decision {
        Decision::Placed => Kind::Delivery,
        Decision::Refused(refusal) => Kind::DeliveryError(refusal),
    }
}

/// Acked: the pair.
pub(crate) fn acked(shelf: &Shelf, id: MsgId, recipient: &Address) -> Result<Ready, NoMemory>
    ensures { (trade : Trade) (moment : ℕ)
        → IfOk result (AreRows trade shelf.now.me shelf.now.half (entries.Acked moment id recipient.now)) }
{
    let row = AckedRow {
        id,
        recipient: recipient.copy(shelf.alloc)?,
    };
    let mut ready = Ready::nothing(shelf.alloc);
    ready.push_acked(row)?;
    Ok(ready)
}
