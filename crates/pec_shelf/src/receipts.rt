ghost use Rattle.std.specs.Prelude.{◌≡◌, IfOk};
ghost use Rattle.pec_ledger.specs.Half.{ReceiptItem};

use crate::rows::{Placed, PostedRow};
use crate::shelf::Shelf;
use pec_types::{Address, Kind, Moment, MsgId, NoMemory};

/// A receipt for an account, by the next entry.
pub(crate) fn receipt(
    shelf: &Shelf,
    account: &Address,
    kind: Kind,
    id: MsgId,
    recipient: Option<Address>,
    moment: Moment,
) -> Result<PostedRow, NoMemory>
    ensures { IfOk result (λ row. row ≡ record {
      account = account.now;
      item = ReceiptItem kind id recipient moment;
      entry = shelf.now.half.entries;
    }) }
{
    let account = account.copy(shelf.alloc)?;
    Ok(PostedRow {
        account,
        item: Placed::Receipt {
            kind,
            id,
            recipient,
            moment,
        },
        entry: shelf.entries,
    })
}
