ghost use Rattle.std.specs.Prelude.{◌≡◌, ◌++◌, ℕ, map, IfOk, OnOk};
ghost use Rattle.pec_types.specs.Bytes.{Bytes};
ghost use Rattle.pec_records.specs.declared.entries.Entry.TheVariants as entries;
ghost use Rattle.pec_ledger.specs.Steps.{anomaly_by};
ghost use Rattle.pec_ledger.specs.Trade.{Trade};
ghost use Rattle.pec_shelf.specs.Prepared.{AreRows};

use crate::ready::Ready;
use crate::rows::{Placed, PostedRow};
use crate::shelf::Shelf;
use pec_types::{Address, Moment, NoMemory};

/// Anomaly: an item for each of the accounts.
pub(crate) fn anomaly(
    shelf: &Shelf,
    moment: Moment,
    accounts: &[Address],
) -> Result<Ready, NoMemory>
    ensures { (trade : Trade) (message : Bytes)
        → IfOk result (AreRows trade shelf.now.me shelf.now.half (entries.Anomaly moment accounts.now message)) }
{
    let mut ready = Ready::nothing(shelf.alloc);
    push_anomalies(shelf, &mut ready, moment, accounts)?;
    Ok(ready)
}

/// Adds an item for each of these accounts.
fn push_anomalies(
    shelf: &Shelf,
    ready: &mut Ready,
    moment: Moment,
    accounts: &[Address],
) -> Result<(), NoMemory>
    ensures { OnOk result (ready.new ≡ record ready.old {
      adds = record ready.old.adds {
        items = ready.old.adds.items ++ map (anomaly_by shelf.now.half moment) accounts.now;
      };
    }) }
{
    for account in accounts {
        ready.push_item(anomaly_in(shelf, moment, account)?)?;
    }
    Ok(())
}

fn anomaly_in(shelf: &Shelf, moment: Moment, account: &Address) -> Result<PostedRow, NoMemory>
    ensures { IfOk result (λ row. row ≡ anomaly_by shelf.now.half moment account.now) }
{
    let account = account.copy(shelf.alloc)?;
    Ok(PostedRow {
        account,
        item: Placed::Anomaly(moment),
        entry: shelf.entries,
    })
}
