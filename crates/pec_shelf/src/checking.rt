ghost use Rattle.std.specs.Prelude.{◌≡◌, ◌↔◌, IfOk, IsTrue};
ghost use Rattle.pec_ledger.specs.OfDirectory.{IsOf};
ghost use Rattle.pec_ledger.specs.Own.{Own};
ghost use Rattle.pec_ledger.specs.Trade.{Trade};
ghost use Rattle.pec_shelf.specs.Prepared.{Drafts, IsStepOf};
ghost use Rattle.pec_shelf.specs.Seen.{IsFor};
ghost use Rattle.pec_shelf.specs.Settled.{settled};

use crate::archives::{may_archive, may_upgrade};
use crate::conditions::{
    is_start, may_accept, may_acknowledge, may_charge, may_decide_on, may_learn, may_place_anomaly,
    may_refuse, may_take,
};
use crate::drafts::Draft;
use crate::faults::DraftFault;
use crate::preparing::moment_of;
use crate::shelf::Shelf;
use pec_directory::Directory;
use pec_records::Entry;
use pec_types::NoMemory;

/// Drafts an entry that comes from a journal, exactly where it is a step of the half: it meets its own condition, and
/// its moment isn't before the greatest.
pub fn drafted(shelf: &Shelf, directory: &Directory, entry: Entry) -> Result<Draft, DraftFault>
    requires { (trade : Trade) → IsOf directory.now trade → IsFor trade shelf.now }
    ensures exact { (trade : Trade) → IsOf directory.now trade
        → Drafts trade shelf.now.me shelf.now.half entry result }
    ensures follows { IfOk result (IsStepOf directory.now shelf.now) }
{
    if moment_of(&entry) < shelf.last() {
        return Err(DraftFault::NotAStep);
    }
    let draft = Draft::of(shelf.alloc, entry)?;
    if !is_own(shelf, directory, &draft)? {
        return Err(DraftFault::NotAStep);
    }
    Ok(draft)
}

/// Whether an entry meets its own condition in the half.
fn is_own(shelf: &Shelf, directory: &Directory, draft: &Draft) -> Result<bool, NoMemory>
    ensures { (trade : Trade) → IsFor (settled directory.now trade) shelf.now
        → IfOk result (λ own. IsTrue own ↔ Own (settled directory.now trade) shelf.now.me shelf.now.half draft.now) }
{
    match draft.entry() {
        Entry::Start { provider, digest } => is_start(shelf, directory, *provider, digest),
        Entry::Accepted { sender, .. } => Ok(may_accept(shelf, directory, sender, draft.read())),
        Entry::NotAccepted { sender, path, .. } => {
            Ok(may_refuse(shelf, directory, sender, path.as_slice()))
        }
        Entry::Took { id, .. } => Ok(may_take(shelf, directory, *id, draft.named())),
        Entry::Decided {
            id,
            recipient,
            decision,
            ..
        } => Ok(may_decide_on(shelf, directory, *id, recipient, *decision)),
        Entry::Charged { id, by, .. } => Ok(may_charge(shelf, *id, *by)),
        Entry::Learned { id, recipient, .. } => Ok(may_learn(shelf, *id, recipient)),
        Entry::Acked { id, recipient, .. } => Ok(may_acknowledge(shelf, *id, recipient)),
        Entry::Ticked { .. } => Ok(true),
        Entry::Anomaly { accounts, .. } => {
            Ok(may_place_anomaly(shelf, directory, accounts.as_slice()))
        }
        Entry::StartTwo { provider, digest } => is_start(shelf, directory, *provider, digest),
        Entry::Upgraded { .. } => Ok(may_upgrade(shelf)),
        Entry::Archived { account, place, .. } => {
            Ok(may_archive(shelf, directory, account, *place))
        }
    }
}
