ghost use Rattle.std.specs.Prelude.{◌≡◌, ◌<◌, IfOk};
ghost use Rattle.pec_types.specs.declared.moments.TheConstants.{END_OF_TIME};
ghost use Rattle.pec_ledger.specs.Trade.{Trade};
ghost use Rattle.pec_ledger.specs.Steps.{moment_of, version_by};
ghost use Rattle.pec_shelf.specs.Looked.{acceptances_seen, clock_seen};
ghost use Rattle.pec_shelf.specs.Prepared.{AreRows, IsStepOf};
ghost use Rattle.pec_shelf.specs.Seen.{IsFor};
ghost use Rattle.pec_shelf.specs.Settled.{settled};

use crate::anomalies::anomaly;
use crate::archives::archived;
use crate::deadlines::Clock;
use crate::drafts::Draft;
use crate::marking::ticked;
use crate::ready::Ready;
use crate::receptions::{acked, charged, decided, learned, took};
use crate::sharing::shared;
use crate::shelf::Shelf;
use crate::submissions::{accepted, not_accepted};
use pec_directory::Directory;
use pec_records::Entry;
use pec_types::NoMemory;

/// What an entry that is a step adds, without its moment, its version, its size and its place. It is told where the
/// cursors stand behind a clock call.
pub(crate) fn rows_of(
    shelf: &Shelf,
    directory: &Directory,
    draft: &Draft,
    clock: Option<Clock>,
) -> Result<Ready, NoMemory>
    requires step { IsStepOf directory.now shelf.now draft.now }
    requires clock { clock ≡ clock_seen (acceptances_seen shelf.now) draft.now }
    ensures { (trade : Trade) → IsFor (settled directory.now trade) shelf.now
        → IfOk result (AreRows (settled directory.now trade) shelf.now.me shelf.now.half draft.now) }
{
    match draft.entry() {
        Entry::Start { .. } => Ok(Ready::nothing(shelf.alloc)),
        Entry::Accepted { moment, sender, .. } => {
            let sender = shared(directory, sender);
            accepted(shelf, directory, *moment, sender, draft.facts())
        }
        Entry::NotAccepted {
            moment,
            sender,
            cause,
            path,
            ..
        } => not_accepted(
            shelf,
            *moment,
            shared(directory, sender),
            *cause,
            path.as_slice(),
        ),
        Entry::Took { moment, id, .. } => took(shelf, directory, *moment, *id, draft.named()),
        Entry::Decided {
            moment,
            id,
            recipient,
            decision,
        } => decided(shelf, *moment, *id, shared(directory, recipient), *decision),
        Entry::Charged { moment, id, by } => charged(shelf, *moment, *id, *by),
        Entry::Learned {
            moment,
            id,
            recipient,
            decision,
            decided,
            ..
        } => {
            let recipient = shared(directory, recipient);
            learned(shelf, *moment, *id, recipient, *decision, *decided)
        }
        Entry::Acked { id, recipient, .. } => acked(shelf, *id, shared(directory, recipient)),
        Entry::Ticked { moment } => ticked(shelf, *moment, clock),
        Entry::Anomaly {
            moment,
            accounts,
            ..
        } => anomaly(shelf, *moment, accounts.as_slice()),
        Entry::StartTwo { .. } => Ok(Ready::nothing(shelf.alloc)),
        Entry::Upgraded { .. } => Ok(Ready::nothing(shelf.alloc)),
        Entry::Archived { account, place, .. } => archived(
            shelf,
            shared(directory, account),
            *place,
        ),
    }
}

/// The moment of an entry, in seconds; the first entry of a journal has none, and stands at 0. It takes no memory.
pub fn moment_of(entry: &Entry) -> u64
    ensures value { result ≡ moment_of entry.now }
    ensures below { result < END_OF_TIME }
{
    match entry {
        Entry::Start { .. } => 0,
        Entry::Accepted { moment, .. } => moment.seconds(),
        Entry::NotAccepted { moment, .. } => moment.seconds(),
        Entry::Took { moment, .. } => moment.seconds(),
        Entry::Decided { moment, .. } => moment.seconds(),
        Entry::Charged { moment, .. } => moment.seconds(),
        Entry::Learned { moment, .. } => moment.seconds(),
        Entry::Acked { moment, .. } => moment.seconds(),
        Entry::Ticked { moment } => moment.seconds(),
        Entry::Anomaly { moment, .. } => moment.seconds(),
        Entry::StartTwo { .. } => 0,
        Entry::Upgraded { moment } => moment.seconds(),
        Entry::Archived { moment, .. } => moment.seconds(),
    }
}

/// The version that a journal has from an entry on, where the entry says one, and otherwise 0. It takes no memory.
pub(crate) fn version_by(entry: &Entry) -> u64
    ensures { result ≡ version_by entry.now }
{
    match entry {
        Entry::Start { .. } => 1,
        Entry::StartTwo { .. } => 2,
        Entry::Upgraded { .. } => 2,
        _ => 0,
    }
}
