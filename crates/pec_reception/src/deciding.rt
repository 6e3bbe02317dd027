ghost use Rattle.std.specs.Prelude.{◌≡◌, List, None, Some, IfOk, option_map};
ghost use Rattle.pec_types.specs.declared.turns.Event.TheVariants as events;
ghost use Rattle.pec_records.specs.declared.entries.Entry.{Entry as SomeEntry};
ghost use Rattle.pec_records.specs.declared.entries.Entry.TheVariants as entries;
ghost use Rattle.pec_ledger.specs.OfDirectory.{IsOf};
ghost use Rattle.pec_ledger.specs.Pairs.{pair_of};
ghost use Rattle.pec_ledger.specs.Steps.{half};
ghost use Rattle.pec_ledger.specs.Trade.{Trade};
ghost use Rattle.pec_plays.specs.Decisions.{decision_on, undecided};
ghost use Rattle.pec_shelf.specs.Prepared.{AreSteps};
ghost use Rattle.pec_reception.specs.Shows.{IsFirstOf, IsLimited, Shows, decide_as};

use crate::mailboxes::decision_on;
use crate::received::Received;
use pec_directory::Directory;
use pec_records::Entry;
use pec_shelf::{Draft, Shelf};
use pec_types::{Address, Event, Moment, MsgId, NoMemory};
use std::alloc::Global;

/// The next pair that was taken and isn't decided, in order of taking and of recipients (RFC 6109, section 3.3, within
/// this project's profile); `None` says that no pair is undecided. It takes no memory.
pub fn next(shelf: &Shelf) -> Option<(MsgId, &Address)>
    // Whatever steps the half comes from: it is the first pair that they leave undecided.
    ensures { (trade : Trade) (journal : List SomeEntry) → AreSteps trade shelf.now.me journal
        → shelf.now.half ≡ half trade shelf.now.me journal
        → IsFirstOf (undecided trade shelf.now.me journal) (option_map (λ next. pair_of next.0 next.1.now) result) }
{
    let found = shelf.next_undecided();
    found
}

/// What is to be done with a pair: it is decided, by the table of decisions (RFC 6109, section 3.3, within this
/// project's profile). Whether some screen finds a rule in its message is told; it makes no difference where the
/// recipient is no account. Want of memory is the only error, and changes nothing.
pub fn decide(
    alloc: Global,
    directory: &Directory,
    shelf: &Shelf,
    moment: Moment,
    id: MsgId,
    recipient: &Address,
    virus: bool,
) -> Result<Received, NoMemory>
    ensures exact { (trade : Trade) → IsOf directory.now trade → (journal : List SomeEntry)
        → shelf.now.half ≡ half trade shelf.now.me journal → IfOk result (λ received.
        Shows received (decide_as trade shelf.now.me moment virus journal (pair_of id recipient.now))) }
    ensures limits { IfOk result IsLimited }
{
    let received = decided(alloc, directory, shelf, moment, id, recipient, virus)?;
    Ok(received)
}

/// The same, in the words of the half.
fn decided(
    alloc: Global,
    directory: &Directory,
    shelf: &Shelf,
    moment: Moment,
    id: MsgId,
    recipient: &Address,
    virus: bool,
) -> Result<Received, NoMemory>
    ensures exact { (trade : Trade) → IsOf directory.now trade →
        let decision = decision_on trade shelf.now.me shelf.now.half recipient.now virus in
        IfOk result (λ received. received ≡ record {
          entry = Some (entries.Decided moment id recipient.now decision);
          event = events.Decided id recipient.now decision;
          owed = None;
        }) }
    ensures limits { IfOk result IsLimited }
{
    let decision = decision_on(directory, shelf, recipient, virus);
    let entry = Draft::plain(Entry::Decided {
        moment,
        id,
        recipient: recipient.copy(alloc)?,
        decision,
    });
    let event = Event::Decided(id, recipient.copy(alloc)?, decision);
    Ok(Received::enters(entry, event, None))
}
