ghost use Rattle.std.specs.Prelude.{◌≡◌};
ghost use Rattle.pec_ledger.specs.OfDirectory.{IsOf};
ghost use Rattle.pec_ledger.specs.Trade.{Trade};
ghost use Rattle.pec_plays.specs.Decisions.{decision_on};

use pec_directory::Directory;
use pec_plays::decisions_are_the_table;
use pec_points::decide;
use pec_shelf::{Shelf, quota};
use pec_types::{Address, Decision};

/// What is decided for a recipient, by the table of decisions, as some screen finds a rule in the message or none does.
pub(crate) fn decision_on(
    directory: &Directory,
    shelf: &Shelf,
    recipient: &Address,
    virus: bool,
) -> Decision
    ensures { (trade : Trade) → IsOf directory.now trade
        → result ≡ decision_on trade shelf.now.me shelf.now.half recipient.now virus }
{
    decisions_are_the_table();
    let account = directory.is_account_of(shelf.me(), recipient);
    let count = shelf.counted(recipient);
    let quota = quota(directory, recipient);
    decide(account, count, quota, virus)
}
