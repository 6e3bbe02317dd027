ghost use Rattle.std.specs.Prelude.{◌≡◌, ◌<◌, ◌≤◌, ◌++◌, length, map, IfOk, OnOk};
ghost use Rattle.std.specs.Option.{option_map};
ghost use Rattle.pec_types.specs.declared.messages.TheConstants.{MESSAGES};
ghost use Rattle.pec_ledger.specs.Books.{outcome_in};
ghost use Rattle.pec_ledger.specs.Half.{Charge, Mark};
ghost use Rattle.pec_ledger.specs.Lookups.{charged_of, known_of, notice_of, warning_of};
ghost use Rattle.pec_ledger.specs.Pairs.{pair_of};
ghost use Rattle.pec_shelf.specs.Drawers.{placed_row};
ghost use Rattle.pec_shelf.specs.Lines.{book_rows, line_at, lines_by};

use crate::certified::Certified;
use crate::drawers::{Drawers, Ranked};
use crate::rows::MessageRow;
use crate::shelf::Shelf;
use pec_types::{Address, BookLine, Decision, Moment, MsgId, NoMemory};

/// The lines of an account's book, of these messages.
pub(crate) fn book_lines(
    shelf: &Shelf,
    me: u32,
    account: &Address,
    messages: &Drawers<MessageRow>,
) -> Result<Vec<BookLine>, NoMemory>
    requires { length messages.now.rows ≤ MESSAGES }
    ensures { IfOk result (λ lines. lines.items ≡ book_rows me shelf.now.half account.now 0 messages.now.rows) }
{
    let mut lines = Vec::new(shelf.alloc);
    for rank in 0..messages.count(account) {
        let Some(ranked) = messages.find(account, rank) else {
            return Ok(lines);
        };
        push_message(shelf, &mut lines, me, ranked)?;
    }
    Ok(lines)
}

/// Adds the lines of a message.
fn push_message(
    shelf: &Shelf,
    lines: &mut Vec<BookLine>,
    me: u32,
    ranked: &Ranked<MessageRow>,
) -> Result<(), NoMemory>
    requires { ranked.now.place < MESSAGES }
    ensures { OnOk result (lines.new.items ≡ lines.old.items ++ lines_by me shelf.now.half (placed_row ranked.now)) }
{
    let row = ranked.row();
    let id = MsgId {
        provider: me,
        number: ranked.place(),
    };
    push_pairs(shelf, lines, id, row.moment(), row.certified())
}

/// Adds the lines of a message's certified recipients.
fn push_pairs(
    shelf: &Shelf,
    lines: &mut Vec<BookLine>,
    id: MsgId,
    accepted: Moment,
    recipients: &[Certified],
) -> Result<(), NoMemory>
    ensures { OnOk result (lines.new.items ≡ lines.old.items ++ map (line_at shelf.now.half id accepted) recipients.now) }
{
    for recipient in recipients {
        lines.push(line(shelf, id, accepted, recipient)?)?;
    }
    Ok(())
}

fn line(
    shelf: &Shelf,
    id: MsgId,
    accepted: Moment,
    recipient: &Certified,
) -> Result<BookLine, NoMemory>
    ensures { IfOk result (λ line. line ≡ line_at shelf.now.half id accepted recipient.now) }
{
    let address = &recipient.address;
    Ok(BookLine {
        id,
        recipient: address.copy(shelf.alloc)?,
        class: recipient.class,
        accepted,
        charged: charged_at(shelf, id, recipient.home),
        warned: warned_at(shelf, id, address),
        noticed: noticed_at(shelf, id, address),
        outcome: outcome(shelf, id, address),
    })
}

/// When a provider took charge of a message.
pub(crate) fn charged_at(shelf: &Shelf, id: MsgId, by: u32) -> Option<Moment>
    ensures { result ≡ option_map (λ (charge : Charge). charge.moment) (charged_of shelf.now.half id by) }
{
    let charge = shelf.charge(id, by)?;
    Some(charge.moment())
}

/// When the sender was warned of a pair.
pub(crate) fn warned_at(shelf: &Shelf, id: MsgId, recipient: &Address) -> Option<Moment>
    ensures { result ≡ option_map (λ (mark : Mark). mark.moment) (warning_of shelf.now.half (pair_of id recipient.now)) }
{
    let mark = shelf.warning(id, recipient)?;
    Some(mark.moment())
}

/// When the sender had notice of a pair.
pub(crate) fn noticed_at(shelf: &Shelf, id: MsgId, recipient: &Address) -> Option<Moment>
    ensures { result ≡ option_map (λ (mark : Mark). mark.moment) (notice_of shelf.now.half (pair_of id recipient.now)) }
{
    let mark = shelf.notice(id, recipient)?;
    Some(mark.moment())
}

fn outcome(shelf: &Shelf, id: MsgId, recipient: &Address) -> Option<(Decision, Moment)>
    ensures { result ≡ option_map outcome_in (known_of shelf.now.half (pair_of id recipient.now)) }
{
    let known = shelf.known(id, recipient)?;
    Some((known.decision(), known.decided()))
}
