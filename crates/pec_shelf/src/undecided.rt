ghost use Rattle.std.specs.Prelude.{◌≡◌, find, map, option_map, IfSome};
ghost use Rattle.std.specs.List.{flat_map};
ghost use Rattle.pec_ledger.specs.Pairs.{pair_of};
ghost use Rattle.pec_shelf.specs.Undecided.{IsDecided, is_open, pairs_at};
ghost use Rattle.pec_shelf.specs.Waiting.{IsDoneAt};

use crate::keys::{OfId, OfPair};
use crate::rows::{FateRow, TakenRow};
use crate::waiting::Waiting;
use pec_places::Table;
use pec_types::{Address, MsgId};

/// The first pair of the rows at these places that isn't decided.
pub(crate) fn first_undecided<'a>(
    taken: &'a Table<TakenRow>,
    decided: &Table<FateRow>,
    places: &[u64],
) -> Option<(MsgId, &'a Address)>
    ensures { option_map (λ pair. pair_of pair.0 pair.1.now) result
        ≡ find (is_open decided.now.rows) (flat_map (pairs_at taken.now.rows) places.now) }
{
    for place in places {
        match undecided_at(taken, decided, *place) {
            Some(pair) => return Some(pair),
            None => {}
        }
    }
    None
}

/// The first pair of the row at a place that isn't decided.
fn undecided_at<'a>(
    taken: &'a Table<TakenRow>,
    decided: &Table<FateRow>,
    place: u64,
) -> Option<(MsgId, &'a Address)>
    ensures { option_map (λ pair. pair_of pair.0 pair.1.now) result
        ≡ find (is_open decided.now.rows) (pairs_at taken.now.rows place) }
{
    match taken.rows().get(place as usize) {
        Some(row) => undecided_in(decided, row),
        None => None,
    }
}

/// The first pair of a row that isn't decided.
fn undecided_in<'a>(decided: &Table<FateRow>, row: &'a TakenRow) -> Option<(MsgId, &'a Address)>
    ensures { option_map (λ pair. pair_of pair.0 pair.1.now) result
        ≡ find (is_open decided.now.rows) (map (pair_of row.now.id) row.now.recipients) }
{
    let recipient = undecided_of(decided, row.id(), row.recipients())?;
    Some((row.id(), recipient))
}

/// The first of these recipients for whom a message isn't decided.
fn undecided_of<'a>(
    decided: &Table<FateRow>,
    id: MsgId,
    recipients: &'a [Address],
) -> Option<&'a Address>
    ensures { option_map (λ address. pair_of id address.now) result
        ≡ find (is_open decided.now.rows) (map (pair_of id) recipients.now) }
{
    for recipient in recipients {
        if decided.find(&OfPair { id, recipient }).is_none() {
            return Some(recipient);
        }
    }
    None
}

/// Where the place of what was taken of an id stands among these, if each of its pairs is decided.
pub(crate) fn decided_index(
    taken: &Table<TakenRow>,
    decided: &Table<FateRow>,
    places: &Waiting,
    id: MsgId,
) -> Option<usize>
    ensures { IfSome result (IsDoneAt (IsDecided decided.now.rows) taken.now.rows places.now.places) }
{
    let row = taken.find(&OfId { id })?;
    let place = row.place();
    match undecided_at(taken, decided, place) {
        Some(_) => return None,
        None => {}
    }
    let index = places.position(place)?;
    Some(index)
}
