ghost use Rattle.std.specs.Prelude.{◌≡◌, ◌<◌, ◌≤◌, ◌++◌, [], Some, length, map, option_map, slice_get, IfOk, OnOk};
ghost use Rattle.std.specs.List.{filter_map};
ghost use Rattle.std.specs.Option.{IfSome, option_to_list};
ghost use Rattle.pec_ledger.specs.Along.{times};
ghost use Rattle.pec_ledger.specs.Books.{item_line};
ghost use Rattle.pec_ledger.specs.Half.{Posted};
ghost use Rattle.pec_ledger.specs.Lookups.{takes_room};
ghost use Rattle.pec_shelf.specs.Moves.{AreMoved, boxes_at, items_of, moves_of};

use crate::boxes::Boxes;
use crate::drawers::Drawers;
use crate::moves::{MoveRow, MovedRow, rank_at, ranks_left, ranks_moved};
use crate::rows::PostedRow;
use pec_types::{Address, ItemLine, NoMemory};
use std::alloc::Global;
use std::marker::Model;

/// The mailboxes and archives of a provider: all items that were ever placed, and the moves into archives, both in
/// order.
#[derive(Drop)]
pub(crate) struct Mailboxes {
    boxes: Boxes,
    moves: Drawers<MovedRow>,
}

impl Model for Mailboxes {
    ghost use Rattle.pec_shelf.specs.Moves.{AreMoved, Stored, moves_of, room_beside};

    ghost Value = { Stored };

    ghost view = { λ mailboxes. record {
      items = mailboxes.boxes.items;
      moves = moves_of mailboxes.moves.rows;
      room = room_beside mailboxes.moves.room mailboxes.boxes.room;
    } };

    ghost invariant = { λ mailboxes. AreMoved mailboxes.boxes.items mailboxes.moves.rows };
}

impl Mailboxes {
    /// Nothing was placed yet. It takes no memory.
    pub(crate) fn new(alloc: Global) -> Mailboxes
        ensures { result ≡ record { items = []; moves = []; room = 0 } }
    {
        Mailboxes {
            boxes: Boxes::new(alloc),
            moves: Drawers::new(alloc),
        }
    }

    /// Makes room for so many further items, and for one move.
    pub(crate) fn reserve(&mut self, rows: usize) -> Result<(), NoMemory>
        ensures room { OnOk result (rows ≤ self.new.room) }
        ensures same { self.new ≡ record self.old { room = self.new.room } }
    {
        self.boxes.reserve(rows)?;
        self.moves.reserve(1)?;
        Ok(())
    }

    /// Adds a move of an item that stands in its mailbox, if there is one, and items behind. There is room for them. It
    /// takes no memory.
    pub(crate) fn add(&mut self, rows: Vec<PostedRow>, moved: Option<MoveRow>)
        requires room { length rows.items ≤ self.old.room }
        requires spare { 0 < self.old.room }
        requires there { IfSome moved (λ row. row.place
            < length (boxes_at row.account self.old.items self.old.moves).mailbox) }
        ensures items { self.new.items ≡ self.old.items ++ rows.items }
        ensures moves { self.new.moves ≡ self.old.moves ++ option_to_list moved }
    {
        push_move(&self.boxes, &mut self.moves, moved);
        self.boxes.add(rows);
    }

    /// How many items of an account's mailbox take room: envelopes and anomalies. It takes no memory.
    pub(crate) fn counted(&self, account: &Address) -> u64
        ensures { result ≡ times (λ (posted : Posted). takes_room posted.item)
            (boxes_at account.now self.now.items self.now.moves).mailbox }
    {
        self.boxes.counted(account) - self.moves.counted(account)
    }

    /// The item at a place of an account's mailbox. It takes no memory.
    pub(crate) fn at(&self, account: &Address, place: u32) -> Option<&PostedRow>
        ensures { option_map (λ row. row.now) result
            ≡ slice_get (boxes_at account.now self.now.items self.now.moves).mailbox place }
    {
        self.boxes.at(account, rank_at(&self.moves, account, place))
    }

    /// The item at a place of an account's archive. It takes no memory.
    pub(crate) fn vault_at(&self, account: &Address, place: u32) -> Option<&PostedRow>
        ensures { option_map (λ row. row.now) result
            ≡ slice_get (boxes_at account.now self.now.items self.now.moves).archive place }
    {
        let Some(moved) = self.moves.nth(account, place as u64) else {
            return None;
        };
        self.boxes.at(account, moved.rank())
    }

    /// The lines of an account's mailbox, in order of placing.
    pub(crate) fn lines(&self, alloc: Global, account: &Address) -> Result<Vec<ItemLine>, NoMemory>
        ensures { IfOk result (λ lines. lines.items ≡ map (λ (posted : Posted). item_line posted.item)
            (boxes_at account.now self.now.items self.now.moves).mailbox) }
    {
        let ranks = ranks_left(alloc, &self.moves, account, self.boxes.count(account))?;
        let lines = lines_of(alloc, &self.boxes, account, ranks.as_slice())?;
        Ok(lines)
    }

    /// The lines of an account's archive, in the order in which the items were moved there.
    pub(crate) fn vault_lines(
        &self,
        alloc: Global,
        account: &Address,
    ) -> Result<Vec<ItemLine>, NoMemory>
        ensures { IfOk result (λ lines. lines.items ≡ map (λ (posted : Posted). item_line posted.item)
            (boxes_at account.now self.now.items self.now.moves).archive) }
    {
        let ranks = ranks_moved(alloc, &self.moves, account)?;
        let lines = lines_of(alloc, &self.boxes, account, ranks.as_slice())?;
        Ok(lines)
    }
}

/// Adds a move for which there is room, of an item that stands in its mailbox, if there is one. It takes no memory.
fn push_move(boxes: &Boxes, moves: &mut Drawers<MovedRow>, moved: Option<MoveRow>)
    requires kept { AreMoved boxes.now.items moves.old.rows }
    requires spare { 0 < moves.old.room }
    requires there { IfSome moved (λ row. row.place
        < length (boxes_at row.account boxes.now.items (moves_of moves.old.rows)).mailbox) }
    ensures kept { AreMoved boxes.now.items moves.new.rows }
    ensures moves { moves_of moves.new.rows ≡ moves_of moves.old.rows ++ option_to_list moved }
{
    let Some(what) = moved else {
        return;
    };
    let rank = rank_at(moves, &what.account, what.place);
    let took = takes_room(boxes, &what.account, rank);
    moves.push(MovedRow { what, rank, took });
}

/// Whether the item of a rank, among all that were ever placed with an account, takes room. It takes no memory.
fn takes_room(boxes: &Boxes, account: &Address, rank: u64) -> bool
    ensures { (posted : Posted) → slice_get (items_of account.now boxes.now.items) rank ≡ Some posted
        → result ≡ takes_room posted.item }
{
    match boxes.at(account, rank) {
        Some(row) => row.takes_room(),
        None => false,
    }
}

/// The lines of the items of these ranks, among all that were ever placed with an account.
fn lines_of(
    alloc: Global,
    boxes: &Boxes,
    account: &Address,
    ranks: &[u64],
) -> Result<Vec<ItemLine>, NoMemory>
    ensures { IfOk result (λ lines. lines.items ≡ map (λ (posted : Posted). item_line posted.item)
        (filter_map (slice_get (items_of account.now boxes.now.items)) ranks.now)) }
{
    let mut lines = Vec::new(alloc);
    for rank in ranks {
        push_line(alloc, &mut lines, boxes, account, *rank)?;
    }
    Ok(lines)
}

/// Adds the line of the item of a rank, if there is one.
fn push_line(
    alloc: Global,
    lines: &mut Vec<ItemLine>,
    boxes: &Boxes,
    account: &Address,
    rank: u64,
) -> Result<(), NoMemory>
    ensures { OnOk result (lines.new.items ≡ lines.old.items ++ map (λ (posted : Posted). item_line posted.item)
        (option_to_list (slice_get (items_of account.now boxes.now.items) rank))) }
{
    let Some(row) = boxes.at(account, rank) else {
        return Ok(());
    };
    lines.push(row.line(alloc)?)?;
    Ok(())
}
