//! Moves of items from mailboxes into archives, and which items stay. A place means the same item whatever is placed
//! later, so that moves and items are kept apart.

ghost use Rattle.std.specs.Prelude.{◌≡◌, ◌+◌, ◌^◌, ◌<◌, Some, map, IfOk};
ghost use Rattle.std.specs.List.{range_with_len, remove};
ghost use Rattle.pec_shelf.specs.Moves.{Moved, own_moved, places_of, raised_by, rank_at, ranks_left};

use crate::drawers::{Drawers, Owned};
use pec_types::{Address, NoMemory};
use std::alloc::Global;
use std::marker::Model;

/// The item at a place of an account's mailbox, from 0, is moved into the account's archive.
#[derive(Drop)]
pub(crate) struct MoveRow {
    pub(crate) account: Address,
    pub(crate) place: u32,
}

impl Model for MoveRow {
    ghost use Rattle.pec_ledger.specs.Half.{Move};

    ghost Value = { Move };

    ghost view = { λ row. record { account = row.account; place = row.place } };
}

/// A move, the rank of its item among all that were ever placed with the account, from 0, and whether it took room.
#[derive(Drop)]
pub(crate) struct MovedRow {
    pub(crate) what: MoveRow,
    pub(crate) rank: u64,
    pub(crate) took: bool,
}

impl Model for MovedRow {
    ghost use Rattle.pec_shelf.specs.Moves.{Moved};

    ghost Value = { Moved };

    ghost view = { λ row. record { what = row.what; rank = row.rank; took = row.took } };
}

impl Owned for MovedRow {
    ghost owner_of = { λ (moved : Moved). Some moved.what.account };

    ghost counts_in = { λ (moved : Moved). moved.took };

    fn owner(&self) -> Option<&Address> {
        Some(&self.what.account)
    }

    fn counts(&self) -> bool {
        self.took
    }
}

impl MovedRow {
    /// The place from which the item was moved.
    fn place(&self) -> u32
        ensures { result ≡ self.now.what.place }
    {
        self.what.place
    }

    /// The rank of the item among all that were ever placed with the account.
    pub(crate) fn rank(&self) -> u64
        ensures { result ≡ self.now.rank }
    {
        self.rank
    }
}

/// The rank of the item at a place of an account's mailbox, among all that were ever placed with it. It takes no
/// memory.
pub(crate) fn rank_at(moves: &Drawers<MovedRow>, account: &Address, place: u32) -> u64
    ensures { result ≡ rank_at (places_of account.now moves.now.rows) place }
{
    let mut rank = place as u64;
    let mut behind = moves.count(account);
    while behind > 0 {
        behind -= 1;
        let Some(row) = moves.nth(account, behind) else {
            return rank;
        };
        rank = raised_by(row.place(), rank);
    }
    rank
}

/// The place that an item had before the one at another place was moved.
fn raised_by(moved: u32, place: u64) -> u64
    requires { place + 1 < 2 ^ 64 }
    ensures { result ≡ raised_by moved place }
{
    if moved as u64 <= place {
        return place + 1;
    }
    place
}

/// The ranks of the items that stand in an account's mailbox, in order of placing, where so many were ever placed.
pub(crate) fn ranks_left(
    alloc: Global,
    moves: &Drawers<MovedRow>,
    account: &Address,
    count: u64,
) -> Result<Vec<u64>, NoMemory>
    ensures { IfOk result (λ ranks. ranks.items
        ≡ ranks_left (range_with_len 0 count) (places_of account.now moves.now.rows)) }
{
    let mut ranks = numbers(alloc, count)?;
    for at in 0..moves.count(account) {
        let Some(row) = moves.nth(account, at) else {
            return Ok(ranks);
        };
        take_out(&mut ranks, row.place());
    }
    Ok(ranks)
}

/// The numbers below this one.
fn numbers(alloc: Global, count: u64) -> Result<Vec<u64>, NoMemory>
    ensures { IfOk result (λ numbers. numbers.items ≡ range_with_len 0 count) }
{
    let mut numbers = Vec::new(alloc);
    for number in 0..count {
        numbers.push(number)?;
    }
    Ok(numbers)
}

/// Takes the one at a place out, where there is one. It takes no memory.
fn take_out(ranks: &mut Vec<u64>, place: u32)
    ensures { ranks.new.items ≡ remove ranks.old.items place }
{
    let place = place as usize;
    if place >= ranks.as_slice().len() {
        return;
    }
    let _ = ranks.remove(place);
}

/// The ranks of the items of an account's archive, in the order in which they were moved there.
pub(crate) fn ranks_moved(
    alloc: Global,
    moves: &Drawers<MovedRow>,
    account: &Address,
) -> Result<Vec<u64>, NoMemory>
    ensures { IfOk result (λ ranks. ranks.items ≡ map (λ (moved : Moved). moved.rank) (own_moved account.now moves.now.rows)) }
{
    let mut ranks = Vec::new(alloc);
    for at in 0..moves.count(account) {
        let Some(row) = moves.nth(account, at) else {
            return Ok(ranks);
        };
        ranks.push(row.rank())?;
    }
    Ok(ranks)
}
