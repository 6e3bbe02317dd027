ghost use Rattle.std.specs.Prelude.{◌≡◌, ℕ, Bool, ◌==◌, ◌&&◌, ◌+◌, ◌^◌, ◌<◌, ◌≤◌, [], ◌∷◌, ◌++◌, length, max, option_map, slice_get, Option, OnOk, if◌then◌else◌};
ghost use Rattle.std.specs.Option.{IfSome, option_and_then};
ghost use Rattle.pec_types.specs.Bytes.{Bytes};
ghost use Rattle.pec_shelf.specs.Drawers.{IsRankOf, RankedRow, counted_of, is_own, own_numbered, own_rows, placed_row, rows_in};
ghost use Rattle.pec_shelf.specs.Tallies.{IsTallyOf};
ghost use Rattle.pec_shelf.specs.Keys.{number_of_rank, number_of_owned};
ghost use Rattle.pec_shelf.specs.KeyLaws.{of_owned};

use crate::keys::number_of_rank;
use pec_places::{Grouped, InGroup, Numbered, Sought};
use pec_types::{Address, NoMemory};
use std::alloc::Global;
use std::marker::Model;

/// A row that is an account's own, or nobody's.
pub(crate) trait Owned {
    ghost owner_of: { Self → Option Bytes };

    ghost counts_in: { Self → Bool };

    /// The account whose row it is.
    fn owner(&self) -> Option<&Address>
        ensures { option_map (λ account. account.now) result ≡ owner_of self.now };

    /// Whether it is counted.
    fn counts(&self) -> bool
        ensures { result ≡ counts_in self.now };
}

/// A row with its place, its rank among the rows of its account, from 0, and how many of these are counted up to it.
#[derive(Drop)]
pub(crate) struct Ranked<R> {
    row: R,
    place: u64,
    rank: u64,
    counted: u64,
}

impl<R> Ranked<R> {
    /// The row.
    pub(crate) fn row(&self) -> &R
        ensures { result.now ≡ self.now.row }
    {
        &self.row
    }

    /// Its place.
    pub(crate) fn place(&self) -> u64
        ensures { result ≡ self.now.place }
    {
        self.place
    }
}

impl<R: Owned> Ranked<R> {
    /// Whether it is the account's own.
    fn is_of(&self, account: &Address) -> bool
        ensures { result ≡ is_own account.now (R.owner_of self.now.row) }
    {
        match self.row.owner() {
            Some(owner) => account.bytes() == owner.bytes(),
            None => false,
        }
    }
}

impl<R> Model for Ranked<R> {
    ghost use Rattle.pec_shelf.specs.Drawers.{RankedRow};

    ghost Value = { RankedRow R };

    ghost view = { λ ranked. record {
      row = ranked.row;
      place = ranked.place;
      rank = ranked.rank;
      counted = ranked.counted;
    } };
}

/// Where a row stands.
#[derive(Clone, Copy)]
struct Rank {
    place: u64,
    rank: u64,
    counted: u64,
}

/// How many rows an account has, and how many of these are counted.
#[derive(Clone, Copy)]
struct Tally {
    rows: u64,
    counted: u64,
}

/// An account, and the rank of one of its rows.
#[derive(Clone, Copy)]
struct OfRank<'a> {
    account: &'a Address,
    rank: u64,
}

impl<R: Owned> Numbered for Ranked<R> {
    ghost number_of = { λ (ranked : RankedRow R). number_of_owned (R.owner_of ranked.row) ranked.rank };

    fn number(&self) -> u64 {
        number_of_owned(&self.row, self.rank)
    }
}

/// An account is told by the number of its first row.
impl<R: Owned> InGroup for Ranked<R> {
    ghost group_of = { λ (ranked : RankedRow R). number_of_owned (R.owner_of ranked.row) 0 };

    fn group(&self) -> u64 {
        number_of_owned(&self.row, 0)
    }
}

/// The number of a row of this rank among those of its account; 0 where it is nobody's.
fn number_of_owned<R: Owned>(row: &R, rank: u64) -> u64
    ensures { result ≡ number_of_owned (R.owner_of row.now) rank }
{
    match row.owner() {
        Some(account) => number_of_rank(account, rank),
        None => 0,
    }
}

impl<R: Owned> Sought<Ranked<R>> for OfRank<'_> {
    ghost sought = { λ key. number_of_rank key.account.now key.rank };

    ghost finds = { λ key (ranked : RankedRow R).
        is_own key.account.now (R.owner_of ranked.row) && (key.rank == ranked.rank) };

    ghost agrees = { λ key ranked same. of_owned key.account.now (R.owner_of ranked.row) key.rank ranked.rank same };

    fn number(&self) -> u64 {
        number_of_rank(self.account, self.rank)
    }

    fn finds(&self, ranked: &Ranked<R>) -> bool {
        ranked.is_of(self.account) && self.rank == ranked.rank
    }
}

/// Rows in order of adding, those of each account found by their rank.
#[derive(Drop)]
pub(crate) struct Drawers<R: Owned> {
    /// A row's group is its account, so that an account's last row is found at once.
    table: Grouped<Ranked<R>>,
}

impl<R: Owned> Model for Drawers<R> {
    ghost use Rattle.std.specs.Prelude.{◌≡◌, ◌≤◌, []};
    ghost use Rattle.pec_places.specs.Rows.{Rows};
    ghost use Rattle.pec_shelf.specs.Drawers.{AreRanked, rows_in};

    ghost Value = { Rows R };

    ghost view = { λ drawers. record { rows = rows_in drawers.table.rows; room = drawers.table.room } };

    ghost invariant = { λ drawers. AreRanked R.owner_of R.counts_in [] drawers.table.rows };
}

impl<R: Owned + Drop> Drawers<R> {
    /// No row yet. It takes no memory.
    pub(crate) fn new(alloc: Global) -> Drawers<R>
        ensures { result ≡ record { rows = []; room = 0 } }
    {
        Drawers {
            table: Grouped::new(alloc),
        }
    }

    /// Makes room for so many further rows.
    pub(crate) fn reserve(&mut self, more: usize) -> Result<(), NoMemory>
        ensures room { OnOk result (more ≤ self.new.room) }
        ensures kept { self.old.room ≤ self.new.room }
        ensures most { self.new.room ≤ max self.old.room more }
        ensures rows { self.new.rows ≡ self.old.rows }
    {
        self.table.reserve(more)?;
        Ok(())
    }

    /// Adds a row for which there is room. It takes no memory.
    pub(crate) fn push(&mut self, row: R)
        requires { 0 < self.old.room }
        ensures rows { self.new.rows ≡ self.old.rows ++ row ∷ [] }
        ensures room { self.new.room + 1 ≡ self.old.room }
    {
        let at = self.rank_of(&row);
        self.table.push(Ranked {
            row,
            place: at.place,
            rank: at.rank,
            counted: at.counted,
        });
    }

    /// Adds rows for which there is room. It takes no memory.
    pub(crate) fn append(&mut self, rows: Vec<R>)
        requires { length rows.items ≤ self.old.room }
        ensures rows { self.new.rows ≡ self.old.rows ++ rows.items }
        ensures room { self.new.room + length rows.items ≡ self.old.room }
    {
        for row in rows {
            self.push(row);
        }
    }

    /// All rows, in order of adding. It takes no memory.
    pub(crate) fn rows(&self) -> &[Ranked<R>]
        ensures { rows_in result.now ≡ self.now.rows }
    {
        self.table.rows()
    }

    /// How many rows there are. It takes no memory.
    pub(crate) fn len(&self) -> u64
        ensures value { result ≡ length self.now.rows }
        ensures below { result < 2 ^ 63 }
    {
        self.table.rows().len() as u64
    }

    /// The row at a place. It takes no memory.
    pub(crate) fn row(&self, place: u64) -> Option<&R>
        ensures { option_map (λ row. row.now) result ≡ slice_get self.now.rows place }
    {
        match self.table.rows().get(place as usize) {
            Some(ranked) => Some(&ranked.row),
            None => None,
        }
    }

    /// The row of a rank among those of an account. It takes no memory.
    pub(crate) fn nth(&self, account: &Address, rank: u64) -> Option<&R>
        ensures { option_map (λ row. row.now) result
            ≡ slice_get (own_rows R.owner_of account.now self.now.rows) rank }
    {
        match self.find(account, rank) {
            Some(ranked) => Some(&ranked.row),
            None => None,
        }
    }

    /// The row of a rank among those of an account, with its place. It takes no memory.
    pub(crate) fn find(&self, account: &Address, rank: u64) -> Option<&Ranked<R>>
        ensures { option_map (λ ranked. placed_row ranked.now) result
            ≡ slice_get (own_numbered R.owner_of account.now 0 self.now.rows) rank }
    {
        self.table.find(&OfRank { account, rank })
    }

    /// How many rows are an account's. It takes no memory.
    pub(crate) fn count(&self, account: &Address) -> u64
        ensures value { result ≡ length (own_rows R.owner_of account.now self.now.rows) }
        ensures below { result < 2 ^ 63 }
    {
        let all = self.len();
        match self.last(account) {
            Some(tally) => tally.rows,
            None => self.count_between(account, 0, all),
        }
    }

    /// How many rows an account has and how many are counted, as its last row tells. None where that isn't found at
    /// once, since the account has no row or another one has its number.
    fn last(&self, account: &Address) -> Option<Tally>
        ensures { IfSome result (IsTallyOf R.owner_of R.counts_in account.now self.now.rows) }
    {
        let place = self.table.last(number_of_rank(account, 0))?;
        let ranked = self.table.rows().get(place)?;
        if !ranked.is_of(account) {
            return None;
        }
        let rows = ranked.rank.checked_add(1)?;
        Some(Tally {
            rows,
            counted: ranked.counted,
        })
    }

    /// How many rows are an account's, where that is known to be between two numbers.
    fn count_between(&self, account: &Address, low: u64, high: u64) -> u64
        requires low { low ≤ length (own_rows R.owner_of account.now self.now.rows) }
        requires high { length (own_rows R.owner_of account.now self.now.rows) ≤ high }
        ensures { result ≡ length (own_rows R.owner_of account.now self.now.rows) }
    {
        if low >= high {
            return low;
        }
        let middle = low + (high - low) / 2;
        if self.nth(account, middle).is_some() {
            return self.count_between(account, middle + 1, high);
        }
        self.count_between(account, low, middle)
    }

    /// How many rows of an account are counted. It takes no memory.
    pub(crate) fn counted(&self, account: &Address) -> u64
        ensures value { result ≡ counted_of R.owner_of R.counts_in account.now self.now.rows }
        ensures below { result < 2 ^ 63 }
    {
        let count = self.count(account);
        match self.last(account) {
            Some(tally) => tally.counted,
            None => self.counted_among(account, count),
        }
    }

    /// How many rows of an account are counted, which has so many.
    fn counted_among(&self, account: &Address, count: u64) -> u64
        requires { count ≡ length (own_rows R.owner_of account.now self.now.rows) }
        ensures { result ≡ counted_of R.owner_of R.counts_in account.now self.now.rows }
    {
        if count == 0 {
            return 0;
        }
        match self.table.find(&OfRank {
            account,
            rank: count - 1,
        }) {
            Some(ranked) => ranked.counted,
            None => 0,
        }
    }

    /// Where a row stands behind all others.
    fn rank_of(&self, row: &R) -> Rank
        ensures { IsRankOf R.owner_of R.counts_in self.now.rows (record {
          row = row.now;
          place = result.place;
          rank = result.rank;
          counted = result.counted;
        }) }
    {
        let place = self.len();
        let Some(account) = row.owner() else {
            return Rank {
                place,
                rank: 0,
                counted: 0,
            };
        };
        let rank = self.count(account);
        let counted = self.counted(account) + one_if(row.counts());
        Rank {
            place,
            rank,
            counted,
        }
    }
}

fn one_if(test: bool) -> u64
    ensures { result ≡ (if test then 1 else 0) }
{
    if test {
        return 1;
    }
    0
}
