ghost use Rattle.std.specs.Prelude.{◌≡◌, ◌==◌, ◌&&◌};
ghost use Rattle.pec_ledger.specs.Half.{Charge, Fate, Known, Mark, Taken};
ghost use Rattle.pec_ledger.specs.Lookups.{is_notice, is_warning};
ghost use Rattle.pec_ledger.specs.Pairs.{Pair, pair_of, same_id, same_pair};
ghost use Rattle.pec_shelf.specs.Keys.{number_of_charge, number_of_id, number_of_pair, number_of_rank};
ghost use Rattle.pec_shelf.specs.KeyLaws.{of_charge, of_id, of_pair, of_second};

use crate::rows::{AckedRow, ChargeRow, FateRow, KnownRow, MarkRow, TakenRow};
use pec_places::{Numbered, Sought};
use pec_types::{Address, MESSAGES, MsgId};
use std::hash::{DefaultHasher, Hasher};

/// An id that is looked for.
#[derive(Clone, Copy)]
pub(crate) struct OfId {
    pub(crate) id: MsgId,
}

/// A message that is looked for, and a provider that may have taken charge of it.
#[derive(Clone, Copy)]
pub(crate) struct OfCharge {
    pub(crate) id: MsgId,
    pub(crate) by: u32,
}

/// A pair that is looked for.
#[derive(Clone, Copy)]
pub(crate) struct OfPair<'a> {
    pub(crate) id: MsgId,
    pub(crate) recipient: &'a Address,
}

/// A pair whose warning is looked for.
#[derive(Clone, Copy)]
pub(crate) struct Warned<'a> {
    pub(crate) id: MsgId,
    pub(crate) recipient: &'a Address,
}

/// A pair whose notice is looked for.
#[derive(Clone, Copy)]
pub(crate) struct Noticed<'a> {
    pub(crate) id: MsgId,
    pub(crate) recipient: &'a Address,
}

#[tactic(auto, unfolding(crate::specs::Keys::number_of_id))]
fn number_of_id(id: MsgId) -> u64
    ensures { result ≡ number_of_id id }
{
    id.provider as u64 * MESSAGES + id.number
}

#[tactic(auto, unfolding(crate::specs::Keys::number_of_charge))]
fn number_of_charge(id: MsgId, by: u32) -> u64
    ensures { result ≡ number_of_charge id by }
{
    id.number * 4_294_967_296 + by as u64
}

#[tactic(auto, unfolding(crate::specs::Keys::number_of_pair))]
fn number_of_pair(id: MsgId, recipient: &Address) -> u64
    ensures { result ≡ number_of_pair (pair_of id recipient.now) }
{
    let mut hasher = DefaultHasher::new();
    hasher.write_u64(number_of_id(id));
    hasher.write(recipient.bytes());
    hasher.finish()
}

#[tactic(auto, unfolding(crate::specs::Keys::number_of_rank))]
pub(crate) fn number_of_rank(account: &Address, rank: u64) -> u64
    ensures { result ≡ number_of_rank account.now rank }
{
    let mut hasher = DefaultHasher::new();
    hasher.write_u64(rank);
    hasher.write(account.bytes());
    hasher.finish()
}

impl Numbered for TakenRow {
    ghost number_of = { λ (row : Taken). number_of_id row.id };

    fn number(&self) -> u64 {
        number_of_id(self.id)
    }
}

impl Numbered for ChargeRow {
    ghost number_of = { λ (row : Charge). number_of_charge row.id row.by };

    fn number(&self) -> u64 {
        number_of_charge(self.id, self.by)
    }
}

impl Numbered for MarkRow {
    ghost number_of = { λ (row : Mark). number_of_pair row.pair };

    fn number(&self) -> u64 {
        number_of_pair(self.id, &self.recipient)
    }
}

impl Numbered for KnownRow {
    ghost number_of = { λ (row : Known). number_of_pair row.pair };

    fn number(&self) -> u64 {
        number_of_pair(self.id, &self.recipient)
    }
}

impl Numbered for FateRow {
    ghost number_of = { λ (row : Fate). number_of_pair row.pair };

    fn number(&self) -> u64 {
        number_of_pair(self.id, &self.recipient)
    }
}

impl Numbered for AckedRow {
    ghost number_of = { λ (row : Pair). number_of_pair row };

    fn number(&self) -> u64 {
        number_of_pair(self.id, &self.recipient)
    }
}

impl Sought<TakenRow> for OfId {
    ghost sought = { λ key. number_of_id key.id };

    ghost finds = { λ key (row : Taken). same_id key.id row.id };

    ghost agrees = { λ key row same. of_id key.id row.id same };

    fn number(&self) -> u64 {
        number_of_id(self.id)
    }

    fn finds(&self, row: &TakenRow) -> bool {
        row.is_of(self.id)
    }
}

impl Sought<ChargeRow> for OfCharge {
    ghost sought = { λ key. number_of_charge key.id key.by };

    ghost finds = { λ key (row : Charge). same_id key.id row.id && (key.by == row.by) };

    ghost agrees = { λ key row same. of_charge key.id row.id key.by row.by same };

    fn number(&self) -> u64 {
        number_of_charge(self.id, self.by)
    }

    fn finds(&self, row: &ChargeRow) -> bool {
        row.is_of(self.id, self.by)
    }
}

impl Sought<KnownRow> for OfPair<'_> {
    ghost sought = { λ key. number_of_pair (pair_of key.id key.recipient.now) };

    ghost finds = { λ key (row : Known). same_pair (pair_of key.id key.recipient.now) row.pair };

    ghost agrees = { λ key row same. of_pair (pair_of key.id key.recipient.now) row.pair same };

    fn number(&self) -> u64 {
        number_of_pair(self.id, self.recipient)
    }

    fn finds(&self, row: &KnownRow) -> bool {
        row.is_of(self.id, self.recipient)
    }
}

impl Sought<FateRow> for OfPair<'_> {
    ghost sought = { λ key. number_of_pair (pair_of key.id key.recipient.now) };

    ghost finds = { λ key (row : Fate). same_pair (pair_of key.id key.recipient.now) row.pair };

    ghost agrees = { λ key row same. of_pair (pair_of key.id key.recipient.now) row.pair same };

    fn number(&self) -> u64 {
        number_of_pair(self.id, self.recipient)
    }

    fn finds(&self, row: &FateRow) -> bool {
        row.is_of(self.id, self.recipient)
    }
}

impl Sought<AckedRow> for OfPair<'_> {
    ghost sought = { λ key. number_of_pair (pair_of key.id key.recipient.now) };

    ghost finds = { λ key (row : Pair). same_pair (pair_of key.id key.recipient.now) row };

    ghost agrees = { λ key row same. of_pair (pair_of key.id key.recipient.now) row same };

    fn number(&self) -> u64 {
        number_of_pair(self.id, self.recipient)
    }

    fn finds(&self, row: &AckedRow) -> bool {
        row.is_of(self.id, self.recipient)
    }
}

impl Sought<MarkRow> for Warned<'_> {
    ghost sought = { λ key. number_of_pair (pair_of key.id key.recipient.now) };

    ghost finds = { λ key (row : Mark). is_warning row.due && same_pair (pair_of key.id key.recipient.now) row.pair };

    ghost agrees = { λ key row same. of_second (is_warning row.due) (pair_of key.id key.recipient.now) row.pair same };

    fn number(&self) -> u64 {
        number_of_pair(self.id, self.recipient)
    }

    fn finds(&self, row: &MarkRow) -> bool {
        row.warns_of(self.id, self.recipient)
    }
}

impl Sought<MarkRow> for Noticed<'_> {
    ghost sought = { λ key. number_of_pair (pair_of key.id key.recipient.now) };

    ghost finds = { λ key (row : Mark). is_notice row.due && same_pair (pair_of key.id key.recipient.now) row.pair };

    ghost agrees = { λ key row same. of_second (is_notice row.due) (pair_of key.id key.recipient.now) row.pair same };

    fn number(&self) -> u64 {
        number_of_pair(self.id, self.recipient)
    }

    fn finds(&self, row: &MarkRow) -> bool {
        row.notes(self.id, self.recipient)
    }
}
