ghost use Rattle.std.specs.Prelude.{◌≡◌, ℕ, [], List, length};
ghost use Rattle.std.specs.Option.{option_map};
ghost use Rattle.pec_directory.specs.Directory.{Kept};
ghost use Rattle.pec_records.specs.Entry.{entry_text};
ghost use Rattle.pec_ledger.specs.OfDirectory.{IsOf};
ghost use Rattle.pec_ledger.specs.Steps.{half};
ghost use Rattle.pec_ledger.specs.Trade.{Trade};
ghost use Rattle.pec_plays.specs.Turns.{last_of};
ghost use Rattle.pec_seal.specs.Seals.{Seals};
ghost use Rattle.pec_provider.specs.Provider.{Runs};

use pec_chronicle::Chronicle;
use pec_shelf::Shelf;
use pec_types::{Letter, Moment, Text8};
use std::marker::Model;

/// One provider over its disk.
pub struct Provider<D> {
    pub(crate) chronicle: Chronicle<D>,
    pub(crate) shelf: Shelf,
    /// The answers that it owes in this turn, in the order in which they arose.
    pub(crate) owed: Vec<Letter>,
}

impl<D> Model for Provider<D> {
    ghost use Rattle.std.specs.Prelude.{◌-◌, ◌<◌, vec_capacity, vec_len};
    ghost use Rattle.pec_types.specs.declared.moments.TheConstants.{END_OF_TIME};
    ghost use Rattle.pec_provider.specs.Provider.{ProviderState};

    ghost Value = { ProviderState D };

    ghost view = { λ provider. record {
      chronicle = provider.chronicle;
      shelf = provider.shelf;
      owed = provider.owed.items;
      places = vec_capacity provider.owed - vec_len provider.owed;
    } };

    ghost invariant = { λ provider. provider.shelf.half.last < END_OF_TIME };
}

// Written out, so that to drop a provider is one call, and not the drops of all that it has wherever one is dropped.
impl<D: Drop> Drop for Provider<D> {
    fn drop(self) {
        let Provider {
            chronicle: _,
            shelf: _,
            owed: _,
        } = self;
    }
}

/// Its figures, also while it is down. None of these takes memory.
impl<D> Provider<D> {
    /// How many entries its journal has.
    pub fn entries(&self) -> u64
        ensures { (kept : List Kept) (seals : Seals) (me : ℕ) (trade : Trade) → Runs kept seals me self.now → IsOf kept trade
            → result ≡ length self.now.chronicle.entries }
    {
        self.shelf.entries()
    }

    /// The greatest moment of an entry.
    pub fn last(&self) -> Moment
        ensures { (kept : List Kept) (seals : Seals) (me : ℕ) (trade : Trade) → Runs kept seals me self.now → IsOf kept trade
            → result ≡ last_of trade me self.now.chronicle.entries }
    {
        match Moment::new(self.shelf.last()) {
            Some(moment) => moment,
            None => unreachable!(),
        }
    }

    /// How many messages were submitted to it, accepted or not.
    pub fn messages(&self) -> u64
        ensures { (kept : List Kept) (seals : Seals) (me : ℕ) (trade : Trade) → Runs kept seals me self.now → IsOf kept trade
            → result ≡ length (half trade me self.now.chronicle.entries).messages }
    {
        self.shelf.submitted()
    }

    /// Where its journal ends, in bytes.
    pub fn fill(&self) -> u64
        ensures { (kept : List Kept) (seals : Seals) (me : ℕ) (trade : Trade) → Runs kept seals me self.now → IsOf kept trade
            → result ≡ (half trade me self.now.chronicle.entries).end }
    {
        self.shelf.end()
    }

    /// Whether it is down: a call answered a fault of its disk, or it crashed.
    pub fn is_down(&self) -> bool
        ensures { result ≡ self.now.chronicle.down }
    {
        self.chronicle.is_down()
    }

    /// Forgets the answers that it owes.
    pub fn end_turn(&mut self)
        ensures { self.new ≡ record self.old { owed = []; places = self.new.places } }
    {
        self.owed.clear();
    }

    /// Its disk, and the bytes of the entry whose append answered a fault of the disk.
    pub fn into_parts(self) -> (D, Option<Text8>)
        ensures disk { result.0 ≡ self.chronicle.disk }
        ensures interrupted { result.1 ≡ option_map entry_text self.chronicle.interrupted }
    {
        let (chronicle, _, _) = self.parts();
        chronicle.into_parts()
    }

    // All that it has.
    pub(crate) fn parts(self) -> (Chronicle<D>, Shelf, Vec<Letter>)
        ensures { (result.0 ≡ self.chronicle) × (result.1 ≡ self.shelf) × (result.2.items ≡ self.owed) }
    {
        let Provider {
            chronicle,
            shelf,
            owed,
        } = self;
        (chronicle, shelf, owed)
    }
}
