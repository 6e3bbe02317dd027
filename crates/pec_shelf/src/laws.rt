ghost use Rattle.std.specs.Prelude.{◌≡◌, ◌++◌, List};
ghost use Rattle.pec_directory.specs.Directory.{Kept};
ghost use Rattle.pec_ledger.specs.Half.{joined};
ghost use Rattle.pec_ledger.specs.OfDirectory.{IsOf};
ghost use Rattle.pec_ledger.specs.Steps.{step};
ghost use Rattle.pec_ledger.specs.Trade.{Trade};
ghost use Rattle.pec_records.specs.declared.entries.Entry.{Entry as SomeEntry};
ghost use Rattle.pec_types.specs.declared.places.Place.{Place};
ghost use Rattle.pec_shelf.specs.Prepared.{Goes, prepared};
ghost use Rattle.pec_shelf.specs.Seen.{IsFor, Seen};

/// What is said of every trade of a directory is said of something: each directory has one.
pub fn a_directory_has_a_trade()
    ensures { (kept : List Kept) → (trade : Trade) × IsOf kept trade }
{}

/// A shelf that takes in what an entry of a trade was prepared as has the half after the entry, and stays one of that
/// trade.
pub fn what_is_kept_goes_on()
    ensures half { (trade : Trade) (old new : Seen) (entry : SomeEntry) (place : Place)
        → Goes old new (prepared trade old.me old.half entry place) → new.half ≡ step trade old.me old.half entry }
    ensures homes { (trade : Trade) (old new : Seen) (entry : SomeEntry) (place : Place) → IsFor trade old
        → Goes old new (prepared trade old.me old.half entry place) → IsFor trade new }
{}
