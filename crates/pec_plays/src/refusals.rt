ghost use Rattle.std.specs.Prelude.{◌≡◌, ◌≢◌, ℕ, ◌<◌, ◌≤◌, true, false, List, IsTrue, map, Some, None};
ghost use Rattle.pec_types.specs.Bytes.{Bytes, Path};
ghost use Rattle.pec_types.specs.declared.messages.TheConstants.{MESSAGES};
ghost use Rattle.pec_types.specs.declared.turns.ProviderFault.TheVariants as faults;
ghost use Rattle.pec_records.specs.declared.entries.Entry.TheVariants as entries;
ghost use Rattle.pec_ledger.specs.Network.{is_up, journal_at, Site};
ghost use Rattle.pec_ledger.specs.Pairs.{id_of};
ghost use Rattle.pec_ledger.specs.Steps.{half, marks_by};
ghost use Rattle.pec_ledger.specs.Trade.{Trade};
ghost use Rattle.pec_plays.specs.Commands.{account_home, answers, appended, Archive, Archived, entry_by, finds_at, items_at, Luck, Marks, messages_at, played, Refuses, Submit, Submits, Tick, screened_cause, told_by, told_mark, Upgrade, Upgraded, version_at};
ghost use Rattle.pec_plays.specs.Refusals.{HasRoomFor, HoldsItem, IsAtWork, TakesMessages};
ghost use Rattle.pec_plays.specs.Steps.{has_no_room};
ghost use Rattle.pec_plays.specs.Turns.{last_of};

/// A submission is refused for the first of these causes: the sender is no account of the provider, the provider is
/// down, the moment is before the greatest of its journal, it has as many messages as it may, or its journal has no
/// room for the entry. Else the entry is appended, whose append may fail.
pub fn submissions_are_refused_in_order()
    ensures no_account { (trade : Trade) (luck : Luck) (sites : List Site) (provider now : ℕ) (sender : Bytes) (path : Path) (message : Bytes)
        → trade.is_account provider sender ≡ false
        → played trade luck sites (Submit provider now sender path message) ≡ answers sites (Refuses faults.NoAccount) }
    ensures down { (trade : Trade) (luck : Luck) (sites : List Site) (provider now : ℕ) (sender : Bytes) (path : Path) (message : Bytes)
        → IsTrue (trade.is_account provider sender) → is_up sites provider ≡ false
        → played trade luck sites (Submit provider now sender path message) ≡ answers sites (Refuses faults.Down) }
    ensures clock_back { (trade : Trade) (luck : Luck) (sites : List Site) (provider now : ℕ) (sender : Bytes) (path : Path) (message : Bytes)
        → IsTrue (trade.is_account provider sender) → is_up sites provider ≡ true → now < last_of trade provider (journal_at sites provider)
        → played trade luck sites (Submit provider now sender path message)
        ≡ answers sites (Refuses (faults.ClockBack (last_of trade provider (journal_at sites provider)))) }
    ensures full { (trade : Trade) (luck : Luck) (sites : List Site) (provider now : ℕ) (sender : Bytes) (path : Path) (message : Bytes)
        → IsTrue (trade.is_account provider sender) → IsAtWork trade sites provider now → MESSAGES ≤ messages_at trade sites provider
        → played trade luck sites (Submit provider now sender path message) ≡ answers sites (Refuses faults.Full) }
    ensures journal_full { (trade : Trade) (luck : Luck) (sites : List Site) (provider now : ℕ) (sender : Bytes) (path : Path) (message : Bytes)
        → TakesMessages trade sites provider now sender
        → has_no_room trade provider (journal_at sites provider) (entry_by (screened_cause (finds_at sites provider message) (trade.cause provider sender path message)) now sender path message) ≡ true
        → played trade luck sites (Submit provider now sender path message) ≡ answers sites (Refuses faults.JournalFull) }
    ensures done { (trade : Trade) (luck : Luck) (sites : List Site) (provider now : ℕ) (sender : Bytes) (path : Path) (message : Bytes)
        → TakesMessages trade sites provider now sender
        → HasRoomFor trade sites provider now (entry_by (screened_cause (finds_at sites provider message) (trade.cause provider sender path message)) now sender path message)
        → played trade luck sites (Submit provider now sender path message)
        ≡ appended luck.fails sites provider (entry_by (screened_cause (finds_at sites provider message) (trade.cause provider sender path message)) now sender path message)
        (Submits (told_by (screened_cause (finds_at sites provider message) (trade.cause provider sender path message)) (id_of provider (messages_at trade sites provider)))) }
{}

/// A clock call is refused for the first of these causes: the provider is down, the moment is before the greatest of
/// its journal, or its journal has no room for the entry. Else the entry is appended, whose append may fail.
pub fn clock_calls_are_refused_in_order()
    ensures down { (trade : Trade) (luck : Luck) (sites : List Site) (provider now : ℕ) → is_up sites provider ≡ false
        → played trade luck sites (Tick provider now) ≡ answers sites (Refuses faults.Down) }
    ensures clock_back { (trade : Trade) (luck : Luck) (sites : List Site) (provider now : ℕ)
        → is_up sites provider ≡ true → now < last_of trade provider (journal_at sites provider)
        → played trade luck sites (Tick provider now)
        ≡ answers sites (Refuses (faults.ClockBack (last_of trade provider (journal_at sites provider)))) }
    ensures journal_full { (trade : Trade) (luck : Luck) (sites : List Site) (provider now : ℕ) → IsAtWork trade sites provider now
        → has_no_room trade provider (journal_at sites provider) (entries.Ticked now) ≡ true
        → played trade luck sites (Tick provider now) ≡ answers sites (Refuses faults.JournalFull) }
    ensures done { (trade : Trade) (luck : Luck) (sites : List Site) (provider now : ℕ) → IsAtWork trade sites provider now
        → HasRoomFor trade sites provider now (entries.Ticked now)
        → played trade luck sites (Tick provider now)
        ≡ appended luck.fails sites provider (entries.Ticked now)
        (Marks (map told_mark (marks_by trade provider (half trade provider (journal_at sites provider)) (entries.Ticked now)))) }
{}

/// Archiving an item is refused for the first of these causes: the address is no account, its provider is down, the
/// moment is before the greatest of the journal, the mailbox has no item at the place, the journal isn't of version 2,
/// or it has no room for the entry. Else the entry is appended, whose append may fail.
pub fn archiving_is_refused_in_order()
    ensures no_account { (trade : Trade) (luck : Luck) (sites : List Site) (now : ℕ) (account : Bytes) (place : ℕ)
        → account_home trade account (trade.home account) ≡ None
        → played trade luck sites (Archive account now place) ≡ answers sites (Refuses faults.NoAccount) }
    ensures down { (trade : Trade) (luck : Luck) (sites : List Site) (provider now : ℕ) (account : Bytes) (place : ℕ)
        → account_home trade account (trade.home account) ≡ Some provider → is_up sites provider ≡ false
        → played trade luck sites (Archive account now place) ≡ answers sites (Refuses faults.Down) }
    ensures clock_back { (trade : Trade) (luck : Luck) (sites : List Site) (provider now : ℕ) (account : Bytes) (place : ℕ)
        → account_home trade account (trade.home account) ≡ Some provider → is_up sites provider ≡ true
        → now < last_of trade provider (journal_at sites provider)
        → played trade luck sites (Archive account now place)
        ≡ answers sites (Refuses (faults.ClockBack (last_of trade provider (journal_at sites provider)))) }
    ensures no_item { (trade : Trade) (luck : Luck) (sites : List Site) (provider now : ℕ) (account : Bytes) (place : ℕ)
        → account_home trade account (trade.home account) ≡ Some provider → IsAtWork trade sites provider now
        → items_at trade sites provider account ≤ place
        → played trade luck sites (Archive account now place) ≡ answers sites (Refuses faults.NoItem) }
    ensures old_journal { (trade : Trade) (luck : Luck) (sites : List Site) (provider now : ℕ) (account : Bytes) (place : ℕ)
        → HoldsItem trade sites provider now account place → version_at trade sites provider ≢ 2
        → played trade luck sites (Archive account now place) ≡ answers sites (Refuses faults.OldJournal) }
    ensures journal_full { (trade : Trade) (luck : Luck) (sites : List Site) (provider now : ℕ) (account : Bytes) (place : ℕ)
        → HoldsItem trade sites provider now account place → version_at trade sites provider ≡ 2
        → has_no_room trade provider (journal_at sites provider) (entries.Archived now account place) ≡ true
        → played trade luck sites (Archive account now place) ≡ answers sites (Refuses faults.JournalFull) }
    ensures done { (trade : Trade) (luck : Luck) (sites : List Site) (provider now : ℕ) (account : Bytes) (place : ℕ)
        → HoldsItem trade sites provider now account place → version_at trade sites provider ≡ 2
        → HasRoomFor trade sites provider now (entries.Archived now account place)
        → played trade luck sites (Archive account now place)
        ≡ appended luck.fails sites provider (entries.Archived now account place) Archived }
{}

/// Raising a journal to version 2 is refused for the first of these causes: the provider is down, the moment is before
/// the greatest of its journal, this isn't of version 1, or it has no room for the entry. Else the entry is appended,
/// whose append may fail.
pub fn upgrades_are_refused_in_order()
    ensures down { (trade : Trade) (luck : Luck) (sites : List Site) (provider now : ℕ) → is_up sites provider ≡ false
        → played trade luck sites (Upgrade provider now) ≡ answers sites (Refuses faults.Down) }
    ensures clock_back { (trade : Trade) (luck : Luck) (sites : List Site) (provider now : ℕ)
        → is_up sites provider ≡ true → now < last_of trade provider (journal_at sites provider)
        → played trade luck sites (Upgrade provider now)
        ≡ answers sites (Refuses (faults.ClockBack (last_of trade provider (journal_at sites provider)))) }
    ensures no_need { (trade : Trade) (luck : Luck) (sites : List Site) (provider now : ℕ) → IsAtWork trade sites provider now
        → version_at trade sites provider ≢ 1
        → played trade luck sites (Upgrade provider now) ≡ answers sites (Refuses faults.NoNeed) }
    ensures journal_full { (trade : Trade) (luck : Luck) (sites : List Site) (provider now : ℕ) → IsAtWork trade sites provider now
        → version_at trade sites provider ≡ 1 → has_no_room trade provider (journal_at sites provider) (entries.Upgraded now) ≡ true
        → played trade luck sites (Upgrade provider now) ≡ answers sites (Refuses faults.JournalFull) }
    ensures done { (trade : Trade) (luck : Luck) (sites : List Site) (provider now : ℕ) → IsAtWork trade sites provider now
        → version_at trade sites provider ≡ 1 → HasRoomFor trade sites provider now (entries.Upgraded now)
        → played trade luck sites (Upgrade provider now) ≡ appended luck.fails sites provider (entries.Upgraded now) Upgraded }
{}
