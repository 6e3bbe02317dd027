ghost use Rattle.std.specs.Prelude.{◌≡◌, ◌≤◌, ◌++◌, length};
ghost use Rattle.pec_types.specs.Bytes.{Bytes};
ghost use Rattle.pec_records.specs.Entry.{IsEntry, IsWithinLimits, longest_entry};
ghost use Rattle.pec_records.specs.declared.entries.Entry.{Entry};

use pec_types::{each_cause_is_one_of_all, lower_addresses_pass};

/// No bytes belong to two entries, also where more stands behind them, and no entry has two texts.
pub fn one_entry()
    ensures value { (e f : Entry) (s t a b : Bytes) → IsEntry e s → IsEntry f t → s ++ a ≡ t ++ b → (e ≡ f) × (a ≡ b) }
    ensures text { (e : Entry) (s t : Bytes) → IsEntry e s → IsEntry e t → s ≡ t }
{
    lower_addresses_pass();
    each_cause_is_one_of_all();
}

/// An entry within the program's limits has at most 67,108,864 bytes.
pub fn an_entry_within_the_limits_is_short()
    ensures { (e : Entry) (text : Bytes) → IsEntry e text → IsWithinLimits e → length text ≤ longest_entry }
{}
