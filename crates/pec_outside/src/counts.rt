ghost use Rattle.std.specs.Prelude.{ℕ, ◌<◌, ◌^◌};

/// An object of the outside, with its one count of faults: a connection that is read and written has a single one.
/// This project's profile.
pub trait Counted {
    // The count never falls, and stays at the greatest u64 once it is there.
    ghost faults: { Self → ℕ };

    // It is a u64.
    ghost counted: { (object : Self) → faults object < 2 ^ 64 };
}
