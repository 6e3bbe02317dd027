ghost use Rattle.std.specs.Prelude.{◌<◌, ◌≤◌};

/// How many bytes a head may have. This project's profile.
pub const HEAD_BYTES: u32 = 65_536;

/// How many lines may stand between a head's first line that isn't empty and the empty line that ends it. This
/// project's profile.
pub const HEAD_LINES: u32 = 64;

/// Where in a head a reader stands, before the next byte.
#[derive(Clone, Copy)]
pub enum Stand {
    /// Where a line begins, and all lines before it are empty.
    Blank,
    /// The same, behind a CR.
    BlankReturn,
    /// In a line that isn't empty.
    InLine,
    /// Where a line begins, behind one that isn't empty.
    Begins,
    /// The same, behind a CR.
    BeginsReturn,
}

/// How far a head has come: where its reader stands, how many lines that aren't empty ended, and how many bytes came.
#[derive(Clone, Copy)]
pub struct Scan {
    pub stand: Stand,
    pub lines: u32,
    pub at: u32,
    ghost few: { lines ≤ at },
    ghost below: { at < 65536 },
}
