ghost use Rattle.std.specs.Prelude.{◌≡◌, length};

use crate::shelf::Shelf;

/// Its figures. None of these takes memory.
impl Shelf {
    /// How many entries were taken in.
    pub fn entries(&self) -> u64
        ensures { result ≡ self.now.half.entries }
    {
        self.entries
    }

    /// The version of their journal: 1, or 2 where an entry made it so; 0 before the first entry.
    pub fn version(&self) -> u64
        ensures { result ≡ self.now.half.version }
    {
        self.version
    }

    /// Where their journal ends, in bytes.
    pub fn end(&self) -> u64
        ensures { result ≡ self.now.half.end }
    {
        self.end
    }

    /// How many messages were submitted here, accepted or not.
    pub fn submitted(&self) -> u64
        ensures { result ≡ length self.now.half.messages }
    {
        self.messages().len()
    }
}
