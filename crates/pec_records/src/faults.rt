/// Why bytes are no entry.
#[derive(Clone, Copy, Debug, PartialEq, Eq)]
pub enum EntryFault {
    /// The first byte with which no entry goes on, or the end of the bytes where they are the front of a longer entry.
    /// Bytes count from 0.
    Syntax(usize),
    NoMemory,
}
