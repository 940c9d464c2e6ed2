//! The answers of a copier of items.

use cbor_checker::Fault;

/// How far the copy of an item has come.
#[derive(Clone, Copy, Debug, PartialEq, Eq)]
pub enum Progress {
    /// The item isn't whole: at least this many more bytes are due.
    More(usize),
    /// There are bytes to write, and no room for them.
    Room,
    /// The item has ended, and it is written. It has this many bytes.
    Ended(usize),
    /// No item begins as the bytes so far do.
    Fault(Fault),
    /// `usize::MAX` bytes came, and the item goes on. The copier takes no byte after these.
    TooLong,
}

/// The answer to a piece.
#[derive(Clone, Copy, Debug, PartialEq, Eq)]
pub struct Copied {
    /// How many bytes of the piece the copier took.
    pub taken: usize,
    /// How many bytes it wrote.
    pub written: usize,
    /// How far the copy has come.
    pub progress: Progress,
}

/// How a copy stands if no more bytes come.
#[derive(Clone, Copy, Debug, PartialEq, Eq)]
pub enum End {
    /// No byte came, or the item has ended and is written.
    Between,
    /// The item is cut off: at least this many more bytes were due. All that can be written is written.
    Short(usize),
    /// Bytes are still to be written. A call without a piece writes them.
    Room,
    /// No item begins as the bytes so far do.
    Fault(Fault),
}
