//! The answers of a checker.

use crate::phase::Fault;

/// How far an item has come.
#[derive(Clone, Copy, Debug, PartialEq, Eq)]
pub enum Progress {
    /// The item isn't whole: at least this many more bytes are due, for the rest of the current title or body. Some
    /// bytes make the item whole, and all that do are at least this many.
    More(usize),
    /// The item has ended, and has this many bytes. It is nested to the depth at most, and for a strict checker it is
    /// in its shortest spelling.
    Ended(usize),
    /// No item begins as the bytes so far do. This answer comes with the first byte that makes this true.
    Fault(Fault),
    /// `usize::MAX` bytes came, and the item goes on. The checker takes no byte after these.
    TooLong,
}

/// The answer to a piece.
#[derive(Clone, Copy, Debug, PartialEq, Eq)]
pub struct Feed {
    /// How many bytes of the piece the checker took.
    pub taken: usize,
    /// How far the item has come.
    pub progress: Progress,
}

/// How an item stands if no more bytes come.
#[derive(Clone, Copy, Debug, PartialEq, Eq)]
pub enum End {
    /// No byte came, or the item has ended.
    Between,
    /// The item is cut off: at least this many more bytes were due.
    Short(usize),
    /// No item begins as the bytes so far do.
    Fault(Fault),
}
