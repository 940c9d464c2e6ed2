//! The answers of a copier.

/// How far a copy has come.
#[derive(Clone, Copy, Debug, PartialEq, Eq)]
pub enum Progress {
    /// The elements aren't whole: more bytes are due.
    More,
    /// There are bytes to write, and no room for them.
    Room,
    /// That many elements have come, and they are written.
    Ended,
    /// No list of that many elements begins as the bytes so far do. At this offset stands no title, or a title that its
    /// string may not contain. If a text's body is not UTF-8, the offset is the place that `Error::Syntax` of
    /// `ciborium_ll` names.
    Syntax(usize),
    /// The elements are longer than a `usize` counts.
    TooLong,
}

/// The answer to a piece.
#[derive(Clone, Copy, Debug, PartialEq, Eq)]
pub struct Copied {
    /// How many bytes of the piece the copier took.
    pub taken: usize,
    /// How many bytes it wrote.
    pub written: usize,
    /// How far the copy has come.
    pub progress: Progress,
}

/// How a copy stands if no more bytes come.
#[derive(Clone, Copy, Debug, PartialEq, Eq)]
pub enum End {
    /// That many elements have come, and they are written.
    Ended,
    /// The elements are cut off: more bytes were due, and all that can be written is written.
    Short,
    /// Bytes are still to be written. A call without a piece writes them.
    Room,
    /// No list of that many elements begins as the bytes so far do, with the offset of [`Progress::Syntax`].
    Syntax(usize),
}
