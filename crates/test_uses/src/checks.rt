use std::process::Abort;

// Requires that a fact of these bytes holds.
pub fn holds_at(rt: &impl Abort, is_right: bool, bytes: &[u8]) {
    assert!(rt; is_right, "at {bytes:?}");
}

// How a call ends.
#[derive(Clone, Copy, PartialEq, Eq)]
pub enum End {
    Done,
    Syntax,
    Short,
    Full,
    NoArray,
    NoNumber,
    OutOfRange,
    NoText,
    TooLong,
    Unexpected,
    // The error of a map.
    MapSyntax,
    MapShort,
    MapBreak,
    MapDeep,
    // The end is one that no test expects.
    Other,
}

// Returns whether a call ends with this end, at this place.
pub fn ends_so((end, at): (End, usize), want: End, place: usize) -> bool {
    end == want && at == place
}
