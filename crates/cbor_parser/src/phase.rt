//! What a parser waits for.

ghost use Rattle.std.specs.Prelude.{◌≡◌, true};
ghost use Rattle.cbor_parser.specs.Phases.{bytes_left, has_left, phase_after, text_left, text_place};

use crate::strings::Within;
use ciborium_ll_grammar::hdr::Header;

/// What a parser waits for.
#[derive(Clone, Copy)]
pub(crate) enum Phase {
    /// A title, or the rest of a title.
    Title,
    /// This many bytes of the body of a byte string.
    Bytes(usize),
    /// This many bytes of the body of a text, and the place of its fault.
    Text(usize, usize),
    /// Nothing: there is a fault at this offset.
    Faulted(usize),
}

impl Within {
    /// Returns the place of the fault of a text whose title has this header, and stands from `start` to `end`.
    fn text_place(self, start: usize, end: usize, header: Header) -> usize
        ensures { result ≡ text_place self start end header }
    {
        match self {
            Within::Nothing => end.saturating_sub(header.title_len()),
            Within::Open(_, _) => start,
        }
    }
}

impl Phase {
    /// Returns what is due after a title of this header, which stands from `start` to `end` within these strings.
    pub(crate) fn after(within: Within, start: usize, end: usize, header: Header) -> Phase
        ensures is { result ≡ phase_after within start end header }
        ensures left { has_left result ≡ true }
    {
        match header {
            Header::Bytes(Some(len)) if len > 0 => Phase::Bytes(len),
            Header::Text(Some(len)) if len > 0 => {
                Phase::Text(len, within.text_place(start, end, header))
            }
            _ => Phase::Title,
        }
    }
    /// Returns what is due if this many bytes of the body of a byte string are left.
    pub(crate) fn bytes_left(left: usize) -> Phase
        ensures is { result ≡ bytes_left left }
        ensures left { has_left result ≡ true }
    {
        if left == 0 {
            Phase::Title
        } else {
            Phase::Bytes(left)
        }
    }

    /// Returns what is due if this many bytes of the body of a text are left, whose fault has this place.
    pub(crate) fn text_left(left: usize, place: usize) -> Phase
        ensures is { result ≡ text_left left place }
        ensures left { has_left result ≡ true }
    {
        if left == 0 {
            Phase::Title
        } else {
            Phase::Text(left, place)
        }
    }
}
