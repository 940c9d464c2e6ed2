//! The answers of a parser.

ghost use Rattle.std.specs.Prelude.{◌≡◌};
ghost use Rattle.cbor_parser.specs.Events.{title_event};

use crate::few::Few;
use crate::strings::Within;
use ciborium_ll_grammar::hdr::Header;
use std::fmt;

/// What a parser found in the bytes that it took.
#[derive(Drop)]
pub enum Event {
    /// All bytes of the piece were taken, and a title or a body goes on. It lacks exactly this many bytes. Before the
    /// first byte of a title this is 1.
    Need(usize),
    /// The title of this header ended. A break within a string of indefinite length is a `Close`.
    Header {
        /// The meaning of the title.
        header: Header,
        /// The offset of the title's first byte, in bytes.
        offset: usize,
    },
    /// A break ended the innermost string of indefinite length.
    Close {
        /// The offset of the break, in bytes.
        offset: usize,
    },
    /// The bytes taken are the next part of the body of a byte string. A body without bytes has no part.
    Body {
        /// How many bytes the body still lacks: 0 for its last part.
        left: usize,
    },
    /// The next part of the body of a text: the bytes in `carried`, and then the bytes taken. It is whole characters.
    Text {
        /// The first bytes of the part, at most three: those of a character that an earlier piece began.
        carried: Few,
        /// How many bytes the body still lacks: 0 for its last part.
        left: usize,
    },
    /// At this offset stands no title that the parser takes, or a title that may not stand in its string. Or a text is
    /// not UTF-8, and the offset is the place that `Error::Syntax` of `ciborium_ll` names.
    Fault(usize),
    /// The piece would take the offset above `usize::MAX`, and no byte of it was taken.
    TooLong,
}

impl fmt::Debug for Event {
    fn fmt<W: fmt::Write>(&self, f: &mut fmt::Formatter<W>) -> fmt::Result {
        match self {
            Event::Need(due) => f.debug_tuple("Need").field(due).finish(),
            Event::Header { header, offset } => f
                .debug_struct("Header")
                .field("header", header)
                .field("offset", offset)
                .finish(),
            Event::Close { offset } => f.debug_struct("Close").field("offset", offset).finish(),
            Event::Body { left } => f.debug_struct("Body").field("left", left).finish(),
            Event::Text { carried, left } => f
                .debug_struct("Text")
                .field("carried", &carried.bytes())
                .field("left", left)
                .finish(),
            Event::Fault(place) => f.debug_tuple("Fault").field(place).finish(),
            Event::TooLong => f.write_str("TooLong"),
        }
    }
}

/// Returns the event of a title of this header at `offset`, within these strings.
pub(crate) fn title_event(within: Within, header: Header, offset: usize) -> Event
    ensures { result ≡ title_event within header offset }
{
    match (within, header) {
        (Within::Open(_, _), Header::Break) => Event::Close { offset },
        _ => Event::Header { header, offset },
    }
}

/// The answer to a piece.
#[derive(Debug, Drop)]
pub struct Pushed {
    /// How many bytes of the piece the parser took.
    pub taken: usize,
    /// What they are.
    pub event: Event,
}
