//! The role of a title within an item.

ghost use Rattle.std.specs.Prelude.{◌≡◌};
ghost use Rattle.ciborium_ll_grammar.specs.Title.{IsTitle};
ghost use Rattle.ciborium_ll_grammar.specs.Parts.{IsParts, title_bytes};
ghost use Rattle.ciborium_ll_grammar.specs.Starts.{start_of};

use crate::hdr::{Header, Minor, Title};

/// The role of a title within an item (RFC 7049, 2.1 to 2.4).
#[derive(Clone, Copy)]
pub enum Start {
    /// A number, a float or a simple value, which is an item by itself.
    Value,
    /// A byte string of this many bytes, or of indefinite length.
    Bytes(Option<usize>),
    /// A text string of this many bytes, or of indefinite length.
    Text(Option<usize>),
    /// A tag, an array or a map with this header. Items follow it.
    Nest(Header),
    /// The end of an indefinite form.
    Break,
}

impl Title {
    /// Returns the role of the title, whose meaning is `header`.
    #[inline(always)]
    pub fn start(self, header: Header) -> Start
        requires parts { IsParts self }
        requires title { IsTitle (title_bytes self) header }
        ensures { result ≡ start_of header }
    {
        match self.major {
            2 => Start::Bytes(self.minor.length()),
            3 => Start::Text(self.minor.length()),
            4 => Start::Nest(Header::Array(self.minor.length())),
            5 => Start::Nest(Header::Map(self.minor.length())),
            6 => match self.minor.number() {
                Some(number) => Start::Nest(Header::Tag(number)),
                None => unreachable!(),
            },
            7 => match self.minor {
                Minor::Open => Start::Break,
                _ => Start::Value,
            },
            _ => Start::Value,
        }
    }
}
