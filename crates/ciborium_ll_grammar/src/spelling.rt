//! The titles that a reader takes.

ghost use Rattle.std.specs.Prelude.{◌≡◌};
ghost use Rattle.ciborium_ll_grammar.specs.Spellings.{is_shortest};

/// The titles that a decoder, a checker or a copier takes.
///
/// `01` and `18 01` are titles of the number 1. `Shortest` takes `01` alone.
#[derive(Clone, Copy, Debug, PartialEq, Eq)]
pub enum Spelling {
    /// Each title that is well-formed (RFC 7049, 2.1 to 2.3).
    Any,
    /// The shortest title of each header alone (RFC 7049, 3.9), no simple value from 24 to 31 (2.3), and no string of
    /// indefinite length within another string (2.2.2).
    Shortest,
}

impl Spelling {
    /// Returns `Shortest` if `strict` is true, and otherwise `Any`.
    pub fn shortest_if(strict: bool) -> Spelling
        ensures { is_shortest result ≡ strict }
    {
        if strict {
            Spelling::Shortest
        } else {
            Spelling::Any
        }
    }

    /// Tells if this is `Shortest`.
    pub fn is_shortest(self) -> bool
        ensures { result ≡ is_shortest self }
    {
        matches!(self, Spelling::Shortest)
    }
}
