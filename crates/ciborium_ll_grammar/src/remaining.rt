//! The items that are still due within a tag, an array or a map.

ghost use Rattle.std.specs.Prelude.{◌≡◌, ℕ, suc, false};
ghost use Rattle.ciborium_ll_grammar.specs.declared.hdr.Header.{Header as AnyHeader};
ghost use Rattle.ciborium_ll_grammar.specs.Remaining.{IsNest, IsRemaining, closes, contents, is_done, is_value, next};

use crate::hdr::Header;

/// The items that are still due within a tag, an array or a map. Pairs count as pairs, so no count is greater than the
/// header's.
#[derive(Clone, Copy)]
pub enum Remaining {
    /// This many items.
    Items(usize),
    /// This many pairs.
    Pairs(usize),
    /// The value of a pair, and then this many pairs.
    Value(usize),
    /// Items up to a break.
    OpenItems,
    /// Pairs up to a break.
    OpenPairs,
    /// The value of a pair, and then pairs up to a break.
    OpenValue,
}

impl Remaining {
    /// Returns the items that a header announces: no items, if it is not that of a tag, an array or a map.
    #[inline(always)]
    pub fn contents_of(header: Header) -> Remaining
        ensures { result ≡ contents header }
    {
        match header {
            Header::Tag(_) => Remaining::Items(1),
            Header::Array(Some(count)) => Remaining::Items(count),
            Header::Array(None) => Remaining::OpenItems,
            Header::Map(Some(count)) => Remaining::Pairs(count),
            Header::Map(None) => Remaining::OpenPairs,
            _ => Remaining::Items(0),
        }
    }

    /// Returns the items that a header of a tag, array or map announces.
    pub fn behind(header: Header) -> Remaining
        requires { IsNest header }
        ensures { IsRemaining header 0 result }
    {
        Remaining::contents_of(header)
    }

    /// Returns whether nothing is due.
    pub fn is_done(self) -> bool
        ensures { result ≡ is_done self }
    {
        matches!(self, Remaining::Items(0) | Remaining::Pairs(0))
    }

    /// Returns whether a break may stand in place of the next item.
    pub fn closes(self) -> bool
        ensures { result ≡ closes self }
    {
        matches!(self, Remaining::OpenItems | Remaining::OpenPairs)
    }

    /// Returns whether the next item is the value of a pair.
    pub fn is_value(self) -> bool
        ensures { result ≡ is_value self }
    {
        matches!(self, Remaining::Value(_) | Remaining::OpenValue)
    }

    /// Returns the items that are due after the next item, or `None` if nothing is due.
    #[inline(always)]
    pub fn next(self) -> Option<Remaining>
        ensures { result ≡ next self }
    {
        match self {
            Remaining::Items(0) | Remaining::Pairs(0) => None,
            Remaining::Items(count) => Some(Remaining::Items(count - 1)),
            Remaining::Pairs(count) => Some(Remaining::Value(count - 1)),
            Remaining::Value(count) => Some(Remaining::Pairs(count)),
            Remaining::OpenItems => Some(Remaining::OpenItems),
            Remaining::OpenPairs => Some(Remaining::OpenValue),
            Remaining::OpenValue => Some(Remaining::OpenPairs),
        }
    }

    /// Returns the items that are due after the next item.
    pub fn after_item(self) -> Remaining
        requires { is_done self ≡ false }
        ensures { (header : AnyHeader) (count : ℕ) → IsRemaining header count self
            → IsRemaining header (suc count) result }
    {
        let Some(after) = self.next() else {
            unreachable!();
        };
        after
    }
}
