//! What a checker waits for.

ghost use Rattle.std.specs.Prelude.{◌≡◌, Some};
ghost use Rattle.cbor_checker.specs.Snapshots.{phase_in};

use ciborium_ll_text::state::State;

/// Why no item begins with the bytes so far, whatever follows them. The number is an offset in bytes.
///
/// A list of bytes has at most one fault (`one_answer`). It is the fault of `skip_item` of `cbor_skip`, unless
/// `skip_item` ends short before it. The fault differs only for a nest that is too deep and has a longer title: a
/// strict checker names the nest. Laws of `cbor_checker_laws` say so.
#[derive(Clone, Copy, Debug, PartialEq, Eq)]
pub enum Fault {
    /// At this offset stands no title, or a title that its string may not contain. For a strict checker, it may also be
    /// a longer title, a simple value below 32 in two bytes, or an open string within a string.
    ///
    /// Or a text's body is not UTF-8, and the offset is the place that `Error::Syntax` of `ciborium_ll` names.
    Syntax(usize),
    /// At this offset a break stands in place of an item: outside of arrays and maps of indefinite length, or in place
    /// of a value in a map of indefinite length.
    Break(usize),
    /// At this offset the title of a tag, an array or a map stands deeper than the caller allowed.
    Deep(usize),
}

/// What a checker waits for.
#[derive(Clone, Copy)]
pub(crate) enum Phase {
    /// A title, or the rest of a title.
    Title,
    /// This many bytes of the body of a byte string.
    Bytes(usize),
    /// This many bytes of the body of a text whose characters have led to this state.
    Text(usize, State),
    /// Nothing: the item has ended.
    Ended,
    /// Nothing: no item begins as the bytes so far do.
    Faulted(Fault),
}

impl Phase {
    /// Returns the number of the kind, how many bytes are due or the place of a fault, and the number of a text's
    /// state.
    #[inline(always)]
    pub(crate) fn numbers(self) -> (u8, usize, u8)
        ensures { phase_in result.0 result.1 result.2 ≡ Some self }
    {
        match self {
            Phase::Title => (1, 0, 0),
            Phase::Bytes(left) => (2, left, 0),
            Phase::Text(left, state) => (3, left, state.number()),
            Phase::Ended => (4, 0, 0),
            Phase::Faulted(Fault::Syntax(place)) => (5, place, 0),
            Phase::Faulted(Fault::Break(place)) => (6, place, 0),
            Phase::Faulted(Fault::Deep(place)) => (7, place, 0),
        }
    }

    /// Returns the phase with these numbers, if there is one.
    pub(crate) fn of(kind: u8, number: usize, text: u8) -> Option<Phase>
        ensures { result ≡ phase_in kind number text }
    {
        match kind {
            1 => Some(Phase::Title),
            2 => Some(Phase::Bytes(number)),
            3 => Some(Phase::Text(number, State::of_number(text)?)),
            4 => Some(Phase::Ended),
            5 => Some(Phase::Faulted(Fault::Syntax(number))),
            6 => Some(Phase::Faulted(Fault::Break(number))),
            7 => Some(Phase::Faulted(Fault::Deep(number))),
            _ => None,
        }
    }
}
