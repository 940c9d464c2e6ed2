//! What a copier waits for.

ghost use Rattle.std.specs.Prelude.{◌≡◌, Some};
ghost use Rattle.cbor_copier.specs.Snapshots.{phase_in};

use ciborium_ll_text::state::State;

/// What a copier waits for.
#[derive(Clone, Copy)]
pub(crate) enum Phase {
    /// A title, or the rest of a title.
    Title,
    /// This many bytes of the body of a byte string.
    Bytes(usize),
    /// This many bytes of the body of a text whose characters have led to this state.
    Text(usize, State),
    /// Nothing: all elements have come.
    Ended,
    /// Nothing: there is a fault at this offset.
    Faulted(usize),
}

impl Phase {
    /// Returns the number of the kind, how many bytes are due or the place of a fault, and the number of a text's
    /// state.
    #[inline(always)]
    pub(crate) fn numbers(self) -> (u8, usize, u8)
        ensures { phase_in result.0 result.1 result.2 ≡ Some self }
    {
        match self {
            Phase::Title => (1, 0, 0),
            Phase::Bytes(left) => (2, left, 0),
            Phase::Text(left, state) => (3, left, state.number()),
            Phase::Ended => (4, 0, 0),
            Phase::Faulted(place) => (5, place, 0),
        }
    }

    /// Returns the phase with these numbers, if there is one.
    pub(crate) fn of(kind: u8, number: usize, text: u8) -> Option<Phase>
        ensures { result ≡ phase_in kind number text }
    {
        match kind {
            1 => Some(Phase::Title),
            2 => Some(Phase::Bytes(number)),
            3 => Some(Phase::Text(number, State::of_number(text)?)),
            4 => Some(Phase::Ended),
            5 => Some(Phase::Faulted(number)),
            _ => None,
        }
    }
}
