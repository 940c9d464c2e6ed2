//! A parser as plain numbers.

ghost use Rattle.std.specs.Prelude.{◌≡◌, true, Some};
ghost use Rattle.ciborium_ll_text.specs.Text.{IsStuck};
ghost use Rattle.cbor_parser.specs.Phases.{carried_of, has_left, most_front};
ghost use Rattle.cbor_parser.specs.Saving.{IsState, phase_in, spelling_in};

use crate::few::Few;
use crate::phase::Phase;
use crate::strings::Within;
use ciborium_ll_grammar::hdr::table::row_of;
use ciborium_ll_grammar::limits::{LONGEST_TITLE, MOST_KEPT};
use ciborium_ll_grammar::spelling::Spelling;
use ciborium_ll_text::state::{State, text_front};

/// The state of a [`Parser`](crate::Parser) as plain numbers, for a caller that keeps it in memory of its own.
///
/// Only the calls of a parser say which number means what; numbers that are all 0 are no state. The calls refuse a kind
/// that does not exist, or a number out of the few bounds that there are. They do not find all memory that was
/// overwritten: numbers of another state restore that state, even if no bytes lead to it.
#[derive(Clone, Copy)]
#[repr(C)]
pub struct Saved {
    /// How many bytes were pushed and taken.
    pub offset: u64,
    /// How many bytes of a body are due, or the offset of a fault.
    pub number: u64,
    /// The offset that a fault of the text would have.
    pub place: u64,
    /// How many strings are open within the first open string.
    pub more: u64,
    /// The bytes of a title or of a character that is not whole.
    pub kept: [u8; LONGEST_TITLE],
    /// How many these are.
    pub kept_len: u8,
    /// What is due.
    pub phase: u8,
    /// Which strings are open.
    pub strings: u8,
    /// Whether the parser takes the shortest spelling only.
    pub strict: u8,
}

impl Phase {
    /// Returns the number of the kind, how many bytes are due or the place of a fault, and the place of a text.
    pub(crate) fn numbers(self) -> (u8, usize, usize)
        ensures { phase_in result.0 result.1 result.2 ≡ Some self }
    {
        match self {
            Phase::Title => (1, 0, 0),
            Phase::Bytes(left) => (2, left, 0),
            Phase::Text(left, place) => (3, left, place),
            Phase::Faulted(place) => (4, place, 0),
        }
    }

    /// Returns the phase with these numbers, if there is one.
    pub(crate) fn of(kind: u8, number: usize, place: usize) -> Option<Phase>
        ensures { result ≡ phase_in kind number place }
    {
        match kind {
            1 => Some(Phase::Title),
            2 => Some(Phase::Bytes(number)),
            3 => Some(Phase::Text(number, place)),
            4 => Some(Phase::Faulted(number)),
            _ => None,
        }
    }

    /// Returns `false` for a body without bytes left.
    fn has_left(self) -> bool
        ensures { result ≡ has_left self }
    {
        match self {
            Phase::Bytes(left) | Phase::Text(left, _) => left > 0,
            Phase::Title | Phase::Faulted(_) => true,
        }
    }

    /// Returns how many bytes are kept at most, if the bytes are these.
    fn most_front(self, front: &[u8]) -> usize
        ensures { result ≡ most_front self front.now }
    {
        match self {
            Phase::Title if front.is_empty() => 0,
            Phase::Title => row_of(front[0]).affix.len(),
            Phase::Text(_, _) => MOST_KEPT,
            Phase::Bytes(_) | Phase::Faulted(_) => 0,
        }
    }

    /// Returns the bytes that are kept of a character, if the bytes that are kept are these.
    fn carried(self, front: &[u8]) -> &[u8]
        ensures { result.now ≡ carried_of self front.now }
    {
        match self {
            Phase::Text(_, _) => front,
            Phase::Title | Phase::Bytes(_) | Phase::Faulted(_) => &[],
        }
    }
}

/// Returns whether no front of the bytes but the empty one is text.
fn is_stuck(bytes: &[u8]) -> bool
    ensures yes { result ≡ true → IsStuck bytes.now }
    ensures no { IsStuck bytes.now → result ≡ true }
{
    text_front(bytes, 0, State::Between).0.is_empty()
}

/// Returns the spelling with this number: 0 is any, and 1 is the shortest alone. Other numbers are those of none.
pub fn spelling_of(number: u8) -> Option<Spelling>
    ensures { result ≡ spelling_in number }
{
    match number {
        0 => Some(Spelling::Any),
        1 => Some(Spelling::Shortest),
        _ => None,
    }
}

/// Returns whether a parser can have this phase, these bytes, these open strings and this offset.
pub(crate) fn is_state(phase: Phase, front: &Few, within: Within, offset: usize) -> bool
    ensures yes { result ≡ true → IsState phase front.now within offset }
    ensures no { IsState phase front.now within offset → result ≡ true }
{
    let bytes = front.bytes();
    phase.has_left()
        && bytes.len() <= phase.most_front(bytes)
        && is_stuck(phase.carried(bytes))
        && within.is_counted(offset)
}
