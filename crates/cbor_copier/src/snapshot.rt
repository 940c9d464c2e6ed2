//! A copier's state as plain numbers.

ghost use Rattle.std.specs.Prelude.{◌≡◌, ◌<◌, ◌≤◌, length, true, false};
ghost use Rattle.cbor_copier.specs.Fronts.{has_left, most_cut, most_front};
ghost use Rattle.cbor_copier.specs.Snapshots.{IsState};

use crate::phase::Phase;
use cbor_parser::strings::Within;
use ciborium_ll_grammar::limits::LONGEST_TITLE;
use ciborium_ll_grammar::titles::are_begun;
use ciborium_ll_text::state::State;

/// The state of a [`Copier`](crate::Copier) as plain numbers in the caller's memory, for a program in C or one that
/// keeps many copiers.
///
/// Only [`Copier::save`](crate::Copier::save) and [`Copier::restore`](crate::Copier::restore) say which number means
/// what; numbers that are all 0 are no state. The struct has no bytes between its fields or after them.
///
/// A restored copier equals the saved copier. `restore` refuses a kind that doesn't exist, or a number out of the few
/// bounds that there are. It does not find all memory that was overwritten: numbers of another state restore that
/// state, even if no bytes lead to it.
#[derive(Drop)]
#[repr(C)]
pub struct Snapshot {
    /// How many bytes came.
    pub offset: u64,
    /// The offset that a fault would name.
    pub place: u64,
    /// How many elements aren't whole.
    pub left: u64,
    /// How many bytes of a body are due, or the offset of a fault.
    pub number: u64,
    /// How many strings are open within the first open string.
    pub more: u64,
    /// The bytes of a title or of a character that isn't whole.
    pub front: [u8; 9],
    /// Bytes that are to be written.
    pub pending: [u8; 9],
    /// How many bytes of a title or of a character are held back.
    pub front_len: u8,
    /// How many bytes are to be written.
    pub pending_len: u8,
    /// What is due.
    pub phase: u8,
    /// The state that the characters of a text have led to.
    pub text: u8,
    /// Which strings are open.
    pub strings: u8,
    /// Whether the copier takes the shortest spelling only.
    pub strict: u8,
}

const _: () = prove!(size_of::<Snapshot>() == 64);

/// Returns `false` for a body without bytes left.
fn has_left(phase: Phase) -> bool
    ensures { result ≡ has_left phase }
{
    !matches!(phase, Phase::Bytes(0) | Phase::Text(0, _))
}

/// Returns how many bytes of a character are held back at most.
fn most_cut(state: State) -> usize
    ensures { result ≡ most_cut state }
{
    match state {
        State::Between | State::Damaged => 0,
        State::OneDue => 3,
        State::TwoDue | State::BehindE0 | State::BehindEd => 2,
        State::ThreeDue | State::BehindF0 | State::BehindF4 => 1,
    }
}

/// Returns whether no more bytes are held back than may be.
fn has_room(phase: Phase, front: &[u8]) -> bool
    ensures yes { result ≡ true → length front.now ≤ most_front phase front.now }
    ensures no { result ≡ false → most_front phase front.now < length front.now }
{
    match phase {
        Phase::Title => are_begun(front),
        Phase::Text(_, state) => front.len() <= most_cut(state),
        Phase::Faulted(_) => front.len() < LONGEST_TITLE,
        Phase::Bytes(_) | Phase::Ended => front.is_empty(),
    }
}

/// Returns whether the numbers are those of a state, with this phase and these open strings.
pub(crate) fn is_state(snapshot: &Snapshot, phase: Phase, within: Within) -> bool
    ensures yes { result ≡ true → IsState snapshot.now phase within }
    ensures no { IsState snapshot.now phase within → result ≡ true }
{
    let front_len = usize::from(snapshot.front_len);
    if front_len > LONGEST_TITLE {
        return false;
    }
    if usize::from(snapshot.pending_len) > LONGEST_TITLE {
        return false;
    }
    if !within.is_counted(snapshot.offset as usize) {
        return false;
    }
    has_left(phase) && has_room(phase, &snapshot.front[..front_len])
}
