//! The answer of a checker, by its phase.

ghost use Rattle.std.specs.Prelude.{◌≡◌, ◌≤◌, ◌%◌, length, slice_index, true};
ghost use Rattle.ciborium_ll_grammar.specs.Title.{affix_len};
ghost use Rattle.cbor_checker.specs.declared.progress.Progress.TheVariants as r;
ghost use Rattle.cbor_checker.specs.Spots.{Spot};
ghost use Rattle.cbor_checker.specs.Telling.{is_due, progress_of, title_due};

use crate::phase::Phase;
use crate::progress::Progress;
use cbor_parser::few::Few;
use ciborium_ll_grammar::hdr::table::row_of;

/// Returns how many bytes a title lacks at least, if these came.
fn title_due(front: &Few) -> usize
    requires { length front.now ≤ affix_len (slice_index front.now 0 % 32) }
    ensures { result ≡ title_due front.now }
{
    let bytes = front.bytes();
    if bytes.is_empty() {
        return 1;
    }
    row_of(bytes[0]).affix.len() - (bytes.len() - 1)
}

/// Returns the answer to a piece, by the phase after it; `left` says that bytes of the piece are left.
///
/// Each arm tests `left` for itself, so that a call that writes the numbers of the phase matches it once.
#[inline(always)]
pub(crate) fn piece_answer(phase: Phase, front: &Few, offset: usize, left: bool) -> Progress
    requires { length front.now ≤ affix_len (slice_index front.now 0 % 32) }
    ensures long { left ≡ true → is_due phase ≡ true → result ≡ r.TooLong }
    ensures told { (left ≡ true → is_due phase ≡ true → ⊥) → (spot : Spot) → spot.phase ≡ phase
        → spot.front ≡ front.now → spot.offset ≡ offset → result ≡ progress_of spot }
{
    match phase {
        Phase::Title if left => Progress::TooLong,
        Phase::Title => Progress::More(title_due(front)),
        Phase::Bytes(_) | Phase::Text(_, _) if left => Progress::TooLong,
        Phase::Bytes(len) | Phase::Text(len, _) => Progress::More(len),
        Phase::Ended => Progress::Ended(offset),
        Phase::Faulted(fault) => Progress::Fault(fault),
    }
}

/// Returns how far the item has come, by its phase.
pub(crate) fn answer(phase: Phase, front: &Few, offset: usize) -> Progress
    requires { length front.now ≤ affix_len (slice_index front.now 0 % 32) }
    ensures { (spot : Spot) → spot.phase ≡ phase → spot.front ≡ front.now → spot.offset ≡ offset
        → result ≡ progress_of spot }
{
    piece_answer(phase, front, offset, false)
}
