//! Pieces of an open string that a copy keeps as they are, and whose bytes are all there.

ghost use Rattle.std.specs.Prelude.{◌≡◌, ◌+◌, ◌<◌, ◌≤◌, drop, take, length};
ghost use Rattle.cbor_copier.specs.Plain.{ArePieces, BeginsPiece};

use crate::plain::is_text;
use cbor_parser::strings::StringKind;

/// Pieces in a row.
#[derive(Drop)]
pub(crate) struct Pieces {
    /// How many bytes the pieces have.
    pub(crate) len: usize,
    /// Where the last piece begins.
    pub(crate) last: usize,
}

/// Returns the length of the string of this kind at `at`, if its title has one byte, and all of the string is there.
/// Otherwise it returns 0.
#[inline(always)]
fn piece_len(kind: StringKind, bytes: &[u8], at: usize) -> usize
    requires some { at < length bytes.now }
    ensures within { at + result ≤ length bytes.now }
    ensures kept { 0 < result → ArePieces kind 0 (take result (drop at bytes.now)) }
    ensures none { result ≡ 0 → BeginsPiece kind (drop at bytes.now) → ⊥ }
{
    let first = bytes[at];
    let len = 1 + usize::from(first % 32);
    if first % 32 >= 24 || len > bytes.len() - at {
        return 0;
    }
    match kind {
        StringKind::Bytes if first / 32 == 2 => len,
        StringKind::Text if first / 32 == 3 && is_text(&bytes[at + 1..at + len]) => len,
        _ => 0,
    }
}

/// Returns all pieces of this kind at the beginning, up to one that is not there whole or whose title is longer.
#[inline(never)]
pub(crate) fn pieces_run(kind: StringKind, bytes: &[u8]) -> Pieces
    ensures within { result.len ≤ length bytes.now }
    ensures last { result.last ≤ result.len }
    ensures kept { 0 < result.len → ArePieces kind result.last (take result.len bytes.now) }
    ensures ends { BeginsPiece kind (drop result.len bytes.now) → ⊥ }
{
    let mut at = 0;
    let mut last = 0;
    'pieces: while at < bytes.len() {
        let len = piece_len(kind, bytes, at);
        if len == 0 {
            return Pieces { len: at, last };
        }
        last = at;
        at += len;
    }
    Pieces { len: at, last }
}
