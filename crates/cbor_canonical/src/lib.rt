// SPDX-License-Identifier: Apache-2.0
//! The deterministic encoding of any well-formed item (RFC 8949, 4.2).
//!
//! [`canonical_into`] writes it into memory that the caller lends, and [`canonical`] into a vector. [`narrow::narrowest`]
//! narrows a float. [`laws`] says what the encoding keeps.
#![tactic(auto)]

ghost use Rattle.std.specs.Prelude.{◌≡◌, ◌≤◌, ◌-◌, IfOk, MatchResult, false, length, take};
ghost use Rattle.ciborium_ll_grammar.specs.declared.spelling.Spelling.TheVariants.{Any};
ghost use Rattle.ciborium_ll_grammar.specs.Items.{IsItem};
ghost use Rattle.cbor_canonical.specs.declared.CanonicalError.TheVariants.{Memory as NoMemory};
ghost use Rattle.cbor_canonical.specs.Canonical.{IsCanonical, IsRewritten};
ghost use Rattle.cbor_canonical.specs.Refusals.{HasWhy, IsUnwritten};
ghost use Rattle.cbor_canonical.specs.Room.{IsTooSmall, LacksMemory};

mod aside;
mod check;
mod kept;
pub mod laws;
pub mod narrow;
mod pairs;
mod rewrite;
mod strings;
mod title;
mod walk;

use crate::check::split_item;
use crate::kept::copy_item;
pub use crate::pairs::Span;
use crate::rewrite::rewrite_item;
use cbor_deterministic::{MAX_DEPTH, Order, deterministic_len};
use std::alloc::{AllocError, Global};

/// An encoding has at most one byte more for this many bytes of its item.
const BYTES_PER_SPARE: usize = 256;

/// The place of no pair.
const NO_SPAN: Span = Span {
    start: 0,
    key_end: 0,
    end: 0,
};

/// Why bytes are refused.
#[derive(Clone, Copy, Debug, PartialEq, Eq)]
pub enum Why {
    /// The bytes end too early.
    Cut,
    /// No title stands here, or none that its string may contain, or a text that is not UTF-8.
    Malformed,
    /// A break in place of an item.
    Break,
    /// A tag, an array or a map for which no level is left.
    Deep,
    /// A simple value from 24 to 31 (RFC 8949, 3.3). The item stands for no value.
    NoSimple,
    /// A key that its map has already (RFC 8949, 5.6).
    DuplicateKey,
}

/// Why no item that has a deterministic encoding begins some bytes.
#[derive(Clone, Copy, Debug, PartialEq, Eq, Drop)]
pub struct Refusal {
    /// The reason.
    pub why: Why,
    /// The offset of the place, in bytes.
    pub place: usize,
}

/// Why nothing is written.
#[derive(Clone, Copy, Debug, PartialEq, Eq, Drop)]
pub enum CanonicalError {
    /// The bytes are refused.
    Refused(Refusal),
    /// The lent memory is too small, or the allocator has none left.
    Memory,
}

/// Why a call stops.
#[derive(Clone, Copy, Drop)]
pub(crate) enum Stop {
    /// No item to the depth stands at the beginning.
    Malformed,
    /// A simple value from 24 to 31, and how many bytes are left from its title on.
    NoSimple(usize),
    /// A key that its map has already, and how many bytes are left from the key on.
    Duplicate(usize),
    /// The lent memory is too small.
    Room,
}

impl From<AllocError> for CanonicalError {
    ghost use Rattle.cbor_canonical.specs.declared.CanonicalError.TheVariants.{Memory as NoMemory};

    ghost from_gives = { λ refused error. error ≡ NoMemory };

    fn from(_refused: AllocError) -> CanonicalError {
        CanonicalError::Memory
    }
}

impl From<Refusal> for CanonicalError {
    ghost use Rattle.cbor_canonical.specs.declared.CanonicalError.TheVariants.{Refused};

    ghost from_gives = { λ refusal error. error ≡ Refused refusal };

    fn from(refusal: Refusal) -> CanonicalError {
        CanonicalError::Refused(refusal)
    }
}

/// Writes the deterministic encoding of the item at the beginning of the bytes to the start of `out`. Returns the
/// encoding's length and the rest of the bytes.
///
/// [`Order`] has the two orders of keys (RFC 8949, 4.2.1 and 4.2.3). The item may have any spelling: titles of any
/// width, indefinite lengths, and keys in any order. Tags, arrays and maps, empty ones too, nest at most `depth` levels
/// deep.
///
/// A float keeps its value, a zero its sign, and a NaN its sign and payload. No integer is taken for a float, and no
/// tag is looked into.
///
/// # Errors
///
/// - [`Why::Cut`]: the place is the end of the bytes.
/// - [`Why::Malformed`], [`Why::Break`], [`Why::Deep`]: as of `cbor_skip::skip_item`.
/// - [`Why::NoSimple`]: the place is that of a simple value from 24 to 31 in the item.
/// - [`Why::DuplicateKey`]: the place is the later of two same keys in an item.
/// - [`CanonicalError::Memory`]: `out` or `spans` is too short.
///
/// After an error the contents of `out` are unknown.
///
/// # Time and memory
///
/// For an item of `n` bytes, `n + n / 256` bytes of `out` and half as many spans are enough. The contents of `spans` are
/// unknown after the call. The call copies an item that is in the encoding already: this takes as many bytes of `out`
/// as the item has, and no spans. It reads the bytes at most twice, or four times before an error. It sorts the pairs of
/// a map whose keys do not ascend, in `n * log n` comparisons of keys. It moves a byte at most twice for each such map,
/// and once for each map or array of indefinite length, that contains the byte. On the stack each level takes the frames
/// of six calls.
pub fn canonical_into<'a>(
    bytes: &'a [u8],
    depth: usize,
    order: Order,
    out: &mut [u8],
    spans: &mut [Span],
) -> Result<(usize, &'a [u8]), CanonicalError>
    requires shallow { depth ≤ MAX_DEPTH }
    ensures written { MatchResult result
        (λ found. IsCanonical order depth bytes.now found.1.now (take found.0 out.new)) (IsUnwritten depth bytes.now) }
    ensures within { IfOk result (λ found. found.0 ≤ length out.new) }
    ensures room { result ≡ Err NoMemory → LacksMemory order depth bytes.now (length out.old) (length spans.old) }
{
    if let Some(len) = copy_item(bytes, depth, order, out) {
        return Ok((len, &bytes[len..]));
    }
    if let Ok((rest, end)) = rewrite_item(bytes, depth, order, out, 0, spans) {
        return Ok((end, rest));
    }
    // The item alone says why it is not rewritten.
    let (item, rest) = split_item(bytes, depth)?;
    let end = rewrite_checked(item, depth, order, out, spans)?;
    Ok((end, rest))
}

/// Writes the deterministic encoding of an item to the start of `out`, and returns the encoding's length.
fn rewrite_checked(
    item: &[u8],
    depth: usize,
    order: Order,
    out: &mut [u8],
    spans: &mut [Span],
) -> Result<usize, CanonicalError>
    requires shallow { depth ≤ MAX_DEPTH }
    requires is_item { IsItem Any depth item.now }
    ensures written { MatchResult result (λ end. IsRewritten order depth item.now (take end out.new))
        (IsUnwritten depth item.now) }
    ensures within { IfOk result (λ end. end ≤ length out.new) }
    ensures room { result ≡ Err NoMemory → IsTooSmall (length item.now) (length out.old) (length spans.old) }
{
    match rewrite_item(item, depth, order, out, 0, spans) {
        Ok((_, end)) => Ok(end),
        Err(Stop::NoSimple(left)) => Err(refused(Why::NoSimple, item.len(), left)),
        Err(Stop::Duplicate(left)) => Err(refused(Why::DuplicateKey, item.len(), left)),
        Err(Stop::Room) => Err(CanonicalError::Memory),
        Err(Stop::Malformed) => unreachable!(),
    }
}

/// Writes the deterministic encoding of the item at the beginning of the bytes into a vector. Returns the encoding and
/// the rest of the bytes.
///
/// # Errors
///
/// They are those of [`canonical_into`]. [`CanonicalError::Memory`] says that the allocator has no memory left.
///
/// # Time and memory
///
/// The call takes `n + n / 256` bytes and half as many spans for an item of `n` bytes, and gives the spans back. An item
/// that is in the encoding already needs no spans.
pub fn canonical(
    alloc: Global,
    bytes: &[u8],
    depth: usize,
    order: Order,
) -> Result<(Vec<u8>, &[u8]), CanonicalError>
    requires shallow { depth ≤ MAX_DEPTH }
    ensures { MatchResult result (λ found. IsCanonical order depth bytes.now found.1.now found.0.items)
        (IsUnwritten depth bytes.now) }
{
    if let Ok(len) = deterministic_len(bytes, depth, order) {
        let mut copy = Vec::new(alloc);
        copy.extend_from_slice(&bytes[..len])?;
        return Ok((copy, &bytes[len..]));
    }
    let (item, rest) = split_item(bytes, depth)?;
    let room = item.len() + item.len() / BYTES_PER_SPARE;
    let mut out = Vec::new(alloc);
    out.resize(room, 0)?;
    let mut spans = Vec::new(alloc);
    spans.resize(room / 2, NO_SPAN)?;
    match rewrite_checked(item, depth, order, out.as_mut_slice(), spans.as_mut_slice()) {
        Ok(end) => {
            out.truncate(end);
            Ok((out, rest))
        }
        // The memory is enough.
        Err(CanonicalError::Memory) => unreachable!(),
        Err(error) => Err(error),
    }
}

/// Returns the error for a place that is `left` bytes before the end of the `len` bytes.
fn refused(why: Why, len: usize, left: usize) -> CanonicalError
    ensures { HasWhy why (len - left) result }
{
    CanonicalError::Refused(Refusal {
        why,
        place: len.saturating_sub(left),
    })
}
