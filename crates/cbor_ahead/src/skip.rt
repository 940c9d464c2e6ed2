//! Items of a reader that reads ahead, whatever its buffer holds of them.

ghost use Rattle.std.specs.Prelude.{◌≡◌, ℕ, ◌≤◌, ◌%◌, Bool, IfSome, MatchResult, None, Some, false, length, true};
ghost use Rattle.ciborium_ll_grammar.specs.declared.hdr.Header.TheVariants.{Break};
ghost use Rattle.ciborium_ll_grammar.specs.declared.limits.TheConstants.{LEAST_BUFFER, MOST_LEVELS};
ghost use Rattle.ciborium_ll_grammar.specs.Title.{title_len};
ghost use Rattle.ciborium_ll_decoder.specs.declared.dec.Decoder.{Decoder as AnyDecoder};
ghost use Rattle.ciborium_ll_decoder.specs.Decoding.{MovesOn, PullsTitle, offset_of, waiting_of};
ghost use Rattle.ciborium_ll_buffers.specs.declared.buffered.BufferedReader.{BufferedReader as AnyReader};
ghost use Rattle.cbor_skip.specs.Due.{IsNest, item_count, may_close};
ghost use Rattle.cbor_skip.specs.Skipping.{ReadsItem, SkipsCounted, SkipsItem, SkipsWithin, StopsItem};

use crate::pass::pass_items;
use cbor_skip::{SkipError, skip_after, skip_item};
use ciborium_ll_buffers::{BufferedReader, FaultKept};
use ciborium_ll_decoder::dec::Decoder;
use ciborium_ll_grammar::hdr::Header;
use ciborium_ll_io::io::Read;
use std::io;

/// In how many nests around an item [`skip_items`] looks for items that the buffer holds.
///
/// An item that the buffer holds in part is looked at once in each. So bytes are looked at a few times at most.
pub const NESTS: usize = 4;

/// Skips `count` items (RFC 7049, 2.1 to 2.4): those that the buffer of the reader holds by a checker, and the others
/// as [`skip_item`] does. It also looks so at the items of an item that the buffer does not hold, in `nests` nests.
///
/// [`skip_item`] says the rules of the depth, the buffer and strictness. The answer is that of as many calls of it.
///
/// # Errors
///
/// The error of [`skip_item`] on the first item that was not skipped. The decoder has then consumed what it consumes.
#[cycle(nests)]
pub fn skip_items<'a, T: io::Read>(
    decoder: Decoder<BufferedReader<'a, T>>,
    count: usize,
    nests: usize,
    depth: usize,
    buffer: &mut [u8],
) -> (
    Decoder<BufferedReader<'a, T>>,
    Result<(), SkipError<FaultKept>>,
)
    requires shallow { depth ≤ MOST_LEVELS }
    requires room { LEAST_BUFFER ≤ length buffer.old }
    ensures skipped { SkipsCounted ⟦<BufferedReader<'a, T> as Read>⟧ count depth (length buffer.old) decoder.entry
        result.1 result.0 }
    ensures none { count ≡ 0 → result.0 ≡ decoder.entry }
{
    let mut decoder = decoder;
    let mut left = count;
    'items: while left > 0 {
        let (passed, taken) = pass_items(decoder, left, depth);
        left -= taken;
        if left == 0 {
            return (passed, Ok(()));
        }
        let (next, outcome) = skip_one(passed, nests, depth, buffer);
        if let Err(error) = outcome {
            return (next, Err(error));
        }
        left -= 1;
        decoder = next;
    }
    (decoder, Ok(()))
}

/// Skips one item as [`skip_items`] does. It reads the title of the item by itself, and looks at the items within it.
///
/// # Errors
///
/// The errors of [`skip_item`].
#[cycle(nests)]
pub fn skip_one<'a, T: io::Read>(
    decoder: Decoder<BufferedReader<'a, T>>,
    nests: usize,
    depth: usize,
    buffer: &mut [u8],
) -> (
    Decoder<BufferedReader<'a, T>>,
    Result<(), SkipError<FaultKept>>,
)
    requires shallow { depth ≤ MOST_LEVELS }
    requires room { LEAST_BUFFER ≤ length buffer.old }
    ensures skipped { SkipsItem ⟦<BufferedReader<'a, T> as Read>⟧ depth (length buffer.old) decoder.entry
        result.1 result.0 }
{
    let mut decoder = decoder;
    let place = decoder.offset();
    let header = match decoder.pull() {
        Ok(header) => header,
        Err(error) => return (decoder, Err(SkipError::Read(error))),
    };
    skip_rest(decoder, header, place, nests, depth, buffer)
}

/// Skips the rest of an item after its header, which stands at this place. It looks at the items within it in `nests`
/// nests.
#[cycle(nests)]
fn skip_rest<'a, T: io::Read>(
    decoder: Decoder<BufferedReader<'a, T>>,
    header: Header,
    place: usize,
    nests: usize,
    depth: usize,
    buffer: &mut [u8],
) -> (
    Decoder<BufferedReader<'a, T>>,
    Result<(), SkipError<FaultKept>>,
)
    requires shallow { depth ≤ MOST_LEVELS }
    requires room { LEAST_BUFFER ≤ length buffer.old }
    requires none_waits { waiting_of decoder ≡ None }
    requires covered { title_len header ≤ offset_of decoder }
    ensures skipped { (closable : Bool) (before : AnyDecoder (AnyReader T))
        → PullsTitle ⟦<BufferedReader<'a, T> as Read>⟧ before header decoder.entry
        → MovesOn ⟦<BufferedReader<'a, T> as Read>⟧ before decoder.entry → place ≡ offset_of before
        → (header ≡ Break → closable ≡ false)
        → MatchResult result.1 (λ done. ReadsItem ⟦<BufferedReader<'a, T> as Read>⟧ depth before result.0)
        (λ error. StopsItem ⟦<BufferedReader<'a, T> as Read>⟧ closable depth (length buffer.old) before error
        result.0) }
{
    if nests > 0 && depth > 0 {
        if let Some(count) = items_after(header) {
            return skip_items(decoder, count, nests - 1, depth - 1, buffer);
        }
        if let Header::Array(None) | Header::Map(None) = header {
            return skip_open(decoder, header, nests - 1, depth - 1, buffer);
        }
    }
    let mut decoder = decoder;
    let outcome = skip_after(&mut decoder, header, place, depth, buffer);
    (decoder, outcome)
}

/// Skips the contents of an array or a map of indefinite length, after its header, and the break.
#[cycle(nests)]
fn skip_open<'a, T: io::Read>(
    decoder: Decoder<BufferedReader<'a, T>>,
    header: Header,
    nests: usize,
    depth: usize,
    buffer: &mut [u8],
) -> (
    Decoder<BufferedReader<'a, T>>,
    Result<(), SkipError<FaultKept>>,
)
    requires shallow { depth ≤ MOST_LEVELS }
    requires room { LEAST_BUFFER ≤ length buffer.old }
    requires nest { IsNest header }
    requires open { item_count header ≡ None }
    ensures skipped { SkipsWithin ⟦<BufferedReader<'a, T> as Read>⟧ header depth (length buffer.old) decoder.entry
        result.1 result.0 }
{
    let mut decoder = decoder;
    let mut parity = 0; // Of the number of items so far.
    'items: loop {
        let (passed, taken) = pass_items(decoder, usize::MAX, depth);
        parity = (parity + taken % 2) % 2;
        let mut behind = passed;
        let place = behind.offset();
        let next = match behind.pull() {
            Ok(next) => next,
            Err(error) => return (behind, Err(SkipError::Read(error))),
        };
        if let Header::Break = next
            && closes(header, parity)
        {
            return (behind, Ok(()));
        }
        let (after, outcome) = skip_rest(behind, next, place, nests, depth, buffer);
        if let Err(error) = outcome {
            return (after, Err(error));
        }
        parity = 1 - parity;
        decoder = after;
    }
}

/// Returns how many items follow the header, if it is that of a tag, or of an array or a map that counts its items.
fn items_after(header: Header) -> Option<usize>
    ensures { IfSome result (λ count. item_count header ≡ Some count) }
{
    match header {
        Header::Tag(_) => Some(1),
        Header::Array(len) => len,
        Header::Map(Some(pairs)) if pairs <= usize::MAX / 2 => Some(2 * pairs),
        _ => None,
    }
}

/// Returns whether a break may stand after some items of an array or a map. In a map of indefinite length it may if
/// their number is even, whose remainder by 2 is the parity.
fn closes(header: Header, parity: usize) -> bool
    ensures { (count : ℕ) → count % 2 ≡ parity → result ≡ may_close header count }
{
    match header {
        Header::Array(None) => true,
        Header::Map(None) => parity == 0,
        _ => false,
    }
}
