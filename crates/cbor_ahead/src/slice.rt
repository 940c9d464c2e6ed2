//! An item of a slice.

ghost use Rattle.std.specs.Prelude.{◌≡◌, ◌≤◌, ◌↔◌, ℕ, IsFalse, IsOk, IsTrue, List, Some, length};
ghost use Rattle.ciborium_ll_grammar.specs.declared.limits.TheConstants.{LEAST_BUFFER, MOST_LEVELS};
ghost use Rattle.ciborium_ll_decoder.specs.Decoding.{MovesOn, spelling_of, view};
ghost use Rattle.ciborium_ll_decoder.specs.Premises.{CanRead};
ghost use Rattle.cbor_skip.specs.ItemFaults.{BeginsWithItem};
ghost use Rattle.cbor_skip.specs.Skipping.{ReadsItem, SkipsOne, allowed_by};
ghost use Rattle.cbor_skip.specs.SkippingTold.{SkipsFront, SkipsTold};

use crate::groups::whole_items;
use cbor_skip::{SkipError, skip_item};
use ciborium_ll_decoder::dec::Decoder;
use ciborium_ll_io::io::{EndOfFile, Read, SliceReader};

/// Skips one item of a slice as [`skip_item`] does, with its answers. A checker reads the item, which is faster for all
/// but items of a few bytes.
///
/// [`skip_item`] says the rules of the depth, the buffer and strictness. Only a fault is found as it finds it.
///
/// # Errors
///
/// The errors of [`skip_item`]. The decoder has then consumed what it consumes.
pub fn skip_slice<'a>(
    decoder: &mut Decoder<SliceReader<'a>>,
    depth: usize,
    buffer: &mut [u8],
) -> Result<(), SkipError<EndOfFile>>
    requires shallow { depth ≤ MOST_LEVELS }
    requires room { LEAST_BUFFER ≤ length buffer.old }
    ensures exactly { (due : List ℕ)
        → CanRead ⟦<SliceReader<'a> as Read>⟧ (length buffer.old) decoder.old due
        → (IsOk result ↔ BeginsWithItem (spelling_of decoder.old) depth due) }
    ensures front { (due : List ℕ) → view ⟦<SliceReader<'a> as Read>⟧ decoder.old ≡ Some due → IsOk result
        → SkipsFront ⟦<SliceReader<'a> as Read>⟧ (allowed_by decoder.old) depth due decoder.old decoder.new }
    ensures told { (due : List ℕ) → CanRead ⟦<SliceReader<'a> as Read>⟧ (length buffer.old) decoder.old due
        → SkipsTold ⟦<SliceReader<'a> as Read>⟧ (spelling_of decoder.old) depth due decoder.old result
        decoder.new }
    ensures skipped { SkipsOne ⟦<SliceReader<'a> as Read>⟧ depth (length buffer.old) decoder.old result
        decoder.new }
{
    if pass_item(decoder, depth) {
        return Ok(());
    }
    skip_item(decoder, depth, buffer)
}

/// Skips the item with which the slice goes on, if a checker tells one, and returns whether it did. If a header waits,
/// it skips none.
fn pass_item<'a>(decoder: &mut Decoder<SliceReader<'a>>, depth: usize) -> bool
    requires { depth ≤ MOST_LEVELS }
    ensures passed { IsTrue result
        → ReadsItem ⟦<SliceReader<'a> as Read>⟧ depth decoder.old decoder.new
        × MovesOn ⟦<SliceReader<'a> as Read>⟧ decoder.old decoder.new }
    ensures none { IsFalse result → decoder.new ≡ decoder.old }
{
    if decoder.is_waiting() {
        return false;
    }
    let room = usize::MAX - decoder.offset();
    let spelling = decoder.spelling();
    let left = decoder.left();
    let run = whole_items(&left[..left.len().min(room)], 1, spelling, depth);
    if run.count == 0 {
        return false;
    }
    decoder.consume(run.len);
    true
}
