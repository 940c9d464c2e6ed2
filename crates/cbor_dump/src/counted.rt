//! Skips a number of the items of a sequence (RFC 8742).

ghost use Rattle.std.specs.Prelude.{◌≡◌, ◌≤◌, ◌↔◌, ℕ, List, length, IsOk};
ghost use Rattle.ciborium_ll.specs.Decoding.{MovesOn, spelling_of};
ghost use Rattle.cbor_skip.specs.Skipping.{SkipsCounted};
ghost use Rattle.ciborium_ll.specs.Premises.{CanRead};
ghost use Rattle.cbor_dump.specs.Counted.{BeginsWithItems, SkipsItemsTold};
ghost use Rattle.ciborium_ll_grammar.specs.declared.limits.TheConstants.{LEAST_BUFFER, MOST_LEVELS};

use cbor_skip::{SkipError, skip_item};
use ciborium_ll::Decoder;
use ciborium_ll::io::Read;

/// Skips the first `count` items of a sequence (RFC 8742).
///
/// [`check`](crate::sequence::check) says the rules of the depth, the buffer and strictness. For a `count` of 0 the call
/// reads nothing.
///
/// If a steady reader tells its bytes, the offset fits and no header waits on a strict decoder, `Ok` comes exactly if
/// the bytes begin with that many items. Exactly these are then consumed. The decoder moves on as [`Decoder`] says.
///
/// # Errors
///
/// The error of `skip_item` on the first item that it does not skip. At the end of a shorter sequence it is `Read` of
/// `Error::Io`. The whole items before it are consumed, and what `skip_item` then consumes.
pub fn skip_items<R: Read>(
    decoder: &mut Decoder<R>,
    count: usize,
    depth: usize,
    buffer: &mut [u8],
) -> Result<(), SkipError<R::Error>>
    requires shallow { depth ≤ MOST_LEVELS }
    requires room { LEAST_BUFFER ≤ length buffer.old }
    ensures exactly { (due : List ℕ) → CanRead R.Read (length buffer.old) decoder.old due
        → (IsOk result ↔ BeginsWithItems (spelling_of decoder.old) depth count due) }
    ensures told { (due : List ℕ) → CanRead R.Read (length buffer.old) decoder.old due
        → SkipsItemsTold R.Read count depth due decoder.old result decoder.new }
    ensures skipped { SkipsCounted R.Read count depth (length buffer.old) decoder.old result decoder.new }
    ensures none { count ≡ 0 → decoder.new ≡ decoder.old }
    ensures moves_on { MovesOn R.Read decoder.old decoder.new }
{
    let mut skipped = 0;
    'items: while skipped < count {
        if let Err(error) = skip_item(decoder, depth, buffer) {
            return Err(error);
        }
        skipped += 1;
    }
    Ok(())
}
