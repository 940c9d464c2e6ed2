//! Reads a sequence of items (RFC 8742) to its end.

ghost use Rattle.std.specs.Prelude.{◌≡◌, ◌≤◌, ◌↔◌, ℕ, List, length, IsOk, IfOk};
ghost use Rattle.ciborium_ll.specs.Decoding.{MovesOn, failures_of, spelling_of};
ghost use Rattle.ciborium_ll.specs.Items.{AreItems};
ghost use Rattle.ciborium_ll.specs.Premises.{CanRead};
ghost use Rattle.cbor_dump.specs.Sequences.{ChecksItems, ChecksTold, CountsCheck, EndsSequence, IsSequence};
ghost use Rattle.ciborium_ll_grammar.specs.declared.limits.TheConstants.{LEAST_BUFFER, MOST_LEVELS};

use cbor_skip::{SkipError, skip_item};
use ciborium_ll::io::Read;
use ciborium_ll::{Decoder, Error};

/// A sequence that was read up to an end.
#[derive(Debug, Drop)]
pub struct Sequence<E> {
    /// How many items it has.
    pub items: usize,
    /// How many bytes the items take.
    pub bytes: usize,
    /// The reader's error at the offset of a further item: the bytes end there, or cannot be read.
    pub end: E,
}

/// The fault that stopped the read of a sequence.
#[derive(Debug, Drop)]
pub struct Stopped<E> {
    /// How many whole items stand before the fault.
    pub items: usize,
    /// The offset after these items, at which the item at fault begins.
    pub place: usize,
    /// Why no item was read there.
    pub error: SkipError<E>,
}

/// Reads items up to the end, and returns the [`Sequence`].
///
/// Tags, arrays and maps nest at most `depth` levels deep, and `depth` is at most 256. Strings go through the buffer,
/// of at least four bytes. The stack has a frame for each level.
///
/// `Ok` says that the reader failed at the offset of a further item, before a byte of it came. If the reader fails only
/// if bytes are missing, this is the end. A strict decoder takes only the shortest spelling (RFC 7049, 3.9).
///
/// If a steady reader tells its bytes, the offset fits and no header waits on a strict decoder, `Ok` comes exactly if
/// they are a sequence of items (RFC 8742).
///
/// The decoder moves on as [`Decoder`] says. The reader fails only for `Ok` and `Error::Io`, and then once.
///
/// # Errors
///
/// [`Stopped`] is never the end. It has the error of `skip_item`, and the decoder has consumed what `skip_item` then
/// consumes.
pub fn check<R: Read>(
    decoder: &mut Decoder<R>,
    depth: usize,
    buffer: &mut [u8],
) -> Result<Sequence<R::Error>, Stopped<R::Error>>
    requires shallow { depth ≤ MOST_LEVELS }
    requires room { LEAST_BUFFER ≤ length buffer.old }
    ensures exactly { (due : List ℕ) → CanRead R.Read (length buffer.old) decoder.old due
        → (IsOk result ↔ IsSequence (spelling_of decoder.old) depth due) }
    ensures number { (due : List ℕ) (count : ℕ) → CanRead R.Read (length buffer.old) decoder.old due
        → AreItems (spelling_of decoder.old) depth count due → IfOk result (λ sequence. sequence.items ≡ count) }
    ensures told { (due : List ℕ) → CanRead R.Read (length buffer.old) decoder.old due
        → ChecksTold R.Read depth due decoder.old result decoder.new }
    ensures checks { ChecksItems R.Read depth (length buffer.old) decoder.old result decoder.new }
    ensures failures { CountsCheck result (failures_of R.Read decoder.old) (failures_of R.Read decoder.new) }
    ensures moves_on { MovesOn R.Read decoder.old decoder.new }
{
    let start = decoder.offset();
    let mut items = 0;
    // The loop ends: each item takes a byte, and no offset is greater than `usize::MAX`.
    'items: loop {
        let place = decoder.offset();
        match skip_item(decoder, depth, buffer) {
            Ok(()) => items += 1,
            Err(error) => return ended(error, items, start, place, decoder.offset()),
        }
    }
}

/// Answers the error that ended the read. The items stand from the offset `start` to `place`, and the read failed at
/// the offset `stop`.
fn ended<E>(
    error: SkipError<E>,
    items: usize,
    start: usize,
    place: usize,
    stop: usize,
) -> Result<Sequence<E>, Stopped<E>>
    requires behind { start ≤ place }
    ensures { EndsSequence error items start place stop result }
{
    match error {
        SkipError::Read(Error::Io(end)) if stop == place => Ok(Sequence {
            items,
            bytes: place - start,
            end,
        }),
        error => Err(Stopped {
            items,
            place,
            error,
        }),
    }
}
