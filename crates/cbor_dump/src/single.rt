//! Reads one item that nothing follows.

ghost use Rattle.std.specs.Prelude.{◌≡◌, ◌≤◌, ◌↔◌, ℕ, List, length, IsOk};
ghost use Rattle.ciborium_ll.specs.Decoding.{MovesOn, failures_of, spelling_of};
ghost use Rattle.ciborium_ll.specs.Items.{IsItem};
ghost use Rattle.ciborium_ll.specs.Premises.{CanRead};
ghost use Rattle.cbor_dump.specs.Singles.{ChecksOne, ChecksOneTold, CountsOne, EndsOne};
ghost use Rattle.ciborium_ll_grammar.specs.declared.limits.TheConstants.{LEAST_BUFFER, MOST_LEVELS};

use crate::sequence::Sequence;
use cbor_skip::{SkipError, skip_item};
use ciborium_ll::io::Read;
use ciborium_ll::{Decoder, Error, Header};

/// Why the input is not one item.
#[derive(Debug, Drop)]
pub enum NotOne<E> {
    /// The input does not begin with an item, for this reason.
    Item(SkipError<E>),
    /// The input begins with an item, and more follows at this offset. The pull there returned this header or error.
    More(usize, Result<Header, Error<E>>),
}

/// Reads one item and the end after it, and returns a [`Sequence`] of one item.
///
/// [`check`] says the rules of the depth, the buffer, strictness, the end and the decoder. The call reads at most one
/// title after the item. With a reader and a decoder as there, `Ok` comes exactly if the bytes are one item.
///
/// # Errors
///
/// - `Item`: the input begins with no item, by the error of `skip_item`.
/// - `More(offset, ..)`: more follows the item, from this offset on.
pub fn check_one<R: Read>(
    decoder: &mut Decoder<R>,
    depth: usize,
    buffer: &mut [u8],
) -> Result<Sequence<R::Error>, NotOne<R::Error>>
    requires shallow { depth ≤ MOST_LEVELS }
    requires room { LEAST_BUFFER ≤ length buffer.old }
    ensures exactly { (due : List ℕ) → CanRead R.Read (length buffer.old) decoder.old due
        → (IsOk result ↔ IsItem (spelling_of decoder.old) depth due) }
    ensures told { (due : List ℕ) → CanRead R.Read (length buffer.old) decoder.old due
        → ChecksOneTold R.Read depth due decoder.old result decoder.new }
    ensures checks { ChecksOne R.Read depth (length buffer.old) decoder.old result decoder.new }
    ensures failures { CountsOne result (failures_of R.Read decoder.old) (failures_of R.Read decoder.new) }
    ensures moves_on { MovesOn R.Read decoder.old decoder.new }
{
    let start = decoder.offset();
    if let Err(error) = skip_item(decoder, depth, buffer) {
        return Err(NotOne::Item(error));
    }
    let place = decoder.offset();
    let pulled = decoder.pull();
    answer_end(pulled, start, place, decoder.offset())
}

/// Returns the answer of [`check_one`] after an item, by the pull after it. The item stands from `start` to `place`, and
/// the pull stopped at `stop`.
///
/// # Errors
///
/// - `More(place, ..)`: the pull gave a header, or failed for another reason than the end.
pub fn answer_end<E>(
    pulled: Result<Header, Error<E>>,
    start: usize,
    place: usize,
    stop: usize,
) -> Result<Sequence<E>, NotOne<E>>
    requires behind { start ≤ place }
    ensures { EndsOne pulled start place stop result }
{
    match pulled {
        Err(Error::Io(end)) if stop == place => Ok(Sequence {
            items: 1,
            bytes: place - start,
            end,
        }),
        next => Err(NotOne::More(place, next)),
    }
}
