//! The rest of an item whose header was read.

ghost use Rattle.std.specs.Prelude.{◌≡◌, ◌≤◌, Bool, IfOk, MatchResult, None, false, length};
ghost use Rattle.ciborium_ll_grammar.specs.declared.hdr.Header.{Header as AnyHeader};
ghost use Rattle.ciborium_ll_grammar.specs.declared.hdr.Header.TheVariants.{Break as BreakHeader};
ghost use Rattle.ciborium_ll_grammar.specs.declared.limits.TheConstants.{LEAST_BUFFER, MOST_LEVELS};
ghost use Rattle.ciborium_ll_grammar.specs.Title.{title_len};
ghost use Rattle.ciborium_ll_decoder.specs.declared.dec.Decoder.{Decoder as AnyDecoder};
ghost use Rattle.ciborium_ll_decoder.specs.Decoding.{MovesOn, PullsTitle, offset_of, waiting_of};
ghost use Rattle.cbor_skip.specs.declared.Begun.TheVariants.{Break as BegunBreak, Nest as BegunNest};
ghost use Rattle.cbor_skip.specs.Due.{IsNest};
ghost use Rattle.cbor_skip.specs.Skipping.{IsBegun, ReadsItem, SkipsItem, StopsItem, StopsTitle};

use crate::{Begun, SkipError, nest_begun, skip_rest};
use ciborium_ll_decoder::dec::{Decoder, Error};
use ciborium_ll_decoder::skip::{skip_bytes, skip_text};
use ciborium_ll_grammar::hdr::Header;
use ciborium_ll_io::io::Read;

/// Reads the rest of a string after its header, and returns the beginning that the header makes.
fn begin_after<R: Read>(
    decoder: &mut Decoder<R>,
    header: Header,
    buffer: &mut [u8],
) -> Result<Begun, Error<R::Error>>
    requires room { LEAST_BUFFER ≤ length buffer.old }
    requires none_waits { waiting_of decoder.old ≡ None }
    requires covered { title_len header ≤ offset_of decoder.old }
    ensures begun { (before : AnyDecoder R) → PullsTitle R.Read before header decoder.old
        → MovesOn R.Read before decoder.old
        → MatchResult result (λ begun. IsBegun R.Read begun before decoder.new)
        (λ error. StopsTitle R.Read (length buffer.old) before error decoder.new) }
    ensures nest { IfOk result (λ begun. (nest : AnyHeader) → begun ≡ BegunNest nest → IsNest nest) }
    ensures breaks { IfOk result (λ begun. begun ≡ BegunBreak → header ≡ BreakHeader) }
    ensures moves_on { MovesOn R.Read decoder.old decoder.new }
{
    match header {
        Header::Positive(_) | Header::Negative(_) | Header::Float(_) | Header::Simple(_) => {
            Ok(Begun::Item)
        }
        Header::Break => Ok(Begun::Break),
        Header::Tag(_) | Header::Array(_) | Header::Map(_) => Ok(nest_begun(header)),
        Header::Bytes(len) => {
            skip_bytes(decoder, len, buffer)?;
            Ok(Begun::Item)
        }
        Header::Text(len) => {
            skip_text(decoder, len, buffer)?;
            Ok(Begun::Item)
        }
    }
}

/// Skips the rest of an item after its header, which [`Decoder::pull`] gave: `01 02` after the header of `82`.
///
/// `place` is the offset of the header's title. The depth counts the nest that the header begins. Both together, the
/// `pull` and this call, answer as [`skip_item`](crate::skip_item) does. Within an array or a map of indefinite length
/// they do so too, if the header is no break that ends it.
///
/// # Errors
///
/// - `Break(place)`: the header is a break.
/// - `Deep(place)`: the header begins a tag, an array or a map, and `depth` is 0.
/// - The errors of [`skip_item`](crate::skip_item) on what follows the header.
pub fn skip_after<R: Read>(
    decoder: &mut Decoder<R>,
    header: Header,
    place: usize,
    depth: usize,
    buffer: &mut [u8],
) -> Result<(), SkipError<R::Error>>
    requires shallow { depth ≤ MOST_LEVELS }
    requires room { LEAST_BUFFER ≤ length buffer.old }
    requires none_waits { waiting_of decoder.old ≡ None }
    requires covered { title_len header ≤ offset_of decoder.old }
    ensures skipped { (before : AnyDecoder R) → PullsTitle R.Read before header decoder.old
        → MovesOn R.Read before decoder.old → place ≡ offset_of before
        → SkipsItem R.Read depth (length buffer.old) before result decoder.new }
    ensures within { (closable : Bool) (before : AnyDecoder R) → PullsTitle R.Read before header decoder.old
        → MovesOn R.Read before decoder.old → place ≡ offset_of before → (header ≡ BreakHeader → closable ≡ false)
        → MatchResult result (λ done. ReadsItem R.Read depth before decoder.new)
        (λ error. StopsItem R.Read closable depth (length buffer.old) before error decoder.new) }
    ensures moves_on { MovesOn R.Read decoder.old decoder.new }
{
    let begun = begin_after(decoder, header, buffer)?;
    skip_rest(decoder, begun, place, depth, buffer)
}
