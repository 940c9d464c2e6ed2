//! Shows items that contain no others.

ghost use Rattle.std.specs.Prelude.{◌≡◌, ◌≤◌, ℕ, Bool, false, None, OnOk};
ghost use Rattle.ciborium_ll.specs.Types.Decoder.{Decoder as AnyDecoder};
ghost use Rattle.ciborium_ll.specs.Title.{title_len};
ghost use Rattle.ciborium_ll.specs.Decoding.{IsSteady, MovesOn, PullsTitle, offset_of, waiting_of};
ghost use Rattle.ciborium_ll.specs.Sides.{sides};
ghost use Rattle.cbor_skip.specs.Due.{IsNest};
ghost use Rattle.cbor_diag.specs.ItemTexts.{RestShown};
ghost use Rattle.cbor_diag.specs.Places.{Place, is_held};
ghost use Rattle.cbor_diag.specs.Showing.{OnReading, ReadsFrom, ShowsHeader};
ghost use Rattle.cbor_diag.specs.declared.strings.TheConstants.{BUFFER_SIZE};

use crate::DiagError;
use crate::marks::Marked;
use crate::put::said;
use crate::scalars::{show_float, show_negative, show_positive, show_simple};
use crate::strings::{show_bytes, show_text};
use ciborium_ll::io::{Read, Write};
use ciborium_ll::{Decoder, Header};

/// Shows an integer, a float, a simple value or a string after its header.
#[inline(always)]
pub(crate) fn show_plain<R: Read, W: Write>(
    decoder: &mut Decoder<R>,
    writer: &mut W,
    marked: Marked,
    is_exact: bool,
) -> Result<(), DiagError<R::Error, W::Error>>
    requires none_waits { waiting_of decoder.old ≡ None }
    requires covered { title_len marked.header ≤ offset_of decoder.old }
    requires no_break { marked.header ≡ Header.Break → ⊥ }
    requires no_nest { IsNest marked.header → ⊥ }
    ensures reads { (before : AnyDecoder R) (outer : Bool) (depth : ℕ)
        → PullsTitle R.Read before marked.header decoder.old → (IsSteady R.Read before → IsSteady R.Read decoder.old)
        → OnReading (λ answer. ReadsFrom R.Read outer depth BUFFER_SIZE before answer decoder.new) result }
    ensures text { ShowsHeader R.Read W.Write is_exact marked.header marked.mark (sides decoder.old writer.old) result
        (sides decoder.new writer.new) }
    ensures shown { (place : Place) → place.line.style.is_exact ≡ is_exact → is_held place marked.header ≡ false
        → OnOk result (RestShown R.Read W.Write place marked.header marked.mark (sides decoder.old writer.old) (sides decoder.new writer.new)) }
    ensures moves_on { MovesOn R.Read decoder.old decoder.new }
{
    let mark = marked.mark;
    match marked.header {
        Header::Positive(number) => said(show_positive(writer, number, mark)),
        Header::Negative(number) => said(show_negative(writer, number, mark)),
        Header::Float(float) => said(show_float(writer, float, is_exact)),
        Header::Simple(number) => said(show_simple(writer, number, mark)),
        Header::Bytes(len) => show_bytes(decoder, writer, len, mark, is_exact),
        Header::Text(len) => show_text(decoder, writer, len, mark, is_exact),
        Header::Break | Header::Tag(_) | Header::Array(_) | Header::Map(_) => unreachable!(),
    }
}
