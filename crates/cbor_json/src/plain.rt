//! Writes items that contain no others.

ghost use Rattle.std.specs.Prelude.{◌≡◌, ◌≤◌, ℕ, Bool, None, true};
ghost use Rattle.ciborium_ll.specs.Types.Decoder.{Decoder as AnyDecoder};
ghost use Rattle.ciborium_ll.specs.Title.{title_len};
ghost use Rattle.ciborium_ll.specs.Decoding.{IsSteady, MovesOn, PullsTitle, offset_of, waiting_of};
ghost use Rattle.ciborium_ll.specs.Sides.{sides};
ghost use Rattle.cbor_skip.specs.Due.{IsNest};
ghost use Rattle.cbor_json.specs.ItemStops.{WritesRest};
ghost use Rattle.cbor_diag.specs.Showing.{ReadsFrom};
ghost use Rattle.cbor_json.specs.Reading.{OnReading};
ghost use Rattle.cbor_json.specs.Roles.{has_json};
ghost use Rattle.cbor_diag.specs.declared.strings.TheConstants.{BUFFER_SIZE};

use crate::JsonError;
use crate::put::said;
use crate::role::Role;
use crate::scalars::write_scalar;
use crate::strings::{write_bytes, write_text};
use ciborium_ll::io::{Read, Write};
use ciborium_ll::{Decoder, Header};

/// Writes an integer, a float, a simple value or a string of this role after its header.
pub(crate) fn write_plain<R: Read, W: Write>(
    decoder: &mut Decoder<R>,
    writer: &mut W,
    header: Header,
    role: Role,
) -> Result<(), JsonError<R::Error, W::Error>>
    requires none_waits { waiting_of decoder.old ≡ None }
    requires covered { title_len header ≤ offset_of decoder.old }
    requires no_break { header ≡ Header.Break → ⊥ }
    requires no_nest { IsNest header → ⊥ }
    requires has_json { has_json role header ≡ true }
    ensures reads { (before : AnyDecoder R) (outer : Bool) (depth : ℕ) → PullsTitle R.Read before header decoder.old
        → (IsSteady R.Read before → IsSteady R.Read decoder.old)
        → OnReading (λ answer. ReadsFrom R.Read outer depth BUFFER_SIZE before answer decoder.new) result }
    ensures written { (place : ℕ) → WritesRest R.Read W.Write role header place (sides decoder.old writer.old) result
        (sides decoder.new writer.new) }
    ensures moves_on { MovesOn R.Read decoder.old decoder.new }
{
    match header {
        Header::Bytes(len) => write_bytes(decoder, writer, len, role.base),
        Header::Text(len) => write_text(decoder, writer, len),
        Header::Positive(_) | Header::Negative(_) | Header::Float(_) | Header::Simple(_) => {
            said(write_scalar(writer, header, role.is_key))
        }
        Header::Break | Header::Tag(_) | Header::Array(_) | Header::Map(_) => unreachable!(),
    }
}
