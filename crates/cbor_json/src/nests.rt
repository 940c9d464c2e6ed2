//! Writes items, and the content of tags, arrays and maps.

ghost use Rattle.std.specs.Prelude.{◌≡◌, ◌≤◌, Bool, Err, None, Ok, if◌then◌else◌};
ghost use Rattle.ciborium_ll.specs.Types.Decoder.{Decoder as AnyDecoder};
ghost use Rattle.ciborium_ll.specs.Title.{title_len};
ghost use Rattle.ciborium_ll.specs.Decoding.{IsSteady, MovesOn, PullsTitle, offset_of, waiting_of};
ghost use Rattle.ciborium_ll.specs.Encoding.{WritesBytes};
ghost use Rattle.ciborium_ll.specs.Sides.{sides};
ghost use Rattle.cbor_skip.specs.Due.{IsNest};
ghost use Rattle.cbor_skip.specs.Remaining.{closes};
ghost use Rattle.cbor_skip.specs.Skipping.{SkipsWithin};
ghost use Rattle.cbor_json.specs.ItemTexts.{item_lead, nest_closing, nest_opening};
ghost use Rattle.cbor_json.specs.ItemStops.{WritesRest, WritesWithin};
ghost use Rattle.cbor_diag.specs.Showing.{ReadsFrom};
ghost use Rattle.cbor_json.specs.Reading.{OnReading};
ghost use Rattle.ciborium_ll_grammar.specs.declared.limits.TheConstants.{MOST_LEVELS};
ghost use Rattle.cbor_diag.specs.declared.strings.TheConstants.{BUFFER_SIZE};

use crate::JsonError;
use crate::plain::write_plain;
use crate::put::said;
use crate::role::Role;
use cbor_diag::put::put;
use cbor_skip::{Remaining, SkipError};
use ciborium_ll::io::{Read, Write};
use ciborium_ll::{Decoder, Header};

/// Writes the content of a tag, an array or a map of this role after its header.
#[cycle(items)]
pub(crate) fn write_within<R: Read, W: Write>(
    decoder: &mut Decoder<R>,
    writer: &mut W,
    header: Header,
    depth: usize,
    role: Role,
) -> Result<(), JsonError<R::Error, W::Error>>
    requires nest { IsNest header }
    requires shallow { depth ≤ MOST_LEVELS }
    ensures reads { OnReading (λ answer. SkipsWithin R.Read header depth BUFFER_SIZE decoder.old answer decoder.new) result }
    ensures written { WritesWithin R.Read W.Write role header (sides decoder.old writer.old) result
        (sides decoder.new writer.new) }
    ensures moves_on { MovesOn R.Read decoder.old decoder.new }
{
    let mut remaining = Remaining::behind(header);
    let mut is_first = true;
    'items: while !remaining.is_done() {
        let place = decoder.offset();
        let next = decoder.pull()?;
        if let Header::Break = next {
            return at_break(remaining, place);
        }
        let is_value = remaining.is_value();
        said(before(writer, is_value, is_first))?;
        let inner = role.within(header, is_value);
        write_item(decoder, writer, next, place, depth, inner)?;
        remaining = remaining.after_item();
        is_first = false;
    }
    Ok(())
}

/// Answers a break at this place, in place of a due item.
fn at_break<E, F>(remaining: Remaining, place: usize) -> Result<(), JsonError<E, F>>
    ensures { result ≡ (if closes remaining then Ok (tt {0}) else Err (JsonError.Read (SkipError.Break place))) }
{
    if remaining.closes() {
        return Ok(());
    }
    Err(JsonError::Read(SkipError::Break(place)))
}

/// Writes an item of this role after its header, which was pulled at the offset `place`.
#[cycle(items)]
pub(crate) fn write_item<R: Read, W: Write>(
    decoder: &mut Decoder<R>,
    writer: &mut W,
    header: Header,
    place: usize,
    depth: usize,
    role: Role,
) -> Result<(), JsonError<R::Error, W::Error>>
    requires none_waits { waiting_of decoder.old ≡ None }
    requires covered { title_len header ≤ offset_of decoder.old }
    requires no_break { header ≡ Header.Break → ⊥ }
    requires shallow { depth ≤ MOST_LEVELS }
    ensures reads { (before : AnyDecoder R) (outer : Bool) → place ≡ offset_of before
        → PullsTitle R.Read before header decoder.old → (IsSteady R.Read before → IsSteady R.Read decoder.old)
        → OnReading (λ answer. ReadsFrom R.Read outer depth BUFFER_SIZE before answer decoder.new) result }
    ensures written { WritesRest R.Read W.Write role header place (sides decoder.old writer.old) result
        (sides decoder.new writer.new) }
    ensures moves_on { MovesOn R.Read decoder.old decoder.new }
{
    if !role.has_json(header) {
        return Err(JsonError::NoJson(place));
    }
    match header {
        Header::Tag(_) | Header::Array(_) | Header::Map(_) => {
            if depth == 0 {
                return Err(JsonError::Read(SkipError::Deep(place)));
            }
            said(open(writer, header))?;
            write_within(decoder, writer, header, depth - 1, role)?;
            said(close(writer, header))
        }
        _ => write_plain(decoder, writer, header, role),
    }
}

/// Writes the text before an item of an array or a map.
fn before<W: Write>(writer: &mut W, is_value: bool, is_first: bool) -> Result<(), W::Error>
    ensures { WritesBytes W.Write writer.old result (item_lead is_value is_first) writer.new }
{
    if is_value {
        return put(writer, b":");
    }
    if is_first {
        return Ok(());
    }
    put(writer, b",")
}

/// Writes the text before the items of an array or a map.
fn open<W: Write>(writer: &mut W, header: Header) -> Result<(), W::Error>
    ensures { WritesBytes W.Write writer.old result (nest_opening header) writer.new }
{
    match header {
        Header::Array(_) => put(writer, b"["),
        Header::Map(_) => put(writer, b"{"),
        _ => Ok(()),
    }
}

/// Writes the text after the items of an array or a map.
fn close<W: Write>(writer: &mut W, header: Header) -> Result<(), W::Error>
    ensures { WritesBytes W.Write writer.old result (nest_closing header) writer.new }
{
    match header {
        Header::Array(_) => put(writer, b"]"),
        Header::Map(_) => put(writer, b"}"),
        _ => Ok(()),
    }
}
