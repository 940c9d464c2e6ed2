//! Reads a byte string into lent memory, and then shows it.

ghost use Rattle.std.specs.Prelude.{◌≡◌, ◌≤◌, ◌+◌, [], true, None, Some, length};
ghost use Rattle.ciborium_ll.specs.Title.{title_len};
ghost use Rattle.ciborium_ll.specs.Strings.{Bytes as byte_strings};
ghost use Rattle.ciborium_ll.specs.Decoding.{MovesOn, offset_of, waiting_of};
ghost use Rattle.ciborium_ll.specs.Skipping.{SkipsString};
ghost use Rattle.ciborium_ll.specs.Slices.{slice_room, slice_written};
ghost use Rattle.ciborium_ll.specs.Sides.{sides};
ghost use Rattle.cbor_diag.specs.EmbeddedShows.{fails_inside};
ghost use Rattle.cbor_diag.specs.HeldStops.{KeepsBody};
ghost use Rattle.cbor_diag.specs.ItemStops.{ShowsRest};
ghost use Rattle.cbor_diag.specs.Places.{is_held, place_of};
ghost use Rattle.cbor_diag.specs.Showing.{OnString};
ghost use Rattle.cbor_diag.specs.declared.strings.TheConstants.{BUFFER_SIZE};
ghost use Rattle.ciborium_ll_grammar.specs.declared.limits.TheConstants.{MOST_LEVELS};

use crate::DiagError;
use crate::embedded::Bodies;
use crate::layout::Line;
use crate::marks::Mark;
use crate::put::said;
use crate::strings::BUFFER_SIZE;
use cbor_skip::SkipError;
use ciborium_ll::io::{Read, SliceReader, SliceWriter, Write};
use ciborium_ll::{Body, Bytes, Decoder, Error, Header, RecodeError};
use ciborium_ll_decoder::copy::copy_body;

/// Shows a byte string of this length after its header: reads it into the memory, and shows it as an item or in quotes.
pub(crate) fn show_held<R: Read, W: Write, B: Bodies>(
    decoder: &mut Decoder<R>,
    writer: &mut W,
    len: usize,
    mark: Mark,
    depth: usize,
    line: &Line,
    memory: &mut [u8],
) -> Result<(), DiagError<R::Error, W::Error>>
    requires none_waits { waiting_of decoder.old ≡ None }
    requires covered { title_len (Header.Bytes (Some len)) ≤ offset_of decoder.old }
    requires held { is_held (place_of line.now B.strings depth (length memory.old)) (Header.Bytes (Some len)) ≡ true }
    requires shallow { line.now.level + depth ≤ MOST_LEVELS }
    ensures reads { OnString (λ answer. SkipsString R.Read byte_strings (Some len) BUFFER_SIZE decoder.old answer
        decoder.new) result }
    ensures shown { ShowsRest R.Read W.Write (fails_inside ⟦<SliceReader<'static> as Read>⟧ W.Write B.strings)
        (place_of line.now B.strings depth (length memory.old)) (Header.Bytes (Some len)) mark
        (sides decoder.old writer.old) result (sides decoder.new writer.new) }
    ensures moves_on { MovesOn R.Read decoder.old decoder.new }
{
    let place = decoder.offset() - Header::Bytes(Some(len)).title_len();
    let body = Body { length: len, place };
    let (space, rest) = memory.split_at_mut(len);
    let mut kept = SliceWriter::new(space);
    match keep_body(decoder, &mut kept, body) {
        Ok(()) => said(B::show(writer, kept.written(), mark, depth, line, rest)),
        Err(error) => Err(DiagError::Read(SkipError::Read(error))),
    }
}

/// Reads the body of a byte string into the slice of a writer that has room for it.
fn keep_body<R: Read>(
    decoder: &mut Decoder<R>,
    kept: &mut SliceWriter<'_>,
    body: Body,
) -> Result<(), Error<R::Error>>
    requires none_waits { waiting_of decoder.old ≡ None }
    requires empty { slice_written kept.old ≡ Some [] }
    requires room { slice_room kept.old ≡ Some body.length }
    ensures kept { KeepsBody R.Read body.length body.place decoder.old result decoder.new (slice_written kept.new) }
    ensures moves_on { MovesOn R.Read decoder.old decoder.new }
{
    match copy_body::<R, SliceWriter<'_>, Bytes>(decoder, body, kept, &mut [0; BUFFER_SIZE]) {
        Ok(()) => Ok(()),
        Err(RecodeError::Read(error)) => Err(error),
        Err(RecodeError::Write(_)) => unreachable!(),
    }
}
