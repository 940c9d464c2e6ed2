//! Shows items, and the content of tags, arrays and maps.

ghost use Rattle.std.specs.Prelude.{◌≡◌, ◌≤◌, ◌+◌, ◌++◌, Bool, Err, None, Ok, length, if◌then◌else◌};
ghost use Rattle.ciborium_ll.specs.Types.Decoder.{Decoder as AnyDecoder};
ghost use Rattle.ciborium_ll.specs.Title.{title_len};
ghost use Rattle.ciborium_ll.specs.Decoding.{IsSteady, MovesOn, PullsTitle, offset_of, waiting_of};
ghost use Rattle.ciborium_ll.specs.Encoding.{WritesBytes};
ghost use Rattle.ciborium_ll.specs.Sides.{sides};
ghost use Rattle.cbor_skip.specs.Due.{IsNest};
ghost use Rattle.cbor_skip.specs.Remaining.{closes};
ghost use Rattle.cbor_skip.specs.Skipping.{SkipsWithin};
ghost use Rattle.cbor_diag.specs.EmbeddedShows.{fails_inside};
ghost use Rattle.cbor_diag.specs.Places.{place_of};
ghost use Rattle.cbor_diag.specs.ItemTexts.{item_lead, nest_closing, nest_last, nest_opening};
ghost use Rattle.cbor_diag.specs.ItemStops.{ShowsItemAt, ShowsRest, ShowsWithin};
ghost use Rattle.cbor_diag.specs.Showing.{OnReading, ReadsFrom, ReadsShown};
ghost use Rattle.ciborium_ll_grammar.specs.declared.limits.TheConstants.{MOST_LEVELS};
ghost use Rattle.cbor_diag.specs.declared.strings.TheConstants.{BUFFER_SIZE};

use crate::DiagError;
use crate::embedded::{Bodies, held_len};
use crate::layout::Line;
use crate::marks::{Marked, pull_marked, put_marked};
use crate::memory::show_held;
use crate::plain::show_plain;
use crate::put::{put, said};
use cbor_skip::{Remaining, SkipError};
use ciborium_ll::io::{Read, SliceReader, Write};
use ciborium_ll::{Decoder, Header};
use itoa::Buffer;

/// Shows the next item.
pub(crate) fn show_one<R: Read, W: Write, B: Bodies>(
    decoder: &mut Decoder<R>,
    writer: &mut W,
    depth: usize,
    line: &Line,
    memory: &mut [u8],
) -> Result<(), DiagError<R::Error, W::Error>>
    requires shallow { line.now.level + depth ≤ MOST_LEVELS }
    ensures shown { ShowsItemAt R.Read W.Write (fails_inside ⟦<SliceReader<'static> as Read>⟧ W.Write B.strings)
        (place_of line.now B.strings depth (length memory.old)) (sides decoder.old writer.old) result
        (sides decoder.new writer.new) }
    ensures reads { ReadsShown R.Read depth decoder.old result decoder.new }
{
    let place = decoder.offset();
    let marked = pull_marked(decoder, line.style.is_exact)?;
    if let Header::Break = marked.header {
        return Err(DiagError::Read(SkipError::Break(place)));
    }
    show_item::<R, W, B>(decoder, writer, marked, place, depth, line, memory)
}

/// Shows the content of a tag, an array or a map after its header, and returns whether it is empty.
#[cycle(items)]
pub(crate) fn show_within<R: Read, W: Write, B: Bodies>(
    decoder: &mut Decoder<R>,
    writer: &mut W,
    nest: &Marked,
    depth: usize,
    line: &Line,
    memory: &mut [u8],
) -> Result<bool, DiagError<R::Error, W::Error>>
    requires nest { IsNest nest.now.header }
    requires shallow { line.now.level + depth ≤ MOST_LEVELS }
    ensures reads { OnReading (λ answer. SkipsWithin R.Read nest.now.header depth BUFFER_SIZE decoder.old answer
        decoder.new) result }
    ensures shown { ShowsWithin R.Read W.Write (fails_inside ⟦<SliceReader<'static> as Read>⟧ W.Write B.strings)
        (place_of line.now B.strings depth (length memory.old)) nest.now.header nest.now.mark
        (sides decoder.old writer.old) result (sides decoder.new writer.new) }
    ensures moves_on { MovesOn R.Read decoder.old decoder.new }
{
    let mut remaining = Remaining::behind(nest.header);
    let mut is_first = true;
    'items: while !remaining.is_done() {
        let place = decoder.offset();
        let next = pull_marked(decoder, line.style.is_exact)?;
        if let Header::Break = next.header {
            return at_break(remaining, place, is_first);
        }
        said(before(writer, line, nest, remaining.is_value(), is_first))?;
        show_item::<R, W, B>(decoder, writer, next, place, depth, line, memory)?;
        remaining = remaining.after_item();
        is_first = false;
    }
    Ok(is_first)
}

/// Answers a break at this place, in place of a due item. `is_first` says that no item precedes it.
fn at_break<E, F>(
    remaining: Remaining,
    place: usize,
    is_first: bool,
) -> Result<bool, DiagError<E, F>>
    ensures { result ≡ (if closes remaining then Ok is_first else Err (DiagError.Read (SkipError.Break place))) }
{
    if remaining.closes() {
        return Ok(is_first);
    }
    Err(DiagError::Read(SkipError::Break(place)))
}

/// Shows an item after its header, which was pulled at the offset `place`.
#[cycle(items)]
#[inline(always)]
pub(crate) fn show_item<R: Read, W: Write, B: Bodies>(
    decoder: &mut Decoder<R>,
    writer: &mut W,
    marked: Marked,
    place: usize,
    depth: usize,
    line: &Line,
    memory: &mut [u8],
) -> Result<(), DiagError<R::Error, W::Error>>
    requires none_waits { waiting_of decoder.old ≡ None }
    requires covered { title_len marked.header ≤ offset_of decoder.old }
    requires no_break { marked.header ≡ Header.Break → ⊥ }
    requires shallow { line.now.level + depth ≤ MOST_LEVELS }
    ensures reads { (before : AnyDecoder R) (outer : Bool) → place ≡ offset_of before
        → PullsTitle R.Read before marked.header decoder.old → (IsSteady R.Read before → IsSteady R.Read decoder.old)
        → OnReading (λ answer. ReadsFrom R.Read outer depth BUFFER_SIZE before answer decoder.new) result }
    ensures shown { ShowsRest R.Read W.Write (fails_inside ⟦<SliceReader<'static> as Read>⟧ W.Write B.strings)
        (place_of line.now B.strings depth (length memory.old)) marked.header marked.mark
        (sides decoder.old writer.old) result (sides decoder.new writer.new) }
    ensures moves_on { MovesOn R.Read decoder.old decoder.new }
{
    if let Some(len) = held_len::<B>(marked.header, depth, line, memory.len()) {
        return show_held::<R, W, B>(decoder, writer, len, marked.mark, depth, line, memory);
    }
    match marked.header {
        Header::Tag(_) | Header::Array(_) | Header::Map(_) => {
            if depth == 0 {
                return Err(DiagError::Read(SkipError::Deep(place)));
            }
            // Only here is a reference taken, so that the parts of another item's header stay in registers.
            let nest = marked;
            said(open(writer, &nest))?;
            let inner = line.within(nest.header);
            let is_empty = show_within::<R, W, B>(
                decoder,
                writer,
                &nest,
                depth - 1,
                &inner,
                memory,
            )?;
            said(close(writer, line, &nest, is_empty))
        }
        _ => show_plain(decoder, writer, marked, line.style.is_exact),
    }
}

/// Writes the text before an item.
#[inline(always)]
fn before<W: Write>(
    writer: &mut W,
    line: &Line,
    nest: &Marked,
    is_value: bool,
    is_first: bool,
) -> Result<(), W::Error>
    ensures { WritesBytes W.Write writer.old result
        (item_lead nest.now.header nest.now.mark line.now.style.layout line.now.level is_value is_first) writer.new }
{
    if is_value {
        put(writer, b": ")
    } else {
        line.before(writer, nest, is_first)
    }
}

/// Writes the text before the items of a tag, an array or a map.
fn open<W: Write>(writer: &mut W, nest: &Marked) -> Result<(), W::Error>
    ensures { WritesBytes W.Write writer.old result (nest_opening nest.now.header nest.now.mark) writer.new }
{
    match nest.header {
        Header::Tag(number) => {
            put_marked(writer, Buffer::new().format(number).as_bytes(), nest.mark)?;
            put(writer, b"(")
        }
        Header::Array(Some(_)) => put_marked(writer, b"[", nest.mark),
        Header::Array(None) => put(writer, b"[_"),
        Header::Map(Some(_)) => put_marked(writer, b"{", nest.mark),
        Header::Map(None) => put(writer, b"{_"),
        _ => Ok(()),
    }
}

/// Writes the text after the items of a tag, an array or a map.
fn close<W: Write>(
    writer: &mut W,
    line: &Line,
    nest: &Marked,
    is_empty: bool,
) -> Result<(), W::Error>
    ensures { WritesBytes W.Write writer.old result
        (nest_last nest.now.header nest.now.mark line.now.style.layout line.now.level is_empty
        ++ nest_closing nest.now.header) writer.new }
{
    line.behind(writer, nest, is_empty)?;
    match nest.header {
        Header::Tag(_) => put(writer, b")"),
        Header::Array(_) => put(writer, b"]"),
        Header::Map(_) => put(writer, b"}"),
        _ => Ok(()),
    }
}
