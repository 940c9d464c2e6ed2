//! Shows items that stand in byte strings, out of lent memory (RFC 8949, 8, and RFC 8610, G.3).
//!
//! A string in a string is shown by another instance of the same functions, so the types say how many may contain one
//! another.

ghost use Rattle.std.specs.Prelude.{◌≡◌, ◌<◌, ◌≤◌, ◌+◌, ◌++◌, ℕ, length, nat_lt, suc, true, false, Some};
ghost use Rattle.std.specs.Prelude.{MatchOption};
ghost use Rattle.ciborium_ll.specs.Items.{IsItem};
ghost use Rattle.ciborium_ll.specs.Encoding.{WritesBytes};
ghost use Rattle.cbor_diag.specs.EmbeddedShows.{ShowsInside, fails_inside};
ghost use Rattle.cbor_diag.specs.HeldStops.{ShowsKept};
ghost use Rattle.cbor_diag.specs.Marks.{mark_text};
ghost use Rattle.cbor_diag.specs.Places.{is_held, place_of};
ghost use Rattle.cbor_diag.specs.StringShows.{quoted_body};
ghost use Rattle.cbor_diag.specs.declared.strings.quotes.Quotes.TheVariants.{Hex};
ghost use Rattle.ciborium_ll_grammar.specs.declared.spelling.Spelling.TheVariants.{Any};
ghost use Rattle.ciborium_ll_grammar.specs.declared.limits.TheConstants.{MOST_LEVELS};

use crate::DiagError;
use crate::layout::Line;
use crate::marks::{Mark, put_marked};
use crate::nests::show_one;
use crate::put::put;
use crate::strings::put_hex;
use cbor_embedded::is_one_item;
use ciborium_ll::io::{Read, SliceReader, Write};
use ciborium_ll::{Decoder, Header, Spelling};
use std::marker::PhantomData;

/// How many byte strings that contain one another are shown as items.
pub(crate) trait Bodies: Sized {
    ghost strings: { ℕ };

    /// Returns whether any is.
    fn are_followed() -> bool
        ensures { result ≡ nat_lt 0 strings };

    /// Shows the body of a byte string, if one of its length is held at the place. Its title has this mark, and the rest
    /// of the memory is lent.
    fn show<W: Write>(
        writer: &mut W,
        body: &[u8],
        mark: Mark,
        depth: usize,
        line: &Line,
        memory: &mut [u8],
    ) -> Result<(), W::Error>
        requires levels { 0 < depth }
        requires shallow { line.now.level + depth ≤ MOST_LEVELS }
        ensures { is_held (place_of line.now strings depth (length body.now + length memory.old))
            (Header.Bytes (Some (length body.now))) ≡ true
            → ShowsKept W.Write (fails_inside ⟦<SliceReader<'static> as Read>⟧ W.Write strings)
            (place_of line.now strings depth (length body.now + length memory.old)) mark body.now writer.old result
            writer.new };
}

/// No byte string is shown as an item.
#[derive(Drop)]
pub(crate) struct Flat(());

impl Bodies for Flat {
    ghost strings = { 0 };

    fn are_followed() -> bool {
        false
    }

    fn show<W: Write>(
        _writer: &mut W,
        _body: &[u8],
        _mark: Mark,
        _depth: usize,
        _line: &Line,
        _memory: &mut [u8],
    ) -> Result<(), W::Error> {
        // No string is held here, so no call comes to this.
        Ok(())
    }
}

/// One more byte string is shown as an item.
#[derive(Drop)]
pub(crate) struct Nested<B>(PhantomData<B>);

impl<B: Bodies> Bodies for Nested<B> {
    ghost strings = { suc B.strings };

    fn are_followed() -> bool {
        true
    }

    fn show<W: Write>(
        writer: &mut W,
        body: &[u8],
        mark: Mark,
        depth: usize,
        line: &Line,
        memory: &mut [u8],
    ) -> Result<(), W::Error> {
        if !is_one_item(body, depth - 1, Spelling::Any) {
            return put_quoted(writer, body, mark);
        }
        put(writer, b"<<")?;
        show_embedded::<W, B>(writer, body, depth - 1, &line.inside(), memory)?;
        put_marked(writer, b">>", mark)
    }
}

/// Shows a body in quotes, and the mark of its title.
fn put_quoted<W: Write>(writer: &mut W, body: &[u8], mark: Mark) -> Result<(), W::Error>
    ensures { WritesBytes W.Write writer.old result (quoted_body Hex body.now ++ mark_text mark) writer.new }
{
    put(writer, b"h'")?;
    put_hex(writer, body)?;
    put_marked(writer, b"'", mark)
}

/// Shows the item that these bytes are.
fn show_embedded<W: Write, B: Bodies>(
    writer: &mut W,
    item: &[u8],
    depth: usize,
    line: &Line,
    memory: &mut [u8],
) -> Result<(), W::Error>
    requires item { IsItem Any depth item.now }
    requires shallow { line.now.level + depth ≤ MOST_LEVELS }
    ensures { ShowsInside ⟦<SliceReader<'static> as Read>⟧ W.Write B.strings
        (place_of line.now B.strings depth (length memory.old)) item.now writer.old result writer.new }
{
    let mut decoder = Decoder::from(SliceReader::new(item));
    match show_one::<SliceReader<'_>, W, B>(&mut decoder, writer, depth, line, memory) {
        Ok(()) => Ok(()),
        Err(DiagError::Write(fault)) => Err(fault),
        Err(DiagError::Read(_)) => unreachable!(),
    }
}

/// Returns the length of the string if it is read into memory of this room before it is shown.
pub(crate) fn held_len<B: Bodies>(
    header: Header,
    depth: usize,
    line: &Line,
    room: usize,
) -> Option<usize>
    ensures { MatchOption result (is_held (place_of line.now B.strings depth room) header ≡ false)
        (λ len. (header ≡ Header.Bytes (Some len)) × (is_held (place_of line.now B.strings depth room) header ≡ true)) }
{
    match header {
        Header::Bytes(Some(len)) if holds::<B>(len, depth, line, room) => Some(len),
        _ => None,
    }
}

/// Returns whether a byte string of this length is read into memory of this room before it is shown.
fn holds<B: Bodies>(len: usize, depth: usize, line: &Line, room: usize) -> bool
    ensures { result ≡ is_held (place_of line.now B.strings depth room) (Header.Bytes (Some len)) }
{
    line.is_asked && B::are_followed() && depth > 0 && len <= room
}
