//! Items in diagnostic notation or as JSON, each on a line of its own, and the verdict after them.

ghost use Rattle.std.specs.Prelude.{◌≡◌, ◌≤◌};
ghost use Rattle.ciborium_ll.specs.Decoding.{MovesOn, failures_of};
ghost use Rattle.ciborium_ll.specs.Sides.{sides};
ghost use Rattle.cbor_diag.specs.EmbeddedShows.{ShowsEmbedded};
ghost use Rattle.cbor_diag.specs.Showing.{ReadsShown};
ghost use Rattle.cbor_diag.specs.declared.TheConstants.{MOST_STRINGS};
ghost use Rattle.cbor_json.specs.Reading.{ReadsWritten};
ghost use Rattle.tool_verdicts.specs.Checking.{items_said};
ghost use Rattle.tool_verdicts.specs.Lines.{CountsLines, EndsLines, EndsOrFails, FollowsItem, ReadsLines, ShowsItemIn};
ghost use Rattle.tool_verdicts.specs.Lines.{WritesItemIn, WritesLine, WritesLines, WritesOnly, WritesPart, json_answer};
ghost use Rattle.tool_verdicts.specs.declared.check.TheConstants.{BUFFER_SIZE as CHECK_BUFFER};
ghost use Rattle.ciborium_ll.specs.Limits.{MOST_LEVELS};

use crate::check::{BUFFER_SIZE, end_verdict, fault_of, prefer_failure};
use crate::part::is_enough;
use crate::verdict::Verdict;
use cbor_diag::{DiagError, Style, diagnose, diagnose_embedded};
use cbor_dump::counted::skip_items;
use cbor_embedded::Embedded;
use cbor_json::{JsonError, Mode, write_json};
use cbor_skip::SkipError;
use ciborium_ll::io::{Read, ReadFault, SliceReader, Write};
use ciborium_ll::{Decoder, Error, Header};

/// The length in bytes of the memory for byte strings that are shown as items.
pub const EMBEDDED_ROOM: usize = 65536;

/// The form in which items are written.
#[derive(Clone, Copy)]
pub enum Form {
    /// Diagnostic notation, in this style, with these byte strings shown as the items that they contain.
    Notation(Style, Embedded),
    /// JSON, in this mode.
    Json(Mode),
}

/// How the write of items ended, if no item was at fault.
#[derive(Drop)]
pub enum Ending<E> {
    /// As many items as are wanted were written, and nothing after them was read.
    Enough,
    /// The reader failed with this error before a byte of a further item.
    End(E),
    /// More follows the one item that is wanted, from this offset on.
    More(usize),
}

/// Returns the verdict after a write of items. A read that failed stopped at this offset, with this fault. If it failed
/// for another reason than the end, it takes precedence.
///
/// # Errors
///
/// The writer's error, if the writer failed.
pub fn items_verdict<E: Drop, F>(
    outcome: Result<Ending<E>, JsonError<E, F>>,
    fault: Option<ReadFault>,
    offset: usize,
) -> Result<Result<(), Verdict>, F>
    ensures { result ≡ items_said outcome fault offset }
{
    match outcome {
        Ok(Ending::Enough | Ending::End(_)) => Ok(end_verdict(fault)),
        Ok(Ending::More(place)) => Ok(Err(prefer_failure(fault, Verdict::More(place)))),
        Err(JsonError::Read(error)) => Ok(Err(prefer_failure(fault, fault_of(error, offset)))),
        Err(JsonError::NoJson(place)) => Ok(Err(prefer_failure(fault, Verdict::NoJson(place)))),
        Err(JsonError::Write(error)) => Err(error),
    }
}

/// Writes the items after the first `skip` items: one that nothing may follow if `one` and there is no limit, and
/// otherwise as [`write_items`] does. The call reads the first items as `skip_items` does, and writes nothing of them.
///
/// One item that nothing may follow is written as `write_items` writes it. After it the call reads at most one title. If the
/// reader fails there before a byte comes, the answer is `End`, and otherwise `More` with the offset after the item.
///
/// # Errors
///
/// `Read` if there are fewer items than `skip`, or no item and one is wanted, and the errors of `write_items`.
pub fn write_part<R: Read, W: Write>(
    decoder: &mut Decoder<R>,
    writer: &mut W,
    skip: usize,
    most: Option<usize>,
    one: bool,
    depth: usize,
    form: Form,
) -> Result<Ending<R::Error>, JsonError<R::Error, W::Error>>
where
    R::Error: Drop,
    requires { depth ≤ MOST_LEVELS }
    ensures { WritesPart ⟦<SliceReader<'static> as Read>⟧ R.Read W.Write form depth skip most one CHECK_BUFFER
        (sides decoder.old writer.old) result (sides decoder.new writer.new) }
{
    let mut buffer = [0; BUFFER_SIZE];
    if let Err(error) = skip_items(decoder, skip, depth, &mut buffer) {
        return Err(JsonError::Read(error));
    }
    match most {
        Some(_) => write_items(decoder, writer, most, depth, form),
        None if one => write_only_item(decoder, writer, depth, form),
        None => write_items(decoder, writer, None, depth, form),
    }
}

/// Writes items in this form, each on a line of its own: at most `most` of them. Returns the reader's error at the end,
/// or `Enough` after `most` items, after which it reads no more.
///
/// Tags, arrays and maps nest at most `depth` levels deep, and `depth` is at most 256. If the writer does not fail and
/// each item has this form, the call reads each item as `skip_item` does. It stops if the reader fails before a byte of
/// a further item, or if that item stops.
///
/// The call writes each whole item as `diagnose`, `diagnose_embedded` or `write_json` does, and then a line feed, which
/// it passes on at once. `diagnose_embedded` has [`EMBEDDED_ROOM`] bytes of memory for each item.
///
/// After the last whole line stands the text of the item at which it stopped, or a line that could not be ended.
///
/// The decoder moves on as [`Decoder`] says. The reader fails only for `End` and for `Error::Io`, and then once.
///
/// # Errors
///
/// The error of that call on the last item, or `Write` if a line could not be ended. Each item has
/// notation, so `NoJson` comes for JSON alone.
pub fn write_items<R: Read, W: Write>(
    decoder: &mut Decoder<R>,
    writer: &mut W,
    most: Option<usize>,
    depth: usize,
    form: Form,
) -> Result<Ending<R::Error>, JsonError<R::Error, W::Error>>
    requires { depth ≤ MOST_LEVELS }
    ensures reads { ReadsLines R.Read depth most decoder.old result decoder.new }
    ensures writes { WritesLines ⟦<SliceReader<'static> as Read>⟧ R.Read W.Write form depth most
        (sides decoder.old writer.old) result (sides decoder.new writer.new) }
    ensures failures { CountsLines result (failures_of R.Read decoder.old) (failures_of R.Read decoder.new) }
    ensures moves_on { MovesOn R.Read decoder.old decoder.new }
{
    let mut shown = 0;
    'items: while !is_enough(most, shown) {
        let place = decoder.offset();
        if let Err(error) = write_line(decoder, writer, depth, form) {
            return ending_at(error, place, decoder.offset());
        }
        shown += 1;
    }
    Ok(Ending::Enough)
}

/// Writes one item on a line, and looks whether more follows it.
fn write_only_item<R: Read, W: Write>(
    decoder: &mut Decoder<R>,
    writer: &mut W,
    depth: usize,
    form: Form,
) -> Result<Ending<R::Error>, JsonError<R::Error, W::Error>>
where
    R::Error: Drop,
    requires { depth ≤ MOST_LEVELS }
    ensures { WritesOnly ⟦<SliceReader<'static> as Read>⟧ R.Read W.Write form depth
        (sides decoder.old writer.old) result (sides decoder.new writer.new) }
{
    if let Err(error) = write_line(decoder, writer, depth, form) {
        return Err(error);
    }
    let place = decoder.offset();
    let pulled = decoder.pull();
    Ok(ending_of(pulled, place, decoder.offset()))
}

/// Answers the pull after an item that ends at this place. The pull ended at the offset `stop`.
fn ending_of<E: Drop>(pulled: Result<Header, Error<E>>, place: usize, stop: usize) -> Ending<E>
    ensures { FollowsItem pulled place stop result }
{
    match pulled {
        Err(Error::Io(end)) if stop == place => Ending::End(end),
        _ => Ending::More(place),
    }
}

/// Writes one item in this form, and ends its line.
fn write_line<R: Read, W: Write>(
    decoder: &mut Decoder<R>,
    writer: &mut W,
    depth: usize,
    form: Form,
) -> Result<(), JsonError<R::Error, W::Error>>
    requires { depth ≤ MOST_LEVELS }
    ensures reads { ReadsWritten R.Read depth decoder.old result decoder.new }
    ensures writes { WritesLine ⟦<SliceReader<'static> as Read>⟧ R.Read W.Write form depth
        (sides decoder.old writer.old) result (sides decoder.new writer.new) }
{
    if let Err(error) = write_item(decoder, writer, depth, form) {
        return Err(error);
    }
    match end_line(writer) {
        Ok(()) => Ok(()),
        Err(fault) => Err(JsonError::Write(fault)),
    }
}

/// Writes one item in this form.
fn write_item<R: Read, W: Write>(
    decoder: &mut Decoder<R>,
    writer: &mut W,
    depth: usize,
    form: Form,
) -> Result<(), JsonError<R::Error, W::Error>>
    requires { depth ≤ MOST_LEVELS }
    ensures reads { ReadsWritten R.Read depth decoder.old result decoder.new }
    ensures written { WritesItemIn ⟦<SliceReader<'static> as Read>⟧ R.Read W.Write form depth
        (sides decoder.old writer.old) result (sides decoder.new writer.new) }
{
    match form {
        Form::Notation(style, embedded) => {
            as_json(show_item(decoder, writer, depth, style, embedded))
        }
        Form::Json(mode) => write_json(decoder, writer, depth, mode),
    }
}

/// Shows one item in this style.
fn show_item<R: Read, W: Write>(
    decoder: &mut Decoder<R>,
    writer: &mut W,
    depth: usize,
    style: Style,
    embedded: Embedded,
) -> Result<(), DiagError<R::Error, W::Error>>
    requires { depth ≤ MOST_LEVELS }
    ensures shown { ShowsItemIn ⟦<SliceReader<'static> as Read>⟧ R.Read W.Write style embedded depth
        (sides decoder.old writer.old) result (sides decoder.new writer.new) }
    ensures reads { ReadsShown R.Read depth decoder.old result decoder.new }
{
    match embedded {
        Embedded::Nowhere => diagnose(decoder, writer, depth, style),
        Embedded::Tagged => show_embedded(decoder, writer, depth, style, Embedded::Tagged),
        Embedded::Everywhere => show_embedded(decoder, writer, depth, style, Embedded::Everywhere),
    }
}

/// Shows one item in this style, and byte strings as the items that they contain.
fn show_embedded<R: Read, W: Write>(
    decoder: &mut Decoder<R>,
    writer: &mut W,
    depth: usize,
    style: Style,
    embedded: Embedded,
) -> Result<(), DiagError<R::Error, W::Error>>
    requires { depth ≤ MOST_LEVELS }
    ensures shown { ShowsEmbedded ⟦<SliceReader<'static> as Read>⟧ R.Read W.Write style embedded MOST_STRINGS depth
        EMBEDDED_ROOM (sides decoder.old writer.old) result (sides decoder.new writer.new) }
    ensures reads { ReadsShown R.Read depth decoder.old result decoder.new }
{
    let mut memory = [0; EMBEDDED_ROOM];
    diagnose_embedded(decoder, writer, depth, style, embedded, &mut memory)
}

/// Returns the answer of a show, in the words of a write of JSON.
fn as_json<E, F>(shown: Result<(), DiagError<E, F>>) -> Result<(), JsonError<E, F>>
    ensures { result ≡ json_answer shown }
{
    match shown {
        Ok(()) => Ok(()),
        Err(DiagError::Read(error)) => Err(JsonError::Read(error)),
        Err(DiagError::Write(fault)) => Err(JsonError::Write(fault)),
    }
}

/// Ends the line of an item and flushes the writer.
fn end_line<W: Write>(writer: &mut W) -> Result<(), W::Error>
    ensures { EndsOrFails W.Write writer.old result writer.new }
{
    writer.write_all(b"\n")?;
    writer.flush()
}

/// Answers the error of a write of an item that begins at this place. The write ended at the offset `stop`.
fn ending_at<E, F>(
    error: JsonError<E, F>,
    place: usize,
    stop: usize,
) -> Result<Ending<E>, JsonError<E, F>>
    ensures { EndsLines error place stop result }
{
    match error {
        JsonError::Read(SkipError::Read(Error::Io(end))) if stop == place => Ok(Ending::End(end)),
        error => Err(error),
    }
}
