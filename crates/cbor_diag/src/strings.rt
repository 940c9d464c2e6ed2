//! Shows strings, in quotes.

ghost use Rattle.std.specs.Prelude.{◌≡◌, ◌≤◌, [], None, Some, IfErr, true};
ghost use Rattle.ciborium_ll.specs.Types.Decoder.{Decoder as AnyDecoder};
ghost use Rattle.ciborium_ll.specs.Types.Header.TheVariants as Header;
ghost use Rattle.ciborium_ll.specs.Title.{IsInRange, title_len};
ghost use Rattle.ciborium_ll.specs.Strings.{Bytes as byte_strings, Text as text_strings, kind_header};
ghost use Rattle.ciborium_ll.specs.Decoding.{MovesOn, TakesBack, offset_of, spelling_of, waiting_of};
ghost use Rattle.ciborium_ll.specs.Finishing.{EndsBody};
ghost use Rattle.ciborium_ll.specs.Segments.{IsAtBeginning, progress_of, string_decoder, string_reference};
ghost use Rattle.ciborium_ll.specs.Segments.{string_spelling};
ghost use Rattle.ciborium_ll.specs.Skipping.{SkipsString};
ghost use Rattle.ciborium_ll.specs.Sides.{sides};
ghost use Rattle.cbor_diag.specs.Showing.{IsWriting, OnString, ShowsText};
ghost use Rattle.cbor_diag.specs.declared.strings.TheConstants.{BUFFER_SIZE};
ghost use Rattle.cbor_diag.specs.Marks.{mark_text};
ghost use Rattle.cbor_diag.specs.declared.marks.Mark.{Mark as AnyMark};
ghost use Rattle.cbor_diag.specs.declared.marks.Mark.TheVariants.{Absent};
ghost use Rattle.cbor_diag.specs.OpenShows.{ShowsStringBy};
ghost use Rattle.cbor_diag.specs.StringShows.{CopiesQuoted, ShowsBody, ShowsString, end_text};
ghost use Rattle.cbor_diag.specs.StringShows.{kind_quotes, lead_text};

mod bases;
mod chunks;
mod definite;
pub mod held;
mod noted;
pub mod quoted;
pub mod quotes;

use self::chunks::show_open;
use self::definite::show_definite;
use self::quoted::Quoted;
use self::quotes::Quotes;
pub(crate) use self::quotes::put_hex;
use crate::DiagError;
use crate::marks::Mark;
use crate::put::say;
use cbor_skip::SkipError;
use ciborium_ll::io::{Read, Write};
use ciborium_ll::{Body, Bytes, Chunked, Decoder, Header, RecodeError, Segments, Text};

/// The length in bytes of the buffer through which a string's body is read.
pub const BUFFER_SIZE: usize = 64;

/// Shows a byte string after its header, which has this length and a title of this mark. If `is_exact` is true, a string
/// of the indefinite form shows the strings within it.
#[inline(always)]
pub(crate) fn show_bytes<R: Read, W: Write>(
    decoder: &mut Decoder<R>,
    writer: &mut W,
    len: Option<usize>,
    mark: Mark,
    is_exact: bool,
) -> Result<(), DiagError<R::Error, W::Error>>
    requires none_waits { waiting_of decoder.old ≡ None }
    requires covered { title_len (Header.Bytes len) ≤ offset_of decoder.old }
    ensures reads { OnString (λ answer. SkipsString R.Read byte_strings len BUFFER_SIZE decoder.old answer decoder.new) result }
    ensures text { ShowsStringBy R.Read W.Write byte_strings is_exact len mark BUFFER_SIZE (sides decoder.old writer.old)
        result (sides decoder.new writer.new) }
    ensures moves_on { MovesOn R.Read decoder.old decoder.new }
{
    if is_exact && len.is_none() {
        return show_open::<R, W, Bytes>(decoder, writer, Quotes::Hex);
    }
    show_bytes_bodies(decoder, writer, len, mark)
}

/// Shows a byte string by its bodies, after its header, which has this length and a title of this mark.
#[inline(always)]
fn show_bytes_bodies<R: Read, W: Write>(
    decoder: &mut Decoder<R>,
    writer: &mut W,
    len: Option<usize>,
    mark: Mark,
) -> Result<(), DiagError<R::Error, W::Error>>
    requires none_waits { waiting_of decoder.old ≡ None }
    requires covered { title_len (Header.Bytes len) ≤ offset_of decoder.old }
    ensures reads { OnString (λ answer. SkipsString R.Read byte_strings len BUFFER_SIZE decoder.old answer decoder.new) result }
    ensures text { ShowsString R.Read W.Write byte_strings Quotes.Hex len mark BUFFER_SIZE (sides decoder.old writer.old)
        result (sides decoder.new writer.new) }
    ensures moves_on { MovesOn R.Read decoder.old decoder.new }
{
    match len {
        Some(length) => {
            let place = decoder.offset() - Header::Bytes(len).title_len();
            let body = Body { length, place };
            show_definite::<R, W, Bytes>(decoder, writer, body, Quotes::Hex, mark)
        }
        None => show_segments(&mut decoder.bytes(None), writer, Quotes::Hex),
    }
}

/// Shows a text string after its header, as [`show_bytes`] does.
#[inline(always)]
pub(crate) fn show_text<R: Read, W: Write>(
    decoder: &mut Decoder<R>,
    writer: &mut W,
    len: Option<usize>,
    mark: Mark,
    is_exact: bool,
) -> Result<(), DiagError<R::Error, W::Error>>
    requires none_waits { waiting_of decoder.old ≡ None }
    requires covered { title_len (Header.Text len) ≤ offset_of decoder.old }
    ensures reads { OnString (λ answer. SkipsString R.Read text_strings len BUFFER_SIZE decoder.old answer decoder.new) result }
    ensures text { ShowsStringBy R.Read W.Write text_strings is_exact len mark BUFFER_SIZE (sides decoder.old writer.old)
        result (sides decoder.new writer.new) }
    ensures moves_on { MovesOn R.Read decoder.old decoder.new }
{
    if is_exact && len.is_none() {
        return show_open::<R, W, Text>(decoder, writer, Quotes::Text);
    }
    show_text_bodies(decoder, writer, len, mark)
}

/// Shows a text string by its bodies, after its header, which has this length and a title of this mark.
#[inline(always)]
fn show_text_bodies<R: Read, W: Write>(
    decoder: &mut Decoder<R>,
    writer: &mut W,
    len: Option<usize>,
    mark: Mark,
) -> Result<(), DiagError<R::Error, W::Error>>
    requires none_waits { waiting_of decoder.old ≡ None }
    requires covered { title_len (Header.Text len) ≤ offset_of decoder.old }
    ensures reads { OnString (λ answer. SkipsString R.Read text_strings len BUFFER_SIZE decoder.old answer decoder.new) result }
    ensures text { ShowsString R.Read W.Write text_strings Quotes.Text len mark BUFFER_SIZE (sides decoder.old writer.old)
        result (sides decoder.new writer.new) }
    ensures moves_on { MovesOn R.Read decoder.old decoder.new }
{
    match len {
        Some(length) => {
            let place = decoder.offset() - Header::Text(len).title_len();
            let body = Body { length, place };
            show_definite::<R, W, Text>(decoder, writer, body, Quotes::Text, mark)
        }
        None => show_segments(&mut decoder.text(None), writer, Quotes::Text),
    }
}

/// Shows the segments of a string of the indefinite form from its beginning, in brackets.
#[tactic(auto, using(crate::proofs::StringShowLaws::text_start))]
fn show_segments<R: Read, W: Write, P: Chunked>(
    segments: &mut Segments<'_, R, P>,
    writer: &mut W,
    quotes: Quotes,
) -> Result<(), DiagError<R::Error, W::Error>>
    requires fresh { IsAtBeginning segments.old }
    requires kind { quotes ≡ kind_quotes P.kind }
    ensures reads { (opened : AnyDecoder R) → IsInRange (kind_header P.kind None) → waiting_of opened ≡ None
        → TakesBack R.Read opened (kind_header P.kind None) (string_decoder segments.old)
        → string_spelling segments.old ≡ spelling_of opened
        → OnString (λ answer. SkipsString R.Read P.kind None BUFFER_SIZE opened answer (string_decoder segments.new))
        result }
    ensures moves_on { MovesOn R.Read (string_decoder segments.old) (string_decoder segments.new) }
    ensures text { (opened : AnyDecoder R) (mark : AnyMark) → IsInRange (kind_header P.kind None)
        → waiting_of opened ≡ None → TakesBack R.Read opened (kind_header P.kind None) (string_decoder segments.old)
        → ShowsString R.Read W.Write P.kind quotes None mark BUFFER_SIZE (sides opened writer.old) result
        (sides (string_decoder segments.new) writer.new) }
    ensures same_reference { string_reference segments.new ≡ string_reference segments.old }
{
    let mut is_first = true;
    'segments: loop {
        let Some(body) = segments.advance()? else {
            return close(writer, quotes, is_first);
        };
        open(writer, is_first)?;
        show_body(segments, writer, body, quotes)?;
        is_first = false;
    }
}

/// Writes the text before a string within an open.
fn open<E, W: Write>(writer: &mut W, is_first: bool) -> Result<(), DiagError<E, W::Error>>
    ensures writing { IfErr result IsWriting }
    ensures written { ShowsText W.Write (Some (lead_text true is_first)) writer.old result writer.new }
{
    if is_first {
        say(writer, b"(_ ")
    } else {
        say(writer, b", ")
    }
}

/// Writes the text after the last string within an open. If there is none, the quotes and an underscore show the kind.
fn close<E, W: Write>(
    writer: &mut W,
    quotes: Quotes,
    is_empty: bool,
) -> Result<(), DiagError<E, W::Error>>
    ensures writing { IfErr result IsWriting }
    ensures written { ShowsText W.Write (Some (end_text true quotes Absent is_empty)) writer.old result writer.new }
{
    if is_empty {
        say(writer, quotes.none())
    } else {
        say(writer, b")")
    }
}

/// Writes a mark, if there is one.
fn say_mark<E, W: Write>(writer: &mut W, mark: Mark) -> Result<(), DiagError<E, W::Error>>
    ensures writing { IfErr result IsWriting }
    ensures written { ShowsText W.Write (Some (mark_text mark)) writer.old result writer.new }
{
    if mark.is_marked() {
        say(writer, mark.text())
    } else {
        Ok(())
    }
}

/// Shows the body that `advance` returned last, in quotes.
fn show_body<R: Read, W: Write, P: Chunked>(
    segments: &mut Segments<'_, R, P>,
    writer: &mut W,
    body: Body,
    quotes: Quotes,
) -> Result<(), DiagError<R::Error, W::Error>>
    requires none_waits { waiting_of (string_decoder segments.old) ≡ None }
    requires kind { quotes ≡ kind_quotes P.kind }
    ensures reads { OnString (λ answer. EndsBody R.Read P.kind [] body.length BUFFER_SIZE body.place
        (string_decoder segments.old) answer (string_decoder segments.new)) result }
    ensures text { ShowsBody R.Read W.Write P.kind body.length BUFFER_SIZE body.place quotes
        (sides (string_decoder segments.old) writer.old) result (sides (string_decoder segments.new) writer.new) }
    ensures same_reference { string_reference segments.new ≡ string_reference segments.old }
    ensures progress { progress_of segments.new ≡ progress_of segments.old }
    ensures mode { string_spelling segments.new ≡ string_spelling segments.old }
    ensures moves_on { MovesOn R.Read (string_decoder segments.old) (string_decoder segments.new) }
{
    say::<R::Error, W>(writer, quotes.opening())?;
    match copy_quoted(segments, writer, body, quotes) {
        Ok(()) => {}
        Err(RecodeError::Read(error)) => return Err(DiagError::Read(SkipError::Read(error))),
        Err(RecodeError::Write(fault)) => return Err(DiagError::Write(fault)),
    }
    say(writer, quotes.closing())
}

/// Shows the text between the quotes of that body.
fn copy_quoted<R: Read, W: Write, P: Chunked>(
    segments: &mut Segments<'_, R, P>,
    writer: &mut W,
    body: Body,
    quotes: Quotes,
) -> Result<(), RecodeError<R::Error, W::Error>>
    requires none_waits { waiting_of (string_decoder segments.old) ≡ None }
    requires kind { quotes ≡ kind_quotes P.kind }
    ensures copied { CopiesQuoted R.Read W.Write P.kind body.length BUFFER_SIZE body.place quotes
        (sides (string_decoder segments.old) writer.old) result (sides (string_decoder segments.new) writer.new) }
    ensures same_reference { string_reference segments.new ≡ string_reference segments.old }
    ensures progress { progress_of segments.new ≡ progress_of segments.old }
    ensures mode { string_spelling segments.new ≡ string_spelling segments.old }
    ensures moves_on { MovesOn R.Read (string_decoder segments.old) (string_decoder segments.new) }
{
    let mut quoted = Quoted::new(writer, quotes);
    segments.copy(body, &mut quoted, &mut [0; BUFFER_SIZE])
}
