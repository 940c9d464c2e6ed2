//! Shows strings of a definite length. One read takes a short body.

ghost use Rattle.std.specs.Prelude.{◌≡◌, ◌+◌, ◌-◌, ◌<◌, ◌≤◌, [], None, Some, MatchResult, length};
ghost use Rattle.ciborium_ll.specs.Decoding.{MovesOn, ReadsPast, offset_limit, offset_of, waiting_of};
ghost use Rattle.ciborium_ll.specs.Finishing.{EndsBody};
ghost use Rattle.ciborium_ll.specs.Sides.{sides};
ghost use Rattle.ciborium_ll.specs.Skipping.{SkipsString};
ghost use Rattle.ciborium_ll.specs.Strings.{Kind, kind_header};
ghost use Rattle.ciborium_ll.specs.Title.{title_len};
ghost use Rattle.ciborium_ll_decoder.specs.Finishing.{StopsReading};
ghost use Rattle.cbor_diag.specs.Showing.{OnString};
ghost use Rattle.cbor_diag.specs.StringShows.{CopiesQuoted, IsShownFront, ShowsBody, ShowsString, kind_quotes};
ghost use Rattle.cbor_diag.specs.declared.strings.TheConstants.{BUFFER_SIZE};

use super::held::Held;
use super::quotes::{Quotes, show_quoted};
use super::{BUFFER_SIZE, copy_quoted, say_mark};
use crate::DiagError;
use crate::marks::Mark;
use crate::put::{put, say};
use cbor_escapes::are_unescaped;
use cbor_skip::SkipError;
use ciborium_ll::io::{Read, Write};
use ciborium_ll::{Body, Chunked, Decoder, Error, RecodeError};
use ciborium_ll_decoder::seg::open_segments;
use ciborium_ll_grammar::limits::MOST_KEPT;
use ciborium_ll_text::state::{State, text_front};

/// Shows a string of a definite length after its header: its body, and the mark of its title.
#[inline(always)]
pub(super) fn show_definite<R: Read, W: Write, P: Chunked>(
    decoder: &mut Decoder<R>,
    writer: &mut W,
    body: Body,
    quotes: Quotes,
    mark: Mark,
) -> Result<(), DiagError<R::Error, W::Error>>
    requires none_waits { waiting_of decoder.old ≡ None }
    requires kind { quotes ≡ kind_quotes P.kind }
    requires place { body.place ≡ offset_of decoder.old - title_len (kind_header P.kind (Some body.length)) }
    ensures reads { OnString (λ answer. SkipsString R.Read P.kind (Some body.length) BUFFER_SIZE decoder.old answer
        decoder.new) result }
    ensures text { ShowsString R.Read W.Write P.kind quotes (Some body.length) mark BUFFER_SIZE
        (sides decoder.old writer.old) result (sides decoder.new writer.new) }
    ensures moves_on { MovesOn R.Read decoder.old decoder.new }
{
    show_alone::<R, W, P>(decoder, writer, body, quotes)?;
    say_mark(writer, mark)
}

/// Shows this body in quotes.
#[inline(always)]
pub(super) fn show_alone<R: Read, W: Write, P: Chunked>(
    decoder: &mut Decoder<R>,
    writer: &mut W,
    body: Body,
    quotes: Quotes,
) -> Result<(), DiagError<R::Error, W::Error>>
    requires none_waits { waiting_of decoder.old ≡ None }
    requires kind { quotes ≡ kind_quotes P.kind }
    ensures reads { OnString (λ answer. EndsBody R.Read P.kind [] body.length BUFFER_SIZE body.place decoder.old answer
        decoder.new) result }
    ensures text { ShowsBody R.Read W.Write P.kind body.length BUFFER_SIZE body.place quotes
        (sides decoder.old writer.old) result (sides decoder.new writer.new) }
    ensures moves_on { MovesOn R.Read decoder.old decoder.new }
{
    say::<R::Error, W>(writer, quotes.opening())?;
    match copy_alone::<R, W, P>(decoder, writer, body, quotes) {
        Ok(()) => {}
        Err(RecodeError::Read(error)) => return Err(DiagError::Read(SkipError::Read(error))),
        Err(RecodeError::Write(fault)) => return Err(DiagError::Write(fault)),
    }
    say(writer, quotes.closing())
}

/// Shows the text between the quotes of this body.
#[inline(always)]
fn copy_alone<R: Read, W: Write, P: Chunked>(
    decoder: &mut Decoder<R>,
    writer: &mut W,
    body: Body,
    quotes: Quotes,
) -> Result<(), RecodeError<R::Error, W::Error>>
    requires none_waits { waiting_of decoder.old ≡ None }
    requires kind { quotes ≡ kind_quotes P.kind }
    ensures copied { CopiesQuoted R.Read W.Write P.kind body.length BUFFER_SIZE body.place quotes
        (sides decoder.old writer.old) result (sides decoder.new writer.new) }
    ensures moves_on { MovesOn R.Read decoder.old decoder.new }
{
    if body.length <= BUFFER_SIZE && decoder.offset() <= usize::MAX - BUFFER_SIZE {
        return copy_short::<R, W, P>(decoder, writer, body, quotes);
    }
    let mut segments = open_segments::<R, P>(decoder);
    copy_quoted(&mut segments, writer, body, quotes)
}

/// Shows the text between the quotes of this body, which a buffer holds. A text of ASCII without an escape
/// goes out as it is. Of a text that is no UTF-8 the call shows the longest front that is, unless more than three bytes
/// follow it.
fn copy_short<R: Read, W: Write, P: Chunked>(
    decoder: &mut Decoder<R>,
    writer: &mut W,
    body: Body,
    quotes: Quotes,
) -> Result<(), RecodeError<R::Error, W::Error>>
    requires none_waits { waiting_of decoder.old ≡ None }
    requires kind { quotes ≡ kind_quotes P.kind }
    requires short { body.length ≤ BUFFER_SIZE }
    requires fits { offset_of decoder.old + BUFFER_SIZE < offset_limit }
    ensures copied { CopiesQuoted R.Read W.Write P.kind body.length BUFFER_SIZE body.place quotes
        (sides decoder.old writer.old) result (sides decoder.new writer.new) }
    ensures moves_on { MovesOn R.Read decoder.old decoder.new }
{
    let mut memory = [0; BUFFER_SIZE];
    let bytes = &mut memory[..body.length];
    read_short::<R, P>(decoder, body, bytes)?;
    if matches!(quotes, Quotes::Text) && are_unescaped(bytes) {
        match put(writer, bytes) {
            Ok(()) => return Ok(()),
            Err(fault) => return Err(RecodeError::Write(fault)),
        }
    }
    let front = shown_front(quotes, bytes);
    let rest = bytes.len() - front.len();
    if rest > MOST_KEPT {
        return Err(RecodeError::Read(Error::Syntax(body.place)));
    }
    let mut held = Held::Nothing;
    match show_quoted(writer, quotes, &mut held, front) {
        Err(fault) => Err(RecodeError::Write(fault)),
        Ok(()) if rest > 0 => Err(RecodeError::Read(Error::Syntax(body.place))),
        Ok(()) => Ok(()),
    }
}

/// Reads a body whole. An empty body takes no read.
fn read_short<R: Read, P: Chunked>(
    decoder: &mut Decoder<R>,
    body: Body,
    bytes: &mut [u8],
) -> Result<(), Error<R::Error>>
    requires none_waits { waiting_of decoder.old ≡ None }
    requires whole { length bytes.old ≡ body.length }
    requires short { body.length ≤ BUFFER_SIZE }
    requires fits { offset_of decoder.old + BUFFER_SIZE < offset_limit }
    ensures reads { MatchResult result
        (λ done. (length bytes.new ≡ body.length) × ReadsPast R.Read decoder.old bytes.new decoder.new)
        (λ error. StopsReading R.Read P.kind [] body.length [] body.place body.length decoder.old error decoder.new) }
    ensures moves_on { MovesOn R.Read decoder.old decoder.new }
{
    if bytes.is_empty() {
        return Ok(());
    }
    decoder.read_exact(bytes)
}

/// Returns the front of a body that may be shown: of a text the longest front that is UTF-8, and otherwise the body.
fn shown_front(quotes: Quotes, bytes: &[u8]) -> &[u8]
    ensures within { length result.now ≤ length bytes.now }
    ensures front { (kind : Kind) → quotes ≡ kind_quotes kind → IsShownFront kind bytes.now result.now }
{
    match quotes {
        Quotes::Text => text_front(bytes, 0, State::Between).0,
        _ => bytes,
    }
}
