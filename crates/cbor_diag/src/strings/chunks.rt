//! Shows strings of indefinite length with all that their titles say.

ghost use Rattle.std.specs.Prelude.{◌≡◌, ◌≤◌, ◌<◌, [], None, IfOk, OnOk};
ghost use Rattle.ciborium_ll.specs.Decoding.{MovesOn, offset_of, waiting_of};
ghost use Rattle.ciborium_ll.specs.Finishing.{EndsBody};
ghost use Rattle.ciborium_ll.specs.Skipping.{SkipsString};
ghost use Rattle.ciborium_ll.specs.Sides.{sides};
ghost use Rattle.cbor_diag.specs.declared.strings.TheConstants.{BUFFER_SIZE};
ghost use Rattle.cbor_diag.specs.Marks.{mark_text};
ghost use Rattle.cbor_diag.specs.NextShows.{IsNext, ShowsNext};
ghost use Rattle.cbor_diag.specs.OpenShows.{ShowsChunk, ShowsOpen};
ghost use Rattle.cbor_diag.specs.Showing.{OnString};
ghost use Rattle.cbor_diag.specs.StringShows.{ShowsBody, kind_quotes};

use super::definite::show_alone;
use super::quotes::Quotes;
use super::{BUFFER_SIZE, close, open, say_mark};
use crate::DiagError;
use crate::marks::{Mark, pull_marked};
use cbor_skip::SkipError;
use ciborium_ll::io::{Read, Write};
use ciborium_ll::{Body, Chunked, Decoder, Error, Header, Spelling};

/// How far a string of the indefinite form was shown.
#[derive(Clone, Copy)]
pub(crate) struct Far {
    /// How many opens are not closed.
    opens: usize,
    /// No string follows the last one of them.
    is_first: bool,
}

/// What a title begins or ends within a string of the indefinite form.
#[derive(Clone, Copy)]
pub(crate) enum Next {
    /// A string of this length.
    String(usize),
    /// A string of the indefinite form.
    Open,
    /// The end of the last open.
    Break,
    /// Nothing that may stand there.
    Other,
}

/// Shows a string of the indefinite form after its open.
pub(super) fn show_open<R: Read, W: Write, P: Chunked>(
    decoder: &mut Decoder<R>,
    writer: &mut W,
    quotes: Quotes,
) -> Result<(), DiagError<R::Error, W::Error>>
    requires none_waits { waiting_of decoder.old ≡ None }
    requires counted { 0 < offset_of decoder.old }
    requires kind { quotes ≡ kind_quotes P.kind }
    ensures reads { OnString (λ answer. SkipsString R.Read P.kind None BUFFER_SIZE decoder.old answer decoder.new) result }
    ensures text { ShowsOpen R.Read W.Write P.kind BUFFER_SIZE (sides decoder.old writer.old) result
        (sides decoder.new writer.new) }
    ensures moves_on { MovesOn R.Read decoder.old decoder.new }
{
    let mut far = Far {
        opens: 1,
        is_first: true,
    };
    'titles: while far.opens > 0 {
        far = show_next::<R, W, P>(decoder, writer, quotes, far)?;
    }
    Ok(())
}

/// Pulls the next title of the string, and shows what it begins or ends. Returns how far the string then is shown.
fn show_next<R: Read, W: Write, P: Chunked>(
    decoder: &mut Decoder<R>,
    writer: &mut W,
    quotes: Quotes,
    far: Far,
) -> Result<Far, DiagError<R::Error, W::Error>>
    requires counted { far.opens ≤ offset_of decoder.old }
    requires open { 0 < far.opens }
    requires kind { quotes ≡ kind_quotes P.kind }
    ensures next { ShowsNext R.Read W.Write P.kind BUFFER_SIZE far.opens far.is_first (sides decoder.old writer.old)
        result (sides decoder.new writer.new) }
    ensures rises { OnOk result (offset_of decoder.old < offset_of decoder.new) }
    ensures counted { IfOk result (λ after. after.opens ≤ offset_of decoder.new) }
    ensures moves_on { MovesOn R.Read decoder.old decoder.new }
{
    let spelling = decoder.spelling();
    let place = decoder.offset();
    let marked = pull_marked(decoder, true)?;
    match next_of::<P>(marked.header, spelling) {
        Next::String(len) => {
            let body = Body { length: len, place };
            show_chunk::<R, W, P>(decoder, writer, body, quotes, far.is_first, marked.mark)?;
            Ok(Far {
                opens: far.opens,
                is_first: false,
            })
        }
        Next::Open => {
            open(writer, far.is_first)?;
            Ok(Far {
                opens: far.opens + 1,
                is_first: true,
            })
        }
        Next::Break => {
            close(writer, quotes, far.is_first)?;
            Ok(Far {
                opens: far.opens - 1,
                is_first: false,
            })
        }
        Next::Other => Err(DiagError::Read(SkipError::Read(Error::Syntax(place)))),
    }
}

/// Returns what a title of this header begins or ends within a string of the kind.
fn next_of<P: Chunked>(header: Header, spelling: Spelling) -> Next
    ensures { IsNext P.kind spelling header result }
{
    match P::length(header) {
        Some(Some(len)) => Next::String(len),
        Some(None) if spelling.is_shortest() => Next::Other,
        Some(None) => Next::Open,
        None => {
            if header == Header::Break {
                Next::Break
            } else {
                Next::Other
            }
        }
    }
}

/// Shows a string of a definite length within the string: the text before it, this body, and the mark of its title.
fn show_chunk<R: Read, W: Write, P: Chunked>(
    decoder: &mut Decoder<R>,
    writer: &mut W,
    body: Body,
    quotes: Quotes,
    is_first: bool,
    mark: Mark,
) -> Result<(), DiagError<R::Error, W::Error>>
    requires none_waits { waiting_of decoder.old ≡ None }
    requires kind { quotes ≡ kind_quotes P.kind }
    ensures reads { OnString (λ answer. EndsBody R.Read P.kind [] body.length BUFFER_SIZE body.place decoder.old answer
        decoder.new) result }
    ensures text { ShowsChunk R.Read W.Write P.kind body.length BUFFER_SIZE body.place is_first (mark_text mark)
        (sides decoder.old writer.old) result (sides decoder.new writer.new) }
    ensures moves_on { MovesOn R.Read decoder.old decoder.new }
{
    open::<R::Error, W>(writer, is_first)?;
    show_alone::<R, W, P>(decoder, writer, body, quotes)?;
    say_mark(writer, mark)
}
