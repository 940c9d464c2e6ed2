//! Strings that are read to their end (RFC 7049, 2.1 and 2.2.2).

ghost use Rattle.std.specs.Prelude.{◌≡◌, ◌≤◌, ℕ, Option, None, length};
ghost use Rattle.ciborium_ll_decoder.specs.declared.dec.Decoder.{Decoder as AnyDecoder};
ghost use Rattle.ciborium_ll_grammar.specs.declared.hdr.Header.TheVariants as Header;
ghost use Rattle.ciborium_ll_grammar.specs.Title.{IsInRange, title_len};
ghost use Rattle.ciborium_ll_grammar.specs.Strings.{Bytes as byte_strings, Text as text_strings, kind_header};
ghost use Rattle.ciborium_ll_decoder.specs.Decoding.{MovesOn, TakesBack, offset_of, spelling_of, waiting_of};
ghost use Rattle.ciborium_ll_decoder.specs.Segments.{IsAtBeginning, string_decoder, string_reference, string_spelling};
ghost use Rattle.ciborium_ll_decoder.specs.Skipping.{SkipsOver, SkipsString};
ghost use Rattle.ciborium_ll_grammar.specs.declared.limits.TheConstants.{LEAST_BUFFER};

use crate::dec::{Decoder, Error};
use crate::seg::{Bytes, Chunked, Segments, Text, finish_body};
use ciborium_ll_io::io::Read;

/// Reads a byte string to its end, after its header with this length, which was pulled last.
///
/// `buffer` has four bytes at least. `Ok` means that exactly the rest of one whole string is consumed.
///
/// # Errors
///
/// - `Syntax(offset)`: the bytes there are no title, or a title that may not stand within the string.
/// - `Io`: the reader failed.
/// - `TooLong`: the offset can't take the next read.
///
/// `Waiting` never comes. Bytes that were read before an error are consumed. A body fails as [`Segment::finish`] says.
pub fn skip_bytes<R: Read>(
    decoder: &mut Decoder<R>,
    len: Option<usize>,
    buffer: &mut [u8],
) -> Result<(), Error<R::Error>>
    requires room { LEAST_BUFFER ≤ length buffer.old }
    requires none_waits { waiting_of decoder.old ≡ None }
    requires covered { title_len (Header.Bytes len) ≤ offset_of decoder.old }
    ensures { SkipsOver R.Read byte_strings len (length buffer.old) decoder.old result decoder.new }
{
    match len {
        Some(length) => finish_body::<R, Bytes>(decoder, length, buffer),
        None => skip_segments::<R, Bytes>(&mut decoder.bytes(None), buffer),
    }
}

/// Reads a text string to its end as [`skip_bytes`] does. `Ok` means also that each body is UTF-8.
///
/// # Errors
///
/// - `Syntax(offset)`, also: a body is no text by itself, at the place that [`Error::Syntax`] names.
/// - The other errors of [`skip_bytes`].
pub fn skip_text<R: Read>(
    decoder: &mut Decoder<R>,
    len: Option<usize>,
    buffer: &mut [u8],
) -> Result<(), Error<R::Error>>
    requires room { LEAST_BUFFER ≤ length buffer.old }
    requires none_waits { waiting_of decoder.old ≡ None }
    requires covered { title_len (Header.Text len) ≤ offset_of decoder.old }
    ensures { SkipsOver R.Read text_strings len (length buffer.old) decoder.old result decoder.new }
{
    match len {
        Some(length) => finish_body::<R, Text>(decoder, length, buffer),
        None => skip_segments::<R, Text>(&mut decoder.text(None), buffer),
    }
}

/// Reads the segments of a string, each to its end. No title of the string was read before.
fn skip_segments<R: Read, P: Chunked>(
    segments: &mut Segments<'_, R, P>,
    buffer: &mut [u8],
) -> Result<(), Error<R::Error>>
    requires room { LEAST_BUFFER ≤ length buffer.old }
    requires fresh { IsAtBeginning segments.old }
    ensures skipped { (opened : AnyDecoder R) (len : Option ℕ) → IsInRange (kind_header P.kind len)
        → waiting_of opened ≡ None → TakesBack R.Read opened (kind_header P.kind len) (string_decoder segments.old)
        → string_spelling segments.old ≡ spelling_of opened
        → SkipsString R.Read P.kind len (length buffer.old) opened result (string_decoder segments.new) }
    ensures moves_on { MovesOn R.Read (string_decoder segments.old) (string_decoder segments.new) }
    ensures same_reference { string_reference segments.new ≡ string_reference segments.old }
{
    'segments: while let Some(body) = segments.advance()? {
        segments.finish(body, buffer)?;
    }
    Ok(())
}
