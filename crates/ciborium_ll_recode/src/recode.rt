//! The copy of elements.

ghost use Rattle.std.specs.Prelude.{◌≡◌, ◌≤◌, ◌↔◌, ℕ, Bool, List, length, IsOk, None, Some};
ghost use Rattle.ciborium_ll_grammar.specs.declared.spelling.Spelling.{Spelling};
ghost use Rattle.ciborium_ll_grammar.specs.Title.{title_len};
ghost use Rattle.ciborium_ll_grammar.specs.Strings.{kind_header};
ghost use Rattle.ciborium_ll_decoder.specs.Decoding.{MovesOn, offset_of, waiting_of};
ghost use Rattle.ciborium_ll_encoder.specs.Encoding.{writer_of};
ghost use Rattle.ciborium_ll_grammar.specs.Faults.{BeginsWithElements};
ghost use Rattle.ciborium_ll_recode.specs.Exactly.{CopiesExactly, OnlyBytesStop};
ghost use Rattle.ciborium_ll_recode.specs.RecodingTold.{IsReady, IsTold, RecodesAnyhow, RecodesTold};
ghost use Rattle.ciborium_ll_recode.specs.Recoding.{CopiesBehind, CopiesOne, Recodes};
ghost use Rattle.ciborium_ll_recode.specs.Recoding.{CopiesSegments, WritesHeader};
ghost use Rattle.ciborium_ll_recode.specs.Sides.{sides_of};
ghost use Rattle.ciborium_ll_grammar.specs.declared.limits.TheConstants.{LEAST_BUFFER};

mod strict;

pub use self::strict::strict_len;
pub use ciborium_ll_decoder::copy::RecodeError;
use ciborium_ll_decoder::copy::copy_body;
use ciborium_ll_decoder::dec::Decoder;
use ciborium_ll_decoder::seg::{Body, Bytes, Chunked, Text, open_segments};
use ciborium_ll_decoder::title::pull_title;
use ciborium_ll_encoder::enc::{Encoder, push_title};
use ciborium_ll_grammar::hdr::{Element, Header};
use ciborium_ll_io::io::{Read, Write};

/// Writes a header.
#[inline(always)]
fn write_header<E, W: Write>(
    encoder: &mut Encoder<W>,
    header: Header,
) -> Result<(), RecodeError<E, W::Error>>
    ensures header { WritesHeader W.Write (writer_of encoder.old) result header (writer_of encoder.new) }
    ensures target { W.target (writer_of encoder.new) ≡ W.target (writer_of encoder.old) }
{
    encoder
        .push(header)
        .map_err(|fault| RecodeError::Write(fault))
}

/// Copies a string of a definite length, after its header.
#[inline(always)]
fn copy_definite<R: Read, W: Write, P: Chunked>(
    decoder: &mut Decoder<R>,
    encoder: &mut Encoder<W>,
    len: usize,
    buffer: &mut [u8],
) -> Result<(), RecodeError<R::Error, W::Error>>
    requires room { LEAST_BUFFER ≤ length buffer.old }
    requires none_waits { waiting_of decoder.old ≡ None }
    requires covered { title_len (kind_header P.kind (Some len)) ≤ offset_of decoder.old }
    ensures copied { CopiesBehind R.Read W.Write (kind_header P.kind (Some len)) (length buffer.old)
        (sides_of decoder.old encoder.old) result (sides_of decoder.new encoder.new) }
    ensures moves_on { MovesOn R.Read decoder.old decoder.new }
    ensures target { W.target (writer_of encoder.new) ≡ W.target (writer_of encoder.old) }
{
    write_header::<R::Error, W>(encoder, P::header(Some(len)))?;
    // `advance` would give this body for the header pushed back, which counts as its shortest title.
    let body = Body {
        length: len,
        place: decoder.offset() - P::header(Some(len)).title_len(),
    };
    copy_body::<R, Encoder<W>, P>(decoder, body, encoder, buffer)
}

/// Does what [`copy_definite`] does, for a body of several chunks. Their loop has its numbers in registers here.
#[inline(never)]
fn copy_long<R: Read, W: Write, P: Chunked>(
    decoder: &mut Decoder<R>,
    encoder: &mut Encoder<W>,
    size: usize,
    buffer: &mut [u8],
) -> Result<(), RecodeError<R::Error, W::Error>>
    requires room { LEAST_BUFFER ≤ length buffer.old }
    requires none_waits { waiting_of decoder.old ≡ None }
    requires covered { title_len (kind_header P.kind (Some size)) ≤ offset_of decoder.old }
    ensures copied { CopiesBehind R.Read W.Write (kind_header P.kind (Some size)) (length buffer.old)
        (sides_of decoder.old encoder.old) result (sides_of decoder.new encoder.new) }
    ensures moves_on { MovesOn R.Read decoder.old decoder.new }
    ensures target { W.target (writer_of encoder.new) ≡ W.target (writer_of encoder.old) }
{
    copy_definite::<R, W, P>(decoder, encoder, size, buffer)
}

/// Copies a string of indefinite length, after its open.
fn copy_indefinite<R: Read, W: Write, P: Chunked>(
    decoder: &mut Decoder<R>,
    encoder: &mut Encoder<W>,
    buffer: &mut [u8],
) -> Result<(), RecodeError<R::Error, W::Error>>
    requires room { LEAST_BUFFER ≤ length buffer.old }
    requires none_waits { waiting_of decoder.old ≡ None }
    ensures copied { CopiesBehind R.Read W.Write (kind_header P.kind None) (length buffer.old)
        (sides_of decoder.old encoder.old) result (sides_of decoder.new encoder.new) }
    ensures moves_on { MovesOn R.Read decoder.old decoder.new }
    ensures target { W.target (writer_of encoder.new) ≡ W.target (writer_of encoder.old) }
{
    write_header::<R::Error, W>(encoder, P::header(None))?;
    copy_segments::<R, W, P>(decoder, encoder, buffer)?;
    write_header(encoder, Header::Break)
}

/// Copies the segments of a string of indefinite length, up to its last break.
fn copy_segments<R: Read, W: Write, P: Chunked>(
    decoder: &mut Decoder<R>,
    encoder: &mut Encoder<W>,
    buffer: &mut [u8],
) -> Result<(), RecodeError<R::Error, W::Error>>
    requires room { LEAST_BUFFER ≤ length buffer.old }
    requires none_waits { waiting_of decoder.old ≡ None }
    ensures copied { CopiesSegments R.Read W.Write P.kind (length buffer.old)
        (sides_of decoder.old encoder.old) result (sides_of decoder.new encoder.new) }
    ensures moves_on { MovesOn R.Read decoder.old decoder.new }
    ensures target { W.target (writer_of encoder.new) ≡ W.target (writer_of encoder.old) }
{
    let mut segments = open_segments::<R, P>(decoder);
    'segments: while let Some(body) = segments.advance()? {
        write_header::<R::Error, W>(encoder, P::header(Some(body.length)))?;
        segments.copy(body, encoder, buffer)?;
    }
    Ok(())
}

/// Copies a string, after its header with this length.
#[inline(always)]
fn copy_string<R: Read, W: Write, P: Chunked>(
    decoder: &mut Decoder<R>,
    encoder: &mut Encoder<W>,
    len: Option<usize>,
    buffer: &mut [u8],
) -> Result<(), RecodeError<R::Error, W::Error>>
    requires room { LEAST_BUFFER ≤ length buffer.old }
    requires none_waits { waiting_of decoder.old ≡ None }
    requires covered { title_len (kind_header P.kind len) ≤ offset_of decoder.old }
    ensures copied { CopiesBehind R.Read W.Write (kind_header P.kind len) (length buffer.old)
        (sides_of decoder.old encoder.old) result (sides_of decoder.new encoder.new) }
    ensures moves_on { MovesOn R.Read decoder.old decoder.new }
    ensures target { W.target (writer_of encoder.new) ≡ W.target (writer_of encoder.old) }
{
    match len {
        Some(length) if length > buffer.len() => {
            copy_long::<R, W, P>(decoder, encoder, length, buffer)
        }
        Some(length) => copy_definite::<R, W, P>(decoder, encoder, length, buffer),
        None => copy_indefinite::<R, W, P>(decoder, encoder, buffer),
    }
}

/// Copies one element as [`recode`] does, with the same answers.
///
/// Its contract also speaks of the elements before this one. Users call [`recode`].
pub fn copy_element<R: Read, W: Write>(
    decoder: &mut Decoder<R>,
    encoder: &mut Encoder<W>,
    buffer: &mut [u8],
) -> Result<(), RecodeError<R::Error, W::Error>>
    requires room { LEAST_BUFFER ≤ length buffer.old }
    ensures { CopiesOne R.Read W.Write (length buffer.old) (sides_of decoder.old encoder.old) result
        (sides_of decoder.new encoder.new) }
{
    let (_header, title) = pull_title(decoder)?;
    match title.element() {
        Element::Bytes(len) => copy_string::<R, W, Bytes>(decoder, encoder, len, buffer),
        Element::Text(len) => copy_string::<R, W, Text>(decoder, encoder, len, buffer),
        // `push` of the header would write the same bytes. This call needs no look at the kind of header.
        Element::Plain => {
            push_title(encoder, title.shortest()).map_err(|fault| RecodeError::Write(fault))
        }
    }
}

/// Copies `count` elements, each in its shortest spelling. An element is a header that begins no string, or a whole
/// string (RFC 7049, 2.1 and 2.2).
///
/// Every title becomes the shortest title of its header. A string of indefinite length keeps its segments, and strings
/// within it lose their opens and breaks. Each chunk of a body goes through `buffer`, which has four bytes at least,
/// and is written at once. `Ok` means that `count` elements were read, each text body UTF-8 by itself, and that their
/// spelling, which is no longer, was written.
///
/// A copy from a strict decoder writes the elements as they are. [`strict_len`] is a strict copy that keeps nothing.
///
/// # Errors
///
/// - `Read` with `Syntax(offset)`: the bytes are no title, a title that may not stand there, or a body that is no text,
///   at the place that [`Error::Syntax`] names.
/// - `Read` with `Io`: the reader failed.
/// - `Read` with `TooLong`: the offset can't take the next read, or the opens can't be counted.
/// - `Write`: the writer failed at the next title or chunk. A beginning of it is written.
///
/// The titles and chunks before an error are written. `Waiting` never comes. The writer stays on its slice.
///
/// # Conditions for success
///
/// Assume a steady reader, an offset that fits, and no header that waits on a strict decoder. The writer has room for
/// the spelling, or for the bytes that are due if fewer elements are next.
///
/// `Ok` then comes exactly if `count` elements are next, for a strict decoder in its spelling. Exactly their shortest
/// spelling is appended, and exactly the bytes after them are left. Otherwise the copy met the first fault, which may
/// be a title that a strict decoder refuses.
///
/// If bytes are told on both sides, `Ok` and `Syntax` mean the same whatever fails. A text body that is cut off and no
/// text either gives `Io` or `Syntax`, by the bytes that the buffer held.
///
/// # Examples
///
/// ```rust
/// let mut buffer = [0; 64];
/// let mut decoder = Decoder::from(reader);
/// let mut encoder = Encoder::from(writer);
/// let copied = recode(&mut decoder, &mut encoder, count, &mut buffer);
/// ```
pub fn recode<R: Read, W: Write>(
    decoder: &mut Decoder<R>,
    encoder: &mut Encoder<W>,
    count: usize,
    buffer: &mut [u8],
) -> Result<(), RecodeError<R::Error, W::Error>>
    requires room { LEAST_BUFFER ≤ length buffer.old }
    ensures exactly { (allowed : Spelling) (due written : List ℕ)
        → OnlyBytesStop R.Read W.Write allowed count (length buffer.old) decoder.old (writer_of encoder.old) due written
        → CopiesExactly R.Read W.Write allowed count due written result decoder.new (writer_of encoder.new) }
    ensures front { (allowed : Spelling) (due written : List ℕ)
        → IsReady R.Read W.Write allowed count (length buffer.old) (sides_of decoder.old encoder.old) due written
        → (IsOk result ↔ BeginsWithElements allowed count due) }
    ensures told { (allowed : Spelling) (due written : List ℕ)
        → IsReady R.Read W.Write allowed count (length buffer.old) (sides_of decoder.old encoder.old) due written
        → RecodesTold R.Read W.Write allowed count due written decoder.old result
        (sides_of decoder.new encoder.new) }
    ensures anyhow { (allowed : Spelling) (due written : List ℕ)
        → IsTold R.Read W.Write allowed (sides_of decoder.old encoder.old) due written
        → RecodesAnyhow R.Read W.Write allowed count (length buffer.old) due written decoder.old result
        (sides_of decoder.new encoder.new) }
    ensures copied { Recodes R.Read W.Write count (length buffer.old) (sides_of decoder.old encoder.old) result
        (sides_of decoder.new encoder.new) }
{
    'elements: for _copied in 0..count {
        copy_element(decoder, encoder, buffer)?;
    }
    Ok(())
}
