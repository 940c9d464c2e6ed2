//! Writes strings, in quotes.

ghost use Rattle.std.specs.Prelude.{◌≡◌, ◌≤◌, ◌∷◌, ◌++◌, ℕ, List, [], Option, None};
ghost use Rattle.ciborium_ll.specs.Types.Decoder.{Decoder as AnyDecoder};
ghost use Rattle.ciborium_ll.specs.Types.Header.TheVariants as Header;
ghost use Rattle.ciborium_ll.specs.Title.{IsInRange, title_len};
ghost use Rattle.ciborium_ll.specs.Strings.{Bytes as byte_strings, Text as text_strings, kind_header};
ghost use Rattle.ciborium_ll.specs.Encoding.{WritesAll, WritesBytes};
ghost use Rattle.ciborium_ll.specs.Decoding.{MovesOn, TakesBack, offset_of, spelling_of, waiting_of};
ghost use Rattle.ciborium_ll.specs.Segments.{IsAtBeginning, string_decoder, string_reference, string_spelling};
ghost use Rattle.ciborium_ll.specs.Skipping.{SkipsString};
ghost use Rattle.ciborium_ll.specs.Sides.{sides};
ghost use Rattle.cbor_diag.specs.declared.strings.TheConstants.{BUFFER_SIZE};
ghost use Rattle.cbor_diag.specs.Passing.{held_end};
ghost use Rattle.cbor_diag.specs.declared.strings.quotes.Quotes.TheVariants.{Text as text_quotes};
ghost use Rattle.cbor_json.specs.Reading.{OnCopy, OnString};
ghost use Rattle.cbor_json.specs.StringTexts.{IsQuotesOf, string_opening, string_quotes};
ghost use Rattle.cbor_json.specs.StringWrites.{CopiesContent, CopiesQuoted, WritesString};

use crate::JsonError;
use crate::put::said;
use crate::role::Base;
use cbor_diag::put::put;
use cbor_diag::strings::BUFFER_SIZE;
use cbor_diag::strings::held::Held;
use cbor_diag::strings::quoted::Quoted;
use cbor_diag::strings::quotes::{Quotes, show_end};
use cbor_skip::SkipError;
use ciborium_ll::io::{Read, Write};
use ciborium_ll::{Chunked, Decoder, RecodeError, Segments};

/// Writes a byte string after its header, which has this length.
pub(crate) fn write_bytes<R: Read, W: Write>(
    decoder: &mut Decoder<R>,
    writer: &mut W,
    len: Option<usize>,
    base: Base,
) -> Result<(), JsonError<R::Error, W::Error>>
    requires none_waits { waiting_of decoder.old ≡ None }
    requires covered { title_len (Header.Bytes len) ≤ offset_of decoder.old }
    ensures reads { OnString (λ answer. SkipsString R.Read byte_strings len BUFFER_SIZE decoder.old answer decoder.new) result }
    ensures written { WritesString R.Read W.Write byte_strings (string_quotes byte_strings base) len
        (string_opening byte_strings base) BUFFER_SIZE (sides decoder.old writer.old) result
        (sides decoder.new writer.new) }
    ensures moves_on { MovesOn R.Read decoder.old decoder.new }
{
    said(put(writer, base.opening()))?;
    let mut segments = decoder.bytes(len);
    write_segments(&mut segments, writer, base.quotes())
}

/// Writes a text string after its header, which has this length.
pub(crate) fn write_text<R: Read, W: Write>(
    decoder: &mut Decoder<R>,
    writer: &mut W,
    len: Option<usize>,
) -> Result<(), JsonError<R::Error, W::Error>>
    requires none_waits { waiting_of decoder.old ≡ None }
    requires covered { title_len (Header.Text len) ≤ offset_of decoder.old }
    ensures reads { OnString (λ answer. SkipsString R.Read text_strings len BUFFER_SIZE decoder.old answer decoder.new) result }
    ensures written { WritesString R.Read W.Write text_strings text_quotes len (34 ∷ []) BUFFER_SIZE
        (sides decoder.old writer.old) result (sides decoder.new writer.new) }
    ensures moves_on { MovesOn R.Read decoder.old decoder.new }
{
    said(put(writer, b"\""))?;
    let mut segments = decoder.text(len);
    write_segments(&mut segments, writer, Quotes::Text)
}

/// Writes the content of a string from its beginning, and the quote after it. The text before the content was written.
fn write_segments<R: Read, W: Write, P: Chunked>(
    segments: &mut Segments<'_, R, P>,
    writer: &mut W,
    quotes: Quotes,
) -> Result<(), JsonError<R::Error, W::Error>>
    requires fresh { IsAtBeginning segments.old }
    requires kind { IsQuotesOf P.kind quotes }
    ensures reads { (opened : AnyDecoder R) (len : Option ℕ) → IsInRange (kind_header P.kind len)
        → waiting_of opened ≡ None → TakesBack R.Read opened (kind_header P.kind len) (string_decoder segments.old)
        → string_spelling segments.old ≡ spelling_of opened
        → OnString (λ answer. SkipsString R.Read P.kind len BUFFER_SIZE opened answer (string_decoder segments.new)) result }
    ensures written { (opened : AnyDecoder R) (len : Option ℕ) (opening : List ℕ) (before : W)
        → IsInRange (kind_header P.kind len) → waiting_of opened ≡ None
        → TakesBack R.Read opened (kind_header P.kind len) (string_decoder segments.old)
        → WritesAll W.Write before opening writer.old
        → WritesString R.Read W.Write P.kind quotes len opening BUFFER_SIZE (sides opened before) result
        (sides (string_decoder segments.new) writer.new) }
    ensures moves_on { MovesOn R.Read (string_decoder segments.old) (string_decoder segments.new) }
    ensures same_reference { string_reference segments.new ≡ string_reference segments.old }
{
    let mut held = Held::Nothing;
    match copy_quoted(segments, writer, quotes, &mut held) {
        Ok(()) => {}
        Err(RecodeError::Read(error)) => return Err(JsonError::Read(SkipError::Read(error))),
        Err(RecodeError::Write(fault)) => return Err(JsonError::Write(fault)),
    }
    said(close(writer, quotes, held))
}

/// Writes the text after the content of a string: that of the bytes that are held, and a quote.
fn close<W: Write>(writer: &mut W, quotes: Quotes, held: Held) -> Result<(), W::Error>
    ensures { WritesBytes W.Write writer.old result (held_end quotes held ++ 34 ∷ []) writer.new }
{
    show_end(writer, quotes, held)?;
    put(writer, b"\"")
}

/// Writes the text between the quotes of a string, and hands out the bytes that are held after it.
fn copy_quoted<R: Read, W: Write, P: Chunked>(
    segments: &mut Segments<'_, R, P>,
    writer: &mut W,
    quotes: Quotes,
    held: &mut Held,
) -> Result<(), RecodeError<R::Error, W::Error>>
    requires fresh { IsAtBeginning segments.old }
    ensures reads { (opened : AnyDecoder R) (len : Option ℕ) → IsInRange (kind_header P.kind len)
        → waiting_of opened ≡ None → TakesBack R.Read opened (kind_header P.kind len) (string_decoder segments.old)
        → string_spelling segments.old ≡ spelling_of opened
        → OnCopy (λ answer. SkipsString R.Read P.kind len BUFFER_SIZE opened answer (string_decoder segments.new)) result }
    ensures copied { (opened : AnyDecoder R) (len : Option ℕ) → IsInRange (kind_header P.kind len)
        → waiting_of opened ≡ None → TakesBack R.Read opened (kind_header P.kind len) (string_decoder segments.old)
        → CopiesQuoted R.Read W.Write P.kind quotes len BUFFER_SIZE (sides opened writer.old) result held.new
        (sides (string_decoder segments.new) writer.new) }
    ensures moves_on { MovesOn R.Read (string_decoder segments.old) (string_decoder segments.new) }
    ensures same_reference { string_reference segments.new ≡ string_reference segments.old }
{
    let mut quoted = Quoted::new(writer, quotes);
    let copied = copy_bodies(segments, &mut quoted);
    *held = quoted.held();
    copied
}

/// Copies the bodies of a string from its beginning, one after the other.
#[tactic(auto, using(crate::proofs::ContentLaws::content_start))]
fn copy_bodies<R: Read, W: Write, P: Chunked>(
    segments: &mut Segments<'_, R, P>,
    writer: &mut W,
) -> Result<(), RecodeError<R::Error, W::Error>>
    requires fresh { IsAtBeginning segments.old }
    ensures reads { (opened : AnyDecoder R) (len : Option ℕ) → IsInRange (kind_header P.kind len)
        → waiting_of opened ≡ None → TakesBack R.Read opened (kind_header P.kind len) (string_decoder segments.old)
        → string_spelling segments.old ≡ spelling_of opened
        → OnCopy (λ answer. SkipsString R.Read P.kind len BUFFER_SIZE opened answer (string_decoder segments.new)) result }
    ensures copied { (opened : AnyDecoder R) (len : Option ℕ) → IsInRange (kind_header P.kind len)
        → waiting_of opened ≡ None → TakesBack R.Read opened (kind_header P.kind len) (string_decoder segments.old)
        → CopiesContent R.Read W.Write P.kind len (λ bytes. bytes) BUFFER_SIZE (sides opened writer.old) result
        (sides (string_decoder segments.new) writer.new) }
    ensures moves_on { MovesOn R.Read (string_decoder segments.old) (string_decoder segments.new) }
    ensures target { W.target writer.new ≡ W.target writer.old }
    ensures same_reference { string_reference segments.new ≡ string_reference segments.old }
{
    'segments: loop {
        let Some(body) = segments.advance()? else {
            return Ok(());
        };
        segments.copy(body, writer, &mut [0; BUFFER_SIZE])?;
    }
}
