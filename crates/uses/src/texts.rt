//! A text of any length, read whole.

ghost use Rattle.std.specs.Prelude.{◌≡◌, ◌≤◌, [], IfErr, IfOk, OnOk};
ghost use Rattle.std.specs.Prelude.{length, string_bytes, string_len};
ghost use Rattle.ciborium_ll.specs.Decoding.{MovesOn, spelling_of};
ghost use Rattle.ciborium_ll.specs.Segments.{progress_of, string_decoder, string_reference, string_spelling};
ghost use Rattle.uses.specs.Texts.{GathersAll, GathersText, ReadsText, SegmentsStop, StopsText};

use ciborium_ll::io::{OutOfMemory, Read, VecWriter};
use ciborium_ll::{Decoder, Error, Header, RecodeError, Segments, Text};
use std::alloc::Global;

/// Why no text was read.
#[derive(Debug, Drop)]
pub enum TextError<E> {
    /// The decoder failed with this error.
    Read(Error<E>),
    /// The title at this offset begins no text.
    NoText(usize),
    /// The text is longer than the limit.
    TooLong,
    /// There is no memory for the text.
    Memory,
}

impl<E> From<Error<E>> for TextError<E> {
    ghost use Rattle.uses.specs.declared.texts.TextError.TheVariants.{Read as FailedRead};

    ghost from_gives = { λ fault error. error ≡ FailedRead fault };

    fn from(fault: Error<E>) -> TextError<E> {
        TextError::Read(fault)
    }
}

/// Reads a whole text (RFC 7049, 2.1) of a definite length or not (2.2.2), of at most `limit` bytes in at most `limit +
/// 1` segments.
///
/// Exactly the bytes of one text string are consumed. Each of its bodies is UTF-8.
///
/// # Errors
///
/// The bytes read before an error are consumed.
///
/// - `Read`: the decoder failed at a title or in a body.
/// - `NoText(offset)`: the title at this offset begins no text.
/// - `TooLong`: with the next body, which is not read, the text would be longer than `limit`. Or there are more than
///   `limit + 1` segments.
/// - `Memory`: there is no memory for a part of a body.
pub fn read_string<R: Read>(
    alloc: Global,
    decoder: &mut Decoder<R>,
    limit: usize,
) -> Result<String, TextError<R::Error>>
    ensures limited { IfOk result (λ text. string_len text ≤ limit) }
    ensures whole { IfOk result (λ text. ReadsText R.Read limit decoder.old (string_bytes text) decoder.new) }
    ensures steps { IfOk result (λ text. GathersText R.Read limit decoder.old (string_bytes text) decoder.new) }
    ensures stops { IfErr result (λ error. StopsText R.Read limit decoder.old error decoder.new) }
    ensures moves_on { MovesOn R.Read decoder.old decoder.new }
{
    let place = decoder.offset();
    let Header::Text(len) = decoder.pull()? else {
        return Err(TextError::NoText(place));
    };
    let mut segments = decoder.text(len);
    let mut text = VecWriter::new(alloc);
    read_segments(&mut segments, &mut text, limit)?;
    match String::from_utf8(text.into_vec()) {
        Ok(text) => Ok(text),
        // Each body is UTF-8 by itself, so all of them joined are UTF-8.
        Err(_) => unreachable!(),
    }
}

/// Reads the segments of a text, and appends their bodies.
fn read_segments<R: Read>(
    segments: &mut Segments<'_, R, Text>,
    text: &mut VecWriter,
    limit: usize,
) -> Result<(), TextError<R::Error>>
    requires empty { text.old.bytes.items ≡ [] }
    requires mode { string_spelling segments.old ≡ spelling_of (string_decoder segments.old) }
    ensures limited { OnOk result (length text.new.bytes.items ≤ limit) }
    ensures gathers { OnOk result (GathersAll R.Read limit (progress_of segments.old) (string_decoder segments.old)
        text.new.bytes.items (string_decoder segments.new)) }
    ensures stops { IfErr result (λ error. SegmentsStop R.Read limit (progress_of segments.old)
        (string_decoder segments.old) error (string_decoder segments.new)) }
    ensures same_reference { string_reference segments.new ≡ string_reference segments.old }
    ensures moves_on { MovesOn R.Read (string_decoder segments.old) (string_decoder segments.new) }
{
    let mut buffer = [0; 64];
    // Empty segments could come without an end.
    'segments: for _read in 0..limit.saturating_add(2) {
        let Some(body) = segments.advance()? else {
            return Ok(());
        };
        if body.length > limit - text.len() {
            return Err(TextError::TooLong);
        }
        match segments.copy(body, text, &mut buffer) {
            Ok(()) => {}
            Err(RecodeError::Read(error)) => return Err(TextError::Read(error)),
            Err(RecodeError::Write(OutOfMemory)) => return Err(TextError::Memory),
        }
    }
    Err(TextError::TooLong)
}
