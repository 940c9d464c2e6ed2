//! Bodies of strings, copied to a writer.

ghost use Rattle.std.specs.Prelude.{◌≡◌, ◌≤◌, None, length};
ghost use Rattle.ciborium_ll_decoder.specs.BodyCopies.{CopiesBody, CopiesSegment, sides};
ghost use Rattle.ciborium_ll_decoder.specs.Chunks.{IsWhole, segment_decoder, segment_reference};
ghost use Rattle.ciborium_ll_decoder.specs.Decoding.{MovesOn, waiting_of};
ghost use Rattle.ciborium_ll_decoder.specs.Segments.{string_decoder};
ghost use Rattle.ciborium_ll_grammar.specs.declared.limits.TheConstants.{LEAST_BUFFER};

use crate::dec::{Decoder, Error};
use crate::seg::{Body, Chunked, Segment, Segments};
use ciborium_ll_io::io::{Read, Write};

/// Why a copy stopped.
#[derive(Debug, Drop)]
pub enum RecodeError<E, F> {
    /// The decoder failed with this error.
    Read(Error<E>),
    /// The writer failed with this error.
    Write(F),
}

impl<E, F> From<Error<E>> for RecodeError<E, F> {
    ghost use Rattle.ciborium_ll_decoder.specs.declared.copy.RecodeError.TheVariants.{Read as FailedRead};

    ghost from_gives = { λ fault error. error ≡ FailedRead fault };

    fn from(fault: Error<E>) -> RecodeError<E, F> {
        RecodeError::Read(fault)
    }
}

impl<'r, R: Read, P: Chunked> Segments<'r, R, P> {
    /// Writes the body that [`Segments::advance`] gave last to a writer, without its title.
    ///
    /// Each chunk goes through `buffer`, which has four bytes at least, and is written at once. `Ok` means that exactly
    /// the body is consumed and written, and that the body of a text is UTF-8.
    ///
    /// # Errors
    ///
    /// - `Read`: the decoder failed as in [`Segments::finish`]. Exactly the chunks handed out by then are written.
    /// - `Write`: the writer failed at a chunk. Everything before the chunk and a beginning of it are written. The
    ///   chunk and, of a text, up to three bytes after it are consumed: at least one byte.
    ///
    /// The string goes on as before, and the writer stays on its slice.
    #[inline(always)]
    pub fn copy<W: Write>(
        &mut self,
        body: Body,
        writer: &mut W,
        buffer: &mut [u8],
    ) -> Result<(), RecodeError<R::Error, W::Error>>
        requires room { LEAST_BUFFER ≤ length buffer.old }
        requires none_waits { waiting_of (string_decoder self.old) ≡ None }
        ensures { CopiesSegment R.Read W.Write body (length buffer.old) self.old writer.old result self.new
            writer.new }
    {
        let mut segment = Segment::<R, P>::new(&mut *self.decoder, body);
        copy_chunks(&mut segment, body, writer, buffer)
    }
}

/// Writes the body of a string of a definite length as [`Segments::copy`] does for a segment, with its answers.
///
/// The call pushes no header back, and names the place that the caller gives it. Users call [`Segments::copy`].
#[inline(always)]
pub fn copy_body<R: Read, W: Write, P: Chunked>(
    decoder: &mut Decoder<R>,
    body: Body,
    writer: &mut W,
    buffer: &mut [u8],
) -> Result<(), RecodeError<R::Error, W::Error>>
    requires room { LEAST_BUFFER ≤ length buffer.old }
    requires none_waits { waiting_of decoder.old ≡ None }
    ensures copied { CopiesBody R.Read W.Write P.kind body.length (length buffer.old) body.place
        (sides decoder.old writer.old) result (sides decoder.new writer.new) }
    ensures moves_on { MovesOn R.Read decoder.old decoder.new }
    ensures target { W.target writer.new ≡ W.target writer.old }
{
    let mut segment = Segment::<R, P>::new(decoder, body);
    copy_chunks(&mut segment, body, writer, buffer)
}

/// Writes the body of a segment, each chunk as soon as it is handed out.
#[inline(always)]
fn copy_chunks<R: Read, W: Write, P: Chunked>(
    segment: &mut Segment<'_, R, P>,
    body: Body,
    writer: &mut W,
    buffer: &mut [u8],
) -> Result<(), RecodeError<R::Error, W::Error>>
    requires room { LEAST_BUFFER ≤ length buffer.old }
    requires whole { IsWhole body segment.old }
    ensures copied { CopiesBody R.Read W.Write P.kind body.length (length buffer.old) body.place
        (sides (segment_decoder segment.old) writer.old) result (sides (segment_decoder segment.new) writer.new) }
    ensures same_reference { segment_reference segment.new ≡ segment_reference segment.old }
    ensures moves_on { MovesOn R.Read (segment_decoder segment.old) (segment_decoder segment.new) }
    ensures target { W.target writer.new ≡ W.target writer.old }
{
    'chunks: while let Some(chunk) = P::chunk(segment, buffer)? {
        writer
            .write_all(chunk)
            .map_err(|fault| RecodeError::Write(fault))?;
    }
    Ok(())
}
