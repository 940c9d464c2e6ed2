//! Bodies that are read in chunks and to their end, for both kinds of string.

ghost use Rattle.std.specs.Prelude.{◌≡◌, ◌≤◌, ◌+◌, ◌-◌, ◌↔◌, [], length, IfOk, IfSome, IsTrue, None, Some};
ghost use Rattle.ciborium_ll_grammar.specs.Title.{title_len};
ghost use Rattle.ciborium_ll_grammar.specs.Strings.{IsWritable, kind_header};
ghost use Rattle.ciborium_ll_decoder.specs.Decoding.{MovesOn, offset_of, waiting_of};
ghost use Rattle.ciborium_ll_decoder.specs.Segments.{string_decoder};
ghost use Rattle.ciborium_ll_decoder.specs.Chunks.{SegmentPullAnswer, left_of, segment_decoder, segment_reference};
ghost use Rattle.ciborium_ll_decoder.specs.Finishing.{EndsBody, Finishes, FinishesBody, FinishesString, SegmentFinish};
ghost use Rattle.ciborium_ll_grammar.specs.declared.limits.TheConstants.{LEAST_BUFFER};

use crate::dec::{Decoder, Error};
use crate::seg::{Body, Bytes, Parser, Segment, Segments, Text};
use ciborium_ll_io::io::Read;
use ciborium_ll_text::state::{State, text_front};

/// The bound of a loop over segments of either kind, [`Bytes`] or [`Text`].
pub trait Chunked: Parser {
    /// Reads the next chunk of a segment as its `pull` does, with its errors, but makes no `&str`.
    fn chunk<'a, R: Read>(
        segment: &mut Segment<'_, R, Self>,
        buffer: &'a mut [u8],
    ) -> Result<Option<&'a [u8]>, Error<R::Error>>
        ensures chunk { SegmentPullAnswer R.Read (length buffer.old) segment.old result segment.new }
        ensures left { IfOk result (λ chunk. IfSome chunk
            (λ c. length c.now + left_of segment.new ≡ left_of segment.old)) }
        ensures same_reference { segment_reference segment.new ≡ segment_reference segment.old }
        ensures moves_on { MovesOn R.Read (segment_decoder segment.old) (segment_decoder segment.new) };

    /// Returns whether bytes may be a body: any bytes for a byte string, UTF-8 for a text.
    fn is_body(bytes: &[u8]) -> bool
        ensures { IsTrue result ↔ IsWritable Self.kind bytes.now };
}

impl Chunked for Bytes {
    fn chunk<'a, R: Read>(
        segment: &mut Segment<'_, R, Bytes>,
        buffer: &'a mut [u8],
    ) -> Result<Option<&'a [u8]>, Error<R::Error>> {
        segment.pull(buffer)
    }

    #[inline(always)]
    fn is_body(_bytes: &[u8]) -> bool {
        true
    }
}

impl Chunked for Text {
    fn chunk<'a, R: Read>(
        segment: &mut Segment<'_, R, Text>,
        buffer: &'a mut [u8],
    ) -> Result<Option<&'a [u8]>, Error<R::Error>> {
        segment.pull_front(buffer)
    }

    #[inline(always)]
    fn is_body(bytes: &[u8]) -> bool {
        let (front, _state) = text_front(bytes, 0, State::Between);
        front.len() == bytes.len()
    }
}

impl<'r, R: Read, P: Chunked> Segment<'r, R, P> {
    /// Reads the rest of the body, by pulls through `buffer` of four bytes at least, and lets the segment go.
    ///
    /// `Ok` means that exactly the unread bytes are consumed, and that the body of a text is UTF-8.
    ///
    /// # Errors
    ///
    /// - `Syntax`, with the segment's place: the bytes so far are no text, as the whole body or however it goes on.
    /// - `Io`: the reader failed.
    /// - `TooLong`: the offset would pass `usize::MAX`.
    ///
    /// `Io` and `TooLong` stop the last read, and `Syntax` comes after it. That read fills the buffer, after the kept
    /// bytes, or takes what is left of the body. Bytes that were read before an error are consumed.
    pub fn finish(self, buffer: &mut [u8]) -> Result<(), Error<R::Error>>
        requires room { LEAST_BUFFER ≤ length buffer.old }
        ensures { SegmentFinish R.Read (length buffer.old) self.entry result self.exit.0.now }
    {
        let Segment {
            decoder,
            unread,
            place,
            kept,
            state,
            damaged,
            parser,
        } = self;
        let mut segment = Segment {
            decoder: &mut *decoder,
            unread,
            place,
            kept,
            state,
            damaged,
            parser,
        };
        segment.drain(buffer)
    }

    /// Reads the rest of the body.
    fn drain(&mut self, buffer: &mut [u8]) -> Result<(), Error<R::Error>>
        requires room { LEAST_BUFFER ≤ length buffer.old }
        ensures finishes { Finishes R.Read (length buffer.old) self.old result (segment_decoder self.new) }
        ensures same_reference { segment_reference self.new ≡ segment_reference self.old }
        ensures moves_on { MovesOn R.Read (segment_decoder self.old) (segment_decoder self.new) }
    {
        'chunks: while P::chunk(self, buffer)?.is_some() {}
        Ok(())
    }
}

impl<'r, R: Read, P: Chunked> Segments<'r, R, P> {
    /// Reads the body that [`Segments::advance`] gave last, as [`Segment::finish`] does.
    ///
    /// The string goes on as before, also after an error.
    ///
    /// # Errors
    ///
    /// - `Syntax`, with the body's place: the body is no text.
    /// - `Io`: the reader failed.
    /// - `TooLong`: the offset would pass `usize::MAX`.
    pub fn finish(&mut self, body: Body, buffer: &mut [u8]) -> Result<(), Error<R::Error>>
        requires room { LEAST_BUFFER ≤ length buffer.old }
        requires none_waits { waiting_of (string_decoder self.old) ≡ None }
        ensures { FinishesBody R.Read body (length buffer.old) self.old result self.new }
    {
        Segment::<R, P>::new(&mut *self.decoder, body).finish(buffer)
    }
}

/// Reads the body of a string as [`Segment::finish`] does, after its header with this length, which was pulled last and
/// isn't pushed back.
///
/// One read takes a body that `buffer` holds. Users skip strings.
///
/// # Errors
///
/// - `Syntax`: the body is no text, at the place that [`Error::Syntax`] names.
/// - `Io`: the reader failed.
/// - `TooLong`: the offset would pass `usize::MAX`.
#[inline(always)]
pub fn finish_body<R: Read, P: Chunked>(
    decoder: &mut Decoder<R>,
    len: usize,
    buffer: &mut [u8],
) -> Result<(), Error<R::Error>>
    requires room { LEAST_BUFFER ≤ length buffer.old }
    requires none_waits { waiting_of decoder.old ≡ None }
    requires covered { title_len (kind_header P.kind (Some len)) ≤ offset_of decoder.old }
    ensures { FinishesString R.Read P.kind len (length buffer.old) decoder.old result decoder.new }
{
    let place = decoder.offset() - P::header(Some(len)).title_len();
    let body = Body { length: len, place };
    if len > buffer.len() {
        return finish_chunks::<R, P>(decoder, body, buffer);
    }
    finish_whole::<R, P>(decoder, body, buffer)
}

/// Reads a body that the buffer holds by one read. An empty body takes no read.
#[inline(always)]
#[tactic(auto, using(crate::proofs::WholeBodyLaws::empty_ends, crate::proofs::WholeBodyLaws::whole_ends))]
fn finish_whole<R: Read, P: Chunked>(
    decoder: &mut Decoder<R>,
    body: Body,
    buffer: &mut [u8],
) -> Result<(), Error<R::Error>>
    requires held { body.length ≤ length buffer.old }
    requires none_waits { waiting_of decoder.old ≡ None }
    ensures finishes { EndsBody R.Read P.kind [] body.length (length buffer.old) body.place decoder.old result
        decoder.new }
    ensures moves_on { MovesOn R.Read decoder.old decoder.new }
{
    if body.length == 0 {
        return Ok(());
    }
    let whole = &mut buffer[..body.length];
    decoder.read(whole)?;
    if P::is_body(whole) {
        Ok(())
    } else {
        Err(Error::Syntax(body.place))
    }
}

/// Reads a body by pulls through the buffer.
#[inline(never)]
fn finish_chunks<R: Read, P: Chunked>(
    decoder: &mut Decoder<R>,
    body: Body,
    buffer: &mut [u8],
) -> Result<(), Error<R::Error>>
    requires room { LEAST_BUFFER ≤ length buffer.old }
    requires none_waits { waiting_of decoder.old ≡ None }
    ensures finishes { EndsBody R.Read P.kind [] body.length (length buffer.old) body.place decoder.old result
        decoder.new }
    ensures moves_on { MovesOn R.Read decoder.old decoder.new }
{
    Segment::<R, P>::new(decoder, body).finish(buffer)
}
