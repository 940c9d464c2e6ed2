// Calls of the library, each in a function that ensures nothing. Otherwise the proof of a function with several calls
// would read their large contracts again.

ghost use Rattle.std.specs.Prelude.{All, IsTrue, ◌≤◌};

use ciborium_ll::io::{Read, SliceReader, SliceWriter, Write};
use ciborium_ll::laws::{Drained, drain_bytes, drain_text};
use ciborium_ll::recode::recode;
use ciborium_ll::{
    Bytes, Chunked, Decoder, Encoder, Error, Header, RecodeError, Segment, Segments, Spelling, Text,
};
use std::process::Abort;
use test_support::devices::{DeviceFault, Failing, FailingReader, FailingWriter};
use test_support::tape::Stop;

// How many bytes a sample and its copy have at most.
pub const MOST: usize = 64;

// Returns the bytes that the digits spell.
pub fn decoded<'a>(rt: &impl Abort, hex: &str, space: &'a mut [u8; MOST]) -> &'a [u8] {
    let length = (hex.len() / 2).min(MOST);
    let bytes = &mut space[..length];
    assert!(rt; hex::decode_to_slice(hex, bytes).is_ok(), "at {hex}");
    bytes
}

// Returns the first `length` bytes. The bytes are at least that many.
pub fn front_of(bytes: &[u8], length: usize) -> &[u8] {
    bytes.get(..length).unwrap_or(&[])
}

// A decoder of this spelling of bytes.
pub fn decoder(spelling: Spelling, bytes: &[u8]) -> Decoder<SliceReader<'_>> {
    Decoder::with_spelling(SliceReader::new(bytes), spelling, 0)
}

// An encoder into a space.
pub fn encoder(space: &mut [u8]) -> Encoder<SliceWriter<'_>> {
    Encoder::from(SliceWriter::new(space))
}

// Makes a decoder of this spelling whose reader fails at the call that `failing` names.
pub fn failing_decoder(
    spelling: Spelling,
    bytes: &[u8],
    failing: Failing,
) -> Decoder<FailingReader<'_>> {
    Decoder::with_spelling(FailingReader::new(bytes, failing), spelling, 0)
}

// Returns the offset at which a reading ended, how many bytes are left after it, and whether the call that fails came.
pub fn reading_of(mut decoder: Decoder<FailingReader<'_>>) -> (usize, usize, bool) {
    let offset = decoder.offset();
    let reader = decoder.into_inner();
    (offset, reader.left().len(), reader.has_failed())
}

// Makes an encoder whose writer fails at the call that `failing` names.
pub fn failing_encoder(space: &mut [u8], failing: Failing) -> Encoder<FailingWriter<'_>> {
    Encoder::from(FailingWriter::new(space, failing))
}

// Copies elements. The buffer has at least 4 bytes.
pub fn recodes<R: Read, W: Write>(
    rt: &impl Abort,
    decoder: &mut Decoder<R>,
    encoder: &mut Encoder<W>,
    count: usize,
    buffer: &mut [u8],
) -> Result<(), RecodeError<R::Error, W::Error>> {
    assert!(rt; buffer.len() >= 4);
    recode(decoder, encoder, count, buffer)
}

// Pulls the next title.
pub fn pulls<R: Read>(decoder: &mut Decoder<R>) -> Result<Header, Error<R::Error>> {
    decoder.pull()
}

// Returns whether a pull gives this title.
pub fn is_pulled<R: Read>(decoder: &mut Decoder<R>, want: Header) -> bool
where
    R::Error: Drop,
{
    match pulls(decoder) {
        Ok(header) => header == want,
        Err(_) => false,
    }
}

// Returns whether an error is the expected one.
pub fn is_stop(error: &Error<DeviceFault>, want: Stop) -> bool {
    match error {
        Error::Syntax(place) => want == Stop::Syntax(*place),
        Error::Io(DeviceFault::Planned) => want == Stop::Planned,
        Error::Io(DeviceFault::Short) => want == Stop::Short,
        Error::TooLong | Error::Waiting => false,
    }
}

// Returns whether a pull of a title fails as expected.
pub fn is_refused(decoder: &mut Decoder<FailingReader<'_>>, want: Stop) -> bool {
    match pulls(decoder) {
        Ok(_) => false,
        Err(error) => is_stop(&error, want),
    }
}

// Begins the byte string of this length whose title comes next. `bytes` names the row.
pub fn bytes_in<'a, R: Read>(
    rt: &impl Abort,
    decoder: &'a mut Decoder<R>,
    length: Option<usize>,
    bytes: &[u8],
) -> Segments<'a, R, Bytes>
where
    R::Error: Drop,
{
    let title = Header::Bytes(length);
    let is_pulled = is_pulled(decoder, title);
    let is_begun = is_pulled && !decoder.is_waiting() && title.title_len() <= decoder.offset();
    assert!(rt; is_begun, "no byte string in {bytes:?}");
    decoder.bytes(length)
}

// Begins the text of this length whose title comes next. `bytes` names the row.
pub fn text_in<'a, R: Read>(
    rt: &impl Abort,
    decoder: &'a mut Decoder<R>,
    length: Option<usize>,
    bytes: &[u8],
) -> Segments<'a, R, Text>
where
    R::Error: Drop,
{
    let title = Header::Text(length);
    let is_pulled = is_pulled(decoder, title);
    let is_begun = is_pulled && !decoder.is_waiting() && title.title_len() <= decoder.offset();
    assert!(rt; is_begun, "no text in {bytes:?}");
    decoder.text(length)
}

// Moves to the next segment of a string, which has one.
pub fn next_segment<'a, R: Read, P: Chunked>(
    rt: &impl Abort,
    segments: &'a mut Segments<'_, R, P>,
) -> Segment<'a, R, P>
where
    R::Error: Drop,
{
    match segments.pull() {
        Ok(Some(segment)) => segment,
        _ => panic!(rt; "no segment"),
    }
}

// Makes a decoder over a reader that begins at an offset.
pub fn decoder_from<R: Read>(reader: R, offset: usize) -> Decoder<R> {
    Decoder::with_offset(reader, offset)
}

// Returns whether a buffer of this length has room for each size.
fn fit(sizes: &[usize], length: usize) -> bool
    ensures { IsTrue result → All (λ size. size ≤ length) sizes.now }
{
    sizes.iter().all(|size| *size <= length)
}

// The expected chunk, by a plain reading.
pub type Due<'a> = Result<Option<&'a [u8]>, Stop>;

// The calls on a segment of either kind.
pub trait StringKind: Chunked {
    // Returns whether a pull of a chunk gives the expected chunk.
    fn gives(
        segment: &mut Segment<'_, FailingReader<'_>, Self>,
        buffer: &mut [u8],
        due: &Due<'_>,
    ) -> bool;

    // Drains a segment. The buffer has room for each size.
    fn drains<R: Read, W: Write, A: Abort>(
        rt: &A,
        segment: &mut Segment<'_, R, Self>,
        sizes: &[usize],
        buffer: &mut [u8],
        sink: &mut Encoder<W>,
    ) -> Result<Drained, RecodeError<R::Error, W::Error>>;
}

impl StringKind for Bytes {
    fn gives(
        segment: &mut Segment<'_, FailingReader<'_>, Bytes>,
        buffer: &mut [u8],
        due: &Due<'_>,
    ) -> bool {
        match segment.pull(buffer) {
            Ok(Some(bytes)) => matches!(due, Ok(Some(want)) if *want == bytes),
            Ok(None) => matches!(due, Ok(None)),
            Err(error) => matches!(due, Err(stop) if is_stop(&error, *stop)),
        }
    }

    fn drains<R: Read, W: Write, A: Abort>(
        rt: &A,
        segment: &mut Segment<'_, R, Bytes>,
        sizes: &[usize],
        buffer: &mut [u8],
        sink: &mut Encoder<W>,
    ) -> Result<Drained, RecodeError<R::Error, W::Error>> {
        assert!(rt; fit(sizes, buffer.len()));
        drain_bytes(segment, sizes, buffer, sink)
    }
}

impl StringKind for Text {
    fn gives(
        segment: &mut Segment<'_, FailingReader<'_>, Text>,
        buffer: &mut [u8],
        due: &Due<'_>,
    ) -> bool {
        match segment.pull(buffer) {
            Ok(Some(text)) => matches!(due, Ok(Some(want)) if *want == text.as_bytes()),
            Ok(None) => matches!(due, Ok(None)),
            Err(error) => matches!(due, Err(stop) if is_stop(&error, *stop)),
        }
    }

    fn drains<R: Read, W: Write, A: Abort>(
        rt: &A,
        segment: &mut Segment<'_, R, Text>,
        sizes: &[usize],
        buffer: &mut [u8],
        sink: &mut Encoder<W>,
    ) -> Result<Drained, RecodeError<R::Error, W::Error>> {
        assert!(rt; fit(sizes, buffer.len()));
        drain_text(segment, sizes, buffer, sink)
    }
}

// Requires that a row holds. The message says at which call, and in which bytes.
pub fn holds(rt: &impl Abort, is_right: bool, call: usize, bytes: &[u8]) {
    assert!(rt; is_right, "at {call} of {bytes:?}");
}

// Requires that all steps of a test hold. The message says which steps do, and the number of the row or the place.
pub fn all_hold(rt: &impl Abort, place: usize, steps: &[bool]) {
    assert!(rt; !steps.contains(&false), "at {place} the steps {steps:?}");
}
