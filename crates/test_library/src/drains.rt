ghost use Rattle.std.specs.Prelude.{◌≤◌, All, IsTrue};

use crate::calls::{begins_bytes, begins_text, decoder_at, encoder_into, has_written};
use crate::checks::{Stop, copy_stop, holds};
use ciborium_ll::io::{EndOfFile, OutOfSpace, SliceReader, SliceWriter};
use ciborium_ll::laws::{Drained, End, drain_bytes, drain_text};
use ciborium_ll::{Bytes, Chunked, Encoder, RecodeError, Segment, Segments, Text};
use std::process::Abort;

// How a drain ended, and after how many calls, or why it stopped.
pub type Ended = Result<(usize, End), Stop>;

// Whether a buffer of 64 bytes is enough for each of these sizes.
fn fit(sizes: &[usize]) -> bool
    ensures { IsTrue result → All (λ size. size ≤ 64) sizes.now }
{
    sizes.iter().all(|size| *size <= 64)
}

// Returns the next segment of a string.
pub fn next_segment<'a, 'b, P: Chunked>(
    rt: &impl Abort,
    segments: &'a mut Segments<'_, SliceReader<'b>, P>,
) -> Segment<'a, SliceReader<'b>, P> {
    match segments.pull() {
        Ok(Some(segment)) => segment,
        _ => panic!(rt; "no segment"),
    }
}

// Returns the result of a drain between slices.
fn ended(outcome: Result<Drained, RecodeError<EndOfFile, OutOfSpace>>) -> Ended {
    match outcome {
        Ok(drained) => Ok((drained.calls, drained.end)),
        Err(error) => Err(copy_stop(&error)),
    }
}

// Drains a segment of a text. Proofs of its callers do not see its effect.
fn drains_text(
    segment: &mut Segment<'_, SliceReader, Text>,
    sizes: &[usize],
    sink: &mut Encoder<SliceWriter>,
) -> Ended
    requires { All (λ size. size ≤ 64) sizes.now }
{
    ended(drain_text(segment, sizes, &mut [0; 64], sink))
}

// Drains a segment of a byte string. Proofs of its callers do not see its effect.
fn drains_bytes(
    segment: &mut Segment<'_, SliceReader, Bytes>,
    sizes: &[usize],
    sink: &mut Encoder<SliceWriter>,
) -> Ended
    requires { All (λ size. size ≤ 64) sizes.now }
{
    ended(drain_bytes(segment, sizes, &mut [0; 64], sink))
}

// Drains a string of a single segment, of text or of bytes.
pub fn drains_whole(
    rt: &impl Abort,
    bytes: &[u8],
    sizes: &[usize],
    sink: &mut Encoder<SliceWriter>,
) -> Ended {
    let length = bytes.len().saturating_sub(1);
    let mut decoder = decoder_at(bytes, 0);
    assert!(rt; fit(sizes));
    if matches!(bytes.first(), Some(0x60..)) {
        let mut segments = begins_text(rt, &mut decoder, Some(length), 1);
        return drains_text(&mut next_segment(rt, &mut segments), sizes, sink);
    }
    let mut segments = begins_bytes(rt, &mut decoder, Some(length), 1);
    drains_bytes(&mut next_segment(rt, &mut segments), sizes, sink)
}

// What the row tries, a string of one segment in its bytes, the sizes of the buffers, how the drain ends, and how much
// of the body is written.
type Row = (&'static str, &'static [u8], &'static [usize], Ended, usize);

// The character U+1F600, and the same between two letters.
const EMOJI: &[u8] = b"\x64\xf0\x9f\x98\x80";

const LETTERS: &[u8] = b"\x66a\xf0\x9f\x98\x80b";

const NUMBERS: &[u8] = b"\x43\x01\x02\x03";

static ROWS: [Row; 12] = [
    (
        "a character by one size",
        EMOJI,
        &[4],
        Ok((1, End::OutOfSizes)),
        4,
    ),
    (
        "a character by two sizes",
        EMOJI,
        &[4, 4],
        Ok((2, End::Ended)),
        4,
    ),
    (
        "a character by sizes of which the first are too small",
        EMOJI,
        &[3, 3, 4, 4],
        Ok((4, End::Ended)),
        4,
    ),
    (
        "a character between letters by sizes of four",
        LETTERS,
        &[4, 4, 4, 4, 4],
        Ok((4, End::Ended)),
        6,
    ),
    (
        "a character between letters by sizes of five",
        LETTERS,
        &[5, 5, 5, 5, 5],
        Ok((3, End::Ended)),
        6,
    ),
    (
        "a character between letters by large sizes",
        LETTERS,
        &[64, 64],
        Ok((2, End::Ended)),
        6,
    ),
    ("an empty text", b"\x60", &[4], Ok((1, End::Ended)), 0),
    (
        "an empty text by no size",
        b"\x60",
        &[],
        Ok((0, End::OutOfSizes)),
        0,
    ),
    (
        "a body that is no text",
        b"\x62a\xff",
        &[4, 4],
        Err(Stop::Syntax(0)),
        1,
    ),
    (
        "bytes by sizes of two",
        NUMBERS,
        &[2, 2, 2],
        Ok((3, End::Ended)),
        3,
    ),
    (
        "bytes by sizes of none",
        NUMBERS,
        &[0, 0],
        Ok((2, End::OutOfSizes)),
        0,
    ),
    (
        "bytes by one size",
        NUMBERS,
        &[2],
        Ok((1, End::OutOfSizes)),
        2,
    ),
];

// Drains a string of a single segment into room for its body, of at most six bytes. It compares how the drain ended,
// and how much of the body was written.
#[test]
fn strings_by_any_sizes(rt: HostRuntime) {
    for row in &ROWS {
        let (what, bytes, sizes, want, written) = row;
        let mut space = [0; 6];
        let mut sink = encoder_into(&mut space, bytes.len().saturating_sub(1));
        let is_ended = drains_whole(&rt, bytes, sizes, &mut sink) == *want;
        let body = bytes.get(1..=*written).unwrap_or(&[]);
        let is_right = is_ended && has_written(&sink.into_inner(), body);
        holds(&rt, is_right, what);
    }
}
