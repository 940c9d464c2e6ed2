use crate::calls::{begins_bytes, begins_text, decoder_at, has_left};
use crate::checks::{Stop, holds, holds_at, read_stop};
use crate::drains::next_segment;
use crate::steps::next_length;
use ciborium_ll::io::SliceReader;
use ciborium_ll::{Bytes, Segment, Segments, Text};
use std::process::Abort;

// The expected answer of a pull from a segment of text: a chunk, the end, or why it stops.
type Answer = Result<Option<&'static str>, Stop>;

// Pulls from a segment of text by a buffer of at most eight bytes, and compares the answer and the bytes that are left.
fn pulls_chunk(
    segment: &mut Segment<'_, SliceReader, Text>,
    size: usize,
    want: Answer,
    left: usize,
) -> bool {
    let mut space = [0; 8];
    let is_right = match segment.pull(&mut space[..size.min(8)]) {
        Ok(chunk) => want == Ok(chunk),
        Err(error) => want == Err(read_stop(&error)),
    };
    is_right && segment.left() == left
}

// Texts of one segment. Each call on a segment has the size of the buffer, the answer, and how many bytes are left
// after it.
static TEXTS: [(&[u8], &[(usize, Answer, usize)]); 6] = [
    // two chunks
    (
        b"\x6dHello, World!",
        &[
            (7, Ok(Some("Hello, ")), 6),
            (7, Ok(Some("World!")), 0),
            (7, Ok(None), 0),
            (7, Ok(None), 0),
        ],
    ),
    // a damage that is found late, and one that is found at once
    (
        b"\x62a\xff",
        &[
            (4, Ok(Some("a")), 1),
            (4, Err(Stop::Syntax(0)), 0),
            (4, Err(Stop::Syntax(0)), 0),
        ],
    ),
    (
        b"\x65a\xffbcd",
        &[(8, Err(Stop::Syntax(0)), 0), (8, Err(Stop::Syntax(0)), 0)],
    ),
    // a character that waits for room
    (
        b"\x64\xf0\x9f\x98\x80",
        &[
            (3, Ok(Some("")), 4),
            (3, Ok(Some("")), 4),
            (4, Ok(Some("\u{1f600}")), 0),
            (4, Ok(None), 0),
        ],
    ),
    // a rest that is damaged, and an empty rest
    (
        b"\x64\xff\x61\x62\x63",
        &[
            (1, Ok(Some("")), 4),
            (2, Ok(Some("")), 4),
            (3, Ok(Some("")), 4),
            (4, Err(Stop::Syntax(0)), 0),
            (4, Err(Stop::Syntax(0)), 0),
        ],
    ),
    (
        b"\x63\xe0\xa0\x80",
        &[
            (1, Ok(Some("")), 3),
            (2, Ok(Some("")), 3),
            (3, Ok(Some("\u{800}")), 0),
            (3, Ok(None), 0),
        ],
    ),
];

// Reads the only segment of each text by buffers of these sizes, and compares the answers and the bytes that are left.
#[test]
fn texts_by_calls(rt: HostRuntime) {
    for (bytes, steps) in &TEXTS {
        let length = bytes.len().saturating_sub(1);
        let mut decoder = decoder_at(bytes, 0);
        let mut segments = begins_text(&rt, &mut decoder, Some(length), 1);
        let mut segment = next_segment(&rt, &mut segments);
        holds_at(&rt, segment.left() == length, bytes);
        for (size, want, left) in *steps {
            holds_at(&rt, pulls_chunk(&mut segment, *size, *want, *left), bytes);
        }
    }
}

// Pulls from a segment by a buffer of one byte, and compares the chunk, or the end if none is expected.
fn pulls_byte(segment: &mut Segment<'_, SliceReader, Bytes>, want: Option<&[u8]>) -> bool {
    let mut one = [0; 1];
    matches!(segment.pull(&mut one), Ok(chunk) if chunk == want)
}

// Reads the next segment of a byte string to its end, byte by byte, and compares it.
fn reads_next(
    rt: &impl Abort,
    segments: &mut Segments<'_, SliceReader, Bytes>,
    body: &[u8],
) -> bool {
    let mut segment = next_segment(rt, segments);
    let mut is_right = segment.left() == body.len();
    for byte in body {
        is_right = pulls_byte(&mut segment, Some(&[*byte])) && is_right;
    }
    pulls_byte(&mut segment, None) && is_right
}

// Asks twice for a segment after the last segment, and for a body.
fn has_ended(segments: &mut Segments<'_, SliceReader, Bytes>) -> bool {
    for _ in 0..2 {
        if next_length(segments) != Ok(None) {
            return false;
        }
    }
    matches!(segments.advance(), Ok(None))
}

#[test]
fn bodies_of_nested_strings(rt: HostRuntime) {
    let bytes = [0x5f, 0x5f, 0x41, 1, 0xff, 0x41, 2, 0xff, 0];
    let mut decoder = decoder_at(&bytes, 0);
    let mut segments = begins_bytes(&rt, &mut decoder, None, 1);
    holds(&rt, reads_next(&rt, &mut segments, &[1]), "the body within");
    holds(&rt, reads_next(&rt, &mut segments, &[2]), "the other body");
    holds(&rt, has_ended(&mut segments), "no body is behind them");
    let is_right = decoder.offset() == 8 && has_left(decoder, &[0]);
    holds(&rt, is_right, "what is left");
}

// Moves to the first body of an open text, and reads it in one chunk. It compares its length, its place and its bytes.
fn reads_body(
    segments: &mut Segments<'_, SliceReader, Text>,
    place: usize,
    want: &'static str,
) -> bool {
    match segments.advance() {
        Ok(Some(body)) => {
            let is_body = body.length == want.len() && body.place == place;
            is_body && pulls_chunk(&mut segments.segment(body), 8, Ok(Some(want)), 0)
        }
        _ => false,
    }
}

#[test]
fn a_body_by_length_and_place(rt: HostRuntime) {
    let mut decoder = decoder_at(b"\x7f\x7f\x62\xc3\xa9\xff\xff", 0);
    let mut segments = begins_text(&rt, &mut decoder, None, 1);
    holds(&rt, reads_body(&mut segments, 2, "\u{e9}"), "the body");
    holds(&rt, decoder.offset() == 5, "the offset behind the body");
}

#[test]
fn kinds_of_strings() {
    let _bytes = Bytes::default();
    let _text = Text::default();
}
