// Calls on a decoder, one after the other, each with the answer that it has to give.

use crate::calls::{begins_bytes, decoder_at, has_left, reads, strict_decoder, takes_back};
use crate::checks::{Stop, holds, next_header, read_end, read_stop};
use ciborium_ll::io::SliceReader;
use ciborium_ll::laws::pull_again;
use ciborium_ll::{Bytes, Decoder, Header, Segments};
use std::process::Abort;

// The answer of a byte string to a call for a segment, which is then dropped: how long its body is, if there is one, or
// why the call stopped.
pub type Asked = Result<Option<usize>, Stop>;

// A call on a decoder, with the answer that it has to give.
enum Step {
    // A pull gives a header, or stops with this answer.
    Pull(Result<Header, Stop>),
    // A pull gives a header, which is given back and pulled again.
    Again(Header),
    // A header is given back.
    Push(Header),
    // A read of as many bytes ends with this answer, and gives these bytes if it does not stop.
    Read(&'static [u8], Stop),
    // Pulls the title of five bytes, which takes two, and reads them as a string. No call asks the string for a
    // segment: the title waits.
    Begin,
    // Pulls the title of a byte string of the indefinite form, and then its segments, which are these.
    Ask(&'static [Asked]),
}

// Reads at most two bytes, and compares how the read ends, and the bytes.
fn reads_so(decoder: &mut Decoder<SliceReader>, want: &[u8], stop: Stop) -> bool {
    let mut space = [0; 2];
    let data = &mut space[..want.len().min(2)];
    let end = read_end(&reads(decoder, data));
    end == stop && (end != Stop::Never || *data == *want)
}

// Asks for a segment, and drops it.
pub fn next_length(segments: &mut Segments<'_, SliceReader, Bytes>) -> Asked {
    match segments.pull() {
        Ok(Some(segment)) => Ok(Some(segment.left())),
        Ok(None) => Ok(None),
        Err(error) => Err(read_stop(&error)),
    }
}

// Asks for segments of a byte string of the indefinite form, and compares the answers.
fn are_segments(rt: &impl Abort, decoder: &mut Decoder<SliceReader>, answers: &[Asked]) -> bool {
    let mut segments = begins_bytes(rt, decoder, None, 1);
    let mut are_right = true;
    for want in answers {
        are_right = next_length(&mut segments) == *want && are_right;
    }
    are_right
}

// Makes a call, and compares its answer.
fn is_answered(rt: &impl Abort, decoder: &mut Decoder<SliceReader>, step: &Step) -> bool {
    match step {
        Step::Pull(want) => next_header(decoder) == *want,
        Step::Again(want) => matches!(pull_again(decoder), Ok(header) if header == *want),
        Step::Push(header) => takes_back(decoder, *header),
        Step::Read(want, stop) => reads_so(decoder, want, *stop),
        Step::Begin => {
            let _ = begins_bytes(rt, decoder, Some(5), 2);
            decoder.is_waiting()
        }
        Step::Ask(answers) => are_segments(rt, decoder, answers),
    }
}

// What the row tries, the bytes, the offset at which they begin, the calls, each with the offset after it, and the
// bytes that are left.
type Row = (
    &'static str,
    &'static [u8],
    usize,
    &'static [(Step, usize)],
    &'static [u8],
);

// Makes the calls of a row, and compares each answer, the offset after it, and the bytes that are left at the end.
fn steps_row(rt: &impl Abort, mut decoder: Decoder<SliceReader>, row: &Row) {
    for (step, offset) in row.3 {
        let is_right = is_answered(rt, &mut decoder, step) && decoder.offset() == *offset;
        holds(rt, is_right, row.0);
    }
    holds(rt, has_left(decoder, row.4), row.0);
}

static STEPS: [Row; 10] = [
    (
        "a cut title loses its first byte",
        &[0x19, 3],
        0,
        &[
            (Step::Pull(Err(Stop::Short)), 1),
            (Step::Pull(Ok(Header::Positive(3))), 2),
        ],
        &[],
    ),
    (
        "a longer title comes back as the shortest one",
        &[0x18, 5, 0],
        0,
        &[
            (Step::Pull(Ok(Header::Positive(5))), 2),
            (Step::Push(Header::Positive(5)), 1),
            (Step::Pull(Ok(Header::Positive(5))), 2),
        ],
        &[0],
    ),
    (
        "a header is pulled again",
        &[0x18, 5, 0],
        0,
        &[(Step::Again(Header::Positive(5)), 2)],
        &[0],
    ),
    (
        "no bytes while a header waits",
        &[1, 2],
        0,
        &[
            (Step::Pull(Ok(Header::Positive(1))), 1),
            (Step::Push(Header::Positive(1)), 0),
            (Step::Read(&[0], Stop::Waiting), 0),
            (Step::Read(&[], Stop::Waiting), 0),
            (Step::Pull(Ok(Header::Positive(1))), 1),
            (Step::Read(&[2], Stop::Never), 2),
            (Step::Read(&[0], Stop::Short), 2),
        ],
        &[],
    ),
    (
        "no offset is left",
        &[0],
        usize::MAX,
        &[
            (Step::Pull(Err(Stop::TooLong)), usize::MAX),
            (Step::Read(&[], Stop::Never), usize::MAX),
            (Step::Read(&[0], Stop::TooLong), usize::MAX),
        ],
        &[0],
    ),
    (
        "no offset is left for an affix",
        &[0x18, 5],
        usize::MAX - 1,
        &[(Step::Pull(Err(Stop::TooLong)), usize::MAX)],
        &[5],
    ),
    (
        "the last offset is left",
        &[0, 0],
        usize::MAX - 1,
        &[
            (Step::Pull(Ok(Header::Positive(0))), usize::MAX),
            (Step::Pull(Err(Stop::TooLong)), usize::MAX),
        ],
        &[0],
    ),
    (
        "the title of a string whose segments are never asked for waits",
        &[0x58, 5, 1, 2, 3, 4, 5],
        0,
        &[
            (Step::Begin, 1),
            (Step::Pull(Ok(Header::Bytes(Some(5)))), 2),
        ],
        &[1, 2, 3, 4, 5],
    ),
    (
        "a number in a string",
        &[0x5f, 1],
        0,
        &[(Step::Ask(&[Err(Stop::Syntax(1)), Err(Stop::Syntax(1))]), 2)],
        &[],
    ),
    // A segment that is dropped early leaves its body. The next call reads the body as a title.
    (
        "a body that was left",
        &[0x5f, 0x43, 1, 2, 3, 0xff],
        0,
        &[(
            Step::Ask(&[Ok(Some(3)), Err(Stop::Syntax(2)), Err(Stop::Syntax(2))]),
            3,
        )],
        &[2, 3, 0xff],
    ),
];

#[test]
fn calls_on_decoders(rt: HostRuntime) {
    for row in &STEPS {
        steps_row(&rt, decoder_at(row.1, row.2), row);
    }
}

static STRICT_STEPS: [Row; 2] = [
    // A string of the indefinite form has a further open. Two calls ask it for a segment.
    (
        "a further open",
        &[0x5f, 0x5f, 0x41, 1, 0xff, 0xff],
        0,
        &[(Step::Ask(&[Err(Stop::Syntax(1)), Err(Stop::Syntax(1))]), 2)],
        &[0x41, 1, 0xff, 0xff],
    ),
    // A header that a strict decoder would refuse is given back, and pulled again.
    (
        "a small simple value comes back",
        &[0x18, 0x18],
        0,
        &[
            (Step::Pull(Ok(Header::Positive(24))), 2),
            (Step::Push(Header::Simple(24)), 0),
            (Step::Pull(Ok(Header::Simple(24))), 2),
        ],
        &[],
    ),
];

#[test]
fn opens_and_waiting_headers(rt: HostRuntime) {
    for row in &STRICT_STEPS {
        steps_row(&rt, strict_decoder(row.1), row);
    }
}
