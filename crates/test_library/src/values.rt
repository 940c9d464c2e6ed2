// Calls on an encoder into a slice, one after the other, each with whether it has to succeed.

use crate::calls::{encoder_into, has_written, pushes, writes};
use crate::checks::holds;
use ciborium_ll::io::{SliceWriter, Write};
use ciborium_ll::{Encoder, Header};

// A call on an encoder.
enum Step {
    // The title of a header.
    Push(Header),
    // A byte string, and the limit of its segments.
    Bytes(&'static [u8], Option<usize>),
    // A text and the limit of its segments. The call passes it on.
    Text(&'static str, Option<usize>),
    // Bytes as they are. The call passes them on.
    Write(&'static [u8]),
}

// Makes a call, and returns whether it succeeds.
fn succeeds(encoder: &mut Encoder<SliceWriter>, step: &Step) -> bool {
    match step {
        Step::Push(header) => pushes(encoder, *header),
        Step::Bytes(bytes, limit) => encoder.bytes(bytes, *limit).is_ok(),
        Step::Text(text, limit) => encoder.text(text, *limit).is_ok() && encoder.flush().is_ok(),
        Step::Write(bytes) => writes(encoder, bytes),
    }
}

// What the row tries, the calls, each with whether it succeeds, the written bytes, and how much room is left after
// them.
type Row = (&'static str, &'static [(Step, bool)], &'static [u8], usize);

static ROWS: [Row; 4] = [
    (
        "a map with a text",
        &[
            (Step::Push(Header::Map(Some(1))), true),
            (Step::Push(Header::Positive(7)), true),
            (Step::Text("Hello, World!", Some(7)), true),
        ],
        b"\xa1\x07\x7f\x67Hello, \x66World!\xff",
        0,
    ),
    // all but the last byte is written
    (
        "a map with a text that does not fit",
        &[
            (Step::Push(Header::Map(Some(1))), true),
            (Step::Push(Header::Positive(7)), true),
            (Step::Text("Hello, World!", Some(7)), false),
        ],
        b"\xa1\x07\x7f\x67Hello, \x66World!",
        0,
    ),
    (
        "bytes in segments, and a write of none behind them",
        &[
            (Step::Bytes(&[1, 2, 3], Some(2)), true),
            (Step::Write(&[]), true),
        ],
        &[0x5f, 0x42, 1, 2, 0x41, 3, 0xff],
        1,
    ),
    // its first byte is written
    (
        "a title that does not fit",
        &[(Step::Push(Header::Positive(24)), false)],
        &[0x18],
        0,
    ),
];

// Makes the calls of each row, into room for at most 20 bytes, and compares the results.
#[test]
fn values_by_calls(rt: HostRuntime) {
    for row in &ROWS {
        let mut space = [0; 20];
        let room = row.2.len().saturating_add(row.3);
        let mut encoder = encoder_into(&mut space, room);
        for (step, want) in row.1 {
            holds(&rt, succeeds(&mut encoder, step) == *want, row.0);
        }
        let writer = encoder.into_inner();
        let is_right = has_written(&writer, row.2) && writer.room() == row.3;
        holds(&rt, is_right, row.0);
    }
}
