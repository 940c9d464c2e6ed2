use crate::calls::{failing_encoder, front_of, holds};
use ciborium_ll::laws::{Piece, write_pieces};
use ciborium_ll::{Encoder, Float, Header};
use std::process::Abort;
use test_support::devices::{DeviceFault, Failing, FailingWriter};

// A call of an encoder.
#[derive(Clone, Copy)]
enum Call {
    Push(Header),
    Bytes(&'static [u8], Option<usize>),
    Text(&'static str, Option<usize>),
    Pieces,
}

// A map of one pair, 7 to a text in two segments.
fn writes_map(encoder: &mut Encoder<FailingWriter<'_>>) -> Result<(), DeviceFault> {
    let pieces = [
        Piece::Header(Header::Map(Some(1))),
        Piece::Header(Header::Positive(7)),
        Piece::Text("Hello, World!", Some(7)),
    ];
    write_pieces(encoder, &pieces)
}

fn writes(encoder: &mut Encoder<FailingWriter<'_>>, call: Call) -> Result<(), DeviceFault> {
    match call {
        Call::Push(header) => encoder.push(header),
        Call::Bytes(value, limit) => encoder.bytes(value, limit),
        Call::Text(value, limit) => encoder.text(value, limit),
        Call::Pieces => writes_map(encoder),
    }
}

// A call, the bytes that it writes, and how many bytes each of its writes has, at least one.
type Row = (Call, &'static [u8], &'static [usize]);

static ROWS: [Row; 15] = [
    (Call::Push(Header::Positive(1000)), b"\x19\x03\xe8", &[1, 2]),
    (Call::Push(Header::Break), b"\xff", &[1]),
    (
        Call::Push(Header::Tag(u64::MAX)),
        b"\xdb\xff\xff\xff\xff\xff\xff\xff\xff",
        &[1, 8],
    ),
    (Call::Push(Header::Tag(0xff)), b"\xd8\xff", &[1, 1]),
    (
        Call::Push(Header::Float(Float::Single(0x0102_0304))),
        b"\xfa\x01\x02\x03\x04",
        &[1, 4],
    ),
    (
        Call::Push(Header::Negative(0x0102_0304_0506_0708)),
        b"\x3b\x01\x02\x03\x04\x05\x06\x07\x08",
        &[1, 8],
    ),
    (
        Call::Bytes(b"\x01\x02\x03\x04", None),
        b"\x44\x01\x02\x03\x04",
        &[1, 4],
    ),
    (
        Call::Bytes(b"\x01\x02\x03", Some(3)),
        b"\x43\x01\x02\x03",
        &[1, 3],
    ),
    (
        Call::Bytes(b"\x01\x02\x03", Some(0)),
        b"\x5f\x41\x01\x41\x02\x41\x03\xff",
        &[1, 1, 1, 1, 1, 1, 1, 1],
    ),
    (Call::Bytes(b"", Some(0)), b"\x40", &[1]),
    (Call::Text("", Some(9)), b"\x60", &[1]),
    (
        Call::Text("Hello, World!", Some(7)),
        b"\x7f\x67Hello, \x66World!\xff",
        &[1, 1, 7, 1, 6, 1],
    ),
    (
        Call::Text("aé€😀", Some(4)),
        b"\x7f\x63a\xc3\xa9\x63\xe2\x82\xac\x64\xf0\x9f\x98\x80\xff",
        &[1, 1, 3, 1, 3, 1, 4, 1],
    ),
    (
        Call::Text("aé€😀", None),
        b"\x6aa\xc3\xa9\xe2\x82\xac\xf0\x9f\x98\x80",
        &[1, 10],
    ),
    (
        Call::Pieces,
        b"\xa1\x07\x7f\x67Hello, \x66World!\xff",
        &[1, 1, 1, 1, 7, 1, 6, 1],
    ),
];

// Returns whether a call wrote all, or failed as planned if it was planned to.
fn ends_as(outcome: Result<(), DeviceFault>, fails: bool) -> bool {
    match outcome {
        Ok(()) => !fails,
        Err(DeviceFault::Planned) => fails,
        Err(DeviceFault::Short) => false,
    }
}

// Whether a break is written.
fn pushes_break(encoder: &mut Encoder<FailingWriter<'_>>) -> bool {
    encoder.push(Header::Break).is_ok()
}

// Returns how many bytes stay of writes of these lengths if the write of this number fails, and writes its first half.
fn standing(lengths: &[usize], failing: usize) -> usize {
    let mut count = 0usize;
    for (number, length) in lengths.iter().enumerate() {
        if number < failing {
            count = count.saturating_add(*length);
        } else if number == failing {
            count = count.saturating_add(*length / 2);
        }
    }
    count
}

// Returns whether the first `count` bytes of the whole were written, and then a break if it was written.
fn stands(written: &[u8], whole: &[u8], count: usize, is_broken: bool) -> bool {
    let behind: &[u8] = if is_broken { &[0xff] } else { &[] };
    written.strip_prefix(front_of(whole, count)) == Some(behind)
}

// Writes a row by a writer that fails at one write, and then a break, which continues after the bytes that stay.
fn fails_at(rt: &impl Abort, (call, whole, lengths): Row, failing: usize) {
    let mut space = [0; 32];
    let number = failing.saturating_add(1);
    let mut encoder = failing_encoder(&mut space, Failing::Call(number));
    let is_right = ends_as(writes(&mut encoder, call), failing < lengths.len());
    let is_broken = pushes_break(&mut encoder);
    let goes_on = is_broken == (failing != lengths.len());
    let writer = encoder.into_inner();
    let is_due = stands(
        writer.written(),
        whole,
        standing(lengths, failing),
        is_broken,
    );
    holds(rt, is_right && goes_on && is_due, number, whole);
}

// Each write of a row fails in turn, then the break after it, and then none.
#[test]
fn each_write_fails_under_values(rt: HostRuntime) {
    for &row in &ROWS {
        for failing in 0..=row.2.len().saturating_add(1) {
            fails_at(&rt, row, failing);
        }
    }
}
