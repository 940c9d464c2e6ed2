use crate::copy::answers::{Answer, copied, copied_by, fed, holds};
use crate::shared::{self, all_hold};
use cbor_copier::{Copied, Copier, Progress};
use std::mem::size_of;
use std::process::Abort;

// How many elements are copied, the bytes, the written bytes, and the progress. A fault is found with the first byte
// after which there are no elements of this number (RFC 8949, appendix F, and RFC 3629, 3).
type Written = (usize, &'static [u8], &'static [u8], Progress);

static ROWS: [Written; 20] = [
    (0, b"\x01", b"", Progress::Ended),
    (
        1,
        b"\x1b\x00\x00\x00\x00\x00\x00\x00\x18",
        b"\x18\x18",
        Progress::Ended,
    ),
    (
        2,
        b"\x58\x01\x01\x5f\x5f\x42\x02\x03\xff\xff",
        b"\x41\x01\x5f\x42\x02\x03\xff",
        Progress::Ended,
    ),
    (3, b"\x82\x01\x02", b"\x82\x01\x02", Progress::Ended),
    (
        1,
        b"\x7f\x78\x02\x61\x62\x5f",
        b"\x7f\x62\x61\x62",
        Progress::Syntax(5),
    ),
    (1, b"\xf9", b"", Progress::More),
    (1, b"\x5f\x18", b"\x5f", Progress::Syntax(1)),
    (1, b"\x5f\x78", b"\x5f", Progress::Syntax(1)),
    (1, b"\x5f\x58\x18", b"\x5f\x58\x18", Progress::More),
    (1, b"\x7f\x5b", b"\x7f", Progress::Syntax(1)),
    (1, b"\x1c", b"", Progress::Syntax(0)),
    (2, b"\x00\xff", b"\x00\xff", Progress::Ended),
    (1, b"\x61\xc3", b"\x61", Progress::Syntax(0)),
    (1, b"\x62\xc3", b"\x62", Progress::More),
    (1, b"\x62\xc3\x41", b"\x62", Progress::Syntax(0)),
    (
        1,
        b"\x78\x03\x61\x62\x63",
        b"\x63\x61\x62\x63",
        Progress::Ended,
    ),
    (
        1,
        b"\x78\x03\x61\x62\xe2",
        b"\x63\x61\x62",
        Progress::Syntax(1),
    ),
    (
        1,
        b"\x65\xf0\x9f\x98\x80\x61",
        b"\x65\xf0\x9f\x98\x80\x61",
        Progress::Ended,
    ),
    (
        1,
        b"\x65\xf0\x9f\x98\x80\xf0",
        b"\x65\xf0\x9f\x98\x80",
        Progress::Syntax(0),
    ),
    (1, b"\x63\xed\xa0", b"\x63", Progress::Syntax(0)),
];

// The same of a strict copier. Other titles are faults (RFC 7049, 3.9), a longer one as soon as its number is too small
// for each title that begins so.
static STRICT_ROWS: [Written; 8] = [
    (2, b"\x05\x18\x18\x1c", b"\x05\x18\x18", Progress::Ended),
    (
        1,
        b"\xfa\x00\x00\x00\x00",
        b"\xfa\x00\x00\x00\x00",
        Progress::Ended,
    ),
    (1, b"\x5f\x41\x01\xff", b"\x5f\x41\x01\xff", Progress::Ended),
    (1, b"\x18\x17", b"", Progress::Syntax(0)),
    (2, b"\x05\x19\x00", b"\x05", Progress::Syntax(1)),
    (1, b"\x3b\x00\x00\x00\x00", b"", Progress::Syntax(0)),
    (1, b"\xf8\x1f", b"", Progress::Syntax(0)),
    (1, b"\x5f\x41\x00\x5f", b"\x5f\x41\x00", Progress::Syntax(3)),
];

// Returns whether a copy wrote this, and has come this far.
fn is_row(answer: &Answer, out: &[u8], progress: Progress) -> bool {
    let is_written = answer.written == out.len() && answer.out.starts_with(out);
    is_written && answer.progress == progress
}

// Copies bytes that come in two pieces, cut at each place, with room for one byte at a time.
fn row(rt: &impl Abort, count: usize, bytes: &[u8], out: &[u8], progress: Progress) {
    for cut in 0..=bytes.len() {
        let answer = copied(count, bytes, cut, 1);
        holds(rt, is_row(&answer, out, progress), count, bytes, cut, 1);
    }
}

#[test]
fn each_row(rt: HostRuntime) {
    for &(count, bytes, out, progress) in &ROWS {
        row(&rt, count, bytes, out, progress);
    }
}

// Copies bytes by a strict copier as `row` does.
fn strict_row(rt: &impl Abort, count: usize, bytes: &[u8], out: &[u8], progress: Progress) {
    for cut in 0..=bytes.len() {
        let answer = copied_by(Copier::strict(count), bytes, cut, 1);
        holds(rt, is_row(&answer, out, progress), count, bytes, cut, 1);
    }
}

#[test]
fn each_strict_row(rt: HostRuntime) {
    for &(count, bytes, out, progress) in &STRICT_ROWS {
        strict_row(&rt, count, bytes, out, progress);
    }
}

// It has room for a title, a character and a few numbers.
#[test]
fn small(rt: HostRuntime) {
    shared::holds(&rt, size_of::<Copier>() <= 192, "the size of a copier");
}

// Returns whether the copier takes this many bytes of a piece, and writes this many.
fn is_fed(copier: &mut Copier, piece: &[u8], room: &mut [u8; 2], want: Copied) -> bool {
    fed(copier, piece, room) == want
}

// A string whose bytes come in two pieces, into rooms for two bytes each.
#[test]
fn two_pieces(rt: HostRuntime) {
    let mut copier = Copier::new(1);
    let mut room = [0; 2];
    let want = Copied {
        taken: 3,
        written: 2,
        progress: Progress::More,
    };
    let first = is_fed(&mut copier, &[0x58, 0x02, 0x0a], &mut room, want) && room == [0x42, 0x0a];
    let want = Copied {
        taken: 1,
        written: 1,
        progress: Progress::Ended,
    };
    let second = is_fed(&mut copier, &[0x0b, 0x00], &mut room, want) && room == [0x0b, 0x0a];
    let want = Copied {
        taken: 0,
        written: 0,
        progress: Progress::Ended,
    };
    let third = is_fed(&mut copier, &[0x00], &mut room, want);
    all_hold(&rt, &[first, second, third]);
}
