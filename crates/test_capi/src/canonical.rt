// The rewrite to the deterministic encoding once for each answer, by bytes of RFC 8949, sections 3, 4.2, 5.6 and A.

use crate::told::{Told, is_told, nothing, told};
use capi::{CllAnswer, Span, cll_canonical};
use std::process::Abort;

// How long the output is, and how many spans there are.
const ROOM: usize = 32;

const SPANS: usize = 16;

// What stands in the output before the call.
const UNTOUCHED: u8 = 0xee;

// A place of no pair.
const NO_SPAN: Span = Span {
    start: 0,
    key_end: 0,
    end: 0,
};

// Bytes, the depth and the order, the room and how many spans, the answer, how many bytes were consumed and the place,
// and the encoding.
type Row = (
    &'static [u8],
    (u32, u32),
    (usize, usize),
    CllAnswer,
    (u64, u64),
    &'static [u8],
);

// Rewrites bytes into the first bytes of an output, and returns the results and the whole output.
fn rewritten(row: &Row) -> (Told, [u8; ROOM]) {
    let mut out = [UNTOUCHED; ROOM];
    let mut spans = [NO_SPAN; SPANS];
    let mut report = nothing();
    let (depth, order) = row.1;
    let (room, places) = row.2;
    let code = cll_canonical(
        row.0,
        depth,
        order,
        &mut out[..room.min(ROOM)],
        &mut spans[..places.min(SPANS)],
        &mut report,
    );
    (told(code, &report), out)
}

fn check_row(rt: &impl Abort, row: &Row) {
    let (result, out) = rewritten(row);
    let (consumed, place) = row.4;
    let len = row.5.len();
    let is_right = is_told(&result, row.3, [consumed, len as u64, place]);
    assert!(rt; is_right, "at {:?} in order {}", row.0, row.1.1);
    assert!(rt; out.get(..len) == Some(row.5), "at {:?} in order {}", row.0, row.1.1);
}

const ALL: (usize, usize) = (ROOM, SPANS);

// The keys of RFC 8949, 4.2.1, in another order and in an open map: false, "aa", -1, [100], 10 in three bytes, [-1],
// "z" and 100, each with 0 as its value.
const KEYS: &[u8] = &[
    0xbf, 0xf4, 0x00, 0x62, 0x61, 0x61, 0x00, 0x20, 0x00, 0x81, 0x18, 0x64, 0x00, 0x19, 0x00, 0x0a,
    0x00, 0x81, 0x20, 0x00, 0x61, 0x7a, 0x00, 0x18, 0x64, 0x00, 0xff,
];

// The keys of RFC 8949, 4.2.1: 10, 100, -1, "z", "aa", [100], [-1] and false.
const BYTEWISE: &[u8] = &[
    0xa8, 0x0a, 0x00, 0x18, 0x64, 0x00, 0x20, 0x00, 0x61, 0x7a, 0x00, 0x62, 0x61, 0x61, 0x00, 0x81,
    0x18, 0x64, 0x00, 0x81, 0x20, 0x00, 0xf4, 0x00,
];

// The keys of RFC 8949, 4.2.3: 10, -1, false, 100, "z", [-1], "aa" and [100].
const LENGTH_FIRST: &[u8] = &[
    0xa8, 0x0a, 0x00, 0x20, 0x00, 0xf4, 0x00, 0x18, 0x64, 0x00, 0x61, 0x7a, 0x00, 0x81, 0x20, 0x00,
    0x62, 0x61, 0x61, 0x00, 0x81, 0x18, 0x64, 0x00,
];

// The keys ascend, and the second value has a longer title than it needs.
const WIDE: &[u8] = &[0xa2, 0x01, 0x00, 0x02, 0x18, 0x00];

// The pairs of KEYS take 23 bytes of the encoding, so 12 spans are enough. An item in the encoding takes no span, and
// WIDE takes one for each of its pairs.
static WRITTEN: [Row; 14] = [
    (KEYS, (2, 0), (24, 12), CllAnswer::Ok, (27, 0), BYTEWISE),
    (KEYS, (2, 1), (24, 12), CllAnswer::Ok, (27, 0), LENGTH_FIRST),
    (BYTEWISE, (2, 0), (24, 0), CllAnswer::Ok, (24, 0), BYTEWISE),
    (
        WIDE,
        (1, 0),
        (6, 2),
        CllAnswer::Ok,
        (6, 0),
        &[0xa2, 0x01, 0x00, 0x02, 0x00],
    ),
    (
        BYTEWISE,
        (256, 1),
        ALL,
        CllAnswer::Ok,
        (24, 0),
        LENGTH_FIRST,
    ),
    (
        &[0x05, 0x1c],
        (0, 0),
        (1, 0),
        CllAnswer::Ok,
        (1, 0),
        &[0x05],
    ),
    (
        &[0x1b, 0, 0, 0, 0, 0, 0, 0, 0x18],
        (0, 1),
        (2, 0),
        CllAnswer::Ok,
        (9, 0),
        &[0x18, 0x18],
    ),
    // 1.5 and -0.0 as doubles.
    (
        &[0xfb, 0x3f, 0xf8, 0, 0, 0, 0, 0, 0],
        (0, 0),
        (3, 0),
        CllAnswer::Ok,
        (9, 0),
        &[0xf9, 0x3e, 0x00],
    ),
    (
        &[0xfb, 0x80, 0, 0, 0, 0, 0, 0, 0],
        (0, 0),
        (3, 0),
        CllAnswer::Ok,
        (9, 0),
        &[0xf9, 0x80, 0x00],
    ),
    // (_ h'0102', h'030405') and (_ "strea", "ming") of Appendix A.
    (
        &[0x5f, 0x42, 0x01, 0x02, 0x43, 0x03, 0x04, 0x05, 0xff],
        (0, 0),
        (6, 0),
        CllAnswer::Ok,
        (9, 0),
        &[0x45, 0x01, 0x02, 0x03, 0x04, 0x05],
    ),
    (
        &[
            0x7f, 0x65, 0x73, 0x74, 0x72, 0x65, 0x61, 0x64, 0x6d, 0x69, 0x6e, 0x67, 0xff,
        ],
        (0, 0),
        (10, 0),
        CllAnswer::Ok,
        (13, 0),
        &[0x69, 0x73, 0x74, 0x72, 0x65, 0x61, 0x6d, 0x69, 0x6e, 0x67],
    ),
    // [_ 1, [2, 3], [_ 4, 5]] of Appendix A.
    (
        &[0x9f, 0x01, 0x82, 0x02, 0x03, 0x9f, 0x04, 0x05, 0xff, 0xff],
        (2, 0),
        (8, 0),
        CllAnswer::Ok,
        (10, 0),
        &[0x83, 0x01, 0x82, 0x02, 0x03, 0x82, 0x04, 0x05],
    ),
    // {_ "Fun": true, "Amt": -2} of Appendix A.
    (
        &[
            0xbf, 0x63, 0x46, 0x75, 0x6e, 0xf5, 0x63, 0x41, 0x6d, 0x74, 0x21, 0xff,
        ],
        (1, 0),
        (11, 5),
        CllAnswer::Ok,
        (12, 0),
        &[
            0xa2, 0x63, 0x41, 0x6d, 0x74, 0x21, 0x63, 0x46, 0x75, 0x6e, 0xf5,
        ],
    ),
    (
        &[0xd8, 0x01, 0x40],
        (1, 0),
        (2, 0),
        CllAnswer::Ok,
        (3, 0),
        &[0xc1, 0x40],
    ),
];

static REFUSED: [Row; 24] = [
    (KEYS, (2, 0), (23, 12), CllAnswer::Room, (0, 0), &[]),
    (KEYS, (2, 1), (24, 11), CllAnswer::Room, (0, 0), &[]),
    (WIDE, (1, 0), (6, 1), CllAnswer::Room, (0, 0), &[]),
    (&[0x05], (0, 0), (0, 0), CllAnswer::Room, (0, 0), &[]),
    // The key [100] is a level deeper than the map.
    (KEYS, (1, 0), ALL, CllAnswer::TooDeep, (9, 9), &[]),
    (&[0x80], (0, 0), ALL, CllAnswer::TooDeep, (0, 0), &[]),
    (
        &[0xa2, 0x01, 0x00, 0x18, 0x01, 0x00],
        (1, 0),
        ALL,
        CllAnswer::DuplicateKey,
        (3, 3),
        &[],
    ),
    (
        &[0xa3, 0x02, 0x00, 0x01, 0x00, 0x02, 0x00],
        (1, 1),
        ALL,
        CllAnswer::DuplicateKey,
        (5, 5),
        &[],
    ),
    (&[0x81, 0x1c], (1, 0), ALL, CllAnswer::Syntax, (1, 1), &[]),
    (
        &[0x81, 0xf8, 0x18],
        (1, 0),
        ALL,
        CllAnswer::Syntax,
        (1, 1),
        &[],
    ),
    (
        &[0x81, 0x61, 0xff],
        (1, 0),
        ALL,
        CllAnswer::Syntax,
        (1, 1),
        &[],
    ),
    (
        &[0x5f, 0x60, 0xff],
        (0, 1),
        ALL,
        CllAnswer::Syntax,
        (1, 1),
        &[],
    ),
    (&[0xff], (0, 0), ALL, CllAnswer::BreakDue, (0, 0), &[]),
    (
        &[0x82, 0x05, 0xff],
        (1, 0),
        ALL,
        CllAnswer::BreakDue,
        (2, 2),
        &[],
    ),
    (
        &[0xbf, 0x05, 0xff],
        (1, 0),
        ALL,
        CllAnswer::BreakDue,
        (2, 2),
        &[],
    ),
    // Cut before a title, within one, within a body, and before a segment.
    (&[], (0, 0), ALL, CllAnswer::Short, (0, 0), &[]),
    (&[0x82, 0x01], (1, 0), ALL, CllAnswer::Short, (2, 0), &[]),
    (
        &[0x81, 0x19, 0x03],
        (1, 0),
        ALL,
        CllAnswer::Short,
        (3, 0),
        &[],
    ),
    (
        &[0x81, 0x43, 0x01],
        (1, 1),
        ALL,
        CllAnswer::Short,
        (3, 0),
        &[],
    ),
    (
        &[0x5f, 0x41, 0x01],
        (0, 0),
        ALL,
        CllAnswer::Short,
        (3, 0),
        &[],
    ),
    (&[0x00], (257, 0), ALL, CllAnswer::Argument, (0, 0), &[]),
    (
        &[0x00],
        (u32::MAX, 1),
        ALL,
        CllAnswer::Argument,
        (0, 0),
        &[],
    ),
    (&[0x00], (0, 2), ALL, CllAnswer::Argument, (0, 0), &[]),
    (
        &[0x00],
        (0, u32::MAX),
        ALL,
        CllAnswer::Argument,
        (0, 0),
        &[],
    ),
];

#[test]
fn writes(rt: HostRuntime) {
    for row in &WRITTEN {
        check_row(&rt, row);
    }
}

#[test]
fn refuses(rt: HostRuntime) {
    for row in &REFUSED {
        check_row(&rt, row);
    }
}

// With an argument out of its range the output is as it was.
#[test]
fn keeps_the_output(rt: HostRuntime) {
    let (_deep, out) = rewritten(&(&[0x00], (257, 0), ALL, CllAnswer::Argument, (0, 0), &[]));
    assert!(rt; out == [UNTOUCHED; ROOM]);
    let (_order, out) = rewritten(&(&[0x00], (0, 2), ALL, CllAnswer::Argument, (0, 0), &[]));
    assert!(rt; out == [UNTOUCHED; ROOM]);
}
