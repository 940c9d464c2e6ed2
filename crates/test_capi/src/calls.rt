// Each call once for each of its answers, by bytes and numbers from outside.

use crate::told::{Told, in_front, is_told, nothing, told};
use capi::{
    CllAnswer, CllChecker, CllHeader, cll_checker_end, cll_checker_feed, cll_checker_init,
    cll_pull, cll_push, cll_push_wide, cll_recode, cll_skip, cll_strict, cll_utf8, cll_version,
};
use cbor_checker::Snapshot;
use std::process::Abort;

// The kind, the form and the value of a header.
type Parts = (u8, u8, u64);

// Returns the result of a pull: its number, the parts of the header, and how many bytes were consumed.
fn pulled(bytes: &[u8]) -> (u32, Parts, usize) {
    let mut header = CllHeader {
        value: 99,
        kind: 98,
        indefinite: 97,
    };
    let mut consumed = 96;
    let code = cll_pull(bytes, &mut header, &mut consumed);
    (
        code,
        (header.kind, header.indefinite, header.value),
        consumed,
    )
}

// Bytes, the answer, the parts of the header that C gets, and how many bytes were consumed.
type Title = (&'static [u8], CllAnswer, u8, u8, u64, usize);

// Pulls a title, and compares all results that C gets.
fn title_row(rt: &impl Abort, row: &Title) {
    let (code, parts, consumed) = pulled(row.0);
    let is_header = parts.0 == row.2 && parts.1 == row.3 && parts.2 == row.4;
    let is_right = code == row.1.code() && is_header && consumed == row.5;
    assert!(rt; is_right, "at {:?}", row.0);
}

static TITLES: [Title; 22] = [
    (&[0x17], CllAnswer::Ok, 0, 0, 23, 1),
    (
        &[0x1b, 0xff, 0xff, 0xff, 0xff, 0xff, 0xff, 0xff, 0xff],
        CllAnswer::Ok,
        0,
        0,
        u64::MAX,
        9,
    ),
    (&[0x39, 0x03, 0xe7], CllAnswer::Ok, 1, 0, 999, 3),
    (&[0x44], CllAnswer::Ok, 2, 0, 4, 1),
    (&[0x5f], CllAnswer::Ok, 2, 1, 0, 1),
    (&[0x78, 0x0d], CllAnswer::Ok, 3, 0, 13, 2),
    (&[0x7f], CllAnswer::Ok, 3, 1, 0, 1),
    (&[0x98, 0x19], CllAnswer::Ok, 4, 0, 25, 2),
    (&[0x9f], CllAnswer::Ok, 4, 1, 0, 1),
    (&[0xa2], CllAnswer::Ok, 5, 0, 2, 1),
    (&[0xbf], CllAnswer::Ok, 5, 1, 0, 1),
    (&[0xd8, 0x20], CllAnswer::Ok, 6, 0, 32, 2),
    (&[0xf8, 0x10], CllAnswer::Ok, 7, 0, 16, 2),
    (&[0xf9, 0x7e, 0x00], CllAnswer::Ok, 8, 0, 0x7e00, 3),
    (
        &[0xfa, 0x47, 0xc3, 0x50, 0x00],
        CllAnswer::Ok,
        9,
        0,
        0x47c3_5000,
        5,
    ),
    (
        &[0xfb, 0x7f, 0xf0, 0, 0, 0, 0, 0, 0],
        CllAnswer::Ok,
        10,
        0,
        0x7ff0_0000_0000_0000,
        9,
    ),
    (&[0xff], CllAnswer::Ok, 11, 0, 0, 1),
    // no title: the header is left as it was
    (&[], CllAnswer::Short, 98, 97, 99, 0),
    (&[0x19, 0x03], CllAnswer::Short, 98, 97, 99, 1),
    (&[0x1f, 0x00], CllAnswer::Syntax, 98, 97, 99, 1),
    (&[0x1c], CllAnswer::Syntax, 98, 97, 99, 1),
    (&[0xdf], CllAnswer::Syntax, 98, 97, 99, 1),
];

#[test]
fn titles(rt: HostRuntime) {
    for row in &TITLES {
        title_row(&rt, row);
    }
}

// The parts of a header, how many bytes follow the first byte of its title, if the caller says so, and the title.
type Pushed = (u8, u8, u64, Option<u32>, &'static [u8]);

// Pushes into the first of 16 bytes, and returns the results and the 16 bytes.
fn pushed(row: &Pushed, room: usize) -> (Told, [u8; 16]) {
    let header = CllHeader {
        value: row.2,
        kind: row.0,
        indefinite: row.1,
    };
    let mut out = [0xee; 16];
    let mut report = nothing();
    let space = &mut out[..room.min(16)];
    let code = match row.3 {
        Some(width) => cll_push_wide(&header, width, space, &mut report),
        None => cll_push(&header, space, &mut report),
    };
    (told(code, &report), out)
}

// The call writes the title into 16 bytes. It writes nothing into one byte less than the title has.
fn push_row(rt: &impl Abort, row: &Pushed) {
    let length = row.4.len();
    let (whole, out) = pushed(row, 16);
    let is_whole = is_told(&whole, CllAnswer::Ok, [0, length as u64, 0]);
    let is_right = is_whole && out == in_front(row.4);
    assert!(rt; is_right, "at {:?}", row.4);
    let (none, out) = pushed(row, length.saturating_sub(1));
    let is_right = is_told(&none, CllAnswer::Room, [0, 0, 0]) && out == [0xee; 16];
    assert!(rt; is_right, "at {:?}", row.4);
}

static PUSHED: [Pushed; 34] = [
    (0, 0, 5, None, &[0x05]),
    (0, 0, 24, None, &[0x18, 0x18]),
    (0, 0, 1000, None, &[0x19, 0x03, 0xe8]),
    (0, 0, 1_000_000, None, &[0x1a, 0x00, 0x0f, 0x42, 0x40]),
    (
        1,
        0,
        u64::MAX,
        None,
        &[0x3b, 0xff, 0xff, 0xff, 0xff, 0xff, 0xff, 0xff, 0xff],
    ),
    (2, 0, 5, None, &[0x45]),
    (2, 1, 0, None, &[0x5f]),
    (3, 0, 13, None, &[0x6d]),
    (3, 1, 0, None, &[0x7f]),
    (4, 0, 25, None, &[0x98, 0x19]),
    (4, 1, 0, None, &[0x9f]),
    (5, 0, 2, None, &[0xa2]),
    (5, 1, 0, None, &[0xbf]),
    (6, 0, 32, None, &[0xd8, 0x20]),
    (7, 0, 16, None, &[0xf0]),
    (7, 0, 255, None, &[0xf8, 0xff]),
    (8, 0, 1, None, &[0xf9, 0x00, 0x01]),
    (9, 0, 0x47c3_5000, None, &[0xfa, 0x47, 0xc3, 0x50, 0x00]),
    (10, 0, 1, None, &[0xfb, 0, 0, 0, 0, 0, 0, 0, 1]),
    (11, 0, 0, None, &[0xff]),
    // in a width
    (0, 0, 5, Some(0), &[0x05]),
    (0, 0, 5, Some(1), &[0x18, 0x05]),
    (1, 0, 5, Some(2), &[0x39, 0x00, 0x05]),
    (2, 0, 5, Some(4), &[0x5a, 0x00, 0x00, 0x00, 0x05]),
    (3, 0, 5, Some(8), &[0x7b, 0, 0, 0, 0, 0, 0, 0, 5]),
    (4, 0, 0x1234, Some(4), &[0x9a, 0x00, 0x00, 0x12, 0x34]),
    (5, 1, 0, Some(0), &[0xbf]),
    (6, 0, 1, Some(2), &[0xd9, 0x00, 0x01]),
    (7, 0, 20, Some(0), &[0xf4]),
    (7, 0, 20, Some(1), &[0xf8, 0x14]),
    (8, 0, 0x7e00, Some(2), &[0xf9, 0x7e, 0x00]),
    (9, 0, 1, Some(4), &[0xfa, 0, 0, 0, 1]),
    (10, 0, 1, Some(8), &[0xfb, 0, 0, 0, 0, 0, 0, 0, 1]),
    (11, 0, 0, Some(0), &[0xff]),
];

#[test]
fn shortest_and_wide_titles(rt: HostRuntime) {
    for row in &PUSHED {
        push_row(&rt, row);
    }
}

// Parts that no header has, or parts whose title cannot have that many bytes after its first byte.
fn no_header_row(rt: &impl Abort, row: &Pushed) {
    let (none, out) = pushed(row, 16);
    let is_right = is_told(&none, CllAnswer::Argument, [0, 0, 0]) && out == [0xee; 16];
    assert!(rt; is_right, "at {} {} {} {:?}", row.0, row.1, row.2, row.3);
}

static NO_HEADERS: [Pushed; 27] = [
    (12, 0, 0, None, &[]),
    (255, 0, 0, None, &[]),
    (7, 0, 256, None, &[]),
    (8, 0, 0x1_0000, None, &[]),
    (9, 0, 0x1_0000_0000, None, &[]),
    (11, 0, 1, None, &[]),
    (0, 1, 0, None, &[]),
    (6, 1, 0, None, &[]),
    (2, 1, 5, None, &[]),
    (4, 2, 0, None, &[]),
    // in a width
    (0, 0, 24, Some(0), &[]),
    (0, 0, 256, Some(1), &[]),
    (2, 0, 0x1_0000, Some(2), &[]),
    (6, 0, 0x1_0000_0000, Some(4), &[]),
    (0, 0, 5, Some(3), &[]),
    (0, 0, 5, Some(9), &[]),
    (0, 0, 5, Some(u32::MAX), &[]),
    (4, 1, 0, Some(1), &[]),
    (4, 1, 5, Some(0), &[]),
    (7, 0, 20, Some(2), &[]),
    (7, 0, 24, Some(0), &[]),
    (7, 0, 256, Some(2), &[]),
    (8, 0, 1, Some(0), &[]),
    (9, 0, 1, Some(2), &[]),
    (10, 0, 1, Some(4), &[]),
    (11, 0, 0, Some(1), &[]),
    (12, 0, 0, Some(0), &[]),
];

#[test]
fn no_headers(rt: HostRuntime) {
    for row in &NO_HEADERS {
        no_header_row(&rt, row);
    }
}

#[test]
fn versions(rt: HostRuntime) {
    assert!(rt; cll_version() == 256);
}

// Bytes, how many elements, the room, the answer, how many bytes were consumed, the place, and what was written.
type Copied = (
    &'static [u8],
    u64,
    usize,
    CllAnswer,
    u64,
    u64,
    &'static [u8],
);

// Copies into the first of 16 bytes, and returns the results.
fn copied(bytes: &[u8], count: u64, room: usize) -> (Told, [u8; 16]) {
    let mut out = [0xee; 16];
    let mut report = nothing();
    let code = cll_recode(bytes, count, &mut out[..room.min(16)], &mut report);
    (told(code, &report), out)
}

// Compares a copy into a room: the output begins with the written bytes, and its rest is unchanged.
fn copy_row(rt: &impl Abort, row: &Copied) {
    let (told, out) = copied(row.0, row.1, row.2);
    let is_answer = is_told(&told, row.3, [row.4, row.6.len() as u64, row.5]);
    let is_right = is_answer && out == in_front(row.6);
    assert!(rt; is_right, "at {:?}", row.0);
}

const NESTED: &[u8] = &[0x5f, 0x5f, 0x58, 0x01, 0x01, 0xff, 0xff];

static COPIES: [Copied; 15] = [
    (
        NESTED,
        1,
        16,
        CllAnswer::Ok,
        7,
        0,
        &[0x5f, 0x41, 0x01, 0xff],
    ),
    (NESTED, 1, 4, CllAnswer::Ok, 7, 0, &[0x5f, 0x41, 0x01, 0xff]),
    (NESTED, 0, 16, CllAnswer::Ok, 0, 0, &[]),
    (
        &[0x18, 0x05, 0xf8, 0x10, 0xa0],
        2,
        16,
        CllAnswer::Ok,
        4,
        0,
        &[0x05, 0xf0],
    ),
    (&[0x7f, 0xff], 1, 2, CllAnswer::Ok, 2, 0, &[0x7f, 0xff]),
    (
        &[0x7f, 0x61, 0x61, 0x5f, 0xff],
        1,
        16,
        CllAnswer::Syntax,
        4,
        3,
        &[0x7f, 0x61, 0x61],
    ),
    (
        &[0x78, 0x02, 0x61, 0xff],
        1,
        16,
        CllAnswer::Syntax,
        4,
        1,
        &[0x62, 0x61],
    ),
    (&[0x05, 0x06], 2, 1, CllAnswer::Room, 2, 0, &[0x05]),
    (&[0x18, 0x18], 1, 1, CllAnswer::Room, 2, 0, &[0x18]),
    // If bytes end too early, the place is how many more are due: the bytes that a title or a body lacks, or one. It is
    // 0 if no next byte would be right.
    (&[0x43, 0x01], 1, 16, CllAnswer::Short, 1, 2, &[0x43]),
    (&[0x7f, 0x7f, 0xff], 1, 16, CllAnswer::Short, 3, 1, &[0x7f]),
    (&[], 1, 0, CllAnswer::Short, 0, 1, &[]),
    (&[0x05], 9, 16, CllAnswer::Short, 1, 1, &[0x05]),
    (&[0x82, 0x1b, 0x00], 9, 16, CllAnswer::Short, 2, 7, &[0x82]),
    (
        &[0x05, 0x5f, 0x19, 0x00],
        2,
        16,
        CllAnswer::Short,
        3,
        0,
        &[0x05, 0x5f],
    ),
];

#[test]
fn copies(rt: HostRuntime) {
    for row in &COPIES {
        copy_row(&rt, row);
    }
}

// Bytes, the depth, the answer, how many bytes were consumed, and the place.
type Skipped = (&'static [u8], u32, CllAnswer, u64, u64);

// Returns the results of a skip.
fn skipped(bytes: &[u8], depth: u32) -> Told {
    let mut report = nothing();
    let code = cll_skip(bytes, depth, &mut report);
    told(code, &report)
}

// Compares a skip: the answer, how many bytes were consumed, and the place.
fn skip_row(rt: &impl Abort, row: &Skipped) {
    let is_right = is_told(&skipped(row.0, row.1), row.2, [row.3, 0, row.4]);
    assert!(rt; is_right, "at {:?}", row.0);
}

const MAP: &[u8] = &[0xa1, 0x61, 0x61, 0x82, 0x01, 0x02];

static ITEMS: [Skipped; 16] = [
    (MAP, 2, CllAnswer::Ok, 6, 0),
    (MAP, 256, CllAnswer::Ok, 6, 0),
    (MAP, 257, CllAnswer::Argument, 0, 0),
    (MAP, 1, CllAnswer::TooDeep, 4, 3),
    (&[0x81, 0xff], 1, CllAnswer::BreakDue, 2, 1),
    (&[0xbf, 0x01, 0xff], 1, CllAnswer::BreakDue, 3, 2),
    (&[0x5f, 0x41, 0x01, 0xff], 0, CllAnswer::Ok, 4, 0),
    (&[0x81, 0x1f], 1, CllAnswer::Syntax, 2, 1),
    (&[0xff], 0, CllAnswer::BreakDue, 1, 0),
    // cut items, whose place is how many bytes more are due
    (&[], 0, CllAnswer::Short, 0, 1),
    (&[0x82, 0x01], 1, CllAnswer::Short, 2, 1),
    (&[0x81, 0x3b, 0x01, 0x02], 1, CllAnswer::Short, 2, 6),
    (
        &[0x9f, 0x5a, 0x00, 0x01, 0x00, 0x00, 0x07],
        1,
        CllAnswer::Short,
        6,
        0xffff,
    ),
    (&[0x7f, 0x62, 0xc3], 0, CllAnswer::Short, 2, 1),
    // A tag that has no level left, and a number within a string.
    (&[0xd9, 0x01], 0, CllAnswer::Short, 1, 0),
    (&[0x7f, 0x19], 0, CllAnswer::Short, 2, 0),
];

#[test]
fn skips(rt: HostRuntime) {
    for row in &ITEMS {
        skip_row(&rt, row);
    }
}

// Bytes, how many elements, the answer, how many bytes were consumed, and the place.
type Strict = (&'static [u8], u64, CllAnswer, u64, u64);

// Returns the results of a strict read of `count` elements.
fn read_strictly(bytes: &[u8], count: u64) -> Told {
    let mut report = nothing();
    let code = cll_strict(bytes, count, &mut report);
    told(code, &report)
}

// Compares a strict read: the answer, how many bytes were consumed, and the place.
fn strict_row(rt: &impl Abort, row: &Strict) {
    let is_right = is_told(&read_strictly(row.0, row.1), row.2, [row.3, 0, row.4]);
    assert!(rt; is_right, "at {:?}", row.0);
}

static STRICT: [Strict; 13] = [
    (&[0x18, 0x18], 1, CllAnswer::Ok, 2, 0),
    (&[0x05, 0x18, 0x05], 1, CllAnswer::Ok, 1, 0),
    (&[0x05, 0x18, 0x05], 2, CllAnswer::Syntax, 3, 1),
    (&[0x18, 0x05], 1, CllAnswer::Syntax, 2, 0),
    (&[0xf8, 0x18], 1, CllAnswer::Syntax, 2, 0),
    (
        &[0x5f, 0x5f, 0x41, 0x01, 0xff, 0xff],
        1,
        CllAnswer::Syntax,
        2,
        1,
    ),
    (&[0x5f, 0x41, 0x01, 0xff], 1, CllAnswer::Ok, 4, 0),
    (&[0x62, 0x61, 0xff], 1, CllAnswer::Syntax, 3, 0),
    (&[], 0, CllAnswer::Ok, 0, 0),
    // cut elements, whose place is how many bytes more are due
    (&[0x43, 0x01], 1, CllAnswer::Short, 1, 2),
    (&[], 1, CllAnswer::Short, 0, 1),
    (&[0x05, 0x9b, 0x01], 2, CllAnswer::Short, 2, 7),
    (&[0x05, 0x19, 0x00], 2, CllAnswer::Short, 2, 0),
];

#[test]
fn strict_elements(rt: HostRuntime) {
    for row in &STRICT {
        strict_row(&rt, row);
    }
}

// Returns the results for how far bytes are text.
fn found(bytes: &[u8]) -> Told {
    let mut report = nothing();
    let code = cll_utf8(bytes, &mut report);
    told(code, &report)
}

// Compares how far bytes are text. All of them are; or they end inside a character, which begins after `front` bytes;
// or the byte there begins no character.
fn text_row(rt: &impl Abort, bytes: &[u8], answer: CllAnswer, front: usize) {
    let front = front as u64;
    let place = if answer == CllAnswer::Syntax {
        front
    } else {
        0
    };
    let is_right = is_told(&found(bytes), answer, [front, 0, place]);
    assert!(rt; is_right, "at {bytes:?}");
}

// Bytes, the answer, and how many of the first ones are text.
type Text = (&'static [u8], CllAnswer, usize);

static TEXTS: [Text; 39] = [
    // the examples of RFC 3629, 7, and the first and last bytes of each row of Unicode's Table 3-7
    (&[], CllAnswer::Ok, 0),
    (
        &[0x41, 0xe2, 0x89, 0xa2, 0xce, 0x91, 0x2e],
        CllAnswer::Ok,
        7,
    ),
    (
        &[0xed, 0x95, 0x9c, 0xea, 0xb5, 0xad, 0xec, 0x96, 0xb4],
        CllAnswer::Ok,
        9,
    ),
    (
        &[0xe6, 0x97, 0xa5, 0xe6, 0x9c, 0xac, 0xe8, 0xaa, 0x9e],
        CllAnswer::Ok,
        9,
    ),
    (
        &[0xef, 0xbb, 0xbf, 0xf0, 0xa3, 0x8e, 0xb4],
        CllAnswer::Ok,
        7,
    ),
    (&[0x00, 0x7f, 0xc2, 0x80, 0xdf, 0xbf], CllAnswer::Ok, 6),
    (&[0xe0, 0xa0, 0x80, 0xe0, 0xbf, 0xbf], CllAnswer::Ok, 6),
    (&[0xe1, 0x80, 0x80, 0xec, 0xbf, 0xbf], CllAnswer::Ok, 6),
    (&[0xed, 0x80, 0x80, 0xed, 0x9f, 0xbf], CllAnswer::Ok, 6),
    (&[0xee, 0x80, 0x80, 0xef, 0xbf, 0xbf], CllAnswer::Ok, 6),
    (
        &[0xf0, 0x90, 0x80, 0x80, 0xf0, 0xbf, 0xbf, 0xbf],
        CllAnswer::Ok,
        8,
    ),
    (
        &[0xf1, 0x80, 0x80, 0x80, 0xf3, 0xbf, 0xbf, 0xbf],
        CllAnswer::Ok,
        8,
    ),
    (
        &[0xf4, 0x80, 0x80, 0x80, 0xf4, 0x8f, 0xbf, 0xbf],
        CllAnswer::Ok,
        8,
    ),
    (&[0x61; 40], CllAnswer::Ok, 40),
    // bytes that end inside a character
    (&[0xc2], CllAnswer::Short, 0),
    (&[0x61, 0xdf], CllAnswer::Short, 1),
    (&[0xe0], CllAnswer::Short, 0),
    (&[0xe0, 0xa0], CllAnswer::Short, 0),
    (&[0xed, 0x9f], CllAnswer::Short, 0),
    (&[0xc3, 0xa9, 0xe6, 0x97], CllAnswer::Short, 2),
    (&[0xf0], CllAnswer::Short, 0),
    (&[0xf0, 0x90], CllAnswer::Short, 0),
    (&[0xf0, 0x90, 0x80], CllAnswer::Short, 0),
    (&[0xf4, 0x8f], CllAnswer::Short, 0),
    (&[0x61, 0x62, 0xf4, 0x8f, 0xbf], CllAnswer::Short, 2),
    // bytes in no row of the table; the last ones are slashes of RFC 3629, 10 that are longer than necessary
    (&[0x80], CllAnswer::Syntax, 0),
    (&[0x61, 0xbf, 0x61], CllAnswer::Syntax, 1),
    (&[0xc0], CllAnswer::Syntax, 0),
    (&[0xc1, 0xbf], CllAnswer::Syntax, 0),
    (&[0x61, 0xc2, 0x61], CllAnswer::Syntax, 1),
    (&[0xe0, 0x9f], CllAnswer::Syntax, 0),
    (&[0xe6, 0x97, 0xa5, 0xe6, 0x97, 0xc0], CllAnswer::Syntax, 3),
    (&[0xed, 0xa0], CllAnswer::Syntax, 0),
    (&[0xed, 0xa0, 0x80, 0xed, 0xb0, 0x80], CllAnswer::Syntax, 0),
    (&[0xf0, 0x8f, 0xbf, 0xbf], CllAnswer::Syntax, 0),
    (&[0xf4, 0x90], CllAnswer::Syntax, 0),
    (&[0xc3, 0xa9, 0xf5], CllAnswer::Syntax, 2),
    (&[0xff], CllAnswer::Syntax, 0),
    (&[0x2f, 0xc0, 0xae, 0x2e, 0x2f], CllAnswer::Syntax, 1),
];

#[test]
fn texts(rt: HostRuntime) {
    for (bytes, answer, front) in &TEXTS {
        text_row(&rt, bytes, *answer, *front);
    }
}

// Texts of ten characters of three bytes, with one byte changed or left out.
#[test]
fn long_texts(rt: HostRuntime) {
    let mut bytes = [
        0xe6, 0x97, 0xa5, 0xe6, 0x97, 0xa5, 0xe6, 0x97, 0xa5, 0xe6, 0x97, 0xa5, 0xe6, 0x97, 0xa5,
        0xe6, 0x97, 0xa5, 0xe6, 0x97, 0xa5, 0xe6, 0x97, 0xa5, 0xe6, 0x97, 0xa5, 0xe6, 0x97, 0xa5,
    ];
    text_row(&rt, &bytes, CllAnswer::Ok, 30);
    text_row(&rt, &bytes[..29], CllAnswer::Short, 27);
    text_row(&rt, &bytes[..28], CllAnswer::Short, 27);
    text_row(&rt, &bytes[..27], CllAnswer::Ok, 27);
    bytes[13] = 0x61;
    text_row(&rt, &bytes, CllAnswer::Syntax, 12);
    bytes[13] = 0x97;
    bytes[29] = 0xc0;
    text_row(&rt, &bytes, CllAnswer::Syntax, 27);
}

// A text in two pieces, cut at each of its bytes. The second piece begins after the text of the first piece.
#[test]
fn texts_in_pieces(rt: HostRuntime) {
    let text = [0x41, 0xce, 0x91, 0xe6, 0x97, 0xa5, 0xf0, 0xa3, 0x8e, 0xb4];
    let fronts = [0, 1, 1, 3, 3, 3, 6, 6, 6, 6, 10];
    for cut in 0..=text.len() {
        let front = fronts[cut];
        let answer = if front == cut {
            CllAnswer::Ok
        } else {
            CllAnswer::Short
        };
        text_row(&rt, &text[..cut], answer, front);
        let rest = &text[front..];
        text_row(&rt, rest, CllAnswer::Ok, rest.len());
    }
}

// Memory that holds no checker.
fn no_checker() -> CllChecker {
    CllChecker {
        mark: 7,
        state: Snapshot::new(),
    }
}

// Feeds a checker, and returns the results.
fn fed_once(checker: &mut CllChecker, bytes: &[u8]) -> Told {
    let mut report = nothing();
    let code = cll_checker_feed(checker, bytes, &mut report);
    told(code, &report)
}

// Returns the results of a checker's end.
fn ended(checker: &CllChecker) -> Told {
    let mut report = nothing();
    let code = cll_checker_end(checker, &mut report);
    told(code, &report)
}

// Feeds two pieces, and returns the results of the second piece and of the end, and whether the checker was set up.
fn fed(depth: u32, first: &[u8], second: &[u8]) -> (Told, Told, u32) {
    let mut checker = no_checker();
    let begun = cll_checker_init(&mut checker, depth);
    let _ = fed_once(&mut checker, first);
    let piece = fed_once(&mut checker, second);
    (piece, ended(&checker), begun)
}

// The depth and two pieces. Then the answer to the second piece, how many of its bytes were taken, and the place. Then
// the answer to the end, and its place.
type Checked = (
    u32,
    &'static [u8],
    &'static [u8],
    CllAnswer,
    u64,
    u64,
    CllAnswer,
    u64,
);

// Feeds two pieces and the end, and compares the results. No checker is set up if a piece is refused for an argument.
fn checked_row(rt: &impl Abort, row: &Checked) {
    let (piece, end, begun) = fed(row.0, row.1, row.2);
    let is_piece = is_told(&piece, row.3, [row.4, 0, row.5]);
    let is_right = is_piece && is_told(&end, row.6, [0, 0, row.7]);
    let is_begun = (begun == 0) == (row.3 != CllAnswer::Argument);
    let is_refused = begun == 0 || begun == CllAnswer::Argument.code();
    assert!(rt;
        is_right && is_begun && is_refused,
        "at {:?}, {}",
        row.2,
        row.0
    );
}

static CHECKED: [Checked; 15] = [
    (
        2,
        &[0xa1, 0x61],
        &[0x61, 0x01, 0x05],
        CllAnswer::Ok,
        2,
        4,
        CllAnswer::Ok,
        0,
    ),
    (2, &[0x05], &[0x05], CllAnswer::Ok, 0, 1, CllAnswer::Ok, 0),
    (
        2,
        &[0x9f, 0x01],
        &[0xff],
        CllAnswer::Ok,
        1,
        3,
        CllAnswer::Ok,
        0,
    ),
    (
        2,
        &[0x1b, 0x01],
        &[0x02],
        CllAnswer::Short,
        1,
        6,
        CllAnswer::Short,
        6,
    ),
    (
        2,
        &[0x58, 0x20, 0x01],
        &[],
        CllAnswer::Short,
        0,
        31,
        CllAnswer::Short,
        31,
    ),
    (
        2,
        &[0x82],
        &[0x01],
        CllAnswer::Short,
        1,
        1,
        CllAnswer::Short,
        1,
    ),
    (
        2,
        &[0x62, 0xc3],
        &[0x28, 0x28],
        CllAnswer::Syntax,
        1,
        0,
        CllAnswer::Syntax,
        0,
    ),
    (
        2,
        &[0x7f, 0x61, 0x61],
        &[0x41],
        CllAnswer::Syntax,
        1,
        3,
        CllAnswer::Syntax,
        3,
    ),
    (
        2,
        &[0x81, 0x1f],
        &[0x00],
        CllAnswer::Syntax,
        0,
        1,
        CllAnswer::Syntax,
        1,
    ),
    (
        2,
        &[0xbf, 0x01],
        &[0xff],
        CllAnswer::BreakDue,
        1,
        2,
        CllAnswer::BreakDue,
        2,
    ),
    (
        2,
        &[0x81, 0x81],
        &[0x81],
        CllAnswer::TooDeep,
        1,
        2,
        CllAnswer::TooDeep,
        2,
    ),
    // before a byte came, one more is due, and an item has not ended
    (0, &[], &[], CllAnswer::Short, 0, 1, CllAnswer::Ok, 0),
    (256, &[], &[], CllAnswer::Short, 0, 1, CllAnswer::Ok, 0),
    // memory that holds no checker, since the depth is greater than 256
    (
        257,
        &[0x05],
        &[0x05],
        CllAnswer::Argument,
        0,
        0,
        CllAnswer::Argument,
        0,
    ),
    (
        u32::MAX,
        &[],
        &[],
        CllAnswer::Argument,
        0,
        0,
        CllAnswer::Argument,
        0,
    ),
];

#[test]
fn checkers(rt: HostRuntime) {
    for row in &CHECKED {
        checked_row(&rt, row);
    }
}

// Memory of a checker with changed numbers, and memory of other numbers.
#[test]
fn no_checkers(rt: HostRuntime) {
    let mut checker = no_checker();
    assert!(rt; cll_checker_init(&mut checker, 2) == 0);
    checker.state.depth = 257;
    let refused = fed_once(&mut checker, &[0x05]);
    assert!(rt; is_told(&refused, CllAnswer::Argument, [0, 0, 0]));
    checker.state.depth = 2;
    let (code, _) = fed_once(&mut checker, &[0x05]);
    checker.mark = 0;
    let (end, _) = ended(&checker);
    assert!(rt; code == 0 && end == CllAnswer::Argument.code());
}
