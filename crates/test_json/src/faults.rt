// Items that have no JSON, and bytes that are no item.

use crate::answers::{Answer, MOST, MOST_TEXT, decoded, holds, skipped, written};
use cbor_json::Mode;
use std::process::Abort;

// Bytes, the offset of the item that has no JSON in strict mode, and the text before it.
static STRICT: [(&str, usize, &str); 40] = [
    // RFC 8949, appendix A.
    ("c249010000000000000000", 0, ""),
    ("c349010000000000000000", 0, ""),
    ("f97c00", 0, ""),
    ("f97e00", 0, ""),
    ("f9fc00", 0, ""),
    ("fa7f800000", 0, ""),
    ("fa7fc00000", 0, ""),
    ("faff800000", 0, ""),
    ("fb7ff0000000000000", 0, ""),
    ("fb7ff8000000000000", 0, ""),
    ("fbfff0000000000000", 0, ""),
    ("f7", 0, ""),
    ("f0", 0, ""),
    ("f8ff", 0, ""),
    ("c074323031332d30332d32315432303a30343a30305a", 0, ""),
    ("c11a514b67b0", 0, ""),
    ("c1fb41d452d9ec200000", 0, ""),
    ("d74401020304", 0, ""),
    ("d818456449455446", 0, ""),
    ("d82076687474703a2f2f7777772e6578616d706c652e636f6d", 0, ""),
    ("40", 0, ""),
    ("4401020304", 0, ""),
    ("a201020304", 1, "{"),
    ("5f42010243030405ff", 0, ""),
    // Further items, by hand.
    ("8201f7", 2, "[1,"),
    ("820140", 2, "[1,"),
    ("82f98000f7", 4, "[-0.0,"),
    ("a16161f7", 3, "{\"a\":"),
    ("a1616141ff", 3, "{\"a\":"),
    ("a18001", 1, "{"),
    ("a1a001", 1, "{"),
    ("a1f401", 1, "{"),
    ("a1f9000001", 1, "{"),
    ("a12001", 1, "{"),
    ("a16161d6f6", 3, "{\"a\":"),
    ("a2616101410102", 4, "{\"a\":1,"),
    ("9f9f5fff", 2, "[["),
    ("bf6161015fff", 4, "{\"a\":1,"),
    ("c1ff", 0, ""),
    ("f8187f", 0, ""),
];

// The same in lossy mode.
static LOSSY: [(&str, usize, &str); 8] = [
    ("a1f401", 1, "{"),
    ("a1f701", 1, "{"),
    ("a1f9000001", 1, "{"),
    ("a18001", 1, "{"),
    ("a1a001", 1, "{"),
    ("a1c18001", 2, "{"),
    ("a1c1f601", 2, "{"),
    ("a2616101a002", 4, "{\"a\":1,"),
];

// Requires that the item at this offset has no JSON, and that this text was written before it.
fn is_refused(rt: &impl Abort, mode: Mode, row: (&str, usize, &str)) {
    let (digits, place, text) = row;
    let mut bytes = [0; MOST];
    let mut space = [0; MOST_TEXT];
    let all = written(decoded(rt, digits, &mut bytes), 8, mode, &mut space);
    let is_right = all.answer == Answer::NoJson(place)
        && space.get(..all.len) == Some(text.as_bytes());
    holds(rt, is_right, digits);
}

#[test]
fn items_without_json(rt: HostRuntime) {
    for &row in &STRICT {
        is_refused(&rt, Mode::Strict, row);
    }
    for &row in &LOSSY {
        is_refused(&rt, Mode::Lossy, row);
    }
}

// Bytes that end too early: RFC 8949, appendix F.1, kind 1.
static CUT: &str = "\
18
19
1a
1b
1901
1a0102
1b01020304050607
38
58
78
98
9a01ff00
b8
d8
f8
f900
fa0000
fb000000
41
61
5affffffff00
5bffffffffffffffff010203
7affffffff00
7b7fffffffffffffff010203
81
818181818181818181
8200
a1
a20102
a100
a2000000
c0
5f4100
7f6100
9f
9f0102
bf
bf01020102
819f
9f8000
9f9f9f9f9fffffffff
9f819f819f9fffffff";

// Bytes that are no item: RFC 8949, appendix F.1, kinds 3 to 5. The places are by hand.
static FAULTS: [(&str, Answer); 48] = [
    ("1c", Answer::Syntax(0)),
    ("1d", Answer::Syntax(0)),
    ("1e", Answer::Syntax(0)),
    ("3c", Answer::Syntax(0)),
    ("3d", Answer::Syntax(0)),
    ("3e", Answer::Syntax(0)),
    ("5c", Answer::Syntax(0)),
    ("5d", Answer::Syntax(0)),
    ("5e", Answer::Syntax(0)),
    ("7c", Answer::Syntax(0)),
    ("7d", Answer::Syntax(0)),
    ("7e", Answer::Syntax(0)),
    ("9c", Answer::Syntax(0)),
    ("9d", Answer::Syntax(0)),
    ("9e", Answer::Syntax(0)),
    ("bc", Answer::Syntax(0)),
    ("bd", Answer::Syntax(0)),
    ("be", Answer::Syntax(0)),
    ("dc", Answer::Syntax(0)),
    ("dd", Answer::Syntax(0)),
    ("de", Answer::Syntax(0)),
    ("fc", Answer::Syntax(0)),
    ("fd", Answer::Syntax(0)),
    ("fe", Answer::Syntax(0)),
    ("1f", Answer::Syntax(0)),
    ("3f", Answer::Syntax(0)),
    ("df", Answer::Syntax(0)),
    ("5f00ff", Answer::Syntax(1)),
    ("5f21ff", Answer::Syntax(1)),
    ("5f6100ff", Answer::Syntax(1)),
    ("5f80ff", Answer::Syntax(1)),
    ("5fa0ff", Answer::Syntax(1)),
    ("5fc000ff", Answer::Syntax(1)),
    ("5fe0ff", Answer::Syntax(1)),
    ("7f4100ff", Answer::Syntax(1)),
    ("ff", Answer::Break(0)),
    ("81ff", Answer::Break(1)),
    ("8200ff", Answer::Break(2)),
    ("a1ff", Answer::Break(1)),
    ("a1ff00", Answer::Break(1)),
    ("a100ff", Answer::Break(2)),
    ("a20000ff", Answer::Break(3)),
    ("9f81ff", Answer::Break(2)),
    ("9f829f819f9fffffffff", Answer::Break(9)),
    ("bf00ff", Answer::Break(2)),
    ("bf000000ff", Answer::Break(4)),
    ("7f61ffff", Answer::Syntax(1)),
    ("62c328", Answer::Syntax(0)),
];

// Requires that the bytes stop a write in lossy mode with this answer, and a skip too.
fn stops(rt: &impl Abort, digits: &str, want: Answer) {
    let mut space = [0; MOST];
    let bytes = decoded(rt, digits, &mut space);
    let all = written(bytes, 16, Mode::Lossy, &mut [0; MOST_TEXT]);
    holds(rt, all.answer == want && skipped(bytes, 16) == want, digits);
}

// Requires that the bytes end too early for a write in lossy mode, where they end for a skip too.
fn ends(rt: &impl Abort, digits: &str) {
    let mut space = [0; MOST];
    let bytes = decoded(rt, digits, &mut space);
    let all = written(bytes, 16, Mode::Lossy, &mut [0; MOST_TEXT]);
    let is_right = matches!(all.answer, Answer::Short(_)) && skipped(bytes, 16) == all.answer;
    holds(rt, is_right, digits);
}

#[test]
fn bytes_that_end_too_early(rt: HostRuntime) {
    for row in CUT.lines() {
        ends(&rt, row);
    }
}

// Requires that a write in lossy mode ends as a skip does, or that a key has no JSON.
fn agrees(rt: &impl Abort, bytes: &[u8]) {
    let all = written(bytes, 8, Mode::Lossy, &mut [0; MOST_TEXT]);
    let is_right = matches!(all.answer, Answer::NoJson(1)) || all.answer == skipped(bytes, 8);
    holds(rt, is_right, "two bytes");
}

// Each list of one byte and of two bytes.
#[test]
fn short_lists(rt: HostRuntime) {
    for first in 0..=255 {
        agrees(&rt, &[first]);
        for second in 0..=255 {
            agrees(&rt, &[first, second]);
        }
    }
}

#[test]
fn bytes_that_are_no_item(rt: HostRuntime) {
    for &(digits, want) in &FAULTS {
        stops(&rt, digits, want);
    }
}

// Bytes, how many levels are allowed, how a write in lossy mode ends, the offset after it, and its text.
static LEVELS: [(&[u8], usize, Answer, usize, &str); 8] = [
    (b"\x81\x81\x00", 1, Answer::Deep(1), 2, "["),
    (b"\xc1\x00", 0, Answer::Deep(0), 1, ""),
    (b"\xa1\x61a\xa0", 1, Answer::Deep(3), 4, "{\"a\":"),
    (b"\x81\x00\xff", 1, Answer::Item(2), 2, "[0]"),
    (b"\x00\x01", 0, Answer::Item(1), 1, "0"),
    (b"\x81\x1c", 8, Answer::Syntax(1), 2, "["),
    (b"\x82\x01\xff", 8, Answer::Break(2), 3, "[1"),
    (b"\x7f\x61a\x61\xff\xff", 8, Answer::Syntax(3), 5, "\"a"),
];

#[test]
fn levels_and_offsets(rt: HostRuntime) {
    for &(bytes, depth, want, offset, text) in &LEVELS {
        let mut space = [0; MOST_TEXT];
        let all = written(bytes, depth, Mode::Lossy, &mut space);
        let is_right = all.answer == want && all.offset == offset;
        holds(
            &rt,
            is_right && space.get(..all.len) == Some(text.as_bytes()),
            text,
        );
    }
}
