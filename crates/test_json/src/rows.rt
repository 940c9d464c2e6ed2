// The JSON of items, with each cut of their bytes and with a writer that fails at each byte of their text.

use crate::answers::{Answer, MOST, MOST_TEXT, decoded, holds, written};
use cbor_json::Mode;
use std::process::Abort;
use test_support::json::{EXACT, REPLACED};

// The vectors of RFC 4648, section 10, under the tags 22, 21 and 23, and under none; then digits beyond the letters.
static BASES: &str = "\
d640 \"\"
d64166 \"Zg==\"
d642666f \"Zm8=\"
d643666f6f \"Zm9v\"
d644666f6f62 \"Zm9vYg==\"
d645666f6f6261 \"Zm9vYmE=\"
d646666f6f626172 \"Zm9vYmFy\"
d54166 \"Zg\"
d542666f \"Zm8\"
d543666f6f \"Zm9v\"
44666f6f62 \"Zm9vYg\"
45666f6f6261 \"Zm9vYmE\"
46666f6f626172 \"Zm9vYmFy\"
d740 \"\"
d74166 \"66\"
d746666f6f626172 \"666F6F626172\"
d642fbff \"+/8=\"
42fbff \"-_8\"
d742fbff \"FBFF\"";

// Byte strings whose segments end within a group of three bytes, and segments of a text.
static SEGMENTS: &str = "\
d65f4166426f6f43626172ff \"Zm9vYmFy\"
5f4041664040426f6fff \"Zm9v\"
d65f5f4166ff416fff \"Zm8=\"
5fff \"\"
7fff \"\"
7f60ff \"\"
7f6161606162ff \"ab\"
7f7f6161ff6162ff \"ab\"
7f62c3bc610aff \"ü\\n\"";

// What tags say of the byte strings in them (RFC 8949, 3.4.5.2 and 6.1).
static TAGS: &str = "\
d6824166d74166 [\"Zg==\",\"66\"]
d6c14166 \"Zg==\"
d7a141ab41cd {\"AB\":\"CD\"}
d6d54166 \"Zg\"
c3814101 [\"AQ\"]
c3c14101 \"AQ\"
d6c24101 \"AQ\"
d6c34101 \"~AQ\"
d6c3814101 [\"AQ\"]
c301 1
c240 \"\"
c340 \"~\"
d9d9f7f6 null";

// Keys, as they come (RFC 8949, 6.1).
static KEYS: &str = "\
a12001 {\"-1\":1}
a13bffffffffffffffff01 {\"-18446744073709551616\":1}
a1c10102 {\"1\":2}
a1410102 {\"AQ\":2}
a1c3410102 {\"~AQ\":2}
a1d6410102 {\"AQ==\":2}
a2616101616102 {\"a\":1,\"a\":2}
bf01f7ff {\"1\":null}";

// Escapes (RFC 8259, 7; Unicode, PropList.txt), integers beyond 2^53, and floats at the edges of their widths.
static EDGES: &str = "\
6908090a0c0d001f7f2f \"\\b\\t\\n\\f\\r\\u0000\\u001f\\u007f/\"
781a7e7fc280c29fc2a0d89bd89cd89de2808de2808ee2808fe28090 \"~\\u007f\\u0080\\u009f\u{a0}\u{61b}\\u061c\u{61d}\u{200d}\\u200e\\u200f\u{2010}\"
781ce280a9e280aae280aee280afe281a5e281a6e281a9e281aaf0908880 \"\u{2029}\\u202a\\u202e\u{202f}\u{2065}\\u2066\\u2069\u{206a}\u{10200}\"
a1620a2201 {\"\\n\\\"\":1}
1b0020000000000001 9007199254740993
3b0020000000000000 -9007199254740993
fb0000000000000001 5.0e-324
fb7fefffffffffffff 1.7976931348623157e+308
fb0010000000000000 2.2250738585072014e-308
fb8000000000000000 -0.0
fa00000001 1.401298464324817e-45
fa3fc00000 1.5
fb433fffffffffffff 9007199254740991.0";

// Returns whether the bytes are one item with this text.
fn is_written(bytes: &[u8], mode: Mode, text: &str) -> bool {
    let mut space = [0; MOST_TEXT];
    let all = written(bytes, 8, mode, &mut space);
    all.answer == Answer::Item(bytes.len()) && space.get(..all.len) == Some(text.as_bytes())
}

// Returns whether each beginning of the bytes is cut, with a beginning of the text.
fn is_cut(bytes: &[u8], mode: Mode, text: &str) -> bool {
    let mut space = [0; MOST_TEXT];
    for len in 0..bytes.len() {
        let part = written(&bytes[..len], 8, mode, &mut space);
        if !matches!(part.answer, Answer::Short(_)) || !begins(text, space.get(..part.len)) {
            return false;
        }
    }
    true
}

// Returns whether a text begins with these bytes.
fn begins(text: &str, front: Option<&[u8]>) -> bool {
    match front {
        Some(front) => text.as_bytes().starts_with(front),
        None => false,
    }
}

// Returns whether a writer without room for the whole text gets a beginning of it.
fn is_full(bytes: &[u8], mode: Mode, text: &str) -> bool {
    let mut space = [0; MOST_TEXT];
    for room in 0..text.len().min(MOST_TEXT) {
        let part = written(bytes, 8, mode, &mut space[..room]);
        if part.answer != Answer::Full || !begins(text, space.get(..part.len)) {
            return false;
        }
    }
    true
}

// Requires that the bytes of a row are one item with the text after them.
fn row_is_written(rt: &impl Abort, mode: Mode, row: &str) {
    let (digits, text) = row.split_once(' ').unwrap_or((row, ""));
    let mut space = [0; MOST];
    let bytes = decoded(rt, digits, &mut space);
    holds(rt, is_written(bytes, mode, text), row);
    holds(rt, is_cut(bytes, mode, text), row);
    holds(rt, is_full(bytes, mode, text), row);
}

// Requires that each row is written as its text.
fn are_written(rt: &impl Abort, mode: Mode, rows: &str) {
    for row in rows.lines() {
        row_is_written(rt, mode, row);
    }
}

#[test]
fn vectors(rt: HostRuntime) {
    are_written(&rt, Mode::Strict, EXACT);
}

#[test]
fn the_same_in_lossy_mode(rt: HostRuntime) {
    are_written(&rt, Mode::Lossy, EXACT);
}

#[test]
fn replaced_items(rt: HostRuntime) {
    are_written(&rt, Mode::Lossy, REPLACED);
}

#[test]
fn bases(rt: HostRuntime) {
    are_written(&rt, Mode::Lossy, BASES);
    are_written(&rt, Mode::Lossy, SEGMENTS);
}

#[test]
fn tags_and_keys(rt: HostRuntime) {
    are_written(&rt, Mode::Lossy, TAGS);
    are_written(&rt, Mode::Lossy, KEYS);
}

#[test]
fn escapes_and_numbers(rt: HostRuntime) {
    are_written(&rt, Mode::Strict, EDGES);
}
