use crate::checks::{holds, options_of, written};
use std::alloc::Global;
use std::process::Abort;
use test_support::streams::PartReader;
use tool_files::check::check_input;

// An array of a number and a text, in four bytes.
const ITEM: &[u8] = b"\x82\x01aa";

// How many of these arrays an input has. They are more bytes than are read ahead.
const COUNT: usize = 17000;

// Words, the bytes before and after 17000 arrays of four bytes, and what `check` finds.
static ROWS: [(&str, &[u8], &[u8], &str); 19] = [
    // A sequence.
    ("check", b"", b"", "ok 17000 68000"),
    ("check", b"", b"\x1c", "syntax 68000"),
    ("check", b"", b"\x82", "short 68001"),
    ("check --strict", b"", b"\x18\x01", "syntax 68000"),
    ("check --items 16999", b"", b"", "ok 16999 67996"),
    ("check --skip 16999", b"", b"", "ok 1 4"),
    // A number, and an array of 17000 or of 17001.
    ("check", b"\x01\x9a\0\0\x42\x68", b"", "ok 2 68006"),
    (
        "check",
        b"\x01\x9a\0\0\x42\x69",
        b"\x82\x01\x61\xff",
        "syntax 68008",
    ),
    ("check", b"\x01\x9a\0\0\x42\x69", b"\x82\xff", "break 68007"),
    ("check --depth 1", b"\x01\x9a\0\0\x42\x68", b"", "deep 6"),
    // The array in a map.
    ("check", b"\x01\xa1aa\x9a\0\0\x42\x68", b"", "ok 2 68009"),
    // An array and a map of indefinite length. A break in place of a value does not end the map.
    ("check", b"\x01\x9f", b"\xff", "ok 2 68003"),
    ("check", b"\x01\xbf", b"\xff", "ok 2 68003"),
    ("check", b"\x01\xbf\x01", b"\xff", "break 68003"),
    ("check", b"\x01\xbf\x01", b"\x02\xff", "ok 2 68005"),
    ("check", b"\x01\x9f\x9f", b"\xff\x1c", "syntax 68004"),
    ("check --depth 1", b"\x01\x9f", b"\xff", "deep 2"),
    ("check --one", b"\x9f", b"\xff", "ok 1 68002"),
    ("check --one", b"\x9f", b"\xff\x01", "more 68002"),
];

// Puts bytes into a list, or stops.
fn put(rt: &impl Abort, list: &mut Vec<u8>, bytes: &[u8]) {
    holds(rt, list.extend_from_slice(bytes).is_ok(), "memory", "");
}

// Returns 17000 arrays between some bytes.
fn input(rt: &impl Abort, alloc: Global, before: &[u8], behind: &[u8]) -> Vec<u8> {
    let mut bytes = Vec::new(alloc);
    put(rt, &mut bytes, before);
    for _ in 0..COUNT {
        put(rt, &mut bytes, ITEM);
    }
    put(rt, &mut bytes, behind);
    bytes
}

#[test]
fn inputs_longer_than_what_is_read_ahead(rt: HostRuntime) {
    for &(words, before, behind, want) in &ROWS {
        let options = options_of(&rt, rt.alloc(), words);
        let bytes = input(&rt, rt.alloc(), before, behind);
        let verdict = check_input(PartReader::new(bytes.as_slice(), 4096), options);
        let is_right = written(&rt, rt.alloc(), verdict).as_str() == want;
        holds(&rt, is_right, words, want);
    }
}
