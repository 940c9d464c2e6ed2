// The bytes that notation spells, by the word `encode`.

use crate::checks::{holds, holds_at, options_of};
use cbor_encode::NotationError;
use std::alloc::Global;
use std::io;
use test_support::streams::{PartReader, PartWriter};
use tool_files::arguments::Options;
use tool_files::encode::{EncodeFault, encode_input};

// An array of a number and a text, in notation and in bytes.
const NOTATION: &[u8] = b"[1000, \"a\"]";

const PAIR: &[u8] = b"\x82\x19\x03\xe8\x61a";

// Words, notation, and the bytes of its items. The arrays, the maps, the tag and the float are examples of RFC 8949,
// appendix A.
static NOTATIONS: [(&str, &str, &[u8]); 18] = [
    ("encode", "", &[]),
    ("encode", " # nothing\n", &[]),
    ("encode", "[1, [2, 3]]", &[0x82, 1, 0x82, 2, 3]),
    ("encode", "{\"a\": 1}", &[0xa1, 0x61, 0x61, 1]),
    (
        "encode",
        "{\"a\": 1, \"b\": [2, 3]}",
        &[0xa2, 0x61, 0x61, 1, 0x61, 0x62, 0x82, 2, 3],
    ),
    (
        "encode",
        "[_ 1, [2, 3], [_ 4, 5]]",
        &[0x9f, 1, 0x82, 2, 3, 0x9f, 4, 5, 0xff, 0xff],
    ),
    (
        "encode",
        "(_ h'0102', h'030405')",
        &[0x5f, 0x42, 1, 2, 0x43, 3, 4, 5, 0xff],
    ),
    (
        "encode",
        "1(1363896240)",
        &[0xc1, 0x1a, 0x51, 0x4b, 0x67, 0xb0],
    ),
    (
        "encode",
        "1.1",
        &[0xfb, 0x3f, 0xf1, 0x99, 0x99, 0x99, 0x99, 0x99, 0x9a],
    ),
    // Sequences of items (RFC 8742), marks and comments.
    ("encode", "1 null\n[2]", &[1, 0xf6, 0x81, 2]),
    ("encode", "1, 2, # two\n", &[1, 2]),
    ("encode", "1_1 [_0 2]", &[0x19, 0, 1, 0x98, 1, 2]),
    // Exactly one item.
    ("encode --one", "[1, [2, 3]]", &[0x82, 1, 0x82, 2, 3]),
    ("encode --one", " -1000 / one / ", &[0x39, 3, 0xe7]),
    // Levels.
    ("encode --depth 0", "1 \"a\"", &[1, 0x61, 0x61]),
    ("encode --depth 1", "[1] {2: 3}", &[0x81, 1, 0xa1, 2, 3]),
    ("encode --one --depth 1", "[1]", &[0x81, 1]),
    ("encode --depth=2", "[[1]]", &[0x81, 0x81, 1]),
];

// Returns whether a text gives these bytes, read three bytes a call, and written two bytes a call.
fn is_encoded(alloc: Global, text: &str, options: Options, want: &[u8]) -> bool {
    let reader = PartReader::new(text.as_bytes(), 3);
    let mut writer = PartWriter::new(alloc, 2);
    let is_well = encode_input(alloc, reader, &mut writer, options).is_ok();
    is_well && writer.taken.as_slice() == want && writer.flushes == 1
}

#[test]
fn notations(rt: HostRuntime) {
    for &(words, text, want) in &NOTATIONS {
        let options = options_of(&rt, rt.alloc(), words);
        let is_right = is_encoded(rt.alloc(), text, options, want);
        holds(&rt, is_right, words, text);
    }
}

// Words, a text with a fault, and the message.
static FAULTS: [(&str, &str, &str); 10] = [
    (
        "encode",
        "[1, 2\n",
        "line 2, column 1: expected a comma or a closing bracket",
    ),
    (
        "encode",
        "1\n[2 3]",
        "line 2, column 4: expected a comma or a closing bracket",
    ),
    ("encode", "1,,2", "line 1, column 3: expected an item"),
    (
        "encode",
        "1\n[2][3]",
        "line 2, column 4: expected a comma or white space",
    ),
    (
        "encode",
        "{1: 2, 3}",
        "line 1, column 9: expected a colon and a value",
    ),
    ("encode --one", "", "line 1, column 1: expected an item"),
    (
        "encode --one",
        "1 2",
        "line 1, column 3: expected the end of the text",
    ),
    (
        "encode --one",
        "1, 2",
        "line 1, column 2: expected the end of the text",
    ),
    (
        "encode --depth 0",
        "1 [2]",
        "line 1, column 3: expected fewer levels",
    ),
    (
        "encode --one --depth 1",
        "[[1]]",
        "line 1, column 2: expected fewer levels",
    ),
];

// Returns whether an error has this text.
fn is_told(alloc: Global, error: NotationError, want: &str) -> bool {
    match format!(in alloc; "{error}") {
        Ok(text) => text.as_str() == want,
        Err(_) => false,
    }
}

// Returns whether the text has this fault, and nothing is written.
fn is_refused(alloc: Global, text: &str, options: Options, want: &str) -> bool {
    let mut writer = PartWriter::new(alloc, 1);
    match encode_input(alloc, text.as_bytes(), &mut writer, options) {
        Err(EncodeFault::Notation(error)) => {
            is_told(alloc, error, want) && writer.calls == 0 && writer.flushes == 0
        }
        _ => false,
    }
}

#[test]
fn faults_of_notation(rt: HostRuntime) {
    for &(words, text, want) in &FAULTS {
        let options = options_of(&rt, rt.alloc(), words);
        let is_right = is_refused(rt.alloc(), text, options, want);
        holds(&rt, is_right, words, text);
    }
}

// Returns whether a failed read is found, and nothing is written.
fn is_failed_read(alloc: Global, call: usize) -> bool {
    let reader = PartReader::new(NOTATION, 1).failing_at(call, io::ErrorKind::TimedOut);
    let mut writer = PartWriter::new(alloc, 1);
    let outcome = encode_input(alloc, reader, &mut writer, Options::new());
    matches!(outcome, Err(EncodeFault::Input(_))) && writer.calls == 0 && writer.flushes == 0
}

// Returns whether a writer that fails, or takes no byte, is found.
fn is_failed_write(alloc: Global, writer: &mut PartWriter) -> bool {
    matches!(
        encode_input(alloc, NOTATION, writer, Options::new()),
        Err(EncodeFault::Output(_))
    )
}

// Returns whether a writer is found whose call of this number fails, or takes no byte.
fn is_failed_call(alloc: Global, call: usize, kind: Option<io::ErrorKind>) -> bool {
    let mut writer = PartWriter::new(alloc, 1).failing_at(call, kind);
    let is_failed = is_failed_write(alloc, &mut writer);
    is_failed && PAIR.starts_with(writer.taken.as_slice())
}

#[test]
fn encodes_that_fail(rt: HostRuntime) {
    for call in 1..=12 {
        holds_at(&rt, is_failed_read(rt.alloc(), call), "read", call);
    }
    for call in 1..=6 {
        let is_failed = is_failed_call(rt.alloc(), call, None)
            && is_failed_call(rt.alloc(), call, Some(io::ErrorKind::TimedOut));
        holds_at(&rt, is_failed, "write", call);
    }
    let mut writer = PartWriter::new(rt.alloc(), 1).failing_to_flush();
    let is_failed = is_failed_write(rt.alloc(), &mut writer);
    holds_at(
        &rt,
        is_failed && writer.taken.as_slice() == PAIR,
        "flush",
        1,
    );
}
