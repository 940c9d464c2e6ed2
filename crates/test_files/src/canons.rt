// The deterministic encodings that the word `canon` writes.

use crate::checks::{holds, holds_at, options_of, written};
use crate::deterministic::{BYTEWISE, LENGTH_FIRST};
use std::alloc::Global;
use std::io::{self, Read};
use std::process::Abort;
use test_support::streams::{PartReader, PartWriter};
use tool_files::arguments::Options;
use tool_files::canon::{CanonFault, canon_input};
use tool_files::digits::Digits;

// The keys of the maps of RFC 8949, in neither order.
const SHUFFLED: &str = "bf f400 812000 81186400 1a0000006400 62616100 617a00 2000 180a00 ff";

// Words, digits of any spelling, and those of the encodings, worked by hand.
static ROWS: [(&str, &str, &str); 24] = [
    ("canon", "", ""),
    ("canon", "18 01 9f ff f6", "01 80 f6"),
    ("canon", SHUFFLED, BYTEWISE),
    ("canon --order bytewise", LENGTH_FIRST, BYTEWISE),
    ("canon --order length-first", SHUFFLED, LENGTH_FIRST),
    ("canon --order=length-first", BYTEWISE, LENGTH_FIRST),
    ("canon", BYTEWISE, BYTEWISE),
    // Titles.
    ("canon", "18 17 38 17", "17 37"),
    ("canon", "1b 0000000000000100", "19 0100"),
    ("canon", "d8 01 1a 514b67b0", "c1 1a 514b67b0"),
    ("canon", "58 02 0102", "42 0102"),
    // Indefinite lengths.
    ("canon", "9f 18 01 82 02 03 9f ff ff", "83 01 82 02 03 80"),
    ("canon", "5f 42 0102 5f 41 03 ff ff", "43 010203"),
    ("canon", "7f 61 61 60 62 c3bc ff", "63 61c3bc"),
    ("canon", "bf 61 61 01 ff", "a1 61 61 01"),
    // Floats: 1.5, 100000.0, 1.1, -0.0 and a NaN.
    ("canon", "fb 3ff8000000000000", "f9 3e00"),
    ("canon", "fb 40f86a0000000000", "fa 47c35000"),
    ("canon", "fb 3ff199999999999a", "fb 3ff199999999999a"),
    ("canon", "fa 80000000", "f9 8000"),
    ("canon", "fb 7ff8000000000000", "f9 7e00"),
    // Keys are in order by their encodings.
    ("canon", "a2 1a 00000002 00 18 01 00", "a2 01 00 02 00"),
    (
        "canon",
        "a1 bf 02 00 01 00 ff 9f ff",
        "a1 a2 01 00 02 00 80",
    ),
    // Levels.
    ("canon --depth 0", "01 78 01 61", "01 61 61"),
    ("canon --depth=2", "9f 9f ff ff 80", "81 80 80"),
];

// Returns the bytes that some digits spell.
pub fn spelled(rt: &impl Abort, alloc: Global, digits: &str) -> Vec<u8> {
    let mut bytes = Vec::new(alloc);
    let mut reader = Digits::new(digits.as_bytes());
    holds(rt, reader.read_to_end(&mut bytes).is_ok(), "digits", digits);
    bytes
}

// Returns whether bytes give these, read three bytes a call, and written two bytes a call.
fn is_written(alloc: Global, bytes: &[u8], options: Options, want: &[u8]) -> bool {
    let reader = PartReader::new(bytes, 3);
    let mut writer = PartWriter::new(alloc, 2);
    let is_well = canon_input(alloc, reader, &mut writer, options).is_ok();
    is_well && writer.taken.as_slice() == want && writer.flushes == 1
}

#[test]
fn encodings(rt: HostRuntime) {
    for &(words, digits, want) in &ROWS {
        let options = options_of(&rt, rt.alloc(), words);
        let bytes = spelled(&rt, rt.alloc(), digits);
        let want = spelled(&rt, rt.alloc(), want);
        let is_right = is_written(rt.alloc(), bytes.as_slice(), options, want.as_slice())
            && is_written(rt.alloc(), want.as_slice(), options, want.as_slice());
        holds(&rt, is_right, words, digits);
    }
}

// Words, digits with a fault, and the text of its verdict.
static FAULTS: [(&str, &str, &str); 14] = [
    ("canon", "01 ff", "break 1"),
    ("canon", "82 01 ff", "break 2"),
    ("canon", "01 1c", "syntax 1"),
    ("canon", "01 02 61 ff", "syntax 2"),
    ("canon", "01 5f 01 ff", "syntax 2"),
    ("canon", "01 82 01", "short 3"),
    ("canon", "01 19", "short 2"),
    ("canon", "01 42 01", "short 3"),
    (
        "canon",
        "01 81 f8 18",
        "refused 2: a simple value from 24 to 31",
    ),
    (
        "canon",
        "01 a2 01 02 01 03",
        "refused 4: the same key twice",
    ),
    (
        "canon --order length-first",
        "a2 01 02 18 01 03",
        "refused 3: the same key twice",
    ),
    ("canon --depth 0", "01 80", "deep 1"),
    ("canon --depth 1", "80 81 80", "deep 2"),
    ("canon --depth 0", "c1 00", "deep 0"),
];

// Requires that bytes have the fault of this text, and that nothing is written.
fn refused(rt: &impl Abort, alloc: Global, digits: &str, options: Options, want: &str) {
    let bytes = spelled(rt, alloc, digits);
    let mut writer = PartWriter::new(alloc, 1);
    match canon_input(alloc, bytes.as_slice(), &mut writer, options) {
        Ok(()) => holds(rt, false, "refused", digits),
        Err(fault) => {
            let text = written(rt, alloc, fault.verdict());
            let is_none = writer.calls == 0 && writer.flushes == 0;
            holds(rt, is_none && text.as_str() == want, want, digits);
        }
    }
}

#[test]
fn faults_of_items(rt: HostRuntime) {
    for &(words, digits, want) in &FAULTS {
        let options = options_of(&rt, rt.alloc(), words);
        refused(&rt, rt.alloc(), digits, options, want);
    }
}

// An array of two numbers in a longer spelling, and its encoding.
const LONG: &[u8] = b"\x98\x02\x01\x18\x02";

const SHORT: &[u8] = b"\x82\x01\x02";

// Returns whether a failed read is found, and nothing is written.
fn is_failed_read(alloc: Global, call: usize) -> bool {
    let reader = PartReader::new(LONG, 1).failing_at(call, io::ErrorKind::TimedOut);
    let mut writer = PartWriter::new(alloc, 1);
    let outcome = canon_input(alloc, reader, &mut writer, Options::new());
    matches!(outcome, Err(CanonFault::Input(_))) && writer.calls == 0 && writer.flushes == 0
}

// Returns whether a writer is found whose call of this number fails, or takes no byte.
fn is_failed_call(alloc: Global, call: usize, kind: Option<io::ErrorKind>) -> bool {
    let mut writer = PartWriter::new(alloc, 1).failing_at(call, kind);
    let outcome = canon_input(alloc, LONG, &mut writer, Options::new());
    matches!(outcome, Err(CanonFault::Output(_))) && SHORT.starts_with(writer.taken.as_slice())
}

#[test]
fn canons_that_fail(rt: HostRuntime) {
    for call in 1..=6 {
        holds_at(&rt, is_failed_read(rt.alloc(), call), "read", call);
    }
    for call in 1..=3 {
        let is_failed = is_failed_call(rt.alloc(), call, None)
            && is_failed_call(rt.alloc(), call, Some(io::ErrorKind::TimedOut));
        holds_at(&rt, is_failed, "write", call);
    }
    let mut writer = PartWriter::new(rt.alloc(), 1).failing_to_flush();
    let outcome = canon_input(rt.alloc(), LONG, &mut writer, Options::new());
    let is_failed = matches!(outcome, Err(CanonFault::Output(_)));
    holds_at(
        &rt,
        is_failed && writer.taken.as_slice() == SHORT,
        "flush",
        1,
    );
}
