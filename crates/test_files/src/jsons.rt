// The JSON that the word `json` writes.

use crate::canons::spelled;
use crate::checks::{PAIR, found, holds, holds_at, options_of, written};
use crate::rows::{EXAMPLES, MALFORMED};
use std::alloc::Global;
use std::io;
use std::process::Abort;
use test_support::json::{EXACT, REPLACED};
use test_support::streams::{PartReader, PartWriter};
use tool_files::arguments::Options;
use tool_files::items::json_input;
use tool_verdicts::verdict::Verdict;

// Words, digits, the text that is written, and that of the fault, if there is one. The text before a fault ends its
// line. All are worked by hand.
static TEXTS: [(&str, &str, &str, &str); 49] = [
    ("json", "", "", ""),
    ("json", "82 1903e8 6161", "[1000,\"a\"]\n", ""),
    ("json", "01 f6 8102", "1\nnull\n[2]\n", ""),
    (
        "json",
        "bf 6161 9f 01 20 ff ff 7f 6162 6163 ff",
        "{\"a\":[1,-1]}\n\"bc\"\n",
        "",
    ),
    ("json", "63 c29b 0a", "\"\\u009b\\n\"\n", ""),
    // Items that have no JSON.
    ("json", "01 42 0102 02", "1\n", "no-json 1"),
    ("json", "82 01 c1 00", "[1,\n", "no-json 2"),
    ("json", "a1 01 02", "{\n", "no-json 1"),
    ("json", "a1 6161 f97e00", "{\"a\":\n", "no-json 3"),
    ("json", "80 f7", "[]\n", "no-json 1"),
    ("json", "f97c00", "", "no-json 0"),
    ("json", "5f ff", "", "no-json 0"),
    // The first fault is named.
    ("json", "82 40 1c", "[\n", "no-json 1"),
    ("json", "82 1c 40", "[\n", "syntax 1"),
    // They are replaced.
    ("json --lossy", "01 42 0102 02", "1\n\"AQI\"\n2\n", ""),
    ("json --lossy", "a1 01 f97e00", "{\"1\":null}\n", ""),
    (
        "json --lossy",
        "c3 41 01 d6 41 66 d7 41 ab",
        "\"~AQ\"\n\"Zg==\"\n\"AB\"\n",
        "",
    ),
    ("json --lossy --lossy", "f7", "null\n", ""),
    ("json --lossy", "82 f7 42 01", "[null,\"\n", "short 3"),
    ("json --lossy", "a1 f5 00", "{\n", "no-json 1"),
    ("json --lossy", "a1 80 00", "{\n", "no-json 1"),
    // One item alone. What follows it is named by its place, whatever it is.
    ("json --one", "01", "1\n", ""),
    ("json --one", "82 01 02", "[1,2]\n", ""),
    ("json --one", "01 02", "1\n", "more 1"),
    ("json --one", "82 01 02 ff", "[1,2]\n", "more 3"),
    ("json --one", "01 1c", "1\n", "more 1"),
    ("json --one", "01 19 00", "1\n", "more 1"),
    ("json --one", "", "", "short 0"),
    ("json --one", "82 01", "[1\n", "short 2"),
    ("json --one", "40 40", "", "no-json 0"),
    ("json --one --lossy", "40 40", "\"\"\n", "more 1"),
    ("json --one --skip 1", "40 02", "2\n", ""),
    ("json --one --skip 1", "01 02 03", "2\n", "more 2"),
    ("json --one --skip 1", "01", "", "short 1"),
    // A part of the items. Those that are passed over need no JSON.
    ("json --skip 1", "40 01 02", "1\n2\n", ""),
    ("json --skip 2", "01", "", "short 1"),
    ("json --skip 2", "01 ff", "", "break 1"),
    ("json --items 1", "01 40", "1\n", ""),
    ("json --items 0", "40", "", ""),
    ("json --skip 1 --items 1", "40 01 ff", "1\n", ""),
    // Faults that `check` names too.
    ("json", "8201", "[1\n", "short 2"),
    ("json", "00 19", "0\n", "short 2"),
    ("json", "62 61", "\"\n", "short 1"),
    ("json", "00 1c", "0\n", "syntax 1"),
    ("json", "01 62 c328", "1\n\"\n", "syntax 1"),
    ("json", "81 ff", "[\n", "break 1"),
    ("json --depth 0", "00 80", "0\n", "deep 1"),
    ("json --depth 1", "81 80", "[\n", "deep 1"),
    ("json --strict", "82 0a 180a", "[10\n", "syntax 2"),
];

// Returns the text of the fault, or an empty one.
fn fault_text(rt: &impl Abort, alloc: Global, outcome: Result<(), Verdict>) -> String {
    match outcome {
        Ok(()) => String::new(alloc),
        Err(verdict) => written(rt, alloc, verdict),
    }
}

// Requires that bytes give this text, and then this fault, if they come one by one and two bytes a call are written.
fn gives(rt: &impl Abort, alloc: Global, bytes: &[u8], options: Options, want: (&[u8], &str)) {
    let reader = PartReader::new(bytes, 1);
    let mut writer = PartWriter::new(alloc, 2);
    let outcome = json_input(reader, &mut writer, options);
    let fault = fault_text(rt, alloc, outcome);
    let is_right = writer.taken.as_slice() == want.0 && fault.as_str() == want.1;
    holds(rt, is_right, want.1, fault.as_str());
}

#[test]
fn texts(rt: HostRuntime) {
    for &(words, digits, text, fault) in &TEXTS {
        let options = options_of(&rt, rt.alloc(), words);
        let bytes = spelled(&rt, rt.alloc(), digits);
        gives(
            &rt,
            rt.alloc(),
            bytes.as_slice(),
            options,
            (text.as_bytes(), fault),
        );
    }
}

// Puts the bytes of the items of these rows together, and their lines.
fn joined(rt: &impl Abort, alloc: Global, rows: &str) -> (Vec<u8>, Vec<u8>) {
    let mut bytes = Vec::new(alloc);
    let mut lines = Vec::new(alloc);
    for row in rows.lines() {
        let (digits, text) = row.split_once(' ').unwrap_or((row, ""));
        let item = spelled(rt, alloc, digits);
        let is_added = bytes.extend_from_slice(item.as_slice()).is_ok()
            && lines.extend_from_slice(text.as_bytes()).is_ok()
            && lines.push(b'\n').is_ok();
        holds(rt, is_added, "memory", row);
    }
    (bytes, lines)
}

#[test]
fn examples_with_json(rt: HostRuntime) {
    let (bytes, lines) = joined(&rt, rt.alloc(), EXACT);
    for words in ["json", "json --lossy"] {
        let options = options_of(&rt, rt.alloc(), words);
        gives(
            &rt,
            rt.alloc(),
            bytes.as_slice(),
            options,
            (lines.as_slice(), ""),
        );
    }
}

#[test]
fn examples_without_json(rt: HostRuntime) {
    let (bytes, lines) = joined(&rt, rt.alloc(), REPLACED);
    let lossy = options_of(&rt, rt.alloc(), "json --lossy");
    gives(
        &rt,
        rt.alloc(),
        bytes.as_slice(),
        lossy,
        (lines.as_slice(), ""),
    );
}

// Requires that the item of a row is at fault, since it has no JSON. Of the one map among the examples it is the key.
fn has_no_json(rt: &impl Abort, alloc: Global, row: &str) {
    let (digits, _) = row.split_once(' ').unwrap_or((row, ""));
    let bytes = spelled(rt, alloc, digits);
    let want: (&[u8], &str) = if digits == "a201020304" {
        (b"{\n", "no-json 1")
    } else {
        (b"", "no-json 0")
    };
    gives(rt, alloc, bytes.as_slice(), Options::new(), want);
}

#[test]
fn each_example_without_json_is_named(rt: HostRuntime) {
    for row in REPLACED.lines() {
        has_no_json(&rt, rt.alloc(), row);
    }
}

// Returns whether the items end as a check of these digits does, and, except for the end of the bytes, at the same
// place.
fn ends_as_checked(rt: &impl Abort, alloc: Global, digits: &str, options: Options) -> bool {
    let want = found(rt, alloc, digits, options);
    let bytes = spelled(rt, alloc, digits);
    let outcome = json_input(bytes.as_slice(), PartWriter::new(alloc, 64), options);
    match outcome {
        Ok(()) => want.as_bytes().starts_with(b"ok "),
        Err(Verdict::Short(_)) => want.as_bytes().starts_with(b"short "),
        Err(verdict) => written(rt, alloc, verdict).as_str() == want.as_str(),
    }
}

// Requires that each beginning of these digits ends as a check of it does.
fn cuts_end_as_checked(rt: &impl Abort, alloc: Global, digits: &str, options: Options) {
    for end in 0..=digits.len() / 2 {
        let cut = digits.get(..2 * end).unwrap_or("");
        holds(rt, ends_as_checked(rt, alloc, cut, options), "a cut", cut);
    }
}

#[test]
fn cut_examples(rt: HostRuntime) {
    for words in ["json --lossy", "json --lossy --one"] {
        let options = options_of(&rt, rt.alloc(), words);
        for digits in EXAMPLES.lines() {
            cuts_end_as_checked(&rt, rt.alloc(), digits, options);
        }
    }
}

#[test]
fn malformed_items(rt: HostRuntime) {
    let lossy = options_of(&rt, rt.alloc(), "json --lossy");
    for line in MALFORMED.lines() {
        if let Some((digits, _)) = line.split_once(" = ") {
            cuts_end_as_checked(&rt, rt.alloc(), digits, lossy);
        }
    }
}

// Returns whether a failed read is found.
fn is_failed_read(alloc: Global, call: usize, options: Options) -> bool {
    let reader = PartReader::new(PAIR, 1).failing_at(call, io::ErrorKind::TimedOut);
    matches!(
        json_input(reader, PartWriter::new(alloc, 1), options),
        Err(Verdict::Failed(_))
    )
}

// Returns whether a writer is found whose call of this number fails, or takes no byte.
fn is_failed_write(alloc: Global, call: usize, kind: Option<io::ErrorKind>) -> bool {
    let writer = PartWriter::new(alloc, 1).failing_at(call, kind);
    matches!(
        json_input(PAIR, writer, Options::new()),
        Err(Verdict::Output(_))
    )
}

#[test]
fn calls_that_fail(rt: HostRuntime) {
    let one = options_of(&rt, rt.alloc(), "json --one");
    for call in 1..=7 {
        let is_failed = is_failed_read(rt.alloc(), call, Options::new())
            && is_failed_read(rt.alloc(), call, one);
        holds_at(&rt, is_failed, "read", call);
    }
    for call in 1..=11 {
        let is_failed = is_failed_write(rt.alloc(), call, None)
            && is_failed_write(rt.alloc(), call, Some(io::ErrorKind::TimedOut));
        holds_at(&rt, is_failed, "write", call);
    }
}

#[test]
fn a_flush_that_fails(rt: HostRuntime) {
    let mut writer = PartWriter::new(rt.alloc(), 1).failing_to_flush();
    let is_failed = matches!(
        json_input(PAIR, &mut writer, Options::new()),
        Err(Verdict::Output(_))
    );
    let is_written = writer.taken.as_slice() == b"[1000,\"a\"]\n".as_slice();
    holds_at(&rt, is_failed && is_written, "flush", 1);
}
