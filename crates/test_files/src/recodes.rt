// The copies in the shortest spelling that the word `recode` writes.

use crate::canons::spelled;
use crate::checks::{holds, holds_at, options_of, written};
use std::alloc::Global;
use std::io;
use std::process::Abort;
use test_support::streams::{PartReader, PartWriter};
use tool_files::arguments::Options;
use tool_files::recode::{copy_items, copy_part};
use tool_verdicts::verdict::Verdict;

// Words, digits of any spelling, those that are written, and the text of the verdict, if the copy is not whole. All are
// worked by hand.
static ROWS: [(&str, &str, &str, &str); 40] = [
    ("recode", "", "", ""),
    ("recode", "00", "00", ""),
    // Titles.
    ("recode", "18 01 58 01 ff", "01 41 ff", ""),
    ("recode", "1b 0000000000000100", "19 0100", ""),
    ("recode", "d8 01 1a 514b67b0", "c1 1a 514b67b0", ""),
    ("recode", "f8 05", "e5", ""),
    ("recode", "fb 3ff8000000000000", "fb 3ff8000000000000", ""),
    // Nests, and strings of indefinite length.
    ("recode", "98 02 01 18 02 80", "82 01 02 80", ""),
    ("recode", "9f 18 01 9f ff ff", "9f 01 9f ff ff", ""),
    ("recode", "bf 1800 1801 ff", "bf 00 01 ff", ""),
    ("recode", "5f 5f 58 01 01 ff ff", "5f 41 01 ff", ""),
    (
        "recode",
        "7f 61 61 78 02 c3bc ff",
        "7f 61 61 62 c3bc ff",
        "",
    ),
    // Levels.
    ("recode --depth 0", "01 78 01 61", "01 61 61", ""),
    ("recode --depth=2", "9f 9f ff ff 80", "9f 9f ff ff 80", ""),
    ("recode --depth 0", "01 80", "01", "deep 1"),
    ("recode --depth 1", "80 81 80", "80 81", "deep 2"),
    ("recode --depth 0", "18 01 d8 01 00", "01", "deep 2"),
    // Faults, and what is written of the bytes before the byte at fault.
    ("recode", "ff 01", "", "break 0"),
    ("recode", "18 01 98 02 18 01 ff 01", "01 82 01", "break 6"),
    ("recode", "01 1c 01", "01", "syntax 1"),
    ("recode", "01 02 61 ff", "01 02 61", "syntax 2"),
    ("recode", "01 78 02 61 ff", "01 62 61", "syntax 2"),
    ("recode", "01 5f 01 ff", "01 5f", "syntax 2"),
    ("recode", "7f 61 61 5f ff", "7f 61 61", "syntax 3"),
    // A part of the items.
    ("recode --skip 1", "18 01 18 02 18 03", "02 03", ""),
    ("recode --skip 2", "81 18 01 5f ff 18 03", "03", ""),
    ("recode --skip 1", "18 01", "", ""),
    ("recode --skip 2", "18 01", "", "short 2"),
    ("recode --skip 2", "01 ff 01", "", "break 1"),
    ("recode --items 1", "18 01 ff", "01", ""),
    ("recode --items 2", "98 01 01 18 02 18 03", "81 01 02", ""),
    ("recode --skip 1 --items 1", "01 18 02 ff", "02", ""),
    ("recode --skip 1 --items 2", "01 18 02 ff", "02", "break 3"),
    ("recode --skip 1", "01 98 02 18 01", "82 01", "short 5"),
    // Cut items.
    ("recode", "01 98 02 18 01", "01 82 01", "short 5"),
    ("recode", "18 01 19", "01", "short 3"),
    ("recode", "01 58 02 01", "01 42 01", "short 4"),
    ("recode", "01 62 c3", "01 62", "short 3"),
    ("recode", "01 9f 01", "01 9f 01", "short 3"),
    ("recode", "01 c1", "01 c1", "short 2"),
];

// Returns whether bytes are copied to these, with this verdict, if they are read and written few bytes a call.
fn is_copied(
    rt: &impl Abort,
    alloc: Global,
    reader: PartReader<'_>,
    options: Options,
    want: (&[u8], &str),
) -> bool {
    let (writer, copied) = copy_part(reader, PartWriter::new(alloc, 2), options);
    let is_found = match copied {
        Ok(()) => want.1.is_empty(),
        Err(verdict) => written(rt, alloc, verdict).as_str() == want.1,
    };
    is_found && writer.taken.as_slice() == want.0 && (writer.flushes > 0) != want.0.is_empty()
}

#[test]
fn copies_of_items(rt: HostRuntime) {
    for &(words, digits, want, verdict) in &ROWS {
        let options = options_of(&rt, rt.alloc(), words);
        let bytes = spelled(&rt, rt.alloc(), digits);
        let want = spelled(&rt, rt.alloc(), want);
        for most in [1, 2, 3, 64] {
            let reader = PartReader::new(bytes.as_slice(), most);
            let want = (want.as_slice(), verdict);
            let is_right = is_copied(&rt, rt.alloc(), reader, options, want);
            holds(&rt, is_right, verdict, digits);
        }
    }
}

// An array of two numbers in a longer spelling, and its shortest spelling.
const LONG: &[u8] = b"\x98\x02\x01\x18\x02";

const SHORT: &[u8] = b"\x82\x01\x02";

// For each read of one byte, the output of the bytes before it.
static PUT_OUT: [(usize, &[u8]); 6] = [
    (1, b""),
    (2, b""),
    (3, b"\x82"),
    (4, b"\x82\x01"),
    (5, b"\x82\x01"),
    (6, b"\x82\x01\x02"),
];

// Returns whether a read of this number that fails is found, and exactly these bytes are written.
fn is_failed_read(alloc: Global, call: usize, output: &[u8]) -> bool {
    let reader = PartReader::new(LONG, 1).failing_at(call, io::ErrorKind::TimedOut);
    let (_, writer, copied) = copy_items(reader, PartWriter::new(alloc, 1), Options::new());
    matches!(copied, Err(Verdict::Failed(_))) && writer.taken.as_slice() == output
}

// Returns whether a writer is found whose call of this number fails, or takes no byte.
fn is_failed_call(alloc: Global, call: usize, kind: Option<io::ErrorKind>) -> bool {
    let writer = PartWriter::new(alloc, 1).failing_at(call, kind);
    let (_, writer, copied) = copy_items(LONG, writer, Options::new());
    matches!(copied, Err(Verdict::Output(_))) && SHORT.starts_with(writer.taken.as_slice())
}

#[test]
fn copies_that_fail(rt: HostRuntime) {
    for &(call, output) in &PUT_OUT {
        holds_at(&rt, is_failed_read(rt.alloc(), call, output), "read", call);
    }
    for call in 1..=3 {
        let is_failed = is_failed_call(rt.alloc(), call, None)
            && is_failed_call(rt.alloc(), call, Some(io::ErrorKind::TimedOut));
        holds_at(&rt, is_failed, "write", call);
    }
    let writer = PartWriter::new(rt.alloc(), 1).failing_to_flush();
    let (_, writer, copied) = copy_items(LONG, writer, Options::new());
    let is_failed = matches!(copied, Err(Verdict::Output(_))) && writer.taken.as_slice() == SHORT;
    holds_at(&rt, is_failed, "flush", 1);
}
