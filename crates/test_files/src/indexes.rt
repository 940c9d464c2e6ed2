// The places of items that `check --index` writes.

use crate::checks::{holds, holds_at, judged, options_of, written};
use std::alloc::Global;
use std::io;
use std::process::Abort;
use test_support::streams::{PartReader, PartWriter};
use tool_files::arguments::Options;
use tool_files::digits::Digits;
use tool_files::index::index_input;

// Words, digits, the lines, and the verdict. All are worked by hand.
static ROWS: [(&str, &str, &str, &str); 10] = [
    ("check --index", "", "", "ok 0 0"),
    ("check --index", "00", "0 1\n", "ok 1 1"),
    (
        "check --index",
        "01 820102 6161",
        "0 1\n1 3\n4 2\n",
        "ok 3 6",
    ),
    ("check --index", "00 1c", "0 1\n", "syntax 1"),
    ("check --index", "00 82 01", "0 1\n", "short 3"),
    (
        "check --index --skip 1",
        "820102 00 5f4101ff",
        "3 1\n4 4\n",
        "ok 2 5",
    ),
    ("check --index --items 1", "820102 1c", "0 3\n", "ok 1 3"),
    (
        "check --index --skip 1 --items 1",
        "00 01 02",
        "1 1\n",
        "ok 1 1",
    ),
    ("check --index --skip 2", "00", "", "short 1"),
    ("check --index --strict", "00 1800", "0 1\n", "syntax 1"),
];

// Returns whether these lines are written, and the verdict is this.
fn is_indexed(
    rt: &impl Abort,
    alloc: Global,
    options: Options,
    row: (&str, &str, &str, &str),
) -> bool {
    let mut lines = Vec::new(alloc);
    let mut reader = Digits::new(row.1.as_bytes());
    match index_input(alloc, &mut reader, &mut lines, options) {
        Ok(verdict) => {
            let verdict = judged(&reader, verdict);
            lines.as_slice() == row.2.as_bytes() && written(rt, alloc, verdict).as_str() == row.3
        }
        Err(_) => false,
    }
}

#[test]
fn places_of_items(rt: HostRuntime) {
    for &row in &ROWS {
        let options = options_of(&rt, rt.alloc(), row.0);
        let is_right = is_indexed(&rt, rt.alloc(), options, row);
        holds(&rt, is_right, row.0, row.1);
    }
}

// A number, and an array of two numbers.
const TWO: &[u8] = b"\x01\x82\x01\x02";

// Returns whether a failed read is found.
fn is_failed_read(rt: &impl Abort, alloc: Global, options: Options, call: usize) -> bool {
    let reader = PartReader::new(TWO, 1).failing_at(call, io::ErrorKind::TimedOut);
    match index_input(alloc, reader, Vec::new(alloc), options) {
        Ok(verdict) => written(rt, alloc, verdict).as_str() == "timed out",
        Err(_) => false,
    }
}

// Returns whether a writer that takes no byte is found.
fn is_failed_write(alloc: Global, options: Options, call: usize) -> bool {
    let writer = PartWriter::new(alloc, 1).failing_at(call, None);
    index_input(alloc, TWO, writer, options).is_err()
}

#[test]
fn calls_that_fail(rt: HostRuntime) {
    let options = options_of(&rt, rt.alloc(), "check --index");
    for call in 1..=5 {
        let is_failed = is_failed_read(&rt, rt.alloc(), options, call);
        holds_at(&rt, is_failed, "read", call);
    }
    for call in 1..=8 {
        holds_at(
            &rt,
            is_failed_write(rt.alloc(), options, call),
            "write",
            call,
        );
    }
}
