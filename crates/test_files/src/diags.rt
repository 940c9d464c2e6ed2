use crate::checks::{PAIR, holds, holds_at, options_of};
use std::alloc::Global;
use std::io;
use test_support::streams::{PartReader, PartWriter};
use tool_files::arguments::Options;
use tool_files::digits::Digits;
use tool_files::items::diag_input;
use tool_verdicts::verdict::Verdict;

// Options, digits, and the text that is written. If there is a fault, the text before it ends its line. In the last row
// the 64th byte of the body begins a character that is escaped.
static TEXTS: [(&str, &str, &str); 31] = [
    ("diag", "", ""),
    ("diag", "82 1903e8 6161", "[1000, \"a\"]\n"),
    ("diag", "01 f6 8102", "1\nnull\n[2]\n"),
    (
        "diag",
        "bf 6161 c1fa4f000000 5f4101ff f0ff",
        "{_ \"a\": 1(2147483648.0), (_ h'01'): simple(16)}\n",
    ),
    (
        "diag --pretty",
        "820102 80 a10203",
        "[\n  1,\n  2\n]\n[]\n{\n  2: 3\n}\n",
    ),
    ("diag --skip 1", "820102 01 f6", "1\nnull\n"),
    ("diag --items 1", "820102 1c", "[1, 2]\n"),
    ("diag --skip 1 --items 1", "00 01 1c", "1\n"),
    ("diag --skip 2", "00 1c", ""),
    ("diag --items 0", "1c", ""),
    ("diag --exact", "9802 1801 5800", "[_0 1_0, h''_0]\n"),
    ("diag", "d81843820102", "24(h'820102')\n"),
    ("diag --embedded", "d81843820102", "24(<<[1, 2]>>)\n"),
    ("diag --embedded=tagged", "d81843820102", "24(<<[1, 2]>>)\n"),
    (
        "diag --embedded",
        "43820102 420102",
        "<<[1, 2]>>\nh'0102'\n",
    ),
    ("diag --embedded=tagged", "43820102", "h'820102'\n"),
    ("diag --embedded=tagged --embedded", "4100", "<<0>>\n"),
    (
        "diag --exact --embedded",
        "5801 00 41ff",
        "<<0>>_0\nh'ff'\n",
    ),
    ("diag --embedded", "8142 8201", "[h'8201']\n"),
    ("diag", "8201", "[1\n"),
    ("diag", "00 1c", "0\n"),
    ("diag", "00 19", "0\n"),
    ("diag", "ff", ""),
    ("diag", "8243010203ff", "[h'010203'\n"),
    ("diag", "6261", "\"\n"),
    ("diag", "81656162ff6364", "[\"ab\n"),
    ("diag", "81666162ff636465", "[\"\n"),
    ("diag --depth 0", "0080", "0\n"),
    ("diag --depth 1", "8180", "[\n"),
    ("diag --strict", "820a180a", "[10\n"),
    (
        "diag",
        "7843 616161616161616161616161616161616161616161616161616161616161616161616161616161616161616161616161616161616161616161616161616161e280ae61",
        "\"aaaaaaaaaaaaaaaaaaaaaaaaaaaaaaaaaaaaaaaaaaaaaaaaaaaaaaaaaaaaaaa\\u202ea\"\n",
    ),
];

// Returns whether the text is this.
fn is_shown(alloc: Global, digits: &str, options: Options, want: &str) -> bool {
    let mut text = Vec::new(alloc);
    let _ = diag_input(Digits::new(digits.as_bytes()), &mut text, options);
    text.as_slice() == want.as_bytes()
}

#[test]
fn texts(rt: HostRuntime) {
    for &(words, digits, want) in &TEXTS {
        let options = options_of(&rt, rt.alloc(), words);
        let is_right = is_shown(rt.alloc(), digits, options, want);
        holds(&rt, is_right, words, digits);
    }
}

// Returns whether a failed read is found.
fn is_failed_read(alloc: Global, call: usize) -> bool {
    let reader = PartReader::new(PAIR, 1).failing_at(call, io::ErrorKind::TimedOut);
    let mut text = Vec::new(alloc);
    matches!(
        diag_input(reader, &mut text, Options::new()),
        Err(Verdict::Failed(_))
    )
}

// Returns whether a writer that fails, or takes no byte, is found.
fn is_failed_write(writer: &mut PartWriter) -> bool {
    matches!(
        diag_input(PAIR, writer, Options::new()),
        Err(Verdict::Output(_))
    )
}

// Returns whether a writer is found whose call of this number fails, or takes no byte.
fn is_failed_call(alloc: Global, call: usize, kind: Option<io::ErrorKind>) -> bool {
    let mut writer = PartWriter::new(alloc, 1).failing_at(call, kind);
    is_failed_write(&mut writer)
}

#[test]
fn calls_that_fail(rt: HostRuntime) {
    for call in 1..=7 {
        holds_at(&rt, is_failed_read(rt.alloc(), call), "read", call);
    }
    for call in 1..=12 {
        let is_failed = is_failed_call(rt.alloc(), call, None)
            && is_failed_call(rt.alloc(), call, Some(io::ErrorKind::TimedOut));
        holds_at(&rt, is_failed, "write", call);
    }
}

#[test]
fn a_flush_that_fails(rt: HostRuntime) {
    let mut writer = PartWriter::new(rt.alloc(), 1).failing_to_flush();
    let is_failed = is_failed_write(&mut writer);
    let is_written = writer.taken.as_slice() == b"[1000, \"a\"]\n".as_slice();
    holds_at(&rt, is_failed && is_written, "flush", 1);
}

// The reader gives an item a call. The first write fails before the second read, so the line of the second item tells
// the fault.
#[test]
fn a_failed_write_ends_the_reads(rt: HostRuntime) {
    let mut reader = PartReader::new(&[0; 100], 1);
    let writer = PartWriter::new(rt.alloc(), 1).failing_at(1, Some(io::ErrorKind::BrokenPipe));
    let outcome = diag_input(&mut reader, writer, Options::new());
    let is_failed = matches!(outcome, Err(Verdict::Output(_)));
    holds_at(&rt, is_failed && reader.calls == 2, "reads", reader.calls);
}
