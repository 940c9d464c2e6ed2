// Copies of raw bytes.

use crate::answers::{holds, is_printed_as};
use ciborium_ll::io::{ReadFault, WriteFault};
use ciborium_ll::{Error, RecodeError};
use std::alloc::{AllocError, Global};
use std::cell::Cell;
use std::io;
use std::process::Abort;
use test_support::streams::{PartReader, PartWriter};
use tool_lines::fault::{Fault, fault_of_raw};
use tool_lines::prompt::raw_prompt;
use tool_lines::raw::{BufferedCopy, raw, raw_buffered};

// How a copy or a flush ended.
#[derive(Clone, Copy, PartialEq, Eq)]
pub enum End {
    Done,
    Syntax(usize),
    // The bytes ended too early.
    Short,
    // A read failed.
    Read(io::ErrorKind),
    // The writer took no byte.
    Zero,
    // A write or a flush failed.
    Write(io::ErrorKind),
    // The fault is one that no test expects.
    Other,
}

// A copy that ended, with its fault as the program has it.
#[derive(Drop)]
pub struct Copied<R, W> {
    pub copied: End,
    pub fault: Option<Fault>,
    pub flushed: End,
    pub source: R,
    pub sink: W,
}

fn end_of_write(fault: &WriteFault) -> End {
    match fault {
        WriteFault::Zero => End::Zero,
        WriteFault::Failed(error) => End::Write(error.kind()),
    }
}

fn end_of_copy(error: &RecodeError<ReadFault, WriteFault>) -> End {
    match error {
        RecodeError::Read(Error::Syntax(place)) => End::Syntax(*place),
        RecodeError::Read(Error::Io(ReadFault::End)) => End::Short,
        RecodeError::Read(Error::Io(ReadFault::Failed(error))) => End::Read(error.kind()),
        RecodeError::Read(_) => End::Other,
        RecodeError::Write(fault) => end_of_write(fault),
    }
}

// How a copy ended, and its fault as the program has it.
fn end_of(outcome: Result<(), RecodeError<ReadFault, WriteFault>>) -> (End, Option<Fault>) {
    match outcome {
        Ok(()) => (End::Done, None),
        Err(error) => (end_of_copy(&error), Some(fault_of_raw(&error))),
    }
}

fn end_of_flush(outcome: Result<(), WriteFault>) -> End {
    match outcome {
        Ok(()) => End::Done,
        Err(fault) => end_of_write(&fault),
    }
}

// How elements are copied.
#[derive(Clone, Copy, PartialEq, Eq)]
pub enum Way {
    // By single calls of the reader and the writer.
    Single,
    // Through buffers.
    Buffered,
    // As the program does: in pieces, each written and flushed before the next read.
    Prompt,
}

// All of them.
pub const WAYS: [Way; 3] = [Way::Single, Way::Buffered, Way::Prompt];

fn copied_of<R, W>(copy: BufferedCopy<R, W>) -> Copied<R, W> {
    let (copied, fault) = end_of(copy.copied);
    Copied {
        copied,
        fault,
        flushed: end_of_flush(copy.flushed),
        source: copy.reader,
        sink: copy.writer,
    }
}

// A copy that reports a failure of the flush as its own fault.
fn flushed_of<R, W>(
    (source, sink, outcome): (R, W, Result<(), RecodeError<ReadFault, WriteFault>>),
) -> Copied<R, W> {
    let (copied, fault) = end_of(outcome);
    Copied {
        copied,
        fault,
        flushed: End::Done,
        source,
        sink,
    }
}

// Copies elements in this way.
pub fn copies<R: io::Read, W: io::Write>(
    way: Way,
    source: R,
    sink: W,
    count: usize,
) -> Copied<R, W> {
    match way {
        Way::Single => flushed_of(raw(source, sink, count)),
        Way::Buffered => copied_of(raw_buffered(source, sink, count)),
        Way::Prompt => flushed_of(raw_prompt(source, sink, count)),
    }
}

// Returns whether the fault is printed as this word. `ok` means no fault.
fn is_word(alloc: Global, fault: &Option<Fault>, word: &str) -> bool {
    match fault {
        None => word == "ok",
        Some(fault) => is_printed_as(alloc, fault, word),
    }
}

// Returns whether a copy of `count` elements into memory writes these bytes, and ends with this word.
fn is_copied(
    alloc: Global,
    way: Way,
    count: usize,
    bytes: &[u8],
    written: &[u8],
    word: &str,
) -> bool {
    let copy = copies(way, bytes, Vec::new(alloc), count);
    let is_written = copy.sink.as_slice() == written && copy.flushed == End::Done;
    is_written && is_word(alloc, &copy.fault, word)
}

// Bytes of an element that is copied, the written bytes, and how the copy ends.
static COPIED: [(&[u8], &[u8], &str); 3] = [
    (&[0x58, 1, 1, 0], &[0x41, 1], "ok"),
    (
        &[0x7f, 0x61, 0x61, 0x5f, 0xff],
        &[0x7f, 0x61, 0x61],
        "syntax 3",
    ),
    (&[], &[], "read"),
];

// Returns whether a copy flushed its writer as often as it should: once at its end, and in the program's way once for
// each piece that puts bytes out.
pub fn are_flushes(way: Way, flushes: usize, reads: usize, written: usize) -> bool {
    if way == Way::Prompt {
        (flushes > 0) == (written > 0) && flushes <= reads
    } else {
        flushes == 1
    }
}

// Returns whether a copy of `count` elements, byte by byte, takes all bytes, writes these bytes and flushes them.
fn is_copied_slowly(alloc: Global, way: Way, count: usize, bytes: &[u8], written: &[u8]) -> bool {
    let copy = copies(
        way,
        PartReader::new(bytes, 1),
        PartWriter::new(alloc, 1),
        count,
    );
    let is_done = copy.copied == End::Done && copy.flushed == End::Done;
    let is_written = copy.sink.taken.as_slice() == written && copy.source.left.is_empty();
    let is_flushed = are_flushes(way, copy.sink.flushes, copy.source.calls, written.len());
    is_done && is_written && is_flushed
}

// This test fails for a copy that always answers that its reader failed.
#[test]
fn raw_copies(rt: HostRuntime) {
    for way in WAYS {
        for &(bytes, written, word) in &COPIED {
            let is_right = is_copied(rt.alloc(), way, 1, bytes, written, word);
            holds(&rt, is_right, word);
        }
        let is_right = is_copied_slowly(rt.alloc(), way, 1, &[0x58, 1, 1], &[0x41, 1]);
        holds(&rt, is_right, "a string between streams");
    }
}

// Returns whether the bytes after the last element are left. Without a read ahead all are left, and otherwise those
// that a buffer does not hold.
fn is_left(alloc: Global, way: Way, bytes: &[u8], left: usize) -> bool {
    let copy = copies(way, bytes, Vec::new(alloc), 1);
    copy.copied == End::Done && bytes.ends_with(copy.source) && copy.source.len() == left
}

#[test]
fn what_follows_is_left(rt: HostRuntime) {
    let bytes = [0; 8_200];
    holds(
        &rt,
        is_left(rt.alloc(), Way::Single, &bytes, 8_199),
        "one byte is read",
    );
    holds(
        &rt,
        is_left(rt.alloc(), Way::Single, &bytes[..2], 1),
        "of two",
    );
    holds(
        &rt,
        is_left(rt.alloc(), Way::Buffered, &bytes, 8),
        "8 KiB are read",
    );
    holds(
        &rt,
        is_left(rt.alloc(), Way::Buffered, &bytes[..2], 0),
        "both of two",
    );
    holds(
        &rt,
        is_left(rt.alloc(), Way::Prompt, &bytes, 8),
        "a piece is read",
    );
}

// Adds a string and titles that are longer than a window, in their shortest spelling.
fn add_long_elements(bytes: &mut Vec<u8>) -> Result<(), AllocError> {
    bytes.extend_from_slice(&[0x59, 0x4e, 0x20])?;
    for index in 0..20_000_u16 {
        bytes.push((index % 251) as u8)?;
    }
    for index in 256..5_256_u16 {
        let [high, low] = index.to_be_bytes();
        bytes.extend_from_slice(&[0x19, high, low])?;
    }
    Ok(())
}

// Returns these bytes, 35,003 in all.
pub fn long_elements(rt: &impl Abort, alloc: Global) -> Vec<u8> {
    let mut bytes = Vec::new(alloc);
    holds(rt, add_long_elements(&mut bytes).is_ok(), "memory");
    bytes
}

// Returns whether the first bytes are written and flushed if a write fails.
fn is_front(alloc: Global, way: Way, bytes: &[u8]) -> bool {
    let copy = copies(way, bytes, failing_writer(alloc, 101), 5_001);
    let has_failed = copy.copied == End::Write(TIMED_OUT) && copy.flushed == End::Done;
    has_failed && bytes.starts_with(copy.sink.taken.as_slice()) && copy.sink.flushes == 1
}

#[test]
fn raw_copies_through_windows(rt: HostRuntime) {
    let bytes = long_elements(&rt, rt.alloc());
    let bytes = bytes.as_slice();
    for way in WAYS {
        let is_same = is_copied(rt.alloc(), way, 5_001, bytes, bytes, "ok");
        holds(&rt, is_same, "into memory");
        let is_same = is_copied_slowly(rt.alloc(), way, 5_001, bytes, bytes);
        holds(&rt, is_same, "byte by byte");
    }
    holds(
        &rt,
        is_front(rt.alloc(), Way::Single, bytes),
        "a write that fails",
    );
    holds(
        &rt,
        is_front(rt.alloc(), Way::Buffered, bytes),
        "a buffer that fails",
    );
    let copy = copies(Way::Prompt, bytes, failing_writer(rt.alloc(), 101), 5_001);
    let is_cut = copy.copied == End::Write(TIMED_OUT) && copy.sink.taken.len() == 100;
    let is_cut = is_cut && bytes.starts_with(copy.sink.taken.as_slice());
    holds(&rt, is_cut, "a piece that fails");
}

// Makes a writer that takes one byte a call. Its flush may fail.
fn flushed_writer(alloc: Global, flush_fails: bool) -> PartWriter {
    let writer = PartWriter::new(alloc, 1);
    if flush_fails {
        return writer.failing_to_flush();
    }
    writer
}

// Returns how a flush ends that has an answer of its own.
fn flush_end(way: Way, flush_fails: bool) -> End {
    if flush_fails && way == Way::Buffered {
        End::Write(io::ErrorKind::Other)
    } else {
        End::Done
    }
}

// Returns whether a copy writes these bytes, flushes them once, and ends with this word. `flush_fails` says how its
// flush ends.
fn is_flushed(
    alloc: Global,
    way: Way,
    count: usize,
    bytes: &[u8],
    flush_fails: bool,
    written: &[u8],
    word: &str,
) -> bool {
    let source = PartReader::new(bytes, 64);
    let copy = copies(way, source, flushed_writer(alloc, flush_fails), count);
    let is_written = copy.sink.taken.as_slice() == written;
    let is_due = are_flushes(way, copy.sink.flushes, copy.source.calls, written.len());
    let is_told = copy.flushed == flush_end(way, flush_fails);
    is_written && is_due && is_told && is_word(alloc, &copy.fault, word)
}

// How many elements are copied, their bytes, the written bytes, and how the copy ends. The last word is that of a copy
// by single calls whose flush fails: if the copy has no fault, it has the fault of the flush.
static FLUSHED: [(usize, &[u8], &[u8], &str, &str); 3] = [
    (1, &[0x42, 1, 2], &[0x42, 1, 2], "ok", "write"),
    (2, &[0, 0x1f], &[0], "syntax 1", "syntax 1"),
    (2, &[0, 0x43, 1], &[0, 0x43], "read", "read"),
];

// A copy flushes its writer after all that was written, however it ends. If the flush fails, its fault is reported
// beside the end of the copy, or in its place.
#[test]
fn copies_flush_once(rt: HostRuntime) {
    for way in [Way::Single, Way::Buffered] {
        for &(count, bytes, want, word, unflushed) in &FLUSHED {
            let is_right = is_flushed(rt.alloc(), way, count, bytes, false, want, word);
            holds(&rt, is_right, word);
            let told = if way == Way::Single { unflushed } else { word };
            let is_right = is_flushed(rt.alloc(), way, count, bytes, true, want, told);
            holds(&rt, is_right, told);
        }
    }
}

// The same of copies in pieces. They write the bytes of a body as they come, and tell at once that a flush fails.
static SENT: [(usize, &[u8], &[u8], &str); 4] = [
    (1, &[0x42, 1, 2], &[0x42, 1, 2], "ok"),
    (2, &[0, 0x1f], &[0], "syntax 1"),
    (2, &[0, 0x43, 1], &[0, 0x43, 1], "read"),
    (1, &[0x62, 0x61, 0xff], &[0x62, 0x61], "syntax 0"),
];

#[test]
fn pieces_are_flushed(rt: HostRuntime) {
    for &(count, bytes, want, word) in &SENT {
        let way = Way::Prompt;
        let is_right = is_flushed(rt.alloc(), way, count, bytes, false, want, word);
        holds(&rt, is_right, word);
        let is_right = is_flushed(rt.alloc(), way, count, bytes, true, want, "write");
        holds(&rt, is_right, "a flush that fails");
    }
}

const TIMED_OUT: io::ErrorKind = io::ErrorKind::TimedOut;

fn failing_reader(call: usize) -> PartReader<'static> {
    PartReader::new(&[0x42, 1, 2], 1).failing_at(call, TIMED_OUT)
}

fn failing_writer(alloc: Global, call: usize) -> PartWriter {
    PartWriter::new(alloc, 1).failing_at(call, Some(TIMED_OUT))
}

// Returns how a copy of an element ended, and how its flush ended.
fn ends_of_one<R: io::Read + Drop, W: io::Write + Drop>(
    way: Way,
    source: R,
    sink: W,
) -> (End, End) {
    let copy = copies(way, source, sink, 1);
    (copy.copied, copy.flushed)
}

// Returns whether a read that fails at this call is reported.
fn tells_read(alloc: Global, way: Way, call: usize) -> bool {
    let (copied, _) = ends_of_one(way, failing_reader(call), Vec::new(alloc));
    copied == End::Read(TIMED_OUT)
}

// Returns whether this fault of the writer is reported: by a copy through buffers as that of the flush, otherwise as
// that of the copy.
fn is_told(way: Way, ends: (End, End), fault: End) -> bool {
    if way == Way::Buffered {
        ends == (End::Done, fault)
    } else {
        ends == (fault, End::Done)
    }
}

// Returns whether a write that fails at this call is reported.
fn tells_write(alloc: Global, way: Way, call: usize) -> bool {
    let ends = ends_of_one(way, [0x42, 1, 2].as_slice(), failing_writer(alloc, call));
    is_told(way, ends, End::Write(TIMED_OUT))
}

// Returns whether an end of the bytes is reported.
fn tells_end(alloc: Global, way: Way) -> bool {
    let (copied, _) = ends_of_one(way, [0x42, 1].as_slice(), Vec::new(alloc));
    copied == End::Short
}

// Returns whether a writer that takes no byte is reported.
fn tells_zero(alloc: Global, way: Way) -> bool {
    let ends = ends_of_one(way, [0].as_slice(), PartWriter::new(alloc, 0));
    is_told(way, ends, End::Zero)
}

#[test]
fn raw_hands_faults_on(rt: HostRuntime) {
    let alloc = rt.alloc();
    for way in WAYS {
        for call in 1..=3_usize {
            holds(&rt, tells_read(alloc, way, call), "a read");
            holds(&rt, tells_write(alloc, way, call), "a write");
        }
        holds(&rt, tells_end(alloc, way), "an end of the bytes");
        holds(&rt, tells_zero(alloc, way), "no byte is taken");
    }
}

// Counts bytes that are written.
#[derive(Drop)]
struct Counter<'c> {
    written: &'c Cell<usize>,
}

impl io::Write for Counter<'_> {
    fn write(&mut self, buf: &[u8]) -> io::Result<usize> {
        self.written
            .set(self.written.get().saturating_add(buf.len()));
        Ok(buf.len())
    }

    fn flush(&mut self) -> io::Result<()> {
        Ok(())
    }
}

// Gives a byte a call, and notes how many bytes were written before it.
#[derive(Drop)]
struct Watcher<'c> {
    left: &'static [(u8, usize)],
    written: &'c Cell<usize>,
    is_prompt: bool,
}

impl io::Read for Watcher<'_> {
    fn read(&mut self, buf: &mut [u8]) -> io::Result<usize> {
        let [(byte, due), rest @ ..] = self.left else {
            return Ok(0);
        };
        if let Some(place) = buf.first_mut() {
            *place = *byte;
            self.is_prompt = self.is_prompt && self.written.get() == *due;
            self.left = rest;
            return Ok(1);
        }
        Ok(0)
    }
}

// The bytes of three elements, and how many bytes are written before each read. The elements are a number, a number
// whose title has two bytes, and a string of the indefinite form with one piece.
static WATCHED: [(u8, usize); 8] = [
    (0x01, 0),
    (0x18, 1),
    (0x05, 1),
    (0x5f, 2),
    (0x42, 3),
    (0x07, 4),
    (0x08, 5),
    (0xff, 6),
];

// All finished output is written before the reader is asked for the next byte.
#[test]
fn what_is_ready_is_written(rt: HostRuntime) {
    let written = Cell::new(0);
    let source = Watcher {
        left: &WATCHED,
        written: &written,
        is_prompt: true,
    };
    let sink = Counter { written: &written };
    let copy = copies(Way::Prompt, source, sink, 3);
    holds(&rt, copy.copied == End::Done, "three elements");
    holds(&rt, copy.source.is_prompt, "what is ready");
    holds(&rt, copy.source.left.is_empty(), "all bytes");
}
