// Copies of raw bytes between streams that move few bytes a call, or fail at one call, beside a plain reading.

use super::copies::{self, End, WAYS, Way, are_flushes, long_elements};
use crate::answers::{MOST, decoded, holds_call};
use std::alloc::Global;
use std::io;
use std::process::Abort;
use std::test::Fail;
use test_support::plain::{self, Copied, Fault};
use test_support::samples::COPIES;
use test_support::streams::{PartReader, PartWriter};

// Returns the first `length` bytes. The bytes are at least that many.
fn front_of(bytes: &[u8], length: usize) -> &[u8] {
    bytes.get(..length).unwrap_or(&[])
}

const INTERRUPTED: io::ErrorKind = io::ErrorKind::Interrupted;

// How a copy ended, and the bytes that were written, given and flushed by then.
#[derive(Drop)]
struct Ended {
    way: Way,
    copied: End,
    flushed: End,
    reads: usize,
    given: usize,
    sink: PartWriter,
}

// Copies elements.
fn copies(way: Way, count: usize, bytes: &[u8], source: PartReader<'_>, sink: PartWriter) -> Ended {
    let copy = copies::copies(way, source, sink, count);
    Ended {
        way,
        copied: copy.copied,
        flushed: copy.flushed,
        reads: copy.source.calls,
        given: bytes.len().saturating_sub(copy.source.left.len()),
        sink: copy.sink,
    }
}

// Returns whether a copy ended as a plain reading says.
fn is_answer(copied: End, want: Option<Fault>) -> bool {
    match copied {
        End::Done => want.is_none(),
        End::Syntax(place) => want == Some(Fault::Syntax(place)),
        End::Short => matches!(want, Some(Fault::Short | Fault::ShortAndDamaged(_))),
        _ => false,
    }
}

// Returns how a write ends that is interrupted, or takes no byte.
fn end_of_write(kind: Option<io::ErrorKind>) -> End {
    match kind {
        None => End::Zero,
        Some(kind) => End::Write(kind),
    }
}

// Returns whether the written bytes are those of a plain reading. A copy in pieces writes a body as it comes, so it may
// have written more of a body that is cut or damaged.
fn is_written(ended: &Ended, want: &Copied) -> bool {
    let taken = ended.sink.taken.as_slice();
    let want = want.output.as_slice();
    if ended.way == Way::Prompt && ended.copied != End::Done {
        taken.starts_with(want)
    } else {
        taken == want
    }
}

// Returns whether the written bytes are those of a plain reading, and were flushed.
fn is_flushed(ended: &Ended, want: &Copied) -> bool {
    let flushes = ended.sink.flushes;
    let is_often = are_flushes(ended.way, flushes, ended.reads, ended.sink.taken.len());
    is_written(ended, want) && is_often && ended.flushed == End::Done
}

// Returns whether a copy whose reader was interrupted says so, and stops within a title or a body.
fn is_interrupted(ended: &Ended, want: &Copied) -> bool {
    let is_short = matches!(want.fault, Some(Fault::Short | Fault::ShortAndDamaged(_)));
    is_short && ended.copied == End::Read(INTERRUPTED)
}

// Returns whether the written bytes are those that a plain reading gives for the bytes that came, and are flushed. The
// copy says that a read was interrupted, or otherwise how the bytes end.
fn is_due(ended: &Ended, want: &Copied, has_failed: bool) -> bool {
    if has_failed {
        is_flushed(ended, want) && is_interrupted(ended, want)
    } else {
        is_flushed(ended, want) && is_answer(ended.copied, want.fault)
    }
}

// Copies from a reader that gives few bytes a call, and is interrupted at one call.
fn interrupted(
    alloc: Global,
    way: Way,
    count: usize,
    bytes: &[u8],
    most: usize,
    call: usize,
) -> Ended {
    let source = PartReader::new(bytes, most).failing_at(call, INTERRUPTED);
    copies(way, count, bytes, source, PartWriter::new(alloc, most))
}

// Compares a copy with one interrupted read to a plain reading. It returns whether that call came.
fn stops_reading(
    rt: &impl Abort,
    alloc: Global,
    way: Way,
    count: usize,
    bytes: &[u8],
    most: usize,
    call: usize,
) -> Result<bool, Fail> {
    let ended = interrupted(alloc, way, count, bytes, most, call);
    let has_failed = ended.reads >= call;
    let length = if has_failed { ended.given } else { bytes.len() };
    let want = plain::copy(alloc, false, count, front_of(bytes, length))?;
    holds_call(rt, is_due(&ended, &want, has_failed), call, bytes);
    Ok(has_failed)
}

// Returns whether the written bytes are the first `length` bytes that a plain reading gives.
fn is_front(ended: &Ended, want: &Copied, length: usize) -> bool {
    want.output.as_slice().get(..length) == Some(ended.sink.taken.as_slice())
}

// Returns whether a copy whose writer failed says so. A copy through buffers keeps these few bytes back to the end, so
// the flush has the fault, and not the copy.
fn is_unwritten(ended: &Ended, want: &Copied, fault: End) -> bool {
    if ended.way != Way::Buffered {
        return ended.copied == fault && ended.flushed == End::Done;
    }
    ended.flushed == fault && is_answer(ended.copied, want.fault)
}

// Returns whether all bytes that a plain reading gives were written.
fn is_whole(ended: &Ended, want: &Copied) -> bool {
    let is_written = is_front(ended, want, want.output.len());
    is_written && ended.flushed == End::Done && is_answer(ended.copied, want.fault)
}

// Returns whether a writer that fails at a call took the first bytes of a copy that does not fail.
fn is_due_of(ended: &Ended, want: &Copied, kind: Option<io::ErrorKind>, call: usize) -> bool {
    if ended.sink.calls >= call {
        let is_written = is_front(ended, want, call.saturating_sub(1));
        is_written && is_unwritten(ended, want, end_of_write(kind))
    } else {
        is_whole(ended, want)
    }
}

// Copies to a writer that takes one byte a call. At one call it takes none, or is interrupted. It returns whether that
// call came.
fn stops_writing(
    rt: &impl Abort,
    alloc: Global,
    way: Way,
    count: usize,
    bytes: &[u8],
    want: &Copied,
    kind: Option<io::ErrorKind>,
    call: usize,
) -> bool {
    let sink = PartWriter::new(alloc, 1).failing_at(call, kind);
    let ended = copies(way, count, bytes, PartReader::new(bytes, 64), sink);
    holds_call(rt, is_due_of(&ended, want, kind, call), call, bytes);
    ended.sink.calls >= call
}

// Each read is interrupted in turn, until none is.
fn interrupts_reads(
    rt: &impl Abort,
    alloc: Global,
    way: Way,
    count: usize,
    bytes: &[u8],
    most: usize,
) -> Result<(), Fail> {
    let mut last = 0usize;
    for call in 1..64usize {
        if !stops_reading(rt, alloc, way, count, bytes, most, call)? {
            break;
        }
        last = call;
    }
    holds_call(rt, last < 63 && (last > 0 || count == 0), last, bytes);
    Ok(())
}

// Each write fails in turn, until none does. There are as many writes as written bytes.
fn fails_writes(
    rt: &impl Abort,
    alloc: Global,
    way: Way,
    count: usize,
    bytes: &[u8],
    want: &Copied,
    kind: Option<io::ErrorKind>,
) {
    let mut last = 0usize;
    for call in 1..64usize {
        if !stops_writing(rt, alloc, way, count, bytes, want, kind, call) {
            break;
        }
        last = call;
    }
    holds_call(rt, last == want.output.len(), last, bytes);
}

// Reads fail through readers of each kind.
fn fails_reads(rt: &impl Abort, alloc: Global, count: usize, bytes: &[u8]) -> Result<(), Fail> {
    for way in WAYS {
        for most in [1, 2, 3, 64usize] {
            interrupts_reads(rt, alloc, way, count, bytes, most)?;
        }
    }
    Ok(())
}

// Writes fail in each way.
fn fails_sample(rt: &impl Abort, alloc: Global, count: usize, digits: &str) -> Result<(), Fail> {
    let mut space = [0; MOST];
    let bytes = decoded(rt, digits, &mut space);
    fails_reads(rt, alloc, count, bytes)?;
    let want = plain::copy(alloc, false, count, bytes)?;
    for way in [Way::Single, Way::Buffered] {
        fails_writes(rt, alloc, way, count, bytes, &want, None);
        fails_writes(rt, alloc, way, count, bytes, &want, Some(INTERRUPTED));
    }
    Ok(())
}

#[test]
fn each_call_of_a_raw_copy_fails(rt: HostRuntime) -> Result<(), Fail> {
    for &(count, digits) in &COPIES {
        fails_sample(&rt, rt.alloc(), count, digits)?;
    }
    Ok(())
}

// Returns whether the bytes of a long copy, with a failed read or none, are the expected ones, and flushed.
fn is_read_on(ended: &Ended, bytes: &[u8], has_failed: bool) -> bool {
    let taken = ended.sink.taken.as_slice();
    let is_right = if has_failed {
        // A title has at most three bytes, and a part of the body 64.
        ended.copied == End::Read(INTERRUPTED) && ended.given.saturating_sub(taken.len()) < 64
    } else {
        ended.copied == End::Done && taken.len() == bytes.len()
    };
    is_right && bytes.starts_with(taken) && ended.flushed == End::Done
}

// Makes a long copy whose read of this number is interrupted. It returns whether that call came.
fn stops_reading_on(rt: &impl Abort, alloc: Global, bytes: &[u8], call: usize) -> bool {
    let source = PartReader::new(bytes, 1_000).failing_at(call, INTERRUPTED);
    let ended = copies(
        Way::Buffered,
        5_001,
        bytes,
        source,
        PartWriter::new(alloc, 1_000),
    );
    let has_failed = ended.reads >= call;
    holds_call(rt, is_read_on(&ended, bytes, has_failed), call, &[]);
    has_failed
}

// Returns whether an interrupted write is reported once: as the fault of the copy, or as that of the flush.
fn is_told_once(copied: End, flushed: End) -> bool {
    let fault = End::Write(INTERRUPTED);
    if copied == End::Done {
        flushed == fault
    } else {
        copied == fault && flushed == End::Done
    }
}

// Returns whether a long copy, with a failed write or none, has written the first bytes.
fn is_written_on(ended: &Ended, bytes: &[u8], has_failed: bool) -> bool {
    let taken = ended.sink.taken.as_slice();
    let is_cut = bytes.starts_with(taken) && (taken.len() < bytes.len()) == has_failed;
    if ended.copied == End::Done && ended.flushed == End::Done {
        is_cut && !has_failed
    } else {
        is_cut && is_told_once(ended.copied, ended.flushed)
    }
}

// Makes a long copy whose write of this number is interrupted. It returns whether that call came.
fn stops_writing_on(rt: &impl Abort, alloc: Global, bytes: &[u8], call: usize) -> bool {
    let sink = PartWriter::new(alloc, 1_000).failing_at(call, Some(INTERRUPTED));
    let ended = copies(
        Way::Buffered,
        5_001,
        bytes,
        PartReader::new(bytes, 1_000),
        sink,
    );
    let has_failed = ended.sink.calls >= call;
    holds_call(rt, is_written_on(&ended, bytes, has_failed), call, &[]);
    has_failed
}

// Returns whether all calls came that a move of 35,003 bytes takes.
fn are_enough(last: usize) -> bool {
    last >= 35 && last < 99
}

// Bytes in their shortest spelling, several times as many as the program reads ahead and keeps back. Each call of a
// stream moves at most 1,000 of them.
#[test]
fn each_call_of_a_long_copy_fails(rt: HostRuntime) {
    let bytes = long_elements(&rt, rt.alloc());
    let bytes = bytes.as_slice();
    let mut last_read = 0usize;
    let mut last_write = 0usize;
    for call in 1..100usize {
        if stops_reading_on(&rt, rt.alloc(), bytes, call) {
            last_read = call;
        }
        if stops_writing_on(&rt, rt.alloc(), bytes, call) {
            last_write = call;
        }
    }
    holds_call(&rt, are_enough(last_read), last_read, &[]);
    holds_call(&rt, are_enough(last_write), last_write, &[]);
}
