// Runs over readers and writers that move few bytes a call or fail, and runs with a refused allocation.

use super::answers::{holds, holds_at, holds_call, is_printed_as};
use ciborium_ll::io::{VecWriter, Write};
use std::alloc::Global;
use std::io;
use test_support::streams::{PartReader, PartWriter};
use tool_lines::fault::{ToolError, fault_of_run};
use tool_lines::service::run;

// Writes bytes, and passes them on. It returns whether there was memory.
fn writes(writer: &mut VecWriter, data: &[u8]) -> bool {
    writer.write_all(data).is_ok() && writer.flush().is_ok()
}

#[test]
fn a_writer_in_memory(rt: HostRuntime) {
    let mut writer = VecWriter::new(rt.alloc());
    let is_done = writes(&mut writer, &[1, 2])
        && writes(&mut writer, &[])
        && writes(&mut writer, &[3]);
    let is_written = writer.into_vec().as_slice() == [1, 2, 3].as_slice();
    holds(&rt, is_done && is_written, "three bytes in three parts");
}

const INPUT: &[u8] = b"heads 00\nheads 0101\n";

const OUTPUT: &str = "0 positive 0\nend 1\n0 positive 1\n1 positive 1\nend 2\n";

// How a run over `INPUT` ended, and the bytes that were written and flushed by then.
#[derive(Drop)]
struct Ended {
    // The kind of the error with which a read failed.
    read: Option<io::ErrorKind>,
    // The kind of the error with which a write or a flush failed.
    write: Option<io::ErrorKind>,
    // How many of the first bytes of `OUTPUT` were written, or `None` if other bytes were written.
    written: Option<usize>,
    flushes: usize,
}

// Returns how a run ended: the kinds of the errors of a read and of a write. If there was no memory, both are set.
fn kinds_of(outcome: Result<(), ToolError>) -> (Option<io::ErrorKind>, Option<io::ErrorKind>) {
    match outcome {
        Ok(()) => (None, None),
        Err(ToolError::Read(error)) => (Some(error.kind()), None),
        Err(ToolError::Write(error)) => (None, Some(error.kind())),
        Err(ToolError::Memory) => {
            let kind = Some(io::ErrorKind::OutOfMemory);
            (kind, kind)
        }
    }
}

fn run_between(alloc: Global, reader: PartReader<'_>, mut writer: PartWriter) -> Ended {
    let (read, write) = kinds_of(run(alloc, reader, &mut writer));
    let taken = writer.taken.as_slice();
    let is_front = OUTPUT.as_bytes().starts_with(taken);
    Ended {
        read,
        write,
        written: if is_front { Some(taken.len()) } else { None },
        flushes: writer.flushes,
    }
}

#[test]
fn one_byte_a_call(rt: HostRuntime) {
    let reader = PartReader::new(INPUT, 1);
    let ended = run_between(rt.alloc(), reader, PartWriter::new(rt.alloc(), 1));
    let is_right = ended.read.is_none()
        && ended.write.is_none()
        && ended.written == Some(OUTPUT.len())
        && ended.flushes == 1;
    holds(
        &rt,
        is_right,
        "no call fails, and all is written and flushed once",
    );
}

// Returns whether the run whose read of this number fails says so, and flushes nothing.
fn stops_at_read(alloc: Global, kind: io::ErrorKind, call: usize, written: usize) -> bool {
    let reader = PartReader::new(INPUT, 1).failing_at(call, kind);
    let ended = run_between(alloc, reader, PartWriter::new(alloc, 1));
    ended.read == Some(kind) && ended.written == Some(written) && ended.flushes == 0
}

// The kind of an error, the call that fails with it, and how many bytes are written by then.
static READS: [(io::ErrorKind, usize, usize); 10] = [
    (io::ErrorKind::Other, 1, 0),
    (io::ErrorKind::Other, 9, 0),
    (io::ErrorKind::Other, 10, 19),
    (io::ErrorKind::Other, 16, 19),
    (io::ErrorKind::Other, 21, 51),
    (io::ErrorKind::Interrupted, 1, 0),
    (io::ErrorKind::Interrupted, 9, 0),
    (io::ErrorKind::Interrupted, 10, 19),
    (io::ErrorKind::Interrupted, 16, 19),
    (io::ErrorKind::Interrupted, 21, 51),
];

#[test]
fn a_read_that_fails(rt: HostRuntime) {
    for &(kind, call, written) in &READS {
        holds_call(
            &rt,
            stops_at_read(rt.alloc(), kind, call, written),
            call,
            INPUT,
        );
    }
}

// Returns whether the run whose write of this number fails says so, and has made all earlier writes.
fn stops_at_write(alloc: Global, kind: Option<io::ErrorKind>, call: usize) -> bool {
    let reader = PartReader::new(INPUT, 64);
    let writer = PartWriter::new(alloc, 1).failing_at(call, kind);
    let ended = run_between(alloc, reader, writer);
    let want = kind.unwrap_or(io::ErrorKind::WriteZero);
    ended.write == Some(want) && ended.written == Some(call.saturating_sub(1))
}

// The kind of an error, or none if no byte is taken, and the call that fails with it.
static WRITES: [(Option<io::ErrorKind>, usize); 12] = [
    (Some(io::ErrorKind::Other), 1),
    (Some(io::ErrorKind::Other), 8),
    (Some(io::ErrorKind::Other), 31),
    (Some(io::ErrorKind::Other), 51),
    (Some(io::ErrorKind::Interrupted), 1),
    (Some(io::ErrorKind::Interrupted), 8),
    (Some(io::ErrorKind::Interrupted), 31),
    (Some(io::ErrorKind::Interrupted), 51),
    (None, 1),
    (None, 8),
    (None, 31),
    (None, 51),
];

#[test]
fn a_write_that_fails(rt: HostRuntime) {
    for &(kind, call) in &WRITES {
        holds_call(&rt, stops_at_write(rt.alloc(), kind, call), call, INPUT);
    }
}

#[test]
fn a_flush_that_fails(rt: HostRuntime) {
    let reader = PartReader::new(INPUT, 64);
    let writer = PartWriter::new(rt.alloc(), 1).failing_to_flush();
    let ended = run_between(rt.alloc(), reader, writer);
    let is_failed = ended.read.is_none() && ended.write.is_some();
    let is_right = is_failed && ended.written == Some(OUTPUT.len());
    holds(&rt, is_right, "the flush fails, and all is written");
}

const SCRIPT: &[u8] = b"\
heads 00
chunks 7 6d48656c6c6f2c20576f726c6421
bytes 2 0102030405
text 4 61c3a9e282acf09f9880
heads 0101
";

// How many bytes the script has room for.
const ROOM: usize = 256;

const SCRIPT_OUTPUT: &str = "\
0 positive 0
end 1
segment 13
chunk 48656c6c6f2c20
chunk 576f726c6421
stop
end 14
5f4201024203044105ff
7f6361c3a963e282ac64f09f9880ff
0 positive 1
1 positive 1
end 2
";

// Returns whether there was memory for the whole script, or `None` if the run ends with another fault.
fn script_has_memory(alloc: Global, room: &mut &mut [u8]) -> Option<bool> {
    match run(alloc, SCRIPT, room) {
        Ok(()) => Some(true),
        Err(ToolError::Memory) => Some(false),
        Err(_) => None,
    }
}

// Runs the script, and also returns how many bytes it writes.
fn run_script(alloc: Global, space: &mut [u8; ROOM]) -> (Option<bool>, usize) {
    let mut room = space.as_mut_slice();
    let has_memory = script_has_memory(alloc, &mut room);
    (has_memory, ROOM.saturating_sub(room.len()))
}

// Returns whether these are bytes of the script, cut at a line's end, with a last line that says why.
fn is_out_of_memory(written: &[u8]) -> bool {
    let Some(front) = written.strip_suffix(b"error: memory\n") else {
        return false;
    };
    SCRIPT_OUTPUT.as_bytes().starts_with(front) && front.last().copied().unwrap_or(b'\n') == b'\n'
}

// Returns whether these are the bytes of the script, with memory or without.
fn is_due(has_memory: Option<bool>, written: &[u8]) -> bool {
    match has_memory {
        Some(true) => written == SCRIPT_OUTPUT.as_bytes(),
        Some(false) => is_out_of_memory(written),
        None => false,
    }
}

// This holds too if an allocation is refused: the output is then cut at a line's end.
#[test]
fn whole_or_out_of_memory(rt: HostRuntime) {
    let mut space = [0; ROOM];
    let (has_memory, length) = run_script(rt.alloc(), &mut space);
    let written = space.get(..length).unwrap_or(&[]);
    holds_at(&rt, is_due(has_memory, written), written);
}

fn is_run_printed_as(alloc: Global, error: ToolError, want: &str) -> bool {
    is_printed_as(alloc, &fault_of_run(&error), want)
}

#[test]
fn faults_as_printed(rt: HostRuntime) {
    let alloc = rt.alloc();
    let read = ToolError::Read(io::Error::other("gone"));
    holds(&rt, is_run_printed_as(alloc, read, "read"), "a read");
    let write = ToolError::Write(io::Error::other("gone"));
    holds(&rt, is_run_printed_as(alloc, write, "write"), "a write");
    let is_right = is_run_printed_as(alloc, ToolError::Memory, "memory");
    holds(&rt, is_right, "memory");
}
