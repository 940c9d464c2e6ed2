use crate::checks::{holds, holds_with};
use crate::streams::{Failure, read_failure, write_failure};
use ciborium_ll::io::{BufferedReader, BufferedWriter, Read, Write};
use ciborium_ll::recode::recode;
use ciborium_ll::{Decoder, Encoder};
use std::alloc::Global;
use std::io;
use test_support::streams::{PartReader, PartWriter};

// A call on a reader, with the answer that it has to give.
enum ReadCall {
    // A read gives these bytes.
    Gives(&'static [u8]),
    // A read of this many bytes fails, and its slice begins with these bytes.
    Fails(usize, &'static [u8]),
    // The call takes the fault that is kept, and finds this failure.
    Fault(Failure),
}

// Reads at most eight bytes, and compares whether the read succeeds, and the bytes that the slice begins with.
fn reads_so<'a>(
    reader: &mut BufferedReader<'a, PartReader<'a>>,
    size: usize,
    succeeds: bool,
    front: &[u8],
) -> bool {
    let mut space = [0; 8];
    let data = &mut space[..size.min(8)];
    reader.read_exact(data).is_ok() == succeeds && data.starts_with(front)
}

// Makes a call, and compares its answer.
fn reader_answers<'a>(reader: &mut BufferedReader<'a, PartReader<'a>>, call: &ReadCall) -> bool {
    match call {
        ReadCall::Gives(want) => reads_so(reader, want.len(), true, want),
        ReadCall::Fails(size, front) => reads_so(reader, *size, false, front),
        ReadCall::Fault(want) => read_failure(reader.take_fault()) == *want,
    }
}

// Makes calls, and returns how many gave the right answer, up to one that did not.
fn answered_reads<'a>(
    reader: &mut BufferedReader<'a, PartReader<'a>>,
    calls: &[ReadCall],
) -> usize {
    let mut count = 0usize;
    for call in calls {
        if !reader_answers(reader, call) {
            return count;
        }
        count = count.saturating_add(1);
    }
    count
}

// Makes a reader of a source, which borrows this many of eight bytes.
fn reader_of<'a>(
    source: PartReader<'a>,
    lent: &'a mut [u8; 8],
    room: usize,
) -> BufferedReader<'a, PartReader<'a>> {
    BufferedReader::new(source, &mut lent[..room.min(8)])
}

// Compares the bytes that were read ahead.
fn has_ahead<'a>(reader: &BufferedReader<'a, PartReader<'a>>, ahead: &[u8]) -> bool {
    reader.buffer() == ahead
}

// Returns whether this many calls came to a source, these bytes are left in it, and these were read ahead.
fn has_given(source: &PartReader, calls: usize, left: &[u8], buffer: &[u8], ahead: &[u8]) -> bool {
    source.calls == calls && source.left == left && buffer == ahead
}

// How many bytes are lent, what each read gives, how many calls that takes, and the bytes that are then ahead and left.
type Reads = (
    usize,
    &'static [ReadCall],
    usize,
    &'static [u8],
    &'static [u8],
);

static READS: [Reads; 8] = [
    (4, &[], 0, &[], &[1, 2, 3, 4, 5, 6]),
    (
        4,
        &[ReadCall::Gives(&[]), ReadCall::Gives(&[])],
        0,
        &[],
        &[1, 2, 3, 4, 5, 6],
    ),
    (4, &[ReadCall::Gives(&[1])], 1, &[2, 3, 4], &[5, 6]),
    (
        4,
        &[
            ReadCall::Gives(&[1]),
            ReadCall::Gives(&[2, 3, 4]),
            ReadCall::Gives(&[]),
        ],
        1,
        &[],
        &[5, 6],
    ),
    (
        4,
        &[
            ReadCall::Gives(&[1]),
            ReadCall::Gives(&[2, 3, 4]),
            ReadCall::Gives(&[5]),
        ],
        2,
        &[6],
        &[],
    ),
    (
        2,
        &[ReadCall::Gives(&[1]), ReadCall::Gives(&[2, 3, 4, 5])],
        2,
        &[],
        &[6],
    ),
    (
        2,
        &[ReadCall::Gives(&[1]), ReadCall::Gives(&[2, 3])],
        2,
        &[4],
        &[5, 6],
    ),
    (
        0,
        &[
            ReadCall::Gives(&[1]),
            ReadCall::Gives(&[2, 3]),
            ReadCall::Gives(&[]),
            ReadCall::Gives(&[4, 5, 6]),
        ],
        3,
        &[],
        &[],
    ),
];

// Reads the bytes 1 to 6. It compares each read, how many calls it takes, and the bytes that are then ahead and left.
#[test]
fn reads_ahead(rt: HostRuntime) {
    for (room, calls, count, ahead, left) in &READS {
        let mut lent = [0; 8];
        let source = PartReader::new(&[1, 2, 3, 4, 5, 6], usize::MAX);
        let mut reader = reader_of(source, &mut lent, *room);
        let are_given = answered_reads(&mut reader, calls) == calls.len();
        let is_ahead = has_ahead(&reader, ahead);
        let (source, buffer, fault) = reader.into_parts();
        let is_right = has_given(&source, *count, left, buffer, ahead);
        let has_failed = read_failure(fault) != Failure::Never;
        let is_right = are_given && is_ahead && is_right && !has_failed;
        holds_with(&rt, is_right, &[*room, calls.len(), *count, ahead.len()]);
    }
}

// Calls on a reader of the bytes 1 to 4 whose first read fails.
static FAULTS: [ReadCall; 5] = [
    ReadCall::Fails(2, &[]),
    // A success keeps the fault that there was, until a call takes it.
    ReadCall::Gives(&[1, 2]),
    ReadCall::Fault(Failure::Failed(io::ErrorKind::Interrupted)),
    ReadCall::Fault(Failure::Never),
    // a byte is missing
    ReadCall::Fails(3, &[3, 4, 0]),
];

// After the last call the reader keeps a failure.
#[test]
fn a_fault_of_a_reader_is_kept(rt: HostRuntime) {
    for room in [0, 3, 8] {
        let mut lent = [0; 8];
        let source = PartReader::new(&[1, 2, 3, 4], usize::MAX);
        let source = source.failing_at(1, io::ErrorKind::Interrupted);
        let mut reader = reader_of(source, &mut lent, room);
        let count = answered_reads(&mut reader, &FAULTS);
        let (_, _, fault) = reader.into_parts();
        let is_right = count == FAULTS.len() && read_failure(fault) == Failure::Stopped;
        holds_with(&rt, is_right, &[room, count]);
    }
}

// The target of a writer with a buffer: a sink that takes one byte a call.
#[derive(Clone, Copy)]
enum Sink {
    Slow,
    // It takes three bytes in all, and is interrupted at its second call.
    Failing,
    // Its flushes fail.
    FailingToFlush,
}

// Makes a sink.
fn sink_of(alloc: Global, sink: Sink) -> PartWriter {
    let slow = PartWriter::new(alloc, 1);
    match sink {
        Sink::Slow => slow,
        Sink::Failing => {
            slow.within(3)
                .failing_at(2, Some(io::ErrorKind::Interrupted))
        }
        Sink::FailingToFlush => slow.failing_to_flush(),
    }
}

// A call on a writer, with the answer that it has to give.
enum WriteCall {
    // A write of these bytes succeeds.
    Takes(&'static [u8]),
    // A write of these bytes fails.
    Refuses(&'static [u8]),
    // A flush succeeds, or fails.
    Flush(bool),
    // These bytes are kept back.
    Keeps(&'static [u8]),
    // The call takes the fault that is kept, and finds this failure.
    Fault(Failure),
}

// Makes a call, and compares its answer.
fn writer_answers(writer: &mut BufferedWriter<PartWriter>, call: &WriteCall) -> bool {
    match call {
        WriteCall::Takes(bytes) => writer.write_all(bytes).is_ok(),
        WriteCall::Refuses(bytes) => writer.write_all(bytes).is_err(),
        WriteCall::Flush(succeeds) => writer.flush().is_ok() == *succeeds,
        WriteCall::Keeps(bytes) => writer.buffer() == *bytes,
        WriteCall::Fault(want) => write_failure(writer.take_fault()) == *want,
    }
}

// The final state of a writer: the bytes that the sink took, the bytes that the writer keeps, how many calls and
// flushes came (calls if the row asks), and the failure.
type End = (&'static [u8], &'static [u8], Option<usize>, usize, Failure);

// Returns whether a writer has this final state. It kept these bytes, and has this failure.
fn came_to(sink: &PartWriter, kept: &[u8], failure: Failure, end: &End) -> bool {
    let is_taken = sink.taken.as_slice() == end.0 && kept == end.1;
    let are_calls = end.2.is_none() || end.2 == Some(sink.calls);
    is_taken && are_calls && sink.flushes == end.3 && failure == end.4
}

// What the row tries, the sink, how many bytes are lent, the calls, and the final state.
type Writes = (&'static str, Sink, usize, &'static [WriteCall], End);

static WRITES: [Writes; 10] = [
    (
        "no write",
        Sink::Slow,
        4,
        &[WriteCall::Keeps(&[])],
        (&[], &[], Some(0), 0, Failure::Never),
    ),
    (
        "two writes that fill what is lent",
        Sink::Slow,
        4,
        &[
            WriteCall::Takes(&[1]),
            WriteCall::Takes(&[2, 3, 4]),
            WriteCall::Keeps(&[1, 2, 3, 4]),
        ],
        (&[], &[1, 2, 3, 4], Some(0), 0, Failure::Never),
    ),
    (
        "a write of none behind one that fills it",
        Sink::Slow,
        4,
        &[
            WriteCall::Takes(&[1, 2, 3, 4]),
            WriteCall::Takes(&[]),
            WriteCall::Keeps(&[1, 2, 3, 4]),
        ],
        (&[], &[1, 2, 3, 4], Some(0), 0, Failure::Never),
    ),
    (
        "a write for which there is no room",
        Sink::Slow,
        4,
        &[
            WriteCall::Takes(&[1, 2, 3]),
            WriteCall::Takes(&[4, 5]),
            WriteCall::Keeps(&[4, 5]),
        ],
        (&[1, 2, 3], &[4, 5], Some(3), 0, Failure::Never),
    ),
    (
        "a write of more than is lent",
        Sink::Slow,
        2,
        &[
            WriteCall::Takes(&[1]),
            WriteCall::Takes(&[2, 3, 4]),
            WriteCall::Keeps(&[]),
        ],
        (&[1, 2, 3, 4], &[], Some(4), 0, Failure::Never),
    ),
    (
        "a write of more at first",
        Sink::Slow,
        2,
        &[
            WriteCall::Takes(&[1, 2, 3]),
            WriteCall::Takes(&[4]),
            WriteCall::Takes(&[5]),
            WriteCall::Keeps(&[4, 5]),
        ],
        (&[1, 2, 3], &[4, 5], Some(3), 0, Failure::Never),
    ),
    (
        "no byte is lent",
        Sink::Slow,
        0,
        &[
            WriteCall::Takes(&[1]),
            WriteCall::Takes(&[]),
            WriteCall::Takes(&[2, 3]),
            WriteCall::Keeps(&[]),
        ],
        (&[1, 2, 3], &[], Some(3), 0, Failure::Never),
    ),
    (
        "a flush passes on what was kept back",
        Sink::Slow,
        4,
        &[
            WriteCall::Takes(&[1, 2, 3]),
            WriteCall::Flush(true),
            WriteCall::Keeps(&[]),
            WriteCall::Takes(&[4]),
            WriteCall::Flush(true),
        ],
        (&[1, 2, 3, 4], &[], Some(4), 2, Failure::Never),
    ),
    // The writer still keeps the bytes that a failed write could not pass on, and tells its fault once.
    (
        "nothing that was kept back is lost",
        Sink::Failing,
        4,
        &[
            WriteCall::Takes(&[1, 2, 3, 4]),
            WriteCall::Refuses(&[5]),
            WriteCall::Keeps(&[2, 3, 4]),
            WriteCall::Fault(Failure::Failed(io::ErrorKind::Interrupted)),
            WriteCall::Fault(Failure::Never),
            WriteCall::Flush(false),
        ],
        (&[1, 2, 3], &[4], None, 0, Failure::Stopped),
    ),
    (
        "a flush within that fails",
        Sink::FailingToFlush,
        4,
        &[WriteCall::Takes(&[1, 2]), WriteCall::Flush(false)],
        (&[1, 2], &[], None, 1, Failure::Failed(io::ErrorKind::Other)),
    ),
];

// Makes the calls of each row, with at most four bytes lent, and compares their answers and the final state.
#[test]
fn keeps_back(rt: HostRuntime) {
    for (what, sink, room, calls, end) in &WRITES {
        let mut lent = [0; 4];
        let sink = sink_of(rt.alloc(), *sink);
        let mut writer = BufferedWriter::new(sink, &mut lent[..4.min(*room)]);
        for call in *calls {
            holds(&rt, writer_answers(&mut writer, call), what);
        }
        let (sink, kept, fault) = writer.into_parts();
        holds(&rt, came_to(&sink, kept, write_failure(fault), end), what);
    }
}

// An array's title, a number and a byte string, in their shortest spelling: three elements.
fn three_elements(number: u8) -> [u8; 16] {
    [
        0x9b, 1, 2, 3, 4, 5, 6, 7, number, 0x39, 1, number, 0x43, number, 0, 1,
    ]
}

// 120 elements.
fn elements() -> [u8; 640] {
    let mut bytes = [0; 640];
    for number in 0..40_u8 {
        let start = 16 * usize::from(number);
        bytes[start..start + 16].copy_from_slice(&three_elements(number));
    }
    bytes
}

// Copies 120 elements, and passes them on. Proofs of its callers do not see its effect.
fn copies_all<'a>(
    decoder: &mut Decoder<BufferedReader<'a, PartReader<'a>>>,
    encoder: &mut Encoder<BufferedWriter<Vec<u8>>>,
) -> bool {
    recode(decoder, encoder, 120, &mut [0; 4]).is_ok() && encoder.flush().is_ok()
}

// Makes a decoder of bytes, which borrows this many of 64 bytes.
fn decoder_of<'a>(
    bytes: &'a [u8],
    lent: &'a mut [u8; 64],
    room: usize,
) -> Decoder<BufferedReader<'a, PartReader<'a>>> {
    let source = PartReader::new(bytes, usize::MAX);
    Decoder::from(BufferedReader::new(source, &mut lent[..room.min(64)]))
}

// Makes an encoder into a vector, which borrows this many of 64 bytes.
fn encoder_to<'a>(
    alloc: Global,
    lent: &'a mut [u8; 64],
    room: usize,
) -> Encoder<BufferedWriter<'a, Vec<u8>>> {
    Encoder::from(BufferedWriter::new(Vec::new(alloc), &mut lent[..room.min(64)]))
}

// Copies elements with this many bytes lent to each side, and compares the output.
fn is_copied(alloc: Global, bytes: &[u8], ahead: usize, back: usize) -> bool {
    let mut lent_ahead = [0; 64];
    let mut lent_back = [0; 64];
    let mut decoder = decoder_of(bytes, &mut lent_ahead, ahead);
    let mut encoder = encoder_to(alloc, &mut lent_back, back);
    let is_whole = copies_all(&mut decoder, &mut encoder);
    let (taken, _, _) = encoder.into_inner().into_parts();
    is_whole && taken.as_slice() == bytes
}

// How many bytes are lent to the reader, and how many to the writer.
static ROOMS: [(usize, usize); 5] = [(0, 0), (1, 64), (7, 1), (8, 9), (64, 64)];

#[test]
fn copies_through_any_room(rt: HostRuntime) {
    let bytes = elements();
    for (ahead, back) in &ROOMS {
        let is_right = is_copied(rt.alloc(), &bytes, *ahead, *back);
        holds_with(&rt, is_right, &[*ahead, *back]);
    }
}
