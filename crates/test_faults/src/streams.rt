use crate::calls::{MOST, decoded, holds, recodes};
use crate::copies::{Answer, Kind, Task, copies_plainly, is_fault};
use ciborium_ll::io::{ReadFault, StdReader, StdWriter, WriteFault};
use ciborium_ll::{Decoder, Encoder, Error, RecodeError};
use std::alloc::Global;
use std::io;
use std::process::Abort;
use test_support::plain::Copied;
use test_support::samples::COPIES;
use test_support::streams::{PartReader, PartWriter};

// Returns the plain answer of a copy through a reader that a signal can interrupt.
fn answer_of(outcome: Result<(), RecodeError<ReadFault, WriteFault>>) -> Answer {
    match outcome {
        Ok(()) => Answer::Done,
        Err(RecodeError::Read(Error::Syntax(place))) => Answer::Syntax(place),
        Err(RecodeError::Read(Error::Io(ReadFault::End))) => Answer::Short,
        Err(RecodeError::Read(Error::Io(ReadFault::Failed(error))))
            if error.kind() == io::ErrorKind::Interrupted => { Answer::Unread }
        Err(_) => Answer::Wrong,
    }
}

// Returns whether a copy wrote what a plain reading gives, and read as far. The answer is that a read failed, or that
// of the plain reading.
fn is_read(answer: Answer, has_failed: bool, offset: usize, taken: &[u8], want: &Copied) -> bool {
    let is_answer = if has_failed {
        matches!(answer, Answer::Unread)
    } else {
        is_fault(answer, want.fault)
    };
    is_answer && offset == want.offset && taken == want.output.as_slice()
}

// Returns whether this is the answer of a copy through a writer that takes no byte, or fails with an error of this
// kind.
fn is_write_answer(
    outcome: Result<(), RecodeError<ReadFault, WriteFault>>,
    kind: Option<io::ErrorKind>,
) -> bool {
    match outcome {
        Err(RecodeError::Write(WriteFault::Zero)) => kind.is_none(),
        Err(RecodeError::Write(WriteFault::Failed(error))) => kind == Some(error.kind()),
        _ => false,
    }
}

// A decoder over a reader of std.
fn decoder_over<T: io::Read>(source: T) -> Decoder<StdReader<T>> {
    Decoder::from(StdReader::new(source))
}

// The reader of std of a decoder.
fn source_of<T: io::Read>(decoder: Decoder<StdReader<T>>) -> T {
    decoder.into_inner().into_inner()
}

// An encoder over a writer of std.
fn encoder_over<T: io::Write>(sink: T) -> Encoder<StdWriter<T>> {
    Encoder::from(StdWriter::new(sink))
}

// The writer of std of an encoder.
fn sink_of<T: io::Write>(encoder: Encoder<StdWriter<T>>) -> T {
    encoder.into_inner().into_inner()
}

// Copies through a reader that gives few bytes a call and is interrupted once. The written bytes are exactly those that
// the bytes before that call give. It returns whether the interrupted call came.
fn stops_reading(rt: &impl Abort, alloc: Global, task: Task<'_>, most: usize, call: usize) -> bool {
    let source = PartReader::new(task.bytes, most).failing_at(call, io::ErrorKind::Interrupted);
    let mut decoder = decoder_over(source);
    let mut encoder = encoder_over(PartWriter::new(alloc, most));
    let answer = answer_of(recodes(rt, &mut decoder, &mut encoder, task.count, &mut [0; 64]));
    let offset = decoder.offset();
    let has_failed = source_of(decoder).calls >= call;
    let length = if has_failed { offset } else { task.bytes.len() };
    let want = copies_plainly(rt, alloc, task, length);
    let sink = sink_of(encoder);
    let is_right = is_read(answer, has_failed, offset, sink.taken.as_slice(), &want);
    holds(rt, is_right, call, task.bytes);
    has_failed
}

// Returns whether the bytes of a writer that takes one byte a call, up to this call, begin the expected bytes.
fn begins(taken: &[u8], due: &[u8], call: usize) -> bool {
    due.starts_with(taken) && taken.len().saturating_add(1) == call
}

// Copies through a writer that takes one byte a call. At one call it takes none, or is interrupted. It took the first
// bytes of a copy that does not fail. The function returns whether that call came.
fn stops_writing(
    rt: &impl Abort,
    alloc: Global,
    task: Task<'_>,
    due: &[u8],
    kind: Option<io::ErrorKind>,
    call: usize,
) -> bool {
    let mut decoder = decoder_over(task.bytes);
    let mut encoder = encoder_over(PartWriter::new(alloc, 1).failing_at(call, kind));
    let outcome = recodes(rt, &mut decoder, &mut encoder, task.count, &mut [0; 64]);
    let is_answer = is_write_answer(outcome, kind);
    let sink = sink_of(encoder);
    let has_come = sink.calls >= call;
    let is_right = is_answer && begins(sink.taken.as_slice(), due, call);
    holds(rt, is_right || !has_come, call, task.bytes);
    has_come
}

// Each read is interrupted in turn, until none is.
fn interrupts_reads(rt: &impl Abort, alloc: Global, task: Task<'_>, most: usize) {
    let mut last = 0usize;
    for call in 1..64usize {
        if !stops_reading(rt, alloc, task, most, call) {
            break;
        }
        last = call;
    }
    holds(
        rt,
        last < 63 && (last > 0 || task.count == 0),
        last,
        task.bytes,
    );
}

// Each write fails in turn, until none does.
fn fails_writes(rt: &impl Abort, alloc: Global, task: Task<'_>, kind: Option<io::ErrorKind>) {
    let want = copies_plainly(rt, alloc, task, task.bytes.len());
    let due = want.output.as_slice();
    let mut last = 0usize;
    for call in 1..64usize {
        if !stops_writing(rt, alloc, task, due, kind, call) {
            break;
        }
        last = call;
    }
    holds(rt, last == due.len(), last, task.bytes);
}

// Over a sample each read is interrupted, through readers of each kind, and each write fails, in each way.
fn fails_in_sample(rt: &impl Abort, alloc: Global, count: usize, hex: &str) {
    let mut space = [0; MOST];
    let task = Task {
        kind: Kind::Elements,
        count,
        bytes: decoded(rt, hex, &mut space),
    };
    for most in [1, 2, 3, 64usize] {
        interrupts_reads(rt, alloc, task, most);
    }
    fails_writes(rt, alloc, task, None);
    fails_writes(rt, alloc, task, Some(io::ErrorKind::Interrupted));
}

#[test]
fn each_call_of_a_stream_fails(rt: HostRuntime) {
    for &(count, hex) in &COPIES {
        fails_in_sample(&rt, rt.alloc(), count, hex);
    }
}
