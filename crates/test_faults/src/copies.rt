use crate::calls::{
    MOST, all_hold, decoded, failing_decoder, failing_encoder, front_of, holds, reading_of, recodes,
};
use ciborium_ll::io::{EndOfFile, OutOfSpace, SliceReader, SliceWriter};
use ciborium_ll::laws::copy_headers;
use ciborium_ll::{Decoder, Encoder, Error, RecodeError, Spelling};
use std::alloc::Global;
use std::process::Abort;
use test_support::devices::{DeviceFault, Failing, FailingReader, FailingWriter};
use test_support::plain::{self, Copied, Fault};
use test_support::samples::{
    COPIES, LISTS, LONGER_TITLES, TWENTY_FIVE, TWENTY_FIVE_AND_BREAK, VECTORS,
};

// The unit of a copy: titles alone, or elements.
#[derive(Clone, Copy)]
pub enum Kind {
    Headers,
    Elements,
    // Elements, as a strict decoder gives them.
    StrictElements,
}

// A copy of `count` titles or elements of some bytes.
#[derive(Clone, Copy)]
pub struct Task<'a> {
    pub kind: Kind,
    pub count: usize,
    pub bytes: &'a [u8],
}

// Which side of a copy fails.
#[derive(Clone, Copy)]
pub enum Side {
    Reader,
    Writer,
}

// Makes the call of a number fail, on this side.
fn failing_at(side: Side, call: usize) -> (Failing, Failing) {
    match side {
        Side::Reader => (Failing::Call(call), Failing::Never),
        Side::Writer => (Failing::Never, Failing::Call(call)),
    }
}

// How a copy ended.
#[derive(Clone, Copy)]
pub enum Answer {
    Done,
    Syntax(usize),
    Short,
    // The reader failed, as planned.
    Unread,
    // The writer failed, as planned.
    Unwritten,
    // It ended as no copy here may end.
    Wrong,
}

// The result of a copy that was made once or twice. It wrote the first `length` bytes of the space.
#[derive(Clone, Copy)]
pub struct Outcome {
    pub first: Answer,
    pub answer: Answer,
    space: [u8; MOST],
    length: usize,
    offset: usize,
    left: usize,
    has_failed: bool,
}

impl Outcome {
    fn written(&self) -> &[u8] {
        front_of(&self.space, self.length)
    }
}

// Returns the plain answer of an outcome.
fn answer_of(outcome: Result<(), RecodeError<DeviceFault, DeviceFault>>) -> Answer {
    match outcome {
        Ok(()) => Answer::Done,
        Err(RecodeError::Read(Error::Syntax(place))) => Answer::Syntax(place),
        Err(RecodeError::Read(Error::Io(DeviceFault::Short))) => Answer::Short,
        Err(RecodeError::Read(Error::Io(DeviceFault::Planned))) => Answer::Unread,
        Err(RecodeError::Write(DeviceFault::Planned)) => Answer::Unwritten,
        Err(_) => Answer::Wrong,
    }
}

// Returns the plain answer of an outcome between slices.
fn answer_of_slices(outcome: Result<(), RecodeError<EndOfFile, OutOfSpace>>) -> Answer {
    match outcome {
        Ok(()) => Answer::Done,
        Err(RecodeError::Read(Error::Syntax(place))) => Answer::Syntax(place),
        Err(RecodeError::Read(Error::Io(EndOfFile))) => Answer::Short,
        Err(_) => Answer::Wrong,
    }
}

// Copies an element between slices.
pub fn copies_slice(
    rt: &impl Abort,
    decoder: &mut Decoder<SliceReader<'_>>,
    encoder: &mut Encoder<SliceWriter<'_>>,
    buffer: &mut [u8],
) -> Answer {
    answer_of_slices(recodes(rt, decoder, encoder, 1, buffer))
}

// Makes the copy of a task once.
fn answer_by(
    rt: &impl Abort,
    decoder: &mut Decoder<FailingReader<'_>>,
    encoder: &mut Encoder<FailingWriter<'_>>,
    task: Task<'_>,
    buffer: &mut [u8],
) -> Answer {
    match task.kind {
        Kind::Headers => answer_of(copy_headers(decoder, encoder, task.count)),
        Kind::Elements | Kind::StrictElements => {
            answer_of(recodes(rt, decoder, encoder, task.count, buffer))
        }
    }
}

// Copies by a reader and a writer that fail at planned calls, through a buffer of 64 bytes. With `is_twice` it copies
// once more, and both copies use a buffer of 4 bytes.
pub fn copies(
    rt: &impl Abort,
    task: Task<'_>,
    failing: (Failing, Failing),
    is_twice: bool,
) -> Outcome {
    let mut space = [0; MOST];
    let spelling = Spelling::shortest_if(matches!(task.kind, Kind::StrictElements));
    let mut decoder = failing_decoder(spelling, task.bytes, failing.0);
    let mut encoder = failing_encoder(&mut space, failing.1);
    let mut buffer = [0; 64];
    let buffer = &mut buffer[..if is_twice { 4 } else { 64 }];
    let first = answer_by(rt, &mut decoder, &mut encoder, task, buffer);
    let answer = if is_twice {
        answer_by(rt, &mut decoder, &mut encoder, task, buffer)
    } else {
        first
    };
    let (offset, left, has_read_failed) = reading_of(decoder);
    let writer = encoder.into_inner();
    let length = writer.written().len();
    let has_failed = has_read_failed || writer.has_failed();
    Outcome {
        first,
        answer,
        space,
        length,
        offset,
        left,
        has_failed,
    }
}

// Reads the first `length` bytes of a task plainly.
pub fn copies_plainly(rt: &impl Abort, alloc: Global, task: Task<'_>, length: usize) -> Copied {
    let bytes = front_of(task.bytes, length);
    let copied = match task.kind {
        Kind::Headers => plain::copy(alloc, true, task.count, bytes),
        Kind::Elements => plain::copy(alloc, false, task.count, bytes),
        Kind::StrictElements => plain::strict_copy(alloc, task.count, bytes),
    };
    match copied {
        Ok(copied) => copied,
        Err(_) => panic!(rt; "no memory"),
    }
}

// Returns whether an answer is the expected fault, or none if none is expected.
pub fn is_fault(answer: Answer, want: Option<Fault>) -> bool {
    match answer {
        Answer::Done => want.is_none(),
        Answer::Syntax(place) => want == Some(Fault::Syntax(place)),
        Answer::Short => matches!(want, Some(Fault::Short | Fault::ShortAndDamaged(_))),
        Answer::Unread | Answer::Unwritten | Answer::Wrong => false,
    }
}

// Returns whether no byte of `length` bytes is lost: each was read or is left.
fn keeps(got: &Outcome, length: usize) -> bool {
    got.offset.saturating_add(got.left) == length
}

// Returns whether the written bytes begin the expected bytes, and are not all of them.
fn is_begun(got: &Outcome, want: &Copied) -> bool {
    let written = got.written();
    written.len() < want.output.len() && want.output.as_slice().starts_with(written)
}

// Returns whether the written bytes, the offset and the answer are those of a plain reading.
fn is_whole(got: &Outcome, want: &Copied) -> bool {
    got.written() == want.output.as_slice()
        && is_fault(got.answer, want.fault)
        && got.offset == want.offset
}

// Requires that the written bytes and the answer are those of a plain reading of the bytes, and returns that reading.
pub fn agrees(rt: &impl Abort, alloc: Global, task: Task<'_>) -> Copied {
    let got = copies(rt, task, (Failing::Never, Failing::Never), false);
    let want = copies_plainly(rt, alloc, task, task.bytes.len());
    let is_right = is_whole(&got, &want) && keeps(&got, task.bytes.len());
    holds(rt, is_right, task.count, task.bytes);
    want
}

// A copy fails at a planned call of a side, and the next copy finds a fault at this place.
pub fn fails_and_stops(rt: &impl Abort, task: Task<'_>, side: Side, call: usize, place: usize) {
    let got = copies(rt, task, failing_at(side, call), true);
    let has_failed = match side {
        Side::Reader => matches!(got.first, Answer::Unread),
        Side::Writer => matches!(got.first, Answer::Unwritten),
    };
    let has_stopped = is_fault(got.answer, Some(Fault::Syntax(place)));
    holds(rt, has_failed && has_stopped, call, task.bytes);
}

// Returns whether the bytes that were written before a failed read are exactly those that the earlier bytes give.
fn has_stopped_reading(got: &Outcome, due: &Copied) -> bool {
    matches!(got.answer, Answer::Unread)
        && matches!(due.fault, Some(Fault::Short))
        && got.written() == due.output.as_slice()
}

// Returns whether the bytes that were written before a failed write begin those of a copy that does not fail. They also
// begin the output for the bytes that were read.
fn has_stopped_writing(got: &Outcome, due: &Copied, whole: &Copied) -> bool {
    matches!(got.answer, Answer::Unwritten) && is_begun(got, due) && is_begun(got, whole)
}

// The call of a side fails. No byte after those that were read is lost. It returns whether that call came.
fn stops(
    rt: &impl Abort,
    alloc: Global,
    task: Task<'_>,
    whole: &Copied,
    side: Side,
    call: usize,
) -> bool {
    let got = copies(rt, task, failing_at(side, call), false);
    if got.has_failed {
        let due = copies_plainly(rt, alloc, task, got.offset);
        let has_stopped = match side {
            Side::Reader => has_stopped_reading(&got, &due),
            Side::Writer => has_stopped_writing(&got, &due, whole),
        };
        let is_right = has_stopped && keeps(&got, task.bytes.len());
        holds(rt, is_right, call, task.bytes);
    }
    got.has_failed
}

// The calls of a side fail in turn, until none does. The last one came, and if there is any call, the first one did.
fn each_call_stops(
    rt: &impl Abort,
    alloc: Global,
    task: Task<'_>,
    whole: &Copied,
    side: Side,
    are_any: bool,
) {
    let mut last = 0usize;
    for call in 1..100usize {
        if !stops(rt, alloc, task, whole, side, call) {
            break;
        }
        last = call;
    }
    holds(rt, last < 99 && (last > 0) == are_any, last, task.bytes);
}

// Each call of the reader fails in turn, and then each call of the writer. Each call that moves a byte has failed once.
fn each_call_fails(rt: &impl Abort, alloc: Global, kind: Kind, count: usize, hex: &str) {
    let mut space = [0; MOST];
    let bytes = decoded(rt, hex, &mut space);
    let task = Task { kind, count, bytes };
    let whole = agrees(rt, alloc, task);
    each_call_stops(rt, alloc, task, &whole, Side::Reader, count > 0);
    let are_writes = !whole.output.is_empty();
    each_call_stops(rt, alloc, task, &whole, Side::Writer, are_writes);
}

// Each call fails in turn under copies of each kind.
fn each_copy_fails(rt: &impl Abort, alloc: Global, count: usize, hex: &str) {
    each_call_fails(rt, alloc, Kind::Headers, count, hex);
    each_call_fails(rt, alloc, Kind::Elements, count, hex);
    each_call_fails(rt, alloc, Kind::StrictElements, count, hex);
}

#[test]
fn each_call_fails_under_copies_of_titles(rt: HostRuntime) {
    for &(hex, _) in &VECTORS {
        each_copy_fails(&rt, rt.alloc(), 1, hex);
    }
    for &(hex, headers) in &LISTS {
        each_copy_fails(&rt, rt.alloc(), headers.len(), hex);
    }
    each_copy_fails(&rt, rt.alloc(), 27, TWENTY_FIVE);
    each_copy_fails(&rt, rt.alloc(), 27, TWENTY_FIVE_AND_BREAK);
}

#[test]
fn each_call_fails_under_copies_of_longer_titles(rt: HostRuntime) {
    for &(hex, _, _) in &LONGER_TITLES {
        each_call_fails(&rt, rt.alloc(), Kind::Headers, 2, hex);
        each_call_fails(&rt, rt.alloc(), Kind::StrictElements, 2, hex);
    }
}

#[test]
fn each_call_fails_under_copies_of_elements(rt: HostRuntime) {
    for &(count, hex) in &COPIES {
        each_call_fails(&rt, rt.alloc(), Kind::Elements, count, hex);
        each_call_fails(&rt, rt.alloc(), Kind::StrictElements, count, hex);
    }
}

// A string of indefinite length, whose one body is "ab".
static STRING: [u8; 5] = [0x7f, 0x62, 0x61, 0x62, 0xff];

// The call of the reader or of the writer that fails, and how many bytes were written and read then.
static STRING_ROWS: [(Side, usize, usize, usize); 10] = [
    (Side::Reader, 1, 0, 0),
    (Side::Reader, 2, 1, 1),
    (Side::Reader, 3, 2, 2),
    (Side::Reader, 4, 4, 4),
    (Side::Reader, 5, 5, 5),
    (Side::Writer, 1, 0, 1),
    (Side::Writer, 2, 1, 2),
    (Side::Writer, 3, 3, 4),
    (Side::Writer, 4, 4, 5),
    (Side::Writer, 5, 5, 5),
];

// A copy of that string.
fn string_task() -> Task<'static> {
    Task {
        kind: Kind::Elements,
        count: 1,
        bytes: &STRING,
    }
}

// Returns whether a copy of that string, with this failing call or with none left, comes this far.
fn comes_to(rt: &impl Abort, side: Side, call: usize, length: usize, offset: usize) -> bool {
    let got = copies(rt, string_task(), failing_at(side, call), false);
    let is_done = matches!(got.answer, Answer::Done) == (length == 5);
    is_done && got.offset == offset && got.written() == front_of(&STRING, length)
}

#[test]
fn a_string_by_hand(rt: HostRuntime) {
    for (number, &(side, call, length, offset)) in STRING_ROWS.iter().enumerate() {
        let is_right = comes_to(&rt, side, call, length, offset);
        holds(&rt, is_right, number, &STRING);
    }
}

// A copy that failed at its first read has lost nothing, and the test makes it once more.
#[test]
fn a_copy_is_asked_for_once_more(rt: HostRuntime) {
    let got = copies(&rt, string_task(), failing_at(Side::Reader, 1), true);
    let has_failed = matches!(got.first, Answer::Unread);
    let is_done = matches!(got.answer, Answer::Done);
    all_hold(
        &rt,
        1,
        &[has_failed, is_done, got.written() == STRING.as_slice()],
    );
}
