use crate::calls::{
    Due, MOST, StringKind, bytes_in, decoded, failing_decoder, failing_encoder, is_pulled,
    is_refused, is_stop, next_segment, reading_of, text_in,
};
use ciborium_ll::laws::{self, End};
use ciborium_ll::{Decoder, Encoder, Header, RecodeError, Segment, Segments, Spelling};
use std::alloc::Global;
use std::process::Abort;
use test_support::devices::{DeviceFault, Failing, FailingReader, FailingWriter};
use test_support::plain::Title;
use test_support::tape::{Body, Drained, Sink, Stop, Tape, Walk};

// How often the failing read came under a pull of a title, of a string and of a segment, and how often the failing
// write came.
#[derive(Clone, Copy, PartialEq, Eq)]
struct Seen {
    titles: usize,
    strings: usize,
    segments: usize,
    writes: usize,
}

const NOWHERE: Seen = Seen {
    titles: 0,
    strings: 0,
    segments: 0,
    writes: 0,
};

// Adds one if the failing read came.
fn add_planned(count: &mut usize, stop: Stop) {
    *count = count.saturating_add(usize::from(stop == Stop::Planned));
}

// How bytes are read. Two sizes take turns on each segment, and the read continues after the failing call, or stops
// there. A drain has both sizes for this many rounds, at most 4. Without rounds the segment is read chunk by chunk. The
// read and the write of these numbers fail.
#[derive(Clone, Copy)]
struct Trial<'a> {
    bytes: &'a [u8],
    sizes: [usize; 2],
    rounds: usize,
    goes_on: bool,
    read: usize,
    write: usize,
}

// Makes a trial that reads bytes in this way, with no failing call.
fn trial_of(bytes: &[u8], sizes: [usize; 2], rounds: usize) -> Trial<'_> {
    Trial {
        bytes,
        sizes,
        rounds,
        goes_on: true,
        read: usize::MAX,
        write: usize::MAX,
    }
}

// A read of bytes with a failing call, beside a plain reading.
#[derive(Drop)]
struct Run<'a> {
    trial: Trial<'a>,
    tape: Tape<'a>,
    sink: Sink,
    seen: Seen,
}

impl Run<'_> {
    // Returns whether the read stops after this many errors.
    fn stops(&self, errors: usize) -> bool {
        errors > 1 || !self.trial.goes_on && (self.tape.has_failed() || self.sink.has_failed())
    }

    // Returns whether the read of a string or a segment stops after a call that ended in this way. It counts errors.
    fn ends(&self, step: Drained, errors: &mut usize) -> bool {
        let is_error = matches!(step, Drained::Unread(_) | Drained::Unwritten);
        *errors = errors.saturating_add(usize::from(is_error));
        matches!(step, Drained::Ended) || self.stops(*errors)
    }

    // Counts a call that failed in a segment.
    fn sees(&mut self, step: Drained) {
        match step {
            Drained::Unread(stop) => add_planned(&mut self.seen.segments, stop),
            Drained::Unwritten => add_planned(&mut self.seen.writes, Stop::Planned),
            Drained::Ended | Drained::OutOfSizes => {}
        }
    }
}

// Requires that a call gave the expected answer. The message names the call and the trial: the failing call, the sizes
// and the rounds.
fn agrees(rt: &impl Abort, trial: &Trial<'_>, is_right: bool, what: &str) {
    let [one, two] = trial.sizes;
    let numbers = [trial.read.min(trial.write), one, two, trial.rounds];
    assert!(rt;
        is_right,
        "another {what} at {numbers:?} of {:?}",
        trial.bytes
    );
}

type Drain = Result<laws::Drained, RecodeError<DeviceFault, DeviceFault>>;

// Returns whether a drain ended as expected.
fn is_drained(drain: &Drain, want: Drained) -> bool {
    match want {
        Drained::Ended => matches!(drain, Ok(drained) if drained.end == End::Ended),
        Drained::OutOfSizes => matches!(drain, Ok(drained) if drained.end == End::OutOfSizes),
        Drained::Unread(stop) => {
            matches!(drain, Err(RecodeError::Read(error)) if is_stop(error, stop))
        }
        Drained::Unwritten => matches!(drain, Err(RecodeError::Write(DeviceFault::Planned))),
    }
}

// Reads a chunk into the first bytes of a space, which holds older chunks. It ends as a drain of that chunk does.
fn reads_chunk<K: StringKind>(
    rt: &impl Abort,
    segment: &mut Segment<'_, FailingReader<'_>, K>,
    body: &mut Body,
    run: &mut Run<'_>,
    space: &mut [u8; 64],
    size: usize,
) -> Drained {
    let buffer = &mut space[..size.min(64)];
    let due = body.pull(&mut run.tape, buffer.len());
    let is_right = K::gives(segment, buffer, &due);
    agrees(
        rt,
        &run.trial,
        is_right && segment.left() == body.left(),
        "chunk",
    );
    match due {
        Ok(Some(_)) => Drained::OutOfSizes,
        Ok(None) => Drained::Ended,
        Err(stop) => Drained::Unread(stop),
    }
}

// Returns the result of a drain of a plain reading, round by round.
fn due_drain(rt: &impl Abort, body: &mut Body, run: &mut Run<'_>) -> Drained {
    for _ in 0..run.trial.rounds {
        match body.drain(&mut run.tape, run.trial.sizes, &mut run.sink) {
            Ok(Drained::OutOfSizes) => {}
            Ok(drained) => return drained,
            Err(_) => panic!(rt; "no memory"),
        }
    }
    Drained::OutOfSizes
}

// Returns whether a drain of a segment ends as expected. The buffer has 4 bytes if no size is greater, and otherwise
// 64.
fn drains_as<K: StringKind>(
    rt: &impl Abort,
    segment: &mut Segment<'_, FailingReader<'_>, K>,
    trial: &Trial<'_>,
    writer: &mut Encoder<FailingWriter<'_>>,
    want: Drained,
) -> bool {
    let [one, two] = trial.sizes;
    let sizes = [one, two, one, two, one, two, one, two];
    let count = trial.rounds.min(4) * 2;
    let room = if one.max(two) <= 4 { 4 } else { 64 };
    let mut space = [0; 64];
    let drain = K::drains(rt, segment, &sizes[..count], &mut space[..room], writer);
    is_drained(&drain, want)
}

// Drains chunks.
fn drains_chunks<K: StringKind>(
    rt: &impl Abort,
    segment: &mut Segment<'_, FailingReader<'_>, K>,
    body: &mut Body,
    run: &mut Run<'_>,
    writer: &mut Encoder<FailingWriter<'_>>,
) -> Drained {
    let want = due_drain(rt, body, run);
    let is_right = drains_as(rt, segment, &run.trial, writer, want);
    agrees(
        rt,
        &run.trial,
        is_right && segment.left() == body.left(),
        "drain",
    );
    want
}

// Reads a segment in the way of the run, to its end, or to its second error.
fn reads_segment<K: StringKind>(
    rt: &impl Abort,
    segment: &mut Segment<'_, FailingReader<'_>, K>,
    mut body: Body,
    run: &mut Run<'_>,
    writer: &mut Encoder<FailingWriter<'_>>,
) {
    let mut space = [0; 64];
    let mut errors = 0usize;
    for call in 0..256usize {
        let step = if run.trial.rounds > 0 {
            drains_chunks(rt, segment, &mut body, run, writer)
        } else {
            let size = run.trial.sizes[call % 2];
            reads_chunk(rt, segment, &mut body, run, &mut space, size)
        };
        run.sees(step);
        if run.ends(step, &mut errors) {
            break;
        }
    }
}

// Returns whether a pull of a segment gives none, since the string has ended, or for this reason.
pub fn has_no_segment<K: StringKind>(
    segments: &mut Segments<'_, FailingReader<'_>, K>,
    want: Option<Stop>,
) -> bool {
    match segments.pull() {
        Ok(Some(_)) => false,
        Ok(None) => want.is_none(),
        Err(error) => matches!(want, Some(stop) if is_stop(&error, stop)),
    }
}

// Requires that a string has no further segment, since it has ended, or for this reason.
fn ends_string<K: StringKind>(
    rt: &impl Abort,
    segments: &mut Segments<'_, FailingReader<'_>, K>,
    run: &mut Run<'_>,
    want: Option<Stop>,
) -> Drained {
    let is_right = has_no_segment(segments, want);
    agrees(rt, &run.trial, is_right, "end of a string");
    match want {
        Some(stop) => {
            add_planned(&mut run.seen.strings, stop);
            Drained::Unread(stop)
        }
        None => Drained::Ended,
    }
}

// Reads the next segment of a string.
fn reads_next<K: StringKind>(
    rt: &impl Abort,
    segments: &mut Segments<'_, FailingReader<'_>, K>,
    walk: &mut Walk,
    run: &mut Run<'_>,
    writer: &mut Encoder<FailingWriter<'_>>,
) -> Drained {
    match walk.next(&mut run.tape) {
        Ok(Some(body)) => {
            reads_segment(rt, &mut next_segment(rt, segments), body, run, writer);
            Drained::OutOfSizes
        }
        Ok(None) => ends_string(rt, segments, run, None),
        Err(stop) => ends_string(rt, segments, run, Some(stop)),
    }
}

// Reads the string that a title begins, to its end, or to its second error.
fn reads_string<K: StringKind>(
    rt: &impl Abort,
    segments: &mut Segments<'_, FailingReader<'_>, K>,
    title: Title,
    run: &mut Run<'_>,
    writer: &mut Encoder<FailingWriter<'_>>,
) {
    let mut walk = Walk::new(title);
    let mut errors = 0usize;
    for _ in 0..256usize {
        let step = reads_next(rt, segments, &mut walk, run, writer);
        if run.ends(step, &mut errors) {
            break;
        }
    }
}

// Reads a title, and the string that it begins, if it does.
fn reads_title(
    rt: &impl Abort,
    decoder: &mut Decoder<FailingReader<'_>>,
    title: Title,
    run: &mut Run<'_>,
    writer: &mut Encoder<FailingWriter<'_>>,
) {
    let bytes = run.trial.bytes;
    match title.header() {
        Header::Text(length) => {
            let mut text = text_in(rt, decoder, length, bytes);
            reads_string(rt, &mut text, title, run, writer);
        }
        Header::Bytes(length) => {
            let mut string = bytes_in(rt, decoder, length, bytes);
            reads_string(rt, &mut string, title, run, writer);
        }
        header => agrees(rt, &run.trial, is_pulled(decoder, header), "title"),
    }
}

// Reads the next title, and the string that it begins, if it does. It returns whether no whole title was there.
fn reads_element(
    rt: &impl Abort,
    decoder: &mut Decoder<FailingReader<'_>>,
    run: &mut Run<'_>,
    writer: &mut Encoder<FailingWriter<'_>>,
) -> bool {
    match run.tape.title() {
        Ok(title) => {
            reads_title(rt, decoder, title, run, writer);
            false
        }
        Err(stop) => {
            agrees(
                rt,
                &run.trial,
                is_refused(decoder, stop),
                "fault of a title",
            );
            add_planned(&mut run.seen.titles, stop);
            stop == Stop::Short
        }
    }
}

// Reads title after title, and their strings, to the end of the bytes, or until the run stops.
fn reads_elements(
    rt: &impl Abort,
    decoder: &mut Decoder<FailingReader<'_>>,
    run: &mut Run<'_>,
    writer: &mut Encoder<FailingWriter<'_>>,
) {
    for _ in 0..256usize {
        let is_short = reads_element(rt, decoder, run, writer);
        agrees(
            rt,
            &run.trial,
            decoder.offset() == run.tape.offset(),
            "offset",
        );
        if run.stops(0) || is_short && run.tape.has_ended() {
            break;
        }
    }
}

// Returns whether a run ends as expected. The bytes that are left are all that were not read. The written bytes are
// those of a plain reading. A call failed exactly if the run saw a failure.
fn is_end(reading: (usize, usize, bool), writer: &FailingWriter<'_>, run: &Run<'_>) -> bool {
    let (offset, left, has_read_failed) = reading;
    let has_failed = has_read_failed || writer.has_failed();
    offset.saturating_add(left) == run.trial.bytes.len()
        && writer.written() == run.sink.taken()
        && has_failed == (run.seen != NOWHERE)
}

// Reads bytes by a reader that fails at one call, and a writer that fails at one. The answers, the offset, the bytes
// that are left and the written bytes are those of a plain reading. It returns how often those calls came, and under
// which calls.
fn reads(rt: &impl Abort, alloc: Global, trial: Trial<'_>) -> Seen {
    let mut space = [0; 64];
    let mut decoder = failing_decoder(Spelling::Any, trial.bytes, Failing::Call(trial.read));
    let mut encoder = failing_encoder(&mut space, Failing::Call(trial.write));
    let mut run = Run {
        trial,
        tape: Tape::new(trial.bytes, trial.read),
        sink: Sink::new(alloc, trial.write),
        seen: NOWHERE,
    };
    reads_elements(rt, &mut decoder, &mut run, &mut encoder);
    let is_right = is_end(reading_of(decoder), &encoder.into_inner(), &run);
    agrees(rt, &trial, is_right, "end");
    run.seen
}

const SIZES: [[usize; 2]; 6] = [[1, 4], [2, 5], [3, 4], [4, 4], [7, 7], [64, 64]];

const ROUNDS: [usize; 3] = [0, 1, 4];

// Adds up how often calls failed, by the calls under which they did.
fn add_seen(all: &mut Seen, seen: Seen) {
    all.titles = all.titles.saturating_add(seen.titles);
    all.strings = all.strings.saturating_add(seen.strings);
    all.segments = all.segments.saturating_add(seen.segments);
    all.writes = all.writes.saturating_add(seen.writes);
}

// Reads bytes with one failing call, once on from it and once up to it. Both reads see the same failures.
fn both_ways(rt: &impl Abort, alloc: Global, trial: Trial<'_>) -> Seen {
    let stops = Trial {
        goes_on: false,
        ..trial
    };
    let seen = reads(rt, alloc, trial);
    let is_same = reads(rt, alloc, stops) == seen;
    agrees(rt, &trial, is_same, "failure");
    seen
}

// Reads bytes with each call failing in turn, until none does, and adds up how often they failed.
fn each_fails(rt: &impl Abort, alloc: Global, plain: Trial<'_>, are_writes: bool) -> Seen {
    let mut all = NOWHERE;
    for call in 1..256usize {
        let trial = if are_writes {
            Trial {
                write: call,
                ..plain
            }
        } else {
            Trial {
                read: call,
                ..plain
            }
        };
        let seen = both_ways(rt, alloc, trial);
        if seen == NOWHERE {
            return all;
        }
        add_seen(&mut all, seen);
    }
    agrees(rt, &plain, false, "end of the calls");
    all
}

// Each call fails in turn under the strings of a sample: by buffers of all sizes, chunk by chunk and by drains of two
// and of eight chunks.
pub fn each_call_fails_under_strings(rt: &impl Abort, alloc: Global, hex: &str) {
    let mut space = [0; MOST];
    let bytes = decoded(rt, hex, &mut space);
    for rounds in ROUNDS {
        for sizes in SIZES {
            let trial = trial_of(bytes, sizes, rounds);
            let _ = each_fails(rt, alloc, trial, false);
            let _ = each_fails(rt, alloc, trial, true);
        }
    }
}

// Bytes, two sizes of buffers, and how many reads there are under a pull of a title, of a string and of a segment. The
// pull at the end counts too. The last number is that of the writes of a drain.
static ROWS: [(&[u8], [usize; 2], [usize; 4]); 12] = [
    (b"\x40", [4, 4], [2, 0, 0, 0]),
    (b"\x42\x01\x02", [4, 4], [2, 0, 1, 1]),
    (b"\x43\x01\x02\x03", [4, 4], [2, 0, 1, 1]),
    (b"\x5f\x5f\x58\x01\x01\xff\xff", [4, 4], [2, 5, 1, 1]),
    (b"\x60", [4, 4], [2, 0, 0, 0]),
    (b"\x62\xc3\xa9", [4, 4], [2, 0, 1, 1]),
    (b"\x64\xf0\x9f\x98\x80", [4, 4], [2, 0, 1, 1]),
    (b"\x6dHello, World!", [4, 4], [2, 0, 4, 4]),
    (
        b"\x7f\x62\xc3\xa9\x64\xf0\x9f\x98\x80\xff",
        [4, 4],
        [2, 3, 2, 2],
    ),
    (
        b"\x7f\x62\xc3\xa9\x64\xf0\x9f\x98\x80\xff",
        [1, 4],
        [2, 3, 4, 2],
    ),
    (b"\x78\x0dHello, World!", [7, 7], [3, 0, 2, 2]),
    (b"\x60\x40\xff", [7, 7], [4, 0, 0, 0]),
];

// Requires that the failing calls come this often over some bytes.
fn fails_so_often(rt: &impl Abort, alloc: Global, trial: Trial<'_>, counts: [usize; 4]) {
    let [titles, strings, segments, writes] = counts;
    let reads = Seen {
        titles,
        strings,
        segments,
        writes: 0,
    };
    let writes = Seen {
        writes: if trial.rounds > 0 { writes } else { 0 },
        ..NOWHERE
    };
    let are_reads = each_fails(rt, alloc, trial, false) == reads;
    let is_right = are_reads && each_fails(rt, alloc, trial, true) == writes;
    agrees(rt, &trial, is_right, "number of calls");
}

#[test]
fn the_calls_of_strings(rt: HostRuntime) {
    for &(bytes, sizes, counts) in &ROWS {
        for rounds in ROUNDS {
            fails_so_often(&rt, rt.alloc(), trial_of(bytes, sizes, rounds), counts);
        }
    }
}
