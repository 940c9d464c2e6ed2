use crate::calls::{self, StringKind, holds, next_segment, text_in};
use crate::copies::{Answer, Kind, Task, copies_plainly, copies_slice, is_fault};
use ciborium_ll::io::{EndOfFile, OutOfSpace, SliceReader, SliceWriter};
use ciborium_ll::laws::{Drained, End};
use ciborium_ll::{Decoder, Encoder, Error, RecodeError, Spelling, Text};
use std::alloc::Global;
use std::process::Abort;
use test_support::plain::Fault;

// Returns how a copy of an element ends through a buffer of this size, at most 64.
fn answer_by(rt: &impl Abort, spelling: Spelling, bytes: &[u8], size: usize) -> Answer {
    let mut space = [0; 64];
    let mut buffer = [0; 64];
    let mut decoder = calls::decoder(spelling, bytes);
    let mut encoder = calls::encoder(&mut space);
    copies_slice(rt, &mut decoder, &mut encoder, &mut buffer[..size.min(64)])
}

// Returns whether a copy through some buffer may end with this answer, if a plain reading has this fault. A body that
// is cut and damaged gives `Short`, or `Syntax` at its place, and at no other.
fn may_end(answer: Answer, want: Option<Fault>) -> bool {
    match answer {
        Answer::Syntax(place) if want == Some(Fault::ShortAndDamaged(place)) => true,
        _ => is_fault(answer, want),
    }
}

// Returns whether copies of an element through buffers of all sizes end as they may.
fn all_end(rt: &impl Abort, spelling: Spelling, bytes: &[u8], want: Option<Fault>) -> bool {
    may_end(answer_by(rt, spelling, bytes, 4), want)
        && may_end(answer_by(rt, spelling, bytes, 5), want)
        && may_end(answer_by(rt, spelling, bytes, 64), want)
}

// How many of some texts have a fault, and how many have one for a strict decoder.
#[derive(Clone, Copy)]
struct Wrong {
    texts: usize,
    strictly: usize,
}

// Compares the answers to a text, of one kind of decoders, with a plain reading. It returns how many faults that
// reading has: 0 or 1.
fn compares(rt: &impl Abort, alloc: Global, spelling: Spelling, bytes: &[u8]) -> usize {
    let kind = if spelling.is_shortest() {
        Kind::StrictElements
    } else {
        Kind::Elements
    };
    let task = Task {
        kind,
        count: 1,
        bytes,
    };
    let want = copies_plainly(rt, alloc, task, bytes.len()).fault;
    let is_right = all_end(rt, spelling, bytes, want);
    holds(rt, is_right, usize::from(spelling.is_shortest()), bytes);
    usize::from(want.is_some())
}

// Reads a text with each byte replaced by each other byte. Buffers of all sizes give the answer of a plain reading, and
// on a strict decoder that of a strict one. If a damaged body is cut, one buffer may find the damage, and another the
// end.
fn replaces_each_byte(rt: &impl Abort, alloc: Global, text: [u8; 10]) -> Wrong {
    let mut texts = 0usize;
    let mut strictly = 0usize;
    for index in 0..text.len() {
        for byte in 0..=u8::MAX {
            let mut bytes = text;
            bytes[index] = byte;
            texts = texts.saturating_add(compares(rt, alloc, Spelling::Any, &bytes));
            strictly = strictly.saturating_add(compares(rt, alloc, Spelling::Shortest, &bytes));
        }
    }
    Wrong { texts, strictly }
}

// Most texts are broken, and some are not, as after a letter replaces a letter.
#[test]
fn each_byte_is_replaced(rt: HostRuntime) {
    let two_bodies = [0x7f, 0x62, 0xc3, 0xa9, 0x64, 0xf0, 0x9f, 0x98, 0x80, 0xff];
    let wrong = replaces_each_byte(&rt, rt.alloc(), two_bodies);
    let is_right = wrong.texts > 2000 && wrong.texts < 2550;
    holds(&rt, is_right, wrong.texts, &two_bodies);
    // One more byte here makes a title longer, or turns a title into an open inside the string.
    let three_bodies = [0x7f, 0x61, 0x01, 0x60, 0x62, 0x01, 0x01, 0xff, 0xff, 0x00];
    let wrong = replaces_each_byte(&rt, rt.alloc(), three_bodies);
    holds(
        &rt,
        wrong.texts < wrong.strictly,
        wrong.texts,
        &three_bodies,
    );
}

// How a drain ended, and after how many calls or at which place.
#[derive(Clone, Copy)]
enum Ending {
    Ended(usize),
    OutOfSizes(usize),
    Damaged(usize),
    Wrong,
}

// Returns the ending of an outcome.
fn ending_of(outcome: Result<Drained, RecodeError<EndOfFile, OutOfSpace>>) -> Ending {
    match outcome {
        Ok(drained) if drained.end == End::OutOfSizes => Ending::OutOfSizes(drained.calls),
        Ok(drained) => Ending::Ended(drained.calls),
        Err(RecodeError::Read(Error::Syntax(place))) => Ending::Damaged(place),
        Err(_) => Ending::Wrong,
    }
}

// Returns whether a drain of a body by this many sizes may end in this way, with these bytes written and `left` bytes
// left.
fn is_right(ending: Ending, sizes: usize, body: &[u8], written: &[u8], left: usize) -> bool {
    let is_due = match ending {
        // No byte is lost: the bytes that were not handed out are left.
        Ending::OutOfSizes(calls) => {
            calls == sizes && written.len().saturating_add(left) == body.len()
        }
        Ending::Ended(calls) => calls <= sizes && written == body && left == 0,
        Ending::Damaged(place) => place == 0 && std::str::from_utf8(body).is_err(),
        Ending::Wrong => false,
    };
    is_due && body.starts_with(written) && std::str::from_utf8(written).is_ok()
}

// Drains a text, which is its title and this body, through buffers of these sizes, at most 4. It returns how the drain
// ends, and how many bytes are left.
fn drains_text_of(
    rt: &impl Abort,
    decoder: &mut Decoder<SliceReader<'_>>,
    body: &[u8],
    sizes: &[usize],
    sink: &mut Encoder<SliceWriter<'_>>,
) -> (Ending, usize) {
    let mut segments = text_in(rt, decoder, Some(body.len()), body);
    let mut segment = next_segment(rt, &mut segments);
    let ending = ending_of(Text::drains(rt, &mut segment, sizes, &mut [0; 4], sink));
    (ending, segment.left())
}

// Returns whether a drain of a text of a short length through buffers of these sizes writes what it may, and leaves the
// rest.
fn drains_as_due(rt: &impl Abort, bytes: &[u8], sizes: &[usize]) -> bool {
    let mut space = [0; 16];
    let body = bytes.get(1..).unwrap_or(&[]);
    let mut decoder = calls::decoder(Spelling::Any, bytes);
    let mut sink = calls::encoder(&mut space);
    let (ending, left) = drains_text_of(rt, &mut decoder, body, sizes, &mut sink);
    is_right(ending, sizes.len(), body, sink.into_inner().written(), left)
}

// Drains a text through buffers of these sizes.
fn drains(rt: &impl Abort, bytes: &[u8], sizes: &[usize]) {
    let is_right = drains_as_due(rt, bytes, sizes);
    assert!(rt; is_right, "{bytes:?} by {sizes:?}");
}

// Drains a text by each list of five sizes from 0 to 3: the digits of a number by 4.
fn by_small_buffers(rt: &impl Abort, text: &[u8]) {
    for number in 0..1024usize {
        let sizes = [
            number % 4,
            number / 4 % 4,
            number / 16 % 4,
            number / 64 % 4,
            number / 256 % 4,
        ];
        drains(rt, text, &sizes);
    }
}

static TEXTS: [&[u8]; 9] = [
    b"\x60",
    b"\x61a",
    b"\x63abc",
    b"\x62\xc3\xa9",
    b"\x64\xf0\x9f\x98\x80",
    b"\x66a\xe2\x82\xacbc",
    b"\x62a\xff",
    b"\x63\xe2\x82a",
    b"\x65\xff\xff\xff\xffa",
];

#[test]
fn buffers_that_hold_no_character(rt: HostRuntime) {
    for text in &TEXTS {
        by_small_buffers(&rt, text);
        // With room for a character the drain finds the end.
        drains(&rt, text, &[4, 4, 4, 4, 4, 4]);
    }
}
