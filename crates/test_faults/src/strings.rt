use crate::calls::{
    Due, StringKind, all_hold, bytes_in, failing_decoder, holds, next_segment, text_in,
};
use crate::segments::has_no_segment;
use ciborium_ll::{Spelling, Text};
use std::process::Abort;
use test_support::devices::Failing;
use test_support::tape::Stop;

// If the affix of a segment's title was not read, its first byte is lost, and the next call reads on after it.
#[test]
fn an_affix_fails_in_a_string(rt: HostRuntime) {
    let bytes = [0x5f, 0x58, 2, 1, 2, 0xff];
    let mut decoder = failing_decoder(Spelling::Any, &bytes, Failing::Call(3));
    let mut segments = bytes_in(&rt, &mut decoder, None, &bytes);
    let is_unread = has_no_segment(&mut segments, Some(Stop::Planned));
    let is_damaged = has_no_segment(&mut segments, Some(Stop::Syntax(2)));
    all_hold(&rt, 3, &[is_unread, is_damaged, decoder.offset() == 3]);
}

// The size of a buffer, at most 4, the answer of a pull of a chunk by it, and how many bytes are left then.
type Step = (usize, Due<'static>, usize);

// Reads a text of two bytes step by step.
fn text_row(rt: &impl Abort, bytes: &[u8], failing: Failing, steps: &[Step]) {
    let mut decoder = failing_decoder(Spelling::Any, bytes, failing);
    let mut segments = text_in(rt, &mut decoder, Some(2), bytes);
    let mut segment = next_segment(rt, &mut segments);
    let mut space = [0; 4];
    for (number, (size, want, left)) in steps.iter().enumerate() {
        let buffer = &mut space[..(*size).min(4)];
        let is_right = Text::gives(&mut segment, buffer, want) && segment.left() == *left;
        holds(rt, is_right, number, bytes);
    }
}

// The reader fails at its third call. That call keeps the byte of the character that the call before it cut, and the
// bytes that were not read.
static FAILED: [Step; 4] = [
    (1, Ok(Some(b"")), 2),
    (4, Err(Stop::Planned), 2),
    (4, Ok(Some(b"\xc3\xa9")), 0),
    (4, Ok(None), 0),
];

// The reader fails at each call that moves no byte. A segment cannot continue if its buffer is empty or kept bytes fill
// it, and makes a call of no bytes then.
static WAITING: [Step; 5] = [
    (0, Err(Stop::Planned), 2),
    (1, Ok(Some(b"")), 2),
    (1, Err(Stop::Planned), 2),
    (4, Ok(Some(b"\xc3\xa9")), 0),
    (0, Ok(None), 0),
];

#[test]
fn a_segment_whose_reader_fails(rt: HostRuntime) {
    text_row(&rt, b"\x62\xc3\xa9", Failing::Call(3), &FAILED);
    text_row(&rt, b"\x78\x02\xc3\xa9", Failing::Empty, &WAITING);
}
