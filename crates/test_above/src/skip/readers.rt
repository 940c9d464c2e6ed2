use crate::shared::holds_at;
use crate::skip::answers::{Answer, NESTED, skipped};
use ciborium_ll::Decoder;
use std::process::Abort;
use test_support::devices::{EndlessReader, Failing, FailingReader};

// Returns the answer if the call of this number fails.
fn failed(failing: usize) -> Answer {
    let mut decoder = Decoder::from(FailingReader::new(&NESTED, Failing::Call(failing)));
    skipped(&mut decoder, 3)
}

// Each call moves one byte of the item.
#[test]
fn a_call_that_fails(rt: HostRuntime) {
    for failing in 1..=26usize {
        let want = if failing == 26 {
            Answer::Item(25)
        } else {
            Answer::Short(failing.saturating_sub(1))
        };
        assert!(rt; failed(failing) == want, "at {failing}");
    }
}

// Items, the call of the reader that fails under a skip on a strict decoder, and the offset after it. The bytes at this
// place are ones that a strict decoder refuses, and a second skip finds them.
static STRICT: [(&[u8], usize, usize, usize); 5] = [
    (&[0x18, 5], 1, 0, 0),
    (&[0x5f, 0x5f, 0xff, 0xff], 1, 0, 1),
    (&[0x82, 1, 0x18, 5], 3, 2, 2),
    (&[0x19, 0x5f, 0x58, 0, 0xff], 2, 1, 2),
    (&[0x5f, 0x42, 0x18, 5, 0xff], 3, 2, 2),
];

// Returns whether two skips on a strict decoder end at these places, if the call of this number fails.
fn goes_on(bytes: &[u8], failing: usize, offset: usize, place: usize) -> bool {
    let mut decoder = Decoder::strict(FailingReader::new(bytes, Failing::Call(failing)));
    skipped(&mut decoder, 3) == Answer::Short(offset)
        && skipped(&mut decoder, 3) == Answer::Syntax(place)
}

// A strict decoder is strict after a failure too.
#[test]
fn a_strict_decoder_goes_on(rt: HostRuntime) {
    for &(bytes, failing, offset, place) in &STRICT {
        holds_at(&rt, goes_on(bytes, failing, offset, place), bytes);
    }
}

// Skips an item of one byte that comes for ever, and compares the answer.
fn endless_row(rt: &impl Abort, byte: u8, want: Answer) {
    let mut decoder = Decoder::from(EndlessReader::new(byte));
    holds_at(rt, skipped(&mut decoder, 256) == want, &[byte]);
}

#[test]
fn a_reader_that_never_ends(rt: HostRuntime) {
    endless_row(&rt, 0x81, Answer::Deep(256));
    endless_row(&rt, 0x9f, Answer::Deep(256));
    endless_row(&rt, 0xbf, Answer::Deep(256));
    endless_row(&rt, 0xc0, Answer::Deep(256));
    endless_row(&rt, 0xff, Answer::Break(0));
    endless_row(&rt, 0, Answer::Item(1));
    endless_row(&rt, 0x41, Answer::Item(2));
}
