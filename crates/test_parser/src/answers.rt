// The answers to single pieces.

use crate::shared::{MOST, add_bytes, decoded, holds};
use cbor_parser::{Event, Parser, Saved};
use std::alloc::{AllocError, Global};

// Pieces, one after another, with how many bytes were taken and the event. A piece may have more bytes than are taken.
// The next piece begins with these.
static STEPS: [(&str, &str); 15] = [
    ("", "0 need 1"),
    ("821901", "1 header Array(Some(2)) at 0"),
    ("1901", "2 need 1"),
    ("", "0 need 1"),
    ("0063", "1 header Positive(256) at 1"),
    ("6361c3", "1 header Text(Some(3)) at 4"),
    ("61c3", "1 text , left 2"),
    ("c3", "1 need 1"),
    ("a405", "1 text c3, left 0"),
    ("440102", "1 header Bytes(Some(4)) at 8"),
    ("0102", "2 body, left 2"),
    ("030405", "2 body, left 0"),
    ("1d00", "1 fault 13"),
    ("00", "0 fault 13"),
    ("", "0 fault 13"),
];

// The answer to a piece, as a line.
fn answer(alloc: Global, parser: &mut Parser, bytes: &[u8]) -> Result<String, AllocError> {
    let mut text = String::new(alloc);
    let pushed = parser.push(bytes);
    let taken = pushed.taken;
    match pushed.event {
        Event::Need(due) => write!(&mut text, "{taken} need {due}")?,
        Event::Header { header, offset } => {
            write!(&mut text, "{taken} header {header:?} at {offset}")?
        }
        Event::Close { offset } => write!(&mut text, "{taken} close at {offset}")?,
        Event::Body { left } => write!(&mut text, "{taken} body, left {left}")?,
        Event::Text { carried, left } => {
            write!(&mut text, "{taken} text ")?;
            add_bytes(&mut text, carried.bytes())?;
            write!(&mut text, ", left {left}")?
        }
        Event::Fault(place) => write!(&mut text, "{taken} fault {place}")?,
        Event::TooLong => write!(&mut text, "{taken} too long")?,
    }
    Ok(text)
}

// Whether the answer to a piece is this one.
fn is_answer(alloc: Global, parser: &mut Parser, digits: &str, want: &str) -> bool {
    let mut space = [0; MOST];
    let Some(bytes) = decoded(digits, &mut space) else {
        return false;
    };
    match answer(alloc, parser, bytes) {
        Ok(text) => text.as_str() == want,
        Err(_) => false,
    }
}

#[test]
fn pieces(rt: HostRuntime) {
    let mut parser = Parser::new();
    for &(digits, want) in &STEPS {
        holds(&rt, is_answer(rt.alloc(), &mut parser, digits, want), want);
    }
    holds(&rt, parser.offset() == 14, "fourteen bytes");
    holds(&rt, parser.due() == 0, "nothing is due after a fault");
    holds(&rt, !parser.is_between(), "a fault is no end");
}

// Three pieces, and what the answer to the last one shows.
static SHOWN: [([&[u8]; 3], &str); 6] = [
    ([&[], &[], &[]], "Pushed { taken: 0, event: Need(1) }"),
    (
        [&[], &[], &[0x82]],
        "Pushed { taken: 1, event: Header { header: Array(Some(2)), offset: 0 } }",
    ),
    (
        [&[], &[0x5f], &[0xff]],
        "Pushed { taken: 1, event: Close { offset: 1 } }",
    ),
    (
        [&[], &[0x42], &[0x05]],
        "Pushed { taken: 1, event: Body { left: 1 } }",
    ),
    (
        [&[0x62], &[0xc3], &[0xa4]],
        "Pushed { taken: 1, event: Text { carried: [195], left: 0 } }",
    ),
    ([&[], &[], &[0x1c]], "Pushed { taken: 1, event: Fault(0) }"),
];

// The answer to the last of three pieces, as it shows itself.
fn shown(alloc: Global, pieces: &[&[u8]; 3]) -> Result<String, AllocError> {
    let mut text = String::new(alloc);
    let mut parser = Parser::new();
    let _ = parser.push(pieces[0]);
    let _ = parser.push(pieces[1]);
    let pushed = parser.push(pieces[2]);
    write!(&mut text, "{pushed:?}")?;
    Ok(text)
}

// Whether it shows itself so.
fn is_shown(alloc: Global, pieces: &[&[u8]; 3], want: &str) -> bool {
    match shown(alloc, pieces) {
        Ok(text) => text.as_str() == want,
        Err(_) => false,
    }
}

#[test]
fn answers_show_themselves(rt: HostRuntime) {
    for (pieces, want) in &SHOWN {
        holds(&rt, is_shown(rt.alloc(), pieces, want), want);
    }
}

#[test]
fn breaks(rt: HostRuntime) {
    let mut parser = Parser::new();
    holds(
        &rt,
        is_answer(rt.alloc(), &mut parser, "5fff", "1 header Bytes(None) at 0"),
        "an open",
    );
    holds(
        &rt,
        is_answer(rt.alloc(), &mut parser, "ffff", "1 close at 1"),
        "its break",
    );
    holds(
        &rt,
        is_answer(rt.alloc(), &mut parser, "ff", "1 header Break at 2"),
        "another break",
    );
}

#[test]
fn questions(rt: HostRuntime) {
    let mut parser = Parser::strict();
    holds(&rt, parser.offset() == 0 && parser.due() == 1, "no byte");
    holds(&rt, parser.is_between(), "no byte is an end");
    holds(
        &rt,
        is_answer(rt.alloc(), &mut parser, "1b00", "2 need 7"),
        "a title",
    );
    holds(
        &rt,
        parser.offset() == 2 && parser.due() == 7,
        "seven bytes are due",
    );
    holds(&rt, !parser.is_between(), "a title goes on");
}

// Whether the numbers are those of a parser.
fn is_restored(saved: Saved) -> bool {
    Parser::restore(saved).is_some()
}

#[test]
fn numbers(rt: HostRuntime) {
    let fresh = Parser::new().save();
    holds(&rt, is_restored(fresh), "a new parser");
    let mut no_phase = fresh;
    no_phase.phase = 0;
    holds(&rt, !is_restored(no_phase), "no phase");
    let mut no_bytes = fresh;
    no_bytes.phase = 2;
    holds(&rt, !is_restored(no_bytes), "a body without bytes");
    let mut whole = fresh;
    whole.kept_len = 1;
    holds(&rt, !is_restored(whole), "a title that is whole");
    whole.kept[0] = 0x19;
    holds(&rt, is_restored(whole), "a title that is not whole");
    let mut long = fresh;
    long.kept_len = 10;
    holds(&rt, !is_restored(long), "ten bytes of a title");
    let mut open = fresh;
    open.strings = 1;
    holds(&rt, !is_restored(open), "an open string without a byte");
    open.offset = 1;
    holds(&rt, is_restored(open), "an open string of one byte");
    let mut spelled = fresh;
    spelled.strict = 2;
    holds(&rt, !is_restored(spelled), "no spelling");
}

#[test]
fn lengths(rt: HostRuntime) {
    let mut saved = Parser::new().save();
    saved.offset = u64::MAX - 1;
    let Some(mut parser) = Parser::restore(saved) else {
        return holds(&rt, false, "a great offset");
    };
    holds(
        &rt,
        is_answer(rt.alloc(), &mut parser, "0001", "0 too long"),
        "two bytes",
    );
    holds(
        &rt,
        is_answer(
            rt.alloc(),
            &mut parser,
            "00",
            "1 header Positive(0) at 18446744073709551614",
        ),
        "the last byte",
    );
    holds(
        &rt,
        is_answer(rt.alloc(), &mut parser, "00", "0 too long"),
        "one byte more",
    );
    holds(&rt, parser.offset() == usize::MAX, "the greatest offset");
}
