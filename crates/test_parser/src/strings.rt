// Titles within strings of indefinite length, and titles that a spelling takes.

use crate::shared::holds;
use cbor_parser::strings::Within;
use cbor_parser::title::taken_header;
use ciborium_ll_grammar::hdr::Header;
use ciborium_ll_grammar::hdr::table::{TitleKind, row_of};
use ciborium_ll_grammar::spelling::Spelling;

// The strings that are open before and after a title of one byte, by their numbers, and whether the spelling is the
// shortest. No numbers: the title may not stand there.
static TITLES: [(u8, usize, u8, bool, Option<(u8, usize)>); 14] = [
    (0, 0, 0x82, false, Some((0, 0))),
    (0, 0, 0xff, false, Some((0, 0))),
    (0, 0, 0x5f, true, Some((1, 0))),
    (0, 0, 0x7f, true, Some((2, 0))),
    (1, 0, 0x41, true, Some((1, 0))),
    (1, 0, 0x5f, false, Some((1, 1))),
    (1, 0, 0x5f, true, None),
    (1, 0, 0x61, false, None),
    (1, 0, 0x01, false, None),
    (1, 0, 0xff, true, Some((0, 0))),
    (1, 1, 0xff, false, Some((1, 0))),
    (2, 1, 0x61, false, Some((2, 1))),
    (2, 1, 0xff, false, Some((2, 0))),
    (2, 0, 0x41, false, None),
];

// More strings than a row has.
const MOST_OPEN: usize = 3;

// The header of a title of one byte.
fn header_of(title: u8, spelling: Spelling) -> Option<Header> {
    if row_of(title).affix.len() > 0 {
        return None;
    }
    taken_header(&[title], spelling)
}

// Whether these strings are open after the title.
fn is_after(kind: u8, more: usize, title: u8, strict: bool, want: Option<(u8, usize)>) -> bool {
    let spelling = Spelling::shortest_if(strict);
    let (Some(within), Some(header)) = (Within::of(kind, more), header_of(title, spelling)) else {
        return false;
    };
    if !within.is_counted(MOST_OPEN) {
        return false;
    }
    match (within.after(spelling, header), want) {
        (Some(after), Some((strings, left))) => {
            let (kind, more) = after.numbers();
            kind == strings && more == left
        }
        (None, None) => true,
        _ => false,
    }
}

#[test]
fn titles(rt: HostRuntime) {
    for (kind, more, title, strict, want) in &TITLES {
        holds(
            &rt,
            is_after(*kind, *more, *title, *strict, *want),
            "a title",
        );
    }
}

// Whether a title of this kind is blocked within strings of this number.
fn is_blocked(number: u8, kind: TitleKind) -> bool {
    match Within::of(number, 0) {
        Some(within) => within.blocks(kind),
        None => false,
    }
}

#[test]
fn kinds(rt: HostRuntime) {
    holds(&rt, !is_blocked(0, TitleKind::Map), "a map in no string");
    holds(&rt, !is_blocked(1, TitleKind::Bytes), "bytes in bytes");
    holds(&rt, is_blocked(1, TitleKind::Text), "a text in bytes");
    holds(&rt, !is_blocked(2, TitleKind::Text), "a text in a text");
    holds(
        &rt,
        is_blocked(2, TitleKind::Positive),
        "a number in a text",
    );
    holds(&rt, Within::of(3, 0).is_none(), "no kind");
}

#[test]
fn spelled(rt: HostRuntime) {
    let strict = Spelling::Shortest;
    holds(
        &rt,
        taken_header(&[0x18, 0x17], Spelling::Any).is_some(),
        "23 in two bytes",
    );
    holds(
        &rt,
        taken_header(&[0x18, 0x17], strict).is_none(),
        "a longer title",
    );
    holds(&rt, taken_header(&[0x18, 0x18], strict).is_some(), "24");
    holds(
        &rt,
        taken_header(&[0xf8, 0x18], strict).is_none(),
        "a small simple value",
    );
    holds(
        &rt,
        taken_header(&[0x1c], Spelling::Any).is_none(),
        "no title",
    );
}
