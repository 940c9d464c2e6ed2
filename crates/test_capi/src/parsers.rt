// The calls of a parser, each once for each of its answers, by bytes and numbers from outside.

use crate::told::{is_told, nothing, told};
use capi::{
    CllAnswer, CllEvent, CllHeader, CllParser, cll_parser_end, cll_parser_init,
    cll_parser_init_strict, cll_parser_push,
};
use cbor_parser::Parser;
use std::process::Abort;

// Memory that holds no parser.
fn no_parser() -> CllParser {
    CllParser {
        mark: 0,
        state: Parser::new().save(),
    }
}

// Memory that holds a parser.
fn some_parser(strict: bool) -> CllParser {
    let mut parser = no_parser();
    let _ = if strict {
        cll_parser_init_strict(&mut parser)
    } else {
        cll_parser_init(&mut parser)
    };
    parser
}

// An event whose numbers are all 7.
fn sevens() -> CllEvent {
    CllEvent {
        consumed: 7,
        place: 7,
        left: 7,
        header: CllHeader {
            value: 7,
            kind: 7,
            indefinite: 7,
        },
        kind: 7,
        carried_len: 7,
        carried: [7; 3],
    }
}

// A piece, the answer, how many bytes are taken, the place and what is left, the kind, the kind, form and value of the
// header, and the bytes carried. A piece may have more bytes than are taken. The next piece begins with these.
type Step = (
    &'static [u8],
    CllAnswer,
    [u64; 3],
    u8,
    (u8, u8, u64),
    &'static [u8],
);

const NONE: (u8, u8, u64) = (0, 0, 0);

static STEPS: [Step; 15] = [
    (&[], CllAnswer::Short, [0, 1, 0], 0, NONE, &[]),
    (
        &[0x82, 0x19, 0x01],
        CllAnswer::Ok,
        [1, 0, 0],
        1,
        (4, 0, 2),
        &[],
    ),
    (&[0x19, 0x01], CllAnswer::Short, [2, 1, 0], 0, NONE, &[]),
    (&[0x00, 0x63], CllAnswer::Ok, [1, 1, 0], 1, (0, 0, 256), &[]),
    (
        &[0x63, 0x61, 0xc3],
        CllAnswer::Ok,
        [1, 4, 0],
        1,
        (3, 0, 3),
        &[],
    ),
    (&[0x61, 0xc3], CllAnswer::Ok, [1, 0, 2], 4, NONE, &[]),
    (&[0xc3], CllAnswer::Short, [1, 1, 0], 0, NONE, &[]),
    (&[0xa4, 0x05], CllAnswer::Ok, [1, 0, 0], 4, NONE, &[0xc3]),
    (
        &[0x44, 0x01, 0x02],
        CllAnswer::Ok,
        [1, 8, 0],
        1,
        (2, 0, 4),
        &[],
    ),
    (&[0x01, 0x02], CllAnswer::Ok, [2, 0, 2], 3, NONE, &[]),
    (&[0x03, 0x04, 0x05], CllAnswer::Ok, [2, 0, 0], 3, NONE, &[]),
    (&[0x5f, 0xff], CllAnswer::Ok, [1, 13, 0], 1, (2, 1, 0), &[]),
    (&[0xff], CllAnswer::Ok, [1, 14, 0], 2, (11, 0, 0), &[]),
    (&[0x1d, 0x00], CllAnswer::Syntax, [1, 15, 0], 0, NONE, &[]),
    (&[0x00], CllAnswer::Syntax, [0, 15, 0], 0, NONE, &[]),
];

// Returns whether a push answers so.
fn is_step(parser: &mut CllParser, step: &Step) -> bool {
    let (piece, answer, numbers, kind, (header, form, value), carried) = step;
    let mut event = sevens();
    let code = cll_parser_push(parser, piece, &mut event);
    let mut bytes = [0; 3];
    let len = carried.len().min(3);
    bytes[..len].copy_from_slice(&carried[..len]);
    let parts = (
        event.header.kind,
        event.header.indefinite,
        event.header.value,
    );
    code == answer.code()
        && [event.consumed, event.place, event.left] == *numbers
        && event.kind == *kind
        && parts == (*header, *form, *value)
        && usize::from(event.carried_len) == len
        && event.carried == bytes
}

#[test]
fn pieces(rt: HostRuntime) {
    let mut parser = some_parser(false);
    for step in &STEPS {
        assert!(rt; is_step(&mut parser, step), "at {:?}", step.0);
    }
    assert!(rt; is_end(&parser, CllAnswer::Syntax, 15));
}

// Returns whether an end answers so.
fn is_end(parser: &CllParser, answer: CllAnswer, place: u64) -> bool {
    let mut report = nothing();
    let code = cll_parser_end(parser, &mut report);
    is_told(&told(code, &report), answer, [0, 0, place])
}

// Bytes of a single piece, whether the parser is strict, and the answer at their end with its place.
static ENDS: [(&[u8], bool, CllAnswer, u64); 9] = [
    (&[], false, CllAnswer::Ok, 0),
    (&[0x82], false, CllAnswer::Ok, 0),
    (&[0x5f], false, CllAnswer::Short, 1),
    (&[0x19], false, CllAnswer::Short, 2),
    (&[0x44], false, CllAnswer::Short, 4),
    (&[0x18, 0x01], false, CllAnswer::Ok, 0),
    (&[0x18, 0x01], true, CllAnswer::Syntax, 0),
    (&[0x18, 0x18], true, CllAnswer::Ok, 0),
    (&[0x1c], false, CllAnswer::Syntax, 0),
];

// Pushes bytes whose event ends with them.
fn end_row(rt: &impl Abort, bytes: &[u8], strict: bool, answer: CllAnswer, place: u64) {
    let mut parser = some_parser(strict);
    let mut event = sevens();
    let _ = cll_parser_push(&mut parser, bytes, &mut event);
    assert!(rt; is_end(&parser, answer, place), "after {bytes:?}");
}

#[test]
fn ends(rt: HostRuntime) {
    for &(bytes, strict, answer, place) in &ENDS {
        end_row(&rt, bytes, strict, answer, place);
    }
}

// Returns whether memory that holds no parser is refused.
fn is_refused(parser: &mut CllParser) -> bool {
    let step = (
        &[0x05u8][..],
        CllAnswer::Argument,
        [0, 0, 0],
        0,
        NONE,
        &[][..],
    );
    is_step(parser, &step) && is_end(parser, CllAnswer::Argument, 0)
}

// Memory that never held a parser, or holds none any more.
#[test]
fn no_parsers(rt: HostRuntime) {
    let mut parser = no_parser();
    assert!(rt; is_refused(&mut parser));
    assert!(rt; cll_parser_init(&mut parser) == 0);
    parser.state.kept_len = 10;
    assert!(rt; is_refused(&mut parser));
    parser.state.kept_len = 0;
    assert!(rt; is_end(&parser, CllAnswer::Ok, 0));
}

// A parser that took all but one of the bytes that it can count.
#[test]
fn lengths(rt: HostRuntime) {
    let mut parser = some_parser(false);
    parser.state.offset = u64::MAX - 1;
    let step = (
        &[0x00u8, 0x01][..],
        CllAnswer::TooLong,
        [0, 0, 0],
        0,
        NONE,
        &[][..],
    );
    assert!(rt; is_step(&mut parser, &step));
    let last = (
        &[0x00u8][..],
        CllAnswer::Ok,
        [1, u64::MAX - 1, 0],
        1,
        NONE,
        &[][..],
    );
    assert!(rt; is_step(&mut parser, &last));
    assert!(rt; is_step(&mut parser, &step));
}
