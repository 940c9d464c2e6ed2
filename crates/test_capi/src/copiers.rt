// The calls of a copier, each once for each of its answers, by bytes and numbers from outside.

use crate::told::{Told, in_front, is_told, nothing, told};
use capi::{
    CllAnswer, CllCopier, cll_copier_end, cll_copier_feed, cll_copier_init, cll_copier_init_strict,
};
use cbor_copier::Copier;
use std::process::Abort;

// Memory that holds no copier.
fn no_copier() -> CllCopier {
    CllCopier {
        mark: 0,
        state: Copier::new(1).save(),
    }
}

// Feeds memory with room for `room` bytes, and returns the results and the 16 bytes of the output.
fn fed_once(copier: &mut CllCopier, bytes: &[u8], room: usize) -> (Told, [u8; 16]) {
    let mut report = nothing();
    let mut out = [0xee; 16];
    let code = cll_copier_feed(copier, bytes, &mut out[..room.min(16)], &mut report);
    (told(code, &report), out)
}

// Returns the results of an end over memory.
fn ended(copier: &CllCopier) -> Told {
    let mut report = nothing();
    let code = cll_copier_end(copier, &mut report);
    told(code, &report)
}

// Two pieces, the room, the answers to the second piece and to the end, how many bytes of the second were consumed, the
// place, and its output.
type Row = (
    &'static [u8],
    &'static [u8],
    usize,
    CllAnswer,
    u64,
    u64,
    &'static [u8],
);

// Compares the results of a copier of two elements for two pieces and the end, and the output of the second piece.
fn fed_row(rt: &impl Abort, row: &Row) {
    let (first, second, room, answer, consumed, place, want) = row;
    let mut copier = no_copier();
    let _ = cll_copier_init(&mut copier, 2);
    let _ = fed_once(&mut copier, first, *room);
    let (piece, out) = fed_once(&mut copier, second, *room);
    let is_piece = is_told(&piece, *answer, [*consumed, want.len() as u64, *place]);
    let is_end = is_told(&ended(&copier), *answer, [0, 0, *place]);
    let is_right = is_piece && is_end && out == in_front(want);
    assert!(rt; is_right, "at {second:?}");
}

static ROWS: [Row; 9] = [
    (
        &[0x05],
        &[0x18, 0x06, 0x07],
        16,
        CllAnswer::Ok,
        2,
        0,
        &[0x06],
    ),
    (
        &[0x05, 0x19, 0x00],
        &[0x20],
        16,
        CllAnswer::Ok,
        1,
        0,
        &[0x18, 0x20],
    ),
    (&[0x05, 0x06], &[0x07], 16, CllAnswer::Ok, 0, 0, &[]),
    (
        &[0x62, 0xc3],
        &[0xa9],
        16,
        CllAnswer::Short,
        1,
        0,
        &[0xc3, 0xa9],
    ),
    (&[0x62, 0xc3], &[], 16, CllAnswer::Short, 0, 0, &[]),
    (
        &[0x19, 0x03],
        &[0xe8, 0x05],
        2,
        CllAnswer::Room,
        1,
        0,
        &[0x19, 0x03],
    ),
    (&[0x05, 0x1c], &[0x05], 16, CllAnswer::Syntax, 0, 1, &[]),
    (
        &[0x78, 0x02, 0xc3],
        &[0x28],
        16,
        CllAnswer::Syntax,
        1,
        1,
        &[],
    ),
    (
        &[0x5f, 0x41],
        &[0x01, 0x61],
        16,
        CllAnswer::Syntax,
        2,
        3,
        &[0x01],
    ),
];

#[test]
fn copiers(rt: HostRuntime) {
    for row in &ROWS {
        fed_row(&rt, row);
    }
}

// Returns whether a strict copier of two elements, of which one came, answers so to some bytes.
fn is_strict_at(bytes: &[u8], answer: CllAnswer, numbers: [u64; 3]) -> bool {
    let mut copier = no_copier();
    let _ = cll_copier_init_strict(&mut copier, 2);
    let _ = fed_once(&mut copier, &[0x05], 16);
    is_told(&fed_once(&mut copier, bytes, 16).0, answer, numbers)
}

// A strict copier takes the shortest titles alone, and no open within a string.
#[test]
fn strict_copiers(rt: HostRuntime) {
    assert!(rt; is_strict_at(&[0x18, 0x18, 0x07], CllAnswer::Ok, [2, 2, 0]));
    assert!(rt; is_strict_at(&[0x18, 0x17], CllAnswer::Syntax, [2, 0, 1]));
    assert!(rt; is_strict_at(&[0x1a, 0x00, 0x00, 0x01], CllAnswer::Syntax, [3, 0, 1]));
    assert!(rt; is_strict_at(&[0x5f, 0x5f], CllAnswer::Syntax, [2, 1, 2]));
}

// Memory that never held a copier, or holds none any more.
#[test]
fn no_copiers(rt: HostRuntime) {
    let mut copier = no_copier();
    assert!(rt; is_refused(&mut copier));
    assert!(rt; is_told(&ended(&copier), CllAnswer::Argument, [0, 0, 0]));
    assert!(rt; cll_copier_init(&mut copier, 1) == 0);
    copier.state.front_len = 10;
    assert!(rt; is_refused(&mut copier));
    copier.state.front_len = 0;
    let (told, out) = fed_once(&mut copier, &[0x05], 16);
    assert!(rt; is_told(&told, CllAnswer::Ok, [1, 1, 0]) && out[0] == 0x05);
}

// Returns whether a feed refuses memory that holds no copier, and writes nothing.
fn is_refused(copier: &mut CllCopier) -> bool {
    let (told, out) = fed_once(copier, &[0x05], 16);
    is_told(&told, CllAnswer::Argument, [0, 0, 0]) && out == [0xee; 16]
}
