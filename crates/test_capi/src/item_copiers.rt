// The calls of a copier of items, each once for each of its answers, by bytes and numbers from outside.

use crate::told::{Told, in_front, is_told, nothing, told};
use capi::{
    CllAnswer, CllItemCopier, cll_item_copier_end, cll_item_copier_feed, cll_item_copier_init,
    cll_item_copier_init_strict,
};
use cbor_item_copier::Snapshot;
use std::process::Abort;

// Memory that holds no copier.
fn no_copier() -> CllItemCopier {
    CllItemCopier {
        mark: 0,
        state: Snapshot::new(),
    }
}

// Feeds memory with room for `room` bytes, and returns the results and the 16 bytes of the output.
fn fed_once(copier: &mut CllItemCopier, bytes: &[u8], room: usize) -> (Told, [u8; 16]) {
    let mut report = nothing();
    let mut out = [0xee; 16];
    let code = cll_item_copier_feed(copier, bytes, &mut out[..room.min(16)], &mut report);
    (told(code, &report), out)
}

// Returns the results of an end over memory.
fn ended(copier: &CllItemCopier) -> Told {
    let mut report = nothing();
    let code = cll_item_copier_end(copier, &mut report);
    told(code, &report)
}

// Two pieces, the room, the answers to the second piece and to the end, how many bytes of the second were consumed, the
// place, and its output.
type Row = (
    &'static [u8],
    &'static [u8],
    usize,
    CllAnswer,
    u64,
    u64,
    &'static [u8],
);

// Compares the results of a copier of any spelling, to a depth of 1, for two pieces and the end, and the output of the
// second piece. The end of an item has no place.
fn fed_row(rt: &impl Abort, row: &Row) {
    let (first, second, room, answer, consumed, place, want) = row;
    let mut copier = no_copier();
    let _ = cll_item_copier_init(&mut copier, 1);
    let _ = fed_once(&mut copier, first, *room);
    let (piece, out) = fed_once(&mut copier, second, *room);
    let is_piece = is_told(&piece, *answer, [*consumed, want.len() as u64, *place]);
    let behind = if *answer == CllAnswer::Ok { 0 } else { *place };
    let is_end = is_told(&ended(&copier), *answer, [0, 0, behind]);
    let is_right = is_piece && is_end && out == in_front(want);
    assert!(rt; is_right, "at {second:?}");
}

static ROWS: [Row; 6] = [
    (
        &[0x98, 0x01],
        &[0x18, 0x06, 0x07],
        8,
        CllAnswer::Ok,
        2,
        4,
        &[0x06],
    ),
    (&[0x81, 0x19], &[0x00], 8, CllAnswer::Short, 1, 1, &[]),
    (
        &[0x81, 0x19],
        &[0x03, 0xe8],
        2,
        CllAnswer::Room,
        2,
        0,
        &[0x19, 0x03],
    ),
    (
        &[0x81, 0x62],
        &[0xc3, 0x28],
        8,
        CllAnswer::Syntax,
        2,
        1,
        &[],
    ),
    (&[0x82, 0x05], &[0xff], 8, CllAnswer::BreakDue, 1, 2, &[]),
    (&[0x82, 0x05], &[0x80], 8, CllAnswer::TooDeep, 1, 2, &[]),
];

#[test]
fn item_copiers(rt: HostRuntime) {
    for row in &ROWS {
        fed_row(&rt, row);
    }
}

// Memory that holds no copier, a depth that is too great, and a copier that takes only the shortest spelling.
#[test]
fn other_item_copiers(rt: HostRuntime) {
    let mut copier = no_copier();
    let (told, out) = fed_once(&mut copier, &[0x05], 8);
    let is_refused = is_told(&told, CllAnswer::Argument, [0, 0, 0]);
    assert!(rt; is_refused && out == [0xee; 16]);
    assert!(rt; is_told(&ended(&copier), CllAnswer::Argument, [0, 0, 0]));
    let code = cll_item_copier_init(&mut copier, 257);
    assert!(rt; code == CllAnswer::Argument.code() && copier.mark == 0);
    assert!(rt; cll_item_copier_init_strict(&mut copier, 256) == 0);
    let (told, _) = fed_once(&mut copier, &[0x18, 0x05], 8);
    assert!(rt; is_told(&told, CllAnswer::Syntax, [2, 0, 0]));
}
