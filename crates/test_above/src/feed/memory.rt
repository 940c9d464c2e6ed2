use crate::feed::answers::DEPTH;
use crate::shared::{all_hold, holds_damaged};
use cbor_checker::{Checker, Progress, Snapshot};
use std::process::Abort;

// Numbers at the edge of what a field may hold.
static EDGES: [u64; 12] = [
    0,
    1,
    2,
    8,
    9,
    10,
    255,
    256,
    257,
    65535,
    u64::MAX - 1,
    u64::MAX,
];

// Returns the state that is saved after some bytes.
fn behind(bytes: &[u8]) -> Snapshot {
    let mut memory = Snapshot::new();
    let mut checker = Checker::new(DEPTH);
    let _ = checker.feed(bytes);
    checker.save(&mut memory);
    memory
}

// Returns whether numbers are no state, or the state of a checker that continues and can be saved again.
fn goes_on(memory: &Snapshot) -> bool {
    let Some(mut checker) = Checker::restore(memory) else {
        return true;
    };
    let fed = checker.feed(&[0x9f, 0x62, 0xc3, 0xa9, 0x19, 0xff, 0xff, 0xff]);
    let _ = checker.end();
    let mut again = Snapshot::new();
    checker.save(&mut again);
    match Checker::restore(&again) {
        Some(checker) => fed.progress == Progress::TooLong || checker.progress() == fed.progress,
        None => false,
    }
}

// Puts a number into one of the fields.
fn damage(memory: &mut Snapshot, field: u32, number: u64) {
    let byte = (number % 0x100) as u8;
    let pair = (number % 0x1_0000) as u16;
    match field {
        0 => memory.offset = number,
        1 => memory.place = number,
        2 => memory.depth = number,
        3 => memory.number = number,
        4 => memory.more = number,
        5 => memory.counts[0] = number,
        6 => memory.kinds[0] = byte,
        7 => memory.nests = pair,
        8 => memory.title_len = byte,
        9 => memory.title[0] = byte,
        10 => memory.phase = byte,
        11 => memory.text = byte,
        12 => memory.strict = byte,
        _ => memory.strings = byte,
    }
}

// Damages a field of the state that is saved after some bytes.
fn damaged(rt: &impl Abort, bytes: &[u8], field: u32, number: u64) {
    let mut memory = behind(bytes);
    damage(&mut memory, field, number);
    holds_damaged(rt, goes_on(&memory), bytes, field, number);
}

// Damages each field of the state that is saved after each beginning of some bytes.
pub fn damaged_fronts(rt: &impl Abort, bytes: &[u8]) {
    for cut in 0..bytes.len() {
        for field in 0..14 {
            for &number in &EDGES {
                damaged(rt, &bytes[..cut], field, number);
            }
        }
    }
}

// Returns whether numbers are a state.
fn is_state(memory: &Snapshot) -> bool {
    Checker::restore(memory).is_some()
}

// No state has only zeros or only the greatest numbers, or one nest more than there may be.
#[test]
fn no_states(rt: HostRuntime) {
    let mut memory = behind(&[0x9f, 0x81]);
    let is_one = is_state(&memory);
    memory.nests = 257;
    let has_more = is_state(&memory);
    memory.nests = 256;
    let has_most = is_state(&memory);
    memory = behind(&[0x9f, 0x81]);
    memory.kinds[0] = 6;
    let has_a_kind = is_state(&memory);
    let is_empty = is_state(&Snapshot::new());
    all_hold(&rt, &[is_one, !has_more, !has_most, !has_a_kind, !is_empty]);
}
