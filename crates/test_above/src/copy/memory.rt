use crate::copy::answers::fed;
use crate::shared::{MOST, all_hold, holds_damaged};
use cbor_copier::{Copier, End, Progress, Snapshot};
use std::process::Abort;

// Numbers at the edge of what a field may hold.
static EDGES: [u64; 10] = [0, 1, 3, 4, 8, 9, 10, 255, u64::MAX - 1, u64::MAX];

// Returns the saved state of a copy of two elements after some bytes, with room for `room` bytes.
fn behind(bytes: &[u8], room: usize) -> Snapshot {
    let mut copier = Copier::new(2);
    let mut out = [0; MOST];
    let _ = fed(&mut copier, bytes, &mut out[..room.min(MOST)]);
    copier.save()
}

// Returns whether numbers are no state, or the state of a copier that continues and can be saved again.
fn goes_on(memory: &Snapshot) -> bool {
    let Some(mut copier) = Copier::restore(memory) else {
        return true;
    };
    let mut out = [0; 4];
    let piece = [0x5f, 0x41, 0x01, 0xff, 0x62, 0xc3, 0xa9, 0x19];
    let _ = fed(&mut copier, &piece, &mut out);
    let Some(mut again) = Copier::restore(&copier.save()) else {
        return false;
    };
    let mut other = out;
    let is_same = fed(&mut copier, &[0x05, 0x06], &mut out)
        == fed(&mut again, &[0x05, 0x06], &mut other);
    is_same && out == other && copier.end() == again.end()
}

// Puts a number into one of the fields.
fn damage(memory: &mut Snapshot, field: u32, number: u64) {
    let byte = (number % 0x100) as u8;
    match field {
        0 => memory.offset = number,
        1 => memory.place = number,
        2 => memory.left = number,
        3 => memory.number = number,
        4 => memory.more = number,
        5 => memory.front[0] = byte,
        6 => memory.pending[0] = byte,
        7 => memory.front_len = byte,
        8 => memory.pending_len = byte,
        9 => memory.phase = byte,
        10 => memory.text = byte,
        11 => memory.strings = byte,
        _ => memory.strict = byte,
    }
}

// Damages a field of the state that is saved after some bytes.
fn damaged(rt: &impl Abort, bytes: &[u8], room: usize, field: u32, number: u64) {
    let mut memory = behind(bytes, room);
    damage(&mut memory, field, number);
    holds_damaged(rt, goes_on(&memory), bytes, field, number);
}

// Damages each field, with room for all bytes and for few.
pub fn each_damaged(rt: &impl Abort, bytes: &[u8]) {
    for field in 0..13 {
        for &number in &EDGES {
            damaged(rt, bytes, 1, field, number);
            damaged(rt, bytes, MOST, field, number);
        }
    }
}

// Returns whether numbers are a state.
fn is_state(memory: &Snapshot) -> bool {
    Copier::restore(memory).is_some()
}

// No kind of the point that is due, one string more than bytes came, and more bytes than a title or a character has.
#[test]
fn no_states(rt: HostRuntime) {
    let mut memory = behind(&[0x7f, 0x62, 0xc3], MOST);
    let is_one = is_state(&memory);
    memory.front_len = 4;
    let has_a_front = is_state(&memory);
    memory.front_len = 1;
    memory.more = 3;
    let has_strings = is_state(&memory);
    memory.more = 0;
    memory.phase = 0;
    let has_a_phase = is_state(&memory);
    all_hold(&rt, &[is_one, !has_a_front, !has_strings, !has_a_phase]);
}

// Returns whether this is what an end means now.
fn is_at(copier: &Copier, end: End) -> bool {
    copier.end() == end
}

// Returns whether this is what an end means after a piece.
fn has_come(copier: &mut Copier, piece: &[u8], out: &mut [u8], end: End) -> bool {
    let _ = fed(copier, piece, out);
    is_at(copier, end)
}

// Tries what an end means: before two elements, within an element that is cut, with bytes to write, and after both.
fn ends_of_two(out: &mut [u8; 4]) -> bool {
    let mut copier = Copier::new(2);
    is_at(&copier, End::Short)
        && has_come(&mut copier, &[0x05, 0x19, 0x03], out, End::Short)
        && has_come(&mut copier, &[0xe8], &mut out[..1], End::Room)
        && fed(&mut copier, &[], out).progress == Progress::Ended
        && is_at(&copier, End::Ended)
}

// Tries what an end means with no elements, and after a fault.
#[test]
fn ends(rt: HostRuntime) {
    let mut out = [0; 4];
    let is_ended = is_at(&Copier::new(0), End::Ended);
    let are_right = ends_of_two(&mut out);
    let is_told = has_come(&mut Copier::new(2), &[0x05, 0x1c], &mut out, End::Syntax(1));
    all_hold(&rt, &[is_ended, are_right, is_told]);
}
