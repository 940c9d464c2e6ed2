// Every list of one and of two bytes, beside a plain reading.

use crate::shared::{Answer, answer};
use cbor_deterministic::{Order, Why};
use std::process::Abort;

// Reads one byte: a whole item of one byte, or why and where it is refused. The upper three bits are the major type
// (RFC 8949, 3.1).
fn read_one(byte: u8) -> Answer {
    let (major, minor) = (byte / 32, byte % 32);
    match minor {
        0 => match major {
            6 => Err((Why::Cut, 1)),
            _ => Ok(1),
        },
        1..=23 => match major {
            0 | 1 | 7 => Ok(1),
            _ => Err((Why::Cut, 1)),
        },
        24..=27 => Err((Why::Cut, 0)),
        28..=30 => Err((Why::NoTitle, 0)),
        _ => match major {
            0 | 1 | 6 => Err((Why::NoTitle, 0)),
            _ => Err((Why::Indefinite, 0)),
        },
    }
}

// Reads a title of two bytes, with its number in the second one.
fn read_numbered(major: u8, number: u8) -> Answer {
    if number < 24 {
        return Err((Why::NotShortest, 0));
    }
    match major {
        0 | 1 => Ok(2),
        7 if number < 32 => Err((Why::NoSimple, 0)),
        7 => Ok(2),
        _ => Err((Why::Cut, 2)),
    }
}

// Reads the second byte within a nest. `is_more` says whether the nest has more items than this.
fn read_within(second: u8, is_more: bool) -> Answer {
    match read_one(second) {
        Ok(_) if is_more => Err((Why::Cut, 2)),
        Ok(_) => Ok(2),
        Err((Why::Cut, 1)) => Err((Why::Cut, 2)),
        Err((why, _)) => Err((why, 1)),
    }
}

// Reads two bytes.
fn read_two(first: u8, second: u8) -> Answer {
    let (major, minor) = (first / 32, first % 32);
    if minor == 24 {
        return read_numbered(major, second);
    }
    match read_one(first) {
        Err((Why::Cut, 1)) => match major {
            2 if minor == 1 => Ok(2),
            3 if minor == 1 && second < 0x80 => Ok(2),
            3 if minor == 1 => Err((Why::NoText, 0)),
            2 | 3 => Err((Why::Cut, 2)),
            6 => read_within(second, false),
            4 => read_within(second, minor > 1),
            _ => read_within(second, true),
        },
        other => other,
    }
}

// Requires that both answers are the same.
fn compare(rt: &impl Abort, bytes: &[u8], want: Answer) {
    let is_same = answer(bytes, Order::Bytewise) == want
        && answer(bytes, Order::LengthFirst) == want;
    assert!(rt; is_same, "at {bytes:?}");
}

#[test]
fn one_byte(rt: HostRuntime) {
    for byte in 0..=u8::MAX {
        compare(&rt, &[byte], read_one(byte));
    }
}

#[test]
fn two_bytes(rt: HostRuntime) {
    for first in 0..=u8::MAX {
        for second in 0..=u8::MAX {
            compare(&rt, &[first, second], read_two(first, second));
        }
    }
}
