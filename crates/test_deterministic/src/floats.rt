// Floats in the smallest width that has them, worked by hand from IEEE 754, 3.4.

use crate::shared::answer_row;
use cbor_deterministic::{Order, Why};

// Floats that no smaller width has.
static NARROW: [&str; 18] = [
    // Zeros, the least and the greatest float of 16 bits, and a NaN with a payload.
    "f90000",
    "f98000",
    "f90001",
    "f97bff",
    "f97e01",
    // 2^-25, below the least one of 16 bits, and 2^-24 * (1 + 2^-10).
    "fa33000000",
    "fa33802000",
    // 65536 and 65504 + 2^-7: above the greatest one of 16 bits.
    "fa47800000",
    "fa477fe001",
    // 1 + 2^-11 and the greatest one of 32 bits.
    "fa3f801000",
    "fa7f7fffff",
    // A NaN whose payload ends in bit 12, and one with the last bit alone.
    "fa7fc01000",
    "faffc00001",
    // 2^-150, below the least one of 32 bits, and 2^-149 * (1 + 2^-23).
    "fb3690000000000000",
    "fb36a0000020000000",
    // 1 + 2^-24, 2^128, and a NaN whose payload ends in bit 28.
    "fb3ff0000010000000",
    "fb47f0000000000000",
    "fb7ff8000010000000",
];

// Floats that a smaller width has.
static WIDE: [&str; 20] = [
    // Zeros of both signs.
    "fa00000000",
    "fa80000000",
    "fb0000000000000000",
    "fb8000000000000000",
    // 1, 1.5 and -4.
    "fa3f800000",
    "fa3fc00000",
    "fac0800000",
    "fb3ff0000000000000",
    // 2^-24, 2^-24 * 1023 and 2^-14: the least and the greatest subnormal one of 16 bits, and the least normal one.
    "fa33800000",
    "fa387fc000",
    "fa38800000",
    // 65504, the greatest one of 16 bits, and 1 + 2^-10.
    "fa477fe000",
    "fa3f802000",
    // An infinity, and NaNs whose payload ends in bit 13, and in bit 29.
    "fa7f800000",
    "fa7fc02000",
    "fb7ff8000020000000",
    // 2^-149 and 2^-126: the least subnormal one of 32 bits, and the least normal one.
    "fb36a0000000000000",
    "fb3810000000000000",
    // The greatest one of 32 bits, and 100000, which 16 bits don't have.
    "fb47efffffe0000000",
    "fb40f86a0000000000",
];

#[test]
fn floats_of_the_smallest_width(rt: HostRuntime) {
    for digits in NARROW {
        answer_row(&rt, digits, Order::Bytewise, Ok(digits.len() / 2));
    }
}

#[test]
fn floats_that_are_too_wide(rt: HostRuntime) {
    for digits in WIDE {
        answer_row(&rt, digits, Order::Bytewise, Err((Why::NotShortest, 0)));
    }
}
