// How deep tags, arrays and maps may be nested.

use crate::shared::{answer, holds};
use cbor_deterministic::{MAX_DEPTH, Order, Refusal, Why, deterministic_len};

// How many levels the test writes.
const LEVELS: usize = 257;

// Returns whether an item of 3 levels, with this first byte at each, is taken at depth 3 and refused at depth 2.
fn is_bounded(bytes: &[u8], place: usize) -> bool {
    let order = Order::Bytewise;
    let refusal = Refusal {
        why: Why::Deep,
        place,
    };
    deterministic_len(bytes, 3, order) == Ok(bytes.len())
        && deterministic_len(bytes, 2, order) == Err(refusal)
}

#[test]
fn each_kind_of_nest(rt: HostRuntime) {
    holds(&rt, is_bounded(&[0xc1, 0xc1, 0xc1, 0], 2), "tags");
    holds(&rt, is_bounded(&[0x81, 0x81, 0x80], 2), "arrays");
    holds(
        &rt,
        is_bounded(&[0xa1, 0, 0xa1, 0, 0xa0], 4),
        "maps, in values",
    );
    holds(
        &rt,
        is_bounded(&[0xa1, 0xa1, 0xa0, 0, 0], 2),
        "maps, in keys",
    );
    holds(
        &rt,
        is_bounded(&[0xa1, 0x61, 0x61, 0x82, 0, 0xc0, 0], 5),
        "each kind",
    );
}

// Strings and numbers take no level.
#[test]
fn items_of_no_level(rt: HostRuntime) {
    let order = Order::Bytewise;
    holds(
        &rt,
        deterministic_len(&[0x61, 0x61], 0, order) == Ok(2),
        "a text",
    );
    holds(
        &rt,
        deterministic_len(&[0x41, 0xff], 0, order) == Ok(2),
        "bytes",
    );
    holds(
        &rt,
        deterministic_len(&[0x18, 0x18], 0, order) == Ok(2),
        "a number",
    );
    let refusal = Refusal {
        why: Why::Deep,
        place: 0,
    };
    holds(
        &rt,
        deterministic_len(&[0x80], 0, order) == Err(refusal),
        "an empty array",
    );
}

#[test]
fn the_greatest_depth(rt: HostRuntime) {
    let mut bytes = [0xc1; LEVELS + 1];
    bytes[MAX_DEPTH] = 0;
    holds(
        &rt,
        answer(&bytes, Order::Bytewise) == Ok(MAX_DEPTH + 1),
        "256 levels",
    );
    bytes[MAX_DEPTH] = 0xc1;
    bytes[LEVELS] = 0;
    holds(
        &rt,
        answer(&bytes, Order::Bytewise) == Err((Why::Deep, MAX_DEPTH)),
        "257 levels",
    );
}
