// Items of any spelling, and their deterministic encodings.

ghost use Rattle.std.specs.Prelude.{◌≤◌};

use crate::shared::{MOST, decoded, holds};
use cbor_canonical::{CanonicalError, Refusal, Span, Why, canonical, canonical_into};
use cbor_deterministic::Order;
use std::alloc::Global;
use std::process::Abort;

// How many levels an item may have here.
const DEPTH: usize = 16;

// The encodings of RFC 8949, appendix A, that are not deterministic ones, and the deterministic encoding of each. The
// bytes follow from 4.2.1.
static APPENDIX: [(&str, &str); 15] = [
    // Infinity, NaN and -Infinity, in 32 and in 64 bits.
    ("fa7f800000", "f97c00"),
    ("fa7fc00000", "f97e00"),
    ("faff800000", "f9fc00"),
    ("fb7ff0000000000000", "f97c00"),
    ("fb7ff8000000000000", "f97e00"),
    ("fbfff0000000000000", "f9fc00"),
    // The items of indefinite length.
    ("5f42010243030405ff", "450102030405"),
    ("7f657374726561646d696e67ff", "6973747265616d696e67"),
    ("9fff", "80"),
    ("9f018202039f0405ffff", "8301820203820405"),
    ("83018202039f0405ff", "8301820203820405"),
    (
        "9f0102030405060708090a0b0c0d0e0f101112131415161718181819ff",
        "98190102030405060708090a0b0c0d0e0f101112131415161718181819",
    ),
    ("bf61610161629f0203ffff", "a26161016162820203"),
    ("826161bf61626163ff", "826161a161626163"),
    ("bf6346756ef563416d7421ff", "a263416d74216346756ef5"),
];

// Longer titles, floats in a greater width, and strings in strings, worked by hand.
static SPELLINGS: [(&str, &str); 24] = [
    ("1800", "00"),
    ("190017", "17"),
    ("1a00000018", "1818"),
    ("1b0000000000000100", "190100"),
    ("3a000000ff", "38ff"),
    ("580100", "4100"),
    ("5900026162", "426162"),
    ("78016b", "616b"),
    ("980100", "8100"),
    ("b90001010a", "a1010a"),
    ("d80100", "c100"),
    ("da0000ffff00", "d9ffff00"),
    ("5fff", "40"),
    ("5f5f4101ff41025f5f4103ff4104ffff", "4401020304"),
    ("7f7f6161ff62c3a9ff", "6361c3a9"),
    // 1.0, 65504.0, the greatest finite float of 32 bits, and 1.1, which no smaller width has.
    ("fa3f800000", "f93c00"),
    ("fb40effc0000000000", "f97bff"),
    ("fb47efffffe0000000", "fa7f7fffff"),
    ("fb3ff199999999999a", "fb3ff199999999999a"),
    // 0.0, -0.0, and the least and the greatest subnormal floats of 16 bits.
    ("fb0000000000000000", "f90000"),
    ("fb8000000000000000", "f98000"),
    ("fa33800000", "f90001"),
    ("fb3e70000000000000", "f90001"),
    ("fa387fc000", "f903ff"),
];

// Maps, and what is wanted of each in the bytewise order and with the shorter keys first.
static MAPS: [(&str, &str, &str); 6] = [
    // The keys of RFC 8949, 4.2.1 and 4.2.3: false, "aa", -1, [100], 10 in three bytes, [-1], "z" and 100.
    (
        "bff4006261610020008118640019000a00812000617a00186400ff",
        "a80a001864002000617a006261610081186400812000f400",
        "a80a002000f400186400617a008120006261610081186400",
    ),
    (
        "a8f4006261610020008118640019000a00812000617a00186400",
        "a80a001864002000617a006261610081186400812000f400",
        "a80a002000f400186400617a008120006261610081186400",
    ),
    // Keys that are maps: {2: 0, 1: 0} and {1: 0}.
    (
        "a2a20200010000a1010000",
        "a2a1010000a20100020000",
        "a2a1010000a20100020000",
    ),
    // A map as a value: {1: {-1: 0, 256: 0}}.
    (
        "a101a2200019010000",
        "a101a2190100002000",
        "a101a2200019010000",
    ),
    // 1.0, -0.0, 0.0 and 1 are four keys.
    (
        "a4fa3f80000000f9800000f90000000100",
        "a40100f9000000f93c0000f9800000",
        "a40100f9000000f93c0000f9800000",
    ),
    // NaNs of different payloads are two keys.
    (
        "a2fa7fc0200000f97e0000",
        "a2f97e0000f97e0100",
        "a2f97e0000f97e0100",
    ),
];

// What is refused: why, and where.
static REFUSED: [(&str, Why, usize); 25] = [
    ("", Why::Cut, 0),
    ("8201", Why::Cut, 2),
    ("9f01", Why::Cut, 2),
    ("5f4101", Why::Cut, 3),
    ("1c", Why::Malformed, 0),
    ("811f", Why::Malformed, 1),
    ("5f6100ff", Why::Malformed, 1),
    ("8161ff", Why::Malformed, 1),
    ("ff", Why::Break, 0),
    ("8201ff", Why::Break, 2),
    ("bf01ff", Why::Break, 2),
    ("f818", Why::NoSimple, 0),
    ("8201f81f", Why::NoSimple, 2),
    ("a100f81800", Why::NoSimple, 2),
    ("a201000100", Why::DuplicateKey, 3),
    ("a20100180100", Why::DuplicateKey, 3),
    ("a3020001000200", Why::DuplicateKey, 5),
    ("a2f93c0000fa3f80000000", Why::DuplicateKey, 5),
    ("8201a201000100", Why::DuplicateKey, 5),
    ("bf7f6161ff00616100ff", Why::DuplicateKey, 6),
    // Keys that are the same map in another order of its pairs.
    ("a2a20100020000a20200010000", Why::DuplicateKey, 7),
    // The same pair twice.
    ("82a10000a200010001", Why::DuplicateKey, 7),
    // The first of two faults.
    ("82f818f819", Why::NoSimple, 1),
    ("82f818a201000100", Why::NoSimple, 1),
    ("82a201000100f818", Why::DuplicateKey, 4),
];

// A place of no pair.
const NO_SPAN: Span = Span {
    start: 0,
    key_end: 0,
    end: 0,
};

// An array of indefinite length with this many zeros takes a byte more in the deterministic encoding.
const ZEROS: usize = 256;

// The call into memory of this length writes this, and nothing is left.
fn is_lent(bytes: &[u8], order: Order, want: &[u8], out: &mut [u8], spans: &mut [Span]) -> bool {
    match canonical_into(bytes, DEPTH, order, out, spans) {
        Ok((len, rest)) => out.get(..len) == Some(want) && rest.is_empty(),
        Err(_error) => false,
    }
}

// The encoding fits memory of its own length and as many places as there are bytes, and no shorter memory.
fn lent_row(rt: &impl Abort, digits: &str, order: Order, want: &str) {
    let mut space = [0; MOST];
    let mut wanted = [0; MOST];
    let bytes = decoded(rt, digits, &mut space);
    let want = decoded(rt, want, &mut wanted);
    let mut out = [0; MOST];
    let mut spans = [NO_SPAN; MOST];
    let places = &mut spans[..bytes.len().min(MOST)];
    let len = want.len().min(MOST);
    holds(
        rt,
        is_lent(bytes, order, want, &mut out[..len], places),
        digits,
    );
    let short = &mut out[..len.saturating_sub(1)];
    let is_short = match canonical_into(bytes, DEPTH, order, short, places) {
        Ok(_written) => false,
        Err(error) => error == CanonicalError::Memory,
    };
    holds(rt, is_short, digits);
}

// What the call writes is this, and nothing is left.
fn is_written(alloc: Global, bytes: &[u8], order: Order, want: &[u8]) -> bool {
    match canonical(alloc, bytes, DEPTH, order) {
        Ok((written, rest)) => written.as_slice() == want && rest.is_empty(),
        Err(_error) => false,
    }
}

// The bytes that digits say are rewritten so, and what is written is written again.
fn written_row(rt: &impl Abort, alloc: Global, digits: &str, order: Order, want: &str) {
    let mut space = [0; MOST];
    let mut wanted = [0; MOST];
    let bytes = decoded(rt, digits, &mut space);
    let want = decoded(rt, want, &mut wanted);
    holds(rt, is_written(alloc, bytes, order, want), digits);
    holds(rt, is_written(alloc, want, order, want), digits);
}

#[test]
fn lent_memory(rt: HostRuntime) {
    for &(digits, want) in &APPENDIX {
        lent_row(&rt, digits, Order::Bytewise, want);
    }
    for &(digits, want) in &SPELLINGS {
        lent_row(&rt, digits, Order::Bytewise, want);
    }
    for &(digits, bytewise, length_first) in &MAPS {
        lent_row(&rt, digits, Order::Bytewise, bytewise);
        lent_row(&rt, digits, Order::LengthFirst, length_first);
    }
}

// Adds a key and an array of zeros.
fn add_zeros(rt: &impl Abort, out: &mut Vec<u8>, key: u8, open: &[u8], close: &[u8]) {
    let is_added = out.extend_from_slice(&[key]).is_ok()
        && out.extend_from_slice(open).is_ok()
        && out.extend_from_slice(&[0; ZEROS]).is_ok()
        && out.extend_from_slice(close).is_ok();
    holds(rt, is_added, "memory");
}

// {2: [0, ..], 1: [0, ..]} with open arrays is two bytes longer in the encoding. That is a byte for each 256 bytes, and
// half as many spans are enough.
#[test]
fn growing_items(rt: HostRuntime) {
    let mut bytes = Vec::new(rt.alloc());
    holds(&rt, bytes.extend_from_slice(&[0xa2]).is_ok(), "memory");
    add_zeros(&rt, &mut bytes, 0x02, &[0x9f], &[0xff]);
    add_zeros(&rt, &mut bytes, 0x01, &[0x9f], &[0xff]);
    let mut want = Vec::new(rt.alloc());
    holds(&rt, want.extend_from_slice(&[0xa2]).is_ok(), "memory");
    add_zeros(&rt, &mut want, 0x01, &[0x99, 0x01, 0x00], &[]);
    add_zeros(&rt, &mut want, 0x02, &[0x99, 0x01, 0x00], &[]);
    let mut out = [0; 2 * ZEROS + 7 + 2];
    let mut spans = [NO_SPAN; ZEROS + 4];
    let (bytes, want) = (bytes.as_slice(), want.as_slice());
    holds(
        &rt,
        is_lent(bytes, Order::Bytewise, want, &mut out, &mut spans),
        "two arrays",
    );
}

// Whether the memory or the places are too few.
fn is_short(bytes: &[u8], out: &mut [u8], spans: &mut [Span]) -> bool {
    match canonical_into(bytes, DEPTH, Order::Bytewise, out, spans) {
        Ok(_written) => false,
        Err(error) => error == CanonicalError::Memory,
    }
}

// An item that is in the encoding already takes no place. In any other one a map takes a place for each pair.
#[test]
fn places_of_pairs(rt: HostRuntime) {
    let mut out = [0; MOST];
    let mut none = [NO_SPAN; 0];
    let mut one = [NO_SPAN; 1];
    let order = Order::Bytewise;
    let array = [0x82, 0x01, 0x40];
    holds(
        &rt,
        is_lent(&array, order, &array, &mut out, &mut none),
        "no map",
    );
    let sorted = [0xa2, 0x01, 0x00, 0x02, 0x00];
    holds(
        &rt,
        is_lent(&sorted, order, &sorted, &mut out, &mut none),
        "no place",
    );
    let other = [0xa2, 0x02, 0x00, 0x01, 0x00];
    holds(&rt, is_short(&other, &mut out, &mut one), "one place");
}

// If the pairs of a map are moved, the map also takes a place for two bytes of them, unless as many bytes of memory
// follow the pairs. {2: 0, 1: 0} has 4 bytes of pairs, and {"bb": 0, "a": 0} has 7.
#[test]
fn bytes_of_pairs(rt: HostRuntime) {
    let (mut out, mut fewer, mut more) = ([0; 5], [0; 14], [0; 15]);
    let mut two = [NO_SPAN; 2];
    let mut three = [NO_SPAN; 3];
    let mut four = [NO_SPAN; 4];
    let order = Order::Bytewise;
    let other = [0xa2, 0x02, 0x00, 0x01, 0x00];
    let sorted = [0xa2, 0x01, 0x00, 0x02, 0x00];
    let is_sorted = is_lent(&other, order, &sorted, &mut out, &mut two);
    holds(&rt, is_sorted, "four bytes");
    let text = [0xa2, 0x62, 0x62, 0x62, 0x00, 0x61, 0x61, 0x00];
    let moved = [0xa2, 0x61, 0x61, 0x00, 0x62, 0x62, 0x62, 0x00];
    let is_few = is_short(&text, &mut fewer, &mut three);
    holds(&rt, is_few, "seven bytes");
    let is_enough = is_lent(&text, order, &moved, &mut fewer, &mut four);
    holds(&rt, is_enough, "four places");
    let is_after = is_lent(&text, order, &moved, &mut more, &mut two);
    holds(&rt, is_after, "seven bytes after the pairs");
}

// Whether the bytes are refused for this reason at this offset.
fn is_refused(alloc: Global, bytes: &[u8], depth: usize, why: Why, place: usize) -> bool
    requires { depth ≤ DEPTH }
{
    match canonical(alloc, bytes, depth, Order::Bytewise) {
        Ok(_written) => false,
        Err(error) => error == CanonicalError::Refused(Refusal { why, place }),
    }
}

#[test]
fn encodings_of_the_appendix(rt: HostRuntime) {
    for &(digits, want) in &APPENDIX {
        written_row(&rt, rt.alloc(), digits, Order::Bytewise, want);
        written_row(&rt, rt.alloc(), digits, Order::LengthFirst, want);
    }
}

#[test]
fn spellings(rt: HostRuntime) {
    for &(digits, want) in &SPELLINGS {
        written_row(&rt, rt.alloc(), digits, Order::Bytewise, want);
        written_row(&rt, rt.alloc(), digits, Order::LengthFirst, want);
    }
}

#[test]
fn maps(rt: HostRuntime) {
    for &(digits, bytewise, length_first) in &MAPS {
        written_row(&rt, rt.alloc(), digits, Order::Bytewise, bytewise);
        written_row(&rt, rt.alloc(), digits, Order::LengthFirst, length_first);
    }
}

#[test]
fn refused(rt: HostRuntime) {
    for &(digits, why, place) in &REFUSED {
        let mut space = [0; MOST];
        let bytes = decoded(&rt, digits, &mut space);
        holds(
            &rt,
            is_refused(rt.alloc(), bytes, DEPTH, why, place),
            digits,
        );
    }
}

// Tags, arrays and maps take a level each, and strings take none.
#[test]
fn levels(rt: HostRuntime) {
    let nest = [0x9f, 0xc1, 0xbf, 0x00, 0x5f, 0x40, 0xff, 0xff, 0xff];
    let is_taken = canonical(rt.alloc(), &nest, 3, Order::Bytewise).is_ok();
    holds(&rt, is_taken, "three levels");
    holds(&rt, is_refused(rt.alloc(), &nest, 2, Why::Deep, 2), "two");
    holds(&rt, is_refused(rt.alloc(), &nest, 0, Why::Deep, 0), "none");
}

// What follows the item is given back.
#[test]
fn bytes_after_the_item(rt: HostRuntime) {
    let is_rest = match canonical(rt.alloc(), &[0x18, 0x01, 0xff, 0x1c], 0, Order::Bytewise) {
        Ok((written, rest)) => written.as_slice() == [0x01].as_slice()
            && rest == [0xff, 0x1c].as_slice(),
        Err(_error) => false,
    };
    holds(&rt, is_rest, "a rest");
}
