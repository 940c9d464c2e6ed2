// The rows of RFC 8949, appendix A.

use crate::shared::{MOST, answer, answer_row, decoded, holds};
use cbor_deterministic::{Order, Why};

// The encodings of the appendix that are deterministic (RFC 8949, 4.2.1). The check does not look into tags, so bignums
// are among these encodings.
static DETERMINISTIC: &str = "\
00
01
0a
17
1818
1819
1864
1903e8
1a000f4240
1b000000e8d4a51000
1bffffffffffffffff
c249010000000000000000
3bffffffffffffffff
c349010000000000000000
20
29
3863
3903e7
f90000
f98000
f93c00
fb3ff199999999999a
f93e00
f97bff
fa47c35000
fa7f7fffff
fb7e37e43c8800759c
f90001
f90400
f9c400
fbc010666666666666
f97c00
f97e00
f9fc00
f4
f5
f6
f7
f0
f8ff
c074323031332d30332d32315432303a30343a30305a
c11a514b67b0
c1fb41d452d9e8200000
d74401020304
d818456449455446
d82076687474703a2f2f7777772e6578616d706c652e636f6d
40
4401020304
60
6161
6449455446
62225c
62c3bc
63e6b0b4
64f0908591
80
83010203
8301820203820405
98190102030405060708090a0b0c0d0e0f101112131415161718181819
a0
a201020304
a26161016162820203
826161a161626163
a56161614161626142616361436164614461656145";

// The other encodings, with the reason and the offset.
static OTHERS: [(&str, Why, usize); 17] = [
    // Infinities and NaNs that 16 bits have.
    ("fa7f800000", Why::NotShortest, 0),
    ("fa7fc00000", Why::NotShortest, 0),
    ("faff800000", Why::NotShortest, 0),
    ("fb7ff0000000000000", Why::NotShortest, 0),
    ("fb7ff8000000000000", Why::NotShortest, 0),
    ("fbfff0000000000000", Why::NotShortest, 0),
    // Indefinite lengths.
    ("5f42010243030405ff", Why::Indefinite, 0),
    ("7f657374726561646d696e67ff", Why::Indefinite, 0),
    ("9fff", Why::Indefinite, 0),
    ("9f018202039f0405ffff", Why::Indefinite, 0),
    ("9f01820203820405ff", Why::Indefinite, 0),
    ("83018202039f0405ff", Why::Indefinite, 5),
    ("83019f0203ff820405", Why::Indefinite, 2),
    (
        "9f0102030405060708090a0b0c0d0e0f101112131415161718181819ff",
        Why::Indefinite,
        0,
    ),
    ("bf61610161629f0203ffff", Why::Indefinite, 0),
    ("826161bf61626163ff", Why::Indefinite, 3),
    ("bf6346756ef563416d7421ff", Why::Indefinite, 0),
];

// Other faults, worked by hand.
static FAULTS: [(&str, Why, usize); 26] = [
    ("", Why::Cut, 0),
    ("1817", Why::NotShortest, 0),
    ("1900ff", Why::NotShortest, 0),
    ("1a0000ffff", Why::NotShortest, 0),
    ("1b00000000ffffffff", Why::NotShortest, 0),
    ("5800", Why::NotShortest, 0),
    ("8201580100", Why::NotShortest, 2),
    ("19ff", Why::Cut, 0),
    ("8219ff", Why::Cut, 1),
    ("1c", Why::NoTitle, 0),
    ("1f", Why::NoTitle, 0),
    ("3f", Why::NoTitle, 0),
    ("df", Why::NoTitle, 0),
    ("81fe", Why::NoTitle, 1),
    ("ff", Why::Indefinite, 0),
    ("81ff", Why::Indefinite, 1),
    ("f817", Why::NotShortest, 0),
    ("f818", Why::NoSimple, 0),
    ("f81f", Why::NoSimple, 0),
    ("61ff", Why::NoText, 0),
    ("8162c328", Why::NoText, 1),
    ("63e6b0", Why::Cut, 3),
    ("a201000102", Why::DuplicateKey, 3),
    ("a202000102", Why::KeyOrder, 3),
    ("a3010002000203", Why::DuplicateKey, 5),
    ("a101", Why::Cut, 2),
];

#[test]
fn encodings_that_are_deterministic(rt: HostRuntime) {
    for digits in DETERMINISTIC.lines() {
        let mut space = [0; MOST];
        let bytes = decoded(&rt, digits, &mut space);
        for order in [Order::Bytewise, Order::LengthFirst] {
            holds(&rt, answer(bytes, order) == Ok(bytes.len()), digits);
        }
    }
}

// Each proper beginning of a deterministic encoding ends too early.
#[test]
fn beginnings_of_encodings(rt: HostRuntime) {
    for digits in DETERMINISTIC.lines() {
        let mut space = [0; MOST];
        let bytes = decoded(&rt, digits, &mut space);
        for end in 0..bytes.len() {
            let is_cut =
                matches!(answer(&bytes[..end], Order::Bytewise), Err((Why::Cut, place)) if place <= end);
            holds(&rt, is_cut, digits);
        }
    }
}

#[test]
fn encodings_that_are_not(rt: HostRuntime) {
    for &(digits, why, place) in &OTHERS {
        answer_row(&rt, digits, Order::Bytewise, Err((why, place)));
        answer_row(&rt, digits, Order::LengthFirst, Err((why, place)));
    }
}

#[test]
fn faults(rt: HostRuntime) {
    for &(digits, why, place) in &FAULTS {
        answer_row(&rt, digits, Order::Bytewise, Err((why, place)));
        answer_row(&rt, digits, Order::LengthFirst, Err((why, place)));
    }
}

// Any bytes may follow an item.
#[test]
fn bytes_after_an_item(rt: HostRuntime) {
    answer_row(&rt, "00ff", Order::Bytewise, Ok(1));
    answer_row(&rt, "a1016161ff1c", Order::Bytewise, Ok(4));
}
