// The two orders of keys, by the examples of standards.

use crate::shared::answer_row;
use cbor_deterministic::{Order, Why};

// Maps in digits, and the expected answers in the bytewise order and with the shorter keys first.
static ROWS: [(
    &str,
    Result<usize, (Why, usize)>,
    Result<usize, (Why, usize)>,
); 9] = [
    // The keys of RFC 8949, 4.2.1, in its order: 10, 100, -1, "z", "aa", [100], [-1] and false.
    (
        "a80a001864002000617a006261610081186400812000f400",
        Ok(24),
        Err((Why::KeyOrder, 6)),
    ),
    // The same keys in the order of RFC 8949, 4.2.3: 10, -1, false, 100, "z", [-1], "aa" and [100].
    (
        "a80a002000f400186400617a008120006261610081186400",
        Err((Why::KeyOrder, 7)),
        Ok(24),
    ),
    // CTAP2 has the lower major type first: 100, then -1.
    ("a21864002000", Ok(6), Err((Why::KeyOrder, 4))),
    ("a22000186400", Err((Why::KeyOrder, 3)), Ok(6)),
    // Texts, as all keys of DAG-CBOR are: "b", then "aa", in both orders.
    ("a261620062616100", Ok(8), Ok(8)),
    (
        "a262616100616200",
        Err((Why::KeyOrder, 5)),
        Err((Why::KeyOrder, 5)),
    ),
    // A key that stands twice, of one byte and of two.
    (
        "a201000100",
        Err((Why::DuplicateKey, 3)),
        Err((Why::DuplicateKey, 3)),
    ),
    (
        "a2186400186400",
        Err((Why::DuplicateKey, 4)),
        Err((Why::DuplicateKey, 4)),
    ),
    // The third key is greater than the first key, and less than the second.
    (
        "a3010003000200",
        Err((Why::KeyOrder, 5)),
        Err((Why::KeyOrder, 5)),
    ),
];

#[test]
fn orders_of_keys(rt: HostRuntime) {
    for &(digits, bytewise, length_first) in &ROWS {
        answer_row(&rt, digits, Order::Bytewise, bytewise);
        answer_row(&rt, digits, Order::LengthFirst, length_first);
    }
}

// Keys within keys have the same order, and so do maps within values.
#[test]
fn keys_within_keys(rt: HostRuntime) {
    answer_row(&rt, "a1a2010002000a", Order::Bytewise, Ok(7));
    answer_row(
        &rt,
        "a1a2020001000a",
        Order::Bytewise,
        Err((Why::KeyOrder, 4)),
    );
    answer_row(
        &rt,
        "a100a202000100",
        Order::Bytewise,
        Err((Why::KeyOrder, 5)),
    );
    answer_row(&rt, "a2a1010000a1010100", Order::Bytewise, Ok(9));
    answer_row(
        &rt,
        "a2a1010100a1010000",
        Order::Bytewise,
        Err((Why::KeyOrder, 5)),
    );
}
