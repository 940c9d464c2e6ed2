// The tokens of rows, worked by hand.

use crate::shared::{holds, is_row};

// Examples of RFC 8949, appendix A.
static ITEMS: [(&str, &str); 40] = [
    ("00", "0 Positive(0)"),
    ("17", "0 Positive(23)"),
    ("1818", "0 Positive(24)"),
    ("1903e8", "0 Positive(1000)"),
    ("1a000f4240", "0 Positive(1000000)"),
    ("1b000000e8d4a51000", "0 Positive(1000000000000)"),
    ("1bffffffffffffffff", "0 Positive(18446744073709551615)"),
    (
        "c249010000000000000000",
        "0 Tag(2), 1 Bytes(Some(9)) 010000000000000000",
    ),
    ("3bffffffffffffffff", "0 Negative(18446744073709551615)"),
    ("20", "0 Negative(0)"),
    ("3903e7", "0 Negative(999)"),
    ("f93c00", "0 Float(Half(15360))"),
    ("fa47c35000", "0 Float(Single(1203982336))"),
    ("f4", "0 Simple(20)"),
    ("f7", "0 Simple(23)"),
    ("f0", "0 Simple(16)"),
    ("f8ff", "0 Simple(255)"),
    ("c11a514b67b0", "0 Tag(1), 1 Positive(1363896240)"),
    ("d818456449455446", "0 Tag(24), 2 Bytes(Some(5)) 6449455446"),
    ("40", "0 Bytes(Some(0))"),
    ("4401020304", "0 Bytes(Some(4)) 01020304"),
    ("60", "0 Text(Some(0))"),
    ("6161", "0 Text(Some(1)) 61"),
    ("6449455446", "0 Text(Some(4)) 49455446"),
    ("62225c", "0 Text(Some(2)) 225c"),
    ("62c3bc", "0 Text(Some(2)) c3bc"),
    ("63e6b0b4", "0 Text(Some(3)) e6b0b4"),
    ("64f0908591", "0 Text(Some(4)) f0908591"),
    ("80", "0 Array(Some(0))"),
    (
        "83010203",
        "0 Array(Some(3)), 1 Positive(1), 2 Positive(2), 3 Positive(3)",
    ),
    (
        "8301820203820405",
        "0 Array(Some(3)), 1 Positive(1), 2 Array(Some(2)), 3 Positive(2), 4 Positive(3), 5 Array(Some(2)), \
         6 Positive(4), 7 Positive(5)",
    ),
    ("a0", "0 Map(Some(0))"),
    (
        "a201020304",
        "0 Map(Some(2)), 1 Positive(1), 2 Positive(2), 3 Positive(3), 4 Positive(4)",
    ),
    (
        "a26161016162820203",
        "0 Map(Some(2)), 1 Text(Some(1)) 61, 3 Positive(1), 4 Text(Some(1)) 62, 6 Array(Some(2)), 7 Positive(2), \
         8 Positive(3)",
    ),
    (
        "826161a161626163",
        "0 Array(Some(2)), 1 Text(Some(1)) 61, 3 Map(Some(1)), 4 Text(Some(1)) 62, 6 Text(Some(1)) 63",
    ),
    (
        "5f42010243030405ff",
        "0 Bytes(None), 1 Bytes(Some(2)) 0102, 4 Bytes(Some(3)) 030405, 8 Close",
    ),
    (
        "7f657374726561646d696e67ff",
        "0 Text(None), 1 Text(Some(5)) 7374726561, 7 Text(Some(4)) 6d696e67, 12 Close",
    ),
    ("9fff", "0 Array(None), 1 Break"),
    (
        "9f018202039f0405ffff",
        "0 Array(None), 1 Positive(1), 2 Array(Some(2)), 3 Positive(2), 4 Positive(3), 5 Array(None), 6 Positive(4), \
         7 Positive(5), 8 Break, 9 Break",
    ),
    (
        "bf61610161629f0203ffff",
        "0 Map(None), 1 Text(Some(1)) 61, 3 Positive(1), 4 Text(Some(1)) 62, 6 Array(None), 7 Positive(2), \
         8 Positive(3), 9 Break, 10 Break",
    ),
];

// Examples of RFC 8949, 3.2.
static OPENS: [(&str, &str); 5] = [
    (
        "bf6346756ef563416d7421ff",
        "0 Map(None), 1 Text(Some(3)) 46756e, 5 Simple(21), 6 Text(Some(3)) 416d74, 10 Negative(1), 11 Break",
    ),
    (
        "83018202039f0405ff",
        "0 Array(Some(3)), 1 Positive(1), 2 Array(Some(2)), 3 Positive(2), 4 Positive(3), 5 Array(None), \
         6 Positive(4), 7 Positive(5), 8 Break",
    ),
    (
        "9f01820203820405ff",
        "0 Array(None), 1 Positive(1), 2 Array(Some(2)), 3 Positive(2), 4 Positive(3), 5 Array(Some(2)), \
         6 Positive(4), 7 Positive(5), 8 Break",
    ),
    (
        "5f44aabbccdd43eeff99ff",
        "0 Bytes(None), 1 Bytes(Some(4)) aabbccdd, 6 Bytes(Some(3)) eeff99, 10 Close",
    ),
    (
        "a2616100616201",
        "0 Map(Some(2)), 1 Text(Some(1)) 61, 3 Positive(0), 4 Text(Some(1)) 62, 6 Positive(1)",
    ),
];

// Bytes that end too early, and what is due.
static CUT: [(&str, &str); 13] = [
    ("", ""),
    ("19", "due 2"),
    ("1901", "due 1"),
    ("1b", "due 8"),
    ("82", "0 Array(Some(2))"),
    ("820118", "0 Array(Some(2)), 1 Positive(1), due 1"),
    ("42", "0 Bytes(Some(2)), due 2"),
    ("4201", "0 Bytes(Some(2)) 01, due 1"),
    ("63e6b0", "0 Text(Some(3)), due 1"),
    ("6561e6b0b4", "0 Text(Some(5)) 61e6b0b4, due 1"),
    ("6661f09085", "0 Text(Some(6)) 61, due 2"),
    ("5f4101", "0 Bytes(None), 1 Bytes(Some(1)) 01, due 1"),
    ("7f", "0 Text(None), due 1"),
];

// Bytes with a fault, in any spelling.
static FAULTS: [(&str, &str); 20] = [
    ("1c", "fault 0"),
    ("1f", "fault 0"),
    ("df", "fault 0"),
    ("fe", "fault 0"),
    ("82011d", "0 Array(Some(2)), 1 Positive(1), fault 2"),
    ("61ff", "0 Text(Some(1)), fault 0"),
    ("62c080", "0 Text(Some(2)), fault 0"),
    ("62e282", "0 Text(Some(2)), fault 0"),
    ("63eda080", "0 Text(Some(3)), fault 0"),
    ("64f4908080", "0 Text(Some(4)), fault 0"),
    ("6361c328", "0 Text(Some(3)) 61, fault 0"),
    (
        "820162c328",
        "0 Array(Some(2)), 1 Positive(1), 2 Text(Some(2)), fault 2",
    ),
    ("5f6161ff", "0 Bytes(None), fault 1"),
    ("5f01ff", "0 Bytes(None), fault 1"),
    ("5f4101c1", "0 Bytes(None), 1 Bytes(Some(1)) 01, fault 3"),
    ("7f61614101ff", "0 Text(None), 1 Text(Some(1)) 61, fault 3"),
    ("7f61c361a4ff", "0 Text(None), 1 Text(Some(1)), fault 1"),
    ("7f80ff", "0 Text(None), fault 1"),
    ("5fff1c", "0 Bytes(None), 1 Close, fault 2"),
    ("ff1c", "0 Break, fault 1"),
];

// Texts of thirty bytes: ten characters, and nine with a damaged one. The title has two bytes.
static LONG: [(&str, &str); 2] = [
    (
        "781ee6b0b4e6b0b4e6b0b4e6b0b4e6b0b4e6b0b4e6b0b4e6b0b4e6b0b4e6b0b4",
        "0 Text(Some(30)) e6b0b4e6b0b4e6b0b4e6b0b4e6b0b4e6b0b4e6b0b4e6b0b4e6b0b4e6b0b4",
    ),
    (
        "781ee6b0b4e6b0b4e6b0b4e6b0b4e6b0b4e6b0b4e6b0b4e6b0b4e6b0b4e6b028",
        "0 Text(Some(30)) e6b0b4e6b0b4e6b0b4e6b0b4e6b0b4e6b0b4e6b0b4e6b0b4e6b0b4, fault 0",
    ),
];

// Bytes that are parsed in another way if the shortest spelling alone is taken.
static LONGER: [(&str, &str, &str); 12] = [
    ("1800", "0 Positive(0)", "fault 0"),
    ("190001", "0 Positive(1)", "fault 0"),
    (
        "82011b0000000000000001",
        "0 Array(Some(2)), 1 Positive(1), 2 Positive(1)",
        "0 Array(Some(2)), 1 Positive(1), fault 2",
    ),
    ("f800", "0 Simple(0)", "fault 0"),
    ("f818", "0 Simple(24)", "fault 0"),
    ("f81f", "0 Simple(31)", "fault 0"),
    ("f820", "0 Simple(32)", "0 Simple(32)"),
    ("780161", "0 Text(Some(1)) 61", "fault 0"),
    ("7801ff", "0 Text(Some(1)), fault 1", "fault 0"),
    (
        "7f7801ffff",
        "0 Text(None), 1 Text(Some(1)), fault 1",
        "0 Text(None), fault 1",
    ),
    (
        "5f5f4101ffff",
        "0 Bytes(None), 1 Bytes(None), 2 Bytes(Some(1)) 01, 4 Close, 5 Close",
        "0 Bytes(None), fault 1",
    ),
    (
        "7f7fffff",
        "0 Text(None), 1 Text(None), 2 Close, 3 Close",
        "0 Text(None), fault 1",
    ),
];

#[test]
fn items(rt: HostRuntime) {
    for &(digits, want) in &ITEMS {
        holds(&rt, is_row(rt.alloc(), digits, false, want), digits);
        holds(&rt, is_row(rt.alloc(), digits, true, want), digits);
    }
}

#[test]
fn opens(rt: HostRuntime) {
    for &(digits, want) in &OPENS {
        holds(&rt, is_row(rt.alloc(), digits, false, want), digits);
        holds(&rt, is_row(rt.alloc(), digits, true, want), digits);
    }
}

#[test]
fn cuts(rt: HostRuntime) {
    for &(digits, want) in &CUT {
        holds(&rt, is_row(rt.alloc(), digits, false, want), digits);
        holds(&rt, is_row(rt.alloc(), digits, true, want), digits);
    }
}

#[test]
fn faults(rt: HostRuntime) {
    for &(digits, want) in &FAULTS {
        holds(&rt, is_row(rt.alloc(), digits, false, want), digits);
        holds(&rt, is_row(rt.alloc(), digits, true, want), digits);
    }
}

#[test]
fn spellings(rt: HostRuntime) {
    for &(digits, any, shortest) in &LONGER {
        holds(&rt, is_row(rt.alloc(), digits, false, any), digits);
        holds(&rt, is_row(rt.alloc(), digits, true, shortest), digits);
    }
}

#[test]
fn long_texts(rt: HostRuntime) {
    for &(digits, want) in &LONG {
        holds(&rt, is_row(rt.alloc(), digits, false, want), digits);
        holds(&rt, is_row(rt.alloc(), digits, true, want), digits);
    }
}
