//! Bytes of CBOR. The tables are statics: a proof of a loop over a constant looks at each of its rows.

use ciborium_ll::{Float, Header};
use std::alloc::{AllocError, Global};

/// Titles of one header each, the shortest of that header, as hexadecimal digits.
pub static VECTORS: [(&str, Header); 54] = [
    ("00", Header::Positive(0)),
    ("01", Header::Positive(1)),
    ("0a", Header::Positive(10)),
    ("17", Header::Positive(23)),
    ("1818", Header::Positive(24)),
    ("1819", Header::Positive(25)),
    ("1864", Header::Positive(100)),
    ("1903e8", Header::Positive(1000)),
    ("1a000f4240", Header::Positive(1_000_000)),
    ("1b000000e8d4a51000", Header::Positive(1_000_000_000_000)),
    ("1bffffffffffffffff", Header::Positive(u64::MAX)),
    ("3bffffffffffffffff", Header::Negative(u64::MAX)),
    ("20", Header::Negative(0)),
    ("29", Header::Negative(9)),
    ("3863", Header::Negative(99)),
    ("3903e7", Header::Negative(999)),
    ("f4", Header::Simple(20)),
    ("f5", Header::Simple(21)),
    ("f6", Header::Simple(22)),
    ("f7", Header::Simple(23)),
    ("f0", Header::Simple(16)),
    ("f818", Header::Simple(24)),
    ("f8ff", Header::Simple(255)),
    ("c0", Header::Tag(0)),
    ("c1", Header::Tag(1)),
    ("d7", Header::Tag(23)),
    ("d818", Header::Tag(24)),
    ("f90000", Header::Float(Float::Half(0x0000))),
    ("f98000", Header::Float(Float::Half(0x8000))),
    ("f93c00", Header::Float(Float::Half(0x3c00))),
    (
        "fb3ff199999999999a",
        Header::Float(Float::Double(0x3ff1_9999_9999_999a)),
    ),
    ("f93e00", Header::Float(Float::Half(0x3e00))),
    ("f97bff", Header::Float(Float::Half(0x7bff))),
    ("fa47c35000", Header::Float(Float::Single(0x47c3_5000))),
    ("fa7f7fffff", Header::Float(Float::Single(0x7f7f_ffff))),
    (
        "fb7e37e43c8800759c",
        Header::Float(Float::Double(0x7e37_e43c_8800_759c)),
    ),
    ("f90001", Header::Float(Float::Half(0x0001))),
    ("f90400", Header::Float(Float::Half(0x0400))),
    ("f9c400", Header::Float(Float::Half(0xc400))),
    (
        "fbc010666666666666",
        Header::Float(Float::Double(0xc010_6666_6666_6666)),
    ),
    ("f97c00", Header::Float(Float::Half(0x7c00))),
    ("f97e00", Header::Float(Float::Half(0x7e00))),
    ("f9fc00", Header::Float(Float::Half(0xfc00))),
    ("fa7f800000", Header::Float(Float::Single(0x7f80_0000))),
    ("fa7fc00000", Header::Float(Float::Single(0x7fc0_0000))),
    ("faff800000", Header::Float(Float::Single(0xff80_0000))),
    (
        "fb7ff0000000000000",
        Header::Float(Float::Double(0x7ff0_0000_0000_0000)),
    ),
    (
        "fb7ff8000000000000",
        Header::Float(Float::Double(0x7ff8_0000_0000_0000)),
    ),
    (
        "fbfff0000000000000",
        Header::Float(Float::Double(0xfff0_0000_0000_0000)),
    ),
    ("40", Header::Bytes(Some(0))),
    ("44", Header::Bytes(Some(4))),
    ("60", Header::Text(Some(0))),
    ("64", Header::Text(Some(4))),
    ("d820", Header::Tag(32)),
];

/// Titles in a row, the shortest of these headers.
pub static LISTS: [(&str, &[Header]); 9] = [
    ("80", &[Header::Array(Some(0))]),
    (
        "83010203",
        &[
            Header::Array(Some(3)),
            Header::Positive(1),
            Header::Positive(2),
            Header::Positive(3),
        ],
    ),
    ("a0", &[Header::Map(Some(0))]),
    (
        "a201020304",
        &[
            Header::Map(Some(2)),
            Header::Positive(1),
            Header::Positive(2),
            Header::Positive(3),
            Header::Positive(4),
        ],
    ),
    ("9fff", &[Header::Array(None), Header::Break]),
    (
        "9f018202039f0405ffff",
        &[
            Header::Array(None),
            Header::Positive(1),
            Header::Array(Some(2)),
            Header::Positive(2),
            Header::Positive(3),
            Header::Array(None),
            Header::Positive(4),
            Header::Positive(5),
            Header::Break,
            Header::Break,
        ],
    ),
    (
        "9f01820203820405ff",
        &[
            Header::Array(None),
            Header::Positive(1),
            Header::Array(Some(2)),
            Header::Positive(2),
            Header::Positive(3),
            Header::Array(Some(2)),
            Header::Positive(4),
            Header::Positive(5),
            Header::Break,
        ],
    ),
    (
        "83018202039f0405ff",
        &[
            Header::Array(Some(3)),
            Header::Positive(1),
            Header::Array(Some(2)),
            Header::Positive(2),
            Header::Positive(3),
            Header::Array(None),
            Header::Positive(4),
            Header::Positive(5),
            Header::Break,
        ],
    ),
    (
        "83019f0203ff820405",
        &[
            Header::Array(Some(3)),
            Header::Positive(1),
            Header::Array(None),
            Header::Positive(2),
            Header::Positive(3),
            Header::Break,
            Header::Array(Some(2)),
            Header::Positive(4),
            Header::Positive(5),
        ],
    ),
];

/// An array of the numbers 1 to 25, whose length is in its title.
pub const TWENTY_FIVE: &str = "98190102030405060708090a0b0c0d0e0f101112131415161718181819";

/// The same array with a break at its end.
pub const TWENTY_FIVE_AND_BREAK: &str =
    "9f0102030405060708090a0b0c0d0e0f101112131415161718181819ff";

/// Titles that are longer than their headers need, and the shortest titles.
pub static LONGER_TITLES: [(&str, Header, &str); 5] = [
    ("1805", Header::Positive(5), "05"),
    ("f810", Header::Simple(16), "f0"),
    ("5805", Header::Bytes(Some(5)), "45"),
    ("7802", Header::Text(Some(2)), "62"),
    ("780d", Header::Text(Some(13)), "6d"),
];

/// Bytes, whole and broken, and how many elements a copy of them is asked for.
pub static COPIES: [(usize, &str); 24] = [
    (1, "5f5f580101ffff"),
    (0, "5f5f580101ffff"),
    (1, "7f61615fff"),
    (1, "780261ff"),
    (1, "6561ff626364"),
    (2, "1805f810a0"),
    (1, "ff"),
    (1, "7fff"),
    (1, "4301"),
    (1, "7f7fff"),
    (1, ""),
    (3, "a107780d48656c6c6f2c20576f726c6421"),
    (1, "580101"),
    (2, "5801015f5f420203ffff"),
    (1, "7f62c3a9641f"),
    (2, "f6fc"),
    (3, "825f4201024103ff7f62c3a963e282acff00"),
    (1, "5f4101"),
    (1, "7f62c32964f09f9880ff"),
    (1, "7f63c3a964f09f9880ff"),
    (1, "7f62c3a965f09f9880ff"),
    (1, "7f62c3a964f09f9880fe"),
    (1, "7f62c3a964f09f9880ff"),
    (1, "7f626162ff"),
];

/// Digits, each with how many elements a copy of it is asked for.
type Samples = Vec<(usize, &'static str)>;

/// Returns the digits of all samples, each with how many elements a copy of it is asked for: those that it has, or
/// those of its row.
///
/// # Errors
///
/// There is no memory.
pub fn all(alloc: Global) -> Result<Vec<(usize, &'static str)>, AllocError> {
    let first = vec![in alloc; (26, TWENTY_FIVE), (27, TWENTY_FIVE_AND_BREAK)]?;
    with_copies(with_longer_titles(with_lists(with_vectors(first)?)?)?)
}

// A loop over a static beside other loops takes longer to prove than alone.
fn with_vectors(mut all: Samples) -> Result<Samples, AllocError> {
    for &(hex, _) in &VECTORS {
        all.push((1, hex))?;
    }
    Ok(all)
}

fn with_lists(mut all: Samples) -> Result<Samples, AllocError> {
    for &(hex, headers) in &LISTS {
        all.push((headers.len(), hex))?;
    }
    Ok(all)
}

fn with_longer_titles(mut all: Samples) -> Result<Samples, AllocError> {
    for &(hex, _, _) in &LONGER_TITLES {
        all.push((1, hex))?;
    }
    Ok(all)
}

fn with_copies(mut all: Samples) -> Result<Samples, AllocError> {
    all.extend_from_slice(&COPIES)?;
    Ok(all)
}
