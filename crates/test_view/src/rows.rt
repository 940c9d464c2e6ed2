// Each row of RFC 8949, appendix A, is an item, and has the header and the parts that the row says.

use crate::shared::{MOST, holds, parsed};
use ciborium_ll_grammar::hdr::{Float, Header};

// The item, its header, and how many bytes follow its title.
static ROWS: [(&str, Header, usize); 81] = [
    ("00", Header::Positive(0), 0),
    ("01", Header::Positive(1), 0),
    ("0a", Header::Positive(10), 0),
    ("17", Header::Positive(23), 0),
    ("1818", Header::Positive(24), 0),
    ("1819", Header::Positive(25), 0),
    ("1864", Header::Positive(100), 0),
    ("1903e8", Header::Positive(1000), 0),
    ("1a000f4240", Header::Positive(1000000), 0),
    ("1b000000e8d4a51000", Header::Positive(1000000000000), 0),
    (
        "1bffffffffffffffff",
        Header::Positive(18446744073709551615),
        0,
    ),
    ("c249010000000000000000", Header::Tag(2), 10),
    (
        "3bffffffffffffffff",
        Header::Negative(18446744073709551615),
        0,
    ),
    ("c349010000000000000000", Header::Tag(3), 10),
    ("20", Header::Negative(0), 0),
    ("29", Header::Negative(9), 0),
    ("3863", Header::Negative(99), 0),
    ("3903e7", Header::Negative(999), 0),
    ("f90000", Header::Float(Float::Half(0)), 0),
    ("f98000", Header::Float(Float::Half(0x8000)), 0),
    ("f93c00", Header::Float(Float::Half(0x3c00)), 0),
    (
        "fb3ff199999999999a",
        Header::Float(Float::Double(0x3ff199999999999a)),
        0,
    ),
    ("f93e00", Header::Float(Float::Half(0x3e00)), 0),
    ("f97bff", Header::Float(Float::Half(0x7bff)), 0),
    ("fa47c35000", Header::Float(Float::Single(0x47c35000)), 0),
    ("fa7f7fffff", Header::Float(Float::Single(0x7f7fffff)), 0),
    (
        "fb7e37e43c8800759c",
        Header::Float(Float::Double(0x7e37e43c8800759c)),
        0,
    ),
    ("f90001", Header::Float(Float::Half(1)), 0),
    ("f90400", Header::Float(Float::Half(0x400)), 0),
    ("f9c400", Header::Float(Float::Half(0xc400)), 0),
    (
        "fbc010666666666666",
        Header::Float(Float::Double(0xc010666666666666)),
        0,
    ),
    ("f97c00", Header::Float(Float::Half(0x7c00)), 0),
    ("f97e00", Header::Float(Float::Half(0x7e00)), 0),
    ("f9fc00", Header::Float(Float::Half(0xfc00)), 0),
    ("fa7f800000", Header::Float(Float::Single(0x7f800000)), 0),
    ("fa7fc00000", Header::Float(Float::Single(0x7fc00000)), 0),
    ("faff800000", Header::Float(Float::Single(0xff800000)), 0),
    (
        "fb7ff0000000000000",
        Header::Float(Float::Double(0x7ff0000000000000)),
        0,
    ),
    (
        "fb7ff8000000000000",
        Header::Float(Float::Double(0x7ff8000000000000)),
        0,
    ),
    (
        "fbfff0000000000000",
        Header::Float(Float::Double(0xfff0000000000000)),
        0,
    ),
    ("f4", Header::Simple(20), 0),
    ("f5", Header::Simple(21), 0),
    ("f6", Header::Simple(22), 0),
    ("f7", Header::Simple(23), 0),
    ("f0", Header::Simple(16), 0),
    ("f8ff", Header::Simple(255), 0),
    (
        "c074323031332d30332d32315432303a30343a30305a",
        Header::Tag(0),
        21,
    ),
    ("c11a514b67b0", Header::Tag(1), 5),
    ("c1fb41d452d9ec200000", Header::Tag(1), 9),
    ("d74401020304", Header::Tag(23), 5),
    ("d818456449455446", Header::Tag(24), 6),
    (
        "d82076687474703a2f2f7777772e6578616d706c652e636f6d",
        Header::Tag(32),
        23,
    ),
    ("40", Header::Bytes(Some(0)), 0),
    ("4401020304", Header::Bytes(Some(4)), 4),
    ("60", Header::Text(Some(0)), 0),
    ("6161", Header::Text(Some(1)), 1),
    ("6449455446", Header::Text(Some(4)), 4),
    ("62225c", Header::Text(Some(2)), 2),
    ("62c3bc", Header::Text(Some(2)), 2),
    ("63e6b0b4", Header::Text(Some(3)), 3),
    ("64f0908591", Header::Text(Some(4)), 4),
    ("80", Header::Array(Some(0)), 0),
    ("83010203", Header::Array(Some(3)), 3),
    ("8301820203820405", Header::Array(Some(3)), 7),
    (
        "98190102030405060708090a0b0c0d0e0f101112131415161718181819",
        Header::Array(Some(25)),
        27,
    ),
    ("a0", Header::Map(Some(0)), 0),
    ("a201020304", Header::Map(Some(2)), 4),
    ("a26161016162820203", Header::Map(Some(2)), 8),
    ("826161a161626163", Header::Array(Some(2)), 7),
    (
        "a56161614161626142616361436164614461656145",
        Header::Map(Some(5)),
        20,
    ),
    ("5f42010243030405ff", Header::Bytes(None), 8),
    ("7f657374726561646d696e67ff", Header::Text(None), 12),
    ("9fff", Header::Array(None), 1),
    ("9f018202039f0405ffff", Header::Array(None), 9),
    ("9f01820203820405ff", Header::Array(None), 8),
    ("83018202039f0405ff", Header::Array(Some(3)), 8),
    ("83019f0203ff820405", Header::Array(Some(3)), 8),
    (
        "9f0102030405060708090a0b0c0d0e0f101112131415161718181819ff",
        Header::Array(None),
        28,
    ),
    ("bf61610161629f0203ffff", Header::Map(None), 10),
    ("826161bf61626163ff", Header::Array(Some(2)), 8),
    ("bf6346756ef563416d7421ff", Header::Map(None), 11),
];

#[test]
fn headers(rt: HostRuntime) {
    for &(digits, header, len) in &ROWS {
        let mut space = [0; MOST];
        let Some(item) = parsed(&rt, digits, &mut space) else {
            return holds(&rt, false, digits);
        };
        let (other, contents) = item.open();
        holds(
            &rt,
            other == header && item.header() == header && contents.len() == len,
            digits,
        );
        // The call for a kind of item answers exactly if the header is of that kind.
        holds(
            &rt,
            item.positive().is_some() == matches!(header, Header::Positive(_))
                && item.negative().is_some() == matches!(header, Header::Negative(_))
                && item.simple().is_some() == matches!(header, Header::Simple(_))
                && item.float().is_some() == matches!(header, Header::Float(_))
                && item.tag().is_some() == matches!(header, Header::Tag(_)),
            digits,
        );
        holds(
            &rt,
            item.byte_string().is_some() == matches!(header, Header::Bytes(Some(_)))
                && item.text().is_some() == matches!(header, Header::Text(Some(_)))
                && item.byte_segments().is_some() == matches!(header, Header::Bytes(_))
                && item.text_segments().is_some() == matches!(header, Header::Text(_))
                && item.elements().is_some() == matches!(header, Header::Array(_))
                && item.entries().is_some() == matches!(header, Header::Map(_)),
            digits,
        );
    }
}

// Whether the item is a value of the header.
fn has_value(digits: &str, header: Header, item: Option<cbor_view::Item<'_>>) -> bool {
    let Some(item) = item else {
        return digits.is_empty();
    };
    match header {
        Header::Positive(number) => item.positive() == Some(number),
        Header::Negative(number) => item.negative() == Some(number),
        Header::Simple(number) => item.simple() == Some(number),
        Header::Float(float) => item.float() == Some(float),
        _ => true,
    }
}

#[test]
fn values(rt: HostRuntime) {
    for &(digits, header, _) in &ROWS {
        let mut space = [0; MOST];
        let item = parsed(&rt, digits, &mut space);
        holds(&rt, has_value(digits, header, item), digits);
    }
}
