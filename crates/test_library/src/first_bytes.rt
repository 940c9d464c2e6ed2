// Counts the rows of the table of first bytes.

use crate::checks::{counts_one, holds};
use ciborium_ll_grammar::hdr::table::{Affix, Row, TitleKind, row_of};

// Returns how many bytes of a title follow its first byte, or 9 if no title begins with it. A row has 7 if it says both
// that a title begins and that its minor is reserved: no other row has 7.
fn behind(row: Row) -> usize {
    match (row.kind, row.affix) {
        (TitleKind::Refused, _) => 9,
        (_, Affix::Within | Affix::Open) => 0,
        (_, Affix::One) => 1,
        (_, Affix::Two) => 2,
        (_, Affix::Four) => 4,
        (_, Affix::Eight) => 8,
        (_, Affix::Reserved) => 7,
    }
}

// Under each of the 8 major types, 24 minors are the number itself, which makes 192. One minor each says that the
// number stands in the next 1, 2, 4 or 8 bytes. Three minors are reserved, which makes 24 (RFC 7049, 2.1). The last
// minor, 31, also stands alone under 5 major types, as an indefinite form or the break. Under the other 3 no title
// begins with it (2.2).
#[test]
fn first_bytes_by_what_stands_behind_them(rt: HostRuntime) {
    let mut counts = [0u8; 10];
    for first in 0..=u8::MAX {
        counts_one(&mut counts, behind(row_of(first)));
    }
    let is_right = counts == [197, 8, 8, 0, 8, 0, 0, 0, 8, 27];
    holds(&rt, is_right, "how many there are of each");
}
