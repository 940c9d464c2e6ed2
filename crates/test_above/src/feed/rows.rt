use crate::feed::answers::{all_ways, at_once};
use crate::shared::{MOST, all_hold, decoded, holds};
use cbor_checker::{Checker, End, Fault, Progress};
use ciborium_ll::Spelling;
use std::process::Abort;

// Bytes, and the progress of a checker.
static ROWS: [(&str, Progress); 54] = [
    // Items (RFC 8949, appendix A).
    ("1bffffffffffffffff", Progress::Ended(9)),
    ("c249010000000000000000", Progress::Ended(11)),
    ("fb3ff199999999999a", Progress::Ended(9)),
    (
        "c074323031332d30332d32315432303a30343a30305a",
        Progress::Ended(22),
    ),
    ("c11a514b67b0", Progress::Ended(6)),
    ("d74401020304", Progress::Ended(6)),
    ("d818456449455446", Progress::Ended(8)),
    ("6449455446", Progress::Ended(5)),
    ("62225c", Progress::Ended(3)),
    ("62c3bc", Progress::Ended(3)),
    ("63e6b0b4", Progress::Ended(4)),
    ("64f0908591", Progress::Ended(5)),
    ("8301820203820405", Progress::Ended(8)),
    ("a26161016162820203", Progress::Ended(9)),
    ("826161a161626163", Progress::Ended(8)),
    ("5f42010243030405ff", Progress::Ended(9)),
    ("7f657374726561646d696e67ff", Progress::Ended(13)),
    ("9f018202039f0405ffff", Progress::Ended(10)),
    ("bf61610161629f0203ffff", Progress::Ended(11)),
    ("bf6346756ef563416d7421ff", Progress::Ended(12)),
    // Bytes that are no item (RFC 8949, appendix F).
    ("18", Progress::More(1)),
    ("1b01020304050607", Progress::More(1)),
    ("9a01ff00", Progress::More(1)),
    ("5bffffffffffffffff010203", Progress::More(usize::MAX - 3)),
    ("61", Progress::More(1)),
    ("a20102", Progress::More(1)),
    ("c0", Progress::More(1)),
    ("5f4100", Progress::More(1)),
    ("9f819f819f9fffffff", Progress::Fault(Fault::Deep(4))),
    ("1c", Progress::Fault(Fault::Syntax(0))),
    ("dd", Progress::Fault(Fault::Syntax(0))),
    ("fe", Progress::Fault(Fault::Syntax(0))),
    ("5f00ff", Progress::Fault(Fault::Syntax(1))),
    ("5f80ff", Progress::Fault(Fault::Syntax(1))),
    ("7f4100ff", Progress::Fault(Fault::Syntax(1))),
    ("ff", Progress::Fault(Fault::Break(0))),
    ("81ff", Progress::Fault(Fault::Break(1))),
    ("a1ff00", Progress::Fault(Fault::Break(1))),
    ("bf00ff", Progress::Fault(Fault::Break(2))),
    ("bf000000ff", Progress::Fault(Fault::Break(4))),
    ("1f", Progress::Fault(Fault::Syntax(0))),
    ("df", Progress::Fault(Fault::Syntax(0))),
    ("61ff", Progress::Fault(Fault::Syntax(0))),
    ("62c080", Progress::Fault(Fault::Syntax(0))),
    ("63eda080", Progress::Fault(Fault::Syntax(0))),
    ("7f61c361bcff", Progress::Fault(Fault::Syntax(1))),
    ("81818181", Progress::More(1)),
    ("8181818181", Progress::Fault(Fault::Deep(4))),
    // A fault comes with the first byte after which no item continues.
    ("5f78", Progress::Fault(Fault::Syntax(1))),
    ("818181819b", Progress::Fault(Fault::Deep(4))),
    ("62e6", Progress::Fault(Fault::Syntax(0))),
    ("65f0908591f0", Progress::Fault(Fault::Syntax(0))),
    ("6ac328", Progress::Fault(Fault::Syntax(0))),
    ("7802e6", Progress::Fault(Fault::Syntax(1))),
];

// Compares the answer of one kind of checkers to bytes, and feeds the bytes in all ways.
fn row(rt: &impl Abort, spelling: Spelling, digits: &str, want: Progress) {
    let mut space = [0; MOST];
    let bytes = decoded(rt, digits, &mut space);
    holds(rt, at_once(spelling, bytes) == want, digits);
    all_ways(rt, bytes);
}

pub fn each_row(rt: &impl Abort, spelling: Spelling, rows: &[(&str, Progress)]) {
    for &(digits, want) in rows {
        row(rt, spelling, digits, want);
    }
}

#[test]
fn items_and_faults(rt: HostRuntime) {
    each_row(&rt, Spelling::Any, &ROWS);
}

// The checker takes no byte after an item, and an item that has ended stays ended.
#[test]
fn what_follows_an_item(rt: HostRuntime) {
    let mut checker = Checker::new(1);
    let is_between = checker.end() == End::Between;
    let is_taken = checker.feed(&[0x82, 1]).taken == 2;
    let is_short = checker.end() == End::Short(1);
    let second = checker.feed(&[2, 3]);
    let has_ended = second.taken == 1 && second.progress == Progress::Ended(3);
    let stays = checker.feed(&[3]).taken == 0 && checker.end() == End::Between;
    all_hold(&rt, &[is_between, is_taken, is_short, has_ended, stays]);
}

// The checker meets a fault at its byte, and keeps it.
#[test]
fn what_follows_a_fault(rt: HostRuntime) {
    let mut checker = Checker::new(1);
    let is_met = checker.feed(&[0x81, 0xff, 0]).taken == 2;
    let again = checker.feed(&[0, 0]);
    let stays = again.taken == 0 && again.progress == Progress::Fault(Fault::Break(1));
    let is_told = checker.end() == End::Fault(Fault::Break(1));
    all_hold(&rt, &[is_met, stays, is_told]);
}
