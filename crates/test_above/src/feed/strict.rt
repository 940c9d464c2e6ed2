use crate::feed::rows::each_row;
use crate::shared::all_hold;
use cbor_checker::{Checker, Fault, Progress};
use ciborium_ll::Spelling;

// Bytes, and the progress of a checker that takes only the shortest spelling (RFC 7049, 3.9).
static ROWS: [(&str, Progress); 27] = [
    ("17", Progress::Ended(1)),
    ("1817", Progress::Fault(Fault::Syntax(0))),
    ("1818", Progress::Ended(2)),
    ("1900", Progress::Fault(Fault::Syntax(0))),
    ("1901", Progress::More(1)),
    ("190100", Progress::Ended(3)),
    ("1a00", Progress::More(3)),
    ("1a0000", Progress::Fault(Fault::Syntax(0))),
    ("1a00010000", Progress::Ended(5)),
    ("1b000000", Progress::More(5)),
    ("1b00000000", Progress::Fault(Fault::Syntax(0))),
    ("1b0000000100000000", Progress::Ended(9)),
    ("3900", Progress::Fault(Fault::Syntax(0))),
    ("f817", Progress::Fault(Fault::Syntax(0))),
    ("f81f", Progress::Fault(Fault::Syntax(0))),
    ("f820", Progress::Ended(2)),
    ("f90000", Progress::Ended(3)),
    ("fa00000000", Progress::Ended(5)),
    ("fb0000000000000000", Progress::Ended(9)),
    ("8201190000", Progress::Fault(Fault::Syntax(2))),
    ("d817", Progress::Fault(Fault::Syntax(0))),
    ("580141", Progress::Fault(Fault::Syntax(0))),
    ("5f4100ff", Progress::Ended(4)),
    ("5f41005f", Progress::Fault(Fault::Syntax(3))),
    ("5f580141ff", Progress::Fault(Fault::Syntax(1))),
    ("7f6161ff", Progress::Ended(4)),
    ("7f7f", Progress::Fault(Fault::Syntax(1))),
];

#[test]
fn shortest_spelling(rt: HostRuntime) {
    each_row(&rt, Spelling::Shortest, &ROWS);
}

// Each constructor makes a checker of its spelling: a longer title is a fault for a strict one alone.
#[test]
fn by_each_constructor(rt: HostRuntime) {
    let longer = [0x18, 0x17];
    let ended = Progress::Ended(2);
    let refused = Progress::Fault(Fault::Syntax(0));
    let is_new = Checker::new(1).feed(&longer).progress == ended;
    let is_any = Checker::with_spelling(1, Spelling::Any)
        .feed(&longer)
        .progress
        == ended;
    let is_strict = Checker::strict(1).feed(&longer).progress == refused;
    let shortest = Checker::with_spelling(1, Spelling::Shortest).feed(&longer);
    let is_shortest = shortest.progress == refused;
    all_hold(&rt, &[is_new, is_any, is_strict, is_shortest]);
}
