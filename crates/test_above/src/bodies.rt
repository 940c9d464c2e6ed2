//! Tests of the rows of an item in the body of a byte string.

use crate::shared::holds;
use cbor_dump::embedded::{Deepen, dump_body};
use cbor_dump::rows::{Row, Rows};
use ciborium_ll::Spelling;

// How many rows are taken at most.
const MOST_ROWS: usize = 4;

// The rows that were taken: the level, the offset and the length of each.
#[derive(Drop)]
struct Taken {
    deeper: usize,
    count: usize,
    rows: [(usize, usize, usize); MOST_ROWS],
}

impl Taken {
    // Takes no row yet.
    fn new() -> Taken {
        Taken {
            deeper: 0,
            count: 0,
            rows: [(0, 0, 0); MOST_ROWS],
        }
    }

    // Returns whether exactly these rows were taken.
    fn are(&self, rows: &[(usize, usize, usize)]) -> bool {
        self.rows.get(..self.count) == Some(rows)
    }
}

impl Rows for Taken {
    ghost use Rattle.std.specs.Prelude.{None};

    type Error = ();

    ghost drawn = { λ _. None };

    // Takes a row if there is room.
    fn row(&mut self, row: Row<'_>) -> Result<(), ()> {
        let Some(place) = self.rows.get_mut(self.count) else {
            return Err(());
        };
        *place = (
            self.deeper.saturating_add(row.level),
            row.offset,
            row.bytes.len(),
        );
        self.count = self.count.saturating_add(1);
        Ok(())
    }
}

impl Deepen for Taken {
    ghost base = { λ taken. taken.deeper };

    fn deepen(&mut self, levels: usize) {
        self.deeper = levels;
    }
}

// Returns whether a body at the offset 5 is shown two levels deeper by exactly these rows.
fn is_shown(body: &[u8], depth: usize, rows: &[(usize, usize, usize)]) -> bool {
    let mut taken = Taken::new();
    dump_body(body, 5, 2, depth.min(256), Spelling::Shortest, &mut taken) == Ok(true)
        && taken.are(rows)
        && taken.deeper == 0
}

// Returns whether a body is not shown, and no row was taken.
fn is_left(body: &[u8], depth: usize) -> bool {
    let mut taken = Taken::new();
    dump_body(body, 5, 2, depth.min(256), Spelling::Shortest, &mut taken) == Ok(false)
        && taken.are(&[])
}

// A title that begins an element stands one level deeper than its array, and a body one level deeper than its string.
#[test]
fn bodies_that_are_items(rt: HostRuntime) {
    let array = [(2, 5, 1), (3, 6, 1), (3, 7, 2)];
    holds(&rt, is_shown(&[0x82, 1, 0x18, 24], 1, &array), "an array");
    let string = [(2, 5, 1), (3, 6, 3)];
    holds(&rt, is_shown(b"\x43abc", 0, &string), "a string");
    holds(&rt, is_shown(&[0xf6], 0, &[(2, 5, 1)]), "a simple value");
}

// The array lacks an element, two items are not one, a level is missing, and a longer title is not the shortest.
#[test]
fn bodies_that_are_no_items(rt: HostRuntime) {
    holds(&rt, is_left(&[0x82, 1], 1), "an array that is cut");
    holds(&rt, is_left(&[1, 2], 1), "two items");
    holds(&rt, is_left(&[0x81, 1], 0), "an array that is too deep");
    holds(&rt, is_left(&[0x18, 1], 0), "a longer title");
    holds(&rt, is_left(&[], 0), "no bytes");
}

// The fifth row is refused.
#[test]
fn a_row_that_is_refused(rt: HostRuntime) {
    let mut taken = Taken::new();
    let shown = dump_body(&[0x84, 1, 2, 3, 4], 0, 1, 1, Spelling::Shortest, &mut taken);
    holds(&rt, shown == Err(()), "the error of the row");
}
