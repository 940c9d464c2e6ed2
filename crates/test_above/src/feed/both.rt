use crate::feed::answers::{Skipped, skipped_of};
use crate::shared::{MOST, decoded, holds};
use cbor_checker::{Fault, Progress};
use cbor_checker_laws::feed_and_skip;
use ciborium_ll::Spelling;
use std::process::Abort;

// Bytes, the spelling that is taken, the levels, and the answers of a checker and of a skip. These differ in the last
// three rows: an item that is cut off, a text that is cut off and damaged, and a nest that has no level left and a
// title that is not the shortest.
type Row = (&'static str, Spelling, usize, Progress, Skipped);

static ROWS: [Row; 12] = [
    ("0001", Spelling::Shortest, 0, Progress::Ended(1), Ok(())),
    (
        "ff",
        Spelling::Any,
        4,
        Progress::Fault(Fault::Break(0)),
        Err(Some(Fault::Break(0))),
    ),
    (
        "bf00ff",
        Spelling::Any,
        4,
        Progress::Fault(Fault::Break(2)),
        Err(Some(Fault::Break(2))),
    ),
    (
        "8180",
        Spelling::Any,
        1,
        Progress::Fault(Fault::Deep(1)),
        Err(Some(Fault::Deep(1))),
    ),
    (
        "c19a00000001",
        Spelling::Any,
        1,
        Progress::Fault(Fault::Deep(1)),
        Err(Some(Fault::Deep(1))),
    ),
    (
        "8201fc",
        Spelling::Any,
        4,
        Progress::Fault(Fault::Syntax(2)),
        Err(Some(Fault::Syntax(2))),
    ),
    (
        "7f6161580100",
        Spelling::Any,
        4,
        Progress::Fault(Fault::Syntax(3)),
        Err(Some(Fault::Syntax(3))),
    ),
    ("8179000161ff", Spelling::Any, 4, Progress::Ended(5), Ok(())),
    (
        "81790001ff",
        Spelling::Any,
        4,
        Progress::Fault(Fault::Syntax(3)),
        Err(Some(Fault::Syntax(3))),
    ),
    ("8219", Spelling::Any, 4, Progress::More(2), Err(None)),
    (
        "7864ff",
        Spelling::Any,
        4,
        Progress::Fault(Fault::Syntax(0)),
        Err(None),
    ),
    (
        "980100",
        Spelling::Shortest,
        0,
        Progress::Fault(Fault::Deep(0)),
        Err(Some(Fault::Syntax(0))),
    ),
];

// Returns whether both give this answer to a few bytes.
fn is_right(
    bytes: &[u8],
    spelling: Spelling,
    depth: usize,
    want: Progress,
    skipped: Skipped,
) -> bool {
    if bytes.len() > 64 || depth > 256 {
        return false;
    }
    let (progress, outcome) = feed_and_skip(bytes, spelling, depth);
    progress == want && skipped_of(outcome) == skipped
}

// Requires that both give this answer to the bytes that the digits spell.
fn row(
    rt: &impl Abort,
    digits: &str,
    spelling: Spelling,
    depth: usize,
    want: Progress,
    skipped: Skipped,
) {
    let mut space = [0; MOST];
    let bytes = decoded(rt, digits, &mut space);
    holds(rt, is_right(bytes, spelling, depth, want, skipped), digits);
}

#[test]
fn both_answers(rt: HostRuntime) {
    for &(digits, spelling, depth, want, skipped) in &ROWS {
        row(&rt, digits, spelling, depth, want, skipped);
    }
}
