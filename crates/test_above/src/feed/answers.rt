ghost use Rattle.std.specs.Prelude.{◌≤◌, length};

use cbor_checker::{Checker, Fault, Progress, Snapshot};
use cbor_skip::{SkipError, skip_item};
use ciborium_ll::io::{EndOfFile, SliceReader};
use ciborium_ll::{Decoder, Error, Spelling};
use std::process::Abort;

// How many levels the tests allow.
pub const DEPTH: usize = 4;

// Feeds bytes in one piece.
pub fn at_once(spelling: Spelling, bytes: &[u8]) -> Progress {
    let mut checker = Checker::with_spelling(DEPTH, spelling);
    checker.feed(bytes).progress
}

// Feeds bytes in two pieces, cut at `cut`.
fn in_two(bytes: &[u8], cut: usize) -> Progress
    requires { cut ≤ length bytes.now }
{
    let mut checker = Checker::new(DEPTH);
    let _ = checker.feed(&bytes[..cut]);
    checker.feed(&bytes[cut..]).progress
}

// Feeds each byte by itself, and an empty piece after each byte if `empties` is set.
fn one_by_one(spelling: Spelling, bytes: &[u8], empties: bool) -> Progress {
    let mut checker = Checker::with_spelling(DEPTH, spelling);
    for byte in bytes {
        let _ = checker.feed(&[*byte]);
        if empties {
            let _ = checker.feed(&[]);
        }
    }
    checker.progress()
}

// Returns the progress of the checker with this saved state.
fn progress_of(memory: &Snapshot) -> Option<Progress> {
    Some(Checker::restore(memory)?.progress())
}

// Feeds a byte to the checker with this saved state, and saves it again. It returns whether there is a checker with
// this state.
fn feeds_kept(memory: &mut Snapshot, byte: u8) -> bool {
    match Checker::restore(memory) {
        Some(mut checker) => {
            let _ = checker.feed(&[byte]);
            checker.save(memory);
            true
        }
        None => false,
    }
}

// Feeds each byte by itself to a checker that is restored before the byte and saved after it.
fn kept_between(bytes: &[u8]) -> Option<Progress> {
    let mut memory = Snapshot::new();
    Checker::new(DEPTH).save(&mut memory);
    for byte in bytes {
        if !feeds_kept(&mut memory, *byte) {
            return None;
        }
    }
    progress_of(&memory)
}

// Feeds each byte by itself to a checker's saved state, in place.
fn fed_in_place(bytes: &[u8]) -> Option<Progress> {
    let mut memory = Snapshot::new();
    Checker::new(DEPTH).save(&mut memory);
    for byte in bytes {
        if memory.feed(&[*byte]).is_none() {
            return None;
        }
    }
    progress_of(&memory)
}

// The answer of a skip. It names no fault if the bytes end too early.
pub type Skipped = Result<(), Option<Fault>>;

// Returns the plain answer of an outcome.
pub fn skipped_of(outcome: Result<(), SkipError<EndOfFile>>) -> Skipped {
    match outcome {
        Ok(()) => Ok(()),
        Err(SkipError::Break(place)) => Err(Some(Fault::Break(place))),
        Err(SkipError::Deep(place)) => Err(Some(Fault::Deep(place))),
        Err(SkipError::Read(Error::Syntax(place))) => Err(Some(Fault::Syntax(place))),
        Err(SkipError::Read(_)) => Err(None),
    }
}

// Returns the answer of a skip of the bytes, and how far it comes.
fn skips(spelling: Spelling, bytes: &[u8]) -> (Skipped, usize) {
    let mut decoder = Decoder::with_spelling(SliceReader::new(bytes), spelling, 0);
    let outcome = skip_item(&mut decoder, DEPTH, &mut [0; 4]);
    (skipped_of(outcome), decoder.offset())
}

// Returns whether a skip of the bytes says the same. If bytes end within a title or a body, a skip says that they end,
// also if no item begins so.
fn agrees(progress: Progress, bytes: &[u8]) -> bool {
    let (skipped, offset) = skips(Spelling::Any, bytes);
    match skipped {
        Ok(()) => progress == Progress::Ended(offset),
        Err(Some(fault)) => progress == Progress::Fault(fault),
        Err(None) => matches!(progress, Progress::More(_) | Progress::Fault(_)),
    }
}

// Returns whether a skip by a strict decoder takes the bytes too, or refuses them too.
fn agrees_strictly(progress: Progress, bytes: &[u8]) -> bool {
    let (skipped, offset) = skips(Spelling::Shortest, bytes);
    match progress {
        Progress::Ended(length) => skipped.is_ok() && length == offset,
        _ => skipped.is_err(),
    }
}

// Returns whether bytes in two pieces have the same answer wherever they are cut.
fn agree_cut(bytes: &[u8], whole: Progress) -> bool {
    for cut in 0..bytes.len() {
        if in_two(bytes, cut) != whole {
            return false;
        }
    }
    true
}

// Returns in which ways a checker answers the same, and as a skip does.
fn ways(bytes: &[u8]) -> [bool; 5] {
    let whole = at_once(Spelling::Any, bytes);
    [
        agrees(whole, bytes),
        one_by_one(Spelling::Any, bytes, true) == whole,
        kept_between(bytes) == Some(whole),
        fed_in_place(bytes) == Some(whole),
        agree_cut(bytes, whole),
    ]
}

// Returns in which ways a strict checker answers the same, and as a skip does.
fn strict_ways(bytes: &[u8]) -> [bool; 3] {
    let whole = at_once(Spelling::Shortest, bytes);
    [
        agrees_strictly(whole, bytes),
        one_by_one(Spelling::Shortest, bytes, true) == whole,
        one_by_one(Spelling::Shortest, bytes, false) == whole,
    ]
}

// Feeds bytes in all ways to checkers of both kinds, and compares the answers with one another and with a skip. The
// message says in which ways they are right.
pub fn all_ways(rt: &impl Abort, bytes: &[u8]) {
    let ways = ways(bytes);
    let strict = strict_ways(bytes);
    let are_right = !ways.contains(&false) && !strict.contains(&false);
    assert!(rt; are_right, "the ways {ways:?} and {strict:?}, at {bytes:?}");
}
