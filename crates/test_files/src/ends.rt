// The text and the rows end as a check does.

use crate::checks::{found, holds, judged, written};
use crate::dumps::are_digits;
use std::alloc::Global;
use std::process::Abort;
use tool_files::arguments::Options;
use tool_files::digits::Digits;
use tool_files::dump::dump_input;
use tool_files::items::diag_input;
use tool_verdicts::verdict::Verdict;

// Returns whether the fault is the same, and, except for the end of the bytes, at the same place.
fn ends_as(rt: &impl Abort, alloc: Global, outcome: Result<(), Verdict>, want: &str) -> bool {
    match outcome {
        Ok(()) => want.as_bytes().starts_with(b"ok "),
        Err(Verdict::Short(_)) => want.as_bytes().starts_with(b"short "),
        Err(verdict) => written(rt, alloc, verdict).as_str() == want,
    }
}

// Returns the outcome, or the fault of the digits.
fn outcome_of(reader: &Digits<&[u8]>, outcome: Result<(), Verdict>) -> Result<(), Verdict> {
    match outcome {
        Ok(()) => Ok(()),
        Err(verdict) => Err(judged(reader, verdict)),
    }
}

// Returns whether a text in diagnostic notation ends with this verdict.
fn text_ends_as(
    rt: &impl Abort,
    alloc: Global,
    digits: &str,
    options: Options,
    want: &str,
) -> bool {
    let mut text = Vec::new(alloc);
    let mut reader = Digits::new(digits.as_bytes());
    let outcome = diag_input(&mut reader, &mut text, options);
    ends_as(rt, alloc, outcome_of(&reader, outcome), want)
}

// Returns whether a dump ends with this verdict.
fn dump_ends_as(
    rt: &impl Abort,
    alloc: Global,
    digits: &str,
    options: Options,
    want: &str,
) -> bool {
    let mut text = Vec::new(alloc);
    let mut reader = Digits::new(digits.as_bytes());
    let outcome = dump_input(alloc, &mut reader, &mut text, options, false);
    ends_as(rt, alloc, outcome_of(&reader, outcome), want)
}

// Requires that the text and the rows end as the check does, by the options that some words ask for. It returns whether
// the bytes end too early.
pub fn end_as_checked(
    rt: &impl Abort,
    alloc: Global,
    digits: &str,
    words: &str,
    options: Options,
) -> bool {
    let want = found(rt, alloc, digits, options);
    let is_right = text_ends_as(rt, alloc, digits, options, want.as_str())
        && dump_ends_as(rt, alloc, digits, options, want.as_str());
    holds(rt, is_right, words, digits);
    want.as_bytes().starts_with(b"short ")
}

// Requires that the text and the rows of each beginning of the digits end as the check does, and that the dump shows
// the bytes. It returns whether each beginning ends too early, except the empty one and the whole.
pub fn are_cuts_short(rt: &impl Abort, alloc: Global, digits: &str) -> bool {
    let length = digits.len() / 2;
    let mut are_short = true;
    for end in 0..=length {
        let cut = digits.get(..2 * end).unwrap_or("");
        let is_short = end_as_checked(rt, alloc, cut, "a text or a dump", Options::new());
        holds(rt, are_digits(alloc, cut), "digits of a dump", cut);
        are_short = are_short && (is_short || end == 0 || end == length);
    }
    are_short
}
