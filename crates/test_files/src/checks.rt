ghost use Rattle.std.specs.Prelude.{◌≡◌, ◌≤◌, [], vec_capacity};

use crate::dumps::has_no_colors;
use crate::ends::{are_cuts_short, end_as_checked};
use crate::rows::{EXAMPLES, HELPS, MALFORMED, NAMES, REFUSALS, SPELLED, WORDS};
use std::alloc::{AllocError, Global};
use std::io;
use std::process::Abort;
use test_support::streams::PartReader;
use tool_files::arguments::{Options, Request, parse_request};
use tool_files::check::check_input;
use tool_files::digits::Digits;
use tool_files::help::{VERSION, help_text};
use tool_files::said::Said;
use tool_files::shown::Shown;
use tool_verdicts::verdict::Verdict;

// An array of a number and a text.
pub const PAIR: &[u8] = b"\x82\x19\x03\xe8\x61a";

// Requires that a fact of some digits holds.
pub fn holds(rt: &impl Abort, is_right: bool, what: &str, digits: &str) {
    assert!(rt; is_right, "{what}, at {digits}");
}

// Requires that a fact holds. The number is that of a failing call, or counts rows.
pub fn holds_at(rt: &impl Abort, is_right: bool, what: &str, call: usize) {
    assert!(rt; is_right, "{what} {call}");
}

// Puts words that spaces separate into a list.
fn add_words(alloc: Global, list: &mut Vec<String>, words: &str) -> Result<(), AllocError> {
    for word in words.split(' ') {
        list.push(String::from_str(alloc, word)?)?;
    }
    Ok(())
}

// Returns the list of some words.
fn listed(rt: &impl Abort, alloc: Global, words: &str) -> Vec<String> {
    let mut list = Vec::new(alloc);
    holds(
        rt,
        add_words(alloc, &mut list, words).is_ok(),
        "memory",
        words,
    );
    list
}

// Returns a list with room for as many names.
fn room_for<'w>(rt: &impl Abort, alloc: Global, count: usize) -> Vec<&'w str>
    ensures empty { result.items ≡ [] }
    ensures room { count ≤ vec_capacity result }
{
    match Vec::with_capacity(alloc, count) {
        Ok(files) => files,
        Err(_) => panic!(rt; "no memory"),
    }
}

// Returns the options that some words ask for.
pub fn options_of(rt: &impl Abort, alloc: Global, words: &str) -> Options {
    let list = listed(rt, alloc, words);
    let list = list.as_slice();
    let mut files = room_for(rt, alloc, list.len());
    match parse_request(list, &mut files) {
        Ok(Request::Look { options, .. }) => options,
        _ => panic!(rt; "{words} ask for no look"),
    }
}

// Returns the text of a verdict.
pub fn written(rt: &impl Abort, alloc: Global, verdict: Verdict) -> String {
    match format!(in alloc; "{verdict}") {
        Ok(text) => text,
        Err(_) => panic!(rt; "no memory"),
    }
}

// Returns what is found in the bytes that some digits spell.
pub fn found(rt: &impl Abort, alloc: Global, digits: &str, options: Options) -> String {
    let mut reader = Digits::new(digits.as_bytes());
    let verdict = check_input(&mut reader, options);
    written(rt, alloc, judged(&reader, verdict))
}

// Returns the fault of the digits, if they have one, and otherwise the verdict.
pub fn judged(reader: &Digits<&[u8]>, verdict: Verdict) -> Verdict {
    match reader.fault() {
        Some(fault) => Verdict::Text(fault),
        None => verdict,
    }
}

// Returns whether this is found in the bytes that some digits spell.
fn is_found(rt: &impl Abort, alloc: Global, digits: &str, options: Options, want: &str) -> bool {
    found(rt, alloc, digits, options).as_str() == want
}

// Returns the text for an item of this many bytes, if all is well.
fn well(rt: &impl Abort, alloc: Global, bytes: usize) -> String {
    match format!(in alloc; "ok 1 {bytes}") {
        Ok(text) => text,
        Err(_) => panic!(rt; "no memory"),
    }
}

// Requires that an example is one item, also with `--one`, and that each beginning of it is short. Two digits are a
// byte. The text or the rows of each beginning end as the check does, and have no colors.
fn example(rt: &impl Abort, alloc: Global, digits: &str, one: Options) {
    let want = well(rt, alloc, digits.len() / 2);
    let is_well = is_found(rt, alloc, digits, Options::new(), want.as_str())
        && is_found(rt, alloc, digits, one, want.as_str());
    holds(rt, is_well, "well", digits);
    holds(rt, has_no_colors(alloc, digits), "no colors", digits);
    holds(rt, are_cuts_short(rt, alloc, digits), "short", digits);
}

#[test]
fn examples_and_their_cuts(rt: HostRuntime) {
    let one = options_of(&rt, rt.alloc(), "check --one");
    let mut count = 0usize;
    for digits in EXAMPLES.lines() {
        example(&rt, rt.alloc(), digits, one);
        count = count.saturating_add(1);
    }
    holds_at(&rt, count == 90, "examples", count);
}

// Requires that the digits in a line have the verdict after them. The text or the rows of each beginning end as the
// check of it does. It returns how many items there are: a comment is none.
fn malformed(rt: &impl Abort, alloc: Global, line: &str) -> usize {
    match line.split_once(" = ") {
        Some((digits, want)) => {
            let is_right = is_found(rt, alloc, digits, Options::new(), want);
            holds(rt, is_right, want, digits);
            let _ = are_cuts_short(rt, alloc, digits);
            1
        }
        None => 0,
    }
}

#[test]
fn malformed_items(rt: HostRuntime) {
    let mut count = 0usize;
    for line in MALFORMED.lines() {
        count = count.saturating_add(malformed(&rt, rt.alloc(), line));
    }
    holds_at(&rt, count == 110, "malformed items", count);
}

// Requires this verdict on the digits, by the options that some words ask for. The text and the rows end with the same
// verdict, unless one item is wanted: they show all of the input.
fn spelled(rt: &impl Abort, alloc: Global, words: &str, digits: &str, want: &str) {
    let options = options_of(rt, alloc, words);
    let is_right = is_found(rt, alloc, digits, options, want);
    holds(rt, is_right, words, digits);
    if !words.as_bytes().ends_with(b"--one") {
        let _ = end_as_checked(rt, alloc, digits, words, options);
    }
}

#[test]
fn options_and_sequences(rt: HostRuntime) {
    for &(words, digits, want) in &SPELLED {
        spelled(&rt, rt.alloc(), words, digits, want);
    }
}

// Returns whether these files have the names that spaces separate in a text.
fn are_named(files: &[&str], names: &str) -> bool {
    let mut count = 0usize;
    for name in names.split(' ') {
        if !name.is_empty() {
            if !is_at(files, count, name) {
                return false;
            }
            count = count.saturating_add(1);
        }
    }
    count == files.len()
}

// Returns whether a file of this index has this name.
fn is_at(files: &[&str], index: usize, name: &str) -> bool {
    match files.get(index) {
        Some(file) => *file == name,
        None => false,
    }
}

// Returns whether the words ask for a look at these files, or, if there are none, for no look.
fn are_asked(rt: &impl Abort, alloc: Global, words: &str, names: Option<&str>) -> bool {
    let list = listed(rt, alloc, words);
    let list = list.as_slice();
    let mut files = room_for(rt, alloc, list.len());
    match (parse_request(list, &mut files), names) {
        (Ok(Request::Look { .. }), Some(names)) => are_named(files.as_slice(), names),
        (Ok(Request::Look { .. }), None) | (_, Some(_)) => false,
        (_, None) => true,
    }
}

#[test]
fn words(rt: HostRuntime) {
    for &(words, names) in &WORDS {
        let is_right = are_asked(&rt, rt.alloc(), words, names);
        holds(&rt, is_right, "files", words);
    }
}

// Returns whether the words ask for a help text or the version that begins like this.
fn is_helped(rt: &impl Abort, alloc: Global, words: &str, start: &str) -> bool {
    let list = listed(rt, alloc, words);
    let list = list.as_slice();
    let mut files = room_for(rt, alloc, list.len());
    let text = match parse_request(list, &mut files) {
        Ok(Request::Help(topic)) => help_text(topic),
        Ok(Request::Version) => VERSION,
        _ => return false,
    };
    text.as_bytes().starts_with(start.as_bytes())
}

#[test]
fn texts_of_help(rt: HostRuntime) {
    for &(words, start) in &HELPS {
        holds(&rt, is_helped(&rt, rt.alloc(), words, start), "help", words);
    }
}

// Returns whether this is said of words that ask for nothing.
fn is_said(rt: &impl Abort, alloc: Global, words: &str, want: &str) -> bool {
    let list = listed(rt, alloc, words);
    let list = list.as_slice();
    let mut files = room_for(rt, alloc, list.len());
    match parse_request(list, &mut files) {
        Ok(_) => false,
        Err(refusal) => match format!(in alloc; "{}", Said::new(alloc, refusal)) {
            Ok(text) => text.as_str() == want,
            Err(_) => false,
        },
    }
}

#[test]
fn texts_of_refusals(rt: HostRuntime) {
    for &(words, want) in &REFUSALS {
        holds(&rt, is_said(&rt, rt.alloc(), words, want), "said", words);
    }
}

// Returns whether the name is shown as this.
fn is_shown_as(alloc: Global, name: &str, want: &str) -> bool {
    match format!(in alloc; "{}", Shown(name)) {
        Ok(text) => text.as_str() == want,
        Err(_) => false,
    }
}

#[test]
fn names_that_are_shown(rt: HostRuntime) {
    for &(name, want) in &NAMES {
        holds(&rt, is_shown_as(rt.alloc(), name, want), "shown", want);
    }
}

// Returns whether this is found if each call of the reader gives a byte, and one call fails.
fn is_found_failing(rt: &impl Abort, alloc: Global, bytes: &[u8], call: usize, want: &str) -> bool {
    let reader = PartReader::new(bytes, 1).failing_at(call, io::ErrorKind::TimedOut);
    let verdict = check_input(reader, Options::new());
    written(rt, alloc, verdict).as_str() == want
}

#[test]
fn a_read_that_fails(rt: HostRuntime) {
    let bytes = b"\x82\x19\x03\xe8\x62\xc3\xa9\x01";
    for call in 1..=10usize {
        let want = if call < 10 { "timed out" } else { "ok 2 8" };
        let is_right = is_found_failing(&rt, rt.alloc(), bytes, call, want);
        holds_at(&rt, is_right, want, call);
    }
}
