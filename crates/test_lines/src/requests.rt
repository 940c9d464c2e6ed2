// The requests of the program: lines and arguments, lines and arguments that are no request, and where lines end.

use super::answers::{add_line_of, holds, holds_at, is_answered};
use super::every::{add_end, add_title};
use ciborium_ll::Header;
use std::alloc::{AllocError, Global};
use tool_requests::arguments::chosen;
use tool_requests::choice::Chosen;
use tool_requests::word::{bytes_of, word_of};

// Skips an item in this many arrays of one item, and compares the answer.
fn is_deep_answered(alloc: Global, levels: usize, want: &[u8]) -> bool {
    let mut line = Vec::new(alloc);
    add_line_of(&mut line, b"skip 256 ", b"81", levels, b"00").is_ok()
        && is_answered(alloc, line.as_slice(), want)
}

#[test]
fn the_deepest_item(rt: HostRuntime) {
    let is_right = is_deep_answered(rt.alloc(), 256, b"item 257\n");
    holds(&rt, is_right, "as many arrays as are taken");
    let is_right = is_deep_answered(rt.alloc(), 257, b"deep 256\n");
    holds(&rt, is_right, "one more");
}

// The line after a line that is no request. The first line must not change the answer to the second.
const BEHIND: &[u8] = b"\nheads 00";

const REFUSED: &[u8] = b"error: line\n0 positive 0\nend 1\n";

// Runs a line that is no request, and a line that is a request.
fn is_refused(alloc: Global, line: &[u8]) -> bool {
    let mut input = Vec::new(alloc);
    input.extend_from_slice(line).is_ok()
        && input.extend_from_slice(BEHIND).is_ok()
        && is_answered(alloc, input.as_slice(), REFUSED)
}

// Bars separate the lines. The first line is empty.
const NO_REQUESTS: &[u8] = b"\
    | |heads|heads |heads 0|heads 0g|heads  00|heads 00 | heads 00|heads 00 00\
    |heads 00\r|heads -00|Heads 00|heads \xff\
    |chunks 4|chunks 4 |chunks 4  00|chunks  4 00|chunks 01 00|chunks +1 00\
    |chunks * 00|chunks 65537 00\
    |bytes 4294967296 00|bytes 00 00|bytes ** 00\
    |text - 00|text 4 0\
    |recode 1|recode 1 |recode * 00|recode 01 00|recode 4294967296 00\
    |strict 1|strict * 00\
    |skip|skip 1|skip 257 00|skip 01 00|skip * 00";

#[test]
fn lines_that_are_no_request(rt: HostRuntime) {
    for line in NO_REQUESTS.split(|byte| *byte == b'|') {
        holds_at(&rt, is_refused(rt.alloc(), line), line);
    }
}

// Inputs, and their answers.
static ENDS: [(&str, &str); 5] = [
    ("", ""),
    ("\n", "error: line\n"),
    ("heads -", "end 0\n"),
    ("heads -\n", "end 0\n"),
    ("heads -\n\nheads -\n", "end 0\nerror: line\nend 0\n"),
];

#[test]
fn where_lines_end(rt: HostRuntime) {
    for &(input, want) in &ENDS {
        let is_right = is_answered(rt.alloc(), input.as_bytes(), want.as_bytes());
        holds(&rt, is_right, input);
    }
}

// Adds the answer for a byte string of 65,535 bytes, of which 9,998 are there, each a break.
fn add_breaks(answer: &mut String) -> Result<(), AllocError> {
    add_title(answer, 0, Header::Bytes(Some(65_535)))?;
    for offset in 3..10_001 {
        add_title(answer, offset, Header::Break)?;
    }
    add_end(answer, "end", 10_001)
}

// Returns whether a line of 10,000 bytes after the first line is answered.
fn is_long_line_answered(alloc: Global) -> bool {
    let mut input = Vec::new(alloc);
    let mut want = String::new(alloc);
    add_line_of(&mut input, b"heads 59", b"ff", 10_000, b"").is_ok()
        && add_breaks(&mut want).is_ok()
        && is_answered(alloc, input.as_slice(), want.as_bytes())
}

#[test]
fn a_line_longer_than_a_read(rt: HostRuntime) {
    holds(
        &rt,
        is_long_line_answered(rt.alloc()),
        "a line of 10,000 bytes",
    );
}

// Reads a word as bytes, and compares them. If it is no word of bytes, no bytes are expected.
fn is_read_as(alloc: Global, word: &str, want: Option<&[u8]>) -> bool {
    match bytes_of(alloc, word) {
        Ok(Some(bytes)) => want == Some(bytes.as_slice()),
        Ok(None) => want.is_none(),
        Err(_) => false,
    }
}

fn is_written_as(alloc: Global, bytes: &[u8], want: &str) -> bool {
    match word_of(alloc, bytes) {
        Ok(word) => word.as_str() == want,
        Err(_) => false,
    }
}

// Words, and the bytes that they are.
static WORDS: [(&str, Option<&[u8]>); 8] = [
    ("-", Some(&[])),
    ("00", Some(&[0])),
    ("0aFf", Some(&[10, 255])),
    ("", None),
    ("--", None),
    ("0", None),
    ("0g", None),
    ("-0", None),
];

#[test]
fn words_of_bytes(rt: HostRuntime) {
    for &(word, want) in &WORDS {
        holds(&rt, is_read_as(rt.alloc(), word, want), word);
    }
    let is_right = is_written_as(rt.alloc(), &[], "-")
        && is_written_as(rt.alloc(), &[10, 255], "0aff");
    holds(&rt, is_right, "no bytes, and two");
}

// Adds words that spaces separate.
fn add_words(alloc: Global, words: &mut Vec<String>, text: &str) -> Result<(), AllocError> {
    for word in text.split_whitespace() {
        words.push(String::from_str(alloc, word)?)?;
    }
    Ok(())
}

// Returns whether these words ask for this.
fn asks_for(alloc: Global, text: &str, want: &Chosen) -> bool {
    let mut words = Vec::new(alloc);
    add_words(alloc, &mut words, text).is_ok() && chosen(words.as_slice()) == *want
}

// Arguments, and what they ask for.
static ARGUMENTS: [(&str, Chosen); 9] = [
    ("", Chosen::Lines),
    ("recode 0", Chosen::Raw(0)),
    ("recode 4294967295", Chosen::Raw(4_294_967_295)),
    ("recode 01", Chosen::Usage),
    ("recode 4294967296", Chosen::Usage),
    ("recode", Chosen::Usage),
    ("recode 1 2", Chosen::Usage),
    ("heads 1", Chosen::Usage),
    ("1 recode", Chosen::Usage),
];

#[test]
fn choices_of_arguments(rt: HostRuntime) {
    for (text, want) in &ARGUMENTS {
        holds(&rt, asks_for(rt.alloc(), text, want), text);
    }
}
