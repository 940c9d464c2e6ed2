// Every list of one and of two bytes, answered by `run`, beside answers that the test prints from `pull` and `recode`.

use super::answers::{holds, runs};
use ciborium_ll::io::{SliceReader, SliceWriter};
use ciborium_ll::recode::recode;
use ciborium_ll::{Decoder, Encoder, Error, Float, Header, RecodeError};
use std::alloc::{AllocError, Global};
use std::fmt::Write;
use std::process::Abort;
use test_support::plain::Fault;

// Adds a word and a number after it.
pub fn add_number(text: &mut String, name: &str, number: u64) -> Result<(), AllocError> {
    write!(text, "{name} {number}")
}

fn add_length(text: &mut String, name: &str, length: Option<usize>) -> Result<(), AllocError> {
    match length {
        Some(n) => add_number(text, name, n as u64),
        None => write!(text, "{name} *"),
    }
}

// Adds the width of a float, and its bits in as many digits.
fn add_float(text: &mut String, float: Float) -> Result<(), AllocError> {
    let (name, bits, width) = match float {
        Float::Half(bits) => ("half", u64::from(bits), 4usize),
        Float::Single(bits) => ("single", u64::from(bits), 8),
        Float::Double(bits) => ("double", bits, 16),
    };
    write!(text, "{name} {bits:0width$x}")
}

// Adds the name of a header, with its value.
pub fn add_header(text: &mut String, header: Header) -> Result<(), AllocError> {
    match header {
        Header::Bytes(length) => add_length(text, "bytes", length),
        Header::Text(length) => add_length(text, "text", length),
        Header::Array(length) => add_length(text, "array", length),
        Header::Map(length) => add_length(text, "map", length),
        Header::Positive(n) => add_number(text, "positive", n),
        Header::Negative(n) => add_number(text, "negative", n),
        Header::Tag(n) => add_number(text, "tag", n),
        Header::Simple(n) => add_number(text, "simple", u64::from(n)),
        Header::Float(float) => add_float(text, float),
        Header::Break => text.push_str("break"),
    }
}

// Adds the line on one title.
pub fn add_title(text: &mut String, offset: usize, header: Header) -> Result<(), AllocError> {
    write!(text, "{offset} ")?;
    add_header(text, header)?;
    text.push_str("\n")
}

// Adds a line that ends in an offset.
pub fn add_end(text: &mut String, word: &str, offset: usize) -> Result<(), AllocError> {
    writeln!(text, "{word} {offset}")
}

// Adds the answer of `heads`.
fn add_heads(text: &mut String, bytes: &[u8]) -> Result<(), AllocError> {
    let mut decoder = Decoder::from(SliceReader::new(bytes));
    for _ in 0..=bytes.len() {
        let start = decoder.offset();
        let (word, place) = match decoder.pull() {
            Ok(header) => {
                add_title(text, start, header)?;
                continue;
            }
            Err(Error::Syntax(place)) => ("syntax", place),
            Err(Error::Io(_)) if start == bytes.len() => ("end", decoder.offset()),
            Err(Error::Io(_)) => ("short", decoder.offset()),
            Err(_) => ("another fault at", decoder.offset()),
        };
        return add_end(text, word, place);
    }
    Ok(())
}

fn add_byte(text: &mut String, byte: u8) -> Result<(), AllocError> {
    write!(text, "{byte:02x}")
}

// Adds bytes in digits, or a dash for none.
pub fn add_bytes(text: &mut String, bytes: &[u8]) -> Result<(), AllocError> {
    if bytes.is_empty() {
        return text.push_str("-");
    }
    for byte in bytes {
        add_byte(text, *byte)?;
    }
    Ok(())
}

// Adds the end of a line on a copy that is whole.
pub fn add_rest(text: &mut String, rest: &[u8]) -> Result<(), AllocError> {
    text.push_str(" rest ")?;
    add_bytes(text, rest)?;
    text.push_str("\n")
}

// Adds the bytes that a copy wrote, and the bytes that are left, or why and where it stopped.
pub fn add_copied(
    text: &mut String,
    written: &[u8],
    left: &[u8],
    offset: usize,
    fault: Option<Fault>,
) -> Result<(), AllocError> {
    add_bytes(text, written)?;
    match fault {
        None => add_rest(text, left),
        Some(Fault::Syntax(place)) => add_end(text, " syntax", place),
        Some(Fault::Short | Fault::ShortAndDamaged(_)) => add_end(text, " short", offset),
    }
}

// Copies an element, and returns why the copy stopped. An unexpected fault gets a place that no byte has.
fn copies(
    decoder: &mut Decoder<SliceReader<'_>>,
    encoder: &mut Encoder<SliceWriter<'_>>,
) -> Option<Fault> {
    match recode(decoder, encoder, 1, &mut [0; 4]) {
        Ok(()) => None,
        Err(RecodeError::Read(Error::Syntax(place))) => Some(Fault::Syntax(place)),
        Err(RecodeError::Read(Error::Io(_))) => Some(Fault::Short),
        Err(_) => Some(Fault::Syntax(usize::MAX)),
    }
}

// Adds the answer of `recode 1`.
fn add_copy(text: &mut String, bytes: &[u8]) -> Result<(), AllocError> {
    let mut space = [0; 2];
    let mut decoder = Decoder::from(SliceReader::new(bytes));
    let mut encoder = Encoder::from(SliceWriter::new(&mut space));
    let fault = copies(&mut decoder, &mut encoder);
    let offset = decoder.offset();
    let reader = decoder.into_inner();
    let writer = encoder.into_inner();
    add_copied(text, writer.written(), reader.left(), offset, fault)
}

// Adds a line of a word and some bytes.
pub fn add_line(input: &mut String, word: &str, bytes: &[u8]) -> Result<(), AllocError> {
    input.push_str(word)?;
    add_bytes(input, bytes)?;
    input.push_str("\n")
}

// Adds the two lines on some bytes, and their answers.
fn add_lines(input: &mut String, want: &mut String, bytes: &[u8]) -> Result<(), AllocError> {
    add_line(input, "heads ", bytes)?;
    add_line(input, "recode 1 ", bytes)?;
    add_heads(want, bytes)?;
    add_copy(want, bytes)
}

// Adds the lines on a byte alone and with each byte after it, and their answers.
fn add_lines_from(input: &mut String, want: &mut String, first: u8) -> Result<(), AllocError> {
    add_lines(input, want, &[first])?;
    for second in 0..=u8::MAX {
        add_lines(input, want, &[first, second])?;
    }
    Ok(())
}

// Adds the lines on each list of one and of two bytes, and their answers.
fn add_all_lines(input: &mut String, want: &mut String) -> Result<(), AllocError> {
    for first in 0..=u8::MAX {
        add_lines_from(input, want, first)?;
    }
    Ok(())
}

// Compares the answers line by line, for a short message. It returns how many lines there are.
fn compare(rt: &impl Abort, output: &[u8], want: &str) -> usize {
    let mut left = output;
    let mut count = 0usize;
    for due in want.split_inclusive('\n') {
        let rest = left.strip_prefix(due.as_bytes());
        holds(rt, rest.is_some(), due);
        left = rest.unwrap_or(&[]);
        count = count.saturating_add(1);
    }
    holds(rt, left.is_empty(), "the length of the output");
    count
}

// Runs lines, and compares the answers. It returns how many lines these are.
fn run_as(rt: &impl Abort, alloc: Global, input: &str, want: &str) -> usize {
    let mut output = Vec::new(alloc);
    holds(rt, runs(alloc, input.as_bytes(), &mut output), "a run");
    compare(rt, output.as_slice(), want)
}

// `heads` answers 197 lists of one byte with a title and an end, and 32 and 27 with one line. In a list of two bytes a
// title may come first, which adds a line. The first byte may also have the second as its affix, need more bytes, or be
// refused. The answer to a copy of each list has one line.
const OF_ONE: usize = 2 * 197 + 32 + 27;

const OF_TWO: usize = 197 * (OF_ONE + 256) + 8 * 2 * 256 + 24 * 256 + 27 * 256;

const OF_COPIES: usize = 256 + 65_536;

// This test fails for a program that knows only some lines by heart.
#[test]
fn every_list_of_one_and_two_bytes(rt: HostRuntime) {
    let mut input = String::new(rt.alloc());
    let mut want = String::new(rt.alloc());
    let is_added = add_all_lines(&mut input, &mut want).is_ok();
    let count = run_as(&rt, rt.alloc(), input.as_str(), want.as_str());
    let is_all = count == OF_ONE + OF_TWO + OF_COPIES;
    holds(&rt, is_added && is_all, "how many lines are answered");
}
