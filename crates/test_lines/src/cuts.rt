// Lines on each beginning of each sample, beside the answers by a plain reading of the bytes.

use super::answers::{MOST, decoded, holds, is_answered};
use super::every::{add_copied, add_end, add_line, add_number, add_title};
use std::alloc::{AllocError, Global};
use std::process::Abort;
use std::test::Fail;
use test_support::plain::{self, Copied, Fault};
use test_support::samples;

// Adds the expected answer to `heads`.
fn add_heads(text: &mut String, bytes: &[u8]) -> Result<(), AllocError> {
    let mut offset = 0usize;
    for _ in 0..=bytes.len() {
        let start = offset;
        match plain::next_title(bytes, &mut offset) {
            Ok(title) => add_title(text, start, title.header())?,
            Err(Fault::Syntax(place)) => return add_end(text, "syntax", place),
            Err(Fault::Short | Fault::ShortAndDamaged(_)) => {
                let word = if start == bytes.len() { "end" } else { "short" };
                return add_end(text, word, offset);
            }
        }
    }
    Ok(())
}

// Adds the expected answer to `recode`.
fn add_copy(text: &mut String, copied: &Copied, bytes: &[u8]) -> Result<(), AllocError> {
    let left = bytes.get(copied.offset..).unwrap_or(&[]);
    add_copied(
        text,
        copied.output.as_slice(),
        left,
        copied.offset,
        copied.fault,
    )
}

// Adds the lines on some bytes.
fn add_lines(lines: &mut String, count: usize, bytes: &[u8]) -> Result<(), AllocError> {
    add_line(lines, "heads ", bytes)?;
    add_line(lines, "recode 1 ", bytes)?;
    add_number(lines, "recode", count as u64)?;
    add_line(lines, " ", bytes)
}

// Adds the expected answers to these lines, by the plain copies of one element and of all elements.
fn add_answers(
    want: &mut String,
    bytes: &[u8],
    one: &Copied,
    all: &Copied,
) -> Result<(), AllocError> {
    add_heads(want, bytes)?;
    add_copy(want, one, bytes)?;
    add_copy(want, all, bytes)
}

// Runs the lines on some bytes, and compares the answers with the expected ones.
fn is_answered_so(
    rt: &impl Abort,
    alloc: Global,
    count: usize,
    bytes: &[u8],
    one: &Copied,
    all: &Copied,
) {
    let mut lines = String::new(alloc);
    let mut want = String::new(alloc);
    let is_right = add_lines(&mut lines, count, bytes).is_ok()
        && add_answers(&mut want, bytes, one, all).is_ok()
        && is_answered(alloc, lines.as_bytes(), want.as_bytes());
    holds(rt, is_right, lines.as_str());
}

fn has_plain_answer(
    rt: &impl Abort,
    alloc: Global,
    count: usize,
    bytes: &[u8],
) -> Result<(), Fail> {
    let one = plain::copy(alloc, false, 1, bytes)?;
    let all = plain::copy(alloc, false, count, bytes)?;
    is_answered_so(rt, alloc, count, bytes, &one, &all);
    Ok(())
}

fn answers_each_front(
    rt: &impl Abort,
    alloc: Global,
    count: usize,
    digits: &str,
) -> Result<(), Fail> {
    let mut space = [0; MOST];
    let bytes = decoded(rt, digits, &mut space);
    for end in 0..=bytes.len() {
        has_plain_answer(rt, alloc, count, &bytes[..end])?;
    }
    Ok(())
}

fn answers_each(rt: &impl Abort, alloc: Global, all: &[(usize, &str)]) -> Result<(), Fail> {
    for &(count, digits) in all {
        answers_each_front(rt, alloc, count, digits)?;
    }
    Ok(())
}

#[test]
fn each_sample_cut_at_each_place(rt: HostRuntime) -> Result<(), Fail> {
    let all = samples::all(rt.alloc())?;
    answers_each(&rt, rt.alloc(), all.as_slice())
}
