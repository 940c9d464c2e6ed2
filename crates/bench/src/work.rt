//! The works on the bytes, and how often each runs.

ghost use Rattle.std.specs.Prelude.{◌≤◌, length};
ghost use Rattle.ciborium_ll.specs.Limits.{LEAST_BUFFER};

use cbor_ahead::skip_slice;
use cbor_skip::skip_item;
use ciborium_ll::io::{SliceReader, SliceWriter};
use ciborium_ll::limits::MOST_LEVELS;
use ciborium_ll::recode::recode;
use ciborium_ll::skip::{skip_bytes, skip_text};
use ciborium_ll::{Decoder, Encoder, Error, Header};

/// The greatest buffer that bodies of strings are read through.
const MOST_SIZE: usize = 4096;

/// The work of a task on the bytes.
#[derive(Clone, Copy)]
pub enum Work {
    /// It pulls headers, and reads bodies of strings as titles.
    Pull,
    /// It pulls headers by a strict decoder.
    StrictPull,
    /// It pulls and pushes headers, and reads bodies of strings as titles.
    Push,
    /// It copies elements.
    Recode,
    /// It copies elements by a strict decoder.
    StrictRecode,
    /// It reads the string that the bytes begin with to its end.
    Skip,
    /// It skips items.
    Items,
    /// It skips items of a slice by a checker.
    Slice,
    /// It pulls headers and skips bodies of strings, whatever contains them.
    Flat,
    /// It writes the bytes as a text.
    Text,
}

/// A work, and how it is done.
#[derive(Clone, Copy)]
pub struct Task {
    /// The work that the task does.
    pub work: Work,
    /// The size of the buffer that bodies of strings are read through, and the limit of the segments of `Text`.
    pub size: usize,
    /// The number of elements that it copies, or of items that it skips.
    pub count: usize,
    /// The number of times that it does so.
    pub rounds: usize,
}

impl Task {
    /// Runs the work `rounds` times, and returns the sum of the rounds' results.
    pub fn run_rounds(&self, input: &[u8], output: &mut [u8]) -> u64 {
        let task = *self;
        let mut space = [0; MOST_SIZE];
        let buffer = &mut space[..task.size.clamp(4, MOST_SIZE)];
        let text = str::from_utf8(input).unwrap_or("");
        let mut sum = 0;
        'rounds: for _ in 0..task.rounds {
            sum = match task.work {
                Work::Pull => pull_headers(input, sum),
                Work::StrictPull => pull_strictly(input, sum),
                Work::Push => push_headers(input, output, sum),
                Work::Recode => copy_elements(input, output, task.count, buffer, sum),
                Work::StrictRecode => copy_strictly(input, output, task.count, buffer, sum),
                Work::Skip => skip_string(input, buffer, sum),
                Work::Items => skip_items(input, task.count, buffer, sum),
                Work::Slice => skip_slices(input, task.count, buffer, sum),
                Work::Flat => skip_bodies(input, buffer, sum),
                Work::Text => write_text(text, task.size, output, sum),
            };
        }
        sum
    }
}

/// Adds the numbers of the positive headers, and 1 for each other title.
#[inline(never)]
fn pull_headers(input: &[u8], before: u64) -> u64 {
    pull_by(Decoder::from(SliceReader::new(input)), input.len(), before)
}

/// Adds the numbers of the positive headers, and 1 for each other title, by a strict decoder.
#[inline(never)]
fn pull_strictly(input: &[u8], before: u64) -> u64 {
    pull_by(
        Decoder::strict(SliceReader::new(input)),
        input.len(),
        before,
    )
}

/// Adds the numbers of the positive headers, and 1 for each other title, by this decoder, over at most `most` titles.
#[inline(always)]
fn pull_by(mut decoder: Decoder<SliceReader<'_>>, most: usize, before: u64) -> u64 {
    let mut sum: u64 = before;
    'titles: for _ in 0..most {
        match decoder.pull() {
            Ok(Header::Positive(number)) => sum = sum.wrapping_add(number),
            Ok(_) | Err(Error::Syntax(_)) => sum = sum.wrapping_add(1),
            Err(_) => break,
        }
    }
    sum
}

/// Adds the number of titles written.
#[inline(never)]
fn push_headers(input: &[u8], output: &mut [u8], before: u64) -> u64 {
    let mut decoder = Decoder::from(SliceReader::new(input));
    let mut encoder = Encoder::from(SliceWriter::new(output));
    let mut sum: u64 = before;
    'titles: for _ in 0..input.len() {
        match decoder.pull() {
            Ok(header) => {
                if encoder.push(header).is_err() {
                    break;
                }
                sum = sum.wrapping_add(1);
            }
            Err(Error::Syntax(_)) => {}
            Err(_) => break,
        }
    }
    sum
}

/// Adds the number of bytes of the elements, if they were copied.
#[inline(never)]
fn copy_elements(
    input: &[u8],
    output: &mut [u8],
    count: usize,
    buffer: &mut [u8],
    before: u64,
) -> u64
    requires room { LEAST_BUFFER ≤ length buffer.old }
{
    copy_by(
        Decoder::from(SliceReader::new(input)),
        output,
        count,
        buffer,
        before,
    )
}

/// Adds the number of bytes of the elements, if a strict decoder copied them.
#[inline(never)]
fn copy_strictly(
    input: &[u8],
    output: &mut [u8],
    count: usize,
    buffer: &mut [u8],
    before: u64,
) -> u64
    requires room { LEAST_BUFFER ≤ length buffer.old }
{
    copy_by(
        Decoder::strict(SliceReader::new(input)),
        output,
        count,
        buffer,
        before,
    )
}

/// Adds the number of bytes of the elements, if this decoder copied them.
#[inline(always)]
fn copy_by(
    mut decoder: Decoder<SliceReader<'_>>,
    output: &mut [u8],
    count: usize,
    buffer: &mut [u8],
    before: u64,
) -> u64
    requires room { LEAST_BUFFER ≤ length buffer.old }
{
    let mut encoder = Encoder::from(SliceWriter::new(output));
    match recode(&mut decoder, &mut encoder, count, buffer) {
        Ok(()) => before.wrapping_add(decoder.offset() as u64),
        Err(_) => before,
    }
}

/// Adds the number of bytes of the string, if it was read to its end.
#[inline(never)]
fn skip_string(input: &[u8], buffer: &mut [u8], before: u64) -> u64
    requires room { LEAST_BUFFER ≤ length buffer.old }
{
    let mut decoder = Decoder::from(SliceReader::new(input));
    let outcome = match decoder.pull() {
        Ok(Header::Bytes(length)) => skip_bytes(&mut decoder, length, buffer),
        Ok(Header::Text(length)) => skip_text(&mut decoder, length, buffer),
        _ => return before,
    };
    match outcome {
        Ok(()) => before.wrapping_add(decoder.offset() as u64),
        Err(_) => before,
    }
}

/// Adds the number of bytes of the items, if all of them were skipped.
#[inline(never)]
fn skip_items(input: &[u8], count: usize, buffer: &mut [u8], before: u64) -> u64
    requires room { LEAST_BUFFER ≤ length buffer.old }
{
    let mut decoder = Decoder::from(SliceReader::new(input));
    'items: for _ in 0..count {
        if skip_item(&mut decoder, MOST_LEVELS, buffer).is_err() {
            return before;
        }
    }
    before.wrapping_add(decoder.offset() as u64)
}

/// Adds the number of bytes of the items, if all of them were skipped by a checker.
#[inline(never)]
fn skip_slices(input: &[u8], count: usize, buffer: &mut [u8], before: u64) -> u64
    requires room { LEAST_BUFFER ≤ length buffer.old }
{
    let mut decoder = Decoder::from(SliceReader::new(input));
    'items: for _ in 0..count {
        if skip_slice(&mut decoder, MOST_LEVELS, buffer).is_err() {
            return before;
        }
    }
    before.wrapping_add(decoder.offset() as u64)
}

/// Adds the number of bytes read.
#[inline(never)]
fn skip_bodies(input: &[u8], buffer: &mut [u8], before: u64) -> u64
    requires room { LEAST_BUFFER ≤ length buffer.old }
{
    let mut decoder = Decoder::from(SliceReader::new(input));
    'titles: for _ in 0..input.len() {
        let is_read = match decoder.pull() {
            Ok(Header::Bytes(length)) => skip_bytes(&mut decoder, length, buffer).is_ok(),
            Ok(Header::Text(length)) => skip_text(&mut decoder, length, buffer).is_ok(),
            Ok(_) => true,
            Err(_) => false,
        };
        if !is_read {
            break;
        }
    }
    before.wrapping_add(decoder.offset() as u64)
}

/// Adds the number of bytes that the text has in segments.
#[inline(never)]
fn write_text(text: &str, limit: usize, output: &mut [u8], before: u64) -> u64 {
    let mut encoder = Encoder::from(SliceWriter::new(output));
    match encoder.text(text, Some(limit)) {
        Ok(()) => before.wrapping_add(encoder.into_inner().written().len() as u64),
        Err(_) => before,
    }
}
