use crate::calls::{decoder_at, encoder_into, has_written, pushes};
use crate::checks::{Stop, counts_one, holds, holds_at, next_header};
use ciborium_ll::Header;
use std::process::Abort;
use test_support::samples::{LISTS, LONGER_TITLES, TWENTY_FIVE, TWENTY_FIVE_AND_BREAK, VECTORS};

// Returns whether bytes are read as these headers, and have then ended.
fn are_read(bytes: &[u8], headers: &[Header]) -> bool {
    let mut decoder = decoder_at(bytes, 0);
    for header in headers {
        if next_header(&mut decoder) != Ok(*header) {
            return false;
        }
    }
    decoder.offset() == bytes.len() && next_header(&mut decoder) == Err(Stop::Short)
}

// Returns whether headers are written as these bytes, into room for exactly these bytes. Their titles have at most 64
// bytes in all.
fn are_written(headers: &[Header], bytes: &[u8]) -> bool {
    let mut space = [0; 64];
    let mut encoder = encoder_into(&mut space, bytes.len());
    for header in headers {
        if !pushes(&mut encoder, *header) {
            return false;
        }
    }
    has_written(&encoder.into_inner(), bytes)
}

// Decodes digits of at most 64 bytes to the start of a space, and returns these bytes.
pub fn decoded<'a>(rt: &impl Abort, hex: &str, space: &'a mut [u8; 64]) -> &'a [u8] {
    let length = hex.len() / 2;
    let bytes = &mut space[..length.min(64)];
    holds(rt, hex::decode_to_slice(hex, bytes).is_ok(), hex);
    bytes
}

// Reads headers from bytes, and writes their shortest titles.
fn both_ways(rt: &impl Abort, hex: &str, headers: &[Header], shortest: &str) {
    let is_read = are_read(decoded(rt, hex, &mut [0; 64]), headers);
    let is_written = are_written(headers, decoded(rt, shortest, &mut [0; 64]));
    holds(rt, is_read && is_written, hex);
}

#[test]
fn single_titles(rt: HostRuntime) {
    for (hex, header) in &VECTORS {
        both_ways(&rt, hex, &[*header], hex);
        holds(&rt, header.title_len() == hex.len() / 2, hex);
    }
}

#[test]
fn titles_in_a_row(rt: HostRuntime) {
    for (hex, headers) in &LISTS {
        both_ways(&rt, hex, headers, hex);
    }
}

#[test]
fn longer_titles(rt: HostRuntime) {
    for (hex, header, shortest) in &LONGER_TITLES {
        both_ways(&rt, hex, &[*header], shortest);
    }
}

// The title of an array, the numbers from 1 to 25, and a break: `count` of these headers, at most 27.
fn twenty_five_row(rt: &impl Abort, hex: &str, length: Option<usize>, count: usize) {
    let mut headers = [Header::Break; 27];
    headers[0] = Header::Array(length);
    for n in 1..=25u8 {
        headers[usize::from(n)] = Header::Positive(u64::from(n));
    }
    both_ways(rt, hex, &headers[..count.min(27)], hex);
}

#[test]
fn twenty_five_items(rt: HostRuntime) {
    twenty_five_row(&rt, TWENTY_FIVE, Some(25), 26);
    twenty_five_row(&rt, TWENTY_FIVE_AND_BREAK, None, 27);
}

// Only zeros follow each first byte. The title of 197 first bytes has one byte. The titles of 8 each have 2, 3, 5 and 9
// bytes. 27 begin no title: the decoder then takes only that byte.
#[test]
fn first_bytes_by_their_affix(rt: HostRuntime) {
    let mut counts = [0u8; 10];
    for first in 0..=u8::MAX {
        let bytes = [first, 0, 0, 0, 0, 0, 0, 0, 0];
        let mut decoder = decoder_at(&bytes, 0);
        let answer = next_header(&mut decoder);
        let offset = decoder.offset();
        let taken = if answer.is_ok() { offset } else { 0 };
        let is_refused = answer == Err(Stop::Syntax(0)) && offset == 1;
        holds_at(&rt, answer.is_ok() || is_refused, &bytes);
        counts_one(&mut counts, taken);
    }
    let is_right = counts == [27, 197, 8, 8, 0, 8, 0, 0, 0, 8];
    holds(&rt, is_right, "how many there are of each");
}
