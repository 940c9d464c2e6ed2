use crate::calls::{decoder_at, encoder_into, has_read, has_written};
use crate::checks::{Stop, holds_with, stop_of};
use ciborium_ll::io::{SliceReader, SliceWriter};
use ciborium_ll::recode::recode;
use ciborium_ll::{Decoder, Encoder};
use std::process::Abort;
use std::test::Fail;

// Copies `count` elements by a buffer of at least four bytes.
pub fn recodes(
    rt: &impl Abort,
    decoder: &mut Decoder<SliceReader>,
    encoder: &mut Encoder<SliceWriter>,
    count: usize,
    buffer: &mut [u8],
) -> Stop {
    assert!(rt; buffer.len() >= 4);
    stop_of(&recode(decoder, encoder, count, buffer))
}

// The offset at which the bytes begin, how many elements are copied, and the sizes of the buffer and of the space. Then
// the written bytes, the offset after the copy, and why it stopped.
type Row = (usize, usize, usize, usize, &'static [u8], usize, Stop);

// Copies elements, and compares the results. The bytes that were not read are left.
fn copies(rt: &impl Abort, bytes: &[u8], row: &Row) {
    let mut buffer = [0; 64];
    let mut space = [0; 16];
    let mut decoder = decoder_at(bytes, row.0);
    let mut encoder = encoder_into(&mut space, row.3);
    let buffer = &mut buffer[..row.2.min(64)];
    let stop = recodes(rt, &mut decoder, &mut encoder, row.1, buffer);
    let left = bytes.get(row.5.saturating_sub(row.0)..);
    let is_read = stop == row.6 && has_read(decoder, row.5, left);
    let is_right = is_read && has_written(&encoder.into_inner(), row.4);
    holds_with(rt, is_right, &[row.0, row.1, row.2, row.3]);
}

const ALL: &[u8] = &[0x18, 5, 0x58, 1, 1, 0x5f, 0x5f, 0x42, 2, 3, 0xff, 0xff, 0];

const WRITTEN: &[u8] = &[5, 0x41, 1, 0x5f, 0x42, 2, 3, 0xff];

// A body that is no text, and that is cut off.
const CUT: &[u8] = &[0x66, 0xff, 0x61, 0x62, 0x63];

static ROWS: [(&'static [u8], Row); 6] = [
    (ALL, (0, 3, 4, 16, WRITTEN, 12, Stop::Never)),
    (ALL, (0, 0, 4, 16, &[], 0, Stop::Never)),
    (ALL, (0, 3, 64, 2, &[5, 0x41], 5, Stop::Full)),
    (CUT, (0, 1, 64, 16, &[0x66], 1, Stop::Short)),
    (CUT, (0, 1, 4, 16, &[0x66], 5, Stop::Syntax(0))),
    // no offset is left for the body
    (
        &[0x43, 1, 2, 3],
        (
            usize::MAX - 1,
            1,
            64,
            16,
            &[0x43],
            usize::MAX,
            Stop::TooLong,
        ),
    ),
];

#[test]
fn elements_are_copied(rt: HostRuntime) {
    for (bytes, row) in &ROWS {
        copies(&rt, bytes, row);
    }
}

static MANY: Row = (0, 1, 64, 16, &[0x5f, 0xff], 200_000, Stop::Never);

// Fills the second half with breaks.
fn ends_in_breaks(bytes: &mut [u8]) {
    let middle = bytes.len() / 2;
    bytes[middle..].fill(0xff);
}

#[test]
fn many_opens_and_breaks(rt: HostRuntime) -> Result<(), Fail> {
    let mut bytes = vec![in rt.alloc(); 0x5fu8; 200_000]?;
    ends_in_breaks(bytes.as_mut_slice());
    copies(&rt, bytes.as_slice(), &MANY);
    Ok(())
}
