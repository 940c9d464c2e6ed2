use crate::calls::encoder_into;
use crate::checks::holds_at;
use crate::drains::drains_whole;
use ciborium_ll::laws::End;
use simdutf8::basic;
use std::process::Abort;

// A byte of each range in Unicode's Table 3-7, most of them at its bounds, and bytes beside those.
const BYTES: [u8; 20] = [
    0x00, 0x41, 0x7f, 0x80, 0x8f, 0x90, 0x9f, 0xa0, 0xbf, 0xc0, 0xc2, 0xdf, 0xe0, 0xe1, 0xed, 0xef,
    0xf0, 0xf1, 0xf4, 0xf5,
];

// The title of a text of this length, at most four, and the bytes that are the digits of a number by 20. If the bytes
// are a text, buffers of four bytes read it to its end.
fn list_row(rt: &impl Abort, length: u8, number: usize) {
    let mut space = [0x60 | length, 0, 0, 0, 0];
    let mut rest = number;
    for byte in &mut space[1..] {
        *byte = BYTES[rest % 20];
        rest /= 20;
    }
    let bytes = &space[..=usize::from(length.min(4))];
    let mut written = [0; 4];
    let mut sink = encoder_into(&mut written, 4);
    let drained = drains_whole(rt, bytes, &[4; 6], &mut sink);
    let ends = matches!(drained, Ok((_, End::Ended)));
    let is_text = basic::from_utf8(bytes.get(1..).unwrap_or(&[])).is_ok();
    holds_at(rt, ends == is_text, bytes);
}

// How long a list is, and how many lists have that length.
static LENGTHS: [(u8, usize); 4] = [(1, 20), (2, 400), (3, 8_000), (4, 160_000)];

#[test]
fn short_lists_end_where_they_are_text(rt: HostRuntime) {
    for (length, count) in &LENGTHS {
        for number in 0..*count {
            list_row(&rt, *length, number);
        }
    }
}
