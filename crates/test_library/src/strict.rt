use crate::calls::{decoder_at, encoder_into, has_written, spelled_decoder, strict_decoder};
use crate::checks::{Stop, holds, holds_at, next_header};
use crate::elements::recodes;
use crate::vectors::decoded;
use ciborium_ll::io::SliceReader;
use ciborium_ll::recode::strict_len;
use ciborium_ll::{Decoder, Header, Spelling};
use std::process::Abort;
use test_support::samples::VECTORS;

// Bytes, how many elements are copied, the written bytes, how the copy ends, and the offset after it.
type Row = (&'static [u8], usize, &'static [u8], Stop, usize);

// Returns whether `count` elements at the start of the bytes, each in its shortest spelling, have this length. `None`
// means that they are not there. Proofs of its callers do not see what this means.
fn has_length(bytes: &[u8], count: usize, length: Option<usize>) -> bool {
    strict_len(bytes, count) == length
}

static ROWS: [Row; 20] = [
    (&[0x18, 5], 1, &[], Stop::Syntax(0), 2),
    (&[0x18, 0x17], 1, &[], Stop::Syntax(0), 2),
    (&[0x18, 0x18], 1, &[0x18, 0x18], Stop::Never, 2),
    (&[0x19, 0, 0x18], 1, &[], Stop::Syntax(0), 3),
    (&[0xf8, 0x18], 1, &[], Stop::Syntax(0), 2),
    (&[0xf8, 0x1f], 1, &[], Stop::Syntax(0), 2),
    (&[0xf8, 0x20], 1, &[0xf8, 0x20], Stop::Never, 2),
    (&[0xf9, 0, 0], 1, &[0xf9, 0, 0], Stop::Never, 3),
    (&[5, 0x18, 5], 2, &[5], Stop::Syntax(1), 3),
    (&[0x1c], 1, &[], Stop::Syntax(0), 1),
    (&[0x19, 0], 1, &[], Stop::Short, 1),
    (&[0x18, 5], 0, &[], Stop::Never, 0),
    // strings
    (
        &[0x5f, 0x41, 1, 0xff],
        1,
        &[0x5f, 0x41, 1, 0xff],
        Stop::Never,
        4,
    ),
    (
        &[0x5f, 0x5f, 0x41, 1, 0xff, 0xff],
        1,
        &[0x5f],
        Stop::Syntax(1),
        2,
    ),
    (&[0x5f, 0x5f, 0xff, 0xff], 1, &[0x5f], Stop::Syntax(1), 2),
    (&[0x7f, 0x78, 1, 0x61, 0xff], 1, &[0x7f], Stop::Syntax(1), 3),
    (&[0x78, 2, 0x61, 0xff], 1, &[], Stop::Syntax(0), 2),
    (&[0x62, 0x61, 0xff], 1, &[0x62, 0x61], Stop::Syntax(0), 3),
    (&[0x5f, 0x7f, 0xff], 1, &[0x5f], Stop::Syntax(1), 2),
    (&[0x43, 1], 1, &[0x43], Stop::Short, 1),
];

// Copies elements, each from a strict decoder. It compares the written bytes, the answer and the offset, and how long
// the elements are if each is in its shortest spelling.
#[test]
fn elements_in_their_shortest_spelling(rt: HostRuntime) {
    for row in &ROWS {
        let mut space = [0; 16];
        let mut decoder = strict_decoder(row.0);
        let mut encoder = encoder_into(&mut space, 16);
        let end = recodes(&rt, &mut decoder, &mut encoder, row.1, &mut [0; 64]);
        let is_written = has_written(&encoder.into_inner(), row.2) && decoder.offset() == row.4;
        let length = if row.3 == Stop::Never {
            Some(row.4)
        } else {
            None
        };
        let is_right = end == row.3 && is_written && has_length(row.0, row.1, length);
        holds_at(&rt, is_right, row.0);
    }
}

#[test]
fn a_body_of_many_chunks(rt: HostRuntime) {
    // A string of 250 bytes, and then 48 numbers of a byte each.
    let mut bytes = [0; 300];
    bytes[0] = 0x58;
    bytes[1] = 250;
    let is_right = has_length(&bytes, 1, Some(252)) && has_length(&bytes, 49, Some(300));
    holds(&rt, is_right, "the string, and all of it");
    let is_right = has_length(&bytes, 50, None) && has_length(&bytes[..251], 1, None);
    holds(&rt, is_right, "one element more, and a string that is cut");
}

// The minor of a first byte, and how many bytes of affix it announces.
const AFFIXES: [(u8, usize); 4] = [(24, 1), (25, 2), (26, 4), (27, 8)];

// Returns whether a header whose shortest title this is has a longer title, with an affix of `size` bytes, by a plain
// reading. A float, a simple value in two bytes and an indefinite form have none.
fn has_longer(first: u8, affix: usize, size: usize) -> bool {
    let is_number = first < 0xe0 || affix == 0 && size == 1;
    size > affix && first % 32 < 31 && is_number
}

// Makes a title with an affix of `size` bytes, at most eight: zeros, and then a number.
fn longer_title(first: u8, number: &[u8], size: usize) -> [u8; 9] {
    let mut title = [first, 0, 0, 0, 0, 0, 0, 0, 0];
    let start = size.saturating_sub(number.len()).saturating_add(1);
    for (place, byte) in title[start.min(9)..].iter_mut().zip(number) {
        *place = *byte;
    }
    title
}

// Pulls a title by a decoder of either kind, which takes it whole, and compares the answer.
fn title_row(
    rt: &impl Abort,
    mut decoder: Decoder<SliceReader>,
    title: &[u8],
    want: Option<Header>,
) {
    let is_right = next_header(&mut decoder) == want.ok_or(Stop::Syntax(0));
    holds_at(rt, is_right && decoder.offset() == title.len(), title);
}

// Compares the answers of decoders of both kinds for a title.
fn both_rows(rt: &impl Abort, title: &[u8], plain: Header, strict: Option<Header>) {
    title_row(rt, decoder_at(title, 0), title, Some(plain));
    title_row(rt, strict_decoder(title), title, strict);
}

// A strict decoder takes no longer title of a header, and another decoder takes each. It returns how many there are.
fn longer_rows(rt: &impl Abort, first: u8, affix: &[u8], header: Header) -> usize {
    let own = [first % 32];
    let number = if affix.is_empty() {
        own.as_slice()
    } else {
        affix
    };
    let mut count = 0usize;
    for (code, size) in AFFIXES {
        if has_longer(first, affix.len(), size) {
            let title = longer_title((first & 0xe0) | code, number, size);
            both_rows(rt, title.get(..=size).unwrap_or(&[]), header, None);
            count = count.saturating_add(1);
        }
    }
    count
}

// A strict decoder takes the shortest title of a header, unless the header is a small simple value, and it takes no
// longer title. Another decoder takes each. It returns how many longer titles there are.
fn vector_row(rt: &impl Abort, title: &[u8], header: Header) -> usize {
    let is_small = matches!(header, Header::Simple(24..=31));
    let want = if is_small { None } else { Some(header) };
    both_rows(rt, title, header, want);
    match title.split_first() {
        Some((first, affix)) => longer_rows(rt, *first, affix, header),
        None => 0,
    }
}

#[test]
fn vectors_and_their_longer_titles(rt: HostRuntime) {
    let mut all = 0usize;
    for (hex, header) in &VECTORS {
        let count = vector_row(&rt, decoded(&rt, hex, &mut [0; 64]), *header);
        all = all.saturating_add(count);
    }
    // The titles of numbers that are a byte have four longer ones, and so on; simple values in one byte have one.
    holds(&rt, all == 80, "how many longer titles there are");
}

// Whether a strict copy takes the first element of one byte or two, by a plain reading.
fn is_strict(first: u8, second: Option<u8>) -> bool {
    let major = first / 32;
    let is_string = matches!(major, 2 | 3);
    match (first % 32, second) {
        (0, _) => true,
        (1, Some(byte)) if is_string => major == 2 || byte < 0x80,
        (1..=23, _) => !is_string,
        (24, Some(n)) if major == 7 => n >= 32,
        (24, Some(n)) => n >= 24 && !is_string,
        (31, Some(0xff)) if is_string => true,
        (31, _) => matches!(major, 4 | 5 | 7),
        _ => false,
    }
}

// Copies an element, and returns whether the copy succeeds, and whether it writes exactly what it consumes.
fn is_copied(rt: &impl Abort, mut decoder: Decoder<SliceReader>, bytes: &[u8]) -> (bool, bool) {
    let mut space = [0; 2];
    let mut encoder = encoder_into(&mut space, 2);
    let stopped = recodes(rt, &mut decoder, &mut encoder, 1, &mut [0; 4]);
    let writer = encoder.into_inner();
    let written = writer.written();
    let is_same = written.len() == decoder.offset() && bytes.starts_with(written);
    (stopped == Stop::Never, is_same)
}

// Compares both decoders on a list of one byte or two.
fn both_decoders(rt: &impl Abort, bytes: &[u8], first: u8, second: Option<u8>) {
    let (plain, is_plain_same) = is_copied(rt, decoder_at(bytes, 0), bytes);
    let (strict, is_same) = is_copied(rt, strict_decoder(bytes), bytes);
    let is_small = first == 0xf8 && matches!(second, Some(24..=31));
    let is_plain = strict == (plain && is_plain_same && !is_small);
    let is_right = strict == is_strict(first, second) && is_plain && (!strict || is_same);
    let is_long = strict_len(bytes, 1).is_some() == strict;
    holds_at(rt, is_right && is_long, bytes);
}

#[test]
fn every_list_of_one_and_two_bytes(rt: HostRuntime) {
    for first in 0..=u8::MAX {
        both_decoders(&rt, &[first], first, None);
        for second in 0..=u8::MAX {
            both_decoders(&rt, &[first, second], first, Some(second));
        }
    }
}

// Either both decoders take the title that begins with a byte, or neither does. No number is greater than those here,
// so each title is the shortest.
#[test]
fn first_bytes_that_neither_takes(rt: HostRuntime) {
    let mut refused = 0usize;
    for first in 0..=u8::MAX {
        let bytes = [first, 0xff, 0xff, 0xff, 0xff, 0xff, 0xff, 0xff, 0xff];
        let mut plain = decoder_at(&bytes, 0);
        let mut strict = strict_decoder(&bytes);
        let is_taken = next_header(&mut plain).is_ok();
        let answer = next_header(&mut strict);
        let is_told = if is_taken {
            answer.is_ok()
        } else {
            answer == Err(Stop::Syntax(0))
        };
        let is_same = plain.offset() == strict.offset();
        holds_at(&rt, is_told && is_same, &bytes);
        refused = refused.saturating_add(usize::from(!is_taken));
    }
    holds(&rt, refused == 27, "how many first bytes begin no title");
}

// Reads two titles of the number 1 from the offset 100 on, of which the second is longer than the shortest.
fn from_an_offset(spelling: Spelling, second: Result<Header, Stop>) -> bool {
    let mut decoder = spelled_decoder(&[0x01, 0x18, 0x01], spelling, 100);
    let is_spelled = decoder.spelling() == spelling && decoder.offset() == 100;
    let is_first = next_header(&mut decoder) == Ok(Header::Positive(1)) && decoder.offset() == 101;
    let is_second = next_header(&mut decoder) == second && decoder.offset() == 103;
    is_spelled && is_first && is_second
}

// A strict decoder that begins at an offset names the place of a longer title from that offset on.
#[test]
fn a_longer_title_behind_an_offset(rt: HostRuntime) {
    let is_right = from_an_offset(Spelling::Any, Ok(Header::Positive(1)));
    holds(&rt, is_right, "a decoder that isn't strict takes it");
    let is_right = from_an_offset(Spelling::Shortest, Err(Stop::Syntax(101)));
    holds(&rt, is_right, "a strict one names its place");
}

#[test]
fn names_of_spellings(rt: HostRuntime) {
    let is_any = Spelling::shortest_if(false) == Spelling::Any;
    let is_shortest = Spelling::shortest_if(true) == Spelling::Shortest;
    holds(&rt, is_any && is_shortest, "by a flag");
    let is_told = Spelling::Shortest.is_shortest() && !Spelling::Any.is_shortest();
    holds(&rt, is_told, "and back");
}
