use crate::calls::{decoder_at, encoder_into, has_read, has_written};
use crate::checks::{Stop, holds, holds_at, stop_of};
use ciborium_ll::{Float, Header, laws, simple, tag};

// Bytes, how many headers are copied, how much space there is, the written bytes, why the copy stopped, and the offset
// after it.
type Row = (&'static [u8], usize, usize, &'static [u8], Stop, usize);

// Three titles that are longer than necessary, and a number.
const LONGER: &[u8] = &[0x18, 5, 0x58, 3, 0xf8, 0x10, 0];

static ROWS: [Row; 5] = [
    (LONGER, 3, 8, &[5, 0x43, 0xf0], Stop::Never, 6),
    (LONGER, 0, 8, &[], Stop::Never, 0),
    (&[0x18, 5, 0x1f], 2, 8, &[5], Stop::Syntax(2), 3),
    (&[0x1a, 0, 0], 1, 8, &[], Stop::Short, 1),
    (LONGER, 3, 1, &[5], Stop::Full, 4),
];

// Copies this many headers into this much space, and compares all results. The bytes that were not read are left.
#[test]
fn headers_are_copied(rt: HostRuntime) {
    for row in &ROWS {
        let (bytes, count, room, written, stop, offset) = row;
        let mut space = [0; 8];
        let mut decoder = decoder_at(bytes, 0);
        let mut encoder = encoder_into(&mut space, *room);
        let outcome = laws::copy_headers(&mut decoder, &mut encoder, *count);
        let is_stopped = stop_of(&outcome) == *stop;
        let is_read = has_read(decoder, *offset, bytes.get(*offset..));
        let is_written = has_written(&encoder.into_inner(), written);
        holds_at(&rt, is_written && is_stopped && is_read, bytes);
    }
}

// Two headers, and whether they are the same.
static PAIRS: [(&str, Header, Header, bool); 5] = [
    (
        "a zero and itself",
        Header::Float(Float::Half(0)),
        Header::Float(Float::Half(0)),
        true,
    ),
    (
        "a zero and one with a sign",
        Header::Float(Float::Half(0)),
        Header::Float(Float::Half(0x8000)),
        false,
    ),
    (
        "a zero and one of another width",
        Header::Float(Float::Half(0)),
        Header::Float(Float::Single(0)),
        false,
    ),
    (
        "a NaN and itself",
        Header::Float(Float::Half(0x7e00)),
        Header::Float(Float::Half(0x7e00)),
        true,
    ),
    (
        "opens of bytes and of text",
        Header::Bytes(None),
        Header::Text(None),
        false,
    ),
];

#[test]
fn headers_and_floats_as_values(rt: HostRuntime) {
    for (what, one, other, want) in &PAIRS {
        holds(&rt, laws::same_header(*one, *other) == *want, what);
        let copied = laws::copied_header(one);
        holds(&rt, laws::same_header(*one, copied), what);
    }
}

#[test]
fn floats_as_values(rt: HostRuntime) {
    let zero = Float::Half(0);
    let copied = laws::copied_float(&zero);
    holds(&rt, laws::same_float(zero, copied), "a copy");
    let signed = Float::Half(0x8000);
    holds(&rt, !laws::same_float(zero, signed), "the other sign");
    let wider = Float::Single(0);
    holds(&rt, !laws::same_float(zero, wider), "another width");
    let nan = Float::Double(0x7ff8_0000_0000_0000);
    holds(&rt, laws::same_float(nan, nan), "a NaN");
}

#[test]
fn values_with_a_name(rt: HostRuntime) {
    let simple = [simple::FALSE, simple::TRUE, simple::NULL, simple::UNDEFINED];
    holds(&rt, simple == [20, 21, 22, 23], "simple values");
    holds(&rt, tag::BIGPOS == 2 && tag::BIGNEG == 3, "tags");
}

#[test]
fn laws_are_calls() {
    laws::full_cuts();
    laws::one_element();
    laws::one_run();
    laws::spelled_run();
    laws::no_fault();
    laws::one_fault();
    laws::run_or_fault();
    laws::one_item();
    laws::one_string();
    laws::joined_texts();
    laws::no_rest_of_text();
    laws::no_text_begins();
    laws::one_front();
    laws::rest_of_text();
    laws::same_text();
    laws::cut_titles();
    laws::one_title();
    laws::refused_first_bytes();
    laws::shortest_titles();
    laws::title_header();
    laws::title_length();
    laws::fewest_segments();
    laws::written_values();
}
