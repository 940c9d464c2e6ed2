// The bodies of strings.

use crate::shared::{MOST, holds, parsed};
use cbor_view::{Segments, TextSegments};

// Whether a byte string has these segments and no other.
fn are_bodies(segments: Option<Segments<'_>>, want: &[&[u8]]) -> bool {
    let Some(mut segments) = segments else {
        return false;
    };
    for &body in want {
        if segments.next() != Some(body) {
            return false;
        }
    }
    segments.next().is_none() && segments.next().is_none()
}

// Whether a text string has these segments and no other.
fn are_texts(segments: Option<TextSegments<'_>>, want: &[&str]) -> bool {
    let Some(mut segments) = segments else {
        return false;
    };
    for &text in want {
        if segments.next() != Some(text) {
            return false;
        }
    }
    segments.next().is_none() && segments.next().is_none()
}

#[test]
fn definite_strings(rt: HostRuntime) {
    let mut space = [0; MOST];
    holds(
        &rt,
        matches!(parsed(&rt, "4401020304", &mut space), Some(item) if item.byte_string() == Some(&[1, 2, 3, 4])),
        "h'01020304'",
    );
    holds(
        &rt,
        matches!(parsed(&rt, "63e6b0b4", &mut space), Some(item) if item.text() == Some("\u{6c34}")),
        "a character of three bytes",
    );
    // A title that is longer than its shortest one.
    holds(
        &rt,
        matches!(parsed(&rt, "78026869", &mut space), Some(item) if item.text() == Some("hi")),
        "a text",
    );
}

// An open without segments has none, and those within further opens come in order.
#[test]
fn segments_of_bytes(rt: HostRuntime) {
    let rows: [(&str, &[&[u8]]); 4] = [
        ("5f42010243030405ff", &[&[1, 2], &[3, 4, 5]]),
        ("4401020304", &[&[1, 2, 3, 4]]),
        ("5fff", &[]),
        ("5f5f4101ff4102ff", &[&[1], &[2]]),
    ];
    for &(digits, want) in &rows {
        let mut space = [0; MOST];
        let segments = match parsed(&rt, digits, &mut space) {
            Some(item) => item.byte_segments(),
            None => None,
        };
        holds(&rt, are_bodies(segments, want), digits);
    }
}

#[test]
fn segments_of_text(rt: HostRuntime) {
    let rows: [(&str, &[&str]); 3] = [
        ("7f657374726561646d696e67ff", &["strea", "ming"]),
        ("6449455446", &["IETF"]),
        ("7fff", &[]),
    ];
    for &(digits, want) in &rows {
        let mut space = [0; MOST];
        let segments = match parsed(&rt, digits, &mut space) {
            Some(item) => item.text_segments(),
            None => None,
        };
        holds(&rt, are_texts(segments, want), digits);
    }
}
