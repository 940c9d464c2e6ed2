//! The segments of a string.

ghost use Rattle.std.specs.Prelude.{◌≡◌, ◌↔◌, ◌<◌, ℕ, List, [], IfSome, IsTrue, MatchOption, Some, length};
ghost use Rattle.std.specs.Iterator.{at_most};
ghost use Rattle.ciborium_ll_grammar.specs.Strings.{Kind, kind_header};
ghost use Rattle.cbor_view.specs.Segments.{AreSegments, HasSegments, HasTexts, IsFirstSegment};

use ciborium_ll_grammar::hdr::Header;
use ciborium_ll_grammar::titles::next_title;
use ciborium_ll_text::state::text_of;
use std::iter::FusedIterator;

/// The segments of a byte string or of a text string that are left, as bytes.
///
/// A string of definite length has one segment, its body. One of indefinite length has a segment for each string of
/// definite length within it, also within further opens (RFC 7049, 2.2.2).
#[derive(Clone, Copy, Drop)]
pub struct Segments<'a> {
    pub(crate) rest: &'a [u8],
    ghost are: { ∥ HasSegments rest.now ∥₁ },
}

/// The [`Segments`] of a text string that are left, as texts.
#[derive(Clone, Copy, Drop)]
pub struct TextSegments<'a> {
    pub(crate) rest: &'a [u8],
    ghost are: { ∥ HasTexts rest.now ∥₁ },
}

/// Returns the length of a byte string's body, if the header is that of a byte string of definite length.
pub(crate) fn bytes_len(header: Header) -> Option<usize>
    ensures { MatchOption result ((len : ℕ) → header ≡ Header.Bytes (Some len) → ⊥)
        (λ len. header ≡ Header.Bytes (Some len)) }
{
    match header {
        Header::Bytes(len) => len,
        _ => None,
    }
}

/// Returns the length of a text string's body, if the header is that of a text string of definite length.
pub(crate) fn text_len(header: Header) -> Option<usize>
    ensures { MatchOption result ((len : ℕ) → header ≡ Header.Text (Some len) → ⊥)
        (λ len. header ≡ Header.Text (Some len)) }
{
    match header {
        Header::Text(len) => len,
        _ => None,
    }
}

/// Returns the length of a string's body, if the header is that of a string of definite length.
fn segment_len(header: Header) -> Option<usize>
    ensures { MatchOption result ((kind : Kind) (len : ℕ) → header ≡ kind_header kind (Some len) → ⊥)
        (λ len. (kind : Kind) × (header ≡ kind_header kind (Some len))) }
{
    match bytes_len(header) {
        Some(len) => Some(len),
        None => text_len(header),
    }
}

/// Returns the body of the first segment that is left, and the rest, or `None` if no segment is left.
pub(crate) fn next_segment(bytes: &[u8]) -> Option<(&[u8], &[u8])>
    requires { ∥ HasSegments bytes.now ∥₁ }
    ensures first { (kind : Kind) (bodies : List (List ℕ)) → AreSegments kind bytes.now bodies
        → MatchOption result (bodies ≡ []) (λ found. IsFirstSegment kind bodies found.0.now found.1.now) }
    ensures left { IfSome result (λ found. ∥ HasSegments found.1.now ∥₁) }
    ensures shorter { IfSome result (λ found. length found.1.now < length bytes.now) }
{
    let mut rest = bytes;
    'titles: while !rest.is_empty() {
        let Some((header, after)) = next_title(rest) else {
            unreachable!()
        };
        if let Some(len) = segment_len(header) {
            return Some(after.split_at(len));
        }
        // An open or a break.
        rest = after;
    }
    None
}

impl<'a> Iterator for Segments<'a> {
    ghost use Rattle.cbor_view.specs.Nexts.{GivesSegment};
    ghost use Rattle.cbor_view.specs.Held.{segments_bytes};

    type Item = &'a [u8];

    ghost next_gives = { GivesSegment };

    ghost remaining = { λ segments. at_most (length (segments_bytes segments)) };

    /// Returns the body of the next segment.
    fn next(&mut self) -> Option<&'a [u8]> {
        match next_segment(self.rest) {
            Some((body, rest)) => {
                self.rest = rest;
                Some(body)
            }
            None => None,
        }
    }
}

impl<'a> FusedIterator for Segments<'a> {}

impl<'a> Iterator for TextSegments<'a> {
    ghost use Rattle.cbor_view.specs.Nexts.{GivesText};
    ghost use Rattle.cbor_view.specs.Held.{texts_bytes};

    type Item = &'a str;

    ghost next_gives = { GivesText };

    ghost remaining = { λ segments. at_most (length (texts_bytes segments)) };

    /// Returns the text of the next segment.
    fn next(&mut self) -> Option<&'a str> {
        match next_segment(self.rest) {
            Some((body, rest)) => {
                self.rest = rest;
                Some(text_of(body))
            }
            None => None,
        }
    }
}

impl<'a> FusedIterator for TextSegments<'a> {}
