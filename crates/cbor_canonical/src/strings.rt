//! Strings of any form, written after a title that has their length.

ghost use Rattle.std.specs.Prelude.{◌≡◌, ◌↔◌, ◌+◌, ◌<◌, ◌≤◌, ◌^◌, List, ℕ, Option, IfErr, IsTrue, MatchOption, length};
ghost use Rattle.std.specs.Prelude.{MatchResult};
ghost use Rattle.ciborium_ll_grammar.specs.Strings.{kind_header, IsWritable};
ghost use Rattle.ciborium_ll_grammar.specs.Title.{IsTitle};
ghost use Rattle.ciborium_ll_grammar.specs.Elements.{body_spelling};
ghost use Rattle.cbor_canonical.specs.declared.Stop.TheVariants.{Room as NoRoom};
ghost use Rattle.cbor_canonical.specs.Room.{Grows, LacksRoom};
ghost use Rattle.cbor_canonical.specs.Runs.{Turns};
ghost use Rattle.cbor_canonical.specs.Strings.{kind_of, IsStep, HasNoStep, Gathers, IsBody, HasNoBody, IsStringTurned};
ghost use Rattle.cbor_canonical.specs.Strings.{FailsGather, FailsString};
ghost use Rattle.cbor_canonical.specs.Writing.{Adds, Extends};

use crate::Stop;
use crate::title::{insert_title, put_bytes, put_title};
use ciborium_ll_grammar::hdr::Header;
use ciborium_ll_grammar::titles::next_title;
use ciborium_ll_text::state::is_text;

/// The two kinds of string.
#[derive(Clone, Copy)]
pub(crate) enum StringKind {
    /// A byte string.
    Bytes,
    /// A text string.
    Text,
}

/// The next part of an open string.
#[derive(Clone, Copy)]
enum Step<'a> {
    /// The break that ends the string, and the rest.
    Closed(&'a [u8]),
    /// A further open, and the rest.
    Opened(&'a [u8]),
    /// A string of definite length with this body, and the rest.
    Chunk(&'a [u8], &'a [u8]),
}

impl StringKind {
    /// Returns the header of a string of this kind.
    fn header(self, len: Option<usize>) -> Header
        ensures { result ≡ kind_header (kind_of self) len }
    {
        match self {
            StringKind::Bytes => Header::Bytes(len),
            StringKind::Text => Header::Text(len),
        }
    }

    /// Returns the length in the header of a string of this kind, or its indefinite form. Any other header has none.
    fn len_of(self, header: Header) -> Option<Option<usize>>
        ensures { MatchOption result ((len : Option ℕ) → header ≡ kind_header (kind_of self) len → ⊥)
            (λ len. header ≡ kind_header (kind_of self) len) }
    {
        match (self, header) {
            (StringKind::Bytes, Header::Bytes(len)) => Some(len),
            (StringKind::Text, Header::Text(len)) => Some(len),
            _ => None,
        }
    }
}

/// Returns whether the bytes may be the body of a string of this kind.
fn is_body(kind: StringKind, bytes: &[u8]) -> bool
    ensures { IsTrue result ↔ IsWritable (kind_of kind) bytes.now }
{
    match kind {
        StringKind::Bytes => true,
        StringKind::Text => is_text(bytes),
    }
}

/// Returns the body of this length at the beginning, and the rest.
fn take_body(kind: StringKind, bytes: &[u8], len: usize) -> Option<(&[u8], &[u8])>
    ensures { MatchOption result (HasNoBody (kind_of kind) len bytes.now)
        (λ found. IsBody (kind_of kind) len bytes.now found.0.now found.1.now) }
{
    match bytes.split_at_checked(len) {
        Some((body, rest)) => {
            if is_body(kind, body) {
                Some((body, rest))
            } else {
                None
            }
        }
        None => None,
    }
}

/// Returns the next part of an open string.
fn next_step(kind: StringKind, bytes: &[u8]) -> Option<Step<'_>>
    ensures { MatchOption result (HasNoStep (kind_of kind) bytes.now) (IsStep (kind_of kind) bytes.now) }
{
    let Some((header, rest)) = next_title(bytes) else {
        return None;
    };
    if let Header::Break = header {
        return Some(Step::Closed(rest));
    }
    match kind.len_of(header) {
        Some(Some(len)) => match take_body(kind, rest, len) {
            Some((body, after)) => Some(Step::Chunk(body, after)),
            None => None,
        },
        Some(None) => Some(Step::Opened(rest)),
        None => None,
    }
}

/// Joins the bodies of the strings up to the break that ends their open. Returns the rest, and the offset of the output
/// after the bodies.
fn gather<'a>(
    kind: StringKind,
    bytes: &'a [u8],
    out: &mut [u8],
    at: usize,
) -> Result<(&'a [u8], usize), Stop>
    requires { at ≤ length out.old }
    ensures written { MatchResult result
        (λ found. Extends (Gathers (kind_of kind) bytes.now found.0.now) at found.1 out.old out.new)
        (FailsGather (kind_of kind) bytes.now) }
    ensures room { MatchResult result (λ found. found.1 + length found.0.now < at + length bytes.now)
        (λ stop. stop ≡ NoRoom → length out.old < at + length bytes.now) }
{
    let mut rest = bytes;
    let mut end = at;
    let mut opens: usize = 0;
    let mut due = bytes.len();
    'steps: while due > 0 {
        due -= 1;
        match next_step(kind, rest) {
            Some(Step::Closed(after)) => {
                if opens == 0 {
                    return Ok((after, end));
                }
                opens -= 1;
                rest = after;
            }
            Some(Step::Opened(after)) => {
                opens += 1;
                rest = after;
            }
            Some(Step::Chunk(chunk, after)) => {
                end = put_bytes(chunk, out, end)?;
                rest = after;
            }
            None => return Err(Stop::Malformed),
        }
    }
    Err(Stop::Malformed)
}

/// Writes the string with this body at this offset of the output, and returns the offset after it.
fn put_string(kind: StringKind, body: &[u8], out: &mut [u8], at: usize) -> Result<usize, Stop>
    requires { at ≤ length out.old }
    ensures written { MatchResult result
        (λ end. Adds (body_spelling (kind_of kind) body.now) at end out.old out.new) (λ stop. stop ≡ NoRoom) }
    ensures room { IfErr result (λ stop. length out.old < at + length (body_spelling (kind_of kind) body.now)) }
    ensures range { length body.now < 2 ^ 64 }
{
    let end = put_title(kind.header(Some(body.len())), out, at)?;
    put_bytes(body, out, end)
}

/// Writes the string with this length in its title at this offset of the output. Returns the rest, and the offset after
/// the string.
pub(crate) fn rewrite_string<'a>(
    kind: StringKind,
    len: Option<usize>,
    bytes: &'a [u8],
    out: &mut [u8],
    at: usize,
) -> Result<(&'a [u8], usize), Stop>
    requires { at ≤ length out.old }
    ensures written { MatchResult result (λ found.
        Extends (Turns (IsStringTurned (kind_of kind) len) bytes.now found.0.now) at found.1 out.old out.new)
        (FailsString (kind_of kind) len bytes.now) }
    ensures room { (title : List ℕ) (places : ℕ) → IsTitle title (kind_header (kind_of kind) len) → MatchResult result
        (λ found. Grows 1 (length title + length bytes.now) (length found.0.now) at found.1)
        (LacksRoom (length title + length bytes.now) at (length out.old) (length title + length bytes.now) places) }
{
    match len {
        Some(len) => {
            let Some((body, rest)) = take_body(kind, bytes, len) else {
                return Err(Stop::Malformed);
            };
            let end = put_string(kind, body, out, at)?;
            Ok((rest, end))
        }
        None => {
            let (rest, end) = gather(kind, bytes, out, at)?;
            let header = kind.header(Some(end - at));
            let after = insert_title(header, out, at, end)?;
            Ok((rest, after))
        }
    }
}
