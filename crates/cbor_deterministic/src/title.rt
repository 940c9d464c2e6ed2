//! Titles of the preferred serialization (RFC 8949, 4.1).

ghost use Rattle.std.specs.Prelude.{◌≡◌, ◌↔◌, ◌+◌, ◌%◌, ◌++◌, List, ℕ, IsTrue, MatchResult, length, slice_index};
ghost use Rattle.ciborium_ll_grammar.specs.Title.{IsSmallSimple, affix_len};
ghost use Rattle.cbor_deterministic.specs.Fronts.{InFront};
ghost use Rattle.cbor_deterministic.specs.Preferred.{IsIndefinite, IsPreferredTitle, IsWide};
ghost use Rattle.cbor_deterministic.specs.Refusals.{FailsTitle};

use crate::Why;
use crate::floats::is_wide_float;
use ciborium_ll_grammar::hdr::Header;
use ciborium_ll_grammar::titles::{split_title, title_of};

/// Returns the header of the title at the start, and the rest.
#[inline(always)]
#[tactic(auto, using(crate::proofs::TitleRuns::fails_front))]
pub(crate) fn next_preferred(bytes: &[u8]) -> Result<(Header, &[u8]), Why>
    ensures { MatchResult result (λ found. InFront (λ title. IsPreferredTitle title found.0) bytes.now found.1.now)
        (λ why. FailsTitle bytes.now why) }
{
    let Some((title, rest)) = split_title(bytes) else {
        return Err(Why::Cut);
    };
    match preferred_header(title) {
        Ok(header) => Ok((header, rest)),
        Err(why) => Err(why),
    }
}

/// Returns the header of a preferred title. All bytes that the first byte announces are there.
#[inline(always)]
fn preferred_header(bytes: &[u8]) -> Result<Header, Why>
    requires { length bytes.now ≡ 1 + affix_len (slice_index bytes.now 0 % 32) }
    ensures { MatchResult result (IsPreferredTitle bytes.now)
        (λ why. (rest : List ℕ) → FailsTitle (bytes.now ++ rest) why) }
{
    let Some((title, kind)) = title_of(bytes) else {
        return Err(Why::NoTitle);
    };
    let Some(header) = title.header(kind) else {
        return Err(Why::NoTitle);
    };
    if title.minor.is_refused_when_strict(title.major) {
        return Err(if is_small_simple(header) {
            Why::NoSimple
        } else {
            Why::NotShortest
        });
    }
    if is_wide(header) {
        return Err(Why::NotShortest);
    }
    if is_indefinite(header) {
        return Err(Why::Indefinite);
    }
    Ok(header)
}

/// Returns whether this is a simple value from 24 to 31.
fn is_small_simple(header: Header) -> bool
    ensures { IsTrue result ↔ IsSmallSimple header }
{
    match header {
        Header::Simple(number) => number >= 24 && number < 32,
        _ => false,
    }
}

/// Returns whether this is a float that fits a smaller width.
#[inline(always)]
fn is_wide(header: Header) -> bool
    ensures { IsTrue result ↔ IsWide header }
{
    match header {
        Header::Float(float) => is_wide_float(float),
        _ => false,
    }
}

/// Returns whether this has an indefinite form or is a break.
#[inline(always)]
fn is_indefinite(header: Header) -> bool
    ensures { IsTrue result ↔ IsIndefinite header }
{
    matches!(
        header,
        Header::Break
            | Header::Bytes(None)
            | Header::Text(None)
            | Header::Array(None)
            | Header::Map(None)
    )
}
