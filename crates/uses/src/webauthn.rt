//! An attestation object of Web Authentication (W3C, 6.5.4), as the places of its parts.

ghost use Rattle.std.specs.Prelude.{◌≡◌, ◌↔◌, ◌+◌, ℕ, List, length, IfErr, IfOk, IsOk, IsTrue, MatchOption};
ghost use Rattle.cbor_view.specs.Held.{item_bytes, item_depth};
ghost use Rattle.cbor_view.specs.Views.{IsTextOf};
ghost use Rattle.uses.specs.Webauthn.{BeginsAttestation, FailsAttestation, HasAuthData, HasFormat};
ghost use Rattle.uses.specs.Webauthn.{HasStatement, HasValueAt};

use crate::cose::Span;
use cbor_view::{Fault, Item};

/// The greatest depth of nesting of an attestation object, with its own map.
pub const ATTESTATION_DEPTH: usize = 16;

/// The places of the parts of an attestation object.
#[derive(Debug, Clone, Copy, PartialEq, Eq)]
pub struct Attestation {
    /// The body of the text string with the key `fmt`.
    pub format: Span,
    /// The whole map with the key `attStmt`.
    pub statement: Span,
    /// The body of the byte string with the key `authData`.
    pub auth_data: Span,
}

/// Why no attestation object was read.
#[derive(Debug, Clone, Copy, PartialEq, Eq)]
pub enum AttestationError {
    /// No item begins the bytes, for this reason.
    Item(Fault),
    /// The item is no map with a key `fmt` whose value is a text string.
    NoFormat,
    /// The map has no key `attStmt` whose value is a map.
    NoStatement,
    /// The map has no key `authData` whose value is a byte string.
    NoAuthData,
}

/// Returns the places of the parts of the attestation object (W3C Web Authentication, 6.5.4) that begins the bytes.
///
/// The object is a map with the text keys `fmt`, `attStmt` and `authData`, in any order, and with any other keys. If a
/// key comes twice, its first value counts. The keys, the format and the authenticator data have definite lengths.
/// Titles may have any spelling. The object may be nested 16 levels deep. The call tests no other contents.
///
/// # Errors
///
/// - `Item`: no item begins the bytes.
/// - `NoFormat`: the item is no map, it has no key `fmt`, or the key's value is no text string of definite length.
/// - `NoStatement`: there is a format, and no key `attStmt`, or its value is no map.
/// - `NoAuthData`: there are both, and no key `authData`, or its value is no byte string of definite length.
pub fn read_attestation(bytes: &[u8]) -> Result<Attestation, AttestationError>
    ensures begins { IfOk result (BeginsAttestation bytes.now) }
    ensures exactly { IsOk result ↔ ((parts : Attestation) × BeginsAttestation bytes.now parts) }
    ensures fails { IfErr result (FailsAttestation bytes.now) }
{
    let item = match Item::parse(bytes, ATTESTATION_DEPTH) {
        Ok(item) => item,
        Err(fault) => return Err(AttestationError::Item(fault)),
    };
    let Some(format) = find_format(&item) else {
        return Err(AttestationError::NoFormat);
    };
    let Some(statement) = find_statement(&item) else {
        return Err(AttestationError::NoStatement);
    };
    let Some(auth_data) = find_auth_data(&item) else {
        return Err(AttestationError::NoAuthData);
    };
    Ok(Attestation {
        format,
        statement,
        auth_data,
    })
}

/// Returns the span of the format.
fn find_format(item: &Item<'_>) -> Option<Span>
    ensures { MatchOption result ((span : Span) → HasFormat (item_depth item.now) (item_bytes item.now) span → ⊥)
        (HasFormat (item_depth item.now) (item_bytes item.now)) }
{
    let Some((whole, value)) = find(item, "fmt") else {
        return None;
    };
    let Some(text) = value.text() else {
        return None;
    };
    let start = whole.end - text.len();
    Some(Span {
        start,
        end: whole.end,
    })
}

/// Returns the span of the statement.
fn find_statement(item: &Item<'_>) -> Option<Span>
    ensures { MatchOption result ((span : Span) → HasStatement (item_depth item.now) (item_bytes item.now) span → ⊥)
        (HasStatement (item_depth item.now) (item_bytes item.now)) }
{
    let Some((whole, value)) = find(item, "attStmt") else {
        return None;
    };
    let Some(_pairs) = value.entries() else {
        return None;
    };
    Some(whole)
}

/// Returns the span of the authenticator data.
fn find_auth_data(item: &Item<'_>) -> Option<Span>
    ensures { MatchOption result ((span : Span) → HasAuthData (item_depth item.now) (item_bytes item.now) span → ⊥)
        (HasAuthData (item_depth item.now) (item_bytes item.now)) }
{
    let Some((whole, value)) = find(item, "authData") else {
        return None;
    };
    let Some(body) = value.byte_string() else {
        return None;
    };
    let start = whole.end - body.len();
    Some(Span {
        start,
        end: whole.end,
    })
}

/// Returns the value of the first key that is this text, and its span in the item.
fn find<'a>(item: &Item<'a>, key: &str) -> Option<(Span, Item<'a>)>
    ensures { MatchOption result
        ((place : ℕ) (value : List ℕ) → HasValueAt (item_depth item.now) key.now (item_bytes item.now) place value → ⊥)
        (λ found. HasValueAt (item_depth item.now) key.now (item_bytes item.now) found.0.start (item_bytes found.1)
        × (found.0.end ≡ found.0.start + length (item_bytes found.1))) }
{
    let Some(mut pairs) = item.entries() else {
        return None;
    };
    let mut place = item.bytes().len() - item.open().1.len();
    'pairs: while let Some((other, value)) = pairs.next() {
        let start = place + other.bytes().len();
        let end = start + value.bytes().len();
        if is_text(&other, key) {
            return Some((Span { start, end }, value));
        }
        place = end;
    }
    None
}

/// Returns whether the item is this text, in a string of definite length.
fn is_text(item: &Item<'_>, text: &str) -> bool
    ensures { IsTrue result ↔ IsTextOf (item_bytes item.now) text.now }
{
    match item.text() {
        Some(body) => body == text,
        None => false,
    }
}
