//! The claims set of a CBOR Web Token (RFC 8392, 3), written.

ghost use Rattle.std.specs.Prelude.{◌≡◌, ◌≤◌, if◌then◌else◌};
ghost use Rattle.ciborium_ll.specs.Encoding.{WritesBytes, writer_of};
ghost use Rattle.uses.specs.Claims.{claim_count, claims_bytes, id_claim, name_claim, names_bytes, time_claim};
ghost use Rattle.uses.specs.Claims.{times_bytes, claims_title};

use ciborium_ll::io::Write;
use ciborium_ll::{Encoder, Header};

/// The key of the claim `iss` (RFC 8392, 3.1.1).
const ISSUER: u64 = 1;

/// The key of the claim `sub` (RFC 8392, 3.1.2).
const SUBJECT: u64 = 2;

/// The key of the claim `aud` (RFC 8392, 3.1.3).
const AUDIENCE: u64 = 3;

/// The key of the claim `exp` (RFC 8392, 3.1.4).
const EXPIRES: u64 = 4;

/// The key of the claim `nbf` (RFC 8392, 3.1.5).
const NOT_BEFORE: u64 = 5;

/// The key of the claim `iat` (RFC 8392, 3.1.6).
const ISSUED_AT: u64 = 6;

/// The key of the claim `cti` (RFC 8392, 3.1.7).
const ID: u64 = 7;

/// The registered claims that a token has (RFC 8392, 3.1). A time is a number of seconds since the start of 1970, UTC.
#[derive(Clone, Copy)]
pub struct Claims<'a> {
    /// The issuer, `iss`.
    pub issuer: Option<&'a str>,
    /// The subject, `sub`.
    pub subject: Option<&'a str>,
    /// The audience, `aud`.
    pub audience: Option<&'a str>,
    /// The time from which the token is not accepted, `exp`.
    pub expires: Option<u64>,
    /// The time before which the token is not accepted, `nbf`.
    pub not_before: Option<u64>,
    /// The time at which the token was issued, `iat`.
    pub issued_at: Option<u64>,
    /// The identifier of the token, `cti`.
    pub id: Option<&'a [u8]>,
}

/// Writes the claims as a map of a definite length with the keys 1 to 7 (RFC 8392, 3 and 4).
///
/// The keys ascend, each title is the shortest, and a claim that is `None` is not written.
///
/// # Errors
///
/// - `W::Error`: the writer failed, with a beginning of the map written.
#[tactic(auto, using(crate::proofs::Steps::writes), unfolding(crate::specs::Claims::claims_bytes))]
pub fn write_claims<W: Write>(encoder: &mut Encoder<W>, claims: &Claims<'_>) -> Result<(), W::Error>
    ensures bytes { WritesBytes W.Write (writer_of encoder.old) result (claims_bytes claims.now)
        (writer_of encoder.new) }
    ensures target { W.target (writer_of encoder.new) ≡ W.target (writer_of encoder.old) }
{
    write_title(encoder, claims)?;
    write_names(encoder, claims)?;
    write_times(encoder, claims)?;
    write_id(encoder, claims.id)
}

/// Writes the title of the map.
#[tactic(auto, unfolding(crate::specs::Claims::claims_title))]
fn write_title<W: Write>(encoder: &mut Encoder<W>, claims: &Claims<'_>) -> Result<(), W::Error>
    ensures bytes { WritesBytes W.Write (writer_of encoder.old) result (claims_title claims.now)
        (writer_of encoder.new) }
    ensures target { W.target (writer_of encoder.new) ≡ W.target (writer_of encoder.old) }
{
    encoder.push(Header::Map(Some(count(claims))))
}

/// Returns the number of claims.
fn count(claims: &Claims<'_>) -> usize
    ensures { result ≡ claim_count claims.now }
{
    one(claims.issuer.is_some())
        + one(claims.subject.is_some())
        + one(claims.audience.is_some())
        + one(claims.expires.is_some())
        + one(claims.not_before.is_some())
        + one(claims.issued_at.is_some())
        + one(claims.id.is_some())
}

/// Returns 1 if a claim is there, and 0 otherwise.
fn one(is_there: bool) -> usize
    ensures value { result ≡ (if is_there then 1 else 0) }
    ensures most { result ≤ 1 }
{
    if is_there { 1 } else { 0 }
}

/// Writes the claims that are texts.
#[tactic(auto, using(crate::proofs::Steps::writes), unfolding(crate::specs::Claims::names_bytes))]
fn write_names<W: Write>(encoder: &mut Encoder<W>, claims: &Claims<'_>) -> Result<(), W::Error>
    ensures bytes { WritesBytes W.Write (writer_of encoder.old) result (names_bytes claims.now)
        (writer_of encoder.new) }
    ensures target { W.target (writer_of encoder.new) ≡ W.target (writer_of encoder.old) }
{
    write_name(encoder, ISSUER, claims.issuer)?;
    write_name(encoder, SUBJECT, claims.subject)?;
    write_name(encoder, AUDIENCE, claims.audience)
}

/// Writes the claims that are times.
#[tactic(auto, using(crate::proofs::Steps::writes), unfolding(crate::specs::Claims::times_bytes))]
fn write_times<W: Write>(encoder: &mut Encoder<W>, claims: &Claims<'_>) -> Result<(), W::Error>
    ensures bytes { WritesBytes W.Write (writer_of encoder.old) result (times_bytes claims.now)
        (writer_of encoder.new) }
    ensures target { W.target (writer_of encoder.new) ≡ W.target (writer_of encoder.old) }
{
    write_time(encoder, EXPIRES, claims.expires)?;
    write_time(encoder, NOT_BEFORE, claims.not_before)?;
    write_time(encoder, ISSUED_AT, claims.issued_at)
}

/// Writes a claim that is a text, if it is there.
fn write_name<W: Write>(
    encoder: &mut Encoder<W>,
    key: u64,
    value: Option<&str>,
) -> Result<(), W::Error>
    ensures bytes { WritesBytes W.Write (writer_of encoder.old) result (name_claim key value.entry)
        (writer_of encoder.new) }
    ensures target { W.target (writer_of encoder.new) ≡ W.target (writer_of encoder.old) }
{
    let Some(text) = value else {
        return Ok(());
    };
    encoder.push(Header::Positive(key))?;
    encoder.text(text, None)
}

/// Writes a claim that is a time, if it is there.
fn write_time<W: Write>(
    encoder: &mut Encoder<W>,
    key: u64,
    value: Option<u64>,
) -> Result<(), W::Error>
    ensures bytes { WritesBytes W.Write (writer_of encoder.old) result (time_claim key value) (writer_of encoder.new) }
    ensures target { W.target (writer_of encoder.new) ≡ W.target (writer_of encoder.old) }
{
    let Some(seconds) = value else {
        return Ok(());
    };
    encoder.push(Header::Positive(key))?;
    encoder.push(Header::Positive(seconds))
}

/// Writes the identifier, if it is there.
fn write_id<W: Write>(encoder: &mut Encoder<W>, value: Option<&[u8]>) -> Result<(), W::Error>
    ensures bytes { WritesBytes W.Write (writer_of encoder.old) result (id_claim value.entry) (writer_of encoder.new) }
    ensures target { W.target (writer_of encoder.new) ≡ W.target (writer_of encoder.old) }
{
    let Some(bytes) = value else {
        return Ok(());
    };
    encoder.push(Header::Positive(ID))?;
    encoder.bytes(bytes, None)
}
