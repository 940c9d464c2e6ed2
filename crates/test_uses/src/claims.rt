//! Claims of a token: the example of RFC 8392, and claims that were worked by hand.

use crate::checks::holds_at;
use ciborium_ll::Encoder;
use ciborium_ll::io::SliceWriter;
use uses::{Claims, write_claims};

// RFC 8392, appendix A.1: the claims, and the map.
static EXAMPLE: Claims<'static> = Claims {
    issuer: Some("coap://as.example.com"),
    subject: Some("erikw"),
    audience: Some("coap://light.example.com"),
    expires: Some(1_444_064_944),
    not_before: Some(1_443_944_944),
    issued_at: Some(1_443_944_944),
    id: Some(b"\x0b\x71"),
};

static EXAMPLE_BYTES: &[u8] =
    b"\xa7\x01\x75coap://as.example.com\x02\x65erikw\x03\x78\x18coap://light.example.com\
    \x04\x1a\x56\x12\xae\xb0\x05\x1a\x56\x10\xd9\xf0\x06\x1a\x56\x10\xd9\xf0\x07\x42\x0b\x71";

static NO_CLAIMS: Claims<'static> = Claims {
    issuer: None,
    subject: None,
    audience: None,
    expires: None,
    not_before: None,
    issued_at: None,
    id: None,
};

// Returns whether a write into some space succeeds or not, as expected, and writes these bytes.
fn writes(claims: &Claims<'_>, space: &mut [u8], is_ok: bool, want: &[u8]) -> bool {
    let mut encoder = Encoder::from(SliceWriter::new(space));
    let outcome = write_claims(&mut encoder, claims);
    outcome.is_ok() == is_ok && encoder.into_inner().written() == want
}

#[test]
fn an_example_of_the_standard(rt: HostRuntime) {
    let mut space = [0; 96];
    let is_right = EXAMPLE_BYTES.len() == 80 && writes(&EXAMPLE, &mut space, true, EXAMPLE_BYTES);
    holds_at(&rt, is_right, EXAMPLE_BYTES);
}

// Claims, and their map.
static SETS: [(Claims<'static>, &[u8]); 4] = [
    (NO_CLAIMS, b"\xa0"),
    // an empty text, and a time of one byte
    (
        Claims {
            subject: Some(""),
            issued_at: Some(0),
            ..NO_CLAIMS
        },
        b"\xa2\x02\x60\x06\x00",
    ),
    // an empty identifier alone
    (
        Claims {
            id: Some(b""),
            ..NO_CLAIMS
        },
        b"\xa1\x07\x40",
    ),
    // an issuer and an expiry, with the greatest time
    (
        Claims {
            issuer: Some("a"),
            expires: Some(u64::MAX),
            ..NO_CLAIMS
        },
        b"\xa2\x01\x61a\x04\x1b\xff\xff\xff\xff\xff\xff\xff\xff",
    ),
];

#[test]
fn sets_of_claims(rt: HostRuntime) {
    let mut space = [0; 32];
    for (claims, want) in &SETS {
        holds_at(&rt, writes(claims, &mut space, true, want), want);
    }
}

#[test]
fn claims_without_space(rt: HostRuntime) {
    let mut space = [0; 96];
    for len in 0..EXAMPLE_BYTES.len() {
        let mut encoder = Encoder::from(SliceWriter::new(&mut space[..len]));
        let outcome = write_claims(&mut encoder, &EXAMPLE);
        let is_beginning = EXAMPLE_BYTES.starts_with(encoder.into_inner().written());
        holds_at(&rt, outcome.is_err() && is_beginning, EXAMPLE_BYTES);
    }
}
