//! Tests of the settings, on bytes worked by hand.

use crate::checks::{End, ends_so, holds_at};
use cbor_skip::SkipError;
use ciborium_ll::io::{EndOfFile, SliceReader, SliceWriter};
use ciborium_ll::{Decoder, Encoder, Error};
use std::alloc::Global;
use uses::{Settings, SettingsError, TextError, read_settings, write_settings};

// Returns whether the settings are these.
fn are(settings: &Settings, host: Option<&str>, port: Option<u64>) -> bool {
    settings.host.as_deref() == host && settings.port == port
}

// Returns whether settings are read, are these, and end at this offset.
fn reads(
    alloc: Global,
    bytes: &[u8],
    host: Option<&str>,
    port: Option<u64>,
    offset: usize,
) -> bool {
    let mut decoder = Decoder::from(SliceReader::new(bytes));
    match read_settings(alloc, &mut decoder) {
        Ok(settings) => are(&settings, host, port) && decoder.offset() == offset,
        Err(_) => false,
    }
}

// Bytes, their host and port, and the offset after them.
static MAPS: [(&[u8], Option<&str>, Option<u64>, usize); 6] = [
    (b"\xa0", None, None, 1),
    (b"\xa2\x01\x61a\x02\x05", Some("a"), Some(5), 6),
    // unknown keys, with an array and a text in two pieces
    (
        b"\xa3\x03\x82\x01\x80\x18\x63\x7f\x61a\x60\xff\x02\x19\x1f\x90\x00",
        None,
        Some(8080),
        16,
    ),
    // the last value of a key counts
    (b"\xa2\x02\x05\x02\x06", None, Some(6), 5),
    // a host in two pieces, and longer titles
    (b"\xb8\x01\x18\x01\x7f\x61a\x61b\xff", Some("ab"), None, 10),
    // the key 2 within a value is no key of the map
    (b"\xa1\x03\xa1\x02\x07", None, None, 5),
];

#[test]
fn settings(rt: HostRuntime) {
    for &(bytes, host, port, offset) in &MAPS {
        let is_right = reads(rt.alloc(), bytes, host, port, offset);
        holds_at(&rt, is_right, bytes);
    }
}

// Returns how a read of settings ends, and at which offset.
fn end_of_settings(alloc: Global, bytes: &[u8]) -> (End, usize) {
    match read_settings(alloc, &mut Decoder::from(SliceReader::new(bytes))) {
        Ok(_) => (End::Done, 0),
        Err(SettingsError::Unexpected(place)) => (End::Unexpected, place),
        Err(SettingsError::Read(Error::Syntax(place))) => (End::Syntax, place),
        Err(SettingsError::Read(Error::Io(EndOfFile))) => (End::Short, 0),
        Err(SettingsError::Text(TextError::NoText(place))) => (End::NoText, place),
        Err(SettingsError::Text(TextError::TooLong)) => (End::TooLong, 0),
        Err(SettingsError::Skip(SkipError::Deep(place))) => (End::MapDeep, place),
        Err(SettingsError::Skip(SkipError::Break(place))) => (End::MapBreak, place),
        Err(_) => (End::Other, 0),
    }
}

// Bytes, why they are no settings, and at which offset if the error has one.
static NO_SETTINGS: [(&[u8], End, usize); 9] = [
    (b"\x80", End::Unexpected, 0),
    // an indefinite length
    (b"\xbf\xff", End::Unexpected, 0),
    // a key and a port that are no numbers
    (b"\xa1\x61a\x05", End::Unexpected, 1),
    (b"\xa1\x02\x20", End::Unexpected, 2),
    (b"\xa1\x01\x05", End::NoText, 2),
    (b"\xa1\x1c", End::Syntax, 1),
    (b"\xa1\x02", End::Short, 0),
    (b"\xa1\x03\xff", End::MapBreak, 2),
    // a host of 256 bytes
    (b"\xa1\x01\x79\x01\x00", End::TooLong, 0),
];

#[test]
fn no_settings(rt: HostRuntime) {
    for &(bytes, want, place) in &NO_SETTINGS {
        let end = end_of_settings(rt.alloc(), bytes);
        holds_at(&rt, ends_so(end, want, place), bytes);
    }
}

// Returns whether a write into some space succeeds or not, as expected, and writes these bytes.
fn writes(space: &mut [u8], is_ok: bool, want: &[u8]) -> bool {
    let mut encoder = Encoder::from(SliceWriter::new(space));
    let outcome = write_settings(&mut encoder, "a", 8080);
    outcome.is_ok() == is_ok && encoder.into_inner().written() == want
}

#[test]
fn settings_written(rt: HostRuntime) {
    let mut space = [0; 16];
    let want = b"\xa2\x01\x61a\x02\x19\x1f\x90";
    holds_at(&rt, writes(&mut space, true, want), want);
    // The text fits, the port's key, and the first byte of the port.
    let front = b"\xa2\x01\x61a\x02\x19";
    holds_at(&rt, writes(&mut space[..6], false, front), front);
}
