//! The text of bytes between quotes.

ghost use Rattle.std.specs.Prelude.{◌≡◌, ◌↔◌, ◌<◌, ◌≤◌, [], ◌∷◌, IfOk, IsTrue, length, slice_index, take};
ghost use Rattle.ciborium_ll.specs.Encoding.{WritesBytes};
ghost use Rattle.ciborium_ll_text.specs.Digits.{hex_text};
ghost use Rattle.cbor_diag.specs.Notation.{bytes_notation, upper_digit, upper_text};
ghost use Rattle.cbor_diag.specs.Passing.{StandsForItself, byte_held, byte_text, held_end, passed_held, passed_text};
ghost use Rattle.cbor_diag.specs.declared.strings.held.Held.TheVariants.{Nothing as NothingHeld};
ghost use Rattle.cbor_diag.specs.declared.strings.quotes.Quotes.TheVariants.{Text as TextQuotes};

use super::bases::{show_grouped, show_held};
use super::held::{Held, digit, show_next};
use crate::put::put;
use base64::engine::general_purpose::{STANDARD, URL_SAFE_NO_PAD};
use ciborium_ll::io::Write;

/// How many bytes are shown by their digits in one write.
const GROUP: usize = 4;

/// How the body of a string is shown.
#[derive(Clone, Copy)]
pub enum Quotes {
    /// By the hexadecimal digits of its bytes.
    Hex,
    /// As text, with the escapes of JSON.
    Text,
    /// By base16 in upper case (RFC 4648, section 8).
    Base16,
    /// By base64 with padding (RFC 4648, section 4).
    Base64,
    /// By base64url without padding (RFC 4648, section 5).
    Base64Url,
}

impl Quotes {
    ghost use Rattle.cbor_diag.specs.StringShows.{closing, none_text, opening};

    /// Returns the text before a body.
    pub(crate) fn opening(self) -> &'static [u8]
        ensures { result.now ≡ opening self }
    {
        match self {
            Quotes::Hex | Quotes::Base16 => b"h'",
            Quotes::Base64 | Quotes::Base64Url => b"b64'",
            Quotes::Text => b"\"",
        }
    }

    /// Returns the text after a body.
    pub(crate) fn closing(self) -> &'static [u8]
        ensures { result.now ≡ closing self }
    {
        match self {
            Quotes::Text => b"\"",
            _ => b"'",
        }
    }

    /// Returns the bytes that are held after the next byte.
    fn hold(self, held: Held, byte: u8) -> Held
        ensures { result ≡ byte_held self held byte }
    {
        match self {
            Quotes::Hex | Quotes::Base16 => held,
            Quotes::Text => held.after(byte),
            Quotes::Base64 | Quotes::Base64Url => held.grouped(byte),
        }
    }

    /// Returns the text of a string of the indefinite form that has no body (RFC 8949, 8.1).
    pub(crate) fn none(self) -> &'static [u8]
        ensures { result.now ≡ none_text self }
    {
        match self {
            Quotes::Text => b"\"\"_",
            _ => b"''_",
        }
    }
}

/// Shows bytes as they stand between quotes. The bytes of a character that are not whole are held.
pub(super) fn show_quoted<W: Write>(
    writer: &mut W,
    quotes: Quotes,
    held: &mut Held,
    bytes: &[u8],
) -> Result<(), W::Error>
    ensures written { WritesBytes W.Write writer.old result (passed_text quotes held.old bytes.now) writer.new }
    ensures held { IfOk result (λ _. held.new ≡ passed_held quotes held.old bytes.now) }
{
    if let Quotes::Hex = quotes {
        return put_hex(writer, bytes);
    }
    let mut at = 0;
    'bytes: while at < bytes.len() {
        let len = plain_len(quotes, *held, &bytes[at..]);
        if len > 0 {
            put(writer, &bytes[at..at + len])?;
            at += len;
        } else {
            show_byte(writer, quotes, *held, bytes[at])?;
            *held = quotes.hold(*held, bytes[at]);
            at += 1;
        }
    }
    Ok(())
}

/// Returns how many bytes at the beginning stand for themselves between quotes: those of a text up to the first that
/// does not, if no bytes are held.
fn plain_len(quotes: Quotes, held: Held, bytes: &[u8]) -> usize
    ensures within { result ≤ length bytes.now }
    ensures text { 0 < result → passed_text quotes held (take result bytes.now) ≡ take result bytes.now }
    ensures held { 0 < result → passed_held quotes held (take result bytes.now) ≡ held }
    ensures ends { quotes ≡ TextQuotes → held ≡ NothingHeld → result < length bytes.now
        → StandsForItself (slice_index bytes.now result) → ⊥ }
{
    let (Quotes::Text, Held::Nothing) = (quotes, held) else {
        return 0;
    };
    let mut len = 0;
    'bytes: while len < bytes.len() && stands_for_itself(bytes[len]) {
        len += 1;
    }
    len
}

/// Returns whether a byte stands for itself in a text: a character of ASCII that no escape spells, or another byte that
/// begins no character of two or three bytes.
fn stands_for_itself(byte: u8) -> bool
    ensures { IsTrue result ↔ StandsForItself byte }
{
    matches!(
        byte,
        0x20..=0x21 | 0x23..=0x5b | 0x5d..=0x7e | 0x80..=0xc1 | 0xf0..=0xff
    )
}

/// Shows bytes by two hexadecimal digits each.
pub(crate) fn put_hex<W: Write>(writer: &mut W, bytes: &[u8]) -> Result<(), W::Error>
    ensures { WritesBytes W.Write writer.old result (bytes_notation bytes.now) writer.new }
{
    let mut at = 0;
    'bytes: while at < bytes.len() {
        match bytes[at..].first_chunk::<GROUP>() {
            Some(group) => {
                put_group(writer, group)?;
                at += GROUP;
            }
            None => {
                show_hex(writer, bytes[at])?;
                at += 1;
            }
        }
    }
    Ok(())
}

/// Shows four bytes by two hexadecimal digits each, in one write.
fn put_group<W: Write>(writer: &mut W, group: &[u8; GROUP]) -> Result<(), W::Error>
    ensures { WritesBytes W.Write writer.old result (bytes_notation group.now) writer.new }
{
    let [a, b, c, d] = *group;
    put(
        writer,
        &[
            digit(a / 16),
            digit(a % 16),
            digit(b / 16),
            digit(b % 16),
            digit(c / 16),
            digit(c % 16),
            digit(d / 16),
            digit(d % 16),
        ],
    )
}

/// Shows a byte as it stands between quotes, after the bytes that are held.
fn show_byte<W: Write>(writer: &mut W, quotes: Quotes, held: Held, byte: u8) -> Result<(), W::Error>
    ensures { WritesBytes W.Write writer.old result (byte_text quotes held byte) writer.new }
{
    match quotes {
        Quotes::Hex => show_hex(writer, byte),
        Quotes::Text => show_next(writer, held, byte),
        Quotes::Base16 => show_upper(writer, byte),
        Quotes::Base64 => show_grouped(writer, &STANDARD, held, byte),
        Quotes::Base64Url => show_grouped(writer, &URL_SAFE_NO_PAD, held, byte),
    }
}

/// Shows the bytes that are held after the last byte of a body, if base64 holds them.
pub fn show_end<W: Write>(writer: &mut W, quotes: Quotes, held: Held) -> Result<(), W::Error>
    ensures { WritesBytes W.Write writer.old result (held_end quotes held) writer.new }
{
    match quotes {
        Quotes::Base64 => show_held(writer, &STANDARD, held),
        Quotes::Base64Url => show_held(writer, &URL_SAFE_NO_PAD, held),
        Quotes::Hex | Quotes::Text | Quotes::Base16 => Ok(()),
    }
}

/// Shows a byte by two hexadecimal digits in upper case.
fn show_upper<W: Write>(writer: &mut W, byte: u8) -> Result<(), W::Error>
    ensures { WritesBytes W.Write writer.old result (upper_text byte) writer.new }
{
    put(writer, &[upper(byte / 16), upper(byte % 16)])
}

/// Returns the hexadecimal digit of a number below 16, in upper case.
fn upper(number: u8) -> u8
    requires { number < 16 }
    ensures { result ≡ upper_digit number }
{
    if number < 10 {
        b'0' + number
    } else {
        b'A' - 10 + number
    }
}

/// Shows a byte by two hexadecimal digits.
fn show_hex<W: Write>(writer: &mut W, byte: u8) -> Result<(), W::Error>
    ensures { WritesBytes W.Write writer.old result (hex_text byte) writer.new }
{
    put(writer, &[digit(byte / 16), digit(byte % 16)])
}
