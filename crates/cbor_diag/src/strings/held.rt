//! The characters of a text whose bytes come one by one.

ghost use Rattle.std.specs.Prelude.{◌≡◌, ◌<◌};
ghost use Rattle.ciborium_ll.specs.Encoding.{WritesBytes};
ghost use Rattle.ciborium_ll_text.specs.Digits.{hex_digit};
ghost use Rattle.cbor_escapes.specs.Escapes.{escape_text};
ghost use Rattle.cbor_diag.specs.declared.strings.held.TheConstants.{UNIT_CODES};
ghost use Rattle.cbor_diag.specs.Passing.{byte_notation, held_after, held_grouped, is_lead, next_text};
ghost use Rattle.cbor_diag.specs.Passing.{shown_character, three_code, two_code};

use crate::put::put;
use cbor_escapes::is_acted_on;
use ciborium_ll::io::Write;

/// How many codes four hexadecimal digits spell.
const UNIT_CODES: u32 = 0x1_0000;

/// The bytes that came before the last byte of a character of two or three bytes, or of a group of three bytes.
#[derive(Clone, Copy)]
pub enum Held {
    /// No byte.
    Nothing,
    /// The first byte.
    One(u8),
    /// The first two bytes.
    Two(u8, u8),
}

impl Held {
    /// Returns the bytes that are held after the next byte.
    pub(super) fn after(self, byte: u8) -> Held
        ensures { result ≡ held_after self byte }
    {
        match self {
            Held::Nothing if is_lead(byte) => Held::One(byte),
            Held::One(first) if first >= 0xe0 => Held::Two(first, byte),
            _ => Held::Nothing,
        }
    }

    /// Returns the bytes that are held after the next byte, if each group of three bytes is shown as one.
    pub(super) fn grouped(self, byte: u8) -> Held
        ensures { result ≡ held_grouped self byte }
    {
        match self {
            Held::Nothing => Held::One(byte),
            Held::One(first) => Held::Two(first, byte),
            Held::Two(_, _) => Held::Nothing,
        }
    }
}

/// Returns whether a byte begins a character of two or three bytes.
fn is_lead(byte: u8) -> bool
    ensures { result ≡ is_lead byte }
{
    matches!(byte, 0xc2..=0xef)
}

/// Shows the character that the next byte of a text ends, with the escapes of JSON (RFC 8259, 7).
pub(super) fn show_next<W: Write>(writer: &mut W, held: Held, byte: u8) -> Result<(), W::Error>
    ensures { WritesBytes W.Write writer.old result (next_text held byte) writer.new }
{
    match held {
        Held::Nothing if is_lead(byte) => Ok(()),
        Held::Nothing => show_single(writer, byte),
        Held::One(first) if first >= 0xe0 => Ok(()),
        Held::One(first) => show_character(writer, code_of_two(first, byte), &[first, byte]),
        Held::Two(first, second) => {
            let code = code_of_three(first, second, byte);
            show_character(writer, code, &[first, second, byte])
        }
    }
}

/// Returns the character of two bytes.
fn code_of_two(first: u8, second: u8) -> u32
    ensures is { result ≡ two_code first second }
    ensures below { result < UNIT_CODES }
{
    u32::from(first % 32) * 64 + u32::from(second % 64)
}

/// Returns the character of three bytes.
fn code_of_three(first: u8, second: u8, third: u8) -> u32
    ensures is { result ≡ three_code first second third }
    ensures below { result < UNIT_CODES }
{
    u32::from(first % 16) * 4096 + (u32::from(second % 64) * 64 + u32::from(third % 64))
}

/// Shows a byte that begins no character of two or three bytes.
fn show_single<W: Write>(writer: &mut W, byte: u8) -> Result<(), W::Error>
    ensures { WritesBytes W.Write writer.old result (byte_notation byte) writer.new }
{
    match byte {
        b'"' => put(writer, b"\\\""),
        b'\\' => put(writer, b"\\\\"),
        0x08 => put(writer, b"\\b"),
        b'\t' => put(writer, b"\\t"),
        b'\n' => put(writer, b"\\n"),
        0x0c => put(writer, b"\\f"),
        b'\r' => put(writer, b"\\r"),
        0x80..=0xff => put(writer, &[byte]),
        _ => show_character(writer, u32::from(byte), &[byte]),
    }
}

/// Shows the bytes of a character of this code, or its escape.
fn show_character<W: Write>(writer: &mut W, code: u32, bytes: &[u8]) -> Result<(), W::Error>
    requires { code < UNIT_CODES }
    ensures { WritesBytes W.Write writer.old result (shown_character code bytes.now) writer.new }
{
    if is_acted_on(code) {
        show_escape(writer, code)
    } else {
        put(writer, bytes)
    }
}

/// Shows the escape of a character.
fn show_escape<W: Write>(writer: &mut W, code: u32) -> Result<(), W::Error>
    requires { code < UNIT_CODES }
    ensures { WritesBytes W.Write writer.old result (escape_text code) writer.new }
{
    let [high, low] = [(code / 256) as u8, (code % 256) as u8];
    put(
        writer,
        &[
            b'\\',
            b'u',
            digit(high / 16),
            digit(high % 16),
            digit(low / 16),
            digit(low % 16),
        ],
    )
}

/// Returns the hexadecimal digit of a number below 16.
pub(super) fn digit(number: u8) -> u8
    requires { number < 16 }
    ensures { result ≡ hex_digit number }
{
    if number < 10 {
        b'0' + number
    } else {
        b'a' - 10 + number
    }
}
