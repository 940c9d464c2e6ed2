// SPDX-License-Identifier: Apache-2.0
//! The characters that a text for a terminal escapes.
//!
//! A terminal may act on control characters, and bidirectional controls change the order of the text that it shows.
#![tactic(auto)]

ghost use Rattle.std.specs.Prelude.{◌≡◌, ◌↔◌, IsTrue};
ghost use Rattle.std.specs.Fmt.{WritesOnOk};
ghost use Rattle.std.specs.Str.{chars};
ghost use Rattle.cbor_escapes.specs.Escapes.{AreUnescaped, IsUnescaped, is_acted_on, terminal_text, terminal_texts};

use std::fmt;

/// 1 for a byte that is a character of ASCII without an escape, and otherwise 0. A line has 32 bytes.
#[rattlefmt::skip]
static UNESCAPED: [u8; 256] = [
    0, 0, 0, 0, 0, 0, 0, 0, 0, 0, 0, 0, 0, 0, 0, 0, 0, 0, 0, 0, 0, 0, 0, 0, 0, 0, 0, 0, 0, 0, 0, 0,
    1, 1, 0, 1, 1, 1, 1, 1, 1, 1, 1, 1, 1, 1, 1, 1, 1, 1, 1, 1, 1, 1, 1, 1, 1, 1, 1, 1, 1, 1, 1, 1,
    1, 1, 1, 1, 1, 1, 1, 1, 1, 1, 1, 1, 1, 1, 1, 1, 1, 1, 1, 1, 1, 1, 1, 1, 1, 1, 1, 1, 0, 1, 1, 1,
    1, 1, 1, 1, 1, 1, 1, 1, 1, 1, 1, 1, 1, 1, 1, 1, 1, 1, 1, 1, 1, 1, 1, 1, 1, 1, 1, 1, 1, 1, 1, 0,
    0, 0, 0, 0, 0, 0, 0, 0, 0, 0, 0, 0, 0, 0, 0, 0, 0, 0, 0, 0, 0, 0, 0, 0, 0, 0, 0, 0, 0, 0, 0, 0,
    0, 0, 0, 0, 0, 0, 0, 0, 0, 0, 0, 0, 0, 0, 0, 0, 0, 0, 0, 0, 0, 0, 0, 0, 0, 0, 0, 0, 0, 0, 0, 0,
    0, 0, 0, 0, 0, 0, 0, 0, 0, 0, 0, 0, 0, 0, 0, 0, 0, 0, 0, 0, 0, 0, 0, 0, 0, 0, 0, 0, 0, 0, 0, 0,
    0, 0, 0, 0, 0, 0, 0, 0, 0, 0, 0, 0, 0, 0, 0, 0, 0, 0, 0, 0, 0, 0, 0, 0, 0, 0, 0, 0, 0, 0, 0, 0,
];

/// Returns whether a terminal acts on the character of this code.
///
/// It acts on the control characters U+0000 to U+001F and U+007F to U+009F. It also acts on the bidirectional controls
/// U+061C, U+200E, U+200F, U+202A to U+202E and U+2066 to U+2069 (Unicode, UAX #9, 2).
pub fn is_acted_on(code: u32) -> bool
    ensures { result ≡ is_acted_on code }
{
    matches!(
        code,
        0..=0x1f
            | 0x7f..=0x9f
            | 0x61c
            | 0x200e..=0x200f
            | 0x202a..=0x202e
            | 0x2066..=0x2069
    )
}

/// Returns whether each byte is a character of ASCII that stands for itself between quotes: none that a terminal acts
/// on, no quote and no backslash.
#[inline(always)]
pub fn are_unescaped(bytes: &[u8]) -> bool
    ensures { IsTrue result ↔ AreUnescaped bytes.now }
{
    // The loop tests each byte, also after one that has an escape, so that it has no other branch.
    let mut are_unescaped = true;
    'bytes: for byte in bytes {
        are_unescaped = are_unescaped & is_unescaped(*byte);
    }
    are_unescaped
}

/// Returns whether the byte is such a character.
#[inline(always)]
fn is_unescaped(byte: u8) -> bool
    ensures { IsTrue result ↔ IsUnescaped byte }
{
    UNESCAPED[usize::from(byte)] != 0
}

/// Writes a character as a text for a terminal has it: by its escape if a terminal acts on it, and otherwise itself.
///
/// The escape is that of JSON (RFC 8259, 7): `\u` and four digits in lower case.
///
/// # Errors
///
/// - The formatter failed.
pub fn write_shown<W: fmt::Write>(f: &mut fmt::Formatter<W>, character: char) -> fmt::Result
    ensures { WritesOnOk W.Write.write_str_gives f.old result (terminal_text character) f.new }
{
    let code = u32::from(character);
    if is_acted_on(code) {
        write!(f, "\\u{:02x}{:02x}", code / 256, code % 256)
    } else {
        write!(f, "{character}")
    }
}

/// Writes the characters of a text as [`write_shown`] does, one after the other.
///
/// # Errors
///
/// - The formatter failed.
pub fn write_text<W: fmt::Write>(f: &mut fmt::Formatter<W>, text: &str) -> fmt::Result
    ensures { WritesOnOk W.Write.write_str_gives f.old result (terminal_texts (chars text.now)) f.new }
{
    'characters: for character in text.chars() {
        write_shown(f, character)?;
    }
    Ok(())
}
