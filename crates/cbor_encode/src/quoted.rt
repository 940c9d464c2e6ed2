//! The contents between the quotes of a string.

ghost use Rattle.std.specs.Prelude.{◌<◌, ◌≤◌, ◌^◌, IfErr, IfOk, IfSome};
ghost use Rattle.cbor_encode.specs.Left.{IsWithin, left_of};

use crate::Expected;
use crate::cursor::{Cursor, Stop};
use crate::heads::put;
use std::alloc::Global;

/// Reads a text with escapes up to this quote, and the quote.
pub(crate) fn read_quoted(
    cursor: &mut Cursor<'_>,
    quote: u8,
    alloc: Global,
) -> Result<Vec<u8>, Stop>
    ensures within { left_of cursor.new ≤ left_of cursor.old }
    ensures place { IfErr result (IsWithin (left_of cursor.old)) }
{
    let mut body = Vec::new(alloc);
    let mut left = cursor.left();
    'bytes: while let Some(byte) = cursor.next() {
        if byte == quote {
            return Ok(body);
        }
        if byte < b' ' {
            return Err(Stop {
                expected: Expected::Escape,
                left,
            });
        }
        if byte == b'\\' {
            read_escape(cursor, &mut body, quote, left)?;
        } else {
            put(&mut body, &[byte], left)?;
        }
        left = cursor.left();
    }
    Err(cursor.fault(Expected::Quote))
}

/// Reads what follows a backslash. From the backslash on, `left` bytes are left.
fn read_escape(
    cursor: &mut Cursor<'_>,
    body: &mut Vec<u8>,
    quote: u8,
    left: usize,
) -> Result<(), Stop>
    ensures within { left_of cursor.new ≤ left_of cursor.old }
    ensures place { IfErr result (IsWithin left) }
{
    let stop = Stop {
        expected: Expected::Escape,
        left,
    };
    let byte = match cursor.next() {
        Some(b'b') => 8,
        Some(b't') => b'\t',
        Some(b'n') => b'\n',
        Some(b'f') => 12,
        Some(b'r') => b'\r',
        Some(byte) if byte == b'\\' || byte == b'/' || byte == b'"' => byte,
        Some(b'\'') if quote == b'\'' => b'\'',
        Some(b'u') => {
            let Some(code) = read_code(cursor) else {
                return Err(stop);
            };
            return put_character(body, code, left);
        }
        _ => return Err(stop),
    };
    put(body, &[byte], left)
}

/// Reads the digits of a character after `\u`. Two surrogates give one character (RFC 8259, 7).
fn read_code(cursor: &mut Cursor<'_>) -> Option<u32>
    ensures within { left_of cursor.new ≤ left_of cursor.old }
    ensures code { IfSome result (λ code. code < 2 ^ 21) }
{
    let code = read_unit(cursor)?;
    if code < 0xd800 || code >= 0xe000 {
        return Some(code);
    }
    if code >= 0xdc00 || !cursor.take_word(b"\\u") {
        return None;
    }
    let low = read_unit(cursor)?;
    if low < 0xdc00 || low >= 0xe000 {
        return None;
    }
    Some(0x1_0000 + (code - 0xd800) * 0x400 + (low - 0xdc00))
}

/// Reads four hexadecimal digits.
fn read_unit(cursor: &mut Cursor<'_>) -> Option<u32>
    ensures within { left_of cursor.new ≤ left_of cursor.old }
    ensures unit { IfSome result (λ unit. unit < 2 ^ 16) }
{
    let first = u32::from(cursor.digit(16)?);
    let second = u32::from(cursor.digit(16)?);
    let third = u32::from(cursor.digit(16)?);
    let fourth = u32::from(cursor.digit(16)?);
    Some(first * 0x1000 + second * 0x100 + third * 0x10 + fourth)
}

/// Adds a character in UTF-8 (RFC 3629, 3).
fn put_character(body: &mut Vec<u8>, code: u32, left: usize) -> Result<(), Stop>
    requires { code < 2 ^ 21 }
    ensures place { IfErr result (IsWithin left) }
{
    let last = (0x80 + code % 0x40) as u8;
    let third = (0x80 + code / 0x40 % 0x40) as u8;
    let second = (0x80 + code / 0x1000 % 0x40) as u8;
    if code < 0x80 {
        put(body, &[code as u8], left)
    } else if code < 0x800 {
        put(body, &[(0xc0 + code / 0x40) as u8, last], left)
    } else if code < 0x1_0000 {
        put(body, &[(0xe0 + code / 0x1000) as u8, third, last], left)
    } else {
        put(
            body,
            &[(0xf0 + code / 0x4_0000) as u8, second, third, last],
            left,
        )
    }
}

/// Reads bytes of two hexadecimal digits up to a quote, and the quote. White space and comments may stand between the
/// digits.
pub(crate) fn read_hex(cursor: &mut Cursor<'_>, alloc: Global) -> Result<Vec<u8>, Stop>
    ensures within { left_of cursor.new ≤ left_of cursor.old }
    ensures place { IfErr result (IsWithin (left_of cursor.old)) }
{
    let mut body = Vec::new(alloc);
    cursor.skip_space()?;
    'bytes: while let Some(high) = cursor.digit(16) {
        cursor.skip_space()?;
        let Some(low) = cursor.digit(16) else {
            return Err(cursor.fault(Expected::HexDigits));
        };
        put(&mut body, &[high * 16 + low], cursor.left())?;
        cursor.skip_space()?;
    }
    cursor.expect(b'\'', Expected::HexDigits)?;
    Ok(body)
}

/// Returns the value of a digit of base 64 (RFC 4648, 4 and 5). If `is_url` is true, only the alphabet for URLs counts.
fn sextet(byte: u8, is_url: bool) -> Option<u8>
    ensures { IfSome result (λ value. value < 64) }
{
    match byte {
        b'A'..=b'Z' => Some(byte - b'A'),
        b'a'..=b'z' => Some(byte - b'a' + 26),
        b'0'..=b'9' => Some(byte - b'0' + 52),
        b'+' if !is_url => Some(62),
        b'/' if !is_url => Some(63),
        b'-' => Some(62),
        b'_' => Some(63),
        _ => None,
    }
}

/// Reads bytes in base 64 up to a quote, and the quote (RFC 4648, 4 and 5). The padding may be left out.
pub(crate) fn read_base64(
    cursor: &mut Cursor<'_>,
    is_url: bool,
    alloc: Global,
) -> Result<Vec<u8>, Stop>
    ensures within { left_of cursor.new ≤ left_of cursor.old }
    ensures place { IfErr result (IsWithin (left_of cursor.old)) }
{
    let mut body = Vec::new(alloc);
    // How many bits of the digits so far are in no byte yet, in pairs, and these bits.
    let mut pairs = 0u8;
    let mut kept = 0u8;
    skip_blanks(cursor);
    'digits: while let Some(byte) = cursor.peek() {
        let Some(value) = sextet(byte, is_url) else {
            break;
        };
        if cursor.next().is_none() {
            break;
        }
        let left = cursor.left();
        match pairs {
            0 => pairs = 3,
            1 => {
                put(&mut body, &[kept % 4 * 64 + value], left)?;
                pairs = 0;
            }
            2 => {
                put(&mut body, &[kept % 16 * 16 + value / 4], left)?;
                pairs = 1;
            }
            _ => {
                put(&mut body, &[kept % 64 * 4 + value / 16], left)?;
                pairs = 2;
            }
        }
        kept = value;
        skip_blanks(cursor);
    }
    end_base64(cursor, pairs, kept)?;
    Ok(body)
}

/// Reads the padding, if it stands here, and the quote. The bits in no byte are `pairs` pairs at the end of `kept`, and
/// have to be zeros.
fn end_base64(cursor: &mut Cursor<'_>, pairs: u8, kept: u8) -> Result<(), Stop>
    ensures within { left_of cursor.new ≤ left_of cursor.old }
    ensures place { IfErr result (IsWithin (left_of cursor.old)) }
{
    let is_whole = match pairs {
        0 => true,
        1 => kept % 4 == 0,
        2 => kept % 16 == 0,
        _ => false,
    };
    if !is_whole {
        return Err(cursor.fault(Expected::Base64));
    }
    if pairs > 0 && cursor.take(b'=') {
        skip_blanks(cursor);
        if pairs == 2 {
            cursor.expect(b'=', Expected::Base64)?;
            skip_blanks(cursor);
        }
    }
    cursor.expect(b'\'', Expected::Base64)
}

/// Moves after white space.
fn skip_blanks(cursor: &mut Cursor<'_>)
    ensures within { left_of cursor.new ≤ left_of cursor.old }
{
    'blanks: while cursor.take(b' ')
        || cursor.take(b'\t')
        || cursor.take(b'\r')
        || cursor.take(b'\n')
    {}
}
