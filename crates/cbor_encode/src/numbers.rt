//! Integers and floats.

ghost use Rattle.std.specs.Prelude.{◌<◌, ◌≤◌, IfErr, IfOk, IfSome, OnOk, Option};
ghost use Rattle.cbor_encode.specs.declared.heads.Mark.{Mark as AnyMark};
ghost use Rattle.cbor_encode.specs.Left.{IsWithin, left_of};
ghost use Rattle.cbor_encode.specs.Scalars.{IsScalar};

use crate::Expected;
use crate::cursor::{Cursor, Stop};
use crate::floats::float_of;
use crate::heads::{Form, Mark, take_form};
use ciborium_ll_grammar::hdr::Header;
use std::num::f64_to_bits_with_nan;

/// A number, and the mark of its title. A float's mark is in the header.
#[derive(Clone, Copy)]
pub(crate) struct Number {
    pub(crate) header: Header,
    pub(crate) mark: Option<Mark>,
}

/// Reads an integer or a float that begins with a digit or a minus.
pub(crate) fn read_number(cursor: &mut Cursor<'_>) -> Result<Number, Stop>
    ensures scalar { IfOk result (λ number. IsScalar number.header number.mark) }
    ensures shorter { OnOk result (left_of cursor.new < left_of cursor.old) }
    ensures within { left_of cursor.new ≤ left_of cursor.old }
    ensures place { IfErr result (IsWithin (left_of cursor.old)) }
{
    let start = cursor.rest;
    let is_negative = cursor.take(b'-');
    if is_negative && cursor.take_word(b"Infinity") {
        return read_float(cursor, 0xfff0_0000_0000_0000, start.len());
    }
    if let Some(base) = take_base(cursor) {
        let size = read_digits(cursor, base)?;
        return read_integer(cursor, is_negative, size, start.len());
    }
    let size = read_digits(cursor, 10)?;
    if !read_fraction(cursor)? {
        return read_integer(cursor, is_negative, size, start.len());
    }
    match double_of(&start[..start.len() - cursor.left()]) {
        Some(double) => read_float(cursor, double, start.len()),
        None => Err(Stop {
            expected: Expected::Float,
            left: start.len(),
        }),
    }
}

/// Moves after the prefix of a base, if one stands here, and returns the base.
fn take_base(cursor: &mut Cursor<'_>) -> Option<u8>
    ensures within { left_of cursor.new ≤ left_of cursor.old }
{
    if cursor.take_word(b"0x") {
        return Some(16);
    }
    if cursor.take_word(b"0o") {
        return Some(8);
    }
    if cursor.take_word(b"0b") {
        return Some(2);
    }
    None
}

/// Reads one digit or more of the base, and returns the number. A number that is too great stays too great.
pub(crate) fn read_digits(cursor: &mut Cursor<'_>, base: u8) -> Result<u128, Stop>
    ensures shorter { OnOk result (left_of cursor.new < left_of cursor.old) }
    ensures within { left_of cursor.new ≤ left_of cursor.old }
    ensures place { IfErr result (IsWithin (left_of cursor.old)) }
{
    let Some(first) = cursor.digit(base) else {
        return Err(cursor.fault(Expected::Digit));
    };
    let mut number = u128::from(first);
    'digits: while let Some(digit) = cursor.digit(base) {
        number = number
            .saturating_mul(u128::from(base))
            .saturating_add(u128::from(digit));
    }
    Ok(number)
}

/// Reads the digits after a point and the exponent, if they stand here. Returns whether they do.
fn read_fraction(cursor: &mut Cursor<'_>) -> Result<bool, Stop>
    ensures within { left_of cursor.new ≤ left_of cursor.old }
    ensures place { IfErr result (IsWithin (left_of cursor.old)) }
{
    let has_point = cursor.take(b'.');
    if has_point {
        let _ = read_digits(cursor, 10)?;
    }
    if !cursor.take(b'e') && !cursor.take(b'E') {
        return Ok(has_point);
    }
    if !cursor.take(b'+') {
        let _ = cursor.take(b'-');
    }
    let _ = read_digits(cursor, 10)?;
    Ok(true)
}

/// Returns the bits of the double that is nearest to this decimal number, if it is finite.
fn double_of(digits: &[u8]) -> Option<u64> {
    let Ok(text) = str::from_utf8(digits) else {
        return None;
    };
    let Ok(value) = text.parse::<f64>() else {
        return None;
    };
    if value.is_finite() {
        Some(f64_to_bits_with_nan(value))
    } else {
        None
    }
}

/// Returns the header of an integer of this size, if there is one.
fn integer_of(is_negative: bool, size: u128) -> Option<Header>
    ensures { IfSome result (λ header. (mark : Option AnyMark) → IsScalar header mark) }
{
    if !is_negative || size == 0 {
        return match u64::try_from(size) {
            Ok(number) => Some(Header::Positive(number)),
            Err(_) => None,
        };
    }
    match u64::try_from(size - 1) {
        Ok(number) => Some(Header::Negative(number)),
        Err(_) => None,
    }
}

/// Reads the mark of an integer of this size. From the integer on, `left` bytes are left.
fn read_integer(
    cursor: &mut Cursor<'_>,
    is_negative: bool,
    size: u128,
    left: usize,
) -> Result<Number, Stop>
    ensures scalar { IfOk result (λ number. IsScalar number.header number.mark) }
    ensures within { left_of cursor.new ≤ left_of cursor.old }
    ensures place { IfErr result (IsWithin left) }
{
    let Some(header) = integer_of(is_negative, size) else {
        return Err(Stop {
            expected: Expected::Integer,
            left,
        });
    };
    match take_form(cursor) {
        Form::Open => Err(Stop {
            expected: Expected::Mark,
            left,
        }),
        form => Ok(Number {
            header,
            mark: form.mark(),
        }),
    }
}

/// Reads the mark of a float, which has the value of the double with these bits. From it on, `left` bytes are left.
pub(crate) fn read_float(cursor: &mut Cursor<'_>, double: u64, left: usize) -> Result<Number, Stop>
    ensures scalar { IfOk result (λ number. IsScalar number.header number.mark) }
    ensures within { left_of cursor.new ≤ left_of cursor.old }
    ensures place { IfErr result (IsWithin left) }
{
    match float_of(double, take_form(cursor)) {
        Some(float) => Ok(Number {
            header: Header::Float(float),
            mark: None,
        }),
        None => Err(Stop {
            expected: Expected::Mark,
            left,
        }),
    }
}
