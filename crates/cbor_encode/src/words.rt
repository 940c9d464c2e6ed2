//! Simple values and floats that have names.

ghost use Rattle.std.specs.Prelude.{◌<◌, ◌≤◌, IfErr, IfOk, IfSome, OnOk};
ghost use Rattle.cbor_encode.specs.Left.{IsWithin, left_of};
ghost use Rattle.cbor_encode.specs.Scalars.{IsScalar};

use crate::Expected;
use crate::cursor::{Cursor, Stop};
use crate::heads::{Form, take_form};
use crate::numbers::{Number, read_digits, read_float};
use ciborium_ll_grammar::hdr::{Float, Header};

/// Reads a named value.
pub(crate) fn read_word(cursor: &mut Cursor<'_>) -> Result<Number, Stop>
    ensures scalar { IfOk result (λ number. IsScalar number.header number.mark) }
    ensures shorter { OnOk result (left_of cursor.new < left_of cursor.old) }
    ensures within { left_of cursor.new ≤ left_of cursor.old }
    ensures place { IfErr result (IsWithin (left_of cursor.old)) }
{
    let left = cursor.left();
    if cursor.take_word(b"NaN") {
        return read_float(cursor, 0x7ff8_0000_0000_0000, left);
    }
    if cursor.take_word(b"Infinity") {
        return read_float(cursor, 0x7ff0_0000_0000_0000, left);
    }
    if cursor.take_word(b"float'") {
        return read_bits(cursor);
    }
    read_simple(cursor)
}

/// Reads the digits of a float's bits in base 16, and the quote after them.
fn read_bits(cursor: &mut Cursor<'_>) -> Result<Number, Stop>
    ensures scalar { IfOk result (λ number. IsScalar number.header number.mark) }
    ensures within { left_of cursor.new ≤ left_of cursor.old }
    ensures place { IfErr result (IsWithin (left_of cursor.old)) }
{
    let stop = cursor.fault(Expected::Bits);
    let bits = read_digits(cursor, 16)?;
    let Some(float) = float_with(bits, stop.left - cursor.left()) else {
        return Err(stop);
    };
    cursor.expect(b'\'', Expected::Bits)?;
    Ok(Number {
        header: Header::Float(float),
        mark: None,
    })
}

/// Returns the float with these bits, which have this many digits in base 16, if there is one.
fn float_with(bits: u128, digits: usize) -> Option<Float> {
    let Ok(bits) = u64::try_from(bits) else {
        return None;
    };
    match digits {
        4 => Some(Float::Half((bits % 0x1_0000) as u16)),
        8 => Some(Float::Single((bits % 0x1_0000_0000) as u32)),
        16 => Some(Float::Double(bits)),
        _ => None,
    }
}

/// Reads a simple value.
fn read_simple(cursor: &mut Cursor<'_>) -> Result<Number, Stop>
    ensures scalar { IfOk result (λ number. IsScalar number.header number.mark) }
    ensures shorter { OnOk result (left_of cursor.new < left_of cursor.old) }
    ensures within { left_of cursor.new ≤ left_of cursor.old }
    ensures place { IfErr result (IsWithin (left_of cursor.old)) }
{
    if cursor.take_word(b"false") {
        return Ok(named(20));
    }
    if cursor.take_word(b"true") {
        return Ok(named(21));
    }
    if cursor.take_word(b"null") {
        return Ok(named(22));
    }
    if cursor.take_word(b"undefined") {
        return Ok(named(23));
    }
    if cursor.take_word(b"simple(") {
        return read_simple_number(cursor);
    }
    Err(cursor.fault(Expected::Item))
}

/// Returns a simple value that has a name.
fn named(number: u8) -> Number
    requires { number < 24 }
    ensures { IsScalar result.header result.mark }
{
    Number {
        header: Header::Simple(number),
        mark: None,
    }
}

/// Reads the number of a simple value, its mark and the closing parenthesis.
fn read_simple_number(cursor: &mut Cursor<'_>) -> Result<Number, Stop>
    ensures scalar { IfOk result (λ number. IsScalar number.header number.mark) }
    ensures within { left_of cursor.new ≤ left_of cursor.old }
    ensures place { IfErr result (IsWithin (left_of cursor.old)) }
{
    let stop = cursor.fault(Expected::Simple);
    let number = read_digits(cursor, 10)?;
    let form = take_form(cursor);
    cursor.expect(b')', Expected::Parenthesis)?;
    match simple_of(number, form) {
        Some(value) => Ok(value),
        None => Err(stop),
    }
}

/// Returns the simple value with this number in this form, if there is one (RFC 8949, 3.3). A number from 24 to 31 has
/// no meaning, and takes a mark.
fn simple_of(number: u128, form: Form) -> Option<Number>
    ensures { IfSome result (λ value. IsScalar value.header value.mark) }
{
    let Ok(number) = u8::try_from(number) else {
        return None;
    };
    let mark = form.mark();
    if form.is_open() || (number >= 24 && number < 32 && mark.is_none()) {
        return None;
    }
    Some(Number {
        header: Header::Simple(number),
        mark,
    })
}
