//! Shows numbers, floats and simple values.

ghost use Rattle.std.specs.Prelude.{◌≡◌, ◌<◌, ◌≤◌, ◌++◌, [], negsuc, decimal, if◌then◌else◌};
ghost use Rattle.std.specs.Fmt.{signed_decimal};
ghost use Rattle.ciborium_ll.specs.Encoding.{WritesBytes};
ghost use Rattle.cbor_diag.specs.declared.scalars.TheConstants.{EXPONENTS, FRACTION_BITS};
ghost use Rattle.cbor_diag.specs.Floats.{IsFloatText, IsShownFloat, bits_text, digits_text, has_payload, holds, is_held};
ghost use Rattle.cbor_diag.specs.Notation.{name_text, simple_notation};
ghost use Rattle.cbor_diag.specs.Marks.{mark_text};
ghost use Rattle.cbor_floats.specs.Floats.{IsNumberText, with_point};
ghost use Rattle.cbor_diag.specs.Writing.{ShowsMarked, ShowsOne};

use crate::marks::{Mark, put_marked};
use crate::put::{put, put_three, put_two};
use crate::strings::put_hex;
use cbor_floats::{float_value, number_name, point_due};
use ciborium_ll::io::Write;
use ciborium_ll::{Float, simple};
use itoa::Buffer;
use std::num::f64_to_bits_with_nan;

/// How many bits the fraction of a double has (IEEE 754, binary64).
const FRACTION_BITS: u64 = 52;

/// How many values the field of a double's exponent has (IEEE 754, binary64).
const EXPONENTS: u64 = 0x800;

/// Shows an integer that is not negative, and the mark of its title.
pub(crate) fn show_positive<W: Write>(
    writer: &mut W,
    number: u64,
    mark: Mark,
) -> Result<(), W::Error>
    ensures { WritesBytes W.Write writer.old result (decimal number ++ mark_text mark) writer.new }
{
    put_marked(writer, Buffer::new().format(number).as_bytes(), mark)
}

/// Shows the integer -1 - `number`, and the mark of its title.
pub(crate) fn show_negative<W: Write>(
    writer: &mut W,
    number: u64,
    mark: Mark,
) -> Result<(), W::Error>
    ensures { WritesBytes W.Write writer.old result (signed_decimal (negsuc number) ++ mark_text mark) writer.new }
{
    put_marked(
        writer,
        Buffer::new().format(-1 - i128::from(number)).as_bytes(),
        mark,
    )
}

/// Shows a simple value by its name, if it has one and its title has no mark.
pub(crate) fn show_simple<W: Write>(writer: &mut W, number: u8, mark: Mark) -> Result<(), W::Error>
    ensures { WritesBytes W.Write writer.old result (simple_notation number mark) writer.new }
{
    if !mark.is_marked() {
        return show_name(writer, number);
    }
    put_three(
        writer,
        b"simple(",
        Buffer::new().format(number).as_bytes(),
        mark.text(),
    )?;
    put(writer, b")")
}

/// Shows a simple value, by its name if it has one.
fn show_name<W: Write>(writer: &mut W, number: u8) -> Result<(), W::Error>
    ensures { WritesBytes W.Write writer.old result (name_text number) writer.new }
{
    match number {
        simple::FALSE => put(writer, b"false"),
        simple::TRUE => put(writer, b"true"),
        simple::NULL => put(writer, b"null"),
        simple::UNDEFINED => put(writer, b"undefined"),
        _ => put_three(
            writer,
            b"simple(",
            Buffer::new().format(number).as_bytes(),
            b")",
        ),
    }
}

/// A width of floats: how many bits its fraction has, and its least and greatest exponent, as a double has them.
#[derive(Clone, Copy)]
struct Width {
    digits: u64,
    least: u64,
    most: u64,
}

// Halves have exponents from -14 to 15, and singles from -126 to 127.
const HALF: Width = Width {
    digits: 10,
    least: 1009,
    most: 1038,
};

const SINGLE: Width = Width {
    digits: 23,
    least: 897,
    most: 1150,
};

/// Shows a float. If `is_exact` is true, a NaN that its name does not give back is shown by its bits.
pub(crate) fn show_float<W: Write>(
    writer: &mut W,
    float: Float,
    is_exact: bool,
) -> Result<(), W::Error>
    ensures { ShowsOne W.Write (IsShownFloat is_exact float) writer.old result writer.new }
{
    if is_exact && has_payload(float) {
        show_bits(writer, float)
    } else {
        show_value(writer, float)
    }
}

/// Returns whether the float is a NaN with a sign, or with other bits than the quiet one.
fn has_payload(float: Float) -> bool
    ensures { result ≡ has_payload float }
{
    match float {
        Float::Half(bits) => bits % 0x8000 > 0x7c00 && bits != 0x7e00,
        Float::Single(bits) => bits % 0x8000_0000 > 0x7f80_0000 && bits != 0x7fc0_0000,
        Float::Double(bits) => {
            bits % 0x8000_0000_0000_0000 > 0x7ff0_0000_0000_0000 && bits != 0x7ff8_0000_0000_0000
        }
    }
}

/// Shows the bits of a float in base 16.
fn show_bits<W: Write>(writer: &mut W, float: Float) -> Result<(), W::Error>
    ensures { ShowsOne W.Write (λ text. text ≡ bits_text float) writer.old result writer.new }
{
    match float {
        Float::Half(bits) => put_bits(writer, &bits.to_be_bytes()),
        Float::Single(bits) => put_bits(writer, &bits.to_be_bytes()),
        Float::Double(bits) => put_bits(writer, &bits.to_be_bytes()),
    }
}

/// Shows these bytes as the bits of a float.
fn put_bits<W: Write>(writer: &mut W, bytes: &[u8]) -> Result<(), W::Error>
    ensures { WritesBytes W.Write writer.old result (digits_text bytes.now) writer.new }
{
    put(writer, b"float'")?;
    put_hex(writer, bytes)?;
    put(writer, b"'")
}

/// Shows a float, and the mark of its width if a shorter width holds the same value (RFC 8949, 8.1).
#[tactic(auto, using(crate::proofs::FloatLaws::float_shown))]
fn show_value<W: Write>(writer: &mut W, float: Float) -> Result<(), W::Error>
    ensures { ShowsOne W.Write (IsFloatText float) writer.old result writer.new }
{
    let value = float_value(float);
    match float {
        Float::Half(_) => show_number(writer, value, b""),
        Float::Single(_) => {
            let mark = mark(f64_to_bits_with_nan(value), HALF, b"_2");
            show_number(writer, value, mark)
        }
        Float::Double(bits) => {
            let mark = mark(bits, SINGLE, b"_3");
            show_number(writer, value, mark)
        }
    }
}

/// Returns the mark if the width holds the double too, and otherwise nothing.
fn mark<'a>(double: u64, width: Width, mark: &'a [u8]) -> &'a [u8]
    requires narrow { width.digits ≤ FRACTION_BITS }
    ensures { result.now ≡ (if holds width double then mark.now else []) }
{
    if holds(double, width) { mark } else { b"" }
}

/// Returns whether a float of the width has the value of the double.
fn holds(double: u64, width: Width) -> bool
    requires narrow { width.digits ≤ FRACTION_BITS }
    ensures { result ≡ holds width double }
{
    is_held(
        width,
        double / 0x10_0000_0000_0000 % EXPONENTS,
        double % 0x10_0000_0000_0000,
    )
}

/// Returns whether a float of the width has the value of the double with this exponent and fraction.
fn is_held(width: Width, exponent: u64, fraction: u64) -> bool
    requires narrow { width.digits ≤ FRACTION_BITS }
    requires exponent { exponent < EXPONENTS }
    ensures { result ≡ is_held width exponent fraction }
{
    if exponent == 0x7ff {
        return true;
    }
    if exponent == 0 {
        return fraction == 0;
    }
    if exponent > width.most || exponent + width.digits < width.least {
        return false;
    }
    // Below its least exponent a width has one bit less for each step.
    let lost = (FRACTION_BITS - width.digits) + width.least.saturating_sub(exponent);
    fraction % 2u64.pow(lost as u32) == 0
}

/// Shows a value by its shortest digits, and then a mark.
pub fn show_number<W: Write>(writer: &mut W, value: f64, mark: &[u8]) -> Result<(), W::Error>
    ensures { ShowsMarked W.Write (IsNumberText value) mark.now writer.old result writer.new }
{
    if let Some(name) = number_name(value) {
        return put_two(writer, name.as_bytes(), mark);
    }
    show_digits(
        writer,
        ryu::Buffer::new().format_finite_with_plus(value).as_bytes(),
    )?;
    put(writer, mark)
}

/// Shows digits as the standard spells them, with a point before the exponent.
fn show_digits<W: Write>(writer: &mut W, digits: &[u8]) -> Result<(), W::Error>
    ensures { WritesBytes W.Write writer.old result (with_point digits.now) writer.new }
{
    match point_due(digits) {
        Some(at) => put_three(writer, &digits[..at], b".0", &digits[at..]),
        None => put(writer, digits),
    }
}
