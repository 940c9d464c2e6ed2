//! The float of a double's value, in the shortest width that holds it or in a width with a mark.

ghost use Rattle.std.specs.Prelude.{◌<◌, ◌≤◌, ◌^◌};
ghost use Rattle.cbor_encode.specs.declared.floats.TheConstants.{DOUBLE_BIAS, EXPONENTS, FRACTION_BITS};

use crate::heads::{Form, Mark};
use ciborium_ll_grammar::hdr::Float;

/// How many bits the fraction of a double has (IEEE 754, binary64).
const FRACTION_BITS: u32 = 52;

/// How many values the field of a double's exponent has (IEEE 754, binary64).
const EXPONENTS: u32 = 0x800;

/// The bias of a double's exponent (IEEE 754, binary64).
const DOUBLE_BIAS: u32 = 1023;

/// Returns the float with the value of a double, by the bits of the double. `None` means that the mark's width does not
/// hold the value, or that floats have no such mark.
pub(crate) fn float_of(double: u64, form: Form) -> Option<Float> {
    match form {
        Form::Shortest => Some(shortest_float(double)),
        Form::Marked(Mark::Two) => half(double),
        Form::Marked(Mark::Four) => single(double),
        Form::Marked(Mark::Eight) => Some(Float::Double(double)),
        Form::Marked(Mark::Within | Mark::One) | Form::Open => None,
    }
}

/// Returns the float in the shortest width that holds the value of a double.
fn shortest_float(double: u64) -> Float {
    if let Some(float) = half(double) {
        return float;
    }
    if let Some(float) = single(double) {
        return float;
    }
    Float::Double(double)
}

/// Returns the float of 16 bits with the value of a double, if there is one.
fn half(double: u64) -> Option<Float> {
    match narrowed(double, 10, 15) {
        Some(bits) => Some(Float::Half((bits % 0x1_0000) as u16)),
        None => None,
    }
}

/// Returns the float of 32 bits with the value of a double, if there is one.
fn single(double: u64) -> Option<Float> {
    match narrowed(double, 23, 127) {
        Some(bits) => Some(Float::Single((bits % 0x1_0000_0000) as u32)),
        None => None,
    }
}

/// Returns the bits of the float with the value of a double, in a width with this many bits of fraction and this bias.
///
/// `None` means that the width does not hold the value.
fn narrowed(double: u64, digits: u32, bias: u32) -> Option<u64>
    requires digits { digits ≤ FRACTION_BITS }
    requires bias { bias ≤ DOUBLE_BIAS }
{
    let exponent = (double / 0x10_0000_0000_0000 % 0x800) as u32;
    let fraction = double % 0x10_0000_0000_0000;
    let size = narrowed_size(exponent, fraction, digits, bias)?;
    // The sign precedes the exponent, whose greatest value is twice the bias and one more.
    let top = u64::from(2 * bias + 2);
    Some((double / 0x8000_0000_0000_0000 * top) << digits | size)
}

/// Returns those bits without the sign.
fn narrowed_size(exponent: u32, fraction: u64, digits: u32, bias: u32) -> Option<u64>
    requires digits { digits ≤ FRACTION_BITS }
    requires bias { bias ≤ DOUBLE_BIAS }
    requires exponent { exponent < EXPONENTS }
    requires fraction { fraction < 2 ^ FRACTION_BITS }
{
    let lost = FRACTION_BITS - digits;
    if exponent == 0x7ff {
        // An infinity or a NaN.
        return Some(u64::from(2 * bias + 1) << digits | cut(fraction, lost)?);
    }
    if exponent == 0 {
        return if fraction == 0 { Some(0) } else { None };
    }
    if exponent > DOUBLE_BIAS + bias {
        return None;
    }
    if exponent + bias > DOUBLE_BIAS {
        return Some(u64::from(exponent + bias - DOUBLE_BIAS) << digits | cut(fraction, lost)?);
    }
    // Below its least exponent a width has one bit less for each step.
    let more = DOUBLE_BIAS + 1 - (exponent + bias);
    if more > digits {
        return None;
    }
    cut(fraction + 0x10_0000_0000_0000, lost + more)
}

/// Returns the number without its last bits, if they are zeros.
fn cut(number: u64, bits: u32) -> Option<u64>
    requires { bits < 64 }
{
    let short = number >> bits;
    if short << bits == number {
        Some(short)
    } else {
        None
    }
}
