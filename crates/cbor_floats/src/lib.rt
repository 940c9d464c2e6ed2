// SPDX-License-Identifier: Apache-2.0
//! The values of floats (RFC 7049, 2.3), and their digits (RFC 8949, section 8). No call takes memory.
#![tactic(auto)]

ghost use Rattle.std.specs.Prelude.{◌≡◌, ◌<◌, ◌≤◌, ◌++◌, codes, drop, length, take, IfSome, IsTrue, MatchOption};
ghost use Rattle.std.specs.Float.{float_is_finite};
ghost use Rattle.cbor_floats.specs.Floats.{IsNumberText, float_value, half_size, half_value, power_of_two, with_point};

use ciborium_ll_grammar::hdr::Float;
use std::num::{f32_from_bits_with_nan, f64_from_bits_with_nan};

/// Returns the value of a float as a double. No digit is lost.
pub fn float_value(float: Float) -> f64
    ensures { result ≡ float_value float }
{
    match float {
        Float::Half(bits) => half_value(bits),
        Float::Single(bits) => f64::from(f32_from_bits_with_nan(bits)),
        Float::Double(bits) => f64_from_bits_with_nan(bits),
    }
}

/// Returns the value of a half (RFC 8949, appendix D).
fn half_value(bits: u16) -> f64
    ensures { result ≡ half_value bits }
{
    let size = half_size(bits / 1024 % 32, bits % 1024);
    if bits < 0x8000 { size } else { -size }
}

/// Returns the value of a half without its sign.
fn half_size(exponent: u16, fraction: u16) -> f64
    requires exponent { exponent < 32 }
    requires fraction { fraction < 1024 }
    ensures { result ≡ half_size exponent fraction }
{
    if exponent == 31 {
        return if fraction == 0 {
            f64::INFINITY
        } else {
            f64::NAN
        };
    }
    if exponent == 0 {
        return f64::from(fraction) * power_of_two(1);
    }
    f64::from(fraction + 1024) * power_of_two(exponent)
}

/// Returns two to the power of the exponent less 25.
fn power_of_two(exponent: u16) -> f64
    requires { exponent < 32 }
    ensures { result ≡ power_of_two exponent }
{
    f64_from_bits_with_nan((u64::from(exponent) + 998) * 0x10_0000_0000_0000)
}

/// Returns the name of a value that has no digits: `NaN`, `Infinity` or `-Infinity` (RFC 8949, section 8).
pub fn number_name(value: f64) -> Option<&'static str>
    ensures { MatchOption result (IsTrue (float_is_finite value)) (λ name. IsNumberText value name.now) }
{
    if value.is_nan() {
        return Some("NaN");
    }
    if value.is_finite() {
        return None;
    }
    if value.is_sign_negative() {
        Some("-Infinity")
    } else {
        Some("Infinity")
    }
}

/// Returns the place at which digits lack a point and a zero: before their exponent, if no point precedes it.
///
/// The digits are those that the kit's `ryu` writes of a double, as `1e+20`. With `.0` at this place they are a number
/// in diagnostic notation (RFC 8949, section 8).
pub fn point_due(digits: &[u8]) -> Option<usize>
    ensures due { MatchOption result (with_point digits.now ≡ digits.now)
        (λ at. with_point digits.now ≡ take at digits.now ++ (codes ".0" ++ drop at digits.now)) }
    ensures within { IfSome result (λ at. at ≤ length digits.now) }
{
    let mut at = 0;
    'digits: while at < digits.len() && digits[at] != b'.' {
        if digits[at] == b'e' {
            return Some(at);
        }
        at += 1;
    }
    None
}
