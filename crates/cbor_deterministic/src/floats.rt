//! Floats that fit a smaller width, by their value, or NaNs by their sign and payload.

ghost use Rattle.std.specs.Prelude.{◌↔◌, IsTrue};
ghost use Rattle.cbor_deterministic.specs.Floats.{half, single, double, parts, HasNarrower};
ghost use Rattle.cbor_deterministic.specs.Preferred.{IsWideFloat};

use ciborium_ll_grammar::hdr::Float;

/// Returns whether a smaller width holds the float.
pub(crate) fn is_wide_float(float: Float) -> bool
    ensures { IsTrue result ↔ IsWideFloat float }
{
    match float {
        Float::Half(_) => false,
        Float::Single(bits) => is_half(bits),
        Float::Double(bits) => is_single(bits),
    }
}

/// Returns whether 16 bits hold a float of 32 bits.
pub fn is_half(bits: u32) -> bool
    ensures { IsTrue result ↔ HasNarrower half single (parts single bits) }
{
    let exponent = bits / 0x80_0000 % 0x100;
    let mantissa = bits % 0x80_0000;
    if exponent == 0 {
        return mantissa == 0;
    }
    if exponent == 255 {
        return mantissa % 0x2000 == 0;
    }
    if exponent < 103 || exponent > 142 {
        return false;
    }
    if exponent > 112 {
        return mantissa % 0x2000 == 0;
    }
    // The float of 16 bits is subnormal, and has fewer bits of the mantissa.
    mantissa % (1 << (126 - exponent)) == 0
}

/// Returns whether 32 bits hold a float of 64 bits.
pub fn is_single(bits: u64) -> bool
    ensures { IsTrue result ↔ HasNarrower single double (parts double bits) }
{
    let exponent = bits / 0x10_0000_0000_0000 % 0x800;
    let mantissa = bits % 0x10_0000_0000_0000;
    if exponent == 0 {
        return mantissa == 0;
    }
    if exponent == 2047 {
        return mantissa % 0x2000_0000 == 0;
    }
    if exponent < 874 || exponent > 1150 {
        return false;
    }
    if exponent > 896 {
        return mantissa % 0x2000_0000 == 0;
    }
    // The float of 32 bits is subnormal, and has fewer bits of the mantissa.
    mantissa % (1 << (926 - exponent)) == 0
}
