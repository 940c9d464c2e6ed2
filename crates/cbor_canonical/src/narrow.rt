//! Floats in the smallest width that has them (RFC 8949, 4.1).

ghost use Rattle.std.specs.Prelude.{◌≤◌, MatchOption, length};
ghost use Rattle.ciborium_ll_grammar.specs.Title.{float_title};
ghost use Rattle.ciborium_ll_grammar.specs.declared.hdr.Float.TheVariants.{Single};
ghost use Rattle.cbor_deterministic.specs.Floats.{half, single, double, parts, IsWidened, HasNarrower};
ghost use Rattle.cbor_canonical.specs.Narrowing.{IsNarrowestOf};

use cbor_deterministic::floats::{is_half, is_single};
use ciborium_ll_grammar::hdr::Float;

/// Returns the float in the smallest width that holds it: by its value, or a NaN by its sign and payload.
pub fn narrowest(float: Float) -> Float
    ensures narrow { IsNarrowestOf float result }
    ensures no_longer { length (float_title result) ≤ length (float_title float) }
{
    match float {
        Float::Half(_) => float,
        Float::Single(bits) => narrow_single(bits),
        Float::Double(bits) => match as_single(bits) {
            Some(narrow) => narrow_single(narrow),
            None => float,
        },
    }
}

/// Returns the float of 32 bits with these bits in the smallest width that holds it.
fn narrow_single(bits: u32) -> Float
    ensures narrow { IsNarrowestOf (Single bits) result }
    ensures no_longer { length (float_title result) ≤ length (float_title (Single bits)) }
{
    match as_half(bits) {
        Some(narrow) => Float::Half(narrow),
        None => Float::Single(bits),
    }
}

/// Returns the bits of the float of 16 bits that is the same as this float of 32 bits, if there is one.
fn as_half(bits: u32) -> Option<u16>
    ensures { MatchOption result (HasNarrower half single (parts single bits) → ⊥)
        (λ narrow. IsWidened half single (parts half narrow) (parts single bits)) }
{
    if !is_half(bits) {
        return None;
    }
    let sign = bits / 0x8000_0000 * 0x8000;
    let exponent = bits / 0x80_0000 % 0x100;
    let mantissa = bits % 0x80_0000;
    if exponent == 0 {
        return Some(sign as u16);
    }
    if exponent == 255 {
        return Some((sign + 0x7c00 + mantissa / 0x2000) as u16);
    }
    if exponent > 112 {
        return Some((sign + (exponent - 112) * 0x400 + mantissa / 0x2000) as u16);
    }
    // The float of 16 bits is subnormal: the leading 1 stands in its mantissa.
    Some((sign + (1 << (exponent - 103)) + mantissa / (1 << (126 - exponent))) as u16)
}

/// Returns the bits of the float of 32 bits that is the same as this float of 64 bits, if there is one.
fn as_single(bits: u64) -> Option<u32>
    ensures { MatchOption result (HasNarrower single double (parts double bits) → ⊥)
        (λ narrow. IsWidened single double (parts single narrow) (parts double bits)) }
{
    if !is_single(bits) {
        return None;
    }
    let sign = bits / 0x8000_0000_0000_0000 * 0x8000_0000;
    let exponent = bits / 0x10_0000_0000_0000 % 0x800;
    let mantissa = bits % 0x10_0000_0000_0000;
    if exponent == 0 {
        return Some(sign as u32);
    }
    if exponent == 2047 {
        return Some((sign + 0x7f80_0000 + mantissa / 0x2000_0000) as u32);
    }
    if exponent > 896 {
        return Some((sign + (exponent - 896) * 0x80_0000 + mantissa / 0x2000_0000) as u32);
    }
    // The float of 32 bits is subnormal: the leading 1 stands in its mantissa.
    Some((sign + (1 << (exponent - 874)) + mantissa / (1 << (926 - exponent))) as u32)
}
