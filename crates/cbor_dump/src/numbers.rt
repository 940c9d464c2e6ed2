//! The text of a float's value.

ghost use Rattle.std.specs.Fmt.{WritesOnOk};
ghost use Rattle.std.specs.Str.{IsAscii};
ghost use Rattle.cbor_floats.specs.Floats.{IsNumberText, with_point};
ghost use Rattle.cbor_dump.specs.RowTexts.{WritesOneOnOk};

use cbor_floats::{number_name, point_due};
use std::fmt;

/// Writes a value by its digits, or by its name if it has none (RFC 8949, section 8).
pub(crate) fn number<W: fmt::Write>(f: &mut fmt::Formatter<W>, value: f64) -> fmt::Result
    ensures { WritesOneOnOk W.Write.write_str_gives f.old result (IsNumberText value) f.new }
{
    match number_name(value) {
        Some(name) => f.write_str(name),
        None => spelled(f, ryu::Buffer::new().format_finite_with_plus(value)),
    }
}

/// Writes digits as the standard spells them, with a point before the exponent.
fn spelled<W: fmt::Write>(f: &mut fmt::Formatter<W>, digits: &str) -> fmt::Result
    requires ascii { IsAscii digits.now }
    ensures { WritesOnOk W.Write.write_str_gives f.old result (with_point digits.now) f.new }
{
    match point_due(digits.as_bytes()) {
        Some(at) => {
            f.write_str(&digits[..at])?;
            f.write_str(".0")?;
            f.write_str(&digits[at..])
        }
        None => f.write_str(digits),
    }
}
