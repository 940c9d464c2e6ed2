//! Writes numbers, `false`, `true` and `null`.

ghost use Rattle.std.specs.Prelude.{◌≡◌, true, decimal, negsuc};
ghost use Rattle.std.specs.Fmt.{signed_decimal};
ghost use Rattle.ciborium_ll.specs.Encoding.{WritesBytes};
ghost use Rattle.cbor_diag.specs.Writing.{ShowsOne};
ghost use Rattle.cbor_json.specs.Scalars.{IsFloatJson, IsScalarJson, IsScalarText, simple_json};
ghost use Rattle.cbor_json.specs.Roles.{IsInteger, IsScalar};

use cbor_diag::put::put;
use cbor_diag::scalars::show_number;
use cbor_floats::float_value;
use ciborium_ll::io::Write;
use ciborium_ll::{Float, Header, simple};
use itoa::Buffer;

/// Writes an integer, a float or a simple value. A key stands between quotes.
pub(crate) fn write_scalar<W: Write>(
    writer: &mut W,
    header: Header,
    is_key: bool,
) -> Result<(), W::Error>
    requires scalar { IsScalar header }
    requires key { is_key ≡ true → IsInteger header }
    ensures { ShowsOne W.Write (IsScalarJson is_key header) writer.old result writer.new }
{
    if is_key {
        write_key(writer, header)
    } else {
        write_value(writer, header)
    }
}

/// Writes an integer as a key.
fn write_key<W: Write>(writer: &mut W, header: Header) -> Result<(), W::Error>
    requires { IsInteger header }
    ensures { ShowsOne W.Write (IsScalarJson true header) writer.old result writer.new }
{
    put(writer, b"\"")?;
    write_value(writer, header)?;
    put(writer, b"\"")
}

/// Writes an integer, a float or a simple value.
fn write_value<W: Write>(writer: &mut W, header: Header) -> Result<(), W::Error>
    requires { IsScalar header }
    ensures { ShowsOne W.Write (IsScalarText header) writer.old result writer.new }
{
    match header {
        Header::Positive(number) => write_positive(writer, number),
        Header::Negative(number) => write_negative(writer, number),
        Header::Float(float) => write_float(writer, float),
        Header::Simple(number) => write_simple(writer, number),
        _ => unreachable!(),
    }
}

/// Writes an integer that is not negative.
fn write_positive<W: Write>(writer: &mut W, number: u64) -> Result<(), W::Error>
    ensures { WritesBytes W.Write writer.old result (decimal number) writer.new }
{
    put(writer, Buffer::new().format(number).as_bytes())
}

/// Writes the integer -1 - `number`.
fn write_negative<W: Write>(writer: &mut W, number: u64) -> Result<(), W::Error>
    ensures { WritesBytes W.Write writer.old result (signed_decimal (negsuc number)) writer.new }
{
    put(
        writer,
        Buffer::new().format(-1 - i128::from(number)).as_bytes(),
    )
}

/// Writes a float: by digits, or as `null` if it is not finite.
fn write_float<W: Write>(writer: &mut W, float: Float) -> Result<(), W::Error>
    ensures { ShowsOne W.Write (IsFloatJson float) writer.old result writer.new }
{
    let value = float_value(float);
    if !value.is_finite() {
        return put(writer, b"null");
    }
    show_number(writer, value, b"")
}

/// Writes a simple value: by its name, or as `null` if JSON has no such value.
fn write_simple<W: Write>(writer: &mut W, number: u8) -> Result<(), W::Error>
    ensures { WritesBytes W.Write writer.old result (simple_json number) writer.new }
{
    match number {
        simple::FALSE => put(writer, b"false"),
        simple::TRUE => put(writer, b"true"),
        _ => put(writer, b"null"),
    }
}
