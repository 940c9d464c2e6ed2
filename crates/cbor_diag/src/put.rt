//! Writes pieces of text.

ghost use Rattle.std.specs.Prelude.{◌≡◌, ◌++◌, IfErr, Some};
ghost use Rattle.ciborium_ll.specs.Encoding.{WritesBytes};
ghost use Rattle.cbor_diag.specs.Showing.{IsWriting, ShowsText, said_of};

use crate::DiagError;
use ciborium_ll::io::Write;

/// Writes a text.
#[inline(always)]
pub fn put<W: Write>(writer: &mut W, text: &[u8]) -> Result<(), W::Error>
    ensures { WritesBytes W.Write writer.old result text.now writer.new }
{
    writer.write_all(text)
}

/// Writes two texts, one after the other.
pub fn put_two<W: Write>(writer: &mut W, first: &[u8], second: &[u8]) -> Result<(), W::Error>
    ensures { WritesBytes W.Write writer.old result (first.now ++ second.now) writer.new }
{
    put(writer, first)?;
    put(writer, second)
}

/// Writes three texts, one after the other.
pub(crate) fn put_three<W: Write>(
    writer: &mut W,
    first: &[u8],
    second: &[u8],
    third: &[u8],
) -> Result<(), W::Error>
    ensures { WritesBytes W.Write writer.old result ((first.now ++ second.now) ++ third.now) writer.new }
{
    put_two(writer, first, second)?;
    put(writer, third)
}

/// Writes a text. The error is the writer's.
#[inline(always)]
pub(crate) fn say<E, W: Write>(writer: &mut W, text: &[u8]) -> Result<(), DiagError<E, W::Error>>
    ensures writing { IfErr result IsWriting }
    ensures written { ShowsText W.Write (Some text.now) writer.old result writer.new }
{
    said(put(writer, text))
}

/// Turns the answer of a write into the answer of a show.
pub(crate) fn said<E, F>(answer: Result<(), F>) -> Result<(), DiagError<E, F>>
    ensures writing { IfErr result IsWriting }
    ensures same { result ≡ said_of answer }
{
    answer.map_err(|fault| DiagError::Write(fault))
}
