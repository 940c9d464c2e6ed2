//! Headers and values, written one by one.

ghost use Rattle.std.specs.Prelude.{◌≡◌, ◌≤◌, ◌∷◌, ◌++◌, [], ℕ, false, List, length};
ghost use Rattle.std.specs.List.{All};
ghost use Rattle.ciborium_ll_grammar.specs.declared.spelling.Spelling.TheVariants.{Any};
ghost use Rattle.ciborium_ll_grammar.specs.Strings.{Bytes, Text};
ghost use Rattle.ciborium_ll_grammar.specs.Elements.{Mark, Plain, IsPlain, IsRun, spelling};
ghost use Rattle.ciborium_ll_encoder.specs.Encoding.{writer_of};
ghost use Rattle.ciborium_ll_recode.specs.Recoding.{Recodes};
ghost use Rattle.ciborium_ll_recode.specs.Sides.{sides_of};
ghost use Rattle.ciborium_ll_recode.specs.RecodingTold.{IsReady};
ghost use Rattle.ciborium_ll.specs.Pieces.{CopiesSame, IsPiece, IsPlainPiece, IsValue, WritesMarked, WritesPieceList};
ghost use Rattle.ciborium_ll_grammar.specs.declared.limits.TheConstants.{LEAST_BUFFER};

use ciborium_ll_decoder::dec::Decoder;
use ciborium_ll_encoder::enc::Encoder;
use ciborium_ll_grammar::hdr::Header;
use ciborium_ll_io::io::{Read, Write};
use ciborium_ll_recode::recode::{RecodeError, recode};

/// The argument of one call that writes: a header, or a value in segments of limited length.
#[derive(Drop)]
pub enum Piece<'a> {
    /// A header that begins no string.
    Header(Header),
    /// A byte string, and the limit of its segments in bytes.
    Bytes(&'a [u8], Option<usize>),
    /// A text string, and the limit of its segments in bytes.
    Text(&'a str, Option<usize>),
}

/// Writes a header that begins no string.
fn write_header<W: Write>(encoder: &mut Encoder<W>, header: Header) -> Result<(), W::Error>
    requires { IsPlain header }
    ensures { WritesMarked W.Write (λ marks. marks ≡ Plain header ∷ []) (writer_of encoder.old) result
        (writer_of encoder.new) }
{
    encoder.push(header)
}

/// Writes a value of bytes.
fn write_bytes<W: Write>(
    encoder: &mut Encoder<W>,
    value: &[u8],
    segment: Option<usize>,
) -> Result<(), W::Error>
    ensures { WritesMarked W.Write (IsValue Bytes segment value.now) (writer_of encoder.old) result
        (writer_of encoder.new) }
{
    encoder.bytes(value, segment)
}

/// Writes a value of text.
fn write_text<W: Write>(
    encoder: &mut Encoder<W>,
    value: &str,
    segment: Option<usize>,
) -> Result<(), W::Error>
    ensures { WritesMarked W.Write (IsValue Text segment value.now) (writer_of encoder.old) result
        (writer_of encoder.new) }
{
    encoder.text(value, segment)
}

/// Writes one piece.
fn write_piece<W: Write>(encoder: &mut Encoder<W>, piece: &Piece<'_>) -> Result<(), W::Error>
    requires { IsPlainPiece piece.now }
    ensures { WritesMarked W.Write (IsPiece piece.now) (writer_of encoder.old) result (writer_of encoder.new) }
{
    match piece {
        Piece::Header(header) => write_header(encoder, *header),
        Piece::Bytes(value, segment) => write_bytes(encoder, value, *segment),
        Piece::Text(value, segment) => write_text(encoder, value, *segment),
    }
}

/// Writes each piece in turn: a header by `push`, and a value by `bytes` or `text`.
///
/// Each piece becomes one element in its shortest spelling, which a copy leaves unchanged, as [`copy_spelled`] says.
/// The bodies of a value, joined, are the value.
///
/// # Errors
///
/// - `W::Error`: the writer failed at one of the pieces. The pieces before it were written, and a beginning of its
///   spelling.
pub fn write_pieces<W: Write>(
    encoder: &mut Encoder<W>,
    pieces: &[Piece<'_>],
) -> Result<(), W::Error>
    requires { All IsPlainPiece pieces.now }
    ensures { WritesPieceList W.Write pieces.now (writer_of encoder.old) result (writer_of encoder.new) }
{
    'pieces: for piece in pieces {
        write_piece(encoder, piece)?;
    }
    Ok(())
}

/// Copies elements in their shortest spelling, for example the elements of [`write_pieces`].
///
/// If the decoder is not strict, the reader is steady, the writer has room and the offset fits, the copy changes
/// nothing. This holds for any limits of segments and any `buffer` of four bytes or more.
///
/// # Errors
///
/// - The errors of [`recode`](crate::recode::recode).
pub fn copy_spelled<R: Read, W: Write>(
    decoder: &mut Decoder<R>,
    encoder: &mut Encoder<W>,
    count: usize,
    buffer: &mut [u8],
) -> Result<(), RecodeError<R::Error, W::Error>>
    requires room { LEAST_BUFFER ≤ length buffer.old }
    ensures copied { Recodes R.Read W.Write count (length buffer.old) (sides_of decoder.old encoder.old) result
        (sides_of decoder.new encoder.new) }
    ensures same { (marks : List Mark) (rest written : List ℕ) → IsRun count (spelling marks) marks
        → IsReady R.Read W.Write Any count (length buffer.old) (sides_of decoder.old encoder.old)
        (spelling marks ++ rest) written
        → CopiesSame R.Read W.Write (spelling marks) rest written result decoder.new (writer_of encoder.new) }
{
    recode(decoder, encoder, count, buffer)
}
