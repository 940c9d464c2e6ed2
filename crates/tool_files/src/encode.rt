//! The bytes that diagnostic notation spells.

ghost use Rattle.tool_files.specs.Encodes.{WritesNotation};

use crate::options::Options;
use crate::send::send_all;
use cbor_encode::{NotationError, encode, encode_all};
use std::alloc::Global;
use std::io;

/// Why an input is not encoded.
#[derive(Drop)]
pub enum EncodeFault {
    /// Its text is no notation of what is wanted.
    Notation(NotationError),
    /// It can't be read.
    Input(io::Error),
    /// The output can't be written.
    Output(io::Error),
}

/// Reads diagnostic notation to its end, and writes the bytes that it spells. `--one` wants exactly one item, and
/// otherwise any number of items may stand there. Tags, arrays and maps nest at most as deep as the options say.
///
/// If the writer tells its bytes, `Ok` says that it got the bytes of such items, all of them. Without an underscore in
/// the text all titles are the shortest. The text is held in memory, and so are its bytes.
///
/// # Errors
///
/// - `Notation`: the text is no such notation. The error has the line and the column. Nothing is written.
/// - `Input`: the reader failed, or there is no memory for the text. Nothing is written. A read that was interrupted is
///   made again.
/// - `Output`: the writer failed. It got a beginning of the bytes, or all of them.
pub fn encode_input<R: io::Read + Drop, W: io::Write>(
    alloc: Global,
    mut reader: R,
    writer: &mut W,
    options: Options,
) -> Result<(), EncodeFault>
    ensures { WritesNotation W.contents options.one options.depth (R.remaining reader) writer.old result writer.new }
{
    let mut text = Vec::new(alloc);
    reader.read_to_end(&mut text).map_err(EncodeFault::Input)?;
    let encoded = if options.one {
        encode(alloc, text.as_slice(), options.depth)
    } else {
        encode_all(alloc, text.as_slice(), options.depth)
    };
    let bytes = encoded.map_err(EncodeFault::Notation)?;
    send_all(writer, bytes.as_slice()).map_err(EncodeFault::Output)
}
