//! A stream, copied in its shortest spelling.

ghost use Rattle.std.specs.Prelude.{ℕ, List};
ghost use Rattle.uses.specs.Streams.{AreReady, CopiesAndFlushes, FlushesSo, IsNormalised, NormalisesAnyhow};
ghost use Rattle.uses.specs.Streams.{TellBytes};

use ciborium_ll::io::{Read, Write};
use ciborium_ll::recode::recode;
use ciborium_ll::{Decoder, Encoder, RecodeError};

/// Copies `count` elements (RFC 7049, 2.1 and 2.2) from a reader to a writer, each in its shortest spelling, flushes
/// the writer, and returns both.
///
/// The copy is that of `recode`, by a new decoder and a buffer of 64 bytes. A writer that tells its room keeps the copy
/// after a failed flush too.
///
/// If the reader is steady, the offset fits and the writer has room, `Read` comes exactly if the bytes begin with fewer
/// elements, and `Write` only if the flush fails.
///
/// # Errors
///
/// After an error of `recode` nothing is flushed. If both sides tell their bytes:
///
/// - `Read(Syntax(offset))`: the first fault, with its place. The writer has everything that is written before the
///   fault.
/// - `Read(Io)`, `Read(TooLong)`: the writer has the spelling of a part of the elements.
/// - `Write`: the writer has a beginning of this spelling, or has everything and the flush failed.
pub fn normalise<R: Read, W: Write>(
    reader: R,
    writer: W,
    count: usize,
) -> (R, W, Result<(), RecodeError<R::Error, W::Error>>)
    ensures exactly { (due written : List ℕ) → AreReady R.Read W.Write count reader writer due written
        → IsNormalised R.Read W.Write count due written result.2 result.0 result.1 }
    ensures anyhow { (due written : List ℕ) → TellBytes R.Read W.Write reader writer due written
        → NormalisesAnyhow R.Read W.Write count due written result.2 result.0 result.1 }
    ensures copied { CopiesAndFlushes R.Read W.Write count reader writer result.2 result.0 result.1 }
{
    let mut buffer = [0; 64];
    let mut decoder = Decoder::from(reader);
    let mut encoder = Encoder::from(writer);
    let copied = recode(&mut decoder, &mut encoder, count, &mut buffer);
    let reader = decoder.into_inner();
    let mut writer = encoder.into_inner();
    let outcome = match copied {
        Ok(()) => flush_writer(&mut writer),
        Err(error) => Err(error),
    };
    (reader, writer, outcome)
}

/// Flushes the writer.
fn flush_writer<E, W: Write>(writer: &mut W) -> Result<(), RecodeError<E, W::Error>>
    ensures { FlushesSo W.Write writer.old result writer.new }
{
    writer.flush().map_err(|fault| RecodeError::Write(fault))
}
