//! Headers copied from a decoder to an encoder.

ghost use Rattle.std.specs.Prelude.{ℕ, List, ◌↔◌, IsOk};
ghost use Rattle.ciborium_ll.specs.Copying.{CopiesByHeaders, CopiesTold, IsReadyForTitles, TitlesInFront};
ghost use Rattle.ciborium_ll_recode.specs.Sides.{sides_of};

use ciborium_ll_decoder::dec::Decoder;
use ciborium_ll_encoder::enc::Encoder;
use ciborium_ll_io::io::{Read, Write};
use ciborium_ll_recode::recode::RecodeError;

/// Pulls `count` headers, and pushes each of them before it pulls the next.
///
/// It reads the bytes after a string's title as the next title.
///
/// If the decoder is not strict, the reader is steady, the room covers the bytes due and the offset fits, the copy
/// succeeds exactly if `count` titles are next.
///
/// # Errors
///
/// - `RecodeError::Read`: a `pull` failed, after all headers before it were written. `Syntax(offset)` is the first byte
///   with which no title begins. `Io` of a steady reader means that the bytes end before or within a title, whose first
///   byte is consumed.
/// - `RecodeError::Write`: a `push` failed.
pub fn copy_headers<R: Read, W: Write>(
    decoder: &mut Decoder<R>,
    encoder: &mut Encoder<W>,
    count: usize,
) -> Result<(), RecodeError<R::Error, W::Error>>
    ensures copied { CopiesByHeaders R.Read W.Write count (sides_of decoder.old encoder.old) result
        (sides_of decoder.new encoder.new) }
    ensures told { (due written : List ℕ)
        → IsReadyForTitles R.Read W.Write (sides_of decoder.old encoder.old) due written
        → CopiesTold R.Read W.Write count due written decoder.old result (sides_of decoder.new encoder.new) }
    ensures exactly { (due written : List ℕ)
        → IsReadyForTitles R.Read W.Write (sides_of decoder.old encoder.old) due written
        → (IsOk result ↔ TitlesInFront count due) }
{
    'headers: for _copied in 0..count {
        let header = decoder.pull()?;
        encoder
            .push(header)
            .map_err(|fault| RecodeError::Write(fault))?;
    }
    Ok(())
}
