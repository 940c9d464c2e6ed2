//! A map of texts, written.

ghost use Rattle.std.specs.Prelude.{◌≡◌};
ghost use Rattle.ciborium_ll.specs.Encoding.{WritesBytes, writer_of};
ghost use Rattle.uses.specs.Maps.{entry_bytes, map_bytes};

use ciborium_ll::io::Write;
use ciborium_ll::{Encoder, Header};

/// A pair of a map from texts to texts.
#[derive(Clone, Copy)]
pub struct Entry<'a> {
    /// The key.
    pub key: &'a str,
    /// The value.
    pub value: &'a str,
}

/// Writes a map from texts to texts (RFC 7049, 2.1), of a definite length, each text as one string and each title the
/// shortest.
///
/// # Errors
///
/// - `W::Error`: the writer failed, with a beginning of the map written.
pub fn write_strings<W: Write>(
    encoder: &mut Encoder<W>,
    entries: &[Entry<'_>],
) -> Result<(), W::Error>
    ensures bytes { WritesBytes W.Write (writer_of encoder.old) result (map_bytes entries.now) (writer_of encoder.new) }
    ensures target { W.target (writer_of encoder.new) ≡ W.target (writer_of encoder.old) }
{
    encoder.push(Header::Map(Some(entries.len())))?;
    'entries: for entry in entries {
        write_entry(encoder, entry)?;
    }
    Ok(())
}

/// Writes a pair.
#[tactic(auto, using(crate::proofs::Steps::text_unwritten))]
fn write_entry<W: Write>(encoder: &mut Encoder<W>, entry: &Entry<'_>) -> Result<(), W::Error>
    ensures bytes { WritesBytes W.Write (writer_of encoder.old) result (entry_bytes entry.now) (writer_of encoder.new) }
    ensures target { W.target (writer_of encoder.new) ≡ W.target (writer_of encoder.old) }
{
    encoder.text(entry.key, None)?;
    encoder.text(entry.value, None)
}
