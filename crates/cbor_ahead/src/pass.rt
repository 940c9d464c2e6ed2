//! Items that the buffer of a reader holds.

ghost use Rattle.std.specs.Prelude.{◌≤◌};
ghost use Rattle.std.specs.Io.KnownBytes.{Consumes};
ghost use Rattle.ciborium_ll_grammar.specs.declared.limits.TheConstants.{MOST_LEVELS};
ghost use Rattle.ciborium_ll_buffers.specs.Buffers.{buffered_ahead, buffered_read_ahead, buffered_read_failures};
ghost use Rattle.cbor_skip.specs.Skipping.{ReadsCounted};

use crate::groups::whole_items;
use ciborium_ll_buffers::BufferedReader;
use ciborium_ll_decoder::dec::Decoder;
use ciborium_ll_io::io::Read;
use std::io;

/// A length of a reader's buffer that serves well.
pub const AHEAD: usize = 65536;

/// Skips at most `most` items that the reader has read ahead, as long as it holds whole ones, and returns how many
/// these were. It reads nothing.
///
/// Tags, arrays and maps nest at most `depth` levels deep, and `depth` is at most 256. A strict decoder skips items in
/// their shortest spelling alone. If a header waits, no item is skipped. Otherwise no header waits then.
///
/// The contract does not say how many items these are: by it a call may skip fewer than there are, or none.
pub fn pass_items<'a, T: io::Read>(
    decoder: Decoder<BufferedReader<'a, T>>,
    most: usize,
    depth: usize,
) -> (Decoder<BufferedReader<'a, T>>, usize)
    requires { depth ≤ MOST_LEVELS }
    ensures most { result.1 ≤ most }
    ensures reads { ReadsCounted ⟦<BufferedReader<'a, T> as Read>⟧ result.1 depth decoder.entry result.0 }
{
    if decoder.is_waiting() {
        return (decoder, 0);
    }
    let mut decoder = decoder;
    let offset = decoder.offset();
    let spelling = decoder.spelling();
    let mut reader = decoder.into_inner();
    let ahead = reader.buffer();
    let room = ahead.len().min(usize::MAX - offset);
    let run = whole_items(&ahead[..room], most, spelling, depth);
    reader.consume(run.len);
    let passed = Decoder::with_spelling(reader, spelling, offset + run.len);
    (passed, run.count)
}
