//! Shows the item that a byte string contains (RFC 8949, 3.4.5.1).

ghost use Rattle.std.specs.Prelude.{◌≡◌, ◌≤◌, ◌+◌, ℕ, List, [], IfOk, OnOk, nat_lt, true, false};
ghost use Rattle.cbor_dump.specs.declared.embedded.TheConstants.{SPARE};
ghost use Rattle.ciborium_ll.specs.Decoding.{offset_limit, offset_of};
ghost use Rattle.ciborium_ll.specs.Items.{IsItem};
ghost use Rattle.ciborium_ll.specs.Premises.{CanRead};
ghost use Rattle.cbor_dump.specs.Bodies.{DrawsBody, IsShownAs};
ghost use Rattle.cbor_dump.specs.Dumps.{Lines};
ghost use Rattle.cbor_dump.specs.Levels.{Meant};
ghost use Rattle.cbor_dump.specs.Takings.{IsInMode, most_bytes};
ghost use Rattle.ciborium_ll_grammar.specs.declared.limits.TheConstants.{MOST_LEVELS};

use crate::dump::{DumpError, dump};
use crate::rows::Rows;
use cbor_embedded::is_one_item;
use ciborium_ll::io::{Read, SliceReader};
use ciborium_ll::{Decoder, Spelling};

/// Takes rows that may stand deeper than their level says.
pub trait Deepen: Rows {
    /// How many levels deeper the rows stand that follow.
    ghost base: { Self → ℕ };

    /// Sets how many levels deeper the rows stand that follow. The call takes no row.
    fn deepen(&mut self, levels: usize)
        ensures levels { base self.new ≡ levels }
        ensures drawn { Self.drawn self.new ≡ Self.drawn self.old };
}

/// How many bytes must be left of the offsets after a body.
const SPARE: usize = 16;

/// Shows the body of a byte string as the item that it is, and returns whether it did.
///
/// On `Ok(true)` the rows are those of a [`dump`] of the body, with the offset of its first byte, and `levels` levels
/// deeper. Each byte of the body stands in one of them. On `Ok(false)` the call took no row, and the caller shows the
/// body as it is.
///
/// The answer is `true` exactly if the body is one whole item to `depth` levels, and 16 offsets follow it. With
/// `Shortest` the item is in its shortest spelling. `depth` is at most 256.
///
/// Example: rows hold back the parts of the body of `42 81 00` until its 2 bytes have come. The title has the level 0,
/// so its body stands at `levels` 1. A caller that allows 256 levels in all gives the `depth` 255.
///
/// # Errors
///
/// The error of the refused row.
pub fn dump_body<S: Deepen>(
    body: &[u8],
    offset: usize,
    levels: usize,
    depth: usize,
    spelling: Spelling,
    rows: &mut S,
) -> Result<bool, S::Error>
    requires shallow { depth ≤ MOST_LEVELS }
    ensures shown { IfOk result (λ is. is ≡ true → DrawsBody S.base S.drawn depth offset levels body.now rows.old
        rows.new) }
    ensures item { IfOk result (λ is. IsShownAs spelling depth offset body.now is) }
    ensures untouched { IfOk result (λ is. is ≡ false → rows.new ≡ rows.old) }
{
    if !has_offsets(offset, body.len()) || !is_one_item(body, depth, spelling) {
        return Ok(false);
    }
    rows.deepen(levels);
    let mut decoder = Decoder::with_spelling(SliceReader::new(body), spelling, offset);
    let shown = dump_item(&mut decoder, depth, spelling, rows);
    rows.deepen(0);
    match shown {
        Ok(()) => Ok(true),
        Err(fault) => Err(fault),
    }
}

/// Returns whether a dump of that many bytes can count its offsets.
fn has_offsets(offset: usize, len: usize) -> bool
    ensures { result ≡ nat_lt (offset + len + SPARE) offset_limit }
{
    len <= usize::MAX - SPARE && offset <= usize::MAX - SPARE - len
}

/// Shows bytes that are one item.
fn dump_item<R: Read, S: Rows>(
    decoder: &mut Decoder<R>,
    depth: usize,
    spelling: Spelling,
    rows: &mut S,
) -> Result<(), S::Error>
where
    R::Error: Drop,
    requires shallow { depth ≤ MOST_LEVELS }
    ensures { (due : List ℕ) → IsInMode spelling decoder.old
        → CanRead R.Read most_bytes decoder.old due
        → IsItem spelling depth due → OnOk result
        (Lines depth (offset_of decoder.old) (S.drawn rows.old) (S.drawn rows.new) [] due Meant) }
{
    match dump(decoder, depth, spelling, rows) {
        Ok(_) => Ok(()),
        Err(DumpError::Rows(fault)) => Err(fault),
        // The bytes are an item, so this is no case.
        Err(DumpError::Item(_)) => Ok(()),
    }
}
