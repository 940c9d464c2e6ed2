//! Shows the bytes that a dump leaves.

ghost use Rattle.std.specs.Prelude.{◌≡◌, [], Ok, OnErr, OnOk};
ghost use Rattle.cbor_dump.specs.Dumps.{Draws, DrawsRefused, ShowsLeft, fault_lines};
ghost use Rattle.cbor_dump.specs.Takings.{taken_bytes};

use crate::rows::{Meaning, Row, Rows, Within};
use crate::taken::Taken;
use ciborium_ll::Decoder;
use ciborium_ll::io::Read;

/// Shows the bytes that a dump left after its reader failed, in one row at fault of this level. If none is left, there
/// is no row.
///
/// The call reads bytes one by one, until it has 16 or a read fails. On `Ok` the row shows exactly the consumed bytes.
/// These are all if a steady reader tells at most 16, no header waits and the offset fits.
///
/// No clause says that they begin an affix or a part of a body, as they do if the reader ended the [`dump`].
///
/// # Errors
///
/// The error of the refused row.
pub fn dump_left<R: Read, S: Rows>(
    decoder: &mut Decoder<R>,
    level: usize,
    rows: &mut S,
) -> Result<(), S::Error>
where
    R::Error: Drop,
    ensures shows { OnOk result
        (ShowsLeft R.Read level (S.drawn rows.old) (S.drawn rows.new) decoder.old decoder.new) }
{
    let offset = decoder.offset();
    let mut taken = Taken::new();
    'bytes: while taken.read_one(decoder) {}
    fault_row(&taken, offset, level, rows)
}

/// Shows bytes at fault, if there are any.
pub(crate) fn fault_row<S: Rows>(
    taken: &Taken,
    offset: usize,
    level: usize,
    rows: &mut S,
) -> Result<(), S::Error>
    ensures draws { OnOk result
        (Draws (S.drawn rows.old) (S.drawn rows.new) (fault_lines level offset (taken_bytes taken.now))) }
    ensures refused { OnErr result
        (DrawsRefused (S.drawn rows.old) (S.drawn rows.new) (fault_lines level offset (taken_bytes taken.now))) }
    ensures none { taken_bytes taken.now ≡ [] → (result ≡ Ok tt) × (rows.new ≡ rows.old) }
{
    if taken.len() == 0 {
        return Ok(());
    }
    rows.row(Row {
        level,
        offset,
        bytes: taken.bytes(),
        meaning: Meaning::Fault,
        within: Within::Nothing,
    })
}
