//! Bytes by base64, in groups of three (RFC 4648, section 4).

ghost use Rattle.std.specs.Prelude.{◌≡◌, ◌≤◌, length};
ghost use Rattle.base64.specs.GeneralPurpose.{encode_of, encoded_size_of};
ghost use Rattle.ciborium_ll.specs.Encoding.{WritesBytes};
ghost use Rattle.cbor_diag.specs.Passing.{end_group, next_group};

use super::held::Held;
use crate::put::put;
use base64::engine::general_purpose::GeneralPurpose;
use ciborium_ll::io::Write;

/// The length of the text of a group.
const GROUP_TEXT: usize = 4;

/// Shows the group that the next byte ends, after the bytes that are held.
pub(super) fn show_grouped<W: Write>(
    writer: &mut W,
    engine: &GeneralPurpose,
    held: Held,
    byte: u8,
) -> Result<(), W::Error>
    ensures { WritesBytes W.Write writer.old result (next_group engine.now held byte) writer.new }
{
    match held {
        Held::Two(first, second) => show_group(writer, engine, &[first, second, byte]),
        Held::Nothing | Held::One(_) => Ok(()),
    }
}

/// Shows the bytes that are held as the last group.
pub(super) fn show_held<W: Write>(
    writer: &mut W,
    engine: &GeneralPurpose,
    held: Held,
) -> Result<(), W::Error>
    ensures { WritesBytes W.Write writer.old result (end_group engine.now held) writer.new }
{
    match held {
        Held::Nothing => Ok(()),
        Held::One(first) => show_group(writer, engine, &[first]),
        Held::Two(first, second) => show_group(writer, engine, &[first, second]),
    }
}

/// Shows a group of at most three bytes.
fn show_group<W: Write>(
    writer: &mut W,
    engine: &GeneralPurpose,
    bytes: &[u8],
) -> Result<(), W::Error>
    requires { length bytes.now ≤ 3 }
    ensures { WritesBytes W.Write writer.old result (encode_of engine.now bytes.now) writer.new }
{
    let mut space = [0; GROUP_TEXT];
    let Ok(len) = engine.encode_slice(bytes, &mut space) else {
        unreachable!();
    };
    put(writer, &space[..len])
}
