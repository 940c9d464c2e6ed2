//! Writes the shortest titles into memory that a caller lends.

ghost use Rattle.std.specs.Prelude.{◌≡◌, ◌+◌, ◌<◌, ◌≤◌, IfErr, IfOk, MatchResult, length};
ghost use Rattle.ciborium_ll_grammar.specs.Title.{IsInRange, shortest_title, title_len};
ghost use Rattle.cbor_canonical.specs.declared.Stop.TheVariants.{Room as NoRoom};
ghost use Rattle.cbor_canonical.specs.Writing.{Adds, Inserts};

use crate::Stop;
use ciborium_ll_grammar::hdr::{Header, Minor, shortest};

/// Writes the bytes at this offset of the output, and returns the offset after them.
pub(crate) fn put_bytes(bytes: &[u8], out: &mut [u8], at: usize) -> Result<usize, Stop>
    requires { at ≤ length out.old }
    ensures written { MatchResult result (λ end. Adds bytes.now at end out.old out.new) (λ stop. stop ≡ NoRoom) }
    ensures room { IfErr result (λ stop. length out.old < at + length bytes.now) }
{
    let room = out.len() - at;
    if room < bytes.len() {
        return Err(Stop::Room);
    }
    let end = at + bytes.len();
    out[at..end].copy_from_slice(bytes);
    Ok(end)
}

/// Writes the shortest title of a header at this offset of the output, and returns the offset after it.
pub(crate) fn put_title(header: Header, out: &mut [u8], at: usize) -> Result<usize, Stop>
    requires { at ≤ length out.old }
    ensures written { MatchResult result (λ end. Adds (shortest_title header) at end out.old out.new)
        (λ stop. stop ≡ NoRoom) }
    ensures room { IfErr result (λ stop. length out.old < at + title_len header) }
    ensures range { IsInRange header }
{
    let title = shortest(header);
    let end = put_bytes(&[title.first_byte()], out, at)?;
    match title.minor {
        Minor::Small(_) | Minor::Open => Ok(end),
        Minor::One(number) => put_bytes(&[number as u8], out, end),
        Minor::Two(number) => put_bytes(&(number as u16).to_be_bytes(), out, end),
        Minor::Four(number) => put_bytes(&(number as u32).to_be_bytes(), out, end),
        Minor::Eight(number) => put_bytes(&number.to_be_bytes(), out, end),
    }
}

/// Writes the shortest title of a header before the content that stands from `at` to `end`, and returns the offset
/// after the content.
pub(crate) fn insert_title(
    header: Header,
    out: &mut [u8],
    at: usize,
    end: usize,
) -> Result<usize, Stop>
    requires start { at ≤ end }
    requires end { end ≤ length out.old }
    ensures written { MatchResult result (λ after. Inserts (shortest_title header) at end after out.old out.new)
        (λ stop. stop ≡ NoRoom) }
    ensures reach { IfOk result (λ after. after ≡ end + title_len header) }
    ensures room { IfErr result (λ stop. length out.old < end + title_len header) }
    ensures range { IsInRange header }
{
    let after = put_title(header, out, end)?;
    out[at..after].rotate_right(after - end);
    Ok(after)
}
