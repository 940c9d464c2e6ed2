//! One item in memory, as C knows it: its bytes, and how many levels it may go down.

ghost use Rattle.std.specs.Prelude.{◌≡◌, ◌≢◌, ◌↔◌, ◌≤◌, List, ℕ, false, MatchOption, Some, length};
ghost use Rattle.ciborium_ll_grammar.specs.declared.spelling.Spelling.TheVariants.{Any};
ghost use Rattle.ciborium_ll_grammar.specs.Items.{IsItem};
ghost use Rattle.ciborium_ll_grammar.specs.declared.limits.TheConstants.{MOST_LEVELS};
ghost use Rattle.cbor_skip.specs.ItemFaults.{BeginsWithItem};
ghost use Rattle.cbor_view.specs.Held.{item_bytes, item_depth};
ghost use Rattle.cbor_view.specs.Views.{IsBytesOf, IsTextOf};
ghost use Rattle.capi.specs.declared.answer.CllAnswer.TheVariants as a;
ghost use Rattle.capi.specs.Lacking.{ItemLacks};
ghost use Rattle.capi.specs.Pulling.{BeginsWithTitle};
ghost use Rattle.capi.specs.Skipping.{Skips};
ghost use Rattle.capi.specs.Viewing.{GivesBody, IsView, TellsHeader, Views};

use crate::answer::{CllAnswer, CllReport};
use crate::header::CllHeader;
use crate::skip_or_due;
use cbor_view::{Item, next_title};
use ciborium_ll::Header;
use ciborium_ll_grammar::limits::MOST_LEVELS;

/// One item in memory, with its title and all that it contains. A caller may write any bytes and any depth into it.
#[derive(Clone, Copy)]
#[repr(C)]
pub struct CllItem<'a> {
    /// The bytes of the item.
    pub bytes: &'a [u8],
    /// How many levels its tags, arrays and maps may take.
    pub depth: u32,
}

/// The body of a string of a definite length.
#[derive(Clone, Copy)]
#[repr(C)]
pub struct CllBody<'a> {
    /// The bytes of the body.
    pub bytes: &'a [u8],
}

/// Parses the item with which the bytes begin, and reports as `skip_or_due` does.
pub(crate) fn parse<'a>(
    bytes: &'a [u8],
    depth: u32,
    item: &mut CllItem<'a>,
    report: &mut CllReport,
) -> CllAnswer
    requires shallow { depth ≤ MOST_LEVELS }
    ensures skipped { Skips depth bytes.now result report.new }
    ensures exactly { result ≡ a.Ok ↔ BeginsWithItem Any depth bytes.now }
    ensures due { result ≡ a.Short → ItemLacks Any depth bytes.now report.new.place }
    ensures parsed { result ≡ a.Ok
        → Views depth bytes.now item.new × (report.new.consumed ≡ length item.new.bytes.now) }
    ensures kept { result ≢ a.Ok → item.new ≡ item.old }
{
    match skip_or_due(bytes, depth as usize, report) {
        CllAnswer::Ok => {
            item.bytes = &bytes[..report.consumed as usize];
            item.depth = depth;
            CllAnswer::Ok
        }
        answer => answer,
    }
}

/// Returns the whole item that the view has, or `None` if its bytes are not one item to its depth.
pub(crate) fn whole<'a>(item: &CllItem<'a>) -> Option<Item<'a>>
    ensures { MatchOption result (IsView item.now → ⊥)
        (λ view. (item_bytes view ≡ item.now.bytes.now) × (item_depth view ≡ item.now.depth) × IsView item.now) }
{
    if item.depth as usize > MOST_LEVELS {
        return None;
    }
    match Item::parse_prefix(item.bytes, item.depth as usize) {
        Ok((view, rest)) => { if rest.is_empty() { Some(view) } else { None } }
        Err(_) => None,
    }
}

/// Tells the header of the title with which the bytes begin.
#[tactic(auto, using(crate::proofs::ViewLaws::no_title))]
pub(crate) fn tell_header(bytes: &[u8], header: &mut CllHeader) -> CllAnswer
    ensures exactly { result ≡ a.Ok ↔ BeginsWithTitle bytes.now }
    ensures told { TellsHeader bytes.now result header.old header.new }
{
    match next_title(bytes) {
        Some((found, _)) => {
            let parts = CllHeader::of(found);
            // Copy field by field: a copy of a struct also copies the bytes between and after its fields.
            header.value = parts.value;
            header.kind = parts.kind;
            header.indefinite = parts.indefinite;
            CllAnswer::Ok
        }
        None => CllAnswer::Argument,
    }
}

/// Returns the bytes if they are as many as the length says.
fn of_length(bytes: &[u8], len: Option<usize>) -> Option<&[u8]>
    ensures { MatchOption result (len ≢ Some (length bytes.now))
        (λ body. (body.now ≡ bytes.now) × (len ≡ Some (length bytes.now))) }
{
    match len {
        Some(len) => {
            if bytes.len() == len {
                Some(bytes)
            } else {
                None
            }
        }
        None => None,
    }
}

/// Returns the body of the byte string of definite length that the bytes are.
fn byte_body(bytes: &[u8]) -> Option<&[u8]>
    ensures { MatchOption result ((body : List ℕ) → IsBytesOf bytes.now body → ⊥)
        (λ body. IsBytesOf bytes.now body.now) }
{
    let Some((header, contents)) = next_title(bytes) else {
        return None;
    };
    match header {
        Header::Bytes(len) => of_length(contents, len),
        _ => None,
    }
}

/// Returns the body of the text string of definite length that the bytes are.
fn text_body(bytes: &[u8]) -> Option<&[u8]>
    ensures { MatchOption result ((body : List ℕ) → IsTextOf bytes.now body → ⊥)
        (λ body. IsTextOf bytes.now body.now) }
{
    let Some((header, contents)) = next_title(bytes) else {
        return None;
    };
    match header {
        Header::Text(len) => of_length(contents, len),
        _ => None,
    }
}

/// Gives the body of a byte string of definite length.
pub(crate) fn give_bytes<'a>(bytes: &'a [u8], body: &mut CllBody<'a>) -> CllAnswer
    ensures { GivesBody (IsBytesOf bytes.now) result body.old body.new }
{
    match byte_body(bytes) {
        Some(found) => {
            body.bytes = found;
            CllAnswer::Ok
        }
        None => CllAnswer::Absent,
    }
}

/// Gives the body of a text string of definite length.
pub(crate) fn give_text<'a>(bytes: &'a [u8], body: &mut CllBody<'a>) -> CllAnswer
    ensures { GivesBody (IsTextOf bytes.now) result body.old body.new }
{
    match text_body(bytes) {
        Some(found) => {
            body.bytes = found;
            CllAnswer::Ok
        }
        None => CllAnswer::Absent,
    }
}
