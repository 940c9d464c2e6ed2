//! Titles, with or without a mark of their width, and what they begin.

ghost use Rattle.std.specs.Prelude.{◌≡◌, ◌≤◌, ◌++◌, ℕ, Some, IfErr, IfOk, IfSome, OnOk};
ghost use Rattle.ciborium_ll_grammar.specs.Title.{IsTitle};
ghost use Rattle.ciborium_ll_grammar.specs.Items.{Completes, IsItem};
ghost use Rattle.ciborium_ll_grammar.specs.Parts.{IsMinor, IsParts, minor_number, title_bytes};
ghost use Rattle.cbor_encode.specs.Adding.{Adds, HasBody, HasNumber, IsHead};
ghost use Rattle.cbor_encode.specs.Left.{IsWithin, left_of};
ghost use Rattle.cbor_encode.specs.Scalars.{IsMeant};

use crate::Expected;
use crate::cursor::{Cursor, Stop};
use ciborium_ll_grammar::hdr::{Header, Minor, Title, shortest};
use ciborium_ll_grammar::spelling::Spelling;

/// A mark of a width (RFC 8949, 8.1).
#[derive(Clone, Copy)]
pub(crate) enum Mark {
    /// `_i`: the number stands in the first byte.
    Within,
    /// `_0`: one byte.
    One,
    /// `_1`: two bytes, or a float of 16 bits.
    Two,
    /// `_2`: four bytes, or a float of 32 bits.
    Four,
    /// `_3`: eight bytes, or a float of 64 bits.
    Eight,
}

/// How the title of a number or a length is spelled.
#[derive(Clone, Copy)]
pub(crate) enum Form {
    /// Without a mark: in the shortest form.
    Shortest,
    /// With this mark.
    Marked(Mark),
    /// With an underscore alone: the length is indefinite.
    Open,
}

impl Form {
    /// Returns the mark, if there is one.
    pub(crate) fn mark(self) -> Option<Mark> {
        match self {
            Form::Marked(mark) => Some(mark),
            _ => None,
        }
    }

    /// Returns whether the length is indefinite.
    pub(crate) fn is_open(self) -> bool {
        matches!(self, Form::Open)
    }
}

/// Moves after the underscore and the width that stand here, and returns the form.
pub(crate) fn take_form(cursor: &mut Cursor<'_>) -> Form
    ensures within { left_of cursor.new ≤ left_of cursor.old }
{
    if !cursor.take(b'_') {
        return Form::Shortest;
    }
    let mark = match cursor.peek() {
        Some(b'i') => Mark::Within,
        Some(b'0') => Mark::One,
        Some(b'1') => Mark::Two,
        Some(b'2') => Mark::Four,
        Some(b'3') => Mark::Eight,
        _ => return Form::Open,
    };
    let _ = cursor.next();
    Form::Marked(mark)
}

impl Mark {
    /// Returns the minor of this width with this number, if the width holds it.
    fn minor(self, number: u64) -> Option<Minor>
        ensures minor { IfSome result IsMinor }
        ensures number { IfSome result (λ minor. minor_number minor ≡ Some number) }
    {
        match self {
            Mark::Within if number < 24 => Some(Minor::Small(number)),
            Mark::One if number < 0x100 => Some(Minor::One(number)),
            Mark::Two if number < 0x1_0000 => Some(Minor::Two(number)),
            Mark::Four if number < 0x1_0000_0000 => Some(Minor::Four(number)),
            Mark::Eight => Some(Minor::Eight(number)),
            _ => None,
        }
    }
}

/// Returns the major type and the number of a header, if its title may have a mark.
fn number_of(header: Header) -> Option<(u8, u64)>
    ensures { IfSome result (λ found. HasNumber header found.0 found.1) }
{
    match header {
        Header::Positive(number) => Some((0, number)),
        Header::Negative(number) => Some((1, number)),
        Header::Bytes(Some(len)) => Some((2, len as u64)),
        Header::Text(Some(len)) => Some((3, len as u64)),
        Header::Array(Some(len)) => Some((4, len as u64)),
        Header::Map(Some(len)) => Some((5, len as u64)),
        Header::Tag(number) => Some((6, number)),
        _ => None,
    }
}

/// Returns the title of a simple value with this mark, if there is one. It has one or two bytes (RFC 8949, 3.3).
#[tactic(auto, using(crate::proofs::HeadLaws::simple_small, crate::proofs::HeadLaws::simple_one))]
fn marked_simple(number: u8, mark: Mark) -> Option<Title>
    ensures parts { IfSome result IsParts }
    ensures title { IfSome result (λ title. IsTitle (title_bytes title) (Header.Simple number)) }
{
    let minor = match mark {
        Mark::Within if number < 24 => Minor::Small(u64::from(number)),
        Mark::One => Minor::One(u64::from(number)),
        _ => return None,
    };
    Some(Title { major: 7, minor })
}

/// Returns the title of the header with this mark, if there is one.
fn marked(header: Header, mark: Mark) -> Option<Title>
    ensures parts { IfSome result IsParts }
    ensures title { IfSome result (λ title. IsTitle (title_bytes title) header) }
{
    if let Header::Simple(number) = header {
        return marked_simple(number, mark);
    }
    let Some((major, number)) = number_of(header) else {
        return None;
    };
    let Some(minor) = mark.minor(number) else {
        return None;
    };
    Some(Title { major, minor })
}

/// Adds bytes to the end of the output. If there is no memory, `left` bytes of the text are left.
pub(crate) fn put(out: &mut Vec<u8>, bytes: &[u8], left: usize) -> Result<(), Stop>
    ensures wrote { OnOk result (out.new.items ≡ out.old.items ++ bytes.now) }
    ensures place { IfErr result (IsWithin left) }
{
    match out.extend_from_slice(bytes) {
        Ok(()) => Ok(()),
        Err(_) => Err(Stop {
            expected: Expected::Memory,
            left,
        }),
    }
}

/// Adds the bytes of a title.
fn put_title(out: &mut Vec<u8>, title: Title, left: usize) -> Result<(), Stop>
    requires { IsParts title }
    ensures wrote { OnOk result (out.new.items ≡ out.old.items ++ title_bytes title) }
    ensures place { IfErr result (IsWithin left) }
{
    put(out, &[title.first_byte()], left)?;
    match title.minor {
        Minor::Small(_) | Minor::Open => Ok(()),
        Minor::One(number) => put(out, &(number as u8).to_be_bytes(), left),
        Minor::Two(number) => put(out, &(number as u16).to_be_bytes(), left),
        Minor::Four(number) => put(out, &(number as u32).to_be_bytes(), left),
        Minor::Eight(number) => put(out, &number.to_be_bytes(), left),
    }
}

/// Returns the title of the header, with the mark if there is one. With `Shortest` no mark is taken.
fn title_of(header: Header, mark: Option<Mark>, spelling: Spelling) -> Result<Title, Expected>
    requires meant { IsMeant header mark }
    ensures parts { IfOk result IsParts }
    ensures head { IfOk result (λ title. IsHead spelling header (title_bytes title)) }
{
    let Some(mark) = mark else {
        return Ok(shortest(header));
    };
    if spelling.is_shortest() {
        return Err(Expected::NoMark);
    }
    match marked(header, mark) {
        Some(title) => Ok(title),
        None => Err(Expected::Mark),
    }
}

/// Adds the title of the header, and a body. From the item on, `left` bytes of the text are left.
///
/// With `Shortest` no mark is taken, and the title is the shortest.
pub(crate) fn put_chunk(
    out: &mut Vec<u8>,
    header: Header,
    mark: Option<Mark>,
    body: &[u8],
    spelling: Spelling,
    left: usize,
) -> Result<(), Stop>
    requires meant { IsMeant header mark }
    ensures wrote { OnOk result (Adds (HasBody spelling header body.now) out.old.items out.new.items) }
    ensures place { IfErr result (IsWithin left) }
{
    match title_of(header, mark, spelling) {
        Ok(title) => put_title(out, title, left)?,
        Err(expected) => return Err(Stop { expected, left }),
    }
    put(out, body, left)
}

/// Adds an item: the title of the header, and a body that completes it.
pub(crate) fn put_whole(
    out: &mut Vec<u8>,
    header: Header,
    mark: Option<Mark>,
    body: &[u8],
    spelling: Spelling,
    left: usize,
) -> Result<(), Stop>
    requires meant { IsMeant header mark }
    ensures wrote { OnOk result ((depth : ℕ) → Completes spelling depth header body.now
        → Adds (IsItem spelling depth) out.old.items out.new.items) }
    ensures place { IfErr result (IsWithin left) }
{
    put_chunk(out, header, mark, body, spelling, left)
}
