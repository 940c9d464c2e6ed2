//! The marks of the widths of titles (RFC 8949, 8.1).

ghost use Rattle.std.specs.Prelude.{◌≡◌, ◌≤◌, ◌++◌, MatchResult, IfOk, Err};
ghost use Rattle.ciborium_ll.specs.Title.{title_len};
ghost use Rattle.ciborium_ll.specs.Decoding.{DecoderPullAnswer, MovesOn, offset_of, waiting_of};
ghost use Rattle.ciborium_ll.specs.Encoding.{WritesBytes};
ghost use Rattle.std.specs.Prelude.{None};
ghost use Rattle.cbor_diag.specs.Marks.{PullsMarked, is_long, is_marked, mark_text, title_mark, width_mark};

use crate::put::{put, put_two};
use ciborium_ll::io::{Read, Write};
use ciborium_ll::{Decoder, Error, Header};

/// The mark of the width of a title.
#[derive(Clone, Copy)]
pub(crate) enum Mark {
    /// None: the title is the shortest, or no marks are wanted.
    Absent,
    /// `_0`: the number has one byte.
    One,
    /// `_1`: two bytes.
    Two,
    /// `_2`: four bytes.
    Four,
    /// `_3`: eight bytes.
    Eight,
}

/// A header that was pulled, and the mark of its title.
#[derive(Clone, Copy)]
pub(crate) struct Marked {
    pub(crate) header: Header,
    pub(crate) mark: Mark,
}

impl Mark {
    /// Returns the mark of a title of this length. If `is_exact` is false, no marks are wanted.
    #[inline(always)]
    pub(crate) fn of(is_exact: bool, header: Header, len: usize) -> Mark
        ensures { result ≡ title_mark is_exact header len }
    {
        if is_exact && is_long(header, len) {
            Mark::of_width(len)
        } else {
            Mark::Absent
        }
    }

    /// Returns the mark of a title of this length, which has an affix.
    fn of_width(len: usize) -> Mark
        ensures { result ≡ width_mark len }
    {
        match len {
            2 => Mark::One,
            3 => Mark::Two,
            5 => Mark::Four,
            _ => Mark::Eight,
        }
    }

    /// Returns whether there is a mark.
    pub(crate) fn is_marked(self) -> bool
        ensures { result ≡ is_marked self }
    {
        !matches!(self, Mark::Absent)
    }

    /// Returns the text of the mark.
    pub(crate) fn text(self) -> &'static [u8]
        ensures { result.now ≡ mark_text self }
    {
        match self {
            Mark::Absent => b"",
            Mark::One => b"_0",
            Mark::Two => b"_1",
            Mark::Four => b"_2",
            Mark::Eight => b"_3",
        }
    }
}

/// Returns whether a title of this length is longer than the header needs.
#[inline(always)]
fn is_long(header: Header, len: usize) -> bool
    ensures { result ≡ is_long header len }
{
    match header {
        Header::Simple(number) => number < 32 && len > 1,
        _ => len > header.title_len(),
    }
}

/// Pulls a header, and returns it with the mark of its title.
#[inline(always)]
pub(crate) fn pull_marked<R: Read>(
    decoder: &mut Decoder<R>,
    is_exact: bool,
) -> Result<Marked, Error<R::Error>>
    ensures pulls { MatchResult result (λ marked. PullsMarked R.Read is_exact decoder.old marked decoder.new)
        (λ error. DecoderPullAnswer R.Read decoder.old (Err error) decoder.new) }
    ensures none_waits { IfOk result (λ _. waiting_of decoder.new ≡ None) }
    ensures covered { IfOk result (λ marked. title_len marked.header ≤ offset_of decoder.new) }
    ensures moves_on { MovesOn R.Read decoder.old decoder.new }
{
    let place = decoder.offset();
    let header = decoder.pull()?;
    let mark = Mark::of(is_exact, header, decoder.offset() - place);
    Ok(Marked { header, mark })
}

/// Writes a text, and the mark after it.
#[inline(always)]
pub(crate) fn put_marked<W: Write>(writer: &mut W, text: &[u8], mark: Mark) -> Result<(), W::Error>
    ensures { WritesBytes W.Write writer.old result (text.now ++ mark_text mark) writer.new }
{
    if mark.is_marked() {
        put_two(writer, text, mark.text())
    } else {
        put(writer, text)
    }
}
