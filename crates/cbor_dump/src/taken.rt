//! Reads and keeps the bytes of one row.

ghost use Rattle.std.specs.Prelude.{◌≡◌, ◌+◌, ◌-◌, ◌%◌, ◌<◌, ◌≤◌, [], length, min, suc, false, IfErr, IfOk, IfSome};
ghost use Rattle.std.specs.Prelude.{IsTrue, None, Ok, Err};
ghost use Rattle.ciborium_ll.specs.Title.{affix_len};
ghost use Rattle.ciborium_ll.specs.Decoding.{offset_of, view, waiting_of, IsWaiting, ReadsPast};
ghost use Rattle.ciborium_ll.specs.Premises.{longest_affix};

use crate::fronts::{is_cut, is_text, title_header};
use ciborium_ll::io::Read;
use ciborium_ll::{Decoder, Error, Header, Spelling};
use ciborium_ll_grammar::hdr::table::row_of;

/// How many bytes a row has at most.
pub(crate) const MOST_BYTES: usize = 16;

/// How many bytes of a text are read at once. The rest of a character follows, which is at most three bytes.
const MOST_TEXT: usize = 8;

/// The bytes that were read for one row.
#[derive(Drop)]
pub(crate) struct Taken {
    bytes: [u8; MOST_BYTES],
    len: usize,
    ghost within: { len ≤ 16 },
}

impl Taken {
    ghost use Rattle.ciborium_ll.specs.Items.{IsTakenTitle};
    ghost use Rattle.ciborium_ll.specs.Title.{IsTitle};
    ghost use Rattle.cbor_dump.specs.Takings.{EndsRow, IsInMode, IsSteadyNoneWaiting, Keeps, PullsRow, ReadsBy, ReadsMore};
    ghost use Rattle.cbor_dump.specs.Takings.{IsTitleRow, LeavesBehind, RefusesRead, most_bytes, taken_bytes};
    ghost use Rattle.ciborium_ll.specs.Types.Error.TheVariants.{Waiting};
    ghost use Rattle.cbor_dump.specs.Parts.{IsFullPart, IsPartRow, IsSound, ReadsTextPart};
    ghost use Rattle.ciborium_ll.specs.Strings.{Text};

    /// Makes a row that has no byte yet.
    pub(crate) fn new() -> Taken
        ensures { taken_bytes result ≡ [] }
    {
        Taken {
            bytes: [0; MOST_BYTES],
            len: 0,
        }
    }

    /// Returns the bytes that were read.
    pub(crate) fn bytes(&self) -> &[u8]
        ensures { result.now ≡ taken_bytes self.now }
    {
        &self.bytes[..self.len]
    }

    /// Returns how many bytes were read.
    pub(crate) fn len(&self) -> usize
        ensures most { result ≤ most_bytes }
        ensures value { result ≡ length (taken_bytes self.now) }
    {
        self.len
    }

    /// Reads `count` more bytes, or as many as there is room for.
    pub(crate) fn read<R: Read>(
        &mut self,
        decoder: &mut Decoder<R>,
        count: usize,
    ) -> Result<(), Error<R::Error>>
        ensures keeps { Keeps R.Read (taken_bytes self.old) (taken_bytes self.new) decoder.old decoder.new }
        ensures all { IfOk result (λ _. length (taken_bytes self.new)
            ≡ length (taken_bytes self.old) + min count (most_bytes - length (taken_bytes self.old))) }
        ensures none { IfErr result (λ _. taken_bytes self.new ≡ taken_bytes self.old) }
        ensures reads { ReadsMore R.Read count (taken_bytes self.old) (taken_bytes self.new) decoder.old result
            decoder.new }
    {
        let end = self.len + count.min(MOST_BYTES - self.len);
        decoder.read_exact(&mut self.bytes[self.len..end])?;
        self.len = end;
        Ok(())
    }

    /// Reads one more byte, if there is room for it, and returns whether a byte came.
    pub(crate) fn read_one<R: Read>(&mut self, decoder: &mut Decoder<R>) -> bool
    where
        R::Error: Drop,
        ensures keeps { Keeps R.Read (taken_bytes self.old) (taken_bytes self.new) decoder.old decoder.new }
        ensures one { IsTrue result → length (taken_bytes self.new) ≡ suc (length (taken_bytes self.old)) }
        ensures came { IsTrue result
            → ReadsMore R.Read 1 (taken_bytes self.old) (taken_bytes self.new) decoder.old (Ok tt) decoder.new }
        ensures ends { result ≡ false → (taken_bytes self.new ≡ taken_bytes self.old)
            × EndsRow R.Read (length (taken_bytes self.old)) decoder.old decoder.new }
    {
        if self.len == MOST_BYTES {
            return false;
        }
        self.read(decoder, 1).is_ok()
    }

    /// Reads the `count` bytes of a title's affix. If there are none, the call reads nothing.
    fn read_affix<R: Read>(
        &mut self,
        decoder: &mut Decoder<R>,
        count: usize,
    ) -> Result<(), Error<R::Error>>
        requires none_waits { waiting_of decoder.old ≡ None }
        ensures keeps { Keeps R.Read (taken_bytes self.old) (taken_bytes self.new) decoder.old decoder.new }
        ensures none { IfErr result (λ _. taken_bytes self.new ≡ taken_bytes self.old) }
        ensures some { IfErr result (λ _. 0 < count) }
        ensures reads { ReadsMore R.Read count (taken_bytes self.old) (taken_bytes self.new) decoder.old result
            decoder.new }
    {
        if count == 0 {
            return Ok(());
        }
        self.read(decoder, count)
    }

    /// Reads a title. With `Shortest` it takes only a strict title. The error `Syntax` has the offset `place`.
    pub(crate) fn read_title<R: Read>(
        &mut self,
        decoder: &mut Decoder<R>,
        spelling: Spelling,
        place: usize,
    ) -> Result<Header, Error<R::Error>>
        requires none { taken_bytes self.old ≡ [] }
        ensures keeps { Keeps R.Read (taken_bytes self.old) (taken_bytes self.new) decoder.old decoder.new }
        ensures title { IfOk result (λ header. IsTitle (taken_bytes self.new) header) }
        ensures taken { IfOk result (λ header. IsTakenTitle spelling (taken_bytes self.new) header) }
        ensures passes { waiting_of decoder.old ≡ None
            → IfOk result (λ _. ReadsPast R.Read decoder.old (taken_bytes self.new) decoder.new) }
        ensures row { IfErr result (λ error. IsTitleRow spelling error (taken_bytes self.new)) }
        ensures left { IfErr result (λ error. IsSteadyNoneWaiting R.Read decoder.old
            → IfSome (view R.Read decoder.new) (LeavesBehind error (taken_bytes self.new))) }
        ensures waits { IsWaiting decoder.old → (result ≡ Err Waiting) × (taken_bytes self.new ≡ [])
            × RefusesRead decoder.old decoder.new }
        ensures pulls { IsInMode spelling decoder.old → place ≡ offset_of decoder.old
            → PullsRow R.Read decoder.old result decoder.new }
        ensures moves { ReadsBy R.Read result decoder.old decoder.new }
    {
        self.read(decoder, 1)?;
        self.read_affix(decoder, affix_len(self.bytes()[0]))?;
        match title_header(self.bytes(), spelling) {
            Some(header) => Ok(header),
            None => Err(Error::Syntax(place)),
        }
    }

    /// Reads bytes of a text that has `left` bytes left, up to the end of a character. Returns whether the bytes are
    /// whole characters.
    pub(crate) fn read_text<R: Read>(
        &mut self,
        decoder: &mut Decoder<R>,
        left: usize,
    ) -> Result<bool, Error<R::Error>>
        requires none { taken_bytes self.old ≡ [] }
        ensures keeps { Keeps R.Read (taken_bytes self.old) (taken_bytes self.new) decoder.old decoder.new }
        ensures most { length (taken_bytes self.new) ≤ left }
        ensures some { IfOk result (λ _. 0 < left → 0 < length (taken_bytes self.new)) }
        ensures row { 0 < left → IfErr result (λ error. IsPartRow Text left error (taken_bytes self.new)) }
        ensures left { 0 < left → IfErr result (λ error. IsSteadyNoneWaiting R.Read decoder.old
            → IfSome (view R.Read decoder.new) (LeavesBehind error (taken_bytes self.new))) }
        ensures sound { IfOk result (λ whole. IsSound left (taken_bytes self.new) whole) }
        ensures full { IfOk result (λ _. IsFullPart Text left (taken_bytes self.new)) }
        ensures reads { 0 < left → waiting_of decoder.old ≡ None
            → ReadsTextPart R.Read left (taken_bytes self.new) decoder.old result decoder.new }
        ensures moves { ReadsBy R.Read result decoder.old decoder.new }
    {
        self.read(decoder, left.min(MOST_TEXT))?;
        // There is room: after the first byte of a character at most three more are due.
        'more: while self.len() < left && is_cut(self.bytes()) {
            self.read(decoder, 1)?;
        }
        Ok(is_text(self.bytes()))
    }
}

/// Returns how many bytes follow a first byte (RFC 7049, 2.1).
fn affix_len(first: u8) -> usize
    ensures few { result ≤ longest_affix }
    ensures value { result ≡ affix_len (first % 32) }
{
    row_of(first).affix.len()
}
