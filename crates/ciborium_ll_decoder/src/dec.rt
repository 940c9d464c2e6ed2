//! The decoder.

ghost use Rattle.ciborium_ll_grammar.specs.declared.spelling.Spelling.TheVariants.{Shortest};
ghost use Rattle.std.specs.Prelude.{◌≡◌, ◌+◌, ◌≤◌, ◌<◌, ◌^◌};
ghost use Rattle.ciborium_ll_grammar.specs.Title.{waiting_len};

use ciborium_ll_grammar::hdr::table::{Affix, row_of, title_lens};
use ciborium_ll_grammar::hdr::{Header, Minor, Title, shortest};
use ciborium_ll_grammar::limits::LONGEST_TITLE;
use ciborium_ll_grammar::spelling::Spelling;
use ciborium_ll_grammar::titles::{
    has_number, is_longer, numbered_header, numbered_minor, open_title,
};
use ciborium_ll_io::io::{Failures, Read};

/// Why a decoder failed.
#[derive(Debug, Drop)]
pub enum Error<T> {
    /// The reader failed with this error.
    Io(T),
    /// The bytes at this offset are no CBOR that may stand there.
    ///
    /// It is the offset of the title at fault, or of the title of a body that is no text. The title of a whole string,
    /// not of a segment, counts as its shortest title there. For example, `78 01 ff` has the length 1 in two bytes, and
    /// its place is 1: the shortest title `61` would begin there.
    Syntax(usize),
    /// The offset would pass `usize::MAX`, or a string has more opens within one another than a `usize` counts.
    TooLong,
    /// A header waits, so the decoder gives no bytes as a reader.
    Waiting,
}

impl<T> From<T> for Error<T> {
    ghost use Rattle.ciborium_ll_decoder.specs.declared.dec.Error.TheVariants.{Io};

    ghost from_gives = { λ fault error. error ≡ Io fault };

    fn from(fault: T) -> Error<T> {
        Error::Io(fault)
    }
}

/// Reads headers, and counts the bytes that it consumed. A header that a caller pushes back waits for the next pull.
///
/// A call that reads moves the decoder on, whatever it answers: the offset never falls, a steady reader stays steady,
/// and a strict decoder stays strict. `Io` comes only if the reader failed in that call, once.
#[derive(Drop)]
pub struct Decoder<R> {
    pub(crate) reader: R,
    pub(crate) offset: usize,
    pub(crate) waiting: Option<Header>,
    spelling: Spelling,
    refusals: Failures,
    ghost covered: { offset + waiting_len waiting < 2 ^ 64 },
}

impl<R: Read> From<R> for Decoder<R> {
    ghost use Rattle.ciborium_ll_decoder.specs.Decoding.{IsFresh};

    ghost from_gives = { λ reader decoder. IsFresh reader 0 decoder };

    /// Makes a decoder at the offset 0.
    fn from(reader: R) -> Decoder<R> {
        Decoder::with_spelling(reader, Spelling::Any, 0)
    }
}

impl<R: Read> Decoder<R> {
    ghost use Rattle.ciborium_ll_decoder.specs.declared.dec.Decoder.{Decoder as AnyDecoder};
    ghost use Rattle.std.specs.Prelude.{replicate, ℕ, ◌<◌, ◌^◌, ◌%◌, IsTrue, true, ◌↔◌, None, Some};
    ghost use Rattle.std.specs.Prelude.{Err, IfOk, MatchResult, IsErrOf, ◌/◌, ◌&&◌, if◌then◌else◌};
    ghost use Rattle.std.specs.Prelude.{length, take, IfNone, IfSome, ◌∷◌};
    ghost use Rattle.ciborium_ll_grammar.specs.Title.{affix_len, title_len, IsTitle};
    ghost use Rattle.ciborium_ll_grammar.specs.Parts.{IsMinor, IsParts, minor_code, minor_number, refused_when_strict};
    ghost use Rattle.ciborium_ll_grammar.specs.Parts.{title_bytes};
    ghost use Rattle.ciborium_ll_grammar.specs.declared.hdr.Minor.{Minor as AnyMinor};
    ghost use Rattle.ciborium_ll_grammar.specs.Spellings.{is_shortest};
    ghost use Rattle.ciborium_ll_grammar.specs.TitleRows.{IsAffix};
    ghost use Rattle.ciborium_ll_decoder.specs.Decoding.{HoldsAffix, IsFresh, IsFreshAs, IsWaiting, MovesOn};
    ghost use Rattle.ciborium_ll_decoder.specs.Decoding.{DecoderPull, DecoderPullAnswer, PullsTitle, ReadsAll, ReadsBytes};
    ghost use Rattle.ciborium_ll_decoder.specs.Decoding.{ReadsMinor, TakesBack, offset_of};
    ghost use Rattle.ciborium_ll_decoder.specs.Decoding.{reader_of, refusals_of, spelling_of, waiting_of};

    /// Makes a decoder that counts from this offset, in bytes, and isn't strict.
    pub fn with_offset(reader: R, offset: usize) -> Decoder<R>
        ensures { IsFresh reader offset result }
    {
        Decoder::with_spelling(reader, Spelling::Any, offset)
    }

    /// Makes a strict decoder at the offset 0.
    ///
    /// It takes each header by its shortest title alone (RFC 7049, 3.9), no simple value from 24 to 31 (2.3), and no
    /// string of indefinite length within another (2.2.2).
    ///
    /// [`Decoder::pull`] consumes any other title, and answers `Syntax` with the offset of its start. A string does so
    /// for an open within an open. A header that was pushed back is given as it is.
    pub fn strict(reader: R) -> Decoder<R>
        ensures { IsFreshAs Shortest reader 0 result }
    {
        Decoder::with_spelling(reader, Spelling::Shortest, 0)
    }

    /// Makes a decoder that takes titles of this spelling, and counts from this offset, in bytes.
    ///
    /// With `Shortest` it is that of [`Decoder::strict`]: at the offset 100 it answers `Syntax(100)` for `18 01`.
    pub fn with_spelling(reader: R, spelling: Spelling, offset: usize) -> Decoder<R>
        ensures { IsFreshAs spelling reader offset result }
    {
        Decoder {
            reader,
            offset,
            waiting: None,
            spelling,
            refusals: Failures::new(),
        }
    }

    /// Returns the reader, and gives up a waiting header.
    pub fn into_inner(self) -> R
        ensures { result ≡ reader_of self }
    {
        self.reader
    }

    /// Returns the offset at the start plus the bytes that were consumed. A waiting header is not consumed.
    pub fn offset(&mut self) -> usize
        ensures value { result ≡ offset_of self.old }
        ensures same { self.new ≡ self.old }
    {
        self.offset
    }

    /// Returns whether a header waits.
    pub fn is_waiting(&self) -> bool
        ensures { IsTrue result ↔ IsWaiting self.now }
    {
        self.waiting.is_some()
    }

    /// Returns `Shortest` if the decoder is strict, and otherwise `Any`.
    pub fn spelling(&self) -> Spelling
        ensures { result ≡ spelling_of self.now }
    {
        self.spelling
    }

    /// Takes the waiting header, or otherwise reads one title (RFC 7049, 2.1 to 2.3).
    ///
    /// `Ok` means that exactly a title of that header is consumed.
    ///
    /// # Errors
    ///
    /// - `Syntax(offset)`: the byte there, one of 27 that begin no title, is consumed. A strict decoder refuses more
    ///   titles, as [`Decoder::strict`] says.
    /// - `Io`: the reader failed. If it is steady, the bytes end before the title does.
    /// - `TooLong`: the offset can't take the next read.
    ///
    /// `Io` and `TooLong` consume at most the first byte, over a steady reader exactly if it was read.
    ///
    /// # Examples
    ///
    /// ```rust
    /// let sum = match decoder.pull()? {
    ///     Header::Positive(number) => total.checked_add_unsigned(number),
    ///     Header::Negative(number) => less(total, number),
    ///     Header::Break => return Ok(None),
    ///     _ => return Err(SumError::NoNumber(place)),
    /// };
    /// ```
    #[inline(always)]
    pub fn pull(&mut self) -> Result<Header, Error<R::Error>>
        ensures { DecoderPull R.Read self.old result self.new }
    {
        // No call here takes `&mut self`, so the decoder's fields stay in registers in a loop over a slice.
        if let Some(header) = self.waiting {
            self.waiting = None;
            self.offset += header.title_len();
            return Ok(header);
        }
        let start = self.offset;
        if let Some(begun) = self.at_hand() {
            return self.header_of(start, begun);
        }
        let (header, _title) = self.title()?;
        Ok(header)
    }

    /// Returns the next byte and the eight bytes after it, if the reader has nine bytes at hand. Of these it reads the
    /// title.
    #[inline(always)]
    fn at_hand(&mut self) -> Option<(u8, [u8; 8])>
        requires none_waits { waiting_of self.old ≡ None }
        ensures read { IfSome result (λ found.
            ReadsAll R.Read self.old (found.0 ∷ take (affix_len (found.0 % 32)) found.1) self.new) }
        ensures none { IfNone result (self.new ≡ self.old) }
        ensures moves_on { MovesOn R.Read self.old self.new }
    {
        if self.offset > usize::MAX - LONGEST_TITLE {
            return None;
        }
        let begun = self.reader.read_at_hand(title_lens())?;
        self.offset += usize::from(title_lens()[usize::from(begun.0 % 32)]);
        Some(begun)
    }

    /// Returns the header of the title that was read from the offset `start` on. Its bytes are at the beginning of the
    /// nine.
    #[inline(always)]
    fn header_of(&self, start: usize, begun: (u8, [u8; 8])) -> Result<Header, Error<R::Error>>
        ensures header { (old : AnyDecoder R) → offset_of old ≡ start
            → ReadsAll R.Read old (begun.0 ∷ take (affix_len (begun.0 % 32)) begun.1) self.now
            → DecoderPullAnswer R.Read old result self.now }
        ensures covered { IfOk result (λ header.
            title_len header ≤ length (begun.0 ∷ take (affix_len (begun.0 % 32)) begun.1)) }
    {
        let first = begun.0;
        if !has_number(first) {
            return match open_title(first) {
                Some(header) => Ok(header),
                None => Err(Error::Syntax(start)),
            };
        }
        let (minor, number) = numbered_minor(first, begun.1);
        if self.refuses_number(first, number) {
            Err(Error::Syntax(start))
        } else {
            Ok(numbered_header(first, minor, number))
        }
    }

    /// Reads the next title, and returns the header that it means and its parts.
    #[inline(always)]
    pub(crate) fn title(&mut self) -> Result<(Header, Title), Error<R::Error>>
        requires none_waits { waiting_of self.old ≡ None }
        ensures header { MatchResult result (λ pulled. PullsTitle R.Read self.old pulled.0 self.new)
            (λ error. DecoderPullAnswer R.Read self.old (Err error) self.new) }
        ensures parts { IfOk result (λ pulled. IsParts pulled.1) }
        ensures title { IfOk result (λ pulled. IsTitle (title_bytes pulled.1) pulled.0) }
        ensures covered { IfOk result (λ pulled. title_len pulled.0 ≤ offset_of self.new) }
        ensures full { offset_of self.old ≡ usize.MAX → IsErrOf result Error.TooLong }
        ensures moves_on { MovesOn R.Read self.old self.new }
    {
        let start = self.offset;
        let mut first = [0; 1];
        self.read(&mut first)?;
        let row = row_of(first[0]);
        let Some(minor) = self.minor(row.affix, first[0])? else {
            return Err(Error::Syntax(start));
        };
        let title = Title {
            major: first[0] / 32,
            minor,
        };
        match title.header(row.kind) {
            Some(header) => Ok((header, title)),
            None => Err(Error::Syntax(start)),
        }
    }

    /// Takes the header that waits, and returns it with its shortest title. This call is kept apart from the path of a
    /// title that is read.
    #[cold]
    #[inline(never)]
    pub(crate) fn pull_waiting(&mut self, header: Header) -> (Header, Title)
        requires waits { waiting_of self.old ≡ Some header }
        ensures header { PullsTitle R.Read self.old result.0 self.new }
        ensures parts { IsParts result.1 }
        ensures title { IsTitle (title_bytes result.1) result.0 }
        ensures moves_on { MovesOn R.Read self.old self.new }
    {
        self.waiting = None;
        self.offset += header.title_len();
        (header, shortest(header))
    }

    /// Takes a header back for the next [`Decoder::pull`]. The offset falls by [`Header::title_len`].
    ///
    /// Both conditions hold after the pull that gave the header. [`Decoder::is_waiting`] and [`Decoder::offset`] test
    /// them.
    ///
    /// # Examples
    ///
    /// ```rust
    /// let header = decoder.pull()?;
    /// decoder.push(header);
    /// Ok(header)
    /// ```
    pub fn push(&mut self, item: Header)
        requires none_waits { waiting_of self.old ≡ None }
        requires covered { title_len item ≤ offset_of self.old }
        ensures { TakesBack R.Read self.old item self.new }
    {
        self.offset -= item.title_len();
        self.waiting = Some(item);
    }

    /// Reads the affix that a first byte announces. The answer is `None` for a reserved minor, and for a number that a
    /// strict decoder refuses there.
    #[inline(always)]
    fn minor(&mut self, affix: Affix, first: u8) -> Result<Option<Minor>, Error<R::Error>>
        requires affix { IsAffix affix (first % 32) }
        requires none_waits { waiting_of self.old ≡ None }
        ensures minor { ReadsMinor R.Read first self.old result self.new }
        ensures moves_on { MovesOn R.Read self.old self.new }
    {
        let minor = match affix {
            Affix::Within => {
                self.read(&mut [])?;
                return Ok(Some(Minor::Small(u64::from(first % 32))));
            }
            Affix::One => self.one()?,
            Affix::Two => self.two()?,
            Affix::Four => self.four()?,
            Affix::Eight => self.eight()?,
            Affix::Open => {
                self.read(&mut [])?;
                return Ok(Some(Minor::Open));
            }
            Affix::Reserved => return Ok(None),
        };
        Ok(self.taken(minor, first))
    }

    /// Reads an affix of one byte, and returns its minor.
    #[inline(always)]
    fn one(&mut self) -> Result<Minor, Error<R::Error>>
        requires { waiting_of self.old ≡ None }
        ensures minor { (first : ℕ) → first % 32 ≡ 24 → MatchResult result
            (λ minor. HoldsAffix R.Read first self.old minor self.new)
            (λ error. ReadsMinor R.Read first self.old (Err error) self.new) }
        ensures moves_on { MovesOn R.Read self.old self.new }
    {
        let bytes = self.affix()?;
        Ok(Minor::One(u64::from(u8::from_be_bytes(bytes))))
    }

    /// Reads an affix of two bytes, and returns its minor.
    #[inline(always)]
    fn two(&mut self) -> Result<Minor, Error<R::Error>>
        requires { waiting_of self.old ≡ None }
        ensures minor { (first : ℕ) → first % 32 ≡ 25 → MatchResult result
            (λ minor. HoldsAffix R.Read first self.old minor self.new)
            (λ error. ReadsMinor R.Read first self.old (Err error) self.new) }
        ensures moves_on { MovesOn R.Read self.old self.new }
    {
        let bytes = self.affix()?;
        Ok(Minor::Two(u64::from(u16::from_be_bytes(bytes))))
    }

    /// Reads an affix of four bytes, and returns its minor.
    #[inline(always)]
    fn four(&mut self) -> Result<Minor, Error<R::Error>>
        requires { waiting_of self.old ≡ None }
        ensures minor { (first : ℕ) → first % 32 ≡ 26 → MatchResult result
            (λ minor. HoldsAffix R.Read first self.old minor self.new)
            (λ error. ReadsMinor R.Read first self.old (Err error) self.new) }
        ensures moves_on { MovesOn R.Read self.old self.new }
    {
        let bytes = self.affix()?;
        Ok(Minor::Four(u64::from(u32::from_be_bytes(bytes))))
    }

    /// Reads an affix of eight bytes, and returns its minor.
    #[inline(always)]
    fn eight(&mut self) -> Result<Minor, Error<R::Error>>
        requires { waiting_of self.old ≡ None }
        ensures minor { (first : ℕ) → first % 32 ≡ 27 → MatchResult result
            (λ minor. HoldsAffix R.Read first self.old minor self.new)
            (λ error. ReadsMinor R.Read first self.old (Err error) self.new) }
        ensures moves_on { MovesOn R.Read self.old self.new }
    {
        let bytes = self.affix()?;
        Ok(Minor::Eight(u64::from_be_bytes(bytes)))
    }

    /// Returns the minor, or `None` if a strict decoder refuses it after the first byte.
    #[inline(always)]
    fn taken(&self, minor: Minor, first: u8) -> Option<Minor>
        ensures taken { result ≡ (if is_shortest (spelling_of self.now) && refused_when_strict (first / 32) minor
            then None else Some minor) }
    {
        if self.refuses(minor, first) {
            None
        } else {
            Some(minor)
        }
    }

    /// Tells if the decoder is strict and refuses this minor after the first byte.
    #[inline(always)]
    fn refuses(&self, minor: Minor, first: u8) -> bool
        ensures { result ≡ (is_shortest (spelling_of self.now) && refused_when_strict (first / 32) minor) }
    {
        let is_strict = self.spelling.is_shortest();
        is_strict && minor.is_refused_when_strict(first / 32)
    }

    /// Tells if the decoder is strict and refuses a title with this first byte and number. No branch depends on the
    /// width.
    #[inline(always)]
    fn refuses_number(&self, first: u8, number: u64) -> bool
        ensures { (minor : AnyMinor) → IsMinor minor → minor_code minor ≡ first % 32 → minor_number minor ≡ Some number
            → result ≡ (is_shortest (spelling_of self.now) && refused_when_strict (first / 32) minor) }
    {
        match self.spelling {
            Spelling::Shortest => is_longer(first, number),
            Spelling::Any => false,
        }
    }

    /// Reads an affix of `N` bytes. Each affix has its own array here, which is cleared only if the affix is read.
    #[inline(always)]
    fn affix<const N: usize>(&mut self) -> Result<[u8; N], Error<R::Error>>
        requires { waiting_of self.old ≡ None }
        ensures bytes { MatchResult result (λ bytes. ReadsAll R.Read self.old bytes self.new)
            (λ error. ReadsBytes R.Read self.old (Err error) (replicate N 0) self.new) }
        ensures moves_on { MovesOn R.Read self.old self.new }
    {
        let mut bytes = [0; N];
        self.read(&mut bytes)?;
        Ok(bytes)
    }

    /// Reads bytes while no header waits.
    #[inline(always)]
    pub(crate) fn read(&mut self, data: &mut [u8]) -> Result<(), Error<R::Error>>
        requires { waiting_of self.old ≡ None }
        ensures bytes { ReadsBytes R.Read self.old result «data».new self.new }
        ensures moves_on { MovesOn R.Read self.old self.new }
    {
        if data.len() > usize::MAX - self.offset {
            return Err(Error::TooLong);
        }
        self.reader.read_exact(data)?;
        self.offset += data.len();
        Ok(())
    }
}

impl<R: Read> Read for Decoder<R> {
    ghost use Rattle.std.specs.Prelude.{false, IsTrue, OnOk, OnErr, length};
    ghost use Rattle.std.specs.Io.KnownBytes.{Consumes};
    ghost use Rattle.std.proofs.Common.{rules};
    ghost use Rattle.ciborium_ll_decoder.specs.Decoding.{Reads, reader_of, refusals_of, told_unless_waiting};
    ghost use Rattle.ciborium_ll_decoder.specs.Decoding.{waiting_of};

    type Error = Error<R::Error>;

    ghost ahead = { λ d. told_unless_waiting (waiting_of d) (R.ahead (reader_of d)) };

    ghost steady = { λ _. false };

    ghost failures = { λ d. refusals_of d + R.failures (reader_of d) };

    ghost steady_is_told = { λ _ h. Prim.search rules };

    /// Reads the bytes of a body after its header.
    ///
    /// # Errors
    ///
    /// No error moves the offset.
    ///
    /// - `Waiting`: a header waits. It comes before the other errors.
    /// - `TooLong`: the offset would pass `usize::MAX`.
    /// - `Io`: the reader failed.
    fn read_exact(&mut self, data: &mut [u8]) -> Result<(), Error<R::Error>>
        // The trait's.
        ensures bytes { OnOk result (Consumes (told_unless_waiting (waiting_of self.old) (R.ahead (reader_of self.old)))
            (told_unless_waiting (waiting_of self.new) (R.ahead (reader_of self.new))) «data».new) }
        ensures ok { OnOk result (refusals_of self.new + R.failures (reader_of self.new)
            ≡ refusals_of self.old + R.failures (reader_of self.old)) }
        ensures err { OnErr result (refusals_of self.new + R.failures (reader_of self.new)
            ≡ refusals_of self.old + R.failures (reader_of self.old) + 1) }

        // The decoder's own.
        ensures reads { Reads R.Read self.old result «data».new self.new }
    {
        let outcome = if self.waiting.is_some() {
            Err(Error::Waiting)
        } else {
            self.read(data)
        };
        if matches!(outcome, Err(Error::Waiting | Error::TooLong)) {
            self.refusals.raise();
        }
        outcome
    }
}
