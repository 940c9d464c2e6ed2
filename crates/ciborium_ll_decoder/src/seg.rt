//! Strings, lent piece by piece (RFC 7049, 2.2.2).

ghost use Rattle.std.specs.Prelude.{◌≡◌, ◌≤◌, ◌<◌, ◌+◌, ◌^◌, ◌⊎◌, length, take, drop, true, IfOk, IfSome, IfNone, []};
ghost use Rattle.std.specs.Prelude.{None, Some, IsTrue};
ghost use Rattle.ciborium_ll_text.specs.States.{after};
ghost use Rattle.ciborium_ll_text.specs.declared.state.State.TheVariants.{Between};
ghost use Rattle.ciborium_ll_grammar.specs.declared.spelling.Spelling.TheVariants.{Shortest};
ghost use Rattle.ciborium_ll_grammar.specs.declared.hdr.Header.TheVariants.{Break};
ghost use Rattle.ciborium_ll_grammar.specs.Strings.{Kind, kind_header, Bytes as byte_strings, IsMisplaced};
ghost use Rattle.ciborium_ll_decoder.specs.Kept.{kept_bytes};
ghost use Rattle.ciborium_ll_decoder.specs.Progress.{opens_of};
ghost use Rattle.ciborium_ll_text.specs.Text.{IsStuck};
ghost use Rattle.ciborium_ll_grammar.specs.declared.limits.TheConstants.{MOST_KEPT};

mod chunked;
mod strings;

pub use self::chunked::{Chunked, finish_body};
pub use self::strings::open_segments;
use crate::dec::{Decoder, Error};
use ciborium_ll_grammar::hdr::Header;
use ciborium_ll_grammar::spelling::Spelling;
use ciborium_ll_io::io::Read;
use ciborium_ll_text::state::{State, text_front, text_of};
use std::marker::PhantomData;

/// A kind of string: it tells which headers begin one.
pub trait Parser: Sized {
    ghost kind: { Kind };

    /// Returns the length in a header of the kind, or `Some(None)` for the indefinite form.
    fn length(header: Header) -> Option<Option<usize>>
        ensures of_kind { IfSome result (λ length. header ≡ kind_header kind length) }
        ensures other { IfNone result ((header ≡ Break) ⊎ IsMisplaced kind header) };

    /// Returns the header of the kind with this length, or of the indefinite form.
    fn header(length: Option<usize>) -> Header
        ensures { result ≡ kind_header kind length };
}

/// The kind of byte strings.
#[derive(Default, Drop)]
pub struct Bytes(());

impl Parser for Bytes {
    ghost kind = { byte_strings };

    fn length(header: Header) -> Option<Option<usize>> {
        match header {
            Header::Bytes(length) => Some(length),
            _ => None,
        }
    }

    fn header(length: Option<usize>) -> Header {
        Header::Bytes(length)
    }
}

/// The kind of text strings.
#[derive(Default, Drop)]
pub struct Text(());

impl Parser for Text {
    ghost use Rattle.ciborium_ll_grammar.specs.Strings.{Text as text_strings};

    ghost kind = { text_strings };

    fn length(header: Header) -> Option<Option<usize>> {
        match header {
            Header::Text(length) => Some(length),
            _ => None,
        }
    }

    fn header(length: Option<usize>) -> Header {
        Header::Text(length)
    }
}

/// The body of the next segment.
#[derive(Clone, Copy, Debug, PartialEq, Eq)]
pub struct Body {
    /// How many bytes the body has.
    pub length: usize,
    /// The offset before the title was pulled. The error of a damaged body names it.
    pub place: usize,
}

/// How far the titles of a string were read.
#[derive(Clone, Copy)]
pub(crate) enum Progress {
    /// A title is due, and this many opens aren't closed.
    Open(usize),
    /// The string has ended.
    Ended,
    /// The bytes at this offset are no part of a string.
    Damaged(usize),
    /// There are more opens than can be counted.
    TooDeep,
}

/// The segments of a string: its one body, or the bodies between an open and its break, to any depth.
///
/// Its calls never answer `Waiting`.
#[derive(Drop)]
pub struct Segments<'r, R, P: Parser> {
    pub(crate) decoder: &'r mut Decoder<R>,
    progress: Progress,
    spelling: Spelling,
    parser: PhantomData<P>,
    ghost shallow: { spelling ≡ Shortest → opens_of progress ≤ 1 },
}

impl<'r, R: Read, P: Parser> Segments<'r, R, P> {
    ghost use Rattle.std.specs.Prelude.{OnOk};
    ghost use Rattle.ciborium_ll_decoder.specs.declared.seg.Progress.TheVariants.{Open};
    ghost use Rattle.ciborium_ll_decoder.specs.declared.dec.Decoder.{Decoder as AnyDecoder};
    ghost use Rattle.ciborium_ll_decoder.specs.Decoding.{MovesOn, PullsTitle, offset_of, spelling_of, waiting_of};
    ghost use Rattle.std.specs.Borrow.{sem};
    ghost use Rattle.ciborium_ll_decoder.specs.Segments.{GivesAgain, IsAtBeginning, StepsOver};
    ghost use Rattle.ciborium_ll_decoder.specs.Segments.{progress_of, string_decoder, string_reference};
    ghost use Rattle.ciborium_ll_decoder.specs.Segments.{string_spelling};
    ghost use Rattle.ciborium_ll_decoder.specs.Chunks.{IsWhole, SegmentsPull, segment_decoder};
    ghost use Rattle.ciborium_ll_decoder.specs.Lend.{SegmentsAdvance, lends_segment, pulls_segment};

    /// Makes the segments of the string whose header waits.
    pub(crate) fn new(decoder: &'r mut Decoder<R>) -> Segments<'r, R, P>
        ensures lent { string_decoder result ≡ decoder.old }
        ensures fresh { IsAtBeginning result }
        ensures mode { string_spelling result ≡ spelling_of decoder.old }
        ensures same_reference { string_reference result ≡ decoder.entry.ghost_name }
    {
        let spelling = decoder.spelling();
        Segments {
            decoder,
            progress: Progress::Open(0),
            spelling,
            parser: PhantomData,
        }
    }

    /// Moves to the next segment, over opens and inner breaks, and returns its [`Body`].
    ///
    /// `None` means that the string has ended. Later calls answer `None` again, and read nothing.
    ///
    /// # Errors
    ///
    /// - `Syntax(offset)`, which stays: the bytes there are no title, or a title that may not stand there.
    /// - `Io`: the reader failed, and the next call reads on.
    /// - `TooLong`: the offset can't take the next read, and the next call reads on. If an open can't be counted, the
    ///   error stays.
    #[inline(always)]
    pub fn advance(&mut self) -> Result<Option<Body>, Error<R::Error>>
        ensures { SegmentsAdvance R.Read P.kind self.old result self.new }
    {
        'titles: while let Progress::Open(opens) = self.progress {
            if let Some(body) = self.step(opens)? {
                return Ok(Some(body));
            }
        }
        match self.progress {
            Progress::Damaged(place) => Err(Error::Syntax(place)),
            Progress::TooDeep => Err(Error::TooLong),
            Progress::Open(_) | Progress::Ended => Ok(None),
        }
    }

    /// Makes a segment of the body that [`Segments::advance`] gave last. Another body makes a segment of its own
    /// length.
    ///
    /// After the segment is gone, the string has the decoder that the segment left.
    pub fn segment(&mut self, body: Body) -> Segment<'_, R, P>
        requires { waiting_of (string_decoder self.old) ≡ None }
        ensures* lends { sem 𝓛 (lends_segment R.row P.row self.entry result) }
        ensures lent { segment_decoder result ≡ string_decoder self.old }
        ensures whole { IsWhole body result }
    {
        Segment {
            decoder: self.decoder,
            unread: body.length,
            place: body.place,
            kept: Kept::Nothing,
            state: State::Between,
            damaged: false,
            parser: PhantomData,
        }
    }

    /// Moves to the next segment as [`Segments::advance`] does, with its answers, and returns the whole segment.
    ///
    /// If a segment is dropped early, the next call reads on in its body. A caller that has to know the decoder after
    /// the loan calls [`Segments::finish`] or [`Segments::copy`].
    ///
    /// # Examples
    ///
    /// ```rust
    /// let mut segments = decoder.text(len);
    /// match segments.pull()? {
    ///     Some(mut segment) => segment.pull(buffer),
    ///     None => Ok(None),
    /// }
    /// ```
    pub fn pull(&mut self) -> Result<Option<Segment<'_, R, P>>, Error<R::Error>>
        ensures* lends { sem 𝓛 (pulls_segment R.row P.row R.Read self.entry result) }
        ensures pulls { SegmentsPull R.Read P.kind (string_spelling self.old) (progress_of self.old)
            (string_decoder self.old) result }
        ensures stays { GivesAgain (progress_of self.old) result }
    {
        match self.advance() {
            Ok(Some(body)) => Ok(Some(self.segment(body))),
            Ok(None) => Ok(None),
            Err(error) => Err(error),
        }
    }

    /// Pulls one title, with this many opens that aren't closed.
    #[inline(always)]
    fn step(&mut self, opens: usize) -> Result<Option<Body>, Error<R::Error>>
        requires { progress_of self.old ≡ Open opens }
        ensures steps { StepsOver R.Read P.kind (string_spelling self.old) opens (string_decoder self.old) result
            (progress_of self.new) (string_decoder self.new) }
        ensures goes_on { OnOk result (offset_of (string_decoder self.old) < offset_of (string_decoder self.new)) }
        ensures opens { opens_of (progress_of self.new) + offset_of (string_decoder self.old)
            ≤ opens + offset_of (string_decoder self.new) }
        ensures mode { string_spelling self.new ≡ string_spelling self.old }
        ensures same_reference { string_reference self.new ≡ string_reference self.old }
        ensures moves_on { MovesOn R.Read (string_decoder self.old) (string_decoder self.new) }
    {
        let place = self.decoder.offset();
        let header = match self.decoder.pull() {
            Ok(header) => header,
            Err(error) => {
                if let Error::Syntax(refused) = &error {
                    self.progress = Progress::Damaged(*refused);
                }
                return Err(error);
            }
        };
        let (progress, found) = Self::found_by(header, place, opens, self.spelling);
        self.progress = progress;
        found
    }

    /// Takes the header of a title at this place, for a string with this many opens that aren't closed. Returns how far
    /// the string then is, and the body that was found.
    #[inline(always)]
    fn found_by(
        header: Header,
        place: usize,
        opens: usize,
        spelling: Spelling,
    ) -> (Progress, Result<Option<Body>, Error<R::Error>>)
        ensures steps { (old new : AnyDecoder R) → PullsTitle R.Read old header new → place ≡ offset_of old
            → StepsOver R.Read P.kind spelling opens old result.1 result.0 new }
        ensures opens { opens_of result.0 ≤ opens + 1 }
        ensures shallow { spelling ≡ Shortest → opens ≤ 1 → opens_of result.0 ≤ 1 }
    {
        match P::length(header) {
            Some(Some(length)) => {
                let progress = if opens == 0 {
                    Progress::Ended
                } else {
                    Progress::Open(opens)
                };
                (progress, Ok(Some(Body { length, place })))
            }
            Some(None) if opens == usize::MAX => (Progress::TooDeep, Err(Error::TooLong)),
            Some(None) if opens > 0 && spelling.is_shortest() => (
                Progress::Damaged(place),
                Err(Error::Syntax(place)),
            ),
            Some(None) => (Progress::Open(opens + 1), Ok(None)),
            None if header == Header::Break && opens > 0 => {
                let progress = if opens == 1 {
                    Progress::Ended
                } else {
                    Progress::Open(opens - 1)
                };
                (progress, Ok(None))
            }
            None => (Progress::Damaged(place), Err(Error::Syntax(place))),
        }
    }
}

/// Up to three bytes of a text that may begin a character.
#[derive(Clone, Copy)]
pub(crate) enum Kept {
    Nothing,
    One(u8),
    Two(u8, u8),
    Three(u8, u8, u8),
}

impl Kept {
    ghost use Rattle.ciborium_ll_decoder.specs.Kept.{kept_bytes};

    /// Returns how many bytes are kept.
    fn len(self) -> usize
        ensures { result ≡ length (kept_bytes self) }
    {
        match self {
            Kept::Nothing => 0,
            Kept::One(..) => 1,
            Kept::Two(..) => 2,
            Kept::Three(..) => 3,
        }
    }

    /// Writes the kept bytes to the beginning of a slice.
    fn put(self, buffer: &mut [u8])
        requires { length (kept_bytes self) ≤ length buffer.old }
        ensures { take (length (kept_bytes self)) buffer.new ≡ kept_bytes self }
    {
        match self {
            Kept::Nothing => {}
            Kept::One(first) => buffer[0] = first,
            Kept::Two(first, second) => {
                buffer[0] = first;
                buffer[1] = second;
            }
            Kept::Three(first, second, third) => {
                buffer[0] = first;
                buffer[1] = second;
                buffer[2] = third;
            }
        }
    }

    /// Keeps bytes, if they are at most three.
    fn keep(bytes: &[u8]) -> Option<Kept>
        ensures some { IfSome result (λ kept. kept_bytes kept ≡ bytes.now) }
        ensures none { IfNone result (MOST_KEPT < length bytes.now) }
    {
        match bytes {
            [] => Some(Kept::Nothing),
            [first] => Some(Kept::One(*first)),
            [first, second] => Some(Kept::Two(*first, *second)),
            [first, second, third] => Some(Kept::Three(*first, *second, *third)),
            _ => None,
        }
    }
}

/// One segment of a string, which holds the decoder until it is dropped.
///
/// A segment of a text keeps up to three bytes that were read and may begin a character.
#[derive(Drop)]
pub struct Segment<'r, R, P: Parser> {
    decoder: &'r mut Decoder<R>,
    unread: usize,
    place: usize,
    kept: Kept,
    state: State,
    damaged: bool,
    parser: PhantomData<P>,
    ghost counted: { unread + length (kept_bytes kept) < 2 ^ 64 },
    ghost none_waits: { decoder.now.waiting ≡ None },
    ghost stuck: { IsStuck (kept_bytes kept) },
    ghost told: { state ≡ after Between (kept_bytes kept) },
    ghost text_alone: { P.kind ≡ byte_strings → kept_bytes kept ≡ [] },
}

impl<'r, R: Read, P: Parser> Segment<'r, R, P> {
    ghost use Rattle.ciborium_ll_decoder.specs.Chunks.{IsWhole, left_of, segment_decoder, segment_reference};
    ghost use Rattle.ciborium_ll_decoder.specs.Decoding.{waiting_of};

    /// Makes a segment of a body that is next in the decoder's reader.
    pub(crate) fn new(decoder: &'r mut Decoder<R>, body: Body) -> Segment<'r, R, P>
        requires { waiting_of decoder.old ≡ None }
        ensures lent { segment_decoder result ≡ decoder.old }
        ensures whole { IsWhole body result }
        ensures same_reference { segment_reference result ≡ decoder.entry.ghost_name }
    {
        Segment {
            decoder,
            unread: body.length,
            place: body.place,
            kept: Kept::Nothing,
            state: State::Between,
            damaged: false,
            parser: PhantomData,
        }
    }

    /// Returns how many bytes of the body were not handed out. After a damage only the unread bytes count.
    pub fn left(&self) -> usize
        ensures { result ≡ left_of self.now }
    {
        self.unread + self.kept.len()
    }
}

impl<'r, R: Read> Segment<'r, R, Bytes> {
    ghost use Rattle.ciborium_ll_decoder.specs.Chunks.{SegmentPull};

    /// Reads the next bytes of the body, as many as there are and the buffer holds.
    ///
    /// `None` means that the whole body was handed out. An empty buffer gives an empty chunk while bytes are left.
    ///
    /// # Errors
    ///
    /// Both errors leave the segment as it was. A whole segment never comes to a `Syntax`.
    ///
    /// - `Io`: the reader failed.
    /// - `TooLong`: the offset would pass `usize::MAX`.
    pub fn pull<'a>(&mut self, buffer: &'a mut [u8]) -> Result<Option<&'a [u8]>, Error<R::Error>>
        ensures { SegmentPull R.Read (length buffer.old) self.old result self.new }
    {
        if self.damaged {
            return Err(Error::Syntax(self.place));
        }
        if self.unread == 0 {
            return Ok(None);
        }
        let size = buffer.len().min(self.unread);
        let chunk = &mut buffer[..size];
        self.decoder.read(chunk)?;
        self.unread -= size;
        Ok(Some(chunk))
    }
}

impl<'r, R: Read> Segment<'r, R, Text> {
    ghost use Rattle.std.specs.Io.KnownBytes.{Consumes};
    ghost use Rattle.ciborium_ll_decoder.specs.Decoding.{MovesOn, ReadsBytes};
    ghost use Rattle.ciborium_ll_decoder.specs.Chunks.{FillsBehind, SegmentPull, KeepsSegment, SegmentPullAnswer, left_of, rest};
    ghost use Rattle.ciborium_ll_decoder.specs.Chunks.{segment_decoder, segment_reference};

    /// Reads the next bytes of the body, as many as there are and the buffer holds, and hands out their longest front
    /// that is text.
    ///
    /// `None` means that the whole body was handed out. A buffer of fewer than four bytes may give an empty chunk while
    /// bytes are left.
    ///
    /// # Errors
    ///
    /// `Io` and `TooLong` leave the segment as it was.
    ///
    /// - `Syntax`, with the segment's place, which stays: more than three bytes stand after the front, or some do at
    ///   the body's end. A chunk may come first.
    /// - `Io`: the reader failed.
    /// - `TooLong`: the offset would pass `usize::MAX`.
    pub fn pull<'a>(&mut self, buffer: &'a mut [u8]) -> Result<Option<&'a str>, Error<R::Error>>
        ensures { SegmentPull R.Read (length buffer.old) self.old result self.new }
    {
        match self.pull_front(buffer)? {
            Some(front) => Ok(Some(text_of(front))),
            None => Ok(None),
        }
    }

    /// Does what `pull` does, and hands out bytes. The state has read them as text already. So a caller that needs no
    /// `&str` is spared the second reading, which makes one.
    pub(crate) fn pull_front<'a>(
        &mut self,
        buffer: &'a mut [u8],
    ) -> Result<Option<&'a [u8]>, Error<R::Error>>
        ensures chunk { SegmentPullAnswer R.Read (length buffer.old) self.old result self.new }
        ensures left { IfOk result (λ chunk. IfSome chunk (λ c. length c.now + left_of self.new ≡ left_of self.old)) }
        ensures rest { IfOk result (λ chunk. IfSome chunk
            (λ c. Consumes (rest R.Read self.old) (rest R.Read self.new) c.now)) }
        ensures same_reference { segment_reference self.new ≡ segment_reference self.old }
        ensures moves_on { MovesOn R.Read (segment_decoder self.old) (segment_decoder self.new) }
    {
        if self.damaged {
            return Err(Error::Syntax(self.place));
        }
        if self.unread == 0 {
            return match self.kept {
                Kept::Nothing => Ok(None),
                _ => Err(self.damage()),
            };
        }
        let kept = self.kept.len();
        let size = buffer.len().min(self.unread + kept);
        if size <= kept {
            self.read_nothing()?;
            return Ok(Some(&[]));
        }
        let filled = &mut buffer[..size];
        self.fill(filled)?;
        let (front, state) = text_front(filled, kept, self.state);
        self.unread -= size - kept;
        match Kept::keep(&filled[front.len()..]) {
            Some(rest) => {
                self.kept = rest;
                self.state = state;
                Ok(Some(front))
            }
            None => Err(self.damage()),
        }
    }

    /// Reads no bytes, if none fit after the kept bytes. It is a call of the reader all the same.
    fn read_nothing(&mut self) -> Result<(), Error<R::Error>>
        ensures read { ReadsBytes R.Read (segment_decoder self.old) result [] (segment_decoder self.new) }
        ensures same_reference { segment_reference self.new ≡ segment_reference self.old }
        ensures same { KeepsSegment self.old self.new }
        ensures moves_on { MovesOn R.Read (segment_decoder self.old) (segment_decoder self.new) }
    {
        self.decoder.read(&mut [])
    }

    /// Writes the kept bytes to the beginning of a slice, and reads bytes into the rest of it.
    fn fill(&mut self, filled: &mut [u8]) -> Result<(), Error<R::Error>>
        requires { length (kept_bytes self.old.kept) ≤ length filled.old }
        ensures filled { FillsBehind R.Read (kept_bytes self.old.kept) (segment_decoder self.old) result filled.new
            (segment_decoder self.new) }
        ensures same_reference { segment_reference self.new ≡ segment_reference self.old }
        ensures same { KeepsSegment self.old self.new }
        ensures moves_on { MovesOn R.Read (segment_decoder self.old) (segment_decoder self.new) }
    {
        let kept = self.kept.len();
        self.kept.put(filled);
        self.decoder.read(&mut filled[kept..])
    }

    /// Marks the body as no text: the segment gives up the kept bytes, and the error stays.
    fn damage(&mut self) -> Error<R::Error>
        ensures error { result ≡ Error.Syntax self.old.place }
        ensures kept { kept_bytes self.new.kept ≡ [] }
        ensures damaged { self.new.damaged ≡ true }
        ensures same_reference { segment_reference self.new ≡ segment_reference self.old }
        ensures same { segment_decoder self.new ≡ segment_decoder self.old }
        ensures unread { self.new.unread ≡ self.old.unread }
        ensures place { self.new.place ≡ self.old.place }
    {
        self.kept = Kept::Nothing;
        self.state = State::Between;
        self.damaged = true;
        Error::Syntax(self.place)
    }
}
