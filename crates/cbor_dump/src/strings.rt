//! Shows the rows of a string after its title.

ghost use Rattle.std.specs.Prelude.{◌≡◌, ℕ, ◌+◌, ◌<◌, ◌≤◌, Bool, List, [], ◌++◌, length, suc, IfErr, IfOk, IfSome};
ghost use Rattle.std.specs.Prelude.{None, Some};
ghost use Rattle.ciborium_ll.specs.Title.{IsTitle};
ghost use Rattle.ciborium_ll.specs.Strings.{IsWritable, kind_header};
ghost use Rattle.ciborium_ll.specs.Decoding.{offset_of, view, waiting_of};
ghost use Rattle.cbor_dump.specs.Dumps.{AreRowsTaken, IsRefused, LeavesPart, ShowsRefused};
ghost use Rattle.cbor_dump.specs.Levels.{Nest, StandsWithin, TitleDue, title_level};
ghost use Rattle.cbor_dump.specs.Parts.{IsFullPart, IsPartRow, ReadsPart};
ghost use Rattle.cbor_dump.specs.Takings.{IsSteadyNoneWaiting, Keeps, LeavesBehind, ReadsBy, taken_bytes};
ghost use Rattle.cbor_dump.specs.Keys.{body_bytes};
ghost use Rattle.cbor_dump.specs.StringRows.{IsPart, ShowsBehindTitle, ShowsKept, kind_of, meaning_of};
ghost use Rattle.ciborium_ll_grammar.specs.declared.spelling.Spelling.{Spelling};
ghost use Rattle.ciborium_ll_grammar.specs.declared.limits.TheConstants.{MOST_LEVELS};

use crate::dump::{DumpError, fault, shown};
use crate::key::KeyBody;
use crate::rows::{Meaning, Rows, Within};
use crate::taken::{MOST_BYTES, Taken};
use ciborium_ll::io::Read;
use ciborium_ll::{Decoder, Error, Header, Spelling};

/// The kind of a string: a byte string or a text string.
#[derive(Clone, Copy)]
pub(crate) enum Kind {
    /// A byte string.
    Bytes,
    /// A text string.
    Text,
}

impl Kind {
    /// Returns the header of a string of this kind and length.
    pub(crate) fn header(self, len: Option<usize>) -> Header
        ensures { result ≡ kind_header (kind_of self) len }
    {
        match self {
            Kind::Bytes => Header::Bytes(len),
            Kind::Text => Header::Text(len),
        }
    }

    /// Returns the meaning of a part of a body.
    fn meaning(self) -> Meaning
        ensures { result ≡ meaning_of self }
    {
        match self {
            Kind::Bytes => Meaning::Bytes,
            Kind::Text => Meaning::Text,
        }
    }
}

/// Shows a body of `len` bytes, and keeps it up to the most bytes of a key. If it is no text, the error `Syntax` has the
/// offset `place`.
pub(crate) fn body<R: Read, S: Rows>(
    decoder: &mut Decoder<R>,
    kind: Kind,
    len: usize,
    place: usize,
    level: usize,
    kept: &mut KeyBody,
    rows: &mut S,
) -> Result<(), DumpError<R::Error, S::Error>>
where
    R::Error: Drop,
    requires none { body_bytes kept.old ≡ [] }
    ensures shows { (depth start opens : ℕ) (nests : List Nest) (outer title : List ℕ) (allowed : Spelling)
        → TitleDue depth nests opens outer → IsTitle title (kind_header (kind_of kind) (Some len))
        → level ≡ length nests + opens + 1
        → offset_of decoder.old ≡ start + length (outer ++ title) → AreRowsTaken result
        → ShowsKept R.Read depth start (S.drawn rows.old) (S.drawn rows.new) (outer ++ title) (kind_of kind) (Some len)
        allowed place result kept.new decoder.old decoder.new }
    ensures rises { offset_of decoder.old ≤ offset_of decoder.new }
    ensures refused { (depth start opens : ℕ) (nests : List Nest) (outer title : List ℕ)
        → TitleDue depth nests opens outer → IsTitle title (kind_header (kind_of kind) (Some len))
        → level ≡ length nests + opens + 1
        → offset_of decoder.old ≡ start + length (outer ++ title) → IsRefused result
        → ShowsRefused R.Read depth start (S.drawn rows.old) (S.drawn rows.new) (outer ++ title) decoder.old
        decoder.new }
    ensures moves { LeavesPart R.Read result decoder.old decoder.new }
{
    let mut left = len;
    'rows: while left > 0 {
        let offset = decoder.offset();
        let mut taken = Taken::new();
        if let Err(error) = read_part(&mut taken, decoder, kind, left, place) {
            return Err(fault(&taken, error, offset, level, rows));
        }
        shown(&taken, kind.meaning(), Within::Nothing, offset, level, rows)?;
        kept.push(taken.bytes());
        left -= taken.len();
    }
    Ok(())
}

/// Reads the next bytes of a body that has `left` bytes left. On `Ok` the bytes of a text are whole characters.
fn read_part<R: Read>(
    taken: &mut Taken,
    decoder: &mut Decoder<R>,
    kind: Kind,
    left: usize,
    place: usize,
) -> Result<(), Error<R::Error>>
    requires none { taken_bytes taken.old ≡ [] }
    ensures keeps { Keeps R.Read (taken_bytes taken.old) (taken_bytes taken.new) decoder.old decoder.new }
    ensures most { length (taken_bytes taken.new) ≤ left }
    ensures some { IfOk result (λ _. 0 < left → 0 < length (taken_bytes taken.new)) }
    ensures row { 0 < left → IfErr result (λ error. IsPartRow (kind_of kind) left error (taken_bytes taken.new)) }
    ensures left { 0 < left → IfErr result (λ error. IsSteadyNoneWaiting R.Read decoder.old
        → IfSome (view R.Read decoder.new) (LeavesBehind error (taken_bytes taken.new))) }
    ensures written { IfOk result (λ _. IsWritable (kind_of kind) (taken_bytes taken.new)) }
    ensures full { IfOk result (λ _. IsFullPart (kind_of kind) left (taken_bytes taken.new)) }
    ensures reads { 0 < left → waiting_of decoder.old ≡ None
        → ReadsPart R.Read (kind_of kind) left place (taken_bytes taken.new) decoder.old result decoder.new }
    ensures moves { ReadsBy R.Read result decoder.old decoder.new }
{
    match kind {
        Kind::Bytes => taken.read(decoder, left.min(MOST_BYTES)),
        Kind::Text => {
            if taken.read_text(decoder, left)? {
                Ok(())
            } else {
                Err(Error::Syntax(place))
            }
        }
    }
}

/// The role of a title within a string of indefinite length.
#[derive(Clone, Copy)]
enum Part {
    /// A break.
    Break,
    /// The title of a piece of this many bytes.
    Piece(usize),
    /// A further open.
    Open,
    /// A title that may not stand in the string.
    Other,
}

/// Returns the role of a header within a string of indefinite length of this kind.
fn part_of(header: Header, kind: Kind, spelling: Spelling) -> Part
    ensures { IsPart spelling (kind_of kind) header result }
{
    let len = match (header, kind) {
        (Header::Break, _) => return Part::Break,
        (Header::Bytes(len), Kind::Bytes) => len,
        (Header::Text(len), Kind::Text) => len,
        _ => return Part::Other,
    };
    match len {
        Some(len) => Part::Piece(len),
        None if spelling.is_shortest() => Part::Other,
        None => Part::Open,
    }
}

/// Returns the level of a title within an open. `inner` is the level of the titles in the open. A break has the level
/// of the open that it closes.
fn title_level(header: Header, inner: usize) -> usize
    requires some { 0 < inner }
    ensures { (nests : List Nest) (opens : ℕ) → inner ≡ length nests + suc opens
        → result ≡ title_level header nests (suc opens) }
{
    match header {
        Header::Break => inner - 1,
        _ => inner,
    }
}

/// Shows the rest of a string of indefinite length, from the byte after its open to the break that ends it.
pub(crate) fn pieces<R: Read, S: Rows>(
    decoder: &mut Decoder<R>,
    kind: Kind,
    spelling: Spelling,
    level: usize,
    rows: &mut S,
) -> Result<(), DumpError<R::Error, S::Error>>
where
    R::Error: Drop,
    requires few { level ≤ MOST_LEVELS }
    requires behind { level < offset_of decoder.old }
    ensures shows { (depth start : ℕ) (nests : List Nest) (items title : List ℕ) → StandsWithin depth nests items
        → IsTitle title (kind_header (kind_of kind) None) → level ≡ length nests
        → offset_of decoder.old ≡ start + length (items ++ title) → AreRowsTaken result
        → ShowsBehindTitle R.Read depth start (S.drawn rows.old) (S.drawn rows.new) (items ++ title) (kind_of kind) None
        spelling 0 result decoder.old decoder.new }
    ensures refused { (depth start : ℕ) (nests : List Nest) (items title : List ℕ) → StandsWithin depth nests items
        → IsTitle title (kind_header (kind_of kind) None) → level ≡ length nests
        → offset_of decoder.old ≡ start + length (items ++ title) → IsRefused result
        → ShowsRefused R.Read depth start (S.drawn rows.old) (S.drawn rows.new) (items ++ title) decoder.old
        decoder.new }
    ensures moves { LeavesPart R.Read result decoder.old decoder.new }
{
    let mut inner = level + 1;
    // The loop ends: each title takes a byte, and no offset is greater than `usize::MAX`.
    'parts: loop {
        let place = decoder.offset();
        let mut taken = Taken::new();
        let header = match taken.read_title(decoder, spelling, place) {
            Ok(header) => header,
            Err(error) => return Err(fault(&taken, error, place, inner, rows)),
        };
        let part = part_of(header, kind, spelling);
        if let Part::Other = part {
            return Err(fault(&taken, Error::Syntax(place), place, inner, rows));
        }
        let at = title_level(header, inner);
        shown(
            &taken,
            Meaning::Header(header),
            Within::Nothing,
            place,
            at,
            rows,
        )?;
        match part {
            Part::Piece(len) => {
                let mut unused = KeyBody::new();
                body(decoder, kind, len, place, inner + 1, &mut unused, rows)?
            }
            Part::Open => inner += 1,
            // A break: every other title was refused.
            _ => {
                if at == level {
                    return Ok(());
                }
                inner = at;
            }
        }
    }
}
