//! Shows a sequence of items in rows: each title in one row, and the body of a string below its title.

ghost use Rattle.std.specs.Prelude.{◌≡◌, ℕ, ◌+◌, ◌-◌, ◌<◌, ◌≤◌, ◌↔◌, List, [], ◌∷◌, ◌++◌, length, Bool, Err, IfErr};
ghost use Rattle.std.specs.Prelude.{IsOk};
ghost use Rattle.ciborium_ll.specs.Items.{IsTakenTitle};
ghost use Rattle.ciborium_ll.specs.Title.{IsTitle, title_len};
ghost use Rattle.ciborium_ll.specs.Decoding.{offset_of, spelling_of, IsWaiting};
ghost use Rattle.cbor_skip.specs.Due.{IsNest};
ghost use Rattle.ciborium_ll.specs.Premises.{CanRead};
ghost use Rattle.cbor_dump.specs.Checking.{AnswersTold, ReadsAsCheck};
ghost use Rattle.cbor_dump.specs.Dumps.{AnswersWaiting, AreRowsTaken, Draws, DrawsRefused, EndsTitles, IsAlone};
ghost use Rattle.cbor_dump.specs.Dumps.{IsRefusal, IsRefused, IsErrorOfItem, LeavesDecoder, LeavesPart, LinesRefused};
ghost use Rattle.cbor_dump.specs.Dumps.{SaysFault, ShowsBehindRefused, ShowsRefused, fault_lines};
ghost use Rattle.ciborium_ll.specs.Types.Error.TheVariants.{Waiting};
ghost use Rattle.cbor_skip.specs.declared.SkipError.TheVariants as s;
ghost use Rattle.cbor_dump.specs.declared.dump.DumpError.TheVariants as d;
ghost use Rattle.cbor_dump.specs.Sequences.{IsSequence};
ghost use Rattle.cbor_dump.specs.Takings.{IsInMode, most_bytes, taken_bytes};
ghost use Rattle.ciborium_ll.specs.Strings.{kind_header};
ghost use Rattle.cbor_dump.specs.Levels.{Nest, StandsWithin};
ghost use Rattle.cbor_dump.specs.Keys.{body_bytes};
ghost use Rattle.cbor_dump.specs.StringRows.{ShowsKept, kind_of};
ghost use Rattle.cbor_dump.specs.TitleRows.{DrawsTitle, ShowsAll, ShowsTitle};
ghost use Rattle.cbor_dump.specs.Walks.{IsDue, IsItemAlone};
ghost use Rattle.ciborium_ll_grammar.specs.declared.spelling.Spelling.{Spelling};
ghost use Rattle.ciborium_ll_grammar.specs.declared.limits.TheConstants.{MOST_LEVELS};

use crate::key::{Key, KeyBody};
use crate::left::fault_row;
use crate::named::{key_alone, key_string};
use crate::rows::{Meaning, Row, Rows, Within};
use crate::strings::{Kind, body, pieces};
use crate::taken::Taken;
use crate::walk::{Entered, Walk};
use cbor_skip::SkipError;
use ciborium_ll::io::Read;
use ciborium_ll::{Decoder, Error, Header, Spelling};

/// Why a dump ended early.
#[derive(Debug, Drop)]
pub enum DumpError<E, W> {
    /// The bytes at this point are no item, for this reason.
    Item(SkipError<E>),
    /// A row was refused, with this error.
    Rows(W),
}

/// Shows a sequence of items (RFC 8742) in rows up to its end, and returns the reader's error there.
///
/// Tags, arrays and maps nest at most `depth` levels deep, and `depth` is at most 256. With `Shortest` the dump is
/// strict: it takes only the shortest spelling. The dump reads nothing ahead of the rows, and before an error shows all
/// bytes that it read.
///
/// # Rows
///
/// Unless a row was refused, after a fault too:
///
/// - A row has 1 to 16 bytes, at the level that [`Row`] says. A title that begins an element of an array has its index,
///   and one that begins the value of a pair has the pair's key ([`Within`]).
/// - A part of a byte string has 16 bytes, or all that is left. A part of a text has 8 bytes and the rest of their last
///   character, or all that is left.
/// - If the reader is steady and no header waits, the rows have exactly the consumed bytes. On `Ok` these are a
///   sequence of items to the depth, in the dump's spelling.
///
/// # Errors
///
/// Only the last row before an error can have the meaning [`Meaning::Fault`].
///
/// - `Item` with `Error::Syntax`: the last row is at fault. It has all bytes of a title that its first byte, a strict
///   dump or its string refuses, or bytes with which a body is no text.
/// - `Item` with another error of a read: the last row can be at fault, with the first byte of a longer title, or at
///   least 8 bytes of a text that end inside a character.
/// - `Item` with `SkipError::Break`: the last row shows a misplaced break.
/// - `Item` with `SkipError::Deep`: the last row shows a title that is too deep.
/// - `Item` with `Error::Waiting`: a header waits. The dump draws no row and reads nothing.
/// - `Rows`: a row was refused. The rows up to it have exactly the consumed bytes, as if it had been taken.
///
/// If a steady reader that tells its bytes fails within an item, at most 15 bytes are left: fewer than a first byte at
/// fault announces, and none after a text at fault.
///
/// # A dump as a check
///
/// If no header waits and the decoder is as strict as the dump, the dump reads and answers as [`check`] does, unless a
/// row was refused. The check's buffer has some size of at most 16 bytes. If a steady reader also tells its bytes and
/// the offset fits, `Ok` comes exactly if they are a sequence of items.
///
/// If the decoder is not as strict, the dump's strictness decides whether it takes a title. No clause then says at
/// which fault it stops.
///
/// # The decoder after a dump
///
/// The decoder moves on as [`Decoder`] says. The reader fails only for `Ok`, for `Error::Io`, or before a refused row
/// that has the bytes before the fault, and then once.
///
/// The decoder counts one refusal for `Error::TooLong` and `Error::Waiting`, at most one before a refused row at fault,
/// and otherwise none.
pub fn dump<R: Read, S: Rows>(
    decoder: &mut Decoder<R>,
    depth: usize,
    spelling: Spelling,
    rows: &mut S,
) -> Result<R::Error, DumpError<R::Error, S::Error>>
where
    R::Error: Drop,
    requires { depth ≤ MOST_LEVELS }
    ensures exactly { (due : List ℕ) → IsInMode spelling decoder.old
        → CanRead R.Read most_bytes decoder.old due → AreRowsTaken result
        → (IsOk result ↔ IsSequence (spelling_of decoder.old) depth due) }
    ensures refused { IsRefused result → ShowsRefused R.Read depth (offset_of decoder.old) (S.drawn rows.old)
        (S.drawn rows.new) [] decoder.old decoder.new }
    ensures told { (due : List ℕ) → IsInMode spelling decoder.old
        → CanRead R.Read most_bytes decoder.old due → AreRowsTaken result
        → AnswersTold R.Read depth due decoder.old result decoder.new }
    ensures shows { AreRowsTaken result
        → ShowsAll R.Read spelling depth (S.drawn rows.old) (S.drawn rows.new) result decoder.old
        decoder.new }
    ensures reads { IsInMode spelling decoder.old → AreRowsTaken result
        → ReadsAsCheck R.Read depth decoder.old result decoder.new }
    ensures waits { IsWaiting decoder.old → AnswersWaiting rows.old decoder.old result rows.new decoder.new }
    ensures moves { LeavesDecoder R.Read result decoder.old decoder.new }
{
    let mut walk = Walk::new(depth);
    // The loop ends: each title takes a byte, and no offset is greater than `usize::MAX`.
    'titles: loop {
        let place = decoder.offset();
        let level = walk.level();
        let mut taken = Taken::new();
        let header = match taken.read_title(decoder, spelling, place) {
            Ok(header) => header,
            Err(error) => return ended(&taken, error, place, level, rows),
        };
        title(decoder, &mut walk, header, &taken, spelling, place, rows)?;
    }
}

/// Answers a failed read of a title. If the reader failed outside of all nests before a byte came, the sequence has
/// ended. Otherwise the call shows the bytes that were read.
fn ended<E: Drop, S: Rows>(
    taken: &Taken,
    error: Error<E>,
    offset: usize,
    level: usize,
    rows: &mut S,
) -> Result<E, DumpError<E, S::Error>>
    ensures draws { AreRowsTaken result
        → Draws (S.drawn rows.old) (S.drawn rows.new) (fault_lines level offset (taken_bytes taken.now)) }
    ensures ends { EndsTitles error level (length (taken_bytes taken.now)) result }
    ensures refused { IsRefused result
        → DrawsRefused (S.drawn rows.old) (S.drawn rows.new) (fault_lines level offset (taken_bytes taken.now)) }
    ensures waits { error ≡ Waiting → taken_bytes taken.now ≡ []
        → (result ≡ Err (d.Item (s.Read Waiting))) × (rows.new ≡ rows.old) }
{
    match error {
        Error::Io(end) if level == 0 && taken.len() == 0 => Ok(end),
        error => Err(fault(taken, error, offset, level, rows)),
    }
}

/// Shows the bytes that were read before a read failed, and returns the error of the dump.
pub(crate) fn fault<E: Drop, S: Rows>(
    taken: &Taken,
    error: Error<E>,
    offset: usize,
    level: usize,
    rows: &mut S,
) -> DumpError<E, S::Error>
    ensures draws { IsErrorOfItem result
        → Draws (S.drawn rows.old) (S.drawn rows.new) (fault_lines level offset (taken_bytes taken.now)) }
    ensures says { SaysFault error result }
    ensures refused { IsRefusal result
        → DrawsRefused (S.drawn rows.old) (S.drawn rows.new) (fault_lines level offset (taken_bytes taken.now)) }
    ensures none { taken_bytes taken.now ≡ [] → (result ≡ d.Item (s.Read error)) × (rows.new ≡ rows.old) }
{
    match fault_row(taken, offset, level, rows) {
        Ok(()) => DumpError::Item(SkipError::Read(error)),
        Err(refused) => DumpError::Rows(refused),
    }
}

/// Shows the bytes that were read for a row.
pub(crate) fn shown<E, S: Rows>(
    taken: &Taken,
    meaning: Meaning,
    within: Within,
    offset: usize,
    level: usize,
    rows: &mut S,
) -> Result<(), DumpError<E, S::Error>>
    ensures draws { AreRowsTaken result → Draws (S.drawn rows.old) (S.drawn rows.new)
        (record { level = level; offset = offset; bytes = taken_bytes taken.now; meaning = meaning; within = within }
        ∷ []) }
    ensures refusal { IfErr result (λ error. IsRefusal error) }
    ensures refused { IsRefused result → DrawsRefused (S.drawn rows.old) (S.drawn rows.new)
        (record { level = level; offset = offset; bytes = taken_bytes taken.now; meaning = meaning; within = within }
        ∷ []) }
{
    let row = Row {
        level,
        offset,
        bytes: taken.bytes(),
        meaning,
        within,
    };
    rows.row(row).map_err(|fault| DumpError::Rows(fault))
}

/// Shows a title that was read at the offset `place`, and the rest of the string that it begins.
fn title<R: Read, S: Rows>(
    decoder: &mut Decoder<R>,
    walk: &mut Walk,
    header: Header,
    taken: &Taken,
    spelling: Spelling,
    place: usize,
    rows: &mut S,
) -> Result<(), DumpError<R::Error, S::Error>>
where
    R::Error: Drop,
    requires behind { walk.old.used < offset_of decoder.old }
    ensures shows { (depth whole start : ℕ) (before : List ℕ) → IsDue spelling depth whole walk.old before
        → IsTitle (taken_bytes taken.now) header → IsTakenTitle spelling (taken_bytes taken.now) header
        → place ≡ start + length before
        → offset_of decoder.old ≡ place + length (taken_bytes taken.now) → AreRowsTaken result
        → ShowsTitle R.Read depth whole start (S.drawn rows.old) (S.drawn rows.new) before (taken_bytes taken.now)
        header walk.new spelling place result decoder.old decoder.new }
    ensures refused { (depth whole start : ℕ) (before : List ℕ)
        → IsDue spelling depth whole walk.old before → IsTitle (taken_bytes taken.now) header
        → place ≡ start + length before
        → offset_of decoder.old ≡ place + length (taken_bytes taken.now) → IsRefused result
        → ShowsBehindRefused R.Read depth start (S.drawn rows.old) (S.drawn rows.new) before (taken_bytes taken.now)
        decoder.old decoder.new }
    ensures moves { LeavesPart R.Read result decoder.old decoder.new }
{
    match header {
        Header::Bytes(len) => {
            string(
                decoder,
                walk,
                Kind::Bytes,
                len,
                taken,
                spelling,
                place,
                rows,
            )
        }
        Header::Text(len) => string(decoder, walk, Kind::Text, len, taken, spelling, place, rows),
        Header::Break => break_title(walk, taken, place, rows),
        Header::Tag(_) | Header::Array(_) | Header::Map(_) => {
            nest(walk, header, taken, place, rows)
        }
        Header::Positive(_) | Header::Negative(_) | Header::Float(_) | Header::Simple(_) => {
            value(walk, header, taken, place, rows)
        }
    }
}

/// Shows an item that consists of its title.
fn value<E, S: Rows>(
    walk: &mut Walk,
    header: Header,
    taken: &Taken,
    place: usize,
    rows: &mut S,
) -> Result<(), DumpError<E, S::Error>>
    requires value { IsItemAlone header }
    ensures draws { (allowed : Spelling) (depth whole start : ℕ) (before : List ℕ)
        → IsDue allowed depth whole walk.old before → IsTitle (taken_bytes taken.now) header
        → IsTakenTitle allowed (taken_bytes taken.now) header → place ≡ start + length before → AreRowsTaken result
        → DrawsTitle allowed depth whole start (S.drawn rows.old) (S.drawn rows.new) before (taken_bytes taken.now)
        header walk.new place result }
    ensures refused { (allowed : Spelling) (depth whole start : ℕ) (before : List ℕ)
        → IsDue allowed depth whole walk.old before → IsTitle (taken_bytes taken.now) header
        → place ≡ start + length before → IsRefused result
        → LinesRefused depth start (S.drawn rows.old) (S.drawn rows.new) before (taken_bytes taken.now) }
    ensures alone { IfErr result IsAlone }
{
    let level = walk.level();
    let within = walk.within();
    shown(taken, Meaning::Header(header), within, place, level, rows)?;
    walk.item_done(key_alone(header));
    Ok(())
}

/// Shows a break.
fn break_title<E, S: Rows>(
    walk: &mut Walk,
    taken: &Taken,
    place: usize,
    rows: &mut S,
) -> Result<(), DumpError<E, S::Error>>
    ensures draws { (allowed : Spelling) (depth whole start : ℕ) (before : List ℕ)
        → IsDue allowed depth whole walk.old before → IsTitle (taken_bytes taken.now) Header.Break
        → place ≡ start + length before → AreRowsTaken result
        → DrawsTitle allowed depth whole start (S.drawn rows.old) (S.drawn rows.new) before (taken_bytes taken.now)
        Header.Break walk.new place result }
    ensures refused { (allowed : Spelling) (depth whole start : ℕ) (before : List ℕ)
        → IsDue allowed depth whole walk.old before → IsTitle (taken_bytes taken.now) Header.Break
        → place ≡ start + length before → IsRefused result
        → LinesRefused depth start (S.drawn rows.old) (S.drawn rows.new) before (taken_bytes taken.now) }
    ensures alone { IfErr result IsAlone }
{
    let closed = walk.close();
    let level = walk.level();
    let meaning = Meaning::Header(Header::Break);
    shown(taken, meaning, Within::Nothing, place, level, rows)?;
    if !closed {
        return Err(DumpError::Item(SkipError::Break(place)));
    }
    walk.item_done(Key::Other);
    Ok(())
}

/// Shows the title of a tag, an array or a map.
fn nest<E, S: Rows>(
    walk: &mut Walk,
    header: Header,
    taken: &Taken,
    place: usize,
    rows: &mut S,
) -> Result<(), DumpError<E, S::Error>>
    requires nest { IsNest header }
    ensures draws { (allowed : Spelling) (depth whole start : ℕ) (before : List ℕ)
        → IsDue allowed depth whole walk.old before → IsTitle (taken_bytes taken.now) header
        → IsTakenTitle allowed (taken_bytes taken.now) header → place ≡ start + length before → AreRowsTaken result
        → DrawsTitle allowed depth whole start (S.drawn rows.old) (S.drawn rows.new) before (taken_bytes taken.now)
        header walk.new place result }
    ensures refused { (allowed : Spelling) (depth whole start : ℕ) (before : List ℕ)
        → IsDue allowed depth whole walk.old before → IsTitle (taken_bytes taken.now) header
        → place ≡ start + length before → IsRefused result
        → LinesRefused depth start (S.drawn rows.old) (S.drawn rows.new) before (taken_bytes taken.now) }
    ensures alone { IfErr result IsAlone }
{
    let level = walk.level();
    let within = walk.within();
    shown(taken, Meaning::Header(header), within, place, level, rows)?;
    match walk.enter(header) {
        Entered::Deep => Err(DumpError::Item(SkipError::Deep(place))),
        Entered::Within => Ok(()),
        Entered::Empty => {
            walk.item_done(Key::Other);
            Ok(())
        }
    }
}

/// Shows the title of a string, and the rest of the string.
fn string<R: Read, S: Rows>(
    decoder: &mut Decoder<R>,
    walk: &mut Walk,
    kind: Kind,
    len: Option<usize>,
    taken: &Taken,
    spelling: Spelling,
    place: usize,
    rows: &mut S,
) -> Result<(), DumpError<R::Error, S::Error>>
where
    R::Error: Drop,
    requires behind { walk.old.used < offset_of decoder.old }
    ensures shows { (depth whole start : ℕ) (before : List ℕ) → IsDue spelling depth whole walk.old before
        → IsTitle (taken_bytes taken.now) (kind_header (kind_of kind) len)
        → IsTakenTitle spelling (taken_bytes taken.now) (kind_header (kind_of kind) len)
        → place ≡ start + length before
        → offset_of decoder.old ≡ place + length (taken_bytes taken.now) → AreRowsTaken result
        → ShowsTitle R.Read depth whole start (S.drawn rows.old) (S.drawn rows.new) before (taken_bytes taken.now)
        (kind_header (kind_of kind) len) walk.new spelling place result decoder.old decoder.new }
    ensures refused { (depth whole start : ℕ) (before : List ℕ)
        → IsDue spelling depth whole walk.old before
        → IsTitle (taken_bytes taken.now) (kind_header (kind_of kind) len)
        → place ≡ start + length before
        → offset_of decoder.old ≡ place + length (taken_bytes taken.now) → IsRefused result
        → ShowsBehindRefused R.Read depth start (S.drawn rows.old) (S.drawn rows.new) before (taken_bytes taken.now)
        decoder.old decoder.new }
    ensures moves { LeavesPart R.Read result decoder.old decoder.new }
{
    let header = kind.header(len);
    let level = walk.level();
    let within = walk.within();
    shown(taken, Meaning::Header(header), within, place, level, rows)?;
    let mut kept = KeyBody::new();
    rest(decoder, kind, len, spelling, level, &mut kept, rows)?;
    walk.item_done(key_string(kind, len, kept));
    Ok(())
}

/// Shows the rest of a string after its title. The body of a string of definite length is kept, up to the most bytes
/// of a key.
fn rest<R: Read, S: Rows>(
    decoder: &mut Decoder<R>,
    kind: Kind,
    len: Option<usize>,
    spelling: Spelling,
    level: usize,
    kept: &mut KeyBody,
    rows: &mut S,
) -> Result<(), DumpError<R::Error, S::Error>>
where
    R::Error: Drop,
    requires few { level ≤ MOST_LEVELS }
    requires none { body_bytes kept.old ≡ [] }
    requires behind { level < offset_of decoder.old }
    ensures shows { (depth start : ℕ) (nests : List Nest) (items title : List ℕ) → StandsWithin depth nests items
        → IsTitle title (kind_header (kind_of kind) len) → level ≡ length nests
        → offset_of decoder.old ≡ start + length (items ++ title) → AreRowsTaken result
        → ShowsKept R.Read depth start (S.drawn rows.old) (S.drawn rows.new) (items ++ title) (kind_of kind) len
        spelling (offset_of decoder.old - title_len (kind_header (kind_of kind) len)) result kept.new decoder.old
        decoder.new }
    ensures refused { (depth start : ℕ) (nests : List Nest) (items title : List ℕ) → StandsWithin depth nests items
        → IsTitle title (kind_header (kind_of kind) len) → level ≡ length nests
        → offset_of decoder.old ≡ start + length (items ++ title) → IsRefused result
        → ShowsRefused R.Read depth start (S.drawn rows.old) (S.drawn rows.new) (items ++ title) decoder.old
        decoder.new }
    ensures moves { LeavesPart R.Read result decoder.old decoder.new }
{
    match len {
        Some(len) => {
            let place = decoder
                .offset()
                .saturating_sub(kind.header(Some(len)).title_len());
            body(decoder, kind, len, place, level + 1, kept, rows)
        }
        None => pieces(decoder, kind, spelling, level, rows),
    }
}
