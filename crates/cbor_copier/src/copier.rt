//! The copier: it takes one byte after another, and puts out the copy.

ghost use Rattle.std.specs.Prelude.{◌≡◌, ◌≢◌, ◌+◌, ◌<◌, ◌≤◌, [], length, take, true};
ghost use Rattle.cbor_copier.specs.Fronts.{has_left, most_front};
ghost use Rattle.cbor_copier.specs.Spots.{IsPutOut};
ghost use Rattle.cbor_parser.specs.Strings.{open_count, within_after};
ghost use Rattle.ciborium_ll_grammar.specs.declared.limits.TheConstants.{LONGEST_AFFIX};
ghost use Rattle.ciborium_ll_text.specs.States.{may_end};

use crate::pending::Pending;
use crate::phase::Phase;
use crate::pieces::{Pieces, pieces_run};
use crate::plain::{Run, kept_run};
use crate::progress::{Copied, End, Progress};
use crate::snapshot::{Snapshot, is_state};
use cbor_parser::begun::begins_none;
use cbor_parser::few::Few;
use cbor_parser::spelling_of;
use cbor_parser::strings::{StringKind, Within};
use cbor_parser::title::taken_header;
use ciborium_ll_grammar::hdr::Header;
use ciborium_ll_grammar::hdr::table::row_of;
use ciborium_ll_grammar::spelling::Spelling;
use ciborium_ll_text::state::{State, text_front};

/// Returns how many bytes at the start of a part of a body go out as they are: all of them, or the whole characters of
/// a text.
#[inline(always)]
fn whole_len(kind: StringKind, bytes: &[u8]) -> usize
    ensures within { result ≤ length bytes.now }
    ensures whole { IsPutOut kind (take result bytes.now) }
{
    match kind {
        StringKind::Bytes => bytes.len(),
        StringKind::Text => text_front(bytes, 0, State::Between).0.len(),
    }
}

/// Copies elements of CBOR in their shortest spelling. A caller gives their bytes in pieces to [`Copier::feed`], which
/// writes into the caller's memory.
///
/// An element is a header that begins no string, or a whole string (RFC 7049, 2.1 and 2.2).
#[derive(Drop)]
pub struct Copier {
    spelling: Spelling,
    phase: Phase,
    front: Few,
    within: Within,
    left: usize,
    place: usize,
    offset: usize,
    pending: Pending,
    ghost some: { has_left phase ≡ true },
    ghost room: { length front ≤ most_front phase front },
    ghost counted: { open_count within ≤ offset },
}

impl Copier {
    ghost use Rattle.std.specs.Prelude.{ℕ, ◌-◌, ◌++◌, ◌↔◌, ◌⊎◌, List, drop, false, IfSome, IsSome, IsSomeAnd};
    ghost use Rattle.ciborium_ll_text.specs.States.{after_byte};
    ghost use Rattle.cbor_copier.specs.Copying.{Answers, AnswersEnd, AnswersPiece, HasCopied, HoldsSome, Keeps, Saves};
    ghost use Rattle.cbor_copier.specs.Copying.{IsAt, IsCopied, held, pending, spot_of};
    ghost use Rattle.cbor_copier.specs.Snapshots.{Holds};
    ghost use Rattle.cbor_copier.specs.Spots.{Spot, body_due, body_phase, element_done, element_entered, elements_due, entered};
    ghost use Rattle.cbor_copier.specs.Spots.{piece_entered, refused, string_done, string_entered, string_open};
    ghost use Rattle.cbor_copier.specs.Spots.{within_entered};
    ghost use Rattle.cbor_copier.specs.Fronts.{most_cut};
    ghost use Rattle.cbor_copier.specs.Plain.{AreKept, AreWithin};
    ghost use Rattle.cbor_copier.specs.Steps.{Step, TitleStep, byte_put, counted_by, text_left};
    ghost use Rattle.cbor_copier.specs.Steps.{title_place, with_byte, with_char};
    ghost use Rattle.cbor_copier.specs.Reading.{Copies, IsLast, IsMore, IsRoom, Tells};
    ghost use Rattle.cbor_copier.specs.Telling.{IsAnswer, is_due, progress_of};
    ghost use Rattle.cbor_copier.specs.Reading.{AreSpelled, TellsEnd};
    ghost use Rattle.cbor_copier.specs.Telling.{end_of};
    ghost use Rattle.cbor_copier.specs.declared.phase.Phase.TheVariants as p;
    ghost use Rattle.cbor_parser.specs.declared.strings.StringKind.TheVariants as k;
    ghost use Rattle.cbor_parser.specs.declared.strings.Within.TheVariants as w;
    ghost use Rattle.ciborium_ll_grammar.specs.declared.spelling.Spelling.{Spelling};
    ghost use Rattle.ciborium_ll_grammar.specs.declared.spelling.Spelling.TheVariants.{Any, Shortest};
    ghost use Rattle.ciborium_ll_grammar.specs.Items.{IsTakenTitle};
    ghost use Rattle.ciborium_ll_grammar.specs.Title.{IsTitle};
    ghost use Rattle.cbor_copier.specs.declared.progress.End.TheVariants as e;
    ghost use Rattle.cbor_copier.specs.declared.progress.Progress.{Progress};
    ghost use Rattle.cbor_copier.specs.declared.progress.Progress.TheVariants as r;

    /// Makes a copier of `count` elements, which has read no byte and written none.
    pub fn new(count: usize) -> Copier
        ensures { HasCopied Any count [] [] result }
    {
        Copier::with_spelling(count, Spelling::Any)
    }

    /// Makes a copier of `count` elements that takes only their shortest spelling (RFC 7049, 3.9). What it writes is
    /// what it has read.
    ///
    /// Each title is the shortest of its header, no simple value from 24 to 31 occurs, and strings within an open
    /// string have a definite length. Any other spelling is a `Syntax` at the title's offset, with the first byte that
    /// shows it.
    pub fn strict(count: usize) -> Copier
        ensures { HasCopied Shortest count [] [] result }
    {
        Copier::with_spelling(count, Spelling::Shortest)
    }

    /// Makes the copier of [`Copier::new`] for `Any`, and that of [`Copier::strict`] for `Shortest`.
    pub fn with_spelling(count: usize, spelling: Spelling) -> Copier
        ensures { HasCopied spelling count [] [] result }
    {
        let mut copier = Copier {
            spelling,
            phase: Phase::Title,
            front: Few::new(),
            within: Within::Nothing,
            left: count,
            place: 0,
            offset: 0,
            pending: Pending::new(),
        };
        copier.elements_due(count);
        copier
    }

    /// Waits for `left` elements.
    #[inline(always)]
    fn elements_due(&mut self, left: usize)
        requires { self.old.front ≡ [] }
        ensures { spot_of self.new ≡ elements_due left (spot_of self.old) }
    {
        self.within = Within::Nothing;
        self.left = left;
        self.phase = if left == 0 {
            Phase::Ended
        } else {
            Phase::Title
        };
    }

    /// Ends an element.
    #[inline(always)]
    fn element_done(&mut self)
        requires { self.old.front ≡ [] }
        ensures { spot_of self.new ≡ element_done (spot_of self.old) }
    {
        self.elements_due(self.left.saturating_sub(1));
    }

    /// Ends a string of a definite length: an element, or a piece of an open string.
    #[inline(always)]
    fn string_done(&mut self)
        requires { self.old.front ≡ [] }
        ensures { spot_of self.new ≡ string_done self.old.within (spot_of self.old) }
    {
        match self.within {
            Within::Nothing => self.element_done(),
            Within::Open(_, _) => self.phase = Phase::Title,
        }
    }

    /// Waits for `len` bytes of a string's body, or ends the string if `len` is 0.
    #[inline(always)]
    fn body_due(&mut self, kind: StringKind, len: usize)
        requires { self.old.front ≡ [] }
        ensures { spot_of self.new ≡ body_due kind len (spot_of self.old) }
    {
        if len == 0 {
            self.string_done();
            return;
        }
        self.phase = match kind {
            StringKind::Bytes => Phase::Bytes(len),
            StringKind::Text => Phase::Text(len, State::Between),
        };
    }

    /// Waits for a piece or a break of open strings.
    fn string_open(&mut self, kind: StringKind, more: usize)
        requires clear { self.old.front ≡ [] }
        requires open { more < self.old.offset }
        ensures { spot_of self.new ≡ string_open kind more (spot_of self.old) }
    {
        self.within = Within::Open(kind, more);
        self.phase = Phase::Title;
    }

    /// Enters the title of a string that is an element.
    #[inline(always)]
    fn enter_string(&mut self, kind: StringKind, header: Header, len: Option<usize>)
        requires clear { self.old.front ≡ [] }
        requires some { 1 ≤ self.old.offset }
        ensures { spot_of self.new ≡ string_entered kind header len (spot_of self.old) }
    {
        match len {
            Some(len) => {
                self.place = self.offset.saturating_sub(header.title_len());
                self.body_due(kind, len);
            }
            None => self.string_open(kind, 0),
        }
    }

    /// Enters the title of this header, which is the start of an element.
    #[inline(always)]
    fn enter_element(&mut self, header: Header)
        requires clear { self.old.front ≡ [] }
        requires some { 1 ≤ self.old.offset }
        ensures { spot_of self.new ≡ element_entered header (spot_of self.old) }
    {
        self.pending.set(Few::title(header));
        match header {
            Header::Bytes(len) => self.enter_string(StringKind::Bytes, header, len),
            Header::Text(len) => self.enter_string(StringKind::Text, header, len),
            _ => self.element_done(),
        }
    }

    /// Refuses what came: a fault at the place.
    fn refuse(&mut self)
        ensures { spot_of self.new ≡ refused (spot_of self.old) }
    {
        self.phase = Phase::Faulted(self.place);
    }

    /// Enters the title of this header, which may stand within the open strings. After it `after` are open.
    fn enter_piece(&mut self, after: Within, header: Header)
        requires clear { self.old.front ≡ [] }
        requires open { open_count after ≤ self.old.offset }
        ensures { spot_of self.new ≡ piece_entered after header (spot_of self.old) }
    {
        match (header, after) {
            (Header::Bytes(Some(len)), _) => {
                self.pending.set(Few::title(header));
                self.body_due(StringKind::Bytes, len);
            }
            (Header::Text(Some(len)), _) => {
                self.pending.set(Few::title(header));
                self.body_due(StringKind::Text, len);
            }
            (_, Within::Nothing) => {
                self.pending.set(Few::title(Header::Break));
                self.element_done();
            }
            (_, Within::Open(kind, more)) => self.string_open(kind, more),
        }
    }

    /// Enters the title of this header within open strings.
    fn enter_within(&mut self, header: Header)
        requires clear { self.old.front ≡ [] }
        requires open { open_count self.old.within < self.old.offset }
        ensures { spot_of self.new ≡ within_entered (within_after self.old.spelling self.old.within header) header
            (spot_of self.old) }
    {
        let _most = self.offset; // For the prover: no more strings are open than bytes came.
        match self.within.after(self.spelling, header) {
            Some(after) => self.enter_piece(after, header),
            None => self.refuse(),
        }
    }

    /// Enters the title of this header.
    #[inline(always)]
    fn enter(&mut self, header: Header)
        requires clear { self.old.front ≡ [] }
        requires open { open_count self.old.within < self.old.offset }
        ensures { spot_of self.new ≡ entered self.old.within header (spot_of self.old) }
    {
        match self.within {
            Within::Nothing => self.enter_element(header),
            Within::Open(_, _) => self.enter_within(header),
        }
    }

    /// Returns the offset of the next byte's title.
    fn title_place(&self) -> usize
        ensures { result ≡ title_place self.now.front (spot_of self.now) }
    {
        if self.front.len() == 0 {
            self.offset
        } else {
            self.place
        }
    }

    /// Takes a byte of a title.
    #[tactic(auto, using(ciborium_ll_grammar::proofs::TitleKinds::affix_most))]
    fn title_step(&mut self, byte: u8)
        requires room { self.old.offset < usize.MAX }
        requires due { self.old.phase ≡ p.Title }
        requires given { self.old.pending ≡ [] }
        ensures { TitleStep (with_byte byte (spot_of self.old)) (spot_of self.new) }
    {
        self.place = self.title_place();
        self.front.push(byte);
        self.offset += 1;
        let bytes = self.front.bytes();
        let row = row_of(bytes[0]);
        if bytes.len() <= row.affix.len() {
            if begins_none(bytes, self.spelling) {
                self.front.clear();
                self.refuse();
            } else if self.within.blocks(row.kind) {
                self.refuse();
            }
            return;
        }
        let header = taken_header(bytes, self.spelling);
        self.front.clear();
        match header {
            Some(header) => self.enter(header),
            None => self.refuse(),
        }
    }

    /// Takes one of the `left` bytes of a byte string's body.
    fn bytes_step(&mut self, left: usize, byte: u8)
        requires room { self.old.offset < usize.MAX }
        requires clear { self.old.front ≡ [] }
        ensures { spot_of self.new ≡ body_due k.Bytes (left - 1) (byte_put byte (spot_of self.old)) }
    {
        self.offset += 1;
        self.pending.set(Few::one(byte));
        self.body_due(StringKind::Bytes, left.saturating_sub(1));
    }

    /// Takes one of the `left` bytes of a text's body.
    #[tactic(auto, using(crate::proofs::FrontLaws::text_room))]
    fn text_step(&mut self, left: usize, state: State, byte: u8)
        requires room { self.old.offset < usize.MAX }
        requires front { length self.old.front ≤ most_cut state }
        requires given { self.old.pending ≡ [] }
        ensures { let next = after_byte state byte in spot_of self.new
            ≡ text_left (may_end next (left - 1)) (left - 1) next (with_char byte (spot_of self.old)) }
    {
        let mut front = self.front.take();
        front.push(byte);
        self.offset += 1;
        let state = state.step(byte);
        let left = left.saturating_sub(1);
        if !state.may_end(left) {
            self.refuse();
        } else if let State::Between = state {
            self.pending.set(front);
            self.body_due(StringKind::Text, left);
        } else {
            self.front = front;
            self.phase = Phase::Text(left, state);
        }
    }

    /// Writes these of the `left` bytes of a string's body after the first `at` bytes of `out`; of a text they are
    /// whole characters. Returns where they end.
    #[inline(always)]
    fn bytes_put(
        &mut self,
        kind: StringKind,
        left: usize,
        bytes: &[u8],
        out: &mut [u8],
        at: usize,
    ) -> usize
        requires clear { self.old.front ≡ [] }
        requires counted { self.old.offset + length bytes.now ≤ usize.MAX }
        requires room { at + length bytes.now ≤ length out.old }
        ensures put { let len = length bytes.now in spot_of self.new
            ≡ body_due kind (left - len) (counted_by len (spot_of self.old)) }
        ensures end { result ≡ at + length bytes.now }
        ensures given { take result out.new ≡ take at out.old ++ bytes.now }
        ensures rest { drop result out.new ≡ drop result out.old }
    {
        let end = at + bytes.len();
        out[at..end].copy_from_slice(bytes);
        self.offset += bytes.len();
        self.body_due(kind, left.saturating_sub(bytes.len()));
        end
    }

    /// Returns the kind of the current body and how many bytes of it are left. A text stands between two characters.
    #[inline(always)]
    fn body(&self) -> Option<(StringKind, usize)>
        ensures due { IfSome result (λ body. self.now.phase ≡ body_phase body.0 body.1) }
        ensures clear { IfSome result (λ body. self.now.front ≡ []) }
    {
        match self.phase {
            Phase::Bytes(left) => Some((StringKind::Bytes, left)),
            Phase::Text(left, State::Between) => Some((StringKind::Text, left)),
            Phase::Title | Phase::Text(_, _) | Phase::Ended | Phase::Faulted(_) => None,
        }
    }

    /// Returns the length and the header of the whole title at the start of `bytes`, if an element is due and none of
    /// its title came.
    #[inline(always)]
    fn title(&self, bytes: &[u8]) -> Option<(usize, Header)>
        requires some { 0 < length bytes.now }
        ensures due { IfSome result (λ title. (self.now.phase ≡ p.Title) × (self.now.within ≡ w.Nothing)
            × (self.now.front ≡ [])) }
        ensures fits { IfSome result (λ title. (0 < title.0) × (title.0 ≤ length bytes.now)
            × (self.now.offset + title.0 ≤ usize.MAX)) }
        ensures titled { IfSome result (λ title. IsTitle (take title.0 bytes.now) title.1) }
        ensures taken { IfSome result (λ title. IsTakenTitle self.now.spelling (take title.0 bytes.now) title.1) }
    {
        let (Phase::Title, Within::Nothing, 0) = (self.phase, self.within, self.front.len()) else {
            return None;
        };
        let len = 1 + row_of(bytes[0]).affix.len();
        if len > bytes.len() || len > usize::MAX - self.offset {
            return None;
        }
        let header = taken_header(&bytes[..len], self.spelling)?;
        Some((len, header))
    }

    /// Takes the title of this header, `len` bytes at once, as the start of an element.
    #[inline(always)]
    fn title_put(&mut self, len: usize, header: Header)
        requires counted { self.old.offset + len ≤ usize.MAX }
        requires some { 0 < len }
        requires clear { self.old.front ≡ [] }
        requires nothing { self.old.within ≡ w.Nothing }
        ensures { let spot = spot_of self.old in
            let counted = record spot { place = spot.offset; offset = spot.offset + len } in
            spot_of self.new ≡ entered counted.within header counted }
    {
        self.place = self.offset;
        self.offset += len;
        self.enter(header);
    }

    /// Takes one byte. A byte is due, and nothing is pending.
    fn step(&mut self, byte: u8)
        requires room { self.old.offset < usize.MAX }
        requires due { is_due self.old.phase ≡ true }
        requires given { self.old.pending ≡ [] }
        ensures { Step (spot_of self.old) byte (spot_of self.new) }
    {
        match self.phase {
            Phase::Title => self.title_step(byte),
            Phase::Bytes(left) => self.bytes_step(left, byte),
            Phase::Text(left, state) => self.text_step(left, state, byte),
            Phase::Ended | Phase::Faulted(_) => {}
        }
    }

    /// Returns all whole elements at the start of `bytes` that the copy keeps and that fit `room`, if an element is due
    /// and none of its title came.
    #[inline(always)]
    fn run(&self, bytes: &[u8], room: usize) -> Option<Run>
        ensures due { IfSome result (λ run. (self.now.phase ≡ p.Title) × (self.now.within ≡ w.Nothing)
            × (self.now.front ≡ [])) }
        ensures fits { IfSome result (λ run. (0 < run.len) × (run.len ≤ length bytes.now) × (run.len ≤ room)
            × (self.now.offset + run.len ≤ usize.MAX) × (run.last ≤ run.len) × (run.left ≤ self.now.left)) }
        ensures kept { IfSome result (λ run. AreKept (self.now.left - run.left) run.last (take run.len bytes.now)) }
    {
        let (Phase::Title, Within::Nothing, 0) = (self.phase, self.within, self.front.len()) else {
            return None;
        };
        let most = bytes.len().min(room).min(usize::MAX - self.offset);
        let run = kept_run(&bytes[..most], self.left);
        if run.len == 0 {
            return None;
        }
        Some(run)
    }

    /// Writes bytes as they are after the first `at` bytes of `out`. The last title in them begins at `last`. Returns
    /// where they end.
    #[inline(always)]
    fn kept_put(&mut self, last: usize, bytes: &[u8], out: &mut [u8], at: usize) -> usize
        requires counted { self.old.offset + length bytes.now ≤ usize.MAX }
        requires last { last ≤ length bytes.now }
        requires room { at + length bytes.now ≤ length out.old }
        ensures put { let spot = spot_of self.old in spot_of self.new
            ≡ record spot { place = spot.offset + last; offset = spot.offset + length bytes.now } }
        ensures end { result ≡ at + length bytes.now }
        ensures given { take result out.new ≡ take at out.old ++ bytes.now }
        ensures rest { drop result out.new ≡ drop result out.old }
    {
        let end = at + bytes.len();
        out[at..end].copy_from_slice(bytes);
        self.place = self.offset + last;
        self.offset += bytes.len();
        end
    }

    /// Writes elements as they are after the first `at` bytes of `out`. The last begins at `last`, and `left` more are
    /// due. Returns where they end.
    #[inline(always)]
    fn run_put(
        &mut self,
        last: usize,
        left: usize,
        bytes: &[u8],
        out: &mut [u8],
        at: usize,
    ) -> usize
        requires clear { self.old.front ≡ [] }
        requires counted { self.old.offset + length bytes.now ≤ usize.MAX }
        requires last { last ≤ length bytes.now }
        requires room { at + length bytes.now ≤ length out.old }
        ensures put { let spot = spot_of self.old in
            let counted = record spot { place = spot.offset + last; offset = spot.offset + length bytes.now } in
            spot_of self.new ≡ elements_due left counted }
        ensures end { result ≡ at + length bytes.now }
        ensures given { take result out.new ≡ take at out.old ++ bytes.now }
        ensures rest { drop result out.new ≡ drop result out.old }
    {
        let end = self.kept_put(last, bytes, out, at);
        self.elements_due(left);
        end
    }

    /// Returns all whole pieces at the start of `bytes` that the copy keeps and that fit `room`, if a piece of an open
    /// string is due and none of its title came.
    #[inline(always)]
    fn pieces(&self, bytes: &[u8], room: usize) -> Option<Pieces>
        ensures due { IfSome result (λ pieces. (self.now.phase ≡ p.Title) × (self.now.front ≡ [])) }
        ensures fits { IfSome result (λ pieces. (0 < pieces.len) × (pieces.len ≤ length bytes.now)
            × (pieces.len ≤ room) × (self.now.offset + pieces.len ≤ usize.MAX) × (pieces.last ≤ pieces.len)) }
        ensures kept { IfSome result (λ pieces. AreWithin self.now.within pieces.last (take pieces.len bytes.now)) }
    {
        let (Phase::Title, Within::Open(kind, _), 0) = (self.phase, self.within, self.front.len())
        else {
            return None;
        };
        let most = bytes.len().min(room).min(usize::MAX - self.offset);
        let pieces = pieces_run(kind, &bytes[..most]);
        if pieces.len == 0 {
            return None;
        }
        Some(pieces)
    }

    /// Takes whole elements or pieces that the copy keeps, or the bytes of a body that it keeps, or a whole title of an
    /// element, otherwise one byte. It writes what they put out after the first `at` bytes of `out`. Returns how many bytes it
    /// took, and where the output ends.
    #[inline(always)]
    fn advance(&mut self, bytes: &[u8], out: &mut [u8], at: usize) -> (usize, usize)
        requires some { 0 < length bytes.now }
        requires counted { self.old.offset < usize.MAX }
        requires due { is_due self.old.phase ≡ true }
        requires given { self.old.pending ≡ [] }
        requires room { at ≤ length out.old }
        ensures some { (0 < result.0) × (result.0 ≤ length bytes.now) }
        ensures within { (at ≤ result.1) × (result.1 ≤ length out.old) }
        ensures rest { drop result.1 out.new ≡ drop result.1 out.old }
        ensures all { (self.new.pending ≡ []) ⊎ (result.1 ≡ length out.old) }
        ensures copied { (allowed : Spelling) (count : ℕ) (fed given : List ℕ)
            → IsCopied allowed count fed (given ++ take at out.old) self.old
            → IsCopied allowed count (fed ++ take result.0 bytes.now) (given ++ take result.1 out.new) self.new }
        ensures grown { result.1 + length self.new.pending + length self.new.front
            ≤ at + length self.old.front + result.0 }
    {
        if let Some(kept) = self.run(bytes, out.len() - at) {
            let end = self.run_put(kept.last, kept.left, &bytes[..kept.len], out, at);
            return (kept.len, end);
        }
        if let Some((kind, left)) = self.body() {
            let most = left
                .min(bytes.len())
                .min(out.len() - at)
                .min(usize::MAX - self.offset);
            let len = whole_len(kind, &bytes[..most]);
            if len > 0 {
                return (len, self.bytes_put(kind, left, &bytes[..len], out, at));
            }
        }
        if let Some((len, header)) = self.title(bytes) {
            self.title_put(len, header);
            return (len, self.pending.give(out, at));
        }
        if let Some(pieces) = self.pieces(bytes, out.len() - at) {
            let end = self.kept_put(pieces.last, &bytes[..pieces.len], out, at);
            return (pieces.len, end);
        }
        self.step(bytes[0]);
        (1, self.pending.give(out, at))
    }

    /// Returns how far the copy has come.
    #[inline(always)]
    fn progress(&self) -> Progress
        ensures { result ≡ progress_of self.now.pending self.now.phase }
    {
        if !self.pending.is_empty() {
            return Progress::Room;
        }
        match self.phase {
            Phase::Ended => Progress::Ended,
            Phase::Faulted(place) => Progress::Syntax(place),
            Phase::Title | Phase::Bytes(_) | Phase::Text(_, _) => Progress::More,
        }
    }

    /// Returns how the copy stands if no more bytes come.
    pub fn end(&self) -> End
        ensures exactly { (allowed : Spelling) (count : ℕ) (read written : List ℕ)
            → HasCopied allowed count read written self.now
            → (result ≡ e.Ended ↔ AreSpelled allowed count read written) }
        ensures tells { (allowed : Spelling) (count : ℕ) (read written : List ℕ)
            → HasCopied allowed count read written self.now → TellsEnd allowed count read written result }
        ensures is { AnswersEnd self.now result }
        ensures room { result ≡ e.Room → pending self.now ≢ [] }
        ensures none { (result ≡ e.Room → ⊥) → pending self.now ≡ [] }
    {
        if !self.pending.is_empty() {
            return End::Room;
        }
        match self.phase {
            Phase::Ended => End::Ended,
            Phase::Faulted(place) => End::Syntax(place),
            Phase::Title | Phase::Bytes(_) | Phase::Text(_, _) => End::Short,
        }
    }

    /// Does what [`Copier::feed`] says, by the spot.
    fn take(&mut self, bytes: &[u8], out: &mut [u8]) -> Copied
        ensures taken { result.taken ≤ length bytes.now }
        ensures written { result.written ≤ length out.old }
        ensures kept { drop result.written out.new ≡ drop result.written out.old }
        ensures copied { (allowed : Spelling) (count : ℕ) (fed given : List ℕ)
            → IsCopied allowed count fed given self.old
            → IsCopied allowed count (fed ++ take result.taken bytes.now) (given ++ take result.written out.new)
            self.new }
        ensures tells { (allowed : Spelling) (count : ℕ) (fed given : List ℕ)
            → IsCopied allowed count fed given self.old
            → Tells allowed count (fed ++ take result.taken bytes.now) (given ++ take result.written out.new)
            result.progress }
        ensures answers { IsAnswer result.progress self.new.pending self.new.phase }
        ensures all { IsMore result.progress → result.taken ≡ length bytes.now }
        ensures long { result.progress ≡ r.TooLong → result.taken < length bytes.now }
        ensures full { IsRoom result.progress → result.written ≡ length out.old }
        ensures fits { self.old.pending ≡ [] → length bytes.now + LONGEST_AFFIX ≤ length out.old → IsRoom result.progress → ⊥ }
        ensures grown { result.written + length self.new.pending + length self.new.front
            ≤ length self.old.pending + length self.old.front + result.taken }
        ensures stays { is_due self.old.phase ≡ false → self.old.pending ≡ []
            → (result.taken ≡ 0) × (result.written ≡ 0) × (spot_of self.new ≡ spot_of self.old) }
    {
        let mut written = self.pending.give(out, 0);
        let mut at = 0;
        'pieces: while at < bytes.len() {
            match self.progress() {
                Progress::More => {}
                progress => {
                    return Copied {
                        taken: at,
                        written,
                        progress,
                    };
                }
            }
            if self.offset == usize::MAX {
                return Copied {
                    taken: at,
                    written,
                    progress: Progress::TooLong,
                };
            }
            let (len, end) = self.advance(&bytes[at..], out, written);
            at += len;
            written = end;
        }
        Copied {
            taken: bytes.len(),
            written,
            progress: self.progress(),
        }
    }

    /// Takes a piece of the elements' bytes, of any length, and writes their shortest spelling to the start of `out`.
    ///
    /// The cuts between pieces and the lengths of the outputs change nothing of all that is written. Only a few bytes
    /// may stay pending.
    ///
    /// Each title becomes the shortest title of its header. A string of indefinite length keeps the same segments of
    /// its body in one string: strings within it lose their opens and breaks. The copier writes nothing of a title or a
    /// character that isn't whole. If `out` is full within one of them, the rest comes with the next call.
    ///
    /// - `More`: all that can be written of the bytes so far is written. Some more bytes make that many elements. If
    ///   none come, a copy is short with exactly this output.
    /// - `Room`: `out` is full. The caller gives the rest of the piece again. After the bytes still to write, one of
    ///   the other answers holds.
    /// - `Ended`: exactly the shortest spelling of that many elements is written, as `recode` writes it. The call takes
    ///   no byte after them.
    /// - `Syntax(offset)`: the answer comes with the first byte that makes it true, which counts as taken. With some
    ///   bytes after those so far, a copy at a fault of this place has this output.
    /// - `TooLong`: the call takes no byte after `usize::MAX`, and the rest is as with `More`.
    ///
    /// After `Ended` or `Syntax`, a later call answers the same. `recode` has the same faults, and the same output up
    /// to them. But in a damaged body `recode` may have written less, by its buffer: a copier has written each whole
    /// character before the damage.
    #[inline(always)]
    pub fn feed(&mut self, bytes: &[u8], out: &mut [u8]) -> Copied
        ensures read { (allowed : Spelling) (count : ℕ) (read written : List ℕ)
            → HasCopied allowed count read written self.old
            → HasCopied allowed count (read ++ take result.taken bytes.now) (written ++ take result.written out.new)
            self.new
            × Copies allowed count read written bytes.now (take result.written out.new) result }
        ensures is { AnswersPiece self.new result.progress }
        ensures taken { result.taken ≤ length bytes.now }
        ensures written { result.written ≤ length out.old }
        ensures kept { drop result.written out.new ≡ drop result.written out.old }
        ensures all { IsMore result.progress → result.taken ≡ length bytes.now }
        ensures long { result.progress ≡ r.TooLong → result.taken < length bytes.now }
        ensures full { IsRoom result.progress → result.written ≡ length out.old }
        ensures none { (IsRoom result.progress → ⊥) → pending self.new ≡ [] }
        ensures fits { pending self.old ≡ [] → length bytes.now + LONGEST_AFFIX ≤ length out.old → IsRoom result.progress → ⊥ }
        ensures grown { result.written + held self.new ≤ held self.old + result.taken }
        ensures stays { (progress : Progress) → Answers self.old progress → IsLast progress
            → (result.taken ≡ 0) × (result.written ≡ 0) × (result.progress ≡ progress) × Answers self.new progress }
    {
        self.take(bytes, out)
    }

    /// Returns the state as plain numbers, from which [`Copier::restore`] makes this copier again.
    pub fn save(&self) -> Snapshot
        ensures keeps { (allowed : Spelling) (count : ℕ) (read written : List ℕ)
            → HasCopied allowed count read written self.now → Keeps allowed count read written result }
        ensures saves { Saves self.now result }
    {
        let (phase, number, text) = self.phase.numbers();
        let (strings, more) = self.within.numbers();
        let (front, front_len) = self.front.save();
        let (pending, pending_len) = self.pending.rest().save();
        Snapshot {
            offset: self.offset as u64,
            place: self.place as u64,
            left: self.left as u64,
            number: number as u64,
            more: more as u64,
            front,
            pending,
            front_len: front_len as u8,
            pending_len: pending_len as u8,
            phase,
            text,
            strings,
            strict: u8::from(self.spelling.is_shortest()),
        }
    }

    /// Returns the copier with these numbers, or `None` if they are those of no state.
    fn load(snapshot: &Snapshot) -> Option<Copier>
        ensures some { IfSome result (λ copier. Holds snapshot.now (spot_of copier)) }
        ensures same { (spot : Spot) → Holds snapshot.now spot → IsAt result spot }
    {
        let spelling = spelling_of(snapshot.strict)?;
        let phase = Phase::of(snapshot.phase, snapshot.number as usize, snapshot.text)?;
        let within = Within::of(snapshot.strings, snapshot.more as usize)?;
        if !is_state(snapshot, phase, within) {
            return None;
        }
        let pending = Few::restore(&snapshot.pending, usize::from(snapshot.pending_len));
        Some(Copier {
            spelling,
            phase,
            front: Few::restore(&snapshot.front, usize::from(snapshot.front_len)),
            within,
            left: snapshot.left as usize,
            place: snapshot.place as usize,
            offset: snapshot.offset as usize,
            pending: Pending::of(pending),
        })
    }

    /// Returns the copier that [`Copier::save`] made the numbers of, or `None` if they are those of no state. It has
    /// read and written the same bytes.
    #[inline(always)]
    pub fn restore(snapshot: &Snapshot) -> Option<Copier>
        ensures kept { (allowed : Spelling) (count : ℕ) (read written : List ℕ)
            → Keeps allowed count read written snapshot.now
            → IsSomeAnd result (λ copier. HasCopied allowed count read written copier) }
        ensures some { IfSome result (λ copier. Saves copier snapshot.now) }
        ensures found { HoldsSome snapshot.now → IsSome result }
    {
        Copier::load(snapshot)
    }
}
