//! The walk over the bytes of a piece.

ghost use Rattle.std.specs.Prelude.{◌≡◌, ◌+◌, ◌<◌, ◌≤◌, ◌%◌, length, slice_index, true, false};
ghost use Rattle.cbor_checker.specs.Telling.{has_left};
ghost use Rattle.ciborium_ll_text.specs.States.{may_end};
ghost use Rattle.ciborium_ll_grammar.specs.declared.spelling.Spelling.{Spelling};
ghost use Rattle.ciborium_ll_grammar.specs.declared.spelling.Spelling.TheVariants.{Any};
ghost use Rattle.ciborium_ll_grammar.specs.Title.{affix_len};
ghost use Rattle.cbor_parser.specs.Strings.{open_count, within_after};
ghost use Rattle.cbor_checker.specs.Blocked.{blocked, is_single};
ghost use Rattle.ciborium_ll_grammar.specs.declared.limits.TheConstants.{MOST_LEVELS};

mod nests;

use crate::level::ends_before;
use crate::levels::Levels;
use crate::phase::{Fault, Phase};
use crate::plain::is_short_ascii;
use crate::title::{blocked, is_single};
use cbor_parser::begun::begins_none;
use cbor_parser::few::Few;
use cbor_parser::strings::{StringKind, Within};
use cbor_parser::title::taken_header;
use ciborium_ll_grammar::hdr::Header;
use ciborium_ll_grammar::hdr::table::{Affix, TitleKind, row_of};
use ciborium_ll_grammar::remaining::Remaining;
use ciborium_ll_grammar::spelling::Spelling;
use ciborium_ll_text::state::{State, text_front};

/// A checker during a call. The numbers of its nests stand in the caller's memory, and no call copies them.
#[derive(Drop)]
pub(crate) struct Walk<'a> {
    pub(crate) spelling: Spelling,
    pub(crate) phase: Phase,
    pub(crate) front: Few,
    pub(crate) within: Within,
    pub(crate) depth: usize,
    pub(crate) levels: Levels<'a>,
    pub(crate) place: usize,
    pub(crate) offset: usize,
    ghost room: { levels.len + depth ≤ MOST_LEVELS },
    ghost counted: { open_count within ≤ offset },
    ghost left: { has_left phase ≡ true },
    ghost begun: { length front ≤ affix_len (slice_index front 0 % 32) },
}

impl Walk<'_> {
    ghost use Rattle.std.specs.Prelude.{◌<◌};
    ghost use Rattle.cbor_checker.specs.Walking.{AreLent, levels_at, rest_of, spot_at};
    ghost use Rattle.std.specs.Prelude.{Bool, ℕ, ◌-◌, ◌/◌, ◌++◌, List, [], IfSome, take, true, false};
    ghost use Rattle.ciborium_ll_grammar.specs.Title.{IsTitle};
    ghost use Rattle.ciborium_ll_grammar.specs.Items.{IsTakenTitle};
    ghost use Rattle.ciborium_ll_grammar.specs.TitleRows.{IsTitleKind};
    ghost use Rattle.ciborium_ll_text.specs.States.{after_byte};
    ghost use Rattle.cbor_checker.specs.Steps.{IsFed, Leads, TitleStep, counted, counted_by, start, text_left};
    ghost use Rattle.cbor_checker.specs.Steps.{title_place, with_byte};
    ghost use Rattle.cbor_checker.specs.Reading.{IsMore, Tells, TellsEnd};
    ghost use Rattle.cbor_checker.specs.Telling.{IsAnswer, end_of, is_due, progress_of, title_due};
    ghost use Rattle.cbor_checker.specs.Spots.{Spot, at_phase, body_placed, broken, bytes_due, entered, item_done};
    ghost use Rattle.cbor_checker.specs.Spots.{item_entered, nested, piece_entered, refused, string_done, string_open};
    ghost use Rattle.cbor_checker.specs.Spots.{text_due, within_entered};
    ghost use Rattle.cbor_parser.specs.declared.strings.Within.TheVariants as w;
    ghost use Rattle.cbor_checker.specs.declared.phase.Phase.TheVariants as p;
    ghost use Rattle.ciborium_ll_text.specs.declared.state.State.TheVariants as s;

    /// Ends the item that was due, and returns whether another item is due.
    #[inline(always)]
    fn item_over(&mut self) -> bool
        requires phase { self.old.phase ≡ p.Title }
        requires due { self.old.within ≡ w.Nothing }
        ensures done { spot_at self.new ≡ item_done (spot_at self.old) }
        ensures title { result ≡ true → self.new.phase ≡ p.Title }
        ensures item { result ≡ true → self.new.within ≡ w.Nothing }
        ensures front { self.new.front ≡ self.old.front }
        ensures lent { AreLent self.old.levels self.new.levels }
    {
        'levels: while !self.levels.is_empty() {
            if self.levels.advance() {
                return true;
            }
            self.depth += 1; // The level is given back.
        }
        self.phase = Phase::Ended;
        false
    }

    /// Ends an item after its title, its body or its break.
    #[inline(always)]
    fn item_done(&mut self)
        ensures spot { spot_at self.new ≡ item_done (spot_at self.old) }
        ensures lent { AreLent self.old.levels self.new.levels }
    {
        self.within = Within::Nothing;
        self.phase = Phase::Title;
        self.item_over();
    }

    /// Ends a string of a definite length: an item, or a piece of an open string.
    #[inline(always)]
    fn string_done(&mut self)
        ensures spot { spot_at self.new ≡ string_done self.old.within (spot_at self.old) }
        ensures lent { AreLent self.old.levels self.new.levels }
    {
        match self.within {
            Within::Nothing => self.item_done(),
            Within::Open(_, _) => self.phase = Phase::Title,
        }
    }

    /// Waits for `len` bytes of a byte string's body; with 0 the string ends.
    #[inline(always)]
    fn bytes_due(&mut self, len: usize)
        ensures spot { spot_at self.new ≡ bytes_due len (spot_at self.old) }
        ensures lent { AreLent self.old.levels self.new.levels }
    {
        if len == 0 {
            self.string_done();
        } else {
            self.phase = Phase::Bytes(len);
        }
    }

    /// Waits for `len` bytes of a text's body; with 0 the text ends.
    #[inline(always)]
    fn text_due(&mut self, len: usize)
        ensures spot { spot_at self.new ≡ text_due len (spot_at self.old) }
        ensures lent { AreLent self.old.levels self.new.levels }
    {
        if len == 0 {
            self.string_done();
        } else {
            self.phase = Phase::Text(len, State::Between);
        }
    }

    /// Enters a tag, an array or a map. Returns whether an item is due next.
    #[inline(always)]
    fn nested(&mut self, inner: Remaining) -> bool
        requires phase { self.old.phase ≡ p.Title }
        requires fresh { length self.old.front ≡ 0 }
        requires due { self.old.within ≡ w.Nothing }
        ensures nested { spot_at self.new ≡ nested self.old.depth inner (spot_at self.old) }
        ensures title { result ≡ true → self.new.phase ≡ p.Title }
        ensures item { result ≡ true → self.new.within ≡ w.Nothing }
        ensures clear { result ≡ true → length self.new.front ≡ 0 }
        ensures lent { AreLent self.old.levels self.new.levels }
    {
        if self.depth == 0 {
            self.phase = Phase::Faulted(Fault::Deep(self.place));
            return false;
        }
        match inner.next() {
            Some(left) => {
                self.depth -= 1;
                self.levels.push(left);
                true
            }
            None => self.item_over(),
        }
    }

    /// Takes a break in place of an item. Returns whether an item is due next.
    #[inline(always)]
    fn broken(&mut self) -> bool
        requires phase { self.old.phase ≡ p.Title }
        requires fresh { length self.old.front ≡ 0 }
        requires due { self.old.within ≡ w.Nothing }
        ensures broken { spot_at self.new ≡ broken (levels_at self.old.levels) (spot_at self.old) }
        ensures title { result ≡ true → self.new.phase ≡ p.Title }
        ensures item { result ≡ true → self.new.within ≡ w.Nothing }
        ensures clear { result ≡ true → length self.new.front ≡ 0 }
        ensures lent { AreLent self.old.levels self.new.levels }
    {
        match self.levels.innermost() {
            Some(level) if ends_before(level) => {
                self.levels.pop();
                self.depth += 1;
                self.item_over()
            }
            _ => {
                self.phase = Phase::Faulted(Fault::Break(self.place));
                false
            }
        }
    }

    /// Opens a string of this kind as the item that was due, and waits for a piece or a break.
    fn string_open(&mut self, kind: StringKind)
        requires { 1 ≤ self.old.offset }
        ensures spot { spot_at self.new ≡ string_open kind (spot_at self.old) }
        ensures lent { AreLent self.old.levels self.new.levels }
    {
        self.within = Within::Open(kind, 0);
        self.phase = Phase::Title;
    }

    /// Enters the title of this header as the item that was due. Returns `true` if it knows that an item is due next,
    /// without a byte of its title.
    #[inline(always)]
    fn enter_item(&mut self, header: Header) -> bool
        requires phase { self.old.phase ≡ p.Title }
        requires fresh { length self.old.front ≡ 0 }
        requires due { self.old.within ≡ w.Nothing }
        requires counted { 1 ≤ self.old.offset }
        ensures entered { spot_at self.new ≡ item_entered header (spot_at self.old) }
        ensures title { result ≡ true → self.new.phase ≡ p.Title }
        ensures item { result ≡ true → self.new.within ≡ w.Nothing }
        ensures clear { result ≡ true → length self.new.front ≡ 0 }
        ensures lent { AreLent self.old.levels self.new.levels }
    {
        match header {
            Header::Bytes(Some(len)) => {
                self.bytes_due(len);
                false
            }
            Header::Bytes(None) => {
                self.string_open(StringKind::Bytes);
                false
            }
            Header::Text(Some(len)) => {
                self.place = self.offset.saturating_sub(header.title_len());
                self.text_due(len);
                false
            }
            Header::Text(None) => {
                self.string_open(StringKind::Text);
                false
            }
            Header::Tag(_) | Header::Array(_) | Header::Map(_) => {
                self.nested(Remaining::contents_of(header))
            }
            Header::Break => self.broken(),
            Header::Positive(_) | Header::Negative(_) | Header::Float(_) | Header::Simple(_) => {
                self.item_over()
            }
        }
    }

    /// Refuses what came: a fault of syntax at the place.
    fn refuse(&mut self)
        ensures spot { spot_at self.new ≡ refused (spot_at self.old) }
        ensures lent { AreLent self.old.levels self.new.levels }
    {
        self.phase = Phase::Faulted(Fault::Syntax(self.place));
    }

    /// Waits for the body that this header announces, or for a title if it announces none.
    fn enter_piece(&mut self, header: Header)
        ensures spot { spot_at self.new ≡ piece_entered header (spot_at self.old) }
        ensures lent { AreLent self.old.levels self.new.levels }
    {
        match header {
            Header::Bytes(Some(len)) => self.bytes_due(len),
            Header::Text(Some(len)) => self.text_due(len),
            _ => self.phase = Phase::Title,
        }
    }

    /// Enters the title of this header within open strings.
    fn enter_within(&mut self, header: Header)
        requires { open_count self.old.within + 1 ≤ self.old.offset }
        ensures spot { spot_at self.new
            ≡ within_entered (within_after self.old.spelling self.old.within header) header (spot_at self.old) }
        ensures lent { AreLent self.old.levels self.new.levels }
    {
        let _most = self.offset; // No more strings are open than bytes came.
        match self.within.after(self.spelling, header) {
            Some(Within::Nothing) => self.item_done(),
            Some(within) => {
                self.within = within;
                self.enter_piece(header);
            }
            None => self.refuse(),
        }
    }

    /// Enters the title of this header.
    #[inline(always)]
    fn enter(&mut self, header: Header)
        requires phase { self.old.phase ≡ p.Title }
        requires fresh { length self.old.front ≡ 0 }
        requires counted { open_count self.old.within + 1 ≤ self.old.offset }
        ensures spot { spot_at self.new ≡ entered self.old.within header (spot_at self.old) }
        ensures lent { AreLent self.old.levels self.new.levels }
    {
        match self.within {
            Within::Nothing => {
                self.enter_item(header);
            }
            Within::Open(_, _) => self.enter_within(header),
        }
    }

    /// Returns the offset of the next byte's title.
    #[inline(always)]
    fn title_place(&self) -> usize
        ensures { result ≡ title_place self.now.front (spot_at self.now) }
    {
        if self.front.len() == 0 {
            self.offset
        } else {
            self.place
        }
    }

    /// Takes a byte of a title.
    #[tactic(auto, using(ciborium_ll_grammar::proofs::TitleKinds::affix_most))]
    fn title_step(&mut self, byte: u8)
        requires phase { self.old.phase ≡ p.Title }
        requires room { self.old.offset < usize.MAX }
        ensures spot { TitleStep (with_byte byte (spot_at self.old)) (spot_at self.new) }
        ensures lent { AreLent self.old.levels self.new.levels }
    {
        self.place = self.title_place();
        self.front.push(byte);
        self.offset += 1;
        let bytes = self.front.bytes();
        let row = row_of(bytes[0]);
        if bytes.len() <= row.affix.len() {
            if begins_none(bytes, self.spelling) {
                self.front.clear();
                self.refuse();
            } else if let Some(fault) = blocked(self.within, self.depth, self.place, row.kind) {
                self.phase = Phase::Faulted(fault);
            }
            return;
        }
        let header = taken_header(bytes, self.spelling);
        self.front.clear();
        match header {
            Some(header) => self.enter(header),
            None => self.refuse(),
        }
    }

    /// Takes the first byte, which belongs to a title. Returns 1.
    #[inline(never)]
    fn title_byte(&mut self, bytes: &[u8]) -> usize
        requires phase { self.old.phase ≡ p.Title }
        requires some { 0 < length bytes.now }
        requires room { self.old.offset < usize.MAX }
        ensures one { result ≡ 1 }
        ensures leads { Leads (spot_at self.old) (take result bytes.now) (spot_at self.new) }
        ensures lent { AreLent self.old.levels self.new.levels }
    {
        self.title_step(bytes[0]);
        1
    }

    /// Takes all of a title of this kind and of `len` bytes, and returns `true`. If it may not stand there or is
    /// refused, the call takes nothing.
    #[inline(always)]
    fn title_taken(&mut self, bytes: &[u8], len: usize, kind: TitleKind) -> bool
        requires phase { self.old.phase ≡ p.Title }
        requires fresh { length self.old.front ≡ 0 }
        requires within { len ≤ length bytes.now }
        requires room { self.old.offset + length bytes.now ≤ usize.MAX }
        requires long { len ≡ 1 + affix_len (slice_index bytes.now 0 % 32) }
        requires kind { IsTitleKind kind (slice_index bytes.now 0 / 32) (slice_index bytes.now 0 % 32) }
        ensures yes { result ≡ true → Leads (spot_at self.old) (take len bytes.now) (spot_at self.new) }
        ensures no { result ≡ false → self.new ≡ self.old }
        ensures lent { AreLent self.old.levels self.new.levels }
    {
        if len > 1 && blocked(self.within, self.depth, self.offset, kind).is_some() {
            return false;
        }
        match taken_header(&bytes[..len], self.spelling) {
            Some(header) => {
                self.place = self.offset;
                self.offset += len;
                self.enter(header);
                true
            }
            None => false,
        }
    }

    /// Takes all of a title if none of it came and the rest is there, otherwise one byte. Returns how many.
    #[inline(always)]
    fn title_run(&mut self, bytes: &[u8]) -> usize
        requires phase { self.old.phase ≡ p.Title }
        requires some { 0 < length bytes.now }
        requires room { self.old.offset + length bytes.now ≤ usize.MAX }
        ensures some { 0 < result }
        ensures within { result ≤ length bytes.now }
        ensures leads { Leads (spot_at self.old) (take result bytes.now) (spot_at self.new) }
        ensures lent { AreLent self.old.levels self.new.levels }
    {
        let row = row_of(bytes[0]);
        let len = 1 + row.affix.len();
        if self.front.len() > 0 || bytes.len() < len {
            return self.title_byte(bytes);
        }
        if self.title_taken(bytes, len, row.kind) {
            return len;
        }
        self.title_byte(bytes)
    }

    /// Takes the whole body of a short string after its title. Returns whether another item is due.
    #[inline(always)]
    fn body_taken(&mut self, len: usize) -> bool
        requires phase { self.old.phase ≡ p.Title }
        requires fresh { length self.old.front ≡ 0 }
        requires due { self.old.within ≡ w.Nothing }
        requires room { self.old.offset + len ≤ usize.MAX }
        ensures taken { spot_at self.new ≡ item_done (counted_by len (spot_at self.old)) }
        ensures title { result ≡ true → self.new.phase ≡ p.Title }
        ensures item { result ≡ true → self.new.within ≡ w.Nothing }
        ensures clear { result ≡ true → length self.new.front ≡ 0 }
        ensures lent { AreLent self.old.levels self.new.levels }
    {
        self.offset += len;
        self.item_over()
    }

    /// Takes a title of one byte with this header, and the body of a byte string or of a text of ASCII if all of it is
    /// there. Returns how many bytes, and whether another item is due.
    #[inline(always)]
    fn short_taken(&mut self, bytes: &[u8], header: Header) -> (usize, bool)
        requires phase { self.old.phase ≡ p.Title }
        requires fresh { length self.old.front ≡ 0 }
        requires due { self.old.within ≡ w.Nothing }
        requires some { 0 < length bytes.now }
        requires room { self.old.offset + length bytes.now ≤ usize.MAX }
        requires title { IsTitle (take 1 bytes.now) header }
        requires taken { IsTakenTitle self.old.spelling (take 1 bytes.now) header }
        ensures some { 0 < result.0 }
        ensures within { result.0 ≤ length bytes.now }
        ensures leads { Leads (spot_at self.old) (take result.0 bytes.now) (spot_at self.new) }
        ensures title { result.1 ≡ true → self.new.phase ≡ p.Title }
        ensures item { result.1 ≡ true → self.new.within ≡ w.Nothing }
        ensures clear { result.1 ≡ true → length self.new.front ≡ 0 }
        ensures lent { AreLent self.old.levels self.new.levels }
    {
        self.place = self.offset;
        self.offset += 1;
        let rest = &bytes[1..];
        match header {
            Header::Bytes(Some(len)) if len <= rest.len() => (1 + len, self.body_taken(len)),
            Header::Text(Some(len)) if len <= rest.len() && rest[..len].is_ascii() => {
                (1 + len, self.body_taken(len)) // Of ASCII.
            }
            _ => (1, self.enter_item(header)),
        }
    }

    /// Does what [`Walk::short_taken`] does, for a title whose first byte holds its number.
    #[inline(always)]
    fn short_run(&mut self, bytes: &[u8]) -> (usize, bool)
        requires phase { self.old.phase ≡ p.Title }
        requires fresh { length self.old.front ≡ 0 }
        requires due { self.old.within ≡ w.Nothing }
        requires some { 0 < length bytes.now }
        requires room { self.old.offset + length bytes.now ≤ usize.MAX }
        requires short { affix_len (slice_index bytes.now 0 % 32) ≡ 0 }
        ensures some { 0 < result.0 }
        ensures within { result.0 ≤ length bytes.now }
        ensures leads { Leads (spot_at self.old) (take result.0 bytes.now) (spot_at self.new) }
        ensures title { result.1 ≡ true → self.new.phase ≡ p.Title }
        ensures item { result.1 ≡ true → self.new.within ≡ w.Nothing }
        ensures clear { result.1 ≡ true → length self.new.front ≡ 0 }
        ensures lent { AreLent self.old.levels self.new.levels }
    {
        match taken_header(&bytes[..1], self.spelling) {
            Some(header) => self.short_taken(bytes, header),
            None => (self.title_byte(bytes), false),
        }
    }

    /// Takes a longer title of a number, a float or a simple value, if any spelling is allowed. The first byte
    /// suffices, so the call reads no others. Returns whether another item is due.
    #[inline(always)]
    fn value_taken(&mut self, bytes: &[u8], len: usize, kind: TitleKind) -> bool
        requires phase { self.old.phase ≡ p.Title }
        requires fresh { length self.old.front ≡ 0 }
        requires due { self.old.within ≡ w.Nothing }
        requires any { self.old.spelling ≡ Any }
        requires value { is_single kind ≡ true }
        requires within { len ≤ length bytes.now }
        requires room { self.old.offset + length bytes.now ≤ usize.MAX }
        requires more { 1 < len }
        requires long { len ≡ 1 + affix_len (slice_index bytes.now 0 % 32) }
        requires kind { IsTitleKind kind (slice_index bytes.now 0 / 32) (slice_index bytes.now 0 % 32) }
        ensures leads { Leads (spot_at self.old) (take len bytes.now) (spot_at self.new) }
        ensures title { result ≡ true → self.new.phase ≡ p.Title }
        ensures item { result ≡ true → self.new.within ≡ w.Nothing }
        ensures clear { result ≡ true → length self.new.front ≡ 0 }
        ensures lent { AreLent self.old.levels self.new.levels }
    {
        self.place = self.offset;
        self.offset += len;
        self.item_over()
    }

    /// Takes the title of an item, most by the first byte, and a short string with its body. Otherwise it does what
    /// [`Walk::title_run`] does. Returns how many bytes, and whether it knows that another item is due, without a byte
    /// of its title.
    #[inline(always)]
    fn other_step(&mut self, bytes: &[u8]) -> (usize, bool)
        requires phase { self.old.phase ≡ p.Title }
        requires fresh { length self.old.front ≡ 0 }
        requires due { self.old.within ≡ w.Nothing }
        requires some { 0 < length bytes.now }
        requires room { self.old.offset + length bytes.now ≤ usize.MAX }
        ensures some { 0 < result.0 }
        ensures within { result.0 ≤ length bytes.now }
        ensures leads { Leads (spot_at self.old) (take result.0 bytes.now) (spot_at self.new) }
        ensures title { result.1 ≡ true → self.new.phase ≡ p.Title }
        ensures item { result.1 ≡ true → self.new.within ≡ w.Nothing }
        ensures clear { result.1 ≡ true → length self.new.front ≡ 0 }
        ensures lent { AreLent self.old.levels self.new.levels }
    {
        let row = row_of(bytes[0]);
        if let Affix::Within = row.affix {
            return self.short_run(bytes);
        }
        let len = 1 + row.affix.len();
        if !self.spelling.is_shortest() && is_single(row.kind) && 1 < len && len <= bytes.len() {
            return (len, self.value_taken(bytes, len, row.kind));
        }
        (self.title_run(bytes), false)
    }

    /// Takes titles of items in a row, as long as it knows that another item is due. Returns how many bytes.
    #[inline(always)]
    fn item_run(&mut self, bytes: &[u8]) -> usize
        requires phase { self.old.phase ≡ p.Title }
        requires fresh { length self.old.front ≡ 0 }
        requires due { self.old.within ≡ w.Nothing }
        requires some { 0 < length bytes.now }
        requires room { self.old.offset + length bytes.now ≤ usize.MAX }
        ensures some { 0 < result }
        ensures within { result ≤ length bytes.now }
        ensures leads { Leads (spot_at self.old) (take result bytes.now) (spot_at self.new) }
        ensures lent { AreLent self.old.levels self.new.levels }
    {
        let mut at = 0;
        'items: while at < bytes.len() {
            let (len, goes) = self.item_step(&bytes[at..]);
            at += len;
            if !goes {
                return at;
            }
        }
        at
    }

    /// Takes a title within an open string, as [`Walk::title_run`] does, away from the path of an item's title.
    #[inline(never)]
    fn title_within(&mut self, bytes: &[u8]) -> usize
        requires phase { self.old.phase ≡ p.Title }
        requires some { 0 < length bytes.now }
        requires room { self.old.offset + length bytes.now ≤ usize.MAX }
        ensures some { 0 < result }
        ensures within { result ≤ length bytes.now }
        ensures leads { Leads (spot_at self.old) (take result bytes.now) (spot_at self.new) }
        ensures lent { AreLent self.old.levels self.new.levels }
    {
        self.title_run(bytes)
    }

    /// Takes `len` of the `left` bytes of a byte string's body.
    #[inline(always)]
    fn bytes_taken(&mut self, left: usize, len: usize)
        requires room { self.old.offset + len ≤ usize.MAX }
        requires within { len ≤ left }
        ensures spot { spot_at self.new ≡ bytes_due (left - len) (counted_by len (spot_at self.old)) }
        ensures lent { AreLent self.old.levels self.new.levels }
    {
        self.front.clear();
        self.offset += len;
        self.bytes_due(left - len);
    }

    /// Takes those of the `left` bytes of a byte string's body that are there. Returns how many.
    #[inline(always)]
    fn bytes_run(&mut self, left: usize, bytes: &[u8]) -> usize
        requires phase { self.old.phase ≡ p.Bytes left }
        requires some { 0 < length bytes.now }
        requires room { self.old.offset + length bytes.now ≤ usize.MAX }
        ensures some { 0 < result }
        ensures within { result ≤ length bytes.now }
        ensures leads { Leads (spot_at self.old) (take result bytes.now) (spot_at self.new) }
        ensures lent { AreLent self.old.levels self.new.levels }
    {
        let len = left.min(bytes.len());
        self.bytes_taken(left, len);
        len
    }

    /// Goes on with a text that has `left` bytes left, in this state.
    #[inline(always)]
    fn text_left(&mut self, left: usize, state: State)
        ensures spot { spot_at self.new ≡ text_left (may_end state left) left state (spot_at self.old) }
        ensures lent { AreLent self.old.levels self.new.levels }
    {
        if !state.may_end(left) {
            self.refuse();
        } else if left == 0 {
            self.string_done();
        } else {
            self.phase = Phase::Text(left, state);
        }
    }

    /// Takes `len` of the `left` bytes of a text's body, which lead to this state.
    #[inline(always)]
    fn text_taken(&mut self, left: usize, len: usize, state: State)
        requires room { self.old.offset + len ≤ usize.MAX }
        requires within { len ≤ left }
        ensures spot { spot_at self.new
            ≡ text_left (may_end state (left - len)) (left - len) state (counted_by len (spot_at self.old)) }
        ensures lent { AreLent self.old.levels self.new.levels }
    {
        self.front.clear();
        self.offset += len;
        self.text_left(left - len, state);
    }

    /// Takes one of the `left` bytes of a text's body.
    fn text_step(&mut self, left: usize, state: State, byte: u8)
        requires room { self.old.offset < usize.MAX }
        requires some { 0 < left }
        ensures spot { let next = after_byte state byte in spot_at self.new
            ≡ text_left (may_end next (left - 1)) (left - 1) next (counted (spot_at self.old)) }
        ensures lent { AreLent self.old.levels self.new.levels }
    {
        self.text_taken(left, 1, state.step(byte));
    }

    /// Takes those of the `left` bytes of a text's body that are there, from between two characters on. If no text goes
    /// on so, it takes the whole characters at the start, or one byte if there are none. Returns how many bytes.
    #[inline(always)]
    fn text_run(&mut self, left: usize, bytes: &[u8]) -> usize
        requires phase { self.old.phase ≡ p.Text left s.Between }
        requires some { 0 < length bytes.now }
        requires room { self.old.offset + length bytes.now ≤ usize.MAX }
        ensures some { 0 < result }
        ensures within { result ≤ length bytes.now }
        ensures leads { Leads (spot_at self.old) (take result bytes.now) (spot_at self.new) }
        ensures lent { AreLent self.old.levels self.new.levels }
    {
        let len = left.min(bytes.len());
        let (front, behind) = text_front(&bytes[..len], 0, State::Between);
        if behind.may_end(left - len) {
            self.text_taken(left, len, behind);
            return len;
        }
        let whole = front.len();
        if whole > 0 {
            self.text_taken(left, whole, State::Between);
            return whole;
        }
        self.text_step(left, State::Between, bytes[0]);
        1
    }

    /// Does what [`Walk::text_run`] does, for the bytes of a piece from `at` on. It takes a few bytes of ASCII without
    /// a branch by their number, whether the text or the piece ends with them.
    #[inline(always)]
    fn text_from(&mut self, left: usize, bytes: &[u8], at: usize) -> usize
        requires phase { self.old.phase ≡ p.Text left s.Between }
        requires some { at < length bytes.now }
        requires room { self.old.offset + length (rest_of bytes.now at) ≤ usize.MAX }
        ensures some { 0 < result }
        ensures within { result ≤ length (rest_of bytes.now at) }
        ensures leads { Leads (spot_at self.old) (take result (rest_of bytes.now at)) (spot_at self.new) }
        ensures lent { AreLent self.old.levels self.new.levels }
    {
        let len = left.min(bytes.len() - at);
        if is_short_ascii(bytes, at, len) {
            self.text_taken(left, len, State::Between);
            return len;
        }
        self.text_run(left, &bytes[at..])
    }

    /// Returns whether more bytes may come.
    #[inline(always)]
    fn is_due(&self) -> bool
        ensures { result ≡ is_due self.now.phase }
    {
        !matches!(self.phase, Phase::Ended | Phase::Faulted(_))
    }

    /// Takes titles of items, a title or a byte of a title, or the bytes of a body that are there, from `at` on.
    /// Returns how many bytes.
    fn run(&mut self, bytes: &[u8], at: usize) -> usize
        requires some { at < length bytes.now }
        requires room { self.old.offset + length (rest_of bytes.now at) ≤ usize.MAX }
        requires due { is_due self.old.phase ≡ true }
        ensures some { 0 < result }
        ensures within { result ≤ length (rest_of bytes.now at) }
        ensures leads { Leads (spot_at self.old) (take result (rest_of bytes.now at)) (spot_at self.new) }
        ensures lent { AreLent self.old.levels self.new.levels }
    {
        let rest = &bytes[at..];
        match self.phase {
            Phase::Title if self.front.len() > 0 => self.title_byte(rest),
            Phase::Title => match self.within {
                Within::Nothing => self.items(rest),
                Within::Open(_, _) => self.title_within(rest),
            },
            Phase::Bytes(left) => self.bytes_run(left, rest),
            Phase::Text(left, State::Between) => self.text_from(left, bytes, at),
            Phase::Text(left, state) => {
                self.text_step(left, state, rest[0]);
                1
            }
            Phase::Ended | Phase::Faulted(_) => unreachable!(),
        }
    }

    /// Takes the bytes up to the end of the item or up to the fault, or all. Returns how many. It stays one function
    /// with all of a title's path inlined, however many calls feed a checker.
    #[inline(never)]
    fn run_all(&mut self, bytes: &[u8]) -> usize
        requires { self.old.offset + length bytes.now ≤ usize.MAX }
        ensures within { result ≤ length bytes.now }
        ensures all { is_due self.new.phase ≡ true → result ≡ length bytes.now }
        ensures leads { Leads (spot_at self.old) (take result bytes.now) (spot_at self.new) }
        ensures lent { AreLent self.old.levels self.new.levels }
    {
        let mut at = 0;
        'runs: while at < bytes.len() && self.is_due() {
            at += self.run(bytes, at);
        }
        at
    }

    /// Takes a piece of the item's bytes, as [`Checker::feed`](crate::Checker::feed) does. Returns how many.
    #[inline(always)]
    pub(crate) fn take(&mut self, bytes: &[u8]) -> usize
        ensures taken { result ≤ length bytes.now }
        ensures full { result < length bytes.now → is_due self.new.phase ≡ true → self.new.offset ≡ usize.MAX }
        ensures fed { (allowed : Spelling) (depth : ℕ) (fed : List ℕ) → IsFed allowed depth fed (spot_at self.old)
            → IsFed allowed depth (fed ++ take result bytes.now) (spot_at self.new) }
        ensures counted { (allowed : Spelling) (depth : ℕ) (fed : List ℕ) → IsFed allowed depth fed (spot_at self.old)
            → length fed + result ≤ usize.MAX }
        ensures stays { is_due self.old.phase ≡ false → (result ≡ 0) × (spot_at self.new ≡ spot_at self.old) }
        ensures lent { AreLent self.old.levels self.new.levels }
    {
        let counted = bytes.len().min(usize::MAX - self.offset);
        self.run_all(&bytes[..counted])
    }
}
