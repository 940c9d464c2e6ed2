//! The parser.

ghost use Rattle.std.specs.Prelude.{◌≡◌, ◌≤◌, length, true};
ghost use Rattle.ciborium_ll_text.specs.Text.{IsStuck};
ghost use Rattle.cbor_parser.specs.Phases.{carried_of, has_left, most_front};
ghost use Rattle.cbor_parser.specs.Strings.{open_count};
ghost use Rattle.ciborium_ll_grammar.specs.declared.spelling.Spelling.{Spelling};
ghost use Rattle.ciborium_ll_grammar.specs.declared.spelling.Spelling.TheVariants.{Any, Shortest};

use crate::event::{Event, Pushed, title_event};
use crate::few::Few;
use crate::phase::Phase;
use crate::saved::{Saved, is_state, spelling_of};
use crate::strings::Within;
use crate::title::{add, taken_header};
use ciborium_ll_grammar::hdr::table::row_of;
use ciborium_ll_grammar::limits::LONGEST_TITLE;
use ciborium_ll_grammar::spelling::Spelling;
use ciborium_ll_text::state::{State, text_front};

/// The most bytes of a text that are looked at to end a character: as many as the longest character has.
const CHARACTER: usize = 4;

/// Parses CBOR (RFC 7049, 2.1 to 2.4), whose bytes a caller gives in pieces of any length to [`Parser::push`].
///
/// A parser has a fixed size. It does not count the items in arrays and maps: it reads any number of titles, each with
/// its body, and checks which ones stand within a string of indefinite length.
#[derive(Drop)]
pub struct Parser {
    spelling: Spelling,
    phase: Phase,
    front: Few,
    within: Within,
    offset: usize,
    ghost left: { has_left phase ≡ true },
    ghost fits: { length front ≤ most_front phase front },
    ghost stuck: { IsStuck (carried_of phase front) },
    ghost counted: { open_count within ≤ offset },
}

impl Parser {
    ghost use Rattle.std.specs.Prelude.{◌<◌, ◌+◌, ◌-◌, ◌%◌, ◌++◌, ◌⊎◌, Bool, ℕ, List, [], IfSome, IfNone, IsSomeAnd};
    ghost use Rattle.std.specs.Prelude.{slice_index, take, false};
    ghost use Rattle.cbor_parser.specs.Events.{carried_bytes};
    ghost use Rattle.cbor_parser.specs.Parsing.{AreTokens, AtFault, AtTitle, Token, due_of, point_of};
    ghost use Rattle.cbor_parser.specs.Pushing.{Enters, HasPushed, Pushes, Stops, text_point};
    ghost use Rattle.cbor_parser.specs.Saving.{Holds, Keeps};
    ghost use Rattle.cbor_parser.specs.declared.event.Event.TheVariants as e;
    ghost use Rattle.cbor_parser.specs.declared.phase.Phase.TheVariants as p;
    ghost use Rattle.cbor_parser.specs.declared.strings.Within.TheVariants as w;
    ghost use Rattle.ciborium_ll_grammar.specs.Title.{affix_len};
    ghost use Rattle.ciborium_ll_grammar.specs.declared.limits.TheConstants.{MOST_KEPT};

    /// Makes a parser that takes any spelling, to which no byte was pushed.
    pub fn new() -> Parser
        ensures { HasPushed Any [] [] result }
    {
        Parser::with_spelling(Spelling::Any)
    }

    /// Makes a parser that takes the shortest spelling alone (RFC 7049, 3.9), to which no byte was pushed.
    ///
    /// Each title is the shortest of its header, no simple value from 24 to 31 occurs, and strings within an open
    /// string have a definite length. Any other title is a fault at its offset.
    pub fn strict() -> Parser
        ensures { HasPushed Shortest [] [] result }
    {
        Parser::with_spelling(Spelling::Shortest)
    }

    /// Makes the parser of [`Parser::new`] for `Any`, and that of [`Parser::strict`] for `Shortest`.
    pub fn with_spelling(spelling: Spelling) -> Parser
        ensures { HasPushed spelling [] [] result }
    {
        Parser {
            spelling,
            phase: Phase::Title,
            front: Few::new(),
            within: Within::Nothing,
            offset: 0,
        }
    }

    /// Returns how many bytes were pushed and taken.
    pub fn offset(&self) -> usize
        ensures { (allowed : Spelling) (before : List ℕ) (tokens : List Token) → HasPushed allowed before tokens
            self.now
            → result ≡ length before }
    {
        self.offset
    }

    /// Returns how many bytes the title or the body that is under way lacks: 1 before a title, and 0 after a fault.
    pub fn due(&self) -> usize
        ensures { result ≡ due_of (point_of self.now) }
    {
        match self.phase {
            Phase::Title => {
                let front = self.front.bytes();
                if front.is_empty() {
                    1
                } else {
                    1 + row_of(front[0]).affix.len() - front.len()
                }
            }
            Phase::Bytes(left) | Phase::Text(left, _) => left,
            Phase::Faulted(_) => 0,
        }
    }

    /// Returns whether the bytes may end here: no title, no body and no string of indefinite length is under way.
    ///
    /// The call does not ask if an array or a map goes on.
    pub fn is_between(&self) -> bool
        ensures yes { result ≡ true → point_of self.now ≡ AtTitle w.Nothing [] }
        ensures no { point_of self.now ≡ AtTitle w.Nothing [] → result ≡ true }
        ensures whole { (allowed : Spelling) (before : List ℕ) (tokens : List Token) → result ≡ true
            → HasPushed allowed before tokens self.now → AreTokens allowed before tokens w.Nothing }
    {
        match (self.phase, self.within) {
            (Phase::Title, Within::Nothing) => self.front.len() == 0,
            _ => false,
        }
    }

    /// Takes bytes from the beginning of a piece, and tells what they are. A caller pushes the rest of the piece until
    /// no byte is left, or until the answer is a `Fault` or `TooLong`.
    ///
    /// For `82 42 05`, three calls take `82`, `42` and `05`. They answer with two headers, and with a `Body` that lacks
    /// one byte. For `19 01` one call takes both bytes, and answers with `Need(1)`.
    ///
    /// A call takes the rest of a title, a part of a body, or a part of these that ends with the piece. A fault stays:
    /// each later call answers the same fault, and takes nothing.
    pub fn push(&mut self, bytes: &[u8]) -> Pushed
        ensures taken { result.taken ≤ length bytes.now }
        ensures some { 0 < length bytes.now → (0 < result.taken) ⊎ Stops result.event }
        ensures few { length (carried_bytes result.event) ≤ MOST_KEPT }
        ensures pushed { (allowed : Spelling) (before : List ℕ) (tokens : List Token)
            → HasPushed allowed before tokens self.old → Pushes allowed before tokens bytes.now result self.new }
        ensures stays { (place : ℕ) → point_of self.old ≡ AtFault place
            → (result.taken ≡ 0) × (result.event ≡ e.Fault place) × (self.new ≡ self.old) }
    {
        if let Phase::Faulted(place) = self.phase {
            return Pushed {
                taken: 0,
                event: Event::Fault(place),
            };
        }
        if bytes.len() > usize::MAX - self.offset {
            return Pushed {
                taken: 0,
                event: Event::TooLong,
            };
        }
        if bytes.is_empty() {
            return Pushed {
                taken: 0,
                event: Event::Need(self.due()),
            };
        }
        match self.phase {
            Phase::Title => self.push_title(bytes),
            Phase::Bytes(left) => self.push_bytes(left, bytes),
            Phase::Text(left, place) => self.push_text(left, place, bytes),
            Phase::Faulted(_) => unreachable!(),
        }
    }

    /// Returns the parser as plain numbers.
    pub fn save(&self) -> Saved
        ensures holds { Holds result self.now }
        ensures keeps { (allowed : Spelling) (before : List ℕ) (tokens : List Token)
            → HasPushed allowed before tokens self.now → Keeps allowed before tokens result }
    {
        let (phase, number, place) = self.phase.numbers();
        let (strings, more) = self.within.numbers();
        let (kept, kept_len) = self.front.save();
        Saved {
            offset: self.offset as u64,
            number: number as u64,
            place: place as u64,
            more: more as u64,
            kept,
            kept_len: kept_len as u8,
            phase,
            strings,
            strict: u8::from(self.spelling.is_shortest()),
        }
    }

    /// Returns the parser that these numbers hold, or `None` if they are the numbers of no parser.
    pub fn restore(saved: Saved) -> Option<Parser>
        ensures kept { (allowed : Spelling) (before : List ℕ) (tokens : List Token) → Keeps allowed before tokens saved
            → IsSomeAnd result (HasPushed allowed before tokens) }
        ensures some { IfSome result (Holds saved) }
        ensures none { IfNone result ((parser : Parser) → Holds saved parser → ⊥) }
    {
        let phase = Phase::of(saved.phase, saved.number as usize, saved.place as usize)?;
        let within = Within::of(saved.strings, saved.more as usize)?;
        let spelling = spelling_of(saved.strict)?;
        let len = usize::from(saved.kept_len);
        if len > LONGEST_TITLE {
            return None;
        }
        let front = Few::restore(&saved.kept, len);
        let offset = saved.offset as usize;
        if !is_state(phase, &front, within, offset) {
            return None;
        }
        Some(Parser {
            spelling,
            phase,
            front,
            within,
            offset,
        })
    }

    /// Takes bytes of a title from a piece that is not empty.
    fn push_title(&mut self, bytes: &[u8]) -> Pushed
        requires phase { self.old.phase ≡ p.Title }
        requires some { 0 < length bytes.now }
        requires room { self.old.offset + length bytes.now ≤ usize.MAX }
        ensures taken { result.taken ≤ length bytes.now }
        ensures some { 0 < result.taken }
        ensures few { length (carried_bytes result.event) ≤ MOST_KEPT }
        ensures pushed { (allowed : Spelling) (before : List ℕ) (tokens : List Token)
            → HasPushed allowed before tokens self.old → Pushes allowed before tokens bytes.now result self.new }
    {
        let due = self.title_due(bytes);
        if bytes.len() < due {
            add(&mut self.front, bytes);
            self.offset += bytes.len();
            return Pushed {
                taken: bytes.len(),
                event: Event::Need(due - bytes.len()),
            };
        }
        let start = self.offset.saturating_sub(self.front.len());
        add(&mut self.front, &bytes[..due]);
        let title = self.front.take();
        self.offset += due;
        Pushed {
            taken: due,
            event: self.enter(title.bytes(), start),
        }
    }

    /// Returns how many bytes the title lacks, if these come next.
    fn title_due(&self, bytes: &[u8]) -> usize
        requires phase { self.now.phase ≡ p.Title }
        requires some { 0 < length bytes.now }
        ensures some { 0 < result }
        ensures long { length self.now.front + result
            ≡ 1 + affix_len (slice_index (self.now.front ++ bytes.now) 0 % 32) }
    {
        let front = self.front.bytes();
        if front.is_empty() {
            1 + row_of(bytes[0]).affix.len()
        } else {
            1 + row_of(front[0]).affix.len() - front.len()
        }
    }

    /// Enters a whole title, which began at `start`: it is a header, or a fault.
    fn enter(&mut self, title: &[u8], start: usize) -> Event
        requires fresh { self.old.front ≡ [] }
        requires long { length title.now ≡ 1 + affix_len (slice_index title.now 0 % 32) }
        requires counted { open_count self.old.within < self.old.offset }
        ensures entered { Enters self.old.spelling self.old.within title.now start self.old.offset result
            (point_of self.new) }
        ensures spelling { self.new.spelling ≡ self.old.spelling }
        ensures offset { self.new.offset ≡ self.old.offset }
    {
        let end = self.offset;
        let Some(header) = taken_header(title, self.spelling) else {
            return self.refuse(start);
        };
        let Some(within) = self.within.after(self.spelling, header) else {
            return self.refuse(start);
        };
        let event = title_event(self.within, header, start);
        self.phase = Phase::after(self.within, start, end, header);
        self.within = within;
        event
    }

    /// Refuses a title: a fault at this place.
    fn refuse(&mut self, place: usize) -> Event
        requires { self.old.front ≡ [] }
        ensures event { result ≡ e.Fault place }
        ensures point { point_of self.new ≡ AtFault place }
        ensures spelling { self.new.spelling ≡ self.old.spelling }
        ensures offset { self.new.offset ≡ self.old.offset }
    {
        self.phase = Phase::Faulted(place);
        Event::Fault(place)
    }

    /// Takes bytes of the body of a byte string, which has `left` bytes left, from a piece that is not empty.
    fn push_bytes(&mut self, left: usize, bytes: &[u8]) -> Pushed
        requires phase { self.old.phase ≡ p.Bytes left }
        requires some { 0 < length bytes.now }
        requires room { self.old.offset + length bytes.now ≤ usize.MAX }
        ensures taken { result.taken ≤ length bytes.now }
        ensures some { 0 < result.taken }
        ensures few { length (carried_bytes result.event) ≤ MOST_KEPT }
        ensures pushed { (allowed : Spelling) (before : List ℕ) (tokens : List Token)
            → HasPushed allowed before tokens self.old → Pushes allowed before tokens bytes.now result self.new }
    {
        let taken = left.min(bytes.len());
        self.front.clear();
        self.offset += taken;
        self.phase = Phase::bytes_left(left - taken);
        Pushed {
            taken,
            event: Event::Body { left: left - taken },
        }
    }

    /// Takes bytes of the body of a text, which has `left` bytes left, from a piece that is not empty.
    fn push_text(&mut self, left: usize, place: usize, bytes: &[u8]) -> Pushed
        requires phase { self.old.phase ≡ p.Text left place }
        requires some { 0 < length bytes.now }
        requires room { self.old.offset + length bytes.now ≤ usize.MAX }
        ensures taken { result.taken ≤ length bytes.now }
        ensures some { 0 < result.taken }
        ensures few { length (carried_bytes result.event) ≤ MOST_KEPT }
        ensures pushed { (allowed : Spelling) (before : List ℕ) (tokens : List Token)
            → HasPushed allowed before tokens self.old → Pushes allowed before tokens bytes.now result self.new }
    {
        if self.front.len() > 0 {
            return self.push_character(left, place, bytes);
        }
        let len = left.min(bytes.len());
        let whole = text_front(&bytes[..len], 0, State::Between).0.len();
        if whole > 0 {
            return self.take_text(left, place, whole);
        }
        self.push_character(left, place, bytes)
    }

    /// Takes a part of a text: the bytes that are kept, and `taken` bytes of the piece.
    fn take_text(&mut self, left: usize, place: usize, taken: usize) -> Pushed
        requires phase { self.old.phase ≡ p.Text left place }
        requires within { taken ≤ left }
        requires room { self.old.offset + taken ≤ usize.MAX }
        ensures taken { result.taken ≡ taken }
        ensures event { result.event ≡ e.Text self.old.front (left - taken) }
        ensures point { point_of self.new ≡ text_point self.old.within (left - taken) place }
        ensures spelling { self.new.spelling ≡ self.old.spelling }
        ensures offset { self.new.offset ≡ self.old.offset + taken }
    {
        let carried = self.front.take();
        self.offset += taken;
        self.phase = Phase::text_left(left - taken, place);
        Pushed {
            taken,
            event: Event::Text {
                carried,
                left: left - taken,
            },
        }
    }

    /// Takes bytes of a character that is not whole: those that end it, or all of the piece.
    fn push_character(&mut self, left: usize, place: usize, bytes: &[u8]) -> Pushed
        requires phase { self.old.phase ≡ p.Text left place }
        requires some { 0 < length bytes.now }
        requires room { self.old.offset + length bytes.now ≤ usize.MAX }
        ensures taken { result.taken ≤ length bytes.now }
        ensures some { 0 < result.taken }
        ensures few { length (carried_bytes result.event) ≤ MOST_KEPT }
        ensures pushed { (allowed : Spelling) (before : List ℕ) (tokens : List Token)
            → HasPushed allowed before tokens self.old → Pushes allowed before tokens bytes.now result self.new }
    {
        let len = left.min(bytes.len()).min(CHARACTER);
        let mut joined = self.front.copy();
        add(&mut joined, &bytes[..len]);
        let (front, behind) = text_front(joined.bytes(), 0, State::Between);
        let whole = front.len();
        if whole > 0 {
            let taken = whole - self.front.len();
            return self.take_text(left, place, taken);
        }
        self.offset += len;
        if !behind.may_end(left - len) {
            self.front.clear();
            self.phase = Phase::Faulted(place);
            return Pushed {
                taken: len,
                event: Event::Fault(place),
            };
        }
        self.front = joined;
        self.phase = Phase::Text(left - len, place);
        Pushed {
            taken: len,
            event: Event::Need(left - len),
        }
    }
}
