//! Parsers that a program in C keeps in memory of its own.

ghost use Rattle.std.specs.Prelude.{◌≡◌, ◌≤◌, ◌<◌, ◌⊎◌, ℕ, List, [], IfSome, IsSomeAnd, length, take};
ghost use Rattle.ciborium_ll_grammar.specs.declared.spelling.Spelling.{Spelling};
ghost use Rattle.ciborium_ll_grammar.specs.declared.spelling.Spelling.TheVariants.{Any, Shortest};
ghost use Rattle.ciborium_ll_grammar.specs.declared.limits.TheConstants.{MOST_KEPT};
ghost use Rattle.cbor_parser.specs.Events.{carried_bytes};
ghost use Rattle.cbor_parser.specs.Parsing.{Token, point_of};
ghost use Rattle.cbor_parser.specs.Pushing.{HasPushed};
ghost use Rattle.capi.specs.declared.answer.CllAnswer.{CllAnswer};
ghost use Rattle.capi.specs.declared.answer.CllAnswer.TheVariants as a;
ghost use Rattle.capi.specs.Answers.{IsCode, Reports, code};
ghost use Rattle.capi.specs.Parsing.{EndsParse, Gives, HoldsParser, IsNoParser, IsParseKept, IsParser, IsPlain};
ghost use Rattle.capi.specs.Parsing.{PushesPiece, SaysAt, StopsPieces};

use crate::answer::{CllAnswer, CllReport};
use crate::header::CllHeader;
use cbor_parser::few::Few;
use cbor_parser::{Event, Parser, Pushed, Saved};
use ciborium_ll_grammar::hdr::Header;
use ciborium_ll_grammar::limits::MOST_KEPT;
use ciborium_ll_grammar::spelling::Spelling;

/// The first eight bytes of a parser that was set up: "headings" in ASCII.
const MARK: u64 = 0x6865_6164_696e_6773;

/// A parser of titles and bodies whose bytes come in pieces, in memory of the caller's own.
#[derive(Drop)]
#[repr(C)]
pub struct CllParser {
    /// A number that other memory is unlikely to hold.
    pub mark: u64,
    /// How far the bytes have come, as plain numbers.
    pub state: Saved,
}

const _: () = prove!(size_of::<CllParser>() == 56);

/// What a parser found in the bytes that it took. A number that has no meaning for an event is 0.
#[derive(Clone, Copy, Debug, PartialEq, Eq)]
#[repr(C)]
pub struct CllEvent {
    /// How many bytes of the piece the call took.
    pub consumed: u64,
    /// Of a header or a close, the offset of its title. Of no event, the offset of a fault, or how many bytes are due.
    pub place: u64,
    /// Of a part of a body, how many bytes the body still lacks.
    pub left: u64,
    /// The meaning of a title.
    pub header: CllHeader,
    /// The kind, by its number: 0 no event, 1 a header, 2 a close, 3 a part of a byte string, 4 a part of a text.
    pub kind: u8,
    /// Of a part of a text, how many bytes of it earlier pieces had.
    pub carried_len: u8,
    /// These bytes, and then zeros.
    pub carried: [u8; MOST_KEPT],
}

impl CllParser {
    /// Returns the parser that this memory holds, if it holds one.
    #[inline(always)]
    #[tactic(auto, using(crate::proofs::ParserLaws::is_parser))]
    fn restored(&self) -> Option<Parser>
        ensures some { IfSome result (λ parser. IsParser self.now) }
        ensures kept { (allowed : Spelling) (bytes : List ℕ) (tokens : List Token)
            → IsParseKept allowed bytes tokens self.now → IsSomeAnd result (HasPushed allowed bytes tokens) }
    {
        if self.mark == MARK {
            Parser::restore(self.state)
        } else {
            None
        }
    }

    /// Keeps a parser. The call writes field by field: a copy of the struct also copies the bytes after its fields.
    #[inline(always)]
    fn keep(&mut self, parser: &Parser)
        ensures { HoldsParser self.new parser.now }
    {
        let saved = parser.save();
        let kept = saved.kept;
        self.mark = MARK;
        self.state.offset = saved.offset;
        self.state.number = saved.number;
        self.state.place = saved.place;
        self.state.more = saved.more;
        self.state.kept = kept;
        self.state.kept_len = saved.kept_len;
        self.state.phase = saved.phase;
        self.state.strings = saved.strings;
        self.state.strict = saved.strict;
    }
}

impl CllEvent {
    /// Makes an event of this kind without a header and without carried bytes.
    #[inline(always)]
    fn plain(kind: u8, consumed: usize, place: usize, left: usize) -> CllEvent
        ensures { IsPlain result kind consumed place left }
    {
        CllEvent {
            consumed: consumed as u64,
            place: place as u64,
            left: left as u64,
            header: CllHeader {
                value: 0,
                kind: 0,
                indefinite: 0,
            },
            kind,
            carried_len: 0,
            carried: [0; MOST_KEPT],
        }
    }

    /// Takes the fields of another event one by one. A copy of the struct also copies the bytes between its fields.
    #[inline(always)]
    fn assign(&mut self, other: CllEvent)
        ensures { self.new ≡ other }
    {
        self.consumed = other.consumed;
        self.place = other.place;
        self.left = other.left;
        self.header.value = other.header.value;
        self.header.kind = other.header.kind;
        self.header.indefinite = other.header.indefinite;
        self.kind = other.kind;
        self.carried_len = other.carried_len;
        let carried = other.carried;
        self.carried = carried;
    }
}

/// Returns these bytes, at the start of an array of zeros.
#[inline(always)]
fn padded(few: &Few) -> [u8; MOST_KEPT]
    requires { length few.now ≤ MOST_KEPT }
    ensures { take (length few.now) result ≡ few.now }
{
    let mut bytes = [0; MOST_KEPT];
    bytes[..few.len()].copy_from_slice(few.bytes());
    bytes
}

/// Returns the answer to a piece, and the event.
#[inline(always)]
fn told(pushed: Pushed) -> (CllAnswer, CllEvent)
    requires { length (carried_bytes pushed.event) ≤ MOST_KEPT }
    ensures { Gives pushed result.0 result.1 }
{
    let taken = pushed.taken;
    match pushed.event {
        Event::Need(due) => (CllAnswer::Short, CllEvent::plain(0, taken, due, 0)),
        Event::Header { header, offset } => {
            let mut event = CllEvent::plain(1, taken, offset, 0);
            event.header = CllHeader::of(header);
            (CllAnswer::Ok, event)
        }
        Event::Close { offset } => {
            let mut event = CllEvent::plain(2, taken, offset, 0);
            event.header = CllHeader::of(Header::Break);
            (CllAnswer::Ok, event)
        }
        Event::Body { left } => (CllAnswer::Ok, CllEvent::plain(3, taken, 0, left)),
        Event::Text { carried, left } => {
            let mut event = CllEvent::plain(4, taken, 0, left);
            event.carried_len = carried.len() as u8;
            let bytes = padded(&carried);
            event.carried = bytes;
            (CllAnswer::Ok, event)
        }
        Event::Fault(place) => (CllAnswer::Syntax, CllEvent::plain(0, taken, place, 0)),
        Event::TooLong => (CllAnswer::TooLong, CllEvent::plain(0, taken, 0, 0)),
    }
}

/// Sets a parser up that takes any spelling (RFC 7049, 2.1 to 2.4).
pub fn cll_parser_init(parser: &mut CllParser) -> u32
    ensures { (result ≡ code a.Ok) × IsParseKept Any [] [] parser.new }
{
    parser.keep(&Parser::new());
    CllAnswer::Ok.code()
}

/// Sets a parser up that takes the shortest spelling alone (RFC 7049, 3.9).
pub fn cll_parser_init_strict(parser: &mut CllParser) -> u32
    ensures { (result ≡ code a.Ok) × IsParseKept Shortest [] [] parser.new }
{
    parser.keep(&Parser::strict());
    CllAnswer::Ok.code()
}

/// Gives a parser a piece of its bytes, and tells the first event of it.
pub fn cll_parser_push(parser: &mut CllParser, bytes: &[u8], event: &mut CllEvent) -> u32
    ensures pushed { (allowed : Spelling) (before : List ℕ) (tokens : List Token)
        → IsParseKept allowed before tokens parser.old → (answer : CllAnswer) × (result ≡ code answer)
        × PushesPiece allowed before tokens bytes.now answer event.new parser.new }
    ensures answers { IsCode result }
    ensures within { (event.new.consumed ≤ length bytes.now) × (event.new.carried_len ≤ MOST_KEPT) }
    ensures some { 0 < length bytes.now → (0 < event.new.consumed) ⊎ StopsPieces result }
    ensures argument { IsNoParser parser.old
        → (result ≡ code a.Argument) × (parser.new ≡ parser.old) × IsPlain event.new 0 0 0 0 }
{
    let Some(mut restored) = parser.restored() else {
        event.assign(CllEvent::plain(0, 0, 0, 0));
        return CllAnswer::Argument.code();
    };
    let (answer, found) = told(restored.push(bytes));
    parser.keep(&restored);
    event.assign(found);
    answer.code()
}

/// Returns the answer at the end of the bytes, and the number that comes with it.
fn told_end(parser: &mut Parser) -> (CllAnswer, usize)
    ensures { (allowed : Spelling) (bytes : List ℕ) (tokens : List Token) → HasPushed allowed bytes tokens parser.old
        → SaysAt (point_of parser.old) result.0 result.1 }
{
    if parser.is_between() {
        return (CllAnswer::Ok, 0);
    }
    let due = parser.due();
    match parser.push(&[]).event {
        Event::Fault(place) => (CllAnswer::Syntax, place),
        _ => (CllAnswer::Short, due),
    }
}

/// Says what it means that no more bytes come to a parser, and leaves it as it is.
pub fn cll_parser_end(parser: &CllParser, report: &mut CllReport) -> u32
    ensures ended { (allowed : Spelling) (bytes : List ℕ) (tokens : List Token)
        → IsParseKept allowed bytes tokens parser.now
        → (answer : CllAnswer) × (result ≡ code answer) × EndsParse allowed bytes tokens answer report.new }
    ensures answers { IsCode result }
    ensures argument { IsNoParser parser.now → (result ≡ code a.Argument) × Reports report.new 0 0 0 }
{
    let Some(mut restored) = parser.restored() else {
        report.say(0, 0, 0);
        return CllAnswer::Argument.code();
    };
    let (answer, place) = told_end(&mut restored);
    report.say(0, 0, place);
    answer.code()
}
