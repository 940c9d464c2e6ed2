//! The calls of a parser.

ghost use Rattle.std.specs.Prelude.{◌≡◌, ◌≤◌, ◌<◌, ◌⊎◌, ℕ, List, [], length};
ghost use Rattle.ciborium_ll.specs.Types.Spelling.{Spelling};
ghost use Rattle.ciborium_ll.specs.Types.Spelling.TheVariants.{Any, Shortest};
ghost use Rattle.cbor_parser.specs.Parsing.{Token};
ghost use Rattle.capi.specs.declared.answer.CllAnswer.{CllAnswer};
ghost use Rattle.capi.specs.declared.answer.CllAnswer.TheVariants as a;
ghost use Rattle.capi.specs.Answers.{IsCode, Reports, code};
ghost use Rattle.capi.specs.Parsing.{EndsParse, IsNoParser, IsParseKept, IsPlain, PushesPiece, StopsPieces};
ghost use Rattle.ciborium_ll.specs.Limits.{MOST_KEPT};

use capi::{CllEvent, CllParser, CllReport};

/// Sets a parser up (RFC 7049, 2.1 to 2.4), whatever the memory held. It reads any number of titles, each with its
/// body, and does not count the items in arrays and maps.
#[unsafe(no_mangle)]
pub extern "C" fn cll_parser_init(parser: &mut CllParser) -> u32
    ensures { (result ≡ code a.Ok) × IsParseKept Any [] [] parser.new }
{
    capi::cll_parser_init(parser)
}

/// Sets a parser up as [`cll_parser_init`] does, for the shortest spelling alone (RFC 7049, 3.9): each other title is a
/// fault at its offset.
#[unsafe(no_mangle)]
pub extern "C" fn cll_parser_init_strict(parser: &mut CllParser) -> u32
    ensures { (result ≡ code a.Ok) × IsParseKept Shortest [] [] parser.new }
{
    capi::cll_parser_init_strict(parser)
}

/// Gives a parser a piece of its bytes, and fills `event` with the first event of it. A caller pushes the rest of the
/// piece until no byte is left, or until a fault.
///
/// How the caller cuts the bytes into pieces changes no title, no body and no fault. After `Syntax` a later call takes
/// nothing, and answers the same.
///
/// # Answers
///
/// - `Ok`: a title, or a part of a body. `consumed` counts its bytes in the piece.
/// - `Short`: a title or a character goes on. All bytes were taken, and the place is how many are due.
/// - `Syntax`: no title that may stand there begins so, or a text is not UTF-8. The place is an offset in all bytes.
/// - `TooLong`: more than `u64::MAX` bytes would have come. No byte of the piece was taken.
/// - `Argument`: the memory holds no parser.
#[unsafe(no_mangle)]
pub extern "C" fn cll_parser_push(parser: &mut CllParser, bytes: &[u8], event: &mut CllEvent) -> u32
    ensures pushed { (allowed : Spelling) (before : List ℕ) (tokens : List Token)
        → IsParseKept allowed before tokens parser.old → (answer : CllAnswer) × (result ≡ code answer)
        × PushesPiece allowed before tokens bytes.now answer event.new parser.new }
    ensures answers { IsCode result }
    ensures within { (event.new.consumed ≤ length bytes.now) × (event.new.carried_len ≤ MOST_KEPT) }
    ensures some { 0 < length bytes.now → (0 < event.new.consumed) ⊎ StopsPieces result }
    ensures argument { IsNoParser parser.old
        → (result ≡ code a.Argument) × (parser.new ≡ parser.old) × IsPlain event.new 0 0 0 0 }
{
    capi::cll_parser_push(parser, bytes, event)
}

/// Says what it means that no more bytes come to a parser.
///
/// # Answers
///
/// - `Ok`: no title, no body and no string of indefinite length is under way. The call does not ask if an array or a
///   map goes on.
/// - `Short`: one is, and the place is how many bytes of a title or of a body are due: 1 if a title is about to begin.
/// - `Syntax`, `Argument`: as of [`cll_parser_push`].
#[unsafe(no_mangle)]
pub extern "C" fn cll_parser_end(parser: &CllParser, report: &mut CllReport) -> u32
    ensures ended { (allowed : Spelling) (bytes : List ℕ) (tokens : List Token)
        → IsParseKept allowed bytes tokens parser.now
        → (answer : CllAnswer) × (result ≡ code answer) × EndsParse allowed bytes tokens answer report.new }
    ensures answers { IsCode result }
    ensures argument { IsNoParser parser.now → (result ≡ code a.Argument) × Reports report.new 0 0 0 }
{
    capi::cll_parser_end(parser, report)
}
