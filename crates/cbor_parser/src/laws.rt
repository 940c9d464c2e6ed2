//! Laws of what was pushed, each the contract of an empty function.

ghost use Rattle.std.specs.Prelude.{◌≡◌, Bool, ℕ, List, [], false};
ghost use Rattle.ciborium_ll_grammar.specs.declared.spelling.Spelling.{Spelling};
ghost use Rattle.ciborium_ll_grammar.specs.declared.spelling.Spelling.TheVariants.{Any};
ghost use Rattle.cbor_parser.specs.declared.parser.Parser.{Parser};
ghost use Rattle.cbor_parser.specs.declared.strings.Within.TheVariants as w;
ghost use Rattle.cbor_parser.specs.Naming.{AreElements, IsNamed};
ghost use Rattle.cbor_parser.specs.Parsing.{AreTokens, AtFault, AtTitle, IsParsed, Point, Token, point_of};
ghost use Rattle.cbor_parser.specs.Pushing.{HasPushed};

/// Bytes are the same tokens, and leave a parser in the same state, however a caller cut them into pieces.
pub fn one_parse()
    ensures { (allowed : Spelling) (bytes : List ℕ) (tokens others : List Token) (one other : Parser)
        → HasPushed allowed bytes tokens one → HasPushed allowed bytes others other
        → (tokens ≡ others) × (point_of one ≡ point_of other) × (one.offset ≡ other.offset) }
{}

/// If the grammar says that bytes are some tokens and lead to a point, a parser found these tokens and this point.
pub fn exact_parse()
    ensures { (allowed : Spelling) (bytes : List ℕ) (tokens others : List Token) (point : Point) (parser : Parser)
        → IsParsed allowed bytes tokens point → HasPushed allowed bytes others parser
        → (tokens ≡ others) × (point ≡ point_of parser) }
{}

/// If a parser is at a fault, the bytes have a fault at the same offset, as `recode` names it, with a strict decoder if
/// the parser is strict. So it is whatever bytes follow, if they are enough for the text that is under way.
pub fn named_faults()
    ensures { (allowed : Spelling) (bytes : List ℕ) (tokens : List Token) (place : ℕ) (parser : Parser)
        → HasPushed allowed bytes tokens parser → point_of parser ≡ AtFault place → IsNamed allowed bytes place }
{}

/// Bytes are whole tokens in any spelling exactly if they are elements. So a parser says that they may end
/// ([`Parser::is_between`](crate::Parser::is_between)) exactly if they are elements.
pub fn whole_elements()
    ensures elements { (allowed : Spelling) (bytes : List ℕ) (tokens : List Token) → AreTokens allowed bytes tokens
        w.Nothing
        → AreElements bytes }
    ensures tokens { (bytes : List ℕ) → AreElements bytes
        → (tokens : List Token) × AreTokens Any bytes tokens w.Nothing }
    ensures between { (bytes : List ℕ) (tokens : List Token) (parser : Parser) → AreElements bytes
        → HasPushed Any bytes tokens parser → point_of parser ≡ AtTitle w.Nothing [] }
{}
