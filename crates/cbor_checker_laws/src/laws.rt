//! Laws of the definitions, each the contract of an empty function.

ghost use Rattle.std.specs.Prelude.{◌≡◌, ◌++◌, ℕ, Bool, List, Result, length};
ghost use Rattle.ciborium_ll_grammar.specs.declared.spelling.Spelling.{Spelling};
ghost use Rattle.ciborium_ll_grammar.specs.Faults.{Syntax};
ghost use Rattle.ciborium_ll_decoder.specs.declared.dec.Decoder.{Decoder};
ghost use Rattle.cbor_skip.specs.declared.SkipError.{SkipError};
ghost use Rattle.cbor_skip.specs.ItemFaults.{HasDeepNest, HasEarlyBreak, HasItemFault};
ghost use Rattle.cbor_skip.specs.SkippingTold.{SkipsTold};
ghost use Rattle.cbor_checker.specs.declared.phase.Fault.{Fault};
ghost use Rattle.cbor_checker.specs.declared.phase.Fault.TheVariants as f;
ghost use Rattle.cbor_checker_laws.specs.SameFaults.{AnswersFault, HasLongNest, Names, NamesSyntax};

use ciborium_ll_io::io::Read;

/// A skip of all bytes stops at the fault that a checker names after a part of them, at the same place.
///
/// [`feed_and_skip`](crate::feed_and_skip) says when two faults have one place.
pub fn same_faults()
    ensures syntax { (allowed : Spelling) (depth : ℕ) (fed more : List ℕ) (fault : Fault) → Names allowed depth fed
        fault
        → (met : HasItemFault allowed depth (fed ++ more)) → (at : ℕ) → met.answer ≡ Syntax at
        → NamesSyntax allowed depth (fed ++ more) at fault }
    ensures early { (allowed : Spelling) (depth : ℕ) (fed more : List ℕ) (fault : Fault) → Names allowed depth fed fault
        → (met : HasEarlyBreak allowed depth (fed ++ more)) → fault ≡ f.Break (length met.before) }
    ensures deep { (allowed : Spelling) (depth : ℕ) (fed more : List ℕ) (fault : Fault) → Names allowed depth fed fault
        → (met : HasDeepNest allowed depth (fed ++ more)) → fault ≡ f.Deep (length met.before) }
    ensures both { (allowed : Spelling) (depth : ℕ) (fed more : List ℕ) (fault : Fault) → Names allowed depth fed fault
        → (met : HasLongNest allowed depth (fed ++ more)) → fault ≡ f.Deep (length met.before) }
{}

/// A skip of all bytes answers the fault that a checker names after a part of them, at the same place, or that the
/// bytes end too early.
///
/// The skip is to the same depth, as strict, and as `SkipsTold` says, which the clause `told` of `skip_item` promises.
pub fn skip_answers<R: Read>()
    ensures { (allowed : Spelling) (depth : ℕ) (fed more : List ℕ) (fault : Fault) → Names allowed depth fed fault
        → (old new : Decoder R) (result : Result (Unit {0}) (SkipError R.Error))
        → SkipsTold R.Read allowed depth (fed ++ more) old result new
        → AnswersFault allowed depth (fed ++ more) fault old.offset result }
{}
