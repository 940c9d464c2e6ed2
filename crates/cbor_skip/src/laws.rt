//! Laws of the definitions, each the contract of an empty function.
//!
//! The law `one_item` of `ciborium_ll::laws` says that no item begins another item.

ghost use Rattle.std.specs.Prelude.{ℕ, Bool, List};
ghost use Rattle.ciborium_ll_grammar.specs.declared.spelling.Spelling.{Spelling};
ghost use Rattle.cbor_skip.specs.ItemFaults.{HasDeepNest, HasEarlyBreak, HasItemFault, BeginsWithItem};

/// Nothing stops the read of bytes that begin with a whole item.
pub fn no_item_fault()
    ensures fault { (allowed : Spelling) (depth : ℕ) (bytes : List ℕ) → BeginsWithItem allowed depth bytes
        → HasItemFault allowed depth bytes → ⊥ }
    ensures early { (allowed : Spelling) (depth : ℕ) (bytes : List ℕ) → BeginsWithItem allowed depth bytes
        → HasEarlyBreak allowed depth bytes → ⊥ }
    ensures deep { (allowed : Spelling) (depth : ℕ) (bytes : List ℕ) → BeginsWithItem allowed depth bytes
        → HasDeepNest allowed depth bytes → ⊥ }
{}
