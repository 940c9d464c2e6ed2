//! Laws of the rewriting, each the contract of an empty function, for both orders of keys.

ghost use Rattle.std.specs.Prelude.{◌≡◌, ◌++◌, ℕ, List, false};
ghost use Rattle.ciborium_ll_grammar.specs.declared.spelling.Spelling.TheVariants.{Any};
ghost use Rattle.ciborium_ll_grammar.specs.Items.{IsItem};
ghost use Rattle.cbor_deterministic.specs.declared.Order.{Order as AnyOrder};
ghost use Rattle.cbor_deterministic.specs.Deterministic.{IsDeterministic};
ghost use Rattle.cbor_deterministic.specs.Spellings.{Encodes};
ghost use Rattle.cbor_deterministic.specs.Values.{Value, Same};
ghost use Rattle.cbor_canonical.specs.declared.Why.{Why as AnyWhy};
ghost use Rattle.cbor_canonical.specs.Canonical.{IsRewritten, IsFittingSpelling};
ghost use Rattle.cbor_canonical.specs.Refusals.{HasRefusal};

/// The encoding that a call writes is the one deterministic encoding of the item's value, whatever the order of pairs
/// in maps.
pub fn rewritten_is_the_encoding()
    ensures { (order : AnyOrder) (depth other : ℕ) (value same : Value) (item written others : List ℕ)
        → IsRewritten order depth item written → Encodes value item → Same value same
        → IsDeterministic order other others → Encodes same others → written ≡ others }
{}

/// An item in the deterministic encoding is written as it is.
pub fn written_again()
    ensures { (order : AnyOrder) (depth other : ℕ) (item written : List ℕ) → IsDeterministic order other item
        → IsRewritten order depth item written → written ≡ item }
{}

/// Refused bytes begin with no item to the depth that spells a value in which no map has a key twice.
#[tactic(auto, using(crate::proofs::CanonicalLaws::refused_has_none))]
pub fn refused_has_none()
    ensures { (depth place : ℕ) (bytes item rest : List ℕ) (why : AnyWhy) → HasRefusal depth bytes why place
        → IsItem Any depth item → IsFittingSpelling item → bytes ≡ item ++ rest → ⊥ }
{}
