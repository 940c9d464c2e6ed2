//! Laws of the deterministic encoding, each the contract of an empty function, for both orders of keys.

ghost use Rattle.std.specs.Prelude.{◌≡◌, ◌++◌, ℕ, List, true};
ghost use Rattle.ciborium_ll_grammar.specs.declared.spelling.Spelling.TheVariants.{Shortest};
ghost use Rattle.ciborium_ll_grammar.specs.Items.{IsItem};
ghost use Rattle.cbor_deterministic.specs.declared.Order.{Order as AnyOrder};
ghost use Rattle.cbor_deterministic.specs.declared.Why.{Why as AnyWhy};
ghost use Rattle.cbor_deterministic.specs.Deterministic.{IsDeterministic};
ghost use Rattle.cbor_deterministic.specs.Refusals.{HasRefusal};
ghost use Rattle.cbor_deterministic.specs.Values.{Value, Same};
ghost use Rattle.cbor_deterministic.specs.Spellings.{Encodes};
ghost use Rattle.cbor_deterministic.specs.Laws.{HasStrictRun, IsSpelling};
ghost use Rattle.cbor_deterministic.specs.Fitting.{Fits, HasEncoding};

/// Equal values have one deterministic encoding, whatever the order of the pairs in maps.
#[tactic(auto, using(crate::proofs::Law::one_deterministic))]
pub fn one_encoding()
    ensures { (order : AnyOrder) (depth other : ℕ) (value same : Value) (bytes others : List ℕ)
        → IsDeterministic order depth bytes → Encodes value bytes → IsDeterministic order other others
        → Encodes same others → Same value same → bytes ≡ others }
{}

/// An item in the deterministic encoding spells some value.
#[tactic(auto, using(crate::proofs::Law::some_value))]
pub fn stands_for_a_value()
    ensures { (order : AnyOrder) (depth : ℕ) (bytes : List ℕ) → IsDeterministic order depth bytes → IsSpelling bytes }
{}

/// Bytes spell only one value, and no spelling begins another one.
#[tactic(auto, using(crate::proofs::OneValue::one_value))]
pub fn one_value()
    ensures { (value other : Value) (bytes others rest more : List ℕ) → Encodes value bytes → Encodes other others
        → bytes ++ rest ≡ others ++ more → (value ≡ other) × (bytes ≡ others) × (rest ≡ more) }
{}

/// An item in the deterministic encoding is an item in its shortest spelling, to the same depth.
#[tactic(auto, using(crate::proofs::ItemLaws::well_formed))]
pub fn is_well_formed()
    ensures { (order : AnyOrder) (depth : ℕ) (bytes : List ℕ) → IsDeterministic order depth bytes
        → IsItem Shortest depth bytes }
{}

/// An item in the deterministic encoding is a run of elements in their shortest spelling. So `strict_len` takes all of
/// it, for the number of its elements, and `recode` writes it as it is.
#[tactic(auto, using(crate::proofs::StrictRuns::strict_run))]
pub fn is_strict_run()
    ensures { (order : AnyOrder) (depth : ℕ) (bytes : List ℕ) → IsDeterministic order depth bytes
        → HasStrictRun bytes }
{}

/// Bytes are refused at only one place, for one reason.
pub fn one_refusal()
    ensures { (order : AnyOrder) (depth place another : ℕ) (bytes : List ℕ) (why other : AnyWhy)
        → HasRefusal order depth bytes why place → HasRefusal order depth bytes other another
        → (why ≡ other) × (place ≡ another) }
{}

/// A value has a deterministic encoding if its numbers are in range, its texts are UTF-8 and no map has a key twice.
#[tactic(auto, using(crate::proofs::Exists::has_encoding))]
pub fn has_encoding()
    ensures { (order : AnyOrder) (value : Value) → Fits value → HasEncoding order value }
{}
