//! Laws of whole items.

ghost use Rattle.std.specs.Prelude.{◌≡◌, ℕ, Bool, ◌++◌, List};
ghost use Rattle.ciborium_ll_grammar.specs.declared.spelling.Spelling.{Spelling};
ghost use Rattle.ciborium_ll_grammar.specs.Items.{IsItem};

/// No item begins another, whatever their depths and spellings.
#[tactic(auto, using(ciborium_ll_grammar::proofs::ItemLaws::one_item))]
pub fn one_item()
    ensures { (allowed shortest : Spelling) (depth limit : ℕ) (item other rest more : List ℕ) → IsItem allowed depth
        item
        → IsItem shortest limit other → item ++ rest ≡ other ++ more
        → (item ≡ other) × (rest ≡ more) }
{}
