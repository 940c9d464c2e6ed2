//! Laws of strings.

ghost use Rattle.std.specs.Prelude.{◌≡◌, ℕ, ◌++◌, List};
ghost use Rattle.ciborium_ll_grammar.specs.Strings.{Kind, IsString};

/// No string begins another of its kind, and each has one list of bodies.
#[tactic(auto, using(ciborium_ll_grammar::proofs::StringLaws::one_string))]
pub fn one_string()
    ensures { (kind : Kind) (string other rest more : List ℕ) (bodies others : List (List ℕ))
        → IsString kind string bodies
        → IsString kind other others → string ++ rest ≡ other ++ more → (string ≡ other) × (bodies ≡ others)
        × (rest ≡ more) }
{}
