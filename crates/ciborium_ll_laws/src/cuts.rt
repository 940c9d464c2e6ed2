//! Laws of texts cut into members.

ghost use Rattle.std.specs.Prelude.{◌≡◌, ◌≤◌, ℕ, List, length};
ghost use Rattle.ciborium_ll_grammar.specs.declared.limits.TheConstants.{LEAST_BUFFER};
ghost use Rattle.ciborium_ll_text.specs.Text.{IsCharacters};
ghost use Rattle.ciborium_ll_text.specs.Cuts.{IsCut, IsFullCut};

/// A text has exactly one full cut, and no cut has fewer members.
#[tactic(auto, using(ciborium_ll_text::proofs::CutLaws::fewest, ciborium_ll_text::proofs::CutLaws::one_full, ciborium_ll_text::proofs::FullCutLaws::full_cut))]
pub fn full_cuts()
    ensures exists { (text : List ℕ) (limit : ℕ) → IsCharacters text → LEAST_BUFFER ≤ limit
        → (members : List (List ℕ)) × IsFullCut text limit members }
    ensures one { (text : List ℕ) (limit : ℕ) (cut other : List (List ℕ)) → IsFullCut text limit cut
        → IsFullCut text limit other → cut ≡ other }
    ensures fewest { (text : List ℕ) (limit : ℕ) (cut other : List (List ℕ)) → IsFullCut text limit cut
        → IsCut text limit other → length cut ≤ length other }
{}
