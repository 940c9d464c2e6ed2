//! Laws of elements and of runs of them.

ghost use Rattle.std.specs.Prelude.{◌≡◌, ◌≤◌, ℕ, ◌++◌, List, length};
ghost use Rattle.ciborium_ll_grammar.specs.Elements.{Mark, IsElement, IsRun, spelling};

/// No element begins another, and each has one list of marks.
#[tactic(auto, using(ciborium_ll_grammar::proofs::ElementLaws::one_element))]
pub fn one_element()
    ensures { (element other rest more : List ℕ) (marks others : List Mark) → IsElement element marks
        → IsElement other others
        → element ++ rest ≡ other ++ more → (element ≡ other) × (marks ≡ others) × (rest ≡ more) }
{}

/// Bytes begin with at most one run of `count` elements, with one list of marks.
#[tactic(auto, using(ciborium_ll_grammar::proofs::ElementLaws::one_run))]
pub fn one_run()
    ensures { (count : ℕ) (run other rest more : List ℕ) (marks others : List Mark) → IsRun count run marks
        → IsRun count other others
        → run ++ rest ≡ other ++ more → (run ≡ other) × (marks ≡ others) × (rest ≡ more) }
{}

/// A run's spelling is a run of the same marks, and no longer.
#[tactic(auto, using(ciborium_ll_grammar::proofs::ElementLaws::run_again))]
pub fn spelled_run()
    ensures again { (count : ℕ) (run : List ℕ) (marks : List Mark) → IsRun count run marks
        → IsRun count (spelling marks) marks }
    ensures no_longer { (count : ℕ) (run : List ℕ) (marks : List Mark) → IsRun count run marks
        → length (spelling marks) ≤ length run }
{}
