//! The law that ties `Shortens`, by which `recode` says when it succeeds, to elements and their spelling.

ghost use Rattle.std.specs.Prelude.{◌≡◌, ◌+◌, ◌≤◌, ◌↔◌, ◌++◌, ℕ, Bool, true, List, [], length};
ghost use Rattle.ciborium_ll_grammar.specs.declared.spelling.Spelling.{Spelling};
ghost use Rattle.ciborium_ll_grammar.specs.declared.spelling.Spelling.TheVariants.{Shortest};
ghost use Rattle.ciborium_ll_grammar.specs.Elements.{spelling};
ghost use Rattle.ciborium_ll_grammar.specs.Faults.{BeginsWithElements};
ghost use Rattle.ciborium_ll_grammar.specs.Shortening.{Shortens};

/// Says that `Shortens` means the same as elements and their marks. Each definition is a test of the other.
///
/// `Shortens` relates the bytes read to the bytes written, and the marks are the trace of an element.
pub fn shortened_run()
    ensures same { (allowed : Spelling) (count : ℕ) (due copy rest : List ℕ) → (Shortens allowed count due copy rest
        ↔ ((front : BeginsWithElements allowed count due) × (copy ≡ spelling front.marks) × (rest ≡ front.rest))) }
    ensures one { (allowed other : Spelling) (count : ℕ) (due copy rest again left : List ℕ)
        → Shortens allowed count due copy rest → Shortens other count due again left → (copy ≡ again) × (rest ≡ left) }
    ensures no_longer { (allowed : Spelling) (count : ℕ) (due copy rest : List ℕ) → Shortens allowed count due copy rest
        → length copy + length rest ≤ length due }
    ensures again { (allowed : Spelling) (count : ℕ) (due copy rest : List ℕ) → Shortens allowed count due copy rest
        → Shortens allowed count copy copy [] }
    ensures strictly { (count : ℕ) (due copy rest : List ℕ) → Shortens Shortest count due copy rest
        → due ≡ copy ++ rest }
{}
