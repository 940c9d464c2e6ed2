//! The law that ties the elements of a strict decoder to the copy.

ghost use Rattle.std.specs.Prelude.{◌≡◌, ◌≤◌, ◌↔◌, ℕ, false, true, List, length};
ghost use Rattle.std.specs.List.{AllByRecursion};
ghost use Rattle.ciborium_ll_grammar.specs.declared.spelling.Spelling.TheVariants.{Any, Shortest};
ghost use Rattle.ciborium_ll_grammar.specs.Elements.{Mark, IsNoSmallSimple, IsStrictRun, spelling};
ghost use Rattle.ciborium_ll_grammar.specs.Faults.{BeginsWithElements};
ghost use Rattle.ciborium_ll_grammar.specs.StrictElements.{AreStrictElements};

/// Says that a strict decoder takes exactly the elements that `recode` copies unchanged, without a simple value from 24
/// to 31 (RFC 7049, 2.3).
///
/// This excludes each longer title (3.9), and a string of indefinite length inside another string (2.2.2). Only `f8`
/// with a byte from 24 to 31 is its own spelling and still refused.
pub fn strict_run()
    ensures unchanged { (count : ℕ) (bytes : List ℕ) (front : BeginsWithElements Any count bytes) →
        (BeginsWithElements Shortest count bytes
        ↔ ((spelling front.marks ≡ front.elements) × AllByRecursion IsNoSmallSimple front.marks)) }
    ensures titles { (count : ℕ) (bytes : List ℕ) (marks : List Mark)
        → (IsStrictRun count bytes marks ↔ AreStrictElements count bytes marks) }
    ensures as_long { (count : ℕ) (bytes : List ℕ) (front : BeginsWithElements Any count bytes)
        → length front.elements ≤ length (spelling front.marks) → spelling front.marks ≡ front.elements }
{}
