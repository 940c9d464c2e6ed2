//! Laws of runs and faults.

ghost use Rattle.std.specs.Prelude.{◌≡◌, ℕ, ◌⊎◌, Bool, false, List};
ghost use Rattle.ciborium_ll_grammar.specs.declared.spelling.Spelling.{Spelling};
ghost use Rattle.ciborium_ll_grammar.specs.declared.spelling.Spelling.TheVariants.{Any};
ghost use Rattle.ciborium_ll_grammar.specs.Title.{AreBytes};
ghost use Rattle.ciborium_ll_grammar.specs.Faults.{BeginsWithElements, HasFault};
ghost use Rattle.ciborium_ll_text.specs.Text.{BeginsNoText};

/// Bytes that begin with `count` elements have no fault.
pub fn no_fault()
    ensures { (allowed : Spelling) (count : ℕ) (bytes : List ℕ) → BeginsWithElements allowed count bytes
        → HasFault allowed count bytes → ⊥ }
{}

/// If any spelling is taken, the same bytes have faults at one point alone.
///
/// The faults have one answer, unless the bytes end within a body that begins no text.
pub fn one_fault()
    ensures point { (count : ℕ) (bytes : List ℕ) (fault other : HasFault Any count bytes)
        → (fault.before ≡ other.before) × (fault.marks ≡ other.marks) × (fault.point ≡ other.point)
        × (fault.ahead ≡ other.ahead) }
    ensures answer { (count : ℕ) (bytes : List ℕ) (fault other : HasFault Any count bytes)
        → (fault.answer ≡ other.answer) ⊎ BeginsNoText fault.ahead }
{}

/// Any bytes begin with `count` elements, or have a fault. By [`no_fault`] they never have both.
#[tactic(auto, using(crate::proofs::Complete::complete))]
pub fn run_or_fault()
    ensures { (allowed : Spelling) (count : ℕ) (bytes : List ℕ) → AreBytes bytes
        → BeginsWithElements allowed count bytes ⊎ HasFault allowed count bytes }
{}
