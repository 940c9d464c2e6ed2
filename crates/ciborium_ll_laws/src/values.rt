//! Laws of values that are written in pieces.

ghost use Rattle.std.specs.Prelude.{◌≡◌, ◌≤◌, ◌<◌, ◌^◌, ℕ, List, [], ◌∷◌, length};
ghost use Rattle.ciborium_ll_grammar.specs.Strings.{Kind, Text, IsWritable};
ghost use Rattle.ciborium_ll_text.specs.Text.{IsCharacters};
ghost use Rattle.ciborium_ll_grammar.specs.Elements.{Mark, IsElement, spelling};
ghost use Rattle.ciborium_ll_grammar.specs.Values.{least_limit, IsWritten, HasFewestSegments};

/// Each value is written in one way under a limit, as one element.
#[tactic(auto, using(ciborium_ll_grammar::proofs::ValueLaws::some_writing, ciborium_ll_grammar::proofs::ValueLaws::one_writing, ciborium_ll_grammar::proofs::ValueLaws::written_element))]
pub fn written_values()
    ensures exists { (kind : Kind) (limit : ℕ) (value : List ℕ) → least_limit kind ≤ limit → IsWritable kind value
        → (marks : List Mark) × IsWritten kind limit value marks }
    ensures one { (kind : Kind) (limit : ℕ) (value : List ℕ) (marks others : List Mark)
        → IsWritten kind limit value marks
        → IsWritten kind limit value others → marks ≡ others }
    ensures element { (kind : Kind) (limit : ℕ) (value : List ℕ) (marks : List Mark) → IsWritten kind limit value marks
        → IsWritable kind value → length value < 2 ^ 64 → IsElement (spelling marks) marks }
{}

/// A text that is not empty is written in the fewest segments.
#[tactic(auto, using(ciborium_ll_grammar::proofs::ValueLaws::fewest_segments))]
pub fn fewest_segments()
    ensures { (limit : ℕ) (text : List ℕ) (marks : List Mark) → IsWritten Text limit text marks → IsCharacters text
        → 0 < length text → HasFewestSegments limit text marks }
{}
