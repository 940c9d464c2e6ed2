//! Laws of titles.

ghost use Rattle.std.specs.Prelude.{◌≡◌, ◌≤◌, ℕ, ◌<◌, ◌⊎◌, ◌++◌, List, length, ◌↔◌, [], ◌∷◌};
ghost use Rattle.std.specs.List.{Contains};
ghost use Rattle.std.specs.List.Sorted.{IsStrictlyIncreasing};
ghost use Rattle.ciborium_ll_grammar.specs.declared.hdr.Header.{Header};
ghost use Rattle.ciborium_ll_grammar.specs.declared.limits.TheConstants.{LONGEST_TITLE};
ghost use Rattle.ciborium_ll_grammar.specs.Title.{IsTitle, shortest_title, IsInRange, IsRefused};
ghost use Rattle.ciborium_ll_grammar.specs.Title.{IsCutTitle, AreBytes, refused_bytes};

/// No title begins another, and each has one header.
#[tactic(auto, using(ciborium_ll_grammar::proofs::TitleLaws::one_title))]
pub fn one_title()
    ensures { (title other rest more : List ℕ) (header another : Header) → IsTitle title header → IsTitle other another
        → title ++ rest ≡ other ++ more → (title ≡ other) × (header ≡ another) × (rest ≡ more) }
{}

/// A header's shortest title is one of its titles, and all others are longer.
pub fn shortest_titles()
    ensures is_title { (header : Header) → IsInRange header → IsTitle (shortest_title header) header }
    ensures is_shortest { (header : Header) (title : List ℕ) → IsTitle title header
        → (title ≡ shortest_title header) ⊎ (length (shortest_title header) < length title) }
{}

/// The numbers of a title's header are in range.
pub fn title_header()
    ensures { (title : List ℕ) (header : Header) → IsTitle title header → IsInRange header }
{}

/// A title has at least one byte, and at most `LONGEST_TITLE`, which is 9.
pub fn title_length()
    ensures { (title : List ℕ) (header : Header) → IsTitle title header
        → (1 ≤ length title) × (length title ≤ LONGEST_TITLE) }
{}

/// Exactly 27 of the 256 bytes begin no title.
#[tactic(auto, using(ciborium_ll_grammar::proofs::AffixLaws::refused_begins_none, ciborium_ll_grammar::proofs::AffixLaws::refused_or_begins, crate::proofs::RefusedBytes::refused_listed, crate::proofs::RefusedBytes::refused_ascend))]
pub fn refused_first_bytes()
    ensures none { (byte : ℕ) (rest : List ℕ) (header : Header) → IsRefused byte → IsTitle (byte ∷ rest) header → ⊥ }
    ensures others { (byte : ℕ) → byte < 256
        → (IsRefused byte) ⊎ ((rest : List ℕ) × (header : Header) × IsTitle (byte ∷ rest) header) }
    ensures listed { (byte : ℕ) → byte < 256 → (IsRefused byte ↔ Contains refused_bytes byte) }
    ensures ascending { IsStrictlyIncreasing refused_bytes }
    ensures count { length refused_bytes ≡ 27 }
{}

/// Bytes are a cut title exactly if one or more further bytes complete a title.
pub fn cut_titles()
    ensures begins { (bytes : List ℕ) → AreBytes bytes → IsCutTitle bytes
        → (byte : ℕ) × (more : List ℕ) × (header : Header) × IsTitle (bytes ++ byte ∷ more) header }
    ensures cut { (bytes : List ℕ) (byte : ℕ) (more : List ℕ) (header : Header) → IsTitle (bytes ++ byte ∷ more) header
        → IsCutTitle bytes }
{}
