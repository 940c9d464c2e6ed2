//! Numbers as words of a line.

ghost use Rattle.std.specs.Prelude.{◌≡◌, ℕ, Option, IfNone, IfSome};
ghost use Rattle.std.specs.Fmt.{decimal};
ghost use Rattle.tool_requests.specs.Number.{IsLimit, IsNumber, IsNumberUpTo};

/// The greatest number that a line may have.
pub const MOST_NUMBER: u32 = u32::MAX;

/// The greatest size of a buffer that a line may ask for, in bytes.
pub const MOST_SIZE: u32 = 65_536;

/// The greatest depth of an item that a line may ask for.
pub const MOST_DEPTH: u32 = 256;

/// Returns the number that a word spells: `0`, or a digit from 1 to 9 and digits after it, at most 4,294,967,295.
///
/// Each number has exactly one word, which is the word that is printed for it.
#[tactic(auto, using(crate::proofs::NumberLaws::decimal_number))]
pub fn number_of(word: &str) -> Option<u32>
    ensures some { IfSome result (IsNumber word.now) }
    ensures none { IfNone result ((n : ℕ) → IsNumber word.now n → ⊥) }
    ensures printed { IfSome result (λ n. decimal n ≡ word.now) }
{
    let bytes = word.as_bytes();
    if bytes.is_empty() || bytes[0] == b'+' {
        return None;
    }
    if bytes[0] == b'0' && bytes.len() > 1 {
        return None;
    }
    word.parse::<u32>().ok()
}

/// Returns the number that a word spells, if it is at most `most`.
pub fn number_up_to(most: u32, word: &str) -> Option<usize>
    ensures some { IfSome result (IsNumberUpTo most word.now) }
    ensures none { IfNone result ((n : ℕ) → IsNumberUpTo most word.now n → ⊥) }
{
    match number_of(word) {
        Some(number) if number <= most => Some(number as usize),
        _ => None,
    }
}

/// Returns the limit that a word spells: a number, or `*` for none.
pub fn limit_of(word: &str) -> Option<Option<usize>>
    ensures some { IfSome result (IsLimit word.now) }
    ensures none { IfNone result ((limit : Option ℕ) → IsLimit word.now limit → ⊥) }
{
    if word == "*" {
        return Some(None);
    }
    Some(Some(number_of(word)? as usize))
}
