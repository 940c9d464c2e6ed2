//! Laws of text.

ghost use Rattle.std.specs.Prelude.{◌≡◌, ℕ, ◌<◌, ◌++◌, List, length, ◌≢◌, ◌↔◌, IsOk, IfOk, IfErr};
ghost use Rattle.std.specs.Prelude.{IsUtf8, [], take, drop};
ghost use Rattle.std.specs.Str.{IsValidUpTo};
ghost use Rattle.ciborium_ll_text.specs.States.{after};
ghost use Rattle.ciborium_ll_text.specs.Text.{IsCharacters, IsFront};
ghost use Rattle.ciborium_ll_text.specs.declared.state.State.TheVariants.{Between, Damaged};

use simdutf8::compat;

/// Bytes are text exactly if they are UTF-8 for std.
#[tactic(auto, using(ciborium_ll_text::proofs::Utf8Laws::to_std, ciborium_ll_text::proofs::Utf8Laws::from_std))]
pub fn same_text()
    ensures { (bytes : List ℕ) → (IsCharacters bytes ↔ IsUtf8 bytes) }
{}

/// Returns the text, or the longest front that is text, as `simdutf8` finds it.
pub fn text_or_front(bytes: &[u8]) -> Result<&str, &str>
    ensures accepted { IsOk result ↔ IsCharacters bytes.now }
    ensures whole { IfOk result (λ text. text.now ≡ bytes.now) }
    ensures longest { IfErr result (λ front. IsFront bytes.now front.now (drop (length front.now) bytes.now)) }
{
    match compat::from_utf8(bytes) {
        Ok(text) => Ok(text),
        Err(error) => match compat::from_utf8(&bytes[..error.valid_up_to()]) {
            Ok(front) => Err(front),
            Err(_) => unreachable!(),
        },
    }
}

/// Two texts joined are a text.
pub fn joined_texts()
    ensures { (text other : List ℕ) → IsCharacters text → IsCharacters other → IsCharacters (text ++ other) }
{}

/// Bytes that continue a text to a text are a text.
pub fn rest_of_text()
    ensures { (text rest : List ℕ) → IsCharacters text → IsCharacters (text ++ rest) → IsCharacters rest }
{}

/// Bytes have exactly one longest front that is text: the front that std finds.
pub fn one_front()
    ensures exists { (bytes : List ℕ) → (front : List ℕ) × (rest : List ℕ) × IsFront bytes front rest }
    ensures one { (bytes front rest other more : List ℕ) → IsFront bytes front rest → IsFront bytes other more
        → (front ≡ other) × (rest ≡ more) }
    ensures valid { (bytes : List ℕ) (n : ℕ) → IsValidUpTo bytes n → IsFront bytes (take n bytes) (drop n bytes) }
{}

/// No text begins with bytes that have more than three bytes after their longest front.
pub fn no_text_begins()
    ensures { (bytes front rest more : List ℕ) → IsFront bytes front rest → 3 < length rest
        → IsCharacters (bytes ++ more) → ⊥ }
{}

/// Text has no rest after its longest front.
pub fn no_rest_of_text()
    ensures { (bytes front rest : List ℕ) → IsFront bytes front rest → IsCharacters bytes → rest ≡ [] }
{}

/// Bytes are text exactly if they lead to `Between`.
#[tactic(auto, using(ciborium_ll_text::proofs::StateLaws::text_ends, ciborium_ll_text::proofs::StateLaws::text_from))]
pub fn text_by_state()
    ensures { (bytes : List ℕ) → (IsCharacters bytes ↔ (after Between bytes ≡ Between)) }
{}

/// Bytes lead to `Damaged` exactly if no text begins with them.
pub fn damage_by_state()
    ensures none { (bytes more : List ℕ) → after Between bytes ≡ Damaged → IsCharacters (bytes ++ more) → ⊥ }
    ensures some { (bytes : List ℕ) → after Between bytes ≢ Damaged → (more : List ℕ) × IsCharacters (bytes ++ more) }
{}
