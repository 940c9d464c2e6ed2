//! Bytes as words of a line.

ghost use Rattle.std.specs.Prelude.{◌≡◌, ◌↔◌, Some, None, IfOk, IfSome, IfNone, IsSome, string_bytes};
ghost use Rattle.tool_requests.specs.Word.{IsHexWord, bytes_of_word, word_of_bytes};

use hex::FromHexError;
use std::alloc::{AllocError, Global};

/// The word for no bytes.
const NO_BYTES: &str = "-";

/// Returns the bytes of a word: `-` for none, otherwise two hexadecimal digits of either case for each byte.
///
/// The call returns `None` for another word. The error says that there is no memory for the bytes.
pub fn bytes_of(alloc: Global, word: &str) -> Result<Option<Vec<u8>>, AllocError>
    ensures hex { IfOk result (λ found. IsSome found ↔ IsHexWord word.now) }
    ensures some { IfOk result (λ found. IfSome found (λ bytes. bytes_of_word word.now ≡ Some bytes.items)) }
    ensures none { IfOk result (λ found. IfNone found (bytes_of_word word.now ≡ None)) }
{
    if word == NO_BYTES {
        return Ok(Some(Vec::new(alloc)));
    }
    if word.is_empty() {
        return Ok(None);
    }
    match hex::decode(alloc, word) {
        Ok(bytes) => Ok(Some(bytes)),
        Err(FromHexError::OutOfMemory) => Err(AllocError),
        Err(_) => Ok(None),
    }
}

/// Returns the word that stands for bytes: `-` for none, otherwise two lower case hexadecimal digits for each byte.
///
/// The error says that there is no memory for the word.
pub fn word_of(alloc: Global, bytes: &[u8]) -> Result<String, AllocError>
    ensures word { IfOk result (λ word. string_bytes word ≡ word_of_bytes bytes.now) }
    ensures back { IfOk result (λ word. bytes_of_word (string_bytes word) ≡ Some bytes.now) }
{
    if bytes.is_empty() {
        return String::from_str(alloc, NO_BYTES);
    }
    hex::encode(alloc, bytes)
}
