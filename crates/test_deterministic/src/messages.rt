// The texts of refusals for a person.

use crate::shared::holds;
use cbor_deterministic::{Refusal, Why};
use std::alloc::Global;

static TEXTS: [(Why, &str); 9] = [
    (Why::Cut, "the bytes end too early at offset 7"),
    (Why::NoTitle, "no title begins with this byte at offset 7"),
    (Why::NotShortest, "a shorter form says the same at offset 7"),
    (
        Why::Indefinite,
        "an indefinite length or a break at offset 7",
    ),
    (Why::NoSimple, "a simple value from 24 to 31 at offset 7"),
    (Why::NoText, "a text that is not UTF-8 at offset 7"),
    (
        Why::KeyOrder,
        "a key that sorts before the previous key at offset 7",
    ),
    (Why::DuplicateKey, "the same key twice at offset 7"),
    (Why::Deep, "too deep a nesting at offset 7"),
];

// Returns whether a refusal has this text.
fn is_told(alloc: Global, refusal: Refusal, want: &str) -> bool {
    match format!(in alloc; "{refusal}") {
        Ok(text) => text.as_str() == want,
        Err(_error) => false,
    }
}

#[test]
fn messages(rt: HostRuntime) {
    for &(why, want) in &TEXTS {
        let refusal = Refusal { why, place: 7 };
        holds(&rt, is_told(rt.alloc(), refusal, want), want);
    }
}
