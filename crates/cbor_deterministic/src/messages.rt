//! The messages of refusals.

ghost use Rattle.std.specs.Prelude.{Some};
ghost use Rattle.cbor_deterministic.specs.RefusalTexts.{refusal_text, why_text};

use crate::{Refusal, Why};
use std::{error, fmt};

impl fmt::Display for Why {
    ghost output = { λ why. Some (why_text why) };

    fn fmt<W: fmt::Write>(&self, f: &mut fmt::Formatter<W>) -> fmt::Result {
        match self {
            Why::Cut => write!(f, "the bytes end too early"),
            Why::NoTitle => write!(f, "no title begins with this byte"),
            Why::NotShortest => write!(f, "a shorter form says the same"),
            Why::Indefinite => write!(f, "an indefinite length or a break"),
            Why::NoSimple => write!(f, "a simple value from 24 to 31"),
            Why::NoText => write!(f, "a text that is not UTF-8"),
            Why::KeyOrder => write!(f, "a key that sorts before the previous key"),
            Why::DuplicateKey => write!(f, "the same key twice"),
            Why::Deep => write!(f, "too deep a nesting"),
        }
    }
}

impl fmt::Display for Refusal {
    ghost output = { λ refusal. Some (refusal_text refusal) };

    fn fmt<W: fmt::Write>(&self, f: &mut fmt::Formatter<W>) -> fmt::Result {
        write!(f, "{} at offset {}", self.why, self.place)
    }
}

impl error::Error for Refusal {}
