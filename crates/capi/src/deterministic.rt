//! The answer and the report of the check of the deterministic encoding.

ghost use Rattle.std.specs.Prelude.{◌≡◌, ◌↔◌, ◌≤◌, ℕ};
ghost use Rattle.cbor_deterministic.specs.declared.Why.{Why as AnyWhy};
ghost use Rattle.cbor_deterministic.specs.Deterministic.{HasDeterministic};
ghost use Rattle.cbor_deterministic.specs.Refusals.{HasRefusal};
ghost use Rattle.capi.specs.declared.answer.CllAnswer.TheVariants as a;
ghost use Rattle.capi.specs.Answers.{Reports};
ghost use Rattle.capi.specs.Determining.{Determines, named_place, order_code, why_answer};
ghost use Rattle.ciborium_ll_grammar.specs.declared.limits.TheConstants.{MOST_LEVELS};

use crate::answer::{CllAnswer, CllReport};
use cbor_deterministic::{Order, Refusal, Why, deterministic_len};

/// Returns the order of keys that has this number.
pub(crate) fn order_of(number: u32) -> Order
    requires { number ≤ 1 }
    ensures { number ≡ order_code result }
{
    if number == 0 {
        Order::Bytewise
    } else {
        Order::LengthFirst
    }
}

/// Returns the answer to a refusal, and the place that the report names.
fn stop_of_refusal(refusal: Refusal) -> (CllAnswer, usize)
    ensures answer { result.0 ≡ why_answer refusal.why }
    ensures place { result.1 ≡ named_place refusal.why refusal.place }
{
    match refusal.why {
        Why::Cut => (CllAnswer::Short, 0),
        Why::NoTitle | Why::NoSimple | Why::NoText => (CllAnswer::Syntax, refusal.place),
        Why::NotShortest => (CllAnswer::NotShortest, refusal.place),
        Why::Indefinite => (CllAnswer::Indefinite, refusal.place),
        Why::KeyOrder => (CllAnswer::KeyOrder, refusal.place),
        Why::DuplicateKey => (CllAnswer::DuplicateKey, refusal.place),
        Why::Deep => (CllAnswer::TooDeep, refusal.place),
    }
}

/// Checks that the bytes begin with an item in the deterministic encoding.
pub(crate) fn check_item(
    bytes: &[u8],
    depth: usize,
    order: Order,
    report: &mut CllReport,
) -> CllAnswer
    requires shallow { depth ≤ MOST_LEVELS }
    ensures exactly { (len : ℕ)
        → (HasDeterministic order depth bytes.now len ↔ (result ≡ a.Ok) × (report.new.consumed ≡ len)) }
    ensures refused { (why : AnyWhy) (offset : ℕ) → HasRefusal order depth bytes.now why offset
        → (result ≡ why_answer why) × Reports report.new offset 0 (named_place why offset) }
    ensures determined { Determines order depth bytes.now result report.new }
{
    match deterministic_len(bytes, depth, order) {
        Ok(len) => {
            report.say(len, 0, 0);
            CllAnswer::Ok
        }
        Err(refusal) => {
            let (answer, place) = stop_of_refusal(refusal);
            report.say(refusal.place, 0, place);
            answer
        }
    }
}
