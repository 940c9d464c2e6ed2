//! The answer and the report of the rewriting to the deterministic encoding.

ghost use Rattle.std.specs.Prelude.{◌≡◌, ◌≤◌, length};
ghost use Rattle.capi.specs.Rewriting.{Rewrites, refusal_answer, refusal_place};
ghost use Rattle.ciborium_ll_grammar.specs.declared.limits.TheConstants.{MOST_LEVELS};

use crate::answer::{CllAnswer, CllReport};
use cbor_canonical::{CanonicalError, Refusal, Span, Why, canonical_into};
use cbor_deterministic::Order;

/// Returns the answer to a refusal, and the place that the report names.
fn stop_of_refusal(refusal: Refusal) -> (CllAnswer, usize)
    ensures answer { result.0 ≡ refusal_answer refusal.why }
    ensures place { result.1 ≡ refusal_place refusal.why refusal.place }
{
    match refusal.why {
        Why::Cut => (CllAnswer::Short, 0),
        Why::Malformed | Why::NoSimple => (CllAnswer::Syntax, refusal.place),
        Why::Break => (CllAnswer::BreakDue, refusal.place),
        Why::Deep => (CllAnswer::TooDeep, refusal.place),
        Why::DuplicateKey => (CllAnswer::DuplicateKey, refusal.place),
    }
}

/// Writes the deterministic encoding of the item that begins the bytes to the start of the output.
pub(crate) fn rewrite_item(
    bytes: &[u8],
    depth: usize,
    order: Order,
    out: &mut [u8],
    spans: &mut [Span],
    report: &mut CllReport,
) -> CllAnswer
    requires shallow { depth ≤ MOST_LEVELS }
    ensures { Rewrites order depth bytes.now (length spans.old) result out.new report.new }
{
    match canonical_into(bytes, depth, order, out, spans) {
        Ok((len, rest)) => {
            report.say(bytes.len().saturating_sub(rest.len()), len, 0);
            CllAnswer::Ok
        }
        Err(CanonicalError::Refused(refusal)) => {
            let (answer, place) = stop_of_refusal(refusal);
            report.say(refusal.place, 0, place);
            answer
        }
        Err(CanonicalError::Memory) => {
            report.say(0, 0, 0);
            CllAnswer::Room
        }
    }
}
