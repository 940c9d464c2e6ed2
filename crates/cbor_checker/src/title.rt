//! Titles that may not stand at a place, by the kind of their first byte.

ghost use Rattle.std.specs.Prelude.{◌≡◌};
ghost use Rattle.cbor_checker.specs.Blocked.{blocked, is_single, too_deep};

use crate::phase::Fault;
use cbor_parser::strings::Within;
use ciborium_ll_grammar::hdr::table::TitleKind;

/// Returns why no level is left for a title of this kind, if it is that of a nest and `depth` is 0.
#[inline(always)]
fn too_deep(depth: usize, place: usize, kind: TitleKind) -> Option<Fault>
    ensures { result ≡ too_deep depth place kind }
{
    match kind {
        TitleKind::Tag | TitleKind::Array | TitleKind::Map if depth == 0 => {
            Some(Fault::Deep(place))
        }
        _ => None,
    }
}

/// Returns why a title of this kind may not stand at `place`, before all of its bytes came.
#[inline(always)]
pub(crate) fn blocked(within: Within, depth: usize, place: usize, kind: TitleKind) -> Option<Fault>
    ensures { result ≡ blocked within depth place kind }
{
    match within {
        Within::Nothing => too_deep(depth, place, kind),
        Within::Open(_, _) if within.blocks(kind) => Some(Fault::Syntax(place)),
        Within::Open(_, _) => None,
    }
}

/// Returns whether a title of this kind that has a number is an item by itself: a number, a float or a simple value.
#[inline(always)]
pub(crate) fn is_single(kind: TitleKind) -> bool
    ensures { result ≡ is_single kind }
{
    matches!(
        kind,
        TitleKind::Positive | TitleKind::Negative | TitleKind::Other
    )
}
