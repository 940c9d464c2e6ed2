// SPDX-License-Identifier: Apache-2.0
//! Items in the deterministic encoding of RFC 8949, 4.2.1, or of 4.2.3 with the shorter keys first. No call takes
//! memory.
//!
//! [`deterministic_len`] checks bytes, and [`view::Item`] looks into an item.
#![tactic(auto)]

ghost use Rattle.std.specs.Prelude.{◌≡◌, ◌↔◌, ◌+◌, ◌≤◌, ℕ, Ok, Err};
ghost use Rattle.cbor_deterministic.specs.Deterministic.{HasDeterministic};
ghost use Rattle.cbor_deterministic.specs.Refusals.{HasRefusal};
ghost use Rattle.cbor_deterministic.specs.declared.Why.{Why as AnyWhy};

mod flat;
pub mod floats;
mod items;
pub mod laws;
mod messages;
mod title;
pub mod view;

pub use crate::items::compare_keys;
use crate::items::skip_item;
use ciborium_ll_grammar::limits::MOST_LEVELS;

/// The greatest depth, in levels.
pub const MAX_DEPTH: usize = MOST_LEVELS;

/// The order of the keys of a map, by their encodings.
#[derive(Clone, Copy, Debug, PartialEq, Eq)]
pub enum Order {
    /// By their bytes (RFC 8949, 4.2.1). Integers and strings are then in the order of CTAP2 too.
    Bytewise,
    /// The shorter key first, and keys of the same length by their bytes (RFC 7049, 3.9, and RFC 8949, 4.2.3). Texts,
    /// which the keys of DAG-CBOR are, have the bytewise order too.
    LengthFirst,
}

/// Why bytes are refused.
#[derive(Clone, Copy, Debug, PartialEq, Eq)]
pub enum Why {
    /// The bytes end too early.
    Cut,
    /// No title begins with this byte.
    NoTitle,
    /// A number has a shorter title, or a smaller width holds a float (RFC 8949, 4.1).
    NotShortest,
    /// The title of an indefinite form, or a break (RFC 8949, 3.2).
    Indefinite,
    /// A simple value from 24 to 31 (RFC 8949, 3.3).
    NoSimple,
    /// The body of a text is not UTF-8.
    NoText,
    /// A key that comes before the previous key.
    KeyOrder,
    /// A key that equals the previous key.
    DuplicateKey,
    /// A tag, an array or a map for which no level is left.
    Deep,
}

/// Why no item in the deterministic encoding begins some bytes.
#[derive(Clone, Copy, Debug, PartialEq, Eq, Drop)]
pub struct Refusal {
    /// The reason.
    pub why: Why,
    /// The offset of the first fault, in bytes.
    pub place: usize,
}

/// A refusal, by how many bytes are left from its place on.
#[derive(Clone, Copy, Drop)]
pub(crate) struct Stop {
    pub(crate) why: Why,
    pub(crate) left: usize,
}

/// Returns the length of the item in the deterministic encoding with which the bytes begin.
///
/// Tags, arrays and maps are nested at most `depth` levels deep. Each takes a level, even if it is empty; a string
/// takes none.
///
/// Each number and length stands in the fewest bytes, and each float in the smallest width that holds it. No length is
/// indefinite. The keys of each map ascend, and no two are the same.
///
/// A smaller width holds a NaN exactly if the bits that this cuts off are zero. `0.0` and `-0.0` differ. An integer is
/// never a float, and the call does not interpret tags.
///
/// # Errors
///
/// The refusal names the first place at which the bytes can't go on:
///
/// - [`Why::Cut`]: the title that is cut, or the end of the bytes if a body is cut.
/// - [`Why::NoTitle`], [`Why::NotShortest`], [`Why::Indefinite`], [`Why::NoSimple`], [`Why::Deep`]: the title.
/// - [`Why::NoText`]: the title of the text.
/// - [`Why::KeyOrder`], [`Why::DuplicateKey`]: the later key.
///
/// # Time and memory
///
/// The call reads the bytes once. It compares each key with the previous key, so `n` bytes take at most `n * depth`
/// comparisons of bytes. On the stack each level takes the frames of three calls.
///
/// ```rust
/// let len = deterministic_len(bytes, 16, Order::Bytewise)?;
/// ```
pub fn deterministic_len(bytes: &[u8], depth: usize, order: Order) -> Result<usize, Refusal>
    requires shallow { depth ≤ MAX_DEPTH }
    ensures exactly { (len : ℕ) → (result ≡ Ok len ↔ HasDeterministic order depth bytes.now len) }
    ensures refused { (why : AnyWhy) (place : ℕ)
        → (result ≡ Err (record { why = why; place = place }) ↔ HasRefusal order depth bytes.now why place) }
{
    match skip_item(bytes, depth, order) {
        Ok(rest) => Ok(bytes.len() - rest.len()),
        Err(stop) => Err(stop.refusal(bytes.len())),
    }
}

impl Stop {
    /// Returns the refusal by its offset in `len` bytes.
    pub(crate) fn refusal(self, len: usize) -> Refusal
        requires { self.left ≤ len }
        ensures why { result.why ≡ self.why }
        ensures place { result.place + self.left ≡ len }
    {
        Refusal {
            why: self.why,
            place: len - self.left,
        }
    }
}
