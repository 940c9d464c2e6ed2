// SPDX-License-Identifier: Apache-2.0
//! An item of CBOR (RFC 7049, 2.1 to 2.4) as it stands in memory, in any spelling. No call takes memory.
//!
//! [`Item::parse`] checks that bytes begin with an item, and the calls of [`Item`] look into it. A call that passes an
//! item reads each byte of the item once. On the stack each level takes a frame in that call.
#![tactic(auto)]

mod item;
mod messages;
mod nests;
mod parse;
mod search;
mod segments;

pub use self::item::Item;
pub use self::nests::{Elements, Entries};
pub use self::parse::Fault;
pub use self::segments::{Segments, TextSegments};
use ciborium_ll_grammar::limits::MOST_LEVELS;
pub use ciborium_ll_grammar::titles::next_title;

/// The greatest depth, in levels.
pub const MAX_DEPTH: usize = MOST_LEVELS;
