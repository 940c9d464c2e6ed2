// SPDX-License-Identifier: Apache-2.0
//! Skips items of CBOR (RFC 7049, 2.1 to 2.4) that are in memory by a checker, and others by a decoder: out of a
//! [`BufferedReader`], whose buffer holds some of them, or out of a slice.
//!
//! No call takes memory, and each returns, also over a reader that never ends.
//!
//! [`BufferedReader`]: ciborium_ll_buffers::BufferedReader
#![tactic(auto)]

mod groups;
mod pass;
mod skip;
mod slice;

pub use self::pass::{AHEAD, pass_items};
pub use self::skip::{NESTS, skip_items, skip_one};
pub use self::slice::skip_slice;
