// SPDX-License-Identifier: Apache-2.0
//! A decoder: it reads headers, and reads or copies the bodies of strings piece by piece.
//!
//! It is a part of `ciborium_ll`.
#![tactic(auto)]

pub mod copy;
pub mod dec;
mod messages;
pub mod seg;
pub mod skip;
mod slice;
pub mod title;
