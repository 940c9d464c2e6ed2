// SPDX-License-Identifier: Apache-2.0
//! Checks and shows items of CBOR (RFC 7049, 2.1 to 2.4) and sequences of items (RFC 8742).
//!
//! No call takes memory, and each returns over any reader.
#![tactic(auto)]

pub mod counted;
pub mod dump;
pub mod embedded;
mod fronts;
pub mod key;
pub mod left;
mod named;
mod numbers;
pub mod rows;
pub mod sequence;
pub mod single;
mod strings;
mod tags;
mod taken;
mod walk;
