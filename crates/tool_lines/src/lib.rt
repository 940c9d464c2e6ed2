// SPDX-License-Identifier: Apache-2.0
//! Answers lines on CBOR titles, strings and copies over any reader and writer of std, and copies raw bytes.
//!
//! `ciborium_ll_tool` is the program that calls it. The answers to lines stand in `tool_answers`.
#![tactic(auto)]

mod ahead;
pub mod prompt;
pub mod raw;

pub use ciborium_ll_streams::memory;
pub use tool_answers::{fault, service};
