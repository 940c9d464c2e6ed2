// SPDX-License-Identifier: Apache-2.0
//! Answers lines on CBOR titles, strings and copies over any reader and writer of std.
//!
//! `tool_answers_main` is the program that calls it. `tool_lines` exports its items beside the copies of raw bytes.
#![tactic(auto)]

mod answer;
mod copy;
pub mod fault;
mod head;
pub mod service;
mod skip;
mod string;
mod value;
