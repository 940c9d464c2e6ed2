// SPDX-License-Identifier: Apache-2.0
//! The verdicts of the program that looks at files, and their texts.
//!
//! The calls work over any decoder, and any rows or writer of the library. `tool_files` prints the answers.
#![tactic(auto)]

pub mod ahead;
pub mod check;
pub mod deterministic;
pub mod dump;
pub mod items;
pub mod part;
pub mod verdict;
