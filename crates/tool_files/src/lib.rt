// SPDX-License-Identifier: Apache-2.0
//! Looks at files of CBOR, over any reader and writer of std.
//!
//! `check` says whether bytes are well-formed, `dump` shows them title by title, `diag` writes them in diagnostic
//! notation, `json` writes them as JSON, and `encode` reads notation. `canon` writes the deterministic encoding of
//! bytes, and `recode` their shortest spelling. Each function is safe and returns. Contracts say which request the
//! words of the command line spell, and that each input is read from its start with the options that they set. Tests
//! try the printed texts.
#![tactic(auto)]

pub mod arguments;
pub mod canon;
pub mod check;
pub mod deterministic;
pub mod digits;
pub mod dump;
pub mod encode;
mod fence;
pub mod help;
pub mod index;
pub mod input;
pub mod items;
mod lines;
mod nested;
mod options;
pub mod progress;
pub mod recode;
mod request;
pub mod said;
mod send;
mod shared;
pub mod shown;
mod text;
