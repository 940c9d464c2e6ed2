// SPDX-License-Identifier: Apache-2.0
//! Parses CBOR (RFC 7049, 2.1 to 2.4) whose bytes come in pieces of any length, into headers and the bodies of strings.
//!
//! Each call returns. No call takes memory, or waits for a reader.
#![tactic(auto)]

pub mod begun;
mod event;
pub mod few;
pub mod laws;
mod parser;
mod phase;
mod saved;
pub mod strings;
pub mod title;

pub use self::event::{Event, Pushed};
pub use self::parser::Parser;
pub use self::saved::{Saved, spelling_of};
