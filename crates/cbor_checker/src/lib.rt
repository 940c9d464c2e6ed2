// SPDX-License-Identifier: Apache-2.0
//! Checks items of CBOR (RFC 7049, 2.1 to 2.4) whose bytes come in pieces of any length.
//!
//! Each call returns. No call takes memory, waits for a reader, or takes a byte twice.
#![tactic(auto)]

mod checker;
pub mod laws;
mod level;
mod levels;
mod phase;
mod plain;
mod position;
mod progress;
mod snapshot;
mod tell;
mod title;
mod walk;

pub use self::checker::Checker;
pub use self::phase::Fault;
pub use self::progress::{End, Feed, Progress};
pub use self::snapshot::Snapshot;
