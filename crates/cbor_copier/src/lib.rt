// SPDX-License-Identifier: Apache-2.0
//! Copies elements of CBOR (RFC 7049, 2.1 and 2.2) to their shortest spelling, from pieces of any length.
//!
//! Each call returns. No call takes memory, waits for a reader or a writer, or takes a byte twice.
#![tactic(auto)]

mod copier;
pub mod laws;
mod pending;
mod phase;
mod pieces;
mod plain;
mod progress;
mod snapshot;

pub use self::copier::Copier;
pub use self::plain::{ShortestRun, shortest_run};
pub use self::progress::{Copied, End, Progress};
pub use self::snapshot::Snapshot;
