// SPDX-License-Identifier: Apache-2.0
//! Copies whole items of CBOR (RFC 7049, 2.1 to 2.4) in their shortest spelling (3.9), from pieces of any length. No
//! call takes memory, or waits for a reader or a writer.
#![tactic(auto)]

mod copier;
pub mod laws;
mod progress;
mod snapshot;

pub use self::copier::ItemCopier;
pub use self::progress::{Copied, End, Progress};
pub use self::snapshot::Snapshot;
