// SPDX-License-Identifier: Apache-2.0
//! Readers and writers over those of std, and a writer into memory that grows.
//!
//! This crate is a part of `ciborium_ll`, whose module `io` exports it.
#![tactic(auto)]

pub mod memory;
mod messages;
mod streams;

pub use self::memory::{OutOfMemory, VecWriter};
pub use self::streams::{ReadFault, StdReader, StdWriter, WriteFault, write_calls};
