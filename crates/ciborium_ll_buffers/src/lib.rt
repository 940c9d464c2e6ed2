// SPDX-License-Identifier: Apache-2.0
//! Readers and a writer over those of std that move many bytes at a time, through a slice that the caller lends.
//!
//! This crate is a part of `ciborium_ll`, whose module `io` exports it.
#![tactic(auto)]

mod buffered;
mod keeping;
mod messages;
mod window;

pub use self::buffered::{BufferedReader, BufferedWriter, FaultKept};
pub use self::keeping::KeepingReader;
