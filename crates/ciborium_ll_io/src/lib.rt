// SPDX-License-Identifier: Apache-2.0
//! Readers and writers of bytes, and those over slices.
//!
//! This crate is a part of `ciborium_ll`, whose module `io` exports it.
#![tactic(auto)]

pub mod io;
