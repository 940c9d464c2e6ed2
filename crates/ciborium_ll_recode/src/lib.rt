// SPDX-License-Identifier: Apache-2.0
//! Elements copied from a decoder to an encoder, each in its shortest spelling.
//!
//! It is a part of `ciborium_ll`.
#![tactic(auto)]

pub mod recode;
