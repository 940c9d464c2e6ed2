// SPDX-License-Identifier: Apache-2.0
//! An encoder of headers, each as its shortest title, and of strings in pieces of a limited length.
//!
//! It is a part of `ciborium_ll`.
#![tactic(auto)]

pub mod enc;
