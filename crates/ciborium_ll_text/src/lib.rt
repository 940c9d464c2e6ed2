// SPDX-License-Identifier: Apache-2.0
//! Text of CBOR strings in UTF-8 (Unicode, Table 3-7), chunk by chunk, and its cuts.
//!
//! `ciborium_ll` exports the names that users need.
#![tactic(auto)]

mod blocks;
mod numbers;
mod rows;
pub mod state;
