// SPDX-License-Identifier: Apache-2.0
//! The meaning of bytes in CBOR (RFC 7049, 2.1 to 2.3): titles, strings, elements, items and faults, without input or
//! output.
//!
//! `ciborium_ll` exports the names that users need.
#![tactic(auto)]

pub mod hdr;
pub mod limits;
pub mod remaining;
pub mod spelling;
pub mod titles;
