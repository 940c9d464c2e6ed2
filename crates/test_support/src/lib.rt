// SPDX-License-Identifier: Apache-2.0
//! Inputs, devices and plain readings that the tests of other crates share.
#![tactic(auto)]

pub mod devices;
pub mod json;
pub mod plain;
pub mod samples;
pub mod streams;
pub mod tape;
