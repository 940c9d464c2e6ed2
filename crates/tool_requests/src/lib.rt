// SPDX-License-Identifier: Apache-2.0
//! Reads lines of input, the requests that they spell and the choice of the program's arguments, and writes lines of
//! answers.
//!
//! Each line and each row of arguments means one request, as `specs/` says. This crate does not answer them.
#![tactic(auto)]

pub mod answer;
pub mod arguments;
pub mod choice;
pub mod input;
pub mod number;
pub mod request;
pub mod word;
