//! Tests of the checker that takes bytes in pieces, from outside, beside a skip of the whole.

pub mod answers;
mod both;
pub mod memory;
mod rows;
mod strict;
