//! Tests of the copiers that take bytes in pieces, from outside, beside `recode` over the whole.

pub mod answers;
pub mod items;
pub mod memory;
mod rows;
