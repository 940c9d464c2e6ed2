//! Tests of the skip of one item: by rows, over cut bytes, and over readers that fail or never end.

pub mod answers;
mod readers;
mod rows;
