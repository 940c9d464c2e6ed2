//! Copies of elements in their shortest spelling, and a test for this spelling.

pub use ciborium_ll_recode::recode::{RecodeError, recode, strict_len};
