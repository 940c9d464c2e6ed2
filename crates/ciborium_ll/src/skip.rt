//! Strings that a caller reads to their end without their bodies.

pub use ciborium_ll_decoder::skip::{skip_bytes, skip_text};
