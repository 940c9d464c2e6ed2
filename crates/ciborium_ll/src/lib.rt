// SPDX-License-Identifier: Apache-2.0
//! Headers and string segments of CBOR (RFC 7049, 2.1 to 2.3), over any reader and writer.
//!
//! A [`Decoder`] gives the headers of items, and the bodies of strings chunk by chunk. An [`Encoder`] writes headers,
//! each as its shortest title, and strings in pieces of a limited length.
//!
//! Only [`io::VecWriter`] allocates memory, from its caller's allocator.
#![tactic(auto)]

pub mod io;
pub mod laws;
pub mod recode;
pub mod simple;
pub mod skip;
pub mod tag;
pub mod title;

pub use ciborium_ll_decoder::copy::RecodeError;
pub use ciborium_ll_decoder::dec::{Decoder, Error};
pub use ciborium_ll_decoder::seg::{Body, Bytes, Chunked, Segment, Segments, Text};
pub use ciborium_ll_encoder::enc::Encoder;
pub use ciborium_ll_grammar::hdr::{Float, Header};
pub use ciborium_ll_grammar::limits;
pub use ciborium_ll_grammar::spelling::Spelling;
