//! A header together with its title in parts, for a caller that reads each title and makes few headers.
//!
//! [`pull_title`] answers as [`Decoder::pull`](crate::Decoder::pull) does, and also gives the title. [`Title::start`]
//! tells the title's role from its parts alone.

pub use ciborium_ll_decoder::title::pull_title;
pub use ciborium_ll_grammar::hdr::{Element, Minor, Start, Title};
