//! The tags of big integers (RFC 7049, 2.4.2).

/// A positive big integer follows, as a byte string.
pub const BIGPOS: u64 = 2;
/// A negative big integer follows, as a byte string.
pub const BIGNEG: u64 = 3;
