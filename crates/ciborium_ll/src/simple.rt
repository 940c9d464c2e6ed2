//! The simple values that have a name (RFC 7049, 2.3).

/// The Boolean false.
pub const FALSE: u8 = 20;
/// The Boolean true.
pub const TRUE: u8 = 21;
/// The null value.
pub const NULL: u8 = 22;
/// The undefined value.
pub const UNDEFINED: u8 = 23;
