//! The numbers that contracts name.

/// The most levels of nests that a checker, a skip, a dump and a notation follow.
pub const MOST_LEVELS: usize = 256;

/// The least length of a buffer, in bytes: that of the longest character (RFC 3629, 3).
pub const LEAST_BUFFER: usize = 4;

/// The longest title's length, in bytes: a first byte and eight more (RFC 7049, 2.1).
pub const LONGEST_TITLE: usize = 9;

/// The longest affix's length, in bytes (RFC 7049, 2.1). A title that is not whole has at most as many bytes.
pub const LONGEST_AFFIX: usize = 8;

/// The most bytes that a text keeps of an unfinished character (RFC 3629, 3).
pub const MOST_KEPT: usize = 3;
