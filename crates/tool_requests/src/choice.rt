//! The choices of the program.

/// A choice of the program.
#[derive(Debug, PartialEq, Eq, Drop)]
pub enum Chosen {
    /// It answers lines.
    Lines,
    /// It copies this many elements.
    Raw(usize),
    /// It says how to use it.
    Usage,
}
