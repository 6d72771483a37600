//! How a run ended.

/// How a run ended.
#[derive(Clone, Copy, Debug, PartialEq, Eq)]
pub enum Status {
    /// A proof was found, and what is printed of it was written whole.
    Proved,
    /// No proof was found, or it is over a limit.
    GaveUp,
    /// The words are none that the command takes.
    Usage,
    /// The problem is refused.
    Refused,
    /// The input could not be read.
    ReadFault,
    /// The output could not be written whole.
    WriteFault,
    OutOfMemory,
}
