//! The sizes of a program file's parts, in bytes.

/// What stands before the directory.
pub(crate) const HEAD_BYTES: usize = 8;

/// An entry's record.
pub(crate) const RECORD_BYTES: usize = 27;

/// An instruction.
pub(crate) const INSTRUCTION_BYTES: usize = 8;

/// How many entries a program has at most.
pub(crate) const ENTRIES_MAX: u16 = 32;
