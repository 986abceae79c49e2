//! What the outside answers where it does not do what it was asked.

use thiserror::Error;

/// Why a file was not loaded.
#[derive(Clone, Copy, Debug, PartialEq, Eq)]
pub enum LoadNo {
    /// The file is not there, or reading it failed.
    Failed,
    /// The file has more bytes than the limit.
    TooLong,
    NoMemory,
}

/// A call to the outside failed.
#[derive(Clone, Copy, Debug, PartialEq, Eq, Error)]
#[error("a call to the outside failed")]
pub struct Failed;
