//! Why a line of a case is not done.

use host_edge::NoMemory;
use std::alloc::{AllocError, AllocFailed};

/// The line is none of the format, or names what is not there; or memory was wanting.
#[derive(Clone, Copy)]
pub enum LineError {
    Unread,
    Memory,
}

impl From<AllocError> for LineError {
    fn from(_wanting: AllocError) -> LineError {
        LineError::Memory
    }
}

impl<T: Drop> From<AllocFailed<T>> for LineError {
    fn from(_wanting: AllocFailed<T>) -> LineError {
        LineError::Memory
    }
}

impl From<NoMemory> for LineError {
    fn from(_wanting: NoMemory) -> LineError {
        LineError::Memory
    }
}
