//! The sizes of a trace file's parts, in bytes.

/// An event without the row of a write.
pub const EVENT_BYTES: usize = 8;

/// What stands before the events at most: an image's head with all objects, and the number of
/// events.
pub const HEAD_BYTES_MAX: usize = 6_162;

/// The room for events in a recorder.
pub const EVENTS_BYTES_MAX: usize = 67_108_864;

/// The greatest trace file.
pub const TRACE_BYTES_MAX: usize = 67_115_026;
