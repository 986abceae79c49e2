//! The sizes of an image file's parts, in bytes.

/// What stands before the records of the objects.
pub const HEAD_BYTES: usize = 14;

/// An object's record.
pub const RECORD_BYTES: usize = 24;

/// How many objects an image has at most.
pub const OBJECTS_MAX: usize = 256;

/// The greatest image: all objects, and 2^23 words of rows.
pub const IMAGE_BYTES_MAX: usize = HEAD_BYTES + RECORD_BYTES * OBJECTS_MAX + 8 * 8_388_608;
