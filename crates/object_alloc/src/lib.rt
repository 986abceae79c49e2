//! Objects of a chip: the table that gives each its rows, and the image file that holds a table and
//! the chip's rows.
#![tactic(auto)]

mod fault;
mod image;
mod reading;
mod sizes;
mod spelling;
mod table;
mod words;

pub use fault::{ImageFault, ImageKind, ImageNo};
pub use faults::NoMemory;
pub use image::Image;
pub use reading::{images_are_exact, read_geometry, read_image, read_table};
pub use sizes::{HEAD_BYTES, IMAGE_BYTES_MAX, OBJECTS_MAX, RECORD_BYTES};
pub use spelling::{empty_image, put_head, record_of};
pub use table::{Object, Table, free_is_least};
pub use words::{bytes_of_words, words_of_bytes};
