//! An image.

use crate::table::Table;
use dram_model::Geometry;

/// A chip at rest: its shape, the objects in its rows, and what every data row holds.
#[derive(Drop)]
pub struct Image<'a> {
    pub geometry: Geometry,
    pub table: Table,
    /// 8 bytes for each word of each row, bank by bank and row by row, the low byte first. They are
    /// a slice of the
    /// file.
    pub rows: &'a [u8],
}
