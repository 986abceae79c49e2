//! Where the names of a statement lie.

use crate::ir::Space;
use indexmap::IndexMap;
use op_text::Kind;
use text_lex::Name;

/// Where a name's rows lie.
#[derive(Clone, Copy, PartialEq, Eq)]
pub struct Slot {
    pub space: Space,
    pub which: u8,
    pub kind: Kind,
}

/// The place of each name, and the first bit and word of scratch that no name has.
pub struct NameMap {
    pub slots: IndexMap<Name, Slot>,
    pub free_bit: u8,
    pub free_word: u8,
}

impl Drop for NameMap {
    fn drop(self) {
        let NameMap {
            slots: _,
            free_bit: _,
            free_word: _,
        } = self;
    }
}
