//! Where a program file breaks a rule.

use file_fields::FileFault;

/// What a field of a program file breaks. A file that ends inside a field is `Short`.
#[derive(Clone, Copy, Debug, PartialEq, Eq)]
pub enum ProgKind {
    Short,
    Magic,
    Version,
    Directory,
    Instruction,
    Target,
    Row,
    NoDone,
    Rest,
}

/// The first field that breaks a rule, by the place of its first byte. `Short` and `Rest` are at
/// the end: that of the file, and that of the program.
pub type ProgFault = FileFault<ProgKind>;
