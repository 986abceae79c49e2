//! Why a text is refused.

/// The rules, in their order.
#[derive(Clone, Copy, Debug, PartialEq, Eq)]
pub enum OpsKind {
    Lex,
    Syntax,
    BadName,
    Twice,
    Unknown,
    Kind,
    NoResult,
    TooMany,
}

/// A rule that is broken, by line.
#[derive(Clone, Copy, Debug, PartialEq, Eq)]
pub struct OpsFault {
    pub line: u32,
    pub kind: OpsKind,
}

/// Why a text gives no ops.
#[derive(Clone, Copy, Debug, PartialEq, Eq)]
pub enum OpsNo {
    Fault(OpsFault),
    NoMemory,
}
