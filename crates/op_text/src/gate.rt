//! The gates.

ghost use Rattle.std.specs.Prelude.{◌≡◌};
ghost use Rattle.op_text.specs.Rules.{gate_named};

/// A gate of an expression.
#[derive(Clone, Copy, PartialEq, Eq)]
pub enum Gate {
    Not,
    And,
    Or,
    Xor,
    Maj,
}

/// The gate that a name names.
pub fn gate_of(name: &[u8]) -> Option<Gate>
    ensures { result ≡ gate_named name.now }
{
    if name == b"not".as_slice() {
        Some(Gate::Not)
    } else if name == b"and".as_slice() {
        Some(Gate::And)
    } else if name == b"or".as_slice() {
        Some(Gate::Or)
    } else if name == b"xor".as_slice() {
        Some(Gate::Xor)
    } else if name == b"maj".as_slice() {
        Some(Gate::Maj)
    } else {
        None
    }
}
