//! The bodies of loop programs, by what they compute.

use loop_ir::Sub;

/// Whose rows a place has, by the number that an operation gives it; or in which cells a state
/// stands, by the number of their layout.
#[derive(Clone, Copy)]
pub enum Owner {
    Row(u8),
    Cells(u8),
}

/// A place by its owner.
#[derive(Clone, Copy)]
pub struct Mark {
    pub owner: Owner,
    pub sub: Sub,
}

/// What a body computes: from its reads, of which states are the last, into its writes, of which
/// they are the last too. A mark of what is written comes after those of what is read.
///
/// States in cells have forms of their own, since other commands do them.
#[derive(Clone, Copy)]
pub enum BodyForm {
    Off(Mark),
    On(Mark),
    Moved(Mark, Mark),
    Inverted(Mark, Mark),
    Both(Mark, Mark, Mark),
    Either(Mark, Mark, Mark),
    Unlike(Mark, Mark, Mark),
    Chosen(Mark, Mark, Mark, Mark),
    /// With a carry in a row.
    Added(Mark, Mark, Mark, Mark),
    /// A state gets 0.
    Reset(Mark),
    /// A state gets 1.
    Set(Mark),
    /// Two states get 1.
    SetBoth(Mark, Mark),
    /// With a borrow, a state.
    Lessened(Mark, Mark, Mark, Mark),
    /// With the comparison so far, a state.
    Compared(Mark, Mark, Mark, Mark),
    /// Two states: of either word, whether it is at least the other.
    Ordered(Mark, Mark, Mark, Mark),
    /// Whether both of two states are set.
    Agreed(Mark, Mark, Mark),
}

/// A body done once, or at each position.
#[derive(Clone, Copy)]
pub enum ProgramLine {
    Once(BodyForm),
    Each(BodyForm),
}
