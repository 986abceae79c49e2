//! Loop programs.

ghost use Rattle.std.specs.Prelude.{◌≡◌};

use mig_graph::MigOuts;
use row_alloc::BodyCmd;

/// The position of a row in what it belongs to, at width n and index i.
#[derive(Clone, Copy, PartialEq, Eq)]
pub enum Sub {
    /// 0.
    Zero,
    /// i.
    Inner,
    /// n - 1 - i.
    InnerDown,
    /// What this register holds, in a flow.
    Register(u8),
}

/// What a row belongs to: the result, a source, or a bit or word of scratch. A value in cells of
/// the bitwise group has no row: a body leaves it in them to the next one.
#[derive(Clone, Copy, PartialEq, Eq)]
pub enum Space {
    Result,
    Source,
    ScratchBit,
    ScratchWord,
    Cells,
}

/// A row by its name: which value of a space, and the position in it. A bit of scratch has one row.
/// Of cells `which` is the number of the group's cells, and `sub` is `Zero`.
#[derive(Clone, Copy, PartialEq, Eq)]
pub struct Place {
    pub space: Space,
    pub which: u8,
    pub sub: Sub,
}

/// What is done in one round: read k is input k of the graph, and output j is written to place j.
/// All writes come after all reads.
pub struct Body {
    pub reads: Vec<Place>,
    pub graph: MigOuts,
    pub writes: Vec<Place>,
    /// The commands that do it.
    pub found: Vec<BodyCmd>,
}

impl Body {
    /// The graph alone.
    pub fn into_graph(self) -> MigOuts
        ensures { result ≡ self.graph }
    {
        let Body {
            reads: _,
            graph,
            writes: _,
            found: _,
        } = self;
        graph
    }
}

impl Drop for Body {
    fn drop(self) {
        let Body {
            reads: _,
            graph: _,
            writes: _,
            found: _,
        } = self;
    }
}

/// What is done to a register of a flow; these are 0 to 6.
#[derive(Clone, Copy, PartialEq, Eq)]
pub enum Move {
    /// A number.
    SetI(u8, u16),
    /// The width n.
    SetN(u8),
    /// n - 1.
    SetT(u8),
    /// The value of the second register.
    Mov(u8, u8),
    /// So much more.
    AddI(u8, u16),
    /// So much less.
    SubI(u8, u16),
    /// What the second register holds more.
    Add(u8, u8),
}

/// Bodies, moves, choices and loops, one after another: the last flow of each form is what follows.
/// The subscripts of the bodies are `Zero` and `Register` alone.
#[derive(Drop)]
#[cycle(flow)]
pub enum Flow {
    End,
    /// A body.
    Do(Body, Box<Flow>),
    /// A move.
    Put(Move, Box<Flow>),
    /// The first flow where the register is not 0, else the second.
    If(u8, Box<Flow>, Box<Flow>, Box<Flow>),
    /// As many iterations as the register holds. In each it holds how many come after.
    Loop(u8, Box<Turns>, Box<Flow>),
}

/// What a loop does: one flow an iteration, in turn, again from the first after the last.
#[derive(Drop)]
#[cycle(flow)]
pub enum Turns {
    Last(Box<Flow>),
    Turn(Box<Flow>, Box<Turns>),
}

/// A body done once or at each position, or a flow.
#[derive(Drop)]
pub enum Step {
    Once(Body),
    Each(Body),
    /// A flow, whose registers hold 0 as it begins.
    Flow(Flow),
}

/// Steps that are done one after another, the same at every width.
#[derive(Drop)]
pub struct LoopProgram {
    pub steps: Vec<Step>,
}
