//! Word operations as flows: what their bodies read, compute and write, the commands of these, and
//! how they follow one another.

use loop_ir::Move;
use mig_graph::{Lit, Node};
use row_alloc::BodyCmd;
use word_lower::Mark;

/// At most four.
#[derive(Clone, Copy)]
pub struct Four<T> {
    pub a: Option<T>,
    pub b: Option<T>,
    pub c: Option<T>,
    pub d: Option<T>,
}

/// At most nine.
#[derive(Clone, Copy)]
pub struct Nine<T> {
    pub a: Option<T>,
    pub b: Option<T>,
    pub c: Option<T>,
    pub d: Option<T>,
    pub e: Option<T>,
    pub f: Option<T>,
    pub g: Option<T>,
    pub h: Option<T>,
    pub i: Option<T>,
}

/// A body in which each read is an input, and the commands that do it.
#[derive(Clone, Copy)]
pub struct CodedBody {
    pub reads: Four<Mark>,
    pub nodes: Four<Node>,
    pub outs: Four<Lit>,
    pub writes: Four<Mark>,
    pub cmds: Nine<BodyCmd>,
}

/// A line of a flow. Each part of a choice or of a loop ends with `Done`, and what follows stands
/// behind the last part.
#[derive(Clone, Copy)]
pub enum Line {
    /// A body.
    Do(CodedBody),
    /// What is done to a register.
    Put(Move),
    /// Two parts: what is done where the register is not 0, and where it is.
    If(u8),
    /// One part, done as often as the register says.
    Loop(u8),
    /// Two parts that take turns.
    LoopTwo(u8),
    /// The end of a part, or of all.
    Done,
}

// at most four of a kind, or nine
macro_rules! four {
    () => {
        Four {
            a: None,
            b: None,
            c: None,
            d: None,
        }
    };
    ($a:expr) => {
        Four {
            a: Some($a),
            b: None,
            c: None,
            d: None,
        }
    };
    ($a:expr, $b:expr) => {
        Four {
            a: Some($a),
            b: Some($b),
            c: None,
            d: None,
        }
    };
    ($a:expr, $b:expr, $c:expr) => {
        Four {
            a: Some($a),
            b: Some($b),
            c: Some($c),
            d: None,
        }
    };
    ($a:expr, $b:expr, $c:expr, $d:expr) => {
        Four {
            a: Some($a),
            b: Some($b),
            c: Some($c),
            d: Some($d),
        }
    };
}

macro_rules! nine {
    ($a:expr) => {
        Nine {
            a: Some($a),
            b: None,
            c: None,
            d: None,
            e: None,
            f: None,
            g: None,
            h: None,
            i: None,
        }
    };
    ($a:expr, $b:expr) => {
        Nine {
            a: Some($a),
            b: Some($b),
            c: None,
            d: None,
            e: None,
            f: None,
            g: None,
            h: None,
            i: None,
        }
    };
    ($a:expr, $b:expr, $c:expr) => {
        Nine {
            a: Some($a),
            b: Some($b),
            c: Some($c),
            d: None,
            e: None,
            f: None,
            g: None,
            h: None,
            i: None,
        }
    };
    ($a:expr, $b:expr, $c:expr, $d:expr) => {
        Nine {
            a: Some($a),
            b: Some($b),
            c: Some($c),
            d: Some($d),
            e: None,
            f: None,
            g: None,
            h: None,
            i: None,
        }
    };
    ($a:expr, $b:expr, $c:expr, $d:expr, $e:expr, $f:expr) => {
        Nine {
            a: Some($a),
            b: Some($b),
            c: Some($c),
            d: Some($d),
            e: Some($e),
            f: Some($f),
            g: None,
            h: None,
            i: None,
        }
    };
    ($a:expr, $b:expr, $c:expr, $d:expr, $e:expr, $f:expr, $g:expr) => {
        Nine {
            a: Some($a),
            b: Some($b),
            c: Some($c),
            d: Some($d),
            e: Some($e),
            f: Some($f),
            g: Some($g),
            h: None,
            i: None,
        }
    };
    ($a:expr, $b:expr, $c:expr, $d:expr, $e:expr, $f:expr, $g:expr, $h:expr) => {
        Nine {
            a: Some($a),
            b: Some($b),
            c: Some($c),
            d: Some($d),
            e: Some($e),
            f: Some($f),
            g: Some($g),
            h: Some($h),
            i: None,
        }
    };
    ($a:expr, $b:expr, $c:expr, $d:expr, $e:expr, $f:expr, $g:expr, $h:expr, $i:expr) => {
        Nine {
            a: Some($a),
            b: Some($b),
            c: Some($c),
            d: Some($d),
            e: Some($e),
            f: Some($f),
            g: Some($g),
            h: Some($h),
            i: Some($i),
        }
    };
}

// a node of a graph
macro_rules! node {
    ($a:expr, $b:expr, $c:expr) => {
        Node {
            a: $a,
            b: $b,
            c: $c,
        }
    };
}

// a row of an owner: that which a register says, or the lowest; and a state in the cells of a
// layout
macro_rules! row {
    ($owner:expr, $register:expr) => {
        Mark {
            owner: Owner::Row($owner),
            sub: Sub::Register($register),
        }
    };
}

macro_rules! lowest {
    ($owner:expr) => {
        Mark {
            owner: Owner::Row($owner),
            sub: Sub::Zero,
        }
    };
}

macro_rules! state {
    ($layout:expr) => {
        Mark {
            owner: Owner::Cells($layout),
            sub: Sub::Zero,
        }
    };
}

pub(crate) use four;
pub(crate) use lowest;
pub(crate) use nine;
pub(crate) use node;
pub(crate) use row;
pub(crate) use state;
