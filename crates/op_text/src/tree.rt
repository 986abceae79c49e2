//! Operations as trees.

ghost use Rattle.std.specs.Prelude.{◌≡◌};

use crate::word_ops::WordOp;
use text_lex::Name;

/// What a name holds: a word of n bits, one bit in each row, or one bit.
#[derive(Clone, Copy, Debug, PartialEq, Eq)]
pub enum Kind {
    Word,
    Bit,
}

impl Default for Kind {
    fn default() -> Self
        ensures { result ≡ Kind.Word }
    {
        Kind::Word
    }
}

#[derive(Drop, PartialEq, Eq)]
pub struct Param {
    pub name: Name,
    pub kind: Kind,
}

#[derive(Drop)]
pub enum Expr {
    Zero,
    One,
    Read(Name),
    Not(Box<Expr>),
    And(Box<Expr>, Box<Expr>),
    Or(Box<Expr>, Box<Expr>),
    Xor(Box<Expr>, Box<Expr>),
    Maj(Box<Expr>, Box<Expr>, Box<Expr>),
}

#[derive(Drop, PartialEq, Eq)]
pub struct State {
    pub name: Name,
    pub start: bool,
}

pub struct Assign {
    pub name: Name,
    pub value: Expr,
}

impl Drop for Assign {
    fn drop(self) {
        let Assign { name: _, value: _ } = self;
    }
}

#[derive(Drop)]
pub enum Stmt {
    Word {
        dst: Name,
        /// The target of an operation's second result.
        second: Option<Name>,
        op: WordOp,
        args: Vec<Name>,
    },
    Serial {
        down: bool,
        states: Vec<State>,
        lets: Vec<Assign>,
        assigns: Vec<Assign>,
    },
}

pub struct Op {
    pub name: Name,
    pub params: Vec<Param>,
    pub result: Param,
    pub second: Option<Param>,
    pub body: Vec<Stmt>,
}

impl Drop for Op {
    fn drop(self) {
        let Op {
            name: _,
            params: _,
            result: _,
            second: _,
            body: _,
        } = self;
    }
}

pub struct Ops {
    pub ops: Vec<Op>,
}

impl Drop for Ops {
    fn drop(self) {
        let Ops { ops: _ } = self;
    }
}
