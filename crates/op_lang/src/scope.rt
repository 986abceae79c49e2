//! What stands before a token.

ghost use Rattle.std.specs.Prelude.{◌≡◌};
ghost use Rattle.op_text.specs.Rules as rules;
ghost use Rattle.op_lang.specs.Seen.{seen, seen_op, seen_word, seen_block};

use op_text::{Kind, Param, WordOp};
use std::alloc::Global;
use text_lex::Name;

/// Within an op: each new name, the names that can be read, the results that are named, and the
/// number of statements.
pub(crate) struct InOp {
    pub stands: Vec<Name>,
    pub defined: Vec<Param>,
    pub results: Vec<Param>,
    pub statements: usize,
}

impl Drop for InOp {
    fn drop(self) {
        let InOp {
            stands: _,
            defined: _,
            results: _,
            statements: _,
        } = self;
    }
}

/// Within a word statement: its second target, its operation and the kinds of the arguments so far.
pub(crate) struct InWord {
    pub second: Option<Name>,
    pub operation: WordOp,
    pub given: Vec<Kind>,
}

impl Drop for InWord {
    fn drop(self) {
        let InWord {
            second: _,
            operation: _,
            given: _,
        } = self;
    }
}

/// Within a serial block: its states, the states and lets that can be read, the number of lets, the
/// targets, the weight of the gates, and how many arguments each open gate still lacks, the
/// innermost last.
pub(crate) struct InBlock {
    pub states: Vec<Name>,
    pub readable: Vec<Name>,
    pub lets: usize,
    pub targets: Vec<Name>,
    pub weight: usize,
    pub missing: Vec<usize>,
}

impl Drop for InBlock {
    fn drop(self) {
        let InBlock {
            states: _,
            readable: _,
            lets: _,
            targets: _,
            weight: _,
            missing: _,
        } = self;
    }
}

/// What stands before a token, and the name that is being defined.
pub(crate) struct Scope {
    pub alloc: Global,
    pub ops: Vec<Name>,
    pub op: InOp,
    pub word: InWord,
    pub block: InBlock,
    pub naming: Option<Name>,
}

impl Drop for Scope {
    fn drop(self) {
        let Scope {
            alloc: _,
            ops: _,
            op: _,
            word: _,
            block: _,
            naming: _,
        } = self;
    }
}

impl InOp {
    pub fn new(alloc: Global) -> InOp
        ensures { seen_op result ≡ rules.new_op }
    {
        InOp {
            stands: Vec::new(alloc),
            defined: Vec::new(alloc),
            results: Vec::new(alloc),
            statements: 0,
        }
    }
}

impl InWord {
    pub fn new(alloc: Global) -> InWord
        ensures { seen_word result ≡ rules.new_word }
    {
        InWord {
            second: None,
            operation: WordOp::Not,
            given: Vec::new(alloc),
        }
    }
}

impl InBlock {
    pub fn new(alloc: Global) -> InBlock
        ensures { seen_block result ≡ rules.new_block }
    {
        InBlock {
            states: Vec::new(alloc),
            readable: Vec::new(alloc),
            lets: 0,
            targets: Vec::new(alloc),
            weight: 0,
            missing: Vec::new(alloc),
        }
    }
}

impl Scope {
    pub fn new(alloc: Global) -> Scope
        ensures { seen result ≡ rules.nothing_yet }
    {
        Scope {
            alloc,
            ops: Vec::new(alloc),
            op: InOp::new(alloc),
            word: InWord::new(alloc),
            block: InBlock::new(alloc),
            naming: None,
        }
    }
}
