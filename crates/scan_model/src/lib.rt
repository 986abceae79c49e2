//! Scans: what a query means, which instructions count the elements that meet it, and that they
//! do.
#![tactic(auto)]

ghost use Rattle.scan_model.specs.Answers.{ScansAnswer, ScansAnswerAlike, ScansAnswerTheSame};
ghost use Rattle.scan_model.specs.Laws.{ScanLaws};
ghost use Rattle.scan_model.specs.TextLaws.{QueryTextLaws};

/// How the elements of an object are compared with a number.
#[derive(Clone, Copy, PartialEq, Eq)]
pub enum CmpOp {
    Eq,
    Gt,
    Ge,
    Lt,
    Le,
}

/// Why a scan is refused: a comparison's object is not there, its bits end past the object, it has
/// another count, or it is too narrow for the number; or there is no room for an object of a node.
#[derive(Clone, Copy, PartialEq, Eq)]
pub enum ScanWhy {
    NoObject,
    Slice,
    Count,
    Range,
    TableFull,
    NoRows,
}

/// What breaks a query's text. At one token the first of these that it breaks counts.
#[derive(Clone, Copy, PartialEq, Eq)]
pub enum QueryKind {
    /// A byte starts no token.
    Lex,
    /// The token may not stand there.
    Syntax,
    /// A name has more than 16 bytes.
    BadName,
    /// A number is 2^128 or more, or no bit of an object where one is wanted.
    BadNumber,
    /// A comparison past the 32nd, or a node past the 64th.
    TooMany,
}

/// The first token that breaks a rule, by its line.
#[derive(Clone, Copy, PartialEq, Eq)]
pub struct QueryFault {
    pub line: u32,
    pub kind: QueryKind,
}

/// The instructions of a query leave an object that is 1 exactly where the query holds.
pub fn scans_find_matches()
    ensures { ScanLaws }
{}

/// A text is accepted exactly where it is the spelling of a query, and it is that of one query
/// alone.
pub fn texts_spell_queries()
    ensures { QueryTextLaws }
{}

/// A scan that is done leaves one object whose ones are the elements that the query holds of. But
/// for how many commands it takes, its answer is that of each program that does its operations; and
/// it is the whole answer of each that does them by as many commands.
pub fn scans_answer()
    ensures answer { ScansAnswer }
    ensures alike { ScansAnswerAlike }
    ensures same { ScansAnswerTheSame }
{}
