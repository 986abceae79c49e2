//! What the grammar may ask for next.

/// A symbol of the grammar that takes one token. One that repeats takes what ends it too.
#[derive(Clone, Copy, PartialEq, Eq)]
pub enum Wanted {
    /// The word `op` of one more op.
    Ops,
    NewOp,
    NewParam,
    ParamKind,
    /// After a parameter: `,` or `)`.
    Params,
    NewResult,
    ResultKind,
    /// After the first result: `,` or `{`.
    SecondResult,
    FirstStmt,
    /// One more statement, or `}`.
    Stmts,
    /// After a word statement's first target: `,` or `=`.
    SecondTarget,
    NewTarget,
    WordOpName,
    /// After `(`: an argument or `)`.
    Args,
    /// After `,`: an argument.
    ArgName,
    /// After an argument: `,` or `)`.
    MoreArgs,
    WordEnd,
    Direction,
    /// After `(`: a state or `)`.
    States,
    StateName,
    MoreStates,
    Start,
    /// The word `let`, or the target of the first assignment.
    Lets,
    LetName,
    LetEnd,
    AssignEnd,
    /// The target of one more assignment, or `}`.
    Assigns,
    Value,
    /// The `(` after a gate's name.
    GateOpen,
    /// After a gate's argument: `,` or `)`.
    More,
    /// The mark `(`.
    Open,
    /// The mark `{`.
    Begin,
    Colon,
    Arrow,
    Equals,
}
