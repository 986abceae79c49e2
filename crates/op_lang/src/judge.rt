//! What the grammar and the rules say of a token.

ghost use Rattle.std.specs.Prelude.{◌≡◌, ℕ, Bool, List};
ghost use Rattle.op_text.specs.Grammar.{follow};
ghost use Rattle.op_text.specs.declared.terminal.Terminal.TheVariants as t;
ghost use Rattle.op_text.specs.Rules.{rules_at};
ghost use Rattle.op_lang.specs.Seen.{seen, Judges};
ghost use Rattle.op_lang.specs.Reading.{is_allowed};

use crate::block_rules::{block_end, let_end, let_or_target, state, target};
use crate::fault::RuleError;
use crate::head_rules::{
    another_op, new_name, op_end, op_name, result_kind, source_kind, source_name,
};
use crate::names::kind_of_word;
use crate::scope::Scope;
use crate::value_rules::{close, comma, name};
use crate::word_rules::{
    another_argument, argument, no_more_arguments, second_target, statement, word_end, word_op,
};
use op_text::{Spelling, Terminal, Wanted};

fn allows_name(wanted: Wanted, spelling: Spelling) -> bool
    ensures { (o : Bool) → result ≡ is_allowed (follow wanted (t.Name spelling) o) }
{
    match wanted {
        Wanted::Ops => matches!(spelling, Spelling::Op),
        Wanted::ParamKind | Wanted::ResultKind => {
            matches!(spelling, Spelling::Word | Spelling::Bit)
        }
        Wanted::Direction => matches!(spelling, Spelling::Up | Spelling::Down),
        Wanted::NewOp
        | Wanted::NewParam
        | Wanted::NewResult
        | Wanted::FirstStmt
        | Wanted::Stmts
        | Wanted::NewTarget
        | Wanted::WordOpName
        | Wanted::Args
        | Wanted::ArgName
        | Wanted::States
        | Wanted::StateName
        | Wanted::Lets
        | Wanted::LetName
        | Wanted::Assigns
        | Wanted::Value => true,
        _ => false,
    }
}

fn allows_close(wanted: Wanted) -> bool
    ensures { (o : Bool) → result ≡ is_allowed (follow wanted t.Closes o) }
{
    matches!(
        wanted,
        Wanted::Params
            | Wanted::Args
            | Wanted::MoreArgs
            | Wanted::States
            | Wanted::MoreStates
            | Wanted::More
    )
}

fn allows_comma(wanted: Wanted) -> bool
    ensures { (o : Bool) → result ≡ is_allowed (follow wanted t.Comma o) }
{
    matches!(
        wanted,
        Wanted::Params
            | Wanted::SecondResult
            | Wanted::SecondTarget
            | Wanted::MoreArgs
            | Wanted::MoreStates
            | Wanted::More
    )
}

/// Whether the grammar allows a token.
pub(crate) fn allows(wanted: Wanted, terminal: Terminal) -> bool
    ensures { (o : Bool) → result ≡ is_allowed (follow wanted terminal o) }
{
    match terminal {
        Terminal::Name(spelling) => allows_name(wanted, spelling),
        Terminal::Closes => allows_close(wanted),
        Terminal::Comma => allows_comma(wanted),
        Terminal::Zero => matches!(wanted, Wanted::Start | Wanted::Value),
        Terminal::One => matches!(wanted, Wanted::Start | Wanted::Value),
        Terminal::Equals => matches!(wanted, Wanted::Equals | Wanted::SecondTarget),
        Terminal::Opens => matches!(wanted, Wanted::GateOpen | Wanted::Open),
        Terminal::Begins => matches!(wanted, Wanted::Begin | Wanted::SecondResult),
        Terminal::Finishes => matches!(wanted, Wanted::Stmts | Wanted::Assigns),
        Terminal::Semi => { matches!(wanted, Wanted::WordEnd | Wanted::LetEnd | Wanted::AssignEnd) }
        Terminal::Colon => matches!(wanted, Wanted::Colon),
        Terminal::Arrow => matches!(wanted, Wanted::Arrow),
        Terminal::Other => false,
    }
}

fn judge_name(
    scope: &mut Scope,
    wanted: Wanted,
    spelling: Spelling,
    text: &[u8],
    opened: bool,
) -> Result<(), RuleError>
    ensures { Judges (rules_at wanted (seen scope.old) (t.Name spelling) text.now opened) result
        (seen scope.new) }
{
    match wanted {
        Wanted::Ops => another_op(scope),
        Wanted::FirstStmt => statement(scope, spelling, text),
        Wanted::Stmts => statement(scope, spelling, text),
        Wanted::States => state(scope, spelling, text),
        Wanted::StateName => state(scope, spelling, text),
        Wanted::Lets => let_or_target(scope, spelling, text),
        Wanted::LetName => new_name(scope, spelling, text),
        Wanted::Assigns => target(scope, spelling, text),
        Wanted::Value => name(scope, spelling, text, opened),
        Wanted::NewOp => op_name(scope, spelling, text),
        Wanted::NewParam => source_name(scope, spelling, text),
        Wanted::ParamKind => source_kind(scope, kind_of_word(spelling)),
        Wanted::NewResult => new_name(scope, spelling, text),
        Wanted::ResultKind => result_kind(scope, kind_of_word(spelling)),
        Wanted::NewTarget => second_target(scope, spelling, text),
        Wanted::WordOpName => word_op(scope, spelling, text),
        Wanted::Args => argument(scope, spelling, text),
        Wanted::ArgName => argument(scope, spelling, text),
        _ => Ok(()),
    }
}

fn judge_close(scope: &mut Scope, wanted: Wanted) -> Result<(), RuleError>
    ensures { (text : List ℕ) (o : Bool) → Judges (rules_at wanted (seen scope.old) t.Closes text o)
        result (seen scope.new) }
{
    match wanted {
        Wanted::Args => no_more_arguments(scope),
        Wanted::MoreArgs => no_more_arguments(scope),
        Wanted::More => close(scope),
        _ => Ok(()),
    }
}

fn judge_comma(scope: &mut Scope, wanted: Wanted) -> Result<(), RuleError>
    ensures { (text : List ℕ) (o : Bool) → Judges (rules_at wanted (seen scope.old) t.Comma text o)
        result (seen scope.new) }
{
    match wanted {
        Wanted::MoreArgs => another_argument(scope),
        Wanted::More => comma(scope),
        _ => Ok(()),
    }
}

fn judge_semi(scope: &mut Scope, wanted: Wanted) -> Result<(), RuleError>
    ensures { (text : List ℕ) (o : Bool) → Judges (rules_at wanted (seen scope.old) t.Semi text o)
        result (seen scope.new) }
{
    match wanted {
        Wanted::WordEnd => word_end(scope),
        Wanted::LetEnd => let_end(scope),
        _ => Ok(()),
    }
}

fn judge_finish(scope: &mut Scope, wanted: Wanted) -> Result<(), RuleError>
    ensures { (text : List ℕ) (o : Bool)
        → Judges (rules_at wanted (seen scope.old) t.Finishes text o) result (seen scope.new) }
{
    match wanted {
        Wanted::Stmts => op_end(scope),
        Wanted::Assigns => block_end(scope),
        _ => Ok(()),
    }
}

/// Judges a token that the grammar allows.
pub(crate) fn judge(
    scope: &mut Scope,
    wanted: Wanted,
    terminal: Terminal,
    text: &[u8],
    opened: bool,
) -> Result<(), RuleError>
    ensures { Judges (rules_at wanted (seen scope.old) terminal text.now opened) result
        (seen scope.new) }
{
    match terminal {
        Terminal::Name(spelling) => judge_name(scope, wanted, spelling, text, opened),
        Terminal::Closes => judge_close(scope, wanted),
        Terminal::Comma => judge_comma(scope, wanted),
        Terminal::Semi => judge_semi(scope, wanted),
        Terminal::Finishes => judge_finish(scope, wanted),
        _ => Ok(()),
    }
}
