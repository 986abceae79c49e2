//! The rules at the tokens of a word statement.

ghost use Rattle.std.specs.Prelude.{◌≡◌, Some};
ghost use Rattle.std.specs.Option.{option_to_list};
ghost use Rattle.op_text.specs.Rules as rules;
ghost use Rattle.op_lang.specs.Seen.{seen, Judges};

use crate::fault::RuleError;
use crate::names::{define_params, good_name, is_bad, is_called, keep_names, kind_of};
use crate::results::{is_one_other, is_taken_name};
use crate::scope::{InBlock, InWord, Scope};
use faults::keep;
use op_text::{
    Kind, OpsKind, Param, Spelling, WordOp, filled, may_take, op_of, second_kind, wants_more,
};
use text_lex::Name;

/// The first target of a word statement.
pub(crate) fn word_target(
    scope: &mut Scope,
    spelling: Spelling,
    text: &[u8],
) -> Result<(), RuleError>
    ensures { Judges (rules.word_rules (seen scope.old) spelling text.now) result (seen scope.new) }
{
    let Some(name) = good_name(spelling, text) else {
        return Err(RuleError::Rule(OpsKind::BadName));
    };
    if is_taken_name(scope, text) {
        return Err(RuleError::Rule(OpsKind::Twice));
    }
    if scope.op.statements >= 16 {
        return Err(RuleError::Rule(OpsKind::TooMany));
    }
    scope.op.statements += 1;
    scope.naming = Some(name);
    Ok(())
}

/// The word `serial`.
pub(crate) fn block_start(scope: &mut Scope) -> Result<(), RuleError>
    ensures { Judges (rules.block_rules (seen scope.old)) result (seen scope.new) }
{
    if scope.op.statements >= 16 {
        return Err(RuleError::Rule(OpsKind::TooMany));
    }
    scope.op.statements += 1;
    scope.block = InBlock::new(scope.alloc);
    Ok(())
}

/// The second target of a word statement.
pub(crate) fn second_target(
    scope: &mut Scope,
    spelling: Spelling,
    text: &[u8],
) -> Result<(), RuleError>
    ensures { Judges (rules.second_rules (seen scope.old) spelling text.now) result
        (seen scope.new) }
{
    let Some(name) = good_name(spelling, text) else {
        return Err(RuleError::Rule(OpsKind::BadName));
    };
    if is_called(&scope.naming, text) || is_taken_name(scope, text) {
        return Err(RuleError::Rule(OpsKind::Twice));
    }
    scope.word.second = Some(name);
    Ok(())
}

/// The first token of a statement.
pub(crate) fn statement(scope: &mut Scope, spelling: Spelling, text: &[u8]) -> Result<(), RuleError>
    ensures { Judges (rules.statement_rules (seen scope.old) spelling text.now) result
        (seen scope.new) }
{
    match spelling {
        Spelling::Serial => block_start(scope),
        _ => word_target(scope, spelling, text),
    }
}

/// A second target stands exactly where the operation has a second result.
fn has_targets(second: &Option<Name>, kind: Option<Kind>) -> bool
    ensures { result ≡ rules.has_targets second.now kind }
{
    match (second, kind) {
        (None, None) => true,
        (Some(_), Some(_)) => true,
        (None, Some(_)) => false,
        (Some(_), None) => false,
    }
}

pub(crate) fn word_op(scope: &mut Scope, spelling: Spelling, text: &[u8]) -> Result<(), RuleError>
    ensures { Judges (rules.word_op_rules (seen scope.old) spelling text.now) result
        (seen scope.new) }
{
    if is_bad(spelling, text) {
        return Err(RuleError::Rule(OpsKind::BadName));
    }
    let Some(op) = op_of(text) else {
        return Err(RuleError::Rule(OpsKind::Unknown));
    };
    if !has_targets(&scope.word.second, second_kind(op)) {
        return Err(RuleError::Rule(OpsKind::Kind));
    }
    scope.word.operation = op;
    Ok(())
}

fn argument_of_kind(scope: &mut Scope, kind: Kind) -> Result<(), RuleError>
    ensures { Judges (rules.argument_of_kind (seen scope.old) (Some kind)) result (seen scope.new) }
{
    if !may_take(scope.word.operation, &scope.word.given, kind) {
        return Err(RuleError::Rule(OpsKind::Kind));
    }
    keep(&mut scope.word.given, kind)?;
    Ok(())
}

pub(crate) fn argument(scope: &mut Scope, spelling: Spelling, text: &[u8]) -> Result<(), RuleError>
    ensures { Judges (rules.argument_rules (seen scope.old) spelling text.now) result
        (seen scope.new) }
{
    if is_bad(spelling, text) {
        return Err(RuleError::Rule(OpsKind::BadName));
    }
    match kind_of(&scope.op.defined, text) {
        Some(kind) => argument_of_kind(scope, kind),
        None => Err(RuleError::Rule(OpsKind::Unknown)),
    }
}

/// The `,` after an argument.
pub(crate) fn another_argument(scope: &mut Scope) -> Result<(), RuleError>
    ensures { Judges (rules.another_argument (seen scope.old)) result (seen scope.new) }
{
    if !wants_more(scope.word.operation, &scope.word.given) {
        return Err(RuleError::Rule(OpsKind::Kind));
    }
    Ok(())
}

/// The `)` after the arguments.
pub(crate) fn no_more_arguments(scope: &mut Scope) -> Result<(), RuleError>
    ensures { Judges (rules.no_more_arguments (seen scope.old)) result (seen scope.new) }
{
    match filled(scope.word.operation, &scope.word.given) {
        Some(_) => Ok(()),
        None => Err(RuleError::Rule(OpsKind::Kind)),
    }
}

/// The second target with its kind, if there is one.
fn second_of(second: &Option<Name>, op: WordOp) -> Option<Param>
    ensures { option_to_list result ≡ rules.second_of second.now op }
{
    match second {
        Some(name) => Some(Param {
            name: name.copied(),
            kind: second_kind(op).unwrap_or(Kind::Word),
        }),
        None => None,
    }
}

/// Makes the targets names that can be read.
fn define_targets(scope: &mut Scope, targets: &[Param]) -> Result<(), RuleError>
    ensures { Judges (rules.defines_targets (seen scope.old) targets.now) result (seen scope.new) }
{
    if is_one_other(scope, targets) {
        return Err(RuleError::Rule(OpsKind::Kind));
    }
    keep_names(&mut scope.op.stands, targets)?;
    define_params(&mut scope.op.defined, targets)?;
    scope.word = InWord::new(scope.alloc);
    scope.naming = None;
    Ok(())
}

fn gives_kind(scope: &mut Scope, kind: Kind) -> Result<(), RuleError>
    ensures { Judges (rules.gives_kind (seen scope.old) (seen scope.old).naming (Some kind)) result
        (seen scope.new) }
{
    let Some(target) = &scope.naming else {
        return Ok(());
    };
    let first = Param {
        name: target.copied(),
        kind,
    };
    match second_of(&scope.word.second, scope.word.operation) {
        Some(second) => define_targets(scope, &[first, second]),
        None => define_targets(scope, &[first]),
    }
}

/// The `;` of a word statement.
pub(crate) fn word_end(scope: &mut Scope) -> Result<(), RuleError>
    ensures { Judges (rules.word_end (seen scope.old)) result (seen scope.new) }
{
    match filled(scope.word.operation, &scope.word.given) {
        Some(kind) => gives_kind(scope, kind),
        None => Err(RuleError::Rule(OpsKind::Kind)),
    }
}
