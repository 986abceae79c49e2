//! The rules at the tokens of an op's head, and at its end.

ghost use Rattle.std.specs.Prelude.{◌≡◌, length, nat_le, Ok};
ghost use Rattle.op_text.specs.declared.fault.OpsKind.TheVariants.{TooMany};
ghost use Rattle.op_text.specs.Rules as rules;
ghost use Rattle.op_lang.specs.Seen.{seen, Judges};

use crate::fault::RuleError;
use crate::names::{define, good_name, is_among};
use crate::results::is_one_open;
use crate::scope::{InOp, Scope};
use faults::keep;
use op_text::{Kind, OpsKind, Spelling};

/// The word `op`.
pub(crate) fn another_op(scope: &mut Scope) -> Result<(), RuleError>
    ensures { Judges (rules.unless (nat_le rules.MAX_OPS (length (seen scope.old).ops)) TooMany
        (Ok (seen scope.old))) result (seen scope.new) }
{
    if scope.ops.len() >= 32 {
        return Err(RuleError::Rule(OpsKind::TooMany));
    }
    Ok(())
}

pub(crate) fn op_name(scope: &mut Scope, spelling: Spelling, text: &[u8]) -> Result<(), RuleError>
    ensures { Judges (rules.op_rules (seen scope.old) spelling text.now) result (seen scope.new) }
{
    let Some(name) = good_name(spelling, text) else {
        return Err(RuleError::Rule(OpsKind::BadName));
    };
    if text == b"trsp_init".as_slice() {
        return Err(RuleError::Rule(OpsKind::BadName));
    }
    if is_among(&scope.ops, text) {
        return Err(RuleError::Rule(OpsKind::Twice));
    }
    keep(&mut scope.ops, name)?;
    scope.op = InOp::new(scope.alloc);
    Ok(())
}

pub(crate) fn source_name(
    scope: &mut Scope,
    spelling: Spelling,
    text: &[u8],
) -> Result<(), RuleError>
    ensures { Judges (rules.source_rules (seen scope.old) spelling text.now) result
        (seen scope.new) }
{
    let Some(name) = good_name(spelling, text) else {
        return Err(RuleError::Rule(OpsKind::BadName));
    };
    if is_among(&scope.op.stands, text) {
        return Err(RuleError::Rule(OpsKind::Twice));
    }
    if scope.op.defined.len() >= 4 {
        return Err(RuleError::Rule(OpsKind::TooMany));
    }
    scope.naming = Some(name);
    Ok(())
}

pub(crate) fn source_kind(scope: &mut Scope, kind: Kind) -> Result<(), RuleError>
    ensures { Judges (Ok (rules.with_source (seen scope.old) kind)) result (seen scope.new) }
{
    let Some(name) = &scope.naming else {
        return Ok(());
    };
    keep(&mut scope.op.stands, name.copied())?;
    define(&mut scope.op.defined, name.copied(), kind)?;
    scope.naming = None;
    Ok(())
}

/// The name of a result, or of a let.
pub(crate) fn new_name(scope: &mut Scope, spelling: Spelling, text: &[u8]) -> Result<(), RuleError>
    ensures { Judges (rules.naming_rules (seen scope.old) spelling text.now) result
        (seen scope.new) }
{
    let Some(name) = good_name(spelling, text) else {
        return Err(RuleError::Rule(OpsKind::BadName));
    };
    if is_among(&scope.op.stands, text) {
        return Err(RuleError::Rule(OpsKind::Twice));
    }
    keep(&mut scope.op.stands, name.copied())?;
    scope.naming = Some(name);
    Ok(())
}

pub(crate) fn result_kind(scope: &mut Scope, kind: Kind) -> Result<(), RuleError>
    ensures { Judges (Ok (rules.with_result (seen scope.old) kind)) result (seen scope.new) }
{
    let Some(name) = &scope.naming else {
        return Ok(());
    };
    define(&mut scope.op.results, name.copied(), kind)?;
    scope.naming = None;
    Ok(())
}

/// The `}` of an op.
pub(crate) fn op_end(scope: &mut Scope) -> Result<(), RuleError>
    ensures { Judges (rules.op_end (seen scope.old)) result (seen scope.new) }
{
    if is_one_open(scope) {
        return Err(RuleError::Rule(OpsKind::NoResult));
    }
    scope.op = InOp::new(scope.alloc);
    Ok(())
}
