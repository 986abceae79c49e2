//! The rules at the tokens of a serial block.

ghost use Rattle.std.specs.Prelude.{◌≡◌, ◌++◌, [], ◌∷◌, length, nat_le, Ok};
ghost use Rattle.op_text.specs.Rules as rules;
ghost use Rattle.op_lang.specs.Seen.{seen, Judges};

use crate::fault::RuleError;
use crate::names::{define_all, good_name, is_among, keep_all, others};
use crate::results::{is_assigned, is_bit_result, is_open_result};
use crate::scope::{InBlock, Scope};
use faults::keep;
use op_text::{Kind, OpsKind, Spelling};

fn is_taken_state(scope: &Scope, text: &[u8]) -> bool
    ensures { result ≡ rules.is_taken_state (seen scope.now) text.now }
{
    if is_bit_result(scope, text) {
        is_assigned(scope, text) || is_among(&scope.block.states, text)
    } else {
        is_among(&scope.op.stands, text)
    }
}

/// The name of a state.
pub(crate) fn state(scope: &mut Scope, spelling: Spelling, text: &[u8]) -> Result<(), RuleError>
    ensures { Judges (rules.state_rules (seen scope.old) spelling text.now) result
        (seen scope.new) }
{
    let Some(name) = good_name(spelling, text) else {
        return Err(RuleError::Rule(OpsKind::BadName));
    };
    if is_taken_state(scope, text) {
        return Err(RuleError::Rule(OpsKind::Twice));
    }
    if scope.block.states.len() >= 8 {
        return Err(RuleError::Rule(OpsKind::TooMany));
    }
    keep(&mut scope.op.stands, name.copied())?;
    keep(&mut scope.block.states, name.copied())?;
    keep(&mut scope.block.readable, name)?;
    Ok(())
}

/// The word `let`.
pub(crate) fn another_let(scope: &mut Scope) -> Result<(), RuleError>
    ensures { Judges (rules.let_rules (seen scope.old)) result (seen scope.new) }
{
    if scope.block.lets >= 16 {
        return Err(RuleError::Rule(OpsKind::TooMany));
    }
    scope.block.lets += 1;
    Ok(())
}

/// The `;` of a let.
pub(crate) fn let_end(scope: &mut Scope) -> Result<(), RuleError>
    ensures { Judges (Ok (rules.let_end (seen scope.old))) result (seen scope.new) }
{
    let Some(name) = &scope.naming else {
        return Ok(());
    };
    keep(&mut scope.block.readable, name.copied())?;
    scope.naming = None;
    Ok(())
}

fn is_taken_target(scope: &Scope, text: &[u8]) -> bool
    ensures { result ≡ rules.is_taken_target (seen scope.now) text.now }
{
    is_among(&scope.block.targets, text)
        || (is_among(&scope.op.stands, text)
            && !is_among(&scope.block.states, text)
            && !is_open_result(scope, text))
}

/// The target of an assignment.
pub(crate) fn target(scope: &mut Scope, spelling: Spelling, text: &[u8]) -> Result<(), RuleError>
    ensures { Judges (rules.target_rules (seen scope.old) spelling text.now) result
        (seen scope.new) }
{
    let Some(name) = good_name(spelling, text) else {
        return Err(RuleError::Rule(OpsKind::BadName));
    };
    if is_taken_target(scope, text) {
        return Err(RuleError::Rule(OpsKind::Twice));
    }
    if is_bit_result(scope, text) && !is_among(&scope.block.states, text) {
        return Err(RuleError::Rule(OpsKind::Kind));
    }
    if scope.block.targets.len() >= 8 {
        return Err(RuleError::Rule(OpsKind::TooMany));
    }
    keep(&mut scope.block.targets, name)?;
    Ok(())
}

/// The first token of a line.
pub(crate) fn let_or_target(
    scope: &mut Scope,
    spelling: Spelling,
    text: &[u8],
) -> Result<(), RuleError>
    ensures { Judges (rules.let_or_target (seen scope.old) spelling text.now) result
        (seen scope.new) }
{
    match spelling {
        Spelling::Let => another_let(scope),
        _ => target(scope, spelling, text),
    }
}

/// The `}` of a block.
pub(crate) fn block_end(scope: &mut Scope) -> Result<(), RuleError>
    ensures { Judges (Ok (rules.block_end (seen scope.old))) result (seen scope.new) }
{
    let words = others(&scope.block.targets, &scope.block.states, scope.alloc)?;
    keep_all(&mut scope.op.stands, &words)?;
    define_all(&mut scope.op.defined, &scope.block.states, Kind::Bit)?;
    define_all(&mut scope.op.defined, &words, Kind::Word)?;
    scope.block = InBlock::new(scope.alloc);
    Ok(())
}
