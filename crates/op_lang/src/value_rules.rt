//! The rules at the tokens of an expression.

ghost use Rattle.std.specs.Prelude.{◌≡◌, Some, ◌-◌};
ghost use Rattle.op_text.specs.Rules as rules;
ghost use Rattle.op_lang.specs.Seen.{seen, Judges};

use crate::fault::RuleError;
use crate::names::{is_among, is_bad, kind_of};
use crate::scope::Scope;
use faults::keep;
use op_text::{Gate, OpsKind, Spelling, gate_of};

fn weight_of(gate: Gate) -> usize
    ensures { result ≡ rules.gate_weight gate }
{
    match gate {
        Gate::Not => 0,
        Gate::And | Gate::Or | Gate::Maj => 1,
        Gate::Xor => 3,
    }
}

/// The number of arguments after the first.
fn others_of(gate: Gate) -> usize
    ensures { result ≡ rules.gate_arguments gate - 1 }
{
    match gate {
        Gate::Not => 0,
        Gate::And | Gate::Or | Gate::Xor => 1,
        Gate::Maj => 2,
    }
}

fn gate(scope: &mut Scope, gate: Gate) -> Result<(), RuleError>
    ensures { Judges (rules.gate_rules (seen scope.old) (Some gate)) result (seen scope.new) }
{
    let weight = weight_of(gate);
    if scope.block.weight > 24 - weight || scope.block.missing.len() >= 32 {
        return Err(RuleError::Rule(OpsKind::TooMany));
    }
    scope.block.weight += weight;
    keep(&mut scope.block.missing, others_of(gate))?;
    Ok(())
}

fn is_readable(scope: &Scope, text: &[u8]) -> bool
    ensures { result ≡ rules.is_readable (seen scope.now) text.now }
{
    kind_of(&scope.op.defined, text).is_some() || is_among(&scope.block.readable, text)
}

/// A name in an expression.
pub(crate) fn name(
    scope: &mut Scope,
    spelling: Spelling,
    text: &[u8],
    opened: bool,
) -> Result<(), RuleError>
    ensures { Judges (rules.value_rules (seen scope.old) spelling text.now opened) result
        (seen scope.new) }
{
    if is_bad(spelling, text) {
        return Err(RuleError::Rule(OpsKind::BadName));
    }
    if opened {
        match gate_of(text) {
            Some(named) => gate(scope, named),
            None => Err(RuleError::Rule(OpsKind::Unknown)),
        }
    } else if is_readable(scope, text) {
        Ok(())
    } else {
        Err(RuleError::Rule(OpsKind::Unknown))
    }
}

/// The `,` after a gate's argument.
pub(crate) fn comma(scope: &mut Scope) -> Result<(), RuleError>
    ensures { Judges (rules.comma_rules (seen scope.old) (seen scope.old).block.missing) result
        (seen scope.new) }
{
    let Some(lacking) = scope.block.missing.pop() else {
        return Err(RuleError::Rule(OpsKind::Kind));
    };
    if lacking == 0 {
        return Err(RuleError::Rule(OpsKind::Kind));
    }
    keep(&mut scope.block.missing, lacking - 1)?;
    Ok(())
}

/// The `)` after a gate's argument.
pub(crate) fn close(scope: &mut Scope) -> Result<(), RuleError>
    ensures { Judges (rules.close_rules (seen scope.old) (seen scope.old).block.missing) result
        (seen scope.new) }
{
    match scope.block.missing.pop() {
        Some(0) => Ok(()),
        _ => Err(RuleError::Rule(OpsKind::Kind)),
    }
}
