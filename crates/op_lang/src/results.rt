//! The results of an op, and what can be read.

ghost use Rattle.std.specs.Prelude.{◌≡◌, not};
ghost use Rattle.std.specs.List.{list_any};
ghost use Rattle.op_text.specs.Rules as rules;
ghost use Rattle.op_lang.specs.Seen.{seen};

use crate::names::{is_among, is_of_kind, kind_of};
use crate::scope::Scope;
use op_text::{Kind, Param};

fn is_result(scope: &Scope, text: &[u8]) -> bool
    ensures { result ≡ rules.is_result (seen scope.now) text.now }
{
    kind_of(&scope.op.results, text).is_some()
}

pub(crate) fn is_bit_result(scope: &Scope, text: &[u8]) -> bool
    ensures { result ≡ rules.is_bit_result (seen scope.now) text.now }
{
    is_of_kind(kind_of(&scope.op.results, text), Kind::Bit)
}

/// A name that can be read.
pub(crate) fn is_assigned(scope: &Scope, text: &[u8]) -> bool
    ensures { result ≡ rules.is_assigned (seen scope.now) text.now }
{
    kind_of(&scope.op.defined, text).is_some()
}

/// A result that is not assigned yet.
pub(crate) fn is_open_result(scope: &Scope, text: &[u8]) -> bool
    ensures { result ≡ rules.is_open_result (seen scope.now) text.now }
{
    is_result(scope, text) && !is_assigned(scope, text)
}

/// A name that no word statement may set.
pub(crate) fn is_taken_name(scope: &Scope, text: &[u8]) -> bool
    ensures { result ≡ rules.is_taken_name (seen scope.now) text.now }
{
    is_among(&scope.op.stands, text) && !is_open_result(scope, text)
}

/// A result of another kind than this.
fn is_other_result(scope: &Scope, param: &Param) -> bool
    ensures { result ≡ rules.is_other_result (seen scope.now) param.now }
{
    let found = kind_of(&scope.op.results, param.name.bytes());
    is_result(scope, param.name.bytes()) && !is_of_kind(found, param.kind)
}

/// Whether some result is not assigned.
pub(crate) fn is_one_open(scope: &Scope) -> bool
    ensures { result ≡ list_any (λ (p : Param). not (rules.is_assigned (seen scope.now) p.name))
        (seen scope.now).op.results }
{
    scope
        .op
        .results
        .iter()
        .any(|p| !is_assigned(scope, p.name.bytes()))
}

/// Whether some target is a result of another kind.
pub(crate) fn is_one_other(scope: &Scope, targets: &[Param]) -> bool
    ensures { result ≡ list_any (rules.is_other_result (seen scope.now)) targets.now }
{
    targets.iter().any(|p| is_other_result(scope, p))
}
