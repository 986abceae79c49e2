//! The rules of ops that were read.

ghost use Rattle.op_text.specs.Language.{operations};
ghost use Rattle.op_text.specs.Spelling.{MeetRules, Each, HasOperation};
ghost use Rattle.op_rules.specs.Meets.{OpsMeet};

use crate::laws::rules_are_met;
use op_text::{Ops, names_are_names};

/// Tells that ops whose tokens break no rule meet the rules as trees. It reads each name once, and
/// changes nothing.
pub fn ops_meet(ops: &Ops)
    requires { MeetRules (operations ops.now) }
    ensures names { Each HasOperation (operations ops.now) }
    ensures meets { OpsMeet (operations ops.now) }
{
    names_are_names(ops);
    rules_are_met();
}
