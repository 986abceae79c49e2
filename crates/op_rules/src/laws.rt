//! Laws of the rules.

ghost use Rattle.op_rules.specs.Laws.{KindsAreHeld, KindsAreKept, NamesStandOnce, OthersStay};
ghost use Rattle.op_rules.specs.Laws.{TargetsAreApart};
ghost use Rattle.op_rules.specs.Laws.{RulesAreMet, ScratchIsSmall, StatementsMeet};

/// Ops the tokens of whose text break no rule meet the rules as trees.
pub fn rules_are_met()
    ensures { RulesAreMet }
{}

/// An op has at most 128 names of a kind beside its results, and needs at most 130 rows of scratch.
pub fn scratch_is_small()
    ensures { ScratchIsSmall }
{}

/// No name of an op stands twice, so each is found with its kind.
pub fn names_stand_once()
    ensures { NamesStandOnce }
{}

/// Each statement of an op that meets the rules meets them where it stands.
pub fn statements_meet()
    ensures { StatementsMeet }
{}

/// The targets of a word statement differ, and none is an argument.
pub fn targets_are_apart()
    ensures { TargetsAreApart }
{}

/// A statement leaves each name as it was that it does not define.
pub fn others_stay()
    ensures { OthersStay }
{}

/// After each statement, and so after an op, names hold bits of their kinds.
pub fn kinds_are_held()
    ensures statement { KindsAreKept }
    ensures op { KindsAreHeld }
{}
