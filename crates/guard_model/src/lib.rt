//! Guarded objects: each stands in three copies, damage is cells that flip, and a vote by
//! three-row activation makes the copies equal again.
#![tactic(auto)]

ghost use Rattle.guard_model.specs.FlipLaws.{FlipsGoByLines};
ghost use Rattle.guard_model.specs.Laws.{AcceptedHasNames, AllOrNone, DueFirst, FlipIsWrite};
ghost use Rattle.guard_model.specs.Laws.{FlipsAreRight};
ghost use Rattle.guard_model.specs.Laws.{GuardedGivesWords, GuardedTextGivesWords, RefusedStays};
ghost use Rattle.guard_model.specs.Laws.{RowVote, StepIsCounted, StepIsEvents, StrangersAreFirst};
ghost use Rattle.guard_model.specs.Laws.{TriplesKept};
ghost use Rattle.guard_model.specs.Laws.{VoteIsCounted, VoteIsEvents};

/// One cell that is inverted before an instruction, whose number counts from 1.
#[derive(Clone, Copy, PartialEq, Eq)]
pub struct Flip {
    pub before: u32,
    pub bank: u16,
    pub row: u16,
    pub column: u32,
}

/// Why a line of the text of flips is refused.
#[derive(Clone, Copy, PartialEq, Eq)]
pub enum FlipsKind {
    /// A byte starts no token.
    Lex,
    /// The line is not four numbers.
    Syntax,
    /// A number is out of its range, or the first is below that of the line before.
    Number,
}

/// The first line that is refused, and its lowest kind.
#[derive(Clone, Copy, PartialEq, Eq)]
pub struct FlipsFault {
    pub line: u32,
    pub kind: FlipsKind,
}

/// A vote gives three rows their majority; the votes of a table are so many row commands, and leave
/// the banks voted.
pub fn votes_are_commands()
    ensures row { RowVote }
    ensures events { VoteIsEvents }
    ensures counted { VoteIsCounted }
{}

/// A flip is a write of its row as it was read, with one bit inverted. The flips of a text name
/// cells of the chip, in the order in which they are due.
pub fn flips_are_writes()
    ensures write { FlipIsWrite }
    ensures right { FlipsAreRight }
    ensures due { DueFirst }
{}

/// A text of flips is accepted where its lines say flips in their order, and else refused at its
/// first line at fault, for what is wrong with it.
pub fn flips_go_by_lines()
    ensures { FlipsGoByLines }
{}

/// A table has no stranger exactly where it is three copies of each of some objects; else the
/// stranger is at the end of the longest front that begins such copies.
pub fn strangers_are_first()
    ensures { StrangersAreFirst }
{}

/// A guarded instruction keeps the table one of triples. One that is refused leaves it, and one
/// that adds no object does all of its plain instructions or none.
pub fn tables_stay_guarded()
    ensures kept { TriplesKept }
    ensures stays { RefusedStays }
    ensures even { AllOrNone }
{}

/// What an accepted script adds has a name.
pub fn accepted_scripts_have_names()
    ensures names { AcceptedHasNames }
{}

/// Under every order in force a guarded instruction's events leave the banks as its plain
/// instructions do, and their replies count them.
pub fn guarded_steps_are_events()
    ensures events { StepIsEvents }
    ensures counted { StepIsCounted }
{}

/// Each element by itself: where, between two votes, each of its cells is hit in one copy at most,
/// and it is computed of such elements, all three copies have its number as the word machine gives
/// it, which knows no flips; whatever befell others.
pub fn guarded_gives_words()
    ensures words { GuardedGivesWords }
    ensures text { GuardedTextGivesWords }
{}
