//! The word machine: what each instruction of a script comes to, in numbers and in rows, and the
//! report on it.
#![tactic(auto)]

ghost use Rattle.std.specs.Prelude.{◌≡◌};
ghost use Rattle.machine_model.specs.Laws.{AcceptedIsPlain, AllPiecesGoOn, CountedByReplies};
ghost use Rattle.machine_model.specs.Laws.{EventsAreSteps, GrantsFit, ImageStays, LinesGoOn};
ghost use Rattle.machine_model.specs.Laws.{OneBankInOrder, OthersStay, PartsAreBits};
ghost use Rattle.machine_model.specs.Laws.{PieceIsCounted};
ghost use Rattle.machine_model.specs.Laws.{PieceIsSteps, PiecesAreCut, PiecesAreScript};
ghost use Rattle.machine_model.specs.Laws.{RowsGiveWords, SameOperations, ScriptsGoOn, SeenInOrder};
ghost use Rattle.machine_model.specs.Laws.{TableStays, TextGivesWords, UntouchedStays};
ghost use Rattle.machine_model.specs.Laws.{WaveIsCounted, WaveIsSteps, WavesAreAnswered};
ghost use Rattle.machine_model.specs.Laws.{WorkIsBounded};

use uprog_code::{BadWalk, Counts};

/// The first condition under which an instruction is refused.
/// A place counts the names from 0, a bbop's destinations before its sources, and in `load` and
/// `fill` the values from 1.
#[derive(Clone, Copy, PartialEq, Eq)]
pub enum Why {
    NoOp,
    Arity,
    NoObject(u32),
    Slice(u32),
    Width(u32),
    Size(u32),
    Overlap(u32),
    BadWalk(BadWalk),
    NoRows,
    Exists,
    TableFull,
    TooLarge,
    Count,
    Range(u32),
}

/// What an instruction came to: done, with its row commands, or refused.
#[derive(Clone, Copy, PartialEq, Eq)]
pub enum Reply {
    Done(Counts),
    Refused(Why),
}

/// Done without a command.
impl Default for Reply {
    fn default() -> Self
        ensures { result ≡ Reply.Done (record { aap = 0; ap = 0 }) }
    {
        Reply::Done(Counts { aap: 0, ap: 0 })
    }
}

/// The banks after a script hold what the word machine holds.
pub fn rows_give_words()
    ensures rows { RowsGiveWords }
    ensures text { TextGivesWords }
    ensures same { SameOperations }
{}

/// A part of a number is its bits, read and written.
pub fn parts_are_bits()
    ensures { PartsAreBits }
{}

/// The table stays a table of objects that the geometry can hold, and an accepted script makes of
/// an accepted image another one.
pub fn tables_stay()
    ensures tables { TableStays }
    ensures images { ImageStays }
{}

/// Whatever a program does that is accepted, it runs under bindings that fit, and the rows that no
/// done instruction touches stay; a bbop leaves the numbers of every operand, an object or bits of
/// one, that has no row of a destination.
/// How much it does is bounded.
pub fn accepted_programs_are_safe()
    ensures grants { GrantsFit }
    ensures untouched { UntouchedStays }
    ensures others { OthersStay }
    ensures bounded { WorkIsBounded }
{}

/// What an accepted script says is plain.
pub fn accepted_scripts_are_plain()
    ensures plain { AcceptedIsPlain }
{}

/// A script and its pieces go on where a part of them ends; the pieces are cut from the front, and
/// a wave is answered bbop by bbop.
pub fn scripts_go_on()
    ensures cut { PiecesAreCut }
    ensures scripts { ScriptsGoOn }
    ensures pieces { AllPiecesGoOn }
    ensures waves { WavesAreAnswered }
    ensures lines { LinesGoOn }
{}

/// In whatever order the banks of a wave take turns, they are left as its bbops one after another
/// leave them, and its replies count the commands.
pub fn waves_are_steps()
    ensures steps { WaveIsSteps }
    ensures counted { WaveIsCounted }
{}

/// Under every order in force a script's events leave the banks as its steps do, and its replies
/// count them; on one bank they are the events of its instructions one after another.
pub fn events_are_steps()
    ensures pieces { PiecesAreScript }
    ensures seen { SeenInOrder }
    ensures steps { EventsAreSteps }
    ensures counted { CountedByReplies }
    ensures piece_steps { PieceIsSteps }
    ensures piece_counted { PieceIsCounted }
    ensures one_bank { OneBankInOrder }
{}
