//! What follows for a program whose entries came to be so.

ghost use Rattle.std.specs.Prelude.{◌≡◌, ◌<◌, ◌≤◌, ℕ, List};
ghost use Rattle.uprog_code.specs.declared.registers.Issued.{Issued};
ghost use Rattle.uprog_code.specs.Shape.{Microprogram};
ghost use Rattle.uprog_code.specs.Programs.{IsProgram};
ghost use Rattle.uprog_code.specs.Texts.{ImplementsAll, TextOp};
ghost use Rattle.optimise_job.specs.declared.offer.Outcome.{Outcome};
ghost use Rattle.optimise_job.specs.Outcomes.{AreOutcomes};
ghost use Rattle.optimise_job.specs.Promise.{AreAsGood, AreRightIfKnown};

use bit_rows::WIDTH_MAX;

/// Shows what the outcomes say of the program: each entry is the old one at every other width, and
/// at this one does its op if the old one does, in no more commands.
pub fn optimised_are_as_good()
    ensures { (n room : ℕ) (ops : List TextOp) (es : List Microprogram)
        (lines : List (List Issued)) (rs : List Microprogram) (outcomes : List Outcome)
        → AreOutcomes n room ops es lines rs outcomes → AreAsGood n ops es rs }
{}

/// Shows that at this width each entry does the op of its name, unless it is not known that the old
/// one did.
pub fn optimised_are_right()
    ensures { (n room : ℕ) (ops : List TextOp) (es : List Microprogram)
        (lines : List (List Issued)) (rs : List Microprogram) (outcomes : List Outcome)
        → AreOutcomes n room ops es lines rs outcomes → AreRightIfKnown n ops rs outcomes }
{}

/// Shows that where the program implemented the ops at all widths, it still does.
pub fn optimised_implement()
    ensures { (n : ℕ) (ops : List TextOp) (es rs : List Microprogram) → 0 < n → n ≤ WIDTH_MAX
        → IsProgram es → AreAsGood n ops es rs → ImplementsAll es ops → ImplementsAll rs ops }
{}
