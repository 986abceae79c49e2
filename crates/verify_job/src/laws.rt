//! Laws on findings.

ghost use Rattle.std.specs.Prelude.{◌≡◌, ◌⊎◌, ℕ, List};
ghost use Rattle.uprog_code.specs.Texts.{TextOp};
ghost use Rattle.prog_text.specs.Widths.{AreWidths};
ghost use Rattle.machine_model.specs.Routines.{Program};
ghost use Rattle.verify_job.specs.declared.finding.OpFindings.{OpFindings};
ghost use Rattle.verify_job.specs.Findings.{AreAlike, AreFindings, HaveRight, status_of};

/// Shows what the status 0 of true findings says: the program has for each op an entry of its name
/// that does it at each of the widths.
pub fn zero_says_right()
    ensures { (widths : List ℕ) (program : Program) (ops : List TextOp) (found : List OpFindings)
        → status_of found ≡ 0 → AreFindings widths program ops found
        → HaveRight widths program ops }
{}

/// Shows that one status decides the other: where some true findings have the status 0, no true
/// findings of the same ops, program and widths have the status 19.
pub fn zero_is_never_nineteen()
    ensures { (widths : List ℕ) (program : Program) (ops : List TextOp)
        (found other : List OpFindings) → AreWidths widths
        → AreFindings widths program ops found → AreFindings widths program ops other
        → status_of found ≡ 0 → (status_of other ≡ 0) ⊎ (status_of other ≡ 20) }
{}

/// Shows that true findings of the same ops, program and widths are alike.
pub fn findings_are_alike()
    ensures { (widths : List ℕ) (program : Program) (ops : List TextOp)
        (found other : List OpFindings) → AreWidths widths
        → AreFindings widths program ops found → AreFindings widths program ops other
        → AreAlike found other }
{}
