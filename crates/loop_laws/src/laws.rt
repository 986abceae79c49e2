//! The laws.

ghost use Rattle.std.specs.Prelude.{◌≡◌, ℕ, Bool, true};
ghost use Rattle.loop_ir.specs.Spots.{Spot};
ghost use Rattle.loop_laws.specs.Laws.{MadeCompile, MarksAreEnough};

/// Code can be made of a program of such a form, whose graphs are such as `Mig` makes.
pub fn made_compile()
    ensures { (rows : ℕ → Spot → Bool) → MadeCompile (λ n q. rows n q ≡ true) }
{}

/// Where a test on owners and subscripts passes, every round keeps the rules.
pub fn marks_are_enough()
    ensures { (rows : ℕ → Spot → Bool) → MarksAreEnough (λ n q. rows n q ≡ true) }
{}
