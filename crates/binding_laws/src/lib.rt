//! A microprogram does the same under every binding that fits: what one binding shows, all have.
#![tactic(auto)]

ghost use Rattle.std.specs.Prelude.{◌≡◌, ℕ, ◌<◌, List};
ghost use Rattle.dram_model.specs.Column.{Column, run};
ghost use Rattle.uprog_code.specs.Shape.{Shape, results};
ghost use Rattle.uprog_code.specs.Machine.{Issue};
ghost use Rattle.uprog_code.specs.Bound.{Bound, bound};
ghost use Rattle.uprog_code.specs.Fits.{ArePairwiseApart, Fits, ranges};
ghost use Rattle.uprog_code.specs.Implements.{numbers, Gives};
ghost use Rattle.uprog_code.specs.Issued.{AreGood};
ghost use Rattle.binding_laws.specs.Alike.{Alike};
ghost use Rattle.binding_laws.specs.Canonical.{canonical, canonical_rows};

/// Commands of a trace leave columns alike that are alike under two bindings that fit; there is a
/// binding that fits for every shape and width; and commands that give a meaning under it, from
/// every content of a column, give it under each binding that fits. What they give from one column
/// under it they give from some column of the same numbers under each that fits, if no two sources
/// have a row in common.
pub fn one_binding_is_enough()
    ensures alike { (shape : Shape) (n p q : ℕ) (b c : Bound) → Fits p shape n b → Fits q shape n c
        → (issues : List Issue) (s t : Column) → Alike shape n p q b c s t → AreGood shape n issues
        → Alike shape n p q b c (run (bound p shape n b issues) s)
        (run (bound q shape n c issues) t) }
    ensures fits { (shape : Shape) (n : ℕ) → 0 < n
        → Fits (canonical_rows shape n) shape n (canonical shape n) }
    ensures enough { (shape : Shape) (n : ℕ) (issues : List Issue) (meaning : List ℕ → List ℕ)
        → 0 < n → AreGood shape n issues
        → ((s : Column) → numbers n (results shape) (canonical shape n).results
        (run (bound (canonical_rows shape n) shape n (canonical shape n) issues) s)
        ≡ meaning (numbers n shape.sources (canonical shape n).sources s))
        → Gives shape n issues meaning }
    ensures elsewhere { (shape : Shape) (n : ℕ) (issues : List Issue) (s : Column) → 0 < n
        → AreGood shape n issues → (rows : ℕ) (b : Bound) → Fits rows shape n b
        → ArePairwiseApart (ranges n shape.sources b.sources) → (t : Column)
        × (numbers n shape.sources b.sources t
        ≡ numbers n shape.sources (canonical shape n).sources s)
        × (numbers n (results shape) b.results (run (bound rows shape n b issues) t)
        ≡ numbers n (results shape) (canonical shape n).results
        (run (bound (canonical_rows shape n) shape n (canonical shape n) issues) s)) }
{}
