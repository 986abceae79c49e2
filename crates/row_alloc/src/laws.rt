//! What is true of all bodies, for those who prove things of their use.

ghost use Rattle.std.specs.Prelude.{◌≡◌, ◌∷◌, [], ℕ, List, map, true};
ghost use Rattle.std.specs.List.{list_all};
ghost use Rattle.dram_model.specs.Column.{is_legal as is_legal_command};
ghost use Rattle.mig_graph.specs.Graph.{Graph};
ghost use Rattle.row_alloc.specs.declared.body.OutRow.{OutRow};
ghost use Rattle.row_alloc.specs.declared.body.BodyCmd.{BodyCmd};
ghost use Rattle.row_alloc.specs.declared.body.BodyCmd.TheVariants.{Aap, Ap};
ghost use Rattle.row_alloc.specs.declared.body.BodyRef.TheVariants.{B, C, In, Out};
ghost use Rattle.row_alloc.specs.Rows.{Rows, AreApart, bound};
ghost use Rattle.row_alloc.specs.declared.known.TheConstants.{NOT, AND, OR, XOR, ADD};
ghost use Rattle.row_alloc.specs.Legal.{are_legal};
ghost use Rattle.row_alloc.specs.Body.{FitBody};
ghost use Rattle.row_alloc.specs.Numbering.{own_rows, AreBelow};

/// The rows of a body can stand apart: each at a number of its own.
pub fn rows_can_stand_apart()
    ensures { (g : Graph) (outs : List OutRow) → FitBody g outs
        → AreApart (own_rows outs) g.inputs outs }
{}

/// A legal body's commands are legal on a bank that has its rows.
pub fn legal_bodies_are_legal_on_banks()
    ensures { (limit inputs outputs : ℕ) (rows : Rows) (cmds : List BodyCmd)
        → AreBelow limit rows inputs outputs → are_legal inputs outputs cmds ≡ true
        → list_all (is_legal_command limit) (map (bound rows) cmds) ≡ true }
{}

/// The known sequences `NOT`, `AND`, `OR`, `XOR` and `ADD` have 2, 4, 4, 7 and 9 commands: these.
pub fn fixed_sequences()
    ensures inverting { NOT ≡ Aap (In 0) (B 5) ∷ Aap (B 4) (Out 0) ∷ [] }
    ensures joining { AND ≡ Aap (In 0) (B 0) ∷ Aap (In 1) (B 1) ∷ Aap (C 0) (B 2)
        ∷ Aap (B 12) (Out 0) ∷ [] }
    ensures choosing { OR ≡ Aap (In 0) (B 0) ∷ Aap (In 1) (B 1) ∷ Aap (C 1) (B 2)
        ∷ Aap (B 12) (Out 0) ∷ [] }
    ensures differing { XOR ≡ Aap (In 0) (B 8) ∷ Aap (In 1) (B 9) ∷ Aap (C 0) (B 10)
        ∷ Ap (B 14) ∷ Ap (B 15) ∷ Aap (C 1) (B 2) ∷ Aap (B 12) (Out 0) ∷ [] }
    ensures adding { ADD ≡ Aap (In 0) (B 10) ∷ Aap (In 1) (B 1) ∷ Aap (In 2) (B 8)
        ∷ Ap (B 14) ∷ Aap (In 1) (B 6) ∷ Aap (B 15) (B 5) ∷ Aap (In 2) (B 2)
        ∷ Aap (B 14) (Out 0) ∷ Aap (B 0) (Out 1) ∷ [] }
{}
