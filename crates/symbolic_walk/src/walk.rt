//! Runs a microprogram on a column of functions.

ghost use Rattle.std.specs.Prelude.{◌≡◌, ℕ, Bool, length, ◌<◌, ◌≤◌, OnOk, Err};
ghost use Rattle.dram_model.specs.Column.{run as run_of};
ghost use Rattle.uprog_code.specs.Machine.{HasEnded, trace, issues_of};
ghost use Rattle.uprog_code.specs.Legal.{IsLegalCode};
ghost use Rattle.uprog_code.specs.Bound.{bound, bound_of};
ghost use Rattle.uprog_code.specs.Fits.{Fits};
ghost use Rattle.bdd.specs.declared.Shortage.{Shortage};
ghost use Rattle.bdd.specs.Graphs.{AreNodes, HasReached, Keeps};
ghost use Rattle.symbolic_column.specs.Symbols.{column_of, AreCells};

use bdd::{Diagram, Shortage};
use bit_rows::WIDTH_MAX;
use symbolic_column::SymbolicColumn;
use uprog_code::{Binding, Fetch, WALK_MAX, Walk, next_command};

/// Runs a microprogram whose walk ends.
pub fn symbolic_run<F: Fetch>(
    column: &mut SymbolicColumn,
    diagram: &mut Diagram,
    entry: &F,
    rows: u16,
    binding: &Binding,
) -> Result<(), Shortage>
    requires nodes { AreNodes diagram.old.nodes }
    requires cells { AreCells diagram.old.nodes column.old }
    requires rows { length column.old.rows ≡ rows }
    requires legal { IsLegalCode (F.shape entry.now) (F.code entry.now) }
    requires some { 0 < binding.now.n }
    requires narrow { binding.now.n ≤ WIDTH_MAX }
    requires fits { Fits rows (F.shape entry.now) binding.now.n (bound_of binding.now) }
    requires ends { HasEnded (trace (F.shape entry.now) (F.code entry.now) binding.now.n) }
    ensures column { OnOk result ((bits : ℕ → Bool) → column_of diagram.new.nodes bits column.new
        ≡ run_of (bound rows (F.shape entry.now) binding.now.n (bound_of binding.now)
        (issues_of (trace (F.shape entry.now) (F.code entry.now) binding.now.n)))
        (column_of diagram.old.nodes bits column.old)) }
    ensures cells { AreCells diagram.new.nodes column.new }
    ensures nodes { AreNodes diagram.new.nodes }
    ensures keeps { Keeps diagram.old.nodes diagram.new.nodes }
    ensures limits { diagram.new.limits ≡ diagram.old.limits }
    ensures reached { (s : Shortage) → result ≡ Err s → HasReached s diagram.new }
    ensures rows { length column.new.rows ≡ length column.old.rows }
{
    let head = entry.head();
    let mut walk = Walk::start();
    for k in 0..WALK_MAX {
        match next_command(entry, &head, rows, binding, &mut walk) {
            Some(command) => column.step(diagram, command)?,
            None => return Ok(()),
        }
    }
    Ok(())
}
