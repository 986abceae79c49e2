//! What is proved of the definitions alone.

ghost use Rattle.bbop_isa.specs.Laws.{LinesAreRight, ScriptsGoByLines};
ghost use Rattle.bbop_isa.specs.Operands.{OperandsAreSpelled};
ghost use Rattle.bbop_isa.specs.Kinds.{LinesAreForms, LinesAreWrong};

/// The lines of a text are what stands between its newlines.
pub fn lines_are_right()
    ensures { LinesAreRight }
{}

/// Operands are objects or parts of them and then numbers, with commas between them.
pub fn operands_are_spelled()
    ensures { OperandsAreSpelled }
{}

/// A line says an instruction exactly where it is of a form that means it, with names and numbers
/// that are right.
pub fn lines_are_forms()
    ensures { LinesAreForms }
{}

/// A line is refused for what is wrong with it: for its bytes, its form, a name or a number, in
/// this order.
pub fn lines_are_wrong()
    ensures { LinesAreWrong }
{}

/// Each line counts by itself, and the first line at fault decides.
pub fn scripts_go_by_lines()
    ensures { ScriptsGoByLines }
{}
