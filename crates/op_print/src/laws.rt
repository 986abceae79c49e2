//! Laws of the canonical text.

ghost use Rattle.op_print.specs.Reading.{TokensSpellOps, PrintingIsUndone};

/// The canonical text's tokens are those that spell the ops.
pub fn tokens_spell_ops()
    ensures { TokensSpellOps }
{}

/// Ops that meet the rules are the ops of their canonical text.
pub fn printing_is_undone()
    ensures { PrintingIsUndone }
{}
