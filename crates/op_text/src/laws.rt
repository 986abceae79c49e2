//! Laws of the definitions.

ghost use Rattle.std.specs.Prelude.{List};
ghost use Rattle.text_lex.specs.Lexical.{Item};
ghost use Rattle.grammar.specs.Laws.{IsTheGrammar, SyntaxIsTheGrammars};
ghost use Rattle.op_text.specs.Rules.{nothing_yet, operation_texts};
ghost use Rattle.op_text.specs.Trees.{IsText};
ghost use Rattle.op_text.specs.WordOps.{FirstSettles};
ghost use Rattle.op_text.specs.Meaning.{MeaningFits};
ghost use Rattle.op_text.specs.Spelling.{PlacesDoNotMatter, SpelledOnce};
ghost use Rattle.op_text.specs.Spelling.{OpsSpelledOnce};
ghost use Rattle.op_text.specs.OpsOf.{OpsOfATextAreOne, OpsOfATextMeet, TextsOfOps};

/// What the grammar's steps accept is the grammar's texts, and they allow what these begin with.
pub fn grammar_is_followed()
    ensures { IsTheGrammar operation_texts IsText }
{}

/// The first breach of items is another rule's, or exactly what the grammar finds in them.
pub fn syntax_is_the_grammars()
    ensures { (items : List Item) → SyntaxIsTheGrammars operation_texts IsText nothing_yet
        items }
{}

/// Whether tokens break a rule does not rest on their places.
pub fn places_do_not_matter()
    ensures { PlacesDoNotMatter }
{}

/// No two expressions are spelled alike.
pub fn spelled_once()
    ensures { SpelledOnce }
{}

/// A meaning is below `2 ^ n`, or below 2 where the result is a bit.
pub fn meaning_fits()
    ensures { MeaningFits }
{}

/// The kind of a word operation's first argument settles that of its result.
pub fn first_settles()
    ensures { FirstSettles }
{}

/// No two lists of ops are spelled alike.
pub fn ops_spelled_once()
    ensures { OpsSpelledOnce }
{}

/// A text has one list of ops.
pub fn ops_of_a_text_are_one()
    ensures { OpsOfATextAreOne }
{}

/// The ops of a text meet the rules.
pub fn ops_of_a_text_meet()
    ensures { OpsOfATextMeet }
{}

/// Ops that meet the rules are the ops of each text whose tokens spell them.
pub fn texts_of_ops()
    ensures { TextsOfOps }
{}
