//! Laws of printed texts, each the contract of a function that does nothing.

ghost use Rattle.es5_printer.specs.Laws.{JoinedTexts, TextOfStatements};

/// The text of statements that are joined is the join of their texts, and a script's text is that of
/// the directive and that of its statements.
pub fn joined_texts()
    ensures joined { JoinedTexts }
    ensures script { TextOfStatements }
{}
