//! What begins a value, an argument and a statement, and the lists of tokens that several rules share.

ghost use Rattle.std.specs.Prelude.{◌≡◌};
ghost use Rattle.grammar.specs.FormReaders.{next_in};
ghost use Rattle.ruby_meaning.specs.Grammar.Table as g;
ghost use Rattle.ruby_reading.specs.Ahead.{ahead, class_code};

use crate::cursor::Cursor;
use ruby_meaning::{Mark, Sign, Word};

/// What begins a value.
pub const VALUES: [Sign; 42] = [
    Sign::Name,
    Sign::Const,
    Sign::Ivar,
    Sign::Gvar,
    Sign::Int,
    Sign::Text,
    Sign::TextBegin,
    Sign::Keyword(Word::Nil),
    Sign::Keyword(Word::True),
    Sign::Keyword(Word::False),
    Sign::Keyword(Word::Self_),
    Sign::Keyword(Word::Retry),
    Sign::Keyword(Word::Yield),
    Sign::Keyword(Word::Super),
    Sign::Op(Mark::WordsRound),
    Sign::Op(Mark::WordsSquare),
    Sign::Op(Mark::SymbolsRound),
    Sign::Op(Mark::SymbolsSquare),
    Sign::Marked(Mark::WordsRound),
    Sign::Marked(Mark::WordsSquare),
    Sign::Marked(Mark::SymbolsRound),
    Sign::Marked(Mark::SymbolsSquare),
    Sign::Op(Mark::ColonColon),
    Sign::Marked(Mark::ColonColon),
    Sign::Op(Mark::ParenOpen),
    Sign::Marked(Mark::ParenOpen),
    Sign::Op(Mark::BracketOpen),
    Sign::Marked(Mark::BracketOpen),
    Sign::Op(Mark::BraceOpen),
    Sign::Op(Mark::Bang),
    Sign::Op(Mark::Minus),
    Sign::Marked(Mark::Minus),
    Sign::Op(Mark::Arrow),
    Sign::Keyword(Word::Case),
    Sign::Keyword(Word::Class),
    Sign::Keyword(Word::Module),
    Sign::Keyword(Word::Def),
    Sign::Keyword(Word::Begin),
    Sign::Keyword(Word::If),
    Sign::Keyword(Word::Unless),
    Sign::Keyword(Word::While),
    Sign::Keyword(Word::Until),
];

pub const STARS: [Sign; 2] = [Sign::Op(Mark::Star), Sign::Marked(Mark::Star)];

/// The keywords that stand behind a statement.
pub const MODIFIERS: [Sign; 4] = [
    Sign::Keyword(Word::If),
    Sign::Keyword(Word::Unless),
    Sign::Keyword(Word::While),
    Sign::Keyword(Word::Until),
];

pub const NEWLINES: [Sign; 1] = [Sign::Newline];

/// What separates statements.
pub const SEPARATORS: [Sign; 2] = [Sign::Newline, Sign::Op(Mark::Semicolon)];

/// The brackets that hold a value.
pub const ROUND: [Sign; 2] = [Sign::Op(Mark::ParenOpen), Sign::Marked(Mark::ParenOpen)];

/// The brackets that hold a list.
pub const SQUARE: [Sign; 2] = [Sign::Op(Mark::BracketOpen), Sign::Marked(Mark::BracketOpen)];

/// The names that a method may have, but for operators.
pub const NAMES: [Sign; 2] = [Sign::Name, Sign::Const];

/// The operators that name methods.
pub const OPERATORS: [Sign; 17] = [
    Sign::Op(Mark::Plus),
    Sign::Op(Mark::Minus),
    Sign::Op(Mark::Star),
    Sign::Op(Mark::Slash),
    Sign::Op(Mark::Percent),
    Sign::Op(Mark::Power),
    Sign::Op(Mark::Negate),
    Sign::Op(Mark::Equal),
    Sign::Op(Mark::Less),
    Sign::Op(Mark::LessEqual),
    Sign::Op(Mark::Greater),
    Sign::Op(Mark::GreaterEqual),
    Sign::Op(Mark::Compare),
    Sign::Op(Mark::TripleEqual),
    Sign::Op(Mark::ShiftLeft),
    Sign::Op(Mark::Index),
    Sign::Op(Mark::IndexSet),
];

/// What opens a list of words or of symbols.
pub const WORD_LISTS: [Sign; 8] = [
    Sign::Op(Mark::WordsRound),
    Sign::Op(Mark::WordsSquare),
    Sign::Op(Mark::SymbolsRound),
    Sign::Op(Mark::SymbolsSquare),
    Sign::Marked(Mark::WordsRound),
    Sign::Marked(Mark::WordsSquare),
    Sign::Marked(Mark::SymbolsRound),
    Sign::Marked(Mark::SymbolsSquare),
];

pub fn begins_value(cursor: &Cursor<'_>) -> bool
    ensures { result ≡ next_in (λ t. g.begins_value (class_code t)) (ahead cursor.now) }
{
    cursor.sees_one_of(&VALUES)
}

#[tactic(auto, using(crate::proofs::Next::next_or))]
pub fn begins_argument(cursor: &Cursor<'_>) -> bool
    ensures { result ≡ next_in (λ t. g.begins_argument (class_code t)) (ahead cursor.now) }
{
    begins_value(cursor)
        || cursor.sees_one_of(&STARS)
        || cursor.sees(Sign::Label)
        || cursor.sees(Sign::Op(Mark::Ampersand))
        || cursor.sees(Sign::Marked(Mark::Ampersand))
}

#[tactic(auto, using(crate::proofs::Next::next_or))]
fn begins_expression(cursor: &Cursor<'_>) -> bool
    ensures { result ≡ next_in (λ t. g.begins_expression (class_code t)) (ahead cursor.now) }
{
    begins_value(cursor)
        || cursor.sees(Sign::Keyword(Word::Not))
        || cursor.sees(Sign::Keyword(Word::Return))
        || cursor.sees(Sign::Keyword(Word::Break))
        || cursor.sees(Sign::Keyword(Word::Next))
}

#[tactic(auto, using(crate::proofs::Next::next_or))]
pub fn begins_statement(cursor: &Cursor<'_>) -> bool
    ensures { result ≡ next_in (λ t. g.begins_statement (class_code t)) (ahead cursor.now) }
{
    begins_expression(cursor)
        || cursor.sees(Sign::Keyword(Word::Alias))
        || cursor.sees(Sign::Keyword(Word::Undef))
        || cursor.sees(Sign::Op(Mark::Star))
}
