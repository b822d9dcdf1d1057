//! The number of a token's class, which is what the grammar tells tokens apart by.

ghost use Rattle.std.specs.Prelude.{◌≡◌};
ghost use Rattle.ruby_meaning.specs.Grammar.Classes.{code_of, word_code, mark_code, marked_code};

use ruby_meaning::{Mark, Sign, Word};

/// Below 116.
pub fn class_of(sign: Sign) -> u8
    ensures { result ≡ code_of sign }
{
    match sign {
        Sign::Marked(mark) => marked_class(mark),
        Sign::Keyword(word) => word_class(word),
        Sign::Op(mark) => mark_class(mark),
        Sign::Name => 0,
        Sign::Const => 1,
        Sign::Ivar => 2,
        Sign::Gvar => 3,
        Sign::Label => 4,
        Sign::Int => 5,
        Sign::Text => 6,
        Sign::TextBegin => 7,
        Sign::TextEnd => 8,
        Sign::PartBegin => 9,
        Sign::PartEnd => 10,
        Sign::Newline => 11,
        Sign::Eof => 12,
        Sign::CallOpen => 13,
    }
}

fn word_class(word: Word) -> u8
    ensures { result ≡ word_code word }
{
    match word {
        Word::Alias => 24,
        Word::And => 25,
        Word::Begin => 26,
        Word::Break => 27,
        Word::Case => 28,
        Word::Class => 29,
        Word::Def => 30,
        Word::Do => 31,
        Word::Else => 32,
        Word::Elsif => 33,
        Word::End => 34,
        Word::Ensure => 35,
        Word::False => 36,
        Word::For => 37,
        Word::If => 38,
        Word::In => 39,
        Word::Module => 40,
        Word::Next => 41,
        Word::Nil => 42,
        Word::Not => 43,
        Word::Or => 44,
        Word::Rescue => 45,
        Word::Retry => 46,
        Word::Return => 47,
        Word::Self_ => 48,
        Word::Super => 49,
        Word::Then => 50,
        Word::True => 51,
        Word::Undef => 52,
        Word::Unless => 53,
        Word::Until => 54,
        Word::When => 55,
        Word::While => 56,
        Word::Yield => 57,
    }
}

fn mark_class(mark: Mark) -> u8
    ensures { result ≡ mark_code mark }
{
    match mark {
        Mark::Ampersand => 58,
        Mark::And => 59,
        Mark::AndSet => 60,
        Mark::Arrow => 61,
        Mark::Assign => 62,
        Mark::Bang => 63,
        Mark::BraceClose => 64,
        Mark::BraceOpen => 65,
        Mark::BracketClose => 66,
        Mark::BracketOpen => 67,
        Mark::Caret => 68,
        Mark::Colon => 69,
        Mark::ColonColon => 70,
        Mark::Comma => 71,
        Mark::Compare => 72,
        Mark::Dot => 73,
        Mark::DotDot => 74,
        Mark::DotDotDot => 75,
        Mark::Equal => 76,
        Mark::FatArrow => 77,
        Mark::Greater => 78,
        Mark::GreaterEqual => 79,
        Mark::Index => 80,
        Mark::IndexSet => 81,
        Mark::Less => 82,
        Mark::LessEqual => 83,
        Mark::ListEndRound => 84,
        Mark::ListEndSquare => 85,
        Mark::Minus => 86,
        Mark::MinusSet => 87,
        Mark::Negate => 88,
        Mark::NotEqual => 89,
        Mark::Or => 90,
        Mark::OrSet => 91,
        Mark::ParenClose => 92,
        Mark::ParenOpen => 93,
        Mark::Percent => 94,
        Mark::PercentSet => 95,
        Mark::Pipe => 96,
        Mark::Plus => 97,
        Mark::PlusSet => 98,
        Mark::Power => 99,
        Mark::PowerSet => 100,
        Mark::Question => 101,
        Mark::Semicolon => 102,
        Mark::ShiftLeft => 103,
        Mark::ShiftLeftSet => 104,
        Mark::ShiftRight => 105,
        Mark::Slash => 106,
        Mark::SlashSet => 107,
        Mark::Star => 108,
        Mark::StarSet => 109,
        Mark::SymbolsRound => 110,
        Mark::SymbolsSquare => 111,
        Mark::Tilde => 112,
        Mark::TripleEqual => 113,
        Mark::WordsRound => 114,
        Mark::WordsSquare => 115,
    }
}

fn marked_class(mark: Mark) -> u8
    ensures { result ≡ marked_code mark }
{
    match mark {
        Mark::Minus => 14,
        Mark::BracketOpen => 15,
        Mark::Star => 16,
        Mark::Ampersand => 17,
        Mark::ParenOpen => 18,
        Mark::ColonColon => 19,
        Mark::WordsRound => 20,
        Mark::WordsSquare => 21,
        Mark::SymbolsRound => 22,
        Mark::SymbolsSquare => 23,
        _ => mark_class(mark),
    }
}
