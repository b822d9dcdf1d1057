//! What the grammar sees of a token.

ghost use Rattle.std.specs.Prelude.{◌≡◌, map};
ghost use Rattle.es5_tree.specs.Grammar.Terminals as spec;

use es5_tree::{EsMark, EsTokenKind, KEYWORDS, Keyword, Terminal, is_reserved, is_word};
use opal_base::Units;

const ARGUMENTS: &[u8] = b"arguments";

const EVAL: &[u8] = b"eval";

fn keyword_in(mut entries: &[(&[u8], Keyword)], name: &[u16]) -> Option<Keyword>
    ensures { result ≡ spec.keyword_in (map (λ entry. (entry.0.now, entry.1)) entries.entry.now) name.now }
{
    'entries: while let [entry, more @ ..] = entries {
        if is_word(entry.0, name) {
            return Some(entry.1);
        }
        entries = more;
    }
    None
}

#[tactic(auto, unfolding(es5_tree::specs::Grammar::Terminals::terminal_of_word))]
pub fn terminal_of_word(name: &Units) -> Terminal
    ensures { result ≡ spec.terminal_of_word name.now }
{
    if let Some(keyword) = keyword_in(&KEYWORDS, name.as_slice()) {
        return Terminal::Keyword(keyword);
    }
    if is_word(ARGUMENTS, name.as_slice()) {
        Terminal::Arguments
    } else if is_word(EVAL, name.as_slice()) || is_reserved(name) {
        Terminal::Refused
    } else {
        Terminal::Name
    }
}

pub fn terminal_of(kind: &EsTokenKind) -> Terminal
    ensures { result ≡ spec.terminal_of kind.now }
{
    match kind {
        EsTokenKind::Word(name) => terminal_of_word(name),
        EsTokenKind::Num(_) => Terminal::Num,
        EsTokenKind::Str(_) => Terminal::Str,
        EsTokenKind::Mark(mark) => Terminal::Mark(*mark),
        EsTokenKind::End => Terminal::End,
    }
}

/// The number of a terminal, below 50.
pub fn code_of(terminal: Terminal) -> u8
    ensures { result ≡ spec.code_of terminal }
{
    match terminal {
        Terminal::Name => 0,
        Terminal::Arguments => 1,
        Terminal::Num => 2,
        Terminal::Str => 3,
        Terminal::Refused => 4,
        Terminal::End => 5,
        Terminal::Keyword(keyword) => keyword_code(keyword),
        Terminal::Mark(mark) => mark_code(mark),
    }
}

fn keyword_code(keyword: Keyword) -> u8
    ensures { result ≡ spec.keyword_code keyword }
{
    match keyword {
        Keyword::Break => 6,
        Keyword::Catch => 7,
        Keyword::Continue => 8,
        Keyword::Delete => 9,
        Keyword::Else => 10,
        Keyword::False => 11,
        Keyword::Finally => 12,
        Keyword::Function => 13,
        Keyword::If => 14,
        Keyword::Null => 15,
        Keyword::Return => 16,
        Keyword::This => 17,
        Keyword::Throw => 18,
        Keyword::True => 19,
        Keyword::Try => 20,
        Keyword::Typeof => 21,
        Keyword::Var => 22,
        Keyword::While => 23,
    }
}

fn mark_code(mark: EsMark) -> u8
    ensures { result ≡ spec.mark_code mark }
{
    match mark {
        EsMark::OpenBrace => 24,
        EsMark::CloseBrace => 25,
        EsMark::OpenParen => 26,
        EsMark::CloseParen => 27,
        EsMark::OpenBracket => 28,
        EsMark::CloseBracket => 29,
        EsMark::Dot => 30,
        EsMark::Semicolon => 31,
        EsMark::Comma => 32,
        EsMark::Less => 33,
        EsMark::Greater => 34,
        EsMark::LessOrEqual => 35,
        EsMark::GreaterOrEqual => 36,
        EsMark::Same => 37,
        EsMark::Different => 38,
        EsMark::Plus => 39,
        EsMark::Minus => 40,
        EsMark::Times => 41,
        EsMark::Divide => 42,
        EsMark::Remainder => 43,
        EsMark::Not => 44,
        EsMark::And => 45,
        EsMark::Or => 46,
        EsMark::Question => 47,
        EsMark::Colon => 48,
        EsMark::Assign => 49,
    }
}
