//! What the grammar sees of a file's tokens: each with its sign.

ghost use Rattle.std.specs.Prelude.{◌≡◌, ℕ, IfOk, map, [], ◌∷◌, ◌++◌, take, List};
ghost use Rattle.ruby_meaning.specs.declared.token.Token.{Token};
ghost use Rattle.ruby_meaning.specs.Grammar.Laws.{sight};
ghost use Rattle.ruby_meaning.specs.Grammar.Seen as seen;
ghost use Rattle.ruby_meaning.specs.Lexing.Laws.{HasOneEof};
ghost use Rattle.ruby_reading.specs.Ahead.{see};
ghost use Rattle.ruby_reading.specs.Sights as spec;
ghost use Rattle.std.specs.Option.{option_copied};

use crate::cursor::Sight;
use ruby_meaning::{Mark, Sign, Token, TokenKind, Tokens, Word};
use std::alloc::{AllocError, Global};

/// The last tokens before a place, from the last one back.
#[derive(Clone, Copy)]
pub struct Before<'a> {
    last: Option<&'a Token>,
    second: Option<&'a Token>,
    third: Option<&'a Token>,
    fourth: Option<&'a Token>,
}

/// Before the first token.
fn start<'a>() -> Before<'a>
    ensures { spec.shown_before result ≡ spec.window [] }
{
    Before {
        last: None,
        second: None,
        third: None,
        fourth: None,
    }
}

/// Behind one more token.
fn behind<'a>(before: Before<'a>, token: &'a Token) -> Before<'a>
    ensures { spec.shown_before result ≡ spec.behind token.now (spec.shown_before before.entry) }
{
    Before {
        last: Some(token),
        second: before.last,
        third: before.second,
        fourth: before.third,
    }
}

fn is_dot(token: Option<&Token>) -> bool
    ensures { result ≡ spec.holds seen.is_dot (option_copied token.entry) }
{
    match token {
        Some(token) => matches!(token.kind, TokenKind::Op(Mark::Dot)),
        None => false,
    }
}

fn is_def(token: Option<&Token>) -> bool
    ensures { result ≡ spec.holds seen.is_def (option_copied token.entry) }
{
    match token {
        Some(token) => matches!(token.kind, TokenKind::Keyword(Word::Def)),
        None => false,
    }
}

fn is_alias(token: Option<&Token>) -> bool
    ensures { result ≡ spec.holds seen.is_alias (option_copied token.entry) }
{
    match token {
        Some(token) => matches!(token.kind, TokenKind::Keyword(Word::Alias)),
        None => false,
    }
}

fn is_name(token: Option<&Token>) -> bool
    ensures { result ≡ spec.holds seen.is_name (option_copied token.entry) }
{
    match token {
        Some(token) => matches!(
            token.kind,
            TokenKind::Name(_) | TokenKind::Keyword(Word::Yield) | TokenKind::Keyword(Word::Super)
        ),
        None => false,
    }
}

fn is_callee(token: Option<&Token>) -> bool
    ensures { result ≡ spec.holds seen.is_callee (option_copied token.entry) }
{
    match token {
        Some(token) => matches!(
            token.kind,
            TokenKind::Const(_)
                | TokenKind::Name(_)
                | TokenKind::Keyword(Word::Yield)
                | TokenKind::Keyword(Word::Super)
                | TokenKind::Op(Mark::Dot)
        ),
        None => false,
    }
}

/// Whether a name that stands there is the one that a `def` gives, or the first of an `alias`.
fn gives_name(last: Option<&Token>, third: Option<&Token>) -> bool
    ensures { result ≡ spec.gives (option_copied last.entry) (option_copied third.entry) }
{
    is_dot(last) && is_def(third) || (is_def(last) || is_alias(last))
}

/// Whether a name, `yield` or `super` stands before, which takes arguments.
fn takes_arguments(before: Before<'_>) -> bool
    ensures { result ≡ spec.takes (spec.shown_before before.entry) }
{
    is_name(before.last) && !gives_name(before.second, before.fourth)
}

fn is_open(token: Option<&Token>) -> bool
    ensures { result ≡ spec.holds seen.is_open (option_copied token.entry) }
{
    match token {
        Some(token) => matches!(token.kind, TokenKind::Op(Mark::ParenOpen)),
        None => false,
    }
}

/// Whether a `(` that stands directly behind opens the arguments of a call.
fn opens_call(before: Before<'_>) -> bool
    ensures { result ≡ spec.opens (spec.shown_before before.entry) }
{
    is_callee(before.last) || is_dot(before.second) && !is_open(before.last)
}

fn is_argument_mark(mark: Mark) -> bool
    ensures { result ≡ seen.is_argument_mark mark }
{
    matches!(
        mark,
        Mark::Minus
            | Mark::BracketOpen
            | Mark::Star
            | Mark::Ampersand
            | Mark::ParenOpen
            | Mark::ColonColon
            | Mark::WordsRound
            | Mark::WordsSquare
            | Mark::SymbolsRound
            | Mark::SymbolsSquare
    )
}

fn is_paren(mark: Mark) -> bool
    ensures { result ≡ seen.is_paren mark }
{
    matches!(mark, Mark::ParenOpen)
}

fn sign_of_op(before: Before<'_>, token: &Token, mark: Mark) -> Sign
    ensures { result ≡ spec.sign_of_op (spec.opens (spec.shown_before before.entry)) (spec.takes (spec.shown_before before.entry)) token.now mark }
{
    if is_paren(mark) && !token.blank_before && opens_call(before) {
        Sign::CallOpen
    } else if is_argument_mark(mark)
        && (token.blank_before && !token.blank_after)
        && takes_arguments(before)
    {
        Sign::Marked(mark)
    } else {
        Sign::Op(mark)
    }
}

fn sign_of(before: Before<'_>, token: &Token) -> Sign
    ensures { result ≡ spec.sign_from (spec.shown_before before.entry) token.now }
{
    match token.kind {
        TokenKind::Name(_) => Sign::Name,
        TokenKind::Const(_) => Sign::Const,
        TokenKind::Ivar(_) => Sign::Ivar,
        TokenKind::Gvar(_) => Sign::Gvar,
        TokenKind::Keyword(word) => Sign::Keyword(word),
        TokenKind::Op(mark) => sign_of_op(before, token, mark),
        TokenKind::Label(_) => Sign::Label,
        TokenKind::Int(_) => Sign::Int,
        TokenKind::Text(_) => Sign::Text,
        TokenKind::TextBegin => Sign::TextBegin,
        TokenKind::TextEnd => Sign::TextEnd,
        TokenKind::PartBegin => Sign::PartBegin,
        TokenKind::PartEnd => Sign::PartEnd,
        TokenKind::Newline => Sign::Newline,
        TokenKind::Eof => Sign::Eof,
    }
}

/// The tokens before the end token, each with its sign.
pub fn sights<'a>(alloc: Global, tokens: &'a Tokens) -> Result<Vec<Sight<'a>>, AllocError>
    requires { HasOneEof tokens.now }
    ensures { IfOk result (λ sights. map see sights.items ≡ sight tokens.now) }
{
    let mut sights = Vec::new(alloc);
    let mut before = start();
    for i in 0..tokens.len().saturating_sub(1) {
        let token = tokens.at(i);
        let sign = sign_of(before, token);
        sights.push(Sight { token, sign })?;
        before = behind(before, token);
    }
    Ok(sights)
}
