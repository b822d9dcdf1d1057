//! The tokens ahead.

ghost use Rattle.std.specs.Prelude.{◌≡◌, [], ◌∷◌, length, not, ◌||◌, bytes_eq};
ghost use Rattle.grammar.specs.FormReaders.{next_in, read_token};
ghost use Rattle.grammar.specs.Spelling.{token_in, token_such};
ghost use Rattle.es5_tree.specs.Lexed as lexed;
ghost use Rattle.es5_tree.specs.Lexed.{is_directive};
ghost use Rattle.es5_tree.specs.Grammar.Nodes.{is_new, name_of};
ghost use Rattle.es5_tree.specs.declared.terminal.Terminal.TheVariants as terminal;
ghost use Rattle.es5_tree.specs.declared.token.EsMark.TheVariants as mark;
ghost use Rattle.es5_tree.specs.Grammar.Terminals.{code_of, op, token_code};
ghost use Rattle.es5_tree.specs.Grammar.Table.{begins_expression, begins_statement};
ghost use Rattle.descent.specs.Sets.{one_of};
ghost use Rattle.es5_reading.specs.Gives.{ahead, GivesToken, codes};

use crate::terminal::{code_of, terminal_of};
use descent::{Fail, either};
use es5_tree::{EsMark, EsToken, EsTokenKind, Keyword, Terminal, is_word};
use name_set::NameSet;

/// The tokens that are left.
#[derive(Drop)]
pub struct Tokens<'a> {
    pub rest: &'a [EsToken],
}

const USE_STRICT: &[u8] = b"use strict";

/// Bytes of the directive with its quotes.
const DIRECTIVE_SIZE: u32 = 12;

// Whether the token is the directive, without escapes (ECMA-262 5.1, 14.1).
fn is_directive(token: &EsToken) -> bool
    ensures { result ≡ lexed.is_directive token.now }
{
    match &token.kind {
        EsTokenKind::Str(text) => {
            is_word(USE_STRICT, text.as_slice())
                && u64::from(token.to) == u64::from(token.from) + u64::from(DIRECTIVE_SIZE)
        }
        _ => false,
    }
}

// The name that a token spells.
fn spelling(token: &EsToken) -> &[u16]
    ensures { result.now ≡ name_of token.now }
{
    match &token.kind {
        EsTokenKind::Word(name) => name.as_slice(),
        _ => &[],
    }
}

// Whether the token spells a name that is none of those.
fn is_new(names: &NameSet, token: &EsToken) -> bool
    ensures { result ≡ is_new names.now token.now }
{
    !names.contains(spelling(token))
}

fn is_one_of(terminal: Terminal, terminals: &[Terminal]) -> bool
    ensures { result ≡ one_of (codes terminals.now) (code_of terminal) }
{
    let code = code_of(terminal);
    let mut found = false;
    for other in terminals {
        found = either(found, code_of(*other) == code);
    }
    found
}

impl<'a> Tokens<'a> {
    /// Whether this terminal stands next.
    pub fn sees(&self, terminal: Terminal) -> bool
        ensures { result ≡ next_in (λ t. one_of (codes (terminal ∷ [])) (token_code t)) (ahead self.now) }
    {
        match self.rest.first() {
            Some(next) => code_of(terminal_of(&next.kind)) == code_of(terminal),
            None => false,
        }
    }

    /// Whether one of these terminals stands next.
    pub fn sees_one_of(&self, terminals: &[Terminal]) -> bool
        ensures { result ≡ next_in (λ t. one_of (codes terminals.now) (token_code t)) (ahead self.now) }
    {
        match self.rest.first() {
            Some(next) => is_one_of(terminal_of(&next.kind), terminals),
            None => false,
        }
    }

    /// Whether a terminal stands next that is none of these.
    pub fn sees_none_of(&self, terminals: &[Terminal]) -> bool
        ensures { result ≡ next_in (λ t. not (one_of (codes terminals.now) (token_code t))) (ahead self.now) }
    {
        match self.rest.first() {
            Some(next) => !is_one_of(terminal_of(&next.kind), terminals),
            None => false,
        }
    }

    /// Whether an expression can begin here.
    pub fn begins_expression(&self) -> bool
        ensures { result ≡ next_in (λ t. begins_expression (token_code t)) (ahead self.now) }
    {
        self.sees_one_of(&[
            Terminal::Name,
            Terminal::Arguments,
            Terminal::Num,
            Terminal::Str,
            Terminal::Keyword(Keyword::This),
            Terminal::Keyword(Keyword::Null),
            Terminal::Keyword(Keyword::True),
            Terminal::Keyword(Keyword::False),
            Terminal::Mark(EsMark::OpenParen),
            Terminal::Mark(EsMark::OpenBracket),
            Terminal::Mark(EsMark::OpenBrace),
            Terminal::Keyword(Keyword::Function),
            Terminal::Mark(EsMark::Not),
            Terminal::Mark(EsMark::Minus),
            Terminal::Keyword(Keyword::Typeof),
            Terminal::Keyword(Keyword::Delete),
        ])
    }

    /// Whether a statement can begin here.
    pub fn begins_statement(&self) -> bool
        ensures { result ≡ next_in (λ t. begins_statement (token_code t)) (ahead self.now) }
    {
        self.sees_one_of(&[
            Terminal::Name,
            Terminal::Arguments,
            Terminal::Num,
            Terminal::Str,
            Terminal::Keyword(Keyword::This),
            Terminal::Keyword(Keyword::Null),
            Terminal::Keyword(Keyword::True),
            Terminal::Keyword(Keyword::False),
            Terminal::Mark(EsMark::OpenParen),
            Terminal::Mark(EsMark::OpenBracket),
            Terminal::Mark(EsMark::OpenBrace),
            Terminal::Keyword(Keyword::Function),
            Terminal::Mark(EsMark::Not),
            Terminal::Mark(EsMark::Minus),
            Terminal::Keyword(Keyword::Typeof),
            Terminal::Keyword(Keyword::Delete),
            Terminal::Keyword(Keyword::Var),
            Terminal::Mark(EsMark::Semicolon),
            Terminal::Keyword(Keyword::If),
            Terminal::Keyword(Keyword::While),
            Terminal::Keyword(Keyword::Throw),
            Terminal::Keyword(Keyword::Try),
            Terminal::Keyword(Keyword::Return),
            Terminal::Keyword(Keyword::Break),
            Terminal::Keyword(Keyword::Continue),
        ])
    }

    /// Whether a member, an index or a call can begin here.
    pub fn sees_access(&self) -> bool
        ensures { result ≡ next_in (λ t. op mark.Dot (token_code t) || (op mark.OpenBracket (token_code t) || op mark.OpenParen (token_code t))) (ahead self.now) }
    {
        match self.rest.first() {
            Some(next) => {
                let terminal = terminal_of(&next.kind);
                is_one_of(terminal, &[Terminal::Mark(EsMark::Dot)])
                    || (is_one_of(terminal, &[Terminal::Mark(EsMark::OpenBracket)])
                        || is_one_of(terminal, &[Terminal::Mark(EsMark::OpenParen)]))
            }
            None => false,
        }
    }

    /// How many tokens are left.
    pub fn left(&self) -> usize
        ensures { result ≡ length (ahead self.now) }
    {
        self.rest.len()
    }

    /// Takes this terminal.
    pub fn take(&mut self, terminal: Terminal) -> Result<&'a EsToken, Fail>
        ensures { GivesToken (read_token (token_in token_code (one_of (codes (terminal ∷ [])))) (ahead self.old)) result (ahead self.new) }
    {
        self.take_one_of(&[terminal])
    }

    /// Takes the directive.
    pub fn take_directive(&mut self) -> Result<&'a EsToken, Fail>
        ensures { GivesToken (read_token (token_such token_code (one_of (codes (terminal.Str ∷ []))) is_directive) (ahead self.old)) result (ahead self.new) }
    {
        let rest: &'a [EsToken] = self.rest;
        let Some(next) = rest.first() else {
            return Err(Fail::Refused);
        };
        if !is_one_of(terminal_of(&next.kind), &[Terminal::Str]) || !is_directive(next) {
            return Err(Fail::Refused);
        }
        self.rest = &rest[1..];
        Ok(next)
    }

    /// Takes one of these terminals.
    pub fn take_one_of(&mut self, terminals: &[Terminal]) -> Result<&'a EsToken, Fail>
        ensures { GivesToken (read_token (token_in token_code (one_of (codes terminals.now))) (ahead self.old)) result (ahead self.new) }
    {
        let rest: &'a [EsToken] = self.rest;
        let Some(next) = rest.first() else {
            return Err(Fail::Refused);
        };
        if !is_one_of(terminal_of(&next.kind), terminals) {
            return Err(Fail::Refused);
        }
        self.rest = &rest[1..];
        Ok(next)
    }

    /// Takes one of these terminals, where it spells a name that is none of those.
    pub fn take_new(&mut self, terminals: &[Terminal], names: &NameSet) -> Result<&'a EsToken, Fail>
        ensures { GivesToken (read_token (token_such token_code (one_of (codes terminals.now)) (is_new names.now)) (ahead self.old)) result (ahead self.new) }
    {
        let rest: &'a [EsToken] = self.rest;
        let Some(next) = rest.first() else {
            return Err(Fail::Refused);
        };
        if !is_one_of(terminal_of(&next.kind), terminals) || !is_new(names, next) {
            return Err(Fail::Refused);
        }
        self.rest = &rest[1..];
        Ok(next)
    }
}
