//! Whole expressions. Brackets around an expression make no node (ECMA-262 5.1, 11.1.6), so that no
//! limit bounds them: the opening ones are counted, and closed one after the other.

ghost use Rattle.std.specs.Prelude.{◌≡◌, ◌<◌, ◌^◌, [], length, reverse, suc};
ghost use Rattle.grammar.specs.FormReaders.{and_then, behind_openings};
ghost use Rattle.grammar.specs.Readers.{read_named, read_rule};
ghost use Rattle.es5_tree.specs.Grammar.Expressions as g;
ghost use Rattle.es5_tree.specs.Grammar.Names as name;
ghost use Rattle.es5_tree.specs.Grammar.Table.{table};
ghost use Rattle.es5_reading.specs.Gives.{ahead};
ghost use Rattle.es5_reading.specs.Named.{Nests, GivesExpr, GivesOperand};
ghost use Rattle.es5_parser.specs.Levels as spec;
ghost use Rattle.es5_parser.specs.Levels.{GivesStart, openings_ahead, opens, shown_start};

use crate::levels::Start;
use crate::names::Parser;
use descent::Fail;
use es5_reading::parts::{Operand, Part, Reading};
use es5_reading::terminal::terminal_of;
use es5_reading::tokens::Tokens;
use es5_tree::{EsExpr, EsMark, EsToken, Keyword, Level, Terminal};
use std::alloc::Global;

/// The tokens that are an expression.
const SIMPLE: [Terminal; 8] = [
    Terminal::Name,
    Terminal::Arguments,
    Terminal::Num,
    Terminal::Str,
    Terminal::Keyword(Keyword::This),
    Terminal::Keyword(Keyword::Null),
    Terminal::Keyword(Keyword::True),
    Terminal::Keyword(Keyword::False),
];

fn is_opening(token: &EsToken) -> bool
    ensures { result ≡ opens token.now }
{
    matches!(terminal_of(&token.kind), Terminal::Mark(EsMark::OpenParen))
}

// How many opening brackets come next.
fn openings(tokens: &[EsToken]) -> usize
    ensures { result ≡ length (openings_ahead tokens.now) }
{
    let mut rest = tokens;
    let mut count = 0;
    'openings: while let [next, more @ ..] = rest {
        if !is_opening(next) {
            return count;
        }
        count += 1;
        rest = more;
    }
    count
}

/// Passes the opening brackets that come next.
#[tactic(auto, using(crate::proofs::Openings::taken, crate::proofs::Openings::passed_by, crate::proofs::Openings::within))]
pub fn take_openings<'a>(tokens: &mut Tokens<'a>) -> &'a [EsToken]
    ensures taken { result.now ≡ openings_ahead (ahead tokens.old) }
    ensures passed { ahead tokens.new ≡ behind_openings opens (ahead tokens.old) }
{
    let all: &'a [EsToken] = tokens.rest;
    let count = openings(all);
    tokens.rest = &all[count..];
    &all[..count]
}

impl<F: Fn(Global, &mut Tokens<'_>, Part, u32) -> Result<Reading, Fail>> Parser<F> {
    // A primary expression without brackets around it.
    #[tactic(auto, unfolding(es5_tree::specs::Grammar::Table::table, es5_tree::specs::Grammar::Expressions::simple, es5_tree::specs::Grammar::Expressions::array, es5_tree::specs::Grammar::Expressions::object_literal))]
    fn unbracketed<'a>(&self, tokens: &mut Tokens<'a>) -> Result<Operand<'a>, Fail>
        requires below { Nests self.now.depth (F.pre self.now.part) (F.post self.now.part) }
        requires levels { self.now.depth < 2 ^ 31 }
        ensures { GivesOperand (read_rule table (read_named table) spec.unbracketed (suc self.now.depth) (ahead tokens.old)) result (ahead tokens.new) }
    {
        if tokens.sees_one_of(&SIMPLE) {
            self.simple(tokens)
        } else if tokens.sees(Terminal::Mark(EsMark::OpenBracket)) {
            self.array(tokens)
        } else if tokens.sees(Terminal::Mark(EsMark::OpenBrace)) {
            self.object_literal(tokens)
        } else {
            self.function_expression(tokens)
        }
    }

    // An operator with its value, or a primary expression without brackets around it.
    fn first_operand<'a>(&self, tokens: &mut Tokens<'a>) -> Result<Start<'a>, Fail>
        requires below { Nests self.now.depth (F.pre self.now.part) (F.post self.now.part) }
        requires levels { self.now.depth < 2 ^ 31 }
        ensures { GivesStart (spec.first_operand spec.unbracketed self.now.depth (ahead tokens.old)) result (ahead tokens.new) }
    {
        if tokens.sees_one_of(&[
            Terminal::Mark(EsMark::Not),
            Terminal::Mark(EsMark::Minus),
            Terminal::Keyword(Keyword::Typeof),
        ]) {
            let operand = self.operation(tokens)?;
            return Ok(Start {
                operand,
                plain: false,
            });
        }
        if tokens.sees(Terminal::Keyword(Keyword::Delete)) {
            let operand = self.deletion(tokens)?;
            return Ok(Start {
                operand,
                plain: false,
            });
        }
        let operand = self.unbracketed(tokens)?;
        Ok(Start {
            operand,
            plain: true,
        })
    }

    fn first_of<'a>(&self, tokens: &mut Tokens<'a>, level: Level) -> Result<Start<'a>, Fail>
        requires below { Nests self.now.depth (F.pre self.now.part) (F.post self.now.part) }
        requires levels { self.now.depth < 2 ^ 31 }
        ensures { GivesStart (spec.first_of spec.unbracketed level self.now.depth (ahead tokens.old)) result (ahead tokens.new) }
    {
        match level {
            Level::Call => {
                let operand = self.unbracketed(tokens)?;
                Ok(Start {
                    operand,
                    plain: true,
                })
            }
            _ => self.first_operand(tokens),
        }
    }

    // The rest of an expression and its closing bracket.
    #[tactic(auto, unfolding(crate::specs::Levels::closed_once))]
    fn closed_once<'a>(
        &self,
        tokens: &mut Tokens<'a>,
        opening: &'a EsToken,
        start: Start<'a>,
    ) -> Result<Start<'a>, Fail>
        requires below { Nests self.now.depth (F.pre self.now.part) (F.post self.now.part) }
        requires levels { self.now.depth < 2 ^ 31 }
        ensures { GivesStart (spec.closed_once self.now.depth opening.now (shown_start start.entry) (ahead tokens.old)) result (ahead tokens.new) }
    {
        let whole = self.behind_target(tokens, start)?;
        tokens.take(Terminal::Mark(EsMark::CloseParen))?;
        let operand = Operand {
            first: opening,
            expr: whole.expr,
        };
        Ok(Start {
            operand,
            plain: true,
        })
    }

    // Behind the first operand in brackets, each bracket is closed in its turn.
    fn closed<'a>(
        &self,
        tokens: &mut Tokens<'a>,
        opened: &'a [EsToken],
        start: Start<'a>,
    ) -> Result<Start<'a>, Fail>
        requires below { Nests self.now.depth (F.pre self.now.part) (F.post self.now.part) }
        requires levels { self.now.depth < 2 ^ 31 }
        ensures { GivesStart (spec.closed self.now.depth (reverse opened.now) (shown_start start.entry) (ahead tokens.old)) result (ahead tokens.new) }
    {
        let mut opened = opened;
        let mut start = start;
        'opened: while let [outer @ .., opening] = opened {
            start = self.closed_once(tokens, opening, start)?;
            opened = outer;
        }
        Ok(start)
    }

    // The first operand, in the brackets that are open there.
    fn bracketed<'a>(
        &self,
        tokens: &mut Tokens<'a>,
        opened: &'a [EsToken],
    ) -> Result<Start<'a>, Fail>
        requires below { Nests self.now.depth (F.pre self.now.part) (F.post self.now.part) }
        requires levels { self.now.depth < 2 ^ 31 }
        ensures { GivesStart (and_then (spec.first_operand spec.unbracketed self.now.depth (ahead tokens.old)) (λ s rest. spec.closed self.now.depth (reverse opened.now) s rest)) result (ahead tokens.new) }
    {
        let start = self.first_operand(tokens)?;
        self.closed(tokens, opened, start)
    }

    // An operator with its value, or a primary expression.
    #[tactic(auto, using(crate::proofs::BracketsRead::start_opened, crate::proofs::BracketsRead::start_unopened))]
    fn start<'a>(&self, tokens: &mut Tokens<'a>, level: Level) -> Result<Start<'a>, Fail>
        requires below { Nests self.now.depth (F.pre self.now.part) (F.post self.now.part) }
        requires levels { self.now.depth < 2 ^ 31 }
        ensures { GivesStart (spec.first_of g.primary level self.now.depth (ahead tokens.old)) result (ahead tokens.new) }
    {
        let opened = take_openings(tokens);
        if opened.is_empty() {
            return self.first_of(tokens, level);
        }
        self.bracketed(tokens, opened)
    }

    /// An expression of a level.
    #[tactic(auto, using(crate::proofs::LevelsRead::expression_is))]
    pub fn expression(&self, tokens: &mut Tokens<'_>, level: Level) -> Result<EsExpr, Fail>
        requires below { Nests self.now.depth (F.pre self.now.part) (F.post self.now.part) }
        requires levels { self.now.depth < 2 ^ 31 }
        ensures { GivesExpr (read_named table (suc self.now.depth) (name.expr level) (ahead tokens.old)) result (ahead tokens.new) }
    {
        let start = self.start(tokens, level)?;
        let whole = self.behind(tokens, level, start)?;
        Ok(whole.expr)
    }
}
