//! Expressions of one token, and operators before their value (ECMA-262 5.1, 11.1 and 11.4).

ghost use Rattle.std.specs.Prelude.{◌≡◌, suc};
ghost use Rattle.grammar.specs.Readers.{read_named, read_rule};
ghost use Rattle.es5_tree.specs.Grammar.Expressions as g;
ghost use Rattle.es5_tree.specs.Grammar.Table.{table};
ghost use Rattle.es5_reading.specs.Gives.{ahead};
ghost use Rattle.es5_reading.specs.Named.{Nests, GivesOperand};

use crate::names::Parser;
use descent::Fail;
use es5_reading::making::{expr, is_member, negated, token_kind};
use es5_reading::parts::{Operand, Part, Reading};
use es5_reading::tokens::Tokens;
use es5_tree::{EsKind, EsMark, Keyword, Level, Terminal};
use std::alloc::Global;

impl<F: Fn(Global, &mut Tokens<'_>, Part, u32) -> Result<Reading, Fail>> Parser<F> {
    #[tactic(auto, unfolding(es5_tree::specs::Grammar::Table::table, es5_tree::specs::Grammar::Expressions::simple))]
    pub fn simple<'a>(&self, tokens: &mut Tokens<'a>) -> Result<Operand<'a>, Fail>
        ensures { GivesOperand (read_rule table (read_named table) g.simple (suc self.now.depth) (ahead tokens.old)) result (ahead tokens.new) }
    {
        let first = tokens.take_one_of(&[
            Terminal::Name,
            Terminal::Arguments,
            Terminal::Num,
            Terminal::Str,
            Terminal::Keyword(Keyword::This),
            Terminal::Keyword(Keyword::Null),
            Terminal::Keyword(Keyword::True),
            Terminal::Keyword(Keyword::False),
        ])?;
        let kind = token_kind(&first.kind)?;
        Ok(Operand {
            first,
            expr: expr(self.alloc, first.pos, kind)?,
        })
    }

    #[tactic(auto, unfolding(es5_tree::specs::Grammar::Table::table, es5_tree::specs::Grammar::Expressions::operation))]
    pub fn operation<'a>(&self, tokens: &mut Tokens<'a>) -> Result<Operand<'a>, Fail>
        requires below { Nests self.now.depth (F.pre self.now.part) (F.post self.now.part) }
        ensures { GivesOperand (read_rule table (read_named table) g.operation (suc self.now.depth) (ahead tokens.old)) result (ahead tokens.new) }
    {
        let first = tokens.take_one_of(&[
            Terminal::Mark(EsMark::Not),
            Terminal::Mark(EsMark::Minus),
            Terminal::Keyword(Keyword::Typeof),
        ])?;
        let expr = self.expr(tokens, Level::Unary)?;
        Ok(negated(self.alloc, Operand { first, expr })?)
    }

    #[tactic(auto, unfolding(es5_tree::specs::Grammar::Table::table, es5_tree::specs::Grammar::Expressions::deletion, es5_tree::specs::Grammar::Nodes::expr_of))]
    pub fn deletion<'a>(&self, tokens: &mut Tokens<'a>) -> Result<Operand<'a>, Fail>
        requires below { Nests self.now.depth (F.pre self.now.part) (F.post self.now.part) }
        ensures { GivesOperand (read_rule table (read_named table) g.deletion (suc self.now.depth) (ahead tokens.old)) result (ahead tokens.new) }
    {
        let first = tokens.take(Terminal::Keyword(Keyword::Delete))?;
        let value = self.expr(tokens, Level::Call)?;
        if !is_member(&value) {
            return Err(Fail::Refused);
        }
        let kind = EsKind::Delete(value);
        Ok(Operand {
            first,
            expr: expr(self.alloc, first.pos, kind)?,
        })
    }
}
