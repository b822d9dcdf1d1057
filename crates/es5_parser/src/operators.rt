//! Binary operators (ECMA-262 5.1, 11.5 to 11.11).

ghost use Rattle.std.specs.Prelude.{◌≡◌, ◌<◌, ◌^◌, length};
ghost use Rattle.grammar.specs.Checks.{first};
ghost use Rattle.grammar.specs.FormReaders.{next_in};
ghost use Rattle.grammar.specs.Readers.{read_named, read_rule};
ghost use Rattle.es5_tree.specs.Grammar.Expressions as g;
ghost use Rattle.es5_tree.specs.Grammar.Table.{table};
ghost use Rattle.es5_reading.specs.Gives.{ahead};
ghost use Rattle.es5_reading.specs.Loops.{binary_part, binaries, logical_part, logicals};
ghost use Rattle.es5_reading.specs.Named.{Nests, GivesExpr, GivesOperand, shown_operand};

use crate::names::Parser;
use descent::Fail;
use es5_reading::making::{binary, fits, joined};
use es5_reading::parts::{Binary, Logical, Operand, Part, Reading};
use es5_reading::tokens::Tokens;
use es5_tree::{EsExpr, EsMark, Level, Terminal};
use std::alloc::Global;

#[tactic(auto, unfolding(es5_tree::specs::Grammar::Table::table, es5_tree::specs::Grammar::Expressions::product_part, es5_tree::specs::Grammar::Expressions::sum_part, es5_tree::specs::Grammar::Expressions::relation_part, es5_tree::specs::Grammar::Expressions::equality_part))]
fn sees_binary(tokens: &Tokens<'_>, which: Binary) -> bool
    ensures { result ≡ next_in (λ t. first table (binary_part which) (table.code t)) (ahead tokens.now) }
{
    match which {
        Binary::Product => tokens.sees_one_of(&[
            Terminal::Mark(EsMark::Times),
            Terminal::Mark(EsMark::Divide),
            Terminal::Mark(EsMark::Remainder),
        ]),
        Binary::Sum => tokens.sees_one_of(&[
            Terminal::Mark(EsMark::Plus),
            Terminal::Mark(EsMark::Minus),
        ]),
        Binary::Relation => tokens.sees_one_of(&[
            Terminal::Mark(EsMark::Less),
            Terminal::Mark(EsMark::Greater),
            Terminal::Mark(EsMark::LessOrEqual),
            Terminal::Mark(EsMark::GreaterOrEqual),
        ]),
        Binary::Equality => tokens.sees_one_of(&[
            Terminal::Mark(EsMark::Same),
            Terminal::Mark(EsMark::Different),
        ]),
    }
}

#[tactic(auto, unfolding(es5_tree::specs::Grammar::Table::table, es5_tree::specs::Grammar::Expressions::and_part, es5_tree::specs::Grammar::Expressions::or_part))]
fn sees_logical(tokens: &Tokens<'_>, which: Logical) -> bool
    ensures { result ≡ next_in (λ t. first table (logical_part which) (table.code t)) (ahead tokens.now) }
{
    match which {
        Logical::And => tokens.sees(Terminal::Mark(EsMark::And)),
        Logical::Or => tokens.sees(Terminal::Mark(EsMark::Or)),
    }
}

impl<F: Fn(Global, &mut Tokens<'_>, Part, u32) -> Result<Reading, Fail>> Parser<F> {
    #[tactic(auto, unfolding(es5_tree::specs::Grammar::Table::table, es5_tree::specs::Grammar::Expressions::product_part))]
    fn product_part<'a>(&self, tokens: &mut Tokens<'a>) -> Result<Operand<'a>, Fail>
        requires below { Nests self.now.depth (F.pre self.now.part) (F.post self.now.part) }
        ensures { GivesOperand (read_rule table (read_named table) g.product_part self.now.depth (ahead tokens.old)) result (ahead tokens.new) }
    {
        let first = tokens.take_one_of(&[
            Terminal::Mark(EsMark::Times),
            Terminal::Mark(EsMark::Divide),
            Terminal::Mark(EsMark::Remainder),
        ])?;
        let expr = self.expr(tokens, Level::Unary)?;
        Ok(Operand { first, expr })
    }

    #[tactic(auto, unfolding(es5_tree::specs::Grammar::Table::table, es5_tree::specs::Grammar::Expressions::sum_part))]
    fn sum_part<'a>(&self, tokens: &mut Tokens<'a>) -> Result<Operand<'a>, Fail>
        requires below { Nests self.now.depth (F.pre self.now.part) (F.post self.now.part) }
        ensures { GivesOperand (read_rule table (read_named table) g.sum_part self.now.depth (ahead tokens.old)) result (ahead tokens.new) }
    {
        let first = tokens.take_one_of(&[
            Terminal::Mark(EsMark::Plus),
            Terminal::Mark(EsMark::Minus),
        ])?;
        let expr = self.expr(tokens, Level::Multiplicative)?;
        Ok(Operand { first, expr })
    }

    #[tactic(auto, unfolding(es5_tree::specs::Grammar::Table::table, es5_tree::specs::Grammar::Expressions::relation_part))]
    fn relation_part<'a>(&self, tokens: &mut Tokens<'a>) -> Result<Operand<'a>, Fail>
        requires below { Nests self.now.depth (F.pre self.now.part) (F.post self.now.part) }
        ensures { GivesOperand (read_rule table (read_named table) g.relation_part self.now.depth (ahead tokens.old)) result (ahead tokens.new) }
    {
        let first = tokens.take_one_of(&[
            Terminal::Mark(EsMark::Less),
            Terminal::Mark(EsMark::Greater),
            Terminal::Mark(EsMark::LessOrEqual),
            Terminal::Mark(EsMark::GreaterOrEqual),
        ])?;
        let expr = self.expr(tokens, Level::Additive)?;
        Ok(Operand { first, expr })
    }

    #[tactic(auto, unfolding(es5_tree::specs::Grammar::Table::table, es5_tree::specs::Grammar::Expressions::equality_part))]
    fn equality_part<'a>(&self, tokens: &mut Tokens<'a>) -> Result<Operand<'a>, Fail>
        requires below { Nests self.now.depth (F.pre self.now.part) (F.post self.now.part) }
        ensures { GivesOperand (read_rule table (read_named table) g.equality_part self.now.depth (ahead tokens.old)) result (ahead tokens.new) }
    {
        let first = tokens.take_one_of(&[
            Terminal::Mark(EsMark::Same),
            Terminal::Mark(EsMark::Different),
        ])?;
        let expr = self.expr(tokens, Level::Relational)?;
        Ok(Operand { first, expr })
    }

    fn binary_part<'a>(&self, tokens: &mut Tokens<'a>, which: Binary) -> Result<Operand<'a>, Fail>
        requires below { Nests self.now.depth (F.pre self.now.part) (F.post self.now.part) }
        ensures { GivesOperand (read_rule table (read_named table) (binary_part which) self.now.depth (ahead tokens.old)) result (ahead tokens.new) }
    {
        match which {
            Binary::Product => self.product_part(tokens),
            Binary::Sum => self.sum_part(tokens),
            Binary::Relation => self.relation_part(tokens),
            Binary::Equality => self.equality_part(tokens),
        }
    }

    /// The operators of a level and their right operands behind a left one.
    pub fn binaries<'a>(
        &self,
        tokens: &mut Tokens<'a>,
        which: Binary,
        left: Operand<'a>,
    ) -> Result<Operand<'a>, Fail>
        requires below { Nests self.now.depth (F.pre self.now.part) (F.post self.now.part) }
        requires levels { self.now.depth < 2 ^ 31 }
        ensures { GivesOperand (binaries which (length (ahead tokens.old)) self.now.depth (shown_operand left.entry) (ahead tokens.old)) result (ahead tokens.new) }
    {
        let mut left = left;
        for _turn in 0..tokens.left() {
            if !sees_binary(tokens, which) || !fits(&left, self.depth) {
                return Ok(left);
            }
            let part = self.binary_part(tokens, which)?;
            left = binary(self.alloc, left, part)?;
        }
        Ok(left)
    }

    #[tactic(auto, unfolding(es5_tree::specs::Grammar::Table::table, es5_tree::specs::Grammar::Expressions::and_part, es5_tree::specs::Grammar::Expressions::or_part))]
    fn logical_part(&self, tokens: &mut Tokens<'_>, which: Logical) -> Result<EsExpr, Fail>
        requires below { Nests self.now.depth (F.pre self.now.part) (F.post self.now.part) }
        ensures { GivesExpr (read_rule table (read_named table) (logical_part which) self.now.depth (ahead tokens.old)) result (ahead tokens.new) }
    {
        match which {
            Logical::And => {
                tokens.take(Terminal::Mark(EsMark::And))?;
                self.expr(tokens, Level::Equality)
            }
            Logical::Or => {
                tokens.take(Terminal::Mark(EsMark::Or))?;
                self.expr(tokens, Level::And)
            }
        }
    }

    /// `&&` or `||` and the right operands behind a left one.
    pub fn logicals<'a>(
        &self,
        tokens: &mut Tokens<'a>,
        which: Logical,
        left: Operand<'a>,
    ) -> Result<Operand<'a>, Fail>
        requires below { Nests self.now.depth (F.pre self.now.part) (F.post self.now.part) }
        requires levels { self.now.depth < 2 ^ 31 }
        ensures { GivesOperand (logicals which (length (ahead tokens.old)) self.now.depth (shown_operand left.entry) (ahead tokens.old)) result (ahead tokens.new) }
    {
        let mut left = left;
        for _turn in 0..tokens.left() {
            if !sees_logical(tokens, which) || !fits(&left, self.depth) {
                return Ok(left);
            }
            let right = self.logical_part(tokens, which)?;
            left = joined(self.alloc, which, left, right)?;
        }
        Ok(left)
    }
}
