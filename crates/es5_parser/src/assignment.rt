//! The conditional operator and assignments (ECMA-262 5.1, 11.12 and 11.13).

ghost use Rattle.std.specs.Prelude.{◌≡◌, ◌<◌, ◌^◌};
ghost use Rattle.grammar.specs.Readers.{read_named, read_rule};
ghost use Rattle.es5_tree.specs.Grammar.Expressions as g;
ghost use Rattle.es5_tree.specs.Grammar.Table.{table};
ghost use Rattle.es5_reading.specs.Gives.{ahead};
ghost use Rattle.es5_reading.specs.Loops.{conditional_behind, assigned_behind};
ghost use Rattle.es5_reading.specs.Named.{Nests, GivesChoices, GivesExpr, GivesOperand, shown_operand};

use crate::names::Parser;
use descent::Fail;
use es5_reading::making::{assigned, conditional, fits, is_target};
use es5_reading::parts::{Choices, Operand, Part, Reading};
use es5_reading::tokens::Tokens;
use es5_tree::{EsExpr, EsMark, Level, Terminal};
use std::alloc::Global;

impl<F: Fn(Global, &mut Tokens<'_>, Part, u32) -> Result<Reading, Fail>> Parser<F> {
    #[tactic(auto, unfolding(es5_tree::specs::Grammar::Table::table, es5_tree::specs::Grammar::Expressions::choices))]
    fn choices(&self, tokens: &mut Tokens<'_>) -> Result<Choices, Fail>
        requires below { Nests self.now.depth (F.pre self.now.part) (F.post self.now.part) }
        ensures { GivesChoices (read_rule table (read_named table) g.choices self.now.depth (ahead tokens.old)) result (ahead tokens.new) }
    {
        tokens.take(Terminal::Mark(EsMark::Question))?;
        let first = self.expr(tokens, Level::Assignment)?;
        tokens.take(Terminal::Mark(EsMark::Colon))?;
        let second = self.expr(tokens, Level::Assignment)?;
        Ok(Choices { first, second })
    }

    /// A `?` and what belongs to it behind its test, or the test alone.
    #[tactic(auto, unfolding(es5_tree::specs::Grammar::Table::table, es5_tree::specs::Grammar::Expressions::choices))]
    pub fn conditional<'a>(
        &self,
        tokens: &mut Tokens<'a>,
        test: Operand<'a>,
    ) -> Result<Operand<'a>, Fail>
        requires below { Nests self.now.depth (F.pre self.now.part) (F.post self.now.part) }
        requires levels { self.now.depth < 2 ^ 31 }
        ensures { GivesOperand (conditional_behind self.now.depth (shown_operand test.entry) (ahead tokens.old)) result (ahead tokens.new) }
    {
        if !tokens.sees(Terminal::Mark(EsMark::Question)) || !fits(&test, self.depth) {
            return Ok(test);
        }
        let choices = self.choices(tokens)?;
        Ok(conditional(self.alloc, test, choices)?)
    }

    #[tactic(auto, unfolding(es5_tree::specs::Grammar::Table::table, es5_tree::specs::Grammar::Expressions::assigned_part))]
    fn assigned_part(&self, tokens: &mut Tokens<'_>) -> Result<EsExpr, Fail>
        requires below { Nests self.now.depth (F.pre self.now.part) (F.post self.now.part) }
        ensures { GivesExpr (read_rule table (read_named table) g.assigned_part self.now.depth (ahead tokens.old)) result (ahead tokens.new) }
    {
        tokens.take(Terminal::Mark(EsMark::Assign))?;
        self.expr(tokens, Level::Assignment)
    }

    /// A `=` and its value behind its target, or the expression alone.
    #[tactic(auto, unfolding(es5_tree::specs::Grammar::Table::table, es5_tree::specs::Grammar::Expressions::assigned_part))]
    pub fn assigned<'a>(
        &self,
        tokens: &mut Tokens<'a>,
        target: Operand<'a>,
    ) -> Result<Operand<'a>, Fail>
        requires below { Nests self.now.depth (F.pre self.now.part) (F.post self.now.part) }
        requires levels { self.now.depth < 2 ^ 31 }
        ensures { GivesOperand (assigned_behind self.now.depth (shown_operand target.entry) (ahead tokens.old)) result (ahead tokens.new) }
    {
        if !tokens.sees(Terminal::Mark(EsMark::Assign))
            || !is_target(&target.expr)
            || !fits(&target, self.depth)
        {
            return Ok(target);
        }
        let value = self.assigned_part(tokens)?;
        Ok(assigned(self.alloc, target, value)?)
    }
}
