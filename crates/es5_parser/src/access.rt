//! Members, indices and calls (ECMA-262 5.1, 11.2).

ghost use Rattle.std.specs.Prelude.{◌≡◌, ◌<◌, ◌^◌, length, map};
ghost use Rattle.grammar.specs.Checks.{first};
ghost use Rattle.grammar.specs.FormReaders.{next_in};
ghost use Rattle.grammar.specs.Readers.{read_named, read_rule};
ghost use Rattle.es5_tree.specs.Grammar.Expressions as g;
ghost use Rattle.es5_tree.specs.Grammar.Nodes.{expression};
ghost use Rattle.es5_tree.specs.Grammar.Table.{table};
ghost use Rattle.es5_reading.specs.Gives.{ahead};
ghost use Rattle.es5_reading.specs.Loops.{accesses, next_argument, more_arguments};
ghost use Rattle.es5_reading.specs.Named.{Nests, GivesAccess, GivesExpr, GivesExprs, GivesOperand, shown_operand};

use crate::names::Parser;
use descent::Fail;
use es5_reading::making::{accessed, fits};
use es5_reading::parts::{Access, Operand, Part, Reading};
use es5_reading::tokens::Tokens;
use es5_tree::{EsExpr, EsMark, Level, Terminal};
use sqlite_items::Items;
use std::alloc::Global;

#[tactic(auto, unfolding(es5_tree::specs::Grammar::Table::table, es5_tree::specs::Grammar::Expressions::access_part, es5_tree::specs::Grammar::Expressions::member_part, es5_tree::specs::Grammar::Expressions::index_part, es5_tree::specs::Grammar::Expressions::call_part))]
fn sees_access(tokens: &Tokens<'_>) -> bool
    ensures { result ≡ next_in (λ t. first table g.access_part (table.code t)) (ahead tokens.now) }
{
    tokens.sees_access()
}

impl<F: Fn(Global, &mut Tokens<'_>, Part, u32) -> Result<Reading, Fail>> Parser<F> {
    #[tactic(auto, unfolding(es5_tree::specs::Grammar::Table::table, es5_tree::specs::Grammar::Expressions::member_part))]
    fn member_part<'a>(&self, tokens: &mut Tokens<'a>) -> Result<Access<'a>, Fail>
        ensures { GivesAccess (read_rule table (read_named table) g.member_part self.now.depth (ahead tokens.old)) result (ahead tokens.new) }
    {
        tokens.take(Terminal::Mark(EsMark::Dot))?;
        let name = tokens.take_one_of(&[Terminal::Name, Terminal::Arguments])?;
        Ok(Access::Member(name))
    }

    #[tactic(auto, unfolding(es5_tree::specs::Grammar::Table::table, es5_tree::specs::Grammar::Expressions::index_part))]
    fn index_part<'a>(&self, tokens: &mut Tokens<'a>) -> Result<Access<'a>, Fail>
        requires below { Nests self.now.depth (F.pre self.now.part) (F.post self.now.part) }
        ensures { GivesAccess (read_rule table (read_named table) g.index_part self.now.depth (ahead tokens.old)) result (ahead tokens.new) }
    {
        let open = tokens.take(Terminal::Mark(EsMark::OpenBracket))?;
        let key = self.expr(tokens, Level::Assignment)?;
        tokens.take(Terminal::Mark(EsMark::CloseBracket))?;
        Ok(Access::Index(open, key))
    }

    #[tactic(auto, unfolding(es5_tree::specs::Grammar::Table::table))]
    fn next_argument(&self, tokens: &mut Tokens<'_>) -> Result<EsExpr, Fail>
        requires below { Nests self.now.depth (F.pre self.now.part) (F.post self.now.part) }
        ensures { GivesExpr (read_rule table (read_named table) next_argument self.now.depth (ahead tokens.old)) result (ahead tokens.new) }
    {
        tokens.take(Terminal::Mark(EsMark::Comma))?;
        self.expr(tokens, Level::Assignment)
    }

    fn more_arguments(
        &self,
        tokens: &mut Tokens<'_>,
        found: Items<EsExpr>,
    ) -> Result<Items<EsExpr>, Fail>
        requires below { Nests self.now.depth (F.pre self.now.part) (F.post self.now.part) }
        ensures { GivesExprs (more_arguments (length (ahead tokens.old)) self.now.depth (map expression found) (ahead tokens.old)) result (ahead tokens.new) }
    {
        let mut found = found;
        for _turn in 0..tokens.left() {
            if !sees_comma(tokens) {
                return Ok(found);
            }
            found.push(self.next_argument(tokens)?)?;
        }
        Ok(found)
    }

    #[tactic(auto, using(grammar::proofs::Loops::read_many_from_is), unfolding(es5_tree::specs::Grammar::Table::table, es5_tree::specs::Grammar::Expressions::arguments))]
    fn arguments(&self, tokens: &mut Tokens<'_>) -> Result<Items<EsExpr>, Fail>
        requires below { Nests self.now.depth (F.pre self.now.part) (F.post self.now.part) }
        ensures { GivesExprs (read_rule table (read_named table) g.arguments self.now.depth (ahead tokens.old)) result (ahead tokens.new) }
    {
        let mut found = Items::new(self.alloc);
        if !tokens.begins_expression() {
            return Ok(found);
        }
        found.push(self.expr(tokens, Level::Assignment)?)?;
        self.more_arguments(tokens, found)
    }

    #[tactic(auto, unfolding(es5_tree::specs::Grammar::Table::table, es5_tree::specs::Grammar::Expressions::call_part))]
    fn call_part<'a>(&self, tokens: &mut Tokens<'a>) -> Result<Access<'a>, Fail>
        requires below { Nests self.now.depth (F.pre self.now.part) (F.post self.now.part) }
        ensures { GivesAccess (read_rule table (read_named table) g.call_part self.now.depth (ahead tokens.old)) result (ahead tokens.new) }
    {
        let open = tokens.take(Terminal::Mark(EsMark::OpenParen))?;
        let args = self.arguments(tokens)?;
        tokens.take(Terminal::Mark(EsMark::CloseParen))?;
        Ok(Access::Call(open, args))
    }

    #[tactic(auto, unfolding(es5_tree::specs::Grammar::Table::table, es5_tree::specs::Grammar::Expressions::access_part, es5_tree::specs::Grammar::Expressions::member_part, es5_tree::specs::Grammar::Expressions::index_part, es5_tree::specs::Grammar::Expressions::call_part))]
    fn access_part<'a>(&self, tokens: &mut Tokens<'a>) -> Result<Access<'a>, Fail>
        requires below { Nests self.now.depth (F.pre self.now.part) (F.post self.now.part) }
        ensures { GivesAccess (read_rule table (read_named table) g.access_part self.now.depth (ahead tokens.old)) result (ahead tokens.new) }
    {
        if tokens.sees(Terminal::Mark(EsMark::Dot)) {
            self.member_part(tokens)
        } else if tokens.sees(Terminal::Mark(EsMark::OpenBracket)) {
            self.index_part(tokens)
        } else {
            self.call_part(tokens)
        }
    }

    /// The members, indices and calls behind a value.
    pub fn accesses<'a>(
        &self,
        tokens: &mut Tokens<'a>,
        value: Operand<'a>,
    ) -> Result<Operand<'a>, Fail>
        requires below { Nests self.now.depth (F.pre self.now.part) (F.post self.now.part) }
        requires levels { self.now.depth < 2 ^ 31 }
        ensures { GivesOperand (accesses (length (ahead tokens.old)) self.now.depth (shown_operand value.entry) (ahead tokens.old)) result (ahead tokens.new) }
    {
        let mut value = value;
        for _turn in 0..tokens.left() {
            if !sees_access(tokens) || !fits(&value, self.depth) {
                return Ok(value);
            }
            let access = self.access_part(tokens)?;
            value = accessed(self.alloc, value, access)?;
        }
        Ok(value)
    }
}

#[tactic(auto, unfolding(es5_tree::specs::Grammar::Table::table))]
fn sees_comma(tokens: &Tokens<'_>) -> bool
    ensures { result ≡ next_in (λ t. first table next_argument (table.code t)) (ahead tokens.now) }
{
    tokens.sees(Terminal::Mark(EsMark::Comma))
}
