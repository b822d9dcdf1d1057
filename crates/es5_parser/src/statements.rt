//! Statements (ECMA-262 5.1, section 12).

ghost use Rattle.std.specs.Prelude.{◌≡◌, suc, false};
ghost use Rattle.grammar.specs.Readers.{read_named, read_rule};
ghost use Rattle.es5_tree.specs.Grammar.Statements as g;
ghost use Rattle.es5_tree.specs.Grammar.Table.{table};
ghost use Rattle.es5_reading.specs.Gives.{ahead};
ghost use Rattle.es5_reading.specs.Named.{Nests, GivesExpr, GivesStmt};

use crate::names::Parser;
use descent::Fail;
use es5_reading::making::name_of;
use es5_reading::parts::{Part, Reading, Statement};
use es5_reading::tokens::Tokens;
use es5_tree::{EsExpr, EsMark, EsStmt, Keyword, Level, Terminal};
use sqlite_items::Boxed;
use std::alloc::Global;

// A statement that no `else` goes on with.
fn closed(stmt: EsStmt) -> Statement
    ensures kept { result.stmt ≡ stmt }
    ensures closed { result.takes_else ≡ false }
{
    Statement {
        stmt,
        takes_else: false,
    }
}

impl<F: Fn(Global, &mut Tokens<'_>, Part, u32) -> Result<Reading, Fail>> Parser<F> {
    #[tactic(auto, unfolding(es5_tree::specs::Grammar::Table::table, es5_tree::specs::Grammar::Statements::ended))]
    fn ended(&self, tokens: &mut Tokens<'_>) -> Result<EsExpr, Fail>
        requires below { Nests self.now.depth (F.pre self.now.part) (F.post self.now.part) }
        ensures { GivesExpr (read_rule table (read_named table) g.ended self.now.depth (ahead tokens.old)) result (ahead tokens.new) }
    {
        let expr = self.expr(tokens, Level::Assignment)?;
        tokens.take(Terminal::Mark(EsMark::Semicolon))?;
        Ok(expr)
    }

    #[tactic(auto, unfolding(es5_tree::specs::Grammar::Table::table, es5_tree::specs::Grammar::Statements::empty_statement))]
    pub fn empty_statement(&self, tokens: &mut Tokens<'_>) -> Result<Statement, Fail>
        ensures { GivesStmt (read_rule table (read_named table) g.empty_statement (suc self.now.depth) (ahead tokens.old)) result (ahead tokens.new) }
    {
        tokens.take(Terminal::Mark(EsMark::Semicolon))?;
        Ok(closed(EsStmt::Empty))
    }

    #[tactic(auto, unfolding(es5_tree::specs::Grammar::Table::table, es5_tree::specs::Grammar::Statements::expression_statement, es5_tree::specs::Grammar::Nodes::expr_of))]
    pub fn expression_statement(&self, tokens: &mut Tokens<'_>) -> Result<Statement, Fail>
        requires below { Nests self.now.depth (F.pre self.now.part) (F.post self.now.part) }
        ensures { GivesStmt (read_rule table (read_named table) g.expression_statement (suc self.now.depth) (ahead tokens.old)) result (ahead tokens.new) }
    {
        let begins = tokens.sees_none_of(&[
            Terminal::Mark(EsMark::OpenBrace),
            Terminal::Keyword(Keyword::Function),
        ]);
        if !begins {
            return Err(Fail::Refused);
        }
        let value = self.ended(tokens)?;
        Ok(closed(EsStmt::Expr(value)))
    }

    #[tactic(auto, unfolding(es5_tree::specs::Grammar::Table::table, es5_tree::specs::Grammar::Statements::throw_statement, es5_tree::specs::Grammar::Nodes::expr_of))]
    pub fn throw_statement(&self, tokens: &mut Tokens<'_>) -> Result<Statement, Fail>
        requires below { Nests self.now.depth (F.pre self.now.part) (F.post self.now.part) }
        ensures { GivesStmt (read_rule table (read_named table) g.throw_statement (suc self.now.depth) (ahead tokens.old)) result (ahead tokens.new) }
    {
        tokens.take(Terminal::Keyword(Keyword::Throw))?;
        let value = self.ended(tokens)?;
        Ok(closed(EsStmt::Throw(value)))
    }

    #[tactic(auto, unfolding(es5_tree::specs::Grammar::Table::table, es5_tree::specs::Grammar::Statements::break_statement))]
    pub fn break_statement(&self, tokens: &mut Tokens<'_>) -> Result<Statement, Fail>
        ensures { GivesStmt (read_rule table (read_named table) g.break_statement (suc self.now.depth) (ahead tokens.old)) result (ahead tokens.new) }
    {
        tokens.take(Terminal::Keyword(Keyword::Break))?;
        tokens.take(Terminal::Mark(EsMark::Semicolon))?;
        Ok(closed(EsStmt::Break))
    }

    #[tactic(auto, unfolding(es5_tree::specs::Grammar::Table::table, es5_tree::specs::Grammar::Statements::continue_statement))]
    pub fn continue_statement(&self, tokens: &mut Tokens<'_>) -> Result<Statement, Fail>
        ensures { GivesStmt (read_rule table (read_named table) g.continue_statement (suc self.now.depth) (ahead tokens.old)) result (ahead tokens.new) }
    {
        tokens.take(Terminal::Keyword(Keyword::Continue))?;
        tokens.take(Terminal::Mark(EsMark::Semicolon))?;
        Ok(closed(EsStmt::Continue))
    }

    #[tactic(auto, unfolding(es5_tree::specs::Grammar::Table::table, es5_tree::specs::Grammar::Statements::condition))]
    pub fn condition(&self, tokens: &mut Tokens<'_>) -> Result<EsExpr, Fail>
        requires below { Nests self.now.depth (F.pre self.now.part) (F.post self.now.part) }
        ensures { GivesExpr (read_rule table (read_named table) g.condition self.now.depth (ahead tokens.old)) result (ahead tokens.new) }
    {
        tokens.take(Terminal::Mark(EsMark::OpenParen))?;
        let test = self.expr(tokens, Level::Assignment)?;
        tokens.take(Terminal::Mark(EsMark::CloseParen))?;
        Ok(test)
    }

    #[tactic(auto, unfolding(es5_tree::specs::Grammar::Table::table, es5_tree::specs::Grammar::Statements::return_statement, es5_tree::specs::Grammar::Nodes::expr_of))]
    pub fn return_statement(&self, tokens: &mut Tokens<'_>) -> Result<Statement, Fail>
        requires below { Nests self.now.depth (F.pre self.now.part) (F.post self.now.part) }
        ensures { GivesStmt (read_rule table (read_named table) g.return_statement (suc self.now.depth) (ahead tokens.old)) result (ahead tokens.new) }
    {
        tokens.take(Terminal::Keyword(Keyword::Return))?;
        if !tokens.begins_expression() {
            tokens.take(Terminal::Mark(EsMark::Semicolon))?;
            return Ok(closed(EsStmt::Return(None)));
        }
        let value = self.expr(tokens, Level::Assignment)?;
        tokens.take(Terminal::Mark(EsMark::Semicolon))?;
        Ok(closed(EsStmt::Return(Some(value))))
    }

    #[tactic(auto, unfolding(es5_tree::specs::Grammar::Table::table, es5_tree::specs::Grammar::Statements::variable_statement, es5_tree::specs::Grammar::Nodes::expr_of))]
    pub fn variable_statement(&self, tokens: &mut Tokens<'_>) -> Result<Statement, Fail>
        requires below { Nests self.now.depth (F.pre self.now.part) (F.post self.now.part) }
        ensures { GivesStmt (read_rule table (read_named table) g.variable_statement (suc self.now.depth) (ahead tokens.old)) result (ahead tokens.new) }
    {
        tokens.take(Terminal::Keyword(Keyword::Var))?;
        let name = tokens.take(Terminal::Name)?;
        let name = name_of(self.alloc, name)?;
        if !tokens.sees(Terminal::Mark(EsMark::Assign)) {
            tokens.take(Terminal::Mark(EsMark::Semicolon))?;
            return Ok(closed(EsStmt::Var(name, None)));
        }
        tokens.take(Terminal::Mark(EsMark::Assign))?;
        let value = self.expr(tokens, Level::Assignment)?;
        tokens.take(Terminal::Mark(EsMark::Semicolon))?;
        Ok(closed(EsStmt::Var(name, Some(value))))
    }

    #[tactic(auto, unfolding(es5_tree::specs::Grammar::Table::table, es5_tree::specs::Grammar::Statements::while_statement, es5_tree::specs::Grammar::Nodes::expr_of, es5_tree::specs::Grammar::Nodes::stmt_of))]
    pub fn while_statement(
        &self,
        tokens: &mut Tokens<'_>,
        in_function: bool,
        in_loop: bool,
    ) -> Result<Statement, Fail>
        requires below { Nests self.now.depth (F.pre self.now.part) (F.post self.now.part) }
        ensures { GivesStmt (read_rule table (read_named table) (g.while_statement in_function in_loop) (suc self.now.depth) (ahead tokens.old)) result (ahead tokens.new) }
    {
        let _ = in_loop;
        tokens.take(Terminal::Keyword(Keyword::While))?;
        let test = self.condition(tokens)?;
        let body = self.stmt(tokens, in_function, true)?;
        Ok(Statement {
            stmt: EsStmt::While(test, Boxed::new(self.alloc, body.stmt)?),
            takes_else: body.takes_else,
        })
    }
}
