//! Blocks and the statements that hold them (ECMA-262 5.1, 12.1 and 12.14).

ghost use Rattle.std.specs.Prelude.{◌≡◌, length, map, suc};
ghost use Rattle.grammar.specs.Checks.{first};
ghost use Rattle.grammar.specs.FormReaders.{next_in};
ghost use Rattle.grammar.specs.Readers.{read_named, read_rule};
ghost use Rattle.es5_tree.specs.Grammar.Expressions as e;
ghost use Rattle.es5_tree.specs.Grammar.Nodes.{statement};
ghost use Rattle.es5_tree.specs.Grammar.Statements as g;
ghost use Rattle.es5_tree.specs.Grammar.Table.{table};
ghost use Rattle.es5_reading.specs.Gives.{ahead};
ghost use Rattle.es5_reading.specs.Loops.{one_statement, more_statements};
ghost use Rattle.es5_reading.specs.Named.{Nests, GivesCaught, GivesHandlers, GivesStmt, GivesStmtAlone, GivesStmts};

use crate::names::Parser;
use descent::Fail;
use es5_reading::making::tried;
use es5_reading::parts::{Caught, Handlers, Part, Reading, Statement};
use es5_reading::tokens::Tokens;
use es5_tree::{EsMark, EsStmt, EsStmts, Keyword, Terminal};
use std::alloc::Global;

#[tactic(auto, unfolding(es5_tree::specs::Grammar::Table::table))]
fn begins_statement(tokens: &Tokens<'_>, in_function: bool, in_loop: bool) -> bool
    ensures { result ≡ next_in (λ t. first table (one_statement in_function in_loop) (table.code t)) (ahead tokens.now) }
{
    let _ = (in_function, in_loop);
    tokens.begins_statement()
}

impl<F: Fn(Global, &mut Tokens<'_>, Part, u32) -> Result<Reading, Fail>> Parser<F> {
    #[tactic(auto, unfolding(es5_tree::specs::Grammar::Table::table))]
    fn one_statement(
        &self,
        tokens: &mut Tokens<'_>,
        in_function: bool,
        in_loop: bool,
    ) -> Result<EsStmt, Fail>
        requires below { Nests self.now.depth (F.pre self.now.part) (F.post self.now.part) }
        ensures { GivesStmtAlone (read_rule table (read_named table) (one_statement in_function in_loop) self.now.depth (ahead tokens.old)) result (ahead tokens.new) }
    {
        let read = self.stmt(tokens, in_function, in_loop)?;
        Ok(read.stmt)
    }

    fn more_statements(
        &self,
        tokens: &mut Tokens<'_>,
        in_function: bool,
        in_loop: bool,
        found: EsStmts,
    ) -> Result<EsStmts, Fail>
        requires below { Nests self.now.depth (F.pre self.now.part) (F.post self.now.part) }
        ensures { GivesStmts (more_statements in_function in_loop (length (ahead tokens.old)) self.now.depth (map statement found) (ahead tokens.old)) result (ahead tokens.new) }
    {
        let mut found = found;
        for _turn in 0..tokens.left() {
            if !begins_statement(tokens, in_function, in_loop) {
                return Ok(found);
            }
            found.push(self.one_statement(tokens, in_function, in_loop)?)?;
        }
        Ok(found)
    }

    /// Any number of statements.
    #[tactic(auto, using(es5_reading::proofs::Stopping::many_is), unfolding(es5_tree::specs::Grammar::Table::table, es5_tree::specs::Grammar::Expressions::statement_list))]
    pub fn statement_list(
        &self,
        tokens: &mut Tokens<'_>,
        in_function: bool,
        in_loop: bool,
    ) -> Result<EsStmts, Fail>
        requires below { Nests self.now.depth (F.pre self.now.part) (F.post self.now.part) }
        ensures { GivesStmts (read_rule table (read_named table) (e.statement_list in_function in_loop) self.now.depth (ahead tokens.old)) result (ahead tokens.new) }
    {
        let found = EsStmts::new(self.alloc);
        self.more_statements(tokens, in_function, in_loop, found)
    }

    #[tactic(auto, unfolding(es5_tree::specs::Grammar::Table::table, es5_tree::specs::Grammar::Expressions::block))]
    pub fn block(
        &self,
        tokens: &mut Tokens<'_>,
        in_function: bool,
        in_loop: bool,
    ) -> Result<EsStmts, Fail>
        requires below { Nests self.now.depth (F.pre self.now.part) (F.post self.now.part) }
        ensures { GivesStmts (read_rule table (read_named table) (e.block in_function in_loop) self.now.depth (ahead tokens.old)) result (ahead tokens.new) }
    {
        tokens.take(Terminal::Mark(EsMark::OpenBrace))?;
        let body = self.statement_list(tokens, in_function, in_loop)?;
        tokens.take(Terminal::Mark(EsMark::CloseBrace))?;
        Ok(body)
    }

    #[tactic(auto, using(es5_reading::proofs::Shown::stmts_back), unfolding(es5_tree::specs::Grammar::Table::table, es5_tree::specs::Grammar::Statements::block_statement))]
    pub fn block_statement(
        &self,
        tokens: &mut Tokens<'_>,
        in_function: bool,
        in_loop: bool,
    ) -> Result<Statement, Fail>
        requires below { Nests self.now.depth (F.pre self.now.part) (F.post self.now.part) }
        ensures { GivesStmt (read_rule table (read_named table) (g.block_statement in_function in_loop) (suc self.now.depth) (ahead tokens.old)) result (ahead tokens.new) }
    {
        let body = self.block(tokens, in_function, in_loop)?;
        Ok(Statement {
            stmt: EsStmt::Block(body),
            takes_else: false,
        })
    }

    #[tactic(auto, unfolding(es5_tree::specs::Grammar::Table::table, es5_tree::specs::Grammar::Statements::catch_part))]
    fn catch_part<'a>(
        &self,
        tokens: &mut Tokens<'a>,
        in_function: bool,
        in_loop: bool,
    ) -> Result<Caught<'a>, Fail>
        requires below { Nests self.now.depth (F.pre self.now.part) (F.post self.now.part) }
        ensures { GivesCaught (read_rule table (read_named table) (g.catch_part in_function in_loop) self.now.depth (ahead tokens.old)) result (ahead tokens.new) }
    {
        tokens.take(Terminal::Keyword(Keyword::Catch))?;
        tokens.take(Terminal::Mark(EsMark::OpenParen))?;
        let name = tokens.take(Terminal::Name)?;
        tokens.take(Terminal::Mark(EsMark::CloseParen))?;
        let body = self.block(tokens, in_function, in_loop)?;
        Ok(Caught { name, body })
    }

    #[tactic(auto, unfolding(es5_tree::specs::Grammar::Table::table, es5_tree::specs::Grammar::Statements::finally_part))]
    fn finally_part(
        &self,
        tokens: &mut Tokens<'_>,
        in_function: bool,
        in_loop: bool,
    ) -> Result<EsStmts, Fail>
        requires below { Nests self.now.depth (F.pre self.now.part) (F.post self.now.part) }
        ensures { GivesStmts (read_rule table (read_named table) (g.finally_part in_function in_loop) self.now.depth (ahead tokens.old)) result (ahead tokens.new) }
    {
        tokens.take(Terminal::Keyword(Keyword::Finally))?;
        self.block(tokens, in_function, in_loop)
    }

    #[tactic(auto, unfolding(es5_tree::specs::Grammar::Table::table, es5_tree::specs::Grammar::Statements::handlers, es5_tree::specs::Grammar::Statements::catch_part, es5_tree::specs::Grammar::Statements::finally_part))]
    fn handlers<'a>(
        &self,
        tokens: &mut Tokens<'a>,
        in_function: bool,
        in_loop: bool,
    ) -> Result<Handlers<'a>, Fail>
        requires below { Nests self.now.depth (F.pre self.now.part) (F.post self.now.part) }
        ensures { GivesHandlers (read_rule table (read_named table) (g.handlers in_function in_loop) self.now.depth (ahead tokens.old)) result (ahead tokens.new) }
    {
        if !tokens.sees(Terminal::Keyword(Keyword::Catch)) {
            let finally = self.finally_part(tokens, in_function, in_loop)?;
            return Ok(Handlers {
                catch: None,
                finally: Some(finally),
            });
        }
        let catch = Some(self.catch_part(tokens, in_function, in_loop)?);
        if !tokens.sees(Terminal::Keyword(Keyword::Finally)) {
            return Ok(Handlers {
                catch,
                finally: None,
            });
        }
        let finally = Some(self.finally_part(tokens, in_function, in_loop)?);
        Ok(Handlers { catch, finally })
    }

    #[tactic(auto, unfolding(es5_tree::specs::Grammar::Table::table, es5_tree::specs::Grammar::Statements::try_statement))]
    pub fn try_statement(
        &self,
        tokens: &mut Tokens<'_>,
        in_function: bool,
        in_loop: bool,
    ) -> Result<Statement, Fail>
        requires below { Nests self.now.depth (F.pre self.now.part) (F.post self.now.part) }
        ensures { GivesStmt (read_rule table (read_named table) (g.try_statement in_function in_loop) (suc self.now.depth) (ahead tokens.old)) result (ahead tokens.new) }
    {
        tokens.take(Terminal::Keyword(Keyword::Try))?;
        let body = self.block(tokens, in_function, in_loop)?;
        let handlers = self.handlers(tokens, in_function, in_loop)?;
        let stmt = tried(self.alloc, body, handlers)?;
        Ok(Statement {
            stmt,
            takes_else: false,
        })
    }
}
