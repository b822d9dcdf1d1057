//! Any statement (ECMA-262 5.1, section 12).

ghost use Rattle.std.specs.Prelude.{◌≡◌, ◌<◌, ◌^◌, suc};
ghost use Rattle.grammar.specs.Readers.{read_named, read_rule};
ghost use Rattle.es5_tree.specs.Grammar.Names as name;
ghost use Rattle.es5_tree.specs.Grammar.Statements as g;
ghost use Rattle.es5_tree.specs.Grammar.Table.{table};
ghost use Rattle.es5_reading.specs.Gives.{ahead};
ghost use Rattle.es5_reading.specs.Loops.{plain_statement, statement_or_jump};
ghost use Rattle.es5_reading.specs.Named.{Nests, GivesBranch, GivesPart, GivesStmt, GivesStmts};

use crate::names::Parser;
use descent::Fail;
use es5_reading::making::{branch_fits, long_if, short_if};
use es5_reading::parts::{Branch, Part, Reading, Statement};
use es5_reading::tokens::Tokens;
use es5_tree::{EsMark, EsStmts, Keyword, Terminal};
use std::alloc::Global;

impl<F: Fn(Global, &mut Tokens<'_>, Part, u32) -> Result<Reading, Fail>> Parser<F> {
    #[tactic(auto, unfolding(es5_tree::specs::Grammar::Table::table, es5_tree::specs::Grammar::Statements::first_branch))]
    fn first_branch(
        &self,
        tokens: &mut Tokens<'_>,
        in_function: bool,
        in_loop: bool,
    ) -> Result<Branch, Fail>
        requires below { Nests self.now.depth (F.pre self.now.part) (F.post self.now.part) }
        ensures { GivesBranch (read_rule table (read_named table) (g.first_branch in_function in_loop) self.now.depth (ahead tokens.old)) result (ahead tokens.new) }
    {
        tokens.take(Terminal::Keyword(Keyword::If))?;
        let test = self.condition(tokens)?;
        let first = self.stmt(tokens, in_function, in_loop)?;
        Ok(Branch { test, first })
    }

    #[tactic(auto, unfolding(es5_tree::specs::Grammar::Table::table, es5_tree::specs::Grammar::Statements::if_statement, es5_tree::specs::Grammar::Statements::both_branches))]
    fn if_statement(
        &self,
        tokens: &mut Tokens<'_>,
        in_function: bool,
        in_loop: bool,
    ) -> Result<Statement, Fail>
        requires below { Nests self.now.depth (F.pre self.now.part) (F.post self.now.part) }
        requires levels { self.now.depth < 2 ^ 31 }
        ensures { GivesStmt (read_rule table (read_named table) (g.if_statement in_function in_loop) (suc self.now.depth) (ahead tokens.old)) result (ahead tokens.new) }
    {
        let branch = self.first_branch(tokens, in_function, in_loop)?;
        if !tokens.sees(Terminal::Keyword(Keyword::Else))
            || branch.first.takes_else
            || !branch_fits(&branch, self.depth)
        {
            return Ok(short_if(self.alloc, branch)?);
        }
        tokens.take(Terminal::Keyword(Keyword::Else))?;
        let second = self.stmt(tokens, in_function, in_loop)?;
        Ok(long_if(self.alloc, branch, second)?)
    }

    #[tactic(auto, unfolding(es5_tree::specs::Grammar::Table::table, es5_tree::specs::Grammar::Statements::block_statement, es5_tree::specs::Grammar::Statements::variable_statement, es5_tree::specs::Grammar::Statements::empty_statement, es5_tree::specs::Grammar::Statements::if_statement, es5_tree::specs::Grammar::Statements::both_branches, es5_tree::specs::Grammar::Statements::first_branch, es5_tree::specs::Grammar::Statements::while_statement, es5_tree::specs::Grammar::Statements::throw_statement, es5_tree::specs::Grammar::Statements::try_statement, es5_tree::specs::Grammar::Expressions::block))]
    fn plain_statement(
        &self,
        tokens: &mut Tokens<'_>,
        in_function: bool,
        in_loop: bool,
    ) -> Result<Statement, Fail>
        requires below { Nests self.now.depth (F.pre self.now.part) (F.post self.now.part) }
        requires levels { self.now.depth < 2 ^ 31 }
        ensures { GivesStmt (read_rule table (read_named table) (plain_statement in_function in_loop) (suc self.now.depth) (ahead tokens.old)) result (ahead tokens.new) }
    {
        if tokens.sees(Terminal::Mark(EsMark::OpenBrace)) {
            self.block_statement(tokens, in_function, in_loop)
        } else if tokens.sees(Terminal::Keyword(Keyword::Var)) {
            self.variable_statement(tokens)
        } else if tokens.sees(Terminal::Mark(EsMark::Semicolon)) {
            self.empty_statement(tokens)
        } else if tokens.sees(Terminal::Keyword(Keyword::If)) {
            self.if_statement(tokens, in_function, in_loop)
        } else if tokens.sees(Terminal::Keyword(Keyword::While)) {
            self.while_statement(tokens, in_function, in_loop)
        } else if tokens.sees(Terminal::Keyword(Keyword::Throw)) {
            self.throw_statement(tokens)
        } else if tokens.sees(Terminal::Keyword(Keyword::Try)) {
            self.try_statement(tokens, in_function, in_loop)
        } else {
            self.expression_statement(tokens)
        }
    }

    #[tactic(auto, unfolding(es5_tree::specs::Grammar::Table::table, es5_tree::specs::Grammar::Statements::break_statement, es5_tree::specs::Grammar::Statements::continue_statement))]
    fn statement_or_jump(
        &self,
        tokens: &mut Tokens<'_>,
        in_function: bool,
        in_loop: bool,
    ) -> Result<Statement, Fail>
        requires below { Nests self.now.depth (F.pre self.now.part) (F.post self.now.part) }
        requires levels { self.now.depth < 2 ^ 31 }
        ensures { GivesStmt (read_rule table (read_named table) (statement_or_jump in_function in_loop) (suc self.now.depth) (ahead tokens.old)) result (ahead tokens.new) }
    {
        if !in_loop {
            return self.plain_statement(tokens, in_function, in_loop);
        }
        if tokens.sees(Terminal::Keyword(Keyword::Break)) {
            self.break_statement(tokens)
        } else if tokens.sees(Terminal::Keyword(Keyword::Continue)) {
            self.continue_statement(tokens)
        } else {
            self.plain_statement(tokens, in_function, in_loop)
        }
    }

    /// Any statement.
    #[tactic(auto, unfolding(es5_tree::specs::Grammar::Table::table, es5_tree::specs::Grammar::Statements::any_statement, es5_tree::specs::Grammar::Statements::return_statement))]
    pub fn any_statement(
        &self,
        tokens: &mut Tokens<'_>,
        in_function: bool,
        in_loop: bool,
    ) -> Result<Statement, Fail>
        requires below { Nests self.now.depth (F.pre self.now.part) (F.post self.now.part) }
        requires levels { self.now.depth < 2 ^ 31 }
        ensures { GivesStmt (read_rule table (read_named table) (g.any_statement in_function in_loop) (suc self.now.depth) (ahead tokens.old)) result (ahead tokens.new) }
    {
        if in_function && tokens.sees(Terminal::Keyword(Keyword::Return)) {
            self.return_statement(tokens)
        } else {
            self.statement_or_jump(tokens, in_function, in_loop)
        }
    }

    // A statement, at the level of its node.
    #[tactic(auto, using(crate::proofs::Wholes::statement_is))]
    fn statement_here(
        &self,
        tokens: &mut Tokens<'_>,
        in_function: bool,
        in_loop: bool,
    ) -> Result<Statement, Fail>
        requires below { Nests self.now.depth (F.pre self.now.part) (F.post self.now.part) }
        requires levels { self.now.depth < 2 ^ 31 }
        ensures { GivesStmt (read_named table (suc self.now.depth) (name.statement in_function in_loop) (ahead tokens.old)) result (ahead tokens.new) }
    {
        self.any_statement(tokens, in_function, in_loop)
    }

    /// The directive and the statements behind it.
    #[tactic(auto, unfolding(es5_tree::specs::Grammar::Table::table, es5_tree::specs::Grammar::Statements::whole_script))]
    pub fn whole_script(&self, tokens: &mut Tokens<'_>) -> Result<EsStmts, Fail>
        requires below { Nests self.now.depth (F.pre self.now.part) (F.post self.now.part) }
        ensures { GivesStmts (read_rule table (read_named table) g.whole_script self.now.depth (ahead tokens.old)) result (ahead tokens.new) }
    {
        tokens.take_directive()?;
        tokens.take(Terminal::Mark(EsMark::Semicolon))?;
        self.statement_list(tokens, false, false)
    }

    /// A part, at the level of a node that is made here.
    pub fn part_here(&self, tokens: &mut Tokens<'_>, part: Part) -> Result<Reading, Fail>
        requires below { Nests self.now.depth (F.pre self.now.part) (F.post self.now.part) }
        requires levels { self.now.depth < 2 ^ 31 }
        ensures { GivesPart part (suc self.now.depth) (ahead tokens.old) result (ahead tokens.new) }
    {
        match part {
            Part::Expr(level) => {
                let expr = self.expression(tokens, level)?;
                Ok(Reading::Expr(expr))
            }
            Part::Stmt(in_function, in_loop) => {
                let stmt = self.statement_here(tokens, in_function, in_loop)?;
                Ok(Reading::Stmt(stmt))
            }
        }
    }
}
