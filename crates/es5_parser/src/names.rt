//! The parts of the grammar that hold one another. The functions of the others take the one that
//! reads those as a parameter, so that each is proved by itself.

ghost use Rattle.std.specs.Prelude.{◌≡◌, ◌<◌, ◌^◌};
ghost use Rattle.es5_tree.specs.Grammar.Names as name;
ghost use Rattle.es5_tree.specs.Grammar.Table.{table};
ghost use Rattle.grammar.specs.Readers.{read_named};
ghost use Rattle.es5_reading.specs.Gives.{ahead};
ghost use Rattle.es5_reading.specs.Named.{Nests, GivesExpr, GivesStmt};

use descent::Fail;
use es5_reading::parts::{Part, Reading, Statement};
use es5_reading::tokens::Tokens;
use es5_tree::{EsExpr, Level};
use std::alloc::Global;

/// Reads the rules of the grammar, where a node that is made here has `depth` levels below it.
#[derive(Clone, Copy)]
pub struct Parser<F> {
    pub alloc: Global,
    pub depth: u32,
    pub part: F,
}

impl<F: Fn(Global, &mut Tokens<'_>, Part, u32) -> Result<Reading, Fail>> Parser<F> {
    /// An expression of a level, under a node.
    pub fn expr(&self, tokens: &mut Tokens<'_>, level: Level) -> Result<EsExpr, Fail>
        requires below { Nests self.now.depth (F.pre self.now.part) (F.post self.now.part) }
        ensures { GivesExpr (read_named table self.now.depth (name.expr level) (ahead tokens.old)) result (ahead tokens.new) }
    {
        match (self.part)(self.alloc, tokens, Part::Expr(level), self.depth) {
            Ok(Reading::Expr(expr)) => Ok(expr),
            Ok(_) => Err(Fail::Refused),
            Err(fail) => Err(fail),
        }
    }

    /// A statement, under a node.
    pub fn stmt(
        &self,
        tokens: &mut Tokens<'_>,
        in_function: bool,
        in_loop: bool,
    ) -> Result<Statement, Fail>
        requires below { Nests self.now.depth (F.pre self.now.part) (F.post self.now.part) }
        ensures { GivesStmt (read_named table self.now.depth (name.statement in_function in_loop) (ahead tokens.old)) result (ahead tokens.new) }
    {
        match (self.part)(
            self.alloc,
            tokens,
            Part::Stmt(in_function, in_loop),
            self.depth,
        ) {
            Ok(Reading::Stmt(stmt)) => Ok(stmt),
            Ok(_) => Err(Fail::Refused),
            Err(fail) => Err(fail),
        }
    }
}
