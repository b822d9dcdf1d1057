//! Arrays (ECMA-262 5.1, 11.1.4).

ghost use Rattle.std.specs.Prelude.{◌≡◌, length, map, suc};
ghost use Rattle.grammar.specs.Readers.{read_named, read_rule};
ghost use Rattle.es5_tree.specs.Grammar.Expressions as g;
ghost use Rattle.es5_tree.specs.Grammar.Nodes.{expression};
ghost use Rattle.es5_tree.specs.Grammar.Table.{table};
ghost use Rattle.es5_reading.specs.Gives.{ahead};
ghost use Rattle.es5_reading.specs.Loops.{items_from};
ghost use Rattle.es5_reading.specs.Named.{Nests, GivesExprs, GivesOperand};

use crate::names::Parser;
use descent::Fail;
use es5_reading::making::expr;
use es5_reading::parts::{Operand, Part, Reading};
use es5_reading::tokens::Tokens;
use es5_tree::{EsExpr, EsKind, EsMark, Level, Terminal};
use sqlite_items::Items;
use std::alloc::Global;

impl<F: Fn(Global, &mut Tokens<'_>, Part, u32) -> Result<Reading, Fail>> Parser<F> {
    fn items(&self, tokens: &mut Tokens<'_>, found: Items<EsExpr>) -> Result<Items<EsExpr>, Fail>
        requires below { Nests self.now.depth (F.pre self.now.part) (F.post self.now.part) }
        ensures { GivesExprs (items_from (length (ahead tokens.old)) self.now.depth (map expression found) (ahead tokens.old)) result (ahead tokens.new) }
    {
        let mut found = found;
        for _turn in 0..tokens.left() {
            if !tokens.begins_expression() {
                return Ok(found);
            }
            found.push(self.expr(tokens, Level::Assignment)?)?;
            if !tokens.sees(Terminal::Mark(EsMark::Comma)) {
                return Ok(found);
            }
            tokens.take(Terminal::Mark(EsMark::Comma))?;
        }
        Ok(found)
    }

    #[tactic(auto, using(crate::proofs::Items::items_all))]
    fn item_list(&self, tokens: &mut Tokens<'_>) -> Result<Items<EsExpr>, Fail>
        requires below { Nests self.now.depth (F.pre self.now.part) (F.post self.now.part) }
        ensures { GivesExprs (read_rule table (read_named table) g.item_list self.now.depth (ahead tokens.old)) result (ahead tokens.new) }
    {
        let found = Items::new(self.alloc);
        self.items(tokens, found)
    }

    /// `[` items `]`
    #[tactic(auto, using(es5_reading::proofs::Shown::exprs_back), unfolding(es5_tree::specs::Grammar::Table::table, es5_tree::specs::Grammar::Expressions::array))]
    pub fn array<'a>(&self, tokens: &mut Tokens<'a>) -> Result<Operand<'a>, Fail>
        requires below { Nests self.now.depth (F.pre self.now.part) (F.post self.now.part) }
        ensures { GivesOperand (read_rule table (read_named table) g.array (suc self.now.depth) (ahead tokens.old)) result (ahead tokens.new) }
    {
        let first = tokens.take(Terminal::Mark(EsMark::OpenBracket))?;
        let items = self.item_list(tokens)?;
        tokens.take(Terminal::Mark(EsMark::CloseBracket))?;
        let kind = EsKind::Array(items);
        Ok(Operand {
            first,
            expr: expr(self.alloc, first.pos, kind)?,
        })
    }
}
