//! Object literals (ECMA-262 5.1, 11.1.5).

ghost use Rattle.std.specs.Prelude.{◌≡◌, [], length, map, suc};
ghost use Rattle.grammar.specs.FormReaders.{and_then};
ghost use Rattle.grammar.specs.Readers.{read_named, read_rule};
ghost use Rattle.es5_tree.specs.Grammar.Expressions as g;
ghost use Rattle.es5_tree.specs.Grammar.Nodes.{expression};
ghost use Rattle.es5_tree.specs.Grammar.Table.{table};
ghost use Rattle.es5_reading.specs.Gives.{ahead};
ghost use Rattle.es5_reading.specs.Named.{Nests, GivesOperand};
ghost use Rattle.es5_parser.specs.Lists as spec;
ghost use Rattle.es5_parser.specs.Lists.{GivesPair, GivesPairs};

use crate::names::Parser;
use descent::Fail;
use es5_reading::making::{add_name, expr, name_of};
use es5_reading::parts::{Operand, Part, Reading};
use es5_reading::tokens::Tokens;
use es5_tree::{EsExpr, EsKind, EsMark, Level, Terminal};
use name_set::NameSet;
use opal_base::Units;
use sqlite_items::Items;
use std::alloc::Global;

/// A key and its value.
#[derive(Drop)]
pub struct Pair {
    pub key: Units,
    pub value: EsExpr,
}

/// Keys, and as many values.
#[derive(Drop)]
pub struct Pairs {
    pub keys: NameSet,
    pub values: Items<EsExpr>,
}

impl<F: Fn(Global, &mut Tokens<'_>, Part, u32) -> Result<Reading, Fail>> Parser<F> {
    #[tactic(auto, unfolding(crate::specs::Lists::next_pair))]
    fn next_pair(&self, tokens: &mut Tokens<'_>, keys: &NameSet) -> Result<Pair, Fail>
        requires below { Nests self.now.depth (F.pre self.now.part) (F.post self.now.part) }
        ensures { GivesPair (spec.next_pair self.now.depth keys.now (ahead tokens.old)) result (ahead tokens.new) }
    {
        let key = tokens.take_new(&[Terminal::Name, Terminal::Arguments], keys)?;
        tokens.take(Terminal::Mark(EsMark::Colon))?;
        let value = self.expr(tokens, Level::Assignment)?;
        Ok(Pair {
            key: name_of(self.alloc, key)?,
            value,
        })
    }

    fn pairs(&self, tokens: &mut Tokens<'_>) -> Result<Pairs, Fail>
        requires below { Nests self.now.depth (F.pre self.now.part) (F.post self.now.part) }
        ensures { GivesPairs (spec.pairs_from (length (ahead tokens.old)) self.now.depth [] [] (ahead tokens.old)) result (ahead tokens.new) }
    {
        let mut keys = NameSet::new(self.alloc);
        let mut values = Items::new(self.alloc);
        for _turn in 0..tokens.left() {
            if !tokens.sees_one_of(&[Terminal::Name, Terminal::Arguments]) {
                return Ok(Pairs { keys, values });
            }
            let pair = self.next_pair(tokens, &keys)?;
            add_name(&mut keys, &pair.key)?;
            values.push(pair.value)?;
            if !tokens.sees(Terminal::Mark(EsMark::Comma)) {
                return Ok(Pairs { keys, values });
            }
            tokens.take(Terminal::Mark(EsMark::Comma))?;
        }
        Ok(Pairs { keys, values })
    }

    /// `{` pairs `}`
    #[tactic(auto, using(crate::proofs::Pairs::object_is, es5_reading::proofs::Shown::exprs_back))]
    pub fn object_literal<'a>(&self, tokens: &mut Tokens<'a>) -> Result<Operand<'a>, Fail>
        requires below { Nests self.now.depth (F.pre self.now.part) (F.post self.now.part) }
        ensures { GivesOperand (read_rule table (read_named table) g.object_literal (suc self.now.depth) (ahead tokens.old)) result (ahead tokens.new) }
    {
        let first = tokens.take(Terminal::Mark(EsMark::OpenBrace))?;
        let Pairs { keys, values } = self.pairs(tokens)?;
        tokens.take(Terminal::Mark(EsMark::CloseBrace))?;
        let keys = keys.to_names(self.alloc)?;
        let kind = EsKind::Object { keys, values };
        Ok(Operand {
            first,
            expr: expr(self.alloc, first.pos, kind)?,
        })
    }
}
