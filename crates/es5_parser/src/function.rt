//! Function expressions (ECMA-262 5.1, 13).

ghost use Rattle.std.specs.Prelude.{◌≡◌, [], length, suc};
ghost use Rattle.grammar.specs.Readers.{read_named, read_rule};
ghost use Rattle.es5_tree.specs.Grammar.Expressions as g;
ghost use Rattle.es5_tree.specs.Grammar.Table.{table};
ghost use Rattle.es5_reading.specs.Gives.{ahead};
ghost use Rattle.es5_reading.specs.Named.{Nests, GivesOperand};
ghost use Rattle.es5_parser.specs.Lists as spec;
ghost use Rattle.es5_parser.specs.Lists.{GivesName, GivesNames};

use crate::names::Parser;
use descent::Fail;
use es5_reading::making::{add_name, expr, name_of};
use es5_reading::parts::{Operand, Part, Reading};
use es5_reading::tokens::Tokens;
use es5_tree::{EsKind, EsMark, Keyword, Terminal};
use name_set::NameSet;
use opal_base::{Names, Units};
use std::alloc::Global;

// Names between commas, none twice.
fn names(alloc: Global, tokens: &mut Tokens<'_>) -> Result<NameSet, Fail>
    ensures { GivesNames (spec.params_from (length (ahead tokens.old)) [] (ahead tokens.old)) result (ahead tokens.new) }
{
    let mut found = NameSet::new(alloc);
    for _turn in 0..tokens.left() {
        let name = tokens.take_new(&[Terminal::Name], &found)?;
        add_name(&mut found, &name_of(alloc, name)?)?;
        if !tokens.sees(Terminal::Mark(EsMark::Comma)) {
            return Ok(found);
        }
        tokens.take(Terminal::Mark(EsMark::Comma))?;
    }
    Err(Fail::Refused)
}

#[tactic(auto, unfolding(crate::specs::Lists::some_params))]
fn some_names(alloc: Global, tokens: &mut Tokens<'_>) -> Result<NameSet, Fail>
    ensures { GivesNames (spec.some_params (ahead tokens.old)) result (ahead tokens.new) }
{
    if !tokens.sees(Terminal::Name) {
        return Ok(NameSet::new(alloc));
    }
    names(alloc, tokens)
}

// `(` names `)`
#[tactic(auto, unfolding(crate::specs::Lists::parameters))]
fn parameters(alloc: Global, tokens: &mut Tokens<'_>) -> Result<Names, Fail>
    ensures { GivesNames (spec.parameters (ahead tokens.old)) result (ahead tokens.new) }
{
    tokens.take(Terminal::Mark(EsMark::OpenParen))?;
    let names = some_names(alloc, tokens)?;
    tokens.take(Terminal::Mark(EsMark::CloseParen))?;
    Ok(names.to_names(alloc)?)
}

// The name of a function, where there is one.
#[tactic(auto, unfolding(crate::specs::Lists::own_name))]
fn own_name(alloc: Global, tokens: &mut Tokens<'_>) -> Result<Option<Units>, Fail>
    ensures { GivesName (spec.own_name (ahead tokens.old)) result (ahead tokens.new) }
{
    if !tokens.sees(Terminal::Name) {
        return Ok(None);
    }
    let name = tokens.take(Terminal::Name)?;
    Ok(Some(name_of(alloc, name)?))
}

impl<F: Fn(Global, &mut Tokens<'_>, Part, u32) -> Result<Reading, Fail>> Parser<F> {
    /// `function`, a name or none, `(` parameters `)` and a block
    #[tactic(auto, using(crate::proofs::Params::function_is, es5_reading::proofs::Shown::stmts_back))]
    pub fn function_expression<'a>(&self, tokens: &mut Tokens<'a>) -> Result<Operand<'a>, Fail>
        requires below { Nests self.now.depth (F.pre self.now.part) (F.post self.now.part) }
        ensures { GivesOperand (read_rule table (read_named table) g.function_expression (suc self.now.depth) (ahead tokens.old)) result (ahead tokens.new) }
    {
        let first = tokens.take(Terminal::Keyword(Keyword::Function))?;
        let name = own_name(self.alloc, tokens)?;
        let params = parameters(self.alloc, tokens)?;
        let body = self.block(tokens, true, false)?;
        let kind = EsKind::Function { name, params, body };
        Ok(Operand {
            first,
            expr: expr(self.alloc, first.pos, kind)?,
        })
    }
}
