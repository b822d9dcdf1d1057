//! What stands on the right of an assignment.

ghost use Rattle.std.specs.Prelude.{◌≡◌, suc};
ghost use Rattle.ruby_meaning.specs.Grammar.Expressions as g;
ghost use Rattle.ruby_expressions.specs.Assignments as spec;
ghost use Rattle.ruby_reading.specs.Named.{Nests, ReadsValue};

use crate::assignment::Right;
use crate::command::commanding;
use descent::Fail;
use ruby_meaning::{Mark, Part, Sign};
use ruby_parameters::{list_behind, splat_list};
use ruby_reading::{Cursor, Parser, Reading, STARS, Value, Written, fits};
use std::alloc::Global;

/// A command, an assignment of one value, or an argument.
#[tactic(auto, unfolding(ruby_meaning::specs::Grammar::Expressions::one_value))]
pub fn one_value_here<F: Fn(Global, &mut Cursor<'_>, Part, u32) -> Result<Reading, Fail> + Copy>(
    parser: &Parser<F>,
    cursor: &mut Cursor<'_>,
) -> Result<Value, Fail>
    requires below { Nests parser.now.depth (F.pre parser.now.names) (F.post parser.now.names) }
    ensures { ReadsValue (g.one_value parser.now.takes_do parser.now.in_rescue) (suc parser.now.depth) cursor.old result cursor.new }
{
    commanding(parser, cursor, Right::Nested, Right::One)
}

/// What stands behind a `=` on a right side: one value, or a list that begins with `*`.
#[tactic(auto, unfolding(ruby_meaning::specs::Grammar::Table::table, ruby_meaning::specs::Grammar::Expressions::nested_value, ruby_meaning::specs::Grammar::Expressions::splat_list, ruby_meaning::specs::Grammar::Expressions::splat))]
pub fn nested_value_here<F: Fn(Global, &mut Cursor<'_>, Part, u32) -> Result<Reading, Fail> + Copy>(
    parser: &Parser<F>,
    cursor: &mut Cursor<'_>,
) -> Result<Value, Fail>
    requires below { Nests parser.now.depth (F.pre parser.now.names) (F.post parser.now.names) }
    ensures { ReadsValue (g.nested_value parser.now.takes_do parser.now.in_rescue) (suc parser.now.depth) cursor.old result cursor.new }
{
    if !cursor.sees_one_of(&STARS) {
        return one_value_here(parser, cursor);
    }
    Ok(Value {
        node: splat_list(parser, cursor)?,
        written: Written::Commanded,
    })
}

/// One value, a list of two or more, or a list that begins with `*`.
#[tactic(auto, unfolding(ruby_meaning::specs::Grammar::Table::table, ruby_meaning::specs::Grammar::Expressions::right_side, ruby_meaning::specs::Grammar::Expressions::splat_list, ruby_meaning::specs::Grammar::Expressions::splat, ruby_meaning::specs::Grammar::Expressions::other_items))]
pub fn right_side<F: Fn(Global, &mut Cursor<'_>, Part, u32) -> Result<Reading, Fail> + Copy>(
    parser: &Parser<F>,
    cursor: &mut Cursor<'_>,
) -> Result<Value, Fail>
    requires below { Nests parser.now.depth (F.pre parser.now.names) (F.post parser.now.names) }
    ensures { ReadsValue (g.right_side parser.now.takes_do parser.now.in_rescue) (suc parser.now.depth) cursor.old result cursor.new }
{
    if cursor.sees_one_of(&STARS) {
        return Ok(Value {
            node: splat_list(parser, cursor)?,
            written: Written::Other,
        });
    }
    let first = one_value_here(parser, cursor)?;
    if !cursor.sees(Sign::Op(Mark::Comma))
        || first.written.is(Written::Commanded)
        || !fits(&first.node, parser.depth)
    {
        return Ok(first);
    }
    Ok(Value {
        node: list_behind(parser, cursor, first.node)?,
        written: Written::Commanded,
    })
}
