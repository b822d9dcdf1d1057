//! The productions that hold one another, each read by its rule.

ghost use Rattle.std.specs.Prelude.{◌≡◌, IfSome, suc};
ghost use Rattle.grammar.specs.Readers.{read_named, read_rule};
ghost use Rattle.ruby_meaning.specs.Grammar.Table.{table};
ghost use Rattle.ruby_meaning.specs.declared.production.Production.TheVariants as p;
ghost use Rattle.ruby_reading.specs.Ahead.{ahead, GivesNode};
ghost use Rattle.ruby_reading.specs.Named.{GivesPart, Nests, NestsBelow, production_of};
ghost use Rattle.ruby_parser.specs.TreeRules as spec;

use crate::statements::{statement, statement_list};
use descent::Fail;
use ruby_expressions::{
    argument, arguments, arguments_of_command, expression, nested_value_here, not_expression,
    one_value_here, pairs, right_side,
};
use ruby_forms::otherwise;
use ruby_meaning::{Node, Part, Production};
use ruby_operands::{
    and_level, comparison_level, equality_level, minus_level, not_level, or_level, power_level,
    product_level, shift_level, sum_level, ternary,
};
use ruby_reading::{Args, Body, Cursor, Parser, Reading, Tree, Value};
use std::alloc::Global;

/// The production that gives a node, where it is one.
fn tree_of(production: Production) -> Option<Tree>
    ensures { IfSome result (λ tree. production ≡ production_of tree) }
{
    match production {
        Production::Statement => Some(Tree::Statement),
        Production::Expression => Some(Tree::Expression),
        Production::NotExpression => Some(Tree::NotExpression),
        Production::RightSide => Some(Tree::RightSide),
        Production::Argument => Some(Tree::Argument),
        Production::Ternary => Some(Tree::Ternary),
        Production::RangeOperand => Some(Tree::RangeOperand),
        Production::OrOperand => Some(Tree::OrOperand),
        Production::AndOperand => Some(Tree::AndOperand),
        Production::EqualityOperand => Some(Tree::EqualityOperand),
        Production::ComparisonOperand => Some(Tree::ComparisonOperand),
        Production::ShiftOperand => Some(Tree::ShiftOperand),
        Production::SumOperand => Some(Tree::SumOperand),
        Production::ProductOperand => Some(Tree::ProductOperand),
        Production::PowerOperand => Some(Tree::PowerOperand),
        Production::NotOperand => Some(Tree::NotOperand),
        _ => None,
    }
}

fn of_tree(read: Result<Node, Fail>) -> Result<Reading, Fail>
    ensures { result ≡ spec.of_tree read }
{
    match read {
        Ok(node) => Ok(Reading::Tree(node)),
        Err(fail) => Err(fail),
    }
}

fn of_value(read: Result<Value, Fail>) -> Result<Reading, Fail>
    ensures { result ≡ spec.of_value read }
{
    match read {
        Ok(value) => Ok(Reading::Value(value)),
        Err(fail) => Err(fail),
    }
}

fn of_body(read: Result<Body, Fail>) -> Result<Reading, Fail>
    ensures { result ≡ spec.of_body read }
{
    match read {
        Ok(body) => Ok(Reading::Body(body)),
        Err(fail) => Err(fail),
    }
}

fn of_args(read: Result<Args, Fail>) -> Result<Reading, Fail>
    ensures { result ≡ spec.of_args read }
{
    match read {
        Ok(args) => Ok(Reading::Args(args)),
        Err(fail) => Err(fail),
    }
}

/// A production that gives a node, at the level of that node.
#[tactic(auto, unfolding(ruby_meaning::specs::Grammar::Table::table))]
fn tree_here<F: Fn(Global, &mut Cursor<'_>, Part, u32) -> Result<Reading, Fail> + Copy>(
    parser: &Parser<F>,
    cursor: &mut Cursor<'_>,
    tree: Tree,
) -> Result<Node, Fail>
    requires below { Nests parser.now.depth (F.pre parser.now.names) (F.post parser.now.names) }
    ensures { GivesNode (read_rule table (read_named table) (spec.tree_rule tree parser.now.takes_do parser.now.in_rescue) (suc parser.now.depth) (ahead cursor.old)) result (ahead cursor.new) }
{
    let value = match tree {
        Tree::Statement => statement(parser, cursor)?,
        Tree::Expression => expression(parser, cursor)?,
        Tree::NotExpression => not_expression(parser, cursor)?,
        Tree::RightSide => right_side(parser, cursor)?,
        Tree::Argument => argument(parser, cursor)?,
        Tree::Ternary => ternary(parser, cursor)?,
        Tree::RangeOperand => or_level(parser, cursor)?,
        Tree::OrOperand => and_level(parser, cursor)?,
        Tree::AndOperand => equality_level(parser, cursor)?,
        Tree::EqualityOperand => comparison_level(parser, cursor)?,
        Tree::ComparisonOperand => shift_level(parser, cursor)?,
        Tree::ShiftOperand => sum_level(parser, cursor)?,
        Tree::SumOperand => product_level(parser, cursor)?,
        Tree::ProductOperand => minus_level(parser, cursor)?,
        Tree::PowerOperand => power_level(parser, cursor)?,
        Tree::NotOperand => not_level(parser, cursor)?,
    };
    Ok(value.node)
}

/// Statements, at their own level.
pub fn statements_part<F: Fn(Global, &mut Cursor<'_>, Part, u32) -> Result<Reading, Fail> + Copy>(
    parser: &Parser<F>,
    cursor: &mut Cursor<'_>,
    part: Part,
) -> Result<Reading, Fail>
    requires below { NestsBelow parser.now.depth (F.pre parser.now.names) (F.post parser.now.names) }
    requires statements { part.production ≡ p.Statements }
    requires rescue { part.in_rescue ≡ parser.now.in_rescue }
    ensures { GivesPart part (read_named table (suc parser.now.depth) part (ahead cursor.old)) result (ahead cursor.new) }
{
    let statements = statement_list(parser, cursor);
    of_body(statements)
}

/// What a production gives but for statements, at the level of a node that is made here.
pub fn part_here<F: Fn(Global, &mut Cursor<'_>, Part, u32) -> Result<Reading, Fail> + Copy>(
    parser: &Parser<F>,
    cursor: &mut Cursor<'_>,
    part: Part,
) -> Result<Reading, Fail>
    requires below { Nests parser.now.depth (F.pre parser.now.names) (F.post parser.now.names) }
    requires takes { part.takes_do ≡ parser.now.takes_do }
    requires rescue { part.in_rescue ≡ parser.now.in_rescue }
    ensures { GivesPart part (read_named table (suc parser.now.depth) part (ahead cursor.old)) result (ahead cursor.new) }
{
    match part.production {
        Production::Otherwise => of_body(otherwise(parser, cursor)),
        Production::OneValue => of_value(one_value_here(parser, cursor)),
        Production::NestedValue => of_value(nested_value_here(parser, cursor)),
        Production::Arguments(blocks) => of_args(arguments(parser, cursor, blocks)),
        Production::CommandArguments(blocks) => {
            of_args(arguments_of_command(parser, cursor, blocks))
        }
        Production::MorePairs(blocks) => of_args(pairs(parser, cursor, blocks)),
        production => match tree_of(production) {
            Some(tree) => of_tree(tree_here(parser, cursor, tree)),
            None => Err(Fail::NoMemory),
        },
    }
}
