//! Lists of values.

ghost use Rattle.std.specs.Prelude.{◌≡◌, suc, length};
ghost use Rattle.ruby_meaning.specs.Grammar.Actions as act;
ghost use Rattle.ruby_meaning.specs.Grammar.Expressions as g;
ghost use Rattle.descent.specs.Gives.{Gives};
ghost use Rattle.ruby_reading.specs.Ahead.{ahead, GivesNode, MakesAs};
ghost use Rattle.ruby_parameters.specs.Lists as spec;
ghost use Rattle.ruby_reading.specs.Named.{Nests, ReadsNode};

use descent::Fail;
use opal_base::Span;
use ruby_meaning::{Kind, Mark, Node, Nodes, Part, Sign};
use ruby_reading::{Cursor, Parser, Reading, STARS, Tree, from_token, node, start, to_end};
use sqlite_items::{Boxed, Items};
use std::alloc::Global;

/// The span of the last node, or the one that is given.
pub fn last_span(span: Span, nodes: &Nodes) -> Span
    ensures { result ≡ act.last_span span nodes.now }
{
    let mut last = span;
    for node in nodes.as_slice() {
        last = node.span;
    }
    last
}

/// A list of values.
pub fn array_of(alloc: Global, items: Nodes, first: Span) -> Result<Node, Fail>
    ensures { MakesAs (λ n. n) (spec.array_of items first) result }
{
    let span = to_end(first, last_span(first, &items));
    let from = span.from;
    Ok(node(alloc, Kind::ArrayLit(items), span, from)?)
}

/// `"*" arg`
#[tactic(auto, unfolding(ruby_meaning::specs::Grammar::Table::table, ruby_meaning::specs::Grammar::Expressions::splat))]
pub fn splat<F: Fn(Global, &mut Cursor<'_>, Part, u32) -> Result<Reading, Fail> + Copy>(
    parser: &Parser<F>,
    cursor: &mut Cursor<'_>,
) -> Result<Node, Fail>
    requires below { Nests parser.now.depth (F.pre parser.now.names) (F.post parser.now.names) }
    ensures { ReadsNode (g.splat parser.now.takes_do parser.now.in_rescue) (suc parser.now.depth) cursor.old result cursor.new }
{
    let star = cursor.take_one_of(&STARS)?;
    let value = parser.tree(cursor, Tree::Argument, parser.takes_do)?;
    let span = from_token(star, &value);
    let kind = Kind::Splat(Boxed::new(parser.alloc, value)?);
    Ok(node(parser.alloc, kind, span, start(star))?)
}

/// `"*" arg` one level below.
#[tactic(auto, using(ruby_reading::proofs::Named::nests_below, crate::proofs::Levels::node_none, crate::proofs::Below::one_below), unfolding(ruby_meaning::specs::Grammar::Table::table, ruby_meaning::specs::Grammar::Expressions::splat))]
fn splat_below<F: Fn(Global, &mut Cursor<'_>, Part, u32) -> Result<Reading, Fail> + Copy>(
    parser: &Parser<F>,
    cursor: &mut Cursor<'_>,
) -> Result<Node, Fail>
    requires below { Nests parser.now.depth (F.pre parser.now.names) (F.post parser.now.names) }
    ensures { ReadsNode (g.splat parser.now.takes_do parser.now.in_rescue) parser.now.depth cursor.old result cursor.new }
{
    if parser.depth == 0 {
        return Err(Fail::Refused);
    }
    splat(&parser.below(), cursor)
}

/// `"*" arg` or `arg`
#[tactic(auto, unfolding(ruby_meaning::specs::Grammar::Table::table, ruby_meaning::specs::Grammar::Expressions::item, ruby_meaning::specs::Grammar::Expressions::splat))]
fn item<F: Fn(Global, &mut Cursor<'_>, Part, u32) -> Result<Reading, Fail> + Copy>(
    parser: &Parser<F>,
    cursor: &mut Cursor<'_>,
) -> Result<Node, Fail>
    requires below { Nests parser.now.depth (F.pre parser.now.names) (F.post parser.now.names) }
    ensures { ReadsNode (g.item parser.now.takes_do parser.now.in_rescue) parser.now.depth cursor.old result cursor.new }
{
    if cursor.sees_one_of(&STARS) {
        splat_below(parser, cursor)
    } else {
        parser.tree(cursor, Tree::Argument, parser.takes_do)
    }
}

/// An item behind a comma.
#[tactic(auto, unfolding(ruby_meaning::specs::Grammar::Table::table, ruby_meaning::specs::Grammar::Expressions::item))]
fn next_item<F: Fn(Global, &mut Cursor<'_>, Part, u32) -> Result<Reading, Fail> + Copy>(
    parser: &Parser<F>,
    cursor: &mut Cursor<'_>,
) -> Result<Node, Fail>
    requires below { Nests parser.now.depth (F.pre parser.now.names) (F.post parser.now.names) }
    ensures { ReadsNode (spec.next_item parser.now.takes_do parser.now.in_rescue) parser.now.depth cursor.old result cursor.new }
{
    cursor.take(Sign::Op(Mark::Comma))?;
    item(parser, cursor)
}

/// Items that each stand behind a comma, behind those found.
#[tactic(auto, unfolding(ruby_meaning::specs::Grammar::Table::table))]
fn more_items<F: Fn(Global, &mut Cursor<'_>, Part, u32) -> Result<Reading, Fail> + Copy>(
    parser: &Parser<F>,
    cursor: &mut Cursor<'_>,
    found: Nodes,
) -> Result<Nodes, Fail>
    requires below { Nests parser.now.depth (F.pre parser.now.names) (F.post parser.now.names) }
    ensures { Gives (λ xs. xs) (spec.items_from parser.now.takes_do parser.now.in_rescue parser.now.depth (length (ahead cursor.old)) found (ahead cursor.old)) result (ahead cursor.new) }
{
    let mut found = found;
    for _turn in 0..cursor.left() {
        if !cursor.sees(Sign::Op(Mark::Comma)) {
            return Ok(found);
        }
        found.push(next_item(parser, cursor)?)?;
    }
    Ok(found)
}

/// A list that begins with `*`.
#[tactic(auto, using(grammar::proofs::Loops::read_many_from_is), unfolding(ruby_meaning::specs::Grammar::Table::table, ruby_meaning::specs::Grammar::Expressions::splat_list, ruby_meaning::specs::Grammar::Expressions::more_items))]
pub fn splat_list<F: Fn(Global, &mut Cursor<'_>, Part, u32) -> Result<Reading, Fail> + Copy>(
    parser: &Parser<F>,
    cursor: &mut Cursor<'_>,
) -> Result<Node, Fail>
    requires below { Nests parser.now.depth (F.pre parser.now.names) (F.post parser.now.names) }
    ensures { ReadsNode (g.splat_list parser.now.takes_do parser.now.in_rescue) (suc parser.now.depth) cursor.old result cursor.new }
{
    let first = splat_below(parser, cursor)?;
    let span = first.span;
    let mut items = Items::new(parser.alloc);
    items.push(first)?;
    let items = more_items(parser, cursor, items)?;
    array_of(parser.alloc, items, span)
}

/// A list of which the first item was read.
#[tactic(auto, using(grammar::proofs::Loops::read_many_from_is), unfolding(ruby_meaning::specs::Grammar::Table::table, ruby_meaning::specs::Grammar::Expressions::other_items, ruby_meaning::specs::Grammar::Expressions::more_items))]
pub fn list_behind<F: Fn(Global, &mut Cursor<'_>, Part, u32) -> Result<Reading, Fail> + Copy>(
    parser: &Parser<F>,
    cursor: &mut Cursor<'_>,
    first: Node,
) -> Result<Node, Fail>
    requires below { Nests parser.now.depth (F.pre parser.now.names) (F.post parser.now.names) }
    ensures { GivesNode (spec.list_behind parser.now.takes_do parser.now.in_rescue parser.now.depth first (ahead cursor.old)) result (ahead cursor.new) }
{
    let span = first.span;
    let mut items = Items::new(parser.alloc);
    items.push(first)?;
    items.push(next_item(parser, cursor)?)?;
    let items = more_items(parser, cursor, items)?;
    array_of(parser.alloc, items, span)
}
