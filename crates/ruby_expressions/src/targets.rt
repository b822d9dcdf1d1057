//! What several values are set to at once.

ghost use Rattle.std.specs.Prelude.{◌≡◌, ◌∷◌, ◌++◌, [], suc, true};
ghost use Rattle.ruby_meaning.specs.Grammar.Actions as act;
ghost use Rattle.ruby_meaning.specs.Grammar.Statements as s;
ghost use Rattle.descent.specs.Gives.{Gives};
ghost use Rattle.ruby_reading.specs.Ahead.{ahead, Makes};
ghost use Rattle.ruby_reading.specs.Named.{Nests, ReadsNode};
ghost use Rattle.ruby_reading.specs.Shown.{shown_value};
ghost use Rattle.ruby_expressions.specs.TargetSteps as spec;

use crate::assignment::{is_place, target_kind};
use descent::Fail;
use opal_base::Span;
use ruby_meaning::{Kind, Mark, Node, Nodes, Part, Sign};
use ruby_operands::post;
use ruby_reading::{Cursor, Parser, Reading, Tree, Value, from_token, node, start, to_end};
use sqlite_items::{Boxed, Items};
use std::alloc::Global;

/// A target behind others.
#[derive(Drop)]
pub struct Target {
    pub node: Node,
    /// Whether one behind it may have a `*`.
    pub starred: bool,
}

/// Targets and their value.
#[derive(Drop)]
pub struct Targets {
    pub all: Nodes,
    pub value: Node,
}

/// What can be set as a target.
#[tactic(auto, using(crate::proofs::TargetNodes::target_is))]
pub fn target_node(alloc: Global, value: Value) -> Result<Node, Fail>
    requires { act.is_place (shown_value value) ≡ true }
    ensures { Makes (act.target_node (shown_value value)) result }
{
    let span = value.node.span;
    let mark = value.node.mark;
    let kind = target_kind(alloc, value.node.kind.into_inner())?;
    Ok(node(alloc, kind, span, mark)?)
}

/// A set of several targets, of which the first has the span.
pub fn multi_set(alloc: Global, first: Span, targets: Targets) -> Result<Node, Fail>
    ensures { Makes (spec.multi_set first (spec.shown_targets targets)) result }
{
    let span = to_end(first, targets.value.span);
    let kind = Kind::MultiSet {
        targets: targets.all,
        value: Boxed::new(alloc, targets.value)?,
    };
    Ok(node(alloc, kind, span, first.from)?)
}

/// A first target.
fn alone(alloc: Global, target: Node) -> Result<Nodes, Fail>
    ensures { Makes (target ∷ []) result }
{
    let mut found = Items::new(alloc);
    found.push(target)?;
    Ok(found)
}

/// One more target.
fn with_target(found: Nodes, target: Node) -> Result<Nodes, Fail>
    ensures { Makes (found ++ target ∷ []) result }
{
    let mut found = found;
    found.push(target)?;
    Ok(found)
}

/// What can be set.
#[tactic(auto, unfolding(ruby_meaning::specs::Grammar::Table::table, ruby_meaning::specs::Grammar::Statements::target, ruby_meaning::specs::Grammar::Statements::placed))]
fn read_target<F: Fn(Global, &mut Cursor<'_>, Part, u32) -> Result<Reading, Fail> + Copy>(
    parser: &Parser<F>,
    cursor: &mut Cursor<'_>,
) -> Result<Node, Fail>
    requires below { Nests parser.now.depth (F.pre parser.now.names) (F.post parser.now.names) }
    ensures { ReadsNode (s.target parser.now.in_rescue) (suc parser.now.depth) cursor.old result cursor.new }
{
    let value = post(&parser.with_do(true), cursor)?;
    if !is_place(&value) {
        return Err(Fail::Refused);
    }
    target_node(parser.alloc, value)
}

/// The same, one level below. Where no level is left it is refused where an operand is.
#[tactic(auto, using(ruby_reading::proofs::Named::nests_below, crate::proofs::TargetLevels::target_refused, crate::proofs::TargetLevels::no_operand, ruby_parameters::proofs::Below::one_below))]
fn target_below<F: Fn(Global, &mut Cursor<'_>, Part, u32) -> Result<Reading, Fail> + Copy>(
    parser: &Parser<F>,
    cursor: &mut Cursor<'_>,
) -> Result<Node, Fail>
    requires below { Nests parser.now.depth (F.pre parser.now.names) (F.post parser.now.names) }
    ensures { ReadsNode (s.target parser.now.in_rescue) parser.now.depth cursor.old result cursor.new }
{
    if parser.depth == 0 {
        parser.tree(cursor, Tree::NotOperand, true)?;
        return Err(Fail::Refused);
    }
    read_target(&parser.below(), cursor)
}

/// `"*" target`
#[tactic(auto, unfolding(ruby_meaning::specs::Grammar::Table::table, ruby_meaning::specs::Grammar::Statements::star_target))]
fn star_target<F: Fn(Global, &mut Cursor<'_>, Part, u32) -> Result<Reading, Fail> + Copy>(
    parser: &Parser<F>,
    cursor: &mut Cursor<'_>,
) -> Result<Node, Fail>
    requires below { Nests parser.now.depth (F.pre parser.now.names) (F.post parser.now.names) }
    ensures { ReadsNode (s.star_target parser.now.in_rescue) (suc parser.now.depth) cursor.old result cursor.new }
{
    let star = cursor.take(Sign::Op(Mark::Star))?;
    let target = target_below(parser, cursor)?;
    let span = from_token(star, &target);
    let kind = Kind::Splat(Boxed::new(parser.alloc, target)?);
    Ok(node(parser.alloc, kind, span, start(star))?)
}

/// The same, one level below.
#[tactic(auto, using(ruby_reading::proofs::Named::nests_below, ruby_parameters::proofs::Levels::node_none, ruby_parameters::proofs::Below::one_below), unfolding(ruby_meaning::specs::Grammar::Table::table, ruby_meaning::specs::Grammar::Statements::star_target))]
pub fn star_target_below<F: Fn(Global, &mut Cursor<'_>, Part, u32) -> Result<Reading, Fail> + Copy>(
    parser: &Parser<F>,
    cursor: &mut Cursor<'_>,
) -> Result<Node, Fail>
    requires below { Nests parser.now.depth (F.pre parser.now.names) (F.post parser.now.names) }
    ensures { ReadsNode (s.star_target parser.now.in_rescue) parser.now.depth cursor.old result cursor.new }
{
    if parser.depth == 0 {
        return Err(Fail::Refused);
    }
    star_target(&parser.below(), cursor)
}

/// A target, which may have a `*` where none before it has one.
fn one_target<F: Fn(Global, &mut Cursor<'_>, Part, u32) -> Result<Reading, Fail> + Copy>(
    parser: &Parser<F>,
    cursor: &mut Cursor<'_>,
    starred: bool,
) -> Result<Target, Fail>
    requires below { Nests parser.now.depth (F.pre parser.now.names) (F.post parser.now.names) }
    ensures { Gives spec.shown_target (spec.read_one parser.now.in_rescue parser.now.depth starred (ahead cursor.old)) result (ahead cursor.new) }
{
    if starred && cursor.sees(Sign::Op(Mark::Star)) {
        return Ok(Target {
            node: star_target_below(parser, cursor)?,
            starred: false,
        });
    }
    Ok(Target {
        node: target_below(parser, cursor)?,
        starred,
    })
}

/// A target behind a comma.
fn next_target<F: Fn(Global, &mut Cursor<'_>, Part, u32) -> Result<Reading, Fail> + Copy>(
    parser: &Parser<F>,
    cursor: &mut Cursor<'_>,
    starred: bool,
) -> Result<Target, Fail>
    requires below { Nests parser.now.depth (F.pre parser.now.names) (F.post parser.now.names) }
    ensures { Gives spec.shown_target (spec.read_next parser.now.in_rescue parser.now.depth starred (ahead cursor.old)) result (ahead cursor.new) }
{
    cursor.take(Sign::Op(Mark::Comma))?;
    one_target(parser, cursor, starred)
}

/// `"=" rhs`
#[tactic(auto, unfolding(ruby_meaning::specs::Grammar::Table::table))]
fn set_value<F: Fn(Global, &mut Cursor<'_>, Part, u32) -> Result<Reading, Fail> + Copy>(
    parser: &Parser<F>,
    cursor: &mut Cursor<'_>,
) -> Result<Node, Fail>
    requires below { Nests parser.now.depth (F.pre parser.now.names) (F.post parser.now.names) }
    ensures { ReadsNode (spec.set_value parser.now.in_rescue) parser.now.depth cursor.old result cursor.new }
{
    cursor.take(Sign::Op(Mark::Assign))?;
    parser.tree(cursor, Tree::RightSide, true)
}

/// `("," target)+ "=" rhs` behind a first target, one level below.
pub fn more_targets<F: Fn(Global, &mut Cursor<'_>, Part, u32) -> Result<Reading, Fail> + Copy>(
    parser: &Parser<F>,
    cursor: &mut Cursor<'_>,
    first: Node,
    starred: bool,
) -> Result<Targets, Fail>
    requires below { Nests parser.now.depth (F.pre parser.now.names) (F.post parser.now.names) }
    ensures { Gives spec.shown_targets (spec.behind_found (first ∷ []) (spec.read_targets parser.now.in_rescue parser.now.depth starred (ahead cursor.old))) result (ahead cursor.new) }
{
    let start = alone(parser.alloc, first)?;
    let mut found = start;
    let mut starred = starred;
    for _turn in 0..cursor.left() {
        let one = next_target(parser, cursor, starred)?;
        starred = one.starred;
        found = with_target(found, one.node)?;
        if !cursor.sees(Sign::Op(Mark::Comma)) {
            let value = set_value(parser, cursor)?;
            return Ok(Targets { all: found, value });
        }
    }
    Err(Fail::Refused)
}
