//! Arguments and pairs.

ghost use Rattle.std.specs.Prelude.{◌≡◌, suc, length};
ghost use Rattle.ruby_meaning.specs.Grammar.Expressions as g;
ghost use Rattle.ruby_meaning.specs.Grammar.Names.{part};
ghost use Rattle.ruby_meaning.specs.Grammar.Table.{table};
ghost use Rattle.ruby_meaning.specs.declared.production.Production.TheVariants as p;
ghost use Rattle.grammar.specs.Readers.{read_named};
ghost use Rattle.ruby_reading.specs.Ahead.{ahead};
ghost use Rattle.ruby_expressions.specs.Arguments as spec;
ghost use Rattle.ruby_expressions.specs.ArgumentSteps as step;
ghost use Rattle.ruby_expressions.specs.declared.argument_lists.Goes.TheVariants as goes;
ghost use Rattle.ruby_reading.specs.Named.{GivesArgs, Nests, Reads, ReadsValue};
ghost use Rattle.ruby_reading.specs.Shown.{shown_args};

use crate::assignment::{Right, argument};
use crate::command::commanding;
use descent::Fail;
use ruby_meaning::{Kind, Mark, Node, Part, Sign};
use ruby_parameters::splat;
use ruby_primaries::label_key_below;
use ruby_reading::{
    Args, Cursor, Parser, Reading, STARS, Tree, Value, Written, begins_argument, fits, from_token,
    node, start,
};
use sqlite_items::Boxed;
use std::alloc::Global;

/// What may stand behind an argument.
#[derive(Clone, Copy, Debug, PartialEq, Eq)]
pub enum How {
    /// Another, or a pair.
    Argued,
    /// A pair.
    Keyed,
    /// Nothing.
    Whole,
}

/// An argument that stands first.
#[derive(Drop)]
pub struct First {
    pub args: Args,
    pub how: How,
}

/// Where arguments go on.
#[derive(Clone, Copy, Debug, PartialEq, Eq)]
pub enum Goes {
    Nowhere,
    /// With an argument or a pair.
    Arguments,
    /// With a pair.
    Pairs,
}

/// The arguments so far, and where they go on.
#[derive(Drop)]
pub struct Step {
    pub args: Args,
    pub goes: Goes,
}

impl Step {
    fn nowhere(args: Args) -> Step
        ensures { result ≡ record { args = args; goes = goes.Nowhere } }
    {
        Step {
            args,
            goes: Goes::Nowhere,
        }
    }
}

/// Where arguments go on behind a first one.
fn goes_on(args: &Args, how: How) -> Goes
    ensures { result ≡ step.goes_on (shown_args args.now) (step.how_code how) }
{
    match how {
        How::Argued if args.is_single() => Goes::Arguments,
        How::Keyed if args.has_pair() => Goes::Pairs,
        _ => Goes::Nowhere,
    }
}

/// Where arguments go on behind a pair.
fn pair_goes(args: &Args) -> Goes
    ensures { result ≡ step.pair_goes (shown_args args.now) }
{
    if args.has_pair() {
        Goes::Pairs
    } else {
        Goes::Nowhere
    }
}

fn goes_somewhere(goes: Goes) -> bool
    ensures { result ≡ step.goes_somewhere goes }
{
    match goes {
        Goes::Nowhere => false,
        Goes::Arguments | Goes::Pairs => true,
    }
}

const AMPERSANDS: [Sign; 2] = [Sign::Op(Mark::Ampersand), Sign::Marked(Mark::Ampersand)];

/// `"&" arg`
#[tactic(auto, unfolding(ruby_meaning::specs::Grammar::Table::table, ruby_meaning::specs::Grammar::Expressions::block_argument))]
fn block_argument<F: Fn(Global, &mut Cursor<'_>, Part, u32) -> Result<Reading, Fail> + Copy>(
    parser: &Parser<F>,
    cursor: &mut Cursor<'_>,
) -> Result<Args, Fail>
    requires below { Nests parser.now.depth (F.pre parser.now.names) (F.post parser.now.names) }
    ensures { Reads shown_args (g.block_argument parser.now.takes_do parser.now.in_rescue) (suc parser.now.depth) cursor.old result cursor.new }
{
    let sign = cursor.take_one_of(&AMPERSANDS)?;
    let value = parser.tree(cursor, Tree::Argument, parser.takes_do)?;
    let span = from_token(sign, &value);
    let kind = Kind::BlockPass(Boxed::new(parser.alloc, value)?);
    let block = node(parser.alloc, kind, span, start(sign))?;
    Ok(Args::passed(parser.alloc, block))
}

/// `label arg`
#[tactic(auto, unfolding(ruby_meaning::specs::Grammar::Table::table, ruby_meaning::specs::Grammar::Expressions::label_pair))]
fn label_pair<F: Fn(Global, &mut Cursor<'_>, Part, u32) -> Result<Reading, Fail> + Copy>(
    parser: &Parser<F>,
    cursor: &mut Cursor<'_>,
) -> Result<Args, Fail>
    requires below { Nests parser.now.depth (F.pre parser.now.names) (F.post parser.now.names) }
    ensures { Reads shown_args (g.label_pair parser.now.takes_do parser.now.in_rescue) (suc parser.now.depth) cursor.old result cursor.new }
{
    let key = label_key_below(parser, cursor)?;
    let value = parser.tree(cursor, Tree::Argument, parser.takes_do)?;
    Args::paired(parser.alloc, key, value)
}

/// `arg "=>" arg`
#[tactic(auto, unfolding(ruby_meaning::specs::Grammar::Table::table, ruby_meaning::specs::Grammar::Expressions::arrow_pair))]
fn arrow_pair<F: Fn(Global, &mut Cursor<'_>, Part, u32) -> Result<Reading, Fail> + Copy>(
    parser: &Parser<F>,
    cursor: &mut Cursor<'_>,
) -> Result<Args, Fail>
    requires below { Nests parser.now.depth (F.pre parser.now.names) (F.post parser.now.names) }
    ensures { Reads shown_args (g.arrow_pair parser.now.takes_do parser.now.in_rescue) (suc parser.now.depth) cursor.old result cursor.new }
{
    let key = parser.tree(cursor, Tree::Argument, parser.takes_do)?;
    cursor.take(Sign::Op(Mark::FatArrow))?;
    let value = parser.tree(cursor, Tree::Argument, parser.takes_do)?;
    Args::paired(parser.alloc, key, value)
}

/// A pair.
#[tactic(auto, unfolding(ruby_meaning::specs::Grammar::Table::table, ruby_meaning::specs::Grammar::Expressions::label_pair, ruby_meaning::specs::Grammar::Expressions::arrow_pair, ruby_meaning::specs::Grammar::Primaries::label_key))]
fn pair<F: Fn(Global, &mut Cursor<'_>, Part, u32) -> Result<Reading, Fail> + Copy>(
    parser: &Parser<F>,
    cursor: &mut Cursor<'_>,
) -> Result<Args, Fail>
    requires below { Nests parser.now.depth (F.pre parser.now.names) (F.post parser.now.names) }
    ensures { Reads shown_args (spec.pair_rule parser.now.takes_do parser.now.in_rescue) (suc parser.now.depth) cursor.old result cursor.new }
{
    if cursor.sees(Sign::Label) {
        label_pair(parser, cursor)
    } else {
        arrow_pair(parser, cursor)
    }
}

/// The value of an argument, which may be a command.
#[tactic(auto, unfolding(ruby_meaning::specs::Grammar::Table::table))]
fn argument_value<F: Fn(Global, &mut Cursor<'_>, Part, u32) -> Result<Reading, Fail> + Copy>(
    parser: &Parser<F>,
    cursor: &mut Cursor<'_>,
    command: bool,
) -> Result<Value, Fail>
    requires below { Nests parser.now.depth (F.pre parser.now.names) (F.post parser.now.names) }
    ensures { ReadsValue (step.value_rule command parser.now.takes_do parser.now.in_rescue) (suc parser.now.depth) cursor.old result cursor.new }
{
    if command {
        read_command(parser, cursor)
    } else {
        argument(parser, cursor)
    }
}

/// A value, or a key and its value.
#[tactic(auto, using(crate::proofs::ArgumentLevels::single_fits), unfolding(ruby_meaning::specs::Grammar::Table::table))]
fn value_first<F: Fn(Global, &mut Cursor<'_>, Part, u32) -> Result<Reading, Fail> + Copy>(
    parser: &Parser<F>,
    cursor: &mut Cursor<'_>,
    command: bool,
) -> Result<First, Fail>
    requires below { Nests parser.now.depth (F.pre parser.now.names) (F.post parser.now.names) }
    ensures { Reads step.shown_first (step.value_first_rule command parser.now.takes_do parser.now.in_rescue) (suc parser.now.depth) cursor.old result cursor.new }
{
    let Value { node, written } = argument_value(parser, cursor, command)?;
    if written.is(Written::Commanded) {
        let args = Args::single(parser.alloc, node)?;
        let how = How::Whole;
        return Ok(First { args, how });
    }
    if !cursor.sees(Sign::Op(Mark::FatArrow)) || !fits(&node, parser.depth) {
        let args = Args::single(parser.alloc, node)?;
        let how = How::Argued;
        return Ok(First { args, how });
    }
    cursor.take(Sign::Op(Mark::FatArrow))?;
    let value = parser.tree(cursor, Tree::Argument, parser.takes_do)?;
    let args = Args::paired(parser.alloc, node, value)?;
    let how = How::Keyed;
    Ok(First { args, how })
}

/// An argument that stands first.
#[tactic(auto, unfolding(ruby_meaning::specs::Grammar::Table::table, ruby_meaning::specs::Grammar::Expressions::splat, ruby_meaning::specs::Grammar::Expressions::label_pair, ruby_meaning::specs::Grammar::Primaries::label_key))]
fn first_argument<F: Fn(Global, &mut Cursor<'_>, Part, u32) -> Result<Reading, Fail> + Copy>(
    parser: &Parser<F>,
    cursor: &mut Cursor<'_>,
    command: bool,
) -> Result<First, Fail>
    requires below { Nests parser.now.depth (F.pre parser.now.names) (F.post parser.now.names) }
    ensures { Reads step.shown_first (spec.first_rule parser.now.takes_do parser.now.in_rescue (step.value_rule command parser.now.takes_do parser.now.in_rescue)) (suc parser.now.depth) cursor.old result cursor.new }
{
    if cursor.sees_one_of(&STARS) {
        let splat = splat(parser, cursor)?;
        let args = Args::single(parser.alloc, splat)?;
        let how = How::Argued;
        Ok(First { args, how })
    } else if cursor.sees(Sign::Label) {
        let args = label_pair(parser, cursor)?;
        let how = How::Keyed;
        Ok(First { args, how })
    } else {
        value_first(parser, cursor, command)
    }
}

/// A comma, if one stands behind an argument that takes more.
#[tactic(auto, unfolding(ruby_meaning::specs::Grammar::Table::table))]
fn behind_comma<F: Fn(Global, &mut Cursor<'_>, Part, u32) -> Result<Reading, Fail> + Copy>(
    parser: &Parser<F>,
    cursor: &mut Cursor<'_>,
    args: Args,
    goes: Goes,
) -> Result<Step, Fail>
    ensures read { step.Commas parser.now.takes_do goes (shown_args args) (ahead cursor.old) result (ahead cursor.new) }
    ensures lighter { step.Lighter (length (ahead cursor.old)) result (length (ahead cursor.new)) }
{
    if !goes_somewhere(goes) || !cursor.sees(Sign::Op(Mark::Comma)) {
        return Ok(Step::nowhere(args));
    }
    cursor.take(Sign::Op(Mark::Comma))?;
    if parser.takes_do && !begins_argument(cursor) {
        return Ok(Step::nowhere(args));
    }
    Ok(Step { args, goes })
}

/// An argument behind those found, or the block pass that ends them.
#[tactic(auto, unfolding(ruby_meaning::specs::Grammar::Table::table, ruby_meaning::specs::Grammar::Expressions::block_argument))]
fn argument_step<F: Fn(Global, &mut Cursor<'_>, Part, u32) -> Result<Reading, Fail> + Copy>(
    parser: &Parser<F>,
    cursor: &mut Cursor<'_>,
    blocks: bool,
    command: bool,
    found: Args,
) -> Result<Step, Fail>
    requires below { Nests parser.now.depth (F.pre parser.now.names) (F.post parser.now.names) }
    ensures read { step.Steps parser.now.takes_do parser.now.in_rescue blocks (suc parser.now.depth) (step.argument_step parser.now.takes_do parser.now.in_rescue blocks (suc parser.now.depth) (step.value_rule command parser.now.takes_do parser.now.in_rescue) (shown_args found) (ahead cursor.old)) result (ahead cursor.new) }
    ensures lighter { step.Lighter (length (ahead cursor.old)) result (length (ahead cursor.new)) }
{
    if blocks && cursor.sees_one_of(&AMPERSANDS) {
        let block = block_argument(parser, cursor)?;
        return Ok(Step::nowhere(found.with_more(block)?));
    }
    let First { args, how } = first_argument(parser, cursor, command)?;
    let goes = goes_on(&args, how);
    let args = found.with_more(args)?;
    behind_comma(parser, cursor, args, goes)
}

/// A pair behind those found, or the block pass that ends them.
#[tactic(auto, using(crate::proofs::ArgumentSteps::pair_lighter), unfolding(ruby_meaning::specs::Grammar::Table::table, ruby_meaning::specs::Grammar::Expressions::block_argument))]
fn pair_step<F: Fn(Global, &mut Cursor<'_>, Part, u32) -> Result<Reading, Fail> + Copy>(
    parser: &Parser<F>,
    cursor: &mut Cursor<'_>,
    blocks: bool,
    found: Args,
) -> Result<Step, Fail>
    requires below { Nests parser.now.depth (F.pre parser.now.names) (F.post parser.now.names) }
    ensures read { step.Steps parser.now.takes_do parser.now.in_rescue blocks (suc parser.now.depth) (step.pair_step parser.now.takes_do parser.now.in_rescue blocks (suc parser.now.depth) (shown_args found) (ahead cursor.old)) result (ahead cursor.new) }
    ensures lighter { step.Lighter (length (ahead cursor.old)) result (length (ahead cursor.new)) }
{
    if blocks && cursor.sees_one_of(&AMPERSANDS) {
        let block = block_argument(parser, cursor)?;
        return Ok(Step::nowhere(found.with_more(block)?));
    }
    let pair = pair(parser, cursor)?;
    let goes = pair_goes(&pair);
    let args = found.with_more(pair)?;
    behind_comma(parser, cursor, args, goes)
}

/// What stands where arguments go on.
#[tactic(auto, using(crate::proofs::StepsOn::arguments_on, crate::proofs::StepsOn::pairs_on))]
fn next_step<F: Fn(Global, &mut Cursor<'_>, Part, u32) -> Result<Reading, Fail> + Copy>(
    parser: &Parser<F>,
    cursor: &mut Cursor<'_>,
    blocks: bool,
    found: Args,
    goes: Goes,
) -> Result<Step, Fail>
    requires below { Nests parser.now.depth (F.pre parser.now.names) (F.post parser.now.names) }
    ensures read { step.Steps parser.now.takes_do parser.now.in_rescue blocks (suc parser.now.depth) (step.go_on parser.now.takes_do parser.now.in_rescue blocks (suc parser.now.depth) goes (shown_args found) (ahead cursor.old)) result (ahead cursor.new) }
    ensures lighter { step.Lighter (length (ahead cursor.old)) result (length (ahead cursor.new)) }
{
    match goes {
        Goes::Nowhere => Ok(Step::nowhere(found)),
        Goes::Arguments => argument_step(parser, cursor, blocks, false, found),
        Goes::Pairs => pair_step(parser, cursor, blocks, found),
    }
}

/// Arguments and pairs from a step on.
#[tactic(auto, using(crate::proofs::ArgumentSteps::weight_somewhere, crate::proofs::ArgumentSteps::gone_on))]
fn arguments_behind<F: Fn(Global, &mut Cursor<'_>, Part, u32) -> Result<Reading, Fail> + Copy>(
    parser: &Parser<F>,
    cursor: &mut Cursor<'_>,
    blocks: bool,
    first: Step,
) -> Result<Args, Fail>
    requires below { Nests parser.now.depth (F.pre parser.now.names) (F.post parser.now.names) }
    ensures { GivesArgs (step.go_on parser.now.takes_do parser.now.in_rescue blocks (suc parser.now.depth) first.goes (shown_args first.args) (ahead cursor.old)) result (ahead cursor.new) }
{
    let Step { mut args, mut goes } = first;
    'steps: while goes_somewhere(goes) {
        let next = next_step(parser, cursor, blocks, args, goes)?;
        args = next.args;
        goes = next.goes;
    }
    Ok(args)
}

/// `arguments`
#[tactic(auto, using(crate::proofs::ArgumentSteps::arguments_are))]
pub fn arguments<F: Fn(Global, &mut Cursor<'_>, Part, u32) -> Result<Reading, Fail> + Copy>(
    parser: &Parser<F>,
    cursor: &mut Cursor<'_>,
    blocks: bool,
) -> Result<Args, Fail>
    requires below { Nests parser.now.depth (F.pre parser.now.names) (F.post parser.now.names) }
    ensures { GivesArgs (read_named table (suc parser.now.depth) (part (p.Arguments blocks) parser.now.takes_do parser.now.in_rescue) (ahead cursor.old)) result (ahead cursor.new) }
{
    let none = Args::new(parser.alloc);
    let first = argument_step(parser, cursor, blocks, false, none)?;
    arguments_behind(parser, cursor, blocks, first)
}

/// `cargs`
#[tactic(auto, using(crate::proofs::ArgumentSteps::command_is))]
pub fn arguments_of_command<
    F: Fn(Global, &mut Cursor<'_>, Part, u32) -> Result<Reading, Fail> + Copy,
>(parser: &Parser<F>, cursor: &mut Cursor<'_>, blocks: bool) -> Result<Args, Fail>
    requires below { Nests parser.now.depth (F.pre parser.now.names) (F.post parser.now.names) }
    ensures { GivesArgs (read_named table (suc parser.now.depth) (part (p.CommandArguments blocks) parser.now.takes_do parser.now.in_rescue) (ahead cursor.old)) result (ahead cursor.new) }
{
    let none = Args::new(parser.alloc);
    let first = argument_step(parser, cursor, blocks, true, none)?;
    arguments_behind(parser, cursor, blocks, first)
}

/// Arguments behind a pair.
#[tactic(auto, using(crate::proofs::ArgumentSteps::pairs_are))]
pub fn pairs<F: Fn(Global, &mut Cursor<'_>, Part, u32) -> Result<Reading, Fail> + Copy>(
    parser: &Parser<F>,
    cursor: &mut Cursor<'_>,
    blocks: bool,
) -> Result<Args, Fail>
    requires below { Nests parser.now.depth (F.pre parser.now.names) (F.post parser.now.names) }
    ensures { GivesArgs (read_named table (suc parser.now.depth) (part (p.MorePairs blocks) parser.now.takes_do parser.now.in_rescue) (ahead cursor.old)) result (ahead cursor.new) }
{
    let none = Args::new(parser.alloc);
    let first = pair_step(parser, cursor, blocks, none)?;
    arguments_behind(parser, cursor, blocks, first)
}

/// A command or an argument.
#[tactic(auto, unfolding(ruby_meaning::specs::Grammar::Table::table, ruby_meaning::specs::Grammar::Expressions::argument))]
fn read_command<F: Fn(Global, &mut Cursor<'_>, Part, u32) -> Result<Reading, Fail> + Copy>(
    parser: &Parser<F>,
    cursor: &mut Cursor<'_>,
) -> Result<Value, Fail>
    requires below { Nests parser.now.depth (F.pre parser.now.names) (F.post parser.now.names) }
    ensures { ReadsValue (g.commanding parser.now.takes_do parser.now.in_rescue (g.argument parser.now.takes_do parser.now.in_rescue)) (suc parser.now.depth) cursor.old result cursor.new }
{
    commanding(parser, cursor, Right::Argument, Right::Argument)
}
