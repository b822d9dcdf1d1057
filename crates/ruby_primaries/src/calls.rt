//! Brackets and blocks of calls.

ghost use Rattle.std.specs.Prelude.{◌≡◌, is_some, suc};
ghost use Rattle.grammar.specs.FormReaders.{next_in};
ghost use Rattle.grammar.specs.Readers.{read_named, read_rule};
ghost use Rattle.ruby_meaning.specs.declared.token.Mark.TheVariants as mark;
ghost use Rattle.ruby_meaning.specs.Grammar.Actions as act;
ghost use Rattle.ruby_meaning.specs.Grammar.Calls as g;
ghost use Rattle.ruby_meaning.specs.Grammar.Classes.{op};
ghost use Rattle.ruby_meaning.specs.Grammar.Table.{table, begins_argument};
ghost use Rattle.ruby_reading.specs.Ahead.{ahead, see, class_code, Makes, MakesAs};
ghost use Rattle.ruby_primaries.specs.CallParts as spec;
ghost use Rattle.ruby_reading.specs.Named.{Nests, Reads, ReadsNode};
ghost use Rattle.ruby_reading.specs.Shown.{shown_args, shown_body};

use crate::passed::{closing, has_pass};
use descent::Fail;
use ruby_meaning::{Kind, Mark, Node, Params, Part, Sign, Word};
use ruby_parameters::block_parameters;
use ruby_reading::{
    Args, Body, Cursor, Parser, Reading, STARS, Sight, VALUES, filled, node, start, tokens,
};
use sqlite_items::Boxed;
use std::alloc::Global;

const BLOCKS: [Sign; 2] = [Sign::Op(Mark::BraceOpen), Sign::Keyword(Word::Do)];

/// Arguments and the bracket behind them.
#[derive(Drop)]
pub struct Closed<'a> {
    pub args: Args,
    pub close: Sight<'a>,
}

/// What stands behind a name: arguments in brackets, and a block.
#[derive(Drop)]
pub struct Tail<'a> {
    pub paren: Option<Closed<'a>>,
    pub block: Option<Node>,
}

/// The parts of a block.
#[derive(Drop)]
pub struct BlockParts<'a> {
    pub opening: Sight<'a>,
    pub params: Params,
    pub body: Body,
    pub closing: Sight<'a>,
}

/// Whether an argument begins here.
#[tactic(auto, using(crate::proofs::LiteralLists::argument_seen))]
pub fn sees_argument(cursor: &Cursor<'_>) -> bool
    ensures { result ≡ next_in (λ t. begins_argument (class_code t)) (ahead cursor.now) }
{
    cursor.sees_one_of(&VALUES)
        || cursor.sees_one_of(&STARS)
        || cursor.sees(Sign::Label)
        || cursor.sees(Sign::Op(Mark::Ampersand))
        || cursor.sees(Sign::Marked(Mark::Ampersand))
}

/// Whether there is a block pass.
fn passes_block(paren: &Option<Closed<'_>>) -> bool
    ensures { result ≡ is_some (act.block_pass (spec.shown_closed_if paren.now)) }
{
    match paren {
        Some(closed) => has_pass(&closed.args),
        None => false,
    }
}

fn block_node(alloc: Global, parts: BlockParts<'_>) -> Result<Node, Fail>
    ensures { Makes (spec.block_node (see parts.entry.opening) parts.entry.params (shown_body parts.entry.body) (see parts.entry.closing)) result }
{
    let span = tokens(parts.opening, parts.closing);
    let from = start(parts.opening);
    let kind = Kind::Block {
        params: parts.params,
        body: Boxed::new(alloc, filled(span, parts.body))?,
    };
    Ok(node(alloc, kind, span, from)?)
}

/// `[arguments]`
#[tactic(auto, unfolding(ruby_meaning::specs::Grammar::Table::table))]
fn some_arguments<F: Fn(Global, &mut Cursor<'_>, Part, u32) -> Result<Reading, Fail> + Copy>(
    parser: &Parser<F>,
    cursor: &mut Cursor<'_>,
    blocks: bool,
) -> Result<Args, Fail>
    requires below { Nests parser.now.depth (F.pre parser.now.names) (F.post parser.now.names) }
    ensures { Reads shown_args (spec.some_arguments parser.now.in_rescue blocks) parser.now.depth cursor.old result cursor.new }
{
    if !sees_argument(cursor) {
        return Ok(Args::new(parser.alloc));
    }
    parser.bracket_arguments(cursor, blocks)
}

/// `[arguments] "]"`
#[tactic(auto, unfolding(ruby_meaning::specs::Grammar::Table::table, ruby_meaning::specs::Grammar::Calls::closed, ruby_meaning::specs::Grammar::Parameters::behind_newlines, ruby_meaning::specs::Grammar::Parameters::newlines))]
pub fn read_closed<'a, F: Fn(Global, &mut Cursor<'_>, Part, u32) -> Result<Reading, Fail> + Copy>(
    parser: &Parser<F>,
    cursor: &mut Cursor<'a>,
    blocks: bool,
) -> Result<Closed<'a>, Fail>
    requires below { Nests parser.now.depth (F.pre parser.now.names) (F.post parser.now.names) }
    ensures { Reads spec.shown_closed (g.closed parser.now.in_rescue blocks (op mark.BracketClose)) parser.now.depth cursor.old result cursor.new }
{
    let args = some_arguments(parser, cursor, blocks)?;
    let close = closing(cursor, Sign::Op(Mark::BracketClose))?;
    Ok(Closed { args, close })
}

/// `"(" [cargs] ")"`, directly behind a name
#[tactic(auto, unfolding(ruby_meaning::specs::Grammar::Table::table, ruby_meaning::specs::Grammar::Calls::paren, ruby_meaning::specs::Grammar::Parameters::behind_newlines, ruby_meaning::specs::Grammar::Parameters::newlines))]
pub fn paren<'a, F: Fn(Global, &mut Cursor<'_>, Part, u32) -> Result<Reading, Fail> + Copy>(
    parser: &Parser<F>,
    cursor: &mut Cursor<'a>,
    blocks: bool,
) -> Result<Closed<'a>, Fail>
    requires below { Nests parser.now.depth (F.pre parser.now.names) (F.post parser.now.names) }
    ensures { Reads spec.shown_closed (g.paren parser.now.in_rescue blocks) parser.now.depth cursor.old result cursor.new }
{
    cursor.take(Sign::CallOpen)?;
    let args = if sees_argument(cursor) {
        parser.command_arguments(cursor, blocks, true)?
    } else {
        Args::new(parser.alloc)
    };
    let close = closing(cursor, Sign::Op(Mark::ParenClose))?;
    Ok(Closed { args, close })
}

/// `"{" ["|" [params] "|"] stmts "}"`
#[tactic(auto, unfolding(ruby_meaning::specs::Grammar::Table::table, ruby_meaning::specs::Grammar::Calls::brace_parts))]
pub fn brace_parts<'a, F: Fn(Global, &mut Cursor<'_>, Part, u32) -> Result<Reading, Fail> + Copy>(
    parser: &Parser<F>,
    cursor: &mut Cursor<'a>,
) -> Result<BlockParts<'a>, Fail>
    requires below { Nests parser.now.depth (F.pre parser.now.names) (F.post parser.now.names) }
    ensures { spec.GivesBlock (read_rule table (read_named table) (g.brace_parts parser.now.in_rescue) parser.now.depth (ahead cursor.old)) result (ahead cursor.new) }
{
    let opening = cursor.take(Sign::Op(Mark::BraceOpen))?;
    let params = block_parameters(parser, cursor)?;
    let body = parser.statements(cursor, parser.in_rescue)?;
    let closing = cursor.take(Sign::Op(Mark::BraceClose))?;
    Ok(BlockParts {
        opening,
        params,
        body,
        closing,
    })
}

/// `"do" ["|" [params] "|"] stmts "end"`
#[tactic(auto, unfolding(ruby_meaning::specs::Grammar::Table::table, ruby_meaning::specs::Grammar::Calls::do_parts))]
pub fn do_parts<'a, F: Fn(Global, &mut Cursor<'_>, Part, u32) -> Result<Reading, Fail> + Copy>(
    parser: &Parser<F>,
    cursor: &mut Cursor<'a>,
) -> Result<BlockParts<'a>, Fail>
    requires below { Nests parser.now.depth (F.pre parser.now.names) (F.post parser.now.names) }
    ensures { spec.GivesBlock (read_rule table (read_named table) (g.do_parts parser.now.in_rescue) parser.now.depth (ahead cursor.old)) result (ahead cursor.new) }
{
    let opening = cursor.take(Sign::Keyword(Word::Do))?;
    let params = block_parameters(parser, cursor)?;
    let body = parser.statements(cursor, parser.in_rescue)?;
    let closing = cursor.take(Sign::Keyword(Word::End))?;
    Ok(BlockParts {
        opening,
        params,
        body,
        closing,
    })
}

/// A block in braces.
#[tactic(auto, unfolding(ruby_meaning::specs::Grammar::Table::table, ruby_meaning::specs::Grammar::Calls::brace_block))]
pub fn brace_block<F: Fn(Global, &mut Cursor<'_>, Part, u32) -> Result<Reading, Fail> + Copy>(
    parser: &Parser<F>,
    cursor: &mut Cursor<'_>,
) -> Result<Node, Fail>
    requires below { Nests parser.now.depth (F.pre parser.now.names) (F.post parser.now.names) }
    ensures { ReadsNode (g.brace_block parser.now.in_rescue) (suc parser.now.depth) cursor.old result cursor.new }
{
    let parts = brace_parts(parser, cursor)?;
    block_node(parser.alloc, parts)
}

/// A block from `do` to `end`.
#[tactic(auto, unfolding(ruby_meaning::specs::Grammar::Table::table, ruby_meaning::specs::Grammar::Calls::do_block))]
pub fn do_block<F: Fn(Global, &mut Cursor<'_>, Part, u32) -> Result<Reading, Fail> + Copy>(
    parser: &Parser<F>,
    cursor: &mut Cursor<'_>,
) -> Result<Node, Fail>
    requires below { Nests parser.now.depth (F.pre parser.now.names) (F.post parser.now.names) }
    ensures { ReadsNode (g.do_block parser.now.in_rescue) (suc parser.now.depth) cursor.old result cursor.new }
{
    let parts = do_parts(parser, cursor)?;
    block_node(parser.alloc, parts)
}

/// A block in braces one level below.
#[tactic(auto, using(ruby_reading::proofs::Named::nests_below, ruby_parameters::proofs::Levels::node_none, ruby_parameters::proofs::Below::one_below), unfolding(ruby_meaning::specs::Grammar::Table::table, ruby_meaning::specs::Grammar::Calls::brace_block))]
fn brace_below<F: Fn(Global, &mut Cursor<'_>, Part, u32) -> Result<Reading, Fail> + Copy>(
    parser: &Parser<F>,
    cursor: &mut Cursor<'_>,
) -> Result<Node, Fail>
    requires below { Nests parser.now.depth (F.pre parser.now.names) (F.post parser.now.names) }
    ensures { ReadsNode (g.brace_block parser.now.in_rescue) parser.now.depth cursor.old result cursor.new }
{
    if parser.depth == 0 {
        return Err(Fail::Refused);
    }
    brace_block(&parser.below(), cursor)
}

/// A block from `do` to `end` one level below.
#[tactic(auto, using(ruby_reading::proofs::Named::nests_below, ruby_parameters::proofs::Levels::node_none, ruby_parameters::proofs::Below::one_below), unfolding(ruby_meaning::specs::Grammar::Table::table, ruby_meaning::specs::Grammar::Calls::do_block))]
pub fn do_below<F: Fn(Global, &mut Cursor<'_>, Part, u32) -> Result<Reading, Fail> + Copy>(
    parser: &Parser<F>,
    cursor: &mut Cursor<'_>,
) -> Result<Node, Fail>
    requires below { Nests parser.now.depth (F.pre parser.now.names) (F.post parser.now.names) }
    ensures { ReadsNode (g.do_block parser.now.in_rescue) parser.now.depth cursor.old result cursor.new }
{
    if parser.depth == 0 {
        return Err(Fail::Refused);
    }
    do_block(&parser.below(), cursor)
}

/// A block one level below.
#[tactic(auto, unfolding(ruby_meaning::specs::Grammar::Table::table, ruby_meaning::specs::Grammar::Calls::block, ruby_meaning::specs::Grammar::Calls::brace_block, ruby_meaning::specs::Grammar::Calls::do_block, ruby_meaning::specs::Grammar::Calls::brace_parts, ruby_meaning::specs::Grammar::Calls::do_parts))]
pub fn block<F: Fn(Global, &mut Cursor<'_>, Part, u32) -> Result<Reading, Fail> + Copy>(
    parser: &Parser<F>,
    cursor: &mut Cursor<'_>,
) -> Result<Node, Fail>
    requires below { Nests parser.now.depth (F.pre parser.now.names) (F.post parser.now.names) }
    ensures { ReadsNode (g.block parser.now.in_rescue parser.now.takes_do) parser.now.depth cursor.old result cursor.new }
{
    if !parser.takes_do || cursor.sees(Sign::Op(Mark::BraceOpen)) {
        brace_below(parser, cursor)
    } else {
        do_below(parser, cursor)
    }
}

/// Whether a block begins here.
#[tactic(auto, unfolding(ruby_meaning::specs::Grammar::Table::table, ruby_meaning::specs::Grammar::Calls::block, ruby_meaning::specs::Grammar::Calls::brace_block, ruby_meaning::specs::Grammar::Calls::do_block, ruby_meaning::specs::Grammar::Calls::brace_parts, ruby_meaning::specs::Grammar::Calls::do_parts))]
pub fn sees_block<F: Fn(Global, &mut Cursor<'_>, Part, u32) -> Result<Reading, Fail> + Copy>(
    parser: &Parser<F>,
    cursor: &Cursor<'_>,
) -> bool
    ensures { result ≡ next_in (λ t. g.begins_block parser.now.in_rescue parser.now.takes_do (class_code t)) (ahead cursor.now) }
{
    if parser.takes_do {
        cursor.sees_one_of(&BLOCKS)
    } else {
        cursor.sees(Sign::Op(Mark::BraceOpen))
    }
}

/// A block, where no block pass stands.
#[tactic(auto, using(crate::proofs::BlockBegins::block_seen), unfolding(ruby_meaning::specs::Grammar::Table::table))]
pub fn block_beside<F: Fn(Global, &mut Cursor<'_>, Part, u32) -> Result<Reading, Fail> + Copy>(
    parser: &Parser<F>,
    cursor: &mut Cursor<'_>,
    passes: bool,
) -> Result<Option<Node>, Fail>
    requires below { Nests parser.now.depth (F.pre parser.now.names) (F.post parser.now.names) }
    ensures { Reads (λ n. n) (g.block_beside parser.now.in_rescue parser.now.takes_do passes) parser.now.depth cursor.old result cursor.new }
{
    if passes || !sees_block(parser, cursor) {
        return Ok(None);
    }
    Ok(Some(block(parser, cursor)?))
}

/// `[paren]`
#[tactic(auto, unfolding(ruby_meaning::specs::Grammar::Table::table, ruby_meaning::specs::Grammar::Calls::paren))]
fn paren_if<'a, F: Fn(Global, &mut Cursor<'_>, Part, u32) -> Result<Reading, Fail> + Copy>(
    parser: &Parser<F>,
    cursor: &mut Cursor<'a>,
) -> Result<Option<Closed<'a>>, Fail>
    requires below { Nests parser.now.depth (F.pre parser.now.names) (F.post parser.now.names) }
    ensures { Reads spec.shown_closed_if (spec.paren_if parser.now.in_rescue) parser.now.depth cursor.old result cursor.new }
{
    if !cursor.sees(Sign::CallOpen) {
        return Ok(None);
    }
    Ok(Some(paren(parser, cursor, true)?))
}

/// `[paren] [block]`
#[tactic(auto, unfolding(ruby_meaning::specs::Grammar::Table::table, ruby_meaning::specs::Grammar::Calls::tail))]
pub fn read_tail<'a, F: Fn(Global, &mut Cursor<'_>, Part, u32) -> Result<Reading, Fail> + Copy>(
    parser: &Parser<F>,
    cursor: &mut Cursor<'a>,
) -> Result<Tail<'a>, Fail>
    requires below { Nests parser.now.depth (F.pre parser.now.names) (F.post parser.now.names) }
    ensures { Reads spec.shown_tail (g.tail parser.now.in_rescue parser.now.takes_do) parser.now.depth cursor.old result cursor.new }
{
    let paren = paren_if(parser, cursor)?;
    let block = block_beside(parser, cursor, passes_block(&paren))?;
    Ok(Tail { paren, block })
}

/// `paren [block]`
#[tactic(auto, unfolding(ruby_meaning::specs::Grammar::Table::table, ruby_meaning::specs::Grammar::Calls::paren_tail))]
pub fn paren_tail<'a, F: Fn(Global, &mut Cursor<'_>, Part, u32) -> Result<Reading, Fail> + Copy>(
    parser: &Parser<F>,
    cursor: &mut Cursor<'a>,
) -> Result<Tail<'a>, Fail>
    requires below { Nests parser.now.depth (F.pre parser.now.names) (F.post parser.now.names) }
    ensures { Reads spec.shown_tail (g.paren_tail parser.now.in_rescue parser.now.takes_do) parser.now.depth cursor.old result cursor.new }
{
    let paren = paren(parser, cursor, true)?;
    let block = block_beside(parser, cursor, has_pass(&paren.args))?;
    Ok(Tail {
        paren: Some(paren),
        block,
    })
}
