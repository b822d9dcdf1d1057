//! Commands: a name, `super` or `yield` with arguments that stand in no brackets.

ghost use Rattle.std.specs.Prelude.{◌≡◌, is_some, suc, true, None};
ghost use Rattle.ruby_meaning.specs.Grammar.Actions as act;
ghost use Rattle.ruby_meaning.specs.Grammar.Expressions as g;
ghost use Rattle.grammar.specs.FormReaders.{next_in};
ghost use Rattle.ruby_meaning.specs.Grammar.Table.{begins_command};
ghost use Rattle.ruby_reading.specs.Ahead.{ahead, class_code, Makes, MakesAs};
ghost use Rattle.ruby_expressions.specs.Assignments.{right_rule};
ghost use Rattle.ruby_expressions.specs.Commands as spec;
ghost use Rattle.ruby_reading.specs.Named.{GivesValue, Nests, Reads, ReadsValue};
ghost use Rattle.ruby_primaries.specs.PassedArguments.{shown_passed};
ghost use Rattle.ruby_reading.specs.Shown.{shown_args, shown_value, written_code};

use crate::assignment::{Right, assignment};
use descent::Fail;
use opal_base::{Pos, Span, Units};
use ruby_meaning::{Kind, Literal, Mark, Node, Nodes, Part, Sign, Word};
use ruby_parameters::{first_span, items_of, last_span};
use ruby_primaries::{Passed, do_below, has_pass, parts_of};
use ruby_reading::{
    Args, Cursor, Parser, Reading, Value, Written, ascii, fits, node, nodes, to_end,
};
use sqlite_items::Boxed;
use std::alloc::Global;

/// The marks that begin the arguments of a command.
const MARKED: [Sign; 10] = [
    Sign::Marked(Mark::Minus),
    Sign::Marked(Mark::BracketOpen),
    Sign::Marked(Mark::Star),
    Sign::Marked(Mark::Ampersand),
    Sign::Marked(Mark::ParenOpen),
    Sign::Marked(Mark::ColonColon),
    Sign::Marked(Mark::WordsRound),
    Sign::Marked(Mark::WordsSquare),
    Sign::Marked(Mark::SymbolsRound),
    Sign::Marked(Mark::SymbolsSquare),
];

/// What begins them besides.
const PLAIN: [Sign; 23] = [
    Sign::Name,
    Sign::Const,
    Sign::Ivar,
    Sign::Gvar,
    Sign::Int,
    Sign::Text,
    Sign::TextBegin,
    Sign::Label,
    Sign::Op(Mark::WordsRound),
    Sign::Op(Mark::WordsSquare),
    Sign::Op(Mark::SymbolsRound),
    Sign::Op(Mark::SymbolsSquare),
    Sign::Op(Mark::Arrow),
    Sign::Op(Mark::Bang),
    Sign::Keyword(Word::Nil),
    Sign::Keyword(Word::True),
    Sign::Keyword(Word::False),
    Sign::Keyword(Word::Self_),
    Sign::Keyword(Word::Super),
    Sign::Keyword(Word::Yield),
    Sign::Keyword(Word::Def),
    Sign::Keyword(Word::Case),
    Sign::Keyword(Word::Begin),
];

/// The arguments of a command, and whether a mark begins them.
#[derive(Drop)]
pub struct Command {
    pub args: Args,
    pub marked: bool,
}

/// The arguments of a command, and a `do` block behind them.
#[derive(Drop)]
pub struct CommandPart {
    pub command: Command,
    pub block: Option<Node>,
}

/// Whether the arguments of a command begin here.
#[tactic(auto, using(ruby_reading::proofs::Next::next_or))]
fn begins_command(cursor: &Cursor<'_>) -> bool
    ensures { result ≡ next_in (λ t. begins_command (class_code t)) (ahead cursor.now) }
{
    cursor.sees_one_of(&MARKED) || cursor.sees_one_of(&PLAIN)
}

/// Whether the form of a node is a call without arguments and block.
fn is_call(kind: &Kind) -> bool
    ensures { result ≡ spec.is_call kind.now }
{
    match kind {
        Kind::Call {
            args,
            block: None,
            ..
        } => args.is_empty(),
        Kind::Lit(Literal::BlockGiven) | Kind::Reraise => true,
        Kind::Super {
            args: None,
            block: None,
        } => true,
        _ => false,
    }
}

fn is_bare(written: Written) -> bool
    ensures { result ≡ act.is_bare (written_code written) }
{
    written.is(Written::Variable)
        || written.is(Written::Asking)
        || written.is(Written::Attribute)
        || written.is(Written::Method)
}

/// Whether a command can be made of a value.
fn is_callee(value: &Value) -> bool
    ensures { result ≡ is_some (act.callee (shown_value value.now)) }
{
    is_bare(value.written) && is_call(value.node.kind.get())
}

fn is_empty_yield(kind: &Kind) -> bool
    ensures { result ≡ spec.is_empty_yield kind.now }
{
    match kind {
        Kind::Yield(args) => args.is_empty(),
        _ => false,
    }
}

/// Whether a `yield` can take arguments.
fn yields(value: &Value) -> bool
    ensures { result ≡ act.yields (shown_value value.now) }
{
    value.written.is(Written::Yielding) && is_empty_yield(value.node.kind.get())
}

/// The place where arguments that a mark begins stand.
fn first_place(args: &Args) -> Option<Pos>
    ensures { result ≡ act.first_place (shown_args args.now) }
{
    match first_span(&args.items) {
        Some(span) => Some(span.from),
        None => match first_span(&args.keys) {
            Some(span) => Some(span.from),
            None => match &args.block {
                Some(block) => Some(block.span.from),
                None => None,
            },
        },
    }
}

fn marked_place(command: &Command) -> Option<Pos>
    ensures { result ≡ act.marked_place (spec.shown_command command.now) }
{
    if command.marked {
        first_place(&command.args)
    } else {
        None
    }
}

#[tactic(auto, using(ruby_reading::proofs::Pairs::values_of))]
fn args_span(span: Span, args: &Args) -> Span
    ensures { result ≡ act.args_span span (shown_args args.now) }
{
    match &args.block {
        Some(block) => block.span,
        None => last_span(last_span(span, &args.items), &args.values),
    }
}

/// From the start of a callee to the end of its arguments or its block.
fn command_span(callee: &Node, args: &Args, block: &Option<Node>) -> Span
    ensures { result ≡ act.command_span callee.now (shown_args args.now) block.now }
{
    match block {
        Some(block) => nodes(callee, block),
        None => to_end(callee.span, args_span(callee.span, args)),
    }
}

fn boxed(alloc: Global, node: Option<Node>) -> Result<Option<Boxed<Node>>, Fail>
    ensures { Makes node result }
{
    match node {
        Some(node) => Ok(Some(Boxed::new(alloc, node)?)),
        None => Ok(None),
    }
}

/// The arguments of a command beside a block, and the block or the block pass.
fn beside_block(alloc: Global, args: Args, block: Option<Node>) -> Result<Passed, Fail>
    ensures { MakesAs shown_passed (act.arguments_with (shown_args args) block, act.or_else block ((shown_args args).1.1)) result }
{
    match block {
        Some(block) => Ok(Passed {
            items: items_of(alloc, args)?,
            pass: Some(block),
        }),
        None => parts_of(alloc, args),
    }
}

fn call_of(
    alloc: Global,
    receiver: Option<Boxed<Node>>,
    name: Units,
    passed: Passed,
    marked: Option<Pos>,
) -> Result<Kind, Fail>
    ensures { Makes (spec.call_of receiver name (shown_passed passed) marked) result }
{
    let Passed { items, pass } = passed;
    Ok(Kind::Call {
        receiver,
        name,
        args: items,
        block: boxed(alloc, pass)?,
        marked,
    })
}

fn super_of(alloc: Global, passed: Passed) -> Result<Kind, Fail>
    ensures { Makes (spec.super_of (shown_passed passed)) result }
{
    let Passed { items, pass } = passed;
    Ok(Kind::Super {
        args: Some(items),
        block: boxed(alloc, pass)?,
    })
}

/// The call of a method that has no receiver and whose name is told by the form.
fn named_call(alloc: Global, name: &[u8], passed: Passed, marked: Option<Pos>) -> Result<Kind, Fail>
    ensures { Makes (spec.call_of None name.now (shown_passed passed) marked) result }
{
    let name = ascii(alloc, name)?;
    call_of(alloc, None, name, passed, marked)
}

/// The call or `super` that a command is.
fn command_kind(
    alloc: Global,
    callee: Kind,
    passed: Passed,
    marked: Option<Pos>,
) -> Result<Kind, Fail>
    requires { spec.is_call callee ≡ true }
    ensures { Makes (spec.command_kind callee (shown_passed passed) marked) result }
{
    match callee {
        Kind::Call { receiver, name, .. } => call_of(alloc, receiver, name, passed, marked),
        Kind::Lit(_) => named_call(alloc, b"block_given?", passed, marked),
        Kind::Reraise => named_call(alloc, b"raise", passed, marked),
        Kind::Super { .. } => super_of(alloc, passed),
        other => Ok(other),
    }
}

/// A callee with the arguments of a command.
fn commanded(
    alloc: Global,
    callee: Value,
    command: Command,
    block: Option<Node>,
) -> Result<Value, Fail>
    requires { is_some (act.callee (shown_value callee)) ≡ true }
    ensures { MakesAs shown_value (spec.command_value (shown_value callee) (spec.shown_command command) block) result }
{
    let span = command_span(&callee.node, &command.args, &block);
    let mark = callee.node.mark;
    let marked = marked_place(&command);
    let passed = beside_block(alloc, command.args, block)?;
    let kind = command_kind(alloc, callee.node.kind.into_inner(), passed, marked)?;
    Ok(Value {
        node: node(alloc, kind, span, mark)?,
        written: Written::Commanded,
    })
}

/// `yield` with the arguments of a command.
fn yielded(alloc: Global, callee: Value, command: Command) -> Result<Value, Fail>
    ensures { MakesAs shown_value (spec.yield_value (shown_value callee) (spec.shown_command command)) result }
{
    let span = command_span(&callee.node, &command.args, &None);
    let mark = callee.node.mark;
    let kind = Kind::Yield(items_of(alloc, command.args)?);
    Ok(Value {
        node: node(alloc, kind, span, mark)?,
        written: Written::Commanded,
    })
}

/// The arguments of a command, one level below.
#[tactic(auto, using(crate::proofs::CommandBegins::marked_begins, crate::proofs::CommandBegins::plain_begins), unfolding(ruby_meaning::specs::Grammar::Table::table, ruby_meaning::specs::Grammar::Expressions::command_arguments))]
fn command_arguments_below<
    F: Fn(Global, &mut Cursor<'_>, Part, u32) -> Result<Reading, Fail> + Copy,
>(parser: &Parser<F>, cursor: &mut Cursor<'_>, blocks: bool) -> Result<Command, Fail>
    requires below { Nests parser.now.depth (F.pre parser.now.names) (F.post parser.now.names) }
    ensures { Reads spec.shown_command (g.command_arguments parser.now.takes_do parser.now.in_rescue blocks) parser.now.depth cursor.old result cursor.new }
{
    if cursor.sees_one_of(&MARKED) {
        let args = parser.command_arguments(cursor, blocks, false)?;
        return Ok(Command { args, marked: true });
    }
    if !cursor.sees_one_of(&PLAIN) {
        return Err(Fail::Refused);
    }
    let args = parser.command_arguments(cursor, blocks, false)?;
    Ok(Command {
        args,
        marked: false,
    })
}

/// A `do` block behind arguments, where one may be taken and no block pass stands there.
#[tactic(auto, unfolding(ruby_meaning::specs::Grammar::Table::table, ruby_meaning::specs::Grammar::Calls::do_block, ruby_meaning::specs::Grammar::Calls::do_parts))]
fn do_beside<F: Fn(Global, &mut Cursor<'_>, Part, u32) -> Result<Reading, Fail> + Copy>(
    parser: &Parser<F>,
    cursor: &mut Cursor<'_>,
    passes: bool,
) -> Result<Option<Node>, Fail>
    requires below { Nests parser.now.depth (F.pre parser.now.names) (F.post parser.now.names) }
    ensures { Reads (λ n. n) (spec.do_beside parser.now.takes_do parser.now.in_rescue passes) parser.now.depth cursor.old result cursor.new }
{
    if !parser.takes_do || passes || !cursor.sees(Sign::Keyword(Word::Do)) {
        return Ok(None);
    }
    Ok(Some(do_below(parser, cursor)?))
}

/// The arguments of a command and a `do` block, one level below.
#[tactic(auto, unfolding(ruby_meaning::specs::Grammar::Table::table, ruby_meaning::specs::Grammar::Expressions::command_part))]
fn command_part<F: Fn(Global, &mut Cursor<'_>, Part, u32) -> Result<Reading, Fail> + Copy>(
    parser: &Parser<F>,
    cursor: &mut Cursor<'_>,
) -> Result<CommandPart, Fail>
    requires below { Nests parser.now.depth (F.pre parser.now.names) (F.post parser.now.names) }
    ensures { Reads spec.shown_part (g.command_part parser.now.takes_do parser.now.in_rescue) parser.now.depth cursor.old result cursor.new }
{
    let command = command_arguments_below(parser, cursor, true)?;
    let block = do_beside(parser, cursor, has_pass(&command.args))?;
    Ok(CommandPart { command, block })
}

/// The arguments of a command behind what takes them.
#[tactic(auto, using(crate::proofs::CommandBegins::command_seen), unfolding(ruby_meaning::specs::Grammar::Table::table))]
fn command_behind<F: Fn(Global, &mut Cursor<'_>, Part, u32) -> Result<Reading, Fail> + Copy>(
    parser: &Parser<F>,
    cursor: &mut Cursor<'_>,
    callee: Value,
) -> Result<Value, Fail>
    requires below { Nests parser.now.depth (F.pre parser.now.names) (F.post parser.now.names) }
    ensures { GivesValue (spec.command_behind parser.now.takes_do parser.now.in_rescue parser.now.depth (shown_value callee) (ahead cursor.old)) result (ahead cursor.new) }
{
    if !begins_command(cursor) || !is_callee(&callee) || !fits(&callee.node, parser.depth + 1) {
        return Ok(callee);
    }
    let CommandPart { command, block } = command_part(parser, cursor)?;
    commanded(parser.alloc, callee, command, block)
}

/// The arguments of a command behind `yield`.
#[tactic(auto, using(crate::proofs::CommandBegins::yield_seen), unfolding(ruby_meaning::specs::Grammar::Table::table))]
fn yield_behind<F: Fn(Global, &mut Cursor<'_>, Part, u32) -> Result<Reading, Fail> + Copy>(
    parser: &Parser<F>,
    cursor: &mut Cursor<'_>,
    callee: Value,
) -> Result<Value, Fail>
    requires below { Nests parser.now.depth (F.pre parser.now.names) (F.post parser.now.names) }
    ensures { GivesValue (spec.yield_behind parser.now.takes_do parser.now.in_rescue parser.now.depth (shown_value callee) (ahead cursor.old)) result (ahead cursor.new) }
{
    if !begins_command(cursor) || !yields(&callee) || !fits(&callee.node, parser.depth + 1) {
        return Ok(callee);
    }
    let command = command_arguments_below(parser, cursor, false)?;
    yielded(parser.alloc, callee, command)
}

/// A command, an assignment, or a value that stands without them.
#[tactic(auto, unfolding(ruby_meaning::specs::Grammar::Table::table))]
pub fn commanding<F: Fn(Global, &mut Cursor<'_>, Part, u32) -> Result<Reading, Fail> + Copy>(
    parser: &Parser<F>,
    cursor: &mut Cursor<'_>,
    value: Right,
    updated: Right,
) -> Result<Value, Fail>
    requires below { Nests parser.now.depth (F.pre parser.now.names) (F.post parser.now.names) }
    ensures { ReadsValue (g.commanding parser.now.takes_do parser.now.in_rescue (g.assignment parser.now.takes_do parser.now.in_rescue (right_rule value parser.now.takes_do parser.now.in_rescue) (right_rule updated parser.now.takes_do parser.now.in_rescue))) (suc parser.now.depth) cursor.old result cursor.new }
{
    let callee = assignment(parser, cursor, value, updated)?;
    let callee = command_behind(parser, cursor, callee)?;
    yield_behind(parser, cursor, callee)
}
