//! Names, constants and lambdas, with what stands behind them in brackets and blocks.

ghost use Rattle.std.specs.Prelude.{◌≡◌, codes, suc, None};
ghost use Rattle.grammar.specs.FormReaders.{next_in};
ghost use Rattle.grammar.specs.Readers.{read_named, read_rule};
ghost use Rattle.ruby_meaning.specs.Grammar.Actions as act;
ghost use Rattle.ruby_meaning.specs.Grammar.Calls as calls;
ghost use Rattle.ruby_meaning.specs.Grammar.Primaries as g;
ghost use Rattle.ruby_meaning.specs.Grammar.Table.{table};
ghost use Rattle.ruby_reading.specs.Ahead.{ahead, see, class_code, Makes, MakesAs};
ghost use Rattle.ruby_primaries.specs.CallParts.{shown_closed, shown_closed_if, shown_tail};
ghost use Rattle.ruby_operands.specs.CallValues as spec;
ghost use Rattle.ruby_reading.specs.Named.{Nests, Reads, ReadsNode, ReadsValue};
ghost use Rattle.ruby_reading.specs.Shown.{shown_body, shown_value, written_code};
ghost use Rattle.ruby_primaries.specs.PassedArguments.{shown_passed};
ghost use Rattle.ruby_parameters.specs.Parameters.{GivesParams};

use descent::Fail;
use opal_base::{Pos, Span, Units};
use ruby_forms::keyword_form;
use ruby_meaning::{Base, Kind, Literal, Mark, Node, Params, Part, Sign, Word};
use ruby_parameters::{ends_in_sign, items_of, no_parameters, some_parameters};
use ruby_primaries::{
    BlockParts, Closed, Passed, Tail, array, block_beside, brace_parts, closing, do_parts,
    gvar_value, has_pass, hash_value, integer_value, interpolated, is_empty, ivar_value, paren,
    paren_tail, parenthesized, parts_of, read_tail, sees_block, text, top_constant, word_list,
    word_value,
};
use ruby_reading::{
    Body, Cursor, Parser, ROUND, Reading, SQUARE, Sight, Value, WORD_LISTS, Written, boxed_if,
    filled, node, span_of, start, to_end, tokens, units,
};
use sqlite_items::{Boxed, Items};
use std::alloc::Global;

const BLOCK_GIVEN: [u16; 12] = [98, 108, 111, 99, 107, 95, 103, 105, 118, 101, 110, 63];

const RAISE: [u16; 5] = [114, 97, 105, 115, 101];

const LAMBDA: [u16; 6] = [108, 97, 109, 98, 100, 97];

const CLOSINGS: [Sign; 2] = [Sign::Newline, Sign::Op(Mark::ParenClose)];

const TOPS: [Sign; 2] = [Sign::Op(Mark::ColonColon), Sign::Marked(Mark::ColonColon)];

/// Statements and the token behind them.
#[derive(Drop)]
pub struct Bodied<'a> {
    pub body: Body,
    pub closing: Sight<'a>,
}

/// The end of what has been read last.
pub fn end_of(span: Span, tail: &Tail<'_>) -> Span
    ensures { result ≡ spec.end_of_tail span (shown_tail tail.now) }
{
    match &tail.block {
        Some(block) => block.span,
        None => match &tail.paren {
            Some(closed) => span_of(closed.close),
            None => span,
        },
    }
}

/// The arguments of a call, and its block or block pass.
pub fn passed(alloc: Global, tail: Tail<'_>) -> Result<Passed, Fail>
    ensures { MakesAs shown_passed (spec.passed (shown_tail tail.entry)) result }
{
    let Tail { paren, block } = tail;
    match block {
        Some(block) => match paren {
            Some(closed) => Ok(Passed {
                items: items_of(alloc, closed.args)?,
                pass: Some(block),
            }),
            None => Ok(Passed {
                items: Items::new(alloc),
                pass: Some(block),
            }),
        },
        None => match paren {
            Some(closed) => parts_of(alloc, closed.args),
            None => Ok(Passed {
                items: Items::new(alloc),
                pass: None,
            }),
        },
    }
}

/// The call of a method, with what stands behind its name.
pub fn call_node(
    alloc: Global,
    receiver: Option<Node>,
    name: Units,
    tail: Tail<'_>,
    span: Span,
    mark: Pos,
) -> Result<Node, Fail>
    ensures { Makes (act.call_node receiver name (shown_tail tail.entry) span mark) result }
{
    let Passed { items, pass } = passed(alloc, tail)?;
    let kind = Kind::Call {
        receiver: boxed_if(alloc, receiver)?,
        name,
        args: items,
        block: boxed_if(alloc, pass)?,
        marked: None,
    };
    Ok(node(alloc, kind, span, mark)?)
}

/// The call of a name.
fn called_node(alloc: Global, name: Sight<'_>, tail: Tail<'_>) -> Result<Value, Fail>
    ensures { MakesAs shown_value (spec.called_node (see name.entry) (shown_tail tail.entry)) result }
{
    let span = to_end(span_of(name), end_of(span_of(name), &tail));
    let units = units(alloc, name)?;
    Ok(Value {
        node: call_node(alloc, None, units, tail, span, start(name))?,
        written: Written::Other,
    })
}

fn is_block_given(name: &Units) -> bool
    ensures { result ≡ act.is_name (codes "block_given?") name.now }
{
    name.as_slice() == &BLOCK_GIVEN[..]
}

fn is_raise(name: &Units) -> bool
    ensures { result ≡ act.is_name (codes "raise") name.now }
{
    name.as_slice() == &RAISE[..]
}

fn is_lambda_name(name: &Units) -> bool
    ensures { result ≡ act.is_name (codes "lambda") name.now }
{
    name.as_slice() == &LAMBDA[..]
}

fn is_lambda(alloc: Global, name: Sight<'_>) -> Result<bool, Fail>
    ensures { Makes (act.is_lambda (see name.entry)) result }
{
    Ok(is_lambda_name(&units(alloc, name)?))
}

fn bare_kind(alloc: Global, in_rescue: bool, name: Units) -> Kind
    ensures { result ≡ spec.bare_kind in_rescue name }
{
    if is_block_given(&name) {
        return Kind::Lit(Literal::BlockGiven);
    }
    if in_rescue && is_raise(&name) {
        return Kind::Reraise;
    }
    Kind::Call {
        receiver: None,
        name,
        args: Items::new(alloc),
        block: None,
        marked: None,
    }
}

/// A name without arguments and block.
#[tactic(auto, using(crate::proofs::CallLevels::bare_made))]
fn bare_node(
    alloc: Global,
    in_rescue: bool,
    name: Units,
    span: Span,
    mark: Pos,
) -> Result<Node, Fail>
    ensures { Makes (act.bare_node in_rescue name span mark) result }
{
    let kind = bare_kind(alloc, in_rescue, name);
    Ok(node(alloc, kind, span, mark)?)
}

fn plain_or(plain: Written, other: Written, name: &Units) -> Written
    ensures { written_code result ≡ act.plain_or (written_code plain) (written_code other) name.now }
{
    if ends_in_sign(name) { other } else { plain }
}

/// A name alone.
fn name_alone(alloc: Global, in_rescue: bool, name: Sight<'_>) -> Result<Value, Fail>
    ensures { MakesAs shown_value (spec.name_alone in_rescue (see name.entry)) result }
{
    let text = units(alloc, name)?;
    let written = plain_or(Written::Variable, Written::Asking, &text);
    Ok(Value {
        node: bare_node(alloc, in_rescue, text, span_of(name), start(name))?,
        written,
    })
}

/// A name with empty brackets.
fn name_closed(
    alloc: Global,
    in_rescue: bool,
    name: Sight<'_>,
    close: Sight<'_>,
) -> Result<Value, Fail>
    ensures { MakesAs shown_value (spec.name_closed in_rescue (see name.entry) (see close.entry)) result }
{
    let text = units(alloc, name)?;
    Ok(Value {
        node: bare_node(alloc, in_rescue, text, tokens(name, close), start(name))?,
        written: Written::Other,
    })
}

/// A name and what stands behind it.
#[tactic(auto, using(crate::proofs::CallLevels::name_with_none, crate::proofs::CallLevels::name_with_some))]
fn named_node(
    alloc: Global,
    in_rescue: bool,
    name: Sight<'_>,
    tail: Tail<'_>,
) -> Result<Value, Fail>
    ensures { MakesAs shown_value (act.named_node in_rescue (see name.entry) (shown_tail tail.entry)) result }
{
    if tail.block.is_some() {
        return called_node(alloc, name, tail);
    }
    match &tail.paren {
        None => name_alone(alloc, in_rescue, name),
        Some(closed) => {
            if is_empty(&closed.args) {
                name_closed(alloc, in_rescue, name, closed.close)
            } else {
                called_node(alloc, name, tail)
            }
        }
    }
}

/// A constant, or a method whose name is written as one.
fn constant_node(alloc: Global, name: Sight<'_>, tail: Tail<'_>) -> Result<Value, Fail>
    ensures { MakesAs shown_value (act.constant_node (see name.entry) (shown_tail tail.entry)) result }
{
    if tail.block.is_some() || tail.paren.is_some() {
        return called_node(alloc, name, tail);
    }
    let kind = Kind::ConstGet {
        base: Base::Here,
        name: units(alloc, name)?,
    };
    Ok(Value {
        node: node(alloc, kind, span_of(name), start(name))?,
        written: Written::Variable,
    })
}

fn super_alone(alloc: Global, name: Sight<'_>, block: Option<Node>) -> Result<Value, Fail>
    ensures { MakesAs shown_value (act.super_node (see name.entry) (None, block)) result }
{
    match block {
        Some(block) => {
            let span = to_end(span_of(name), block.span);
            let kind = Kind::Super {
                args: None,
                block: Some(Boxed::new(alloc, block)?),
            };
            Ok(Value {
                node: node(alloc, kind, span, start(name))?,
                written: Written::Other,
            })
        }
        None => {
            let kind = Kind::Super {
                args: None,
                block: None,
            };
            let span = to_end(span_of(name), span_of(name));
            Ok(Value {
                node: node(alloc, kind, span, start(name))?,
                written: Written::Method,
            })
        }
    }
}

fn super_node(alloc: Global, name: Sight<'_>, tail: Tail<'_>) -> Result<Value, Fail>
    ensures { MakesAs shown_value (act.super_node (see name.entry) (shown_tail tail.entry)) result }
{
    if tail.paren.is_none() {
        return super_alone(alloc, name, tail.block);
    }
    let span = to_end(span_of(name), end_of(span_of(name), &tail));
    let Passed { items, pass } = passed(alloc, tail)?;
    let kind = Kind::Super {
        args: Some(items),
        block: boxed_if(alloc, pass)?,
    };
    Ok(Value {
        node: node(alloc, kind, span, start(name))?,
        written: Written::Other,
    })
}

fn yield_node(alloc: Global, word: Sight<'_>, paren: Option<Closed<'_>>) -> Result<Value, Fail>
    ensures { MakesAs shown_value (act.yield_node (see word.entry) (shown_closed_if paren.entry)) result }
{
    match paren {
        None => Ok(Value {
            node: node(
                alloc,
                Kind::Yield(Items::new(alloc)),
                span_of(word),
                start(word),
            )?,
            written: Written::Yielding,
        }),
        Some(closed) => {
            let span = tokens(word, closed.close);
            let kind = Kind::Yield(items_of(alloc, closed.args)?);
            Ok(Value {
                node: node(alloc, kind, span, start(word))?,
                written: Written::Other,
            })
        }
    }
}

/// Parameters and statements from a token to another.
fn lambda_of(alloc: Global, params: Params, body: Body, span: Span) -> Result<Node, Fail>
    ensures { Makes (spec.lambda_of params (shown_body body) span) result }
{
    let kind = Kind::Lambda {
        params,
        body: Boxed::new(alloc, filled(span, body))?,
    };
    Ok(node(alloc, kind, span, span.from)?)
}

/// Whether `nil` or a keyword like it stands next.
#[tactic(auto, using(crate::proofs::CallLevels::word_seen))]
fn sees_word(cursor: &Cursor<'_>) -> bool
    ensures { result ≡ next_in spec.begins_word (ahead cursor.now) }
{
    cursor.sees(Sign::Keyword(Word::Nil))
        || (cursor.sees(Sign::Keyword(Word::True))
            || (cursor.sees(Sign::Keyword(Word::False))
                || (cursor.sees(Sign::Keyword(Word::Self_))
                    || cursor.sees(Sign::Keyword(Word::Retry)))))
}

/// `name [paren] [block]`, behind the name
#[tactic(auto, unfolding(ruby_meaning::specs::Grammar::Table::table, ruby_meaning::specs::Grammar::Primaries::plain_call))]
fn plain_call<F: Fn(Global, &mut Cursor<'_>, Part, u32) -> Result<Reading, Fail> + Copy>(
    parser: &Parser<F>,
    cursor: &mut Cursor<'_>,
    name: Sight<'_>,
) -> Result<Value, Fail>
    requires below { Nests parser.now.depth (F.pre parser.now.names) (F.post parser.now.names) }
    ensures { ReadsValue (g.plain_call parser.now.in_rescue parser.now.takes_do (see name.entry)) (suc parser.now.depth) cursor.old result cursor.new }
{
    let tail = read_tail(parser, cursor)?;
    named_node(parser.alloc, parser.in_rescue, name, tail)
}

/// The block of a `lambda` in braces.
#[tactic(auto, unfolding(ruby_meaning::specs::Grammar::Table::table))]
fn lambda_braces<F: Fn(Global, &mut Cursor<'_>, Part, u32) -> Result<Reading, Fail> + Copy>(
    parser: &Parser<F>,
    cursor: &mut Cursor<'_>,
    name: Sight<'_>,
) -> Result<Node, Fail>
    requires below { Nests parser.now.depth (F.pre parser.now.names) (F.post parser.now.names) }
    ensures { ReadsNode (g.lambda_literal parser.now.in_rescue (see name.entry) (calls.brace_parts parser.now.in_rescue)) (suc parser.now.depth) cursor.old result cursor.new }
{
    let BlockParts {
        opening: _,
        params,
        body,
        closing,
    } = brace_parts(parser, cursor)?;
    lambda_of(parser.alloc, params, body, tokens(name, closing))
}

/// The block of a `lambda` from `do` to `end`.
#[tactic(auto, unfolding(ruby_meaning::specs::Grammar::Table::table))]
fn lambda_do<F: Fn(Global, &mut Cursor<'_>, Part, u32) -> Result<Reading, Fail> + Copy>(
    parser: &Parser<F>,
    cursor: &mut Cursor<'_>,
    name: Sight<'_>,
) -> Result<Node, Fail>
    requires below { Nests parser.now.depth (F.pre parser.now.names) (F.post parser.now.names) }
    ensures { ReadsNode (g.lambda_literal parser.now.in_rescue (see name.entry) (calls.do_parts parser.now.in_rescue)) (suc parser.now.depth) cursor.old result cursor.new }
{
    let BlockParts {
        opening: _,
        params,
        body,
        closing,
    } = do_parts(parser, cursor)?;
    lambda_of(parser.alloc, params, body, tokens(name, closing))
}

/// The block of a `lambda`.
#[tactic(auto, unfolding(ruby_meaning::specs::Grammar::Table::table, ruby_meaning::specs::Grammar::Primaries::lambda_block, ruby_meaning::specs::Grammar::Calls::brace_parts, ruby_meaning::specs::Grammar::Calls::do_parts))]
fn lambda_block<F: Fn(Global, &mut Cursor<'_>, Part, u32) -> Result<Reading, Fail> + Copy>(
    parser: &Parser<F>,
    cursor: &mut Cursor<'_>,
    name: Sight<'_>,
) -> Result<Value, Fail>
    requires below { Nests parser.now.depth (F.pre parser.now.names) (F.post parser.now.names) }
    ensures { ReadsValue (g.lambda_block parser.now.in_rescue parser.now.takes_do (see name.entry)) (suc parser.now.depth) cursor.old result cursor.new }
{
    let node = if !parser.takes_do || cursor.sees(Sign::Op(Mark::BraceOpen)) {
        lambda_braces(parser, cursor, name)?
    } else {
        lambda_do(parser, cursor, name)?
    };
    Ok(Value {
        node,
        written: Written::Other,
    })
}

/// `[block]` behind a `lambda` and empty brackets
#[tactic(auto, using(crate::proofs::CallLevels::lambda_seen), unfolding(ruby_meaning::specs::Grammar::Table::table))]
fn behind_empty<F: Fn(Global, &mut Cursor<'_>, Part, u32) -> Result<Reading, Fail> + Copy>(
    parser: &Parser<F>,
    cursor: &mut Cursor<'_>,
    name: Sight<'_>,
    close: Sight<'_>,
) -> Result<Value, Fail>
    requires below { Nests parser.now.depth (F.pre parser.now.names) (F.post parser.now.names) }
    ensures { ReadsValue (spec.behind_empty parser.now.in_rescue parser.now.takes_do (see name.entry) (see close.entry)) (suc parser.now.depth) cursor.old result cursor.new }
{
    if sees_block(parser, cursor) {
        lambda_block(parser, cursor, name)
    } else {
        name_closed(parser.alloc, parser.in_rescue, name, close)
    }
}

/// `")" [block]` behind a `lambda` and `"("`
#[tactic(auto, unfolding(ruby_meaning::specs::Grammar::Table::table, ruby_meaning::specs::Grammar::Primaries::empty_brackets, ruby_meaning::specs::Grammar::Parameters::behind_newlines, ruby_meaning::specs::Grammar::Parameters::newlines))]
fn empty_brackets<F: Fn(Global, &mut Cursor<'_>, Part, u32) -> Result<Reading, Fail> + Copy>(
    parser: &Parser<F>,
    cursor: &mut Cursor<'_>,
    name: Sight<'_>,
) -> Result<Value, Fail>
    requires below { Nests parser.now.depth (F.pre parser.now.names) (F.post parser.now.names) }
    ensures { ReadsValue (g.empty_brackets parser.now.in_rescue parser.now.takes_do (see name.entry)) (suc parser.now.depth) cursor.old result cursor.new }
{
    let close = closing(cursor, Sign::Op(Mark::ParenClose))?;
    behind_empty(parser, cursor, name, close)
}

/// `cargs ")"`
#[tactic(auto, unfolding(ruby_meaning::specs::Grammar::Table::table, ruby_meaning::specs::Grammar::Parameters::behind_newlines, ruby_meaning::specs::Grammar::Parameters::newlines))]
fn some_closed<'a, F: Fn(Global, &mut Cursor<'_>, Part, u32) -> Result<Reading, Fail> + Copy>(
    parser: &Parser<F>,
    cursor: &mut Cursor<'a>,
) -> Result<Closed<'a>, Fail>
    requires below { Nests parser.now.depth (F.pre parser.now.names) (F.post parser.now.names) }
    ensures { Reads shown_closed (spec.some_closed parser.now.in_rescue) parser.now.depth cursor.old result cursor.new }
{
    let args = parser.command_arguments(cursor, true, true)?;
    let close = closing(cursor, Sign::Op(Mark::ParenClose))?;
    Ok(Closed { args, close })
}

/// `cargs ")" [block]`
#[tactic(auto, unfolding(ruby_meaning::specs::Grammar::Table::table, ruby_meaning::specs::Grammar::Primaries::full_brackets))]
fn full_brackets<F: Fn(Global, &mut Cursor<'_>, Part, u32) -> Result<Reading, Fail> + Copy>(
    parser: &Parser<F>,
    cursor: &mut Cursor<'_>,
    name: Sight<'_>,
) -> Result<Value, Fail>
    requires below { Nests parser.now.depth (F.pre parser.now.names) (F.post parser.now.names) }
    ensures { ReadsValue (g.full_brackets parser.now.in_rescue parser.now.takes_do (see name.entry)) (suc parser.now.depth) cursor.old result cursor.new }
{
    let closed = some_closed(parser, cursor)?;
    let block = block_beside(parser, cursor, has_pass(&closed.args))?;
    let tail = Tail {
        paren: Some(closed),
        block,
    };
    named_node(parser.alloc, parser.in_rescue, name, tail)
}

/// Brackets behind a `lambda` and `"("`
#[tactic(auto, unfolding(ruby_meaning::specs::Grammar::Table::table, ruby_meaning::specs::Grammar::Primaries::empty_brackets, ruby_meaning::specs::Grammar::Parameters::behind_newlines, ruby_meaning::specs::Grammar::Parameters::newlines))]
fn lambda_brackets<F: Fn(Global, &mut Cursor<'_>, Part, u32) -> Result<Reading, Fail> + Copy>(
    parser: &Parser<F>,
    cursor: &mut Cursor<'_>,
    name: Sight<'_>,
) -> Result<Value, Fail>
    requires below { Nests parser.now.depth (F.pre parser.now.names) (F.post parser.now.names) }
    ensures { ReadsValue (spec.lambda_brackets parser.now.in_rescue parser.now.takes_do (see name.entry)) (suc parser.now.depth) cursor.old result cursor.new }
{
    if cursor.sees_one_of(&CLOSINGS) {
        empty_brackets(parser, cursor, name)
    } else {
        full_brackets(parser, cursor, name)
    }
}

/// Brackets behind a `lambda`, or nothing.
#[tactic(auto, unfolding(ruby_meaning::specs::Grammar::Table::table))]
fn behind_lambda<F: Fn(Global, &mut Cursor<'_>, Part, u32) -> Result<Reading, Fail> + Copy>(
    parser: &Parser<F>,
    cursor: &mut Cursor<'_>,
    name: Sight<'_>,
) -> Result<Value, Fail>
    requires below { Nests parser.now.depth (F.pre parser.now.names) (F.post parser.now.names) }
    ensures { ReadsValue (spec.behind_lambda parser.now.in_rescue parser.now.takes_do (see name.entry)) (suc parser.now.depth) cursor.old result cursor.new }
{
    if !cursor.sees(Sign::CallOpen) {
        return name_alone(parser.alloc, parser.in_rescue, name);
    }
    cursor.take(Sign::CallOpen)?;
    lambda_brackets(parser, cursor, name)
}

/// What stands behind a `lambda`.
#[tactic(auto, using(crate::proofs::CallLevels::lambda_seen), unfolding(ruby_meaning::specs::Grammar::Table::table, ruby_meaning::specs::Grammar::Primaries::lambda_call))]
fn lambda_call<F: Fn(Global, &mut Cursor<'_>, Part, u32) -> Result<Reading, Fail> + Copy>(
    parser: &Parser<F>,
    cursor: &mut Cursor<'_>,
    name: Sight<'_>,
) -> Result<Value, Fail>
    requires below { Nests parser.now.depth (F.pre parser.now.names) (F.post parser.now.names) }
    ensures { ReadsValue (g.lambda_call parser.now.in_rescue parser.now.takes_do (see name.entry)) (suc parser.now.depth) cursor.old result cursor.new }
{
    if sees_block(parser, cursor) {
        lambda_block(parser, cursor, name)
    } else {
        behind_lambda(parser, cursor, name)
    }
}

/// `name [paren] [block]`
#[tactic(auto, unfolding(ruby_meaning::specs::Grammar::Table::table, ruby_meaning::specs::Grammar::Primaries::name_call, ruby_meaning::specs::Grammar::Primaries::called))]
fn name_call<F: Fn(Global, &mut Cursor<'_>, Part, u32) -> Result<Reading, Fail> + Copy>(
    parser: &Parser<F>,
    cursor: &mut Cursor<'_>,
) -> Result<Value, Fail>
    requires below { Nests parser.now.depth (F.pre parser.now.names) (F.post parser.now.names) }
    ensures { ReadsValue (g.name_call parser.now.in_rescue parser.now.takes_do) (suc parser.now.depth) cursor.old result cursor.new }
{
    let name = cursor.take(Sign::Name)?;
    if is_lambda(parser.alloc, name)? {
        lambda_call(parser, cursor, name)
    } else {
        plain_call(parser, cursor, name)
    }
}

/// `["(" [params] ")"]`
#[tactic(auto, unfolding(ruby_meaning::specs::Grammar::Table::table, ruby_meaning::specs::Grammar::Primaries::arrow_parameters, ruby_meaning::specs::Grammar::Parameters::behind_newlines, ruby_meaning::specs::Grammar::Parameters::newlines))]
fn arrow_parameters<F: Fn(Global, &mut Cursor<'_>, Part, u32) -> Result<Reading, Fail> + Copy>(
    parser: &Parser<F>,
    cursor: &mut Cursor<'_>,
) -> Result<Params, Fail>
    requires below { Nests parser.now.depth (F.pre parser.now.names) (F.post parser.now.names) }
    ensures { GivesParams (read_rule table (read_named table) (g.arrow_parameters parser.now.in_rescue) parser.now.depth (ahead cursor.old)) result (ahead cursor.new) }
{
    if !cursor.sees(Sign::Op(Mark::ParenOpen)) {
        return Ok(no_parameters(parser.alloc));
    }
    cursor.take(Sign::Op(Mark::ParenOpen))?;
    let params = some_parameters(parser, cursor, false)?;
    closing(cursor, Sign::Op(Mark::ParenClose))?;
    Ok(params)
}

/// `"{" stmts "}"`, or `"do" stmts "end"`
#[tactic(auto, unfolding(ruby_meaning::specs::Grammar::Table::table, ruby_meaning::specs::Grammar::Primaries::plain_block))]
fn plain_block<'a, F: Fn(Global, &mut Cursor<'_>, Part, u32) -> Result<Reading, Fail> + Copy>(
    parser: &Parser<F>,
    cursor: &mut Cursor<'a>,
) -> Result<Bodied<'a>, Fail>
    requires below { Nests parser.now.depth (F.pre parser.now.names) (F.post parser.now.names) }
    ensures { Reads spec.shown_bodied (g.plain_block parser.now.in_rescue parser.now.takes_do) parser.now.depth cursor.old result cursor.new }
{
    if !parser.takes_do || cursor.sees(Sign::Op(Mark::BraceOpen)) {
        cursor.take(Sign::Op(Mark::BraceOpen))?;
        let body = parser.statements(cursor, parser.in_rescue)?;
        let closing = cursor.take(Sign::Op(Mark::BraceClose))?;
        return Ok(Bodied { body, closing });
    }
    cursor.take(Sign::Keyword(Word::Do))?;
    let body = parser.statements(cursor, parser.in_rescue)?;
    let closing = cursor.take(Sign::Keyword(Word::End))?;
    Ok(Bodied { body, closing })
}

/// `"->" ["(" [params] ")"] block`
#[tactic(auto, unfolding(ruby_meaning::specs::Grammar::Table::table, ruby_meaning::specs::Grammar::Primaries::arrow_value))]
fn arrow_value<F: Fn(Global, &mut Cursor<'_>, Part, u32) -> Result<Reading, Fail> + Copy>(
    parser: &Parser<F>,
    cursor: &mut Cursor<'_>,
) -> Result<Value, Fail>
    requires below { Nests parser.now.depth (F.pre parser.now.names) (F.post parser.now.names) }
    ensures { ReadsValue (g.arrow_value parser.now.in_rescue parser.now.takes_do) (suc parser.now.depth) cursor.old result cursor.new }
{
    let sign = cursor.take(Sign::Op(Mark::Arrow))?;
    let params = arrow_parameters(parser, cursor)?;
    let Bodied { body, closing } = plain_block(parser, cursor)?;
    Ok(Value {
        node: lambda_of(parser.alloc, params, body, tokens(sign, closing))?,
        written: Written::Other,
    })
}

/// `paren [block]`, or nothing
#[tactic(auto, unfolding(ruby_meaning::specs::Grammar::Table::table, ruby_meaning::specs::Grammar::Calls::paren_tail, ruby_meaning::specs::Grammar::Calls::paren))]
fn constant_tail<'a, F: Fn(Global, &mut Cursor<'_>, Part, u32) -> Result<Reading, Fail> + Copy>(
    parser: &Parser<F>,
    cursor: &mut Cursor<'a>,
) -> Result<Tail<'a>, Fail>
    requires below { Nests parser.now.depth (F.pre parser.now.names) (F.post parser.now.names) }
    ensures { Reads shown_tail (spec.constant_tail parser.now.in_rescue parser.now.takes_do) parser.now.depth cursor.old result cursor.new }
{
    if cursor.sees(Sign::CallOpen) {
        return paren_tail(parser, cursor);
    }
    Ok(Tail {
        paren: None,
        block: None,
    })
}

/// `CONST`, or `CONST paren [block]`
#[tactic(auto, unfolding(ruby_meaning::specs::Grammar::Table::table, ruby_meaning::specs::Grammar::Primaries::constant_value))]
fn constant_value<F: Fn(Global, &mut Cursor<'_>, Part, u32) -> Result<Reading, Fail> + Copy>(
    parser: &Parser<F>,
    cursor: &mut Cursor<'_>,
) -> Result<Value, Fail>
    requires below { Nests parser.now.depth (F.pre parser.now.names) (F.post parser.now.names) }
    ensures { ReadsValue (g.constant_value parser.now.in_rescue parser.now.takes_do) (suc parser.now.depth) cursor.old result cursor.new }
{
    let name = cursor.take(Sign::Const)?;
    let tail = constant_tail(parser, cursor)?;
    constant_node(parser.alloc, name, tail)
}

/// `"super" [paren] [block]`
#[tactic(auto, unfolding(ruby_meaning::specs::Grammar::Table::table, ruby_meaning::specs::Grammar::Primaries::super_value))]
fn super_value<F: Fn(Global, &mut Cursor<'_>, Part, u32) -> Result<Reading, Fail> + Copy>(
    parser: &Parser<F>,
    cursor: &mut Cursor<'_>,
) -> Result<Value, Fail>
    requires below { Nests parser.now.depth (F.pre parser.now.names) (F.post parser.now.names) }
    ensures { ReadsValue (g.super_value parser.now.in_rescue parser.now.takes_do) (suc parser.now.depth) cursor.old result cursor.new }
{
    let name = cursor.take(Sign::Keyword(Word::Super))?;
    let tail = read_tail(parser, cursor)?;
    super_node(parser.alloc, name, tail)
}

/// `[paren]` of a `yield`
#[tactic(auto, unfolding(ruby_meaning::specs::Grammar::Table::table, ruby_meaning::specs::Grammar::Calls::paren))]
fn yield_paren<'a, F: Fn(Global, &mut Cursor<'_>, Part, u32) -> Result<Reading, Fail> + Copy>(
    parser: &Parser<F>,
    cursor: &mut Cursor<'a>,
) -> Result<Option<Closed<'a>>, Fail>
    requires below { Nests parser.now.depth (F.pre parser.now.names) (F.post parser.now.names) }
    ensures { Reads shown_closed_if (spec.yield_paren parser.now.in_rescue) parser.now.depth cursor.old result cursor.new }
{
    if !cursor.sees(Sign::CallOpen) {
        return Ok(None);
    }
    Ok(Some(paren(parser, cursor, false)?))
}

/// `"yield" [paren]`
#[tactic(auto, unfolding(ruby_meaning::specs::Grammar::Table::table, ruby_meaning::specs::Grammar::Primaries::yield_value))]
fn yield_value<F: Fn(Global, &mut Cursor<'_>, Part, u32) -> Result<Reading, Fail> + Copy>(
    parser: &Parser<F>,
    cursor: &mut Cursor<'_>,
) -> Result<Value, Fail>
    requires below { Nests parser.now.depth (F.pre parser.now.names) (F.post parser.now.names) }
    ensures { ReadsValue (g.yield_value parser.now.in_rescue) (suc parser.now.depth) cursor.old result cursor.new }
{
    let word = cursor.take(Sign::Keyword(Word::Yield))?;
    let paren = yield_paren(parser, cursor)?;
    yield_node(parser.alloc, word, paren)
}

/// A hash, `yield`, `super`, `->`, or a form from a keyword to its `end`
#[tactic(auto, unfolding(ruby_meaning::specs::Grammar::Table::table, ruby_meaning::specs::Grammar::Primaries::hash_value, ruby_meaning::specs::Grammar::Primaries::yield_value, ruby_meaning::specs::Grammar::Primaries::super_value, ruby_meaning::specs::Grammar::Primaries::arrow_value))]
fn last_prim<F: Fn(Global, &mut Cursor<'_>, Part, u32) -> Result<Reading, Fail> + Copy>(
    parser: &Parser<F>,
    cursor: &mut Cursor<'_>,
) -> Result<Value, Fail>
    requires below { Nests parser.now.depth (F.pre parser.now.names) (F.post parser.now.names) }
    ensures { ReadsValue (spec.last_prim parser.now.in_rescue parser.now.takes_do) (suc parser.now.depth) cursor.old result cursor.new }
{
    if cursor.sees(Sign::Op(Mark::BraceOpen)) {
        hash_value(parser, cursor)
    } else if cursor.sees(Sign::Keyword(Word::Yield)) {
        yield_value(parser, cursor)
    } else if cursor.sees(Sign::Keyword(Word::Super)) {
        super_value(parser, cursor)
    } else if cursor.sees(Sign::Op(Mark::Arrow)) {
        arrow_value(parser, cursor)
    } else {
        keyword_form(parser, cursor)
    }
}

/// Those that begin with a name or a bracket, and the last ones.
#[tactic(auto, unfolding(ruby_meaning::specs::Grammar::Table::table, ruby_meaning::specs::Grammar::Primaries::gvar_value, ruby_meaning::specs::Grammar::Primaries::top_constant, ruby_meaning::specs::Grammar::Primaries::name_call, ruby_meaning::specs::Grammar::Primaries::constant_value, ruby_meaning::specs::Grammar::Primaries::parenthesized, ruby_meaning::specs::Grammar::Primaries::array))]
fn more_prim<F: Fn(Global, &mut Cursor<'_>, Part, u32) -> Result<Reading, Fail> + Copy>(
    parser: &Parser<F>,
    cursor: &mut Cursor<'_>,
) -> Result<Value, Fail>
    requires below { Nests parser.now.depth (F.pre parser.now.names) (F.post parser.now.names) }
    ensures { ReadsValue (spec.more_prim parser.now.in_rescue parser.now.takes_do) (suc parser.now.depth) cursor.old result cursor.new }
{
    if cursor.sees(Sign::Gvar) {
        gvar_value(parser, cursor)
    } else if cursor.sees_one_of(&TOPS) {
        top_constant(parser, cursor)
    } else if cursor.sees(Sign::Name) {
        name_call(parser, cursor)
    } else if cursor.sees(Sign::Const) {
        constant_value(parser, cursor)
    } else if cursor.sees_one_of(&ROUND) {
        parenthesized(parser, cursor)
    } else if cursor.sees_one_of(&SQUARE) {
        array(parser, cursor)
    } else {
        last_prim(parser, cursor)
    }
}

/// A text as a value.
#[tactic(auto, unfolding(ruby_meaning::specs::Grammar::Table::table))]
fn text_value<F: Fn(Global, &mut Cursor<'_>, Part, u32) -> Result<Reading, Fail> + Copy>(
    parser: &Parser<F>,
    cursor: &mut Cursor<'_>,
) -> Result<Value, Fail>
    ensures { ReadsValue spec.text_value (suc parser.now.depth) cursor.old result cursor.new }
{
    Ok(Value {
        node: text(parser, cursor)?,
        written: Written::Other,
    })
}

/// What a value begins with.
#[tactic(auto, unfolding(ruby_meaning::specs::Grammar::Table::table, ruby_meaning::specs::Grammar::Primaries::prim, ruby_meaning::specs::Grammar::Primaries::word_value, ruby_meaning::specs::Grammar::Primaries::keyword_value, ruby_meaning::specs::Grammar::Primaries::integer_value, ruby_meaning::specs::Grammar::Primaries::text, ruby_meaning::specs::Grammar::Primaries::interpolated, ruby_meaning::specs::Grammar::Primaries::word_list, ruby_meaning::specs::Grammar::Primaries::ivar_value))]
pub fn prim<F: Fn(Global, &mut Cursor<'_>, Part, u32) -> Result<Reading, Fail> + Copy>(
    parser: &Parser<F>,
    cursor: &mut Cursor<'_>,
) -> Result<Value, Fail>
    requires below { Nests parser.now.depth (F.pre parser.now.names) (F.post parser.now.names) }
    ensures { ReadsValue (g.prim parser.now.in_rescue parser.now.takes_do) (suc parser.now.depth) cursor.old result cursor.new }
{
    if sees_word(cursor) {
        word_value(parser, cursor)
    } else if cursor.sees(Sign::Int) {
        integer_value(parser, cursor)
    } else if cursor.sees(Sign::Text) {
        text_value(parser, cursor)
    } else if cursor.sees(Sign::TextBegin) {
        interpolated(parser, cursor)
    } else if cursor.sees_one_of(&WORD_LISTS) {
        word_list(parser, cursor)
    } else if cursor.sees(Sign::Ivar) {
        ivar_value(parser, cursor)
    } else {
        more_prim(parser, cursor)
    }
}
