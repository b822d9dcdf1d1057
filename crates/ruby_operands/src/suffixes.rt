//! What stands behind a value.

ghost use Rattle.std.specs.Prelude.{◌≡◌, length, nat_eq, suc};
ghost use Rattle.grammar.specs.FormReaders.{next_in};
ghost use Rattle.ruby_meaning.specs.Grammar.Actions as act;
ghost use Rattle.ruby_meaning.specs.Grammar.Primaries as g;
ghost use Rattle.ruby_reading.specs.Ahead.{ahead, see, Makes, MakesAs};
ghost use Rattle.ruby_primaries.specs.CallParts.{shown_tail};
ghost use Rattle.ruby_reading.specs.Named.{GivesValue, Nests, Reads, ReadsToken, ReadsValue};
ghost use Rattle.ruby_operands.specs.PartsBehind as spec;
ghost use Rattle.ruby_reading.specs.Shown.{shown_value, written_code};

use crate::values::{call_node, end_of, prim};
use descent::Fail;
use opal_base::{Span, Units};
use ruby_meaning::{Base, Kind, Mark, Node, Part, Sign, TokenKind};
use ruby_parameters::ends_in_sign;
use ruby_primaries::{Tail, has_pass, paren_tail, read_closed, read_tail};
use ruby_reading::{
    Cursor, NAMES, OPERATORS, Parser, Reading, Sight, Value, Written, ascii, fits, method_name,
    node, span_of, start, to_end, units,
};
use sqlite_items::Boxed;
use std::alloc::Global;

/// What a part behind a value is.
#[derive(Clone, Copy, Debug, PartialEq, Eq)]
pub enum Form {
    /// `::CONST`
    Constant,
    /// `[args]`
    Index,
    /// A method's name.
    Call,
    /// `.(args)`
    Bracket,
}

/// A part behind a value: the token that it goes by, and what stands behind that.
#[derive(Drop)]
pub struct Selected<'a> {
    pub token: Sight<'a>,
    pub tail: Tail<'a>,
    pub form: Form,
}

/// Whether a part stands here.
#[tactic(auto, using(crate::proofs::PartTurns::part_seen))]
fn sees_part(cursor: &Cursor<'_>) -> bool
    ensures { result ≡ next_in spec.begins_part (ahead cursor.now) }
{
    cursor.sees(Sign::Op(Mark::Dot))
        || (cursor.sees(Sign::Op(Mark::ColonColon)) || cursor.sees(Sign::Op(Mark::BracketOpen)))
}

/// Whether the name of a method stands here.
#[tactic(auto, using(crate::proofs::PartTurns::method_seen))]
fn sees_method(cursor: &Cursor<'_>) -> bool
    ensures { result ≡ next_in spec.begins_method (ahead cursor.now) }
{
    cursor.sees_one_of(&NAMES) || cursor.sees_one_of(&OPERATORS)
}

/// The name of a method.
#[tactic(auto, using(crate::proofs::PartTurns::taken_first, crate::proofs::PartTurns::taken_second), unfolding(ruby_meaning::specs::Grammar::Table::table))]
fn take_method<'a>(cursor: &mut Cursor<'a>) -> Result<Sight<'a>, Fail>
    ensures { ReadsToken spec.method_token 0 cursor.old result cursor.new }
{
    if cursor.sees_one_of(&NAMES) {
        cursor.take_one_of(&NAMES)
    } else {
        cursor.take_one_of(&OPERATORS)
    }
}

fn is_alone(tail: &Tail<'_>) -> bool
    ensures { result ≡ act.is_empty (shown_tail tail.now) }
{
    match &tail.paren {
        Some(_) => false,
        None => tail.block.is_none(),
    }
}

fn part_name(alloc: Global, form: Form, token: Sight<'_>) -> Result<Units, Fail>
    ensures { Makes (act.part_name (spec.form_code form) (see token.entry)) result }
{
    match form {
        Form::Index => Ok(ascii(alloc, b"[]")?),
        Form::Call => Ok(method_name(alloc, token)?),
        Form::Constant => Ok(ascii(alloc, b"call")?),
        Form::Bracket => Ok(ascii(alloc, b"call")?),
    }
}

/// How a method that is called without brackets and block is written.
fn selected_as(token: Sight<'_>) -> Written
    ensures { written_code result ≡ spec.selected (see token.entry) }
{
    match &token.token.kind {
        TokenKind::Name(name) => {
            if ends_in_sign(name) {
                Written::Method
            } else {
                Written::Attribute
            }
        }
        TokenKind::Const(_) => Written::Method,
        _ => Written::Other,
    }
}

fn indexed(tail: &Tail<'_>) -> Written
    ensures { written_code result ≡ act.index_number (shown_tail tail.now) }
{
    match &tail.paren {
        Some(closed) => {
            if has_pass(&closed.args) {
                Written::Other
            } else {
                Written::Indexed
            }
        }
        None => Written::Indexed,
    }
}

/// How a value with a part behind it is written.
fn part_written(form: Form, token: Sight<'_>, tail: &Tail<'_>) -> Written
    ensures { written_code result ≡ act.part_number (spec.form_code form) (see token.entry) (shown_tail tail.now) }
{
    match form {
        Form::Index => indexed(tail),
        Form::Call => {
            if is_alone(tail) {
                selected_as(token)
            } else {
                Written::Other
            }
        }
        Form::Constant => Written::Other,
        Form::Bracket => Written::Other,
    }
}

fn is_constant(form: Form) -> bool
    ensures { result ≡ nat_eq (spec.form_code form) act.constant_part }
{
    matches!(form, Form::Constant)
}

/// A constant of a module.
fn constant_in(alloc: Global, owner: Node, name: Sight<'_>, span: Span) -> Result<Node, Fail>
    ensures { Makes (spec.constant_in owner (see name.entry) span) result }
{
    let kind = Kind::ConstGet {
        base: Base::In(Boxed::new(alloc, owner)?),
        name: units(alloc, name)?,
    };
    Ok(node(alloc, kind, span, start(name))?)
}

/// A value with a part behind it.
#[tactic(auto, using(crate::proofs::PartTurns::part_constant, crate::proofs::PartTurns::part_called))]
fn part_node(alloc: Global, left: Node, part: Selected<'_>, span: Span) -> Result<Node, Fail>
    ensures { Makes (act.part_node left (spec.form_code part.entry.form) (see part.entry.token) (shown_tail part.entry.tail) span) result }
{
    if is_constant(part.form) && is_alone(&part.tail) {
        return constant_in(alloc, left, part.token, span);
    }
    let name = part_name(alloc, part.form, part.token)?;
    call_node(alloc, Some(left), name, part.tail, span, start(part.token))
}

fn with_part(alloc: Global, left: Node, part: Selected<'_>) -> Result<Value, Fail>
    ensures { MakesAs shown_value (act.with_part (left, 0) (spec.shown_selected part.entry)) result }
{
    let span = to_end(left.span, end_of(span_of(part.token), &part.tail));
    let written = part_written(part.form, part.token, &part.tail);
    Ok(Value {
        node: part_node(alloc, left, part, span)?,
        written,
    })
}

/// `"." mname [paren] [block]`, or `"." paren [block]`
#[tactic(auto, unfolding(ruby_meaning::specs::Grammar::Table::table, ruby_meaning::specs::Grammar::Primaries::dot_part, ruby_meaning::specs::Grammar::Calls::paren_tail))]
fn dot_part<'a, F: Fn(Global, &mut Cursor<'_>, Part, u32) -> Result<Reading, Fail> + Copy>(
    parser: &Parser<F>,
    cursor: &mut Cursor<'a>,
) -> Result<Selected<'a>, Fail>
    requires below { Nests parser.now.depth (F.pre parser.now.names) (F.post parser.now.names) }
    ensures { Reads spec.shown_selected (g.dot_part parser.now.in_rescue parser.now.takes_do) parser.now.depth cursor.old result cursor.new }
{
    let dot = cursor.take(Sign::Op(Mark::Dot))?;
    if !sees_method(cursor) {
        let tail = paren_tail(parser, cursor)?;
        return Ok(Selected {
            token: dot,
            tail,
            form: Form::Bracket,
        });
    }
    let token = take_method(cursor)?;
    let tail = read_tail(parser, cursor)?;
    Ok(Selected {
        token,
        tail,
        form: Form::Call,
    })
}

/// `"::" CONST`, or `"::" name paren [block]`
#[tactic(auto, unfolding(ruby_meaning::specs::Grammar::Table::table, ruby_meaning::specs::Grammar::Primaries::scope_part))]
fn scope_part<'a, F: Fn(Global, &mut Cursor<'_>, Part, u32) -> Result<Reading, Fail> + Copy>(
    parser: &Parser<F>,
    cursor: &mut Cursor<'a>,
) -> Result<Selected<'a>, Fail>
    requires below { Nests parser.now.depth (F.pre parser.now.names) (F.post parser.now.names) }
    ensures { Reads spec.shown_selected (g.scope_part parser.now.in_rescue parser.now.takes_do) parser.now.depth cursor.old result cursor.new }
{
    cursor.take(Sign::Op(Mark::ColonColon))?;
    if cursor.sees(Sign::Const) {
        let token = cursor.take(Sign::Const)?;
        return Ok(Selected {
            token,
            tail: Tail {
                paren: None,
                block: None,
            },
            form: Form::Constant,
        });
    }
    let token = cursor.take(Sign::Name)?;
    let tail = paren_tail(parser, cursor)?;
    Ok(Selected {
        token,
        tail,
        form: Form::Call,
    })
}

/// `"[" [arguments] "]"`
#[tactic(auto, unfolding(ruby_meaning::specs::Grammar::Table::table, ruby_meaning::specs::Grammar::Primaries::bracket))]
fn bracket<'a, F: Fn(Global, &mut Cursor<'_>, Part, u32) -> Result<Reading, Fail> + Copy>(
    parser: &Parser<F>,
    cursor: &mut Cursor<'a>,
) -> Result<Selected<'a>, Fail>
    requires below { Nests parser.now.depth (F.pre parser.now.names) (F.post parser.now.names) }
    ensures { Reads spec.shown_selected (g.bracket parser.now.in_rescue) parser.now.depth cursor.old result cursor.new }
{
    let token = cursor.take(Sign::Op(Mark::BracketOpen))?;
    let closed = read_closed(parser, cursor, true)?;
    Ok(Selected {
        token,
        tail: Tail {
            paren: Some(closed),
            block: None,
        },
        form: Form::Index,
    })
}

/// A part behind a value.
#[tactic(auto, unfolding(ruby_meaning::specs::Grammar::Table::table, ruby_meaning::specs::Grammar::Primaries::dot_part, ruby_meaning::specs::Grammar::Primaries::scope_part, ruby_meaning::specs::Grammar::Primaries::bracket))]
fn part_behind<'a, F: Fn(Global, &mut Cursor<'_>, Part, u32) -> Result<Reading, Fail> + Copy>(
    parser: &Parser<F>,
    cursor: &mut Cursor<'a>,
) -> Result<Selected<'a>, Fail>
    requires below { Nests parser.now.depth (F.pre parser.now.names) (F.post parser.now.names) }
    ensures { Reads spec.shown_selected (spec.part_rule parser.now.in_rescue parser.now.takes_do) parser.now.depth cursor.old result cursor.new }
{
    if cursor.sees(Sign::Op(Mark::Dot)) {
        dot_part(parser, cursor)
    } else if cursor.sees(Sign::Op(Mark::ColonColon)) {
        scope_part(parser, cursor)
    } else {
        bracket(parser, cursor)
    }
}

/// Parts behind a value.
#[tactic(auto, unfolding(ruby_meaning::specs::Grammar::Table::table, ruby_meaning::specs::Grammar::Primaries::dot_part, ruby_meaning::specs::Grammar::Primaries::scope_part, ruby_meaning::specs::Grammar::Primaries::bracket))]
fn parts_behind<F: Fn(Global, &mut Cursor<'_>, Part, u32) -> Result<Reading, Fail> + Copy>(
    parser: &Parser<F>,
    cursor: &mut Cursor<'_>,
    first: Value,
) -> Result<Value, Fail>
    requires below { Nests parser.now.depth (F.pre parser.now.names) (F.post parser.now.names) }
    ensures { GivesValue (spec.parts_from parser.now.in_rescue parser.now.takes_do parser.now.depth (length (ahead cursor.old)) (shown_value first) (ahead cursor.old)) result (ahead cursor.new) }
{
    let Value {
        node: mut left,
        mut written,
    } = first;
    for _turn in 0..cursor.left() {
        if !sees_part(cursor) || !fits(&left, parser.depth) {
            return Ok(Value {
                node: left,
                written,
            });
        }
        let part = part_behind(parser, cursor)?;
        let value = with_part(parser.alloc, left, part)?;
        left = value.node;
        written = value.written;
    }
    Ok(Value {
        node: left,
        written,
    })
}

/// A value and the parts behind it.
#[tactic(auto, unfolding(ruby_meaning::specs::Grammar::Table::table, ruby_meaning::specs::Grammar::Primaries::post))]
pub fn post<F: Fn(Global, &mut Cursor<'_>, Part, u32) -> Result<Reading, Fail> + Copy>(
    parser: &Parser<F>,
    cursor: &mut Cursor<'_>,
) -> Result<Value, Fail>
    requires below { Nests parser.now.depth (F.pre parser.now.names) (F.post parser.now.names) }
    ensures { ReadsValue (g.post parser.now.in_rescue parser.now.takes_do) (suc parser.now.depth) cursor.old result cursor.new }
{
    let first = prim(parser, cursor)?;
    parts_behind(parser, cursor, first)
}
