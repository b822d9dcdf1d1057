//! `return`, `break` and `next`.

ghost use Rattle.std.specs.Prelude.{◌≡◌, suc};
ghost use Rattle.grammar.specs.FormReaders.{next_in};
ghost use Rattle.ruby_meaning.specs.Grammar.Actions as act;
ghost use Rattle.ruby_meaning.specs.Grammar.Expressions as g;
ghost use Rattle.ruby_reading.specs.Ahead.{ahead, class_code, see, MakesAs};
ghost use Rattle.ruby_primaries.specs.JumpValues as spec;
ghost use Rattle.ruby_reading.specs.Named.{Nests, ReadsBody, ReadsNode, ReadsValue};
ghost use Rattle.ruby_reading.specs.Shown.{shown_body, shown_value};

use descent::Fail;
use opal_base::Span;
use ruby_meaning::{JumpKind, Kind, Mark, Node, Part, Sign, TokenKind, Word};
use ruby_parameters::{list_behind, splat_list};
use ruby_reading::{
    Body, Cursor, MODIFIERS, Parser, Reading, STARS, Sight, Tree, Value, Written, begins_value,
    fits, from_token, node, nothing, span_of, start,
};
use sqlite_items::Boxed;
use std::alloc::Global;

pub const JUMPS: [Sign; 3] = [
    Sign::Keyword(Word::Return),
    Sign::Keyword(Word::Break),
    Sign::Keyword(Word::Next),
];

/// Whether what a jump gives stands next.
#[tactic(auto, using(crate::proofs::JumpBegins::begins_given))]
fn begins_given(cursor: &Cursor<'_>) -> bool
    ensures { result ≡ next_in (λ t. spec.begins_given (class_code t)) (ahead cursor.now) }
{
    !cursor.sees_one_of(&MODIFIERS) && (cursor.sees_one_of(&STARS) || begins_value(cursor))
}

fn jump_of(sign: Sight<'_>) -> JumpKind
    ensures { result ≡ spec.jump_of (see sign.entry) }
{
    match &sign.token.kind {
        TokenKind::Keyword(Word::Break) => JumpKind::Break,
        TokenKind::Keyword(Word::Next) => JumpKind::Next,
        _ => JumpKind::Return,
    }
}

/// From the keyword to the end of what it gives.
fn jump_span(sign: Sight<'_>, given: &Body) -> Span
    ensures { result ≡ spec.jump_span (see sign.entry) (shown_body given.now) }
{
    if given.absent {
        span_of(sign)
    } else {
        from_token(sign, &given.node)
    }
}

/// What a jump gives, with the place of the keyword where there is nothing.
fn given_node(sign: Sight<'_>, given: Body) -> Node
    ensures { result ≡ spec.given_node (see sign.entry) (shown_body given) }
{
    if given.absent {
        Node {
            kind: given.node.kind,
            span: span_of(sign),
            mark: start(sign),
        }
    } else {
        given.node
    }
}

fn jump_value(alloc: Global, sign: Sight<'_>, given: Body) -> Result<Value, Fail>
    ensures { MakesAs shown_value (act.jump_node (see sign.entry) (shown_body given), act.other) result }
{
    let span = jump_span(sign, &given);
    let value = Boxed::new(alloc, given_node(sign, given))?;
    let kind = Kind::Jump(jump_of(sign), value);
    Ok(Value {
        node: node(alloc, kind, span, start(sign))?,
        written: Written::Other,
    })
}

/// A list that begins with `*`, one level below.
#[tactic(auto, using(ruby_reading::proofs::Named::nests_below, ruby_parameters::proofs::Levels::node_none, ruby_parameters::proofs::Below::one_below), unfolding(ruby_meaning::specs::Grammar::Table::table, ruby_meaning::specs::Grammar::Expressions::splat_list))]
fn splat_list_below<F: Fn(Global, &mut Cursor<'_>, Part, u32) -> Result<Reading, Fail> + Copy>(
    parser: &Parser<F>,
    cursor: &mut Cursor<'_>,
) -> Result<Node, Fail>
    requires below { Nests parser.now.depth (F.pre parser.now.names) (F.post parser.now.names) }
    ensures { ReadsNode (g.splat_list parser.now.takes_do parser.now.in_rescue) parser.now.depth cursor.old result cursor.new }
{
    if parser.depth == 0 {
        return Err(Fail::Refused);
    }
    splat_list(&parser.below(), cursor)
}

/// An argument, or a list that begins with one.
#[tactic(auto, using(ruby_reading::proofs::Named::nests_below, ruby_parameters::proofs::Levels::two_levels, ruby_parameters::proofs::Levels::one_level), unfolding(ruby_meaning::specs::Grammar::Table::table, ruby_meaning::specs::Grammar::Expressions::other_items))]
fn arguments_given<F: Fn(Global, &mut Cursor<'_>, Part, u32) -> Result<Reading, Fail> + Copy>(
    parser: &Parser<F>,
    cursor: &mut Cursor<'_>,
) -> Result<Node, Fail>
    requires below { Nests parser.now.depth (F.pre parser.now.names) (F.post parser.now.names) }
    ensures { spec.GivesPlain (spec.arguments_given parser.now.takes_do parser.now.in_rescue parser.now.depth (ahead cursor.old)) result (ahead cursor.new) }
{
    let first = parser.tree(cursor, Tree::Argument, parser.takes_do)?;
    if parser.depth == 0 || !cursor.sees(Sign::Op(Mark::Comma)) {
        return Ok(first);
    }
    if !fits(&first, parser.depth - 1) {
        return Ok(first);
    }
    list_behind(&parser.below(), cursor, first)
}

/// What a jump gives.
#[tactic(auto, unfolding(ruby_meaning::specs::Grammar::Table::table, ruby_meaning::specs::Grammar::Expressions::jump_value, ruby_meaning::specs::Grammar::Expressions::splat_list, ruby_meaning::specs::Grammar::Expressions::splat))]
fn given<F: Fn(Global, &mut Cursor<'_>, Part, u32) -> Result<Reading, Fail> + Copy>(
    parser: &Parser<F>,
    cursor: &mut Cursor<'_>,
) -> Result<Node, Fail>
    requires below { Nests parser.now.depth (F.pre parser.now.names) (F.post parser.now.names) }
    ensures { spec.GivesPlain (spec.read_given parser.now.takes_do parser.now.in_rescue parser.now.depth (ahead cursor.old)) result (ahead cursor.new) }
{
    if cursor.sees_one_of(&STARS) {
        splat_list_below(parser, cursor)
    } else {
        arguments_given(parser, cursor)
    }
}

/// What a jump gives, or nothing.
#[tactic(auto, unfolding(ruby_meaning::specs::Grammar::Table::table, ruby_meaning::specs::Grammar::Expressions::jump_value, ruby_meaning::specs::Grammar::Expressions::splat_list, ruby_meaning::specs::Grammar::Expressions::splat))]
fn given_or_nothing<F: Fn(Global, &mut Cursor<'_>, Part, u32) -> Result<Reading, Fail> + Copy>(
    parser: &Parser<F>,
    cursor: &mut Cursor<'_>,
) -> Result<Body, Fail>
    requires below { Nests parser.now.depth (F.pre parser.now.names) (F.post parser.now.names) }
    ensures { ReadsBody (spec.given_or_nothing parser.now.takes_do parser.now.in_rescue) parser.now.depth cursor.old result cursor.new }
{
    if begins_given(cursor) {
        return Ok(Body {
            node: given(parser, cursor)?,
            absent: false,
        });
    }
    let none = nothing(parser.alloc)?;
    if fits(&none.node, parser.depth) {
        Ok(none)
    } else {
        Err(Fail::Refused)
    }
}

/// `("return"|"break"|"next") [list]`
#[tactic(auto, unfolding(ruby_meaning::specs::Grammar::Table::table, ruby_meaning::specs::Grammar::Expressions::jump))]
pub fn jump<F: Fn(Global, &mut Cursor<'_>, Part, u32) -> Result<Reading, Fail> + Copy>(
    parser: &Parser<F>,
    cursor: &mut Cursor<'_>,
) -> Result<Value, Fail>
    requires below { Nests parser.now.depth (F.pre parser.now.names) (F.post parser.now.names) }
    ensures { ReadsValue (g.jump parser.now.takes_do parser.now.in_rescue) (suc parser.now.depth) cursor.old result cursor.new }
{
    let sign = cursor.take_one_of(&JUMPS)?;
    let given = given_or_nothing(parser, cursor)?;
    jump_value(parser.alloc, sign, given)
}
