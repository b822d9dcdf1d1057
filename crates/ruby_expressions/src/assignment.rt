//! Assignments.

ghost use Rattle.std.specs.Prelude.{◌≡◌, ◌<◌, ◌-◌, suc, true};
ghost use Rattle.grammar.specs.FormReaders.{next_in, read_token};
ghost use Rattle.grammar.specs.Spelling.{token_in};
ghost use Rattle.ruby_meaning.specs.Grammar.Actions as act;
ghost use Rattle.ruby_meaning.specs.Grammar.Expressions as g;
ghost use Rattle.ruby_reading.specs.Ahead.{ahead, class_code, see, GivesToken, Makes, MakesAs};
ghost use Rattle.ruby_expressions.specs.Assignments as spec;
ghost use Rattle.ruby_reading.specs.Named.{GivesValue, MakesValue, Nests, ReadsNode, ReadsValue};
ghost use Rattle.ruby_reading.specs.Shown.{shown_value, written_code};

use descent::Fail;
use opal_base::{Pos, Span};
use ruby_meaning::{Base, Kind, Mark, Node, Operator, Part, Sign, TokenKind};
use ruby_operands::ternary;
use ruby_reading::{
    Cursor, Parser, Reading, Sight, Tree, Value, Written, ascii, fits, node, nodes, start,
};
use sqlite_items::{Boxed, Items};
use std::alloc::Global;

/// What may stand on the right of an assignment.
#[derive(Clone, Copy, Debug, PartialEq, Eq)]
pub enum Right {
    Argument,
    /// A value, or a list that begins with `*`.
    Nested,
    One,
    /// A value or a list.
    Side,
}

/// The operators that are called.
const CALLS: [Sign; 7] = [
    Sign::Op(Mark::PlusSet),
    Sign::Op(Mark::MinusSet),
    Sign::Op(Mark::StarSet),
    Sign::Op(Mark::SlashSet),
    Sign::Op(Mark::PercentSet),
    Sign::Op(Mark::PowerSet),
    Sign::Op(Mark::ShiftLeftSet),
];

/// The operators that decide whether to assign.
const GUARDS: [Sign; 2] = [Sign::Op(Mark::OrSet), Sign::Op(Mark::AndSet)];

#[tactic(auto, using(ruby_reading::proofs::Next::next_or))]
fn sees_update(cursor: &Cursor<'_>) -> bool
    ensures { result ≡ next_in (λ t. g.updates (class_code t)) (ahead cursor.now) }
{
    cursor.sees_one_of(&CALLS) || cursor.sees_one_of(&GUARDS)
}

/// The sign of an assignment with an operator.
#[tactic(auto, using(crate::proofs::UpdateSigns::call_taken, crate::proofs::UpdateSigns::guard_taken))]
fn take_update<'a>(cursor: &mut Cursor<'a>) -> Result<Sight<'a>, Fail>
    ensures { GivesToken (read_token (token_in class_code g.updates) (ahead cursor.old)) result (ahead cursor.new) }
{
    if cursor.sees_one_of(&CALLS) {
        cursor.take_one_of(&CALLS)
    } else {
        cursor.take_one_of(&GUARDS)
    }
}

/// Whether the form of a node can be set.
fn can_be_set(kind: &Kind) -> bool
    ensures { result ≡ spec.can_be_set kind.now }
{
    match kind {
        Kind::Call {
            receiver: Some(_),
            block: None,
            ..
        } => true,
        Kind::Call {
            receiver: None,
            args,
            block: None,
            ..
        } => args.is_empty(),
        Kind::IvarGet(_) | Kind::GlobalGet(_) | Kind::Reraise => true,
        Kind::ConstGet { base, .. } => matches!(base, Base::Here),
        _ => false,
    }
}

/// Whether a value can be set.
pub fn is_place(value: &Value) -> bool
    ensures { result ≡ act.is_place (shown_value value.now) }
{
    may_be_set(value.written) && can_be_set(value.node.kind.get())
}

fn is_variable_kind(kind: &Kind) -> bool
    ensures { result ≡ spec.is_variable_kind kind.now }
{
    match kind {
        Kind::Call {
            receiver: None,
            args,
            block: None,
            ..
        } => args.is_empty(),
        Kind::IvarGet(_) | Kind::GlobalGet(_) | Kind::Reraise => true,
        _ => false,
    }
}

fn is_attribute_kind(kind: &Kind) -> bool
    ensures { result ≡ spec.is_attribute_kind kind.now }
{
    matches!(
        kind,
        Kind::Call {
            receiver: Some(_),
            block: None,
            ..
        }
    )
}

fn may_be_set(written: Written) -> bool
    ensures { result ≡ spec.may_be_set (written_code written) }
{
    written.is(Written::Variable) || written.is(Written::Attribute) || written.is(Written::Indexed)
}

fn sets_variable(value: &Value) -> bool
    ensures { result ≡ act.sets_variable (shown_value value.now) }
{
    may_be_set(value.written) && is_variable_kind(value.node.kind.get())
}

fn sets_attribute(value: &Value) -> bool
    ensures { result ≡ act.sets_attribute (shown_value value.now) }
{
    may_be_set(value.written) && is_attribute_kind(value.node.kind.get())
}

/// The assignment of a value to what can be set.
fn set_kind(alloc: Global, target: Kind, value: Node) -> Result<Kind, Fail>
    requires { spec.can_be_set target ≡ true }
    ensures { Makes (spec.set_kind target value) result }
{
    let value = Boxed::new(alloc, value)?;
    match target {
        Kind::Call {
            receiver,
            name,
            args,
            ..
        } => match receiver {
            Some(receiver) => Ok(Kind::AttrSet {
                receiver,
                name,
                args,
                value,
            }),
            None => Ok(Kind::LocalSet(name, value)),
        },
        Kind::IvarGet(name) => Ok(Kind::IvarSet(name, value)),
        Kind::GlobalGet(name) => Ok(Kind::GlobalSet(name, value)),
        Kind::ConstGet { name, .. } => Ok(Kind::ConstSet(name, value)),
        Kind::Reraise => Ok(Kind::LocalSet(ascii(alloc, b"raise")?, value)),
        other => Ok(other),
    }
}

/// An assignment of a command is no argument.
fn ended(written: Written) -> Written
    ensures { written_code result ≡ act.ended (written_code written) }
{
    if written.is(Written::Commanded) {
        Written::Commanded
    } else {
        Written::Other
    }
}

/// `target = value`
fn assigned(alloc: Global, target: Value, value: Value) -> Result<Value, Fail>
    requires { act.is_place (shown_value target) ≡ true }
    ensures { MakesAs shown_value (act.assigned (shown_value target) (record { value = shown_value value })) result }
{
    let span = nodes(&target.node, &value.node);
    let mark = target.node.mark;
    let kind = set_kind(alloc, target.node.kind.into_inner(), value.node)?;
    Ok(Value {
        node: node(alloc, kind, span, mark)?,
        written: ended(value.written),
    })
}

fn operator_of_mark(mark: Mark) -> Operator
    ensures { result ≡ act.operator_of_mark mark }
{
    match mark {
        Mark::PlusSet => Operator::Add,
        Mark::MinusSet => Operator::Sub,
        Mark::StarSet => Operator::Mul,
        Mark::SlashSet => Operator::Div,
        Mark::PercentSet => Operator::Mod,
        Mark::PowerSet => Operator::Pow,
        Mark::ShiftLeftSet => Operator::ShiftLeft,
        Mark::OrSet => Operator::Or,
        _ => Operator::And,
    }
}

fn operator(sign: Sight<'_>) -> Operator
    ensures { result ≡ spec.operator (see sign.entry) }
{
    match &sign.token.kind {
        TokenKind::Op(mark) => operator_of_mark(*mark),
        _ => Operator::And,
    }
}

fn method_of(operator: Operator) -> &'static [u8]
    ensures { result.now ≡ act.method_of_operator operator }
{
    match operator {
        Operator::Add => b"+",
        Operator::Sub => b"-",
        Operator::Mul => b"*",
        Operator::Div => b"/",
        Operator::Mod => b"%",
        Operator::Pow => b"**",
        Operator::ShiftLeft => b"<<",
        Operator::Or => b"||",
        Operator::And => b"&&",
    }
}

/// The assignment of a value to a variable that is read beside it.
fn set_variable(alloc: Global, target: &Kind, value: Node) -> Result<Kind, Fail>
    requires { spec.is_variable_kind target.now ≡ true }
    ensures { Makes (spec.set_kind target.now value) result }
{
    let value = Boxed::new(alloc, value)?;
    match target {
        Kind::Call { name, .. } => Ok(Kind::LocalSet(name.try_clone()?, value)),
        Kind::IvarGet(name) => Ok(Kind::IvarSet(name.try_clone()?, value)),
        Kind::GlobalGet(name) => Ok(Kind::GlobalSet(name.try_clone()?, value)),
        _ => Ok(Kind::LocalSet(ascii(alloc, b"raise")?, value)),
    }
}

/// The form of what can be set as a target: a name is a local there.
pub fn target_kind(alloc: Global, kind: Kind) -> Result<Kind, Fail>
    requires { spec.can_be_set kind ≡ true }
    ensures { Makes (spec.target_kind kind) result }
{
    match kind {
        Kind::Call {
            receiver,
            name,
            args,
            block,
            marked,
        } => match receiver {
            Some(receiver) => Ok(Kind::Call {
                receiver: Some(receiver),
                name,
                args,
                block,
                marked,
            }),
            None => Ok(Kind::LocalGet(name)),
        },
        Kind::Reraise => Ok(Kind::LocalGet(ascii(alloc, b"raise")?)),
        other => Ok(other),
    }
}

/// A variable like this one.
fn copied_variable(alloc: Global, target: &Kind) -> Result<Kind, Fail>
    requires { spec.is_variable_kind target.now ≡ true }
    ensures { MakesAs spec.place_of (spec.place_of target.now) result }
{
    match target {
        Kind::Call { name, .. } => Ok(Kind::Call {
            receiver: None,
            name: name.try_clone()?,
            args: Items::new(alloc),
            block: None,
            marked: None,
        }),
        Kind::IvarGet(name) => Ok(Kind::IvarGet(name.try_clone()?)),
        Kind::GlobalGet(name) => Ok(Kind::GlobalGet(name.try_clone()?)),
        _ => Ok(Kind::Reraise),
    }
}

fn value_of(
    alloc: Global,
    kind: Kind,
    span: Span,
    mark: Pos,
    written: Written,
) -> Result<Value, Fail>
    ensures { MakesAs shown_value (act.make kind span mark, act.ended (written_code written)) result }
{
    Ok(Value {
        node: node(alloc, kind, span, mark)?,
        written: ended(written),
    })
}

/// `x ||= value` and `x &&= value`
fn short_circuited(
    alloc: Global,
    target: Node,
    sign: Sight<'_>,
    value: Value,
    or: bool,
) -> Result<Value, Fail>
    requires { spec.is_variable_kind target.kind ≡ true }
    ensures { MakesAs shown_value (spec.short_circuited target (see sign.entry) (shown_value value) or) result }
{
    let span = nodes(&target, &value.node);
    let set = set_variable(alloc, target.kind.get(), value.node)?;
    let set = Boxed::new(alloc, node(alloc, set, span, target.mark)?)?;
    let target_span = target.span;
    let mark = target.mark;
    let kind = target_kind(alloc, target.kind.into_inner())?;
    let target = Boxed::new(alloc, node(alloc, kind, target_span, mark)?)?;
    let kind = if or {
        Kind::Or(target, set)
    } else {
        Kind::And(target, set)
    };
    value_of(alloc, kind, span, start(sign), value.written)
}

/// `x op= value` with another operator.
fn combined(
    alloc: Global,
    target: Node,
    sign: Sight<'_>,
    value: Value,
    operator: Operator,
) -> Result<Value, Fail>
    requires { spec.is_variable_kind target.kind ≡ true }
    ensures { MakesAs shown_value (spec.combined target (see sign.entry) (shown_value value) operator) result }
{
    let span = nodes(&target, &value.node);
    let mark = target.mark;
    let name = copied_variable(alloc, target.kind.get())?;
    let mut args = Items::new(alloc);
    args.push(value.node)?;
    let call = Kind::Call {
        receiver: Some(Boxed::new(alloc, target)?),
        name: ascii(alloc, method_of(operator))?,
        args,
        block: None,
        marked: None,
    };
    let call = node(alloc, call, span, start(sign))?;
    let kind = set_variable(alloc, &name, call)?;
    value_of(alloc, kind, span, mark, value.written)
}

/// `x op= value` on a variable.
fn variable_updated(
    alloc: Global,
    target: Value,
    sign: Sight<'_>,
    value: Value,
) -> Result<Value, Fail>
    requires { act.sets_variable (shown_value target) ≡ true }
    ensures { MakesAs shown_value (spec.variable_updated (shown_value target) (see sign.entry) (shown_value value)) result }
{
    match operator(sign) {
        Operator::Or => short_circuited(alloc, target.node, sign, value, true),
        Operator::And => short_circuited(alloc, target.node, sign, value, false),
        Operator::Add => combined(alloc, target.node, sign, value, Operator::Add),
        Operator::Sub => combined(alloc, target.node, sign, value, Operator::Sub),
        Operator::Mul => combined(alloc, target.node, sign, value, Operator::Mul),
        Operator::Div => combined(alloc, target.node, sign, value, Operator::Div),
        Operator::Mod => combined(alloc, target.node, sign, value, Operator::Mod),
        Operator::Pow => combined(alloc, target.node, sign, value, Operator::Pow),
        Operator::ShiftLeft => combined(alloc, target.node, sign, value, Operator::ShiftLeft),
    }
}

fn attribute_kind(target: Kind, op: Operator, value: Boxed<Node>) -> Kind
    requires { spec.is_attribute_kind target ≡ true }
    ensures { result ≡ spec.attribute_kind target op value }
{
    match target {
        Kind::Call {
            receiver,
            name,
            args,
            ..
        } => match receiver {
            Some(receiver) => Kind::AttrOpSet {
                receiver,
                name,
                args,
                op,
                value,
            },
            None => Kind::LocalSet(name, value),
        },
        other => other,
    }
}

/// `receiver.name op= value` and `receiver[args] op= value`
fn attribute_updated(
    alloc: Global,
    target: Value,
    sign: Sight<'_>,
    value: Value,
) -> Result<Value, Fail>
    requires { act.sets_attribute (shown_value target) ≡ true }
    ensures { MakesAs shown_value (spec.attribute_updated (shown_value target) (see sign.entry) (shown_value value)) result }
{
    let span = nodes(&target.node, &value.node);
    let mark = target.node.mark;
    let op = operator(sign);
    let set = Boxed::new(alloc, value.node)?;
    let kind = attribute_kind(target.node.kind.into_inner(), op, set);
    value_of(alloc, kind, span, mark, value.written)
}

/// What stands on the right of an assignment, one level below.
fn read_right<F: Fn(Global, &mut Cursor<'_>, Part, u32) -> Result<Reading, Fail> + Copy>(
    parser: &Parser<F>,
    cursor: &mut Cursor<'_>,
    right: Right,
) -> Result<Value, Fail>
    requires below { Nests parser.now.depth (F.pre parser.now.names) (F.post parser.now.names) }
    ensures { GivesValue (spec.read_right right parser.now.takes_do parser.now.in_rescue parser.now.depth (ahead cursor.old)) result (ahead cursor.new) }
{
    match right {
        Right::Argument => parser.plain(cursor, Tree::Argument, parser.takes_do),
        Right::Side => parser.plain(cursor, Tree::RightSide, parser.takes_do),
        Right::Nested => parser.nested_value(cursor),
        Right::One => parser.one_value(cursor),
    }
}

/// `"="` and a value behind what can be set.
#[tactic(auto, unfolding(ruby_meaning::specs::Grammar::Table::table))]
fn set_behind<F: Fn(Global, &mut Cursor<'_>, Part, u32) -> Result<Reading, Fail> + Copy>(
    parser: &Parser<F>,
    cursor: &mut Cursor<'_>,
    target: Value,
    right: Right,
) -> Result<Value, Fail>
    requires below { Nests parser.now.depth (F.pre parser.now.names) (F.post parser.now.names) }
    ensures { GivesValue (spec.set_behind right parser.now.takes_do parser.now.in_rescue parser.now.depth (shown_value target) (ahead cursor.old)) result (ahead cursor.new) }
{
    if !cursor.sees(Sign::Op(Mark::Assign))
        || !is_place(&target)
        || !fits(&target.node, parser.depth + 1)
    {
        return Ok(target);
    }
    cursor.take(Sign::Op(Mark::Assign))?;
    let value = read_right(parser, cursor, right)?;
    assigned(parser.alloc, target, value)
}

/// An operator that is called, and a value, behind a variable, which is two levels below.
#[tactic(auto, using(ruby_reading::proofs::Named::nests_below), unfolding(ruby_meaning::specs::Grammar::Table::table))]
fn operator_behind<F: Fn(Global, &mut Cursor<'_>, Part, u32) -> Result<Reading, Fail> + Copy>(
    parser: &Parser<F>,
    cursor: &mut Cursor<'_>,
    target: Value,
    right: Right,
) -> Result<Value, Fail>
    requires deep { 0 < parser.now.depth }
    requires below { Nests parser.now.depth (F.pre parser.now.names) (F.post parser.now.names) }
    ensures { GivesValue (spec.operator_behind right parser.now.takes_do parser.now.in_rescue (parser.now.depth - 1) (shown_value target) (ahead cursor.old)) result (ahead cursor.new) }
{
    if !cursor.sees_one_of(&CALLS)
        || !sets_variable(&target)
        || !fits(&target.node, parser.depth - 1)
    {
        return Ok(target);
    }
    let sign = cursor.take_one_of(&CALLS)?;
    let value = read_right(&parser.below(), cursor, right)?;
    variable_updated(parser.alloc, target, sign, value)
}

/// `target "=" value`, or what stands without it.
#[tactic(auto, unfolding(ruby_meaning::specs::Grammar::Table::table))]
fn set_or_plain<F: Fn(Global, &mut Cursor<'_>, Part, u32) -> Result<Reading, Fail> + Copy>(
    parser: &Parser<F>,
    cursor: &mut Cursor<'_>,
    value: Right,
) -> Result<Value, Fail>
    requires below { Nests parser.now.depth (F.pre parser.now.names) (F.post parser.now.names) }
    ensures { ReadsValue (spec.set_rule value parser.now.takes_do parser.now.in_rescue) (suc parser.now.depth) cursor.old result cursor.new }
{
    let target = ternary(parser, cursor)?;
    set_behind(parser, cursor, target, value)
}

/// The same, or a variable with an operator that is called, and a value.
#[tactic(auto, using(ruby_parameters::proofs::Levels::two_levels, ruby_parameters::proofs::Levels::one_level), unfolding(ruby_meaning::specs::Grammar::Table::table))]
fn called_or_set<F: Fn(Global, &mut Cursor<'_>, Part, u32) -> Result<Reading, Fail> + Copy>(
    parser: &Parser<F>,
    cursor: &mut Cursor<'_>,
    value: Right,
    updated: Right,
) -> Result<Value, Fail>
    requires below { Nests parser.now.depth (F.pre parser.now.names) (F.post parser.now.names) }
    ensures { ReadsValue (spec.operator_rule value updated parser.now.takes_do parser.now.in_rescue) (suc parser.now.depth) cursor.old result cursor.new }
{
    let target = set_or_plain(parser, cursor, value)?;
    if parser.depth == 0 {
        return Ok(target);
    }
    operator_behind(parser, cursor, target, updated)
}

/// `||=` or `&&=` and a value behind a variable, two nodes.
#[tactic(auto, using(ruby_reading::proofs::Named::nests_below, ruby_parameters::proofs::Levels::node_some, ruby_parameters::proofs::Levels::needs_some, ruby_parameters::proofs::Levels::needs_none), unfolding(ruby_meaning::specs::Grammar::Table::table))]
fn variable_behind<F: Fn(Global, &mut Cursor<'_>, Part, u32) -> Result<Reading, Fail> + Copy>(
    parser: &Parser<F>,
    cursor: &mut Cursor<'_>,
    target: Value,
    right: Right,
) -> Result<Value, Fail>
    requires below { Nests parser.now.depth (F.pre parser.now.names) (F.post parser.now.names) }
    ensures { GivesValue (spec.variable_behind right parser.now.takes_do parser.now.in_rescue parser.now.depth (shown_value target) (ahead cursor.old)) result (ahead cursor.new) }
{
    if !cursor.sees_one_of(&GUARDS)
        || !sets_variable(&target)
        || !fits(&target.node, parser.depth + 1)
    {
        return Ok(target);
    }
    if parser.depth == 0 {
        return Err(Fail::Refused);
    }
    let sign = cursor.take_one_of(&GUARDS)?;
    let value = read_right(&parser.below(), cursor, right)?;
    variable_updated(parser.alloc, target, sign, value)
}

/// `OP"="` and a value behind what has a receiver.
#[tactic(auto, unfolding(ruby_meaning::specs::Grammar::Table::table))]
fn attribute_behind<F: Fn(Global, &mut Cursor<'_>, Part, u32) -> Result<Reading, Fail> + Copy>(
    parser: &Parser<F>,
    cursor: &mut Cursor<'_>,
    target: Value,
    right: Right,
) -> Result<Value, Fail>
    requires below { Nests parser.now.depth (F.pre parser.now.names) (F.post parser.now.names) }
    ensures { GivesValue (spec.attribute_behind right parser.now.takes_do parser.now.in_rescue parser.now.depth (shown_value target) (ahead cursor.old)) result (ahead cursor.new) }
{
    if !sees_update(cursor) || !sets_attribute(&target) || !fits(&target.node, parser.depth + 1) {
        return Ok(target);
    }
    let sign = take_update(cursor)?;
    let value = read_right(parser, cursor, right)?;
    attribute_updated(parser.alloc, target, sign, value)
}

/// `target "=" value | target OP"=" updated`, or what stands without them.
#[tactic(auto, unfolding(ruby_meaning::specs::Grammar::Table::table))]
pub fn assignment<F: Fn(Global, &mut Cursor<'_>, Part, u32) -> Result<Reading, Fail> + Copy>(
    parser: &Parser<F>,
    cursor: &mut Cursor<'_>,
    value: Right,
    updated: Right,
) -> Result<Value, Fail>
    requires below { Nests parser.now.depth (F.pre parser.now.names) (F.post parser.now.names) }
    ensures { ReadsValue (g.assignment parser.now.takes_do parser.now.in_rescue (spec.right_rule value parser.now.takes_do parser.now.in_rescue) (spec.right_rule updated parser.now.takes_do parser.now.in_rescue)) (suc parser.now.depth) cursor.old result cursor.new }
{
    let target = called_or_set(parser, cursor, value, updated)?;
    let target = variable_behind(parser, cursor, target, updated)?;
    attribute_behind(parser, cursor, target, updated)
}

/// `arg`
#[tactic(auto, unfolding(ruby_meaning::specs::Grammar::Table::table, ruby_meaning::specs::Grammar::Expressions::argument))]
pub fn argument<F: Fn(Global, &mut Cursor<'_>, Part, u32) -> Result<Reading, Fail> + Copy>(
    parser: &Parser<F>,
    cursor: &mut Cursor<'_>,
) -> Result<Value, Fail>
    requires below { Nests parser.now.depth (F.pre parser.now.names) (F.post parser.now.names) }
    ensures { ReadsValue (g.argument parser.now.takes_do parser.now.in_rescue) (suc parser.now.depth) cursor.old result cursor.new }
{
    assignment(parser, cursor, Right::Argument, Right::Argument)
}
