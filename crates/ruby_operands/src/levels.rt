//! Operators by levels.

ghost use Rattle.std.specs.Prelude.{◌≡◌, suc, length};
ghost use Rattle.ruby_meaning.specs.Grammar.Actions as act;
ghost use Rattle.ruby_meaning.specs.Grammar.Expressions as g;
ghost use Rattle.descent.specs.Sets.{one_of};
ghost use Rattle.ruby_reading.specs.Ahead.{ahead, see, codes, Makes};
ghost use Rattle.ruby_reading.specs.Named.{GivesValue, MakesValue, Nests, ReadsNode, ReadsValue};
ghost use Rattle.ruby_operands.specs.Operators as spec;
ghost use Rattle.ruby_reading.specs.Shown.{shown_value};

use crate::suffixes::post;
use descent::Fail;
use ruby_meaning::{Kind, Mark, Node, Part, Sign, TokenKind, Word};
use ruby_reading::{
    Cursor, Parser, Reading, Sight, Tree, Value, Written, ascii, fits, from_token, method_name,
    node, nodes, start,
};
use sqlite_items::{Boxed, Items};
use std::alloc::Global;

/// What two values with an operator between them are.
#[derive(Clone, Copy, Debug, PartialEq, Eq)]
pub enum Joint {
    /// The call of the operator.
    Call,
    And,
    Or,
    /// As the keyword tells.
    Word,
}

const MINUS: [Sign; 2] = [Sign::Op(Mark::Minus), Sign::Marked(Mark::Minus)];

const EQUALITIES: [Sign; 3] = [
    Sign::Op(Mark::Compare),
    Sign::Op(Mark::Equal),
    Sign::Op(Mark::TripleEqual),
];

const RANGES: [Sign; 2] = [Sign::Op(Mark::DotDot), Sign::Op(Mark::DotDotDot)];

const PRODUCTS: [Sign; 3] = [
    Sign::Op(Mark::Star),
    Sign::Op(Mark::Slash),
    Sign::Op(Mark::Percent),
];

const SUMS: [Sign; 2] = [Sign::Op(Mark::Plus), Sign::Op(Mark::Minus)];

const SHIFTS: [Sign; 1] = [Sign::Op(Mark::ShiftLeft)];

const COMPARISONS: [Sign; 4] = [
    Sign::Op(Mark::Less),
    Sign::Op(Mark::LessEqual),
    Sign::Op(Mark::Greater),
    Sign::Op(Mark::GreaterEqual),
];

const ANDS: [Sign; 1] = [Sign::Op(Mark::And)];

const ORS: [Sign; 1] = [Sign::Op(Mark::Or)];

fn call(alloc: Global, left: Node, sign: Sight<'_>, right: Node) -> Result<Kind, Fail>
    ensures { Makes (spec.call_kind left (see sign.entry) right) result }
{
    let name = method_name(alloc, sign)?;
    let mut args = Items::new(alloc);
    args.push(right)?;
    Ok(Kind::Call {
        receiver: Some(Boxed::new(alloc, left)?),
        name,
        args,
        block: None,
        marked: None,
    })
}

fn is_word_or(sign: Sight<'_>) -> bool
    ensures { result ≡ spec.is_or (see sign.entry) }
{
    matches!(&sign.token.kind, TokenKind::Keyword(Word::Or))
}

fn and(alloc: Global, left: Node, right: Node) -> Result<Kind, Fail>
    ensures { Makes (spec.and_kind left right) result }
{
    Ok(Kind::And(Boxed::new(alloc, left)?, Boxed::new(alloc, right)?))
}

fn or(alloc: Global, left: Node, right: Node) -> Result<Kind, Fail>
    ensures { Makes (spec.or_kind left right) result }
{
    Ok(Kind::Or(Boxed::new(alloc, left)?, Boxed::new(alloc, right)?))
}

fn joined(
    alloc: Global,
    joint: Joint,
    left: Node,
    sign: Sight<'_>,
    right: Node,
) -> Result<Kind, Fail>
    ensures { Makes (spec.joint_kind joint left (see sign.entry) right) result }
{
    match joint {
        Joint::Call => call(alloc, left, sign, right),
        Joint::And => and(alloc, left, right),
        Joint::Or => or(alloc, left, right),
        Joint::Word if is_word_or(sign) => or(alloc, left, right),
        Joint::Word => and(alloc, left, right),
    }
}

fn joined_value(
    alloc: Global,
    joint: Joint,
    left: Node,
    sign: Sight<'_>,
    right: Node,
) -> Result<Value, Fail>
    ensures { MakesValue (spec.joint_value joint (left, 0) (see sign.entry, right)) result }
{
    let span = nodes(&left, &right);
    let kind = joined(alloc, joint, left, sign, right)?;
    Ok(Value {
        node: node(alloc, kind, span, start(sign))?,
        written: Written::Other,
    })
}

fn negated(alloc: Global, sign: Sight<'_>, value: Node) -> Result<Value, Fail>
    ensures { MakesValue (act.negated (see sign.entry) value, act.other) result }
{
    let span = from_token(sign, &value);
    let kind = Kind::Call {
        receiver: Some(Boxed::new(alloc, value)?),
        name: ascii(alloc, b"-@")?,
        args: Items::new(alloc),
        block: None,
        marked: None,
    };
    Ok(Value {
        node: node(alloc, kind, span, start(sign))?,
        written: Written::Other,
    })
}

/// `a != b`
fn different(alloc: Global, left: Node, sign: Sight<'_>, right: Node) -> Result<Value, Fail>
    ensures { MakesValue (act.different (left, 0) (see sign.entry, right)) result }
{
    let span = nodes(&left, &right);
    let mut args = Items::new(alloc);
    args.push(right)?;
    let kind = Kind::Call {
        receiver: Some(Boxed::new(alloc, left)?),
        name: ascii(alloc, b"==")?,
        args,
        block: None,
        marked: None,
    };
    let equal = node(alloc, kind, span, start(sign))?;
    let kind = Kind::Not(Boxed::new(alloc, equal)?);
    Ok(Value {
        node: node(alloc, kind, span, start(sign))?,
        written: Written::Compared,
    })
}

fn without_end(sign: Sight<'_>) -> bool
    ensures { result ≡ act.without_end (see sign.entry) }
{
    matches!(&sign.token.kind, TokenKind::Op(Mark::DotDotDot))
}

fn range(alloc: Global, low: Node, sign: Sight<'_>, high: Node) -> Result<Value, Fail>
    ensures { MakesValue (spec.range_value low (see sign.entry) high) result }
{
    let span = nodes(&low, &high);
    let kind = Kind::RangeLit {
        low: Boxed::new(alloc, low)?,
        high: Boxed::new(alloc, high)?,
        without_end: without_end(sign),
    };
    Ok(Value {
        node: node(alloc, kind, span, start(sign))?,
        written: Written::Other,
    })
}

fn conditional(
    alloc: Global,
    cond: Node,
    sign: Sight<'_>,
    yes: Node,
    no: Node,
) -> Result<Value, Fail>
    ensures { MakesValue (spec.conditional_value cond (see sign.entry) yes no) result }
{
    let span = nodes(&cond, &no);
    let kind = Kind::If {
        cond: Boxed::new(alloc, cond)?,
        yes: Boxed::new(alloc, yes)?,
        no: Boxed::new(alloc, no)?,
    };
    Ok(Value {
        node: node(alloc, kind, span, start(sign))?,
        written: Written::Other,
    })
}

/// Operators of a level and operands behind a value, to the left.
pub fn operators<F: Fn(Global, &mut Cursor<'_>, Part, u32) -> Result<Reading, Fail> + Copy>(
    parser: &Parser<F>,
    cursor: &mut Cursor<'_>,
    first: Value,
    signs: &[Sign],
    operand: Tree,
    joint: Joint,
) -> Result<Value, Fail>
    requires below { Nests parser.now.depth (F.pre parser.now.names) (F.post parser.now.names) }
    ensures { GivesValue (spec.operators_from (one_of (codes signs.now)) operand joint parser.now.takes_do parser.now.in_rescue parser.now.depth (length (ahead cursor.old)) (shown_value first) (ahead cursor.old)) result (ahead cursor.new) }
{
    let Value {
        node: mut left,
        mut written,
    } = first;
    for _turn in 0..cursor.left() {
        if !cursor.sees_one_of(signs) || !fits(&left, parser.depth) {
            return Ok(Value {
                node: left,
                written,
            });
        }
        let sign = cursor.take_one_of(signs)?;
        let right = parser.tree(cursor, operand, parser.takes_do)?;
        let span = nodes(&left, &right);
        let kind = joined(parser.alloc, joint, left, sign, right)?;
        left = node(parser.alloc, kind, span, start(sign))?;
        written = Written::Other;
    }
    Ok(Value {
        node: left,
        written,
    })
}

/// `!`
#[tactic(auto, unfolding(ruby_meaning::specs::Grammar::Table::table, ruby_meaning::specs::Grammar::Expressions::not_level))]
pub fn not_level<F: Fn(Global, &mut Cursor<'_>, Part, u32) -> Result<Reading, Fail> + Copy>(
    parser: &Parser<F>,
    cursor: &mut Cursor<'_>,
) -> Result<Value, Fail>
    requires below { Nests parser.now.depth (F.pre parser.now.names) (F.post parser.now.names) }
    ensures { ReadsValue (g.not_level parser.now.takes_do parser.now.in_rescue) (suc parser.now.depth) cursor.old result cursor.new }
{
    if !cursor.sees(Sign::Op(Mark::Bang)) {
        return post(parser, cursor);
    }
    let sign = cursor.take(Sign::Op(Mark::Bang))?;
    let value = parser.tree(cursor, Tree::NotOperand, parser.takes_do)?;
    let span = from_token(sign, &value);
    let kind = Kind::Not(Boxed::new(parser.alloc, value)?);
    Ok(Value {
        node: node(parser.alloc, kind, span, start(sign))?,
        written: Written::Other,
    })
}

/// `**`, to the right
#[tactic(auto, unfolding(ruby_meaning::specs::Grammar::Table::table, ruby_meaning::specs::Grammar::Expressions::power_level))]
pub fn power_level<F: Fn(Global, &mut Cursor<'_>, Part, u32) -> Result<Reading, Fail> + Copy>(
    parser: &Parser<F>,
    cursor: &mut Cursor<'_>,
) -> Result<Value, Fail>
    requires below { Nests parser.now.depth (F.pre parser.now.names) (F.post parser.now.names) }
    ensures { ReadsValue (g.power_level parser.now.takes_do parser.now.in_rescue) (suc parser.now.depth) cursor.old result cursor.new }
{
    let left = not_level(parser, cursor)?;
    if !cursor.sees(Sign::Op(Mark::Power)) || !fits(&left.node, parser.depth) {
        return Ok(left);
    }
    let sign = cursor.take(Sign::Op(Mark::Power))?;
    let right = parser.tree(cursor, Tree::PowerOperand, parser.takes_do)?;
    joined_value(parser.alloc, Joint::Call, left.node, sign, right)
}

/// Unary `-`
#[tactic(auto, unfolding(ruby_meaning::specs::Grammar::Table::table, ruby_meaning::specs::Grammar::Expressions::minus_level))]
pub fn minus_level<F: Fn(Global, &mut Cursor<'_>, Part, u32) -> Result<Reading, Fail> + Copy>(
    parser: &Parser<F>,
    cursor: &mut Cursor<'_>,
) -> Result<Value, Fail>
    requires below { Nests parser.now.depth (F.pre parser.now.names) (F.post parser.now.names) }
    ensures { ReadsValue (g.minus_level parser.now.takes_do parser.now.in_rescue) (suc parser.now.depth) cursor.old result cursor.new }
{
    if !cursor.sees_one_of(&MINUS) {
        return power_level(parser, cursor);
    }
    let sign = cursor.take_one_of(&MINUS)?;
    let value = parser.tree(cursor, Tree::ProductOperand, parser.takes_do)?;
    negated(parser.alloc, sign, value)
}

/// `*`, `/` and `%`
#[tactic(auto, unfolding(ruby_meaning::specs::Grammar::Table::table, ruby_meaning::specs::Grammar::Expressions::product_level))]
pub fn product_level<F: Fn(Global, &mut Cursor<'_>, Part, u32) -> Result<Reading, Fail> + Copy>(
    parser: &Parser<F>,
    cursor: &mut Cursor<'_>,
) -> Result<Value, Fail>
    requires below { Nests parser.now.depth (F.pre parser.now.names) (F.post parser.now.names) }
    ensures { ReadsValue (g.product_level parser.now.takes_do parser.now.in_rescue) (suc parser.now.depth) cursor.old result cursor.new }
{
    let first = minus_level(parser, cursor)?;
    operators(
        parser,
        cursor,
        first,
        &PRODUCTS,
        Tree::ProductOperand,
        Joint::Call,
    )
}

/// `+` and `-`
#[tactic(auto, unfolding(ruby_meaning::specs::Grammar::Table::table, ruby_meaning::specs::Grammar::Expressions::sum_level))]
pub fn sum_level<F: Fn(Global, &mut Cursor<'_>, Part, u32) -> Result<Reading, Fail> + Copy>(
    parser: &Parser<F>,
    cursor: &mut Cursor<'_>,
) -> Result<Value, Fail>
    requires below { Nests parser.now.depth (F.pre parser.now.names) (F.post parser.now.names) }
    ensures { ReadsValue (g.sum_level parser.now.takes_do parser.now.in_rescue) (suc parser.now.depth) cursor.old result cursor.new }
{
    let first = product_level(parser, cursor)?;
    operators(parser, cursor, first, &SUMS, Tree::SumOperand, Joint::Call)
}

/// `<<`
#[tactic(auto, unfolding(ruby_meaning::specs::Grammar::Table::table, ruby_meaning::specs::Grammar::Expressions::shift_level))]
pub fn shift_level<F: Fn(Global, &mut Cursor<'_>, Part, u32) -> Result<Reading, Fail> + Copy>(
    parser: &Parser<F>,
    cursor: &mut Cursor<'_>,
) -> Result<Value, Fail>
    requires below { Nests parser.now.depth (F.pre parser.now.names) (F.post parser.now.names) }
    ensures { ReadsValue (g.shift_level parser.now.takes_do parser.now.in_rescue) (suc parser.now.depth) cursor.old result cursor.new }
{
    let first = sum_level(parser, cursor)?;
    operators(
        parser,
        cursor,
        first,
        &SHIFTS,
        Tree::ShiftOperand,
        Joint::Call,
    )
}

/// `<`, `<=`, `>` and `>=`
#[tactic(auto, unfolding(ruby_meaning::specs::Grammar::Table::table, ruby_meaning::specs::Grammar::Expressions::comparison_level))]
pub fn comparison_level<F: Fn(Global, &mut Cursor<'_>, Part, u32) -> Result<Reading, Fail> + Copy>(
    parser: &Parser<F>,
    cursor: &mut Cursor<'_>,
) -> Result<Value, Fail>
    requires below { Nests parser.now.depth (F.pre parser.now.names) (F.post parser.now.names) }
    ensures { ReadsValue (g.comparison_level parser.now.takes_do parser.now.in_rescue) (suc parser.now.depth) cursor.old result cursor.new }
{
    let first = shift_level(parser, cursor)?;
    operators(
        parser,
        cursor,
        first,
        &COMPARISONS,
        Tree::ComparisonOperand,
        Joint::Call,
    )
}

/// `<=>`, `==` and `===`, at most one
#[tactic(auto, unfolding(ruby_meaning::specs::Grammar::Table::table, ruby_meaning::specs::Grammar::Expressions::equal_level))]
pub fn equal_level<F: Fn(Global, &mut Cursor<'_>, Part, u32) -> Result<Reading, Fail> + Copy>(
    parser: &Parser<F>,
    cursor: &mut Cursor<'_>,
) -> Result<Value, Fail>
    requires below { Nests parser.now.depth (F.pre parser.now.names) (F.post parser.now.names) }
    ensures { ReadsValue (g.equal_level parser.now.takes_do parser.now.in_rescue) (suc parser.now.depth) cursor.old result cursor.new }
{
    let left = comparison_level(parser, cursor)?;
    if !cursor.sees_one_of(&EQUALITIES) || !fits(&left.node, parser.depth) {
        return Ok(left);
    }
    let sign = cursor.take_one_of(&EQUALITIES)?;
    let right = parser.tree(cursor, Tree::EqualityOperand, parser.takes_do)?;
    let value = joined_value(parser.alloc, Joint::Call, left.node, sign, right)?;
    Ok(Value {
        node: value.node,
        written: Written::Compared,
    })
}

/// `!=` in its place, two nodes
#[tactic(auto, using(ruby_reading::proofs::Named::nests_below, ruby_parameters::proofs::Levels::two_levels, ruby_parameters::proofs::Levels::one_level), unfolding(ruby_meaning::specs::Grammar::Table::table, ruby_meaning::specs::Grammar::Expressions::equality_level))]
pub fn equality_level<F: Fn(Global, &mut Cursor<'_>, Part, u32) -> Result<Reading, Fail> + Copy>(
    parser: &Parser<F>,
    cursor: &mut Cursor<'_>,
) -> Result<Value, Fail>
    requires below { Nests parser.now.depth (F.pre parser.now.names) (F.post parser.now.names) }
    ensures { ReadsValue (g.equality_level parser.now.takes_do parser.now.in_rescue) (suc parser.now.depth) cursor.old result cursor.new }
{
    let left = equal_level(parser, cursor)?;
    if parser.depth == 0 || !cursor.sees(Sign::Op(Mark::NotEqual)) {
        return Ok(left);
    }
    if left.written.is(Written::Compared) || !fits(&left.node, parser.depth - 1) {
        return Ok(left);
    }
    let sign = cursor.take(Sign::Op(Mark::NotEqual))?;
    let right = parser
        .below()
        .tree(cursor, Tree::EqualityOperand, parser.takes_do)?;
    different(parser.alloc, left.node, sign, right)
}

/// `&&`
#[tactic(auto, unfolding(ruby_meaning::specs::Grammar::Table::table, ruby_meaning::specs::Grammar::Expressions::and_level))]
pub fn and_level<F: Fn(Global, &mut Cursor<'_>, Part, u32) -> Result<Reading, Fail> + Copy>(
    parser: &Parser<F>,
    cursor: &mut Cursor<'_>,
) -> Result<Value, Fail>
    requires below { Nests parser.now.depth (F.pre parser.now.names) (F.post parser.now.names) }
    ensures { ReadsValue (g.and_level parser.now.takes_do parser.now.in_rescue) (suc parser.now.depth) cursor.old result cursor.new }
{
    let first = equality_level(parser, cursor)?;
    operators(parser, cursor, first, &ANDS, Tree::AndOperand, Joint::And)
}

/// `||`
#[tactic(auto, unfolding(ruby_meaning::specs::Grammar::Table::table, ruby_meaning::specs::Grammar::Expressions::or_level))]
pub fn or_level<F: Fn(Global, &mut Cursor<'_>, Part, u32) -> Result<Reading, Fail> + Copy>(
    parser: &Parser<F>,
    cursor: &mut Cursor<'_>,
) -> Result<Value, Fail>
    requires below { Nests parser.now.depth (F.pre parser.now.names) (F.post parser.now.names) }
    ensures { ReadsValue (g.or_level parser.now.takes_do parser.now.in_rescue) (suc parser.now.depth) cursor.old result cursor.new }
{
    let first = and_level(parser, cursor)?;
    operators(parser, cursor, first, &ORS, Tree::OrOperand, Joint::Or)
}

/// `..` and `...`, at most one
#[tactic(auto, unfolding(ruby_meaning::specs::Grammar::Table::table, ruby_meaning::specs::Grammar::Expressions::range_level))]
pub fn range_level<F: Fn(Global, &mut Cursor<'_>, Part, u32) -> Result<Reading, Fail> + Copy>(
    parser: &Parser<F>,
    cursor: &mut Cursor<'_>,
) -> Result<Value, Fail>
    requires below { Nests parser.now.depth (F.pre parser.now.names) (F.post parser.now.names) }
    ensures { ReadsValue (g.range_level parser.now.takes_do parser.now.in_rescue) (suc parser.now.depth) cursor.old result cursor.new }
{
    let low = or_level(parser, cursor)?;
    if !cursor.sees_one_of(&RANGES) || !fits(&low.node, parser.depth) {
        return Ok(low);
    }
    let sign = cursor.take_one_of(&RANGES)?;
    let high = parser.tree(cursor, Tree::RangeOperand, parser.takes_do)?;
    range(parser.alloc, low.node, sign, high)
}

/// `? :`, to the right
#[tactic(auto, unfolding(ruby_meaning::specs::Grammar::Table::table, ruby_meaning::specs::Grammar::Expressions::ternary))]
pub fn ternary<F: Fn(Global, &mut Cursor<'_>, Part, u32) -> Result<Reading, Fail> + Copy>(
    parser: &Parser<F>,
    cursor: &mut Cursor<'_>,
) -> Result<Value, Fail>
    requires below { Nests parser.now.depth (F.pre parser.now.names) (F.post parser.now.names) }
    ensures { ReadsValue (g.ternary parser.now.takes_do parser.now.in_rescue) (suc parser.now.depth) cursor.old result cursor.new }
{
    let cond = range_level(parser, cursor)?;
    if !cursor.sees(Sign::Op(Mark::Question)) || !fits(&cond.node, parser.depth) {
        return Ok(cond);
    }
    let sign = cursor.take(Sign::Op(Mark::Question))?;
    let yes = parser.tree(cursor, Tree::Ternary, parser.takes_do)?;
    cursor.take(Sign::Op(Mark::Colon))?;
    let no = parser.tree(cursor, Tree::Ternary, parser.takes_do)?;
    conditional(parser.alloc, cond.node, sign, yes, no)
}
