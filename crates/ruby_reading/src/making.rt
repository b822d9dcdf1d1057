//! Nodes and their places.

ghost use Rattle.std.specs.Prelude.{◌≡◌, ◌-◌, ◌<◌, ◌++◌, length, nat_le, take, IfOk};
ghost use Rattle.ruby_meaning.specs.Depth.{depth_of};
ghost use Rattle.ruby_meaning.specs.Grammar.Actions as act;
ghost use Rattle.ruby_reading.specs.Ahead.{MakesAs, see};
ghost use Rattle.ruby_reading.specs.Shown.{shown_body};

use crate::cursor::Sight;
use crate::value::Body;
use descent::Fail;
use opal_base::{NoMemory, Pos, Span, Units};
use ruby_meaning::{Kind, Mark, Node, Nodes, TokenKind, depth};
use sqlite_items::Boxed;
use std::alloc::{AllocError, Global};

pub fn node(alloc: Global, kind: Kind, span: Span, mark: Pos) -> Result<Node, AllocError>
    ensures { IfOk result (λ made. made ≡ act.make kind span mark) }
{
    let kind = Boxed::new(alloc, kind)?;
    Ok(Node { kind, span, mark })
}

pub fn start(sight: Sight<'_>) -> Pos
    ensures { result ≡ act.start (see sight.entry) }
{
    sight.token.pos
}

pub fn span_of(sight: Sight<'_>) -> Span
    ensures { result ≡ act.span_of (see sight.entry) }
{
    Span {
        from: sight.token.pos,
        to: sight.token.end,
    }
}

/// From the start of one span to the end of another.
pub fn to_end(first: Span, last: Span) -> Span
    ensures { result ≡ act.to_end first last }
{
    Span {
        from: first.from,
        to: last.to,
    }
}

/// From the start of one token to the end of another.
pub fn tokens(first: Sight<'_>, last: Sight<'_>) -> Span
    ensures { result ≡ act.tokens (see first.entry) (see last.entry) }
{
    to_end(span_of(first), span_of(last))
}

/// What a token carries.
pub fn units(alloc: Global, sight: Sight<'_>) -> Result<Units, NoMemory>
    ensures { IfOk result (λ units. units ≡ act.units (see sight.entry)) }
{
    match &sight.token.kind {
        TokenKind::Name(units) => units.try_clone(),
        TokenKind::Const(units) => units.try_clone(),
        TokenKind::Ivar(units) => units.try_clone(),
        TokenKind::Gvar(units) => units.try_clone(),
        TokenKind::Text(units) => units.try_clone(),
        TokenKind::Label(units) => before_colon(alloc, units),
        _ => Ok(Units::new(alloc)),
    }
}

/// The name of a label.
fn before_colon(alloc: Global, label: &Units) -> Result<Units, NoMemory>
    ensures { IfOk result (λ units. units ≡ take (length label.now - 1) label.now) }
{
    let name = label.len().saturating_sub(1);
    match Vec::from_slice(alloc, &label.as_slice()[..name]) {
        Ok(units) => Ok(Units::from_vec(units)),
        Err(_) => Err(NoMemory),
    }
}

pub fn integer(sight: Sight<'_>) -> i64
    ensures { result ≡ act.integer (see sight.entry) }
{
    match &sight.token.kind {
        TokenKind::Int(value) => *value,
        _ => 0,
    }
}

/// The units of ASCII characters.
pub fn ascii(alloc: Global, text: &[u8]) -> Result<Units, NoMemory>
    ensures { IfOk result (λ units. units ≡ text.now) }
{
    let mut units = Units::new(alloc);
    for byte in text {
        units.push(u16::from(*byte))?;
    }
    Ok(units)
}

/// The name of an operator that names a method.
fn method_of_mark(mark: Mark) -> &'static [u8]
    ensures { result.now ≡ act.method_of_mark mark }
{
    match mark {
        Mark::Plus => b"+",
        Mark::Minus => b"-",
        Mark::Star => b"*",
        Mark::Slash => b"/",
        Mark::Percent => b"%",
        Mark::Power => b"**",
        Mark::Negate => b"-@",
        Mark::Equal => b"==",
        Mark::Less => b"<",
        Mark::LessEqual => b"<=",
        Mark::Greater => b">",
        Mark::GreaterEqual => b">=",
        Mark::Compare => b"<=>",
        Mark::TripleEqual => b"===",
        Mark::ShiftLeft => b"<<",
        Mark::Index => b"[]",
        Mark::IndexSet => b"[]=",
        _ => b"",
    }
}

/// The method that a token names.
pub fn method_name(alloc: Global, sight: Sight<'_>) -> Result<Units, NoMemory>
    ensures { IfOk result (λ units. units ≡ act.method_name (see sight.entry)) }
{
    match &sight.token.kind {
        TokenKind::Op(mark) => ascii(alloc, method_of_mark(*mark)),
        _ => units(alloc, sight),
    }
}

/// Whether the node has so many levels at most.
pub fn fits(node: &Node, limit: u32) -> bool
    requires { limit < u32.MAX }
    ensures { result ≡ nat_le (depth_of node.now) limit }
{
    depth(node) <= limit
}

/// From the start of one node to the end of another.
pub fn nodes(first: &Node, last: &Node) -> Span
    ensures { result ≡ act.nodes first.now last.now }
{
    to_end(first.span, last.span)
}

/// From the start of a token to the end of a node.
pub fn from_token(first: Sight<'_>, last: &Node) -> Span
    ensures { result ≡ act.from_token (see first.entry) last.now }
{
    to_end(span_of(first), last.span)
}

/// The node of statements, with the span of the form where there are none.
pub fn filled(span: Span, body: Body) -> Node
    ensures { result ≡ act.filled span (shown_body body) }
{
    if body.absent {
        Node {
            kind: body.node.kind,
            span,
            mark: span.from,
        }
    } else {
        body.node
    }
}

pub fn boxed_if(alloc: Global, value: Option<Node>) -> Result<Option<Boxed<Node>>, AllocError>
    ensures { IfOk result (λ boxed. boxed ≡ value) }
{
    match value {
        Some(value) => Ok(Some(Boxed::new(alloc, value)?)),
        None => Ok(None),
    }
}

/// No statement; the form that holds it sets its span.
pub fn nothing(alloc: Global) -> Result<Body, Fail>
    ensures { MakesAs shown_body (act.nothing, 1) result }
{
    let place = Pos { line: 0, col: 0 };
    let span = Span {
        from: place,
        to: place,
    };
    Ok(Body {
        node: node(alloc, Kind::Seq(Nodes::new(alloc)), span, place)?,
        absent: true,
    })
}
