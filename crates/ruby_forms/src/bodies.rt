//! Bodies with `rescue`, `else` and `ensure`, and `begin`.

ghost use Rattle.std.specs.Prelude.{None, ◌≡◌, suc, length, true, false};
ghost use Rattle.ruby_meaning.specs.Grammar.Actions as act;
ghost use Rattle.ruby_meaning.specs.Grammar.Definitions as g;
ghost use Rattle.ruby_meaning.specs.Grammar.Names.{part};
ghost use Rattle.ruby_meaning.specs.Grammar.Table.{table};
ghost use Rattle.grammar.specs.Rules.{absent};
ghost use Rattle.descent.specs.Gives.{Gives};
ghost use Rattle.ruby_reading.specs.Ahead.{ahead, see, Makes, MakesAs};
ghost use Rattle.ruby_parameters.specs.Parameters.{see_if};
ghost use Rattle.ruby_forms.specs.Definitions as spec;
ghost use Rattle.ruby_reading.specs.Named.{Nests, Reads, ReadsNode, ReadsValue};
ghost use Rattle.ruby_reading.specs.Shown.{shown_body};
ghost use Rattle.std.specs.Option.{option_map};

use crate::clauses::{Guarded, argument_list, guarded_body, last_of};
use descent::Fail;
use opal_base::{Pos, Span, Units};
use ruby_meaning::{Kind, Mark, Node, Nodes, Part, Sign, Word};
use ruby_parameters::{last_span, variable_name};
use ruby_reading::{
    Body, Cursor, Parser, Reading, Sight, VALUES, Value, Written, filled, fits, node, span_of,
    start, to_end, tokens, units,
};
use sqlite_items::Boxed;
use std::alloc::Global;

const HANDLER_SIGNS: [Sign; 3] = [
    Sign::Keyword(Word::Rescue),
    Sign::Keyword(Word::Else),
    Sign::Keyword(Word::Ensure),
];

/// A keyword and the statements behind it.
#[derive(Drop)]
pub struct KeywordPart<'a> {
    pub word: Sight<'a>,
    pub body: Body,
}

/// What stands behind the first statements of a body.
#[derive(Drop)]
pub struct Handlers<'a> {
    pub clauses: Nodes,
    pub otherwise: Option<KeywordPart<'a>>,
    pub ensure: Option<KeywordPart<'a>>,
}

fn name_if(alloc: Global, name: Option<Sight<'_>>) -> Result<Option<Units>, Fail>
    ensures { MakesAs (λ n. n) (act.name_if (see_if name.entry)) result }
{
    match name {
        Some(name) => Ok(Some(units(alloc, name)?)),
        None => Ok(None),
    }
}

/// The place of the name, or of the `rescue`.
pub fn rescue_place(sign: Sight<'_>, name: Option<Sight<'_>>) -> Pos
    ensures { result ≡ act.rescue_place (see sign.entry) (see_if name.entry) }
{
    match name {
        Some(name) => start(name),
        None => start(sign),
    }
}

fn rescue_node(
    alloc: Global,
    sign: Sight<'_>,
    classes: Nodes,
    name: Option<Sight<'_>>,
    parts: Guarded<'_>,
) -> Result<Node, Fail>
    ensures { Makes (spec.rescue_node (see sign.entry) classes (see_if name.entry) (spec.shown_guarded parts.entry)) result }
{
    let span = to_end(span_of(sign), last_of(parts.then, &parts.body));
    let kind = Kind::Rescue {
        classes,
        name: name_if(alloc, name)?,
        body: Boxed::new(alloc, filled(span, parts.body))?,
    };
    Ok(node(alloc, kind, span, rescue_place(sign, name))?)
}

/// Where the parts behind the first statements begin.
fn handlers_from(place: Pos, handlers: &Handlers<'_>) -> Pos
    ensures { result ≡ act.handlers_from place (spec.shown_handlers handlers.now) }
{
    if let Some(clause) = handlers.clauses.as_slice().first() {
        return clause.span.from;
    }
    if let Some(part) = &handlers.otherwise {
        return start(part.word);
    }
    match &handlers.ensure {
        Some(part) => start(part.word),
        None => place,
    }
}

/// Where they end.
fn handlers_end(span: Span, handlers: &Handlers<'_>) -> Span
    ensures { result ≡ act.handlers_end span (spec.shown_handlers handlers.now) }
{
    if let Some(part) = &handlers.ensure {
        return last_of(part.word, &part.body);
    }
    match &handlers.otherwise {
        Some(part) => last_of(part.word, &part.body),
        None => last_span(span, &handlers.clauses),
    }
}

fn body_from(body: &Body, handlers: &Handlers<'_>) -> Pos
    ensures { result ≡ act.body_from (shown_body body.now) (spec.shown_handlers handlers.now) }
{
    if body.absent {
        handlers_from(body.node.span.from, handlers)
    } else {
        body.node.span.from
    }
}

fn body_span(body: &Body, handlers: &Handlers<'_>) -> Span
    ensures { result ≡ act.body_span (shown_body body.now) (spec.shown_handlers handlers.now) }
{
    Span {
        from: body_from(body, handlers),
        to: handlers_end(body.node.span, handlers).to,
    }
}

fn part_if(
    alloc: Global,
    span: Span,
    part: Option<KeywordPart<'_>>,
) -> Result<Option<Boxed<Node>>, Fail>
    ensures { MakesAs (λ n. n) (act.part_if span (spec.shown_part_if part.entry)) result }
{
    match part {
        Some(part) => Ok(Some(Boxed::new(alloc, filled(span, part.body))?)),
        None => Ok(None),
    }
}

/// Statements with clauses behind them.
fn begin_node(alloc: Global, body: Body, handlers: Handlers<'_>) -> Result<Body, Fail>
    ensures { MakesAs shown_body (spec.begin_body (shown_body body) (spec.shown_handlers handlers.entry)) result }
{
    let span = body_span(&body, &handlers);
    let kind = Kind::Begin {
        body: Boxed::new(alloc, filled(span, body))?,
        clauses: handlers.clauses,
        else_part: part_if(alloc, span, handlers.otherwise)?,
        ensure_part: part_if(alloc, span, handlers.ensure)?,
    };
    Ok(Body {
        node: node(alloc, kind, span, span.from)?,
        absent: false,
    })
}

fn is_empty_part(kind: &Kind) -> bool
    ensures { result ≡ spec.is_empty_part kind.now }
{
    match kind {
        Kind::Seq(statements) => statements.is_empty(),
        _ => false,
    }
}

/// A part of a body; where the text doesn't have it, with the span of the form that holds it.
fn refilled(span: Span, part: Node) -> Node
    ensures { result ≡ act.refilled span part }
{
    if is_empty_part(part.kind.get()) {
        Node {
            kind: part.kind,
            span,
            mark: span.from,
        }
    } else {
        part
    }
}

fn refilled_part(alloc: Global, span: Span, part: Boxed<Node>) -> Result<Boxed<Node>, Fail>
    ensures { MakesAs (λ n. n) (act.refilled span part) result }
{
    Ok(Boxed::new(alloc, refilled(span, part.into_inner()))?)
}

fn refilled_if(
    alloc: Global,
    span: Span,
    part: Option<Boxed<Node>>,
) -> Result<Option<Boxed<Node>>, Fail>
    ensures { MakesAs (λ n. n) (option_map (act.refilled span) part) result }
{
    match part {
        Some(part) => Ok(Some(refilled_part(alloc, span, part)?)),
        None => Ok(None),
    }
}

/// A body between two tokens, from one to the other.
fn spread(alloc: Global, span: Span, body: Node) -> Result<Node, Fail>
    ensures { Makes (act.spread span body) result }
{
    let kind = match body.kind.into_inner() {
        Kind::Begin {
            body,
            clauses,
            else_part,
            ensure_part,
        } => Kind::Begin {
            body: refilled_part(alloc, span, body)?,
            clauses,
            else_part: refilled_if(alloc, span, else_part)?,
            ensure_part: refilled_if(alloc, span, ensure_part)?,
        },
        other => other,
    };
    Ok(node(alloc, kind, span, span.from)?)
}

/// `[arg ("," arg)*]`
#[tactic(auto, unfolding(ruby_meaning::specs::Grammar::Table::table))]
fn rescued<F: Fn(Global, &mut Cursor<'_>, Part, u32) -> Result<Reading, Fail> + Copy>(
    parser: &Parser<F>,
    cursor: &mut Cursor<'_>,
) -> Result<Nodes, Fail>
    requires below { Nests parser.now.depth (F.pre parser.now.names) (F.post parser.now.names) }
    ensures { Reads (λ n. n) (spec.rescued parser.now.in_rescue) parser.now.depth cursor.old result cursor.new }
{
    if !cursor.sees_one_of(&VALUES) {
        return Ok(Nodes::new(parser.alloc));
    }
    argument_list(parser, cursor)
}

/// `["=>" name]`
#[tactic(auto, unfolding(ruby_meaning::specs::Grammar::Table::table, ruby_meaning::specs::Grammar::Parameters::parameter_name))]
fn exception_name<'a, F: Fn(Global, &mut Cursor<'_>, Part, u32) -> Result<Reading, Fail> + Copy>(
    parser: &Parser<F>,
    cursor: &mut Cursor<'a>,
) -> Result<Option<Sight<'a>>, Fail>
    ensures { Reads see_if spec.exception_name parser.now.depth cursor.old result cursor.new }
{
    if !cursor.sees(Sign::Op(Mark::FatArrow)) {
        return Ok(None);
    }
    cursor.take(Sign::Op(Mark::FatArrow))?;
    Ok(Some(variable_name(cursor)?))
}

/// `"rescue" [arg ("," arg)*] ["=>" name] then stmts`
#[tactic(auto, unfolding(ruby_meaning::specs::Grammar::Table::table, ruby_meaning::specs::Grammar::Definitions::rescue_clause))]
fn rescue_here<F: Fn(Global, &mut Cursor<'_>, Part, u32) -> Result<Reading, Fail> + Copy>(
    parser: &Parser<F>,
    cursor: &mut Cursor<'_>,
) -> Result<Node, Fail>
    requires below { Nests parser.now.depth (F.pre parser.now.names) (F.post parser.now.names) }
    ensures { ReadsNode (g.rescue_clause parser.now.in_rescue) (suc parser.now.depth) cursor.old result cursor.new }
{
    let sign = cursor.take(Sign::Keyword(Word::Rescue))?;
    let classes = rescued(parser, cursor)?;
    let name = exception_name(parser, cursor)?;
    let parts = guarded_body(parser, cursor, true)?;
    rescue_node(parser.alloc, sign, classes, name, parts)
}

/// The same, one level below.
#[tactic(auto, using(ruby_reading::proofs::Named::nests_below, crate::proofs::DefinitionLevels::level_below, crate::proofs::DefinitionLevels::rescue_none))]
fn rescue_clause<F: Fn(Global, &mut Cursor<'_>, Part, u32) -> Result<Reading, Fail> + Copy>(
    parser: &Parser<F>,
    cursor: &mut Cursor<'_>,
) -> Result<Node, Fail>
    requires below { Nests parser.now.depth (F.pre parser.now.names) (F.post parser.now.names) }
    ensures { ReadsNode (g.rescue_clause parser.now.in_rescue) parser.now.depth cursor.old result cursor.new }
{
    if parser.depth == 0 {
        return Err(Fail::Refused);
    }
    rescue_here(&parser.below(), cursor)
}

/// Rescue clauses behind others.
fn more_rescues<F: Fn(Global, &mut Cursor<'_>, Part, u32) -> Result<Reading, Fail> + Copy>(
    parser: &Parser<F>,
    cursor: &mut Cursor<'_>,
    found: Nodes,
) -> Result<Nodes, Fail>
    requires below { Nests parser.now.depth (F.pre parser.now.names) (F.post parser.now.names) }
    ensures { Gives (λ n. n) (spec.rescues_from parser.now.in_rescue parser.now.depth (length (ahead cursor.old)) found (ahead cursor.old)) result (ahead cursor.new) }
{
    let mut found = found;
    for _turn in 0..cursor.left() {
        if !cursor.sees(Sign::Keyword(Word::Rescue)) {
            return Ok(found);
        }
        found.push(rescue_clause(parser, cursor)?)?;
    }
    Ok(found)
}

/// The rescue clauses behind one.
#[tactic(auto, using(crate::proofs::DefinitionLists::more_given))]
fn rescues_behind<F: Fn(Global, &mut Cursor<'_>, Part, u32) -> Result<Reading, Fail> + Copy>(
    parser: &Parser<F>,
    cursor: &mut Cursor<'_>,
    first: Node,
) -> Result<Nodes, Fail>
    requires below { Nests parser.now.depth (F.pre parser.now.names) (F.post parser.now.names) }
    ensures { spec.GivesMore first (spec.read_rescues parser.now.in_rescue parser.now.depth (ahead cursor.old)) result (ahead cursor.new) }
{
    let mut found = Nodes::new(parser.alloc);
    found.push(first)?;
    more_rescues(parser, cursor, found)
}

/// `"else" stmts`
#[tactic(auto, unfolding(ruby_meaning::specs::Grammar::Table::table, ruby_meaning::specs::Grammar::Definitions::body_else))]
fn body_else<'a, F: Fn(Global, &mut Cursor<'_>, Part, u32) -> Result<Reading, Fail> + Copy>(
    parser: &Parser<F>,
    cursor: &mut Cursor<'a>,
) -> Result<KeywordPart<'a>, Fail>
    requires below { Nests parser.now.depth (F.pre parser.now.names) (F.post parser.now.names) }
    ensures { Reads spec.shown_part (g.body_else parser.now.in_rescue) parser.now.depth cursor.old result cursor.new }
{
    let word = cursor.take(Sign::Keyword(Word::Else))?;
    let body = parser.statements(cursor, parser.in_rescue)?;
    Ok(KeywordPart { word, body })
}

/// `"ensure" stmts`
#[tactic(auto, unfolding(ruby_meaning::specs::Grammar::Table::table, ruby_meaning::specs::Grammar::Definitions::body_ensure))]
fn body_ensure<'a, F: Fn(Global, &mut Cursor<'_>, Part, u32) -> Result<Reading, Fail> + Copy>(
    parser: &Parser<F>,
    cursor: &mut Cursor<'a>,
) -> Result<KeywordPart<'a>, Fail>
    requires below { Nests parser.now.depth (F.pre parser.now.names) (F.post parser.now.names) }
    ensures { Reads spec.shown_part (g.body_ensure parser.now.in_rescue) parser.now.depth cursor.old result cursor.new }
{
    let word = cursor.take(Sign::Keyword(Word::Ensure))?;
    let body = parser.statements(cursor, parser.in_rescue)?;
    Ok(KeywordPart { word, body })
}

/// `["else" stmts]`
#[tactic(auto, unfolding(ruby_meaning::specs::Grammar::Table::table, ruby_meaning::specs::Grammar::Definitions::body_else))]
fn maybe_else<'a, F: Fn(Global, &mut Cursor<'_>, Part, u32) -> Result<Reading, Fail> + Copy>(
    parser: &Parser<F>,
    cursor: &mut Cursor<'a>,
) -> Result<Option<KeywordPart<'a>>, Fail>
    requires below { Nests parser.now.depth (F.pre parser.now.names) (F.post parser.now.names) }
    ensures { Reads spec.shown_part_if (spec.maybe_else parser.now.in_rescue) parser.now.depth cursor.old result cursor.new }
{
    if !cursor.sees(Sign::Keyword(Word::Else)) {
        return Ok(None);
    }
    Ok(Some(body_else(parser, cursor)?))
}

/// `["ensure" stmts]`
#[tactic(auto, unfolding(ruby_meaning::specs::Grammar::Table::table, ruby_meaning::specs::Grammar::Definitions::body_ensure))]
fn maybe_ensure<'a, F: Fn(Global, &mut Cursor<'_>, Part, u32) -> Result<Reading, Fail> + Copy>(
    parser: &Parser<F>,
    cursor: &mut Cursor<'a>,
) -> Result<Option<KeywordPart<'a>>, Fail>
    requires below { Nests parser.now.depth (F.pre parser.now.names) (F.post parser.now.names) }
    ensures { Reads spec.shown_part_if (spec.maybe_ensure parser.now.in_rescue) parser.now.depth cursor.old result cursor.new }
{
    if !cursor.sees(Sign::Keyword(Word::Ensure)) {
        return Ok(None);
    }
    Ok(Some(body_ensure(parser, cursor)?))
}

/// Rescue clauses, and the parts behind them.
#[tactic(auto, unfolding(ruby_meaning::specs::Grammar::Table::table, ruby_meaning::specs::Grammar::Definitions::rescue_clause, ruby_meaning::specs::Grammar::Definitions::body_else, ruby_meaning::specs::Grammar::Definitions::body_ensure))]
fn rescue_handlers<'a, F: Fn(Global, &mut Cursor<'_>, Part, u32) -> Result<Reading, Fail> + Copy>(
    parser: &Parser<F>,
    cursor: &mut Cursor<'a>,
) -> Result<Handlers<'a>, Fail>
    requires below { Nests parser.now.depth (F.pre parser.now.names) (F.post parser.now.names) }
    ensures { Reads spec.shown_handlers (spec.rescue_handlers parser.now.in_rescue) parser.now.depth cursor.old result cursor.new }
{
    let first = rescue_clause(parser, cursor)?;
    let clauses = rescues_behind(parser, cursor, first)?;
    let otherwise = maybe_else(parser, cursor)?;
    let ensure = maybe_ensure(parser, cursor)?;
    Ok(Handlers {
        clauses,
        otherwise,
        ensure,
    })
}

/// An `else` part, and an `ensure` part behind it.
#[tactic(auto, unfolding(ruby_meaning::specs::Grammar::Table::table, ruby_meaning::specs::Grammar::Definitions::body_else, ruby_meaning::specs::Grammar::Definitions::body_ensure))]
fn else_handlers<'a, F: Fn(Global, &mut Cursor<'_>, Part, u32) -> Result<Reading, Fail> + Copy>(
    parser: &Parser<F>,
    cursor: &mut Cursor<'a>,
) -> Result<Handlers<'a>, Fail>
    requires below { Nests parser.now.depth (F.pre parser.now.names) (F.post parser.now.names) }
    ensures { Reads spec.shown_handlers (spec.else_handlers parser.now.in_rescue) parser.now.depth cursor.old result cursor.new }
{
    let otherwise = body_else(parser, cursor)?;
    let ensure = maybe_ensure(parser, cursor)?;
    Ok(Handlers {
        clauses: Nodes::new(parser.alloc),
        otherwise: Some(otherwise),
        ensure,
    })
}

/// An `ensure` part alone.
#[tactic(auto, unfolding(ruby_meaning::specs::Grammar::Table::table, ruby_meaning::specs::Grammar::Definitions::body_ensure))]
fn ensure_handlers<'a, F: Fn(Global, &mut Cursor<'_>, Part, u32) -> Result<Reading, Fail> + Copy>(
    parser: &Parser<F>,
    cursor: &mut Cursor<'a>,
) -> Result<Handlers<'a>, Fail>
    requires below { Nests parser.now.depth (F.pre parser.now.names) (F.post parser.now.names) }
    ensures { Reads spec.shown_handlers (spec.ensure_handlers parser.now.in_rescue) parser.now.depth cursor.old result cursor.new }
{
    let ensure = body_ensure(parser, cursor)?;
    Ok(Handlers {
        clauses: Nodes::new(parser.alloc),
        otherwise: None,
        ensure: Some(ensure),
    })
}

/// What stands behind the first statements of a body.
#[tactic(auto, unfolding(ruby_meaning::specs::Grammar::Table::table, ruby_meaning::specs::Grammar::Definitions::handlers, ruby_meaning::specs::Grammar::Definitions::rescue_clause, ruby_meaning::specs::Grammar::Definitions::body_else, ruby_meaning::specs::Grammar::Definitions::body_ensure))]
fn read_handlers<'a, F: Fn(Global, &mut Cursor<'_>, Part, u32) -> Result<Reading, Fail> + Copy>(
    parser: &Parser<F>,
    cursor: &mut Cursor<'a>,
) -> Result<Handlers<'a>, Fail>
    requires below { Nests parser.now.depth (F.pre parser.now.names) (F.post parser.now.names) }
    ensures { Reads spec.shown_handlers (g.handlers parser.now.in_rescue) parser.now.depth cursor.old result cursor.new }
{
    if cursor.sees(Sign::Keyword(Word::Rescue)) {
        rescue_handlers(parser, cursor)
    } else if cursor.sees(Sign::Keyword(Word::Else)) {
        else_handlers(parser, cursor)
    } else {
        ensure_handlers(parser, cursor)
    }
}

/// Statements behind a token, and the clauses behind them.
#[tactic(auto, unfolding(ruby_meaning::specs::Grammar::Table::table, ruby_meaning::specs::Grammar::Definitions::body_behind, ruby_meaning::specs::Grammar::Definitions::handlers, ruby_meaning::specs::Grammar::Definitions::rescue_clause, ruby_meaning::specs::Grammar::Definitions::body_else, ruby_meaning::specs::Grammar::Definitions::body_ensure))]
pub fn body<F: Fn(Global, &mut Cursor<'_>, Part, u32) -> Result<Reading, Fail> + Copy>(
    parser: &Parser<F>,
    cursor: &mut Cursor<'_>,
    opening: Sight<'_>,
) -> Result<Body, Fail>
    requires below { Nests parser.now.depth (F.pre parser.now.names) (F.post parser.now.names) }
    ensures { Reads (spec.shown_behind (see opening.entry)) (g.body_behind parser.now.in_rescue (absent (see opening.entry))) (suc parser.now.depth) cursor.old result cursor.new }
{
    let body = parser.statements_here(cursor)?;
    if !cursor.sees_one_of(&HANDLER_SIGNS) || !fits(&body.node, parser.depth) {
        return Ok(body);
    }
    let handlers = read_handlers(parser, cursor)?;
    begin_node(parser.alloc, body, handlers)
}

/// `"begin" body "end"`
#[tactic(auto, unfolding(ruby_meaning::specs::Grammar::Table::table, ruby_meaning::specs::Grammar::Definitions::begin_value, ruby_meaning::specs::Grammar::Definitions::body_behind))]
pub fn begin_value<F: Fn(Global, &mut Cursor<'_>, Part, u32) -> Result<Reading, Fail> + Copy>(
    parser: &Parser<F>,
    cursor: &mut Cursor<'_>,
) -> Result<Value, Fail>
    requires below { Nests parser.now.depth (F.pre parser.now.names) (F.post parser.now.names) }
    ensures { ReadsValue (g.begin_value parser.now.in_rescue) (suc parser.now.depth) cursor.old result cursor.new }
{
    let sign = cursor.take(Sign::Keyword(Word::Begin))?;
    let body = body(parser, cursor, sign)?;
    let end = cursor.take(Sign::Keyword(Word::End))?;
    Ok(Value {
        node: spread(parser.alloc, tokens(sign, end), body.node)?,
        written: Written::Begun,
    })
}
