//! Statements.

ghost use Rattle.std.specs.Prelude.{◌≡◌, suc, length};
ghost use Rattle.grammar.specs.FormReaders.{next_in};
ghost use Rattle.ruby_meaning.specs.Grammar.Actions as act;
ghost use Rattle.ruby_meaning.specs.Grammar.Statements as s;
ghost use Rattle.descent.specs.Gives.{Gives};
ghost use Rattle.ruby_reading.specs.Ahead.{ahead, see, Makes, MakesAs};
ghost use Rattle.ruby_forms.specs.Definitions.{shown_method};
ghost use Rattle.ruby_reading.specs.Named.{GivesValue, Nests, NestsBelow, Reads, ReadsBody, ReadsValue};
ghost use Rattle.ruby_reading.specs.Shown.{shown_body, shown_value};
ghost use Rattle.ruby_parser.specs.StatementValues as spec;

use descent::Fail;
use opal_base::{Names, Span};
use ruby_expressions::{
    expression, is_place, more_targets, multi_set, star_target_below, target_node,
};
use ruby_forms::{MethodName, full_name, read_method_name};
use ruby_meaning::{Kind, Mark, Node, Nodes, Part, Sign, Word};
use ruby_parameters::{first_span, last_span};
use ruby_reading::{
    Body, Cursor, Parser, Reading, SEPARATORS, Sight, Tree, Value, Written, begins_statement, fits,
    from_token, node, nodes, nothing, span_of, start, to_end, tokens,
};
use sqlite_items::{Boxed, Items};
use std::alloc::Global;

/// Which keyword stands behind a statement.
#[derive(Clone, Copy, Debug, PartialEq, Eq)]
pub enum Behind {
    If,
    Unless,
    While,
    Until,
}

/// A keyword and a condition behind a statement.
#[derive(Drop)]
pub struct Modifier<'a> {
    pub sign: Sight<'a>,
    pub cond: Node,
    pub behind: Behind,
}

fn name_span(method: MethodName<'_>) -> Span
    ensures { result ≡ act.name_span (shown_method method.entry) }
{
    match method.sign {
        Some(sign) => tokens(method.name, sign),
        None => span_of(method.name),
    }
}

/// The names of methods.
fn full_names(alloc: Global, methods: &Items<MethodName<'_>>) -> Result<Names, Fail>
    ensures { Makes (act.full_names (spec.shown_methods methods.now)) result }
{
    let mut all = Names::new(alloc);
    for method in methods.as_slice() {
        all.push(full_name(alloc, *method)?)?;
    }
    Ok(all)
}

/// The span of the last name, or the one that is given.
fn names_span(span: Span, methods: &Items<MethodName<'_>>) -> Span
    ensures { result ≡ act.names_span span (spec.shown_methods methods.now) }
{
    let mut last = span;
    for method in methods.as_slice() {
        last = name_span(*method);
    }
    last
}

fn alias_value(
    alloc: Global,
    sign: Sight<'_>,
    name: MethodName<'_>,
    old: MethodName<'_>,
) -> Result<Value, Fail>
    ensures { MakesAs shown_value (spec.alias_value (see sign.entry) (shown_method name.entry) (shown_method old.entry)) result }
{
    let span = to_end(span_of(sign), name_span(old));
    let kind = Kind::Alias {
        new: full_name(alloc, name)?,
        old: full_name(alloc, old)?,
    };
    Ok(Value {
        node: node(alloc, kind, span, start(name.name))?,
        written: Written::Other,
    })
}

fn undef_value(
    alloc: Global,
    sign: Sight<'_>,
    methods: Items<MethodName<'_>>,
) -> Result<Value, Fail>
    ensures { MakesAs shown_value (spec.undef_value (see sign.entry) (spec.shown_methods methods.entry)) result }
{
    let first = span_of(sign);
    let span = to_end(first, names_span(first, &methods));
    let kind = Kind::Undef(full_names(alloc, &methods)?);
    Ok(Value {
        node: node(alloc, kind, span, start(sign))?,
        written: Written::Other,
    })
}

/// No statement.
fn empty_at(alloc: Global, span: Span) -> Result<Node, Fail>
    ensures { Makes (act.empty_at span) result }
{
    Ok(node(alloc, Kind::Seq(Nodes::new(alloc)), span, span.from)?)
}

fn if_kind(alloc: Global, cond: Node, first: Node, second: Node) -> Result<Kind, Fail>
    ensures { Makes (spec.if_kind cond first second) result }
{
    Ok(Kind::If {
        cond: Boxed::new(alloc, cond)?,
        yes: Boxed::new(alloc, first)?,
        no: Boxed::new(alloc, second)?,
    })
}

fn while_kind(alloc: Global, cond: Node, body: Node, body_first: bool) -> Result<Kind, Fail>
    ensures { Makes (spec.while_kind cond body body_first) result }
{
    Ok(Kind::While {
        cond: Boxed::new(alloc, cond)?,
        body: Boxed::new(alloc, body)?,
        body_first,
    })
}

/// A statement that is done while a condition holds.
fn looped(alloc: Global, cond: Node, statement: Value) -> Result<Kind, Fail>
    ensures { Makes (spec.looped cond (shown_value statement)) result }
{
    let body_first = statement.written.is(Written::Begun);
    while_kind(alloc, cond, statement.node, body_first)
}

fn with_span(node: Node, span: Span) -> Node
    ensures { result ≡ act.replaced span node.mark node }
{
    Node {
        kind: node.kind,
        span,
        mark: node.mark,
    }
}

fn modified_kind(
    alloc: Global,
    behind: Behind,
    statement: Value,
    cond: Node,
    span: Span,
) -> Result<Kind, Fail>
    ensures { Makes (act.modified_kind (spec.behind_code behind) (shown_value statement) cond span) result }
{
    match behind {
        Behind::If => if_kind(alloc, cond, statement.node, empty_at(alloc, span)?),
        Behind::Unless => if_kind(alloc, cond, empty_at(alloc, span)?, statement.node),
        Behind::While => looped(alloc, cond, statement),
        Behind::Until => looped(alloc, with_span(cond, span), statement),
    }
}

/// A statement with a keyword and a condition behind it.
fn modified(alloc: Global, statement: Value, modifier: Modifier<'_>) -> Result<Value, Fail>
    ensures { MakesAs shown_value (act.modified (shown_value statement) (spec.shown_modifier modifier.entry)) result }
{
    let span = nodes(&statement.node, &modifier.cond);
    let kind = modified_kind(alloc, modifier.behind, statement, modifier.cond, span)?;
    Ok(Value {
        node: node(alloc, kind, span, start(modifier.sign))?,
        written: Written::Other,
    })
}

/// The condition of an `until`, which gets the span of the whole.
fn until_condition(alloc: Global, sign: Sight<'_>, cond: Node) -> Result<Node, Fail>
    ensures { Makes ((act.until_condition (see sign.entry, cond)).1) result }
{
    let span = from_token(sign, &cond);
    let kind = Kind::Not(Boxed::new(alloc, cond)?);
    Ok(node(alloc, kind, span, start(sign))?)
}

/// Whether a keyword stands here that goes behind a statement.
#[tactic(auto, using(crate::proofs::StatementLists::modifier_seen))]
fn sees_modifier(cursor: &Cursor<'_>) -> bool
    ensures { result ≡ next_in spec.begins_modifier (ahead cursor.now) }
{
    cursor.sees(Sign::Keyword(Word::If))
        || (cursor.sees(Sign::Keyword(Word::Unless))
            || (cursor.sees(Sign::Keyword(Word::While)) || cursor.sees(Sign::Keyword(Word::Until))))
}

/// One node for statements.
fn sequence_of(alloc: Global, found: Nodes) -> Result<Body, Fail>
    ensures { MakesAs shown_body (act.sequence_of found) result }
{
    match first_span(&found) {
        None => nothing(alloc),
        Some(first) => {
            let span = to_end(first, last_span(first, &found));
            Ok(Body {
                node: node(alloc, Kind::Seq(found), span, first.from)?,
                absent: false,
            })
        }
    }
}

/// The statement of a line behind others, if it has one.
fn with_line(found: Nodes, line: Option<Node>) -> Result<Nodes, Fail>
    ensures { Makes (spec.with_line found line) result }
{
    let mut found = found;
    if let Some(statement) = line {
        found.push(statement)?;
    }
    Ok(found)
}

/// `"alias" mname mname`
#[tactic(auto, unfolding(ruby_meaning::specs::Grammar::Table::table, ruby_meaning::specs::Grammar::Statements::alias_statement))]
fn alias_statement<F: Fn(Global, &mut Cursor<'_>, Part, u32) -> Result<Reading, Fail> + Copy>(
    parser: &Parser<F>,
    cursor: &mut Cursor<'_>,
) -> Result<Value, Fail>
    ensures { ReadsValue (s.alias_statement parser.now.in_rescue) (suc parser.now.depth) cursor.old result cursor.new }
{
    let sign = cursor.take(Sign::Keyword(Word::Alias))?;
    let name = read_method_name(parser, cursor)?;
    let old = read_method_name(parser, cursor)?;
    alias_value(parser.alloc, sign, name, old)
}

/// A name of a method behind a comma.
#[tactic(auto, unfolding(ruby_meaning::specs::Grammar::Table::table))]
fn next_method<'a, F: Fn(Global, &mut Cursor<'_>, Part, u32) -> Result<Reading, Fail> + Copy>(
    parser: &Parser<F>,
    cursor: &mut Cursor<'a>,
) -> Result<MethodName<'a>, Fail>
    ensures { Reads shown_method spec.next_method parser.now.depth cursor.old result cursor.new }
{
    cursor.take(Sign::Op(Mark::Comma))?;
    read_method_name(parser, cursor)
}

/// Names of methods that each stand behind a comma, behind those found.
fn more_methods<'a, F: Fn(Global, &mut Cursor<'_>, Part, u32) -> Result<Reading, Fail> + Copy>(
    parser: &Parser<F>,
    cursor: &mut Cursor<'a>,
    found: Items<MethodName<'a>>,
) -> Result<Items<MethodName<'a>>, Fail>
    ensures { Gives spec.shown_methods (spec.methods_from parser.now.depth (length (ahead cursor.old)) (spec.shown_methods found.entry) (ahead cursor.old)) result (ahead cursor.new) }
{
    let mut found = found;
    for _turn in 0..cursor.left() {
        if !cursor.sees(Sign::Op(Mark::Comma)) {
            return Ok(found);
        }
        found.push(next_method(parser, cursor)?)?;
    }
    Ok(found)
}

/// `mname ("," mname)*`
#[tactic(auto, using(grammar::proofs::Loops::read_many_from_is), unfolding(ruby_meaning::specs::Grammar::Table::table))]
fn methods<'a, F: Fn(Global, &mut Cursor<'_>, Part, u32) -> Result<Reading, Fail> + Copy>(
    parser: &Parser<F>,
    cursor: &mut Cursor<'a>,
) -> Result<Items<MethodName<'a>>, Fail>
    ensures { Reads spec.shown_methods spec.methods parser.now.depth cursor.old result cursor.new }
{
    let mut found = Items::new(parser.alloc);
    found.push(read_method_name(parser, cursor)?)?;
    more_methods(parser, cursor, found)
}

/// `"undef" mname ("," mname)*`
#[tactic(auto, unfolding(ruby_meaning::specs::Grammar::Table::table, ruby_meaning::specs::Grammar::Statements::undef_statement))]
fn undef_statement<F: Fn(Global, &mut Cursor<'_>, Part, u32) -> Result<Reading, Fail> + Copy>(
    parser: &Parser<F>,
    cursor: &mut Cursor<'_>,
) -> Result<Value, Fail>
    ensures { ReadsValue (s.undef_statement parser.now.in_rescue) (suc parser.now.depth) cursor.old result cursor.new }
{
    let sign = cursor.take(Sign::Keyword(Word::Undef))?;
    let methods = methods(parser, cursor)?;
    undef_value(parser.alloc, sign, methods)
}

/// `"*" target ("," target)+ "=" rhs`
#[tactic(auto, unfolding(ruby_meaning::specs::Grammar::Table::table, ruby_meaning::specs::Grammar::Statements::starred_set))]
fn starred_set<F: Fn(Global, &mut Cursor<'_>, Part, u32) -> Result<Reading, Fail> + Copy>(
    parser: &Parser<F>,
    cursor: &mut Cursor<'_>,
) -> Result<Value, Fail>
    requires below { Nests parser.now.depth (F.pre parser.now.names) (F.post parser.now.names) }
    ensures { ReadsValue (s.starred_set parser.now.in_rescue) (suc parser.now.depth) cursor.old result cursor.new }
{
    let first = star_target_below(parser, cursor)?;
    let span = first.span;
    let targets = more_targets(parser, cursor, first, false)?;
    Ok(Value {
        node: multi_set(parser.alloc, span, targets)?,
        written: Written::Other,
    })
}

/// `target ("," target)+ "=" rhs`, or an expression
#[tactic(auto, unfolding(ruby_meaning::specs::Grammar::Table::table, ruby_meaning::specs::Grammar::Statements::several_set))]
fn several_set<F: Fn(Global, &mut Cursor<'_>, Part, u32) -> Result<Reading, Fail> + Copy>(
    parser: &Parser<F>,
    cursor: &mut Cursor<'_>,
) -> Result<Value, Fail>
    requires below { Nests parser.now.depth (F.pre parser.now.names) (F.post parser.now.names) }
    ensures { ReadsValue (s.several_set parser.now.in_rescue) (suc parser.now.depth) cursor.old result cursor.new }
{
    let left = expression(&parser.with_do(true), cursor)?;
    if !cursor.sees(Sign::Op(Mark::Comma)) || !is_place(&left) || !fits(&left.node, parser.depth) {
        return Ok(left);
    }
    let first = target_node(parser.alloc, left)?;
    let span = first.span;
    let targets = more_targets(parser, cursor, first, true)?;
    Ok(Value {
        node: multi_set(parser.alloc, span, targets)?,
        written: Written::Other,
    })
}

/// A statement with no keyword behind it.
#[tactic(auto, unfolding(ruby_meaning::specs::Grammar::Table::table, ruby_meaning::specs::Grammar::Statements::simple, ruby_meaning::specs::Grammar::Statements::alias_statement, ruby_meaning::specs::Grammar::Statements::undef_statement, ruby_meaning::specs::Grammar::Statements::starred_set, ruby_meaning::specs::Grammar::Statements::star_target))]
fn simple<F: Fn(Global, &mut Cursor<'_>, Part, u32) -> Result<Reading, Fail> + Copy>(
    parser: &Parser<F>,
    cursor: &mut Cursor<'_>,
) -> Result<Value, Fail>
    requires below { Nests parser.now.depth (F.pre parser.now.names) (F.post parser.now.names) }
    ensures { ReadsValue (s.simple parser.now.in_rescue) (suc parser.now.depth) cursor.old result cursor.new }
{
    if cursor.sees(Sign::Keyword(Word::Alias)) {
        alias_statement(parser, cursor)
    } else if cursor.sees(Sign::Keyword(Word::Undef)) {
        undef_statement(parser, cursor)
    } else if cursor.sees(Sign::Op(Mark::Star)) {
        starred_set(parser, cursor)
    } else {
        several_set(parser, cursor)
    }
}

/// `"until" expr`
#[tactic(auto, using(ruby_reading::proofs::Named::nests_below, ruby_parameters::proofs::Levels::node_some, crate::proofs::OneLevel::needs_one, crate::proofs::OneLevel::needs_not_one), unfolding(ruby_meaning::specs::Grammar::Table::table))]
fn until_modifier<'a, F: Fn(Global, &mut Cursor<'_>, Part, u32) -> Result<Reading, Fail> + Copy>(
    parser: &Parser<F>,
    cursor: &mut Cursor<'a>,
) -> Result<Modifier<'a>, Fail>
    requires below { Nests parser.now.depth (F.pre parser.now.names) (F.post parser.now.names) }
    ensures { Reads spec.shown_modifier (spec.until_modifier parser.now.in_rescue) parser.now.depth cursor.old result cursor.new }
{
    if parser.depth == 0 {
        return Err(Fail::Refused);
    }
    let sign = cursor.take(Sign::Keyword(Word::Until))?;
    let cond = parser.below().tree(cursor, Tree::Expression, false)?;
    Ok(Modifier {
        sign,
        cond: until_condition(parser.alloc, sign, cond)?,
        behind: Behind::Until,
    })
}

/// `("if"|"unless"|"while") expr`
#[tactic(auto, unfolding(ruby_meaning::specs::Grammar::Table::table))]
fn condition<'a, F: Fn(Global, &mut Cursor<'_>, Part, u32) -> Result<Reading, Fail> + Copy>(
    parser: &Parser<F>,
    cursor: &mut Cursor<'a>,
    word: Word,
    takes_do: bool,
    behind: Behind,
) -> Result<Modifier<'a>, Fail>
    requires below { Nests parser.now.depth (F.pre parser.now.names) (F.post parser.now.names) }
    ensures { Reads spec.shown_modifier (spec.condition word takes_do (spec.behind_code behind) parser.now.in_rescue) parser.now.depth cursor.old result cursor.new }
{
    let sign = cursor.take(Sign::Keyword(word))?;
    let cond = parser.tree(cursor, Tree::Expression, takes_do)?;
    Ok(Modifier { sign, cond, behind })
}

/// `("if"|"unless"|"while"|"until") expr`
#[tactic(auto, unfolding(ruby_meaning::specs::Grammar::Table::table, ruby_meaning::specs::Grammar::Statements::modifier))]
fn read_modifier<'a, F: Fn(Global, &mut Cursor<'_>, Part, u32) -> Result<Reading, Fail> + Copy>(
    parser: &Parser<F>,
    cursor: &mut Cursor<'a>,
) -> Result<Modifier<'a>, Fail>
    requires below { Nests parser.now.depth (F.pre parser.now.names) (F.post parser.now.names) }
    ensures { Reads spec.shown_modifier (s.modifier parser.now.in_rescue) parser.now.depth cursor.old result cursor.new }
{
    if cursor.sees(Sign::Keyword(Word::If)) {
        condition(parser, cursor, Word::If, true, Behind::If)
    } else if cursor.sees(Sign::Keyword(Word::Unless)) {
        condition(parser, cursor, Word::Unless, true, Behind::Unless)
    } else if cursor.sees(Sign::Keyword(Word::While)) {
        condition(parser, cursor, Word::While, false, Behind::While)
    } else {
        until_modifier(parser, cursor)
    }
}

/// Keywords and conditions behind a statement.
fn modifiers<F: Fn(Global, &mut Cursor<'_>, Part, u32) -> Result<Reading, Fail> + Copy>(
    parser: &Parser<F>,
    cursor: &mut Cursor<'_>,
    first: Value,
) -> Result<Value, Fail>
    requires below { Nests parser.now.depth (F.pre parser.now.names) (F.post parser.now.names) }
    ensures { GivesValue (spec.modifiers_from parser.now.in_rescue parser.now.depth (length (ahead cursor.old)) (shown_value first) (ahead cursor.old)) result (ahead cursor.new) }
{
    let mut value = first;
    for _turn in 0..cursor.left() {
        if !sees_modifier(cursor) || !fits(&value.node, parser.depth) {
            return Ok(value);
        }
        let modifier = read_modifier(parser, cursor)?;
        value = modified(parser.alloc, value, modifier)?;
    }
    Ok(value)
}

/// A statement.
#[tactic(auto, unfolding(ruby_meaning::specs::Grammar::Table::table, ruby_meaning::specs::Grammar::Statements::statement))]
pub fn statement<F: Fn(Global, &mut Cursor<'_>, Part, u32) -> Result<Reading, Fail> + Copy>(
    parser: &Parser<F>,
    cursor: &mut Cursor<'_>,
) -> Result<Value, Fail>
    requires below { Nests parser.now.depth (F.pre parser.now.names) (F.post parser.now.names) }
    ensures { ReadsValue (s.statement parser.now.in_rescue) (suc parser.now.depth) cursor.old result cursor.new }
{
    let first = simple(parser, cursor)?;
    modifiers(parser, cursor, first)
}

/// A statement or none.
#[tactic(auto, unfolding(ruby_meaning::specs::Grammar::Table::table, ruby_meaning::specs::Grammar::Statements::line))]
fn line<F: Fn(Global, &mut Cursor<'_>, Part, u32) -> Result<Reading, Fail> + Copy>(
    parser: &Parser<F>,
    cursor: &mut Cursor<'_>,
) -> Result<Option<Node>, Fail>
    requires below { NestsBelow parser.now.depth (F.pre parser.now.names) (F.post parser.now.names) }
    ensures { Reads (λ n. n) (s.line parser.now.in_rescue) parser.now.depth cursor.old result cursor.new }
{
    if !begins_statement(cursor) {
        return Ok(None);
    }
    Ok(Some(parser.next_statement(cursor)?))
}

/// The same behind a separator.
#[tactic(auto, unfolding(ruby_meaning::specs::Grammar::Table::table))]
fn next_line<F: Fn(Global, &mut Cursor<'_>, Part, u32) -> Result<Reading, Fail> + Copy>(
    parser: &Parser<F>,
    cursor: &mut Cursor<'_>,
) -> Result<Option<Node>, Fail>
    requires below { NestsBelow parser.now.depth (F.pre parser.now.names) (F.post parser.now.names) }
    ensures { Reads (λ n. n) (spec.next_line parser.now.in_rescue) parser.now.depth cursor.old result cursor.new }
{
    cursor.take_one_of(&SEPARATORS)?;
    line(parser, cursor)
}

/// The statements of lines, behind those found.
fn more_lines<F: Fn(Global, &mut Cursor<'_>, Part, u32) -> Result<Reading, Fail> + Copy>(
    parser: &Parser<F>,
    cursor: &mut Cursor<'_>,
    found: Nodes,
) -> Result<Nodes, Fail>
    requires below { NestsBelow parser.now.depth (F.pre parser.now.names) (F.post parser.now.names) }
    ensures { Gives (λ xs. xs) (spec.lines_from parser.now.in_rescue parser.now.depth (length (ahead cursor.old)) found (ahead cursor.old)) result (ahead cursor.new) }
{
    let mut found = found;
    for _turn in 0..cursor.left() {
        if !cursor.sees_one_of(&SEPARATORS) {
            return Ok(found);
        }
        let line = next_line(parser, cursor)?;
        found = with_line(found, line)?;
    }
    Ok(found)
}

/// Statements or none, with separators between them.
#[tactic(auto, using(crate::proofs::StatementLists::lines_from_is, crate::proofs::StatementLists::first_line), unfolding(ruby_meaning::specs::Grammar::Table::table, ruby_meaning::specs::Grammar::Statements::statement_list))]
pub fn statement_list<F: Fn(Global, &mut Cursor<'_>, Part, u32) -> Result<Reading, Fail> + Copy>(
    parser: &Parser<F>,
    cursor: &mut Cursor<'_>,
) -> Result<Body, Fail>
    requires below { NestsBelow parser.now.depth (F.pre parser.now.names) (F.post parser.now.names) }
    ensures { ReadsBody (s.statement_list parser.now.in_rescue) (suc parser.now.depth) cursor.old result cursor.new }
{
    let line = line(parser, cursor)?;
    let found = with_line(Items::new(parser.alloc), line)?;
    let found = more_lines(parser, cursor, found)?;
    sequence_of(parser.alloc, found)
}
