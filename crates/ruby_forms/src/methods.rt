//! Names of methods, and `def`.

ghost use Rattle.std.specs.Prelude.{codes, None, ◌≡◌, suc, true, false};
ghost use Rattle.ruby_meaning.specs.Grammar.Actions as act;
ghost use Rattle.ruby_meaning.specs.Grammar.Definitions as g;
ghost use Rattle.ruby_meaning.specs.Grammar.Table.{table};
ghost use Rattle.grammar.specs.Readers.{read_named, read_rule};
ghost use Rattle.grammar.specs.FormReaders.{next_in};
ghost use Rattle.grammar.specs.Rules.{absent};
ghost use Rattle.ruby_reading.specs.Ahead.{ahead, see, Makes, MakesAs};
ghost use Rattle.ruby_parameters.specs.Parameters.{see_if};
ghost use Rattle.ruby_forms.specs.Definitions as spec;
ghost use Rattle.ruby_reading.specs.Named.{Nests, Reads, ReadsValue};
ghost use Rattle.ruby_reading.specs.Shown.{shown_value};

use crate::bodies::body;
use descent::Fail;
use opal_base::Units;
use ruby_meaning::{Base, Kind, Mark, Node, Params, Part, Sign, TokenKind, Word};
use ruby_parameters::{skip, some_parameters};
use ruby_reading::{
    Body, Cursor, NAMES, NEWLINES, OPERATORS, Parser, Reading, SEPARATORS, Sight, Value, Written,
    boxed_if, filled, method_name, node, span_of, start, tokens, units,
};
use sqlite_items::Boxed;
use std::alloc::Global;

const BRACKET_SIGNS: [Sign; 2] = [Sign::CallOpen, Sign::Op(Mark::ParenOpen)];

const SELF: [u16; 4] = [115, 101, 108, 102];

/// A method's name, and a `=` that follows it directly.
#[derive(Clone, Copy)]
pub struct MethodName<'a> {
    pub name: Sight<'a>,
    pub sign: Option<Sight<'a>>,
}

/// The name of a method that is defined, behind a receiver or none.
#[derive(Drop)]
pub struct DefName<'a> {
    pub receiver: Option<Node>,
    pub method: MethodName<'a>,
}

/// Parameters, a body behind a token, and the `end`.
#[derive(Drop)]
pub struct DefRest<'a> {
    pub params: Params,
    pub opening: Sight<'a>,
    pub body: Body,
    pub end: Sight<'a>,
}

pub fn full_name(alloc: Global, method: MethodName<'_>) -> Result<Units, Fail>
    ensures { Makes (act.full_name (spec.shown_method method.entry)) result }
{
    let mut name = method_name(alloc, method.name)?;
    if method.sign.is_some() {
        name.push(61)?;
    }
    Ok(name)
}

fn is_self(name: &Units) -> bool
    ensures { result ≡ act.is_name (codes "self") name.now }
{
    name.as_slice() == &SELF[..]
}

fn is_constant(sight: Sight<'_>) -> bool
    ensures { result ≡ act.is_constant (see sight.entry).token.kind }
{
    matches!(&sight.token.kind, TokenKind::Const(_))
}

/// Whether a token is `self` or a constant.
fn names_receiver(alloc: Global, sight: Sight<'_>) -> Result<bool, Fail>
    ensures { Makes (act.names_receiver (see sight.entry)) result }
{
    if is_constant(sight) {
        return Ok(true);
    }
    Ok(is_self(&units(alloc, sight)?))
}

fn is_receiver(alloc: Global, method: MethodName<'_>) -> Result<bool, Fail>
    ensures { Makes (act.is_receiver (None, spec.shown_method method.entry)) result }
{
    if method.sign.is_some() {
        return Ok(false);
    }
    names_receiver(alloc, method.name)
}

fn receiver_node(alloc: Global, sight: Sight<'_>) -> Result<Node, Fail>
    ensures { Makes (act.receiver_node (see sight.entry)) result }
{
    let kind = if is_constant(sight) {
        Kind::ConstGet {
            base: Base::Here,
            name: units(alloc, sight)?,
        }
    } else {
        Kind::SelfRef
    };
    Ok(node(alloc, kind, span_of(sight), start(sight))?)
}

fn def_node(
    alloc: Global,
    sign: Sight<'_>,
    name: DefName<'_>,
    parts: DefRest<'_>,
) -> Result<Value, Fail>
    ensures { MakesAs shown_value (spec.def_value (see sign.entry) (spec.shown_def_name name.entry) parts.entry.params (spec.shown_def_end parts.entry)) result }
{
    let span = tokens(sign, parts.end);
    let mark = start(name.method.name);
    let kind = Kind::Def {
        on: boxed_if(alloc, name.receiver)?,
        name: full_name(alloc, name.method)?,
        params: parts.params,
        body: Boxed::new(alloc, filled(span, parts.body))?,
    };
    Ok(Value {
        node: node(alloc, kind, span, mark)?,
        written: Written::Other,
    })
}

fn is_attached(sight: Sight<'_>) -> bool
    ensures { result ≡ act.is_attached (see sight.entry) }
{
    !sight.token.blank_before
}

fn sees_attached(cursor: &Cursor<'_>) -> bool
    ensures { result ≡ next_in act.is_attached (ahead cursor.now) }
{
    match cursor.rest.first() {
        Some(next) => is_attached(*next),
        None => false,
    }
}

/// A `=` directly behind a name.
#[tactic(auto, using(ruby_parameters::proofs::Skipped::such_taken, ruby_parameters::proofs::Skipped::such_refused), unfolding(ruby_meaning::specs::Grammar::Table::table))]
fn attached_sign<'a, F: Fn(Global, &mut Cursor<'_>, Part, u32) -> Result<Reading, Fail> + Copy>(
    parser: &Parser<F>,
    cursor: &mut Cursor<'a>,
) -> Result<Option<Sight<'a>>, Fail>
    ensures { Reads see_if spec.attached_sign parser.now.depth cursor.old result cursor.new }
{
    if !cursor.sees(Sign::Op(Mark::Assign)) {
        return Ok(None);
    }
    if !sees_attached(cursor) {
        return Err(Fail::Refused);
    }
    Ok(Some(cursor.take(Sign::Op(Mark::Assign))?))
}

/// A name, which a `=` may follow directly, or an operator.
#[tactic(auto, unfolding(ruby_meaning::specs::Grammar::Table::table, ruby_meaning::specs::Grammar::Definitions::method_name))]
pub fn read_method_name<
    'a,
    F: Fn(Global, &mut Cursor<'_>, Part, u32) -> Result<Reading, Fail> + Copy,
>(parser: &Parser<F>, cursor: &mut Cursor<'a>) -> Result<MethodName<'a>, Fail>
    ensures { Reads spec.shown_method g.method_name parser.now.depth cursor.old result cursor.new }
{
    if cursor.sees_one_of(&NAMES) {
        let name = cursor.take_one_of(&NAMES)?;
        let sign = attached_sign(parser, cursor)?;
        return Ok(MethodName { name, sign });
    }
    let name = cursor.take_one_of(&OPERATORS)?;
    Ok(MethodName { name, sign: None })
}

/// `"." mname`
#[tactic(auto, unfolding(ruby_meaning::specs::Grammar::Table::table, ruby_meaning::specs::Grammar::Definitions::method_name))]
fn selected<'a, F: Fn(Global, &mut Cursor<'_>, Part, u32) -> Result<Reading, Fail> + Copy>(
    parser: &Parser<F>,
    cursor: &mut Cursor<'a>,
) -> Result<MethodName<'a>, Fail>
    ensures { Reads spec.shown_method spec.selected parser.now.depth cursor.old result cursor.new }
{
    cursor.take(Sign::Op(Mark::Dot))?;
    read_method_name(parser, cursor)
}

/// `[("self"|CONST) "."] mname`
#[tactic(auto, using(ruby_parameters::proofs::Levels::two_levels, ruby_parameters::proofs::Levels::one_level), unfolding(ruby_meaning::specs::Grammar::Table::table, ruby_meaning::specs::Grammar::Definitions::def_name, ruby_meaning::specs::Grammar::Definitions::method_name))]
fn def_name<'a, F: Fn(Global, &mut Cursor<'_>, Part, u32) -> Result<Reading, Fail> + Copy>(
    parser: &Parser<F>,
    cursor: &mut Cursor<'a>,
) -> Result<DefName<'a>, Fail>
    ensures { Reads spec.shown_def_name g.def_name parser.now.depth cursor.old result cursor.new }
{
    let method = read_method_name(parser, cursor)?;
    if parser.depth == 0 || !cursor.sees(Sign::Op(Mark::Dot)) {
        return Ok(DefName {
            receiver: None,
            method,
        });
    }
    if !is_receiver(parser.alloc, method)? {
        return Ok(DefName {
            receiver: None,
            method,
        });
    }
    let selected = selected(&parser.below(), cursor)?;
    Ok(DefName {
        receiver: Some(receiver_node(parser.alloc, method.name)?),
        method: selected,
    })
}

/// The body of a method.
#[tactic(auto, using(ruby_reading::proofs::Named::nests_below, crate::proofs::DefinitionLevels::level_below, ruby_parameters::proofs::Levels::one_level), unfolding(ruby_meaning::specs::Grammar::Table::table, ruby_meaning::specs::Grammar::Definitions::body_behind))]
fn def_body<F: Fn(Global, &mut Cursor<'_>, Part, u32) -> Result<Reading, Fail> + Copy>(
    parser: &Parser<F>,
    cursor: &mut Cursor<'_>,
    opening: Sight<'_>,
) -> Result<Body, Fail>
    requires below { Nests parser.now.depth (F.pre parser.now.names) (F.post parser.now.names) }
    ensures { Reads (spec.shown_behind (see opening.entry)) (g.body_behind false (absent (see opening.entry))) parser.now.depth cursor.old result cursor.new }
{
    if parser.depth == 0 {
        return parser.statements(cursor, false);
    }
    body(&parser.below().outside_rescue(), cursor, opening)
}

/// `"(" [params] ")" body "end"`
#[tactic(auto, unfolding(ruby_meaning::specs::Grammar::Table::table, ruby_meaning::specs::Grammar::Definitions::def_in_brackets, ruby_meaning::specs::Grammar::Definitions::body_behind, ruby_meaning::specs::Grammar::Parameters::behind_newlines, ruby_meaning::specs::Grammar::Parameters::newlines))]
fn def_in_brackets<'a, F: Fn(Global, &mut Cursor<'_>, Part, u32) -> Result<Reading, Fail> + Copy>(
    parser: &Parser<F>,
    cursor: &mut Cursor<'a>,
) -> Result<DefRest<'a>, Fail>
    requires below { Nests parser.now.depth (F.pre parser.now.names) (F.post parser.now.names) }
    ensures { spec.GivesDefRest (read_rule table (read_named table) g.def_in_brackets parser.now.depth (ahead cursor.old)) result (ahead cursor.new) }
{
    cursor.take_one_of(&BRACKET_SIGNS)?;
    let params = some_parameters(&parser.outside_rescue(), cursor, false)?;
    skip(cursor, &NEWLINES);
    let opening = cursor.take(Sign::Op(Mark::ParenClose))?;
    let body = def_body(parser, cursor, opening)?;
    let end = cursor.take(Sign::Keyword(Word::End))?;
    Ok(DefRest {
        params,
        opening,
        body,
        end,
    })
}

/// `[params] sep body "end"`
#[tactic(auto, unfolding(ruby_meaning::specs::Grammar::Table::table, ruby_meaning::specs::Grammar::Definitions::def_plain, ruby_meaning::specs::Grammar::Definitions::body_behind, ruby_meaning::specs::Grammar::Parameters::behind_newlines, ruby_meaning::specs::Grammar::Parameters::newlines))]
fn def_plain<'a, F: Fn(Global, &mut Cursor<'_>, Part, u32) -> Result<Reading, Fail> + Copy>(
    parser: &Parser<F>,
    cursor: &mut Cursor<'a>,
) -> Result<DefRest<'a>, Fail>
    requires below { Nests parser.now.depth (F.pre parser.now.names) (F.post parser.now.names) }
    ensures { spec.GivesDefRest (read_rule table (read_named table) g.def_plain parser.now.depth (ahead cursor.old)) result (ahead cursor.new) }
{
    let params = some_parameters(&parser.outside_rescue(), cursor, false)?;
    let opening = cursor.take_one_of(&SEPARATORS)?;
    let body = def_body(parser, cursor, opening)?;
    let end = cursor.take(Sign::Keyword(Word::End))?;
    Ok(DefRest {
        params,
        opening,
        body,
        end,
    })
}

/// What stands behind the name of a method.
#[tactic(auto, unfolding(ruby_meaning::specs::Grammar::Table::table, ruby_meaning::specs::Grammar::Definitions::def_in_brackets))]
fn def_rest<'a, F: Fn(Global, &mut Cursor<'_>, Part, u32) -> Result<Reading, Fail> + Copy>(
    parser: &Parser<F>,
    cursor: &mut Cursor<'a>,
) -> Result<DefRest<'a>, Fail>
    requires below { Nests parser.now.depth (F.pre parser.now.names) (F.post parser.now.names) }
    ensures { spec.GivesDefRest (read_rule table (read_named table) spec.def_rest parser.now.depth (ahead cursor.old)) result (ahead cursor.new) }
{
    if cursor.sees_one_of(&BRACKET_SIGNS) {
        def_in_brackets(parser, cursor)
    } else {
        def_plain(parser, cursor)
    }
}

/// `"def" [("self"|CONST) "."] mname .. "end"`
#[tactic(auto, unfolding(ruby_meaning::specs::Grammar::Table::table, ruby_meaning::specs::Grammar::Definitions::def_value))]
pub fn def_value<F: Fn(Global, &mut Cursor<'_>, Part, u32) -> Result<Reading, Fail> + Copy>(
    parser: &Parser<F>,
    cursor: &mut Cursor<'_>,
) -> Result<Value, Fail>
    requires below { Nests parser.now.depth (F.pre parser.now.names) (F.post parser.now.names) }
    ensures { ReadsValue g.def_value (suc parser.now.depth) cursor.old result cursor.new }
{
    let sign = cursor.take(Sign::Keyword(Word::Def))?;
    let name = def_name(parser, cursor)?;
    let parts = def_rest(parser, cursor)?;
    def_node(parser.alloc, sign, name, parts)
}
