//! `case`.

ghost use Rattle.std.specs.Prelude.{None, suc, length, true};
ghost use Rattle.ruby_meaning.specs.Grammar.Definitions as g;
ghost use Rattle.ruby_meaning.specs.Grammar.Table.{table};
ghost use Rattle.grammar.specs.Rules.{tree};
ghost use Rattle.descent.specs.Gives.{Gives};
ghost use Rattle.ruby_reading.specs.Ahead.{ahead, see, Makes, MakesAs};
ghost use Rattle.ruby_forms.specs.Definitions as spec;
ghost use Rattle.ruby_reading.specs.Named.{Nests, Reads, ReadsNode, ReadsValue};
ghost use Rattle.ruby_reading.specs.Shown.{shown_value};

use crate::clauses::{EXPRESSION_SIGNS, Ended, Guarded, argument_list, guarded_body, last_of};
use crate::conditionals::else_part;
use descent::Fail;
use ruby_meaning::{Kind, Node, Nodes, Part, Sign, Word};
use ruby_parameters::skip;
use ruby_reading::{
    Cursor, Parser, Reading, SEPARATORS, Sight, Tree, Value, Written, boxed_if, filled, node,
    span_of, start, to_end, tokens,
};
use sqlite_items::Boxed;
use std::alloc::Global;

fn when_node(alloc: Global, sign: Sight<'_>, tests: Nodes, parts: Guarded<'_>) -> Result<Node, Fail>
    ensures { Makes (spec.when_node (see sign.entry) tests (spec.shown_guarded parts.entry)) result }
{
    let span = to_end(span_of(sign), last_of(parts.then, &parts.body));
    let kind = Kind::When {
        tests,
        body: Boxed::new(alloc, filled(span, parts.body))?,
    };
    Ok(node(alloc, kind, span, start(sign))?)
}

fn case_node(
    alloc: Global,
    sign: Sight<'_>,
    subject: Option<Node>,
    whens: Nodes,
    parts: Ended<'_>,
) -> Result<Value, Fail>
    ensures { MakesAs shown_value (spec.case_node (see sign.entry) subject whens (spec.shown_ended parts.entry)) result }
{
    let span = tokens(sign, parts.end);
    let kind = Kind::Case {
        subject: boxed_if(alloc, subject)?,
        whens,
        otherwise: Boxed::new(alloc, filled(span, parts.body))?,
    };
    Ok(Value {
        node: node(alloc, kind, span, start(sign))?,
        written: Written::Other,
    })
}

/// `"when" arg ("," arg)* then stmts`
#[tactic(auto, unfolding(ruby_meaning::specs::Grammar::Table::table, ruby_meaning::specs::Grammar::Definitions::when_clause))]
fn when_here<F: Fn(Global, &mut Cursor<'_>, Part, u32) -> Result<Reading, Fail> + Copy>(
    parser: &Parser<F>,
    cursor: &mut Cursor<'_>,
) -> Result<Node, Fail>
    requires below { Nests parser.now.depth (F.pre parser.now.names) (F.post parser.now.names) }
    ensures { ReadsNode (g.when_clause parser.now.in_rescue) (suc parser.now.depth) cursor.old result cursor.new }
{
    let sign = cursor.take(Sign::Keyword(Word::When))?;
    let tests = argument_list(parser, cursor)?;
    let parts = guarded_body(parser, cursor, parser.in_rescue)?;
    when_node(parser.alloc, sign, tests, parts)
}

/// The same, one level below.
#[tactic(auto, using(ruby_reading::proofs::Named::nests_below, crate::proofs::DefinitionLevels::level_below, crate::proofs::DefinitionLevels::when_none))]
fn when_clause<F: Fn(Global, &mut Cursor<'_>, Part, u32) -> Result<Reading, Fail> + Copy>(
    parser: &Parser<F>,
    cursor: &mut Cursor<'_>,
) -> Result<Node, Fail>
    requires below { Nests parser.now.depth (F.pre parser.now.names) (F.post parser.now.names) }
    ensures { ReadsNode (g.when_clause parser.now.in_rescue) parser.now.depth cursor.old result cursor.new }
{
    if parser.depth == 0 {
        return Err(Fail::Refused);
    }
    when_here(&parser.below(), cursor)
}

fn more_whens<F: Fn(Global, &mut Cursor<'_>, Part, u32) -> Result<Reading, Fail> + Copy>(
    parser: &Parser<F>,
    cursor: &mut Cursor<'_>,
    found: Nodes,
) -> Result<Nodes, Fail>
    requires below { Nests parser.now.depth (F.pre parser.now.names) (F.post parser.now.names) }
    ensures { Gives (λ n. n) (spec.whens_from parser.now.in_rescue parser.now.depth (length (ahead cursor.old)) found (ahead cursor.old)) result (ahead cursor.new) }
{
    let mut found = found;
    for _turn in 0..cursor.left() {
        if !cursor.sees(Sign::Keyword(Word::When)) {
            return Ok(found);
        }
        found.push(when_clause(parser, cursor)?)?;
    }
    Ok(found)
}

/// The `when` parts behind one.
#[tactic(auto, using(crate::proofs::DefinitionLists::more_given))]
fn whens_behind<F: Fn(Global, &mut Cursor<'_>, Part, u32) -> Result<Reading, Fail> + Copy>(
    parser: &Parser<F>,
    cursor: &mut Cursor<'_>,
    first: Node,
) -> Result<Nodes, Fail>
    requires below { Nests parser.now.depth (F.pre parser.now.names) (F.post parser.now.names) }
    ensures { spec.GivesMore first (spec.read_whens parser.now.in_rescue parser.now.depth (ahead cursor.old)) result (ahead cursor.new) }
{
    let mut found = Nodes::new(parser.alloc);
    found.push(first)?;
    more_whens(parser, cursor, found)
}

/// `[expr]`
#[tactic(auto, unfolding(ruby_meaning::specs::Grammar::Table::table))]
fn subject<F: Fn(Global, &mut Cursor<'_>, Part, u32) -> Result<Reading, Fail> + Copy>(
    parser: &Parser<F>,
    cursor: &mut Cursor<'_>,
) -> Result<Option<Node>, Fail>
    requires below { Nests parser.now.depth (F.pre parser.now.names) (F.post parser.now.names) }
    ensures { Reads (λ n. n) (spec.subject parser.now.in_rescue) parser.now.depth cursor.old result cursor.new }
{
    if !cursor.sees_one_of(&EXPRESSION_SIGNS) {
        return Ok(None);
    }
    Ok(Some(parser.tree(cursor, Tree::Expression, true)?))
}

/// `["else" stmts] "end"`
#[tactic(auto, unfolding(ruby_meaning::specs::Grammar::Table::table))]
fn else_end<'a, F: Fn(Global, &mut Cursor<'_>, Part, u32) -> Result<Reading, Fail> + Copy>(
    parser: &Parser<F>,
    cursor: &mut Cursor<'a>,
) -> Result<Ended<'a>, Fail>
    requires below { Nests parser.now.depth (F.pre parser.now.names) (F.post parser.now.names) }
    ensures { Reads spec.shown_ended (spec.else_end parser.now.in_rescue) parser.now.depth cursor.old result cursor.new }
{
    let body = else_part(parser, cursor)?;
    let end = cursor.take(Sign::Keyword(Word::End))?;
    Ok(Ended { body, end })
}

/// `"case" [expr] sep* ("when" arg ("," arg)* then stmts)+ ["else" stmts] "end"`
#[tactic(auto, unfolding(ruby_meaning::specs::Grammar::Table::table, ruby_meaning::specs::Grammar::Definitions::case_value))]
pub fn case_value<F: Fn(Global, &mut Cursor<'_>, Part, u32) -> Result<Reading, Fail> + Copy>(
    parser: &Parser<F>,
    cursor: &mut Cursor<'_>,
) -> Result<Value, Fail>
    requires below { Nests parser.now.depth (F.pre parser.now.names) (F.post parser.now.names) }
    ensures { ReadsValue (g.case_value parser.now.in_rescue) (suc parser.now.depth) cursor.old result cursor.new }
{
    let sign = cursor.take(Sign::Keyword(Word::Case))?;
    let subject = subject(parser, cursor)?;
    skip(cursor, &SEPARATORS);
    let first = when_clause(parser, cursor)?;
    let whens = whens_behind(parser, cursor, first)?;
    let parts = else_end(parser, cursor)?;
    case_node(parser.alloc, sign, subject, whens, parts)
}
