//! `while` and `until`.

ghost use Rattle.std.specs.Prelude.{suc, false};
ghost use Rattle.ruby_meaning.specs.Grammar.Definitions as g;
ghost use Rattle.ruby_meaning.specs.Grammar.Table.{table};
ghost use Rattle.grammar.specs.Rules.{tree};
ghost use Rattle.ruby_reading.specs.Ahead.{ahead, see, GivesNode, Makes, MakesAs};
ghost use Rattle.ruby_forms.specs.Definitions as spec;
ghost use Rattle.ruby_reading.specs.Named.{Nests, Reads, ReadsValue};
ghost use Rattle.ruby_reading.specs.Shown.{shown_value};

use crate::clauses::Ended;
use descent::Fail;
use ruby_meaning::{Kind, Mark, Node, Part, Sign, Word};
use ruby_reading::{
    Cursor, Parser, Reading, Sight, Tree, Value, Written, filled, node, start, tokens,
};
use sqlite_items::Boxed;
use std::alloc::Global;

const LOOP_SIGNS: [Sign; 3] = [
    Sign::Newline,
    Sign::Op(Mark::Semicolon),
    Sign::Keyword(Word::Do),
];

fn while_node(alloc: Global, sign: Sight<'_>, cond: Node, parts: Ended<'_>) -> Result<Value, Fail>
    ensures { MakesAs shown_value (spec.while_node (see sign.entry) cond (spec.shown_ended parts.entry)) result }
{
    let span = tokens(sign, parts.end);
    let kind = Kind::While {
        cond: Boxed::new(alloc, cond)?,
        body: Boxed::new(alloc, filled(span, parts.body))?,
        body_first: false,
    };
    Ok(Value {
        node: node(alloc, kind, span, start(sign))?,
        written: Written::Other,
    })
}

fn not_node(alloc: Global, cond: Node) -> Result<Node, Fail>
    ensures { Makes (spec.not_node cond) result }
{
    let Node { kind, span, mark } = cond;
    let cond = Node { kind, span, mark };
    Ok(node(alloc, Kind::Not(Boxed::new(alloc, cond)?), span, mark)?)
}

fn until_node(alloc: Global, sign: Sight<'_>, cond: Node, parts: Ended<'_>) -> Result<Value, Fail>
    ensures { MakesAs shown_value (spec.until_node (see sign.entry) cond (spec.shown_ended parts.entry)) result }
{
    let cond = Node {
        kind: cond.kind,
        span: tokens(sign, parts.end),
        mark: start(sign),
    };
    while_node(alloc, sign, cond, parts)
}

/// `(sep|"do") stmts "end"`
#[tactic(auto, unfolding(ruby_meaning::specs::Grammar::Table::table, ruby_meaning::specs::Grammar::Definitions::loop_body))]
fn loop_body<'a, F: Fn(Global, &mut Cursor<'_>, Part, u32) -> Result<Reading, Fail> + Copy>(
    parser: &Parser<F>,
    cursor: &mut Cursor<'a>,
) -> Result<Ended<'a>, Fail>
    requires below { Nests parser.now.depth (F.pre parser.now.names) (F.post parser.now.names) }
    ensures { Reads spec.shown_ended (g.loop_body parser.now.in_rescue) parser.now.depth cursor.old result cursor.new }
{
    cursor.take_one_of(&LOOP_SIGNS)?;
    let body = parser.statements(cursor, parser.in_rescue)?;
    let end = cursor.take(Sign::Keyword(Word::End))?;
    Ok(Ended { body, end })
}

/// `"while" expr (sep|"do") stmts "end"`
#[tactic(auto, unfolding(ruby_meaning::specs::Grammar::Table::table, ruby_meaning::specs::Grammar::Definitions::while_value))]
pub fn while_value<F: Fn(Global, &mut Cursor<'_>, Part, u32) -> Result<Reading, Fail> + Copy>(
    parser: &Parser<F>,
    cursor: &mut Cursor<'_>,
) -> Result<Value, Fail>
    requires below { Nests parser.now.depth (F.pre parser.now.names) (F.post parser.now.names) }
    ensures { ReadsValue (g.while_value parser.now.in_rescue) (suc parser.now.depth) cursor.old result cursor.new }
{
    let sign = cursor.take(Sign::Keyword(Word::While))?;
    let cond = parser.tree(cursor, Tree::Expression, false)?;
    let parts = loop_body(parser, cursor)?;
    while_node(parser.alloc, sign, cond, parts)
}

/// The condition of an `until`.
#[tactic(auto, using(ruby_reading::proofs::Named::nests_below, ruby_parameters::proofs::Levels::node_some, ruby_parameters::proofs::Levels::node_none))]
fn not_condition<F: Fn(Global, &mut Cursor<'_>, Part, u32) -> Result<Reading, Fail> + Copy>(
    parser: &Parser<F>,
    cursor: &mut Cursor<'_>,
) -> Result<Node, Fail>
    requires below { Nests parser.now.depth (F.pre parser.now.names) (F.post parser.now.names) }
    ensures { GivesNode (spec.read_not parser.now.in_rescue parser.now.depth (ahead cursor.old)) result (ahead cursor.new) }
{
    if parser.depth == 0 {
        return Err(Fail::Refused);
    }
    let cond = parser.below().tree(cursor, Tree::Expression, false)?;
    not_node(parser.alloc, cond)
}

/// `"until" expr (sep|"do") stmts "end"`
#[tactic(auto, using(crate::proofs::DefinitionLevels::two_fit, crate::proofs::DefinitionLevels::two_do_not), unfolding(ruby_meaning::specs::Grammar::Table::table, ruby_meaning::specs::Grammar::Definitions::until_value))]
pub fn until_value<F: Fn(Global, &mut Cursor<'_>, Part, u32) -> Result<Reading, Fail> + Copy>(
    parser: &Parser<F>,
    cursor: &mut Cursor<'_>,
) -> Result<Value, Fail>
    requires below { Nests parser.now.depth (F.pre parser.now.names) (F.post parser.now.names) }
    ensures { ReadsValue (g.until_value parser.now.in_rescue) (suc parser.now.depth) cursor.old result cursor.new }
{
    if parser.depth == 0 {
        return Err(Fail::Refused);
    }
    let sign = cursor.take(Sign::Keyword(Word::Until))?;
    let cond = not_condition(parser, cursor)?;
    let parts = loop_body(parser, cursor)?;
    until_node(parser.alloc, sign, cond, parts)
}
