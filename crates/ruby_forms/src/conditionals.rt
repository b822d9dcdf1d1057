//! `if` and `unless`.

ghost use Rattle.std.specs.Prelude.{◌≡◌, suc, true, false};
ghost use Rattle.ruby_meaning.specs.declared.production.Production.TheVariants as p;
ghost use Rattle.ruby_meaning.specs.Grammar.Actions as act;
ghost use Rattle.ruby_meaning.specs.Grammar.Definitions as g;
ghost use Rattle.ruby_meaning.specs.Grammar.Names.{part};
ghost use Rattle.ruby_meaning.specs.Grammar.Table.{table};
ghost use Rattle.grammar.specs.Readers.{read_named};
ghost use Rattle.grammar.specs.Rules.{tree, absent};
ghost use Rattle.ruby_reading.specs.Ahead.{ahead, see, MakesAs};
ghost use Rattle.ruby_forms.specs.Definitions as spec;
ghost use Rattle.ruby_reading.specs.Named.{GivesBody, Nests, Reads, ReadsBody, ReadsValue};
ghost use Rattle.ruby_reading.specs.Shown.{shown_body, shown_value};

use crate::clauses::{last_of, last_or, then_sign};
use descent::Fail;
use opal_base::Span;
use ruby_meaning::{Kind, Node, Part, Production, Sign, Word};
use ruby_reading::{
    Body, Cursor, Parser, Reading, Sight, Tree, Value, Written, filled, fits, node, nothing,
    span_of, start, to_end, tokens,
};
use sqlite_items::Boxed;
use std::alloc::Global;

/// A condition, the last token before its statements, and these.
#[derive(Drop)]
pub struct Branch<'a> {
    pub cond: Node,
    pub then: Sight<'a>,
    pub body: Body,
}

fn if_node(
    alloc: Global,
    sign: Sight<'_>,
    cond: Node,
    first: Body,
    second: Body,
    end: Sight<'_>,
) -> Result<Value, Fail>
    ensures { MakesAs shown_value (spec.if_node (see sign.entry) cond (shown_body first) (shown_body second) (see end.entry)) result }
{
    let span = tokens(sign, end);
    let kind = Kind::If {
        cond: Boxed::new(alloc, cond)?,
        yes: Boxed::new(alloc, filled(span, first))?,
        no: Boxed::new(alloc, filled(span, second))?,
    };
    Ok(Value {
        node: node(alloc, kind, span, start(sign))?,
        written: Written::Other,
    })
}

/// From an `elsif` to the end of its last part.
fn elsif_span(sign: Sight<'_>, branch: &Branch<'_>, last: &Body) -> Span
    ensures { result ≡ act.elsif_span (see sign.entry) (spec.shown_branch branch.now) (shown_body last.now) }
{
    to_end(
        span_of(sign),
        last_or(last_of(branch.then, &branch.body), last),
    )
}

fn elsif_node(alloc: Global, sign: Sight<'_>, branch: Branch<'_>, last: Body) -> Result<Body, Fail>
    ensures { MakesAs shown_body (spec.elsif_node (see sign.entry) (spec.shown_branch branch.entry) (shown_body last)) result }
{
    let span = elsif_span(sign, &branch, &last);
    let kind = Kind::If {
        cond: Boxed::new(alloc, branch.cond)?,
        yes: Boxed::new(alloc, filled(span, branch.body))?,
        no: Boxed::new(alloc, filled(span, last))?,
    };
    Ok(Body {
        node: node(alloc, kind, span, start(sign))?,
        absent: false,
    })
}

/// What stands behind the first part of an `if`, one level below.
fn otherwise_part<F: Fn(Global, &mut Cursor<'_>, Part, u32) -> Result<Reading, Fail> + Copy>(
    parser: &Parser<F>,
    cursor: &mut Cursor<'_>,
) -> Result<Body, Fail>
    requires below { Nests parser.now.depth (F.pre parser.now.names) (F.post parser.now.names) }
    ensures { GivesBody (read_named table parser.now.depth (part p.Otherwise true parser.now.in_rescue) (ahead cursor.old)) result (ahead cursor.new) }
{
    let part = Part {
        production: Production::Otherwise,
        takes_do: true,
        in_rescue: parser.in_rescue,
    };
    match (parser.names)(parser.alloc, cursor, part, parser.depth)? {
        Reading::Body(body) => Ok(body),
        _ => Err(Fail::Refused),
    }
}

/// `["else" stmts]`
#[tactic(auto, unfolding(ruby_meaning::specs::Grammar::Table::table, ruby_meaning::specs::Grammar::Definitions::else_part))]
pub fn else_part<F: Fn(Global, &mut Cursor<'_>, Part, u32) -> Result<Reading, Fail> + Copy>(
    parser: &Parser<F>,
    cursor: &mut Cursor<'_>,
) -> Result<Body, Fail>
    requires below { Nests parser.now.depth (F.pre parser.now.names) (F.post parser.now.names) }
    ensures { ReadsBody (g.else_part parser.now.in_rescue) parser.now.depth cursor.old result cursor.new }
{
    if cursor.sees(Sign::Keyword(Word::Else)) {
        cursor.take(Sign::Keyword(Word::Else))?;
        return parser.statements(cursor, parser.in_rescue);
    }
    let none = nothing(parser.alloc)?;
    if fits(&none.node, parser.depth) {
        Ok(none)
    } else {
        Err(Fail::Refused)
    }
}

/// `["else" stmts]` at the level of a node that is made here.
#[tactic(auto, using(crate::proofs::DefinitionLevels::nothing_fits), unfolding(ruby_meaning::specs::Grammar::Table::table, ruby_meaning::specs::Grammar::Definitions::else_part))]
fn else_here<F: Fn(Global, &mut Cursor<'_>, Part, u32) -> Result<Reading, Fail> + Copy>(
    parser: &Parser<F>,
    cursor: &mut Cursor<'_>,
) -> Result<Body, Fail>
    requires below { Nests parser.now.depth (F.pre parser.now.names) (F.post parser.now.names) }
    ensures { ReadsBody (g.else_part parser.now.in_rescue) (suc parser.now.depth) cursor.old result cursor.new }
{
    if !cursor.sees(Sign::Keyword(Word::Else)) {
        return nothing(parser.alloc);
    }
    cursor.take(Sign::Keyword(Word::Else))?;
    parser.statements_here(cursor)
}

/// `expr then stmts`
#[tactic(auto, unfolding(ruby_meaning::specs::Grammar::Table::table, ruby_meaning::specs::Grammar::Definitions::branch))]
fn read_branch<'a, F: Fn(Global, &mut Cursor<'_>, Part, u32) -> Result<Reading, Fail> + Copy>(
    parser: &Parser<F>,
    cursor: &mut Cursor<'a>,
) -> Result<Branch<'a>, Fail>
    requires below { Nests parser.now.depth (F.pre parser.now.names) (F.post parser.now.names) }
    ensures { Reads spec.shown_branch (g.branch parser.now.in_rescue) parser.now.depth cursor.old result cursor.new }
{
    let cond = parser.tree(cursor, Tree::Expression, true)?;
    let then = then_sign(parser, cursor)?;
    let body = parser.statements(cursor, parser.in_rescue)?;
    Ok(Branch { cond, then, body })
}

/// `("elsif" expr then stmts)* ["else" stmts]`
#[tactic(auto, unfolding(ruby_meaning::specs::Grammar::Table::table, ruby_meaning::specs::Grammar::Definitions::otherwise))]
pub fn otherwise<F: Fn(Global, &mut Cursor<'_>, Part, u32) -> Result<Reading, Fail> + Copy>(
    parser: &Parser<F>,
    cursor: &mut Cursor<'_>,
) -> Result<Body, Fail>
    requires below { Nests parser.now.depth (F.pre parser.now.names) (F.post parser.now.names) }
    ensures { ReadsBody (g.otherwise parser.now.in_rescue) (suc parser.now.depth) cursor.old result cursor.new }
{
    if !cursor.sees(Sign::Keyword(Word::Elsif)) {
        return else_here(parser, cursor);
    }
    let sign = cursor.take(Sign::Keyword(Word::Elsif))?;
    let branch = read_branch(parser, cursor)?;
    let last = otherwise_part(parser, cursor)?;
    elsif_node(parser.alloc, sign, branch, last)
}

/// `"if" expr then stmts .. "end"`
#[tactic(auto, unfolding(ruby_meaning::specs::Grammar::Table::table, ruby_meaning::specs::Grammar::Definitions::if_value))]
pub fn if_value<F: Fn(Global, &mut Cursor<'_>, Part, u32) -> Result<Reading, Fail> + Copy>(
    parser: &Parser<F>,
    cursor: &mut Cursor<'_>,
) -> Result<Value, Fail>
    requires below { Nests parser.now.depth (F.pre parser.now.names) (F.post parser.now.names) }
    ensures { ReadsValue (g.if_value parser.now.in_rescue) (suc parser.now.depth) cursor.old result cursor.new }
{
    let sign = cursor.take(Sign::Keyword(Word::If))?;
    let branch = read_branch(parser, cursor)?;
    let second = otherwise_part(parser, cursor)?;
    let end = cursor.take(Sign::Keyword(Word::End))?;
    if_node(parser.alloc, sign, branch.cond, branch.body, second, end)
}

/// `"unless" expr then stmts ["else" stmts] "end"`
#[tactic(auto, unfolding(ruby_meaning::specs::Grammar::Table::table, ruby_meaning::specs::Grammar::Definitions::unless_value))]
pub fn unless_value<F: Fn(Global, &mut Cursor<'_>, Part, u32) -> Result<Reading, Fail> + Copy>(
    parser: &Parser<F>,
    cursor: &mut Cursor<'_>,
) -> Result<Value, Fail>
    requires below { Nests parser.now.depth (F.pre parser.now.names) (F.post parser.now.names) }
    ensures { ReadsValue (g.unless_value parser.now.in_rescue) (suc parser.now.depth) cursor.old result cursor.new }
{
    let sign = cursor.take(Sign::Keyword(Word::Unless))?;
    let branch = read_branch(parser, cursor)?;
    let first = else_part(parser, cursor)?;
    let end = cursor.take(Sign::Keyword(Word::End))?;
    if_node(parser.alloc, sign, branch.cond, first, branch.body, end)
}
