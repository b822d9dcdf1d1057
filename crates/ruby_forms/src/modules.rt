//! `class` and `module`.

ghost use Rattle.std.specs.Prelude.{None, suc, true, false};
ghost use Rattle.ruby_meaning.specs.Grammar.Actions as act;
ghost use Rattle.ruby_meaning.specs.Grammar.Definitions as g;
ghost use Rattle.ruby_meaning.specs.Grammar.Table.{table};
ghost use Rattle.grammar.specs.Rules.{tree, named};
ghost use Rattle.ruby_reading.specs.Ahead.{see, Makes, MakesAs};
ghost use Rattle.ruby_parameters.specs.Parameters.{see_if};
ghost use Rattle.ruby_forms.specs.Definitions as spec;
ghost use Rattle.ruby_reading.specs.Named.{Nests, Reads, ReadsValue};
ghost use Rattle.ruby_reading.specs.Shown.{shown_value};

use crate::bodies::rescue_place;
use crate::clauses::Ended;
use descent::Fail;
use opal_base::Units;
use ruby_meaning::{Kind, Mark, ModuleForm, Node, Part, Sign, Word};
use ruby_reading::{
    Cursor, Parser, Reading, SEPARATORS, Sight, Tree, Value, Written, filled, node, tokens, units,
};
use sqlite_items::Boxed;
use std::alloc::Global;

/// The name of a class and its superclass, or the node whose singleton class it is.
#[derive(Drop)]
pub struct ClassHead<'a> {
    pub name: Option<Sight<'a>>,
    pub node: Option<Node>,
}

fn form_name(alloc: Global, name: Option<Sight<'_>>) -> Result<Units, Fail>
    ensures { Makes (spec.form_name (see_if name.entry)) result }
{
    match name {
        Some(name) => Ok(units(alloc, name)?),
        None => Ok(Units::new(alloc)),
    }
}

fn form_of(alloc: Global, head: ClassHead<'_>) -> Result<ModuleForm, Fail>
    ensures { Makes (act.form_of (spec.shown_class_head head.entry)) result }
{
    let named = head.name.is_some();
    match head.node {
        Some(node) if named => Ok(ModuleForm::Class(Some(Boxed::new(alloc, node)?))),
        Some(node) => Ok(ModuleForm::Singleton(Boxed::new(alloc, node)?)),
        None if named => Ok(ModuleForm::Class(None)),
        None => Ok(ModuleForm::Module),
    }
}

fn module_node(
    alloc: Global,
    sign: Sight<'_>,
    form: ModuleForm,
    name: Option<Sight<'_>>,
    parts: Ended<'_>,
) -> Result<Value, Fail>
    ensures { MakesAs shown_value (spec.module_node (see sign.entry) form (see_if name.entry) (spec.shown_ended parts.entry)) result }
{
    let span = tokens(sign, parts.end);
    let kind = Kind::ModuleDef {
        form,
        name: form_name(alloc, name)?,
        body: Boxed::new(alloc, filled(span, parts.body))?,
    };
    Ok(Value {
        node: node(alloc, kind, span, rescue_place(sign, name))?,
        written: Written::Other,
    })
}

/// `sep stmts "end"`
#[tactic(auto, unfolding(ruby_meaning::specs::Grammar::Table::table, ruby_meaning::specs::Grammar::Definitions::module_body))]
fn module_body<'a, F: Fn(Global, &mut Cursor<'_>, Part, u32) -> Result<Reading, Fail> + Copy>(
    parser: &Parser<F>,
    cursor: &mut Cursor<'a>,
) -> Result<Ended<'a>, Fail>
    requires below { Nests parser.now.depth (F.pre parser.now.names) (F.post parser.now.names) }
    ensures { Reads spec.shown_ended g.module_body parser.now.depth cursor.old result cursor.new }
{
    cursor.take_one_of(&SEPARATORS)?;
    let body = parser.statements(cursor, false)?;
    let end = cursor.take(Sign::Keyword(Word::End))?;
    Ok(Ended { body, end })
}

/// `["<" expr]`
#[tactic(auto, unfolding(ruby_meaning::specs::Grammar::Table::table))]
fn superclass<F: Fn(Global, &mut Cursor<'_>, Part, u32) -> Result<Reading, Fail> + Copy>(
    parser: &Parser<F>,
    cursor: &mut Cursor<'_>,
) -> Result<Option<Node>, Fail>
    requires below { Nests parser.now.depth (F.pre parser.now.names) (F.post parser.now.names) }
    ensures { Reads (λ n. n) (spec.superclass parser.now.in_rescue) parser.now.depth cursor.old result cursor.new }
{
    if !cursor.sees(Sign::Op(Mark::Less)) {
        return Ok(None);
    }
    cursor.take(Sign::Op(Mark::Less))?;
    Ok(Some(parser.tree(cursor, Tree::Expression, true)?))
}

/// `CONST ["<" expr] | "<<" expr`
#[tactic(auto, unfolding(ruby_meaning::specs::Grammar::Table::table, ruby_meaning::specs::Grammar::Definitions::class_header))]
fn class_header<'a, F: Fn(Global, &mut Cursor<'_>, Part, u32) -> Result<Reading, Fail> + Copy>(
    parser: &Parser<F>,
    cursor: &mut Cursor<'a>,
) -> Result<ClassHead<'a>, Fail>
    requires below { Nests parser.now.depth (F.pre parser.now.names) (F.post parser.now.names) }
    ensures { Reads spec.shown_class_head (g.class_header parser.now.in_rescue) parser.now.depth cursor.old result cursor.new }
{
    if cursor.sees(Sign::Const) {
        let name = Some(cursor.take(Sign::Const)?);
        let node = superclass(parser, cursor)?;
        return Ok(ClassHead { name, node });
    }
    cursor.take(Sign::Op(Mark::ShiftLeft))?;
    let node = Some(parser.tree(cursor, Tree::Expression, true)?);
    Ok(ClassHead { name: None, node })
}

/// `"class" CONST ["<" expr] sep stmts "end" | "class" "<<" expr sep stmts "end"`
#[tactic(auto, unfolding(ruby_meaning::specs::Grammar::Table::table, ruby_meaning::specs::Grammar::Definitions::class_value))]
pub fn class_value<F: Fn(Global, &mut Cursor<'_>, Part, u32) -> Result<Reading, Fail> + Copy>(
    parser: &Parser<F>,
    cursor: &mut Cursor<'_>,
) -> Result<Value, Fail>
    requires below { Nests parser.now.depth (F.pre parser.now.names) (F.post parser.now.names) }
    ensures { ReadsValue (g.class_value parser.now.in_rescue) (suc parser.now.depth) cursor.old result cursor.new }
{
    let sign = cursor.take(Sign::Keyword(Word::Class))?;
    let head = class_header(parser, cursor)?;
    let parts = module_body(parser, cursor)?;
    let name = head.name;
    let form = form_of(parser.alloc, head)?;
    module_node(parser.alloc, sign, form, name, parts)
}

/// `"module" CONST sep stmts "end"`
#[tactic(auto, unfolding(ruby_meaning::specs::Grammar::Table::table, ruby_meaning::specs::Grammar::Definitions::module_value))]
pub fn module_value<F: Fn(Global, &mut Cursor<'_>, Part, u32) -> Result<Reading, Fail> + Copy>(
    parser: &Parser<F>,
    cursor: &mut Cursor<'_>,
) -> Result<Value, Fail>
    requires below { Nests parser.now.depth (F.pre parser.now.names) (F.post parser.now.names) }
    ensures { ReadsValue g.module_value (suc parser.now.depth) cursor.old result cursor.new }
{
    let sign = cursor.take(Sign::Keyword(Word::Module))?;
    let name = cursor.take(Sign::Const)?;
    let parts = module_body(parser, cursor)?;
    module_node(parser.alloc, sign, ModuleForm::Module, Some(name), parts)
}
