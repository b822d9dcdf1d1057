//! The names that the code of a function declares, and whether it names `arguments` (ECMA-262 5.1,
//! section 10.5). The functions in it have code of their own.

ghost use Rattle.std.specs.Prelude.{◌≡◌, [], ◌∷◌, ◌++◌, ◌||◌, false, bytes_eq, map, option_map, OnOk, IfOk};
ghost use Rattle.es5_evaluation.specs.Declared.{arguments_name, catch_code, each, expr_code, kind_code, new_names, optional, optional_list, own_code, stmt_code};
ghost use Rattle.name_set.specs.Names.{with_new};
ghost use Rattle.es5_code.specs.Own.{gather};
ghost use Rattle.es5_code.specs.Trees.{arguments_if};

use es5_tree::{Catch, EsExpr, EsKind, EsStmt, EsStmts, is_word, word_units};
use name_set::NameSet;
use opal_base::{Names, NoMemory, Units};
use sqlite_items::Boxed;
use std::alloc::Global;

const ARGUMENTS: &[u8] = b"arguments";

/// The names of the `var` statements in their order, and whether `arguments` is named.
#[derive(Drop)]
pub(crate) struct OwnNames {
    pub names: Names,
    pub arguments: bool,
}

fn is_arguments(name: &Units) -> bool
    ensures { result ≡ bytes_eq name.now arguments_name }
{
    is_word(ARGUMENTS, name.as_slice())
}

fn either(one: bool, other: bool) -> bool
    ensures { result ≡ one || other }
{
    one || other
}

#[cycle(in_expressions)]
#[tactic(auto, using(crate::proofs::Gathering::expr_is))]
fn expression(expr: &EsExpr, own: &mut OwnNames)
    ensures { own.new ≡ gather own.old (expr_code expr.now) }
{
    form(expr.kind.get(), own)
}

#[cycle(in_expressions)]
#[tactic(auto, using(crate::proofs::Gathering::of_num, crate::proofs::Gathering::of_str, crate::proofs::Gathering::of_true_, crate::proofs::Gathering::of_false_, crate::proofs::Gathering::of_null, crate::proofs::Gathering::of_this, crate::proofs::Gathering::of_name, crate::proofs::Gathering::of_array, crate::proofs::Gathering::of_object, crate::proofs::Gathering::of_function, crate::proofs::Gathering::of_member, crate::proofs::Gathering::of_index, crate::proofs::Gathering::of_call, crate::proofs::Gathering::of_not_, crate::proofs::Gathering::of_neg, crate::proofs::Gathering::of_typeof, crate::proofs::Gathering::of_delete, crate::proofs::Gathering::of_binary, crate::proofs::Gathering::of_and_, crate::proofs::Gathering::of_or_, crate::proofs::Gathering::of_cond, crate::proofs::Gathering::of_assign))]
fn form(kind: &EsKind, own: &mut OwnNames)
    ensures { own.new ≡ gather own.old (kind_code kind.now) }
{
    match kind {
        EsKind::Num(_) => {}
        EsKind::Str(_) => {}
        EsKind::True => {}
        EsKind::False => {}
        EsKind::Null => {}
        EsKind::This => {}
        EsKind::Name(name) => own.arguments = either(own.arguments, is_arguments(name)),
        EsKind::Array(items) => expressions(items.as_slice(), own),
        EsKind::Object { values, .. } => expressions(values.as_slice(), own),
        EsKind::Function { .. } => {}
        EsKind::Member(base, _, _) => expression(base, own),
        EsKind::Index(base, key, _) => {
            expression(base, own);
            expression(key, own);
        }
        EsKind::Call(callee, args) => {
            expression(callee, own);
            expressions(args.as_slice(), own);
        }
        EsKind::Not(value) => expression(value, own),
        EsKind::Neg(value) => expression(value, own),
        EsKind::Typeof(value) => expression(value, own),
        EsKind::Delete(value) => expression(value, own),
        EsKind::Binary(_, left, right) => {
            expression(left, own);
            expression(right, own);
        }
        EsKind::And(left, right) => {
            expression(left, own);
            expression(right, own);
        }
        EsKind::Or(left, right) => {
            expression(left, own);
            expression(right, own);
        }
        EsKind::Cond(test, first, second) => {
            expression(test, own);
            expression(first, own);
            expression(second, own);
        }
        EsKind::Assign(target, value) => {
            expression(target, own);
            expression(value, own);
        }
    }
}

#[cycle(in_expressions)]
fn expressions(exprs: &[EsExpr], own: &mut OwnNames)
    ensures { own.new ≡ gather own.old (each (map expr_code exprs.now)) }
{
    for expr in exprs {
        expression(expr, own);
    }
}

#[tactic(auto, using(crate::proofs::Gathering::gather_nothing))]
fn value_if(expr: &Option<EsExpr>, own: &mut OwnNames)
    ensures { own.new ≡ gather own.old (optional (option_map expr_code expr.now)) }
{
    match expr {
        Some(expr) => expression(expr, own),
        None => {}
    }
}

/// The name of a `var` statement.
#[tactic(auto, unfolding(crate::specs::Own::gather))]
fn declaration(name: &Units, own: &mut OwnNames) -> Result<(), NoMemory>
    ensures { OnOk result (own.new ≡ gather own.old (record { names = name.now ∷ []; arguments = false })) }
{
    let name = name.try_clone()?;
    own.names.push(name)
}

#[cycle(in_statements)]
#[tactic(auto, using(crate::proofs::Gathering::of_var, crate::proofs::Gathering::of_expr, crate::proofs::Gathering::of_block, crate::proofs::Gathering::of_if, crate::proofs::Gathering::of_while, crate::proofs::Gathering::of_return, crate::proofs::Gathering::of_break, crate::proofs::Gathering::of_continue, crate::proofs::Gathering::of_throw, crate::proofs::Gathering::of_try, crate::proofs::Gathering::of_empty))]
fn statement(stmt: &EsStmt, own: &mut OwnNames) -> Result<(), NoMemory>
    ensures { OnOk result (own.new ≡ gather own.old (stmt_code stmt.now)) }
{
    match stmt {
        EsStmt::Var(name, value) => {
            declaration(name, own)?;
            value_if(value, own);
            Ok(())
        }
        EsStmt::Expr(value) => {
            expression(value, own);
            Ok(())
        }
        EsStmt::Block(body) => statements(body.as_slice(), own),
        EsStmt::If(test, first, second) => {
            expression(test, own);
            statement(first.get(), own)?;
            otherwise(second, own)
        }
        EsStmt::While(test, body) => {
            expression(test, own);
            statement(body.get(), own)
        }
        EsStmt::Return(value) => {
            value_if(value, own);
            Ok(())
        }
        EsStmt::Break => Ok(()),
        EsStmt::Continue => Ok(()),
        EsStmt::Throw(value) => {
            expression(value, own);
            Ok(())
        }
        EsStmt::Try {
            body,
            catch,
            finally,
        } => {
            statements(body.as_slice(), own)?;
            catch_part(catch, own)?;
            match finally {
                Some(body) => statements(body.as_slice(), own),
                None => Ok(()),
            }
        }
        EsStmt::Empty => Ok(()),
    }
}

#[cycle(in_statements)]
fn statements(stmts: &[EsStmt], own: &mut OwnNames) -> Result<(), NoMemory>
    ensures { OnOk result (own.new ≡ gather own.old (each (map stmt_code stmts.now))) }
{
    for stmt in stmts {
        statement(stmt, own)?;
    }
    Ok(())
}

#[cycle(in_statements)]
#[tactic(auto, using(crate::proofs::Gathering::gather_nothing))]
fn otherwise(stmt: &Option<Boxed<EsStmt>>, own: &mut OwnNames) -> Result<(), NoMemory>
    ensures { OnOk result (own.new ≡ gather own.old (optional (option_map stmt_code stmt.now))) }
{
    match stmt {
        Some(stmt) => statement(stmt.get(), own),
        None => Ok(()),
    }
}

#[cycle(in_statements)]
#[tactic(auto, using(crate::proofs::Gathering::gather_nothing, crate::proofs::Gathering::catch_is))]
fn catch_part(catch: &Option<Catch>, own: &mut OwnNames) -> Result<(), NoMemory>
    ensures { OnOk result (own.new ≡ gather own.old (optional (option_map catch_code catch.now))) }
{
    match catch {
        Some(part) => statements(part.body.as_slice(), own),
        None => Ok(()),
    }
}

/// What the code of these statements declares and names.
pub(crate) fn own_names(alloc: Global, body: &EsStmts) -> Result<OwnNames, NoMemory>
    ensures names { IfOk result (λ own. own.names ≡ (own_code body.now).names) }
    ensures arguments { IfOk result (λ own. own.arguments ≡ (own_code body.now).arguments) }
{
    let mut own = OwnNames {
        names: Names::new(alloc),
        arguments: false,
    };
    statements(body.as_slice(), &mut own)?;
    Ok(own)
}

/// Puts copies of more names behind.
fn extend(names: &mut Names, more: &Names) -> Result<(), NoMemory>
    ensures { OnOk result (names.new ≡ names.old ++ more.now) }
{
    for i in 0..more.len() {
        names.push(more.at(i).try_clone()?)?;
    }
    Ok(())
}

/// Puts a copy of a name behind the new ones, if it isn't known yet.
fn put_new(known: &mut NameSet, name: &Units, new: &mut Names) -> Result<(), NoMemory>
    ensures known { OnOk result (known.new ≡ with_new known.old name.now known.old) }
    ensures new { OnOk result (new.new ≡ with_new known.old name.now new.old) }
{
    if known.insert(name)? {
        new.push(name.try_clone()?)
    } else {
        Ok(())
    }
}

/// Copies of these names without those that are known or stood before.
pub(crate) fn new_names(alloc: Global, known: &Names, names: &Names) -> Result<Names, NoMemory>
    ensures { IfOk result (λ new. new ≡ new_names known.now names.now) }
{
    let mut seen = NameSet::of(alloc, known)?;
    let mut new = Names::new(alloc);
    for i in 0..names.len() {
        put_new(&mut seen, names.at(i), &mut new)?;
    }
    Ok(new)
}

/// The names of the variables of a call's record.
pub(crate) fn variables(alloc: Global, params: &Names, own: &OwnNames) -> Result<Names, NoMemory>
    ensures { IfOk result (λ names. names ≡ params.now ++ arguments_if own.now.arguments ++ new_names params.now own.now.names) }
{
    let mut names = Names::new(alloc);
    extend(&mut names, params)?;
    if own.arguments {
        names.push(word_units(alloc, ARGUMENTS)?)?;
    }
    let locals = new_names(alloc, params, &own.names)?;
    extend(&mut names, &locals)?;
    Ok(names)
}
