//! Expressions and statements, each form by its parts (ECMA-262 5.1, sections 11 to 13).

ghost use Rattle.std.specs.Prelude.{◌≡◌, [], ◌∷◌, ◌++◌, map, OnOk, codes};
ghost use Rattle.es5_printer.specs.Forms as spec;
ghost use Rattle.es5_printer.specs.Page.{written};
ghost use Rattle.es5_printer.specs.Pieces.{plain, marked, listed, more_listed};
ghost use Rattle.es5_printer.specs.Text.{catch_pieces, expr_part, kind_form, stmt_pieces};
ghost use Rattle.opal_base.specs.Text.{utf8_of};
ghost use Rattle.std.specs.Option.{option_map};

use crate::level::{Level, of_operator, of_right};
use crate::literals::{name, numeral, string};
use crate::page::Page;
use es5_tree::{Catch, EsExpr, EsKind, EsStmt, Operator};
use opal_base::{Names, NoMemory, Units};
use sqlite_items::Boxed;
use std::alloc::Global;

/// The level of a form.
#[tactic(auto, unfolding(crate::specs::Text::kind_form))]
fn level_of(kind: &EsKind) -> Level
    ensures { result ≡ (kind_form kind.now).0 }
{
    match kind {
        EsKind::Num(_) => Level::Numeral,
        EsKind::Str(_)
        | EsKind::True
        | EsKind::False
        | EsKind::Null
        | EsKind::This
        | EsKind::Name(_)
        | EsKind::Array(_)
        | EsKind::Object { .. }
        | EsKind::Function { .. } => Level::Primary,
        EsKind::Member(_, _, _) | EsKind::Index(_, _, _) | EsKind::Call(_, _) => Level::Call,
        EsKind::Not(_) | EsKind::Typeof(_) | EsKind::Delete(_) => Level::Unary,
        EsKind::Neg(_) => Level::Negation,
        EsKind::Binary(operator, _, _) => of_operator(*operator),
        EsKind::And(_, _) => Level::And,
        EsKind::Or(_, _) => Level::Or,
        EsKind::Cond(_, _, _) => Level::Conditional,
        EsKind::Assign(_, _) => Level::Assignment,
    }
}

#[tactic(auto, unfolding(crate::specs::Text::expr_part, crate::specs::Text::kind_form))]
fn is_tight(wanted: Level, expr: &EsExpr) -> bool
    ensures { result ≡ spec.is_tight wanted (expr_part expr.now) }
{
    wanted.takes(level_of(expr.kind.get()))
}

#[cycle(opens)]
#[tactic(auto, unfolding(crate::specs::Text::expr_part, crate::specs::Text::kind_form))]
fn opens(expr: &EsExpr) -> bool
    ensures { result ≡ (expr_part expr.now).1.0 }
{
    form_opens(expr.kind.get())
}

#[cycle(opens)]
fn opens_at(wanted: Level, expr: &EsExpr) -> bool
    ensures { result ≡ spec.opens_at wanted (expr_part expr.now) }
{
    is_tight(wanted, expr) && opens(expr)
}

/// Whether a form begins with `{` or `function`.
#[cycle(opens)]
#[tactic(auto, unfolding(crate::specs::Text::kind_form, crate::specs::Text::expr_part))]
fn form_opens(kind: &EsKind) -> bool
    ensures { result ≡ (kind_form kind.now).1.0 }
{
    match kind {
        EsKind::Object { .. } | EsKind::Function { .. } => true,
        EsKind::Member(base, _, _) => opens_at(Level::Call, base),
        EsKind::Index(base, _, _) => opens_at(Level::Numeral, base),
        EsKind::Call(callee, _) => opens_at(Level::Numeral, callee),
        EsKind::Binary(operator, left, _) => opens_at(of_operator(*operator), left),
        EsKind::And(left, _) => opens_at(Level::And, left),
        EsKind::Or(left, _) => opens_at(Level::Or, left),
        EsKind::Cond(test, _, _) => opens_at(Level::Or, test),
        EsKind::Assign(target, _) => opens_at(Level::Call, target),
        EsKind::Num(_)
        | EsKind::Str(_)
        | EsKind::True
        | EsKind::False
        | EsKind::Null
        | EsKind::This
        | EsKind::Name(_)
        | EsKind::Array(_)
        | EsKind::Not(_)
        | EsKind::Neg(_)
        | EsKind::Typeof(_)
        | EsKind::Delete(_) => false,
    }
}

fn sign_of(operator: Operator) -> &'static [u8]
    ensures { result.now ≡ spec.sign_of operator }
{
    match operator {
        Operator::Same => b" === ",
        Operator::Different => b" !== ",
        Operator::Less => b" < ",
        Operator::Greater => b" > ",
        Operator::LessOrEqual => b" <= ",
        Operator::GreaterOrEqual => b" >= ",
        Operator::Add => b" + ",
        Operator::Subtract => b" - ",
        Operator::Multiply => b" * ",
        Operator::Divide => b" / ",
        Operator::Remainder => b" % ",
    }
}

/// The `-` before a value: no other stands directly before it.
#[tactic(auto, unfolding(crate::specs::Text::expr_part, crate::specs::Text::kind_form))]
fn minus_before(value: &EsExpr) -> &'static [u8]
    ensures { result.now ≡ spec.minus_before (expr_part value.now) }
{
    match level_of(value.kind.get()) {
        Level::Negation => b"- ",
        _ => b"-",
    }
}

/// The mark of a site, and a token.
#[tactic(auto, using(crate::proofs::Written::written_append))]
fn token(page: &mut Page, origin: Option<u32>, text: &[u8]) -> Result<(), NoMemory>
    ensures { OnOk result (page.new ≡ written (marked origin ++ plain text.now) page.old) }
{
    page.mark(origin)?;
    page.put(text)
}

fn param_list(alloc: Global, page: &mut Page, params: &Names) -> Result<(), NoMemory>
    ensures { OnOk result (page.new ≡ written (listed (map spec.param params.now)) page.old) }
{
    if params.len() == 0 {
        return Ok(());
    }
    name(alloc, page, params.at(0))?;
    for i in 1..params.len() {
        page.put(b", ")?;
        name(alloc, page, params.at(i))?;
    }
    Ok(())
}

fn name_if(alloc: Global, page: &mut Page, called: &Option<Units>) -> Result<(), NoMemory>
    ensures { OnOk result (page.new ≡ written (spec.name_if called.now) page.old) }
{
    match called {
        Some(called) => {
            page.put(b" ")?;
            name(alloc, page, called)
        }
        None => Ok(()),
    }
}

/// An expression where any may stand.
#[cycle(print)]
#[tactic(auto, using(crate::proofs::Written::written_append, crate::proofs::Equations::expr_is))]
fn expression(alloc: Global, page: &mut Page, expr: &EsExpr) -> Result<(), NoMemory>
    ensures { OnOk result (page.new ≡ written (spec.pieces (expr_part expr.now)) page.old) }
{
    form(alloc, page, expr.kind.get(), expr.origin)
}

/// An expression where one of a level is wanted.
#[cycle(print)]
#[tactic(auto, using(crate::proofs::Written::written_append))]
fn operand(alloc: Global, page: &mut Page, wanted: Level, expr: &EsExpr) -> Result<(), NoMemory>
    ensures { OnOk result (page.new ≡ written (spec.at_level wanted (expr_part expr.now)) page.old) }
{
    if is_tight(wanted, expr) {
        return expression(alloc, page, expr);
    }
    bracketed(alloc, page, expr)
}

#[cycle(print)]
#[tactic(auto, using(crate::proofs::Written::written_append))]
fn bracketed(alloc: Global, page: &mut Page, expr: &EsExpr) -> Result<(), NoMemory>
    ensures { OnOk result (page.new ≡ written (spec.bracketed (spec.pieces (expr_part expr.now))) page.old) }
{
    page.put(b"(")?;
    expression(alloc, page, expr)?;
    page.put(b")")
}

/// A form that comes from a site or from none.
#[cycle(print)]
#[tactic(auto, using(crate::proofs::Written::written_append, crate::proofs::Equations::of_num, crate::proofs::Equations::of_str, crate::proofs::Equations::of_true_, crate::proofs::Equations::of_false_, crate::proofs::Equations::of_null, crate::proofs::Equations::of_this, crate::proofs::Equations::of_name, crate::proofs::Equations::of_array, crate::proofs::Equations::of_object, crate::proofs::Equations::of_function, crate::proofs::Equations::of_member, crate::proofs::Equations::of_index, crate::proofs::Equations::of_call, crate::proofs::Equations::of_not_, crate::proofs::Equations::of_neg, crate::proofs::Equations::of_typeof, crate::proofs::Equations::of_delete, crate::proofs::Equations::of_binary, crate::proofs::Equations::of_and_, crate::proofs::Equations::of_or_, crate::proofs::Equations::of_cond, crate::proofs::Equations::of_assign))]
fn form(alloc: Global, page: &mut Page, kind: &EsKind, origin: Option<u32>) -> Result<(), NoMemory>
    ensures { OnOk result (page.new ≡ written ((kind_form kind.now).1.1 origin) page.old) }
{
    match kind {
        EsKind::Num(value) => {
            page.mark(origin)?;
            numeral(alloc, page, *value)
        }
        EsKind::Str(text) => {
            page.mark(origin)?;
            string(alloc, page, text)
        }
        EsKind::True => token(page, origin, b"true"),
        EsKind::False => token(page, origin, b"false"),
        EsKind::Null => token(page, origin, b"null"),
        EsKind::This => token(page, origin, b"this"),
        EsKind::Name(called) => {
            page.mark(origin)?;
            name(alloc, page, called)
        }
        EsKind::Array(items) => {
            page.mark(origin)?;
            array(alloc, page, items.as_slice())
        }
        EsKind::Object { keys, values } => {
            page.mark(origin)?;
            object(alloc, page, keys, values.as_slice())
        }
        EsKind::Function { name, params, body } => {
            page.mark(origin)?;
            function(alloc, page, name, params, body.as_slice())
        }
        EsKind::Member(base, called, _) => member(alloc, page, base, called, origin),
        EsKind::Index(base, key, _) => {
            operand(alloc, page, Level::Numeral, base)?;
            key_behind(alloc, page, key, origin)
        }
        EsKind::Call(callee, args) => {
            page.mark(origin)?;
            operand(alloc, page, Level::Numeral, callee)?;
            arguments(alloc, page, args.as_slice())
        }
        EsKind::Not(value) => prefixed(alloc, page, origin, b"!", Level::Unary, value),
        EsKind::Neg(value) => prefixed(
            alloc,
            page,
            origin,
            minus_before(value),
            Level::Unary,
            value,
        ),
        EsKind::Typeof(value) => prefixed(alloc, page, origin, b"typeof ", Level::Unary, value),
        EsKind::Delete(value) => prefixed(alloc, page, origin, b"delete ", Level::Call, value),
        EsKind::Binary(operator, left, right) => {
            page.mark(origin)?;
            operand(alloc, page, of_operator(*operator), left)?;
            operand_behind(alloc, page, sign_of(*operator), of_right(*operator), right)
        }
        EsKind::And(left, right) => {
            page.mark(origin)?;
            operand(alloc, page, Level::And, left)?;
            operand_behind(alloc, page, b" && ", Level::Equality, right)
        }
        EsKind::Or(left, right) => {
            page.mark(origin)?;
            operand(alloc, page, Level::Or, left)?;
            operand_behind(alloc, page, b" || ", Level::And, right)
        }
        EsKind::Cond(test, yes, no) => {
            page.mark(origin)?;
            operand(alloc, page, Level::Or, test)?;
            value_behind(alloc, page, b" ? ", yes)?;
            value_behind(alloc, page, b" : ", no)
        }
        EsKind::Assign(target, value) => {
            page.mark(origin)?;
            operand(alloc, page, Level::Call, target)?;
            operand_behind(alloc, page, b" = ", Level::Assignment, value)
        }
    }
}

/// The sign of an operator with one operand, and this.
#[cycle(print)]
#[tactic(auto, using(crate::proofs::Written::written_append))]
fn prefixed(
    alloc: Global,
    page: &mut Page,
    origin: Option<u32>,
    sign: &[u8],
    wanted: Level,
    value: &EsExpr,
) -> Result<(), NoMemory>
    ensures { OnOk result (page.new ≡ written (spec.unary origin sign.now wanted (expr_part value.now)) page.old) }
{
    page.mark(origin)?;
    page.put(sign)?;
    operand(alloc, page, wanted, value)
}

/// A sign, and an operand behind it.
#[cycle(print)]
#[tactic(auto, using(crate::proofs::Written::written_append))]
fn operand_behind(
    alloc: Global,
    page: &mut Page,
    sign: &[u8],
    wanted: Level,
    expr: &EsExpr,
) -> Result<(), NoMemory>
    ensures { OnOk result (page.new ≡ written (spec.operand_behind sign.now wanted (expr_part expr.now)) page.old) }
{
    page.put(sign)?;
    operand(alloc, page, wanted, expr)
}

/// A sign, and an expression behind it.
#[cycle(print)]
#[tactic(auto, using(crate::proofs::Written::written_append))]
fn value_behind(alloc: Global, page: &mut Page, sign: &[u8], expr: &EsExpr) -> Result<(), NoMemory>
    ensures { OnOk result (page.new ≡ written (spec.value_behind sign.now (expr_part expr.now)) page.old) }
{
    page.put(sign)?;
    expression(alloc, page, expr)
}

/// The key of an index, in its brackets.
#[cycle(print)]
#[tactic(auto, using(crate::proofs::Written::written_append))]
fn key_behind(
    alloc: Global,
    page: &mut Page,
    key: &EsExpr,
    origin: Option<u32>,
) -> Result<(), NoMemory>
    ensures { OnOk result (page.new ≡ written (spec.key_behind (expr_part key.now) origin) page.old) }
{
    page.put(b"[")?;
    page.mark(origin)?;
    expression(alloc, page, key)?;
    page.put(b"]")
}

/// The arguments of a call, in their brackets.
#[cycle(print)]
#[tactic(auto, using(crate::proofs::Written::written_append))]
fn arguments(alloc: Global, page: &mut Page, args: &[EsExpr]) -> Result<(), NoMemory>
    ensures { OnOk result (page.new ≡ written (spec.arguments (map expr_part args.now)) page.old) }
{
    page.put(b"(")?;
    items(alloc, page, args)?;
    page.put(b")")
}

/// Expressions with `, ` between them.
#[cycle(print)]
#[tactic(auto, using(crate::proofs::Written::written_append))]
fn items(alloc: Global, page: &mut Page, values: &[EsExpr]) -> Result<(), NoMemory>
    ensures { OnOk result (page.new ≡ written (listed (map spec.pieces (map expr_part values.now))) page.old) }
{
    if values.is_empty() {
        return Ok(());
    }
    expression(alloc, page, &values[0])?;
    for i in 1..values.len() {
        value_behind(alloc, page, b", ", &values[i])?;
    }
    Ok(())
}

#[cycle(print)]
#[tactic(auto, using(crate::proofs::Written::written_append))]
fn member(
    alloc: Global,
    page: &mut Page,
    base: &EsExpr,
    called: &Units,
    origin: Option<u32>,
) -> Result<(), NoMemory>
    ensures { OnOk result (page.new ≡ written (spec.member (expr_part base.now) called.now origin) page.old) }
{
    operand(alloc, page, Level::Call, base)?;
    page.put(b".")?;
    page.mark(origin)?;
    name(alloc, page, called)
}

#[cycle(print)]
#[tactic(auto, using(crate::proofs::Written::written_append))]
fn array(alloc: Global, page: &mut Page, values: &[EsExpr]) -> Result<(), NoMemory>
    ensures { OnOk result (page.new ≡ written (spec.array (map expr_part values.now)) page.old) }
{
    page.put(b"[")?;
    items(alloc, page, values)?;
    page.put(b"]")
}

#[cycle(print)]
#[tactic(auto, using(crate::proofs::Written::written_append))]
fn pair(alloc: Global, page: &mut Page, key: &Units, value: &EsExpr) -> Result<(), NoMemory>
    ensures { OnOk result (page.new ≡ written (spec.pair key.now (expr_part value.now)) page.old) }
{
    name(alloc, page, key)?;
    page.put(b": ")?;
    expression(alloc, page, value)
}

/// Pairs with `, ` between them, as many as there are keys and values.
#[cycle(print)]
#[tactic(auto, using(crate::proofs::Written::written_append))]
fn pair_list(
    alloc: Global,
    page: &mut Page,
    keys: &Names,
    values: &[EsExpr],
) -> Result<(), NoMemory>
    ensures { OnOk result (page.new ≡ written (listed (spec.pairs keys.now (map expr_part values.now))) page.old) }
{
    let count = keys.len().min(values.len());
    if count == 0 {
        return Ok(());
    }
    pair(alloc, page, keys.at(0), &values[0])?;
    for i in 1..count {
        page.put(b", ")?;
        pair(alloc, page, keys.at(i), &values[i])?;
    }
    Ok(())
}

#[cycle(print)]
#[tactic(auto, using(crate::proofs::Written::written_append))]
fn object(alloc: Global, page: &mut Page, keys: &Names, values: &[EsExpr]) -> Result<(), NoMemory>
    ensures { OnOk result (page.new ≡ written (spec.object keys.now (map expr_part values.now)) page.old) }
{
    page.put(b"{")?;
    pair_list(alloc, page, keys, values)?;
    page.put(b"}")
}

#[cycle(print)]
#[tactic(auto, using(crate::proofs::Written::written_append))]
fn function(
    alloc: Global,
    page: &mut Page,
    called: &Option<Units>,
    params: &Names,
    body: &[EsStmt],
) -> Result<(), NoMemory>
    ensures { OnOk result (page.new ≡ written (spec.function called.now params.now (map stmt_pieces body.now)) page.old) }
{
    page.put(b"function")?;
    name_if(alloc, page, called)?;
    page.put(b"(")?;
    param_list(alloc, page, params)?;
    page.put(b") ")?;
    block(alloc, page, body)
}

/// Statements in braces.
#[cycle(print)]
#[tactic(auto, using(crate::proofs::Written::written_append))]
fn block(alloc: Global, page: &mut Page, body: &[EsStmt]) -> Result<(), NoMemory>
    ensures { OnOk result (page.new ≡ written (spec.block (map stmt_pieces body.now)) page.old) }
{
    page.put(b"{\n")?;
    lines(alloc, page, body)?;
    page.put(b"}")
}

/// Statements, each on a line of its own.
#[cycle(print)]
#[tactic(auto, using(crate::proofs::Written::written_append))]
pub fn lines(alloc: Global, page: &mut Page, body: &[EsStmt]) -> Result<(), NoMemory>
    ensures { OnOk result (page.new ≡ written (spec.lines (map stmt_pieces body.now)) page.old) }
{
    for stmt in body {
        statement(alloc, page, stmt)?;
        page.put(b"\n")?;
    }
    Ok(())
}

/// An expression where a statement begins, which is neither `{` nor `function`.
#[cycle(print)]
#[tactic(auto, using(crate::proofs::Written::written_append))]
fn expression_statement(alloc: Global, page: &mut Page, value: &EsExpr) -> Result<(), NoMemory>
    ensures { OnOk result (page.new ≡ written (spec.of_expression (expr_part value.now)) page.old) }
{
    if opens(value) {
        bracketed(alloc, page, value)
    } else {
        expression(alloc, page, value)
    }
}

#[cycle(print)]
#[tactic(auto, using(crate::proofs::Written::written_append, crate::proofs::Equations::catch_is))]
fn caught(alloc: Global, page: &mut Page, catch: &Catch) -> Result<(), NoMemory>
    ensures { OnOk result (page.new ≡ written (catch_pieces catch.now) page.old) }
{
    page.put(b" catch (")?;
    name(alloc, page, &catch.name)?;
    page.put(b") ")?;
    block(alloc, page, catch.body.as_slice())
}

/// `var`, a name, and a value or none.
#[cycle(print)]
#[tactic(auto, using(crate::proofs::Written::written_append))]
fn var_statement(
    alloc: Global,
    page: &mut Page,
    called: &Units,
    value: &Option<EsExpr>,
) -> Result<(), NoMemory>
    ensures { OnOk result (page.new ≡ written (spec.var_statement called.now (option_map expr_part value.now)) page.old) }
{
    page.put(b"var ")?;
    name(alloc, page, called)?;
    match value {
        Some(value) => {
            value_behind(alloc, page, b" = ", value)?;
            page.put(b";")
        }
        None => page.put(b";"),
    }
}

#[cycle(print)]
#[tactic(auto, using(crate::proofs::Written::written_append))]
fn return_statement(alloc: Global, page: &mut Page, value: &Option<EsExpr>) -> Result<(), NoMemory>
    ensures { OnOk result (page.new ≡ written (spec.return_statement (option_map expr_part value.now)) page.old) }
{
    page.put(b"return")?;
    match value {
        Some(value) => {
            value_behind(alloc, page, b" ", value)?;
            page.put(b";")
        }
        None => page.put(b";"),
    }
}

/// What a statement tests, behind its keyword.
#[cycle(print)]
#[tactic(auto, using(crate::proofs::Written::written_append))]
fn test(alloc: Global, page: &mut Page, keyword: &[u8], value: &EsExpr) -> Result<(), NoMemory>
    ensures { OnOk result (page.new ≡ written (spec.test keyword.now (expr_part value.now)) page.old) }
{
    page.put(keyword)?;
    expression(alloc, page, value)?;
    page.put(b") ")
}

#[cycle(print)]
#[tactic(auto, using(crate::proofs::Written::written_append))]
fn ended(alloc: Global, page: &mut Page, value: &EsExpr) -> Result<(), NoMemory>
    ensures { OnOk result (page.new ≡ written (spec.ended (spec.of_expression (expr_part value.now))) page.old) }
{
    expression_statement(alloc, page, value)?;
    page.put(b";")
}

#[cycle(print)]
#[tactic(auto, using(crate::proofs::Written::written_append))]
fn throw_statement(alloc: Global, page: &mut Page, value: &EsExpr) -> Result<(), NoMemory>
    ensures { OnOk result (page.new ≡ written (spec.throw_statement (expr_part value.now)) page.old) }
{
    value_behind(alloc, page, b"throw ", value)?;
    page.put(b";")
}

/// `else` and the statement behind it, where there is one.
#[cycle(print)]
#[tactic(auto, using(crate::proofs::Written::written_append))]
fn otherwise(alloc: Global, page: &mut Page, no: &Option<Boxed<EsStmt>>) -> Result<(), NoMemory>
    ensures { OnOk result (page.new ≡ written (spec.otherwise (option_map stmt_pieces no.now)) page.old) }
{
    match no {
        Some(no) => {
            page.put(b" else ")?;
            statement(alloc, page, no.get())
        }
        None => Ok(()),
    }
}

#[cycle(print)]
#[tactic(auto, using(crate::proofs::Written::written_append))]
fn caught_if(alloc: Global, page: &mut Page, catch: &Option<Catch>) -> Result<(), NoMemory>
    ensures { OnOk result (page.new ≡ written (spec.of_catch_if (option_map catch_pieces catch.now)) page.old) }
{
    match catch {
        Some(catch) => caught(alloc, page, catch),
        None => Ok(()),
    }
}

/// A keyword, and statements in braces behind it.
#[cycle(print)]
#[tactic(auto, using(crate::proofs::Written::written_append))]
fn block_behind(
    alloc: Global,
    page: &mut Page,
    keyword: &[u8],
    body: &[EsStmt],
) -> Result<(), NoMemory>
    ensures { OnOk result (page.new ≡ written (spec.block_behind keyword.now (map stmt_pieces body.now)) page.old) }
{
    page.put(keyword)?;
    block(alloc, page, body)
}

/// A statement (ECMA-262 5.1, section 12).
#[cycle(print)]
#[tactic(auto, using(crate::proofs::Written::written_append, crate::proofs::Equations::stmt_var, crate::proofs::Equations::stmt_expr, crate::proofs::Equations::stmt_block, crate::proofs::Equations::stmt_if, crate::proofs::Equations::stmt_while, crate::proofs::Equations::stmt_return, crate::proofs::Equations::stmt_break, crate::proofs::Equations::stmt_continue, crate::proofs::Equations::stmt_throw, crate::proofs::Equations::stmt_try, crate::proofs::Equations::stmt_empty))]
fn statement(alloc: Global, page: &mut Page, stmt: &EsStmt) -> Result<(), NoMemory>
    ensures { OnOk result (page.new ≡ written (stmt_pieces stmt.now) page.old) }
{
    match stmt {
        EsStmt::Var(called, value) => var_statement(alloc, page, called, value),
        EsStmt::Expr(value) => ended(alloc, page, value),
        EsStmt::Block(body) => block(alloc, page, body.as_slice()),
        EsStmt::If(value, yes, no) => {
            test(alloc, page, b"if (", value)?;
            statement(alloc, page, yes.get())?;
            otherwise(alloc, page, no)
        }
        EsStmt::While(value, body) => {
            test(alloc, page, b"while (", value)?;
            statement(alloc, page, body.get())
        }
        EsStmt::Return(value) => return_statement(alloc, page, value),
        EsStmt::Break => page.put(b"break;"),
        EsStmt::Continue => page.put(b"continue;"),
        EsStmt::Throw(value) => throw_statement(alloc, page, value),
        EsStmt::Try {
            body,
            catch,
            finally,
        } => {
            block_behind(alloc, page, b"try ", body.as_slice())?;
            caught_if(alloc, page, catch)?;
            match finally {
                Some(last) => block_behind(alloc, page, b" finally ", last.as_slice()),
                None => Ok(()),
            }
        }
        EsStmt::Empty => page.put(b";"),
    }
}
