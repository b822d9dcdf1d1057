//! Expressions and statements from tokens and their parts.

ghost use Rattle.std.specs.Prelude.{◌≡◌, ◌<◌, ◌^◌, ◌++◌, ◌∷◌, [], map, IfOk, OnOk, Some};
ghost use Rattle.es5_tree.specs.Grammar.Nodes as act;
ghost use Rattle.es5_tree.specs.Grammar.Nodes.{expression, statement};
ghost use Rattle.es5_tree.specs.Grammar.Terminals as terminals;
ghost use Rattle.es5_reading.specs.Loops as loops;
ghost use Rattle.es5_reading.specs.Named.{shown_access, shown_branch, shown_caught, shown_choices, shown_handlers, shown_operand, shown_stmt};

use crate::parts::{Access, Branch, Caught, Choices, Handlers, Logical, Operand, Statement};
use crate::terminal::terminal_of_word;
use es5_tree::{
    Catch, EsExpr, EsKind, EsMark, EsStmt, EsStmts, EsToken, EsTokenKind, Keyword, Operator,
    Terminal, expr_depth, is_word, stmt_depth,
};
use name_set::NameSet;
use opal_base::{NoMemory, Pos, Units};
use sqlite_items::Boxed;
use std::alloc::{AllocError, Global};

const ARGUMENTS: &[u8] = b"arguments";

pub fn expr(alloc: Global, pos: Pos, kind: EsKind) -> Result<EsExpr, AllocError>
    ensures { IfOk result (λ made. made ≡ act.expr_at pos kind) }
{
    let kind = Boxed::new(alloc, kind)?;
    Ok(EsExpr {
        kind,
        origin: None,
        pos,
    })
}

/// The name that a token spells.
pub fn name_of(alloc: Global, token: &EsToken) -> Result<Units, NoMemory>
    ensures { IfOk result (λ name. name ≡ act.name_of token.now) }
{
    match &token.kind {
        EsTokenKind::Word(name) => name.try_clone(),
        _ => Ok(Units::new(alloc)),
    }
}

/// Puts a name behind names among which it isn't. Where it is, nothing is put, and the answer is
/// `NoMemory`; `take_new` sees to it that this doesn't happen.
pub fn add_name(names: &mut NameSet, name: &Units) -> Result<(), NoMemory>
    ensures { OnOk result (names.new ≡ names.old ++ name.now ∷ []) }
{
    if names.insert(name)? {
        Ok(())
    } else {
        Err(NoMemory)
    }
}

fn word_kind(name: &Units) -> Result<EsKind, NoMemory>
    ensures { IfOk result (λ kind. kind ≡ act.word_kind (terminals.terminal_of_word name.now) name.now) }
{
    match terminal_of_word(name) {
        Terminal::Keyword(Keyword::This) => Ok(EsKind::This),
        Terminal::Keyword(Keyword::Null) => Ok(EsKind::Null),
        Terminal::Keyword(Keyword::True) => Ok(EsKind::True),
        Terminal::Keyword(Keyword::False) => Ok(EsKind::False),
        _ => Ok(EsKind::Name(name.try_clone()?)),
    }
}

/// The expression of one token.
#[tactic(auto, unfolding(es5_tree::specs::Grammar::Nodes::token_kind))]
pub fn token_kind(kind: &EsTokenKind) -> Result<EsKind, NoMemory>
    ensures { IfOk result (λ made. made ≡ act.token_kind kind.now) }
{
    match kind {
        EsTokenKind::Word(name) => word_kind(name),
        EsTokenKind::Num(value) => Ok(EsKind::Num(*value)),
        EsTokenKind::Str(text) => Ok(EsKind::Str(text.try_clone()?)),
        _ => Ok(EsKind::Null),
    }
}

pub fn unary_kind(kind: &EsTokenKind, value: EsExpr) -> EsKind
    ensures { result ≡ act.unary_kind kind.now value }
{
    match kind {
        EsTokenKind::Mark(EsMark::Not) => EsKind::Not(value),
        EsTokenKind::Mark(EsMark::Minus) => EsKind::Neg(value),
        _ => EsKind::Typeof(value),
    }
}

pub fn operator_of(kind: &EsTokenKind) -> Operator
    ensures { result ≡ act.operator_of kind.now }
{
    match kind {
        EsTokenKind::Mark(EsMark::Same) => Operator::Same,
        EsTokenKind::Mark(EsMark::Different) => Operator::Different,
        EsTokenKind::Mark(EsMark::Less) => Operator::Less,
        EsTokenKind::Mark(EsMark::Greater) => Operator::Greater,
        EsTokenKind::Mark(EsMark::LessOrEqual) => Operator::LessOrEqual,
        EsTokenKind::Mark(EsMark::GreaterOrEqual) => Operator::GreaterOrEqual,
        EsTokenKind::Mark(EsMark::Plus) => Operator::Add,
        EsTokenKind::Mark(EsMark::Minus) => Operator::Subtract,
        EsTokenKind::Mark(EsMark::Times) => Operator::Multiply,
        EsTokenKind::Mark(EsMark::Divide) => Operator::Divide,
        _ => Operator::Remainder,
    }
}

/// Whether it is a member or an index.
#[tactic(auto, unfolding(es5_tree::specs::Grammar::Nodes::is_member, es5_tree::specs::Grammar::Nodes::expr_of))]
pub fn is_member(expr: &EsExpr) -> bool
    ensures { result ≡ act.is_member (expression expr.now) }
{
    match expr.kind.get() {
        EsKind::Member(_, _, _) | EsKind::Index(_, _, _) => true,
        _ => false,
    }
}

/// Whether it can stand before a `=`.
#[tactic(auto, unfolding(es5_tree::specs::Grammar::Nodes::is_target, es5_tree::specs::Grammar::Nodes::expr_of))]
pub fn is_target(expr: &EsExpr) -> bool
    ensures { result ≡ act.is_target (expression expr.now) }
{
    match expr.kind.get() {
        EsKind::Name(name) => !is_word(ARGUMENTS, name.as_slice()),
        EsKind::Member(_, _, _) | EsKind::Index(_, _, _) => true,
        _ => false,
    }
}

/// Whether an expression has no more levels than that.
pub fn fits(operand: &Operand<'_>, levels: u32) -> bool
    requires { levels < 2 ^ 31 }
    ensures { result ≡ loops.fits levels (shown_operand operand.now) }
{
    expr_depth(&operand.expr) <= levels
}

#[tactic(auto, unfolding(es5_tree::specs::Grammar::Nodes::expr_of))]
pub fn binary<'a>(
    alloc: Global,
    left: Operand<'a>,
    part: Operand<'_>,
) -> Result<Operand<'a>, AllocError>
    ensures { IfOk result (λ made. shown_operand made ≡ act.binary (shown_operand left.entry) (shown_operand part.entry)) }
{
    let first = left.first;
    let operator = operator_of(&part.first.kind);
    let kind = EsKind::Binary(operator, left.expr, part.expr);
    Ok(Operand {
        first,
        expr: expr(alloc, first.pos, kind)?,
    })
}

#[tactic(auto, unfolding(es5_tree::specs::Grammar::Nodes::expr_of))]
pub fn joined<'a>(
    alloc: Global,
    which: Logical,
    left: Operand<'a>,
    right: EsExpr,
) -> Result<Operand<'a>, AllocError>
    ensures { IfOk result (λ made. shown_operand made ≡ loops.joined which (shown_operand left.entry) (expression right)) }
{
    let first = left.first;
    let kind = match which {
        Logical::And => EsKind::And(left.expr, right),
        Logical::Or => EsKind::Or(left.expr, right),
    };
    Ok(Operand {
        first,
        expr: expr(alloc, first.pos, kind)?,
    })
}

#[tactic(auto, unfolding(es5_tree::specs::Grammar::Nodes::expr_of))]
pub fn conditional<'a>(
    alloc: Global,
    test: Operand<'a>,
    choices: Choices,
) -> Result<Operand<'a>, AllocError>
    ensures { IfOk result (λ made. shown_operand made ≡ act.conditional (shown_operand test.entry) (shown_choices choices)) }
{
    let first = test.first;
    let kind = EsKind::Cond(test.expr, choices.first, choices.second);
    Ok(Operand {
        first,
        expr: expr(alloc, first.pos, kind)?,
    })
}

#[tactic(auto, unfolding(es5_tree::specs::Grammar::Nodes::expr_of))]
pub fn assigned<'a>(
    alloc: Global,
    target: Operand<'a>,
    value: EsExpr,
) -> Result<Operand<'a>, AllocError>
    ensures { IfOk result (λ made. shown_operand made ≡ act.assigned (shown_operand target.entry) (expression value)) }
{
    let first = target.first;
    let kind = EsKind::Assign(target.expr, value);
    Ok(Operand {
        first,
        expr: expr(alloc, first.pos, kind)?,
    })
}

#[tactic(auto, using(crate::proofs::Shown::call_is), unfolding(es5_tree::specs::Grammar::Nodes::expr_of, es5_tree::specs::Grammar::Nodes::access))]
pub fn accessed<'a>(
    alloc: Global,
    value: Operand<'a>,
    access: Access<'_>,
) -> Result<Operand<'a>, NoMemory>
    ensures { IfOk result (λ made. shown_operand made ≡ act.accessed (shown_operand value.entry) (shown_access access.entry)) }
{
    let first = value.first;
    let kind = match access {
        Access::Member(name) => EsKind::Member(value.expr, name_of(alloc, name)?, name.pos),
        Access::Index(_, key) => {
            let pos = key.pos;
            EsKind::Index(value.expr, key, pos)
        }
        Access::Call(_, args) => EsKind::Call(value.expr, args),
    };
    match expr(alloc, first.pos, kind) {
        Ok(expr) => Ok(Operand { first, expr }),
        Err(_) => Err(NoMemory),
    }
}

#[tactic(auto, using(crate::proofs::Shown::stmts_back))]
fn caught(alloc: Global, part: Caught<'_>) -> Result<Catch, NoMemory>
    ensures { IfOk result (λ made. made ≡ act.caught (shown_caught part.entry)) }
{
    Ok(Catch {
        name: name_of(alloc, part.name)?,
        body: part.body,
    })
}

#[tactic(auto, using(crate::proofs::Shown::stmts_back))]
pub fn tried(alloc: Global, body: EsStmts, handlers: Handlers<'_>) -> Result<EsStmt, NoMemory>
    ensures { IfOk result (λ made. made ≡ act.tried (map statement body, shown_handlers handlers.entry)) }
{
    let Handlers { catch, finally } = handlers;
    let catch = match catch {
        Some(part) => Some(caught(alloc, part)?),
        None => None,
    };
    Ok(EsStmt::Try {
        body,
        catch,
        finally,
    })
}

/// An operator before its value.
#[tactic(auto, unfolding(es5_tree::specs::Grammar::Nodes::expr_of))]
pub fn negated<'a>(alloc: Global, part: Operand<'a>) -> Result<Operand<'a>, AllocError>
    ensures { IfOk result (λ made. shown_operand made ≡ act.negated (shown_operand part.entry)) }
{
    let first = part.first;
    let kind = unary_kind(&first.kind, part.expr);
    Ok(Operand {
        first,
        expr: expr(alloc, first.pos, kind)?,
    })
}

/// Whether the test of an `if` and its statement have no more levels than that.
#[tactic(auto, using(crate::proofs::Stopping::most_fits))]
pub fn branch_fits(branch: &Branch, levels: u32) -> bool
    requires { levels < 2 ^ 31 }
    ensures { result ≡ loops.branches_fit levels (shown_branch branch.now) }
{
    expr_depth(&branch.test) <= levels && stmt_depth(&branch.first.stmt) <= levels
}

#[tactic(auto, unfolding(es5_tree::specs::Grammar::Nodes::expr_of, es5_tree::specs::Grammar::Nodes::stmt_of))]
pub fn short_if(alloc: Global, branch: Branch) -> Result<Statement, AllocError>
    ensures { IfOk result (λ made. shown_stmt made ≡ act.branched (shown_branch branch)) }
{
    let Branch { test, first } = branch;
    let first = Boxed::new(alloc, first.stmt)?;
    Ok(Statement {
        stmt: EsStmt::If(test, first, None),
        takes_else: true,
    })
}

#[tactic(auto, unfolding(es5_tree::specs::Grammar::Nodes::expr_of, es5_tree::specs::Grammar::Nodes::stmt_of))]
pub fn long_if(alloc: Global, branch: Branch, second: Statement) -> Result<Statement, AllocError>
    ensures { IfOk result (λ made. shown_stmt made ≡ act.branched ((shown_branch branch).0, Some (shown_stmt second))) }
{
    let Branch { test, first } = branch;
    let Statement { stmt, takes_else } = second;
    let first = Boxed::new(alloc, first.stmt)?;
    let second = Boxed::new(alloc, stmt)?;
    Ok(Statement {
        stmt: EsStmt::If(test, first, Some(second)),
        takes_else,
    })
}
