//! Scripts as text, a letter for each statement and expression, its parts behind it.
//!
//! Statements: `v` and `V` `var` without and with a value, `:` an expression, `{` .. `}` a block,
//! `i` and `I` `if` without and with `else`, `w` `while`, `r` and `R` `return` without and with a
//! value, `b` `break`, `c` `continue`, `t` `throw`, `T` `try` with its block, `k` and `f` with
//! theirs, `;` the empty one.
//!
//! Expressions: `1` a number, `s` a string, `Y` and `N` `true` and `false`, `0` `null`, `h` `this`, a
//! name as it is, `[` .. `]` an array, `O` .. `)` an object with its keys, `F` a function with its
//! name, its parameters in brackets and its block, `.` a member and its name, `@` an index, `(` ..
//! `)` a call, `!`, `~` a minus before a value, `y` `typeof`, `d` `delete`, `=` an assignment, `?` a
//! conditional, `&` and `|`, and of the operators with two values the signs, where `S`, `D`, `l` and
//! `g` are `===`, `!==`, `<=` and `>=`.

use es5_tree::{EsExpr, EsKind, EsStmt, EsStmts, Operator, Script};
use opal_base::{Names, Units};
use sqlite_items::Items;
use std::alloc::{AllocError, Global};

type Done = Result<(), AllocError>;

/// A text, as far as it has been written, and whether it shows the columns of expressions.
#[derive(Drop)]
struct Line {
    text: String,
    columns: bool,
}

impl Line {
    fn put(&mut self, text: &str) -> Done {
        self.text.push_str(text)
    }

    fn name(&mut self, name: &Units) -> Done {
        for unit in name.as_slice() {
            self.unit(*unit)?;
        }
        Ok(())
    }

    fn unit(&mut self, unit: u16) -> Done {
        match unit {
            32..=126 => self.text.push(char::from(unit as u8)),
            _ => self.put("\\"),
        }
    }

    fn names(&mut self, names: &Names) -> Done {
        for at in 0..names.len() {
            self.name(names.at(at))?;
            self.put(",")?;
        }
        Ok(())
    }

    // Where the line shows them.
    fn column(&mut self, column: u32) -> Done {
        if !self.columns {
            return Ok(());
        }
        write!(self.text, "{column}")
    }
}

/// The text of a script.
pub fn shape(alloc: Global, script: &Script, columns: bool) -> Result<String, AllocError> {
    let mut line = Line {
        text: String::new(alloc),
        columns,
    };
    statements(&mut line, &script.body)?;
    let Line { text, .. } = line;
    Ok(text)
}

#[cycle(shape)]
fn statements(line: &mut Line, body: &EsStmts) -> Done {
    for stmt in body.as_slice() {
        statement(line, stmt)?;
    }
    Ok(())
}

#[cycle(shape)]
fn block(line: &mut Line, letter: &str, body: &EsStmts) -> Done {
    line.put(letter)?;
    statements(line, body)?;
    line.put("}")
}

#[cycle(shape)]
fn valued(line: &mut Line, letter: &str, value: &EsExpr) -> Done {
    line.put(letter)?;
    expression(line, value)
}

#[cycle(shape)]
fn statement(line: &mut Line, stmt: &EsStmt) -> Done {
    match stmt {
        EsStmt::Var(name, None) => {
            line.put("v")?;
            line.name(name)
        }
        EsStmt::Var(name, Some(value)) => {
            line.put("V")?;
            line.name(name)?;
            valued(line, "=", value)
        }
        EsStmt::Expr(value) => valued(line, ":", value),
        EsStmt::Block(body) => block(line, "{", body),
        EsStmt::Return(None) => line.put("r"),
        EsStmt::Return(Some(value)) => valued(line, "R", value),
        EsStmt::Break => line.put("b"),
        EsStmt::Continue => line.put("c"),
        EsStmt::Throw(value) => valued(line, "t", value),
        EsStmt::Empty => line.put(";"),
        _ => compound(line, stmt),
    }
}

// A statement that holds others.
#[cycle(shape)]
fn compound(line: &mut Line, stmt: &EsStmt) -> Done {
    match stmt {
        EsStmt::If(test, yes, None) => {
            valued(line, "i", test)?;
            statement(line, yes.get())
        }
        EsStmt::If(test, yes, Some(no)) => {
            valued(line, "I", test)?;
            statement(line, yes.get())?;
            statement(line, no.get())
        }
        EsStmt::While(test, body) => {
            valued(line, "w", test)?;
            statement(line, body.get())
        }
        EsStmt::Try {
            body,
            catch,
            finally,
        } => {
            block(line, "T", body)?;
            if let Some(catch) = catch {
                line.put("k")?;
                line.name(&catch.name)?;
                block(line, "{", &catch.body)?;
            }
            match finally {
                Some(finally) => block(line, "f", finally),
                None => Ok(()),
            }
        }
        _ => Ok(()),
    }
}

#[cycle(shape)]
fn expression(line: &mut Line, expr: &EsExpr) -> Done {
    line.column(expr.pos.col)?;
    form(line, expr.kind.get())
}

#[cycle(shape)]
fn form(line: &mut Line, kind: &EsKind) -> Done {
    match kind {
        EsKind::Num(_) => line.put("1"),
        EsKind::Str(_) => line.put("s"),
        EsKind::True => line.put("Y"),
        EsKind::False => line.put("N"),
        EsKind::Null => line.put("0"),
        EsKind::This => line.put("h"),
        EsKind::Name(name) => line.name(name),
        EsKind::Array(items) => list(line, "[", items, "]"),
        EsKind::Object { keys, values } => {
            line.put("O")?;
            line.names(keys)?;
            list(line, "", values, ")")
        }
        EsKind::Function { name, params, body } => {
            line.put("F")?;
            if let Some(name) = name {
                line.name(name)?;
            }
            line.put("(")?;
            line.names(params)?;
            block(line, "){", body)
        }
        EsKind::Not(value) => valued(line, "!", value),
        EsKind::Neg(value) => valued(line, "~", value),
        EsKind::Typeof(value) => valued(line, "y", value),
        EsKind::Delete(value) => valued(line, "d", value),
        _ => operation(line, kind),
    }
}

// An expression with more than one part.
#[cycle(shape)]
fn operation(line: &mut Line, kind: &EsKind) -> Done {
    match kind {
        EsKind::Member(base, name, mark) => {
            line.put(".")?;
            line.name(name)?;
            line.column(mark.col)?;
            valued(line, "", base)
        }
        EsKind::Index(base, key, mark) => {
            line.put("@")?;
            line.column(mark.col)?;
            expression(line, base)?;
            expression(line, key)
        }
        EsKind::Call(callee, args) => {
            valued(line, "(", callee)?;
            list(line, "", args, ")")
        }
        EsKind::Binary(operator, left, right) => {
            valued(line, sign(*operator), left)?;
            expression(line, right)
        }
        EsKind::And(left, right) => {
            valued(line, "&", left)?;
            expression(line, right)
        }
        EsKind::Or(left, right) => {
            valued(line, "|", left)?;
            expression(line, right)
        }
        EsKind::Assign(target, value) => {
            valued(line, "=", target)?;
            expression(line, value)
        }
        EsKind::Cond(test, yes, no) => {
            valued(line, "?", test)?;
            expression(line, yes)?;
            expression(line, no)
        }
        _ => Ok(()),
    }
}

#[cycle(shape)]
fn list(line: &mut Line, opening: &str, items: &Items<EsExpr>, closing: &str) -> Done {
    line.put(opening)?;
    for item in items.as_slice() {
        expression(line, item)?;
    }
    line.put(closing)
}

fn sign(operator: Operator) -> &'static str {
    match operator {
        Operator::Same => "S",
        Operator::Different => "D",
        Operator::Less => "<",
        Operator::Greater => ">",
        Operator::LessOrEqual => "l",
        Operator::GreaterOrEqual => "g",
        Operator::Add => "+",
        Operator::Subtract => "-",
        Operator::Multiply => "*",
        Operator::Divide => "/",
        Operator::Remainder => "%",
    }
}
