//! Trees that are written with the form before its parts.

use es5_tree::{Catch, EsExpr, EsKind, EsStmt, EsStmts, Operator, SafeInt, Script};
use opal_base::{Names, Pos, Units, utf8_to_units};
use sqlite_items::{Boxed, Items};
use std::alloc::{AllocError, Global};

type Read<T> = Result<T, AllocError>;

/// The most levels of a tree; what lies deeper is `null` or empty.
const LEVELS: u32 = 9;

/// The most parts of a list.
const MOST: u32 = 9;

const NOWHERE: Pos = Pos { line: 0, col: 0 };

/// What is left of a tree's text.
#[derive(Drop)]
pub struct Reader<'a> {
    alloc: Global,
    rest: &'a str,
}

fn prefixed(form: &str, value: EsExpr) -> EsKind {
    match form {
        "not" => EsKind::Not(value),
        "neg" => EsKind::Neg(value),
        "typeof" => EsKind::Typeof(value),
        _ => EsKind::Delete(value),
    }
}

fn joined(form: &str, left: EsExpr, right: EsExpr) -> EsKind {
    match form {
        "and" => EsKind::And(left, right),
        "or" => EsKind::Or(left, right),
        _ => EsKind::Assign(left, right),
    }
}

fn operator(word: &str) -> Operator {
    match word {
        "same" => Operator::Same,
        "different" => Operator::Different,
        "less" => Operator::Less,
        "greater" => Operator::Greater,
        "less-or-equal" => Operator::LessOrEqual,
        "greater-or-equal" => Operator::GreaterOrEqual,
        "add" => Operator::Add,
        "subtract" => Operator::Subtract,
        "multiply" => Operator::Multiply,
        "divide" => Operator::Divide,
        _ => Operator::Remainder,
    }
}

impl<'a> Reader<'a> {
    pub fn new(alloc: Global, rest: &'a str) -> Reader<'a> {
        Reader { alloc, rest }
    }

    /// The script of one statement.
    pub fn script(&mut self) -> Read<Script> {
        let mut body = EsStmts::new(self.alloc);
        body.push(self.stmt(LEVELS)?)?;
        Ok(Script { body })
    }

    fn word(&mut self) -> &'a str {
        let (word, rest) = self.rest.split_once(' ').unwrap_or((self.rest, ""));
        self.rest = rest;
        word
    }

    // Whether this word stands next, which is taken then.
    fn takes(&mut self, word: &str) -> bool {
        let (next, rest) = self.rest.split_once(' ').unwrap_or((self.rest, ""));
        if next == word {
            self.rest = rest;
            return true;
        }
        false
    }

    // Whether a list ends, or the text.
    fn ends(&mut self) -> bool {
        self.takes(")") || self.rest.is_empty()
    }

    fn number(&mut self) -> i64 {
        self.word().parse::<i64>().unwrap_or(0)
    }

    fn units(&mut self) -> Read<Units> {
        let word = self.word();
        let text = if word == "''" { "" } else { word };
        match utf8_to_units(self.alloc, text.as_bytes()) {
            Ok(units) => Ok(units),
            Err(_) => Err(AllocError),
        }
    }

    fn names(&mut self) -> Read<Names> {
        let mut names = Names::new(self.alloc);
        let _bracket = self.word();
        for _ in 0..MOST {
            if self.ends() {
                return Ok(names);
            }
            if names.push(self.units()?).is_err() {
                return Err(AllocError);
            }
        }
        Ok(names)
    }

    fn place(&mut self) -> Pos {
        let line = self.word().parse::<u32>().unwrap_or(0);
        let col = self.word().parse::<u32>().unwrap_or(0);
        Pos { line, col }
    }

    fn leaf(&mut self, form: &str) -> Read<EsKind> {
        match form {
            "num" => match SafeInt::new(self.number()) {
                Some(value) => Ok(EsKind::Num(value)),
                None => Ok(EsKind::Null),
            },
            "str" => Ok(EsKind::Str(self.units()?)),
            "true" => Ok(EsKind::True),
            "false" => Ok(EsKind::False),
            "this" => Ok(EsKind::This),
            "name" => Ok(EsKind::Name(self.units()?)),
            _ => Ok(EsKind::Null),
        }
    }

    #[cycle(read)]
    fn expr(&mut self, depth: u32) -> Read<EsExpr> {
        let kind = if depth == 0 {
            EsKind::Null
        } else {
            self.kind(depth - 1)?
        };
        Ok(EsExpr {
            kind: Boxed::new(self.alloc, kind)?,
            origin: None,
            pos: NOWHERE,
        })
    }

    #[cycle(read)]
    fn kind(&mut self, depth: u32) -> Read<EsKind> {
        let form = self.word();
        match form {
            "array" => Ok(EsKind::Array(self.exprs(depth)?)),
            "object" => self.object(depth),
            "function" => self.function(depth),
            "member" | "index" => self.access(form, depth),
            "call" => self.call(depth),
            "not" | "neg" | "typeof" | "delete" => Ok(prefixed(form, self.expr(depth)?)),
            "binary" => self.binary(depth),
            "and" | "or" | "assign" => self.pair(form, depth),
            "cond" => self.cond(depth),
            _ => self.leaf(form),
        }
    }

    #[cycle(read)]
    fn exprs(&mut self, depth: u32) -> Read<Items<EsExpr>> {
        let mut items = Items::new(self.alloc);
        let _bracket = self.word();
        for _ in 0..MOST {
            if self.ends() {
                return Ok(items);
            }
            items.push(self.expr(depth)?)?;
        }
        Ok(items)
    }

    #[cycle(read)]
    fn object(&mut self, depth: u32) -> Read<EsKind> {
        let keys = self.names()?;
        let values = self.exprs(depth)?;
        Ok(EsKind::Object { keys, values })
    }

    #[cycle(read)]
    fn function(&mut self, depth: u32) -> Read<EsKind> {
        let name = if self.takes("-") {
            None
        } else {
            Some(self.units()?)
        };
        let params = self.names()?;
        let body = self.stmts(depth)?;
        Ok(EsKind::Function { name, params, body })
    }

    #[cycle(read)]
    fn access(&mut self, form: &str, depth: u32) -> Read<EsKind> {
        let base = self.expr(depth)?;
        if form == "member" {
            let name = self.units()?;
            return Ok(EsKind::Member(base, name, self.place()));
        }
        let key = self.expr(depth)?;
        Ok(EsKind::Index(base, key, self.place()))
    }

    #[cycle(read)]
    fn call(&mut self, depth: u32) -> Read<EsKind> {
        let callee = self.expr(depth)?;
        let args = self.exprs(depth)?;
        Ok(EsKind::Call(callee, args))
    }

    #[cycle(read)]
    fn binary(&mut self, depth: u32) -> Read<EsKind> {
        let operator = operator(self.word());
        let left = self.expr(depth)?;
        let right = self.expr(depth)?;
        Ok(EsKind::Binary(operator, left, right))
    }

    #[cycle(read)]
    fn pair(&mut self, form: &str, depth: u32) -> Read<EsKind> {
        let left = self.expr(depth)?;
        let right = self.expr(depth)?;
        Ok(joined(form, left, right))
    }

    #[cycle(read)]
    fn cond(&mut self, depth: u32) -> Read<EsKind> {
        let test = self.expr(depth)?;
        let first = self.expr(depth)?;
        let second = self.expr(depth)?;
        Ok(EsKind::Cond(test, first, second))
    }

    #[cycle(read)]
    fn optional(&mut self, depth: u32) -> Read<Option<EsExpr>> {
        if self.takes("-") {
            return Ok(None);
        }
        Ok(Some(self.expr(depth)?))
    }

    #[cycle(read)]
    fn stmt(&mut self, depth: u32) -> Read<EsStmt> {
        if depth == 0 {
            return Ok(EsStmt::Empty);
        }
        self.form(depth - 1)
    }

    #[cycle(read)]
    fn form(&mut self, depth: u32) -> Read<EsStmt> {
        match self.word() {
            "var" => {
                let name = self.units()?;
                Ok(EsStmt::Var(name, self.optional(depth)?))
            }
            "expr" => Ok(EsStmt::Expr(self.expr(depth)?)),
            "block" => Ok(EsStmt::Block(self.stmts(depth)?)),
            "if" => self.branch(depth),
            "while" => {
                let test = self.expr(depth)?;
                Ok(EsStmt::While(test, self.boxed(depth)?))
            }
            "return" => Ok(EsStmt::Return(self.optional(depth)?)),
            "break" => Ok(EsStmt::Break),
            "continue" => Ok(EsStmt::Continue),
            "throw" => Ok(EsStmt::Throw(self.expr(depth)?)),
            "try" => self.attempt(depth),
            _ => Ok(EsStmt::Empty),
        }
    }

    #[cycle(read)]
    fn boxed(&mut self, depth: u32) -> Read<Boxed<EsStmt>> {
        let stmt = self.stmt(depth)?;
        Boxed::new(self.alloc, stmt)
    }

    #[cycle(read)]
    fn stmts(&mut self, depth: u32) -> Read<EsStmts> {
        let mut body = EsStmts::new(self.alloc);
        let _bracket = self.word();
        for _ in 0..MOST {
            if self.ends() {
                return Ok(body);
            }
            body.push(self.stmt(depth)?)?;
        }
        Ok(body)
    }

    #[cycle(read)]
    fn branch(&mut self, depth: u32) -> Read<EsStmt> {
        let test = self.expr(depth)?;
        let first = self.boxed(depth)?;
        if self.takes("-") {
            return Ok(EsStmt::If(test, first, None));
        }
        let second = self.boxed(depth)?;
        Ok(EsStmt::If(test, first, Some(second)))
    }

    #[cycle(read)]
    fn catch(&mut self, depth: u32) -> Read<Option<Catch>> {
        if self.takes("-") {
            return Ok(None);
        }
        let name = self.units()?;
        let body = self.stmts(depth)?;
        Ok(Some(Catch { name, body }))
    }

    #[cycle(read)]
    fn attempt(&mut self, depth: u32) -> Read<EsStmt> {
        let body = self.stmts(depth)?;
        let catch = self.catch(depth)?;
        let finally = if self.takes("-") {
            None
        } else {
            Some(self.stmts(depth)?)
        };
        Ok(EsStmt::Try {
            body,
            catch,
            finally,
        })
    }
}
