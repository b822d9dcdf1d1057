//! Scripts as trees, made up from numbers that look random and are the same in each run.

ghost use Rattle.std.specs.Prelude.{◌<◌};

use es5_tree::{Catch, EsExpr, EsKind, EsStmt, EsStmts, Operator, SafeInt, Script, word_units};
use opal_base::{Names, Pos, Units};
use sqlite_items::{Boxed, Items};
use std::alloc::{AllocError, Global};

type Made<T> = Result<T, AllocError>;

/// The most levels of statements and expressions of a script.
const LEVELS: u32 = 5;

const NOWHERE: Pos = Pos { line: 0, col: 0 };

/// A modulus and a factor for which `x * FACTOR % MODULUS` goes through all numbers from 1 to
/// `MODULUS - 1`.
const MODULUS: usize = 2_147_483_647;

const FACTOR: usize = 48_271;

/// Names; the last one names no variable.
const NAMES: [&[u8]; 8] = [
    b"a",
    b"b1",
    b"$",
    b"_y",
    b"constructor",
    b"length",
    b"__proto__",
    b"arguments",
];

/// Units of texts: plain ones, those that are escaped, and surrogates.
const UNITS: [u16; 16] = [
    97, 32, 34, 39, 92, 10, 13, 9, 0, 31, 117, 127, 233, 0x2028, 0xD83D, 0xDE00,
];

const NUMBERS: [i64; 4] = [0, 1, 10, SafeInt::MAX];

const OPERATORS: [Operator; 11] = [
    Operator::Same,
    Operator::Different,
    Operator::Less,
    Operator::Greater,
    Operator::LessOrEqual,
    Operator::GreaterOrEqual,
    Operator::Add,
    Operator::Subtract,
    Operator::Multiply,
    Operator::Divide,
    Operator::Remainder,
];

/// What stands around a statement.
#[derive(Clone, Copy)]
struct Around {
    in_function: bool,
    in_loop: bool,
    /// An `else` follows, which an `if` without one would take.
    before_else: bool,
}

/// Makes up scripts. Each is spellable.
#[derive(Drop)]
pub struct Generator {
    alloc: Global,
    state: usize,
}

impl Generator {
    pub fn new(alloc: Global) -> Generator {
        Generator { alloc, state: 1 }
    }

    /// Another script, or `AllocError`.
    pub fn script(&mut self) -> Made<Script> {
        let around = Around {
            in_function: false,
            in_loop: false,
            before_else: false,
        };
        let mut body = self.stmts(LEVELS, around)?;
        body.push(self.stmt(LEVELS, around)?)?;
        Ok(Script { body })
    }

    // A number below a bound.
    fn below(&mut self, bound: usize) -> usize
        requires { 0 < bound }
        ensures { result < bound }
    {
        self.state = self.state % MODULUS * FACTOR % MODULUS;
        self.state / 64 % bound
    }

    fn word(&self, word: &[u8]) -> Made<Units> {
        match word_units(self.alloc, word) {
            Ok(name) => Ok(name),
            Err(_) => Err(AllocError),
        }
    }

    fn name(&mut self) -> Made<Units> {
        let at = self.below(NAMES.len());
        self.word(NAMES[at])
    }

    // The name of a variable.
    fn binding(&mut self) -> Made<Units> {
        let at = self.below(NAMES.len() - 1);
        self.word(NAMES[at])
    }

    // Up to three names of variables, none twice.
    fn names(&mut self) -> Made<Names> {
        let mut names = Names::new(self.alloc);
        let first = self.below(5);
        let count = self.below(4);
        for at in first..first + count {
            if names.push(self.word(NAMES[at])?).is_err() {
                return Err(AllocError);
            }
        }
        Ok(names)
    }

    fn text(&mut self) -> Made<Units> {
        let mut text = Units::new(self.alloc);
        for _ in 0..self.below(5) {
            if text.push(UNITS[self.below(UNITS.len())]).is_err() {
                return Err(AllocError);
            }
        }
        Ok(text)
    }

    fn node(&self, kind: EsKind) -> Made<EsExpr> {
        Ok(EsExpr {
            kind: Boxed::new(self.alloc, kind)?,
            origin: None,
            pos: NOWHERE,
        })
    }

    fn leaf(&mut self) -> Made<EsKind> {
        match self.below(10) {
            0 => Ok(EsKind::True),
            1 => Ok(EsKind::False),
            2 => Ok(EsKind::Null),
            3 => Ok(EsKind::This),
            4 => Ok(EsKind::Str(self.text()?)),
            5 | 6 => match SafeInt::new(NUMBERS[self.below(NUMBERS.len())]) {
                Some(number) => Ok(EsKind::Num(number)),
                None => Ok(EsKind::Null),
            },
            _ => Ok(EsKind::Name(self.name()?)),
        }
    }

    fn prefixed(&mut self, value: EsExpr) -> Made<EsKind> {
        match self.below(4) {
            0 => Ok(EsKind::Not(value)),
            1 => Ok(EsKind::Typeof(value)),
            2 => Ok(EsKind::Neg(value)),
            _ => Ok(EsKind::Neg(self.node(EsKind::Neg(value))?)),
        }
    }

    // A member or an index.
    fn access(&mut self, base: EsExpr, key: EsExpr) -> Made<EsKind> {
        match self.below(2) {
            0 => Ok(EsKind::Member(base, self.name()?, NOWHERE)),
            _ => Ok(EsKind::Index(base, key, NOWHERE)),
        }
    }

    // A member or an index, or its deletion, or a value set to it or to a variable.
    fn use_of_place(&mut self, base: EsExpr, key: EsExpr, value: EsExpr) -> Made<EsKind> {
        match self.below(5) {
            0 => {
                let place = self.access(base, key)?;
                Ok(EsKind::Delete(self.node(place)?))
            }
            1 => {
                let place = self.access(base, key)?;
                Ok(EsKind::Assign(self.node(place)?, value))
            }
            2 => {
                let name = self.binding()?;
                Ok(EsKind::Assign(self.node(EsKind::Name(name))?, value))
            }
            _ => self.access(base, key),
        }
    }

    fn joined(&mut self, left: EsExpr, right: EsExpr) -> Made<EsKind> {
        match self.below(9) {
            0 => Ok(EsKind::And(left, right)),
            1 => Ok(EsKind::Or(left, right)),
            2 => {
                let right = self.node(EsKind::Neg(right))?;
                Ok(EsKind::Binary(Operator::Subtract, left, right))
            }
            _ => {
                let operator = OPERATORS[self.below(OPERATORS.len())];
                Ok(EsKind::Binary(operator, left, right))
            }
        }
    }

    // An expression with at most so many levels below it.
    #[cycle(grow)]
    fn expr(&mut self, depth: u32) -> Made<EsExpr> {
        let kind = if depth == 0 {
            self.leaf()?
        } else {
            self.form(depth - 1)?
        };
        self.node(kind)
    }

    #[cycle(grow)]
    fn form(&mut self, depth: u32) -> Made<EsKind> {
        match self.below(12) {
            0 | 1 => self.leaf(),
            2 | 3 => self.with_list(depth),
            4 => {
                let value = self.expr(depth)?;
                self.prefixed(value)
            }
            5 | 6 => {
                let base = self.expr(depth)?;
                let key = self.expr(depth)?;
                let value = self.expr(depth)?;
                self.use_of_place(base, key, value)
            }
            7 => {
                let test = self.expr(depth)?;
                let yes = self.expr(depth)?;
                Ok(EsKind::Cond(test, yes, self.expr(depth)?))
            }
            _ => {
                let left = self.expr(depth)?;
                let right = self.expr(depth)?;
                self.joined(left, right)
            }
        }
    }

    #[cycle(grow)]
    fn with_list(&mut self, depth: u32) -> Made<EsKind> {
        match self.below(6) {
            0 => {
                let count = self.below(4);
                Ok(EsKind::Array(self.exprs(depth, count)?))
            }
            1 => {
                let keys = self.names()?;
                let values = self.exprs(depth, keys.len())?;
                Ok(EsKind::Object { keys, values })
            }
            2 => self.function(depth),
            3 => {
                let function = self.function(depth)?;
                Ok(EsKind::Call(self.node(function)?, Items::new(self.alloc)))
            }
            _ => {
                let callee = self.expr(depth)?;
                let count = self.below(3);
                Ok(EsKind::Call(callee, self.exprs(depth, count)?))
            }
        }
    }

    #[cycle(grow)]
    fn exprs(&mut self, depth: u32, count: usize) -> Made<Items<EsExpr>> {
        let mut exprs = Items::new(self.alloc);
        for _ in 0..count {
            exprs.push(self.expr(depth)?)?;
        }
        Ok(exprs)
    }

    #[cycle(grow)]
    fn function(&mut self, depth: u32) -> Made<EsKind> {
        let name = match self.below(2) {
            0 => Some(self.binding()?),
            _ => None,
        };
        let params = self.names()?;
        let around = Around {
            in_function: true,
            in_loop: false,
            before_else: false,
        };
        let body = self.stmts(depth, around)?;
        Ok(EsKind::Function { name, params, body })
    }

    // Up to three statements.
    #[cycle(grow)]
    fn stmts(&mut self, depth: u32, around: Around) -> Made<EsStmts> {
        let around = Around {
            before_else: false,
            ..around
        };
        let mut stmts = EsStmts::new(self.alloc);
        for _ in 0..self.below(4) {
            stmts.push(self.stmt(depth, around)?)?;
        }
        Ok(stmts)
    }

    #[cycle(grow)]
    fn stmt(&mut self, depth: u32, around: Around) -> Made<EsStmt> {
        if depth == 0 {
            return Ok(self.jump(around));
        }
        let depth = depth - 1;
        match self.below(12) {
            0 => Ok(self.jump(around)),
            1 => Ok(EsStmt::Var(self.binding()?, None)),
            2 => {
                let name = self.binding()?;
                Ok(EsStmt::Var(name, Some(self.expr(depth)?)))
            }
            3 => Ok(EsStmt::Block(self.stmts(depth, around)?)),
            4 => Ok(EsStmt::Throw(self.expr(depth)?)),
            5 if around.in_function => Ok(EsStmt::Return(Some(self.expr(depth)?))),
            6 | 7 => self.branch(depth, around),
            8 => self.attempt(depth, around),
            _ => Ok(EsStmt::Expr(self.expr(depth)?)),
        }
    }

    // A statement without parts.
    fn jump(&mut self, around: Around) -> EsStmt {
        match self.below(4) {
            0 if around.in_loop => EsStmt::Break,
            1 if around.in_loop => EsStmt::Continue,
            2 if around.in_function => EsStmt::Return(None),
            _ => EsStmt::Empty,
        }
    }

    #[cycle(grow)]
    fn branch(&mut self, depth: u32, around: Around) -> Made<EsStmt> {
        let test = self.expr(depth)?;
        match self.below(3) {
            0 => {
                let around = Around {
                    in_loop: true,
                    ..around
                };
                let body = self.stmt(depth, around)?;
                Ok(EsStmt::While(test, Boxed::new(self.alloc, body)?))
            }
            1 if !around.before_else => {
                let first = self.stmt(depth, around)?;
                Ok(EsStmt::If(test, Boxed::new(self.alloc, first)?, None))
            }
            _ => {
                let before_else = Around {
                    before_else: true,
                    ..around
                };
                let first = self.stmt(depth, before_else)?;
                let first = Boxed::new(self.alloc, first)?;
                let second = self.stmt(depth, around)?;
                Ok(EsStmt::If(test, first, Some(Boxed::new(self.alloc, second)?)))
            }
        }
    }

    // A `try` statement in one of its three forms.
    #[cycle(grow)]
    fn attempt(&mut self, depth: u32, around: Around) -> Made<EsStmt> {
        let form = self.below(3);
        let body = self.stmts(depth, around)?;
        let catch = match form {
            0 => None,
            _ => Some(Catch {
                name: self.binding()?,
                body: self.stmts(depth, around)?,
            }),
        };
        let finally = match form {
            1 => None,
            _ => Some(self.stmts(depth, around)?),
        };
        Ok(EsStmt::Try {
            body,
            catch,
            finally,
        })
    }
}
