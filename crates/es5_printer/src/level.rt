//! How tightly the forms of expressions bind (ECMA-262 5.1, section 11).

ghost use Rattle.std.specs.Prelude.{◌≡◌, nat_le};
ghost use Rattle.es5_printer.specs.Levels as spec;

use es5_tree::Operator;

/// From the loosest on.
#[derive(Clone, Copy, Debug, PartialEq, Eq)]
pub enum Level {
    Assignment,
    Conditional,
    Or,
    And,
    Equality,
    Relational,
    Additive,
    Multiplicative,
    Unary,
    /// `-` before a value.
    Negation,
    Numeral,
    Call,
    Primary,
}

impl Level {
    fn tightness(self) -> u8
        ensures { result ≡ spec.tightness self }
    {
        match self {
            Level::Assignment => 0,
            Level::Conditional => 1,
            Level::Or => 2,
            Level::And => 3,
            Level::Equality => 4,
            Level::Relational => 5,
            Level::Additive => 6,
            Level::Multiplicative => 7,
            Level::Unary => 8,
            Level::Negation => 9,
            Level::Numeral => 10,
            Level::Call => 11,
            Level::Primary => 12,
        }
    }

    /// Whether a form of the other level can stand where one of this is wanted.
    pub fn takes(self, other: Level) -> bool
        ensures { result ≡ nat_le (spec.tightness self) (spec.tightness other) }
    {
        self.tightness() <= other.tightness()
    }
}

/// The level of a binary operator's node, which is that of its left side.
pub fn of_operator(operator: Operator) -> Level
    ensures { result ≡ spec.of_operator operator }
{
    match operator {
        Operator::Same | Operator::Different => Level::Equality,
        Operator::Less | Operator::Greater | Operator::LessOrEqual | Operator::GreaterOrEqual =>
            Level::Relational,
        Operator::Add | Operator::Subtract => Level::Additive,
        Operator::Multiply | Operator::Divide | Operator::Remainder => Level::Multiplicative,
    }
}

/// The level of its right side.
pub fn of_right(operator: Operator) -> Level
    ensures { result ≡ spec.of_right operator }
{
    match operator {
        Operator::Same | Operator::Different => Level::Relational,
        Operator::Less | Operator::Greater | Operator::LessOrEqual | Operator::GreaterOrEqual =>
            Level::Additive,
        Operator::Add | Operator::Subtract => Level::Multiplicative,
        Operator::Multiply | Operator::Divide | Operator::Remainder => Level::Unary,
    }
}
