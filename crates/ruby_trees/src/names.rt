//! The names of forms that have no parts or differ in a word.

use ruby_meaning::{JumpKind, Literal, Operator};

pub fn literal_name(literal: Literal) -> &'static str {
    match literal {
        Literal::Nil => "nil",
        Literal::True => "true",
        Literal::False => "false",
        Literal::BlockGiven => "block_given?",
    }
}

pub fn jump_name(kind: JumpKind) -> &'static str {
    match kind {
        JumpKind::Break => "break",
        JumpKind::Next => "next",
        JumpKind::Return => "return",
    }
}

pub fn operator_name(operator: Operator) -> &'static str {
    match operator {
        Operator::Add => "+",
        Operator::Sub => "-",
        Operator::Mul => "*",
        Operator::Div => "/",
        Operator::Mod => "%",
        Operator::Pow => "**",
        Operator::ShiftLeft => "<<",
        Operator::Or => "||",
        Operator::And => "&&",
    }
}
