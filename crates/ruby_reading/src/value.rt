//! What the parser's functions give.

ghost use Rattle.std.specs.Prelude.{◌≡◌, nat_eq};
ghost use Rattle.ruby_reading.specs.Shown.{written_code};

use crate::args::Args;
use ruby_meaning::Node;

/// How a value was written.
#[derive(Clone, Copy, Debug, PartialEq, Eq)]
pub enum Written {
    /// As none of the others tells.
    Other,
    /// A name or a variable that can be set.
    Variable,
    /// A name that ends in `?` or `!`, without arguments and block.
    Asking,
    /// `receiver.name`, without arguments and block.
    Attribute,
    /// Such a method that isn't named by a plain name.
    Method,
    /// `receiver[args]` without a block pass.
    Indexed,
    /// A comparison that takes no other behind it.
    Compared,
    /// A command with arguments, which isn't an argument itself.
    Commanded,
    /// `begin` .. `end`
    Begun,
    /// `yield` without arguments.
    Yielding,
}

impl Written {
    fn code(self) -> u8
        ensures { result ≡ written_code self }
    {
        match self {
            Written::Other => 0,
            Written::Variable => 1,
            Written::Asking => 2,
            Written::Attribute => 3,
            Written::Method => 4,
            Written::Indexed => 5,
            Written::Compared => 6,
            Written::Commanded => 7,
            Written::Begun => 8,
            Written::Yielding => 9,
        }
    }

    pub fn is(self, other: Written) -> bool
        ensures { result ≡ nat_eq (written_code self) (written_code other) }
    {
        self.code() == other.code()
    }
}

/// A value.
#[derive(Drop)]
pub struct Value {
    pub node: Node,
    pub written: Written,
}

/// Statements, or none of them where the text has none.
#[derive(Drop)]
pub struct Body {
    pub node: Node,
    pub absent: bool,
}

/// What a production gives.
#[derive(Drop)]
pub enum Reading {
    Tree(Node),
    Value(Value),
    Body(Body),
    Args(Args),
}
