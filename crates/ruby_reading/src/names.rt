//! The productions of the grammar that hold one another. The functions of the others take the one
//! that reads those as a parameter, so that each is proved by itself.

ghost use Rattle.std.specs.Prelude.{◌≡◌, ◌<◌, ◌-◌, ◌^◌, suc, true, false};
ghost use Rattle.ruby_meaning.specs.declared.production.Production.TheVariants as p;
ghost use Rattle.ruby_meaning.specs.Grammar.Names.{part};
ghost use Rattle.ruby_meaning.specs.Grammar.Table.{table};
ghost use Rattle.grammar.specs.Readers.{read_named};
ghost use Rattle.ruby_reading.specs.Ahead.{ahead, GivesNode};
ghost use Rattle.ruby_reading.specs.Named.{Nests, NestsBelow, GivesBody, GivesValue, GivesArgs, GivesPart, is_read, production_of, read_plain, read_tree};

use crate::args::Args;
use crate::cursor::Cursor;
use crate::value::{Body, Reading, Value, Written};
use descent::Fail;
use ruby_meaning::{Node, Part, Production};
use std::alloc::Global;

/// A production that gives a node.
#[derive(Clone, Copy, Debug, PartialEq, Eq)]
pub enum Tree {
    Statement,
    Expression,
    NotExpression,
    RightSide,
    Argument,
    Ternary,
    RangeOperand,
    OrOperand,
    AndOperand,
    EqualityOperand,
    ComparisonOperand,
    ShiftOperand,
    SumOperand,
    ProductOperand,
    PowerOperand,
    NotOperand,
}

fn production_of(tree: Tree) -> Production
    ensures { result ≡ production_of tree }
{
    match tree {
        Tree::Statement => Production::Statement,
        Tree::Expression => Production::Expression,
        Tree::NotExpression => Production::NotExpression,
        Tree::RightSide => Production::RightSide,
        Tree::Argument => Production::Argument,
        Tree::Ternary => Production::Ternary,
        Tree::RangeOperand => Production::RangeOperand,
        Tree::OrOperand => Production::OrOperand,
        Tree::AndOperand => Production::AndOperand,
        Tree::EqualityOperand => Production::EqualityOperand,
        Tree::ComparisonOperand => Production::ComparisonOperand,
        Tree::ShiftOperand => Production::ShiftOperand,
        Tree::SumOperand => Production::SumOperand,
        Tree::ProductOperand => Production::ProductOperand,
        Tree::PowerOperand => Production::PowerOperand,
        Tree::NotOperand => Production::NotOperand,
    }
}

/// Reads the rules of the grammar, where a node that is made here has `depth` levels below it.
#[derive(Clone, Copy)]
pub struct Parser<F> {
    pub alloc: Global,
    pub depth: u32,
    pub takes_do: bool,
    pub in_rescue: bool,
    pub names: F,
}

impl<F: Fn(Global, &mut Cursor<'_>, Part, u32) -> Result<Reading, Fail> + Copy> Parser<F> {
    /// One level further down.
    pub fn below(&self) -> Parser<F>
        requires { 0 < self.now.depth }
        ensures { result ≡ record { alloc = self.now.alloc; depth = self.now.depth - 1; takes_do = self.now.takes_do; in_rescue = self.now.in_rescue; names = self.now.names } }
    {
        Parser {
            alloc: self.alloc,
            depth: self.depth - 1,
            takes_do: self.takes_do,
            in_rescue: self.in_rescue,
            names: self.names,
        }
    }

    /// With `do` blocks taken or not.
    pub fn with_do(&self, takes_do: bool) -> Parser<F>
        ensures { result ≡ record { alloc = self.now.alloc; depth = self.now.depth; takes_do = takes_do; in_rescue = self.now.in_rescue; names = self.now.names } }
    {
        Parser {
            alloc: self.alloc,
            depth: self.depth,
            takes_do,
            in_rescue: self.in_rescue,
            names: self.names,
        }
    }

    /// Outside of rescue clauses.
    pub fn outside_rescue(&self) -> Parser<F>
        ensures { result ≡ record { alloc = self.now.alloc; depth = self.now.depth; takes_do = self.now.takes_do; in_rescue = false; names = self.now.names } }
    {
        Parser {
            alloc: self.alloc,
            depth: self.depth,
            takes_do: self.takes_do,
            in_rescue: false,
            names: self.names,
        }
    }

    /// What a production gives, one level below.
    pub fn named(&self, cursor: &mut Cursor<'_>, part: Part) -> Result<Reading, Fail>
        requires below { Nests self.now.depth (F.pre self.now.names) (F.post self.now.names) }
        requires read { is_read part.production ≡ true }
        ensures { GivesPart part (read_named table self.now.depth part (ahead cursor.old)) result (ahead cursor.new) }
    {
        (self.names)(self.alloc, cursor, part, self.depth)
    }

    /// What a production gives that gives a node, one level below.
    #[tactic(auto, using(crate::proofs::Named::tree_is_read))]
    pub fn tree(&self, cursor: &mut Cursor<'_>, tree: Tree, takes_do: bool) -> Result<Node, Fail>
        requires below { Nests self.now.depth (F.pre self.now.names) (F.post self.now.names) }
        ensures { GivesNode (read_tree tree takes_do self.now.in_rescue self.now.depth (ahead cursor.old)) result (ahead cursor.new) }
    {
        let part = Part {
            production: production_of(tree),
            takes_do,
            in_rescue: self.in_rescue,
        };
        match self.named(cursor, part) {
            Ok(Reading::Tree(node)) => Ok(node),
            Ok(_) => Err(Fail::Refused),
            Err(fail) => Err(fail),
        }
    }

    /// A statement, one level below.
    pub fn next_statement(&self, cursor: &mut Cursor<'_>) -> Result<Node, Fail>
        requires below { NestsBelow self.now.depth (F.pre self.now.names) (F.post self.now.names) }
        ensures { GivesNode (read_named table self.now.depth (part p.Statement true self.now.in_rescue) (ahead cursor.old)) result (ahead cursor.new) }
    {
        let part = Part {
            production: Production::Statement,
            takes_do: true,
            in_rescue: self.in_rescue,
        };
        match (self.names)(self.alloc, cursor, part, self.depth)? {
            Reading::Tree(node) => Ok(node),
            _ => Err(Fail::Refused),
        }
    }

    /// A value that nothing tells of.
    pub fn plain(&self, cursor: &mut Cursor<'_>, tree: Tree, takes_do: bool) -> Result<Value, Fail>
        requires below { Nests self.now.depth (F.pre self.now.names) (F.post self.now.names) }
        ensures { GivesValue (read_plain tree takes_do self.now.in_rescue self.now.depth (ahead cursor.old)) result (ahead cursor.new) }
    {
        Ok(Value {
            node: self.tree(cursor, tree, takes_do)?,
            written: Written::Other,
        })
    }

    /// A value, one level below.
    pub fn one_value(&self, cursor: &mut Cursor<'_>) -> Result<Value, Fail>
        requires below { Nests self.now.depth (F.pre self.now.names) (F.post self.now.names) }
        ensures { GivesValue (read_named table self.now.depth (part p.OneValue self.now.takes_do self.now.in_rescue) (ahead cursor.old)) result (ahead cursor.new) }
    {
        let part = Part {
            production: Production::OneValue,
            takes_do: self.takes_do,
            in_rescue: self.in_rescue,
        };
        match (self.names)(self.alloc, cursor, part, self.depth)? {
            Reading::Value(value) => Ok(value),
            _ => Err(Fail::Refused),
        }
    }

    /// What stands behind the `=` of an assignment on a right side, one level below.
    pub fn nested_value(&self, cursor: &mut Cursor<'_>) -> Result<Value, Fail>
        requires below { Nests self.now.depth (F.pre self.now.names) (F.post self.now.names) }
        ensures { GivesValue (read_named table self.now.depth (part p.NestedValue self.now.takes_do self.now.in_rescue) (ahead cursor.old)) result (ahead cursor.new) }
    {
        let part = Part {
            production: Production::NestedValue,
            takes_do: self.takes_do,
            in_rescue: self.in_rescue,
        };
        match (self.names)(self.alloc, cursor, part, self.depth)? {
            Reading::Value(value) => Ok(value),
            _ => Err(Fail::Refused),
        }
    }

    /// The arguments of a command, one level below.
    pub fn command_arguments(
        &self,
        cursor: &mut Cursor<'_>,
        blocks: bool,
        takes_do: bool,
    ) -> Result<Args, Fail>
        requires below { Nests self.now.depth (F.pre self.now.names) (F.post self.now.names) }
        ensures { GivesArgs (read_named table self.now.depth (part (p.CommandArguments blocks) takes_do self.now.in_rescue) (ahead cursor.old)) result (ahead cursor.new) }
    {
        let part = Part {
            production: Production::CommandArguments(blocks),
            takes_do,
            in_rescue: self.in_rescue,
        };
        match (self.names)(self.alloc, cursor, part, self.depth)? {
            Reading::Args(args) => Ok(args),
            _ => Err(Fail::Refused),
        }
    }

    /// Arguments in brackets, one level below.
    pub fn bracket_arguments(&self, cursor: &mut Cursor<'_>, blocks: bool) -> Result<Args, Fail>
        requires below { Nests self.now.depth (F.pre self.now.names) (F.post self.now.names) }
        ensures { GivesArgs (read_named table self.now.depth (part (p.Arguments blocks) true self.now.in_rescue) (ahead cursor.old)) result (ahead cursor.new) }
    {
        let part = Part {
            production: Production::Arguments(blocks),
            takes_do: true,
            in_rescue: self.in_rescue,
        };
        match (self.names)(self.alloc, cursor, part, self.depth)? {
            Reading::Args(args) => Ok(args),
            _ => Err(Fail::Refused),
        }
    }

    /// Statements, one level below.
    pub fn statements(&self, cursor: &mut Cursor<'_>, in_rescue: bool) -> Result<Body, Fail>
        requires below { Nests self.now.depth (F.pre self.now.names) (F.post self.now.names) }
        ensures { GivesBody (read_named table self.now.depth (part p.Statements true in_rescue) (ahead cursor.old)) result (ahead cursor.new) }
    {
        let part = Part {
            production: Production::Statements,
            takes_do: true,
            in_rescue,
        };
        match (self.names)(self.alloc, cursor, part, self.depth)? {
            Reading::Body(body) => Ok(body),
            _ => Err(Fail::Refused),
        }
    }

    /// Statements at the level of a node that is made here.
    pub fn statements_here(&self, cursor: &mut Cursor<'_>) -> Result<Body, Fail>
        requires below { Nests self.now.depth (F.pre self.now.names) (F.post self.now.names) }
        ensures { GivesBody (read_named table (suc self.now.depth) (part p.Statements true self.now.in_rescue) (ahead cursor.old)) result (ahead cursor.new) }
    {
        let part = Part {
            production: Production::Statements,
            takes_do: true,
            in_rescue: self.in_rescue,
        };
        let levels = self.depth + 1;
        match (self.names)(self.alloc, cursor, part, levels)? {
            Reading::Body(body) => Ok(body),
            _ => Err(Fail::Refused),
        }
    }
}
