//! Completions, and what waits for them.

use es5_code::NodeId;
use es5_host::EsValues;
use es5_objects::{EsText, EsValue};
use es5_tree::Operator;
use opal_base::Pos;

/// What an expression refers to (8.7): a variable, or a property of a value.
#[derive(Drop)]
pub enum Place {
    Variable(EsText),
    Property(EsValue, EsText),
}

/// How a node ends (8.9).
#[derive(Drop)]
pub enum Completion {
    Normal(EsValue),
    Refers(Place),
    Return(EsValue),
    Throw(EsValue),
    Break,
    Continue,
}

/// What is asked of a member: its value, or its place.
#[derive(Clone, Copy, Drop)]
pub enum Wanted {
    Value,
    Place,
}

/// What is done with the values of a list of expressions.
#[derive(Drop)]
pub enum Gathering {
    Arguments {
        function: EsValue,
        this: EsValue,
        pos: Pos,
    },
    Elements,
    /// The values of the object expression of this number.
    Properties(NodeId),
}

/// The part of a `try` that takes what was thrown: a name, and the list of its statements.
#[derive(Drop)]
pub struct Handler {
    pub name: EsText,
    pub body: NodeId,
}

/// What waits for the end of a node.
#[derive(Drop)]
pub enum Frame {
    Access(AccessFrame),
    Call(CallFrame),
    Operator(OperatorFrame),
    Statement(StatementFrame),
    Try(TryFrame),
    Scope(ScopeFrame),
}

/// Parts of members and indices.
#[derive(Drop)]
pub enum AccessFrame {
    /// The base of a member.
    Member(EsText, Wanted),
    /// The base, whose key begins next.
    Base {
        key: NodeId,
        pos: Pos,
        wanted: Wanted,
    },
    /// The key.
    Key {
        base: EsValue,
        pos: Pos,
        wanted: Wanted,
    },
}

/// Parts of calls, and of lists of expressions.
#[derive(Drop)]
pub enum CallFrame {
    /// The callee's place or value, to which the list of arguments belongs.
    Callee {
        args: NodeId,
        pos: Pos,
    },
    /// The callee's value.
    Function {
        this: EsValue,
        args: NodeId,
        pos: Pos,
    },
    /// An element of a list behind these values, of which `next` is the next.
    Gather {
        gathering: Gathering,
        list: NodeId,
        next: usize,
        values: EsValues,
    },
}

/// Operands.
#[derive(Drop)]
pub enum OperatorFrame {
    Not,
    Neg(Pos),
    Typeof,
    TypeofValue,
    Delete,
    Left {
        operator: Operator,
        right: NodeId,
        pos: Pos,
    },
    Right {
        operator: Operator,
        left: EsValue,
        pos: Pos,
    },
    And(NodeId),
    Or(NodeId),
    Cond(NodeId, NodeId),
    /// The place of an assignment, whose value begins next.
    Target {
        value: NodeId,
        pos: Pos,
    },
    /// The value of an assignment.
    Assign {
        place: Place,
        pos: Pos,
    },
}

/// Parts of statements.
#[derive(Drop)]
pub enum StatementFrame {
    /// The value of a variable.
    Variable(EsText),
    If(NodeId, Option<NodeId>),
    /// The test of a loop.
    Test(NodeId, NodeId),
    /// The body of a loop.
    Loop(NodeId, NodeId),
    Return,
    Throw,
    /// A statement of a list, of which `next` is the next.
    Sequence { list: NodeId, next: usize },
}

/// Parts of `try` statements.
#[derive(Drop)]
pub enum TryFrame {
    /// The first part.
    First {
        handler: Option<Handler>,
        finally: Option<NodeId>,
    },
    /// The parts before the last one.
    Finally(Option<NodeId>),
    /// The last part, before which the statement had this completion.
    Last(Completion),
}

/// Ends of scopes; the `this` and the record that were there before.
#[derive(Drop)]
pub enum ScopeFrame {
    /// The body of a function.
    Body { this: EsValue, innermost: usize },
    /// The part of a `try` that takes what was thrown.
    Handler { this: EsValue, innermost: usize },
}
