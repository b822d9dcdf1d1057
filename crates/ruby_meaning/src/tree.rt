use opal_base::{Names, Pos, Span, Units};
use sqlite_items::{Boxed, Items};

/// The program of one file.
#[derive(Drop)]
pub struct Program {
    pub body: Node,
}

pub type Nodes = Items<Node>;

/// A node: its form, the span from the start of its first token to the end of its last, and the
/// place that a refusal of it names.
#[cycle(tree)]
#[derive(Drop)]
pub struct Node {
    pub kind: Boxed<Kind>,
    pub span: Span,
    pub mark: Pos,
}

/// The form of a node.
#[cycle(tree)]
#[derive(Drop)]
pub enum Kind {
    Lit(Literal),
    SelfRef,
    Int(i64),
    Str(Units),
    /// The texts and the embedded statements of a text in double quotes, in order.
    Interp(Nodes),
    ArrayLit(Nodes),
    /// As many values as keys.
    HashLit {
        keys: Nodes,
        values: Nodes,
    },
    RangeLit {
        low: Boxed<Node>,
        high: Boxed<Node>,
        without_end: bool,
    },
    LocalGet(Units),
    IvarGet(Units),
    GlobalGet(Units),
    ConstGet {
        base: Base,
        name: Units,
    },
    LocalSet(Units, Boxed<Node>),
    IvarSet(Units, Boxed<Node>),
    GlobalSet(Units, Boxed<Node>),
    ConstSet(Units, Boxed<Node>),
    /// The targets are variables, constants and calls, read as places; one may be in a splat.
    MultiSet {
        targets: Nodes,
        value: Boxed<Node>,
    },
    /// `receiver.name = value` and `receiver[args] = value`.
    AttrSet {
        receiver: Boxed<Node>,
        name: Units,
        args: Nodes,
        value: Boxed<Node>,
    },
    /// `receiver.name op= value` and `receiver[args] op= value`.
    AttrOpSet {
        receiver: Boxed<Node>,
        name: Units,
        args: Nodes,
        op: Operator,
        value: Boxed<Node>,
    },
    /// `marked` is the place of the token that begins the arguments of a command call after a
    /// blank, where that token could be read otherwise.
    Call {
        receiver: Option<Boxed<Node>>,
        name: Units,
        args: Nodes,
        block: Option<Boxed<Node>>,
        marked: Option<Pos>,
    },
    /// Without arguments of its own it passes those of the method.
    Super {
        args: Option<Nodes>,
        block: Option<Boxed<Node>>,
    },
    Yield(Nodes),
    Block {
        params: Params,
        body: Boxed<Node>,
    },
    BlockPass(Boxed<Node>),
    Lambda {
        params: Params,
        body: Boxed<Node>,
    },
    Splat(Boxed<Node>),
    Not(Boxed<Node>),
    And(Boxed<Node>, Boxed<Node>),
    Or(Boxed<Node>, Boxed<Node>),
    If {
        cond: Boxed<Node>,
        yes: Boxed<Node>,
        no: Boxed<Node>,
    },
    While {
        cond: Boxed<Node>,
        body: Boxed<Node>,
        body_first: bool,
    },
    Case {
        subject: Option<Boxed<Node>>,
        whens: Nodes,
        otherwise: Boxed<Node>,
    },
    When {
        tests: Nodes,
        body: Boxed<Node>,
    },
    Begin {
        body: Boxed<Node>,
        clauses: Nodes,
        else_part: Option<Boxed<Node>>,
        ensure_part: Option<Boxed<Node>>,
    },
    Rescue {
        classes: Nodes,
        name: Option<Units>,
        body: Boxed<Node>,
    },
    Retry,
    /// `raise` alone inside a rescue clause.
    Reraise,
    Jump(JumpKind, Boxed<Node>),
    Def {
        on: Option<Boxed<Node>>,
        name: Units,
        params: Params,
        body: Boxed<Node>,
    },
    ModuleDef {
        form: ModuleForm,
        name: Units,
        body: Boxed<Node>,
    },
    Alias {
        new: Units,
        old: Units,
    },
    Undef(Names),
    /// Statements one after the other; the empty one is nil.
    Seq(Nodes),
    /// The name has `.rb` at its end; that of `require 'opal'` is empty.
    Require {
        name: Units,
        relative: bool,
    },
    /// A primitive of the core library's text.
    Prim {
        name: Units,
        args: Nodes,
    },
}

/// A literal that stands for one value, and the test whether a block was given.
#[derive(Clone, Copy, Debug, PartialEq, Eq)]
pub enum Literal {
    Nil,
    True,
    False,
    BlockGiven,
}

/// What a jump ends.
#[derive(Clone, Copy, Debug, PartialEq, Eq)]
pub enum JumpKind {
    Break,
    Next,
    Return,
}

/// The operator of an assignment such as `x += e`.
#[derive(Clone, Copy, Debug, PartialEq, Eq)]
pub enum Operator {
    Add,
    Sub,
    Mul,
    Div,
    Mod,
    Pow,
    ShiftLeft,
    Or,
    And,
}

/// Where the lookup of a constant begins.
#[cycle(tree)]
#[derive(Drop)]
pub enum Base {
    /// The modules around the text.
    Here,
    /// `::NAME`.
    Top,
    /// `base::NAME`.
    In(Boxed<Node>),
}

/// What a module definition makes or opens.
#[cycle(tree)]
#[derive(Drop)]
pub enum ModuleForm {
    Class(Option<Boxed<Node>>),
    Module,
    /// `class << node`; it has no name.
    Singleton(Boxed<Node>),
}

/// The parameters of a method, a block or a lambda, in the order in which they stand.
#[cycle(tree)]
#[derive(Drop)]
pub struct Params {
    pub plain: Slots,
    pub optional: Names,
    /// As many as there are optional ones.
    pub defaults: Nodes,
    pub rest: Rest,
    pub after: Slots,
    pub block: Option<Units>,
}

pub type Slots = Items<Slot>;

/// A parameter that takes one argument: a name, or names in brackets that take its items.
#[derive(Drop)]
pub enum Slot {
    Name(Units),
    Names(Names),
}

/// The parameter that takes the arguments that are left.
#[derive(Drop)]
pub enum Rest {
    None,
    Unnamed,
    Named(Units),
}
