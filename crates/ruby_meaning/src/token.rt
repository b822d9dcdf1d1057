//! Tokens of a Ruby text.

ghost use Rattle.std.specs.Prelude.{◌≡◌, ◌<◌, [], ◌∷◌, ◌++◌, length, Some, slice_get, OnOk, OnErr};

use opal_base::{NoMemory, Pos, Units};
use std::alloc::Global;
use std::marker::Model;

/// A keyword.
#[derive(Clone, Copy, Debug, PartialEq, Eq)]
pub enum Word {
    Alias,
    And,
    Begin,
    Break,
    Case,
    Class,
    Def,
    Do,
    Else,
    Elsif,
    End,
    Ensure,
    False,
    For,
    If,
    In,
    Module,
    Next,
    Nil,
    Not,
    Or,
    Rescue,
    Retry,
    Return,
    Self_,
    Super,
    Then,
    True,
    Undef,
    Unless,
    Until,
    When,
    While,
    Yield,
}

/// An operator, a bracket or another sign.
#[derive(Clone, Copy, Debug, PartialEq, Eq)]
pub enum Mark {
    /// `&`
    Ampersand,
    /// `&&`
    And,
    /// `&&=`
    AndSet,
    /// `->`
    Arrow,
    /// `=`
    Assign,
    /// `!`
    Bang,
    /// `}`
    BraceClose,
    /// `{`
    BraceOpen,
    /// `]`
    BracketClose,
    /// `[`
    BracketOpen,
    /// `^`
    Caret,
    /// `:`
    Colon,
    /// `::`
    ColonColon,
    /// `,`
    Comma,
    /// `<=>`
    Compare,
    /// `.`
    Dot,
    /// `..`
    DotDot,
    /// `...`
    DotDotDot,
    /// `==`
    Equal,
    /// `=>`
    FatArrow,
    /// `>`
    Greater,
    /// `>=`
    GreaterEqual,
    /// `[]` as a method name
    Index,
    /// `[]=` as a method name
    IndexSet,
    /// `<`
    Less,
    /// `<=`
    LessEqual,
    /// The `)` of a list of words
    ListEndRound,
    /// The `]` of a list of words
    ListEndSquare,
    /// `-`
    Minus,
    /// `-=`
    MinusSet,
    /// `-@` as a method name
    Negate,
    /// `!=`
    NotEqual,
    /// `||`
    Or,
    /// `||=`
    OrSet,
    /// `)`
    ParenClose,
    /// `(`
    ParenOpen,
    /// `%`
    Percent,
    /// `%=`
    PercentSet,
    /// `|`
    Pipe,
    /// `+`
    Plus,
    /// `+=`
    PlusSet,
    /// `**`
    Power,
    /// `**=`
    PowerSet,
    /// `?`
    Question,
    /// `;`
    Semicolon,
    /// `<<`
    ShiftLeft,
    /// `<<=`
    ShiftLeftSet,
    /// `>>`
    ShiftRight,
    /// `/`
    Slash,
    /// `/=`
    SlashSet,
    /// `*`
    Star,
    /// `*=`
    StarSet,
    /// `%i(`
    SymbolsRound,
    /// `%i[`
    SymbolsSquare,
    /// `~`
    Tilde,
    /// `===`
    TripleEqual,
    /// `%w(`
    WordsRound,
    /// `%w[`
    WordsSquare,
}

/// What a token is. Names, constants, variables and labels carry the units of their slice, a text
/// the units that it stands for.
///
/// `TextBegin` and `TextEnd` enclose a text with embedded parts, `PartBegin` and `PartEnd` a part.
/// A list of words is the sign of its opening, a text for each word, and the sign of its closing
/// bracket.
#[derive(Drop)]
pub enum TokenKind {
    Name(Units),
    Const(Units),
    Ivar(Units),
    Gvar(Units),
    Keyword(Word),
    Op(Mark),
    Label(Units),
    Int(i64),
    Text(Units),
    TextBegin,
    TextEnd,
    PartBegin,
    PartEnd,
    Newline,
    Eof,
}

/// A token: its slice is that from unit `from` up to unit `to`, `pos` the place of its first unit
/// and `end` the place behind its last. The flags tell whether a blank stands directly before it
/// and directly behind it.
#[derive(Drop)]
pub struct Token {
    pub kind: TokenKind,
    pub from: u32,
    pub to: u32,
    pub pos: Pos,
    pub end: Pos,
    pub blank_before: bool,
    pub blank_after: bool,
}

/// A list of tokens.
#[derive(Drop)]
pub struct Tokens {
    items: Vec<Token>,
}

impl Model for Tokens {
    ghost use Rattle.std.specs.Prelude.{List};
    ghost use Rattle.ruby_meaning.specs.declared.token.Token.{Token};

    ghost Value = { List Token };

    ghost view = { λ tokens. tokens.items.items };
}

impl Tokens {
    /// The empty list.
    pub fn new(alloc: Global) -> Tokens
        ensures { result ≡ [] }
    {
        Tokens {
            items: Vec::new(alloc),
        }
    }

    /// The number of tokens.
    pub fn len(&self) -> usize
        ensures { result ≡ length self.now }
    {
        self.items.len()
    }

    /// The token at an index from 0.
    pub fn at(&self, i: usize) -> &Token
        requires { i < length self.now }
        ensures { slice_get self.now i ≡ Some result.now }
    {
        &self.items[i]
    }

    /// Puts a token at the end. Where no memory is found, nothing changes.
    pub fn push(&mut self, token: Token) -> Result<(), NoMemory>
        ensures ok { OnOk result (self.new ≡ self.old ++ token ∷ []) }
        ensures err { OnErr result (self.new ≡ self.old) }
    {
        match self.items.push(token) {
            Ok(()) => Ok(()),
            Err(_) => Err(NoMemory),
        }
    }
}
