ghost use Rattle.std.specs.Prelude.{◌≡◌, ◌<◌, [], ◌∷◌, ◌++◌, length, slice_get, OnOk, OnErr, Some};

use crate::safe_int::SafeInt;
use opal_base::{NoMemory, Pos, Units};
use std::alloc::Global;
use std::marker::Model;

/// The signs of scripts: the punctuators of ECMA-262 5.1, 7.7, as far as the profile goes.
#[derive(Clone, Copy, Debug, PartialEq, Eq)]
pub enum EsMark {
    OpenBrace,
    CloseBrace,
    OpenParen,
    CloseParen,
    OpenBracket,
    CloseBracket,
    Dot,
    Semicolon,
    Comma,
    Less,
    Greater,
    LessOrEqual,
    GreaterOrEqual,
    Same,
    Different,
    Plus,
    Minus,
    Times,
    Divide,
    Remainder,
    Not,
    And,
    Or,
    Question,
    Colon,
    Assign,
}

/// The kinds of tokens (ECMA-262 5.1, section 7).
#[derive(Drop)]
pub enum EsTokenKind {
    /// A name or a reserved word.
    Word(Units),
    /// A numeral, with its value, which isn't negative.
    Num(SafeInt),
    /// A string literal, with the text that it stands for.
    Str(Units),
    Mark(EsMark),
    /// The end of the bytes.
    End,
}

/// A token: its kind, its first byte and the byte behind its last, both counted from 0, and its
/// place.
#[derive(Drop)]
pub struct EsToken {
    pub kind: EsTokenKind,
    pub from: u32,
    pub to: u32,
    /// Line and column from 0, the column in bytes. Only a line feed ends a line.
    pub pos: Pos,
}

/// A list of tokens.
#[derive(Drop)]
pub struct EsTokens {
    items: Vec<EsToken>,
}

impl Model for EsTokens {
    ghost use Rattle.std.specs.Prelude.{List};
    ghost use Rattle.es5_tree.specs.declared.token.EsToken.{EsToken};

    ghost Value = { List EsToken };

    ghost view = { λ tokens. tokens.items.items };
}

impl EsTokens {
    /// No tokens.
    pub fn new(alloc: Global) -> EsTokens
        ensures { result ≡ [] }
    {
        EsTokens {
            items: Vec::new(alloc),
        }
    }

    /// The number of tokens.
    pub fn len(&self) -> usize
        ensures { result ≡ length self.now }
    {
        self.items.len()
    }

    /// The token at an index from 0.
    pub fn at(&self, i: usize) -> &EsToken
        requires { i < length self.now }
        ensures { slice_get self.now i ≡ Some result.now }
    {
        &self.items[i]
    }

    /// The tokens as a slice.
    pub fn as_slice(&self) -> &[EsToken]
        ensures { result.now ≡ self.now }
    {
        self.items.as_slice()
    }

    /// Puts a token at the end. Where no memory is found, nothing changes, and the token is given
    /// up.
    pub fn push(&mut self, token: EsToken) -> Result<(), NoMemory>
        ensures ok { OnOk result (self.new ≡ self.old ++ token ∷ []) }
        ensures err { OnErr result (self.new ≡ self.old) }
    {
        match self.items.push(token) {
            Ok(()) => Ok(()),
            Err(_) => Err(NoMemory),
        }
    }
}

/// Why bytes or tokens were not read as a script.
#[derive(Clone, Copy, Debug, PartialEq, Eq)]
pub enum EsStop {
    /// No memory was found.
    NoMemory,
    /// They spell no script: the place of the first byte where no token, blank or comment begins,
    /// or else of the first token such that no script begins with the tokens up to and with it.
    NotScript { pos: Pos },
}

impl From<NoMemory> for EsStop {
    ghost use Rattle.std.specs.Prelude.{◌≡◌};
    ghost use Rattle.es5_tree.specs.declared.token.EsStop.TheVariants.{NoMemory};

    ghost from_gives = { λ _ e. e ≡ NoMemory };

    fn from(fault: NoMemory) -> EsStop
        ensures { result ≡ EsStop.NoMemory }
    {
        let _ = fault;
        EsStop::NoMemory
    }
}
