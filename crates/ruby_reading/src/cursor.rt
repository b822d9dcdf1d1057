//! The tokens ahead, each with what the grammar sees of it.

ghost use Rattle.std.specs.Prelude.{◌≡◌, ℕ, [], ◌∷◌, length, map, Bool, true, false, ◌||◌, Some, None};
ghost use Rattle.grammar.specs.FormReaders.{next_in, read_token};
ghost use Rattle.grammar.specs.Spelling.{token_in};
ghost use Rattle.ruby_meaning.specs.Grammar.Classes.{code_of};
ghost use Rattle.descent.specs.Sets.{behind_open, one_of};
ghost use Rattle.ruby_reading.specs.Ahead.{ahead, see, GivesToken, class_code, codes};

use crate::class::class_of;
use descent::{Fail, either};
use ruby_meaning::{Sign, Token};

/// A token with its sign.
#[derive(Clone, Copy)]
pub struct Sight<'a> {
    pub token: &'a Token,
    pub sign: Sign,
}

/// The tokens that are left.
#[derive(Drop)]
pub struct Cursor<'a> {
    pub rest: &'a [Sight<'a>],
}

fn is_one_of(sign: Sign, signs: &[Sign]) -> bool
    ensures { result ≡ one_of (codes signs.now) (code_of sign) }
{
    let class = class_of(sign);
    let mut found = false;
    for other in signs {
        found = either(found, class_of(*other) == class);
    }
    found
}

impl<'a> Cursor<'a> {
    /// Whether a token of this class stands next.
    pub fn sees(&self, sign: Sign) -> bool
        ensures { result ≡ next_in (λ t. one_of (codes (sign ∷ [])) (code_of t.sign)) (ahead self.now) }
    {
        match self.rest.first() {
            Some(next) => class_of(next.sign) == class_of(sign),
            None => false,
        }
    }

    /// Whether a token of one of these classes stands next.
    pub fn sees_one_of(&self, signs: &[Sign]) -> bool
        ensures { result ≡ next_in (λ t. one_of (codes signs.now) (code_of t.sign)) (ahead self.now) }
    {
        match self.rest.first() {
            Some(next) => is_one_of(next.sign, signs),
            None => false,
        }
    }

    /// How many tokens are left.
    pub fn left(&self) -> usize
        ensures { result ≡ length (ahead self.now) }
    {
        self.rest.len()
    }

    /// Takes a token of this class.
    pub fn take(&mut self, sign: Sign) -> Result<Sight<'a>, Fail>
        ensures { GivesToken (read_token (token_in class_code (one_of (codes (sign ∷ [])))) (ahead self.old)) result (ahead self.new) }
    {
        self.take_one_of(&[sign])
    }

    /// Takes a token of one of these classes.
    pub fn take_one_of(&mut self, signs: &[Sign]) -> Result<Sight<'a>, Fail>
        ensures { GivesToken (read_token (token_in class_code (one_of (codes signs.now))) (ahead self.old)) result (ahead self.new) }
    {
        let rest: &'a [Sight<'a>] = self.rest;
        let Some(next) = rest.first() else {
            return Err(Fail::Refused);
        };
        if !is_one_of(next.sign, signs) {
            return Err(Fail::Refused);
        }
        let taken = *next;
        self.rest = &rest[1..];
        Ok(taken)
    }

    /// Passes a token of one of these classes, where one stands next.
    pub fn pass_one_of(&mut self, signs: &[Sign])
        ensures { ahead self.new ≡ behind_open class_code (one_of (codes signs.now)) (ahead self.old) }
    {
        let rest: &'a [Sight<'a>] = self.rest;
        if let Some(next) = rest.first() {
            if is_one_of(next.sign, signs) {
                self.rest = &rest[1..];
            }
        }
    }
}
