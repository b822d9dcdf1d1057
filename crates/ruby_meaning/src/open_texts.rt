//! The stack of open texts.

ghost use Rattle.std.specs.Prelude.{◌≡◌, [], ◌∷◌, OnOk};
ghost use Rattle.ruby_meaning.specs.Lexing.OpenTexts.{closes, top_is_none, leave, open_after};

use crate::form::{Form, Opener};
use crate::token::Mark;
use opal_base::NoMemory;
use std::alloc::Global;
use std::marker::Model;

/// The texts that are open, and the braces in their embedded parts, the innermost first.
#[derive(Drop)]
pub struct OpenTexts {
    items: Vec<Opener>,
}

impl Model for OpenTexts {
    ghost use Rattle.std.specs.Prelude.{List, reverse};
    ghost use Rattle.ruby_meaning.specs.declared.form.Opener.{Opener};

    ghost Value = { List Opener };

    ghost view = { λ texts. reverse texts.items.items };
}

impl OpenTexts {
    /// No text is open.
    pub fn new(alloc: Global) -> OpenTexts
        ensures { result ≡ [] }
    {
        OpenTexts {
            items: Vec::new(alloc),
        }
    }

    /// Whether no text is open.
    pub fn is_empty(&self) -> bool
        ensures { result ≡ top_is_none self.now }
    {
        self.items.is_empty()
    }

    /// Whether a `}` ends an embedded part.
    pub fn closes(&self) -> bool
        ensures { result ≡ closes self.now }
    {
        match self.items.last() {
            Some(Opener::Text) => true,
            _ => false,
        }
    }

    fn enter(&mut self, opener: Opener) -> Result<(), NoMemory>
        ensures ok { OnOk result (self.new ≡ opener ∷ self.old) }
    {
        match self.items.push(opener) {
            Ok(()) => Ok(()),
            Err(_) => Err(NoMemory),
        }
    }

    fn leave(&mut self)
        ensures { self.new ≡ leave self.old }
    {
        self.items.pop();
    }

    /// Goes on behind a form.
    #[tactic(auto, unfolding(crate::specs::Lexing::OpenTexts::open_after))]
    pub fn pass(&mut self, form: Form) -> Result<(), NoMemory>
        ensures ok { OnOk result (self.new ≡ open_after form self.old) }
    {
        match form {
            Form::TextBegin => self.enter(Opener::Text)?,
            Form::Op(Mark::BraceOpen) => {
                if !self.is_empty() {
                    self.enter(Opener::Brace)?;
                }
            }
            Form::Op(Mark::BraceClose) | Form::TextEnd => self.leave(),
            _ => {}
        }
        Ok(())
    }
}
