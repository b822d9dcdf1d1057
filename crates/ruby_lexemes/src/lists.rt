//! Lists of words.

ghost use Rattle.std.specs.Prelude.{◌≡◌, ◌<◌, ◌≤◌, ◌^◌, length, take, true};
ghost use Rattle.ruby_meaning.specs.Lexing.Texts as spec;
ghost use Rattle.ruby_lexemes.specs.Answer.{Fits};

use crate::escapes::inside;
use crate::runs::run;
use crate::units::unit;
use ruby_meaning::{Bracket, Class, Form, Spelling, Stand};

/// Whether the opening of a list stands at the front.
#[tactic(auto, unfolding(ruby_meaning::specs::Lexing::Texts::opens_list))]
pub fn opens_list(z: &[u16]) -> bool
    ensures value { result ≡ spec.opens_list z.now }
    ensures within { result ≡ true → 3 ≤ length z.now }
{
    let v = unit(z, 1);
    let b = unit(z, 2);
    unit(z, 0) == 37 && (v == 119 || v == 105) && (b == 40 || b == 91)
}

fn list_bracket(z: &[u16]) -> Bracket
    ensures { result ≡ spec.list_bracket z.now }
{
    if unit(z, 2) == 40 {
        Bracket::Round
    } else {
        Bracket::Square
    }
}

fn list_form(z: &[u16], bracket: Bracket, n: u32) -> Form
    ensures { result ≡ spec.list_form z.now bracket n }
{
    if unit(z, 1) == 119 {
        Form::WordsBegin(bracket, n)
    } else {
        Form::SymbolsBegin(bracket, n)
    }
}

/// The opening of a list.
#[tactic(auto, unfolding(ruby_meaning::specs::Lexing::Texts::list))]
pub fn list(z: &[u16]) -> Stand
    requires some { 3 ≤ length z.now }
    requires small { length z.now < 2 ^ 32 }
    ensures value { result ≡ spec.list z.now }
    ensures within { Fits result z.now }
{
    let bracket = list_bracket(z);
    match inside(bracket, &z[3..]) {
        Some(n) => Stand::Form(list_form(z, bracket, n), 3),
        None => Stand::Endless,
    }
}

/// The first n units, or all where there are fewer.
fn first_units(z: &[u16], n: usize) -> &[u16]
    ensures value { result.now ≡ take n z.now }
    ensures within { length result.now ≤ length z.now }
{
    if n < z.len() { &z[..n] } else { z }
}

/// What stands inside a list, so many units before its closing bracket.
#[tactic(auto, unfolding(ruby_meaning::specs::Lexing::Texts::in_list))]
pub fn in_list(bracket: Bracket, left: u32, z: &[u16]) -> Stand
    ensures value { result ≡ spec.in_list bracket left z.now }
    ensures within { Fits result z.now }
{
    let words = first_units(z, left as usize);
    let separators = run(Class::Separator, words);
    let n = run(Class::Char(Spelling::Word(bracket)), words);
    if words.is_empty() {
        if z.is_empty() {
            Stand::Cut
        } else {
            Stand::Form(Form::ListEnd(bracket), 1)
        }
    } else if separators != 0 {
        Stand::Form(Form::Separator, separators)
    } else if n == 0 {
        Stand::Cut
    } else {
        Stand::Form(Form::ListWord(bracket), n)
    }
}
