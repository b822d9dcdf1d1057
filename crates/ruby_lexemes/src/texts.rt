//! Texts in quotes.

ghost use Rattle.std.specs.Prelude.{◌≡◌, ◌<◌, ◌≤◌, ◌+◌, ◌^◌, length};
ghost use Rattle.ruby_meaning.specs.Lexing.Texts as spec;
ghost use Rattle.ruby_lexemes.specs.Answer.{EndsWithin, Fits};

use crate::runs::run;
use crate::units::unit;
use ruby_meaning::{Class, Construct, Ending, Form, Spelling, Stand};

fn is_cut(z: &[u16]) -> bool
    ensures { result ≡ spec.is_cut z.now }
{
    z.is_empty() || (unit(z, 0) == 92 && z.len() == 1)
}

/// Where a run of the characters of a text ends.
#[tactic(auto, unfolding(ruby_meaning::specs::Lexing::Texts::ending))]
fn ending(z: &[u16]) -> Ending
    ensures value { result ≡ spec.ending z.now }
    ensures within { EndsWithin result z.now }
{
    let u = unit(z, 0);
    if u == 34 {
        Ending::Quote
    } else if u == 35 && unit(z, 1) == 123 {
        Ending::Part
    } else if is_cut(z) {
        Ending::Cut
    } else {
        Ending::Bad
    }
}

/// What stands inside a text in double quotes.
#[tactic(auto, unfolding(ruby_meaning::specs::Lexing::Texts::in_text))]
pub fn in_text(z: &[u16]) -> Stand
    ensures value { result ≡ spec.in_text z.now }
    ensures within { Fits result z.now }
{
    let n = run(Class::Char(Spelling::Double), z);
    if n != 0 {
        return Stand::Form(Form::Chunk, n);
    }
    match ending(z) {
        Ending::Quote => Stand::Form(Form::TextEnd, 1),
        Ending::Part => Stand::Form(Form::PartBegin, 2),
        Ending::Cut => Stand::Cut,
        Ending::Bad => Stand::Refused(Construct::BadCharacter, 0),
    }
}

/// A text whose double quote stands `at` units on, of the form `whole` where it has no part.
#[tactic(auto, unfolding(ruby_meaning::specs::Lexing::Texts::quoted))]
pub fn quoted(whole: Form, at: usize, z: &[u16]) -> Stand
    requires { at < length z.now }
    ensures value { result ≡ spec.quoted whole at z.now }
    ensures within { Fits result z.now }
{
    let start = at + 1;
    let n = run(Class::Char(Spelling::Double), &z[start..]);
    match ending(&z[n + start..]) {
        Ending::Quote => Stand::Form(whole, n + (at + 2)),
        Ending::Part => Stand::Form(Form::TextBegin, start),
        Ending::Cut => Stand::Endless,
        Ending::Bad => Stand::Refused(Construct::BadCharacter, n + start),
    }
}

/// A text in single quotes.
#[tactic(auto, unfolding(ruby_meaning::specs::Lexing::Texts::raw_text))]
pub fn raw_text(z: &[u16]) -> Stand
    requires { 0 < length z.now }
    ensures value { result ≡ spec.raw_text z.now }
    ensures within { Fits result z.now }
{
    let n = run(Class::Char(Spelling::Single), &z[1..]);
    if unit(z, n + 1) == 39 {
        Stand::Form(Form::RawText, n + 2)
    } else {
        Stand::Endless
    }
}
