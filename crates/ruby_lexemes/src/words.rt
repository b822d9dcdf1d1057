//! Words, labels and variables.

ghost use Rattle.std.specs.Prelude.{◌≡◌, ◌<◌, ◌≤◌, ◌+◌, ◌^◌, length, map, take, true};
ghost use Rattle.ruby_meaning.specs.Lexing.Characters as unit_spec;
ghost use Rattle.ruby_meaning.specs.Lexing.Words as spec;
ghost use Rattle.ruby_lexemes.specs.Answer.{Fits};

use crate::before::{allows_label, method_place};
use crate::runs::run;
use crate::units::{starts_name, unit};
use ruby_meaning::{Class, Construct, Form, MethodPlace, RESERVED, Reserved, Stand};

fn same_units(mut word: &[u8], mut z: &[u16]) -> bool
    ensures value { result ≡ spec.same_units word.entry.now z.entry.now }
{
    while let [k, more @ ..] = word {
        let [u, us @ ..] = z else {
            return false;
        };
        if u16::from(*k) != *u {
            return false;
        }
        word = more;
        z = us;
    }
    z.is_empty()
}

fn word_of_table(mut table: &[(&[u8], Reserved)], z: &[u16]) -> Option<Reserved>
    ensures value { result ≡ spec.word_of_table (map (λ e. (e.0.now, e.1)) table.entry.now) z.now }
{
    while let [entry, more @ ..] = table {
        if same_units(entry.0, z) {
            return Some(entry.1);
        }
        table = more;
    }
    None
}

/// What a word is that isn't taken for a name.
#[tactic(auto, unfolding(ruby_meaning::specs::Lexing::Words::reserved))]
fn reserved(z: &[u16]) -> Option<Reserved>
    ensures { result ≡ spec.reserved z.now }
{
    word_of_table(&RESERVED, z)
}

fn is_suffix(z: &[u16], at: usize) -> bool
    requires { at < 2 ^ 40 }
    ensures value { result ≡ spec.is_suffix z.now at }
    ensures within { result ≡ true → at < length z.now }
{
    let u = unit(z, at);
    (u == 63 || u == 33) && unit(z, at + 1) != 61
}

/// The length of the word at the front, with its suffix.
#[tactic(auto, unfolding(ruby_meaning::specs::Lexing::Words::word_end))]
pub fn word_end(z: &[u16]) -> usize
    requires some { 0 < length z.now }
    requires small { length z.now < 2 ^ 40 }
    requires name { unit_spec.goes_on_name z.now ≡ true }
    ensures value { result ≡ spec.word_end z.now }
    ensures within { result ≤ length z.now }
    ensures moves { 0 < result }
{
    let n = run(Class::Name, z);
    if is_suffix(z, n) { n + 1 } else { n }
}

/// Whether the word of n units is a constant.
#[tactic(auto, unfolding(ruby_meaning::specs::Lexing::Words::is_const))]
fn is_const(z: &[u16], n: usize) -> bool
    ensures { result ≡ spec.is_const z.now n }
{
    let u = unit(z, 0);
    let end = if n == 0 { 0 } else { unit(z, n - 1) };
    65 <= u && u <= 90 && end != 63 && end != 33
}

fn name_form(constant: bool) -> Form
    ensures { result ≡ spec.name_form constant }
{
    if constant { Form::Const } else { Form::Name }
}

fn method_form(constant: bool, place: MethodPlace) -> Form
    ensures { result ≡ spec.method_form constant place }
{
    if constant {
        Form::MethodConst(place)
    } else {
        Form::MethodName(place)
    }
}

/// A word of n units that is no label.
fn of_word(place: Option<MethodPlace>, z: &[u16], n: usize) -> Stand
    requires { (0 < n) × (n ≤ length z.now) }
    ensures value { result ≡ spec.of_word place z.now n }
    ensures within { Fits result z.now }
{
    let constant = is_const(z, n);
    if let Some(place) = place {
        return Stand::Form(method_form(constant, place), n);
    }
    match reserved(&z[..n]) {
        Some(Reserved::Keyword(word)) => Stand::Form(Form::Keyword(word), n),
        Some(Reserved::Refused(construct)) => Stand::Refused(construct, 0),
        None => Stand::Form(name_form(constant), n),
    }
}

fn is_label_end(z: &[u16], at: usize) -> bool
    requires { at < 2 ^ 40 }
    ensures value { result ≡ spec.is_label_end z.now at }
    ensures within { result ≡ true → at < length z.now }
{
    unit(z, at) == 58 && unit(z, at + 1) != 58
}

/// A word behind the token `last`.
#[tactic(auto, unfolding(ruby_meaning::specs::Lexing::Words::word))]
pub fn word(last: Form, z: &[u16]) -> Stand
    requires some { 0 < length z.now }
    requires small { length z.now < 2 ^ 40 }
    requires name { unit_spec.goes_on_name z.now ≡ true }
    ensures value { result ≡ spec.word last z.now }
    ensures within { Fits result z.now }
{
    let n = word_end(z);
    if allows_label(last) && is_label_end(z, n) {
        Stand::Form(Form::Label, n + 1)
    } else {
        of_word(method_place(last), z, n)
    }
}

/// An instance variable.
#[tactic(auto, unfolding(ruby_meaning::specs::Lexing::Words::ivar))]
pub fn ivar(z: &[u16]) -> Stand
    requires { 0 < length z.now }
    ensures value { result ≡ spec.ivar z.now }
    ensures within { Fits result z.now }
{
    let name = &z[1..];
    if unit(z, 1) == 64 {
        Stand::Refused(Construct::ClassVariable, 0)
    } else if starts_name(name) {
        Stand::Form(Form::Ivar, 1 + run(Class::Name, name))
    } else {
        Stand::Refused(Construct::BadCharacter, 0)
    }
}

/// A global variable.
#[tactic(auto, unfolding(ruby_meaning::specs::Lexing::Words::gvar))]
pub fn gvar(z: &[u16]) -> Stand
    requires { 0 < length z.now }
    ensures value { result ≡ spec.gvar z.now }
    ensures within { Fits result z.now }
{
    let name = &z[1..];
    if !starts_name(name) {
        return Stand::Refused(Construct::SpecialGlobal, 0);
    }
    let n = 1 + run(Class::Name, name);
    match reserved(&z[..n]) {
        Some(Reserved::Refused(construct)) => Stand::Refused(construct, 0),
        _ => Stand::Form(Form::Gvar, n),
    }
}
