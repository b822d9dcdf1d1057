//! The form that stands at the front of a text.

ghost use Rattle.std.specs.Prelude.{◌≡◌, ◌≢◌, ◌<◌, ◌^◌, length, true};
ghost use Rattle.ruby_meaning.specs.Lexing.Characters as unit_spec;
ghost use Rattle.ruby_meaning.specs.Lexing.Stands as spec;
ghost use Rattle.ruby_lexemes.specs.Answer.{Fits};

use ruby_lexemes::{
    begins, begins_list, begins_symbol, gvar, in_list, in_text, is_digit, is_negative, ivar, joins,
    line_len, list, method_place, method_signed, newline_len, number, opens_list, quoted, raw_text,
    run, signed, starts_name, symbol, unit, word,
};
use ruby_meaning::{BLOCK_BEGIN, Class, END_LINE, Form, Mode, Place, Stand};

/// Whether the first line is exactly the one that ends a text.
#[tactic(auto, unfolding(ruby_meaning::specs::Lexing::Stands::is_end_line))]
fn is_end_line(z: &[u16]) -> bool
    ensures { result ≡ spec.is_end_line z.now }
{
    let newline = newline_len(z, 7);
    begins(END_LINE, z) && (z.len() == 7 || newline != 0)
}

/// Whether one `.` begins the text after blanks.
#[tactic(auto, unfolding(ruby_meaning::specs::Lexing::Stands::starts_dot))]
fn starts_dot(z: &[u16]) -> bool
    ensures { result ≡ spec.starts_dot z.now }
{
    let n = run(Class::Blank, z);
    n < z.len() && unit(z, n) == 46 && unit(z, n + 1) != 46
}

/// A newline behind the token `last`.
#[tactic(auto, unfolding(ruby_meaning::specs::Lexing::Stands::newline))]
fn newline(last: Form, z: &[u16]) -> Stand
    requires { unit_spec.newline_len z.now 0 ≢ 0 }
    ensures value { result ≡ spec.newline last z.now }
    ensures within { Fits result z.now }
{
    let n = newline_len(z, 0);
    let form = if joins(last) || starts_dot(&z[n..]) {
        Form::Joint
    } else {
        Form::Newline
    };
    Stand::Form(form, n)
}

/// A comment of whole lines.
#[tactic(auto, unfolding(ruby_meaning::specs::Lexing::Stands::block))]
fn block(z: &[u16]) -> Stand
    ensures value { result ≡ spec.block z.now }
    ensures within { Fits result z.now }
{
    let n = run(Class::Block, z);
    let last = &z[n..];
    if last.is_empty() {
        Stand::Endless
    } else {
        Stand::Form(Form::Block, n + line_len(last))
    }
}

/// A literal or a sign, where no name of a method stands.
#[tactic(auto, unfolding(ruby_meaning::specs::Lexing::Stands::literal))]
fn literal(place: Place, z: &[u16]) -> Stand
    requires some { 0 < length z.now }
    requires small { length z.now < 2 ^ 32 }
    ensures value { result ≡ spec.literal place z.now }
    ensures within { Fits result z.now }
{
    let u = unit(z, 0);
    if u == 34 {
        quoted(Form::Text, 0, z)
    } else if u == 39 {
        raw_text(z)
    } else if is_digit(u) {
        number(z, 0)
    } else if is_negative(place.last, z) {
        number(z, 1)
    } else if begins_list(place) && opens_list(z) {
        list(z)
    } else if begins_symbol(place) && u == 58 {
        symbol(place, z)
    } else {
        signed(place, z)
    }
}

#[tactic(auto, unfolding(ruby_meaning::specs::Lexing::Stands::token))]
fn token(place: Place, z: &[u16]) -> Stand
    requires some { 0 < length z.now }
    requires small { length z.now < 2 ^ 32 }
    ensures value { result ≡ spec.token place z.now }
    ensures within { Fits result z.now }
{
    let u = unit(z, 0);
    if starts_name(z) {
        return word(place.last, z);
    }
    if u == 64 {
        return ivar(z);
    }
    if u == 36 {
        return gvar(z);
    }
    match method_place(place.last) {
        Some(method) => method_signed(method, place, z),
        None => literal(place, z),
    }
}

/// A blank, a newline, a comment or a token.
#[tactic(auto, unfolding(ruby_meaning::specs::Lexing::Stands::piece))]
fn piece(place: Place, z: &[u16]) -> Stand
    requires some { 0 < length z.now }
    requires small { length z.now < 2 ^ 32 }
    ensures value { result ≡ spec.piece place z.now }
    ensures within { Fits result z.now }
{
    let blanks = run(Class::Blank, z);
    if blanks != 0 {
        Stand::Form(Form::Blank, blanks)
    } else if newline_len(z, 0) != 0 {
        newline(place.last, z)
    } else if unit(z, 0) == 35 {
        Stand::Form(Form::Comment, run(Class::Line, z))
    } else {
        token(place, z)
    }
}

#[tactic(auto, unfolding(ruby_meaning::specs::Lexing::Stands::in_code))]
fn in_code(place: Place, z: &[u16]) -> Stand
    requires { length z.now < 2 ^ 32 }
    ensures value { result ≡ spec.in_code place z.now }
    ensures within { Fits result z.now }
{
    let end_line = is_end_line(z);
    let block_line = begins(BLOCK_BEGIN, z);
    if z.is_empty() || (place.line_start && end_line) {
        Stand::End
    } else if place.text_start && unit(z, 0) == 0xFEFF {
        Stand::Form(Form::Bom, 1)
    } else if place.line_start && block_line {
        block(z)
    } else {
        piece(place, z)
    }
}

/// What stands at the front of a text, at a place.
#[tactic(auto, unfolding(ruby_meaning::specs::Lexing::Stands::stands))]
pub fn stands(place: Place, z: &[u16]) -> Stand
    requires { length z.now < 2 ^ 32 }
    ensures value { result ≡ spec.stands place z.now }
    ensures within { Fits result z.now }
{
    match place.mode {
        Mode::Code => in_code(place, z),
        Mode::Text => in_text(z),
        Mode::List(bracket, left) => in_list(bracket, left, z),
    }
}
