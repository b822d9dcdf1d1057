//! Operators, brackets and other signs, and symbols.

ghost use Rattle.std.specs.Prelude.{◌≡◌, ◌<◌, ◌≤◌, ◌^◌, length, map, IfSome, true};
ghost use Rattle.ruby_meaning.specs.Lexing.Signs as spec;
ghost use Rattle.ruby_lexemes.specs.Answer.{Fits};

use crate::before::{is_constant, takes_argument, wants_value};
use crate::texts::quoted;
use crate::units::{begins, blank_len, starts_name, unit};
use crate::words::word_end;
use ruby_meaning::{Construct, Form, MARKS, METHOD_MARKS, Mark, MethodPlace, Place, Stand, Word};

fn first_of_table(mut table: &[(&[u8], Mark)], z: &[u16]) -> Option<(Mark, usize)>
    requires { spec.each_some (map (λ e. (e.0.now, e.1)) table.now) ≡ true }
    ensures value { result ≡ spec.first_of_table (map (λ e. (e.0.now, e.1)) table.entry.now) z.now }
    ensures within { IfSome result (λ e. (0 < e.1) × (e.1 ≤ length z.now)) }
{
    while let [entry, more @ ..] = table {
        if begins(entry.0, z) {
            return Some((entry.1, entry.0.len()));
        }
        table = more;
    }
    None
}

/// The longest sign at the front, and how many units it has.
#[tactic(auto, unfolding(ruby_meaning::specs::Lexing::Signs::sign))]
fn sign(z: &[u16]) -> Option<(Mark, usize)>
    ensures value { result ≡ spec.sign z.now }
    ensures within { IfSome result (λ e. (0 < e.1) × (e.1 ≤ length z.now)) }
{
    first_of_table(&MARKS, z)
}

/// The longest operator at the front that can be defined.
#[tactic(auto, unfolding(ruby_meaning::specs::Lexing::Signs::method_sign))]
fn method_sign(z: &[u16]) -> Option<(Mark, usize)>
    ensures value { result ≡ spec.method_sign z.now }
    ensures within { IfSome result (λ e. (0 < e.1) × (e.1 ≤ length z.now)) }
{
    first_of_table(&METHOD_MARKS, z)
}

fn begins_argument(mark: Mark) -> bool
    ensures { result ≡ spec.begins_argument mark }
{
    matches!(
        mark,
        Mark::Minus
            | Mark::BracketOpen
            | Mark::Star
            | Mark::Ampersand
            | Mark::ParenOpen
            | Mark::ColonColon
    )
}

fn begins_refused(mark: Mark) -> bool
    ensures { result ≡ spec.begins_refused mark }
{
    matches!(
        mark,
        Mark::Slash | Mark::ShiftLeft | Mark::Question | Mark::Power | Mark::Percent
    )
}

/// Whether the lexer refuses the sign where it may begin an argument.
#[tactic(auto, unfolding(ruby_meaning::specs::Lexing::Signs::is_ambiguous))]
fn is_ambiguous(last: Form, mark: Mark) -> bool
    ensures { result ≡ spec.is_ambiguous last mark }
{
    let refused = begins_refused(mark);
    (takes_argument(last) && refused) || (is_constant(last) && (begins_argument(mark) || refused))
}

#[tactic(auto, unfolding(ruby_meaning::specs::Lexing::Signs::is_def_name))]
fn is_def_name(last: Form) -> bool
    ensures { result ≡ spec.is_def_name last }
{
    matches!(
        last,
        Form::MethodName(MethodPlace::Def) | Form::MethodConst(MethodPlace::Def)
    )
}

#[tactic(auto, unfolding(ruby_meaning::specs::Lexing::Signs::is_undef_name))]
fn is_undef_name(last: Form) -> bool
    ensures { result ≡ spec.is_undef_name last }
{
    matches!(
        last,
        Form::MethodName(MethodPlace::Undef)
            | Form::MethodConst(MethodPlace::Undef)
            | Form::MethodOp(MethodPlace::Undef, _)
            | Form::MethodSet(MethodPlace::Undef)
    )
}

#[tactic(auto, unfolding(ruby_meaning::specs::Lexing::Signs::opens_block))]
fn opens_block(last: Form) -> bool
    ensures { result ≡ spec.opens_block last }
{
    matches!(last, Form::Op(Mark::BraceOpen) | Form::Keyword(Word::Do))
}

#[tactic(auto, unfolding(ruby_meaning::specs::Lexing::Signs::assign_form))]
fn assign_form(last: Form) -> Form
    ensures { result ≡ spec.assign_form last }
{
    match last {
        Form::MethodName(MethodPlace::Call) | Form::MethodConst(MethodPlace::Call) => {
            Form::Op(Mark::Assign)
        }
        Form::MethodName(place) | Form::MethodConst(place) => Form::MethodSet(place),
        _ => Form::Op(Mark::Assign),
    }
}

/// The form of a sign, by what stands before it.
#[tactic(auto, unfolding(ruby_meaning::specs::Lexing::Signs::role))]
fn role(place: Place, mark: Mark) -> Form
    ensures { result ≡ spec.role place mark }
{
    match mark {
        Mark::BraceClose if place.closes => Form::PartEnd,
        Mark::Dot if is_def_name(place.last) => Form::DefDot,
        Mark::Comma if is_undef_name(place.last) => Form::UndefComma,
        Mark::Pipe if opens_block(place.last) => Form::PipeOpen,
        Mark::Assign if !place.blank => assign_form(place.last),
        _ => Form::Op(mark),
    }
}

/// The literal that a sign begins in value position, by the unit behind its first.
#[tactic(auto, unfolding(ruby_meaning::specs::Lexing::Signs::refused_literal))]
fn refused_literal(mark: Mark, behind: u16) -> Option<Construct>
    ensures { result ≡ spec.refused_literal mark behind }
{
    match mark {
        Mark::Slash | Mark::SlashSet => Some(Construct::Regexp),
        Mark::Percent => {
            if behind == 114 {
                Some(Construct::Regexp)
            } else if behind == 120 {
                Some(Construct::XString)
            } else {
                None
            }
        }
        _ => None,
    }
}

fn of_sign(place: Place, found: Option<(Mark, usize)>, z: &[u16]) -> Stand
    requires { IfSome found (λ e. (0 < e.1) × (e.1 ≤ length z.now)) }
    ensures value { result ≡ spec.of_sign place found z.now }
    ensures within { Fits result z.now }
{
    let Some((mark, n)) = found else {
        return Stand::Refused(Construct::BadCharacter, 0);
    };
    if place.blank && blank_len(&z[n..]) == 0 && is_ambiguous(place.last, mark) {
        return Stand::Refused(Construct::AmbiguousArgument, 0);
    }
    let literal = if wants_value(place.last) {
        refused_literal(mark, unit(z, 1))
    } else {
        None
    };
    match literal {
        Some(construct) => Stand::Refused(construct, 0),
        None => Stand::Form(role(place, mark), n),
    }
}

#[tactic(auto, unfolding(ruby_meaning::specs::Lexing::Signs::is_match))]
fn is_match(z: &[u16]) -> bool
    ensures { result ≡ spec.is_match z.now }
{
    let u = unit(z, 0);
    (u == 61 || u == 33) && unit(z, 1) == 126
}

/// A sign, or a character that starts no token.
#[tactic(auto, unfolding(ruby_meaning::specs::Lexing::Signs::signed))]
pub fn signed(place: Place, z: &[u16]) -> Stand
    ensures value { result ≡ spec.signed place z.now }
    ensures within { Fits result z.now }
{
    if is_match(z) {
        Stand::Refused(Construct::Regexp, 0)
    } else if unit(z, 0) == 96 {
        Stand::Refused(Construct::XString, 0)
    } else {
        of_sign(place, sign(z), z)
    }
}

/// The operator that names a method, or else a sign.
#[tactic(auto, unfolding(ruby_meaning::specs::Lexing::Signs::method_signed))]
pub fn method_signed(method: MethodPlace, place: Place, z: &[u16]) -> Stand
    ensures value { result ≡ spec.method_signed method place z.now }
    ensures within { Fits result z.now }
{
    match method_sign(z) {
        Some((mark, n)) => Stand::Form(Form::MethodOp(method, mark), n),
        None => signed(place, z),
    }
}

/// A `:` where a symbol may begin.
#[tactic(auto, unfolding(ruby_meaning::specs::Lexing::Signs::symbol))]
pub fn symbol(place: Place, z: &[u16]) -> Stand
    requires some { 0 < length z.now }
    requires small { length z.now < 2 ^ 40 }
    ensures value { result ≡ spec.symbol place z.now }
    ensures within { Fits result z.now }
{
    let behind = &z[1..];
    if starts_name(behind) {
        return Stand::Form(Form::Symbol, 1 + word_end(behind));
    }
    if unit(z, 1) == 34 {
        return quoted(Form::QuotedSymbol, 1, z);
    }
    match method_sign(behind) {
        Some((_, n)) => Stand::Form(Form::Symbol, 1 + n),
        None => signed(place, z),
    }
}
