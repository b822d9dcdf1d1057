//! What a token carries, from its slice.

ghost use Rattle.std.specs.Prelude.{◌≡◌, ◌≢◌, ◌+◌, ◌<◌, ◌≤◌, ◌^◌, [], ◌∷◌, ◌++◌, length, drop, slice_index, true, OnOk, IfOk};
ghost use Rattle.ruby_meaning.specs.Lexing.Characters as unit_spec;
ghost use Rattle.ruby_meaning.specs.Lexing.Texts as spec;
ghost use Rattle.ruby_meaning.specs.Lexing.Lexes.{integer, words_mark, symbols_mark, end_mark, kind_of};

use opal_base::{NoMemory, Units};
use ruby_lexemes::{
    char_len, escaped_len, hex_value, is_simple_escape, is_single_escape, newline_len,
    number_value, scalar, unit,
};
use ruby_meaning::{Bracket, Form, Mark, Spelling, TokenKind};
use std::alloc::Global;

fn simple_escape(u: u16) -> u16
    ensures { result ≡ spec.simple_escape u }
{
    match u {
        110 => 10,
        116 => 9,
        114 => 13,
        48 => 0,
        115 => 32,
        101 => 27,
        97 => 7,
        98 => 8,
        118 => 11,
        _ => 12,
    }
}

#[tactic(auto, unfolding(ruby_meaning::specs::Lexing::Texts::two_hex_value, ruby_meaning::specs::Lexing::Characters::two_hex))]
fn two_hex_value(z: &[u16], at: usize) -> u16
    requires at { at < 2 ^ 40 }
    requires digits { unit_spec.two_hex z.now at ≡ true }
    ensures value { result ≡ spec.two_hex_value z.now at }
    ensures small { result < 256 }
{
    hex_value(unit(z, at)) * 16 + hex_value(unit(z, at + 1))
}

/// Puts a character in UTF-16.
fn push_scalar(out: &mut Units, c: u32) -> Result<(), NoMemory>
    requires { c < 0x110000 }
    ensures ok { OnOk result (out.new ≡ out.old ++ spec.units_of c) }
{
    if c < 0x1_0000 {
        return out.push(c as u16);
    }
    let over = c - 0x1_0000;
    out.push((0xD800 + over / 0x400) as u16)?;
    out.push((0xDC00 + over % 0x400) as u16)
}

#[tactic(auto, unfolding(ruby_meaning::specs::Lexing::Texts::unicode_escape, ruby_meaning::specs::Lexing::Characters::unicode_len))]
fn push_unicode_escape(out: &mut Units, z: &[u16]) -> Result<(), NoMemory>
    requires { unit_spec.unicode_len z.now ≢ 0 }
    ensures ok { OnOk result (out.new ≡ out.old ++ spec.unicode_escape z.now) }
{
    if unit(z, 2) == 123 {
        push_scalar(out, scalar(&z[3..]).unwrap_or(0))
    } else {
        out.push(two_hex_value(z, 2) * 256 + two_hex_value(z, 4))
    }
}

#[tactic(auto, unfolding(ruby_meaning::specs::Lexing::Texts::escape, ruby_meaning::specs::Lexing::Characters::escape_len))]
fn push_escape(out: &mut Units, z: &[u16]) -> Result<(), NoMemory>
    requires { unit_spec.escape_len z.now ≢ 0 }
    ensures ok { OnOk result (out.new ≡ out.old ++ spec.escape z.now) }
{
    let u = unit(z, 1);
    if is_simple_escape(u) {
        out.push(simple_escape(u))
    } else if u == 117 {
        push_unicode_escape(out, z)
    } else if u == 120 {
        out.push(two_hex_value(z, 2))
    } else if newline_len(z, 1) != 0 {
        Ok(())
    } else {
        out.push(u)
    }
}

#[tactic(auto, unfolding(ruby_meaning::specs::Lexing::Texts::plain))]
fn push_plain(out: &mut Units, z: &[u16], at: usize) -> Result<(), NoMemory>
    requires { at < 2 ^ 40 }
    ensures ok { OnOk result (out.new ≡ out.old ++ spec.plain z.now at) }
{
    let u = unit(z, at);
    out.push(if newline_len(z, at) == 0 { u } else { 10 })
}

#[tactic(auto, unfolding(ruby_meaning::specs::Lexing::Texts::means, ruby_meaning::specs::Lexing::Characters::double_len))]
fn push_char(out: &mut Units, spelling: Spelling, z: &[u16]) -> Result<(), NoMemory>
    requires { unit_spec.char_len spelling z.now ≢ 0 }
    ensures ok { OnOk result (out.new ≡ out.old ++ spec.means spelling z.now) }
{
    match spelling {
        Spelling::Double => {
            if unit(z, 0) == 92 {
                push_escape(out, z)
            } else {
                push_plain(out, z, 0)
            }
        }
        Spelling::Single => {
            let at = if is_single_escape(z) { 1 } else { 0 };
            push_plain(out, z, at)
        }
        Spelling::Word(bracket) => {
            let at = if escaped_len(bracket, z) == 0 { 0 } else { 1 };
            push_plain(out, z, at)
        }
    }
}

/// The units that the characters of a text stand for.
fn content(alloc: Global, spelling: Spelling, z: &[u16]) -> Result<Units, NoMemory>
    ensures { IfOk result (λ u. u ≡ spec.content spelling z.now) }
{
    let mut out = Units::new(alloc);
    let mut end = 0;
    'chars: while end < z.len() {
        let n = char_len(spelling, &z[end..]);
        if n == 0 {
            break;
        }
        push_char(&mut out, spelling, &z[end..])?;
        end += n;
    }
    Ok(out)
}

fn copied(alloc: Global, z: &[u16]) -> Result<Units, NoMemory>
    ensures { IfOk result (λ u. u ≡ z.now) }
{
    let mut out = Units::new(alloc);
    for u in z {
        out.push(*u)?;
    }
    Ok(out)
}

#[tactic(auto, unfolding(ruby_meaning::specs::Lexing::Lexes::integer))]
fn integer(slice: &[u16]) -> i64
    requires { 0 < length slice.now }
    ensures { result ≡ integer slice.now }
{
    if unit(slice, 0) == 45 {
        -(number_value(slice, 1).unwrap_or(0) as i64)
    } else {
        number_value(slice, 0).unwrap_or(0) as i64
    }
}

fn unquoted(slice: &[u16]) -> &[u16]
    ensures { result.now ≡ spec.unquoted slice.now }
{
    if slice.len() < 2 {
        &[]
    } else {
        &slice[1..slice.len() - 1]
    }
}

fn words_mark(bracket: Bracket) -> Mark
    ensures { result ≡ words_mark bracket }
{
    match bracket {
        Bracket::Round => Mark::WordsRound,
        Bracket::Square => Mark::WordsSquare,
    }
}

fn symbols_mark(bracket: Bracket) -> Mark
    ensures { result ≡ symbols_mark bracket }
{
    match bracket {
        Bracket::Round => Mark::SymbolsRound,
        Bracket::Square => Mark::SymbolsSquare,
    }
}

fn end_mark(bracket: Bracket) -> Mark
    ensures { result ≡ end_mark bracket }
{
    match bracket {
        Bracket::Round => Mark::ListEndRound,
        Bracket::Square => Mark::ListEndSquare,
    }
}

/// The token of a form, or nothing where the form is skipped.
#[tactic(auto, unfolding(ruby_meaning::specs::Lexing::Lexes::kind_of))]
pub fn kind_of(alloc: Global, form: Form, slice: &[u16]) -> Result<Option<TokenKind>, NoMemory>
    requires { 0 < length slice.now }
    ensures { IfOk result (λ k. k ≡ kind_of form slice.now) }
{
    Ok(Some(match form {
        Form::Bom | Form::Blank | Form::Comment | Form::Block | Form::Joint | Form::Separator =>
            return Ok(None),
        Form::Newline => TokenKind::Newline,
        Form::Name | Form::MethodName(_) => TokenKind::Name(copied(alloc, slice)?),
        Form::Const | Form::MethodConst(_) => TokenKind::Const(copied(alloc, slice)?),
        Form::Ivar => TokenKind::Ivar(copied(alloc, slice)?),
        Form::Gvar => TokenKind::Gvar(copied(alloc, slice)?),
        Form::Label => TokenKind::Label(copied(alloc, slice)?),
        Form::MethodSet(_) => TokenKind::Op(Mark::Assign),
        Form::DefDot => TokenKind::Op(Mark::Dot),
        Form::UndefComma => TokenKind::Op(Mark::Comma),
        Form::PipeOpen => TokenKind::Op(Mark::Pipe),
        Form::Keyword(word) => TokenKind::Keyword(word),
        Form::Op(mark) | Form::MethodOp(_, mark) => TokenKind::Op(mark),
        Form::Int => TokenKind::Int(integer(slice)),
        Form::Text => TokenKind::Text(content(alloc, Spelling::Double, unquoted(slice))?),
        Form::RawText => TokenKind::Text(content(alloc, Spelling::Single, unquoted(slice))?),
        Form::Symbol => TokenKind::Text(copied(alloc, &slice[1..])?),
        Form::QuotedSymbol => {
            TokenKind::Text(content(alloc, Spelling::Double, unquoted(&slice[1..]))?)
        }
        Form::TextBegin => TokenKind::TextBegin,
        Form::Chunk => TokenKind::Text(content(alloc, Spelling::Double, slice)?),
        Form::PartBegin => TokenKind::PartBegin,
        Form::PartEnd => TokenKind::PartEnd,
        Form::TextEnd => TokenKind::TextEnd,
        Form::WordsBegin(bracket, _) => TokenKind::Op(words_mark(bracket)),
        Form::SymbolsBegin(bracket, _) => TokenKind::Op(symbols_mark(bracket)),
        Form::ListWord(bracket) => {
            TokenKind::Text(content(alloc, Spelling::Word(bracket), slice)?)
        }
        Form::ListEnd(bracket) => TokenKind::Op(end_mark(bracket)),
    }))
}
