//! Characters and escapes inside texts, and how many units each has.

ghost use Rattle.std.specs.Prelude.{◌≡◌, ◌≢◌, ◌<◌, ◌≤◌, ◌+◌, ◌^◌, length, take, IfSome, true};
ghost use Rattle.ruby_meaning.specs.Lexing.Characters as spec;

use crate::units::{hex_value, is_digit, is_hex, is_letter, newline_len, unit};
use ruby_meaning::{Bracket, Spelling};

/// Whether the unit makes an escape of two units.
pub fn is_simple_escape(u: u16) -> bool
    ensures { result ≡ spec.is_simple_escape u }
{
    u == 110
        || u == 116
        || u == 114
        || u == 48
        || u == 115
        || u == 101
        || u == 97
        || u == 98
        || u == 118
        || u == 102
}

#[tactic(auto, unfolding(ruby_meaning::specs::Lexing::Characters::two_hex))]
fn two_hex(z: &[u16], at: usize) -> bool
    requires { at < 2 ^ 40 }
    ensures value { result ≡ spec.two_hex z.now at }
    ensures within { result ≡ true → at + 2 ≤ length z.now }
{
    is_hex(unit(z, at)) && is_hex(unit(z, at + 1))
}

/// The hexadecimal digits at the front.
fn hex_count(mut z: &[u16]) -> usize
    ensures value { result ≡ spec.hex_count z.entry.now }
    ensures within { result ≤ length z.entry.now }
{
    let mut n: usize = 0;
    while let [u, rest @ ..] = z {
        if !is_hex(*u) {
            return n;
        }
        n += 1;
        z = rest;
    }
    n
}

fn scalar_of(mut digits: &[u16]) -> Option<u32>
    ensures value { result ≡ spec.scalar_from 0 digits.entry.now }
    ensures small { IfSome result (λ v. v < 0x110000) }
{
    let mut v: u32 = 0;
    while let [u, rest @ ..] = digits {
        let next = v * 16 + u32::from(hex_value(*u));
        if next > 0x10_FFFF {
            return None;
        }
        v = next;
        digits = rest;
    }
    Some(v)
}

/// The number of the hexadecimal digits at the front, up to 10ffff.
#[tactic(auto, unfolding(ruby_meaning::specs::Lexing::Characters::scalar))]
pub fn scalar(z: &[u16]) -> Option<u32>
    ensures value { result ≡ spec.scalar z.now }
    ensures small { IfSome result (λ v. v < 0x110000) }
{
    scalar_of(&z[..hex_count(z)])
}

#[tactic(auto, unfolding(ruby_meaning::specs::Lexing::Characters::braced_len))]
fn braced_len(z: &[u16]) -> usize
    requires { 3 ≤ length z.now }
    ensures value { result ≡ spec.braced_len z.now }
    ensures within { result ≤ length z.now }
{
    let digits = &z[3..];
    let n = hex_count(digits);
    let end = unit(z, n + 3);
    let fits = scalar(digits).is_some();
    if 1 <= n && n <= 6 && end == 125 && fits {
        n + 4
    } else {
        0
    }
}

#[tactic(auto, unfolding(ruby_meaning::specs::Lexing::Characters::unicode_len))]
fn unicode_len(z: &[u16]) -> usize
    ensures value { result ≡ spec.unicode_len z.now }
    ensures within { result ≤ length z.now }
{
    if unit(z, 2) == 123 {
        braced_len(z)
    } else if two_hex(z, 2) && two_hex(z, 4) {
        6
    } else {
        0
    }
}

/// How many units the escape at the front has, with its backslash, or 0.
#[tactic(auto, unfolding(ruby_meaning::specs::Lexing::Characters::escape_len))]
fn escape_len(z: &[u16]) -> usize
    ensures value { result ≡ spec.escape_len z.now }
    ensures within { result ≤ length z.now }
{
    let u = unit(z, 1);
    let newline = newline_len(z, 1);
    if is_simple_escape(u) {
        2
    } else if u == 117 {
        unicode_len(z)
    } else if u == 120 {
        if two_hex(z, 2) && unit(z, 2) <= 55 {
            4
        } else {
            0
        }
    } else if newline != 0 {
        1 + newline
    } else if (u == 0 && z.len() <= 1) || 128 <= u || is_digit(u) || is_letter(u) {
        0
    } else {
        2
    }
}

/// Whether a `#` before the unit is no plain character.
fn is_after_sharp(u: u16) -> bool
    ensures { result ≡ spec.is_after_sharp u }
{
    u == 123 || u == 64 || u == 36
}

#[tactic(auto, unfolding(ruby_meaning::specs::Lexing::Characters::double_len))]
fn double_len(z: &[u16]) -> usize
    requires { 0 < length z.now }
    ensures value { result ≡ spec.double_len z.now }
    ensures within { result ≤ length z.now }
{
    let u = unit(z, 0);
    let newline = newline_len(z, 0);
    if u == 34 || (u == 35 && is_after_sharp(unit(z, 1))) {
        0
    } else if u == 92 {
        escape_len(z)
    } else if newline == 0 {
        1
    } else {
        newline
    }
}

/// Whether a backslash and what it gives in single quotes stand at the front.
#[tactic(auto, unfolding(ruby_meaning::specs::Lexing::Characters::is_single_escape))]
pub fn is_single_escape(z: &[u16]) -> bool
    ensures value { result ≡ spec.is_single_escape z.now }
    ensures within { result ≡ true → 2 ≤ length z.now }
{
    let v = unit(z, 1);
    unit(z, 0) == 92 && (v == 92 || v == 39)
}

#[tactic(auto, unfolding(ruby_meaning::specs::Lexing::Characters::single_len))]
fn single_len(z: &[u16]) -> usize
    requires { 0 < length z.now }
    ensures value { result ≡ spec.single_len z.now }
    ensures within { result ≤ length z.now }
{
    let newline = newline_len(z, 0);
    if is_single_escape(z) {
        2
    } else if unit(z, 0) == 39 {
        0
    } else if newline == 0 {
        1
    } else {
        newline
    }
}

/// How many units the separator at an offset of a list of words has, or 0.
#[tactic(auto, unfolding(ruby_meaning::specs::Lexing::Characters::separator_len))]
pub fn separator_len(z: &[u16], at: usize) -> usize
    requires { at < 2 ^ 40 }
    ensures value { result ≡ spec.separator_len z.now at }
    ensures within { (result ≢ 0 → at + result ≤ length z.now) × (result ≤ 2) }
{
    let u = unit(z, at);
    if u == 32 || u == 9 {
        1
    } else {
        newline_len(z, at)
    }
}

fn opening(bracket: Bracket) -> u16
    ensures { result ≡ spec.opening bracket }
{
    match bracket {
        Bracket::Round => 40,
        Bracket::Square => 91,
    }
}

fn closing(bracket: Bracket) -> u16
    ensures { result ≡ spec.closing bracket }
{
    match bracket {
        Bracket::Round => 41,
        Bracket::Square => 93,
    }
}

/// How many units a backslash and what it gives have in a list of words, or 0.
#[tactic(auto, unfolding(ruby_meaning::specs::Lexing::Characters::escaped_len))]
pub fn escaped_len(bracket: Bracket, z: &[u16]) -> usize
    ensures value { result ≡ spec.escaped_len bracket z.now }
    ensures within { (result ≤ length z.now) × (result ≤ 3) }
{
    let u = unit(z, 1);
    let separator = separator_len(z, 1);
    if unit(z, 0) != 92 {
        0
    } else if u == 92 || u == opening(bracket) || u == closing(bracket) {
        2
    } else if separator != 0 {
        1 + separator
    } else {
        0
    }
}

#[tactic(auto, unfolding(ruby_meaning::specs::Lexing::Characters::word_char_len))]
fn word_char_len(bracket: Bracket, z: &[u16]) -> usize
    requires { 0 < length z.now }
    ensures value { result ≡ spec.word_char_len bracket z.now }
    ensures within { result ≤ length z.now }
{
    let escaped = escaped_len(bracket, z);
    if escaped != 0 {
        escaped
    } else if separator_len(z, 0) != 0 {
        0
    } else {
        1
    }
}

/// How far the closing bracket of a list of words is.
#[tactic(auto, unfolding(ruby_meaning::specs::Lexing::Characters::inside))]
pub fn inside(bracket: Bracket, mut z: &[u16]) -> Option<u32>
    requires { length z.now < 2 ^ 32 }
    ensures value { result ≡ spec.inside bracket z.entry.now }
    ensures within { IfSome result (λ n. n < length z.entry.now) }
{
    let mut deep: u32 = 0;
    let mut left: usize = 0;
    let mut at: u32 = 0;
    while let [u, rest @ ..] = z {
        let escaped = escaped_len(bracket, z);
        if left != 0 {
            left -= 1;
        } else if escaped != 0 {
            left = escaped - 1;
        } else if *u == opening(bracket) {
            deep += 1;
        } else if *u == closing(bracket) {
            if deep == 0 {
                return Some(at);
            }
            deep -= 1;
        }
        at += 1;
        z = rest;
    }
    None
}

/// How many units the first character of a text has, or 0 where none stands.
pub fn char_len(spelling: Spelling, z: &[u16]) -> usize
    requires { 0 < length z.now }
    ensures value { result ≡ spec.char_len spelling z.now }
    ensures within { result ≤ length z.now }
{
    match spelling {
        Spelling::Double => double_len(z),
        Spelling::Single => single_len(z),
        Spelling::Word(bracket) => word_char_len(bracket, z),
    }
}
