//! Integers.

ghost use Rattle.std.specs.Prelude.{◌≡◌, ◌<◌, ◌≤◌, ◌+◌, ◌^◌, length, slice_index, IfSome, true};
ghost use Rattle.ruby_meaning.specs.Lexing.Characters as unit_spec;
ghost use Rattle.ruby_meaning.specs.Lexing.Numbers as spec;
ghost use Rattle.ruby_lexemes.specs.Answer.{Fits};

use crate::before::wants_value;
use crate::runs::run;
use crate::units::{hex_value, is_digit, unit};
use ruby_meaning::{Class, Construct, Form, Stand};

#[tactic(auto, unfolding(ruby_meaning::specs::Lexing::Numbers::radix))]
fn radix(z: &[u16], at: usize) -> u16
    requires { at < 2 ^ 40 }
    ensures value { result ≡ spec.radix z.now at }
    ensures small { (2 ≤ result) × (result ≤ 16) }
{
    let v = unit(z, at + 1);
    if unit(z, at) != 48 {
        10
    } else if v == 120 {
        16
    } else if v == 98 {
        2
    } else if v == 111 || v == 95 || is_digit(v) {
        8
    } else {
        10
    }
}

#[tactic(auto, unfolding(ruby_meaning::specs::Lexing::Numbers::has_prefix))]
fn has_prefix(z: &[u16], at: usize) -> bool
    requires { at < 2 ^ 40 }
    ensures value { result ≡ spec.has_prefix z.now at }
    ensures within { result ≡ true → at + 2 ≤ length z.now }
{
    let v = unit(z, at + 1);
    unit(z, at) == 48 && (v == 120 || v == 98 || v == 111)
}

fn number_start(z: &[u16], at: usize) -> usize
    requires small { at < 2 ^ 40 }
    requires within { at ≤ length z.now }
    ensures value { result ≡ spec.number_start z.now at }
    ensures within { (at ≤ result) × (result ≤ length z.now) }
{
    if has_prefix(z, at) { at + 2 } else { at }
}

fn number_end(z: &[u16], at: usize) -> usize
    requires small { at < 2 ^ 40 }
    requires within { at ≤ length z.now }
    ensures value { result ≡ spec.number_end z.now at }
    ensures within { (spec.number_start z.now at ≤ result) × (result ≤ length z.now) }
    ensures moves { unit_spec.is_digit (slice_index z.now at) ≡ true → 0 < result }
{
    let start = number_start(z, at);
    let digits = if radix(z, at) == 16 {
        Class::Hex
    } else {
        Class::Digit
    };
    start + run(digits, &z[start..])
}

/// The value of digits with single `_` between them, up to 2^53 - 1.
fn digits(radix: u16, mut z: &[u16]) -> Option<u64>
    requires { (2 ≤ radix) × (radix ≤ 16) }
    ensures value { result ≡ spec.digits radix 0 true z.entry.now }
    ensures small { IfSome result (λ n. n < 2 ^ 53) }
{
    let mut n: u64 = 0;
    let mut gap = true;
    while let [u, rest @ ..] = z {
        let digit = hex_value(*u);
        if *u == 95 {
            if gap {
                return None;
            }
            gap = true;
        } else {
            if radix <= digit {
                return None;
            }
            let more = n * u64::from(radix) + u64::from(digit);
            if (1 << 53) <= more {
                return None;
            }
            n = more;
            gap = false;
        }
        z = rest;
    }
    if gap { None } else { Some(n) }
}

/// The value of the integer whose digits begin at an offset.
#[tactic(auto, unfolding(ruby_meaning::specs::Lexing::Numbers::number_value))]
pub fn number_value(z: &[u16], at: usize) -> Option<u64>
    requires small { at < 2 ^ 40 }
    requires within { at ≤ length z.now }
    ensures value { result ≡ spec.number_value z.now at }
    ensures small { IfSome result (λ n. n < 2 ^ 53) }
{
    let start = number_start(z, at);
    let end = number_end(z, at);
    digits(radix(z, at), &z[start..end])
}

/// An integer whose digits begin at an offset.
#[tactic(auto, unfolding(ruby_meaning::specs::Lexing::Numbers::number))]
pub fn number(z: &[u16], at: usize) -> Stand
    requires small { at < 2 ^ 40 }
    requires within { at < length z.now }
    requires digit { unit_spec.is_digit (slice_index z.now at) ≡ true }
    ensures value { result ≡ spec.number z.now at }
    ensures within { Fits result z.now }
{
    let end = number_end(z, at);
    let next = unit(z, end);
    if (next == 46 && is_digit(unit(z, end + 1))) || next == 101 {
        Stand::Refused(Construct::Float, 0)
    } else if next == 114 || next == 105 {
        Stand::Refused(Construct::RationalOrComplex, 0)
    } else {
        match number_value(z, at) {
            None => Stand::Refused(Construct::NumberLiteral, 0),
            Some(_) => Stand::Form(Form::Int, end),
        }
    }
}

#[tactic(auto, unfolding(ruby_meaning::specs::Lexing::Numbers::starts_power))]
fn starts_power(z: &[u16]) -> bool
    ensures { result ≡ spec.starts_power z.now }
{
    let n = run(Class::Blank, z);
    n < z.len() && unit(z, n) == 42 && unit(z, n + 1) == 42
}

/// Whether a `-` that belongs to an integer stands at the front.
#[tactic(auto, unfolding(ruby_meaning::specs::Lexing::Numbers::is_negative))]
pub fn is_negative(last: Form, z: &[u16]) -> bool
    ensures value { result ≡ spec.is_negative last z.now }
    ensures within { result ≡ true → (1 < length z.now) × (unit_spec.is_digit (slice_index z.now 1) ≡ true) }
{
    wants_value(last)
        && unit(z, 0) == 45
        && is_digit(unit(z, 1))
        && !starts_power(&z[number_end(z, 1)..])
}
