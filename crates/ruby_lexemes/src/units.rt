//! Single characters of a text.

ghost use Rattle.std.specs.Prelude.{◌≡◌, ◌≢◌, ◌<◌, ◌≤◌, ◌+◌, ◌^◌, length, slice_index, true};
ghost use Rattle.ruby_meaning.specs.Lexing.Characters as spec;

/// The unit at an offset, or 0 past the end.
pub fn unit(z: &[u16], at: usize) -> u16
    ensures value { result ≡ slice_index z.now at }
    ensures within { result ≢ 0 → at < length z.now }
{
    if at < z.len() { z[at] } else { 0 }
}

/// Whether the text begins with the word.
pub fn begins(mut word: &[u8], mut z: &[u16]) -> bool
    ensures value { result ≡ spec.begins word.entry.now z.entry.now }
    ensures within { result ≡ true → length word.entry.now ≤ length z.entry.now }
{
    while let [k, more @ ..] = word {
        let [u, us @ ..] = z else {
            return false;
        };
        if u16::from(*k) != *u {
            return false;
        }
        word = more;
        z = us;
    }
    true
}

/// How many units the newline at an offset has, or 0.
#[tactic(auto, unfolding(ruby_meaning::specs::Lexing::Characters::newline_len))]
pub fn newline_len(z: &[u16], at: usize) -> usize
    requires { at < 2 ^ 40 }
    ensures value { result ≡ spec.newline_len z.now at }
    ensures within { (result ≢ 0 → at + result ≤ length z.now) × (result ≤ 2) }
{
    if unit(z, at) == 10 {
        1
    } else if unit(z, at) == 13 && unit(z, at + 1) == 10 {
        2
    } else {
        0
    }
}

pub fn is_digit(u: u16) -> bool
    ensures { result ≡ spec.is_digit u }
{
    48 <= u && u <= 57
}

pub fn is_hex(u: u16) -> bool
    ensures { result ≡ spec.is_hex u }
{
    is_digit(u) || (65 <= u && u <= 70) || (97 <= u && u <= 102)
}

/// The value of a hexadecimal digit, and 16 for another unit.
pub fn hex_value(u: u16) -> u16
    ensures value { result ≡ spec.hex_value u }
    ensures small { result ≤ 16 }
    ensures digit { spec.is_hex u ≡ true → result < 16 }
{
    if is_digit(u) {
        u - 48
    } else if 97 <= u && u <= 102 {
        u - 87
    } else if 65 <= u && u <= 70 {
        u - 55
    } else {
        16
    }
}

pub fn is_letter(u: u16) -> bool
    ensures { result ≡ spec.is_letter u }
{
    (65 <= u && u <= 90) || (97 <= u && u <= 122)
}

/// How many units the blank at the front has, or 0.
pub fn blank_len(z: &[u16]) -> usize
    ensures value { result ≡ spec.blank_len z.now }
    ensures within { result ≤ length z.now }
{
    let u = unit(z, 0);
    let newline = newline_len(z, 1);
    if u == 32 || u == 9 {
        1
    } else if u == 92 && newline != 0 {
        1 + newline
    } else {
        0
    }
}

/// The units of the first line, with its line feed.
pub fn line_len(mut z: &[u16]) -> usize
    ensures value { result ≡ spec.line_len z.entry.now }
    ensures within { result ≤ length z.entry.now }
    ensures moves { 0 < length z.entry.now → 0 < result }
{
    let mut n: usize = 0;
    while let [u, rest @ ..] = z {
        n += 1;
        if *u == 10 {
            return n;
        }
        z = rest;
    }
    n
}

fn is_pair(z: &[u16]) -> bool
    ensures value { result ≡ spec.is_pair z.now }
    ensures within { result ≡ true → 2 ≤ length z.now }
{
    let (u, v) = (unit(z, 0), unit(z, 1));
    0xD800 <= u && u < 0xDC00 && 0xDC00 <= v && v < 0xE000
}

fn code(z: &[u16]) -> u32
    ensures { result ≡ spec.code z.now }
{
    let u = u32::from(unit(z, 0));
    if is_pair(z) {
        0x1_0000 + (u - 0xD800) * 0x400 + (u32::from(unit(z, 1)) - 0xDC00)
    } else {
        u
    }
}

/// How many units the first character has, of a text that isn't empty.
pub fn code_len(z: &[u16]) -> usize
    requires { 0 < length z.now }
    ensures value { result ≡ spec.code_len z.now }
    ensures within { result ≤ length z.now }
{
    if is_pair(z) { 2 } else { 1 }
}

/// Whether a name can start with the first character.
#[tactic(auto, unfolding(ruby_meaning::specs::Lexing::Characters::starts_name, ruby_meaning::specs::Lexing::Characters::goes_on_name))]
pub fn starts_name(z: &[u16]) -> bool
    ensures value { result ≡ spec.starts_name z.now }
    ensures goes_on { result ≡ true → spec.goes_on_name z.now ≡ true }
    ensures some { result ≡ true → 0 < length z.now }
{
    let u = unit(z, 0);
    if u < 128 {
        return is_letter(u) || u == 95;
    }
    match char::from_u32(code(z)) {
        Some(ch) => unicode_ident::is_xid_start(ch),
        None => false,
    }
}

/// Whether the first character can go on a name.
#[tactic(auto, unfolding(ruby_meaning::specs::Lexing::Characters::goes_on_name))]
pub fn goes_on_name(z: &[u16]) -> bool
    ensures value { result ≡ spec.goes_on_name z.now }
{
    let u = unit(z, 0);
    if u < 128 {
        return is_letter(u) || is_digit(u) || u == 95;
    }
    match char::from_u32(code(z)) {
        Some(ch) => unicode_ident::is_xid_continue(ch),
        None => false,
    }
}
