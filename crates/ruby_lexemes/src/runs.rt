//! Runs of members of a class.

ghost use Rattle.std.specs.Prelude.{◌≡◌, ◌≢◌, ◌<◌, ◌≤◌, if◌then◌else◌, length};
ghost use Rattle.ruby_meaning.specs.Lexing.Runs as spec;

use crate::escapes::{char_len, separator_len};
use crate::units::{
    begins, blank_len, code_len, goes_on_name, is_digit, is_hex, line_len, newline_len, unit,
};
use ruby_meaning::{BLOCK_END, Class};

fn one_if(holds: bool) -> usize
    ensures { result ≡ if holds then 1 else 0 }
{
    if holds { 1 } else { 0 }
}

fn step(class: Class, z: &[u16]) -> usize
    requires { 0 < length z.now }
    ensures value { result ≡ spec.step class z.now }
    ensures within { result ≤ length z.now }
{
    let u = unit(z, 0);
    match class {
        Class::Blank => blank_len(z),
        Class::Name => if goes_on_name(z) { code_len(z) } else { 0 },
        Class::Digit => one_if(is_digit(u) || u == 95),
        Class::Hex => one_if(is_hex(u) || u == 95),
        Class::Line => one_if(newline_len(z, 0) == 0),
        Class::Block => if begins(BLOCK_END, z) { 0 } else { line_len(z) },
        Class::Separator => separator_len(z, 0),
        Class::Char(spelling) => char_len(spelling, z),
    }
}

/// The length of the longest run of the class at the front.
pub fn run(class: Class, z: &[u16]) -> usize
    ensures value { result ≡ spec.run class z.now }
    ensures within { result ≤ length z.now }
    ensures moves { 0 < length z.now → spec.step class z.now ≢ 0 → 0 < result }
{
    let mut end = 0;
    'members: while end < z.len() {
        let more = step(class, &z[end..]);
        if more == 0 {
            break;
        }
        end += more;
    }
    end
}
