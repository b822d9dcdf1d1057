//! Array indices as names of properties (ECMA-262 5.1, section 15.4).

ghost use Rattle.std.specs.Prelude.{◌≡◌, ◌+◌, ◌<◌, ◌++◌, map, bytes_eq, OnOk, IfOk, IfSome};
ghost use Rattle.std.specs.Int.Digits.{digits_of};
ghost use Rattle.es5_tree.specs.Objects.Names.{decimal, index_of, index_end, is_length};

use opal_base::{NoMemory, Units};
use std::alloc::Global;

// 2^32-1: each index is below it.
const INDEX_END: u64 = 4_294_967_295;

// Whether the name has just the digits of a number, none for 0.
fn has_digits(name: &[u16], n: u32) -> bool
    ensures { result ≡ bytes_eq name.now (map (λ d. 48 + d) (digits_of 10 n)) }
{
    if n == 0 {
        return name.is_empty();
    }
    if name.is_empty() {
        return false;
    }
    let end = name.len() - 1;
    u32::from(name[end]) == 48 + n % 10 && has_digits(&name[..end], n / 10)
}

// Whether the name is the decimal spelling of a number.
fn spells(name: &[u16], n: u32) -> bool
    ensures { result ≡ bytes_eq name.now (decimal n) }
{
    if n == 0 {
        name.len() == 1 && name[0] == 48
    } else {
        has_digits(name, n)
    }
}

/// The array index that a name is, or `None`. It takes no memory.
pub fn index_of(name: &[u16]) -> Option<u32>
    ensures index { result ≡ index_of name.now }
    ensures below { IfSome result (λ index. index < index_end) }
{
    let mut number: u64 = 0;
    for unit in name {
        number = number * 10 + u64::from(unit.saturating_sub(48));
        if INDEX_END <= number {
            return None;
        }
    }
    if spells(name, number as u32) {
        Some(number as u32)
    } else {
        None
    }
}

// `length`.
const LENGTH: [u16; 6] = [108, 101, 110, 103, 116, 104];

/// Whether these units are `length`.
pub(crate) fn names_length(name: &[u16]) -> bool
    ensures { result ≡ is_length name.now }
{
    name == LENGTH.as_slice()
}

/// Whether a name is `length`.
pub fn is_length(name: &Units) -> bool
    ensures { result ≡ is_length name.now }
{
    names_length(name.as_slice())
}

/// Puts the digits of a number at the end of a text.
pub fn push_decimal(units: &mut Units, n: u64) -> Result<(), NoMemory>
    ensures { OnOk result (units.new ≡ units.old ++ decimal n) }
{
    if n < 10 {
        return units.push(48 + n as u16);
    }
    push_decimal(units, n / 10)?;
    units.push(48 + (n % 10) as u16)
}

/// The decimal spelling of a number.
pub fn decimal(alloc: Global, n: u32) -> Result<Units, NoMemory>
    ensures { IfOk result (λ text. text ≡ decimal n) }
{
    let mut units = Units::new(alloc);
    push_decimal(&mut units, u64::from(n))?;
    Ok(units)
}
