//! Texts (ECMA-262 5.1, sections 8.4, 9.8.1 and 11.8.5).

ghost use Rattle.std.specs.Prelude.{◌≡◌, ◌++◌, length, IfOk, OnOk};
ghost use Rattle.es5_evaluation.specs.Values.{numeral, of_length, text_before};
ghost use Rattle.es5_operators.specs.Operated.{result_of};

use crate::operated::Operated;
use es5_host::OutKind;
use es5_objects::{EsText, EsValue, push_decimal};
use es5_tree::SafeInt;
use opal_base::{NoMemory, Units};
use std::alloc::Global;

// `-`
const MINUS: u16 = 45;

/// The spelling of a whole number in decimal digits (9.8.1).
pub fn numeral(alloc: Global, n: SafeInt) -> Result<Units, NoMemory>
    ensures { IfOk result (λ text. text ≡ numeral n) }
{
    let n = n.value();
    let mut units = Units::new(alloc);
    if n < 0 {
        units.push(MINUS)?;
    }
    push_decimal(&mut units, n.unsigned_abs())?;
    Ok(units)
}

/// Whether a text stands before another, by their units (11.8.5).
pub fn text_before(s: &[u16], t: &[u16]) -> bool
    ensures { result ≡ text_before s.now t.now }
{
    for i in 0..s.len() {
        if t.len() <= i {
            return false;
        }
        if s[i] != t[i] {
            return s[i] < t[i];
        }
    }
    s.len() < t.len()
}

/// Two texts as one (11.6.1); one of more than 2^53-1 units leaves the profile.
pub fn joined(alloc: Global, s: &[u16], t: &[u16]) -> Result<Operated, NoMemory>
    ensures { IfOk result (λ r. result_of r ≡ of_length (s.now ++ t.now)) }
{
    match s.len().checked_add(t.len()) {
        Some(length) if length as u64 <= SafeInt::MAX as u64 => {}
        _ => return Ok(Operated::Outside(OutKind::Number)),
    }
    let units = units_of(alloc, s, t)?;
    Ok(Operated::Is(EsValue::Str(EsText::new(alloc, units)?)))
}

// The units of two texts.
fn units_of(alloc: Global, s: &[u16], t: &[u16]) -> Result<Units, NoMemory>
    ensures { IfOk result (λ units. units ≡ s.now ++ t.now) }
{
    let mut units = match Vec::from_slice(alloc, s) {
        Ok(units) => units,
        Err(_) => return Err(NoMemory),
    };
    match units.extend_from_slice(t) {
        Ok(()) => Ok(Units::from_vec(units)),
        Err(_) => Err(NoMemory),
    }
}
