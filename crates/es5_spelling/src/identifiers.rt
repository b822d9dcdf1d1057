//! Names, texts and numbers of spellable scripts.

ghost use Rattle.std.specs.Prelude.{◌≡◌, drop, codes, bytes_eq};
ghost use Rattle.std.specs.List.{list_all, list_any};
ghost use Rattle.es5_tree.specs.Characters as characters;
ghost use Rattle.es5_spelling.specs.Spellable as spec;
ghost use Rattle.es5_spelling.specs.Test as test;

use es5_tree::{SafeInt, is_reserved, is_word};
use opal_base::{Names, Units};

fn is_letter(unit: u16) -> bool
    ensures { result ≡ characters.is_letter unit }
{
    matches!(unit, 97..=122 | 65..=90 | 36 | 95)
}

fn is_name_part(unit: u16) -> bool
    ensures { result ≡ characters.is_name_part unit }
{
    is_letter(unit) || matches!(unit, 48..=57)
}

fn are_name_parts(units: &[u16]) -> bool
    ensures { result ≡ list_all characters.is_name_part units.now }
{
    units.iter().all(|unit| is_name_part(*unit))
}

fn begins_with_letter(units: &[u16]) -> bool
    ensures { result ≡ characters.begins characters.is_letter units.now }
{
    match units {
        [first, ..] => is_letter(*first),
        [] => false,
    }
}

/// Whether it is an identifier of the profile: ASCII letters, digits, `$` and `_`, no digit first, no
/// reserved word and not `eval` (ECMA-262 5.1, 7.6).
#[tactic(auto, unfolding(crate::specs::Spellable::is_identifier))]
pub fn is_identifier(name: &Units) -> bool
    ensures { result ≡ spec.is_identifier name.now }
{
    let units = name.as_slice();
    let begins = begins_with_letter(units);
    let goes_on = are_name_parts(units);
    let reserved = is_reserved(name);
    let eval = is_word(b"eval", units);
    begins && goes_on && !reserved && !eval
}

/// Whether it is `arguments`.
pub fn is_arguments(name: &Units) -> bool
    ensures { result ≡ bytes_eq (codes "arguments") name.now }
{
    is_word(b"arguments", name.as_slice())
}

/// Whether it may name a variable, a function, a parameter or what was caught.
#[tactic(auto, unfolding(crate::specs::Spellable::is_binding))]
pub fn is_binding(name: &Units) -> bool
    ensures { result ≡ spec.is_binding name.now }
{
    is_identifier(name) && !is_arguments(name)
}

pub fn is_binding_if(name: &Option<Units>) -> bool
    ensures { result ≡ test.is_binding_if name.now }
{
    match name {
        Some(name) => is_binding(name),
        None => true,
    }
}

// Whether a name is one of those from an index on.
fn stands_from(name: &Units, names: &Names, from: usize) -> bool
    ensures { result ≡ list_any (λ other. bytes_eq name.now other) (drop from names.now) }
{
    for i in from..names.len() {
        if same_name(name, names.at(i)) {
            return true;
        }
    }
    false
}

fn same_name(one: &Units, other: &Units) -> bool
    ensures { result ≡ bytes_eq one.now other.now }
{
    one.as_slice() == other.as_slice()
}

// Whether none stands twice.
fn none_twice(names: &Names) -> bool
    ensures { result ≡ spec.none_twice names.now }
{
    for i in 0..names.len() {
        if stands_from(names.at(i), names, i + 1) {
            return false;
        }
    }
    true
}

/// Whether they may be the keys of an object.
pub fn are_keys(names: &Names) -> bool
    ensures { result ≡ test.are_keys names.now }
{
    for i in 0..names.len() {
        if !is_identifier(names.at(i)) {
            return false;
        }
    }
    none_twice(names)
}

/// Whether they may be the parameters of a function.
pub fn are_params(names: &Names) -> bool
    ensures { result ≡ test.are_params names.now }
{
    for i in 0..names.len() {
        if !is_binding(names.at(i)) {
            return false;
        }
    }
    none_twice(names)
}

/// Whether a numeral spells it.
pub fn is_numeral(value: SafeInt) -> bool
    ensures { result ≡ test.is_numeral value }
{
    value.value() >= 0
}

/// Whether its units have 16 bits, as those of each text do.
pub fn is_text(text: &Units) -> bool
    ensures { result ≡ test.is_text text.now }
{
    text.as_slice().iter().all(|unit| *unit <= u16::MAX)
}
