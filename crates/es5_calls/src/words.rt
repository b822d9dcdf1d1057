//! Words of a step: values, objects and kinds.

ghost use Rattle.std.specs.Prelude.{ℕ, All, IfOk, IfSome, ◌<◌};
ghost use Rattle.es5_tree.specs.Intrinsics.Valid.{Names};
ghost use Rattle.es5_objects.specs.Values.{value_of};

use es5_host::EsValues;
use es5_objects::{CellKind, EsText, EsValue};
use es5_tree::SafeInt;
use opal_base::{NoMemory, Units, utf8_to_units};
use std::alloc::Global;

/// The first word, and what stands behind the blank after it.
pub fn first_word(text: &str) -> (&str, &str) {
    text.split_once(' ').unwrap_or((text, ""))
}

pub fn units(alloc: Global, text: &str) -> Result<Units, NoMemory> {
    match utf8_to_units(alloc, text.as_bytes()) {
        Ok(units) => Ok(units),
        Err(_) => Err(NoMemory),
    }
}

/// The object that a word names, where there is one.
pub fn object(word: &str, objects: u32) -> Option<u32>
    ensures { IfSome result (λ o. o < objects) }
{
    match word.strip_prefix('@') {
        Some(digits) => match digits.parse::<u32>() {
            Ok(o) if o < objects => Some(o),
            _ => None,
        },
        None => None,
    }
}

/// The kind that a word names.
pub fn kind(word: &str) -> CellKind {
    match word {
        "array" => CellKind::Array,
        "arguments" => CellKind::Arguments,
        "function" => CellKind::Function { code: 3, scope: 4 },
        _ => CellKind::Object,
    }
}

// The number that a word is; another word is undefined.
fn number(word: &str) -> EsValue
    ensures { (n : ℕ) → Names n (value_of result) }
{
    match word.parse::<i64>() {
        Ok(n) => match SafeInt::new(n) {
            Some(n) => EsValue::Num(n),
            None => EsValue::Undefined,
        },
        Err(_) => EsValue::Undefined,
    }
}

/// The value that a word without an object or a text is.
pub fn named_value(word: &str) -> EsValue
    ensures { (n : ℕ) → Names n (value_of result) }
{
    match word {
        "null" => EsValue::Null,
        "true" => EsValue::Bool(true),
        "false" => EsValue::Bool(false),
        _ => number(word),
    }
}

/// The value that a word is; a word of another form is undefined.
pub fn value(alloc: Global, word: &str, objects: u32) -> Result<EsValue, NoMemory>
    ensures { IfOk result (λ v. Names objects (value_of v)) }
{
    if let Some(o) = object(word, objects) {
        return Ok(EsValue::Obj(o));
    }
    if let Some(text) = word.strip_prefix('\'') {
        let text = text.strip_suffix('\'').unwrap_or(text);
        return Ok(EsValue::Str(EsText::new(alloc, units(alloc, text)?)?));
    }
    Ok(named_value(word))
}

/// The values that words are.
pub fn values(alloc: Global, words: &str, objects: u32) -> Result<EsValues, NoMemory>
    ensures { IfOk result (λ vs. All (Names objects) vs) }
{
    let mut list = EsValues::new(alloc);
    for word in words.split_terminator(' ') {
        list.push(value(alloc, word, objects)?)?;
    }
    Ok(list)
}
