//! The texts that a `require` takes.

ghost use Rattle.std.specs.Prelude.{◌≡◌, ℕ, ◌+◌, ◌≤◌, ◌<◌, ◌^◌, Some, None, [], ◌++◌, IfOk, IfSome, OnOk, unwrap_or, codes, true, false, if◌then◌else◌};
ghost use Rattle.ruby_meaning.specs.Scoping.Requires as spec;

use opal_base::{NoMemory, Units};
use std::alloc::Global;

fn is_high(unit: u16) -> bool
    ensures { result ≡ spec.is_high unit }
{
    55296 <= unit && unit <= 56319
}

fn is_low(unit: u16) -> bool
    ensures { result ≡ spec.is_low unit }
{
    56320 <= unit && unit <= 57343
}

fn has_lone_surrogate(text: &[u16]) -> bool
    ensures { result ≡ spec.has_lone_surrogate false text.now }
{
    let mut high = false;
    for unit in text {
        if high {
            if !is_low(*unit) {
                return true;
            }
            high = false;
        } else {
            if is_low(*unit) {
                return true;
            }
            high = is_high(*unit);
        }
    }
    high
}

// The directory behind a segment, where there is one: `below` says how many are below the base,
// where that is asked.
fn behind(below: Option<usize>, part: &[u16]) -> Option<Option<usize>>
    requires { unwrap_or below 0 < 2 ^ 63 }
    ensures value { result ≡ spec.behind below part.now }
    ensures one { IfSome result (λ b. unwrap_or b 0 ≤ unwrap_or below 0 + 1) }
{
    if part.is_empty() {
        return None;
    }
    match below {
        None => Some(None),
        Some(n) if part == [46].as_slice() => Some(Some(n)),
        Some(n) if part == [46, 46].as_slice() => { if 1 <= n { Some(Some(n - 1)) } else { None } }
        Some(n) => Some(Some(n + 1)),
    }
}

// Whether no segment is empty, and no `..` goes above the base.
fn stays_within(alloc: Global, first: Option<usize>, path: &[u16]) -> Result<bool, NoMemory>
    requires { unwrap_or first 0 ≤ 0 }
    ensures { IfOk result (λ b. b ≡ spec.stays_within first (spec.segments [] path.now)) }
{
    let mut below = first;
    let mut part = Units::new(alloc);
    for unit in path {
        if *unit == 47 {
            match behind(below, part.as_slice()) {
                None => return Ok(false),
                Some(next) => below = next,
            }
            part = Units::new(alloc);
        } else {
            part.push(*unit)?;
        }
    }
    Ok(behind(below, part.as_slice()).is_some())
}

/// The name of the file: `.rb` is added where it isn't the end.
#[tactic(auto, unfolding(ruby_meaning::specs::Scoping::Requires::file_name))]
fn file_name(text: &Units) -> Result<Units, NoMemory>
    ensures { IfOk result (λ name. name ≡ spec.file_name text.now) }
{
    let mut name = text.try_clone()?;
    let units = text.as_slice();
    let from = units.len().saturating_sub(3);
    if &units[from..] != [46, 114, 98].as_slice() {
        name.push(46)?;
        name.push(114)?;
        name.push(98)?;
    }
    Ok(name)
}

/// Whether the text names a file.
#[tactic(auto, unfolding(ruby_meaning::specs::Scoping::Requires::names_file))]
pub fn names_file(alloc: Global, relative: bool, text: &Units) -> Result<bool, NoMemory>
    ensures { IfOk result (λ b. b ≡ spec.names_file (if relative then None else Some 0) text.now) }
{
    if has_lone_surrogate(text.as_slice()) {
        return Ok(false);
    }
    let name = file_name(text)?;
    stays_within(
        alloc,
        if relative { None } else { Some(0) },
        name.as_slice(),
    )
}

/// The name that a `require` keeps.
#[tactic(auto, unfolding(ruby_meaning::specs::Scoping::Requires::required_name))]
pub fn required_name(alloc: Global, relative: bool, text: &Units) -> Result<Units, NoMemory>
    ensures { IfOk result (λ name. name ≡ spec.required_name relative text.now) }
{
    if !relative && text.as_slice() == [111, 112, 97, 108].as_slice() {
        Ok(Units::new(alloc))
    } else {
        file_name(text)
    }
}
