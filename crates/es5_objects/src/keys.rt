//! The names that are listed (ECMA-262 5.1, section 15.2.3.14, in the order of this profile).

ghost use Rattle.std.specs.Prelude.{◌≡◌, ◌++◌, map, filter, OnOk, IfOk};
ghost use Rattle.std.specs.List.{filter_map};
ghost use Rattle.es5_tree.specs.Objects.Names.{decimal, index_of};
ghost use Rattle.es5_tree.specs.Objects.Cells.{rising, is_other_name};
ghost use Rattle.es5_objects.specs.Values.{kind_of};
ghost use Rattle.es5_objects.specs.Properties.{names};

use crate::index::{decimal, index_of, names_length};
use crate::kind::CellKind;
use crate::list::append;
use opal_base::{Names, NoMemory, Units};
use std::alloc::Global;

/// Puts the array indices among the names at the end, in the order of making.
pub fn push_indices_of(found: &mut Vec<u32>, keys: &[Vec<u16>]) -> Result<(), NoMemory>
    ensures { OnOk result (found.new.items ≡ found.old.items ++ filter_map index_of (names keys.now)) }
{
    for key in keys {
        if let Some(index) = index_of(key.as_slice()) {
            append(found, index)?;
        }
    }
    Ok(())
}

/// The numbers in rising order.
pub fn sorted(numbers: Vec<u32>) -> Result<Vec<u32>, NoMemory>
    ensures { IfOk result (λ sorted. sorted.items ≡ rising numbers.items) }
{
    let mut numbers = numbers;
    match numbers.sort() {
        Ok(()) => Ok(numbers),
        Err(_) => Err(NoMemory),
    }
}

// Puts the decimal spellings of numbers at the end.
fn push_indices(alloc: Global, names: &mut Names, numbers: &[u32]) -> Result<(), NoMemory>
    ensures { OnOk result (names.new ≡ names.old ++ map decimal numbers.now) }
{
    for number in numbers {
        names.push(decimal(alloc, *number)?)?;
    }
    Ok(())
}

// Whether a name is no index, nor the `length` of an array or of an arguments object.
fn is_other_name(kind: CellKind, name: &[u16]) -> bool
    ensures { result ≡ is_other_name (kind_of kind) name.now }
{
    index_of(name).is_none() && !(kind.has_length() && names_length(name))
}

// The text of these units again.
fn copy(key: &Vec<u16>) -> Result<Units, NoMemory>
    ensures { IfOk result (λ text. text ≡ key.now.items) }
{
    match key.clone() {
        Ok(units) => Ok(Units::from_vec(units)),
        Err(_) => Err(NoMemory),
    }
}

// Puts the other names at the end, in the order of making.
fn push_others(list: &mut Names, kind: CellKind, keys: &[Vec<u16>]) -> Result<(), NoMemory>
    ensures { OnOk result (list.new ≡ list.old ++ filter (is_other_name (kind_of kind)) (names keys.now)) }
{
    for key in keys {
        if is_other_name(kind, key.as_slice()) {
            list.push(copy(key)?)?;
        }
    }
    Ok(())
}

/// Array indices first in rising order, then the other names in the order of making.
pub fn keys_of(alloc: Global, kind: CellKind, keys: &[Vec<u16>]) -> Result<Names, NoMemory>
    ensures { IfOk result (λ list. list ≡ map decimal (rising (filter_map index_of (names keys.now))) ++ filter (is_other_name (kind_of kind)) (names keys.now)) }
{
    let mut found = Vec::new(alloc);
    push_indices_of(&mut found, keys)?;
    let numbers = sorted(found)?;
    let mut list = Names::new(alloc);
    push_indices(alloc, &mut list, &numbers)?;
    push_others(&mut list, kind, keys)?;
    Ok(list)
}
