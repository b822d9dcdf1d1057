ghost use Rattle.std.specs.Prelude.{◌≡◌, ◌↔◌, Some};
ghost use Rattle.es5_tree.specs.Intrinsics.Rows.{Throws, not_covered};
ghost use Rattle.es5_objects.specs.Heap.{Heap};
ghost use Rattle.es5_host.specs.Answers.{Answered};
ghost use Rattle.es5_host.specs.Values.{number_of};

use crate::values::EsValues;
use es5_objects::EsValue;
use es5_tree::word_units;
use opal_base::Units;
use std::alloc::Global;

/// The intrinsic functions, in the order of their numbers from 0.
#[derive(Clone, Copy, Debug, PartialEq, Eq, Drop)]
pub enum HostFn {
    Create,
    GetPrototypeOf,
    SetPrototypeOf,
    Keys,
    HasOwnProperty,
    Call,
    Apply,
    IsArray,
    Push,
    Slice,
    CharCodeAt,
    Substring,
    IndexOf,
    FromCharCode,
    Write,
    Line,
}

impl HostFn {
    /// The number.
    pub fn number(self) -> u32
        ensures { result ≡ number_of self }
    {
        match self {
            HostFn::Create => 0,
            HostFn::GetPrototypeOf => 1,
            HostFn::SetPrototypeOf => 2,
            HostFn::Keys => 3,
            HostFn::HasOwnProperty => 4,
            HostFn::Call => 5,
            HostFn::Apply => 6,
            HostFn::IsArray => 7,
            HostFn::Push => 8,
            HostFn::Slice => 9,
            HostFn::CharCodeAt => 10,
            HostFn::Substring => 11,
            HostFn::IndexOf => 12,
            HostFn::FromCharCode => 13,
            HostFn::Write => 14,
            HostFn::Line => 15,
        }
    }
}

// They in the order of their numbers.
const FUNCTIONS: [HostFn; 16] = [
    HostFn::Create,
    HostFn::GetPrototypeOf,
    HostFn::SetPrototypeOf,
    HostFn::Keys,
    HostFn::HasOwnProperty,
    HostFn::Call,
    HostFn::Apply,
    HostFn::IsArray,
    HostFn::Push,
    HostFn::Slice,
    HostFn::CharCodeAt,
    HostFn::Substring,
    HostFn::IndexOf,
    HostFn::FromCharCode,
    HostFn::Write,
    HostFn::Line,
];

/// The intrinsic function of a number, none from 16 on.
pub fn host_fn(number: u32) -> Option<HostFn>
    ensures { (which : HostFn) → ((result ≡ Some which) ↔ (number ≡ number_of which)) }
{
    FUNCTIONS.get(number as usize).copied()
}

/// What a script did that the profile doesn't cover.
#[derive(Clone, Copy, Debug, PartialEq, Eq, Drop)]
pub enum OutKind {
    /// A number that is no whole number of the profile.
    Number,
    /// A division.
    Division,
    /// A conversion of a value to another type.
    Conversion,
    /// A call of the host.
    Host,
}

/// What a call of an intrinsic function comes to.
#[derive(Drop)]
pub enum HostAnswer {
    Value(EsValue),
    /// A plain object with these own properties `name` and `message` is thrown.
    Throw {
        name: Units,
        message: Units,
    },
    /// A function is called, by its number.
    Invoke {
        callee: u32,
        this: EsValue,
        args: EsValues,
    },
    /// The call left the profile.
    Outside(OutKind),
    /// No cell is left for the object that the call makes.
    CellsFull,
    /// The sink failed.
    WriteFault,
    /// No memory was found.
    NoMemory,
}

/// The answer to a call that no row covers.
pub(crate) fn not_covered() -> HostAnswer
    ensures { (h : Heap) → Answered not_covered result h h }
{
    HostAnswer::Outside(OutKind::Host)
}

/// A TypeError with a message.
pub(crate) fn type_error(alloc: Global, message: &[u8]) -> HostAnswer
    ensures { (h : Heap) → Answered (Throws message.now) result h h }
{
    let name = match word_units(alloc, b"TypeError") {
        Ok(name) => name,
        Err(_) => return HostAnswer::NoMemory,
    };
    match word_units(alloc, message) {
        Ok(message) => HostAnswer::Throw { name, message },
        Err(_) => HostAnswer::NoMemory,
    }
}
