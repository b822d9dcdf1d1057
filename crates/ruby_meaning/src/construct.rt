ghost use Rattle.std.specs.Prelude.{◌≡◌};
ghost use Rattle.ruby_meaning.specs.Constructs.{construct_name};
ghost use Rattle.ruby_meaning.specs.declared.construct.Stop.TheVariants as stop;

use opal_base::{NoMemory, Pos};
use std::alloc::AllocError;

/// What a refusal names: a construct outside the profile, or a limit that is passed.
#[derive(Clone, Copy, Debug, PartialEq, Eq)]
pub enum Construct {
    Syntax = 1,
    BadByte = 2,
    BadCharacter = 3,
    Unterminated = 4,
    Float = 5,
    RationalOrComplex = 6,
    Regexp = 7,
    XString = 8,
    Eval = 9,
    ThreadOrFiber = 10,
    ClassVariable = 11,
    SpecialGlobal = 12,
    KeywordParameter = 13,
    DefinedTest = 14,
    Redo = 15,
    FlipFlop = 16,
    BeginEndBlock = 17,
    PatternMatch = 18,
    DynamicRequire = 19,
    NumberLiteral = 20,
    AmbiguousArgument = 21,
    JumpOutside = 22,
    DynamicConstant = 23,
    BareLambda = 24,
    TooDeep = 25,
    FileTooLong = 26,
    BundleTooLarge = 27,
    /// A form of the profile that isn't built yet.
    NotYet = 28,
}

impl Construct {
    /// The name of the variant.
    pub fn name(self) -> &'static str
        ensures { result.now ≡ construct_name self }
    {
        match self {
            Construct::Syntax => "Syntax",
            Construct::BadByte => "BadByte",
            Construct::BadCharacter => "BadCharacter",
            Construct::Unterminated => "Unterminated",
            Construct::Float => "Float",
            Construct::RationalOrComplex => "RationalOrComplex",
            Construct::Regexp => "Regexp",
            Construct::XString => "XString",
            Construct::Eval => "Eval",
            Construct::ThreadOrFiber => "ThreadOrFiber",
            Construct::ClassVariable => "ClassVariable",
            Construct::SpecialGlobal => "SpecialGlobal",
            Construct::KeywordParameter => "KeywordParameter",
            Construct::DefinedTest => "DefinedTest",
            Construct::Redo => "Redo",
            Construct::FlipFlop => "FlipFlop",
            Construct::BeginEndBlock => "BeginEndBlock",
            Construct::PatternMatch => "PatternMatch",
            Construct::DynamicRequire => "DynamicRequire",
            Construct::NumberLiteral => "NumberLiteral",
            Construct::AmbiguousArgument => "AmbiguousArgument",
            Construct::JumpOutside => "JumpOutside",
            Construct::DynamicConstant => "DynamicConstant",
            Construct::BareLambda => "BareLambda",
            Construct::TooDeep => "TooDeep",
            Construct::FileTooLong => "FileTooLong",
            Construct::BundleTooLarge => "BundleTooLarge",
            Construct::NotYet => "NotYet",
        }
    }
}

/// Why a text was not taken: no memory was found, or it is refused at a place.
#[derive(Clone, Copy, Debug, PartialEq, Eq)]
pub enum Stop {
    NoMemory,
    Refused { pos: Pos, construct: Construct },
}

impl From<AllocError> for Stop {
    ghost from_gives = { λ _ result. result ≡ stop.NoMemory };

    fn from(_e: AllocError) -> Stop {
        Stop::NoMemory
    }
}

impl From<NoMemory> for Stop {
    ghost from_gives = { λ _ result. result ≡ stop.NoMemory };

    fn from(_none: NoMemory) -> Stop {
        Self::NoMemory
    }
}
