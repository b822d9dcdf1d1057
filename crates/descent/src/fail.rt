use opal_base::NoMemory;
use std::alloc::AllocError;

/// Why a part wasn't read.
#[derive(Clone, Copy, Debug, PartialEq, Eq)]
pub enum Fail {
    NoMemory,
    /// The token that stands next is refused.
    Refused,
}

impl From<AllocError> for Fail {
    ghost use Rattle.std.specs.Prelude.{◌≡◌};
    ghost use Rattle.descent.specs.declared.fail.Fail.{Fail};

    ghost from_gives = { λ _ e. e ≡ Fail.NoMemory };

    fn from(_error: AllocError) -> Fail {
        Fail::NoMemory
    }
}

impl From<NoMemory> for Fail {
    ghost use Rattle.std.specs.Prelude.{◌≡◌};
    ghost use Rattle.descent.specs.declared.fail.Fail.{Fail};

    ghost from_gives = { λ _ e. e ≡ Fail.NoMemory };

    fn from(_error: NoMemory) -> Fail {
        Fail::NoMemory
    }
}
