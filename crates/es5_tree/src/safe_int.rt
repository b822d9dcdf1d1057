ghost use Rattle.std.specs.Prelude.{◌≡◌, ◌≤◌, pos, SomeIff};
ghost use Rattle.es5_tree.specs.Objects.Numbers.{IsSafe};

use std::marker::Model;

/// A whole number within 2^53-1 (ECMA-262 5.1, section 8.5: these have no rounding).
#[derive(Clone, Copy, Drop)]
pub struct SafeInt {
    value: i64,
}

impl Model for SafeInt {
    ghost use Rattle.std.specs.Prelude.{ℤ};
    ghost use Rattle.es5_tree.specs.Objects.Numbers.{IsSafe};

    ghost Value = { ℤ };

    ghost view = { λ n. n.value };

    ghost invariant = { λ n. IsSafe n.value };

    ghost inverse = { λ z. record { value = z } };
}

impl SafeInt {
    /// 2^53-1.
    pub const MAX: i64 = 9_007_199_254_740_991;

    /// The number, or `None` exactly where it isn't within 2^53-1.
    pub fn new(value: i64) -> Option<SafeInt>
        ensures { SomeIff result (IsSafe value) value }
    {
        if -Self::MAX <= value && value <= Self::MAX {
            Some(SafeInt { value })
        } else {
            None
        }
    }

    /// The number, which is small enough.
    pub fn from_u32(value: u32) -> SafeInt
        ensures { result ≡ pos value }
    {
        SafeInt {
            value: i64::from(value),
        }
    }

    /// The number, which is at most 2^53-1.
    pub fn from_u64(value: u64) -> SafeInt
        requires { value ≤ 9007199254740991 }
        ensures { result ≡ pos value }
    {
        SafeInt {
            value: value as i64,
        }
    }

    /// The number.
    pub fn value(self) -> i64
        ensures value { result ≡ self }
        ensures safe { IsSafe result }
    {
        self.value
    }
}
