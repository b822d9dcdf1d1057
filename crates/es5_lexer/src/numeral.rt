//! Decimal numerals (ECMA-262 5.1, 7.8.3).

ghost use Rattle.std.specs.Prelude.{◌≡◌, ◌≤◌, nat_lt, IfSome, if◌then◌else◌, Some, None};
ghost use Rattle.es5_tree.specs.Numerals as spec;

use crate::class::is_letter;

/// 2^53-1.
const MAX_SAFE: u64 = 9_007_199_254_740_991;

/// The value of digits; none above 2^53-1.
fn value(digits: &[u8]) -> Option<u64>
    ensures safe { IfSome result (λ value. value ≤ 9007199254740991) }
    ensures is { result ≡ (if nat_lt MAX_SAFE (spec.value 0 digits.now) then None else Some (spec.value 0 digits.now)) }
{
    let mut rest = digits;
    let mut value = 0;
    'digits: while let [digit, more @ ..] = rest {
        value = value * 10 + u64::from(digit.saturating_sub(b'0'));
        if MAX_SAFE < value {
            return None;
        }
        rest = more;
    }
    Some(value)
}

/// The number that a run of digits spells: none with a leading zero or above 2^53-1.
#[tactic(auto, unfolding(es5_tree::specs::Numerals::numeral))]
pub fn numeral(digits: &[u8]) -> Option<u64>
    ensures is { result ≡ spec.numeral digits.now }
    ensures safe { IfSome result (λ value. value ≤ 9007199254740991) }
{
    match digits {
        [] | [b'0', _, ..] => None,
        _ => value(digits),
    }
}

/// Whether a byte stands there that may not stand directly behind a numeral.
pub fn goes_on(bytes: &[u8]) -> bool
    ensures { result ≡ spec.goes_on bytes.now }
{
    match bytes {
        [byte, ..] => is_letter(*byte) || *byte == b'.',
        [] => false,
    }
}
