//! Whole numbers within 2^53-1 (ECMA-262 5.1, section 8.5).

ghost use Rattle.std.specs.Prelude.{◌≡◌, ◌≤ℤ◌, ◌+ℤ◌, ◌-ℤ◌, ◌*ℤ◌, neg_ℤ, int_div, int_rem, int_lt, int_le, ◌≢◌, pos};
ghost use Rattle.std.specs.Ordering.{int_eq};
ghost use Rattle.es5_tree.specs.Values.{Num};
ghost use Rattle.es5_evaluation.specs.Values.{in_range, negated, quotient, remainder};
ghost use Rattle.es5_objects.specs.Values.{value_of};
ghost use Rattle.es5_operators.specs.Operated.{result_of};

use crate::operated::Operated;
use es5_host::OutKind;
use es5_objects::EsValue;
use es5_tree::SafeInt;

// The number, or an end outside the profile where it isn't within the range.
fn in_range(n: i64) -> Operated
    ensures { result_of result ≡ in_range n }
{
    match SafeInt::new(n) {
        Some(n) => Operated::Is(EsValue::Num(n)),
        None => Operated::Outside(OutKind::Number),
    }
}

/// The sum of two numbers (11.6.3).
pub fn plus(m: SafeInt, n: SafeInt) -> Operated
    ensures { result_of result ≡ in_range (m +ℤ n) }
{
    in_range(m.value() + n.value())
}

/// The difference of two numbers (11.6.3).
pub fn minus(m: SafeInt, n: SafeInt) -> Operated
    ensures { result_of result ≡ in_range (m -ℤ n) }
{
    in_range(m.value() - n.value())
}

/// The product of two numbers (11.5.1).
pub fn times(m: SafeInt, n: SafeInt) -> Operated
    ensures { result_of result ≡ in_range (m *ℤ n) }
{
    match m.value().checked_mul(n.value()) {
        Some(product) => in_range(product),
        None => Operated::Outside(OutKind::Number),
    }
}

// The quotient of two numbers, cut off towards 0.
fn divided(m: SafeInt, n: SafeInt) -> i64
    requires { n ≢ pos 0 }
    ensures { result ≡ int_div m n }
{
    m.value() / n.value()
}

// What a quotient that is cut off towards 0 leaves.
fn left_over(m: SafeInt, n: SafeInt) -> i64
    requires { n ≢ pos 0 }
    ensures { result ≡ int_rem m n }
{
    m.value() % n.value()
}

/// The quotient of two numbers, where it has no rest (11.5.2).
pub fn quotient(m: SafeInt, n: SafeInt) -> Operated
    ensures { result_of result ≡ quotient m n }
{
    if n.value() == 0 {
        return Operated::Outside(OutKind::Division);
    }
    if left_over(m, n) == 0 {
        in_range(divided(m, n))
    } else {
        Operated::Outside(OutKind::Division)
    }
}

/// The rest of a division, with the sign of the dividend (11.5.3).
pub fn remainder(m: SafeInt, n: SafeInt) -> Operated
    ensures { result_of result ≡ remainder m n }
{
    if n.value() == 0 {
        return Operated::Outside(OutKind::Division);
    }
    in_range(left_over(m, n))
}

/// The negative of a number (11.4.7); other values leave the profile.
pub fn negated(v: &EsValue) -> Operated
    ensures { result_of result ≡ negated (value_of v.now) }
{
    match v {
        EsValue::Num(n) => in_range(-n.value()),
        _ => Operated::Outside(OutKind::Conversion),
    }
}
