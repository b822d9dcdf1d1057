//! Operators with two values (ECMA-262 5.1, sections 11.5 to 11.9).

ghost use Rattle.std.specs.Prelude.{◌≡◌, IfOk};
ghost use Rattle.es5_tree.specs.Values.{Truth};
ghost use Rattle.es5_tree.specs.Ends.{Conversion};
ghost use Rattle.es5_tree.specs.declared.tree.Operator.TheVariants as Operator;
ghost use Rattle.es5_evaluation.specs.Values.{Is, Out, binary, sum};
ghost use Rattle.es5_objects.specs.Values.{value_of};
ghost use Rattle.es5_operators.specs.Operated.{result_of};

use crate::number::{minus, plus, quotient, remainder, times};
use crate::operated::Operated;
use crate::text::{joined, numeral, text_before};
use crate::value::same;
use es5_host::OutKind;
use es5_objects::EsValue;
use es5_tree::Operator;
use opal_base::NoMemory;
use std::alloc::Global;

// A truth value.
fn truth(is: bool) -> Operated
    ensures { result_of result ≡ Is (Truth is) }
{
    Operated::Is(EsValue::Bool(is))
}

// Other kinds of values.
fn conversion() -> Operated
    ensures { result_of result ≡ Out Conversion }
{
    Operated::Outside(OutKind::Conversion)
}

// `+` (11.6.1).
fn sum(alloc: Global, v: &EsValue, w: &EsValue) -> Result<Operated, NoMemory>
    ensures { IfOk result (λ r. result_of r ≡ sum (value_of v.now) (value_of w.now)) }
{
    match (v, w) {
        (EsValue::Num(m), EsValue::Num(n)) => Ok(plus(*m, *n)),
        (EsValue::Num(m), EsValue::Str(t)) => {
            let digits = numeral(alloc, *m)?;
            joined(alloc, digits.as_slice(), t.units().as_slice())
        }
        (EsValue::Str(s), EsValue::Num(n)) => {
            let digits = numeral(alloc, *n)?;
            joined(alloc, s.units().as_slice(), digits.as_slice())
        }
        (EsValue::Str(s), EsValue::Str(t)) => {
            joined(alloc, s.units().as_slice(), t.units().as_slice())
        }
        _ => Ok(conversion()),
    }
}

// `-` (11.6.2).
fn subtract(v: &EsValue, w: &EsValue) -> Operated
    ensures { result_of result ≡ binary Operator.Subtract (value_of v.now) (value_of w.now) }
{
    match (v, w) {
        (EsValue::Num(m), EsValue::Num(n)) => minus(*m, *n),
        _ => conversion(),
    }
}

// `*` (11.5.1).
fn multiply(v: &EsValue, w: &EsValue) -> Operated
    ensures { result_of result ≡ binary Operator.Multiply (value_of v.now) (value_of w.now) }
{
    match (v, w) {
        (EsValue::Num(m), EsValue::Num(n)) => times(*m, *n),
        _ => conversion(),
    }
}

// `/` (11.5.2).
fn divide(v: &EsValue, w: &EsValue) -> Operated
    ensures { result_of result ≡ binary Operator.Divide (value_of v.now) (value_of w.now) }
{
    match (v, w) {
        (EsValue::Num(m), EsValue::Num(n)) => quotient(*m, *n),
        _ => conversion(),
    }
}

// `%` (11.5.3).
fn rest(v: &EsValue, w: &EsValue) -> Operated
    ensures { result_of result ≡ binary Operator.Remainder (value_of v.now) (value_of w.now) }
{
    match (v, w) {
        (EsValue::Num(m), EsValue::Num(n)) => remainder(*m, *n),
        _ => conversion(),
    }
}

// `<` (11.8.1).
fn less(v: &EsValue, w: &EsValue) -> Operated
    ensures { result_of result ≡ binary Operator.Less (value_of v.now) (value_of w.now) }
{
    match (v, w) {
        (EsValue::Num(m), EsValue::Num(n)) => truth(m.value() < n.value()),
        (EsValue::Str(s), EsValue::Str(t)) => {
            truth(text_before(s.units().as_slice(), t.units().as_slice()))
        }
        _ => conversion(),
    }
}

// `<=` (11.8.3).
fn at_most(v: &EsValue, w: &EsValue) -> Operated
    ensures { result_of result ≡ binary Operator.LessOrEqual (value_of v.now) (value_of w.now) }
{
    match (v, w) {
        (EsValue::Num(m), EsValue::Num(n)) => truth(m.value() <= n.value()),
        (EsValue::Str(s), EsValue::Str(t)) => {
            truth(!text_before(t.units().as_slice(), s.units().as_slice()))
        }
        _ => conversion(),
    }
}

/// What an operator answers of two values.
pub fn binary(
    alloc: Global,
    operator: Operator,
    v: &EsValue,
    w: &EsValue,
) -> Result<Operated, NoMemory>
    ensures { IfOk result (λ r. result_of r ≡ binary operator (value_of v.now) (value_of w.now)) }
{
    match operator {
        Operator::Same => Ok(truth(same(v, w))),
        Operator::Different => Ok(truth(!same(v, w))),
        Operator::Less => Ok(less(v, w)),
        Operator::Greater => Ok(less(w, v)),
        Operator::LessOrEqual => Ok(at_most(v, w)),
        Operator::GreaterOrEqual => Ok(at_most(w, v)),
        Operator::Add => sum(alloc, v, w),
        Operator::Subtract => Ok(subtract(v, w)),
        Operator::Multiply => Ok(multiply(v, w)),
        Operator::Divide => Ok(divide(v, w)),
        Operator::Remainder => Ok(rest(v, w)),
    }
}
