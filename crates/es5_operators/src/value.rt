//! Truth and sameness of values.

ghost use Rattle.std.specs.Prelude.{◌≡◌};
ghost use Rattle.es5_evaluation.specs.Values.{same, truthy};
ghost use Rattle.es5_objects.specs.Values.{value_of};

use es5_objects::EsValue;

/// The truth value that a condition takes of a value (9.2).
pub fn truthy(v: &EsValue) -> bool
    ensures { result ≡ truthy (value_of v.now) }
{
    match v {
        EsValue::Undefined => false,
        EsValue::Null => false,
        EsValue::Bool(truth) => *truth,
        EsValue::Num(n) => n.value() != 0,
        EsValue::Str(text) => text.units().len() != 0,
        EsValue::Obj(_) => true,
    }
}

/// Whether two values are the same (11.9.6).
pub fn same(v: &EsValue, w: &EsValue) -> bool
    ensures { result ≡ same (value_of v.now) (value_of w.now) }
{
    match (v, w) {
        (EsValue::Undefined, EsValue::Undefined) => true,
        (EsValue::Null, EsValue::Null) => true,
        (EsValue::Bool(a), EsValue::Bool(b)) => *a == *b,
        (EsValue::Num(m), EsValue::Num(n)) => m.value() == n.value(),
        (EsValue::Str(s), EsValue::Str(t)) => s.units().as_slice() == t.units().as_slice(),
        (EsValue::Obj(o), EsValue::Obj(p)) => *o == *p,
        _ => false,
    }
}
