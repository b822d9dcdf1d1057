use opal_base::Units;

/// A value of Ruby's evaluation; a reference is the number of a heap value.
#[derive(Drop)]
pub enum Value {
    Nil,
    True,
    False,
    Int(i64),
    Text(Units),
    Ref(u64),
}
