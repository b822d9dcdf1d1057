use es5_objects::EsValue;

/// Where a node stands: the value of `this`, and the number of the innermost record (10.3).
#[derive(Drop)]
pub struct Scope {
    pub this: EsValue,
    pub innermost: usize,
}
