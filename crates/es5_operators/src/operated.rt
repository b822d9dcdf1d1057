use es5_host::OutKind;
use es5_objects::EsValue;

/// What an operator answers.
#[derive(Drop)]
pub enum Operated {
    Is(EsValue),
    /// The operation leaves the profile.
    Outside(OutKind),
}
