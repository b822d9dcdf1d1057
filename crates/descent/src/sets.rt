//! Sets of classes.

ghost use Rattle.std.specs.Prelude.{◌≡◌, ◌||◌};

/// Whether one of two holds.
pub fn either(one: bool, other: bool) -> bool
    ensures { result ≡ (one || other) }
{
    one || other
}
