//! What stands around a place.

ghost use Rattle.std.specs.Prelude.{◌≡◌, ◌&&◌, if◌then◌else◌};
ghost use Rattle.ruby_meaning.specs.Scoping.Walk as spec;

use ruby_meaning::{Around, JumpKind, Role};

/// The same in another role.
pub fn as_role(role: Role, around: Around) -> Around
    ensures { result ≡ spec.as_role role around }
{
    Around { role, ..around }
}

/// The same for a value or a statement.
pub fn plain(around: Around) -> Around
    ensures { result ≡ spec.plain around }
{
    as_role(Role::Plain, around)
}

/// Whether the role is that of a condition.
pub fn is_condition(role: Role) -> bool
    ensures { result ≡ spec.is_condition role }
{
    match role {
        Role::Condition => true,
        Role::Plain | Role::Target | Role::Shown => false,
    }
}

/// Whether the role is that of a target of a multiple assignment.
pub(crate) fn is_target(role: Role) -> bool
    ensures { result ≡ spec.is_target role }
{
    match role {
        Role::Target => true,
        Role::Plain | Role::Condition | Role::Shown => false,
    }
}

/// Whether the role is that of the text that `puts` writes.
pub(crate) fn is_shown(role: Role) -> bool
    ensures { result ≡ spec.is_shown role }
{
    match role {
        Role::Shown => true,
        Role::Plain | Role::Condition | Role::Target => false,
    }
}

/// The same for a part that is a target where the whole is.
pub fn target_or_plain(around: Around) -> Around
    ensures { result ≡ (if spec.is_target around.role then around else spec.plain around) }
{
    if is_target(around.role) {
        around
    } else {
        plain(around)
    }
}

/// The same for a part that is a condition where the whole is.
pub fn condition_or_plain(around: Around) -> Around
    ensures { result ≡ (if spec.is_condition around.role then around else spec.plain around) }
{
    if is_condition(around.role) {
        around
    } else {
        plain(around)
    }
}

/// Around the text of a file, and that of a class or a module: no jump has a target there.
pub fn no_targets() -> Around
    ensures { result ≡ spec.no_targets }
{
    Around {
        in_def: false,
        returns: false,
        breaks: false,
        retries: false,
        role: Role::Plain,
    }
}

/// Around the parameters and the body of a `def`, where `return` has a target.
pub fn within_def() -> Around
    ensures { result ≡ spec.within_def }
{
    Around {
        in_def: true,
        returns: true,
        ..no_targets()
    }
}

/// Around those of a block, where `break` and `next` have a target.
pub fn within_block(around: Around) -> Around
    ensures { result ≡ spec.within_block around }
{
    Around {
        breaks: true,
        retries: false,
        role: Role::Plain,
        ..around
    }
}

/// Around those of a lambda, where `return`, `break` and `next` have a target.
pub fn within_lambda(around: Around) -> Around
    ensures { result ≡ spec.within_lambda around }
{
    Around {
        returns: true,
        breaks: true,
        retries: false,
        role: Role::Plain,
        ..around
    }
}

/// Around the test and the body of a loop, where `break` and `next` have a target.
pub fn within_loop(around: Around) -> Around
    ensures { result ≡ spec.within_loop around }
{
    Around {
        breaks: true,
        role: Role::Plain,
        ..around
    }
}

/// Around the body of a rescue clause, where `retry` has a target.
pub fn within_rescue(around: Around) -> Around
    ensures { result ≡ spec.within_rescue around }
{
    Around {
        retries: true,
        role: Role::Plain,
        ..around
    }
}

/// Whether a jump has a target.
pub fn has_target(which: JumpKind, around: Around) -> bool
    ensures { result ≡ spec.has_target which around }
{
    match which {
        JumpKind::Return => around.returns,
        JumpKind::Break | JumpKind::Next => around.breaks,
    }
}
