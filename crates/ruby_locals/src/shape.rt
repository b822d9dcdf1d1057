//! What a form is to the form that holds it.

ghost use Rattle.std.specs.Prelude.{◌≡◌, map, None, if◌then◌else◌};
ghost use Rattle.std.specs.Option.{option_map, option_copied};
ghost use Rattle.ruby_meaning.specs.Scoping.Walk as spec;
ghost use Rattle.ruby_meaning.specs.declared.scope.Role.TheVariants as role;

use crate::around::is_shown;
use crate::word::names_puts;
use opal_base::{Span, Units};
use ruby_meaning::{Base, Kind, Node, Role};
use sqlite_items::{Boxed, Items};

/// The text of a Str.
#[tactic(auto, unfolding(ruby_meaning::specs::Scoping::Walk::form_part))]
pub(crate) fn text_of(kind: &Kind) -> Option<&Units>
    ensures { option_copied result ≡ (spec.form_part None kind.now).text }
{
    match kind {
        Kind::Str(text) => Some(text),
        Kind::Lit(_)
        | Kind::SelfRef
        | Kind::Int(_)
        | Kind::Interp(_)
        | Kind::ArrayLit(_)
        | Kind::HashLit { .. }
        | Kind::RangeLit { .. }
        | Kind::LocalGet(_)
        | Kind::IvarGet(_)
        | Kind::GlobalGet(_)
        | Kind::ConstGet { .. }
        | Kind::LocalSet(..)
        | Kind::IvarSet(..)
        | Kind::GlobalSet(..)
        | Kind::ConstSet(..)
        | Kind::MultiSet { .. }
        | Kind::AttrSet { .. }
        | Kind::AttrOpSet { .. }
        | Kind::Call { .. }
        | Kind::Super { .. }
        | Kind::Yield(_)
        | Kind::Block { .. }
        | Kind::BlockPass(_)
        | Kind::Lambda { .. }
        | Kind::Splat(_)
        | Kind::Not(_)
        | Kind::And(..)
        | Kind::Or(..)
        | Kind::If { .. }
        | Kind::While { .. }
        | Kind::Case { .. }
        | Kind::When { .. }
        | Kind::Begin { .. }
        | Kind::Rescue { .. }
        | Kind::Retry
        | Kind::Reraise
        | Kind::Jump(..)
        | Kind::Def { .. }
        | Kind::ModuleDef { .. }
        | Kind::Alias { .. }
        | Kind::Undef(_)
        | Kind::Seq(_)
        | Kind::Require { .. }
        | Kind::Prim { .. } => None,
    }
}

/// Whether a form is a literal block.
#[tactic(auto, unfolding(ruby_meaning::specs::Scoping::Walk::form_part))]
pub(crate) fn is_block(kind: &Kind) -> bool
    ensures { result ≡ (spec.form_part None kind.now).is_block }
{
    match kind {
        Kind::Block { .. } => true,
        Kind::Lit(_)
        | Kind::SelfRef
        | Kind::Int(_)
        | Kind::Str(_)
        | Kind::Interp(_)
        | Kind::ArrayLit(_)
        | Kind::HashLit { .. }
        | Kind::RangeLit { .. }
        | Kind::LocalGet(_)
        | Kind::IvarGet(_)
        | Kind::GlobalGet(_)
        | Kind::ConstGet { .. }
        | Kind::LocalSet(..)
        | Kind::IvarSet(..)
        | Kind::GlobalSet(..)
        | Kind::ConstSet(..)
        | Kind::MultiSet { .. }
        | Kind::AttrSet { .. }
        | Kind::AttrOpSet { .. }
        | Kind::Call { .. }
        | Kind::Super { .. }
        | Kind::Yield(_)
        | Kind::BlockPass(_)
        | Kind::Lambda { .. }
        | Kind::Splat(_)
        | Kind::Not(_)
        | Kind::And(..)
        | Kind::Or(..)
        | Kind::If { .. }
        | Kind::While { .. }
        | Kind::Case { .. }
        | Kind::When { .. }
        | Kind::Begin { .. }
        | Kind::Rescue { .. }
        | Kind::Retry
        | Kind::Reraise
        | Kind::Jump(..)
        | Kind::Def { .. }
        | Kind::ModuleDef { .. }
        | Kind::Alias { .. }
        | Kind::Undef(_)
        | Kind::Seq(_)
        | Kind::Require { .. }
        | Kind::Prim { .. } => false,
    }
}

/// Whether there are no arguments.
pub(crate) fn has_none(args: &Items<Node>) -> bool
    ensures { result ≡ spec.is_empty (map (spec.part None) args.now) }
{
    match args.as_slice() {
        [] => true,
        [_, ..] => false,
    }
}

// The name of a call without receiver, arguments and block.
fn name_alone<'n>(
    receiver: &Option<Boxed<Node>>,
    name: &'n Units,
    args: &Items<Node>,
    block: &Option<Boxed<Node>>,
) -> Option<&'n Units>
    ensures { option_copied result ≡ spec.only_name (option_map (spec.part None) receiver.now) name.now (map (spec.part None) args.now) (option_map (spec.part None) block.now) }
{
    if receiver.is_none() && has_none(args) && block.is_none() {
        Some(name)
    } else {
        None
    }
}

/// The name of a form that is a call and has nothing but its name.
#[tactic(auto, unfolding(ruby_meaning::specs::Scoping::Walk::part, ruby_meaning::specs::Scoping::Walk::form_part))]
pub(crate) fn only_name(kind: &Kind) -> Option<&Units>
    ensures { option_copied result ≡ (spec.form_part None kind.now).name }
{
    match kind {
        Kind::Call {
            receiver,
            name,
            args,
            block,
            ..
        } => name_alone(receiver, name, args, block),
        Kind::Lit(_)
        | Kind::SelfRef
        | Kind::Int(_)
        | Kind::Str(_)
        | Kind::Interp(_)
        | Kind::ArrayLit(_)
        | Kind::HashLit { .. }
        | Kind::RangeLit { .. }
        | Kind::LocalGet(_)
        | Kind::IvarGet(_)
        | Kind::GlobalGet(_)
        | Kind::ConstGet { .. }
        | Kind::LocalSet(..)
        | Kind::IvarSet(..)
        | Kind::GlobalSet(..)
        | Kind::ConstSet(..)
        | Kind::MultiSet { .. }
        | Kind::AttrSet { .. }
        | Kind::AttrOpSet { .. }
        | Kind::Super { .. }
        | Kind::Yield(_)
        | Kind::Block { .. }
        | Kind::BlockPass(_)
        | Kind::Lambda { .. }
        | Kind::Splat(_)
        | Kind::Not(_)
        | Kind::And(..)
        | Kind::Or(..)
        | Kind::If { .. }
        | Kind::While { .. }
        | Kind::Case { .. }
        | Kind::When { .. }
        | Kind::Begin { .. }
        | Kind::Rescue { .. }
        | Kind::Retry
        | Kind::Reraise
        | Kind::Jump(..)
        | Kind::Def { .. }
        | Kind::ModuleDef { .. }
        | Kind::Alias { .. }
        | Kind::Undef(_)
        | Kind::Seq(_)
        | Kind::Require { .. }
        | Kind::Prim { .. } => None,
    }
}

/// Whether a span is as long as a name.
pub(crate) fn spans_name(span: Span, name: &Units) -> bool
    ensures { result ≡ spec.spans_name span name.now }
{
    span.from.line == span.to.line
        && span.from.col <= span.to.col
        && (span.to.col - span.from.col) as usize == name.len()
}

/// The text that is the only argument.
#[tactic(auto, unfolding(ruby_meaning::specs::Scoping::Walk::part, ruby_meaning::specs::Scoping::Walk::form_part))]
pub(crate) fn only_text(args: &Items<Node>) -> Option<&Units>
    ensures { option_copied result ≡ spec.only_text (map (spec.part None) args.now) }
{
    match args.as_slice() {
        [node] => text_of(node.kind.get()),
        [] | [_, _, ..] => None,
    }
}

/// Whether there is a literal block.
#[tactic(auto, unfolding(ruby_meaning::specs::Scoping::Walk::part, ruby_meaning::specs::Scoping::Walk::form_part))]
pub(crate) fn is_literal_block(block: &Option<Boxed<Node>>) -> bool
    ensures { result ≡ spec.is_literal_block (option_map (spec.part None) block.now) }
{
    match block {
        Some(node) => is_block(node.get().kind.get()),
        None => false,
    }
}

/// `puts` with one text.
pub(crate) fn is_shown_text(
    receiver: &Option<Boxed<Node>>,
    name: &Units,
    args: &Items<Node>,
    block: &Option<Boxed<Node>>,
) -> bool
    ensures { result ≡ spec.is_shown_text (option_map (spec.part None) receiver.now) name.now (map (spec.part None) args.now) (option_map (spec.part None) block.now) }
{
    receiver.is_none()
        && names_puts(name.as_slice())
        && only_text(args).is_some()
        && block.is_none()
}

/// Whether a form is built, at its role.
#[tactic(auto, unfolding(ruby_meaning::specs::Scoping::Walk::part, ruby_meaning::specs::Scoping::Walk::form_part))]
pub fn is_built(role: Role, kind: &Kind) -> bool
    ensures { result ≡ (spec.form_part None kind.now).built role }
{
    match kind {
        Kind::Seq(_) => true,
        Kind::Str(_) => is_shown(role),
        Kind::Call {
            receiver,
            name,
            args,
            block,
            ..
        } => is_shown_text(receiver, name, args, block),
        Kind::Lit(_)
        | Kind::SelfRef
        | Kind::Int(_)
        | Kind::Interp(_)
        | Kind::ArrayLit(_)
        | Kind::HashLit { .. }
        | Kind::RangeLit { .. }
        | Kind::LocalGet(_)
        | Kind::IvarGet(_)
        | Kind::GlobalGet(_)
        | Kind::ConstGet { .. }
        | Kind::LocalSet(..)
        | Kind::IvarSet(..)
        | Kind::GlobalSet(..)
        | Kind::ConstSet(..)
        | Kind::MultiSet { .. }
        | Kind::AttrSet { .. }
        | Kind::AttrOpSet { .. }
        | Kind::Super { .. }
        | Kind::Yield(_)
        | Kind::Block { .. }
        | Kind::BlockPass(_)
        | Kind::Lambda { .. }
        | Kind::Splat(_)
        | Kind::Not(_)
        | Kind::And(..)
        | Kind::Or(..)
        | Kind::If { .. }
        | Kind::While { .. }
        | Kind::Case { .. }
        | Kind::When { .. }
        | Kind::Begin { .. }
        | Kind::Rescue { .. }
        | Kind::Retry
        | Kind::Reraise
        | Kind::Jump(..)
        | Kind::Def { .. }
        | Kind::ModuleDef { .. }
        | Kind::Alias { .. }
        | Kind::Undef(_)
        | Kind::Require { .. }
        | Kind::Prim { .. } => false,
    }
}

/// Whether a constant stands without a base.
#[tactic(auto, unfolding(ruby_meaning::specs::Scoping::Walk::base_part))]
pub(crate) fn is_here(base: &Base) -> bool
    ensures { result ≡ (spec.base_part None base.now).is_here }
{
    match base {
        Base::Here => true,
        Base::Top | Base::In(_) => false,
    }
}

/// What the arguments of a call are to it.
pub fn role_of_args(
    receiver: &Option<Boxed<Node>>,
    name: &Units,
    args: &Items<Node>,
    block: &Option<Boxed<Node>>,
) -> Role
    ensures { result ≡ (if spec.is_shown_text (option_map (spec.part None) receiver.now) name.now (map (spec.part None) args.now) (option_map (spec.part None) block.now) then role.Shown else role.Plain) }
{
    if is_shown_text(receiver, name, args, block) {
        Role::Shown
    } else {
        Role::Plain
    }
}
