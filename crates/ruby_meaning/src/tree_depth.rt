ghost use Rattle.std.specs.Prelude.{◌≡◌, min, map};
ghost use Rattle.std.specs.Option.{option_map};
ghost use Rattle.ruby_meaning.specs.Depth as spec;

use crate::tree::{Base, Kind, ModuleForm, Node, Params};
use sqlite_items::{Boxed, Items};

/// The number of nodes on the longest path, or `u32::MAX` where there are more.
#[cycle(depth)]
#[tactic(auto, unfolding(crate::specs::Depth::depth_of, crate::specs::Depth::kind_depth, crate::specs::Depth::base_depth, crate::specs::Depth::form_depth, crate::specs::Depth::params_depth))]
pub fn depth(node: &Node) -> u32
    ensures { result ≡ min (spec.depth_of node.now) u32.MAX }
{
    of_kind(node.kind.get()).saturating_add(1)
}

// The depth of the deepest part.
#[cycle(depth)]
#[tactic(auto, unfolding(crate::specs::Depth::depth_of, crate::specs::Depth::kind_depth, crate::specs::Depth::base_depth, crate::specs::Depth::form_depth, crate::specs::Depth::params_depth))]
fn of_kind(kind: &Kind) -> u32
    ensures { result ≡ min (spec.kind_depth kind.now) u32.MAX }
{
    match kind {
        Kind::Interp(parts) => deepest(parts),
        Kind::ArrayLit(items) => deepest(items),
        Kind::HashLit { keys, values } => deepest(keys).max(deepest(values)),
        Kind::RangeLit { low, high, .. } => depth(low.get()).max(depth(high.get())),
        Kind::ConstGet { base, .. } => of_base(base),
        Kind::LocalSet(_, value) => depth(value.get()),
        Kind::IvarSet(_, value) => depth(value.get()),
        Kind::GlobalSet(_, value) => depth(value.get()),
        Kind::ConstSet(_, value) => depth(value.get()),
        Kind::MultiSet { targets, value } => deepest(targets).max(depth(value.get())),
        Kind::AttrSet {
            receiver,
            args,
            value,
            ..
        } => depth(receiver.get())
            .max(deepest(args))
            .max(depth(value.get())),
        Kind::AttrOpSet {
            receiver,
            args,
            value,
            ..
        } => depth(receiver.get())
            .max(deepest(args))
            .max(depth(value.get())),
        Kind::Call {
            receiver,
            args,
            block,
            ..
        } => optional(receiver).max(deepest(args)).max(optional(block)),
        Kind::Super {
            args: Some(args),
            block,
        } => deepest(args).max(optional(block)),
        Kind::Super { args: None, block } => optional(block),
        Kind::Yield(args) => deepest(args),
        Kind::Block { params, body } => of_params(params).max(depth(body.get())),
        Kind::BlockPass(value) => depth(value.get()),
        Kind::Lambda { params, body } => of_params(params).max(depth(body.get())),
        Kind::Splat(value) => depth(value.get()),
        Kind::Not(value) => depth(value.get()),
        Kind::And(left, right) => depth(left.get()).max(depth(right.get())),
        Kind::Or(left, right) => depth(left.get()).max(depth(right.get())),
        Kind::If { cond, yes, no } => depth(cond.get()).max(depth(yes.get())).max(depth(no.get())),
        Kind::While { cond, body, .. } => depth(cond.get()).max(depth(body.get())),
        Kind::Case {
            subject,
            whens,
            otherwise,
        } => optional(subject)
            .max(deepest(whens))
            .max(depth(otherwise.get())),
        Kind::When { tests, body } => deepest(tests).max(depth(body.get())),
        Kind::Begin {
            body,
            clauses,
            else_part,
            ensure_part,
        } => depth(body.get())
            .max(deepest(clauses))
            .max(optional(else_part))
            .max(optional(ensure_part)),
        Kind::Rescue { classes, body, .. } => deepest(classes).max(depth(body.get())),
        Kind::Jump(_, value) => depth(value.get()),
        Kind::Def {
            on,
            params,
            body,
            ..
        } => optional(on).max(of_params(params)).max(depth(body.get())),
        Kind::ModuleDef { form, body, .. } => of_form(form).max(depth(body.get())),
        Kind::Seq(items) => deepest(items),
        Kind::Prim { args, .. } => deepest(args),
        Kind::Lit(_)
        | Kind::SelfRef
        | Kind::Int(_)
        | Kind::Str(_)
        | Kind::LocalGet(_)
        | Kind::IvarGet(_)
        | Kind::GlobalGet(_)
        | Kind::Retry
        | Kind::Reraise
        | Kind::Alias { .. }
        | Kind::Undef(_)
        | Kind::Require { .. } => 0,
    }
}

#[cycle(depth)]
#[tactic(auto, unfolding(crate::specs::Depth::depth_of, crate::specs::Depth::kind_depth, crate::specs::Depth::base_depth, crate::specs::Depth::form_depth, crate::specs::Depth::params_depth))]
fn of_base(base: &Base) -> u32
    ensures { result ≡ min (spec.base_depth base.now) u32.MAX }
{
    match base {
        Base::Here | Base::Top => 0,
        Base::In(node) => depth(node.get()),
    }
}

#[cycle(depth)]
#[tactic(auto, unfolding(crate::specs::Depth::depth_of, crate::specs::Depth::kind_depth, crate::specs::Depth::base_depth, crate::specs::Depth::form_depth, crate::specs::Depth::params_depth))]
fn of_form(form: &ModuleForm) -> u32
    ensures { result ≡ min (spec.form_depth form.now) u32.MAX }
{
    match form {
        ModuleForm::Class(superclass) => optional(superclass),
        ModuleForm::Module => 0,
        ModuleForm::Singleton(node) => depth(node.get()),
    }
}

#[cycle(depth)]
#[tactic(auto, unfolding(crate::specs::Depth::depth_of, crate::specs::Depth::kind_depth, crate::specs::Depth::base_depth, crate::specs::Depth::form_depth, crate::specs::Depth::params_depth))]
fn of_params(params: &Params) -> u32
    ensures { result ≡ min (spec.params_depth params.now) u32.MAX }
{
    deepest(&params.defaults)
}

#[cycle(depth)]
fn optional(node: &Option<Boxed<Node>>) -> u32
    ensures { result ≡ min (spec.optional (option_map spec.depth_of node.now)) u32.MAX }
{
    match node {
        Some(node) => depth(node.get()),
        None => 0,
    }
}

#[cycle(depth)]
fn deepest(nodes: &Items<Node>) -> u32
    ensures { result ≡ min (spec.highest (map spec.depth_of nodes.now)) u32.MAX }
{
    let mut most = 0;
    for node in nodes.as_slice() {
        most = most.max(depth(node));
    }
    most
}
