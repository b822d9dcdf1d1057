//! The walk over a tree in the order of the text. It gives the tree again, with the names of
//! locals and the calls of `require` told apart from other calls.

ghost use Rattle.std.specs.Prelude.{◌≡◌, map, OnOk, IfOk, None, true};
ghost use Rattle.std.specs.Option.{option_map};
ghost use Rattle.ruby_meaning.specs.Scoping.Walk as spec;
ghost use Rattle.ruby_scope.specs.Group.{is_if, is_loop, is_case, is_begin, is_rescue, is_attr, is_call, is_super, is_block, is_def, is_module, is_pairs};

use opal_base::{Names, NoMemory, Pos, Units};
use ruby_locals::around::{
    as_role, condition_or_plain, has_target, is_condition, no_targets, plain, target_or_plain,
    within_block, within_def, within_lambda, within_loop, within_rescue,
};
use ruby_locals::call::{bare_local, local_node, note, resolved_call};
use ruby_locals::copy::{boxed, copy_name, copy_names, copy_rest, copy_slots, node_like, push};
use ruby_locals::form::{note_constant, note_operator_set, note_set};
use ruby_locals::leaf::walk_leaf;
use ruby_locals::parameters::{block_name, names_from, rest_name, slots};
use ruby_locals::scope::{close_block, close_body, open_block, open_body};
use ruby_locals::seen::{
    name_local, name_rescued, parameter, refuse_if, stands_before, unbuilt_at,
};
use ruby_locals::shape::{is_built, role_of_args};
use ruby_meaning::{Around, Base, Construct, Kind, ModuleForm, Node, Params, Role, Seen};
use sqlite_items::{Boxed, Items};
use std::alloc::Global;

/// A node.
#[cycle(walk)]
#[tactic(auto, unfolding(ruby_meaning::specs::Scoping::Walk::part, ruby_meaning::specs::Scoping::Walk::form_part, ruby_meaning::specs::Scoping::Walk::local_or))]
pub fn walk_node(
    alloc: Global,
    seen: &mut Seen,
    around: Around,
    node: &Node,
) -> Result<Node, NoMemory>
    ensures seen { OnOk result (seen.new ≡ ((spec.part None node.now).walk around seen.old).seen) }
    ensures made { IfOk result (λ made. made ≡ ((spec.part None node.now).walk around seen.old).made) }
{
    let local = bare_local(seen, node);
    if !is_built(around.role, node.kind.get()) {
        unbuilt_at(seen, node.span.from);
    }
    match local {
        Some(name) => local_node(alloc, seen, name, node),
        None => {
            let kind = walk_form(alloc, seen, around, node.mark, node.kind.get())?;
            node_like(alloc, kind, node)
        }
    }
}

// A form, at its mark.
#[cycle(walk)]
#[tactic(auto, unfolding(ruby_meaning::specs::Scoping::Walk::part, ruby_meaning::specs::Scoping::Walk::form_part, ruby_meaning::specs::Scoping::Walk::base_part, ruby_meaning::specs::Scoping::Walk::module_part, ruby_meaning::specs::Scoping::Walk::params_part, ruby_locals::specs::Leaf::is_leaf, crate::specs::Group::is_if, crate::specs::Group::is_loop, crate::specs::Group::is_case, crate::specs::Group::is_begin, crate::specs::Group::is_rescue, crate::specs::Group::is_attr, crate::specs::Group::is_call, crate::specs::Group::is_super, crate::specs::Group::is_block, crate::specs::Group::is_def, crate::specs::Group::is_module, crate::specs::Group::is_pairs))]
fn walk_form(
    alloc: Global,
    seen: &mut Seen,
    around: Around,
    mark: Pos,
    kind: &Kind,
) -> Result<Kind, NoMemory>
    ensures seen { OnOk result (seen.new ≡ ((spec.form_part None kind.now).walk mark around seen.old).seen) }
    ensures made { IfOk result (λ made. made ≡ ((spec.form_part None kind.now).walk mark around seen.old).made) }
{
    let inner = plain(around);
    match kind {
        Kind::Lit(_)
        | Kind::SelfRef
        | Kind::Int(_)
        | Kind::Str(_)
        | Kind::LocalGet(_)
        | Kind::IvarGet(_)
        | Kind::GlobalGet(_)
        | Kind::Retry
        | Kind::Reraise
        | Kind::Alias { .. }
        | Kind::Undef(_)
        | Kind::Require { .. } => walk_leaf(alloc, seen, around, mark, kind),
        Kind::Interp(parts) => Ok(Kind::Interp(walk_all(alloc, seen, inner, parts)?)),
        Kind::ArrayLit(items) => Ok(Kind::ArrayLit(walk_all(alloc, seen, inner, items)?)),
        Kind::HashLit { .. } => walk_pairs(alloc, seen, around, mark, kind),
        Kind::RangeLit {
            low,
            high,
            without_end,
        } => {
            refuse_if(seen, is_condition(around.role), mark, Construct::FlipFlop);
            let low = walk_boxed(alloc, seen, inner, low)?;
            let high = walk_boxed(alloc, seen, inner, high)?;
            Ok(Kind::RangeLit {
                low,
                high,
                without_end: *without_end,
            })
        }
        Kind::ConstGet { base, name } => walk_const(alloc, seen, around, mark, base, name),
        Kind::LocalSet(name, value) => {
            name_local(seen, name)?;
            let value = walk_boxed(alloc, seen, inner, value)?;
            Ok(Kind::LocalSet(name.try_clone()?, value))
        }
        Kind::IvarSet(name, value) => {
            let value = walk_boxed(alloc, seen, inner, value)?;
            Ok(Kind::IvarSet(name.try_clone()?, value))
        }
        Kind::GlobalSet(name, value) => {
            let value = walk_boxed(alloc, seen, inner, value)?;
            Ok(Kind::GlobalSet(name.try_clone()?, value))
        }
        Kind::ConstSet(name, value) => {
            refuse_if(seen, around.in_def, mark, Construct::DynamicConstant);
            let value = walk_boxed(alloc, seen, inner, value)?;
            Ok(Kind::ConstSet(name.try_clone()?, value))
        }
        Kind::MultiSet { targets, value } => {
            let targets = walk_all(alloc, seen, as_role(Role::Target, around), targets)?;
            let value = walk_boxed(alloc, seen, inner, value)?;
            Ok(Kind::MultiSet { targets, value })
        }
        Kind::AttrSet { .. } | Kind::AttrOpSet { .. } => {
            walk_attr(alloc, seen, around, mark, kind)
        }
        Kind::Call { .. } => walk_call(alloc, seen, around, mark, kind),
        Kind::Super { .. } => walk_super(alloc, seen, around, mark, kind),
        Kind::Yield(args) => {
            refuse_if(seen, !around.in_def, mark, Construct::JumpOutside);
            Ok(Kind::Yield(walk_all(alloc, seen, inner, args)?))
        }
        Kind::Block { .. } | Kind::Lambda { .. } => walk_block(alloc, seen, around, mark, kind),
        Kind::BlockPass(value) => { Ok(Kind::BlockPass(walk_boxed(alloc, seen, inner, value)?)) }
        Kind::Splat(value) => {
            let value = walk_boxed(alloc, seen, target_or_plain(around), value)?;
            Ok(Kind::Splat(value))
        }
        Kind::Not(value) => {
            let value = walk_boxed(alloc, seen, condition_or_plain(around), value)?;
            Ok(Kind::Not(value))
        }
        Kind::And(left, right) => {
            let left = walk_boxed(alloc, seen, inner, left)?;
            let right = walk_boxed(alloc, seen, inner, right)?;
            Ok(Kind::And(left, right))
        }
        Kind::Or(left, right) => {
            let left = walk_boxed(alloc, seen, inner, left)?;
            let right = walk_boxed(alloc, seen, inner, right)?;
            Ok(Kind::Or(left, right))
        }
        Kind::If { .. } => walk_if(alloc, seen, around, mark, kind),
        Kind::While { .. } => walk_loop(alloc, seen, around, mark, kind),
        Kind::Case { .. } => walk_case(alloc, seen, around, mark, kind),
        Kind::When { tests, body } => {
            let tests = walk_all(alloc, seen, condition_or_plain(around), tests)?;
            let body = walk_boxed(alloc, seen, inner, body)?;
            Ok(Kind::When { tests, body })
        }
        Kind::Begin { .. } => walk_begin(alloc, seen, around, mark, kind),
        Kind::Rescue { .. } => walk_rescue(alloc, seen, around, mark, kind),
        Kind::Jump(which, value) => {
            let lost = !has_target(*which, around);
            refuse_if(seen, lost, mark, Construct::JumpOutside);
            let value = walk_boxed(alloc, seen, inner, value)?;
            Ok(Kind::Jump(*which, value))
        }
        Kind::Def { .. } => walk_def(alloc, seen, around, mark, kind),
        Kind::ModuleDef { .. } => walk_module(alloc, seen, around, mark, kind),
        Kind::Seq(items) => Ok(Kind::Seq(walk_all(alloc, seen, inner, items)?)),
        Kind::Prim { name, args } => {
            let args = walk_all(alloc, seen, inner, args)?;
            Ok(Kind::Prim {
                name: name.try_clone()?,
                args,
            })
        }
    }
}

#[cycle(walk)]
fn walk_boxed(
    alloc: Global,
    seen: &mut Seen,
    around: Around,
    node: &Boxed<Node>,
) -> Result<Boxed<Node>, NoMemory>
    ensures seen { OnOk result (seen.new ≡ ((spec.part None node.now).walk around seen.old).seen) }
    ensures made { IfOk result (λ made. made ≡ ((spec.part None node.now).walk around seen.old).made) }
{
    let node = walk_node(alloc, seen, around, node.get())?;
    boxed(alloc, node)
}

#[cycle(walk)]
fn walk_any(
    alloc: Global,
    seen: &mut Seen,
    around: Around,
    node: &Option<Boxed<Node>>,
) -> Result<Option<Boxed<Node>>, NoMemory>
    ensures seen { OnOk result (seen.new ≡ (spec.if_any (option_map (spec.part None) node.now) around seen.old).seen) }
    ensures made { IfOk result (λ made. made ≡ (spec.if_any (option_map (spec.part None) node.now) around seen.old).made) }
{
    match node {
        Some(node) => {
            let node = walk_node(alloc, seen, around, node.get())?;
            Ok(Some(boxed(alloc, node)?))
        }
        None => Ok(None),
    }
}

#[cycle(walk)]
fn walk_all(
    alloc: Global,
    seen: &mut Seen,
    around: Around,
    nodes: &Items<Node>,
) -> Result<Items<Node>, NoMemory>
    ensures seen { OnOk result (seen.new ≡ (spec.all (map (spec.part None) nodes.now) around seen.old).seen) }
    ensures made { IfOk result (λ made. made ≡ (spec.all (map (spec.part None) nodes.now) around seen.old).made) }
{
    let mut made = Items::new(alloc);
    for node in nodes.as_slice() {
        let node = walk_node(alloc, seen, around, node)?;
        push(&mut made, node)?;
    }
    Ok(made)
}

// The keys and values of a hash, in turn.
#[cycle(walk)]
#[tactic(auto, unfolding(ruby_meaning::specs::Scoping::Walk::part, ruby_meaning::specs::Scoping::Walk::form_part, ruby_meaning::specs::Scoping::Walk::params_part, ruby_meaning::specs::Scoping::Walk::module_part, crate::specs::Group::is_pairs))]
fn walk_pairs(
    alloc: Global,
    seen: &mut Seen,
    around: Around,
    mark: Pos,
    kind: &Kind,
) -> Result<Kind, NoMemory>
    requires { is_pairs kind.now ≡ true }
    ensures seen { OnOk result (seen.new ≡ ((spec.form_part None kind.now).walk mark around seen.old).seen) }
    ensures made { IfOk result (λ made. made ≡ ((spec.form_part None kind.now).walk mark around seen.old).made) }
{
    let inner = plain(around);
    match kind {
        Kind::HashLit { keys, values } => {
            let values = values.as_slice();
            let mut made_keys = Items::new(alloc);
            let mut made_values = Items::new(alloc);
            let mut i = 0;
            for key in keys.as_slice() {
                let key = walk_node(alloc, seen, inner, key)?;
                push(&mut made_keys, key)?;
                if i < values.len() {
                    let value = walk_node(alloc, seen, inner, &values[i])?;
                    push(&mut made_values, value)?;
                    i += 1;
                }
            }
            Ok(Kind::HashLit {
                keys: made_keys,
                values: made_values,
            })
        }
        _ => Err(NoMemory),
    }
}

#[cycle(walk)]
#[tactic(auto, unfolding(ruby_meaning::specs::Scoping::Walk::part, ruby_meaning::specs::Scoping::Walk::form_part, ruby_meaning::specs::Scoping::Walk::params_part, ruby_meaning::specs::Scoping::Walk::module_part, crate::specs::Group::is_if))]
fn walk_if(
    alloc: Global,
    seen: &mut Seen,
    around: Around,
    mark: Pos,
    kind: &Kind,
) -> Result<Kind, NoMemory>
    requires { is_if kind.now ≡ true }
    ensures seen { OnOk result (seen.new ≡ ((spec.form_part None kind.now).walk mark around seen.old).seen) }
    ensures made { IfOk result (λ made. made ≡ ((spec.form_part None kind.now).walk mark around seen.old).made) }
{
    let inner = plain(around);
    match kind {
        Kind::If { cond, yes, no } => {
            let test = as_role(Role::Condition, around);
            let (from, first, second) = (
                cond.get().span.from,
                yes.get().span.from,
                no.get().span.from,
            );
            if stands_before(second, first) {
                if stands_before(second, from) {
                    let no = walk_boxed(alloc, seen, inner, no)?;
                    if stands_before(first, from) {
                        let yes = walk_boxed(alloc, seen, inner, yes)?;
                        let cond = walk_boxed(alloc, seen, test, cond)?;
                        Ok(Kind::If { cond, yes, no })
                    } else {
                        let cond = walk_boxed(alloc, seen, test, cond)?;
                        let yes = walk_boxed(alloc, seen, inner, yes)?;
                        Ok(Kind::If { cond, yes, no })
                    }
                } else {
                    let cond = walk_boxed(alloc, seen, test, cond)?;
                    let no = walk_boxed(alloc, seen, inner, no)?;
                    let yes = walk_boxed(alloc, seen, inner, yes)?;
                    Ok(Kind::If { cond, yes, no })
                }
            } else if stands_before(first, from) {
                let yes = walk_boxed(alloc, seen, inner, yes)?;
                if stands_before(second, from) {
                    let no = walk_boxed(alloc, seen, inner, no)?;
                    let cond = walk_boxed(alloc, seen, test, cond)?;
                    Ok(Kind::If { cond, yes, no })
                } else {
                    let cond = walk_boxed(alloc, seen, test, cond)?;
                    let no = walk_boxed(alloc, seen, inner, no)?;
                    Ok(Kind::If { cond, yes, no })
                }
            } else {
                let cond = walk_boxed(alloc, seen, test, cond)?;
                let yes = walk_boxed(alloc, seen, inner, yes)?;
                let no = walk_boxed(alloc, seen, inner, no)?;
                Ok(Kind::If { cond, yes, no })
            }
        }
        _ => Err(NoMemory),
    }
}

#[cycle(walk)]
#[tactic(auto, unfolding(ruby_meaning::specs::Scoping::Walk::part, ruby_meaning::specs::Scoping::Walk::form_part, ruby_meaning::specs::Scoping::Walk::params_part, ruby_meaning::specs::Scoping::Walk::module_part, crate::specs::Group::is_loop))]
fn walk_loop(
    alloc: Global,
    seen: &mut Seen,
    around: Around,
    mark: Pos,
    kind: &Kind,
) -> Result<Kind, NoMemory>
    requires { is_loop kind.now ≡ true }
    ensures seen { OnOk result (seen.new ≡ ((spec.form_part None kind.now).walk mark around seen.old).seen) }
    ensures made { IfOk result (λ made. made ≡ ((spec.form_part None kind.now).walk mark around seen.old).made) }
{
    let inner = within_loop(around);
    let test = as_role(Role::Condition, inner);
    match kind {
        Kind::While {
            cond,
            body,
            body_first,
        } => {
            let body_first = *body_first;
            if stands_before(body.get().span.from, cond.get().span.from) {
                let body = walk_boxed(alloc, seen, inner, body)?;
                let cond = walk_boxed(alloc, seen, test, cond)?;
                Ok(Kind::While {
                    cond,
                    body,
                    body_first,
                })
            } else {
                let cond = walk_boxed(alloc, seen, test, cond)?;
                let body = walk_boxed(alloc, seen, inner, body)?;
                Ok(Kind::While {
                    cond,
                    body,
                    body_first,
                })
            }
        }
        _ => Err(NoMemory),
    }
}

#[cycle(walk)]
#[tactic(auto, unfolding(ruby_meaning::specs::Scoping::Walk::part, ruby_meaning::specs::Scoping::Walk::form_part, ruby_meaning::specs::Scoping::Walk::params_part, ruby_meaning::specs::Scoping::Walk::module_part, crate::specs::Group::is_case))]
fn walk_case(
    alloc: Global,
    seen: &mut Seen,
    around: Around,
    mark: Pos,
    kind: &Kind,
) -> Result<Kind, NoMemory>
    requires { is_case kind.now ≡ true }
    ensures seen { OnOk result (seen.new ≡ ((spec.form_part None kind.now).walk mark around seen.old).seen) }
    ensures made { IfOk result (λ made. made ≡ ((spec.form_part None kind.now).walk mark around seen.old).made) }
{
    let inner = plain(around);
    match kind {
        Kind::Case {
            subject,
            whens,
            otherwise,
        } => {
            let test = if subject.is_none() {
                as_role(Role::Condition, around)
            } else {
                inner
            };
            let subject = walk_any(alloc, seen, inner, subject)?;
            let whens = walk_all(alloc, seen, test, whens)?;
            let otherwise = walk_boxed(alloc, seen, inner, otherwise)?;
            Ok(Kind::Case {
                subject,
                whens,
                otherwise,
            })
        }
        _ => Err(NoMemory),
    }
}

#[cycle(walk)]
#[tactic(auto, unfolding(ruby_meaning::specs::Scoping::Walk::part, ruby_meaning::specs::Scoping::Walk::form_part, ruby_meaning::specs::Scoping::Walk::params_part, ruby_meaning::specs::Scoping::Walk::module_part, crate::specs::Group::is_begin))]
fn walk_begin(
    alloc: Global,
    seen: &mut Seen,
    around: Around,
    mark: Pos,
    kind: &Kind,
) -> Result<Kind, NoMemory>
    requires { is_begin kind.now ≡ true }
    ensures seen { OnOk result (seen.new ≡ ((spec.form_part None kind.now).walk mark around seen.old).seen) }
    ensures made { IfOk result (λ made. made ≡ ((spec.form_part None kind.now).walk mark around seen.old).made) }
{
    let inner = plain(around);
    match kind {
        Kind::Begin {
            body,
            clauses,
            else_part,
            ensure_part,
        } => {
            let body = walk_boxed(alloc, seen, inner, body)?;
            let clauses = walk_all(alloc, seen, inner, clauses)?;
            let else_part = walk_any(alloc, seen, inner, else_part)?;
            let ensure_part = walk_any(alloc, seen, inner, ensure_part)?;
            Ok(Kind::Begin {
                body,
                clauses,
                else_part,
                ensure_part,
            })
        }
        _ => Err(NoMemory),
    }
}

#[cycle(walk)]
#[tactic(auto, unfolding(ruby_meaning::specs::Scoping::Walk::part, ruby_meaning::specs::Scoping::Walk::form_part, ruby_meaning::specs::Scoping::Walk::params_part, ruby_meaning::specs::Scoping::Walk::module_part, crate::specs::Group::is_rescue))]
fn walk_rescue(
    alloc: Global,
    seen: &mut Seen,
    around: Around,
    mark: Pos,
    kind: &Kind,
) -> Result<Kind, NoMemory>
    requires { is_rescue kind.now ≡ true }
    ensures seen { OnOk result (seen.new ≡ ((spec.form_part None kind.now).walk mark around seen.old).seen) }
    ensures made { IfOk result (λ made. made ≡ ((spec.form_part None kind.now).walk mark around seen.old).made) }
{
    let inner = plain(around);
    match kind {
        Kind::Rescue {
            classes,
            name,
            body,
        } => {
            let classes = walk_all(alloc, seen, inner, classes)?;
            name_rescued(seen, name)?;
            let body = walk_boxed(alloc, seen, within_rescue(around), body)?;
            Ok(Kind::Rescue {
                classes,
                name: copy_name(name)?,
                body,
            })
        }
        _ => Err(NoMemory),
    }
}

// `receiver.name = value`, `receiver[args] = value` and the same with an operator.
#[cycle(walk)]
#[tactic(auto, unfolding(ruby_meaning::specs::Scoping::Walk::part, ruby_meaning::specs::Scoping::Walk::form_part, ruby_meaning::specs::Scoping::Walk::params_part, ruby_meaning::specs::Scoping::Walk::module_part, crate::specs::Group::is_attr))]
fn walk_attr(
    alloc: Global,
    seen: &mut Seen,
    around: Around,
    mark: Pos,
    kind: &Kind,
) -> Result<Kind, NoMemory>
    requires { is_attr kind.now ≡ true }
    ensures seen { OnOk result (seen.new ≡ ((spec.form_part None kind.now).walk mark around seen.old).seen) }
    ensures made { IfOk result (λ made. made ≡ ((spec.form_part None kind.now).walk mark around seen.old).made) }
{
    let inner = plain(around);
    match kind {
        Kind::AttrSet {
            receiver,
            name,
            args,
            value,
        } => {
            note_set(seen, name)?;
            let receiver = walk_boxed(alloc, seen, inner, receiver)?;
            let args = walk_all(alloc, seen, inner, args)?;
            let value = walk_boxed(alloc, seen, inner, value)?;
            Ok(Kind::AttrSet {
                receiver,
                name: name.try_clone()?,
                args,
                value,
            })
        }
        Kind::AttrOpSet {
            receiver,
            name,
            args,
            op,
            value,
        } => {
            note_operator_set(alloc, seen, name, *op)?;
            let receiver = walk_boxed(alloc, seen, inner, receiver)?;
            let args = walk_all(alloc, seen, inner, args)?;
            let value = walk_boxed(alloc, seen, inner, value)?;
            Ok(Kind::AttrOpSet {
                receiver,
                name: name.try_clone()?,
                args,
                op: *op,
                value,
            })
        }
        _ => Err(NoMemory),
    }
}

#[cycle(walk)]
#[tactic(auto, unfolding(ruby_meaning::specs::Scoping::Walk::part, ruby_meaning::specs::Scoping::Walk::form_part, ruby_meaning::specs::Scoping::Walk::params_part, ruby_meaning::specs::Scoping::Walk::module_part, ruby_meaning::specs::Scoping::Walk::call, crate::specs::Group::is_call))]
fn walk_call(
    alloc: Global,
    seen: &mut Seen,
    around: Around,
    mark: Pos,
    kind: &Kind,
) -> Result<Kind, NoMemory>
    requires { is_call kind.now ≡ true }
    ensures seen { OnOk result (seen.new ≡ ((spec.form_part None kind.now).walk mark around seen.old).seen) }
    ensures made { IfOk result (λ made. made ≡ ((spec.form_part None kind.now).walk mark around seen.old).made) }
{
    let inner = plain(around);
    match kind {
        Kind::Call {
            receiver,
            name,
            args,
            block,
            marked,
        } => {
            let test = as_role(role_of_args(receiver, name, args, block), around);
            note(
                alloc,
                seen,
                around.role,
                mark,
                receiver,
                name,
                args,
                block,
                *marked,
            )?;
            let made_receiver = walk_any(alloc, seen, inner, receiver)?;
            let made_args = walk_all(alloc, seen, test, args)?;
            let made_block = walk_any(alloc, seen, inner, block)?;
            resolved_call(
                alloc,
                receiver,
                name,
                args,
                *marked,
                made_receiver,
                made_args,
                made_block,
            )
        }
        _ => Err(NoMemory),
    }
}

#[cycle(walk)]
#[tactic(auto, unfolding(ruby_meaning::specs::Scoping::Walk::part, ruby_meaning::specs::Scoping::Walk::form_part, ruby_meaning::specs::Scoping::Walk::params_part, ruby_meaning::specs::Scoping::Walk::module_part, crate::specs::Group::is_super))]
fn walk_super(
    alloc: Global,
    seen: &mut Seen,
    around: Around,
    mark: Pos,
    kind: &Kind,
) -> Result<Kind, NoMemory>
    requires { is_super kind.now ≡ true }
    ensures seen { OnOk result (seen.new ≡ ((spec.form_part None kind.now).walk mark around seen.old).seen) }
    ensures made { IfOk result (λ made. made ≡ ((spec.form_part None kind.now).walk mark around seen.old).made) }
{
    let inner = plain(around);
    match kind {
        Kind::Super { args, block } => {
            refuse_if(seen, !around.in_def, mark, Construct::JumpOutside);
            let args = match args {
                Some(args) => Some(walk_all(alloc, seen, inner, args)?),
                None => None,
            };
            let block = walk_any(alloc, seen, inner, block)?;
            Ok(Kind::Super { args, block })
        }
        _ => Err(NoMemory),
    }
}

#[cycle(walk)]
#[tactic(auto, unfolding(ruby_meaning::specs::Scoping::Walk::part, ruby_meaning::specs::Scoping::Walk::form_part, ruby_meaning::specs::Scoping::Walk::params_part, ruby_meaning::specs::Scoping::Walk::module_part, crate::specs::Group::is_block))]
fn walk_block(
    alloc: Global,
    seen: &mut Seen,
    around: Around,
    mark: Pos,
    kind: &Kind,
) -> Result<Kind, NoMemory>
    requires { is_block kind.now ≡ true }
    ensures seen { OnOk result (seen.new ≡ ((spec.form_part None kind.now).walk mark around seen.old).seen) }
    ensures made { IfOk result (λ made. made ≡ ((spec.form_part None kind.now).walk mark around seen.old).made) }
{
    match kind {
        Kind::Block { params, body } => {
            let kept = open_block(alloc, seen)?;
            let params = walk_params(alloc, seen, within_block(around), mark, params)?;
            let body = walk_boxed(alloc, seen, within_block(around), body)?;
            close_block(alloc, seen, kept)?;
            Ok(Kind::Block { params, body })
        }
        Kind::Lambda { params, body } => {
            let kept = open_block(alloc, seen)?;
            let params = walk_params(alloc, seen, within_lambda(around), mark, params)?;
            let body = walk_boxed(alloc, seen, within_lambda(around), body)?;
            close_block(alloc, seen, kept)?;
            Ok(Kind::Lambda { params, body })
        }
        _ => Err(NoMemory),
    }
}

#[cycle(walk)]
#[tactic(auto, unfolding(ruby_meaning::specs::Scoping::Walk::part, ruby_meaning::specs::Scoping::Walk::form_part, ruby_meaning::specs::Scoping::Walk::params_part, ruby_meaning::specs::Scoping::Walk::module_part, crate::specs::Group::is_def))]
fn walk_def(
    alloc: Global,
    seen: &mut Seen,
    around: Around,
    mark: Pos,
    kind: &Kind,
) -> Result<Kind, NoMemory>
    requires { is_def kind.now ≡ true }
    ensures seen { OnOk result (seen.new ≡ ((spec.form_part None kind.now).walk mark around seen.old).seen) }
    ensures made { IfOk result (λ made. made ≡ ((spec.form_part None kind.now).walk mark around seen.old).made) }
{
    let inner = plain(around);
    match kind {
        Kind::Def {
            on,
            name,
            params,
            body,
        } => {
            let on = walk_any(alloc, seen, inner, on)?;
            let kept = open_body(alloc, seen);
            let params = walk_params(alloc, seen, within_def(), mark, params)?;
            let body = walk_boxed(alloc, seen, within_def(), body)?;
            close_body(alloc, seen, kept)?;
            Ok(Kind::Def {
                on,
                name: name.try_clone()?,
                params,
                body,
            })
        }
        _ => Err(NoMemory),
    }
}

#[cycle(walk)]
#[tactic(auto, unfolding(ruby_meaning::specs::Scoping::Walk::part, ruby_meaning::specs::Scoping::Walk::form_part, ruby_meaning::specs::Scoping::Walk::params_part, ruby_meaning::specs::Scoping::Walk::module_part, crate::specs::Group::is_module))]
fn walk_module(
    alloc: Global,
    seen: &mut Seen,
    around: Around,
    mark: Pos,
    kind: &Kind,
) -> Result<Kind, NoMemory>
    requires { is_module kind.now ≡ true }
    ensures seen { OnOk result (seen.new ≡ ((spec.form_part None kind.now).walk mark around seen.old).seen) }
    ensures made { IfOk result (λ made. made ≡ ((spec.form_part None kind.now).walk mark around seen.old).made) }
{
    let inner = plain(around);
    match kind {
        Kind::ModuleDef { form, name, body } => {
            refuse_if(seen, around.in_def, mark, Construct::DynamicConstant);
            let form = walk_module_form(alloc, seen, inner, form)?;
            let kept = open_body(alloc, seen);
            let body = walk_boxed(alloc, seen, no_targets(), body)?;
            close_body(alloc, seen, kept)?;
            Ok(Kind::ModuleDef {
                form,
                name: name.try_clone()?,
                body,
            })
        }
        _ => Err(NoMemory),
    }
}

// Parameters with their defaults in turn.
#[cycle(walk)]
#[tactic(auto, using(std::proofs::lemmas::Grind::common_steps, ruby_meaning::proofs::Scoping::Lists::drop_at))]
fn walk_defaults(
    alloc: Global,
    seen: &mut Seen,
    around: Around,
    mark: Pos,
    names: &Names,
    defaults: &Items<Node>,
) -> Result<Items<Node>, NoMemory>
    ensures seen { OnOk result (seen.new ≡ (spec.defaults_in_turn mark names.now (map (spec.part None) defaults.now) around seen.old).seen) }
    ensures made { IfOk result (λ made. made ≡ (spec.defaults_in_turn mark names.now (map (spec.part None) defaults.now) around seen.old).made) }
{
    let mut made = Items::new(alloc);
    let mut i = 0;
    for value in defaults.as_slice() {
        if i < names.len() {
            parameter(seen, mark, names.at(i))?;
            i += 1;
        }
        let value = walk_node(alloc, seen, around, value)?;
        push(&mut made, value)?;
    }
    names_from(seen, mark, names, i)?;
    Ok(made)
}

#[cycle(walk)]
#[tactic(auto, unfolding(ruby_meaning::specs::Scoping::Walk::part, ruby_meaning::specs::Scoping::Walk::params_part))]
fn walk_params(
    alloc: Global,
    seen: &mut Seen,
    around: Around,
    mark: Pos,
    params: &Params,
) -> Result<Params, NoMemory>
    ensures seen { OnOk result (seen.new ≡ (spec.params_part None params.now mark around seen.old).seen) }
    ensures made { IfOk result (λ made. made ≡ (spec.params_part None params.now mark around seen.old).made) }
{
    slots(seen, mark, &params.plain)?;
    let defaults = walk_defaults(
        alloc,
        seen,
        around,
        mark,
        &params.optional,
        &params.defaults,
    )?;
    rest_name(seen, mark, &params.rest)?;
    slots(seen, mark, &params.after)?;
    block_name(seen, mark, &params.block)?;
    Ok(Params {
        plain: copy_slots(alloc, &params.plain)?,
        optional: copy_names(alloc, &params.optional)?,
        defaults,
        rest: copy_rest(&params.rest)?,
        after: copy_slots(alloc, &params.after)?,
        block: copy_name(&params.block)?,
    })
}

#[cycle(walk)]
#[tactic(auto, unfolding(ruby_meaning::specs::Scoping::Walk::part, ruby_meaning::specs::Scoping::Walk::base_part))]
fn walk_const(
    alloc: Global,
    seen: &mut Seen,
    around: Around,
    mark: Pos,
    base: &Base,
    name: &Units,
) -> Result<Kind, NoMemory>
    ensures seen { OnOk result (seen.new ≡ (spec.constant (spec.base_part None base.now) name.now mark around seen.old).seen) }
    ensures made { IfOk result (λ made. made ≡ (spec.constant (spec.base_part None base.now) name.now mark around seen.old).made) }
{
    note_constant(seen, around, mark, base, name);
    let base = walk_base(alloc, seen, plain(around), base)?;
    Ok(Kind::ConstGet {
        base,
        name: name.try_clone()?,
    })
}

#[cycle(walk)]
#[tactic(auto, unfolding(ruby_meaning::specs::Scoping::Walk::part, ruby_meaning::specs::Scoping::Walk::base_part))]
fn walk_base(alloc: Global, seen: &mut Seen, around: Around, base: &Base) -> Result<Base, NoMemory>
    ensures seen { OnOk result (seen.new ≡ ((spec.base_part None base.now).walk around seen.old).seen) }
    ensures made { IfOk result (λ made. made ≡ ((spec.base_part None base.now).walk around seen.old).made) }
{
    match base {
        Base::Here => Ok(Base::Here),
        Base::Top => Ok(Base::Top),
        Base::In(node) => Ok(Base::In(walk_boxed(alloc, seen, around, node)?)),
    }
}

#[cycle(walk)]
#[tactic(auto, unfolding(ruby_meaning::specs::Scoping::Walk::part, ruby_meaning::specs::Scoping::Walk::module_part))]
fn walk_module_form(
    alloc: Global,
    seen: &mut Seen,
    around: Around,
    form: &ModuleForm,
) -> Result<ModuleForm, NoMemory>
    ensures seen { OnOk result (seen.new ≡ (spec.module_part None form.now around seen.old).seen) }
    ensures made { IfOk result (λ made. made ≡ (spec.module_part None form.now around seen.old).made) }
{
    match form {
        ModuleForm::Class(superclass) => {
            Ok(ModuleForm::Class(walk_any(alloc, seen, around, superclass)?))
        }
        ModuleForm::Module => Ok(ModuleForm::Module),
        ModuleForm::Singleton(node) => {
            Ok(ModuleForm::Singleton(walk_boxed(alloc, seen, around, node)?))
        }
    }
}
