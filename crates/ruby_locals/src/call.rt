//! What a call says before its parts do.

ghost use Rattle.std.specs.Prelude.{◌≡◌, ◌++◌, ◌||◌, ◌&&◌, not, is_none, map, OnOk, IfOk, None, codes, if◌then◌else◌};
ghost use Rattle.std.specs.Option.{option_map, option_copied};
ghost use Rattle.ruby_meaning.specs.Scoping.Walk as spec;
ghost use Rattle.ruby_meaning.specs.Scoping.Seen.{called, name_local};
ghost use Rattle.ruby_meaning.specs.Scoping.Requires.{required_name};
ghost use Rattle.ruby_meaning.specs.declared.tree.Kind.TheVariants as kinds;

use crate::around::is_target;
use crate::copy::node_like;
use crate::path::{names_file, required_name};
use crate::seen::{called, is_local, name_local, refuse_if};
use crate::shape::{has_none, is_literal_block, only_name, only_text, spans_name};
use crate::word::{is_eval, is_inner_eval, names_lambda, names_relative, names_require};
use opal_base::{NoMemory, Pos, Units};
use ruby_meaning::{Construct, Kind, Node, Operator, Role, Seen};
use sqlite_items::{Boxed, Items};
use std::alloc::Global;

/// The name of the method that sets what a method of this name reads.
pub(crate) fn setter(name: &Units) -> Result<Units, NoMemory>
    ensures { IfOk result (λ set. set ≡ spec.setter name.now) }
{
    let mut set = name.try_clone()?;
    set.push(61)?;
    Ok(set)
}

/// The name of the method of an operator, where it has one.
pub(crate) fn operator_name(alloc: Global, op: Operator) -> Result<Option<Units>, NoMemory>
    ensures { IfOk result (λ name. name ≡ spec.operator_name op) }
{
    let units: &[u16] = match op {
        Operator::Add => &[43],
        Operator::Sub => &[45],
        Operator::Mul => &[42],
        Operator::Div => &[47],
        Operator::Mod => &[37],
        Operator::Pow => &[42, 42],
        Operator::ShiftLeft => &[60, 60],
        Operator::Or | Operator::And => return Ok(None),
    };
    match Vec::from_slice(alloc, units) {
        Ok(items) => Ok(Some(Units::from_vec(items))),
        Err(_) => Err(NoMemory),
    }
}

#[tactic(auto, unfolding(ruby_meaning::specs::Scoping::Walk::refuse_marked))]
fn refuse_marked(seen: &mut Seen, refused: bool, marked: Option<Pos>)
    ensures { seen.new ≡ spec.refuse_marked refused marked seen.old }
{
    if let Some(pos) = marked {
        refuse_if(seen, refused, pos, Construct::AmbiguousArgument);
    }
}

fn requires_file(
    alloc: Global,
    name: &Units,
    args: &Items<Node>,
    block: &Option<Boxed<Node>>,
) -> Result<bool, NoMemory>
    ensures { IfOk result (λ b. b ≡ spec.requires_file None name.now (spec.only_text (map (spec.part None) args.now)) (is_none (option_map (spec.part None) block.now))) }
{
    match only_text(args) {
        Some(text) if block.is_none() => {
            names_file(alloc, names_relative(name.as_slice()), text)
        }
        _ => Ok(false),
    }
}

// A `require` without receiver.
#[tactic(auto, unfolding(ruby_meaning::specs::Scoping::Walk::noted_require))]
fn note_require(
    alloc: Global,
    seen: &mut Seen,
    mark: Pos,
    name: &Units,
    args: &Items<Node>,
    block: &Option<Boxed<Node>>,
    marked: Option<Pos>,
) -> Result<(), NoMemory>
    ensures { OnOk result (seen.new ≡ spec.noted_require None name.now (map (spec.part None) args.now) (option_map (spec.part None) block.now) marked mark seen.old) }
{
    let local = is_local(seen, name);
    let taken = requires_file(alloc, name, args, block)?;
    refuse_if(seen, !taken, mark, Construct::DynamicRequire);
    refuse_marked(seen, local, marked);
    Ok(())
}

fn evaluates(alone: bool, name: &Units, args: &Items<Node>) -> bool
    ensures { result ≡ spec.is_eval alone name.now (map (spec.part None) args.now) }
{
    alone && is_eval(name.as_slice()) || !has_none(args) && is_inner_eval(name.as_slice())
}

/// The name that a call looks up.
fn look_up(seen: &mut Seen, role: Role, name: &Units) -> Result<(), NoMemory>
    ensures { OnOk result (seen.new ≡ called (if spec.is_target role then spec.setter name.now else name.now) seen.old) }
{
    if is_target(role) {
        called(seen, &setter(name)?)
    } else {
        called(seen, name)
    }
}

// A call that looks a name up.
#[tactic(auto, unfolding(ruby_meaning::specs::Scoping::Walk::noted_call))]
fn note_call(
    seen: &mut Seen,
    role: Role,
    mark: Pos,
    alone: bool,
    name: &Units,
    args: &Items<Node>,
    block: &Option<Boxed<Node>>,
    marked: Option<Pos>,
) -> Result<(), NoMemory>
    ensures { OnOk result (seen.new ≡ spec.noted_call alone name.now (map (spec.part None) args.now) (option_map (spec.part None) block.now) marked mark role seen.old) }
{
    let local = alone && is_local(seen, name);
    let bare = alone && names_lambda(name.as_slice()) && !is_literal_block(block);
    look_up(seen, role, name)?;
    refuse_if(seen, evaluates(alone, name, args), mark, Construct::Eval);
    refuse_if(seen, bare, mark, Construct::BareLambda);
    refuse_marked(seen, local, marked);
    Ok(())
}

/// The local that a node is the bare name of: the node is no longer than the name, as that of `x()`
/// is.
#[tactic(auto, unfolding(ruby_meaning::specs::Scoping::Walk::bare_local))]
pub fn bare_local<'n>(seen: &Seen, node: &'n Node) -> Option<&'n Units>
    ensures { option_copied result ≡ spec.bare_local (spec.form_part None node.now.kind).name node.now.span seen.now }
{
    match only_name(node.kind.get()) {
        Some(name) if spans_name(node.span, name) && is_local(seen, name) => Some(name),
        _ => None,
    }
}

/// A node that is the bare name of a local.
pub fn local_node(
    alloc: Global,
    seen: &mut Seen,
    name: &Units,
    node: &Node,
) -> Result<Node, NoMemory>
    ensures seen { OnOk result (seen.new ≡ name_local name.now seen.old) }
    ensures made { IfOk result (λ made. made ≡ record { kind = kinds.LocalGet name.now; span = node.now.span; mark = node.now.mark }) }
{
    name_local(seen, name)?;
    let kind = Kind::LocalGet(name.try_clone()?);
    node_like(alloc, kind, node)
}

// Whether a call is a `require` or a `require_relative` without receiver.
fn is_lone_require(receiver: &Option<Boxed<Node>>, name: &Units) -> bool
    ensures { result ≡ (is_none (option_map (spec.part None) receiver.now) && spec.is_require name.now) }
{
    receiver.is_none() && names_require(name.as_slice())
}

/// What a call says before its parts do.
#[tactic(auto, unfolding(ruby_meaning::specs::Scoping::Walk::noted))]
pub fn note(
    alloc: Global,
    seen: &mut Seen,
    role: Role,
    mark: Pos,
    receiver: &Option<Boxed<Node>>,
    name: &Units,
    args: &Items<Node>,
    block: &Option<Boxed<Node>>,
    marked: Option<Pos>,
) -> Result<(), NoMemory>
    ensures { OnOk result (seen.new ≡ spec.noted None (option_map (spec.part None) receiver.now) name.now (map (spec.part None) args.now) (option_map (spec.part None) block.now) marked mark role seen.old) }
{
    if is_lone_require(receiver, name) {
        note_require(alloc, seen, mark, name, args, block, marked)
    } else {
        note_call(
            seen,
            role,
            mark,
            receiver.is_none(),
            name,
            args,
            block,
            marked,
        )
    }
}

// The text of a `require`, and that of any other argument is empty.
fn text_or_empty(alloc: Global, args: &Items<Node>) -> Result<Units, NoMemory>
    ensures { IfOk result (λ text. text ≡ spec.text_or_empty (spec.only_text (map (spec.part None) args.now))) }
{
    match only_text(args) {
        Some(text) => text.try_clone(),
        None => Ok(Units::new(alloc)),
    }
}

fn require(alloc: Global, name: &Units, args: &Items<Node>) -> Result<Kind, NoMemory>
    ensures { IfOk result (λ kind. kind ≡ kinds.Require (required_name (spec.is_relative name.now) (spec.text_or_empty (spec.only_text (map (spec.part None) args.now)))) (spec.is_relative name.now)) }
{
    let relative = names_relative(name.as_slice());
    let text = text_or_empty(alloc, args)?;
    Ok(Kind::Require {
        name: required_name(alloc, relative, &text)?,
        relative,
    })
}

/// A `require`, or a call with its parts.
#[tactic(auto, unfolding(ruby_meaning::specs::Scoping::Walk::resolved_call))]
pub fn resolved_call(
    alloc: Global,
    receiver: &Option<Boxed<Node>>,
    name: &Units,
    args: &Items<Node>,
    marked: Option<Pos>,
    made_receiver: Option<Boxed<Node>>,
    made_args: Items<Node>,
    made_block: Option<Boxed<Node>>,
) -> Result<Kind, NoMemory>
    ensures { IfOk result (λ kind. kind ≡ spec.resolved_call (is_none (option_map (spec.part None) receiver.now) && spec.is_require name.now) name.now (spec.only_text (map (spec.part None) args.now)) marked made_receiver made_args made_block) }
{
    if is_lone_require(receiver, name) {
        require(alloc, name, args)
    } else {
        Ok(Kind::Call {
            receiver: made_receiver,
            name: name.try_clone()?,
            args: made_args,
            block: made_block,
            marked,
        })
    }
}
