//! The forms that hold no node.

ghost use Rattle.std.specs.Prelude.{◌≡◌, OnOk, IfOk, None, true};
ghost use Rattle.ruby_meaning.specs.Scoping.Walk as spec;
ghost use Rattle.ruby_locals.specs.Leaf.{is_leaf};

use crate::copy::copy_names;
use crate::seen::{name_local, refuse_if};
use opal_base::{NoMemory, Pos};
use ruby_meaning::{Around, Construct, Kind, Seen};
use std::alloc::Global;

/// Notes what a form without nodes says at its mark, and gives the form again. A local is named,
/// and a `retry` outside of all rescue clauses is refused.
#[tactic(auto, unfolding(ruby_meaning::specs::Scoping::Walk::form_part, crate::specs::Leaf::is_leaf))]
pub fn walk_leaf(
    alloc: Global,
    seen: &mut Seen,
    around: Around,
    mark: Pos,
    kind: &Kind,
) -> Result<Kind, NoMemory>
    requires { is_leaf kind.now ≡ true }
    ensures seen { OnOk result (seen.new ≡ ((spec.form_part None kind.now).walk mark around seen.old).seen) }
    ensures made { IfOk result (λ made. made ≡ ((spec.form_part None kind.now).walk mark around seen.old).made) }
{
    match kind {
        Kind::Lit(which) => Ok(Kind::Lit(*which)),
        Kind::SelfRef => Ok(Kind::SelfRef),
        Kind::Int(value) => Ok(Kind::Int(*value)),
        Kind::Str(text) => Ok(Kind::Str(text.try_clone()?)),
        Kind::LocalGet(name) => {
            name_local(seen, name)?;
            Ok(Kind::LocalGet(name.try_clone()?))
        }
        Kind::IvarGet(name) => Ok(Kind::IvarGet(name.try_clone()?)),
        Kind::GlobalGet(name) => Ok(Kind::GlobalGet(name.try_clone()?)),
        Kind::Retry => {
            refuse_if(seen, !around.retries, mark, Construct::JumpOutside);
            Ok(Kind::Retry)
        }
        Kind::Reraise => Ok(Kind::Reraise),
        Kind::Alias { new, old } => Ok(Kind::Alias {
            new: new.try_clone()?,
            old: old.try_clone()?,
        }),
        Kind::Undef(names) => Ok(Kind::Undef(copy_names(alloc, names)?)),
        Kind::Require { name, relative } => Ok(Kind::Require {
            name: name.try_clone()?,
            relative: *relative,
        }),
        _ => Err(NoMemory),
    }
}
