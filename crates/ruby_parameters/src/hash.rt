//! The arguments of a call, with their pairs as one hash.

ghost use Rattle.std.specs.Prelude.{◌≡◌, length};
ghost use Rattle.ruby_meaning.specs.Grammar.Actions as act;
ghost use Rattle.ruby_reading.specs.Ahead.{MakesAs};
ghost use Rattle.ruby_reading.specs.Nodes as spec;
ghost use Rattle.ruby_reading.specs.Shown.{pairs_of, shown_args};

use crate::lists::last_span;
use descent::Fail;
use opal_base::Span;
use ruby_meaning::{Kind, Nodes};
use ruby_reading::{Args, node, to_end};
use sqlite_items::Items;
use std::alloc::Global;

/// The span of the first node, where there is one.
pub fn first_span(nodes: &Nodes) -> Option<Span>
    ensures { result ≡ spec.first_span nodes.now }
{
    match nodes.as_slice() {
        [] => None,
        [first, ..] => Some(first.span),
    }
}

/// The hash of pairs, or nothing where there is none.
#[tactic(auto, using(ruby_reading::proofs::Pairs::hash_is))]
fn hash(alloc: Global, keys: Nodes, values: Nodes) -> Result<Nodes, Fail>
    requires { length keys ≡ length values }
    ensures { MakesAs (λ ns. ns) (act.hash (pairs_of keys values)) result }
{
    let mut items = Items::new(alloc);
    if let Some(key) = first_span(&keys) {
        let span = to_end(key, last_span(key, &values));
        let hash = Kind::HashLit { keys, values };
        items.push(node(alloc, hash, span, key.from)?)?;
    }
    Ok(items)
}

/// The arguments, the pairs as one hash.
pub fn arguments_of(alloc: Global, items: Nodes, keys: Nodes, values: Nodes) -> Result<Nodes, Fail>
    requires { length keys ≡ length values }
    ensures { MakesAs (λ ns. ns) (spec.arguments_of items keys values) result }
{
    let mut items = items;
    items.append(hash(alloc, keys, values)?)?;
    Ok(items)
}

/// The arguments with a block pass at their end.
pub fn items_of(alloc: Global, args: Args) -> Result<Nodes, Fail>
    ensures { MakesAs (λ ns. ns) (act.items_of (shown_args args)) result }
{
    let Args {
        items,
        keys,
        values,
        block,
    } = args;
    let mut items = arguments_of(alloc, items, keys, values)?;
    if let Some(block) = block {
        items.push(block)?;
    }
    Ok(items)
}
