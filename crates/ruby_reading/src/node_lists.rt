//! Tests of lists of nodes.

ghost use Rattle.std.specs.Prelude.{◌≡◌};
ghost use Rattle.ruby_meaning.specs.Grammar.Actions as act;
ghost use Rattle.ruby_reading.specs.Nodes as spec;

use ruby_meaning::{Node, Nodes};

/// The first of two that is there.
pub fn or_else(one: Option<Node>, other: Option<Node>) -> Option<Node>
    ensures { result ≡ act.or_else one other }
{
    match one {
        Some(node) => Some(node),
        None => other,
    }
}

pub fn is_none(node: &Option<Node>) -> bool
    ensures { result ≡ spec.is_none node.now }
{
    match node {
        Some(_) => false,
        None => true,
    }
}

pub fn has_items(nodes: &Nodes) -> bool
    ensures { result ≡ spec.has_items nodes.now }
{
    match nodes.as_slice() {
        [] => false,
        [_, ..] => true,
    }
}

pub fn has_one(nodes: &Nodes) -> bool
    ensures { result ≡ spec.has_one nodes.now }
{
    match nodes.as_slice() {
        [_] => true,
        _ => false,
    }
}
