//! Arguments, pairs behind them, and a block pass.

ghost use Rattle.std.specs.Prelude.{◌≡◌, [], Some, length};

use crate::node_lists::{has_items, has_one, is_none, or_else};
use descent::Fail;
use ruby_meaning::{Node, Nodes};
use sqlite_items::Items;
use std::alloc::Global;

/// Arguments, pairs behind them, and a block pass.
#[derive(Drop)]
pub struct Args {
    pub items: Nodes,
    pub keys: Nodes,
    /// As many as keys.
    pub values: Nodes,
    ghost same: { length keys ≡ length values },
    pub block: Option<Node>,
}

impl Args {
    ghost use Rattle.ruby_meaning.specs.Grammar.Actions as act;
    ghost use Rattle.ruby_reading.specs.Ahead.{MakesAs};
    ghost use Rattle.ruby_reading.specs.Shown.{shown_args};

    pub fn new(alloc: Global) -> Args
        ensures { shown_args result ≡ act.no_args }
    {
        Args {
            items: Items::new(alloc),
            keys: Items::new(alloc),
            values: Items::new(alloc),
            block: None,
        }
    }

    /// One argument.
    pub fn single(alloc: Global, item: Node) -> Result<Args, Fail>
        ensures { MakesAs shown_args (act.single item) result }
    {
        let mut items = Items::new(alloc);
        items.push(item)?;
        Ok(Args {
            items,
            keys: Items::new(alloc),
            values: Items::new(alloc),
            block: None,
        })
    }

    /// One pair.
    pub fn paired(alloc: Global, key: Node, value: Node) -> Result<Args, Fail>
        ensures { MakesAs shown_args (act.paired (act.key_held key value)) result }
    {
        let mut keys = Items::new(alloc);
        keys.push(key)?;
        let mut values = Items::new(alloc);
        values.push(value)?;
        Ok(Args {
            items: Items::new(alloc),
            keys,
            values,
            block: None,
        })
    }

    /// A block pass alone.
    pub fn passed(alloc: Global, block: Node) -> Args
        ensures { shown_args result ≡ ([], ([], Some block)) }
    {
        Args {
            items: Items::new(alloc),
            keys: Items::new(alloc),
            values: Items::new(alloc),
            block: Some(block),
        }
    }

    /// Others behind these.
    #[tactic(auto, using(crate::proofs::Pairs::pairs_append))]
    pub fn with_more(self, more: Args) -> Result<Args, Fail>
        ensures { MakesAs shown_args (act.with_more (shown_args self) (shown_args more)) result }
    {
        let Args {
            mut items,
            mut keys,
            mut values,
            block,
        } = self;
        let Args {
            items: more_items,
            keys: more_keys,
            values: more_values,
            block: more_block,
        } = more;
        items.append(more_items)?;
        keys.append(more_keys)?;
        values.append(more_values)?;
        Ok(Args {
            items,
            keys,
            values,
            block: or_else(block, more_block),
        })
    }

    /// Whether this is one argument alone.
    #[tactic(auto, using(crate::proofs::Pairs::is_single_is))]
    pub fn is_single(&self) -> bool
        ensures { result ≡ act.is_single (shown_args self.now) }
    {
        has_one(&self.items) && !has_items(&self.keys) && is_none(&self.block)
    }

    /// Whether there are pairs, and no block pass.
    #[tactic(auto, using(crate::proofs::Pairs::has_pair_is))]
    pub fn has_pair(&self) -> bool
        ensures { result ≡ act.has_pair (shown_args self.now) }
    {
        has_items(&self.keys) && is_none(&self.block)
    }
}
