//! The arguments, names and closing tokens of calls.

ghost use Rattle.std.specs.Prelude.{◌≡◌, ◌||◌, ◌∷◌, [], is_some, nat_eq};
ghost use Rattle.grammar.specs.Rules.{token};
ghost use Rattle.ruby_meaning.specs.Grammar.Actions as act;
ghost use Rattle.ruby_meaning.specs.Grammar.Parameters.{behind_newlines};
ghost use Rattle.descent.specs.Sets.{one_of};
ghost use Rattle.ruby_reading.specs.Ahead.{codes, MakesAs};
ghost use Rattle.ruby_reading.specs.Named.{ReadsToken};
ghost use Rattle.ruby_reading.specs.Shown.{shown_args};
ghost use Rattle.ruby_primaries.specs.PassedArguments.{shown_passed};
ghost use Rattle.ruby_reading.specs.Nodes.{is_no_args};

use descent::Fail;
use opal_base::{Names, Units};
use ruby_meaning::{Node, Nodes, Params, Rest, Sign, Slots};
use ruby_parameters::{arguments_of, skip};
use ruby_reading::{Args, Cursor, NEWLINES, Sight, has_items, is_none};
use std::alloc::Global;

/// Newlines and a closing token.
#[tactic(auto, unfolding(ruby_meaning::specs::Grammar::Table::table, ruby_meaning::specs::Grammar::Parameters::behind_newlines, ruby_meaning::specs::Grammar::Parameters::newlines))]
pub fn closing<'a>(cursor: &mut Cursor<'a>, sign: Sign) -> Result<Sight<'a>, Fail>
    ensures { ReadsToken (behind_newlines (token (one_of (codes (sign ∷ []))))) 0 cursor.old result cursor.new }
{
    skip(cursor, &NEWLINES);
    cursor.take(sign)
}

/// Whether there is a block pass.
pub fn has_pass(args: &Args) -> bool
    ensures { result ≡ is_some ((shown_args args.now).1.1) }
{
    args.block.is_some()
}

/// Arguments, and a block pass.
#[derive(Drop)]
pub struct Passed {
    pub items: Nodes,
    pub pass: Option<Node>,
}

/// Whether there is nothing.
#[tactic(auto, using(ruby_reading::proofs::Pairs::is_empty_is))]
pub fn is_empty(args: &Args) -> bool
    ensures { result ≡ is_no_args (shown_args args.now) }
{
    !has_items(&args.items) && !has_items(&args.keys) && is_none(&args.block)
}

/// The arguments, the pairs as one hash, and the block pass.
pub fn parts_of(alloc: Global, args: Args) -> Result<Passed, Fail>
    ensures { MakesAs shown_passed (act.arguments_of (shown_args args), (shown_args args).1.1) result }
{
    let Args {
        items,
        keys,
        values,
        block,
    } = args;
    Ok(Passed {
        items: arguments_of(alloc, items, keys, values)?,
        pass: block,
    })
}
