//! The parts that hold one another, and whole lists of tokens.

ghost use Rattle.std.specs.Prelude.{◌≡◌, ◌<◌, ◌^◌, suc};
ghost use Rattle.grammar.specs.Readers.{read_named};
ghost use Rattle.es5_tree.specs.Grammar.Names.{script};
ghost use Rattle.es5_tree.specs.Grammar.Table.{table};
ghost use Rattle.es5_reading.specs.Gives.{ahead};
ghost use Rattle.es5_reading.specs.Named.{GivesPart, GivesStmts};
ghost use Rattle.es5_parser.specs.Wholes as spec;
ghost use Rattle.es5_parser.specs.Wholes.{ReadsAll};

use crate::brackets::take_openings;
use crate::names::Parser;
use descent::Fail;
use es5_reading::parts::{Part, Reading};
use es5_reading::tokens::Tokens;
use es5_tree::{EsStmts, EsToken};
use std::alloc::Global;

/// A part with no level left: nothing is read but the opening brackets before an expression.
#[tactic(auto, using(crate::proofs::NoLevel::no_level, crate::proofs::NoLevel::no_statement))]
pub fn read_nothing(tokens: &mut Tokens<'_>, part: Part) -> Result<Reading, Fail>
    ensures { GivesPart part 0 (ahead tokens.old) result (ahead tokens.new) }
{
    match part {
        Part::Expr(_) => {
            let _ = take_openings(tokens);
            Err(Fail::Refused)
        }
        Part::Stmt(_, _) => Err(Fail::Refused),
    }
}

/// A part, with so many levels.
fn read_part(
    alloc: Global,
    tokens: &mut Tokens<'_>,
    part: Part,
    levels: u32,
) -> Result<Reading, Fail>
    requires small { levels < 2 ^ 31 }
    ensures { GivesPart part levels (ahead tokens.old) result (ahead tokens.new) }
{
    if levels == 0 {
        return read_nothing(tokens, part);
    }
    let parser = Parser {
        alloc,
        depth: levels - 1,
        part: read_part,
    };
    parser.part_here(tokens, part)
}

/// Why a list isn't read.
#[derive(Clone, Copy, Debug, PartialEq, Eq)]
pub enum Halt {
    NoMemory,
    /// The index of the token that is refused, which is behind the last one where the end is.
    At(usize),
}

/// What the reading of a list comes to, of which so many tokens of all are left.
fn whole(read: Result<EsStmts, Fail>, all: usize, left: usize) -> Result<EsStmts, Halt>
    ensures { result ≡ spec.whole read all left }
{
    match read {
        Ok(body) if left == 0 => Ok(body),
        Err(Fail::NoMemory) => Err(Halt::NoMemory),
        _ => Err(Halt::At(all.saturating_sub(left))),
    }
}

/// The statements of the script that a whole list spells with so many levels.
pub fn read_list(alloc: Global, tokens: &[EsToken], levels: u32) -> Result<EsStmts, Halt>
    requires small { levels < 2 ^ 31 }
    ensures { ReadsAll levels tokens.now result }
{
    let mut ahead = Tokens { rest: tokens };
    let parser = Parser {
        alloc,
        depth: levels,
        part: read_part,
    };
    let read = parser.whole_script(&mut ahead);
    whole(read, tokens.len(), ahead.left())
}
