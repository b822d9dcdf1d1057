//! Productions by their names, and whole lists of tokens.

ghost use Rattle.std.specs.Prelude.{◌≡◌, ◌-◌, ◌<◌, ◌^◌, ◌++◌, map, length, true};
ghost use Rattle.descent.specs.Sets.{behind_open};
ghost use Rattle.grammar.specs.Readers.{read_named};
ghost use Rattle.grammar.specs.Spelling.{IsFront};
ghost use Rattle.ruby_meaning.specs.Grammar.Laws.{whole_file};
ghost use Rattle.ruby_meaning.specs.Grammar.Refusals.{most_levels};
ghost use Rattle.ruby_meaning.specs.Grammar.Table.{table};
ghost use Rattle.ruby_reading.specs.Ahead.{ahead, class_code, see};
ghost use Rattle.ruby_reading.specs.Named.{GivesPart, is_read};
ghost use Rattle.ruby_parser.specs.NoLevel.{opens_of};
ghost use Rattle.ruby_parser.specs.Refusing.{ReadsAll, TellsIf};
ghost use Rattle.ruby_parser.specs.Endings as spec;

use crate::parts::{part_here, statements_part};
use descent::Fail;
use opal_base::NoMemory;
use ruby_meaning::{Mark, Part, Production, Sign, Word};
use ruby_reading::{Body, Cursor, Parser, Reading, Sight};
use std::alloc::Global;

/// Statements of a file.
const WHOLE_FILE: Part = Part {
    production: Production::Statements,
    takes_do: true,
    in_rescue: false,
};

/// What stands before the first node of a value.
const OPENINGS: [Sign; 3] = [
    Sign::Op(Mark::ParenOpen),
    Sign::Marked(Mark::ParenOpen),
    Sign::Keyword(Word::Begin),
];

/// Passes the token that stands before the first node.
fn pass_opening(cursor: &mut Cursor<'_>, production: Production)
    ensures { ahead cursor.new ≡ behind_open class_code (opens_of production) (ahead cursor.old) }
{
    match production {
        Production::Statements | Production::MorePairs(_) => {}
        Production::Otherwise => cursor.pass_one_of(&[Sign::Keyword(Word::Else)]),
        _ => cursor.pass_one_of(&OPENINGS),
    }
}

/// A production with no level left: nothing is read but the token that stands before the first
/// node.
#[tactic(auto, using(crate::proofs::NoLevel::no_level))]
fn read_nothing(cursor: &mut Cursor<'_>, part: Part) -> Result<Reading, Fail>
    requires read { is_read part.production ≡ true }
    ensures { GivesPart part (read_named table 0 part (ahead cursor.old)) result (ahead cursor.new) }
{
    pass_opening(cursor, part.production);
    Err(Fail::Refused)
}

/// A production, with so many levels.
#[tactic(auto)]
fn read_part(
    alloc: Global,
    cursor: &mut Cursor<'_>,
    part: Part,
    levels: u32,
) -> Result<Reading, Fail>
    requires small { levels < 2 ^ 32 - 1 }
    requires read { is_read part.production ≡ true }
    ensures { GivesPart part (read_named table levels part (ahead cursor.old)) result (ahead cursor.new) }
{
    if levels == 0 {
        return read_nothing(cursor, part);
    }
    let parser = Parser {
        alloc,
        depth: levels - 1,
        takes_do: part.takes_do,
        in_rescue: part.in_rescue,
        names: read_part,
    };
    match part.production {
        Production::Statements => statements_part(&parser, cursor, part),
        _ => part_here(&parser, cursor, part),
    }
}

/// Why a list isn't read.
#[derive(Clone, Copy, Debug, PartialEq, Eq)]
pub enum Halt {
    NoMemory,
    /// The index of the token that is refused, which is behind the last one where the end is.
    At(usize),
}

/// What a reading of a list comes to, of which so many tokens of all are left.
fn whole(read: Result<Reading, Fail>, all: usize, left: usize) -> Result<Body, Halt>
    ensures { result ≡ spec.whole read all left }
{
    match read {
        Ok(Reading::Body(body)) if left == 0 => Ok(body),
        Err(Fail::NoMemory) => Err(Halt::NoMemory),
        _ => Err(Halt::At(all.saturating_sub(left))),
    }
}

/// The statements that a whole list spells with so many levels.
pub fn read_list(alloc: Global, sights: &[Sight<'_>], levels: u32) -> Result<Body, Halt>
    requires small { levels < 2 ^ 32 - 1 }
    ensures { ReadsAll levels (map see sights.now) result }
{
    let mut cursor = Cursor { rest: sights };
    let read = read_part(alloc, &mut cursor, WHOLE_FILE, levels);
    whole(read, sights.len(), cursor.left())
}

/// The levels with which tokens are read to tell whether they are a front of a program at all.
pub const MOST_LEVELS: u32 = 4_294_967_294;

/// Whether a list was read up to its end, where so many tokens are left.
fn ended(read: Result<Reading, Fail>, left: usize) -> Result<bool, NoMemory>
    ensures { result ≡ spec.ended read left }
{
    match read {
        Err(Fail::NoMemory) => Err(NoMemory),
        _ => Ok(left == 0),
    }
}

/// Whether tokens are a front of a program of any depth.
pub fn is_front(alloc: Global, sights: &[Sight<'_>]) -> Result<bool, NoMemory>
    ensures { TellsIf (IsFront table whole_file most_levels (map see sights.now)) result }
{
    let mut cursor = Cursor { rest: sights };
    let read = read_part(alloc, &mut cursor, WHOLE_FILE, MOST_LEVELS);
    ended(read, cursor.left())
}
