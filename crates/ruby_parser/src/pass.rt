//! From tokens to the program that they spell, or their refusal.

ghost use Rattle.std.specs.Prelude.{IfErr, IfOk};
ghost use Rattle.ruby_meaning.specs.Grammar.Laws.{SpellsInLimit};
ghost use Rattle.ruby_meaning.specs.Lexing.Laws.{HasOneEof};
ghost use Rattle.ruby_parser.specs.Answer.{StopsAt};

use crate::read::{Halt, read_list};
use crate::refusal::{construct_at, stand_in};
use ruby_meaning::{Program, Stop, Tokens};
use ruby_reading::sights;
use std::alloc::Global;

/// The most levels of a program's nodes.
const LIMIT: u32 = 120;

/// The program that tokens spell within the limit of depth, or their refusal. The last of the
/// tokens is the end token, and no other one is.
///
/// A refusal stands at the first token such that the tokens up to and with it are no front of a
/// program within the limit; its place is that of this token, which may be the end token. It names
/// the first of these that applies: TooDeep where they are a front of a deeper program,
/// AmbiguousArgument, KeywordParameter, PatternMatch, Syntax.
pub fn parse(alloc: Global, tokens: &Tokens) -> Result<Program, Stop>
    requires ended { HasOneEof tokens.now }
    ensures spelled { IfOk result (λ program. SpellsInLimit program tokens.now) }
    ensures refused { IfErr result (λ stop. StopsAt tokens.now stop) }
{
    let spare = stand_in();
    let sights = sights(alloc, tokens)?;
    match read_list(alloc, &sights, LIMIT) {
        Ok(body) => Ok(Program { body: body.node }),
        Err(Halt::NoMemory) => Err(Stop::NoMemory),
        Err(Halt::At(at)) => {
            let construct = construct_at(alloc, &spare, &sights, at)?;
            let pos = tokens.at(at).pos;
            Err(Stop::Refused { pos, construct })
        }
    }
}
