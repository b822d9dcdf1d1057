//! Scripts of the whole language (ECMA-262 5.1, section 14).

ghost use Rattle.std.specs.Prelude.{◌≡◌, ◌<◌, ◌^◌, ◌≤◌, length, IfOk, IfErr};
ghost use Rattle.es5_tree.specs.Depth.{script_depth};
ghost use Rattle.es5_tree.specs.Lexed.{StopsAt, IsEnded};
ghost use Rattle.es5_tree.specs.Grammar.Spelling.{before_end, limit, IsNotScript, NoFrontPos, Reads, SpellsInLimit};

use crate::read::{Halt, read_list};
use es5_lexer::es_lex;
use es5_tree::{EsStop, EsToken, EsTokens, Script};
use std::alloc::Global;

/// The most statements and expressions on a path of a script.
const LIMIT: u32 = 1200;

/// The tokens before the end token.
fn before_end(tokens: &EsTokens) -> &[EsToken]
    requires { IsEnded tokens.now }
    ensures before { result.now ≡ before_end tokens.now }
    ensures end { length result.now < length tokens.now }
{
    let all = tokens.as_slice();
    &all[..all.len() - 1]
}

/// The script that tokens spell with at most 1200 statements and expressions on each path, each
/// expression at the place of its first token; or else the place of the first token such that the
/// tokens up to and with it are no front of such a script. The list ends with its one end token, as
/// that of `es_lex` does, and the end token may be that one.
pub fn parse_script(alloc: Global, tokens: &EsTokens) -> Result<Script, EsStop>
    requires ended { IsEnded tokens.now }
    ensures script { IfOk result (λ script. SpellsInLimit script tokens.now) }
    ensures not_script { IfErr result (λ stop. StopsAt (NoFrontPos tokens.now) stop) }
{
    match read_list(alloc, before_end(tokens), LIMIT) {
        Ok(body) => Ok(Script { body }),
        Err(Halt::NoMemory) => Err(EsStop::NoMemory),
        Err(Halt::At(at)) => Err(EsStop::NotScript {
            pos: tokens.at(at).pos,
        }),
    }
}

/// The script that bytes spell with at most 1200 statements and expressions on each path, each
/// expression at the place of its first token; or else the place, counted from 0, of the first byte
/// at which a token, blank or comment would have to begin and none does, and where there is none, of
/// the first token such that the tokens up to and with it are no front of such a script.
pub fn read_script(alloc: Global, bytes: &[u8]) -> Result<Script, EsStop>
    requires { length bytes.now < 2 ^ 31 }
    ensures script { IfOk result (λ script. Reads bytes.now script) }
    ensures shallow { IfOk result (λ script. script_depth script ≤ limit) }
    ensures not_script { IfErr result (λ stop. StopsAt (IsNotScript bytes.now) stop) }
{
    let tokens = es_lex(alloc, bytes)?;
    parse_script(alloc, &tokens)
}
