//! From bytes to tokens.

ghost use Rattle.std.specs.Prelude.{◌≡◌, ◌+◌, ◌<◌, ◌≤◌, ◌^◌, ◌++◌, length, IfOk, IfErr, OnOk};
ghost use Rattle.opal_base.specs.Place.{place_at};
ghost use Rattle.std.specs.List.{AllByRecursion};
ghost use Rattle.es5_tree.specs.Lexed.{Ascends, IsSafe, LexesTo, NoTokenPlace, StopsAt, IsEnded};
ghost use Rattle.es5_lexer.specs.Pieces.{token_here};

use crate::piece::next_allowed;
use crate::restriction::after;
use es5_tree::{EsStop, EsToken, EsTokenKind, EsTokens, Restriction};
use opal_base::{NoMemory, Pos};
use std::alloc::Global;

/// The place of a byte, from the place of a byte before it.
fn place_from(bytes: &[u8], from: usize, to: usize, mut pos: Pos) -> Pos
    requires order { from ≤ to }
    requires within { to ≤ length bytes.now }
    requires short { length bytes.now < 2 ^ 31 }
    requires at { pos ≡ place_at bytes.now from }
    requires bound { pos.line + pos.col ≤ from }
    ensures is { result ≡ place_at bytes.now to }
    ensures bound { result.line + result.col ≤ to }
{
    for i in from..to {
        if bytes[i] == b'\n' {
            pos.line += 1;
            pos.col = 0;
        } else {
            pos.col += 1;
        }
    }
    pos
}

/// Puts the token of a piece at the end, if the piece is one.
fn emit(
    tokens: &mut EsTokens,
    kind: Option<EsTokenKind>,
    from: usize,
    size: usize,
    pos: Pos,
) -> Result<(), NoMemory>
    requires { from + size < 2 ^ 31 }
    ensures { OnOk result (tokens.new ≡ tokens.old ++ token_here pos from size kind) }
{
    match kind {
        Some(kind) => tokens.push(EsToken {
            kind,
            from: from as u32,
            to: (from + size) as u32,
            pos,
        }),
        None => Ok(()),
    }
}

/// The tokens of bytes, with one token for their end behind them; or the place, counted from 0, of
/// the first byte at which a token, blank or comment would have to begin and none does (ECMA-262
/// 5.1, section 7, as far as the profile goes).
pub fn es_lex(alloc: Global, bytes: &[u8]) -> Result<EsTokens, EsStop>
    requires { length bytes.now < 2 ^ 31 }
    ensures tokens { IfOk result (λ tokens. LexesTo bytes.now tokens) }
    ensures few { IfOk result (λ tokens. length tokens ≤ length bytes.now + 1) }
    ensures ended { IfOk result (λ tokens. IsEnded tokens) }
    ensures ascend { IfOk result (λ tokens. Ascends 0 tokens) }
    ensures safe { IfOk result (λ tokens. AllByRecursion IsSafe tokens) }
    ensures not_script { IfErr result (λ stop. StopsAt (NoTokenPlace bytes.now) stop) }
{
    let mut tokens = EsTokens::new(alloc);
    let mut at = 0;
    let mut pos = Pos { line: 0, col: 0 };
    let mut restriction = Restriction::Free;
    'pieces: while at < bytes.len() {
        let Some(piece) = next_allowed(alloc, restriction, &bytes[at..])? else {
            return Err(EsStop::NotScript { pos });
        };
        let end = at + piece.size;
        restriction = after(restriction, &piece.kind, &bytes[at..end]);
        emit(&mut tokens, piece.kind, at, piece.size, pos)?;
        pos = place_from(bytes, at, end, pos);
        at = end;
    }
    emit(&mut tokens, Some(EsTokenKind::End), at, 0, pos)?;
    Ok(tokens)
}
