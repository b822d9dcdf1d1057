//! From a text to its tokens.

ghost use Rattle.std.specs.Prelude.{◌≡◌, ◌+◌, ◌<◌, ◌≤◌, ◌^◌, ◌++◌, length, IfErr, IfOk, OnOk};
ghost use Rattle.ruby_meaning.specs.Lexing.Lexes.{Lexes, Stops, kind_of, token_if, token_at};
ghost use Rattle.ruby_lexemes.specs.Answer.{Fits};
ghost use Rattle.ruby_lexer.specs.Answer.{IsFault, RefusedAt};

use crate::payload::kind_of;
use crate::spot::{first_spot, go_on, is_blank, place, place_from};
use crate::stand::stands;
use opal_base::{NoMemory, Units};
use ruby_lexemes::blank_len;
use ruby_meaning::{Construct, Form, Spot, Stand, Stop, Token, TokenKind, Tokens};
use std::alloc::Global;

fn token_at(spot: &Spot, slice: &[u16], rest: &[u16], kind: TokenKind) -> Token
    requires at { spot.now.at + length slice.now < 2 ^ 31 }
    requires line { spot.now.pos.line ≤ spot.now.at }
    requires col { spot.now.pos.col ≤ spot.now.at }
    ensures { result ≡ token_at spot.now slice.now rest.now kind }
{
    Token {
        kind,
        from: spot.at,
        to: spot.at + slice.len() as u32,
        pos: spot.pos,
        end: place_from(spot.pos, slice),
        blank_before: is_blank(spot.behind),
        blank_after: blank_len(rest) != 0,
    }
}

/// Adds the token of a piece, where it has one.
fn emit(
    alloc: Global,
    tokens: &mut Tokens,
    spot: &Spot,
    form: Form,
    slice: &[u16],
    rest: &[u16],
) -> Result<(), NoMemory>
    requires at { spot.now.at + length slice.now < 2 ^ 31 }
    requires some { 0 < length slice.now }
    requires line { spot.now.pos.line ≤ spot.now.at }
    requires col { spot.now.pos.col ≤ spot.now.at }
    ensures ok { OnOk result (tokens.new ≡ tokens.old ++ token_if spot.now slice.now rest.now (kind_of form slice.now)) }
{
    if let Some(kind) = kind_of(alloc, form, slice)? {
        tokens.push(token_at(spot, slice, rest, kind))?;
    }
    Ok(())
}

/// Why no piece stands at a place.
fn fault(spot: &Spot, rest: &[u16], stand: Stand) -> Stop
    requires bound { spot.now.at + length rest.now < 2 ^ 31 }
    requires line { spot.now.pos.line ≤ spot.now.at }
    requires col { spot.now.pos.col ≤ spot.now.at }
    requires fits { Fits stand rest.now }
    requires none { IsFault spot.now stand }
    ensures { RefusedAt spot.now rest.now stand result }
{
    match stand {
        Stand::Refused(construct, n) => Stop::Refused {
            pos: place_from(spot.pos, &rest[..n]),
            construct,
        },
        Stand::Endless if spot.nesting.is_empty() => Stop::Refused {
            pos: spot.pos,
            construct: Construct::Unterminated,
        },
        _ => Stop::Refused {
            pos: spot.outer,
            construct: Construct::Unterminated,
        },
    }
}

/// The tokens of a text in text order, the last of them `Eof`, or its first refusal.
///
/// A refusal is a construct and its place, line and column from 0, the column in 16-bit units. A
/// text without end is refused at its start, the outermost one of several, and only where nothing
/// else is refused before the end of the file.
pub fn lex(alloc: Global, text: &Units) -> Result<Tokens, Stop>
    requires short { length text.now < 2 ^ 31 }
    ensures tokens { IfOk result (λ tokens. Lexes text.now tokens) }
    ensures refusal { IfErr result (λ stop. Stops text.now stop) }
{
    let mut tokens = Tokens::new(alloc);
    let mut spot = first_spot(alloc);
    let mut rest = text.as_slice();
    'pieces: loop {
        match stands(place(&spot), rest) {
            Stand::Form(form, n) => {
                let (slice, more) = rest.split_at(n);
                emit(alloc, &mut tokens, &spot, form, slice, more)?;
                go_on(&mut spot, form, slice)?;
                rest = more;
            }
            Stand::End if spot.nesting.is_empty() => {
                tokens.push(token_at(&spot, &[], &[], TokenKind::Eof))?;
                return Ok(tokens);
            }
            stand => return Err(fault(&spot, rest, stand)),
        }
    }
}
