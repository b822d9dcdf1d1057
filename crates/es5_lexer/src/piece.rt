//! Blanks, comments and tokens.

ghost use Rattle.std.specs.Prelude.{◌≡◌, ◌<◌, ◌∷◌, length, slice_index, IfOk, take_while, drop};
ghost use Rattle.es5_tree.specs.declared.lexing.Class.TheVariants as class;
ghost use Rattle.es5_tree.specs.Characters as spec;
ghost use Rattle.es5_lexer.specs.Pieces.{AllowedOrNot, CommentOrNot, PieceOrNot};

use crate::class::{class_of, digits_size, name_size};
use crate::comment::comment_size;
use crate::literal::literal;
use crate::numeral::{goes_on, numeral};
use crate::restriction::allows;
use crate::sign::sign_at;
use es5_tree::{Class, EsTokenKind, Restriction, SafeInt, Sign, word_units};
use opal_base::NoMemory;
use std::alloc::Global;

/// A piece of the bytes: the kind of its token, none for a blank or a comment, and how many bytes
/// it has.
#[derive(Drop)]
pub struct Piece {
    pub kind: Option<EsTokenKind>,
    pub size: usize,
}

/// A name or a reserved word (ECMA-262 5.1, 7.6).
fn word(alloc: Global, bytes: &[u8]) -> Result<Option<Piece>, NoMemory>
    requires some { 0 < length bytes.now }
    requires letter { spec.class_of (slice_index bytes.now 0) ≡ class.Letter }
    ensures { IfOk result (λ found. PieceOrNot bytes.now found) }
{
    let size = name_size(&bytes[1..]) + 1;
    let kind = EsTokenKind::Word(word_units(alloc, &bytes[..size])?);
    Ok(Some(Piece {
        kind: Some(kind),
        size,
    }))
}

/// A string literal (ECMA-262 5.1, 7.8.4).
fn string(alloc: Global, bytes: &[u8]) -> Result<Option<Piece>, NoMemory>
    requires some { 0 < length bytes.now }
    requires quote { spec.class_of (slice_index bytes.now 0) ≡ class.Quote }
    ensures { IfOk result (λ found. PieceOrNot bytes.now found) }
{
    match literal(alloc, bytes[0], &bytes[1..])? {
        Some((text, size)) => Ok(Some(Piece {
            kind: Some(EsTokenKind::Str(text)),
            size: size + 1,
        })),
        None => Ok(None),
    }
}

/// A numeral (ECMA-262 5.1, 7.8.3).
fn number(bytes: &[u8]) -> Option<Piece>
    requires some { 0 < length bytes.now }
    requires digit { spec.class_of (slice_index bytes.now 0) ≡ class.Digit }
    ensures { PieceOrNot bytes.now result }
{
    let size = digits_size(bytes);
    if goes_on(&bytes[size..]) {
        return None;
    }
    match numeral(&bytes[..size]) {
        Some(value) => Some(Piece {
            kind: Some(EsTokenKind::Num(SafeInt::from_u64(value))),
            size,
        }),
        None => None,
    }
}

/// A comment (ECMA-262 5.1, 7.4), if it is whole.
fn comment(bytes: &[u8]) -> Option<Piece>
    requires some { 0 < length bytes.now }
    ensures { CommentOrNot bytes.now result }
{
    if bytes[0] != b'/' {
        return None;
    }
    match comment_size(&bytes[1..]) {
        Some(size) => Some(Piece {
            kind: None,
            size: size + 1,
        }),
        None => None,
    }
}

/// A sign (ECMA-262 5.1, 7.7) or a comment.
fn other(bytes: &[u8]) -> Option<Piece>
    requires some { 0 < length bytes.now }
    requires other { spec.class_of (slice_index bytes.now 0) ≡ class.Other }
    ensures { PieceOrNot bytes.now result }
{
    match sign_at(bytes) {
        Some((Sign::Mark(mark), size)) => Some(Piece {
            kind: Some(EsTokenKind::Mark(mark)),
            size,
        }),
        Some((Sign::Refused, _)) => comment(bytes),
        None => comment(bytes),
    }
}

/// What stands at the front.
fn next_piece(alloc: Global, bytes: &[u8]) -> Result<Option<Piece>, NoMemory>
    requires { 0 < length bytes.now }
    ensures { IfOk result (λ found. PieceOrNot bytes.now found) }
{
    match class_of(bytes[0]) {
        Class::Blank => Ok(Some(Piece {
            kind: None,
            size: 1,
        })),
        Class::Letter => word(alloc, bytes),
        Class::Digit => Ok(number(bytes)),
        Class::Quote => string(alloc, bytes),
        Class::Other => Ok(other(bytes)),
    }
}

/// What stands at the front and may come.
pub fn next_allowed(
    alloc: Global,
    restriction: Restriction,
    bytes: &[u8],
) -> Result<Option<Piece>, NoMemory>
    requires { 0 < length bytes.now }
    ensures { IfOk result (λ found. AllowedOrNot restriction bytes.now found) }
{
    let Some(piece) = next_piece(alloc, bytes)? else {
        return Ok(None);
    };
    if allows(restriction, &piece.kind) {
        Ok(Some(piece))
    } else {
        Ok(None)
    }
}
