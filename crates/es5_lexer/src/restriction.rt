//! Line terminators behind `return` and `throw` (ECMA-262 5.1, 7.9.1, 12.9 and 12.13).

ghost use Rattle.std.specs.Prelude.{◌≡◌};
ghost use Rattle.std.specs.List.{list_any};
ghost use Rattle.es5_tree.specs.Characters.{ends_line};
ghost use Rattle.es5_tree.specs.Tokens as spec;

use crate::class::ends_line;
use es5_tree::{EsMark, EsTokenKind, Restriction, is_word};
use opal_base::Units;

/// Whether a token, or a blank or comment, may come.
pub fn allows(restriction: Restriction, kind: &Option<EsTokenKind>) -> bool
    ensures { result ≡ spec.allows restriction kind.now }
{
    match (restriction, kind) {
        (Restriction::NextLine, Some(EsTokenKind::Mark(EsMark::Semicolon))) => true,
        (Restriction::NextLine, Some(_)) => false,
        _ => true,
    }
}

fn is_restricted(name: &Units) -> bool
    ensures { result ≡ spec.is_restricted name.now }
{
    is_word(b"return", name.as_slice()) || is_word(b"throw", name.as_slice())
}

fn holds_line_end(slice: &[u8]) -> bool
    ensures { result ≡ list_any ends_line slice.now }
{
    slice.iter().any(|byte| ends_line(*byte))
}

fn passed(restriction: Restriction, slice: &[u8]) -> Restriction
    ensures { result ≡ spec.passed restriction slice.now }
{
    match restriction {
        Restriction::SameLine => {
            if holds_line_end(slice) {
                Restriction::NextLine
            } else {
                Restriction::SameLine
            }
        }
        Restriction::Free | Restriction::NextLine => restriction,
    }
}

/// The restriction behind a piece.
pub fn after(restriction: Restriction, kind: &Option<EsTokenKind>, slice: &[u8]) -> Restriction
    ensures { result ≡ spec.after restriction kind.now slice.now }
{
    match kind {
        None => passed(restriction, slice),
        Some(EsTokenKind::Word(name)) if is_restricted(name) => Restriction::SameLine,
        Some(_) => Restriction::Free,
    }
}
