//! Reserved words.

ghost use Rattle.std.specs.Prelude.{◌≡◌, bytes_eq};
ghost use Rattle.std.specs.List.{list_any};
ghost use Rattle.es5_tree.specs.Reserved as spec;

use crate::word::is_word;
use opal_base::Units;

/// The reserved words (ECMA-262 5.1, 7.6.1): keywords, words for later editions, those of strict
/// code, and literals.
const RESERVED: [&[u8]; 45] = [
    b"break",
    b"do",
    b"instanceof",
    b"typeof",
    b"case",
    b"else",
    b"new",
    b"var",
    b"catch",
    b"finally",
    b"return",
    b"void",
    b"continue",
    b"for",
    b"switch",
    b"while",
    b"debugger",
    b"function",
    b"this",
    b"with",
    b"default",
    b"if",
    b"throw",
    b"delete",
    b"in",
    b"try",
    b"class",
    b"enum",
    b"extends",
    b"super",
    b"const",
    b"export",
    b"import",
    b"implements",
    b"let",
    b"private",
    b"public",
    b"yield",
    b"interface",
    b"package",
    b"protected",
    b"static",
    b"null",
    b"true",
    b"false",
];

fn is_any(words: &[&[u8]], name: &[u16]) -> bool
    ensures { result ≡ list_any (λ word. bytes_eq word.now name.now) words.now }
{
    words.iter().any(|word| is_word(word, name))
}

/// Whether a name is a reserved word.
pub fn is_reserved(name: &Units) -> bool
    ensures { result ≡ spec.is_reserved name.now }
{
    is_any(&RESERVED, name.as_slice())
}
