//! The names of methods and constants that have a meaning of their own.

ghost use Rattle.std.specs.Prelude.{◌≡◌, ◌∷◌, [], codes, bytes_eq};
ghost use Rattle.ruby_meaning.specs.Scoping.Walk.{is_one_of, is_relative, is_require, is_thread};

// Whether the units are those of an ASCII text.
fn is_word(units: &[u16], word: &[u16]) -> bool
    ensures { result ≡ bytes_eq units.now word.now }
{
    units == word
}

/// `eval` and `binding`.
pub fn is_eval(name: &[u16]) -> bool
    ensures { result ≡ is_one_of name.now (codes "eval" ∷ codes "binding" ∷ []) }
{
    is_word(name, &[101, 118, 97, 108]) || is_word(name, &[98, 105, 110, 100, 105, 110, 103])
}

/// `instance_eval`, `class_eval` and `module_eval`.
pub fn is_inner_eval(name: &[u16]) -> bool
    ensures { result ≡ is_one_of name.now (codes "instance_eval" ∷ codes "class_eval" ∷ codes "module_eval" ∷ []) }
{
    is_word(
        name,
        &[105, 110, 115, 116, 97, 110, 99, 101, 95, 101, 118, 97, 108],
    ) || is_word(name, &[99, 108, 97, 115, 115, 95, 101, 118, 97, 108])
        || is_word(name, &[109, 111, 100, 117, 108, 101, 95, 101, 118, 97, 108])
}

/// `Thread`, `Fiber` and `Mutex`.
pub fn names_thread(name: &[u16]) -> bool
    ensures { result ≡ is_thread name.now }
{
    is_word(name, &[84, 104, 114, 101, 97, 100])
        || is_word(name, &[70, 105, 98, 101, 114])
        || is_word(name, &[77, 117, 116, 101, 120])
}

/// `require_relative`.
pub fn names_relative(name: &[u16]) -> bool
    ensures { result ≡ is_relative name.now }
{
    is_word(
        name,
        &[
            114, 101, 113, 117, 105, 114, 101, 95, 114, 101, 108, 97, 116, 105, 118, 101,
        ],
    )
}

/// `require` and `require_relative`.
pub fn names_require(name: &[u16]) -> bool
    ensures { result ≡ is_require name.now }
{
    is_word(name, &[114, 101, 113, 117, 105, 114, 101]) || names_relative(name)
}

/// `lambda`.
pub fn names_lambda(name: &[u16]) -> bool
    ensures { result ≡ bytes_eq name.now (codes "lambda") }
{
    is_word(name, &[108, 97, 109, 98, 100, 97])
}

/// `puts`.
pub fn names_puts(name: &[u16]) -> bool
    ensures { result ≡ bytes_eq name.now (codes "puts") }
{
    is_word(name, &[112, 117, 116, 115])
}
