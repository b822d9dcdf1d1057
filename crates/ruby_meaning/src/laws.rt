//! Laws of the definitions, each the contract of a function that does nothing.

ghost use Rattle.ruby_meaning.specs.Laws.{OnlyPuts, SomeLoad, OneLoad};

/// A bundle that some file spells is such a program.
pub fn only_puts()
    ensures { OnlyPuts }
{}

/// Loading a program comes to one thing.
pub fn one_load()
    ensures some_load { SomeLoad }
    ensures one_load { OneLoad }
{}
