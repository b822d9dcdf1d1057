//! Laws of the definition of scoping, each the contract of a function that does nothing.

ghost use Rattle.ruby_meaning.specs.Scoping.Laws.{OneScoping, OneRefusal, NotBoth, ScopedOrRefused};

/// A program has one scoping or one first refusal, and never both.
pub fn one_scoping()
    ensures scoped_or_refused { ScopedOrRefused }
    ensures one_scoping { OneScoping }
    ensures one_refusal { OneRefusal }
    ensures not_both { NotBoth }
{}
