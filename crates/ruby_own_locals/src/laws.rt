//! Laws of the definitions, each the contract of a function that does nothing.

ghost use Rattle.ruby_own_locals.specs.Law.{BlockLocals, OwnLocals, ScopedLocals};

/// The locals that evaluation finds in a program as scope resolves it are, scope by scope in the
/// order of the text, those that scope lists: for each program whose places follow the order of
/// its text and in which scope refuses nothing. What a block has of its own when it is called
/// depends on the lists of the frames around it alone.
pub fn own_locals()
    ensures own_locals { OwnLocals }
    ensures scoped_locals { ScopedLocals }
    ensures block_locals { BlockLocals }
{}
