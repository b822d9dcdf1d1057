//! Laws of the definitions, each the contract of a function that does nothing.

ghost use Rattle.es5_rules.specs.Laws.{MomentsInTurn, SeenInParts};

/// The states before calls of the host of one task after another are those of the one, and then those of the other.
pub fn moments_in_turn()
    ensures { MomentsInTurn }
{}

/// What is seen of a run are the states before its calls of the host, and the last one where it has ended in the profile.
pub fn seen_in_parts()
    ensures { SeenInParts }
{}
