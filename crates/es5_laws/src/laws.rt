//! Laws of the definitions, each the contract of a function that does nothing.

ghost use Rattle.es5_laws.specs.Laws.{OneWriteTakesFive, SameCells, SameDepth, SitesDontMatter, WritesInTurn};

/// A script that writes texts writes them one after the other and finishes.
pub fn writes_in_turn()
    ensures { WritesInTurn }
{}

/// One written text takes five units.
pub fn one_write_takes_five()
    ensures { OneWriteTakesFive }
{}

/// Scripts that are the same but for sites and places are as deep.
pub fn same_depth()
    ensures { SameDepth }
{}

/// Sites and places change nothing of a run but the place where it leaves the profile: it shows the
/// same, and makes as many cells.
pub fn sites_dont_matter()
    ensures shown { SitesDontMatter }
    ensures cells { SameCells }
{}
