//! Laws of the definitions, each the contract of a function that does nothing.

ghost use Rattle.es5_evaluation.specs.Laws.{CellsGrow, MoreUnits, OneEnd, OutputGrows, TasksInTurn};

/// Once a run has ended, more units change nothing; so it has one end, and its output only grows.
pub fn runs()
    ensures more_units { MoreUnits }
    ensures one_end { OneEnd }
    ensures output_grows { OutputGrows }
{}

/// With more units a script makes no fewer cells.
pub fn cells_grow()
    ensures { CellsGrow }
{}

/// A run of one task after another is a run of the first, and then of the second with the units that
/// are left.
pub fn tasks_in_turn()
    ensures { TasksInTurn }
{}
