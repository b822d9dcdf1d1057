ghost use Rattle.std.specs.Prelude.{◌≡◌, ◌≤◌};
ghost use Rattle.opal_base.specs.Outside.{Rose};
ghost use Rattle.opal_cli.specs.Ends.{status_of, end_of, IsAnswer};
ghost use Rattle.opal_cli.specs.Execution.{RanTo, TookRun, EndsRun, end_of_run};

use crate::outcome::Outcome;
use crate::status::Status;
use crate::words::Budget;
use es5_machine::{Machine, RunEnd};
use es5_tree::Script;
use opal_base::{Sink, Units};
use std::alloc::Global;

/// Runs a script on an input, within a budget. What it writes goes to out.
pub fn execute<O: Sink>(
    alloc: Global,
    script: Script,
    input: Units,
    budget: Budget,
    out: &mut O,
) -> Outcome<'static>
    requires { budget.steps ≤ 1000000000 }
    ensures ran { IsAnswer (status_of (end_of result)) → RanTo script input budget (end_of result) (O.told out.old) (O.told out.new) }
    ensures front { TookRun script input budget (O.told out.old) (O.told out.new) }
    ensures kind { EndsRun (end_of result) }
    ensures write { status_of (end_of result) ≡ Status.WriteFault → Rose (O.faults out.old) (O.faults out.new) }
    ensures later_out { O.faults out.old ≤ O.faults out.new }
{
    let mut machine = match Machine::start(alloc, script, input, budget.cells) {
        Ok(machine) => machine,
        Err(_) => return Outcome::NoMemory,
    };
    let end = machine.run(budget.steps, out);
    outcome_of(end, budget)
}

// How the end of a run is told.
fn outcome_of(end: RunEnd, budget: Budget) -> Outcome<'static>
    ensures { end_of result ≡ end_of_run budget end }
{
    match end {
        RunEnd::Finished => Outcome::Done,
        RunEnd::Uncaught { name, message } => Outcome::Uncaught(name, message),
        RunEnd::Outside { kind, pos } => Outcome::Outside(kind, pos),
        RunEnd::OutOfSteps => Outcome::OutOfSteps(budget.steps),
        RunEnd::CellsFull => Outcome::CellsFull(budget.cells),
        RunEnd::WriteFault => Outcome::WriteFault,
        RunEnd::NoMemory => Outcome::NoMemory,
    }
}
