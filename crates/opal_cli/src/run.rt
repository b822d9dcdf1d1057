ghost use Rattle.std.specs.Prelude.{◌≡◌, ◌≢◌, ◌⊎◌, ◌≤◌, ℕ, List, [], IfSome, Some};
ghost use Rattle.opal_base.specs.Outside.{Rose, FileMap, Missed};
ghost use Rattle.opal_cli.specs.Ends.{status_of, end_of, MissingFile, IsAnswer, IsSilent};
ghost use Rattle.opal_cli.specs.Answers.{IsRun};
ghost use Rattle.opal_cli.specs.Execution.{EndsOnInput, FileWith, RunWith, TookFileFront, TookRunFront, end_of_input, end_of_script};

use crate::execute::execute;
use crate::input::{InputFault, read_input};
use crate::outcome::Outcome;
use crate::script::{ScriptFault, script_in};
use crate::status::Status;
use crate::words::Budget;
use es5_tree::Script;
use opal_base::{Files, Sink, Source};
use std::alloc::Global;

/// Runs the script of a file on the input.
pub fn run<'a, F: Files, I: Source, O: Sink>(
    alloc: Global,
    file: &'a str,
    budget: Budget,
    files: &mut F,
    input: &mut I,
    out: &mut O,
) -> Outcome<'a>
    requires { budget.steps ≤ 1000000000 }
    ensures answer { (map : FileMap) → F.told files.old ≡ Some map → IsAnswer (status_of (end_of result))
        → FileWith map (I.left input.old) file.now budget (end_of result) (O.told out.old) (O.told out.new) }
    ensures front { (map : FileMap) → F.told files.old ≡ Some map
        → TookFileFront map (I.left input.old) file.now budget (O.told out.old) (O.told out.new) }
    ensures not_usage { status_of (end_of result) ≢ Status.Usage }
    ensures missing { (name : List ℕ) → end_of result ≡ MissingFile name → Missed (F.tally files.old) (F.tally files.new) (F.missed files.new) name }
    ensures read { status_of (end_of result) ≡ Status.ReadFault → Rose (F.faults files.old) (F.faults files.new) ⊎ Rose (I.faults input.old) (I.faults input.new) }
    ensures write { status_of (end_of result) ≡ Status.WriteFault → Rose (O.faults out.old) (O.faults out.new) }
    ensures silent { IsSilent (status_of (end_of result)) → O.told out.new ≡ O.told out.old }
    ensures ended { IsRun (status_of (end_of result)) → IfSome (I.left input.new) (λ rest. rest ≡ []) }
    ensures later_files { F.faults files.old ≤ F.faults files.new }
    ensures later_tally { F.tally files.old ≤ F.tally files.new }
    ensures later_input { I.faults input.old ≤ I.faults input.new }
    ensures later_out { O.faults out.old ≤ O.faults out.new }
{
    match script_in(alloc, files, file) {
        Ok(script) => run_on_input(alloc, script, budget, input, out),
        Err(fault) => unread_script(file, fault),
    }
}

// The outcome where a file holds no script.
fn unread_script(file: &str, fault: ScriptFault) -> Outcome<'_>
    ensures { end_of result ≡ end_of_script file.now fault }
{
    match fault {
        ScriptFault::NoMemory => Outcome::NoMemory,
        ScriptFault::ReadFault => Outcome::ReadFault,
        ScriptFault::Missing => Outcome::Missing(file),
        ScriptFault::NotScript { pos } => Outcome::NotScript(file, pos),
    }
}

/// Reads the input to its end, and runs a script on it.
pub fn run_on_input<I: Source, O: Sink>(
    alloc: Global,
    script: Script,
    budget: Budget,
    input: &mut I,
    out: &mut O,
) -> Outcome<'static>
    requires { budget.steps ≤ 1000000000 }
    ensures answer { IsAnswer (status_of (end_of result)) → RunWith (I.left input.old) script budget (end_of result) (O.told out.old) (O.told out.new) }
    ensures front { (O.told out.new ≡ O.told out.old) ⊎ TookRunFront (I.left input.old) script budget (O.told out.old) (O.told out.new) }
    ensures kind { EndsOnInput (end_of result) }
    ensures read { status_of (end_of result) ≡ Status.ReadFault → Rose (I.faults input.old) (I.faults input.new) }
    ensures write { status_of (end_of result) ≡ Status.WriteFault → Rose (O.faults out.old) (O.faults out.new) }
    ensures silent { IsSilent (status_of (end_of result)) → O.told out.new ≡ O.told out.old }
    ensures ended { IsRun (status_of (end_of result)) → IfSome (I.left input.new) (λ rest. rest ≡ []) }
    ensures later_input { I.faults input.old ≤ I.faults input.new }
    ensures later_out { O.faults out.old ≤ O.faults out.new }
{
    match read_input(alloc, input) {
        Ok(text) => execute(alloc, script, text, budget, out),
        Err(fault) => unread_input(fault),
    }
}

// The outcome where the input isn't read.
fn unread_input(fault: InputFault) -> Outcome<'static>
    ensures { end_of result ≡ end_of_input fault }
{
    match fault {
        InputFault::NoMemory => Outcome::NoMemory,
        InputFault::ReadFault => Outcome::ReadFault,
        InputFault::BadInput { offset } => Outcome::BadInput(offset),
    }
}
