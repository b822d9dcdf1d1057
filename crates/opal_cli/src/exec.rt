ghost use Rattle.std.specs.Prelude.{◌≡◌, ◌≢◌, ◌⊎◌, ◌≤◌, ℕ, List, [], IfSome, Some};
ghost use Rattle.opal_base.specs.Outside.{Rose, FileMap, Missed};
ghost use Rattle.ruby_meaning.specs.Load.{IsSound};
ghost use Rattle.opal_cli.specs.Ends.{status_of, end_of, MissingFile, IsAnswer, IsSilent};
ghost use Rattle.opal_cli.specs.Answers.{IsRun};
ghost use Rattle.opal_cli.specs.Execution.{ExecWith, TookExecFront, ReadBack};

use crate::compile::{script_text, unloaded, unprinted};
use crate::outcome::Outcome;
use crate::run::run_on_input;
use crate::status::Status;
use crate::words::Budget;
use es5_laws::same_depth;
use es5_parser::read_script;
use es5_printer::PrintStop;
use es5_tree::{EsStop, Script, script_or_place};
use opal_base::{Files, Sink, Source};
use require_bundles::load;
use ruby_meaning::Bundle;
use std::alloc::Global;

/// Compiles the program of a file, reads its script back and runs it on the input.
pub fn exec<'a, F: Files, I: Source, O: Sink>(
    alloc: Global,
    file: &'a str,
    budget: Budget,
    files: &mut F,
    input: &mut I,
    out: &mut O,
) -> Outcome<'a>
    requires { budget.steps ≤ 1000000000 }
    ensures answer { (map : FileMap) → F.told files.old ≡ Some map → IsAnswer (status_of (end_of result))
        → ExecWith map (I.left input.old) file.now budget (end_of result) (O.told out.old) (O.told out.new) }
    ensures front { (map : FileMap) → F.told files.old ≡ Some map
        → TookExecFront map (I.left input.old) file.now budget (O.told out.old) (O.told out.new) }
    ensures not_usage { status_of (end_of result) ≢ Status.Usage }
    ensures missing { (name : List ℕ) → end_of result ≡ MissingFile name → Missed (F.tally files.old) (F.tally files.new) (F.missed files.new) name }
    ensures read { status_of (end_of result) ≡ Status.ReadFault → Rose (F.faults files.old) (F.faults files.new) ⊎ Rose (I.faults input.old) (I.faults input.new) }
    ensures write { status_of (end_of result) ≡ Status.WriteFault → Rose (O.faults out.old) (O.faults out.new) }
    ensures silent { IsSilent (status_of (end_of result)) → O.told out.new ≡ O.told out.old }
    ensures ended { IsRun (status_of (end_of result)) → IfSome (I.left input.new) (λ rest. rest ≡ []) }
    ensures later_files { F.faults files.old ≤ F.faults files.new }
    ensures later_tally { F.tally files.old ≤ F.tally files.new }
    ensures later_input { I.faults input.old ≤ I.faults input.new }
    ensures later_out { O.faults out.old ≤ O.faults out.new }
{
    let bundle = match load(alloc, files, file) {
        Ok(bundle) => bundle,
        Err(fault) => return unloaded(file, fault),
    };
    match script_back(alloc, &bundle) {
        Ok(script) => run_on_input(alloc, script, budget, input, out),
        Err(stop) => unprinted(stop),
    }
}

// The script of a bundle, printed and read back.
fn script_back(alloc: Global, bundle: &Bundle) -> Result<Script, PrintStop>
    requires { IsSound bundle.now }
    ensures { ReadBack bundle.now result }
{
    script_or_place();
    same_depth();
    let text = match script_text(alloc, bundle) {
        Ok(text) => text,
        Err(stop) => return Err(stop),
    };
    match read_script(alloc, text.as_slice()) {
        Ok(script) => Ok(script),
        Err(EsStop::NoMemory) => Err(PrintStop::NoMemory),
        Err(EsStop::NotScript { pos: _ }) => unreachable!(),
    }
}
