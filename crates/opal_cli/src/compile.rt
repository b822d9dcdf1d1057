ghost use Rattle.std.specs.Prelude.{◌≡◌, ◌≢◌, ◌≤◌, ◌<◌, ◌^◌, ℕ, List, length, IfOk, IsErrOf, Some};
ghost use Rattle.opal_base.specs.Outside.{Rose, FileMap, Missed};
ghost use Rattle.ruby_meaning.specs.Load.{IsSound};
ghost use Rattle.es5_tree.specs.Grammar.Spelling.{EsSpells};
ghost use Rattle.es5_printer.specs.Text.{text_of};
ghost use Rattle.opal_cli.specs.Agree.{Agree};
ghost use Rattle.opal_cli.specs.Translation.{script_of};
ghost use Rattle.opal_cli.specs.Ends.{status_of, end_of, MissingFile, IsAnswer, IsSilent};
ghost use Rattle.opal_cli.specs.Loading.{end_of_fault, end_of_stop};
ghost use Rattle.opal_cli.specs.Answers.{CompileWith, TookLoadFront, script_text as text_of_bundle};
ghost use Rattle.opal_cli.specs.Execution.{IsTooLong};
ghost use Rattle.opal_cli.specs.Headline.{Compiles};

use crate::outcome::Outcome;
use crate::status::Status;
use crate::translate::translate;
use es5_printer::{PrintStop, print};
use opal_base::{Bytes, Files, NoMemory, Sink, write_all};
use require_bundles::{LoadFault, load};
use ruby_meaning::{Bundle, one_load};
use std::alloc::Global;

/// Compiles the program of a file and writes the script to out, unless its text would have 2^31
/// bytes or more.
pub fn compile<'a, F: Files, O: Sink>(
    alloc: Global,
    file: &'a str,
    files: &mut F,
    out: &mut O,
) -> Outcome<'a>
    // What the words ask for is done.
    ensures headline { (map : FileMap) → F.told files.old ≡ Some map → status_of (end_of result) ≡ Status.Done
        → Compiles map file.now (O.told out.old) (O.told out.new) }
    ensures answer { (map : FileMap) → F.told files.old ≡ Some map → IsAnswer (status_of (end_of result))
        → CompileWith map file.now (end_of result) (O.told out.old) (O.told out.new) }
    ensures not_usage { status_of (end_of result) ≢ Status.Usage }
    ensures missing { (name : List ℕ) → end_of result ≡ MissingFile name → Missed (F.tally files.old) (F.tally files.new) (F.missed files.new) name }
    ensures read { status_of (end_of result) ≡ Status.ReadFault → Rose (F.faults files.old) (F.faults files.new) }
    ensures write { status_of (end_of result) ≡ Status.WriteFault → Rose (O.faults out.old) (O.faults out.new) }

    // What out took.
    ensures silent { IsSilent (status_of (end_of result)) → O.told out.new ≡ O.told out.old }
    ensures front { (map : FileMap) → F.told files.old ≡ Some map
        → TookLoadFront text_of_bundle map file.now (O.told out.old) (O.told out.new) }

    ensures later_files { F.faults files.old ≤ F.faults files.new }
    ensures later_tally { F.tally files.old ≤ F.tally files.new }
    ensures later_out { O.faults out.old ≤ O.faults out.new }
{
    one_load();
    let bundle = match load(alloc, files, file) {
        Ok(bundle) => bundle,
        Err(fault) => return unloaded(file, fault),
    };
    let script = match script_text(alloc, &bundle) {
        Ok(script) => script,
        Err(stop) => return unprinted(stop),
    };
    match write_all(out, script.as_slice()) {
        Ok(()) => Outcome::Done,
        Err(_) => Outcome::WriteFault,
    }
}

// The outcome where the main file doesn't load.
pub fn unloaded(file: &str, fault: LoadFault) -> Outcome<'_>
    ensures { end_of result ≡ end_of_fault file.now fault }
{
    match fault {
        LoadFault::Missing => Outcome::Missing(file),
        LoadFault::Refused { pos, construct } => Outcome::Refused(file, pos, construct),
        LoadFault::ReadFault => Outcome::ReadFault,
        LoadFault::NoMemory => Outcome::NoMemory,
    }
}

// The outcome where the script isn't printed.
pub fn unprinted(stop: PrintStop) -> Outcome<'static>
    ensures { end_of result ≡ end_of_stop stop }
{
    match stop {
        PrintStop::NoMemory => Outcome::NoMemory,
        PrintStop::TooLong => Outcome::TooLong,
    }
}

// The text of a bundle's script.
pub fn script_text(alloc: Global, bundle: &Bundle) -> Result<Bytes, PrintStop>
    requires { IsSound bundle.now }
    ensures text { IfOk result (λ text. text ≡ text_of (script_of bundle.now)) }
    ensures short { IfOk result (λ text. length text < 2 ^ 31) }
    ensures agrees { IfOk result (λ text. Agree bundle.now (script_of bundle.now)) }
    ensures spells { IfOk result (λ text. EsSpells (script_of bundle.now) text) }
    ensures long { IsErrOf result PrintStop.TooLong → IsTooLong bundle.now }
{
    let script = match translate(alloc, bundle) {
        Ok(script) => script,
        Err(NoMemory) => return Err(PrintStop::NoMemory),
    };
    match print(alloc, &script) {
        Ok(printed) => Ok(printed.bytes),
        Err(stop) => Err(stop),
    }
}
