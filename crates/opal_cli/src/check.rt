ghost use Rattle.std.specs.Prelude.{◌≡◌, ◌≢◌, ◌≤◌, ℕ, List, Some};
ghost use Rattle.opal_base.specs.Outside.{Rose, FileMap, Missed};
ghost use Rattle.opal_cli.specs.Ends.{status_of, end_of, MissingFile, IsAnswer, IsSilent};
ghost use Rattle.opal_cli.specs.Answers.{Checks, LoadWith, TookLoadFront, ok_line};

use crate::compile::unloaded;
use crate::outcome::Outcome;
use crate::status::Status;
use opal_base::{Files, Sink, write_all};
use require_bundles::load;
use ruby_meaning::one_load;
use std::alloc::Global;

/// Tells whether the program of a file is taken, by a line on out.
pub fn check<'a, F: Files, O: Sink>(
    alloc: Global,
    file: &'a str,
    files: &mut F,
    out: &mut O,
) -> Outcome<'a>
    // What the words ask for is done.
    ensures done { (map : FileMap) → F.told files.old ≡ Some map → status_of (end_of result) ≡ Status.Done
        → Checks map file.now (O.told out.old) (O.told out.new) }
    ensures answer { (map : FileMap) → F.told files.old ≡ Some map → IsAnswer (status_of (end_of result))
        → LoadWith ok_line map file.now (end_of result) (O.told out.old) (O.told out.new) }
    ensures not_usage { status_of (end_of result) ≢ Status.Usage }
    ensures missing { (name : List ℕ) → end_of result ≡ MissingFile name → Missed (F.tally files.old) (F.tally files.new) (F.missed files.new) name }
    ensures read { status_of (end_of result) ≡ Status.ReadFault → Rose (F.faults files.old) (F.faults files.new) }
    ensures write { status_of (end_of result) ≡ Status.WriteFault → Rose (O.faults out.old) (O.faults out.new) }

    // What out took.
    ensures silent { IsSilent (status_of (end_of result)) → O.told out.new ≡ O.told out.old }
    ensures front { (map : FileMap) → F.told files.old ≡ Some map
        → TookLoadFront ok_line map file.now (O.told out.old) (O.told out.new) }

    ensures later_files { F.faults files.old ≤ F.faults files.new }
    ensures later_tally { F.tally files.old ≤ F.tally files.new }
    ensures later_out { O.faults out.old ≤ O.faults out.new }
{
    one_load();
    let _bundle = match load(alloc, files, file) {
        Ok(bundle) => bundle,
        Err(fault) => return unloaded(file, fault),
    };
    match write_all(out, b"ok\n") {
        Ok(()) => Outcome::Done,
        Err(_) => Outcome::WriteFault,
    }
}
