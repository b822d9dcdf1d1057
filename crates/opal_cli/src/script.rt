ghost use Rattle.std.specs.Prelude.{◌≡◌, ◌≤◌, ℕ, List, IfOk, IfErr, IsErrOf, Some};
ghost use Rattle.opal_base.specs.Outside.{Rose, FileMap, Missed};
ghost use Rattle.opal_cli.specs.Execution.{ScriptIn, ReadsScript};

use es5_parser::read_script;
use es5_tree::{EsStop, Script};
use opal_base::{FileFault, Files, Pos};
use std::alloc::Global;

/// The longest file of a script, in bytes.
const MOST_BYTES: usize = 67_108_864;

/// Why a script was not read.
#[derive(Clone, Copy, Debug, PartialEq, Eq)]
pub enum ScriptFault {
    NoMemory,
    ReadFault,
    Missing,
    NotScript { pos: Pos },
}

/// The script of a file.
pub fn script_in<F: Files>(alloc: Global, files: &mut F, file: &str) -> Result<Script, ScriptFault>
    ensures reads { (map : FileMap) → F.told files.old ≡ Some map → ScriptIn map file.now result }
    ensures missing { IsErrOf result ScriptFault.Missing → Missed (F.tally files.old) (F.tally files.new) (F.missed files.new) file.now }
    ensures read { IsErrOf result ScriptFault.ReadFault → Rose (F.faults files.old) (F.faults files.new) }
    ensures later { F.faults files.old ≤ F.faults files.new }
    ensures later_tally { F.tally files.old ≤ F.tally files.new }
{
    match files.read(alloc, file, MOST_BYTES + 1) {
        Ok(bytes) => script_of(alloc, &bytes),
        Err(FileFault::Absent) => Err(ScriptFault::Missing),
        Err(FileFault::Failed) => Err(ScriptFault::ReadFault),
        Err(FileFault::NoMemory) => Err(ScriptFault::NoMemory),
    }
}

/// The script of a file's content.
pub fn script_of(alloc: Global, bytes: &[u8]) -> Result<Script, ScriptFault>
    ensures { ReadsScript bytes.now result }
{
    if bytes.len() > MOST_BYTES {
        return Err(ScriptFault::NotScript {
            pos: Pos { line: 0, col: 0 },
        });
    }
    match read_script(alloc, bytes) {
        Ok(script) => Ok(script),
        Err(EsStop::NotScript { pos }) => Err(ScriptFault::NotScript { pos }),
        Err(EsStop::NoMemory) => Err(ScriptFault::NoMemory),
    }
}
