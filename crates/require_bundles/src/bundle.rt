ghost use Rattle.std.specs.Prelude.{◌≡◌, ◌<◌, ◌≤◌, ◌^◌, ℕ, List, length, IfOk, IfErr, IsErrOf, Some};
ghost use Rattle.opal_base.specs.Outside.{Rose, FileMap, Missed};
ghost use Rattle.std.specs.Str.{IsValidUpTo};
ghost use Rattle.ruby_meaning.specs.Load.{IsSound, TextResolves, most_bytes};
ghost use Rattle.require_bundles.specs.Loading.{LoadsTo, ReadsTo, FailsToRead, TextStops};

use opal_base::{DecodeFault, FileFault, Files, Pos, Units, decoded_fits, line_col, utf8_to_units};
use ruby_lexer::lex;
use ruby_meaning::{Bundle, Construct, Resolved, Stop, tokens_placed};
use ruby_parser::parse;
use ruby_scope::resolve;
use std::alloc::Global;

/// The longest file, in bytes.
const MOST_BYTES: usize = 1_048_576;

/// Why a bundle was not loaded.
#[derive(Clone, Copy, Debug, PartialEq, Eq)]
pub enum LoadFault {
    NoMemory,
    ReadFault,
    Missing,
    Refused { pos: Pos, construct: Construct },
}

/// Reads the main file and its program, with its names resolved. A file of more than 1 MiB, bytes
/// that aren't UTF-8 and a text that is refused are told by the first place and construct.
pub fn load<F: Files>(alloc: Global, files: &mut F, main: &str) -> Result<Bundle, LoadFault>
    ensures loads { (map : FileMap) → F.told files.old ≡ Some map → LoadsTo map main.now result }
    ensures sound { IfOk result IsSound }
    ensures missing { IsErrOf result LoadFault.Missing → Missed (F.tally files.old) (F.tally files.new) (F.missed files.new) main.now }
    ensures read { IsErrOf result LoadFault.ReadFault → Rose (F.faults files.old) (F.faults files.new) }
    ensures later { F.faults files.old ≤ F.faults files.new }
    ensures later_tally { F.tally files.old ≤ F.tally files.new }
{
    match files.read(alloc, main, MOST_BYTES + 1) {
        Ok(bytes) => bundle_of(alloc, &bytes),
        Err(FileFault::Absent) => Err(LoadFault::Missing),
        Err(FileFault::Failed) => Err(LoadFault::ReadFault),
        Err(FileFault::NoMemory) => Err(LoadFault::NoMemory),
    }
}

// The bundle of the main file's content.
fn bundle_of(alloc: Global, bytes: &[u8]) -> Result<Bundle, LoadFault>
    ensures { ReadsTo bytes.now result }
{
    if bytes.len() > MOST_BYTES {
        return Err(LoadFault::Refused {
            pos: Pos { line: 0, col: 0 },
            construct: Construct::FileTooLong,
        });
    }
    decoded_fits();
    match utf8_to_units(alloc, bytes) {
        Ok(text) => match resolved_text(alloc, &text) {
            Ok(main) => Ok(Bundle { main }),
            Err(Stop::Refused { pos, construct }) => Err(LoadFault::Refused { pos, construct }),
            Err(Stop::NoMemory) => Err(LoadFault::NoMemory),
        },
        Err(DecodeFault::BadByte { offset }) => Err(bad_byte(alloc, bytes, offset)),
        Err(DecodeFault::NoMemory) => Err(LoadFault::NoMemory),
    }
}

// The program of a text, with its names resolved.
fn resolved_text(alloc: Global, text: &Units) -> Result<Resolved, Stop>
    requires short { length text.now < 2 ^ 31 }
    ensures resolves { IfOk result (λ resolved. TextResolves text.now resolved) }
    ensures stops { IfErr result (λ stop. TextStops text.now stop) }
{
    tokens_placed();
    let tokens = lex(alloc, text)?;
    let program = match parse(alloc, &tokens) {
        Ok(program) => program,
        Err(stop) => return Err(stop),
    };
    resolve(alloc, program)
}

// The refusal of bytes that are UTF-8 up to the offset alone.
fn bad_byte(alloc: Global, bytes: &[u8], offset: usize) -> LoadFault
    requires short { length bytes.now ≤ most_bytes }
    requires valid { IsValidUpTo bytes.now offset }
    ensures { FailsToRead bytes.now result }
{
    match utf8_to_units(alloc, &bytes[..offset]) {
        Ok(text) => LoadFault::Refused {
            pos: line_col(&text, text.len()),
            construct: Construct::BadByte,
        },
        Err(_) => LoadFault::NoMemory,
    }
}
