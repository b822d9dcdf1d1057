//! The program `opal`: its words, and the files and streams of the machine.
#![tactic(auto)]

use opal_base::{StdFiles, StdSink, StdSource, write_all};
use opal_cli::{Status, opal};
use std::io::ErrorKind;
use std::process::ExitCode;
use std::{env, io};

fn main(rt: HostRuntime) -> ExitCode {
    let alloc = rt.alloc();
    let mut input = StdSource::new(rt.stdin());
    let mut out = StdSink::new(rt.stdout());
    let mut err = StdSink::new(rt.stderr());
    let status = match words(&rt) {
        Ok(words) => {
            let mut files = StdFiles::new(rt);
            opal(alloc, &words, &mut files, &mut input, &mut out, &mut err)
        }
        Err(_) => {
            let _ = write_all(&mut err, b"out of memory\n");
            Status::NoMemory
        }
    };
    ExitCode::from(status.code())
}

// The words behind the program's name. A word that isn't UTF-8 leaves none of them, so that they
// have no reading.
fn words(rt: &HostRuntime) -> io::Result<Vec<String>> {
    match env::args(rt) {
        Ok(args) => Ok(args.skip(1).collect(rt.alloc())?),
        Err(error) if error.kind() == ErrorKind::InvalidData => Ok(Vec::new(rt.alloc())),
        Err(error) => Err(error),
    }
}
