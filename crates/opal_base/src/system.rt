ghost use Rattle.std.specs.Prelude.{◌≤◌, length, IfOk, None};
ghost use Rattle.opal_base.specs.Memory.{kept_name};

use crate::fault::{Failed, FileFault};
use crate::files::Files;
use crate::sink::Sink;
use crate::source::Source;
use std::alloc::Global;
use std::io::{ErrorKind, Read, Write};
use std::{fs, io};

/// Any reader of the standard library. It tells no content.
#[derive(Drop)]
pub struct StdSource<R: Read> {
    inner: R,
    faults: u64,
}

impl<R: Read> StdSource<R> {
    /// Over this reader, with no fault so far.
    pub fn new(inner: R) -> StdSource<R> {
        StdSource { inner, faults: 0 }
    }
}

impl<R: Read> Source for StdSource<R> {
    ghost left = { λ source. None };

    ghost faults = { λ source. source.faults };

    fn read(&mut self, buf: &mut [u8]) -> Result<usize, Failed> {
        match self.inner.read(buf) {
            Ok(count) => Ok(count),
            Err(_) => {
                self.faults = self.faults.saturating_add(1);
                Err(Failed)
            }
        }
    }
}

/// Any writer of the standard library. It tells no content.
#[derive(Drop)]
pub struct StdSink<W: Write> {
    inner: W,
    faults: u64,
}

impl<W: Write> StdSink<W> {
    /// Over this writer, with no fault so far.
    pub fn new(inner: W) -> StdSink<W> {
        StdSink { inner, faults: 0 }
    }
}

impl<W: Write> Sink for StdSink<W> {
    ghost told = { λ sink. None };

    ghost faults = { λ sink. sink.faults };

    fn write(&mut self, bytes: &[u8]) -> Result<usize, Failed> {
        match self.inner.write(bytes) {
            Ok(count) if count > 0 || bytes.is_empty() => Ok(count),
            _ => {
                self.faults = self.faults.saturating_add(1);
                Err(Failed)
            }
        }
    }
}

/// The files of the machine. It tells no content.
#[derive(Drop)]
pub struct StdFiles<R: fs::Files> {
    files: R,
    faults: u64,
    tally: u64,
    missed: Option<String>,
}

impl<R: fs::Files> StdFiles<R> {
    /// `files` is what the toolchain gives to `main` for opening files.
    pub fn new(files: R) -> StdFiles<R> {
        StdFiles {
            files,
            faults: 0,
            tally: 0,
            missed: None,
        }
    }
}

impl<R: fs::Files> Files for StdFiles<R> {
    ghost told = { λ files. None };

    ghost faults = { λ files. files.faults };

    ghost tally = { λ files. files.tally };

    ghost missed = { λ files. kept_name files.missed };

    fn read(&mut self, alloc: Global, name: &str, most: usize) -> Result<Vec<u8>, FileFault> {
        match read_front(alloc, &self.files, name, most) {
            Ok(bytes) => Ok(bytes),
            Err(fault) => match fault.kind() {
                ErrorKind::NotFound => match name.to_string(alloc) {
                    Ok(kept) => {
                        self.missed = Some(kept);
                        self.tally = self.tally.saturating_add(1);
                        Err(FileFault::Absent)
                    }
                    Err(_) => Err(FileFault::NoMemory),
                },
                ErrorKind::OutOfMemory => Err(FileFault::NoMemory),
                _ => {
                    self.faults = self.faults.saturating_add(1);
                    Err(FileFault::Failed)
                }
            },
        }
    }
}

// The first bytes of a file, at most so many.
fn read_front<R: fs::Files>(
    alloc: Global,
    files: &R,
    name: &str,
    most: usize,
) -> io::Result<Vec<u8>>
    ensures { IfOk result (λ bytes. length bytes.items ≤ most) }
{
    let file = fs::open(files, name)?;
    let mut bytes = Vec::new(alloc);
    file.take(most as u64).read_to_end(&mut bytes)?;
    bytes.truncate(most);
    Ok(bytes)
}
