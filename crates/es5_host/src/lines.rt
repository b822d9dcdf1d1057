ghost use Rattle.std.specs.Prelude.{◌≡◌, ◌≤◌, length, drop, IfOk, OnErr};
ghost use Rattle.es5_tree.specs.Intrinsics.Lines.{Reading, advanced, line_of, rest};

use opal_base::{NoMemory, Units};
use std::alloc::Global;
use std::marker::Model;

/// The input of a run, and how far it was read.
#[derive(Drop)]
pub struct Lines {
    input: Units,
    read: usize,
}

impl Model for Lines {
    ghost use Rattle.std.specs.Prelude.{◌≤◌, length};
    ghost use Rattle.es5_tree.specs.Intrinsics.Lines.{Reading};

    ghost Value = { Reading };

    ghost view = { λ lines. record { input = lines.input; read = lines.read } };

    ghost invariant = { λ lines. lines.read ≤ length lines.input };
}

// The first line of a text, with its newline where it has one.
fn line_of(text: &[u16]) -> &[u16]
    ensures { result.now ≡ line_of text.now }
{
    for i in 0..text.len() {
        if text[i] == 10 {
            return &text[..i + 1];
        }
    }
    text
}

/// The units from a place on.
pub fn rest_of(units: &[u16], at: usize) -> &[u16]
    requires { at ≤ length units.now }
    ensures { result.now ≡ drop at units.now }
{
    &units[at..]
}

/// The units as a text.
pub fn copy(alloc: Global, units: &[u16]) -> Result<Units, NoMemory>
    ensures { IfOk result (λ text. text ≡ units.now) }
{
    match units.to_vec(alloc) {
        Ok(items) => Ok(Units::from_vec(items)),
        Err(_) => Err(NoMemory),
    }
}

impl Lines {
    /// The input, of which nothing was read. It takes no memory.
    pub fn new(input: Units) -> Lines
        ensures { result ≡ record { input = input; read = 0 } }
    {
        Lines { input, read: 0 }
    }

    /// Reads the next line, with its newline where it has one; the empty text at the end of the
    /// input. Where no memory is found, nothing is read.
    pub fn next_line(&mut self, alloc: Global) -> Result<Units, NoMemory>
        ensures line { IfOk result (λ line. line ≡ line_of (rest self.old)) }
        ensures read { IfOk result (λ line. self.new ≡ advanced self.old (length line)) }
        ensures unread { OnErr result (self.new ≡ self.old) }
    {
        let line = line_of(rest_of(self.input.as_slice(), self.read));
        let count = line.len();
        let text = copy(alloc, line)?;
        self.read += count;
        Ok(text)
    }
}
