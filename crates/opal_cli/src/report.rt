ghost use Rattle.std.specs.Prelude.{◌≡◌, ◌≢◌, ◌⊎◌, ◌≤◌, ◌+◌, ℕ, List, [], ◌∷◌, ◌++◌, string_bytes, codes, IfOk};
ghost use Rattle.std.specs.Fmt.{decimal};
ghost use Rattle.opal_base.specs.Outside.{Rose, appended};
ghost use Rattle.opal_cli.specs.Ends as ends;
ghost use Rattle.opal_cli.specs.Ends.{status_of, line_of, end_of, RefusedAt, UncaughtBy, WriteFailed};
ghost use Rattle.opal_cli.specs.Answers.{TookFronts, Reported};

use crate::outcome::Outcome;
use crate::status::Status;
use es5_host::OutKind;
use opal_base::{Bytes, NoMemory, Pos, Sink, Units, units_to_utf8, write_all};
use ruby_meaning::Construct;
use std::alloc::{AllocError, Global};

/// The line that says how the words are used.
pub const USAGE: &str =
    "usage: opal compile FILE | map FILE | check FILE | run SCRIPT [--steps N] [--cells N] | exec FILE [--steps N] [--cells N] | sample N\n";

impl Outcome<'_> {
    fn status(&self) -> Status
        ensures { result ≡ status_of (end_of self.now) }
    {
        match self {
            Outcome::Done => Status::Done,
            Outcome::Uncaught(_, _) => Status::Uncaught,
            Outcome::Usage => Status::Usage,
            Outcome::Refused(_, _, _) => Status::Refused,
            Outcome::Missing(_) => Status::Missing,
            Outcome::ReadFault => Status::ReadFault,
            Outcome::WriteFault => Status::WriteFault,
            Outcome::Outside(_, _) => Status::Outside,
            Outcome::OutOfSteps(_) => Status::OutOfSteps,
            Outcome::CellsFull(_) => Status::CellsFull,
            Outcome::NotScript(_, _) => Status::NotScript,
            Outcome::BadInput(_) => Status::BadInput,
            Outcome::NoMemory => Status::NoMemory,
            Outcome::TooLong => Status::TooLong,
        }
    }
}

/// Tells an outcome on err by its line.
pub fn report<E: Sink>(alloc: Global, outcome: &Outcome<'_>, err: &mut E) -> Status
    ensures told { Reported (E.told err.old) (E.told err.new) (E.faults err.old) (E.faults err.new) (end_of outcome.now) result }
    ensures later { E.faults err.old ≤ E.faults err.new }
{
    let status = outcome.status();
    if let Status::WriteFault = status {
        let _ = write_all(err, b"write fault\n");
        return Status::WriteFault;
    }
    match error_line(alloc, outcome) {
        Ok(line) => tell(err, status, line.as_slice()),
        Err(_) => tell(err, Status::NoMemory, b"out of memory\n"),
    }
}

// The line on err for an outcome; lines and columns are printed from 1.
fn error_line(alloc: Global, outcome: &Outcome<'_>) -> Result<Bytes, NoMemory>
    ensures { IfOk result (λ line. line ≡ line_of (end_of outcome.now)) }
{
    if let Outcome::Uncaught(name, message) = outcome {
        return uncaught_line(alloc, name, message);
    }
    match ascii_line(alloc, outcome) {
        Ok(line) => Ok(Bytes::from_vec(line.into_bytes())),
        Err(_) => Err(NoMemory),
    }
}

// `uncaught: NAME: MESSAGE`
fn uncaught_line(alloc: Global, name: &Units, message: &Units) -> Result<Bytes, NoMemory>
    ensures { IfOk result (λ line. line ≡ line_of (UncaughtBy name.now message.now)) }
{
    let mut line = Bytes::new(alloc);
    line.extend(b"uncaught: ")?;
    line.extend(units_to_utf8(alloc, name)?.as_slice())?;
    line.extend(b": ")?;
    line.extend(units_to_utf8(alloc, message)?.as_slice())?;
    line.extend(b"\n")?;
    Ok(line)
}

// The line of any other outcome.
fn ascii_line(alloc: Global, outcome: &Outcome<'_>) -> Result<String, AllocError>
    requires { (name message : List ℕ) → end_of outcome.now ≢ UncaughtBy name message }
    ensures { IfOk result (λ line. string_bytes line ≡ line_of (end_of outcome.now)) }
{
    match outcome {
        Outcome::Done | Outcome::Uncaught(_, _) => Ok(String::new(alloc)),
        Outcome::Usage => USAGE.to_string(alloc),
        Outcome::Refused(file, pos, construct) => refusal_line(alloc, file, *pos, *construct),
        Outcome::Missing(file) => format!(in alloc; "missing: {file}\n"),
        Outcome::ReadFault => "read fault\n".to_string(alloc),
        Outcome::WriteFault => "write fault\n".to_string(alloc),
        Outcome::Outside(kind, pos) => outside_line(
            alloc,
            kind_name(*kind),
            from_one(pos.line),
            from_one(pos.col),
        ),
        Outcome::OutOfSteps(steps) => format!(in alloc; "out of steps: {steps}\n"),
        Outcome::CellsFull(cells) => format!(in alloc; "cells full: {cells}\n"),
        Outcome::NotScript(file, pos) => not_script_line(
            alloc,
            file,
            from_one(pos.line),
            from_one(pos.col),
        ),
        Outcome::BadInput(offset) => format!(in alloc; "bad input at {offset}\n"),
        Outcome::NoMemory => "out of memory\n".to_string(alloc),
        Outcome::TooLong => "script too long\n".to_string(alloc),
    }
}

// A line or a column as it is printed, counted from 1.
fn from_one(number: u32) -> u64
    ensures { result ≡ number + 1 }
{
    number as u64 + 1
}

fn refusal_line(
    alloc: Global,
    file: &str,
    pos: Pos,
    construct: Construct,
) -> Result<String, AllocError>
    ensures { IfOk result (λ line. string_bytes line ≡ line_of (RefusedAt file.now pos construct)) }
{
    refused(
        alloc,
        file,
        from_one(pos.line),
        from_one(pos.col),
        construct.name(),
    )
}

fn refused(alloc: Global, file: &str, line: u64, col: u64, name: &str) -> Result<String, AllocError>
    ensures { IfOk result (λ text. string_bytes text ≡ file.now ++ 58 ∷ (decimal line ++ 58 ∷ (decimal col ++ (codes ": refused: " ++ (name.now ++ 10 ∷ []))))) }
{
    format!(in alloc; "{file}:{line}:{col}: refused: {name}\n")
}

fn not_script_line(alloc: Global, file: &str, line: u64, col: u64) -> Result<String, AllocError>
    ensures { IfOk result (λ text. string_bytes text ≡ file.now ++ 58 ∷ (decimal line ++ 58 ∷ (decimal col ++ codes ": not a script\n"))) }
{
    format!(in alloc; "{file}:{line}:{col}: not a script\n")
}

fn outside_line(alloc: Global, kind: &str, line: u64, col: u64) -> Result<String, AllocError>
    ensures { IfOk result (λ text. string_bytes text ≡ codes "outside: " ++ (kind.now ++ (codes " at " ++ (decimal line ++ 58 ∷ (decimal col ++ 10 ∷ []))))) }
{
    format!(in alloc; "outside: {kind} at {line}:{col}\n")
}

fn kind_name(kind: OutKind) -> &'static str
    ensures { result.now ≡ ends.kind_name kind }
{
    match kind {
        OutKind::Number => "Number",
        OutKind::Division => "Division",
        OutKind::Conversion => "Conversion",
        OutKind::Host => "Host",
    }
}

// Writes a line to err. Where that fails the status becomes `WriteFault`, whose line is tried once.
fn tell<E: Sink>(err: &mut E, status: Status, line: &[u8]) -> Status
    ensures status { (result ≡ status) ⊎ (result ≡ Status.WriteFault) }
    ensures line { result ≢ Status.WriteFault → E.told err.new ≡ appended (E.told err.old) line.now }
    ensures cut { status ≢ Status.WriteFault → result ≡ Status.WriteFault → TookFronts (E.told err.old) (E.told err.new) line.now (line_of WriteFailed) }
    ensures later { E.faults err.old ≤ E.faults err.new }
    ensures rose { status ≢ Status.WriteFault → result ≡ Status.WriteFault → Rose (E.faults err.old) (E.faults err.new) }
{
    match write_all(err, line) {
        Ok(()) => status,
        Err(_) => {
            let _ = write_all(err, b"write fault\n");
            Status::WriteFault
        }
    }
}
