//! The text of a script.

ghost use Rattle.std.specs.Prelude.{◌≡◌, IfOk};
ghost use Rattle.es5_printer.specs.Answer as answer;

use crate::forms::lines;
use crate::page::Page;
use crate::place::Places;
use es5_tree::Script;
use opal_base::{Bytes, NoMemory};
use std::alloc::Global;

/// A script's text, and the places of its sites in the order of the text, those of one token from
/// the outermost expression in.
#[derive(Drop)]
pub struct Printed {
    pub bytes: Bytes,
    pub places: Places,
}

/// Why a script isn't printed.
#[derive(Clone, Copy, Debug, PartialEq, Eq)]
pub enum PrintStop {
    NoMemory,
    /// The text would have 2^31 bytes or more.
    TooLong,
}

fn write(alloc: Global, script: &Script) -> Result<Page, NoMemory>
    ensures { IfOk result (λ page. page ≡ answer.page_of script.now) }
{
    let mut page = Page::new(alloc);
    page.put(b"\"use strict\";\n")?;
    lines(alloc, &mut page, script.body.as_slice())?;
    Ok(page)
}

/// The text of a script, and the places of its sites. It is too long exactly where it would have
/// 2^31 bytes or more; memory may be short before that is seen.
#[tactic(auto, using(crate::proofs::Finished::finished_none))]
pub fn print(alloc: Global, script: &Script) -> Result<Printed, PrintStop>
    ensures { answer.IsPrinted script.now result }
{
    let Ok(page) = write(alloc, script) else {
        return Err(PrintStop::NoMemory);
    };
    match page.finish() {
        Some((bytes, places)) => Ok(Printed { bytes, places }),
        None => Err(PrintStop::TooLong),
    }
}
