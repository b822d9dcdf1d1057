//! Made-up scripts, printed, read and printed again.

use crate::generate::Generator;
use crate::{MOST_BYTES, put};
use es5_parser::read_script;
use es5_printer::{PrintStop, print};
use es5_spelling::is_spellable;
use es5_tree::{EsStop, Script, es_depth};
use opal_base::Bytes;
use std::alloc::{AllocError, Global};

const SCRIPTS: u32 = 400;

/// The text of each made-up script that isn't the same again, and a line with how many are.
pub fn shown_again(alloc: Global) -> Result<Bytes, AllocError> {
    let mut out = Bytes::new(alloc);
    let mut generator = Generator::new(alloc);
    let mut same: u32 = 0;
    for _ in 0..SCRIPTS {
        let script = generator.script()?;
        let text = text_of(alloc, &script)?;
        if is_spellable(&script) && is_same_again(alloc, &script, text.as_slice())? {
            same = same.saturating_add(1);
        } else {
            put(&mut out, text.as_slice())?;
        }
    }
    let line = format!(in alloc; "{SCRIPTS} generated scripts: {same} the same again\n")?;
    put(&mut out, line.as_bytes())?;
    Ok(out)
}

fn text_of(alloc: Global, script: &Script) -> Result<Bytes, AllocError> {
    match print(alloc, script) {
        Ok(printed) => Ok(printed.bytes),
        Err(PrintStop::NoMemory | PrintStop::TooLong) => Err(AllocError),
    }
}

// Whether the script that a script's text spells is as deep and has the same text.
fn is_same_again(alloc: Global, script: &Script, text: &[u8]) -> Result<bool, AllocError> {
    if text.len() > MOST_BYTES {
        return Ok(false);
    }
    match read_script(alloc, text) {
        Ok(read) => {
            let again = text_of(alloc, &read)?;
            Ok(again.as_slice() == text && es_depth(&read) == es_depth(script))
        }
        Err(EsStop::NotScript { .. }) => Ok(false),
        Err(EsStop::NoMemory) => Err(AllocError),
    }
}
