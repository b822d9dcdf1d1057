//! A text that is being written.

ghost use Rattle.std.specs.Prelude.{◌≡◌, ◌+◌, ◌<◌, ◌≤◌, ◌^◌, length, OnOk};
ghost use Rattle.es5_printer.specs.Page as spec;
ghost use Rattle.es5_printer.specs.Pieces.{behind_byte, behind_bytes, marked};

use crate::place::{Place, Places};
use opal_base::{Bytes, NoMemory, Pos};
use std::alloc::Global;
use std::marker::Model;

/// From this length on a text is too long.
const LIMIT: usize = 2_147_483_648;

/// A text that is being written, with the places of its sites. It takes nothing more once it would
/// be too long.
#[derive(Drop)]
pub struct Page {
    bytes: Bytes,
    at: Pos,
    places: Places,
    full: bool,
}

impl Model for Page {
    ghost use Rattle.std.specs.Prelude.{◌+◌, ◌<◌, ◌≤◌, length};
    ghost use Rattle.es5_printer.specs.Page.{Shown};

    ghost Value = { Shown };

    ghost view = { λ page. record { bytes = page.bytes; at = page.at; places = page.places; full = page.full } };

    ghost invariant = { λ page. (page.at.line + page.at.col ≤ length page.bytes) × (length page.bytes < 2147483648) };
}

/// The place behind a byte.
fn behind_byte(at: Pos, byte: u8) -> Pos
    requires { at.line + at.col < 2 ^ 31 }
    ensures { result ≡ behind_byte at byte }
{
    if byte == 10 {
        Pos {
            line: at.line + 1,
            col: 0,
        }
    } else {
        Pos {
            line: at.line,
            col: at.col + 1,
        }
    }
}

/// The place behind bytes.
fn behind(at: Pos, bytes: &[u8]) -> Pos
    requires { at.line + at.col + length bytes.now < 2 ^ 31 }
    ensures place { result ≡ behind_bytes at bytes.now }
    ensures near { result.line + result.col ≤ at.line + at.col + length bytes.now }
{
    let mut pos = at;
    for byte in bytes {
        pos = behind_byte(pos, *byte);
    }
    pos
}

impl Page {
    /// An empty text.
    pub fn new(alloc: Global) -> Page
        ensures { result ≡ spec.empty }
    {
        Page {
            bytes: Bytes::new(alloc),
            at: Pos { line: 0, col: 0 },
            places: Places::new(alloc),
            full: false,
        }
    }

    /// More bytes.
    pub fn put(&mut self, more: &[u8]) -> Result<(), NoMemory>
        ensures { OnOk result (self.new ≡ spec.with_text more.now self.old) }
    {
        if self.full {
            return Ok(());
        }
        if LIMIT - self.bytes.len() <= more.len() {
            self.full = true;
            return Ok(());
        }
        let at = behind(self.at, more);
        self.bytes.extend(more)?;
        self.at = at;
        Ok(())
    }

    /// The next token is that of a site.
    pub fn site(&mut self, origin: u32) -> Result<(), NoMemory>
        ensures { OnOk result (self.new ≡ spec.with_site origin self.old) }
    {
        if self.full {
            return Ok(());
        }
        let place = Place {
            line: self.at.line,
            col: self.at.col,
            origin,
        };
        match self.places.push(place) {
            Ok(()) => Ok(()),
            Err(_) => Err(NoMemory),
        }
    }

    /// The next token is that of a site, where there is one.
    pub fn mark(&mut self, origin: Option<u32>) -> Result<(), NoMemory>
        ensures { OnOk result (self.new ≡ spec.written (marked origin) self.old) }
    {
        match origin {
            Some(origin) => self.site(origin),
            None => Ok(()),
        }
    }

    /// The bytes and the places, or nothing where the text is too long.
    pub fn finish(self) -> Option<(Bytes, Places)>
        ensures { result ≡ spec.finished self }
    {
        if self.full {
            None
        } else {
            Some((self.bytes, self.places))
        }
    }
}
