//! A line of text that is written piece by piece.

use opal_base::{Names, Pos, Span, Units};
use std::alloc::{AllocError, Global};

pub type Done = Result<(), AllocError>;

/// A line, as far as it has been written, and whether it shows spans and marks.
#[derive(Drop)]
pub struct Line {
    text: String,
    spans: bool,
}

impl Line {
    /// The empty line.
    pub fn new(alloc: Global, spans: bool) -> Line {
        Line {
            text: String::new(alloc),
            spans,
        }
    }

    pub fn into_text(self) -> String {
        let Line { text, .. } = self;
        text
    }

    pub fn put(&mut self, text: &str) -> Done {
        self.text.push_str(text)
    }

    pub fn number(&mut self, number: i64) -> Done {
        write!(self.text, "{number}")
    }

    /// A name, `''` for the empty one.
    pub fn name(&mut self, name: &Units) -> Done {
        if name.len() == 0 {
            return self.put("''");
        }
        self.units(name)
    }

    /// A name behind a blank.
    pub fn word(&mut self, name: &Units) -> Done {
        self.put(" ")?;
        self.name(name)
    }

    /// A name behind a blank, `-` for none.
    pub fn word_if(&mut self, name: &Option<Units>) -> Done {
        match name {
            Some(name) => self.word(name),
            None => self.put(" -"),
        }
    }

    /// Names, each behind a blank.
    pub fn words(&mut self, names: &Names) -> Done {
        for at in 0..names.len() {
            self.word(names.at(at))?;
        }
        Ok(())
    }

    /// A text in quotes.
    pub fn quoted(&mut self, text: &Units) -> Done {
        self.put("\"")?;
        self.units(text)?;
        self.put("\"")
    }

    fn units(&mut self, units: &Units) -> Done {
        for unit in units.as_slice() {
            self.unit(*unit)?;
        }
        Ok(())
    }

    // A quote, a backslash and what isn't a printed ASCII character are written by their numbers.
    fn unit(&mut self, unit: u16) -> Done {
        match unit {
            32..=33 | 35..=91 | 93..=126 => self.text.push(char::from(unit as u8)),
            _ => write!(self.text, "\\{unit:x};"),
        }
    }

    /// A place, line and column counted from 1.
    pub fn pos(&mut self, pos: Pos) -> Done {
        let line = pos.line as u64 + 1;
        let column = pos.col as u64 + 1;
        write!(self.text, "{line}:{column}")
    }

    /// `@FROM-TO^MARK`, where the line shows spans and marks.
    pub fn places(&mut self, span: Span, mark: Pos) -> Done {
        if !self.spans {
            return Ok(());
        }
        self.put("@")?;
        self.pos(span.from)?;
        self.put("-")?;
        self.pos(span.to)?;
        self.put("^")?;
        self.pos(mark)
    }
}
