//! A script with what its first lines tell of its runs.

use crate::put;
use opal_base::{Bytes, Units, utf8_to_units};
use std::alloc::{AllocError, Global};

const DIRECTIVE: &[u8] = b"\"use strict\";\n";

/// The most steps of a run, where a block doesn't tell others.
const STEPS: u64 = 1_000_000;

/// How many bytes a sink takes at once, where a block doesn't tell others.
pub const BYTES_AT_ONCE: usize = 65_536;

/// A script, and what is told of it.
#[derive(Drop)]
pub struct Block {
    /// The bytes of the script, with its directive.
    pub script: Bytes,
    /// What `$host.line` reads.
    pub input: Units,
    /// The most steps of a run.
    pub budget: u64,
    /// How many steps the script takes, where it is told.
    pub steps: Option<u64>,
    /// How many cells the script makes, where it is told.
    pub cells: Option<u32>,
    /// The steps of each slice, where slices are told.
    pub slices: Vec<u64>,
    /// How many bytes the sink of the slices takes at once.
    pub bytes_at_once: usize,
    /// The call of the sink of the slices that fails.
    pub failing: Option<u64>,
}

impl Block {
    /// The block that a text holds.
    pub fn read(alloc: Global, text: &str) -> Result<Block, AllocError> {
        let mut block = Block {
            script: Bytes::new(alloc),
            input: Units::new(alloc),
            budget: STEPS,
            steps: None,
            cells: None,
            slices: Vec::new(alloc),
            bytes_at_once: BYTES_AT_ONCE,
            failing: None,
        };
        put(&mut block.script, DIRECTIVE)?;
        let mut in_heading = true;
        for line in text.split('\n') {
            in_heading = in_heading && block.takes(alloc, line)?;
            if !in_heading {
                put(&mut block.script, line.as_bytes())?;
                put(&mut block.script, b"\n")?;
            }
        }
        Ok(block)
    }

    // Whether a line tells something, which is kept.
    fn takes(&mut self, alloc: Global, line: &str) -> Result<bool, AllocError> {
        let Some(words) = line.strip_prefix("// ") else {
            return Ok(false);
        };
        if let Some(input) = words.strip_prefix("input ") {
            self.input = input_of(alloc, input)?;
            return Ok(true);
        }
        if let Some(numbers) = words.strip_prefix("slices ") {
            self.slices = numbers_of(alloc, numbers)?;
            return Ok(true);
        }
        if let Some(numbers) = words.strip_prefix("sink ") {
            self.takes_sink(numbers);
            return Ok(true);
        }
        Ok(self.takes_counts(words))
    }

    fn takes_sink(&mut self, numbers: &str) {
        let (bytes, call) = numbers.split_once(' ').unwrap_or((numbers, ""));
        if let Ok(bytes) = bytes.parse::<u32>() {
            self.bytes_at_once = bytes as usize;
        }
        if let Ok(call) = call.parse::<u32>() {
            self.failing = Some(call as u64);
        }
    }

    fn takes_counts(&mut self, words: &str) -> bool {
        match words.split_once(" cells ") {
            Some((count, cells)) => self.takes_count(count) && self.takes_number("cells", cells),
            None => self.takes_count(words),
        }
    }

    fn takes_count(&mut self, words: &str) -> bool {
        match words.split_once(' ') {
            Some((word, number)) => self.takes_number(word, number),
            None => false,
        }
    }

    fn takes_number(&mut self, word: &str, number: &str) -> bool {
        let Ok(number) = number.parse::<u32>() else {
            return false;
        };
        match word {
            "budget" => self.budget = number as u64,
            "steps" => self.steps = Some(number as u64),
            "cells" => self.cells = Some(number),
            _ => return false,
        }
        true
    }
}

// The text of an input, where `\n` stands for a line feed.
fn input_of(alloc: Global, text: &str) -> Result<Units, AllocError> {
    let text = text.replace(alloc, "\\n", "\n")?;
    match utf8_to_units(alloc, text.as_bytes()) {
        Ok(units) => Ok(units),
        Err(_) => Err(AllocError),
    }
}

// The numbers that words are.
fn numbers_of(alloc: Global, words: &str) -> Result<Vec<u64>, AllocError> {
    let mut numbers = Vec::new(alloc);
    for word in words.split(' ') {
        if let Ok(number) = word.parse::<u32>() {
            if numbers.push(number as u64).is_err() {
                return Err(AllocError);
            }
        }
    }
    Ok(numbers)
}
