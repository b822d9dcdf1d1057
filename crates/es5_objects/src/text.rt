ghost use Rattle.std.specs.Prelude.{◌≡◌, IfOk};

use opal_base::{NoMemory, Units};
use std::alloc::Global;
use std::marker::Model;
use std::rc::Rc;

/// A text that several values share: a list of 16-bit units.
#[derive(Drop)]
pub struct EsText {
    units: Rc<Units>,
}

impl Model for EsText {
    ghost use Rattle.std.specs.Prelude.{List, ℕ};

    ghost Value = { List ℕ };

    ghost view = { λ text. text.units.value };
}

impl EsText {
    /// The text of these units. Where no memory is found they are given up.
    pub fn new(alloc: Global, units: Units) -> Result<EsText, NoMemory>
        ensures { IfOk result (λ text. text ≡ units) }
    {
        match Rc::new(alloc, units) {
            Ok(units) => Ok(EsText { units }),
            Err(_) => Err(NoMemory),
        }
    }

    /// The units.
    pub fn units(&self) -> &Units
        ensures { result.now ≡ self.now }
    {
        &self.units
    }

    /// The same text, shared.
    pub fn share(&self) -> Result<EsText, NoMemory>
        ensures { IfOk result (λ text. text ≡ self.now) }
    {
        match self.units.clone() {
            Ok(units) => Ok(EsText { units }),
            Err(_) => Err(NoMemory),
        }
    }
}
