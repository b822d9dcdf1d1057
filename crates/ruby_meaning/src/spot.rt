//! Places between the pieces of a text.

use crate::form::{Form, Mode};
use crate::open_texts::OpenTexts;
use opal_base::Pos;

/// A place between two pieces of a text, and what is known there.
#[derive(Drop)]
pub struct Spot {
    /// How many units stand before.
    pub at: u32,
    pub pos: Pos,
    /// The last token, a newline at the start.
    pub last: Form,
    /// The last piece, a newline at the start.
    pub behind: Form,
    pub mode: Mode,
    pub nesting: OpenTexts,
    /// The place of the outermost open text.
    pub outer: Pos,
}
