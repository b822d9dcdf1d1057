ghost use Rattle.std.specs.Prelude.{◌≡◌, ◌<◌, ◌≤◌, ◌^◌, length};
ghost use Rattle.opal_base.specs.Place.{place_at};

use crate::units::Units;

/// A place in a text: line and column from 0, the column in 16-bit units.
#[derive(Clone, Copy, Debug, PartialEq, Eq)]
pub struct Pos {
    pub line: u32,
    pub col: u32,
}

/// From a place on and up to another one.
#[derive(Clone, Copy, Debug, PartialEq, Eq)]
pub struct Span {
    pub from: Pos,
    pub to: Pos,
}

/// The place of the unit at an index from 0, or of the text's end. A line ends behind unit 10
/// (line feed).
pub fn line_col(units: &Units, at: usize) -> Pos
    requires within { at ≤ length units.now }
    requires short { length units.now < 2 ^ 31 }
    ensures { result ≡ place_at units.now at }
{
    let mut pos = Pos { line: 0, col: 0 };
    for unit in &units.as_slice()[..at] {
        if *unit == 10 {
            pos.line += 1;
            pos.col = 0;
        } else {
            pos.col += 1;
        }
    }
    pos
}
