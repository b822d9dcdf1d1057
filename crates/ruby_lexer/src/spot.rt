//! From one place of a text to the next.

ghost use Rattle.std.specs.Prelude.{◌≡◌, ◌+◌, ◌<◌, ◌≤◌, ◌^◌, length, OnOk};
ghost use Rattle.ruby_meaning.specs.Lexing.Lexes as spec;

use opal_base::{NoMemory, Pos};
use ruby_meaning::{Form, Mode, OpenTexts, Place, Spot};
use std::alloc::Global;

/// The place at the start of a text.
pub fn first_spot(alloc: Global) -> Spot
    ensures { result ≡ spec.start }
{
    Spot {
        at: 0,
        pos: Pos { line: 0, col: 0 },
        last: Form::Newline,
        behind: Form::Newline,
        mode: Mode::Code,
        nesting: OpenTexts::new(alloc),
        outer: Pos { line: 0, col: 0 },
    }
}

/// The place behind the units.
pub fn place_from(mut pos: Pos, slice: &[u16]) -> Pos
    requires line { pos.line + length slice.now < 2 ^ 32 }
    requires col { pos.col + length slice.now < 2 ^ 32 }
    ensures value { result ≡ spec.place_from pos slice.now }
    ensures line { result.line ≤ pos.line + length slice.now }
    ensures col { result.col ≤ pos.col + length slice.now }
{
    for u in slice {
        if *u == 10 {
            pos.line += 1;
            pos.col = 0;
        } else {
            pos.col += 1;
        }
    }
    pos
}

/// Whether the piece is a blank.
pub fn is_blank(form: Form) -> bool
    ensures { result ≡ spec.is_blank form }
{
    matches!(form, Form::Blank)
}

fn is_bom(form: Form) -> bool
    ensures { result ≡ spec.is_bom form }
{
    matches!(form, Form::Bom)
}

#[tactic(auto, unfolding(ruby_meaning::specs::Lexing::Lexes::last_after))]
fn last_after(form: Form, last: Form) -> Form
    ensures { result ≡ spec.last_after form last }
{
    match form {
        Form::Bom | Form::Blank | Form::Comment | Form::Block | Form::Joint | Form::Separator =>
            last,
        _ => form,
    }
}

fn list_after(mode: Mode, n: u32) -> Mode
    ensures { result ≡ spec.list_after mode n }
{
    match mode {
        Mode::List(bracket, left) => Mode::List(bracket, left.saturating_sub(n)),
        _ => mode,
    }
}

#[tactic(auto, unfolding(ruby_meaning::specs::Lexing::Lexes::mode_after))]
fn mode_after(form: Form, n: u32, mode: Mode) -> Mode
    ensures { result ≡ spec.mode_after form n mode }
{
    match form {
        Form::TextBegin | Form::Chunk | Form::PartEnd => Mode::Text,
        Form::WordsBegin(bracket, left) | Form::SymbolsBegin(bracket, left) => {
            Mode::List(bracket, left)
        }
        Form::Separator | Form::ListWord(_) => list_after(mode, n),
        _ => Mode::Code,
    }
}

/// What the text before says of the place.
#[tactic(auto, unfolding(ruby_meaning::specs::Lexing::Lexes::place_of))]
pub fn place(spot: &Spot) -> Place
    ensures { result ≡ spec.place_of spot.now }
{
    Place {
        last: spot.last,
        blank: is_blank(spot.behind),
        mode: spot.mode,
        closes: spot.nesting.closes(),
        line_start: spot.pos.col == 0 || is_bom(spot.behind),
        text_start: spot.at == 0,
    }
}

#[tactic(auto, unfolding(ruby_meaning::specs::Lexing::Lexes::outer_after))]
fn outer_after(spot: &Spot, form: Form) -> Pos
    ensures { result ≡ spec.outer_after spot.now form }
{
    match form {
        Form::TextBegin if spot.nesting.is_empty() => spot.pos,
        _ => spot.outer,
    }
}

/// Goes on behind a piece.
#[tactic(auto, unfolding(ruby_meaning::specs::Lexing::Lexes::after))]
pub fn go_on(spot: &mut Spot, form: Form, slice: &[u16]) -> Result<(), NoMemory>
    requires at { spot.old.at + length slice.now < 2 ^ 31 }
    requires line { spot.old.pos.line ≤ spot.old.at }
    requires col { spot.old.pos.col ≤ spot.old.at }
    ensures ok { OnOk result (spot.new ≡ spec.after spot.old form slice.now) }
    ensures line { OnOk result (spot.new.pos.line ≤ spot.new.at) }
    ensures col { OnOk result (spot.new.pos.col ≤ spot.new.at) }
{
    spot.outer = outer_after(spot, form);
    spot.nesting.pass(form)?;
    spot.at += slice.len() as u32;
    spot.pos = place_from(spot.pos, slice);
    spot.last = last_after(form, spot.last);
    spot.behind = form;
    spot.mode = mode_after(form, slice.len() as u32, spot.mode);
    Ok(())
}
