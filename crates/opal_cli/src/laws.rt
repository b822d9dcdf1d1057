ghost use Rattle.opal_cli.specs.Laws.{Agreement, OneAnswer};

use es5_evaluation::cells_grow;
use es5_laws::writes_in_turn;
use es5_tree::{bytes_spell_one, script_or_place};
use opal_base::{decoded_or_not, one_offset, one_text};
use ruby_evaluation::puts_in_turn;
use ruby_meaning::{one_load, only_puts};

/// The evaluation of a bundle that some file spells agrees with the run of its script. The calls
/// do nothing: each is the law that its contract states.
pub fn agreement()
    ensures { Agreement }
{
    only_puts();
    puts_in_turn();
    writes_in_turn();
}

/// Over the same files and the same input, words are answered in one way.
pub fn one_answer()
    ensures { OneAnswer }
{
    cells_grow();
    script_or_place();
    bytes_spell_one();
    decoded_or_not();
    one_offset();
    one_text();
    one_load();
}
