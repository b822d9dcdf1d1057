//! Forms by the keyword that they begin with.

ghost use Rattle.std.specs.Prelude.{suc};
ghost use Rattle.ruby_meaning.specs.Grammar.Definitions as g;
ghost use Rattle.ruby_meaning.specs.Grammar.Table.{table};
ghost use Rattle.ruby_reading.specs.Named.{Nests, ReadsValue};

use crate::bodies::begin_value;
use crate::cases::case_value;
use crate::conditionals::{if_value, unless_value};
use crate::loops::{until_value, while_value};
use crate::methods::def_value;
use crate::modules::{class_value, module_value};
use descent::Fail;
use ruby_meaning::{Part, Sign, Word};
use ruby_reading::{Cursor, Parser, Reading, Value};
use std::alloc::Global;

/// A form from a keyword to its `end`.
#[tactic(auto, unfolding(ruby_meaning::specs::Grammar::Table::table, ruby_meaning::specs::Grammar::Definitions::keyword_form, ruby_meaning::specs::Grammar::Definitions::if_value, ruby_meaning::specs::Grammar::Definitions::unless_value, ruby_meaning::specs::Grammar::Definitions::while_value, ruby_meaning::specs::Grammar::Definitions::until_value, ruby_meaning::specs::Grammar::Definitions::case_value, ruby_meaning::specs::Grammar::Definitions::class_value, ruby_meaning::specs::Grammar::Definitions::module_value, ruby_meaning::specs::Grammar::Definitions::def_value))]
pub fn keyword_form<F: Fn(Global, &mut Cursor<'_>, Part, u32) -> Result<Reading, Fail> + Copy>(
    parser: &Parser<F>,
    cursor: &mut Cursor<'_>,
) -> Result<Value, Fail>
    requires below { Nests parser.now.depth (F.pre parser.now.names) (F.post parser.now.names) }
    ensures { ReadsValue (g.keyword_form parser.now.in_rescue) (suc parser.now.depth) cursor.old result cursor.new }
{
    if cursor.sees(Sign::Keyword(Word::If)) {
        if_value(parser, cursor)
    } else if cursor.sees(Sign::Keyword(Word::Unless)) {
        unless_value(parser, cursor)
    } else if cursor.sees(Sign::Keyword(Word::While)) {
        while_value(parser, cursor)
    } else if cursor.sees(Sign::Keyword(Word::Until)) {
        until_value(parser, cursor)
    } else if cursor.sees(Sign::Keyword(Word::Case)) {
        case_value(parser, cursor)
    } else if cursor.sees(Sign::Keyword(Word::Class)) {
        class_value(parser, cursor)
    } else if cursor.sees(Sign::Keyword(Word::Module)) {
        module_value(parser, cursor)
    } else if cursor.sees(Sign::Keyword(Word::Def)) {
        def_value(parser, cursor)
    } else {
        begin_value(parser, cursor)
    }
}
