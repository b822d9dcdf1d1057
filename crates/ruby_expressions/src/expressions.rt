//! Commands, `not`, `and` and `or`.

ghost use Rattle.std.specs.Prelude.{◌≡◌, suc};
ghost use Rattle.ruby_meaning.specs.Grammar.Expressions as g;
ghost use Rattle.ruby_meaning.specs.Grammar.Statements as s;
ghost use Rattle.ruby_reading.specs.Named.{Nests, ReadsValue};

use crate::assignment::Right;
use crate::command::commanding;
use descent::Fail;
use ruby_meaning::{Kind, Part, Sign, Word};
use ruby_operands::{Joint, operators};
use ruby_primaries::{JUMPS, jump};
use ruby_reading::{Cursor, Parser, Reading, Tree, Value, Written, from_token, node, start};
use sqlite_items::Boxed;
use std::alloc::Global;

const WORDS: [Sign; 2] = [Sign::Keyword(Word::And), Sign::Keyword(Word::Or)];

/// A jump, a command, an assignment or an argument.
#[tactic(auto, unfolding(ruby_meaning::specs::Grammar::Table::table, ruby_meaning::specs::Grammar::Expressions::command_level, ruby_meaning::specs::Grammar::Expressions::jump))]
pub fn command_level<F: Fn(Global, &mut Cursor<'_>, Part, u32) -> Result<Reading, Fail> + Copy>(
    parser: &Parser<F>,
    cursor: &mut Cursor<'_>,
) -> Result<Value, Fail>
    requires below { Nests parser.now.depth (F.pre parser.now.names) (F.post parser.now.names) }
    ensures { ReadsValue (g.command_level parser.now.takes_do parser.now.in_rescue) (suc parser.now.depth) cursor.old result cursor.new }
{
    if cursor.sees_one_of(&JUMPS) {
        jump(&parser.with_do(false), cursor)
    } else {
        commanding(parser, cursor, Right::Side, Right::One)
    }
}

/// `not`
#[tactic(auto, unfolding(ruby_meaning::specs::Grammar::Table::table, ruby_meaning::specs::Grammar::Statements::not_expression))]
pub fn not_expression<F: Fn(Global, &mut Cursor<'_>, Part, u32) -> Result<Reading, Fail> + Copy>(
    parser: &Parser<F>,
    cursor: &mut Cursor<'_>,
) -> Result<Value, Fail>
    requires below { Nests parser.now.depth (F.pre parser.now.names) (F.post parser.now.names) }
    ensures { ReadsValue (s.not_expression parser.now.takes_do parser.now.in_rescue) (suc parser.now.depth) cursor.old result cursor.new }
{
    if !cursor.sees(Sign::Keyword(Word::Not)) {
        return command_level(parser, cursor);
    }
    let sign = cursor.take(Sign::Keyword(Word::Not))?;
    let value = parser.tree(cursor, Tree::NotExpression, parser.takes_do)?;
    let span = from_token(sign, &value);
    let kind = Kind::Not(Boxed::new(parser.alloc, value)?);
    Ok(Value {
        node: node(parser.alloc, kind, span, start(sign))?,
        written: Written::Other,
    })
}

/// `and` and `or`
#[tactic(auto, unfolding(ruby_meaning::specs::Grammar::Table::table, ruby_meaning::specs::Grammar::Statements::expression))]
pub fn expression<F: Fn(Global, &mut Cursor<'_>, Part, u32) -> Result<Reading, Fail> + Copy>(
    parser: &Parser<F>,
    cursor: &mut Cursor<'_>,
) -> Result<Value, Fail>
    requires below { Nests parser.now.depth (F.pre parser.now.names) (F.post parser.now.names) }
    ensures { ReadsValue (s.expression parser.now.takes_do parser.now.in_rescue) (suc parser.now.depth) cursor.old result cursor.new }
{
    let first = not_expression(parser, cursor)?;
    operators(
        parser,
        cursor,
        first,
        &WORDS,
        Tree::NotExpression,
        Joint::Word,
    )
}
