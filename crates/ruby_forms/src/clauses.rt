//! Parts that several of the forms have.

ghost use Rattle.std.specs.Prelude.{◌≡◌, length, true};
ghost use Rattle.ruby_meaning.specs.Grammar.Actions as act;
ghost use Rattle.ruby_meaning.specs.Grammar.Definitions as g;
ghost use Rattle.ruby_meaning.specs.Grammar.Table.{table};
ghost use Rattle.grammar.specs.Rules.{tree, absent};
ghost use Rattle.descent.specs.Gives.{Gives};
ghost use Rattle.ruby_reading.specs.Ahead.{ahead, see};
ghost use Rattle.ruby_forms.specs.Definitions as spec;
ghost use Rattle.ruby_reading.specs.Named.{Nests, Reads, ReadsNode, ReadsToken};
ghost use Rattle.ruby_reading.specs.Shown.{shown_body};

use descent::Fail;
use opal_base::Span;
use ruby_meaning::{Mark, Node, Nodes, Part, Sign, Word};
use ruby_reading::{Body, Cursor, Parser, Reading, SEPARATORS, Sight, Tree, node, span_of};
use std::alloc::Global;

/// The classes of tokens that begin an expression.
pub const EXPRESSION_SIGNS: [Sign; 46] = [
    Sign::Name,
    Sign::Const,
    Sign::Ivar,
    Sign::Gvar,
    Sign::Int,
    Sign::Text,
    Sign::TextBegin,
    Sign::Keyword(Word::Nil),
    Sign::Keyword(Word::True),
    Sign::Keyword(Word::False),
    Sign::Keyword(Word::Self_),
    Sign::Keyword(Word::Retry),
    Sign::Keyword(Word::Yield),
    Sign::Keyword(Word::Super),
    Sign::Op(Mark::WordsRound),
    Sign::Op(Mark::WordsSquare),
    Sign::Op(Mark::SymbolsRound),
    Sign::Op(Mark::SymbolsSquare),
    Sign::Marked(Mark::WordsRound),
    Sign::Marked(Mark::WordsSquare),
    Sign::Marked(Mark::SymbolsRound),
    Sign::Marked(Mark::SymbolsSquare),
    Sign::Op(Mark::ColonColon),
    Sign::Marked(Mark::ColonColon),
    Sign::Op(Mark::ParenOpen),
    Sign::Marked(Mark::ParenOpen),
    Sign::Op(Mark::BracketOpen),
    Sign::Marked(Mark::BracketOpen),
    Sign::Op(Mark::BraceOpen),
    Sign::Op(Mark::Bang),
    Sign::Op(Mark::Minus),
    Sign::Marked(Mark::Minus),
    Sign::Op(Mark::Arrow),
    Sign::Keyword(Word::Case),
    Sign::Keyword(Word::Class),
    Sign::Keyword(Word::Module),
    Sign::Keyword(Word::Def),
    Sign::Keyword(Word::Begin),
    Sign::Keyword(Word::If),
    Sign::Keyword(Word::Unless),
    Sign::Keyword(Word::While),
    Sign::Keyword(Word::Until),
    Sign::Keyword(Word::Not),
    Sign::Keyword(Word::Return),
    Sign::Keyword(Word::Break),
    Sign::Keyword(Word::Next),
];

/// A token and the statements behind it.
#[derive(Drop)]
pub struct Guarded<'a> {
    pub then: Sight<'a>,
    pub body: Body,
}

/// Statements and the `end` behind them.
#[derive(Drop)]
pub struct Ended<'a> {
    pub body: Body,
    pub end: Sight<'a>,
}

/// Where statements end that stand behind a token.
pub fn last_of(token: Sight<'_>, body: &Body) -> Span
    ensures { result ≡ act.last_of (see token.entry) (shown_body body.now) }
{
    if body.absent {
        span_of(token)
    } else {
        body.node.span
    }
}

pub fn last_or(span: Span, body: &Body) -> Span
    ensures { result ≡ act.last_or span (shown_body body.now) }
{
    if body.absent { span } else { body.node.span }
}

/// A separator, `then` or both; its last token.
#[tactic(auto, unfolding(ruby_meaning::specs::Grammar::Table::table, ruby_meaning::specs::Grammar::Definitions::then_sign))]
pub fn then_sign<'a, F: Fn(Global, &mut Cursor<'_>, Part, u32) -> Result<Reading, Fail> + Copy>(
    parser: &Parser<F>,
    cursor: &mut Cursor<'a>,
) -> Result<Sight<'a>, Fail>
    ensures { ReadsToken g.then_sign parser.now.depth cursor.old result cursor.new }
{
    if !cursor.sees_one_of(&SEPARATORS) {
        return cursor.take(Sign::Keyword(Word::Then));
    }
    let first = cursor.take_one_of(&SEPARATORS)?;
    if cursor.sees(Sign::Keyword(Word::Then)) {
        cursor.take(Sign::Keyword(Word::Then))
    } else {
        Ok(first)
    }
}

/// An argument behind a comma.
#[tactic(auto, unfolding(ruby_meaning::specs::Grammar::Table::table))]
fn next_argument<F: Fn(Global, &mut Cursor<'_>, Part, u32) -> Result<Reading, Fail> + Copy>(
    parser: &Parser<F>,
    cursor: &mut Cursor<'_>,
) -> Result<Node, Fail>
    requires below { Nests parser.now.depth (F.pre parser.now.names) (F.post parser.now.names) }
    ensures { ReadsNode (spec.next_argument parser.now.in_rescue) parser.now.depth cursor.old result cursor.new }
{
    cursor.take(Sign::Op(Mark::Comma))?;
    parser.tree(cursor, Tree::Argument, true)
}

fn more_arguments<F: Fn(Global, &mut Cursor<'_>, Part, u32) -> Result<Reading, Fail> + Copy>(
    parser: &Parser<F>,
    cursor: &mut Cursor<'_>,
    found: Nodes,
) -> Result<Nodes, Fail>
    requires below { Nests parser.now.depth (F.pre parser.now.names) (F.post parser.now.names) }
    ensures { Gives (λ n. n) (spec.arguments_from parser.now.in_rescue parser.now.depth (length (ahead cursor.old)) found (ahead cursor.old)) result (ahead cursor.new) }
{
    let mut found = found;
    for _turn in 0..cursor.left() {
        if !cursor.sees(Sign::Op(Mark::Comma)) {
            return Ok(found);
        }
        found.push(next_argument(parser, cursor)?)?;
    }
    Ok(found)
}

/// `arg ("," arg)*`
#[tactic(auto, using(grammar::proofs::Loops::read_many_from_is), unfolding(ruby_meaning::specs::Grammar::Table::table))]
pub fn argument_list<F: Fn(Global, &mut Cursor<'_>, Part, u32) -> Result<Reading, Fail> + Copy>(
    parser: &Parser<F>,
    cursor: &mut Cursor<'_>,
) -> Result<Nodes, Fail>
    requires below { Nests parser.now.depth (F.pre parser.now.names) (F.post parser.now.names) }
    ensures { Reads (λ n. n) (spec.some_arguments parser.now.in_rescue) parser.now.depth cursor.old result cursor.new }
{
    let mut found = Nodes::new(parser.alloc);
    found.push(parser.tree(cursor, Tree::Argument, true)?)?;
    more_arguments(parser, cursor, found)
}

/// `then stmts`
#[tactic(auto, unfolding(ruby_meaning::specs::Grammar::Table::table))]
pub fn guarded_body<'a, F: Fn(Global, &mut Cursor<'_>, Part, u32) -> Result<Reading, Fail> + Copy>(
    parser: &Parser<F>,
    cursor: &mut Cursor<'a>,
    in_rescue: bool,
) -> Result<Guarded<'a>, Fail>
    requires below { Nests parser.now.depth (F.pre parser.now.names) (F.post parser.now.names) }
    ensures { Reads spec.shown_guarded (spec.guarded in_rescue) parser.now.depth cursor.old result cursor.new }
{
    let then = then_sign(parser, cursor)?;
    let body = parser.statements(cursor, in_rescue)?;
    Ok(Guarded { then, body })
}
