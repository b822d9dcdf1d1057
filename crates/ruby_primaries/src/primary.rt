//! Literals and variables.

ghost use Rattle.std.specs.Prelude.{◌≡◌, suc, [], length};
ghost use Rattle.grammar.specs.FormReaders.{next_in};
ghost use Rattle.grammar.specs.Readers.{read_named, read_rule};
ghost use Rattle.ruby_meaning.specs.Grammar.Primaries as g;
ghost use Rattle.ruby_meaning.specs.Grammar.Table.{table};
ghost use Rattle.descent.specs.Gives.{Gives};
ghost use Rattle.ruby_reading.specs.Ahead.{ahead};
ghost use Rattle.ruby_primaries.specs.Literals as spec;
ghost use Rattle.ruby_reading.specs.Named.{Nests, Reads, ReadsNode, ReadsValue};

use crate::calls::read_closed;
use crate::passed::closing;
use descent::Fail;
use ruby_meaning::{Base, Kind, Literal, Mark, Node, Nodes, Part, Sign, Word};
use ruby_parameters::items_of;
use ruby_reading::{
    Cursor, Parser, ROUND, Reading, SQUARE, Tree, VALUES, Value, WORD_LISTS, Written, filled,
    integer, node, span_of, start, tokens, units,
};
use std::alloc::Global;

const LIST_ENDS: [Sign; 2] = [Sign::Op(Mark::ListEndRound), Sign::Op(Mark::ListEndSquare)];

const PARTS: [Sign; 2] = [Sign::Text, Sign::PartBegin];

/// A key and its value.
#[derive(Drop)]
pub struct Pair {
    pub key: Node,
    pub value: Node,
}

/// As many keys as values.
#[derive(Drop)]
pub struct Pairs {
    pub keys: Nodes,
    pub values: Nodes,
}

/// Whether a pair begins here.
#[tactic(auto, using(crate::proofs::LiteralLists::pair_seen), unfolding(ruby_meaning::specs::Grammar::Table::table))]
fn sees_pair(cursor: &Cursor<'_>) -> bool
    ensures { result ≡ next_in spec.begins_pair (ahead cursor.now) }
{
    cursor.sees(Sign::Label) || cursor.sees_one_of(&VALUES)
}

#[tactic(auto, unfolding(ruby_meaning::specs::Grammar::Table::table, ruby_meaning::specs::Grammar::Primaries::keyword_value))]
fn keyword_value<F: Fn(Global, &mut Cursor<'_>, Part, u32) -> Result<Reading, Fail> + Copy>(
    parser: &Parser<F>,
    cursor: &mut Cursor<'_>,
    word: Word,
    kind: Kind,
) -> Result<Value, Fail>
    ensures { ReadsValue (g.keyword_value word kind) (suc parser.now.depth) cursor.old result cursor.new }
{
    let token = cursor.take(Sign::Keyword(word))?;
    Ok(Value {
        node: node(parser.alloc, kind, span_of(token), start(token))?,
        written: Written::Other,
    })
}

#[tactic(auto, unfolding(ruby_meaning::specs::Grammar::Table::table, ruby_meaning::specs::Grammar::Primaries::integer_value))]
pub fn integer_value<F: Fn(Global, &mut Cursor<'_>, Part, u32) -> Result<Reading, Fail> + Copy>(
    parser: &Parser<F>,
    cursor: &mut Cursor<'_>,
) -> Result<Value, Fail>
    ensures { ReadsValue g.integer_value (suc parser.now.depth) cursor.old result cursor.new }
{
    let token = cursor.take(Sign::Int)?;
    let kind = Kind::Int(integer(token));
    Ok(Value {
        node: node(parser.alloc, kind, span_of(token), start(token))?,
        written: Written::Other,
    })
}

#[tactic(auto, unfolding(ruby_meaning::specs::Grammar::Table::table, ruby_meaning::specs::Grammar::Primaries::text))]
pub fn text<F: Fn(Global, &mut Cursor<'_>, Part, u32) -> Result<Reading, Fail> + Copy>(
    parser: &Parser<F>,
    cursor: &mut Cursor<'_>,
) -> Result<Node, Fail>
    ensures { ReadsNode g.text (suc parser.now.depth) cursor.old result cursor.new }
{
    let token = cursor.take(Sign::Text)?;
    let kind = Kind::Str(units(parser.alloc, token)?);
    Ok(node(parser.alloc, kind, span_of(token), start(token))?)
}

#[tactic(auto, unfolding(ruby_meaning::specs::Grammar::Table::table, ruby_meaning::specs::Grammar::Primaries::ivar_value))]
pub fn ivar_value<F: Fn(Global, &mut Cursor<'_>, Part, u32) -> Result<Reading, Fail> + Copy>(
    parser: &Parser<F>,
    cursor: &mut Cursor<'_>,
) -> Result<Value, Fail>
    ensures { ReadsValue g.ivar_value (suc parser.now.depth) cursor.old result cursor.new }
{
    let token = cursor.take(Sign::Ivar)?;
    let kind = Kind::IvarGet(units(parser.alloc, token)?);
    Ok(Value {
        node: node(parser.alloc, kind, span_of(token), start(token))?,
        written: Written::Variable,
    })
}

/// `"::" CONST`
#[tactic(auto, unfolding(ruby_meaning::specs::Grammar::Table::table, ruby_meaning::specs::Grammar::Primaries::top_constant))]
pub fn top_constant<F: Fn(Global, &mut Cursor<'_>, Part, u32) -> Result<Reading, Fail> + Copy>(
    parser: &Parser<F>,
    cursor: &mut Cursor<'_>,
) -> Result<Value, Fail>
    ensures { ReadsValue g.top_constant (suc parser.now.depth) cursor.old result cursor.new }
{
    let colons = cursor.take_one_of(&[Sign::Op(Mark::ColonColon), Sign::Marked(Mark::ColonColon)])?;
    let name = cursor.take(Sign::Const)?;
    let kind = Kind::ConstGet {
        base: Base::Top,
        name: units(parser.alloc, name)?,
    };
    Ok(Value {
        node: node(parser.alloc, kind, tokens(colons, name), start(name))?,
        written: Written::Other,
    })
}

#[tactic(auto, unfolding(ruby_meaning::specs::Grammar::Table::table, ruby_meaning::specs::Grammar::Primaries::word_value, ruby_meaning::specs::Grammar::Primaries::keyword_value))]
pub fn word_value<F: Fn(Global, &mut Cursor<'_>, Part, u32) -> Result<Reading, Fail> + Copy>(
    parser: &Parser<F>,
    cursor: &mut Cursor<'_>,
) -> Result<Value, Fail>
    ensures { ReadsValue g.word_value (suc parser.now.depth) cursor.old result cursor.new }
{
    if cursor.sees(Sign::Keyword(Word::Nil)) {
        keyword_value(parser, cursor, Word::Nil, Kind::Lit(Literal::Nil))
    } else if cursor.sees(Sign::Keyword(Word::True)) {
        keyword_value(parser, cursor, Word::True, Kind::Lit(Literal::True))
    } else if cursor.sees(Sign::Keyword(Word::False)) {
        keyword_value(parser, cursor, Word::False, Kind::Lit(Literal::False))
    } else if cursor.sees(Sign::Keyword(Word::Self_)) {
        keyword_value(parser, cursor, Word::Self_, Kind::SelfRef)
    } else {
        keyword_value(parser, cursor, Word::Retry, Kind::Retry)
    }
}

#[tactic(auto, unfolding(ruby_meaning::specs::Grammar::Table::table, ruby_meaning::specs::Grammar::Primaries::gvar_value))]
pub fn gvar_value<F: Fn(Global, &mut Cursor<'_>, Part, u32) -> Result<Reading, Fail> + Copy>(
    parser: &Parser<F>,
    cursor: &mut Cursor<'_>,
) -> Result<Value, Fail>
    ensures { ReadsValue g.gvar_value (suc parser.now.depth) cursor.old result cursor.new }
{
    let token = cursor.take(Sign::Gvar)?;
    let kind = Kind::GlobalGet(units(parser.alloc, token)?);
    Ok(Value {
        node: node(parser.alloc, kind, span_of(token), start(token))?,
        written: Written::Variable,
    })
}

/// A text one level below.
#[tactic(auto, using(ruby_parameters::proofs::Levels::node_none, ruby_parameters::proofs::Below::one_below), unfolding(ruby_meaning::specs::Grammar::Table::table, ruby_meaning::specs::Grammar::Primaries::text))]
fn text_below<F: Fn(Global, &mut Cursor<'_>, Part, u32) -> Result<Reading, Fail> + Copy>(
    parser: &Parser<F>,
    cursor: &mut Cursor<'_>,
) -> Result<Node, Fail>
    ensures { ReadsNode g.text parser.now.depth cursor.old result cursor.new }
{
    if parser.depth == 0 {
        return Err(Fail::Refused);
    }
    text(&parser.below(), cursor)
}

/// Texts behind those found.
#[tactic(auto, unfolding(ruby_meaning::specs::Grammar::Table::table, ruby_meaning::specs::Grammar::Primaries::text))]
fn more_texts<F: Fn(Global, &mut Cursor<'_>, Part, u32) -> Result<Reading, Fail> + Copy>(
    parser: &Parser<F>,
    cursor: &mut Cursor<'_>,
    found: Nodes,
) -> Result<Nodes, Fail>
    ensures { Gives (λ xs. xs) (spec.texts_from parser.now.depth (length (ahead cursor.old)) found (ahead cursor.old)) result (ahead cursor.new) }
{
    let mut found = found;
    for _turn in 0..cursor.left() {
        if !cursor.sees(Sign::Text) {
            return Ok(found);
        }
        found.push(text_below(parser, cursor)?)?;
    }
    Ok(found)
}

/// `text*`
#[tactic(auto, using(crate::proofs::LiteralLists::many_from_none), unfolding(ruby_meaning::specs::Grammar::Table::table))]
fn texts<F: Fn(Global, &mut Cursor<'_>, Part, u32) -> Result<Reading, Fail> + Copy>(
    parser: &Parser<F>,
    cursor: &mut Cursor<'_>,
) -> Result<Nodes, Fail>
    ensures { Reads (λ xs. xs) spec.texts parser.now.depth cursor.old result cursor.new }
{
    more_texts(parser, cursor, Nodes::new(parser.alloc))
}

/// `%w[..]` and the like
#[tactic(auto, unfolding(ruby_meaning::specs::Grammar::Table::table, ruby_meaning::specs::Grammar::Primaries::word_list))]
pub fn word_list<F: Fn(Global, &mut Cursor<'_>, Part, u32) -> Result<Reading, Fail> + Copy>(
    parser: &Parser<F>,
    cursor: &mut Cursor<'_>,
) -> Result<Value, Fail>
    ensures { ReadsValue g.word_list (suc parser.now.depth) cursor.old result cursor.new }
{
    let open = cursor.take_one_of(&WORD_LISTS)?;
    let kind = Kind::ArrayLit(texts(parser, cursor)?);
    let close = cursor.take_one_of(&LIST_ENDS)?;
    Ok(Value {
        node: node(parser.alloc, kind, tokens(open, close), start(open))?,
        written: Written::Other,
    })
}

/// The key of a pair.
#[tactic(auto, unfolding(ruby_meaning::specs::Grammar::Table::table, ruby_meaning::specs::Grammar::Primaries::label_key))]
pub fn label_key<F: Fn(Global, &mut Cursor<'_>, Part, u32) -> Result<Reading, Fail> + Copy>(
    parser: &Parser<F>,
    cursor: &mut Cursor<'_>,
) -> Result<Node, Fail>
    ensures { ReadsNode g.label_key (suc parser.now.depth) cursor.old result cursor.new }
{
    let token = cursor.take(Sign::Label)?;
    let kind = Kind::Str(units(parser.alloc, token)?);
    Ok(node(parser.alloc, kind, span_of(token), start(token))?)
}

/// The key of a pair one level below.
#[tactic(auto, using(ruby_parameters::proofs::Levels::node_none, ruby_parameters::proofs::Below::one_below), unfolding(ruby_meaning::specs::Grammar::Table::table, ruby_meaning::specs::Grammar::Primaries::label_key))]
pub fn label_key_below<F: Fn(Global, &mut Cursor<'_>, Part, u32) -> Result<Reading, Fail> + Copy>(
    parser: &Parser<F>,
    cursor: &mut Cursor<'_>,
) -> Result<Node, Fail>
    ensures { ReadsNode g.label_key parser.now.depth cursor.old result cursor.new }
{
    if parser.depth == 0 {
        return Err(Fail::Refused);
    }
    label_key(&parser.below(), cursor)
}

/// The statements of a part of a text.
#[tactic(auto, unfolding(ruby_meaning::specs::Grammar::Table::table, ruby_meaning::specs::Grammar::Primaries::embedded))]
fn embedded<F: Fn(Global, &mut Cursor<'_>, Part, u32) -> Result<Reading, Fail> + Copy>(
    parser: &Parser<F>,
    cursor: &mut Cursor<'_>,
) -> Result<Node, Fail>
    requires below { Nests parser.now.depth (F.pre parser.now.names) (F.post parser.now.names) }
    ensures { ReadsNode (g.embedded parser.now.in_rescue) parser.now.depth cursor.old result cursor.new }
{
    let open = cursor.take(Sign::PartBegin)?;
    let body = parser.statements(cursor, parser.in_rescue)?;
    let close = cursor.take(Sign::PartEnd)?;
    Ok(filled(tokens(open, close), body))
}

/// A part of an interpolated text.
#[tactic(auto, unfolding(ruby_meaning::specs::Grammar::Table::table, ruby_meaning::specs::Grammar::Primaries::text, ruby_meaning::specs::Grammar::Primaries::embedded))]
fn text_part<F: Fn(Global, &mut Cursor<'_>, Part, u32) -> Result<Reading, Fail> + Copy>(
    parser: &Parser<F>,
    cursor: &mut Cursor<'_>,
) -> Result<Node, Fail>
    requires below { Nests parser.now.depth (F.pre parser.now.names) (F.post parser.now.names) }
    ensures { ReadsNode (spec.text_part parser.now.in_rescue) parser.now.depth cursor.old result cursor.new }
{
    if cursor.sees(Sign::Text) {
        text_below(parser, cursor)
    } else {
        embedded(parser, cursor)
    }
}

/// Parts of an interpolated text behind those found.
#[tactic(auto, unfolding(ruby_meaning::specs::Grammar::Table::table, ruby_meaning::specs::Grammar::Primaries::text, ruby_meaning::specs::Grammar::Primaries::embedded))]
fn more_parts<F: Fn(Global, &mut Cursor<'_>, Part, u32) -> Result<Reading, Fail> + Copy>(
    parser: &Parser<F>,
    cursor: &mut Cursor<'_>,
    found: Nodes,
) -> Result<Nodes, Fail>
    requires below { Nests parser.now.depth (F.pre parser.now.names) (F.post parser.now.names) }
    ensures { Gives (λ xs. xs) (spec.parts_from parser.now.in_rescue parser.now.depth (length (ahead cursor.old)) found (ahead cursor.old)) result (ahead cursor.new) }
{
    let mut found = found;
    for _turn in 0..cursor.left() {
        if !cursor.sees_one_of(&PARTS) {
            return Ok(found);
        }
        found.push(text_part(parser, cursor)?)?;
    }
    Ok(found)
}

/// The parts of an interpolated text.
#[tactic(auto, using(crate::proofs::LiteralLists::many_from_none), unfolding(ruby_meaning::specs::Grammar::Table::table))]
fn text_parts<F: Fn(Global, &mut Cursor<'_>, Part, u32) -> Result<Reading, Fail> + Copy>(
    parser: &Parser<F>,
    cursor: &mut Cursor<'_>,
) -> Result<Nodes, Fail>
    requires below { Nests parser.now.depth (F.pre parser.now.names) (F.post parser.now.names) }
    ensures { Reads (λ xs. xs) (spec.text_parts parser.now.in_rescue) parser.now.depth cursor.old result cursor.new }
{
    more_parts(parser, cursor, Nodes::new(parser.alloc))
}

/// A text in double quotes with parts in it
#[tactic(auto, unfolding(ruby_meaning::specs::Grammar::Table::table, ruby_meaning::specs::Grammar::Primaries::interpolated))]
pub fn interpolated<F: Fn(Global, &mut Cursor<'_>, Part, u32) -> Result<Reading, Fail> + Copy>(
    parser: &Parser<F>,
    cursor: &mut Cursor<'_>,
) -> Result<Value, Fail>
    requires below { Nests parser.now.depth (F.pre parser.now.names) (F.post parser.now.names) }
    ensures { ReadsValue (g.interpolated parser.now.in_rescue) (suc parser.now.depth) cursor.old result cursor.new }
{
    let open = cursor.take(Sign::TextBegin)?;
    let kind = Kind::Interp(text_parts(parser, cursor)?);
    let close = cursor.take(Sign::TextEnd)?;
    Ok(Value {
        node: node(parser.alloc, kind, tokens(open, close), start(open))?,
        written: Written::Other,
    })
}

/// `"(" stmts ")"`
#[tactic(auto, unfolding(ruby_meaning::specs::Grammar::Table::table, ruby_meaning::specs::Grammar::Primaries::parenthesized))]
pub fn parenthesized<F: Fn(Global, &mut Cursor<'_>, Part, u32) -> Result<Reading, Fail> + Copy>(
    parser: &Parser<F>,
    cursor: &mut Cursor<'_>,
) -> Result<Value, Fail>
    requires below { Nests parser.now.depth (F.pre parser.now.names) (F.post parser.now.names) }
    ensures { ReadsValue (g.parenthesized parser.now.in_rescue) (suc parser.now.depth) cursor.old result cursor.new }
{
    let open = cursor.take_one_of(&ROUND)?;
    let body = parser.statements_here(cursor)?;
    let close = cursor.take(Sign::Op(Mark::ParenClose))?;
    Ok(Value {
        node: Node {
            kind: body.node.kind,
            span: tokens(open, close),
            mark: start(open),
        },
        written: Written::Other,
    })
}

/// A pair in braces.
#[tactic(auto, unfolding(ruby_meaning::specs::Grammar::Table::table, ruby_meaning::specs::Grammar::Primaries::pair_in_braces, ruby_meaning::specs::Grammar::Primaries::label_key))]
fn pair_in_braces<F: Fn(Global, &mut Cursor<'_>, Part, u32) -> Result<Reading, Fail> + Copy>(
    parser: &Parser<F>,
    cursor: &mut Cursor<'_>,
) -> Result<Pair, Fail>
    requires below { Nests parser.now.depth (F.pre parser.now.names) (F.post parser.now.names) }
    ensures { Reads spec.shown_pair (g.pair_in_braces parser.now.in_rescue) parser.now.depth cursor.old result cursor.new }
{
    if cursor.sees(Sign::Label) {
        let key = label_key_below(parser, cursor)?;
        let value = parser.tree(cursor, Tree::Argument, true)?;
        return Ok(Pair { key, value });
    }
    let key = parser.tree(cursor, Tree::Argument, true)?;
    cursor.take(Sign::Op(Mark::FatArrow))?;
    let value = parser.tree(cursor, Tree::Argument, true)?;
    Ok(Pair { key, value })
}

/// A pair behind a comma.
#[tactic(auto, unfolding(ruby_meaning::specs::Grammar::Table::table, ruby_meaning::specs::Grammar::Primaries::pair_in_braces))]
fn next_pair<F: Fn(Global, &mut Cursor<'_>, Part, u32) -> Result<Reading, Fail> + Copy>(
    parser: &Parser<F>,
    cursor: &mut Cursor<'_>,
) -> Result<Pair, Fail>
    requires below { Nests parser.now.depth (F.pre parser.now.names) (F.post parser.now.names) }
    ensures { Reads spec.shown_pair (spec.next_pair parser.now.in_rescue) parser.now.depth cursor.old result cursor.new }
{
    cursor.take(Sign::Op(Mark::Comma))?;
    pair_in_braces(parser, cursor)
}

/// Pairs that each stand behind a comma, behind those found.
#[tactic(auto, unfolding(ruby_meaning::specs::Grammar::Table::table, ruby_meaning::specs::Grammar::Primaries::pair_in_braces))]
fn more_pairs<F: Fn(Global, &mut Cursor<'_>, Part, u32) -> Result<Reading, Fail> + Copy>(
    parser: &Parser<F>,
    cursor: &mut Cursor<'_>,
    found: Pairs,
) -> Result<Pairs, Fail>
    requires below { Nests parser.now.depth (F.pre parser.now.names) (F.post parser.now.names) }
    ensures { Gives spec.shown_pairs (spec.pairs_from parser.now.in_rescue parser.now.depth (length (ahead cursor.old)) found.keys found.values (ahead cursor.old)) result (ahead cursor.new) }
{
    let Pairs {
        mut keys,
        mut values,
    } = found;
    for _turn in 0..cursor.left() {
        if !cursor.sees(Sign::Op(Mark::Comma)) {
            return Ok(Pairs { keys, values });
        }
        let next = next_pair(parser, cursor)?;
        keys.push(next.key)?;
        values.push(next.value)?;
    }
    Ok(Pairs { keys, values })
}

/// The pairs behind one.
fn pairs_behind<F: Fn(Global, &mut Cursor<'_>, Part, u32) -> Result<Reading, Fail> + Copy>(
    parser: &Parser<F>,
    cursor: &mut Cursor<'_>,
    first: Pair,
) -> Result<Pairs, Fail>
    requires below { Nests parser.now.depth (F.pre parser.now.names) (F.post parser.now.names) }
    ensures { spec.GivesPairsBehind first.key first.value (spec.read_pairs parser.now.in_rescue parser.now.depth (ahead cursor.old)) result (ahead cursor.new) }
{
    let mut keys = Nodes::new(parser.alloc);
    keys.push(first.key)?;
    let mut values = Nodes::new(parser.alloc);
    values.push(first.value)?;
    more_pairs(parser, cursor, Pairs { keys, values })
}

/// `[pairs]`
#[tactic(auto, unfolding(ruby_meaning::specs::Grammar::Table::table, ruby_meaning::specs::Grammar::Primaries::pair_in_braces, ruby_meaning::specs::Grammar::Primaries::label_key))]
fn some_pairs<F: Fn(Global, &mut Cursor<'_>, Part, u32) -> Result<Reading, Fail> + Copy>(
    parser: &Parser<F>,
    cursor: &mut Cursor<'_>,
) -> Result<Pairs, Fail>
    requires below { Nests parser.now.depth (F.pre parser.now.names) (F.post parser.now.names) }
    ensures { spec.GivesPairs (read_rule table (read_named table) (spec.some_pairs parser.now.in_rescue) parser.now.depth (ahead cursor.old)) result (ahead cursor.new) }
{
    if !sees_pair(cursor) {
        return Ok(Pairs {
            keys: Nodes::new(parser.alloc),
            values: Nodes::new(parser.alloc),
        });
    }
    let first = pair_in_braces(parser, cursor)?;
    pairs_behind(parser, cursor, first)
}

/// `"{" [pairs] "}"`
#[tactic(auto, unfolding(ruby_meaning::specs::Grammar::Table::table, ruby_meaning::specs::Grammar::Primaries::hash_value, ruby_meaning::specs::Grammar::Parameters::behind_newlines, ruby_meaning::specs::Grammar::Parameters::newlines))]
pub fn hash_value<F: Fn(Global, &mut Cursor<'_>, Part, u32) -> Result<Reading, Fail> + Copy>(
    parser: &Parser<F>,
    cursor: &mut Cursor<'_>,
) -> Result<Value, Fail>
    requires below { Nests parser.now.depth (F.pre parser.now.names) (F.post parser.now.names) }
    ensures { ReadsValue (g.hash_value parser.now.in_rescue) (suc parser.now.depth) cursor.old result cursor.new }
{
    let open = cursor.take(Sign::Op(Mark::BraceOpen))?;
    let Pairs { keys, values } = some_pairs(parser, cursor)?;
    let close = closing(cursor, Sign::Op(Mark::BraceClose))?;
    let kind = Kind::HashLit { keys, values };
    Ok(Value {
        node: node(parser.alloc, kind, tokens(open, close), start(open))?,
        written: Written::Other,
    })
}

/// `"[" [arguments] "]"`
#[tactic(auto, unfolding(ruby_meaning::specs::Grammar::Table::table, ruby_meaning::specs::Grammar::Primaries::array))]
pub fn array<F: Fn(Global, &mut Cursor<'_>, Part, u32) -> Result<Reading, Fail> + Copy>(
    parser: &Parser<F>,
    cursor: &mut Cursor<'_>,
) -> Result<Value, Fail>
    requires below { Nests parser.now.depth (F.pre parser.now.names) (F.post parser.now.names) }
    ensures { ReadsValue (g.array parser.now.in_rescue) (suc parser.now.depth) cursor.old result cursor.new }
{
    let open = cursor.take_one_of(&SQUARE)?;
    let inner = read_closed(parser, cursor, false)?;
    let span = tokens(open, inner.close);
    let kind = Kind::ArrayLit(items_of(parser.alloc, inner.args)?);
    Ok(Value {
        node: node(parser.alloc, kind, span, start(open))?,
        written: Written::Other,
    })
}
