//! Parameters of methods, blocks and lambdas.

ghost use Rattle.std.specs.Prelude.{map, Some, ◌≡◌, ◌∷◌, [], length, Ok, suc, nat_eq, ◌||◌};
ghost use Rattle.grammar.specs.FormReaders.{next_in, read_many, read_token};
ghost use Rattle.grammar.specs.Spelling.{token_in};
ghost use Rattle.grammar.specs.CommonRules.{maybe};
ghost use Rattle.grammar.specs.Rules.{many};
ghost use Rattle.ruby_meaning.specs.Grammar.Actions as act;
ghost use Rattle.ruby_meaning.specs.Grammar.Parameters as g;
ghost use Rattle.descent.specs.Gives.{Gives};
ghost use Rattle.descent.specs.Sets.{one_of};
ghost use Rattle.ruby_reading.specs.Ahead.{ahead, class_code, codes, see, GivesToken, Makes};
ghost use Rattle.ruby_reading.specs.Named.{Nests, Reads, ReadsToken};
ghost use Rattle.grammar.specs.Readers.{read_named, read_rule};
ghost use Rattle.ruby_meaning.specs.Grammar.Table.{table, begins_parameter};
ghost use Rattle.ruby_meaning.specs.declared.production.Stage.TheVariants as stage;
ghost use Rattle.ruby_meaning.specs.Grammar.Calls.{block_parameters};
ghost use Rattle.ruby_parameters.specs.Parameters as spec;
ghost use Rattle.ruby_parameters.specs.Parameters.{GivesParams};

use descent::Fail;
use opal_base::{Names, Units};
use ruby_meaning::{Mark, Node, Nodes, Params, Part, Rest, Sign, Slot, Slots, TokenKind};
use ruby_reading::{Cursor, NEWLINES, Parser, Reading, Sight, Tree, units};
use sqlite_items::Items;
use std::alloc::Global;

const PARAMETER_SIGNS: [Sign; 3] = [Sign::Name, Sign::Op(Mark::Star), Sign::Op(Mark::Ampersand)];

const BRACKET_PARAMETER_SIGNS: [Sign; 4] = [
    Sign::Name,
    Sign::Op(Mark::Star),
    Sign::Op(Mark::Ampersand),
    Sign::Op(Mark::ParenOpen),
];

/// Whether a token of one of these classes stood next, which is skipped.
fn pass(cursor: &mut Cursor<'_>, signs: &[Sign]) -> bool
    ensures found { result ≡ next_in (λ t. one_of (codes signs.now) (class_code t)) (ahead cursor.old) }
    ensures left { ahead cursor.new ≡ spec.behind_one (one_of (codes signs.now)) (ahead cursor.old) }
{
    if !cursor.sees_one_of(signs) {
        return false;
    }
    cursor.rest = &cursor.rest[1..];
    true
}

/// Skips the tokens of these classes.
pub fn skip(cursor: &mut Cursor<'_>, signs: &[Sign])
    ensures { read_many (λ t. one_of (codes signs.now) (class_code t)) (read_token (token_in class_code (one_of (codes signs.now)))) (length (ahead cursor.old)) (ahead cursor.old) ≡ Ok (spec.those (one_of (codes signs.now)) (ahead cursor.old), ahead cursor.new) }
{
    for _turn in 0..cursor.left() {
        if !pass(cursor, signs) {
            return;
        }
    }
}

fn is_sign(unit: u16) -> bool
    ensures { result ≡ (nat_eq unit 63 || nat_eq unit 33) }
{
    unit == 63 || unit == 33
}

/// Whether a name ends in `?` or `!`.
pub fn ends_in_sign(name: &Units) -> bool
    ensures { result ≡ act.ends_in_sign name.now }
{
    match name.as_slice().last() {
        Some(unit) => is_sign(*unit),
        None => false,
    }
}

/// Whether a token is a name without `?` or `!`.
pub fn is_variable_name(sight: Sight<'_>) -> bool
    ensures { result ≡ act.is_variable_name (see sight.entry) }
{
    match &sight.token.kind {
        TokenKind::Name(name) => !ends_in_sign(name),
        _ => false,
    }
}

fn sees_variable_name(cursor: &Cursor<'_>) -> bool
    ensures { result ≡ next_in act.is_variable_name (ahead cursor.now) }
{
    match cursor.rest.first() {
        Some(next) => is_variable_name(*next),
        None => false,
    }
}

/// A name without `?` or `!`.
#[tactic(auto, using(crate::proofs::Skipped::such_taken, crate::proofs::Skipped::such_refused), unfolding(ruby_meaning::specs::Grammar::Table::table, ruby_meaning::specs::Grammar::Parameters::parameter_name))]
pub fn variable_name<'a>(cursor: &mut Cursor<'a>) -> Result<Sight<'a>, Fail>
    ensures { ReadsToken g.parameter_name 0 cursor.old result cursor.new }
{
    if !sees_variable_name(cursor) {
        return Err(Fail::Refused);
    }
    cursor.take(Sign::Name)
}

/// What stands before a parameter in its list.
#[derive(Clone, Copy, Debug, PartialEq, Eq)]
pub enum Before {
    /// Names alone.
    Names,
    /// One with a default, and no name behind it.
    Default,
    /// `*`, and no name behind it.
    Rest,
    /// A name behind a default or a `*`.
    After,
}

/// One parameter.
#[derive(Drop)]
pub enum Parameter<'a> {
    Name(Sight<'a>),
    /// Names in brackets.
    Names(Items<Sight<'a>>),
    Default(Sight<'a>, Node),
    Rest(Option<Sight<'a>>),
    Block(Sight<'a>),
}

/// Whether a default or a `*` may stand next.
fn takes_default(before: Before) -> bool
    ensures { result ≡ spec.takes_default (spec.stage_of before) }
{
    match before {
        Before::Names | Before::Default => true,
        Before::Rest | Before::After => false,
    }
}

/// What stands before the next parameter.
fn behind(before: Before, one: &Parameter<'_>) -> Before
    ensures { spec.stage_of result ≡ spec.stage_behind (spec.stage_of before) (spec.single_of one.now) }
{
    match one {
        Parameter::Name(_) | Parameter::Names(_) => match before {
            Before::Names => Before::Names,
            _ => Before::After,
        },
        Parameter::Default(_, _) => Before::Default,
        Parameter::Rest(_) => Before::Rest,
        Parameter::Block(_) => before,
    }
}

fn is_block(one: &Parameter<'_>) -> bool
    ensures { result ≡ spec.is_block (spec.single_of one.now) }
{
    matches!(one, Parameter::Block(_))
}

/// The parameters that were read.
#[derive(Drop)]
pub struct Found {
    pub plain: Slots,
    pub optional: Names,
    pub defaults: Nodes,
    pub rest: Rest,
    pub after: Slots,
    pub block: Option<Units>,
}

fn none_found(alloc: Global) -> Found
    ensures { result ≡ spec.found_of act.no_parameters }
{
    Found {
        plain: Slots::new(alloc),
        optional: Names::new(alloc),
        defaults: Nodes::new(alloc),
        rest: Rest::None,
        after: Slots::new(alloc),
        block: None,
    }
}

fn params_from(found: Found) -> Params
    ensures { result ≡ spec.params_from found }
{
    Params {
        plain: found.plain,
        optional: found.optional,
        defaults: found.defaults,
        rest: found.rest,
        after: found.after,
        block: found.block,
    }
}

fn with_slot(found: Found, before: Before, slot: Slot) -> Result<Found, Fail>
    ensures { Makes (spec.with_slot_found (spec.stage_of before) slot found) result }
{
    let mut found = found;
    match before {
        Before::Names => found.plain.push(slot)?,
        _ => found.after.push(slot)?,
    }
    Ok(found)
}

fn with_default(found: Found, name: Units, value: Node) -> Result<Found, Fail>
    ensures { Makes (spec.with_default_found name value found) result }
{
    let mut found = found;
    found.optional.push(name)?;
    found.defaults.push(value)?;
    Ok(found)
}

/// What takes the arguments that are left: the first of two.
fn first_rest(first: Rest, second: Rest) -> Rest
    ensures { result ≡ spec.first_rest first second }
{
    match first {
        Rest::None => second,
        first => first,
    }
}

fn first_units(first: Option<Units>, second: Units) -> Option<Units>
    ensures { result ≡ act.or_else first (Some second) }
{
    match first {
        None => Some(second),
        first => first,
    }
}

fn with_rest(found: Found, rest: Rest) -> Result<Found, Fail>
    ensures { Makes (spec.with_rest_found rest found) result }
{
    let mut found = found;
    found.rest = first_rest(found.rest, rest);
    Ok(found)
}

fn with_block(found: Found, name: Units) -> Result<Found, Fail>
    ensures { Makes (spec.with_block_found name found) result }
{
    let mut found = found;
    found.block = first_units(found.block, name);
    Ok(found)
}

/// The names in brackets.
fn units_of(alloc: Global, names: &Items<Sight<'_>>) -> Result<Names, Fail>
    ensures { Makes (map act.units (spec.shown_names names.now)) result }
{
    let mut all = Names::new(alloc);
    for name in names.as_slice() {
        all.push(units(alloc, *name)?)?;
    }
    Ok(all)
}

/// A parameter that takes one argument.
fn slot(alloc: Global, names: &Items<Sight<'_>>) -> Result<Slot, Fail>
    ensures { Makes (act.slot_of (spec.shown_names names.now)) result }
{
    if let [name] = names.as_slice() {
        return Ok(Slot::Name(units(alloc, *name)?));
    }
    Ok(Slot::Names(units_of(alloc, names)?))
}

fn rest(alloc: Global, name: Option<Sight<'_>>) -> Result<Rest, Fail>
    ensures { Makes (act.rest_of (Some (spec.see_if name.entry))) result }
{
    match name {
        Some(name) => Ok(Rest::Named(units(alloc, name)?)),
        None => Ok(Rest::Unnamed),
    }
}

/// One more parameter.
fn with_parameter(
    alloc: Global,
    found: Found,
    before: Before,
    one: Parameter<'_>,
) -> Result<Found, Fail>
    ensures { Makes (spec.with_found (spec.stage_of before) (spec.single_of one.entry) found) result }
{
    match one {
        Parameter::Name(name) => with_slot(found, before, Slot::Name(units(alloc, name)?)),
        Parameter::Names(names) => with_slot(found, before, slot(alloc, &names)?),
        Parameter::Default(name, value) => with_default(found, units(alloc, name)?, value),
        Parameter::Rest(name) => with_rest(found, rest(alloc, name)?),
        Parameter::Block(name) => with_block(found, units(alloc, name)?),
    }
}

/// Whether a token stands next that begins parameters.
fn begins_parameters(cursor: &Cursor<'_>, brackets: bool) -> bool
    ensures { result ≡ next_in (λ t. begins_parameter brackets (class_code t)) (ahead cursor.now) }
{
    if brackets {
        cursor.sees_one_of(&BRACKET_PARAMETER_SIGNS)
    } else {
        cursor.sees_one_of(&PARAMETER_SIGNS)
    }
}

pub fn no_parameters(alloc: Global) -> Params
    ensures { result ≡ act.params_of act.no_parameters }
{
    Params {
        plain: Slots::new(alloc),
        optional: Names::new(alloc),
        defaults: Nodes::new(alloc),
        rest: Rest::None,
        after: Slots::new(alloc),
        block: None,
    }
}

/// Parameters, from one on.
fn parameters<F: Fn(Global, &mut Cursor<'_>, Part, u32) -> Result<Reading, Fail> + Copy>(
    parser: &Parser<F>,
    cursor: &mut Cursor<'_>,
    brackets: bool,
) -> Result<Params, Fail>
    requires below { Nests parser.now.depth (F.pre parser.now.names) (F.post parser.now.names) }
    ensures { GivesParams (read_rule table (read_named table) (g.parameters parser.now.in_rescue brackets stage.Plain) parser.now.depth (ahead cursor.old)) result (ahead cursor.new) }
{
    let mut found = none_found(parser.alloc);
    let mut before = Before::Names;
    for _turn in 0..cursor.left() {
        let one = read_parameter(parser, cursor, before, brackets)?;
        let next = behind(before, &one);
        let ends = is_block(&one);
        found = with_parameter(parser.alloc, found, before, one)?;
        before = next;
        if ends {
            return Ok(params_from(found));
        }
        if !cursor.sees(Sign::Op(Mark::Comma)) {
            return Ok(params_from(found));
        }
        cursor.take(Sign::Op(Mark::Comma))?;
    }
    Err(Fail::Refused)
}

/// `[params]`
pub fn some_parameters<F: Fn(Global, &mut Cursor<'_>, Part, u32) -> Result<Reading, Fail> + Copy>(
    parser: &Parser<F>,
    cursor: &mut Cursor<'_>,
    brackets: bool,
) -> Result<Params, Fail>
    requires below { Nests parser.now.depth (F.pre parser.now.names) (F.post parser.now.names) }
    ensures { GivesParams (read_rule table (read_named table) (g.some_parameters parser.now.in_rescue brackets) parser.now.depth (ahead cursor.old)) result (ahead cursor.new) }
{
    if begins_parameters(cursor, brackets) {
        parameters(parser, cursor, brackets)
    } else {
        Ok(no_parameters(parser.alloc))
    }
}

/// `["|" [params] "|"]`
#[tactic(auto, unfolding(ruby_meaning::specs::Grammar::Table::table, ruby_meaning::specs::Grammar::Calls::block_parameters))]
pub fn block_parameters<F: Fn(Global, &mut Cursor<'_>, Part, u32) -> Result<Reading, Fail> + Copy>(
    parser: &Parser<F>,
    cursor: &mut Cursor<'_>,
) -> Result<Params, Fail>
    requires below { Nests parser.now.depth (F.pre parser.now.names) (F.post parser.now.names) }
    ensures { GivesParams (read_rule table (read_named table) (block_parameters parser.now.in_rescue) parser.now.depth (ahead cursor.old)) result (ahead cursor.new) }
{
    if !cursor.sees(Sign::Op(Mark::Pipe)) {
        return Ok(no_parameters(parser.alloc));
    }
    cursor.take(Sign::Op(Mark::Pipe))?;
    let params = some_parameters(parser, cursor, true)?;
    cursor.take(Sign::Op(Mark::Pipe))?;
    Ok(params)
}

/// A name behind a comma.
#[tactic(auto, unfolding(ruby_meaning::specs::Grammar::Table::table, ruby_meaning::specs::Grammar::Parameters::parameter_name))]
fn next_name<'a, F: Fn(Global, &mut Cursor<'_>, Part, u32) -> Result<Reading, Fail> + Copy>(
    parser: &Parser<F>,
    cursor: &mut Cursor<'a>,
) -> Result<Sight<'a>, Fail>
    ensures { ReadsToken spec.next_name parser.now.depth cursor.old result cursor.new }
{
    cursor.take(Sign::Op(Mark::Comma))?;
    variable_name(cursor)
}

/// Names that each stand behind a comma.
fn more_names<'a, F: Fn(Global, &mut Cursor<'_>, Part, u32) -> Result<Reading, Fail> + Copy>(
    parser: &Parser<F>,
    cursor: &mut Cursor<'a>,
    found: Items<Sight<'a>>,
) -> Result<Items<Sight<'a>>, Fail>
    ensures { Gives spec.shown_names (spec.names_from parser.now.depth (length (ahead cursor.old)) (spec.shown_names found.entry) (ahead cursor.old)) result (ahead cursor.new) }
{
    let mut found = found;
    for _turn in 0..cursor.left() {
        if !cursor.sees(Sign::Op(Mark::Comma)) {
            return Ok(found);
        }
        found.push(next_name(parser, cursor)?)?;
    }
    Ok(found)
}

/// `("," name)*`
#[tactic(auto, using(grammar::proofs::Loops::read_many_from_is), unfolding(ruby_meaning::specs::Grammar::Table::table, ruby_meaning::specs::Grammar::Parameters::parameter_name))]
fn names_behind<'a, F: Fn(Global, &mut Cursor<'_>, Part, u32) -> Result<Reading, Fail> + Copy>(
    parser: &Parser<F>,
    cursor: &mut Cursor<'a>,
) -> Result<Items<Sight<'a>>, Fail>
    ensures { Reads spec.shown_names (many spec.next_name) parser.now.depth cursor.old result cursor.new }
{
    more_names(parser, cursor, Items::new(parser.alloc))
}

/// `"(" name ("," name)+ ")"`
#[tactic(auto, unfolding(ruby_meaning::specs::Grammar::Table::table, ruby_meaning::specs::Grammar::Parameters::bracketed_names, ruby_meaning::specs::Grammar::Parameters::behind_newlines, ruby_meaning::specs::Grammar::Parameters::newlines, ruby_meaning::specs::Grammar::Parameters::parameter_name))]
fn bracketed_names<'a, F: Fn(Global, &mut Cursor<'_>, Part, u32) -> Result<Reading, Fail> + Copy>(
    parser: &Parser<F>,
    cursor: &mut Cursor<'a>,
) -> Result<Items<Sight<'a>>, Fail>
    ensures { Reads spec.shown_names g.bracketed_names parser.now.depth cursor.old result cursor.new }
{
    cursor.take(Sign::Op(Mark::ParenOpen))?;
    let first = variable_name(cursor)?;
    let second = next_name(parser, cursor)?;
    let more = names_behind(parser, cursor)?;
    skip(cursor, &NEWLINES);
    cursor.take(Sign::Op(Mark::ParenClose))?;
    let mut names = Items::new(parser.alloc);
    names.push(first)?;
    names.push(second)?;
    names.append(more)?;
    Ok(names)
}

/// A default behind a name, or none.
#[tactic(auto, unfolding(ruby_meaning::specs::Grammar::Table::table))]
fn value<'a, F: Fn(Global, &mut Cursor<'_>, Part, u32) -> Result<Reading, Fail> + Copy>(
    parser: &Parser<F>,
    cursor: &mut Cursor<'a>,
    name: Sight<'a>,
) -> Result<Parameter<'a>, Fail>
    requires below { Nests parser.now.depth (F.pre parser.now.names) (F.post parser.now.names) }
    ensures { spec.GivesSingle (spec.read_value parser.now.in_rescue parser.now.depth (see name.entry) (ahead cursor.old)) result (ahead cursor.new) }
{
    if !cursor.sees(Sign::Op(Mark::Assign)) {
        return Ok(Parameter::Name(name));
    }
    cursor.take(Sign::Op(Mark::Assign))?;
    let value = parser.tree(cursor, Tree::Argument, true)?;
    Ok(Parameter::Default(name, value))
}

/// A name with a default or none.
#[tactic(auto, unfolding(ruby_meaning::specs::Grammar::Table::table, ruby_meaning::specs::Grammar::Parameters::parameter_name))]
fn named_parameter<'a, F: Fn(Global, &mut Cursor<'_>, Part, u32) -> Result<Reading, Fail> + Copy>(
    parser: &Parser<F>,
    cursor: &mut Cursor<'a>,
    before: Before,
) -> Result<Parameter<'a>, Fail>
    requires below { Nests parser.now.depth (F.pre parser.now.names) (F.post parser.now.names) }
    ensures { spec.GivesSingle (spec.read_name parser.now.in_rescue parser.now.depth (spec.stage_of before) (ahead cursor.old)) result (ahead cursor.new) }
{
    let name = variable_name(cursor)?;
    if takes_default(before) {
        value(parser, cursor, name)
    } else {
        Ok(Parameter::Name(name))
    }
}

/// `[name]`
#[tactic(auto, unfolding(ruby_meaning::specs::Grammar::Table::table, ruby_meaning::specs::Grammar::Parameters::parameter_name))]
fn maybe_name<'a, F: Fn(Global, &mut Cursor<'_>, Part, u32) -> Result<Reading, Fail> + Copy>(
    parser: &Parser<F>,
    cursor: &mut Cursor<'a>,
) -> Result<Option<Sight<'a>>, Fail>
    ensures { Reads spec.see_if (maybe g.parameter_name) parser.now.depth cursor.old result cursor.new }
{
    if !cursor.sees(Sign::Name) {
        return Ok(None);
    }
    Ok(Some(variable_name(cursor)?))
}

/// `"*" [name]`
#[tactic(auto, unfolding(ruby_meaning::specs::Grammar::Table::table))]
fn rest_parameter<'a, F: Fn(Global, &mut Cursor<'_>, Part, u32) -> Result<Reading, Fail> + Copy>(
    parser: &Parser<F>,
    cursor: &mut Cursor<'a>,
) -> Result<Parameter<'a>, Fail>
    ensures { spec.GivesSingle (spec.read_star parser.now.depth (ahead cursor.old)) result (ahead cursor.new) }
{
    cursor.take(Sign::Op(Mark::Star))?;
    let name = maybe_name(parser, cursor)?;
    Ok(Parameter::Rest(name))
}

/// `"&" name`
#[tactic(auto, unfolding(ruby_meaning::specs::Grammar::Table::table, ruby_meaning::specs::Grammar::Parameters::parameter_name))]
fn block_parameter<'a, F: Fn(Global, &mut Cursor<'_>, Part, u32) -> Result<Reading, Fail> + Copy>(
    parser: &Parser<F>,
    cursor: &mut Cursor<'a>,
) -> Result<Parameter<'a>, Fail>
    ensures { spec.GivesSingle (spec.read_block parser.now.depth (ahead cursor.old)) result (ahead cursor.new) }
{
    cursor.take(Sign::Op(Mark::Ampersand))?;
    let name = variable_name(cursor)?;
    Ok(Parameter::Block(name))
}

/// A parameter with a sign before it.
fn sign_parameter<'a, F: Fn(Global, &mut Cursor<'_>, Part, u32) -> Result<Reading, Fail> + Copy>(
    parser: &Parser<F>,
    cursor: &mut Cursor<'a>,
    before: Before,
) -> Result<Parameter<'a>, Fail>
    ensures { spec.GivesSingle (spec.read_sign parser.now.depth (spec.stage_of before) (ahead cursor.old)) result (ahead cursor.new) }
{
    if takes_default(before) && cursor.sees(Sign::Op(Mark::Star)) {
        return rest_parameter(parser, cursor);
    }
    block_parameter(parser, cursor)
}

/// A parameter without brackets.
fn simple_parameter<'a, F: Fn(Global, &mut Cursor<'_>, Part, u32) -> Result<Reading, Fail> + Copy>(
    parser: &Parser<F>,
    cursor: &mut Cursor<'a>,
    before: Before,
) -> Result<Parameter<'a>, Fail>
    requires below { Nests parser.now.depth (F.pre parser.now.names) (F.post parser.now.names) }
    ensures { spec.GivesSingle (spec.read_simple parser.now.in_rescue parser.now.depth (spec.stage_of before) (ahead cursor.old)) result (ahead cursor.new) }
{
    if cursor.sees(Sign::Name) {
        named_parameter(parser, cursor, before)
    } else {
        sign_parameter(parser, cursor, before)
    }
}

/// One parameter.
fn read_parameter<'a, F: Fn(Global, &mut Cursor<'_>, Part, u32) -> Result<Reading, Fail> + Copy>(
    parser: &Parser<F>,
    cursor: &mut Cursor<'a>,
    before: Before,
    brackets: bool,
) -> Result<Parameter<'a>, Fail>
    requires below { Nests parser.now.depth (F.pre parser.now.names) (F.post parser.now.names) }
    ensures { spec.GivesSingle (spec.read_single parser.now.in_rescue brackets parser.now.depth (spec.stage_of before) (ahead cursor.old)) result (ahead cursor.new) }
{
    if brackets && cursor.sees(Sign::Op(Mark::ParenOpen)) {
        return Ok(Parameter::Names(bracketed_names(parser, cursor)?));
    }
    simple_parameter(parser, cursor, before)
}
