//! Which construct a refusal names.

ghost use Rattle.std.specs.Prelude.{◌≡◌, ◌≤◌, ◌++◌, ◌&&◌, not, false, length, if◌then◌else◌, IfOk, map, slice_get, take, suc, None, Some};
ghost use Rattle.grammar.specs.Reading.{FrontUpTo};
ghost use Rattle.ruby_meaning.specs.Grammar.Laws.{whole_file};
ghost use Rattle.ruby_meaning.specs.Grammar.Refusals.{most_levels, stand_ins};
ghost use Rattle.ruby_meaning.specs.Grammar.Refusals as spec_of;
ghost use Rattle.ruby_meaning.specs.Grammar.Table.{table};
ghost use Rattle.ruby_reading.specs.Ahead.{see};
ghost use Rattle.ruby_parser.specs.Endings as endings;
ghost use Rattle.ruby_parser.specs.Refusing as spec;

use crate::read::{Halt, MOST_LEVELS, is_front, read_list};
use descent::either;
use opal_base::{NoMemory, Pos};
use ruby_meaning::{Construct, Mark, Sign, Token, TokenKind, Word};
use ruby_reading::{Body, Sight};
use std::alloc::Global;

fn both(one: bool, other: bool) -> bool
    ensures { result ≡ (one && other) }
{
    one && other
}

fn not(one: bool) -> bool
    ensures { result ≡ not one }
{
    !one
}

// ---- the sign that stands at the place

fn is_marked(sign: Option<Sign>) -> bool
    ensures { result ≡ spec.holds spec_of.is_marked sign }
{
    matches!(sign, Some(Sign::Marked(_)))
}

fn is_keyword_sign(sign: Option<Sign>) -> bool
    ensures { result ≡ spec.holds spec_of.is_keyword_sign sign }
{
    matches!(sign, Some(Sign::Label | Sign::Op(Mark::Power)))
}

fn is_in(sign: Option<Sign>) -> bool
    ensures { result ≡ spec.holds spec_of.is_in sign }
{
    matches!(sign, Some(Sign::Keyword(Word::In)))
}

fn is_arrow(sign: Option<Sign>) -> bool
    ensures { result ≡ spec.holds spec_of.is_arrow sign }
{
    matches!(sign, Some(Sign::Op(Mark::FatArrow)))
}

fn is_jump(sign: Option<Sign>) -> bool
    ensures { result ≡ spec.holds spec_of.is_jump sign }
{
    matches!(
        sign,
        Some(Sign::Keyword(Word::Return) | Sign::Keyword(Word::Break) | Sign::Keyword(Word::Next))
    )
}

fn is_case(sign: Sign) -> bool
    ensures { result ≡ spec_of.is_case sign }
{
    matches!(sign, Sign::Keyword(Word::Case))
}

fn is_separator(sign: Sign) -> bool
    ensures { result ≡ spec_of.is_separator sign }
{
    matches!(sign, Sign::Newline | Sign::Op(Mark::Semicolon))
}

/// The sign of the token at an index; the end token has none.
fn sign_at(sights: &[Sight<'_>], at: usize) -> Option<Sign>
    ensures { result ≡ spec.sign_of (slice_get (map see sights.now) at) }
{
    match sights.get(at) {
        Some(sight) => Some(sight.sign),
        None => None,
    }
}

// ---- what stands before the place

fn last_sign(front: &[Sight<'_>]) -> Option<Sign>
    ensures { result ≡ spec.sign_of (spec_of.last_seen (map see front.now)) }
{
    match front {
        [.., last] => Some(last.sign),
        [] => None,
    }
}

/// The sign of the next one where the token isn't passed.
fn case_behind(found: bool, sign: Sign) -> bool
    ensures { result ≡ (if spec_of.is_separator sign then found else spec_of.is_case sign) }
{
    if is_separator(sign) {
        found
    } else {
        is_case(sign)
    }
}

/// Whether the last token that is no separator is `case`.
fn is_behind_case(front: &[Sight<'_>]) -> bool
    ensures { result ≡ spec.case_from false (map see front.now) }
{
    let mut found = false;
    for sight in front {
        found = case_behind(found, sight.sign);
    }
    found
}

// ---- what could stand at the place

/// A token that has no place in the text.
pub fn stand_in() -> Token
    ensures { result ≡ spec.stand_in }
{
    let nowhere = Pos { line: 0, col: 0 };
    Token {
        kind: TokenKind::Eof,
        from: 0,
        to: 0,
        pos: nowhere,
        end: nowhere,
        blank_before: true,
        blank_after: true,
    }
}

/// Puts tokens of these signs behind others.
fn extend<'a>(sights: &mut Vec<Sight<'a>>, token: &'a Token, signs: &[Sign]) -> Result<(), NoMemory>
    requires { token.now ≡ spec.stand_in }
    ensures { spec.Extends signs.now sights.old sights.new result }
{
    for sign in signs {
        let sight = Sight { token, sign: *sign };
        if sights.push(sight).is_err() {
            return Err(NoMemory);
        }
    }
    Ok(())
}

/// Whether tokens of these signs could stand behind others.
fn may_follow<'a>(
    alloc: Global,
    spare: &'a Token,
    front: &[Sight<'a>],
    signs: &[Sign],
) -> Result<bool, NoMemory>
    requires spare { spare.now ≡ spec.stand_in }
    ensures { spec.TellsIf (spec.Follows (map see front.now) signs.now) result }
{
    let Ok(mut sights) = Vec::from_slice(alloc, front) else {
        return Err(NoMemory);
    };
    extend(&mut sights, spare, signs)?;
    is_front(alloc, &sights)
}

const BLOCK_PASS: [Sign; 1] = [Sign::Op(Mark::Ampersand)];

const SPLAT: [Sign; 1] = [Sign::Marked(Mark::Star)];

const LABEL: [Sign; 1] = [Sign::Label];

const WHEN: [Sign; 1] = [Sign::Keyword(Word::When)];

const END: [Sign; 1] = [Sign::Keyword(Word::End)];

const UNLESS: [Sign; 1] = [Sign::Keyword(Word::Unless)];

const ALIAS: [Sign; 1] = [Sign::Keyword(Word::Alias)];

const NEXT_ALIAS: [Sign; 2] = [Sign::Op(Mark::Semicolon), Sign::Keyword(Word::Alias)];

/// Whether a parameter or an argument may start behind these tokens.
fn argument_may_start<'a>(
    alloc: Global,
    spare: &'a Token,
    front: &[Sight<'a>],
) -> Result<bool, NoMemory>
    requires spare { spare.now ≡ spec.stand_in }
    ensures { spec.TellsIf (spec.Starts (map see front.now)) result }
{
    let block = may_follow(alloc, spare, front, &BLOCK_PASS)?;
    let splat = may_follow(alloc, spare, front, &SPLAT)?;
    let label = may_follow(alloc, spare, front, &LABEL)?;
    let last = last_sign(front);
    let jump = is_jump(last);
    let another = both(splat, label);
    let other = either(another, jump);
    let told = either(block, other);
    Ok(told)
}

/// Whether they end behind the subject of a `case`.
fn is_behind_subject<'a>(
    alloc: Global,
    spare: &'a Token,
    front: &[Sight<'a>],
) -> Result<bool, NoMemory>
    requires spare { spare.now ≡ spec.stand_in }
    ensures { spec.TellsIf (spec.BehindSubject (map see front.now)) result }
{
    let when = may_follow(alloc, spare, front, &WHEN)?;
    let end = may_follow(alloc, spare, front, &END)?;
    let case = is_behind_case(front);
    let unended = not(end);
    let uncased = not(case);
    let others = both(unended, uncased);
    let told = both(when, others);
    Ok(told)
}

/// Whether they end behind a statement.
fn is_behind_statement<'a>(
    alloc: Global,
    spare: &'a Token,
    front: &[Sight<'a>],
) -> Result<bool, NoMemory>
    requires spare { spare.now ≡ spec.stand_in }
    ensures { spec.TellsIf (spec.BehindStatement (map see front.now)) result }
{
    let modifier = may_follow(alloc, spare, front, &UNLESS)?;
    let another = may_follow(alloc, spare, front, &NEXT_ALIAS)?;
    let begun = may_follow(alloc, spare, front, &ALIAS)?;
    let unbegun = not(begun);
    let others = both(another, unbegun);
    let told = both(modifier, others);
    Ok(told)
}

// ---- the constructs

fn is_keyword_parameter<'a>(
    alloc: Global,
    spare: &'a Token,
    next: Option<Sign>,
    front: &[Sight<'a>],
) -> Result<bool, NoMemory>
    requires spare { spare.now ≡ spec.stand_in }
    ensures { spec.TellsIf (spec.KeywordParameter next (map see front.now)) result }
{
    let starts = argument_may_start(alloc, spare, front)?;
    let sign = is_keyword_sign(next);
    let told = both(sign, starts);
    Ok(told)
}

fn is_pattern_match<'a>(
    alloc: Global,
    spare: &'a Token,
    next: Option<Sign>,
    front: &[Sight<'a>],
) -> Result<bool, NoMemory>
    requires spare { spare.now ≡ spec.stand_in }
    ensures { spec.TellsIf (spec.PatternMatch next (map see front.now)) result }
{
    let subject = is_behind_subject(alloc, spare, front)?;
    let statement = is_behind_statement(alloc, spare, front)?;
    let named_in = is_in(next);
    let arrow = is_arrow(next);
    let case = both(named_in, subject);
    let line = both(arrow, statement);
    let told = either(case, line);
    Ok(told)
}

/// The construct of a refusal behind these tokens, where it isn't too deep.
fn construct_behind<'a>(
    alloc: Global,
    spare: &'a Token,
    next: Option<Sign>,
    front: &[Sight<'a>],
) -> Result<Construct, NoMemory>
    requires spare { spare.now ≡ spec.stand_in }
    ensures { IfOk result (λ c. spec.Names next (map see front.now) c) }
{
    if is_marked(next) {
        return Ok(Construct::AmbiguousArgument);
    }
    if is_keyword_parameter(alloc, spare, next, front)? {
        return Ok(Construct::KeywordParameter);
    }
    if is_pattern_match(alloc, spare, next, front)? {
        return Ok(Construct::PatternMatch);
    }
    Ok(Construct::Syntax)
}

/// Whether a list is read whole.
fn spelled(read: Result<Body, Halt>) -> Result<bool, NoMemory>
    ensures { result ≡ endings.spelled read }
{
    match read {
        Ok(_) => Ok(true),
        Err(Halt::At(_)) => Ok(false),
        Err(Halt::NoMemory) => Err(NoMemory),
    }
}

/// Whether the tokens up to and with the one at an index are a front of a program of any depth; the
/// end token stands behind all.
fn is_too_deep(alloc: Global, sights: &[Sight<'_>], at: usize) -> Result<bool, NoMemory>
    requires within { at ≤ length sights.now }
    ensures { spec.TellsIf (FrontUpTo table whole_file most_levels (map see sights.now) (suc at)) result }
{
    if at < sights.len() {
        is_front(alloc, &sights[..at + 1])
    } else {
        spelled(read_list(alloc, sights, MOST_LEVELS))
    }
}

/// The construct of a refusal at an index.
pub fn construct_at<'a>(
    alloc: Global,
    spare: &'a Token,
    sights: &[Sight<'a>],
    at: usize,
) -> Result<Construct, NoMemory>
    requires spare { spare.now ≡ spec.stand_in }
    requires within { at ≤ length sights.now }
    ensures { IfOk result (λ c. spec.ConstructIs (map see sights.now) at c) }
{
    if is_too_deep(alloc, sights, at)? {
        return Ok(Construct::TooDeep);
    }
    construct_behind(alloc, spare, sign_at(sights, at), &sights[..at])
}
