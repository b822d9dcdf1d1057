//! What the last token says of a place.

ghost use Rattle.std.specs.Prelude.{◌≡◌};
ghost use Rattle.ruby_meaning.specs.Lexing.Before as spec;

use ruby_meaning::{Form, Mark, MethodPlace, Place, Word};

/// Where the name of a method comes, and which.
#[tactic(auto, unfolding(ruby_meaning::specs::Lexing::Before::method_place))]
pub fn method_place(last: Form) -> Option<MethodPlace>
    ensures { result ≡ spec.method_place last }
{
    match last {
        Form::Op(Mark::Dot) => Some(MethodPlace::Call),
        Form::DefDot | Form::Keyword(Word::Def) => Some(MethodPlace::Def),
        Form::Keyword(Word::Alias) => Some(MethodPlace::New),
        Form::MethodName(MethodPlace::New)
        | Form::MethodConst(MethodPlace::New)
        | Form::MethodOp(MethodPlace::New, _)
        | Form::MethodSet(MethodPlace::New) => Some(MethodPlace::Old),
        Form::Keyword(Word::Undef) | Form::UndefComma => Some(MethodPlace::Undef),
        _ => None,
    }
}

#[tactic(auto, unfolding(ruby_meaning::specs::Lexing::Before::wants_name))]
fn wants_name(last: Form) -> bool
    ensures { result ≡ spec.wants_name last }
{
    method_place(last).is_some()
}

fn is_closing(mark: Mark) -> bool
    ensures { result ≡ spec.is_closing mark }
{
    matches!(
        mark,
        Mark::ParenClose | Mark::BracketClose | Mark::BraceClose
    )
}

fn ends_value(word: Word) -> bool
    ensures { result ≡ spec.ends_value word }
{
    matches!(
        word,
        Word::End | Word::Self_ | Word::True | Word::False | Word::Nil | Word::Yield | Word::Super
    )
}

#[tactic(auto, unfolding(ruby_meaning::specs::Lexing::Before::begins_value))]
fn begins_value(last: Form) -> bool
    ensures { result ≡ spec.begins_value last }
{
    match last {
        Form::Newline
        | Form::PartBegin
        | Form::Label
        | Form::PipeOpen
        | Form::MethodOp(_, _)
        | Form::MethodSet(_) => true,
        Form::Op(mark) => !is_closing(mark),
        Form::Keyword(word) => !ends_value(word),
        _ => false,
    }
}

/// Whether a literal begins rather than an operator.
#[tactic(auto, unfolding(ruby_meaning::specs::Lexing::Before::wants_value))]
pub fn wants_value(last: Form) -> bool
    ensures { result ≡ spec.wants_value last }
{
    begins_value(last) && !wants_name(last)
}

fn is_joint_mark(mark: Mark) -> bool
    ensures { result ≡ spec.is_joint_mark mark }
{
    !matches!(
        mark,
        Mark::ParenClose | Mark::BracketClose | Mark::BraceClose | Mark::Semicolon | Mark::Pipe
    )
}

/// Whether a newline ends nothing.
#[tactic(auto, unfolding(ruby_meaning::specs::Lexing::Before::joins))]
pub fn joins(last: Form) -> bool
    ensures { result ≡ spec.joins last }
{
    match last {
        Form::Op(mark) => is_joint_mark(mark),
        Form::DefDot | Form::UndefComma | Form::PipeOpen => true,
        _ => false,
    }
}

fn is_label_mark(mark: Mark) -> bool
    ensures { result ≡ spec.is_label_mark mark }
{
    matches!(
        mark,
        Mark::ParenOpen | Mark::BracketOpen | Mark::BraceOpen | Mark::Pipe | Mark::Comma
    )
}

fn is_label_word(word: Word) -> bool
    ensures { result ≡ spec.is_label_word word }
{
    matches!(
        word,
        Word::Super | Word::Yield | Word::Return | Word::Break | Word::Next
    )
}

/// Whether a label may stand.
#[tactic(auto, unfolding(ruby_meaning::specs::Lexing::Before::allows_label))]
pub fn allows_label(last: Form) -> bool
    ensures { result ≡ spec.allows_label last }
{
    match last {
        Form::Name | Form::MethodName(_) | Form::PipeOpen | Form::UndefComma => true,
        Form::Op(mark) => is_label_mark(mark),
        Form::Keyword(word) => is_label_word(word),
        _ => false,
    }
}

fn is_def(place: MethodPlace) -> bool
    ensures { result ≡ spec.is_def place }
{
    matches!(place, MethodPlace::Def)
}

#[tactic(auto, unfolding(ruby_meaning::specs::Lexing::Before::is_name))]
fn is_name(last: Form) -> bool
    ensures { result ≡ spec.is_name last }
{
    matches!(
        last,
        Form::Name | Form::MethodName(_) | Form::Keyword(Word::Yield | Word::Super)
    )
}

/// Whether the last token is one that a token can follow as its argument.
#[tactic(auto, unfolding(ruby_meaning::specs::Lexing::Before::takes_argument))]
pub fn takes_argument(last: Form) -> bool
    ensures { result ≡ spec.takes_argument last }
{
    match last {
        Form::MethodName(place) => !is_def(place),
        _ => is_name(last),
    }
}

/// Whether the last token is a constant that a token can follow.
#[tactic(auto, unfolding(ruby_meaning::specs::Lexing::Before::is_constant))]
pub fn is_constant(last: Form) -> bool
    ensures { result ≡ spec.is_constant last }
{
    match last {
        Form::Const => true,
        Form::MethodConst(place) => !is_def(place),
        _ => false,
    }
}

/// Whether a symbol may begin.
#[tactic(auto, unfolding(ruby_meaning::specs::Lexing::Before::begins_symbol))]
pub fn begins_symbol(place: Place) -> bool
    ensures { result ≡ spec.begins_symbol place }
{
    let value = begins_value(place.last);
    let name = is_name(place.last);
    !wants_name(place.last) && (value || (place.blank && name))
}

/// Whether a list of words may begin.
#[tactic(auto, unfolding(ruby_meaning::specs::Lexing::Before::begins_list))]
pub fn begins_list(place: Place) -> bool
    ensures { result ≡ spec.begins_list place }
{
    wants_value(place.last) || (place.blank && takes_argument(place.last))
}
