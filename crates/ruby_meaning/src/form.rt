//! What can stand at a place of a Ruby text.

use crate::construct::Construct;
use crate::token::{Mark, Word};

/// A place where a word or an operator is the name of a method.
#[derive(Clone, Copy, Debug, PartialEq, Eq)]
pub enum MethodPlace {
    /// Behind a `.`.
    Call,
    /// Behind `def`, or behind the `.` of its receiver.
    Def,
    /// The first name of an `alias`.
    New,
    /// The second name of an `alias`.
    Old,
    /// A name of an `undef`.
    Undef,
}

/// The brackets of a list of words.
#[derive(Clone, Copy, Debug, PartialEq, Eq)]
pub enum Bracket {
    Round,
    Square,
}

/// A form that stands at a place: a piece that is skipped, or a token.
#[derive(Clone, Copy, Debug, PartialEq, Eq)]
pub enum Form {
    /// The byte order mark.
    Bom,
    Blank,
    Comment,
    /// The lines from `=begin` to `=end`.
    Block,
    /// A newline that ends nothing.
    Joint,
    Newline,
    Name,
    Const,
    Ivar,
    Gvar,
    Label,
    MethodName(MethodPlace),
    /// A constant where the name of a method stands.
    MethodConst(MethodPlace),
    MethodOp(MethodPlace, Mark),
    /// The `=` directly behind the name of a method that sets.
    MethodSet(MethodPlace),
    /// The `.` behind the receiver of a `def`.
    DefDot,
    /// The `,` between the names of an `undef`.
    UndefComma,
    /// The `|` at the start of parameters.
    PipeOpen,
    Keyword(Word),
    Op(Mark),
    Int,
    /// A text in double quotes without embedded parts.
    Text,
    /// A text in single quotes.
    RawText,
    Symbol,
    /// A symbol in double quotes without embedded parts.
    QuotedSymbol,
    TextBegin,
    /// Characters between the parts of a text.
    Chunk,
    PartBegin,
    PartEnd,
    TextEnd,
    /// The opening of `%w`, and how far behind it the closing bracket is.
    WordsBegin(Bracket, u32),
    /// The opening of `%i`, and how far behind it the closing bracket is.
    SymbolsBegin(Bracket, u32),
    ListWord(Bracket),
    /// Blanks and newlines between the words of a list.
    Separator,
    ListEnd(Bracket),
}

/// What a place is among.
#[derive(Clone, Copy, Debug)]
pub enum Mode {
    Code,
    /// The characters of a text.
    Text,
    /// The words of a list, so many units before its closing bracket.
    List(Bracket, u32),
}

/// How the characters of a text are spelled.
#[derive(Clone, Copy, Debug)]
pub enum Spelling {
    Double,
    Single,
    /// In a list of words.
    Word(Bracket),
}

/// The kinds of runs.
#[derive(Clone, Copy, Debug)]
pub enum Class {
    /// Spaces, tabs and backslashes before a newline.
    Blank,
    /// The characters that go on a name.
    Name,
    /// Decimal digits and `_`.
    Digit,
    /// Hexadecimal digits and `_`.
    Hex,
    /// The rest of a line.
    Line,
    /// Lines that don't begin with `=end`.
    Block,
    /// Spaces, tabs and newlines.
    Separator,
    /// The characters of a text, with their escapes.
    Char(Spelling),
}

/// Where a run of the characters of a text in double quotes ends.
#[derive(Clone, Copy, Debug)]
pub enum Ending {
    Quote,
    Part,
    /// At the end of the file.
    Cut,
    Bad,
}

/// What the front of a text is at a place.
#[derive(Clone, Copy, Debug, PartialEq, Eq)]
pub enum Stand {
    /// A form, and how many units it has.
    Form(Form, usize),
    /// A refusal, so many units on.
    Refused(Construct, usize),
    /// A text without end begins here.
    Endless,
    /// The file is over inside a text.
    Cut,
    /// The text is over.
    End,
}

/// What the text before a place says of it.
#[derive(Clone, Copy, Debug)]
pub struct Place {
    /// The last token, a newline at the start.
    pub last: Form,
    /// A blank stands directly before.
    pub blank: bool,
    pub mode: Mode,
    /// A `}` ends an embedded part here.
    pub closes: bool,
    /// A line starts here.
    pub line_start: bool,
    /// The text starts here.
    pub text_start: bool,
}

/// What a stack of open texts holds.
#[derive(Clone, Copy, Debug)]
pub enum Opener {
    Text,
    /// A `{` in an embedded part.
    Brace,
}

/// What a word or a global variable is that isn't taken for a name.
#[derive(Clone, Copy, Debug)]
pub enum Reserved {
    Keyword(Word),
    Refused(Construct),
}
