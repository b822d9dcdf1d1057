ghost use Rattle.std.specs.Prelude.{◌≡◌, ◌≤◌, IfSome, map, string_bytes};
ghost use Rattle.std.specs.Option.{option_map, option_and_then};
ghost use Rattle.opal_cli.specs.Words as words_of;
ghost use Rattle.opal_cli.specs.Words.{asked_by, asked_of, IsBounded};

const MOST_STEPS: u64 = 1_000_000_000;

const LEAST_CELLS: u64 = 1_000;

const MOST_CELLS: u64 = 16_777_216;

/// How far a script may run: the steps that it may begin, and the cells that it may make.
#[derive(Clone, Copy, Debug, PartialEq, Eq)]
pub struct Budget {
    pub steps: u64,
    pub cells: u32,
}

/// What the words ask for.
#[derive(Clone, Copy)]
pub enum Command<'a> {
    Compile(&'a str),
    Check(&'a str),
    Run(&'a str, Budget),
    Exec(&'a str, Budget),
}

/// What the words ask for, or none where they have no reading. It takes no memory.
pub fn read_words(words: &Vec<String>) -> Option<Command<'_>>
    ensures is { option_map asked_of result ≡ asked_by words.now.items }
    ensures bounded { IfSome result IsBounded }
{
    match words.as_slice() {
        [verb, file, options @ ..] => {
            if is_file_name(file.as_str()) {
                command_of(verb.as_str(), file.as_str(), options)
            } else {
                None
            }
        }
        _ => None,
    }
}

fn command_of<'a>(verb: &str, file: &'a str, options: &[String]) -> Option<Command<'a>>
    ensures is { option_map asked_of result ≡ words_of.command_of verb.now file.now (map string_bytes options.now) }
    ensures bounded { IfSome result IsBounded }
{
    if verb == "compile" {
        alone(Command::Compile(file), options)
    } else if verb == "check" {
        alone(Command::Check(file), options)
    } else if verb == "run" {
        Some(Command::Run(file, budget_of(options)?))
    } else if verb == "exec" {
        Some(Command::Exec(file, budget_of(options)?))
    } else {
        None
    }
}

// A command behind whose file nothing stands.
fn alone<'a>(command: Command<'a>, options: &[String]) -> Option<Command<'a>>
    requires { IsBounded command }
    ensures is { option_map asked_of result ≡ words_of.alone (asked_of command.entry) (map string_bytes options.now) }
    ensures bounded { IfSome result IsBounded }
{
    match options {
        [] => Some(command),
        _ => None,
    }
}

// A file's name isn't empty and doesn't begin with `-`.
fn is_file_name(name: &str) -> bool
    ensures { result ≡ words_of.is_file_name name.now }
{
    match name.as_bytes() {
        [] => false,
        [first, ..] => *first != b'-',
    }
}

// Each option stands at most once, in either order.
fn budget_of(options: &[String]) -> Option<Budget>
    ensures is { result ≡ words_of.budget_of (map string_bytes options.now) }
    ensures bounded { IfSome result (λ budget. budget.steps ≤ 1000000000) }
{
    let usual = Budget {
        steps: 20_000_000,
        cells: 4_000_000,
    };
    match options {
        [] => Some(usual),
        [name, value, more @ ..] => {
            let budget = usual.with_option(name.as_str(), value.as_str())?;
            budget.with_second(name.as_str(), more)
        }
        _ => None,
    }
}

impl Budget {
    // A second option isn't the first one again.
    fn with_second(self, first: &str, options: &[String]) -> Option<Budget>
        requires { self.steps ≤ 1000000000 }
        ensures is { result ≡ words_of.with_second first.now self (map string_bytes options.now) }
        ensures bounded { IfSome result (λ budget. budget.steps ≤ 1000000000) }
    {
        match options {
            [] => Some(self),
            [name, value] => {
                if first == name.as_str() {
                    None
                } else {
                    self.with_option(name.as_str(), value.as_str())
                }
            }
            _ => None,
        }
    }

    fn with_option(self, name: &str, value: &str) -> Option<Budget>
        requires { self.steps ≤ 1000000000 }
        ensures is { result ≡ words_of.with_option self name.now value.now }
        ensures bounded { IfSome result (λ budget. budget.steps ≤ 1000000000) }
    {
        match name {
            "--steps" => Some(Budget {
                steps: number_within(0, MOST_STEPS, value)?,
                ..self
            }),
            "--cells" => Some(Budget {
                cells: number_within(LEAST_CELLS, MOST_CELLS, value)? as u32,
                ..self
            }),
            _ => None,
        }
    }
}

// A number within bounds: decimal, without a leading zero.
fn number_within(least: u64, most: u64, word: &str) -> Option<u64>
    requires { most ≤ 1000000000 }
    ensures is { result ≡ words_of.number_within least most word.now }
    ensures bounded { IfSome result (λ n. n ≤ most) }
{
    match word.as_bytes() {
        [] | [b'0', _, ..] => None,
        digits => value_within(least, most, digits),
    }
}

fn value_within(least: u64, most: u64, digits: &[u8]) -> Option<u64>
    requires { most ≤ 1000000000 }
    ensures is { result ≡ option_and_then (words_of.within least most) (words_of.number_from 0 digits.now) }
    ensures bounded { IfSome result (λ n. n ≤ most) }
{
    let mut value = 0;
    let mut rest = digits;
    'digits: while let [digit, more @ ..] = rest {
        if !is_digit(*digit) {
            return None;
        }
        value = value * 10 + (*digit - b'0') as u64;
        if value > most {
            return None;
        }
        rest = more;
    }
    if value < least { None } else { Some(value) }
}

fn is_digit(byte: u8) -> bool
    ensures { result ≡ words_of.is_digit byte }
{
    b'0' <= byte && byte <= b'9'
}
