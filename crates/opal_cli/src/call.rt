// The program, whole.
ghost use Rattle.std.specs.Prelude.{◌≡◌, ◌≢◌, ◌↔◌, ◌⊎◌, ◌≤◌, ℕ, List, [], IfSome, None, Some};
ghost use Rattle.opal_base.specs.Outside.{Rose, FileMap, Missed};
ghost use Rattle.opal_cli.specs.Words as asked;
ghost use Rattle.opal_cli.specs.Words.{asked_by, asked_of, IsBounded};
ghost use Rattle.opal_cli.specs.Ends.{End, status_of, end_of, MissingFile, IsAnswer, IsSilent};
ghost use Rattle.opal_cli.specs.Answers.{Answers, AnswersWith, AnswersAs, AsksForRun, Checks, IsRun, TookAnswerFront, TookJob, Says, SaysCut};
ghost use Rattle.opal_cli.specs.Headline.{Compiles};
ghost use Rattle.opal_cli.specs.Execution.{Executes};
ghost use Rattle.opal_cli.specs.declared.words.Budget.{Budget};

use crate::check::check;
use crate::compile::compile;
use crate::exec::exec;
use crate::laws::one_answer;
use crate::outcome::Outcome;
use crate::report::report;
use crate::run::run;
use crate::status::Status;
use crate::words::{Command, read_words};
use es5_laws::sites_dont_matter;
use es5_tree::bytes_spell_one;
use opal_base::{Files, Sink, Source};
use std::alloc::Global;

/// Does what the words ask for, and tells on err how it ended. It answers for memory, reading and
/// writing where they fail; the status says which.
pub fn opal<F: Files, I: Source, O: Sink, E: Sink>(
    alloc: Global,
    words: &Vec<String>,
    files: &mut F,
    input: &mut I,
    out: &mut O,
    err: &mut E,
) -> Status
    // For every bundle that `compile` accepts, the bytes written are an ES5 script which, for every input, ends on the
    // ECMA-262 machine with an output and an end exactly when Ruby's evaluation ends with the same output and the same
    // end; and while neither ends, each output that one shows after n steps the other shows too.
    ensures headline { (map : FileMap) (file : List ℕ) → F.told files.old ≡ Some map → asked_by words.now.items ≡ Some (asked.Compile file)
        → result ≡ Status.Done → Compiles map file (O.told out.old) (O.told out.new) }

    // Where a file was checked, it loads to a bundle, and out took the line that says so.
    ensures check { (map : FileMap) (file : List ℕ) → F.told files.old ≡ Some map → asked_by words.now.items ≡ Some (asked.Check file)
        → result ≡ Status.Done → Checks map file (O.told out.old) (O.told out.new) }

    // Where a program was executed, Ruby's evaluation on the input shows what out took, and ends so.
    ensures exec { (map : FileMap) (file : List ℕ) (budget : Budget) → F.told files.old ≡ Some map → asked_by words.now.items ≡ Some (asked.Exec file budget)
        → IsRun result → Executes map (I.left input.old) file budget result (O.told out.old) (O.told out.new) }

    // An answer is the one that the words have over the told files, and where no count rose nothing else comes but want of memory.
    ensures answer { (map : FileMap) → F.told files.old ≡ Some map → IsAnswer result → AnswersAs map (I.left input.old) (asked_by words.now.items) result (O.told out.old) (O.told out.new) }
    ensures exact { (map : FileMap) → F.told files.old ≡ Some map
        → (Rose (F.faults files.old) (F.faults files.new) → ⊥) → (Rose (I.faults input.old) (I.faults input.new) → ⊥)
        → (Rose (O.faults out.old) (O.faults out.new) → ⊥) → (Rose (E.faults err.old) (E.faults err.new) → ⊥)
        → result ≢ Status.NoMemory → AnswersAs map (I.left input.old) (asked_by words.now.items) result (O.told out.old) (O.told out.new) }
    // An answer comes exactly where it is the one that the words have over the told files and the told input.
    ensures exactly { (map : FileMap) (bytes : List ℕ) (end : End) (output : List ℕ) → F.told files.old ≡ Some map → I.left input.old ≡ Some bytes → IsAnswer result
        → Answers map (Some bytes) (asked_by words.now.items) end output → result ≡ status_of end }
    ensures usage { IsAnswer result → (result ≡ Status.Usage) ↔ (asked_by words.now.items ≡ None) }
    ensures missing { result ≡ Status.Missing → Rose (F.tally files.old) (F.tally files.new) }
    ensures read { result ≡ Status.ReadFault → Rose (F.faults files.old) (F.faults files.new) ⊎ Rose (I.faults input.old) (I.faults input.new) }
    ensures write { result ≡ Status.WriteFault → Rose (O.faults out.old) (O.faults out.new) ⊎ Rose (E.faults err.old) (E.faults err.new) }

    // What out took.
    ensures silent { IsSilent result → O.told out.new ≡ O.told out.old }
    ensures front { (map : FileMap) → F.told files.old ≡ Some map → TookAnswerFront map (I.left input.old) (asked_by words.now.items) (O.told out.old) (O.told out.new) }

    // What err took.
    ensures line { result ≢ Status.WriteFault → Says (F.told files.old) (I.left input.old) (asked_by words.now.items) (F.missed files.new) (E.told err.old) (E.told err.new) result }
    ensures cut { result ≡ Status.WriteFault → SaysCut (F.told files.old) (I.left input.old) (asked_by words.now.items) (F.missed files.new) (E.told err.old) (E.told err.new) }

    // A run reads the input to its end; nothing else reads it.
    ensures input { IsRun result → AsksForRun (asked_by words.now.items) → IfSome (I.left input.new) (λ rest. rest ≡ []) }
    ensures unread { (AsksForRun (asked_by words.now.items) → ⊥) → I.left input.new ≡ I.left input.old }
    ensures later_files { F.faults files.old ≤ F.faults files.new }
    ensures later_tally { F.tally files.old ≤ F.tally files.new }
    ensures later_input { I.faults input.old ≤ I.faults input.new }
    ensures later_out { O.faults out.old ≤ O.faults out.new }
    ensures later_err { E.faults err.old ≤ E.faults err.new }
{
    bytes_spell_one();
    sites_dont_matter();
    one_answer();
    let outcome = work(alloc, words, files, input, out);
    report(alloc, &outcome, err)
}

// Does what the words ask for, without a word on err.
fn work<'a, F: Files, I: Source, O: Sink>(
    alloc: Global,
    words: &'a Vec<String>,
    files: &mut F,
    input: &mut I,
    out: &mut O,
) -> Outcome<'a>
    ensures done { (map : FileMap) → F.told files.old ≡ Some map → status_of (end_of result) ≡ Status.Done → TookJob map (asked_by words.now.items) (O.told out.old) (O.told out.new) }
    ensures answer { (map : FileMap) → F.told files.old ≡ Some map → IsAnswer (status_of (end_of result)) → AnswersWith map (I.left input.old) (asked_by words.now.items) (end_of result) (O.told out.old) (O.told out.new) }
    ensures usage { IsAnswer (status_of (end_of result)) → (status_of (end_of result) ≡ Status.Usage) ↔ (asked_by words.now.items ≡ None) }
    ensures missing { (name : List ℕ) → end_of result ≡ MissingFile name → Missed (F.tally files.old) (F.tally files.new) (F.missed files.new) name }
    ensures read { status_of (end_of result) ≡ Status.ReadFault → Rose (F.faults files.old) (F.faults files.new) ⊎ Rose (I.faults input.old) (I.faults input.new) }
    ensures write { status_of (end_of result) ≡ Status.WriteFault → Rose (O.faults out.old) (O.faults out.new) }
    ensures silent { IsSilent (status_of (end_of result)) → O.told out.new ≡ O.told out.old }
    ensures front { (map : FileMap) → F.told files.old ≡ Some map → TookAnswerFront map (I.left input.old) (asked_by words.now.items) (O.told out.old) (O.told out.new) }
    ensures input { IsRun (status_of (end_of result)) → AsksForRun (asked_by words.now.items) → IfSome (I.left input.new) (λ rest. rest ≡ []) }
    ensures unread { (AsksForRun (asked_by words.now.items) → ⊥) → I.left input.new ≡ I.left input.old }
    ensures later_files { F.faults files.old ≤ F.faults files.new }
    ensures later_tally { F.tally files.old ≤ F.tally files.new }
    ensures later_input { I.faults input.old ≤ I.faults input.new }
    ensures later_out { O.faults out.old ≤ O.faults out.new }
{
    match read_words(words) {
        Some(command) => perform(alloc, command, files, input, out),
        None => Outcome::Usage,
    }
}

fn perform<'a, F: Files, I: Source, O: Sink>(
    alloc: Global,
    command: Command<'a>,
    files: &mut F,
    input: &mut I,
    out: &mut O,
) -> Outcome<'a>
    requires { IsBounded command }
    ensures done { (map : FileMap) → F.told files.old ≡ Some map → status_of (end_of result) ≡ Status.Done → TookJob map (Some (asked_of command.entry)) (O.told out.old) (O.told out.new) }
    ensures answer { (map : FileMap) → F.told files.old ≡ Some map → IsAnswer (status_of (end_of result)) → AnswersWith map (I.left input.old) (Some (asked_of command.entry)) (end_of result) (O.told out.old) (O.told out.new) }
    ensures not_usage { status_of (end_of result) ≢ Status.Usage }
    ensures missing { (name : List ℕ) → end_of result ≡ MissingFile name → Missed (F.tally files.old) (F.tally files.new) (F.missed files.new) name }
    ensures read { status_of (end_of result) ≡ Status.ReadFault → Rose (F.faults files.old) (F.faults files.new) ⊎ Rose (I.faults input.old) (I.faults input.new) }
    ensures write { status_of (end_of result) ≡ Status.WriteFault → Rose (O.faults out.old) (O.faults out.new) }
    ensures silent { IsSilent (status_of (end_of result)) → O.told out.new ≡ O.told out.old }
    ensures front { (map : FileMap) → F.told files.old ≡ Some map → TookAnswerFront map (I.left input.old) (Some (asked_of command.entry)) (O.told out.old) (O.told out.new) }
    ensures input { IsRun (status_of (end_of result)) → AsksForRun (Some (asked_of command.entry)) → IfSome (I.left input.new) (λ rest. rest ≡ []) }
    ensures unread { (AsksForRun (Some (asked_of command.entry)) → ⊥) → I.left input.new ≡ I.left input.old }
    ensures later_files { F.faults files.old ≤ F.faults files.new }
    ensures later_tally { F.tally files.old ≤ F.tally files.new }
    ensures later_input { I.faults input.old ≤ I.faults input.new }
    ensures later_out { O.faults out.old ≤ O.faults out.new }
{
    match command {
        Command::Compile(file) => compile(alloc, file, files, out),
        Command::Check(file) => check(alloc, file, files, out),
        Command::Run(file, budget) => run(alloc, file, budget, files, input, out),
        Command::Exec(file, budget) => exec(alloc, file, budget, files, input, out),
    }
}
