//! Laws, each the contract of a function that does nothing.

ghost use Rattle.es5_executor.specs.Floors.{FloorFacts};
ghost use Rattle.es5_executor.specs.Bridge.{CallAnswers, CallThrows};
ghost use Rattle.es5_executor.specs.Catching.{CatchAnswers, CatchLands, CatchThrows};
ghost use Rattle.es5_executor.specs.Define.{DefineWrites, Defines};
ghost use Rattle.es5_executor.specs.Hosting.{Applies, Lists, Pushes, Writes};
ghost use Rattle.es5_executor.specs.Linking.{CallOfNull, Links, ReadThrows};
ghost use Rattle.es5_executor.specs.Making.{Makes, Stubs};
ghost use Rattle.es5_executor.specs.Owning.{Deletes, Owns, OwnsNot, VariableMisses, VariableReads};
ghost use Rattle.es5_executor.specs.Runs.{Sequence};
ghost use Rattle.es5_executor.specs.Seen.{TwoAndThree};
ghost use Rattle.es5_executor.specs.Starting.{ObjectAtStart, TestAtStart};
ghost use Rattle.es5_executor.specs.Trying.{Catches, Lasts};
ghost use Rattle.es5_executor.specs.Sums.{AddLeaves, AddThrows, Adds, DivExact, DivMoved, DivPlain, MakesError};
ghost use Rattle.es5_executor.specs.Texts.{JoinLeaves, Joins, UnitReads};
ghost use Rattle.es5_executor.specs.Walking.{Among, ItemMisses, ItemReads};

/// One run after another takes the units of both.
pub fn sequence()
    ensures { Sequence }
{}

/// The sum: within the range, outside it, and of what is no number.
pub fn sum_runs()
    ensures adds { Adds }
    ensures leaves { AddLeaves }
    ensures makes_error { MakesError }
    ensures throws { AddThrows }
    ensures two_and_three { TwoAndThree }
{}

/// Division by the rest of `%`, by its three paths.
pub fn quotient_runs()
    ensures exact { DivExact }
    ensures plain { DivPlain }
    ensures moved { DivMoved }
{}

/// A method is written into each link of a module, and nothing else is changed.
pub fn define_runs()
    ensures runs { Defines }
    ensures writes { DefineWrites }
{}

/// A heap value is made, and a stub calls what is found.
pub fn make_runs()
    ensures made { Makes }
    ensures stubs { Stubs }
{}

/// A last part runs behind a throw, and what was thrown is taken.
pub fn try_runs()
    ensures lasts { Lasts }
    ensures catches { Catches }
{}

/// A call of a function of the runtime from code in a record.
pub fn call_runs()
    ensures answers { CallAnswers }
    ensures throws { CallThrows }
{}

/// A look-up of an own property, by `call` of an intrinsic function.
pub fn lookup_runs()
    ensures owns { Owns }
    ensures owns_not { OwnsNot }
{}

/// A property is deleted, and then absent along the links.
pub fn delete_runs()
    ensures { Deletes }
{}

/// A property along the links is read, or absent.
pub fn variable_runs()
    ensures reads { VariableReads }
    ensures misses { VariableMisses }
{}

/// Sums and methods of texts.
pub fn text_runs()
    ensures joins { Joins }
    ensures leaves { JoinLeaves }
    ensures unit { UnitReads }
{}

/// A new object gets its link and a property.
pub fn link_runs()
    ensures { Links }
{}

/// Errors of the machine are thrown.
pub fn error_runs()
    ensures read { ReadThrows }
    ensures call { CallOfNull }
{}

/// The host is called, in these states.
pub fn write_runs()
    ensures { Writes }
{}

/// A function of the script is called with the values of a list.
pub fn apply_runs()
    ensures { Applies }
{}

/// A value is put at the end of an array, and the names of an object are listed.
pub fn list_runs()
    ensures pushes { Pushes }
    ensures lists { Lists }
{}

/// A walk along links until one of a module is found: a loop out of which `return` jumps.
pub fn walk_runs()
    ensures { Among }
{}

/// An item of a list, and one past its end.
pub fn item_runs()
    ensures reads { ItemReads }
    ensures misses { ItemMisses }
{}

/// A function is called with a token: it answers, jumps to the token, or throws something else.
pub fn catch_runs()
    ensures answers { CatchAnswers }
    ensures lands { CatchLands }
    ensures throws { CatchThrows }
{}

/// What the models take of the intrinsic functions stands there before a script begins that declares no variables of their names.
pub fn start_stands()
    ensures test { TestAtStart }
    ensures object { ObjectAtStart }
{}

/// Floor division of two numbers within the range stays within it at each step.
pub fn floor_facts()
    ensures { FloorFacts }
{}
