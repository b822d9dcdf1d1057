ghost use Rattle.std.specs.Prelude.{◌≡◌, ◌+◌, ◌≤◌, IfOk, IfSome, None};
ghost use Rattle.es5_machine.specs.Run.{Caused, HasRun, IsAgain, Keeps, Tells, started};

use crate::end::RunEnd;
use crate::ending::{again, end_of, end_of_halt, keep, node_in};
use crate::start::{first_rest, first_store};
use es5_code::{NodeTable, number};
use es5_execution::{Pending, Rest};
use es5_store::Store;
use es5_tree::Script;
use opal_base::{NoMemory, Sink, Units};
use std::alloc::Global;
use std::marker::Model;

/// A machine that runs a script step by step. A step is the beginning of the evaluation of one
/// statement or expression (ECMA-262 5.1, sections 11 and 12), or of the test of a loop; a cell is an
/// object or an activation record that the script makes.
#[derive(Drop)]
pub struct Machine {
    table: NodeTable,
    input: Units,
    cells: u32,
    steps: u64,
    store: Store,
    pending: Pending,
    next: Rest,
    ended: Option<RunEnd>,
    alloc: Global,
}

impl Model for Machine {
    ghost use Rattle.es5_execution.specs.Scopes.{scope_of};
    ghost use Rattle.es5_machine.specs.Run.{Ran};
    ghost use Rattle.es5_tree.specs.contracts.tree.EsKind as kind;
    ghost use Rattle.es5_tree.specs.contracts.tree.EsStmt as stmt;
    ghost use Rattle.std.specs.Coded.{codes};
    ghost use Rattle.es5_machine.specs.Progress.{HoldsUnless, script_in};

    ghost Value = { Ran };

    ghost coded = { Prim.hlevel (codes, stmt.the_row.coded, kind.the_row.coded) };

    ghost view = { λ m. record { script = script_in m.table; input = m.input; cells = m.cells; steps = m.steps; ended = m.ended } };

    ghost invariant = { λ m. HoldsUnless m.ended m.table m.input m.cells m.steps m.store (scope_of m.pending.scope) m.pending.stack m.next };
}

impl Machine {
    /// A machine before the first step of the script, which may make so many cells. They are
    /// reserved here.
    pub fn start(
        alloc: Global,
        script: Script,
        input: Units,
        cells: u32,
    ) -> Result<Machine, NoMemory>
        ensures { IfOk result (λ machine. machine ≡ started script input cells) }
    {
        let table = number(alloc, script)?;
        let lines = input.try_clone()?;
        let store = first_store(alloc, &table, lines, cells)?;
        let (pending, next) = first_rest(alloc, &table)?;
        Ok(Machine {
            table,
            input,
            cells,
            steps: 0,
            store,
            pending,
            next,
            ended: None,
            alloc,
        })
    }

    /// The number of steps begun so far.
    pub fn steps_begun(&self) -> u64
        ensures { result ≡ self.now.steps }
    {
        self.steps
    }

    /// Takes at most so many steps more. What the script writes goes to the sink in UTF-8. After any
    /// end but `OutOfSteps` each later call does nothing and answers that end again, or `NoMemory`
    /// where its texts can't be copied.
    pub fn run<S: Sink>(&mut self, steps: u64, sink: &mut S) -> RunEnd
        requires room { self.old.steps + steps ≤ u64.MAX }
        ensures begun { (self.old.steps ≤ self.new.steps) × (self.new.steps ≤ self.old.steps + steps) }
        ensures same { HasRun self.old self.new }
        ensures says { self.old.ended ≡ None → Tells result self.new self.old.steps (S.told sink.old) (S.told sink.new) }
        ensures keeps { self.old.ended ≡ None → Keeps result self.new (self.old.steps + steps) }
        ensures stays { IfSome self.old.ended (λ last. IsAgain last result × (self.new ≡ self.old) × (sink.new ≡ sink.old)) }
        ensures later { S.faults sink.old ≤ S.faults sink.new }
        ensures cause { self.old.ended ≡ None → Caused result (S.faults sink.old) (S.faults sink.new) }
    {
        if let Some(last) = &self.ended {
            return again(last);
        }
        for _ in 0..steps {
            let begins = match node_in(&self.next) {
                Some(begins) => begins,
                None => {
                    let end = end_of(self.alloc, &self.next, &self.store.heap);
                    return keep(&mut self.ended, end);
                }
            };
            self.steps += 1;
            match self
                .pending
                .begin(self.alloc, &self.table, &mut self.store, begins, sink)
            {
                Ok(next) => self.next = next,
                Err(halt) => return keep(&mut self.ended, end_of_halt(halt)),
            }
        }
        match node_in(&self.next) {
            Some(_) => RunEnd::OutOfSteps,
            None => {
                let end = end_of(self.alloc, &self.next, &self.store.heap);
                keep(&mut self.ended, end)
            }
        }
    }
}
