//! What is pending, and how it goes on until a node begins.

ghost use Rattle.std.specs.Prelude.{◌≡◌, ◌≤◌, ◌∷◌, List, IfErr, IfOk, OnOk};
ghost use Rattle.es5_code.specs.declared.node.Node.{Node};
ghost use Rattle.es5_pending.specs.Meaning.{completion_of, rest, resume, scope_behind};
ghost use Rattle.es5_store.specs.Store.{Sound};
ghost use Rattle.es5_store.specs.Steps.{HaltCaused};
ghost use Rattle.es5_execution.specs.Progress.{Performed, Settled, WentOn, acting, beginning, behind, doing, next_task, resumed_task};
ghost use Rattle.es5_execution.specs.Scopes.{scope_of};

use crate::act::act;
use crate::scope::Scope;
use es5_code::{NodeId, NodeTable};
use es5_host::OutKind;
use es5_objects::EsValue;
use es5_pending::{
    Act, Action, Begins, Completion, Frame, ScopeFrame, Stack, StatementFrame, after, evaluate,
    execute, refer, sequence,
};
use es5_store::{Effect, Halt, Store};
use opal_base::{NoMemory, Pos, Sink};
use std::alloc::Global;

/// What is left to do behind an action.
#[derive(Drop)]
pub enum Next {
    Action(Action),
    Begins(Begins),
    Ended(Completion),
    Left(OutKind, Pos),
}

/// What is left to do where nothing goes on without a node that begins.
#[derive(Drop)]
pub enum Rest {
    Begins(Begins),
    /// Nothing is pending any more.
    Ended(Completion),
    Left(OutKind, Pos),
}

/// The frames that wait, and the scope of the newest one.
#[derive(Drop)]
pub struct Pending {
    pub stack: Stack,
    pub scope: Scope,
}

/// What is left to do behind a frame.
#[derive(Drop)]
pub enum Resumed {
    Action(Action),
    /// No frame was left.
    Finished(Completion),
}

/// What is left to do behind an action and the frame that took its completion.
#[derive(Drop)]
pub enum Turned {
    Action(Action),
    Rest(Rest),
}

impl Pending {
    // Puts a frame of the same scope on top.
    fn push(&mut self, frame: Frame) -> Result<(), NoMemory>
        ensures ok { OnOk result (self.new.stack ≡ frame ∷ self.old.stack) }
        ensures same { OnOk result (scope_behind (scope_of self.old.scope) frame ≡ scope_of self.old.scope) }
        ensures scope { self.new.scope ≡ self.old.scope }
    {
        if let Frame::Scope(_) = frame {
            return Err(NoMemory);
        }
        self.stack.push(frame)
    }

    // The body of a function begins, in its own scope (13.2.1).
    fn enter_body(
        &mut self,
        table: &NodeTable,
        body: NodeId,
        this: EsValue,
        innermost: usize,
    ) -> Result<Action, NoMemory>
        ensures { IfOk result (λ a. behind table.now.nodes (scope_of self.old.scope) (Effect.Called body this innermost) self.old.stack ≡ doing table.now.nodes (scope_of self.new.scope) a self.new.stack) }
    {
        let outside = ScopeFrame::Body {
            this: self.scope.this.share()?,
            innermost: self.scope.innermost,
        };
        self.stack.push(Frame::Scope(outside))?;
        self.scope = Scope { this, innermost };
        Ok(sequence(table, body, 0))
    }

    // The part of a `try` that takes what was thrown begins, in a record of its own (12.14).
    fn enter_handler(
        &mut self,
        table: &NodeTable,
        body: NodeId,
        innermost: usize,
    ) -> Result<Action, NoMemory>
        ensures { IfOk result (λ a. behind table.now.nodes (scope_of self.old.scope) (Effect.Caught body innermost) self.old.stack ≡ doing table.now.nodes (scope_of self.new.scope) a self.new.stack) }
    {
        let outside = ScopeFrame::Handler {
            this: self.scope.this.share()?,
            innermost: self.scope.innermost,
        };
        self.stack.push(Frame::Scope(outside))?;
        self.scope.innermost = innermost;
        Ok(sequence(table, body, 0))
    }

    #[tactic(auto, using(es5_evaluation::proofs::Tasks::done_then, es5_evaluation::proofs::Tasks::leaves_then))]
    // What is left to do of an effect.
    fn go_on(&mut self, table: &NodeTable, effect: Effect) -> Result<Next, NoMemory>
        ensures { IfOk result (λ n. behind table.now.nodes (scope_of self.old.scope) effect self.old.stack ≡ next_task table.now.nodes (scope_of self.new.scope) self.new.stack n) }
    {
        match effect {
            Effect::Ended(completion) => Ok(Next::Ended(completion)),
            Effect::Left(kind, pos) => Ok(Next::Left(kind, pos)),
            Effect::Called {
                body,
                this,
                innermost,
            } => match self.enter_body(table, body, this, innermost) {
                Ok(action) => Ok(Next::Action(action)),
                Err(_) => Err(NoMemory),
            },
            Effect::Caught { body, innermost } => {
                match self.enter_handler(table, body, innermost) {
                    Ok(action) => Ok(Next::Action(action)),
                    Err(_) => Err(NoMemory),
                }
            }
        }
    }

    // Does an act.
    fn perform_act<S: Sink>(
        &mut self,
        alloc: Global,
        table: &NodeTable,
        store: &mut Store,
        what: Act,
        sink: &mut S,
    ) -> Result<Next, Halt>
        requires sound { Sound store.old }
        ensures sound { OnOk result (Sound store.new) }
        ensures limit { OnOk result (store.new.limit ≡ store.old.limit) }
        ensures does { Performed result table.now.nodes (acting table.now.nodes (scope_of self.old.scope) what self.old.stack) store.old (scope_of self.new.scope) self.new.stack store.new (S.told sink.old) (S.told sink.new) }
        ensures later { S.faults sink.old ≤ S.faults sink.new }
        ensures cause { IfErr result (λ h. HaltCaused h (S.faults sink.old) (S.faults sink.new)) }
    {
        match act(alloc, table, store, &self.scope, what, sink) {
            Ok(effect) => match self.go_on(table, effect) {
                Ok(next) => Ok(next),
                Err(_) => Err(Halt::NoMemory),
            },
            Err(halt) => Err(halt),
        }
    }

    // Does the first thing of an action.
    fn perform<S: Sink>(
        &mut self,
        alloc: Global,
        table: &NodeTable,
        store: &mut Store,
        action: Action,
        sink: &mut S,
    ) -> Result<Next, Halt>
        requires sound { Sound store.old }
        ensures sound { OnOk result (Sound store.new) }
        ensures limit { OnOk result (store.new.limit ≡ store.old.limit) }
        ensures does { Performed result table.now.nodes (doing table.now.nodes (scope_of self.old.scope) action self.old.stack) store.old (scope_of self.new.scope) self.new.stack store.new (S.told sink.old) (S.told sink.new) }
        ensures later { S.faults sink.old ≤ S.faults sink.new }
        ensures cause { IfErr result (λ h. HaltCaused h (S.faults sink.old) (S.faults sink.new)) }
    {
        match action {
            Action::Answer(completion) => Ok(Next::Ended(completion)),
            Action::Leave(kind, pos) => Ok(Next::Left(kind, pos)),
            Action::Begin(begins) => Ok(Next::Begins(begins)),
            Action::BeginUnder(begins, frame) => match self.push(frame) {
                Ok(()) => Ok(Next::Begins(begins)),
                Err(_) => Err(Halt::NoMemory),
            },
            Action::Act(what) => self.perform_act(alloc, table, store, what, sink),
            Action::ActUnder(what, frame) => match self.push(frame) {
                Ok(()) => self.perform_act(alloc, table, store, what, sink),
                Err(_) => Err(Halt::NoMemory),
            },
            Action::SequenceUnder(list, frame) => match self.push(frame) {
                Ok(()) => Ok(Next::Action(sequence(table, list, 0))),
                Err(_) => Err(Halt::NoMemory),
            },
        }
    }

    #[tactic(auto, unfolding(es5_pending::specs::Meaning::resume))]
    // Leaves the scope of a frame, where it is the end of one.
    fn leave(&mut self, frame: Frame) -> Frame
        ensures scope { scope_of self.new.scope ≡ scope_behind (scope_of self.old.scope) frame }
        ensures same { (T : List Node) → resume T (scope_of self.old.scope) frame ≡ resume T (scope_of self.new.scope) result }
        ensures stack { self.new.stack ≡ self.old.stack }
    {
        match frame {
            Frame::Scope(ScopeFrame::Body { this, innermost }) => {
                self.scope = Scope { this, innermost };
                Frame::Scope(ScopeFrame::Body {
                    this: EsValue::Undefined,
                    innermost,
                })
            }
            Frame::Scope(ScopeFrame::Handler { this, innermost }) => {
                self.scope = Scope { this, innermost };
                Frame::Scope(ScopeFrame::Handler {
                    this: EsValue::Undefined,
                    innermost,
                })
            }
            frame => frame,
        }
    }

    // Hands a completion to the newest frame.
    fn resume(
        &mut self,
        alloc: Global,
        table: &NodeTable,
        completion: Completion,
    ) -> Result<Resumed, NoMemory>
        ensures { IfOk result (λ r. rest table.now.nodes (scope_of self.old.scope) self.old.stack (completion_of completion) ≡ resumed_task table.now.nodes (scope_of self.new.scope) self.new.stack r) }
    {
        match self.stack.pop() {
            None => Ok(Resumed::Finished(completion)),
            Some(frame) => {
                let frame = self.leave(frame);
                match after(alloc, table, frame, completion) {
                    Ok(action) => Ok(Resumed::Action(action)),
                    Err(_) => Err(NoMemory),
                }
            }
        }
    }

    // The first action of a node that begins.
    fn open(&mut self, alloc: Global, table: &NodeTable, begins: Begins) -> Result<Action, NoMemory>
        ensures { IfOk result (λ a. beginning table.now.nodes (scope_of self.old.scope) begins self.old.stack ≡ doing table.now.nodes (scope_of self.new.scope) a self.new.stack) }
    {
        match begins {
            Begins::Evaluate(i) => evaluate(alloc, table, i),
            Begins::Refer(i) => refer(alloc, table, i),
            Begins::Execute(i) => execute(table, i),
            Begins::Turn(i, body) => {
                self.push(Frame::Statement(StatementFrame::Test(i, body)))?;
                evaluate(alloc, table, i)
            }
        }
    }

    // Does the first thing of an action, and hands its completion to the newest frame.
    fn turn<S: Sink>(
        &mut self,
        alloc: Global,
        table: &NodeTable,
        store: &mut Store,
        action: Action,
        sink: &mut S,
    ) -> Result<Turned, Halt>
        requires sound { Sound store.old }
        ensures sound { OnOk result (Sound store.new) }
        ensures limit { OnOk result (store.new.limit ≡ store.old.limit) }
        ensures does { WentOn result table.now.nodes (doing table.now.nodes (scope_of self.old.scope) action self.old.stack) store.old (scope_of self.new.scope) self.new.stack store.new (S.told sink.old) (S.told sink.new) }
        ensures later { S.faults sink.old ≤ S.faults sink.new }
        ensures cause { IfErr result (λ h. HaltCaused h (S.faults sink.old) (S.faults sink.new)) }
    {
        match self.perform(alloc, table, store, action, sink) {
            Ok(Next::Action(next)) => Ok(Turned::Action(next)),
            Ok(Next::Begins(begins)) => Ok(Turned::Rest(Rest::Begins(begins))),
            Ok(Next::Left(kind, pos)) => Ok(Turned::Rest(Rest::Left(kind, pos))),
            Ok(Next::Ended(completion)) => match self.resume(alloc, table, completion) {
                Ok(Resumed::Action(next)) => Ok(Turned::Action(next)),
                Ok(Resumed::Finished(completion)) => Ok(Turned::Rest(Rest::Ended(completion))),
                Err(_) => Err(Halt::NoMemory),
            },
            Err(halt) => Err(halt),
        }
    }

    // Does an action and what follows it, until a node would begin or nothing is pending any more.
    fn settle<S: Sink>(
        &mut self,
        alloc: Global,
        table: &NodeTable,
        store: &mut Store,
        first: Action,
        sink: &mut S,
    ) -> Result<Rest, Halt>
        requires sound { Sound store.old }
        ensures sound { OnOk result (Sound store.new) }
        ensures limit { OnOk result (store.new.limit ≡ store.old.limit) }
        ensures does { Settled result table.now.nodes (doing table.now.nodes (scope_of self.old.scope) first self.old.stack) store.old (scope_of self.new.scope) self.new.stack store.new (S.told sink.old) (S.told sink.new) }
        ensures later { S.faults sink.old ≤ S.faults sink.new }
        ensures cause { IfErr result (λ h. HaltCaused h (S.faults sink.old) (S.faults sink.new)) }
    {
        let mut action = first;
        for _ in 0..u64::MAX {
            match self.turn(alloc, table, store, action, sink) {
                Ok(Turned::Action(next)) => action = next,
                Ok(Turned::Rest(rest)) => return Ok(rest),
                Err(halt) => return Err(halt),
            }
        }
        Err(Halt::NoMemory)
    }

    /// One step: a node begins, and all is done up to the next one.
    pub fn begin<S: Sink>(
        &mut self,
        alloc: Global,
        table: &NodeTable,
        store: &mut Store,
        begins: Begins,
        sink: &mut S,
    ) -> Result<Rest, Halt>
        requires sound { Sound store.old }
        ensures sound { OnOk result (Sound store.new) }
        ensures limit { OnOk result (store.new.limit ≡ store.old.limit) }
        ensures does { Settled result table.now.nodes (beginning table.now.nodes (scope_of self.old.scope) begins self.old.stack) store.old (scope_of self.new.scope) self.new.stack store.new (S.told sink.old) (S.told sink.new) }
        ensures later { S.faults sink.old ≤ S.faults sink.new }
        ensures cause { IfErr result (λ h. HaltCaused h (S.faults sink.old) (S.faults sink.new)) }
    {
        match self.open(alloc, table, begins) {
            Ok(action) => self.settle(alloc, table, store, action, sink),
            Err(_) => Err(Halt::NoMemory),
        }
    }
}
