//! What is done next.

use crate::frame::{Completion, Frame, Handler};
use es5_code::NodeId;
use es5_host::{EsValues, OutKind};
use es5_objects::{EsText, EsValue};
use opal_base::Pos;

/// A node that begins.
#[derive(Clone, Copy, Drop)]
pub enum Begins {
    Evaluate(NodeId),
    Refer(NodeId),
    Execute(NodeId),
    /// The test of a loop, with its body.
    Turn(NodeId, NodeId),
}

/// The errors that the machine throws beside those of intrinsic functions.
#[derive(Clone, Copy, Drop)]
pub enum Fault {
    NoProperties,
    NotWritable,
    NotDeletable,
}

/// What is done with the state.
#[derive(Drop)]
pub enum Act {
    This,
    ReadName(EsText),
    WriteName(EsText, EsValue),
    TypeofName(EsText),
    Typeof(EsValue),
    ReadProperty(EsValue, EsText),
    WriteProperty {
        base: EsValue,
        name: EsText,
        value: EsValue,
        pos: Pos,
    },
    DeleteProperty(EsValue, EsText),
    Raise(Fault),
    MakeArray(EsValues),
    /// The object expression of this number, with its values.
    MakeObject(NodeId, EsValues),
    /// The function expression of this number.
    MakeFunction(NodeId),
    Invoke {
        function: EsValue,
        this: EsValue,
        args: EsValues,
        pos: Pos,
    },
    /// What was thrown is taken.
    Catch {
        handler: Handler,
        value: EsValue,
    },
}

/// The first thing that is done next.
#[derive(Drop)]
pub enum Action {
    Answer(Completion),
    /// The profile is left at a place.
    Leave(OutKind, Pos),
    Begin(Begins),
    /// A node begins, and its end goes to a frame.
    BeginUnder(Begins, Frame),
    Act(Act),
    ActUnder(Act, Frame),
    /// The statements of a list; their end goes to a frame.
    SequenceUnder(NodeId, Frame),
}
