//! What a receiver does with a selector.

ghost use Rattle.std.specs.Prelude.{◌≡◌, ◌≤◌, ℕ, List, length, IfOk, All};
ghost use Rattle.std.specs.Option.{option_map};
ghost use Rattle.pz_classes_code.specs.pz_syntax.Classes.{ModelTree};
ghost use Rattle.pz_classes_code.specs.pz_value.declared.value.Value.{Value};
ghost use Rattle.pz_classes_code.specs.CodeView.{list_view};
ghost use Rattle.pz_state.specs.References.{RefersWithin};
ghost use Rattle.pz_classes.specs.devices.Rows.{AreClasses};
ghost use Rattle.pz_eval_rules.specs.Steps as steps;
ghost use Rattle.pz_eval_operations.specs.Known.{AreKnown};
ghost use Rattle.pz_eval_operations.specs.devices.Replies.{method_found, Replies, ReplyWithin, UnlessAnswer};
ghost use Rattle.pz_eval_operations.specs.devices.Within.{RequestWithin};

use crate::stop::Stop;
use crate::task::Request;
use pz_classes::Classes;
use pz_classes_code::pz_syntax::Id;
use pz_classes_code::pz_value::{ClassId, Value};
use pz_classes_code::{Body, Code};
use pz_prims::{Prim, prim};
use pz_state::{FaultKind, State};
use std::alloc::Global;

/// The body of a data method: how many locals it has, and its code.
#[derive(Clone, Copy)]
pub struct Method<'a> {
    pub locals: u32,
    pub code: &'a [Code],
}

/// What a receiver does with a selector.
#[derive(Drop)]
pub enum Reply<'a> {
    Answers(Value),
    /// A method of this object runs.
    Runs(u32, Method<'a>),
}

/// The data method of a class for a selector with so many arguments: that of the nearest of the class
/// and its ancestors which has one.
fn find_method<'a>(
    classes: &'a Classes,
    class: ClassId,
    name: &[u8],
    count: usize,
) -> Option<Method<'a>>
    requires { AreKnown classes.now }
    ensures { (m : ModelTree) → AreClasses m classes.now →
        option_map method_found result ≡ steps.data_method m class name.now count }
{
    if class.0 as usize >= classes.count() {
        return None;
    }
    let method = classes.method(class, name, count)?;
    match classes.body(method) {
        Body::Data { locals, code } => Some(Method {
            locals: *locals,
            code: code.as_slice(),
        }),
        Body::Process { .. } => None,
    }
}

/// What an object does with a selector with so many arguments that no primitive value has.
fn class_reply<'a>(
    classes: &'a Classes,
    state: &State,
    receiver: &Value,
    selector: &Id,
    count: usize,
) -> Result<Reply<'a>, Stop>
    requires known { AreKnown classes.now }
    requires receiver { RefersWithin (length state.now.held.objects) receiver.now }
    ensures replies { (m : ModelTree) (locals : List Value) → AreClasses m classes.now →
        Replies result (steps.class_reply m (record { state = state.now.held; locals = locals })
        receiver.now selector.now count) (record { state = state.now.held; locals = locals }) }
    ensures within { IfOk result (ReplyWithin (length state.now.held.objects)) }
{
    let Value::Ref(r) = receiver else {
        return Err(Stop::Fault(FaultKind::NotUnderstood, selector.pos));
    };
    let class = state.object(*r).class();
    match find_method(classes, class, selector.name.as_str().as_bytes(), count) {
        Some(method) => Ok(Reply::Runs(*r, method)),
        None => Err(Stop::Fault(FaultKind::NotUnderstood, selector.pos)),
    }
}

/// What a receiver does with a selector: what the table of primitive values says, or else what its class
/// does.
pub fn ask<'a>(
    alloc: Global,
    classes: &'a Classes,
    state: &mut State,
    request: &Request<'a>,
) -> Result<Reply<'a>, Stop>
    requires known { AreKnown classes.now }
    requires within { RequestWithin (length state.old.held.objects) request.now }
    ensures replies { (m : ModelTree) (locals : List Value) → AreClasses m classes.now →
        Replies result (steps.reply m request.now.receiver request.now.selector.now
        request.now.arguments.items (record { state = state.old.held; locals = locals }))
        (record { state = state.new.held; locals = locals }) }
    ensures marks { state.new.marks ≡ state.old.marks }
    ensures count { length state.new.held.objects ≡ length state.old.held.objects }
    ensures within { IfOk result (ReplyWithin (length state.new.held.objects)) }
    ensures same { IfOk result (UnlessAnswer (state.new ≡ state.old)) }
{
    let name = request.selector.name.as_str().as_bytes();
    let arguments = request.arguments.as_slice();
    match prim(alloc, state, &request.receiver, name, arguments)? {
        Prim::Value(value) => Ok(Reply::Answers(value)),
        Prim::Fault(kind) => Err(Stop::Fault(kind, request.selector.pos)),
        Prim::Other => class_reply(
            classes,
            state,
            &request.receiver,
            request.selector,
            arguments.len(),
        ),
    }
}
