//! The statements of a method, one after the other.

ghost use Rattle.pz_eval.specs.Known.{AreKnown};

use crate::showing::{show_fault, show_listed, show_outcome, show_state, show_values};
use pz_classes_code::pz_items::{Items, Shared};
use pz_classes_code::pz_syntax::Pos;
use pz_classes_code::{Code, Slot, StepForm};
use pz_copy::Parcel;
use pz_copy::pz_state::{FrameId, State, nil_values};
use pz_eval::pz_classes::{Classes, Step};
use pz_eval::{Allowance, Parceled, eval, eval_list, try_condition, try_eval, try_parcel};
use std::io;

/// How many variables the process has.
const VARIABLES: u32 = 3;

/// The clock at which all is evaluated.
const CLOCK: u128 = 7;

/// Where and with what statements are evaluated.
#[derive(Clone, Copy)]
struct Asking<'a> {
    classes: &'a Classes,
    frame: FrameId,
    allowance: Allowance,
}

/// An expression: what would be found, if that is not what is found, and then that.
fn show_expression(
    rt: &HostRuntime,
    asking: Asking<'_>,
    state: &mut State,
    code: &Code,
) -> io::Result<()>
    requires { AreKnown asking.classes.now }
{
    let Asking {
        classes,
        frame,
        allowance,
    } = asking;
    let alloc = rt.alloc();
    show_outcome(
        rt,
        &try_eval(alloc, classes, state, frame, CLOCK, code, allowance)?,
    )?;
    print!(rt; " /")?;
    show_outcome(
        rt,
        &eval(alloc, classes, state, frame, CLOCK, code, allowance)?,
    )
}

fn show_block(
    rt: &HostRuntime,
    asking: Asking<'_>,
    state: &mut State,
    codes: &[Code],
) -> io::Result<()>
    requires { AreKnown asking.classes.now }
{
    let Asking {
        classes,
        frame,
        allowance,
    } = asking;
    let found = eval_list(rt.alloc(), classes, state, frame, CLOCK, codes, allowance)?;
    show_listed(rt, &found)
}

fn show_packed(rt: &HostRuntime, parcel: &Parcel) -> io::Result<()> {
    show_values(rt, parcel.values())?;
    print!(rt; " of {} objects", parcel.objects().len())
}

/// What a send would hand over, which is kept.
fn show_parcel(
    rt: &HostRuntime,
    asking: Asking<'_>,
    state: &mut State,
    codes: &[Code],
) -> io::Result<Option<Parcel>>
    requires { AreKnown asking.classes.now }
{
    let Asking {
        classes,
        frame,
        allowance,
    } = asking;
    match try_parcel(rt.alloc(), classes, state, frame, CLOCK, codes, allowance)? {
        Parceled::Parcel(parcel) => {
            show_packed(rt, &parcel)?;
            Ok(Some(parcel))
        }
        Parceled::Fault(kind, at) => {
            show_fault(rt, kind, at)?;
            Ok(None)
        }
        Parceled::Spent => {
            print!(rt; " spent")?;
            Ok(None)
        }
    }
}

/// What the condition of a receive comes to with a parcel.
fn show_condition(
    rt: &HostRuntime,
    asking: Asking<'_>,
    state: &mut State,
    parcel: &Parcel,
    into: &[Slot],
    receive: Pos,
    condition: &Code,
) -> io::Result<()>
    requires { AreKnown asking.classes.now }
{
    let Asking {
        classes,
        frame,
        allowance,
    } = asking;
    let alloc = rt.alloc();
    let found = try_condition(
        alloc, classes, state, frame, CLOCK, parcel, into, receive, condition, allowance,
    )?;
    show_outcome(rt, &found)
}

/// A receive, if it has variables and a condition and there is a parcel.
fn show_receive(
    rt: &HostRuntime,
    asking: Asking<'_>,
    state: &mut State,
    parcel: &Option<Parcel>,
    into: &Option<Shared<Items<Slot>>>,
    receive: Pos,
    condition: &Option<Shared<Code>>,
) -> io::Result<()>
    requires { AreKnown asking.classes.now }
{
    let Some(parcel) = parcel else {
        return print!(rt; " no parcel");
    };
    let Some(into) = into else {
        return print!(rt; " no variables");
    };
    match condition {
        Some(condition) => {
            show_condition(
                rt,
                asking,
                state,
                parcel,
                into.get().as_slice(),
                receive,
                condition.get(),
            )
        }
        None => print!(rt; " no condition"),
    }
}

/// A statement. The parcel of a send is kept for the receive that follows.
fn show_statement(
    rt: &HostRuntime,
    asking: Asking<'_>,
    state: &mut State,
    kept: &mut Option<Parcel>,
    step: &Step,
) -> io::Result<()>
    requires { AreKnown asking.classes.now }
{
    match step.form.get() {
        StepForm::Eval(code) => show_expression(rt, asking, state, code),
        StepForm::Block(codes) => show_block(rt, asking, state, codes.get().as_slice()),
        StepForm::Send {
            args: Some(args),
            ..
        } => {
            *kept = show_parcel(rt, asking, state, args.get().as_slice())?;
            Ok(())
        }
        StepForm::Receive {
            into,
            condition,
            ..
        } => show_receive(rt, asking, state, kept, into, step.pos, condition),
        _ => print!(rt; " no evaluation"),
    }
}

/// Each statement, with the parcel that is kept.
fn show_each(
    rt: &HostRuntime,
    asking: Asking<'_>,
    state: &mut State,
    kept: &mut Option<Parcel>,
    steps: &[Step],
) -> io::Result<()>
    requires { AreKnown asking.classes.now }
{
    for step in steps {
        show_statement(rt, asking, state, kept, step)?;
        print!(rt; ";")?;
    }
    Ok(())
}

/// The statements, with no parcel at first.
fn show_steps(
    rt: &HostRuntime,
    asking: Asking<'_>,
    state: &mut State,
    steps: &[Step],
) -> io::Result<()>
    requires { AreKnown asking.classes.now }
{
    let mut kept = None;
    show_each(rt, asking, state, &mut kept, steps)
}

/// The statements of a method with so many locals, and the state afterwards.
fn show_method(
    rt: &HostRuntime,
    classes: &Classes,
    state: &mut State,
    locals: u32,
    steps: &[Step],
    allowance: Allowance,
) -> io::Result<()>
    requires { AreKnown classes.now }
{
    let frame = state.open_frame(locals)?;
    let asking = Asking {
        classes,
        frame,
        allowance,
    };
    show_steps(rt, asking, state, steps)?;
    show_state(rt, state)
}

/// The same in a new state.
pub fn show_statements(
    rt: &HostRuntime,
    classes: &Classes,
    locals: u32,
    steps: &[Step],
    allowance: Allowance,
) -> io::Result<()>
    requires { AreKnown classes.now }
{
    let mut state = State::new(rt.alloc(), nil_values(rt.alloc(), VARIABLES)?);
    show_method(rt, classes, &mut state, locals, steps, allowance)
}
