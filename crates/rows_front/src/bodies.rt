//! Bodies of methods: each statement and expression in brackets, behind its place, and with slots in
//! place of names. Of a form that no row has, only that it is another is printed.

use pz_bind::pz_classes::{Body, Code, CodeForm, CodeLink, CodeSending, Slot, Step, StepForm};
use pz_classes_code::pz_items::{Items, Shared};
use pz_classes_code::pz_syntax::{Id, Literal};
use std::io;

/// What is printed of a part that may be left out.
fn written(is_written: bool) -> &'static str {
    if is_written { "with" } else { "without" }
}

#[cycle(code)]
fn show_code(rt: &HostRuntime, code: &Code) -> io::Result<()> {
    print!(rt; " ({}:{}", code.pos.line, code.pos.column)?;
    show_form(rt, &code.form)?;
    print!(rt; ")")
}

#[cycle(code)]
fn show_form(rt: &HostRuntime, form: &CodeForm) -> io::Result<()> {
    match form {
        CodeForm::Lit(Literal::Int(number)) => print!(rt; " {number}"),
        CodeForm::Lit(Literal::True) => print!(rt; " true"),
        CodeForm::Var(slot) => print!(rt; " {slot:?}"),
        CodeForm::New(class) => print!(rt; " new {}", class.0),
        CodeForm::Chain(first, links) => {
            show_code(rt, first.get())?;
            show_links(rt, links.as_slice())
        }
        CodeForm::Sends(receiver, sendings) => {
            show_code(rt, receiver.get())?;
            show_sendings(rt, sendings.as_slice())
        }
        CodeForm::Assign(slot, value) => {
            print!(rt; " {slot:?} :=")?;
            show_code(rt, value.get())
        }
        _ => print!(rt; " another form"),
    }
}

/// Each operator with its place, and its right operand.
#[cycle(code)]
fn show_links(rt: &HostRuntime, links: &[CodeLink]) -> io::Result<()> {
    for link in links {
        print!(rt; " {}:{} {:?}", link.pos.line, link.pos.column, link.op)?;
        show_code(rt, &link.operand)?;
    }
    Ok(())
}

/// A name behind its place.
fn show_id(rt: &HostRuntime, id: &Id) -> io::Result<()> {
    print!(rt; " {}:{} {}", id.pos.line, id.pos.column, id.name.as_str())
}

/// Each selector, and whether it has arguments.
fn show_sendings(rt: &HostRuntime, sendings: &[CodeSending]) -> io::Result<()> {
    for sending in sendings {
        show_id(rt, &sending.selector)?;
        print!(rt; " {} arguments", written(sending.args.is_some()))?;
    }
    Ok(())
}

fn show_codes(rt: &HostRuntime, codes: &[Code]) -> io::Result<()> {
    for code in codes {
        show_code(rt, code)?;
    }
    Ok(())
}

/// The variables of a reception, if it has any.
fn show_variables(rt: &HostRuntime, into: &Option<Shared<Items<Slot>>>) -> io::Result<()> {
    match into {
        None => print!(rt; " into nothing"),
        Some(slots) => print!(rt; " into {:?}", slots.get().as_slice()),
    }
}

/// The condition of a reception, if it has one.
fn show_condition(rt: &HostRuntime, condition: &Option<Shared<Code>>) -> io::Result<()> {
    match condition {
        None => print!(rt; " always"),
        Some(condition) => show_code(rt, condition.get()),
    }
}

fn show_receive(
    rt: &HostRuntime,
    port: u32,
    name: &Id,
    into: &Option<Shared<Items<Slot>>>,
    condition: &Option<Shared<Code>>,
    has_block: bool,
) -> io::Result<()> {
    print!(rt; " receive at port {port} {} a block", written(has_block))?;
    show_id(rt, name)?;
    show_variables(rt, into)?;
    show_condition(rt, condition)
}

fn show_call(rt: &HostRuntime, method: &Id, args: &[Code], results: &[Slot]) -> io::Result<()> {
    print!(rt; " call to {results:?}")?;
    show_id(rt, method)?;
    show_codes(rt, args)
}

/// How many statements each branch has.
fn show_branches(rt: &HostRuntime, branches: &[Shared<Items<Step>>]) -> io::Result<()> {
    print!(rt; " sel of")?;
    for branch in branches {
        print!(rt; " {}", branch.get().len())?;
    }
    Ok(())
}

fn show_step_form(rt: &HostRuntime, form: &StepForm) -> io::Result<()> {
    match form {
        StepForm::Skip => print!(rt; " skip"),
        StepForm::Call {
            method,
            args,
            results,
        } => show_call(
            rt,
            method.get(),
            args.get().as_slice(),
            results.get().as_slice(),
        ),
        StepForm::Receive {
            port,
            name,
            into,
            condition,
            block,
        } => show_receive(
            rt,
            *port,
            name.get(),
            into,
            condition,
            block.get().is_some(),
        ),
        StepForm::Sel(branches) => show_branches(rt, branches.get().as_slice()),
        StepForm::Eval(code) => show_code(rt, code),
        _ => print!(rt; " another form"),
    }
}

pub fn show_step(rt: &HostRuntime, step: &Step) -> io::Result<()> {
    print!(rt; " ({}:{}", step.pos.line, step.pos.column)?;
    show_step_form(rt, step.form.get())?;
    print!(rt; ")")
}

fn show_steps(rt: &HostRuntime, steps: &[Step]) -> io::Result<()> {
    for step in steps {
        show_step(rt, step)?;
    }
    Ok(())
}

pub fn show_body(rt: &HostRuntime, body: &Body) -> io::Result<()> {
    match body {
        Body::Data { locals, code } => {
            print!(rt; " data, {locals} locals:")?;
            show_codes(rt, code.as_slice())
        }
        Body::Process { locals, stmts } => {
            print!(rt; " process, {locals} locals:")?;
            show_steps(rt, stmts.get().as_slice())
        }
    }
}
