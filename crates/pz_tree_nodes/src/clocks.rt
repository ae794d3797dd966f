//! Whether an expression names the clock.

ghost use Rattle.std.specs.Prelude.{◌≡◌, map};
ghost use Rattle.pz_classes_code.specs.CodeView.{view, list_view, part_view, link_view, sending_view, links_of, sendings_of};
ghost use Rattle.pz_rules.specs.pz_eval_rules.Clocks as clocks;

use pz_classes_code::pz_items::{Items, Shared};
use pz_classes_code::{Code, CodeForm, CodeLink, CodeSending};

/// Whether `currentTime` is written somewhere in the expression. One look at each part of it, at most.
#[cycle(naming)]
pub fn names_clock(code: &Code) -> bool
    ensures { result ≡ clocks.names_clock (view code.now) }
{
    match &code.form {
        CodeForm::Lit(_) => false,
        CodeForm::Var(_) => false,
        CodeForm::Me => false,
        CodeForm::Clock => true,
        CodeForm::New(_) => false,
        CodeForm::Group(parts) => any_names_clock(parts.as_slice()),
        CodeForm::Chain(first, links) => {
            names_clock(first.get()) || links_name_clock(links.as_slice())
        }
        CodeForm::Sends(receiver, sendings) => {
            names_clock(receiver.get()) || sendings_name_clock(sendings.as_slice())
        }
        CodeForm::Unary(_, operand) => names_clock(operand.get()),
        CodeForm::Assign(_, value) => names_clock(value.get()),
        CodeForm::Return(value) => names_clock(value.get()),
        CodeForm::If(test, body, other) => {
            let here = names_clock(test.get()) || any_names_clock(body.get().as_slice());
            match other.get() {
                None => here,
                Some(other) => here || any_names_clock(other.as_slice()),
            }
        }
        CodeForm::While(test, body) => {
            names_clock(test.get()) || any_names_clock(body.as_slice())
        }
    }
}

#[cycle(naming)]
fn any_names_clock(codes: &[Code]) -> bool
    ensures { result ≡ clocks.list_names_clock (list_view codes.now) }
{
    for code in codes {
        if names_clock(code) {
            return true;
        }
    }
    false
}

#[cycle(naming)]
fn links_name_clock(links: &[CodeLink]) -> bool
    ensures { result ≡ clocks.links_name_clock (links_of (map link_view links.now)) }
{
    for link in links {
        if names_clock(&link.operand) {
            return true;
        }
    }
    false
}

#[cycle(naming)]
fn sendings_name_clock(sendings: &[CodeSending]) -> bool
    ensures { result ≡ clocks.sendings_name_clock (sendings_of (map sending_view sendings.now)) }
{
    for sending in sendings {
        if let Some(args) = &sending.args {
            if any_names_clock(args.as_slice()) {
                return true;
            }
        }
    }
    false
}

/// Whether it is in one of these, if they are written.
pub fn part_names_clock(part: &Option<Shared<Items<Code>>>) -> bool
    ensures { result ≡ clocks.part_names_clock (part_view part.now) }
{
    match part {
        None => false,
        Some(codes) => any_names_clock(codes.get().as_slice()),
    }
}
