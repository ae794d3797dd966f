// Which rules are broken at a word.

ghost use Rattle.std.specs.Prelude.{◌≡◌, not, ◌&&◌, ◌++◌};
ghost use Rattle.pz_classes_code.specs.ReservedNames as reserved;
ghost use Rattle.pz_check_violations.specs.Order.{violation};
ghost use Rattle.pz_check_violations.specs.Least.{least_from, listed};
ghost use Rattle.pz_classes_mentions.specs.Words.{mention};
ghost use Rattle.pz_check_names.specs.devices.Scopes.{AreDeclared, IsScope, HasLocals, model_of, decl_of};
ghost use Rattle.pz_check_names.specs.devices.Misuses.{at_word};

use crate::class_scope::ClassScope;
use crate::declared::Declared;
use crate::rules::{has_instances, is_type, may_create};
use crate::scopes::{
    is_data, lacks_message, lacks_method, lacks_port, lacks_selector, lacks_variable, never_starts,
};
use crate::stretch::Stretch;
use pz_check_violations::{Violation, lesser};
use pz_classes_code::is_unsupported;
use pz_classes_code::pz_syntax::{Id, Pos};
use pz_classes_mentions::Word;

/// The least of what was found before and this rule at this place, if it is broken there.
fn noted(before: Option<Violation>, broken: bool, rule: u8, pos: Pos) -> Option<Violation>
    ensures { result ≡ least_from before (listed broken (violation rule pos)) }
{
    if broken {
        lesser(before, Violation { rule, pos })
    } else {
        before
    }
}

/// Where a class is named that is left out of the language only C18 is broken, elsewhere this rule
/// if it is broken.
fn noted_class(before: Option<Violation>, class: &Id, broken: bool, rule: u8) -> Option<Violation>
    ensures { result ≡ least_from before (listed
        (not (reserved.is_unsupported class.now.name) && broken)
        (violation rule class.now.pos) ++ listed (reserved.is_unsupported class.now.name)
        (violation 18 class.now.pos)) }
{
    if is_unsupported(&class.name) {
        noted(before, true, 18, class.pos)
    } else {
        noted(before, broken, rule, class.pos)
    }
}

/// The least of what was found before and the rules that are broken at this word.
#[tactic(auto, using(pz_check_violations::proofs::Leasts::least_from_append))]
pub(crate) fn least_at_word(
    declared: &Declared,
    scope: &ClassScope,
    stretch: &Stretch,
    word: Word,
    before: Option<Violation>,
) -> Option<Violation>
    requires declares { AreDeclared declared.now }
    requires scoped { IsScope declared.now scope.now }
    requires local { HasLocals stretch.now }
    ensures { result ≡ least_from before (at_word (model_of declared.now) scope.now.class.0
        (decl_of scope.now) stretch.now.part.now.locals (mention word.entry)) }
{
    let model = declared.model;
    let classes = declared.classes;
    let in_data = is_data(scope.decl);
    match word {
        Word::Declared(x) => noted_class(before, x, never_starts(declared, scope), 11),
        Word::Extended(x) => noted(before, is_unsupported(&x.name), 18, x.pos),
        Word::Typed(x) => noted_class(before, x, !is_type(model, classes, &x.name), 5),
        Word::Created(x) => noted_class(before, x, !may_create(model, classes, &x.name), 12),
        Word::Instantiated(x) => {
            noted_class(before, x, !has_instances(model, classes, &x.name), 13)
        }
        Word::Variable { name, pos } => {
            let lacks = lacks_variable(declared, scope, stretch, name);
            noted(before, lacks, 6, pos)
        }
        Word::Called {
            name,
            inputs,
            outputs,
        } => {
            let lacks = lacks_method(declared, scope, &name.name, inputs, outputs);
            noted(before, lacks, 7, name.pos)
        }
        Word::Selector { name, count } => {
            let lacks = lacks_selector(declared, &name.name, count);
            noted(before, lacks, 8, name.pos)
        }
        Word::Port(x) => noted(before, lacks_port(declared, scope, &x.name), 9, x.pos),
        Word::Sent { port, name, count } => {
            let (port, sent) = (&port.name, &name.name);
            let lacks = lacks_message(declared, scope, port, true, sent, count);
            noted(before, lacks, 10, name.pos)
        }
        Word::Received { port, name, count } => {
            let (port, received) = (&port.name, &name.name);
            let lacks = lacks_message(declared, scope, port, false, received, count);
            noted(before, lacks, 10, name.pos)
        }
        Word::Clock(pos) => noted(before, in_data, 21, pos),
        Word::Me(pos) => noted(before, !in_data, 22, pos),
        Word::Return(pos) => noted(before, !in_data, 22, pos),
        Word::Float(pos) => noted(before, true, 18, pos),
    }
}
