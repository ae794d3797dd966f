// The rules C1 to C3, and the least violation of them.

ghost use Rattle.std.specs.Prelude.{◌≡◌, ◌<◌, ◌+◌, ◌^◌, List, ℕ, None, length};
ghost use Rattle.pz_classes_code.specs.pz_syntax.ClassView.{decl_view, model_view};
ghost use Rattle.pz_classes_rules.specs.Numbers.{class};
ghost use Rattle.pz_classes_code.specs.NumberIn.{number_in};
ghost use Rattle.pz_classes_rules.specs.devices.Rounds.{AreRound};
ghost use Rattle.pz_classes_rules.specs.Violations as rules;
ghost use Rattle.pz_classes_rules.specs.devices.ViolationList as list;
ghost use Rattle.pz_check_violations.specs.Least as least;

use crate::declarations::{declaration, declared_name, extended, is_data, same_sort};
use pz_check_violations::{Violation, lesser};
use pz_classes_code::pz_syntax::{Decl, Id, Model, Name};
use pz_classes_code::{Numbering, is_object, is_primitive, is_unsupported};

/// Whether a class's name is declared before it, or is a primitive's.
fn breaks_c1(model: &Model, numbering: &Numbering, number: u32, name: &Name) -> bool
    requires { (q : List ℕ) → number_in numbering.now q ≡ class (model_view model.now) q }
    ensures { result ≡ rules.breaks_c1 (model_view model.now) number name.now }
{
    if is_unsupported(name) {
        return false;
    }
    is_primitive(name) || numbering.get(name.as_str().as_bytes()) != Some(number)
}

/// Whether a class of the sort of the declaration has this name.
fn is_of_sort(model: &Model, numbering: &Numbering, decl: &Decl, name: &Name) -> bool
    requires { (q : List ℕ) → number_in numbering.now q ≡ class (model_view model.now) q }
    ensures { result ≡ rules.is_of_sort (model_view model.now) (decl_view decl.now) name.now }
{
    let Some(number) = numbering.get(name.as_str().as_bytes()) else {
        return false;
    };
    match declaration(model, number) {
        Some(other) => same_sort(decl, other),
        None => false,
    }
}

/// Whether what is declared may not extend a class of this name.
fn breaks_c2(model: &Model, numbering: &Numbering, decl: &Decl, name: &Name) -> bool
    requires { (q : List ℕ) → number_in numbering.now q ≡ class (model_view model.now) q }
    ensures { result ≡ rules.breaks_c2 (model_view model.now) (decl_view decl.now) name.now }
{
    if is_unsupported(name) {
        return false;
    }
    if is_primitive(name) {
        return !(is_data(decl) && is_object(name));
    }
    !is_of_sort(model, numbering, decl, name)
}

/// Whether a class is among the ancestors of its parent.
fn breaks_c3(model: &Model, round: &[bool], number: u32) -> bool
    requires { AreRound (model_view model.now) round.now }
    ensures { result ≡ list.breaks_c3 (model_view model.now) number }
{
    round.get(number as usize).copied().unwrap_or(false)
}

/// The least of what was found before and the violations at the name of this class.
#[tactic(auto, using(pz_check_violations::proofs::Leasts::least_from_append))]
fn least_at_name(
    model: &Model,
    numbering: &Numbering,
    round: &[bool],
    number: u32,
    id: &Id,
    before: Option<Violation>,
) -> Option<Violation>
    requires numbered { (q : List ℕ) → number_in numbering.now q ≡ class (model_view model.now) q }
    requires rounds { AreRound (model_view model.now) round.now }
    ensures { result ≡ least.least_from before (list.of_name (model_view model.now) number id.now) }
{
    let mut least = before;
    if breaks_c1(model, numbering, number, &id.name) {
        least = lesser(
            least,
            Violation {
                rule: 1,
                pos: id.pos,
            },
        );
    }
    if breaks_c3(model, round, number) {
        least = lesser(
            least,
            Violation {
                rule: 3,
                pos: id.pos,
            },
        );
    }
    least
}

/// The least of what was found before and the violations of this class.
#[tactic(auto, using(pz_check_violations::proofs::Leasts::least_from_append))]
fn least_of_class(
    model: &Model,
    numbering: &Numbering,
    round: &[bool],
    number: u32,
    decl: &Decl,
    before: Option<Violation>,
) -> Option<Violation>
    requires numbered { (q : List ℕ) → number_in numbering.now q ≡ class (model_view model.now) q }
    requires rounds { AreRound (model_view model.now) round.now }
    ensures { result ≡ least.least_from before (list.of_class (model_view model.now) number
        (decl_view decl.now)) }
{
    let mut least = before;
    if let Some(id) = declared_name(decl) {
        least = least_at_name(model, numbering, round, number, id, least);
    }
    if let Some(id) = extended(decl) {
        if breaks_c2(model, numbering, decl, &id.name) {
            least = lesser(
                least,
                Violation {
                    rule: 2,
                    pos: id.pos,
                },
            );
        }
    }
    least
}

/// The least violation of the rules C1 to C3, if there is one.
#[tactic(auto, using(pz_check_violations::proofs::Leasts::least_from_append))]
pub(crate) fn least_violation(
    model: &Model,
    numbering: &Numbering,
    round: &[bool],
) -> Option<Violation>
    requires numbered { (q : List ℕ) → number_in numbering.now q ≡ class (model_view model.now) q }
    requires rounds { AreRound (model_view model.now) round.now }
    requires room { length model.now.decls + 1 < 2 ^ 32 }
    ensures { result ≡ least.least_from None (list.violations (model_view model.now)) }
{
    let mut least = None;
    let mut number = 0u32;
    for decl in model.decls.as_slice() {
        number += 1;
        least = least_of_class(model, numbering, round, number, decl, least);
    }
    least
}
