// C16: the ends of channels are there.

ghost use Rattle.std.specs.Prelude.{◌≡◌, ◌<◌, ◌≤◌, ◌^◌, ◌++◌, ℕ, suc, length, map, None, IfOk, OnOk};
ghost use Rattle.std.specs.List.{flat_map};
ghost use Rattle.pz_classes_code.specs.pz_syntax.ClassView.{decl_view, model_view};
ghost use Rattle.pz_classes_code.specs.pz_syntax.ModelText.{HasFewMarks, decl_text};
ghost use Rattle.pz_classes.specs.pz_check_violations.Least.{LeastOf, least_from};
ghost use Rattle.pz_classes.specs.pz_classes_rules.ChannelRules as rules;
ghost use Rattle.pz_classes.specs.devices.Rows.{AreClasses};
ghost use Rattle.pz_check_instances.specs.devices.NameSets.{names_in};
ghost use Rattle.pz_check_instances.specs.devices.Ends as spec;
ghost use Rattle.pz_check_instances.specs.devices.Ends.{over, missing_at, wanted_at, absent};
ghost use Rattle.pz_check_instances.specs.devices.Search.{wanted, wanted_of, search_count};
ghost use Rattle.pz_check_instances.specs.devices.Inside.{IsInside};

use crate::by_class::ByClass;
use crate::name_set::NameSet;
use crate::needs::{Inside, Need, places_of};
use crate::open_names::OpenNames;
use crate::parts::ports_at;
use pz_classes::pz_check_violations::{Violation, lesser};
use pz_classes::{Classes, channels_of, instances_of};
use pz_classes_code::pz_syntax::{ChannelEnd, Decl, Model, Pos};
use std::alloc::{AllocError, Global};

/// A port that an end of a channel asks of a class, and where the end stands.
#[derive(Clone, Copy, Debug)]
struct Asked<'a> {
    port: &'a [u8],
    place: Pos,
}

/// What is asked of each class, and the least of the ends that lack what they need in any case.
#[derive(Drop)]
struct Search<'a> {
    asked: ByClass<Asked<'a>>,
    least: Option<Violation>,
}

/// Where an end stands.
fn place(end: &ChannelEnd) -> Pos
    ensures { result ≡ rules.end_place end.now }
{
    match end {
        ChannelEnd::Inner(instance, _) => instance.pos,
        ChannelEnd::Outer(port) => port.pos,
    }
}

/// The name of an end's port.
fn port(end: &ChannelEnd) -> &[u8]
    ensures { result.now ≡ spec.end_port end.now }
{
    match end {
        ChannelEnd::Inner(_, port) => port.name.as_str().as_bytes(),
        ChannelEnd::Outer(port) => port.name.as_str().as_bytes(),
    }
}

impl<'a> Search<'a> {
    /// Adds an end. The only error is want of memory.
    fn add_end(
        &mut self,
        model: &Model,
        classes: &Classes,
        inside: &Inside,
        end: &'a ChannelEnd,
    ) -> Result<(), AllocError>
        requires known { AreClasses (model_view model.now) classes.now }
        requires rows { search_count self.old ≡ suc (length model.now.decls) }
        requires within { inside.now.number ≤ length model.now.decls }
        requires placed { IsInside inside.now }
        ensures counted { OnOk result (search_count self.new ≡ search_count self.old) }
        ensures asked { OnOk result ((k : ℕ) → wanted_of self.new k ≡
            wanted_of self.old k ++ wanted_at (model_view model.now) k inside.now.number
            (decl_view inside.now.decl.now) end.now) }
        ensures least { OnOk result (self.new.least ≡ least_from self.old.least
            (missing_at (model_view model.now) inside.now.number
            (decl_view inside.now.decl.now) end.now)) }
    {
        let place = place(end);
        match inside.need(model, classes, end) {
            Need::Nothing => {}
            Need::Port(class) => {
                let port = port(end);
                self.asked.add(class, Asked { port, place })?;
            }
            Need::Missing => {
                let violation = Violation {
                    rule: 16,
                    pos: place,
                };
                self.least = lesser(self.least, violation);
            }
        }
        Ok(())
    }

    /// Adds these ends. The only error is want of memory.
    fn add_ends(
        &mut self,
        model: &Model,
        classes: &Classes,
        inside: &Inside,
        ends: &'a [ChannelEnd],
    ) -> Result<(), AllocError>
        requires known { AreClasses (model_view model.now) classes.now }
        requires rows { search_count self.old ≡ suc (length model.now.decls) }
        requires within { inside.now.number ≤ length model.now.decls }
        requires placed { IsInside inside.now }
        ensures counted { OnOk result (search_count self.new ≡ search_count self.old) }
        ensures asked { OnOk result ((k : ℕ) → wanted_of self.new k ≡
            wanted_of self.old k ++ flat_map (wanted_at (model_view model.now) k inside.now.number
            (decl_view inside.now.decl.now)) ends.now) }
        ensures least { OnOk result (self.new.least ≡ least_from self.old.least
            (flat_map (missing_at (model_view model.now) inside.now.number
            (decl_view inside.now.decl.now)) ends.now)) }
    {
        for end in ends {
            self.add_end(model, classes, inside, end)?;
        }
        Ok(())
    }

    /// Adds the ends of the declaration of this number. The only error is want of memory.
    fn add_decl(
        &mut self,
        alloc: Global,
        model: &Model,
        classes: &Classes,
        number: u32,
        decl: &'a Decl,
    ) -> Result<(), AllocError>
        requires known { AreClasses (model_view model.now) classes.now }
        requires rows { search_count self.old ≡ suc (length model.now.decls) }
        requires within { number ≤ length model.now.decls }
        requires marks { length (decl_text (decl_view decl.now)) < 2 ^ 32 }
        ensures counted { OnOk result (search_count self.new ≡ search_count self.old) }
        ensures asked { OnOk result ((k : ℕ) → wanted_of self.new k ≡
            wanted_of self.old k ++ flat_map (wanted_at (model_view model.now) k number
            (decl_view decl.now)) (rules.ends (decl_view decl.now))) }
        ensures least { OnOk result (self.new.least ≡ least_from self.old.least
            (flat_map (missing_at (model_view model.now) number (decl_view decl.now))
            (rules.ends (decl_view decl.now)))) }
    {
        let places = places_of(alloc, instances_of(decl))?;
        let inside = Inside {
            decl,
            number,
            places: &places,
        };
        for channel in channels_of(decl) {
            self.add_ends(model, classes, &inside, channel.ends.as_slice())?;
        }
        Ok(())
    }
}

/// What the ends of all channels ask, and the least of those that lack what they need in any case.
/// The only error is want of memory.
fn search_ends<'a>(
    alloc: Global,
    model: &'a Model,
    classes: &Classes,
) -> Result<Search<'a>, AllocError>
    requires few { HasFewMarks (model_view model.now) }
    requires classes { AreClasses (model_view model.now) classes.now }
    ensures counted { IfOk result (λ found. search_count found ≡ suc (length model.now.decls)) }
    ensures asked { IfOk result (λ found. (k : ℕ) →
        wanted_of found k ≡ over (wanted_at (model_view model.now) k) 1
        (map decl_view model.now.decls)) }
    ensures least { IfOk result (λ found. found.least ≡ least_from None
        (over (missing_at (model_view model.now)) 1 (map decl_view model.now.decls))) }
{
    let mut found = Search {
        asked: ByClass::new(alloc, classes.count())?,
        least: None,
    };
    let mut number = 0u32;
    for decl in model.decls.as_slice() {
        number += 1;
        found.add_decl(alloc, model, classes, number, decl)?;
    }
    Ok(found)
}

/// The least of what was found before and the violation at an end, if the port that it asks for is
/// none of these.
fn least_of_asked(ports: &NameSet, asked: &Asked, before: Option<Violation>) -> Option<Violation>
    ensures { result ≡ least_from before (absent (names_in ports.now) (wanted asked.now)) }
{
    if ports.has(asked.port) {
        return before;
    }
    let violation = Violation {
        rule: 16,
        pos: asked.place,
    };
    lesser(before, violation)
}

/// The least of what was found before and the violations at ends, where the port that they ask for
/// is none of these.
fn least_of_class(ports: &NameSet, asked: &[Asked], before: Option<Violation>) -> Option<Violation>
    ensures { result ≡ least_from before (flat_map
        (λ a. absent (names_in ports.now) (wanted a)) asked.now) }
{
    let mut least = before;
    for one in asked {
        least = least_of_asked(ports, one, least);
    }
    least
}

/// The least violation of C16, if there is one: an end of a channel whose instance or port is not
/// there. The only error is want of memory.
pub fn least_missing_end(
    alloc: Global,
    model: &Model,
    classes: &Classes,
) -> Result<Option<Violation>, AllocError>
    requires few { HasFewMarks (model_view model.now) }
    requires classes { AreClasses (model_view model.now) classes.now }
    ensures { IfOk result (LeastOf (rules.BreaksC16 (model_view model.now))) }
{
    let found = search_ends(alloc, model, classes)?;
    let mut opened = OpenNames::new(alloc);
    let mut least = found.least;
    for visit in classes.preorder() {
        opened.enter(visit.depth)?;
        opened.add_ids(ports_at(model, visit.class))?;
        least = least_of_class(opened.names(), found.asked.of(visit.class), least);
    }
    Ok(least)
}
