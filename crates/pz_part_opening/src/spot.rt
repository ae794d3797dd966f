// Where statements open, and what is inside: a bracket that is all that stands there, or a plain call.

ghost use Rattle.std.specs.Prelude.{◌≡◌, MatchOption};
ghost use Rattle.pz_part_opening.specs.Homes.{home_view};
ghost use Rattle.pz_part_opening.specs.devices.Spots.{spot_view, Stands, StepStands, IsWay};
ghost use Rattle.pz_classes_code.specs.StepView.{view};
ghost use Rattle.pz_rules.specs.Openable.{alone};

use crate::home::Home;
use pz_classes_code::pz_items::{Items, Shared};
use pz_classes_code::{Step, StepForm};

/// One statement, or statements in a sequence.
#[derive(Clone, Copy)]
pub(crate) enum Spot<'s> {
    One(&'s Step),
    Several(&'s Shared<Items<Step>>),
}

/// A way further in: the statements that stand there, and how many locals the frame round them has, if
/// they are the body of a method.
#[derive(Clone, Copy)]
pub(crate) struct Way<'s> {
    pub locals: Option<u32>,
    pub steps: &'s Shared<Items<Step>>,
}

/// The way into a statement that is all that stands there. None where it stands as it is.
fn way_into<'s>(home: &Home<'s>, step: &'s Step) -> Option<Way<'s>>
    ensures { MatchOption result (StepStands (home_view home.now) (view step.now))
        (λ way. IsWay (home_view home.now) (alone (view step.now)) way) }
{
    match step.form.get() {
        StepForm::Group(steps) => Some(Way {
            locals: None,
            steps,
        }),
        StepForm::Call {
            method,
            args,
            results,
        } => {
            if !args.get().is_empty() || !results.get().is_empty() {
                return None;
            }
            let called = home.called(method.get())?;
            Some(Way {
                locals: Some(called.locals),
                steps: called.steps,
            })
        }
        _ => None,
    }
}

/// The way further in. None where nothing alone stands there that has an inside.
pub(crate) fn way_in<'s>(home: &Home<'s>, spot: Spot<'s>) -> Option<Way<'s>>
    ensures { MatchOption result (Stands (home_view home.now) (spot_view spot.entry))
        (λ way. IsWay (home_view home.now) (spot_view spot.entry) way) }
{
    match spot {
        Spot::One(step) => way_into(home, step),
        Spot::Several(steps) => match steps.get().as_slice() {
            [] => None,
            [step] => way_into(home, step),
            _ => None,
        },
    }
}
