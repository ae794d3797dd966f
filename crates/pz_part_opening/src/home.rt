ghost use Rattle.std.specs.Prelude.{◌≡◌};
ghost use Rattle.pz_classes.specs.CheckedView.{checked_model};
ghost use Rattle.pz_rules.specs.declared.limits.Edition.TheVariants.{Two};
ghost use Rattle.pz_rules.specs.Openable.{IsProcessClass};
ghost use Rattle.pz_rules.specs.CallLaws.{NoRounds};

use pz_classes::{Body, Checked};
use pz_classes_code::Step;
use pz_classes_code::pz_items::{Items, Shared};
use pz_classes_code::pz_syntax::Id;
use pz_classes_code::pz_value::ClassId;
use pz_rules::{Edition, Limits};

/// Where statements open: a process class of a checked model, and the edition of the rules. In edition Two
/// no method of the model begins with itself.
#[derive(Clone, Copy)]
pub struct Home<'a> {
    checked: &'a Checked,
    /// The number of the class.
    pub class: ClassId,
    /// The edition of the rules.
    pub edition: Edition,
    ghost process: { IsProcessClass (checked_model checked.now) class.0 },
    ghost rounds: { edition ≡ Two → NoRounds (checked_model checked.now) },
}

/// The body of a method: how many locals it has, and its statements.
#[derive(Clone, Copy)]
pub(crate) struct Method<'a> {
    pub locals: u32,
    pub steps: &'a Shared<Items<Step>>,
}

impl<'a> Home<'a> {
    ghost use Rattle.std.specs.Prelude.{MatchOption};
    ghost use Rattle.pz_classes_code.specs.StepView.{sequence_view};
    ghost use Rattle.pz_rules.specs.CallLaws.{OpensCalls, IsCalled};
    ghost use Rattle.pz_part_opening.specs.Homes.{home_in, home_view};
    ghost use Rattle.pz_part_opening.specs.devices.Spots.{CallStands};

    /// This class of the model, under the rules of these limits.
    pub fn new(checked: &'a Checked, class: ClassId, limits: Limits) -> Home<'a>
        requires process { IsProcessClass (checked_model checked.now) class.0 }
        requires rounds { limits.edition ≡ Two → NoRounds (checked_model checked.now) }
        ensures home { home_view result ≡ home_in (checked_model checked.now) class limits }
        ensures class { result.class ≡ class }
    {
        Home {
            checked,
            class,
            edition: limits.edition,
        }
    }

    /// The method that a plain call of this name means, as which it opens. None where the call stands as
    /// it is: in edition One, and where the class has no such method.
    pub(crate) fn called(&self, method: &Id) -> Option<Method<'a>>
        ensures { MatchOption result (CallStands (home_view self.now) method.now)
            (λ found. OpensCalls (home_view self.now) × IsCalled (home_view self.now) method.now
            found.locals (sequence_view found.steps.now)) }
    {
        pz_rules::laws::trees_are_sets();
        if self.edition == Edition::One {
            return None;
        }
        let _model = self.checked.model();
        let classes = self.checked.classes();
        let name = method.name.as_str().as_bytes();
        let found = classes.process_method(self.class, name, 0, 0)?;
        match classes.body(found) {
            Body::Process { locals, stmts } => Some(Method {
                locals: *locals,
                steps: stmts,
            }),
            Body::Data { .. } => None,
        }
    }
}
