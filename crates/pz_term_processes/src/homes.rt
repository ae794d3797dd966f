ghost use Rattle.std.specs.Prelude.{◌≡◌, Some, slice_get};
ghost use Rattle.pz_classes_code.specs.pz_syntax.Classes.{ModelTree};
ghost use Rattle.pz_bind.specs.pz_classes.CheckedView.{checked_model};
ghost use Rattle.pz_bind.specs.pz_classes.declared.classes.Classes.{Classes};
ghost use Rattle.pz_bind.specs.pz_classes.Tables.{HasClass};
ghost use Rattle.pz_bind.specs.pz_classes.devices.Rows.{AreClasses};
ghost use Rattle.pz_bind_levels.specs.Places.{Address};
ghost use Rattle.pz_rules.specs.pz_bind_rules.Nest.{processes};
ghost use Rattle.pz_bind.specs.NetView.{HasProcess};
ghost use Rattle.pz_bind.specs.devices.Nets.{IsNet};
ghost use Rattle.pz_rules.specs.declared.limits.Edition.TheVariants.{Two};
ghost use Rattle.pz_rules.specs.CallLaws.{NoRounds};
ghost use Rattle.pz_part_actions.specs.pz_part_opening.Homes.{home_view};
ghost use Rattle.pz_rules.specs.Starting.{home_at as rules_home};
ghost use Rattle.pz_term_processes.specs.Standing.{setting_of};

use pz_bind::Net;
use pz_bind::pz_classes::Checked;
use pz_part_actions::pz_part_opening::Home;
use pz_rules::Limits;

/// Where the statements of a process open. In edition Two no method of the model begins with itself.
pub fn home_at<'a>(checked: &'a Checked, net: &Net, limits: Limits, process: u32) -> Home<'a>
    requires there { HasProcess net.now process }
    requires of_model { ∥ IsNet (checked_model checked.now) net.now ∥₁ }
    requires rounds { limits.edition ≡ Two → NoRounds (checked_model checked.now) }
    ensures home { (place : Address) →
        slice_get (processes (checked_model checked.now)) process ≡ Some place →
        home_view result ≡ rules_home (setting_of (checked_model checked.now) limits) place }
    ensures belongs { (m : ModelTree) (classes : Classes) → IsNet m net.now →
        AreClasses m classes → HasClass classes result.class }
{
    pz_rules::laws::processes_have_classes();
    let class = net.class(process);
    Home::new(checked, class, limits)
}
