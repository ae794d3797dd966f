// Laws of driven systems, the contract of a function that does nothing.

ghost use Rattle.pz_env_rules.specs.Laws.{OffersAreThoseOfTheSystem, MomentIsThatOfTheSystem};

/// Once the environment has done its script, a driven system offers what the system offers, and its
/// moment is that of the system.
pub fn system_goes_on_alone()
    ensures offers { OffersAreThoseOfTheSystem }
    ensures moment { MomentIsThatOfTheSystem }
{}
