// Laws of local clocks, the contract of a function that does nothing.

ghost use Rattle.pz_clock.specs.Laws.{StandsStill, RisesAlike, MeetsItsDue, FitsOnward, FitsAreReached};

/// A local clock that stands still shows the same whatever the clock around it shows, and one that runs
/// rises with it. It shows a moment exactly when the clock around it shows what is due for that moment. A
/// shift that fits the clock around it goes on to fit it.
pub fn local_clocks()
    ensures stands { StandsStill }
    ensures rises { RisesAlike }
    ensures meets { MeetsItsDue }
    ensures fits { FitsOnward }
    ensures reached { FitsAreReached }
{}
