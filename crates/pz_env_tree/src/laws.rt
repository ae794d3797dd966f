// Laws of closed systems, the contract of a function that does nothing.

ghost use Rattle.pz_env_tree.specs.Laws.{RefusalsAreComputed};

/// A script is refused by a model from one line on at most, and which one that is is computed.
pub fn refusals_are_computed()
    ensures { RefusalsAreComputed }
{}
