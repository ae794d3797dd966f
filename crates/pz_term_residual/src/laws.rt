// A law of places, the contract of a function that does nothing.

ghost use Rattle.pz_term_residual.specs.Laws.{ActivePartsMayAct};

/// Active parts stand where a part may act.
pub fn active_parts_may_act()
    ensures law { ActivePartsMayAct }
{}
