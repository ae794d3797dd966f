// A law of receives, the contract of a function that does nothing.

ghost use Rattle.pz_part_queries.specs.Laws.{OneVerdict};

/// A receive says one thing to a parcel.
pub fn one_verdict()
    ensures law { OneVerdict }
{
    pz_rules::laws::evaluations_are_computed();
}
