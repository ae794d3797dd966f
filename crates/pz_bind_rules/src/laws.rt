// A law of the definitions, as the contract of a function that does nothing.

ghost use Rattle.pz_classes_rules.specs.pz_syntax.Classes.{ModelTree};
ghost use Rattle.pz_bind_rules.specs.Wires.{EndsShareWires};

/// In a sound model two ends that are in channels have the same wire exactly where they are
/// connected: where some channel is reached by both.
pub fn ends_share_wires()
    ensures law { (m : ModelTree) → EndsShareWires m }
{
    pz_classes_rules::laws::sound_systems_fit();
    pz_classes_rules::laws::sound_classes_fit();
    pz_bind_levels::laws::ends_share_wires();
}
