// A law of the definitions, as the contract of a function that does nothing.

ghost use Rattle.std.specs.Prelude.{ℕ, List};
ghost use Rattle.pz_bind_levels.specs.Layouts.{Layout};
ghost use Rattle.pz_bind_levels.specs.Connections.{EndsShareWires};

/// Two ends that are in channels have the same wire exactly where they are connected: where some
/// channel is reached by both.
pub fn ends_share_wires()
    ensures law { (layouts : List Layout) (system : ℕ) → EndsShareWires layouts system }
{}
