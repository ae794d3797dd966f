ghost use Rattle.std.specs.Prelude.{◌≡◌};
ghost use Rattle.pz_debug.specs.Limits as spec;

use pz_sim::pz_term_simulator::{Edition, Limits};

/// The most bytes that a model may have.
pub const MODEL_LIMIT: usize = 8_388_608;

/// The most bytes that a file of commands may have.
pub const COMMAND_LIMIT: usize = 1_048_576;

/// What evaluations and terms may take in a session, and the edition of the rules.
pub fn session_limits() -> Limits
    ensures { result ≡ spec.session_limits }
{
    Limits {
        units: 100_000,
        depth: 20_000,
        height: 1_000,
        edition: Edition::Two,
    }
}
