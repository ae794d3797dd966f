ghost use Rattle.pz_eval_operations.specs.devices.Telling.{Ticks};

use crate::stop::Stop;

/// Counts one unit, if one is left.
pub fn tick(units: &mut u64) -> Result<(), Stop>
    ensures { Ticks result units.old units.new }
{
    if *units == 0 {
        return Err(Stop::Spent);
    }
    *units -= 1;
    Ok(())
}
