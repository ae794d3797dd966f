//! What was read stays as it is while more is read behind it, and is let go where that is refused.

ghost use Rattle.std.specs.Prelude.{◌≡◌, IfOk};
ghost use Rattle.pz_parser_cursor.specs.devices.Device.{Reads};
ghost use Rattle.pz_parser_cursor.specs.devices.Device as device;

use pz_parser_cursor::{Cursor, Next, Refusal};

/// The value, and this token behind it.
pub fn up_to<T: Drop>(cursor: &mut Cursor<'_>, value: T, close: Next) -> Result<T, Refusal>
    ensures kept { IfOk result (λ kept. kept ≡ value) }
    ensures reads { Reads (λ _. tt) (device.expect close cursor.old) result cursor.new }
{
    cursor.expect(close)?;
    Ok(value)
}
