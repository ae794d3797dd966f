ghost use Rattle.std.specs.Prelude.{◌≡◌, map};
ghost use Rattle.pz_prims.specs.Rows.{beside};
ghost use Rattle.pz_prims.specs.devices.Entries.{entry_of};

/// What stands beside this selector in a table.
pub fn find<T: Copy>(table: &[(&str, T)], selector: &[u8]) -> Option<T>
    ensures { result ≡ beside selector.now (map entry_of table.now) }
{
    for (spelling, meaning) in table {
        if selector == spelling.as_bytes() {
            return Some(*meaning);
        }
    }
    None
}
