// Looking methods and starts up.

ghost use Rattle.std.specs.Prelude.{◌≡◌, map, slice_get};
ghost use Rattle.std.specs.Option.{option_copied, option_map};
ghost use Rattle.pz_classes.specs.devices.Rows.{row_view};
ghost use Rattle.pz_classes.specs.devices.Found.{found_in, start_found};
ghost use Rattle.pz_classes_code.specs.StepView as step;

use crate::entry::Entry;
use crate::{Counts, MethodId, Step};

fn entry_at(entries: &[Entry], class: u32) -> Option<&Entry>
    ensures { option_map row_view (option_copied result) ≡ slice_get
        (map row_view entries.now) class }
{
    entries.get(class as usize)
}

/// The method of the nearest ancestor that has one with the name and the counts.
pub(crate) fn find(entries: &[Entry], class: u32, name: &[u8], counts: Counts) -> Option<MethodId>
    ensures { result ≡ found_in (map row_view entries.now)
        (record { name = name.now; counts = counts }) class }
{
    let mut at = Some(class);
    let mut left = entries.len();
    while left > 0 {
        let entry = entry_at(entries, at?)?;
        if let Some(id) = entry.methods.get(name, counts) {
            return Some(id);
        }
        at = entry.parent;
        left -= 1;
    }
    None
}

/// The call of the `init` of the nearest ancestor that has one.
pub(crate) fn find_start(entries: &[Entry], class: u32) -> Option<&Step>
    ensures { option_map step.view (option_copied result) ≡ start_found
        (map row_view entries.now) class }
{
    let mut here = Some(class);
    let mut left = entries.len();
    while left > 0 {
        let entry = entry_at(entries, here?)?;
        if let Some(start) = &entry.start {
            return Some(start);
        }
        here = entry.parent;
        left -= 1;
    }
    None
}
