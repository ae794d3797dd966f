ghost use Rattle.std.specs.Prelude.{◌≡◌};
ghost use Rattle.std.specs.Option.{option_copied};
ghost use Rattle.pz_prims.specs.Strings.{at_place};

/// What stands at a place, of which the first is 1.
pub fn at_place<T>(items: &[T], place: i64) -> Option<&T>
    ensures { option_copied result ≡ at_place items.now place }
{
    if place < 1 {
        return None;
    }
    items.get((place - 1) as usize)
}
