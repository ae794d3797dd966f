//! What calls ask of values and objects, as tests.

ghost use Rattle.std.specs.Prelude.{◌≡◌, ◌<◌, length, All, IsTrue};
ghost use Rattle.pz_copy.specs.pz_state.References.{RefersWithin};

use pz_copy::pz_value::Value;

/// If the value is a reference, it names one of so many objects.
pub fn refers_within(value: &Value, count: u32) -> bool
    ensures { IsTrue result → RefersWithin count value.now }
{
    match value {
        Value::Ref(r) => *r < count,
        _ => true,
    }
}

/// Each reference among these names one of so many objects.
pub fn refer_within(values: &[Value], count: u32) -> bool
    ensures { IsTrue result → All (RefersWithin count) values.now }
{
    for value in values {
        if !refers_within(value, count) {
            return false;
        }
    }
    true
}
