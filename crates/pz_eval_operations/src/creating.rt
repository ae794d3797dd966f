//! New objects, and the time.

ghost use Rattle.std.specs.Prelude.{◌≡◌, ◌≤◌, List, ℕ, length, map, IfOk};
ghost use Rattle.std.specs.Option.{option_map};
ghost use Rattle.pz_classes_code.specs.pz_syntax.Classes.{ModelTree};
ghost use Rattle.pz_classes_code.specs.pz_value.declared.value.Value.{Value};
ghost use Rattle.pz_state.specs.References.{RefersWithin};
ghost use Rattle.pz_classes.specs.devices.Rows.{AreClasses};
ghost use Rattle.pz_classes.specs.pz_classes_rules.Members.{fields};
ghost use Rattle.pz_eval_rules.specs.Memories.{Memory};
ghost use Rattle.pz_eval_rules.specs.Steps as steps;
ghost use Rattle.pz_eval_operations.specs.devices.Telling.{Tells};

use crate::stop::Stop;
use pz_classes::Classes;
use pz_classes_code::pz_syntax::Pos;
use pz_classes_code::pz_value::{ClassId, Value};
use pz_state::{FaultKind, MakeError, OBJECT_LIMIT, State};

/// The clock as a value, as long as an Integer holds it.
pub fn time(clock: u128, at: Pos) -> Result<Value, Stop>
    ensures tells { (m : Memory) → Tells result (steps.time clock at m) m }
    ensures within { (count : ℕ) → IfOk result (RefersWithin count) }
{
    if clock > i64::MAX as u128 {
        return Err(Stop::Fault(FaultKind::ClockTooLarge, at));
    }
    Ok(Value::Int(clock as i64))
}

/// How many fields objects of a class have; none if there is no such class.
fn count_fields(classes: &Classes, class: ClassId) -> u32
    ensures { (m : ModelTree) → AreClasses m classes.now → result ≡ length (fields m class.0) }
{
    if class.0 as usize >= classes.count() {
        return 0;
    }
    classes.fields(class).len()
}

/// A new object of a class, its fields nil.
pub fn create(classes: &Classes, state: &mut State, class: ClassId, at: Pos) -> Result<Value, Stop>
    ensures tells { (m : ModelTree) (locals : List Value) → AreClasses m classes.now →
        Tells result (steps.created m class at (record { state = state.old.held; locals = locals }))
        (record { state = state.new.held; locals = locals }) }
    ensures marks { state.new.marks ≡ state.old.marks }
    ensures count { length state.old.held.objects ≤ length state.new.held.objects }
    ensures within { IfOk result (RefersWithin (length state.new.held.objects)) }
{
    let fields = count_fields(classes, class);
    if state.objects() == OBJECT_LIMIT {
        return Err(Stop::Fault(FaultKind::StoreFull, at));
    }
    match state.make(class, fields) {
        Ok(r) => Ok(Value::Ref(r)),
        Err(MakeError::NoMemory) => Err(Stop::NoMemory),
        Err(MakeError::StoreFull) => unreachable!(),
    }
}
