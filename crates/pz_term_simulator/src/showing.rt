// What a variable holds, as a parcel of its one value. The only error is want of memory.

ghost use Rattle.std.specs.Prelude.{◌≡◌, [], ◌∷◌, IfOk, All};
ghost use Rattle.pz_rules.specs.pz_syntax.Classes.{ModelTree};
ghost use Rattle.pz_rules.specs.pz_state.References.{RefersWithin};
ghost use Rattle.pz_rules.specs.pz_state.States.{initial, value_at, variable as variable_of};
ghost use Rattle.pz_rules.specs.pz_copy.Packing.{IsParcelOf};
ghost use Rattle.pz_bind.specs.NetView.{HasProcess};
ghost use Rattle.pz_bind.specs.devices.Nets.{IsNet};
ghost use Rattle.pz_rules.specs.Settings.{Setting};
ghost use Rattle.pz_rules.specs.devices.Start.{start_of};
ghost use Rattle.pz_term_simulator.specs.Shown.{HoldsValue};

use pz_bind::Net;
use pz_rules::pz_copy::{Parcel, pack};
use pz_rules::pz_state::State;
use pz_rules::pz_value::Value;
use std::alloc::{AllocError, Global};

/// The value of a variable of a process in this state, as a parcel; nil where there is no such variable. The only error
/// is want of memory.
pub fn shown_in(alloc: Global, state: &State, variable: u32) -> Result<Parcel, AllocError>
    ensures { IfOk result (IsParcelOf state.now.held
        (variable_of state.now.held variable ∷ [])) }
{
    if variable as usize >= state.variables() {
        return pack(alloc, state, &[Value::Nil]);
    }
    let value = state.var(variable).copy()?;
    pack(alloc, state, &[value])
}

// An equal value; nil where there is none.
fn read(values: &[Value], variable: u32) -> Result<Value, AllocError>
    ensures { IfOk result (λ value. value ≡ value_at values.now variable) }
{
    match values.get(variable as usize) {
        Some(value) => value.copy(),
        None => Ok(Value::Nil),
    }
}

// Of a process that has just begun, with these values. They name no object.
fn begun_with(alloc: Global, values: &[Value], variable: u32) -> Result<Parcel, AllocError>
    requires { All (RefersWithin 0) values.now }
    ensures { IfOk result (IsParcelOf (initial values.now)
        (value_at values.now variable ∷ [])) }
{
    let value = read(values, variable)?;
    let state = State::new(alloc, Vec::new(alloc));
    pack(alloc, &state, &[value])
}

/// The value of a variable of a process before its first step, as a parcel; nil where the process has no such
/// variable. The only error is want of memory.
pub fn shown_at_start(
    alloc: Global,
    net: &Net,
    process: u32,
    variable: u32,
) -> Result<Parcel, AllocError>
    requires there { HasProcess net.now process }
    requires of_model { ∥ ((m : ModelTree) × IsNet m net.now) ∥₁ }
    ensures { (setting : Setting) → ∥ IsNet setting.model net.now ∥₁ →
        IfOk result (HoldsValue (start_of setting) process variable) }
{
    begun_with(alloc, net.values(process), variable)
}
