//! The values of a list of expressions.

ghost use Rattle.std.specs.Prelude.{◌≡◌, ◌≤◌, ℕ, [], ◌∷◌, length, IfOk, All};
ghost use Rattle.pz_classes_code.specs.pz_syntax.Classes.{ModelTree};
ghost use Rattle.pz_classes_code.specs.CodeView.{list_view};
ghost use Rattle.pz_copy.specs.pz_state.References.{RefersWithin};
ghost use Rattle.pz_eval_machine.specs.pz_classes.devices.Rows.{AreClasses};
ghost use Rattle.pz_eval_machine.specs.pz_eval_rules.Memories.{in_process};
ghost use Rattle.pz_eval_machine.specs.pz_eval_rules.Outcomes.{outside};
ghost use Rattle.pz_eval_machine.specs.pz_eval_rules.devices.Computed.{arguments, evaluated};
ghost use Rattle.pz_eval_machine.specs.pz_eval_operations.Known.{AreKnown};
ghost use Rattle.pz_eval.specs.devices.Lists.{Gathers};

use pz_classes_code::Code;
use pz_classes_code::pz_items::Items;
use pz_classes_code::pz_value::Value;
use pz_copy::pz_state::{FrameId, State};
use pz_eval_machine::pz_eval_operations::Stop;
use pz_eval_machine::{Basis, Finish, evaluate};
use std::alloc::{AllocError, Global};

/// A list of one value. The only error is want of memory.
fn only(alloc: Global, value: Value) -> Result<Items<Value>, AllocError>
    ensures { IfOk result (λ values. values ≡ value ∷ []) }
{
    let mut values = Items::new(alloc);
    values.push(value)?;
    Ok(values)
}

/// Evaluates expressions of a method of the process from left to right, as one evaluation. Effects stay,
/// whatever comes of it. A `return` is alone.
pub(crate) fn evaluate_list(
    basis: Basis<'_>,
    state: &mut State,
    units: &mut u64,
    frame: FrameId,
    depth: u32,
    codes: &[Code],
) -> Result<Items<Value>, Stop>
    requires { AreKnown basis.classes.now }
    ensures gathers { (model : ModelTree) → AreClasses model basis.entry.classes.now →
        Gathers result state.new.held units.new (arguments model basis.entry.clock
        (evaluated model basis.entry.clock depth) (in_process frame.0) [] (list_view codes.now)
        (outside state.old.held) units.old) }
    ensures marks { state.new.marks ≡ state.old.marks }
    ensures within { IfOk result (λ values. All (RefersWithin (length state.new.held.objects))
        values) }
{
    let mut values = Items::new(basis.alloc);
    for code in codes {
        match evaluate(basis, state, units, frame, depth, code) {
            Ok(Finish::Value(value)) => values.push(value)?,
            Ok(Finish::Return(value)) => return Ok(only(basis.alloc, value)?),
            Err(stop) => return Err(stop),
        }
    }
    Ok(values)
}
