// The layout of the text of a model.

ghost use Rattle.std.specs.Prelude.{◌≡◌, ◌-◌, ◌<◌, ◌^◌, IfOk, IfErr, length};
ghost use Rattle.pz_classes.specs.pz_syntax.Classes.{ModelTree};
ghost use Rattle.pz_run_reading.specs.Openings.{IsOpenModelOf, IsRefusedToOpen};
ghost use Rattle.pz_run_reading.specs.Answers.{OnRefused};
ghost use Rattle.pz_run_formatting.specs.Layouts.{IsLayoutOf};

use pz_format::format;
use pz_lexer::{one_answer, pieces};
use pz_run_reading::{ReadModelError, read_open_model};
use std::alloc::Global;
use std::mem::drop;

/// The layout of the text of a model that violates no rule, with its comments. The errors are those of
/// `read_open_model`. Beyond the reading the time is linear in the text.
pub fn layout_text(alloc: Global, text: &[u8]) -> Result<Vec<u8>, ReadModelError>
    requires { length text.now < 2 ^ 32 - 1 }
    ensures found { IfOk result (λ out. IsLayoutOf text.now out.items) }
    // The text of a model that opens is refused for want of memory alone.
    ensures only { (m : ModelTree) → IsOpenModelOf text.now m →
        IfErr result (λ e. e ≡ ReadModelError.NoMemory) }
    ensures refused { IfErr result (OnRefused (IsRefusedToOpen text.now)) }
{
    one_answer();
    let checked = read_open_model(alloc, text)?;
    drop(checked);
    let pieces = pieces(alloc, text)?;
    match format(alloc, pieces.as_slice()) {
        Ok(out) => Ok(out),
        Err(_) => Err(ReadModelError::NoMemory),
    }
}
