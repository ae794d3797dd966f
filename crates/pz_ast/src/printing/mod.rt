ghost use Rattle.std.specs.Prelude.{◌≡◌, IfOk};
ghost use Rattle.pz_syntax.specs.ClassView.{model_view};
ghost use Rattle.pz_syntax.specs.ModelText.{text};

mod classes;
mod clusters;
mod exprs;
mod marks;
mod stmts;

use marks::put_each;
use pz_syntax::pz_items::Items;
use pz_syntax::{Mark, Model};
use std::alloc::{AllocError, Global};

/// The tokens of a model, with their heads marked. The only error is want of memory.
pub fn tokens_of(alloc: Global, model: &Model) -> Result<Items<Mark>, AllocError>
    ensures { IfOk result (λ marks. marks ≡ text (model_view model.now)) }
{
    let mut out = Items::new(alloc);
    put_each(&mut out, model.decls.as_slice())?;
    Ok(out)
}
