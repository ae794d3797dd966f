// The first line of a driven run.

ghost use Rattle.std.specs.Prelude.{◌≡◌, IfOk};
ghost use Rattle.pz_env_tree.specs.pz_env_rules.Text as text;

use std::alloc::{AllocError, Global};

/// The first line of the text of a driven run with so many units for each evaluation, with its LF. The only
/// error is want of memory.
pub fn drive_header(alloc: Global, units: u64) -> Result<Vec<u8>, AllocError>
    ensures { IfOk result (λ line. line.items ≡ text.drive_header units) }
{
    Ok(format!(in alloc; "poosl-drive 1 {units}\n")?.into_bytes())
}
