// Names of what is new in a closed tree.

ghost use Rattle.std.specs.Prelude.{◌≡◌, ℕ, replicate, IfOk};
ghost use Rattle.pz_env_tree.specs.Names.{port_name};
ghost use Rattle.pz_env_tree.specs.EnvironmentClass.{unless_none};
ghost use Rattle.pz_env.specs.devices.Making.{id_at};

use pz_syntax::pz_items::Items;
use pz_syntax::{Id, Name, Pos};
use std::alloc::{AllocError, Global};

/// The name of the environment's class.
pub(crate) const CLASS: &str = "ScriptEnv";
/// The name of its instance.
pub(crate) const INSTANCE: &str = "env";
/// The name of its one method.
pub(crate) const METHOD: &str = "run";
/// The name of its one variable.
pub(crate) const VARIABLE: &str = "x";
/// The class of that variable, and of all values of its messages.
pub(crate) const KIND: &str = "Integer";

/// The place of what is of no line.
pub(crate) const FIRST: Pos = Pos { line: 1, column: 1 };

/// This name at this place. The only error is want of memory.
pub(crate) fn id(alloc: Global, name: &str, at: Pos) -> Result<Id, AllocError>
    ensures { IfOk result (λ made. made ≡ id_at name.now at) }
{
    Ok(Id {
        name: Name::new(alloc, name)?,
        pos: at,
    })
}

/// The same name at this place. The only error is want of memory.
pub(crate) fn id_of(name: &Name, at: Pos) -> Result<Id, AllocError>
    ensures { IfOk result (λ made. made ≡ id_at name.now at) }
{
    Ok(Id {
        name: name.copy()?,
        pos: at,
    })
}

/// The name of the port of this number. The only error is want of memory.
pub(crate) fn port_id(alloc: Global, number: usize, at: Pos) -> Result<Id, AllocError>
    ensures { IfOk result (λ made. made ≡ id_at (port_name number) at) }
{
    Ok(Id {
        name: Name::new(alloc, format!(in alloc; "p{number}")?.as_str())?,
        pos: at,
    })
}

/// This name so many times, or nothing where that is none. The only error is want of memory.
pub(crate) fn id_list(
    alloc: Global,
    name: &str,
    at: Pos,
    count: usize,
) -> Result<Option<Items<Id>>, AllocError>
    ensures { IfOk result (λ ids. ids ≡ unless_none (replicate count (id_at name.now at))) }
{
    if count == 0 {
        return Ok(None);
    }
    let mut ids = Items::new(alloc);
    for _ in 0..count {
        ids.push(id(alloc, name, at)?)?;
    }
    Ok(Some(ids))
}
