//! Cluster classes and the system.

ghost use Rattle.std.specs.Prelude.{◌≡◌};
ghost use Rattle.pz_parser_cursor.specs.devices.Device.{Reads};
ghost use Rattle.pz_parser_declarations.specs.devices.Clusters as spec;

use crate::channels::channels_section;
use crate::instances::instances_section;
use pz_parser_cursor::{Cursor, Next, Refusal, optional_formal, ports_section};
use pz_syntax::{ClusterClass, SystemDecl};
use std::alloc::Global;

/// A cluster class. Its keyword `cluster` is to stand next.
#[tactic(auto, unfolding(crate::specs::devices::Clusters::cluster_class))]
pub fn cluster_class(alloc: Global, cursor: &mut Cursor<'_>) -> Result<ClusterClass, Refusal>
    ensures reads { Reads (λ x. x) (spec.cluster_class cursor.old) result cursor.new }
{
    cursor.expect(Next::Cluster)?;
    cursor.expect(Next::Class)?;
    let name = cursor.expect_id(alloc, Next::Word)?;
    let parameters = optional_formal(alloc, cursor)?;
    let ports = ports_section(alloc, cursor)?;
    let instances = instances_section(alloc, cursor)?;
    let channels = channels_section(alloc, cursor)?;
    Ok(ClusterClass {
        name,
        parameters,
        ports,
        instances,
        channels,
    })
}

/// The system. Its keyword is to stand next.
#[tactic(auto, unfolding(crate::specs::devices::Clusters::system))]
pub fn system(alloc: Global, cursor: &mut Cursor<'_>) -> Result<SystemDecl, Refusal>
    ensures reads { Reads (λ x. x) (spec.system cursor.old) result cursor.new }
{
    let pos = cursor.pos();
    cursor.expect(Next::System)?;
    let instances = instances_section(alloc, cursor)?;
    let channels = channels_section(alloc, cursor)?;
    Ok(SystemDecl {
        pos,
        instances,
        channels,
    })
}
