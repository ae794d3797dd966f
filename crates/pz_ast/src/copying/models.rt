ghost use Rattle.std.specs.Prelude.{◌≡◌, IfOk};

use crate::copying::parts::{Copied, copy_five, copy_two};
use pz_syntax::pz_items::both;
use pz_syntax::{Arg, Channel, ChannelEnd, ClusterClass, Decl, Given, Instance, Model, SystemDecl};
use std::alloc::{AllocError, Global};

/// An equal model, with all positions. Takes a time that is linear in the tree. The only error is want
/// of memory.
pub fn copy_model(alloc: Global, model: &Model) -> Result<Model, AllocError>
    ensures { IfOk result (λ copy. copy ≡ model.now) }
{
    Ok(Model {
        decls: model.decls.copied(alloc)?,
    })
}

impl Copied for Decl {
    fn copied(&self, alloc: Global) -> Result<Decl, AllocError> {
        match self {
            Decl::Data(class) => Ok(Decl::Data(class.copied(alloc)?)),
            Decl::Process(class) => Ok(Decl::Process(class.copied(alloc)?)),
            Decl::Cluster(class) => Ok(Decl::Cluster(class.copied(alloc)?)),
            Decl::System(system) => Ok(Decl::System(system.copied(alloc)?)),
        }
    }
}

impl Copied for ClusterClass {
    fn copied(&self, alloc: Global) -> Result<ClusterClass, AllocError> {
        let (((name, parameters), (ports, instances)), channels) = copy_five(
            alloc,
            &self.name,
            &self.parameters,
            &self.ports,
            &self.instances,
            &self.channels,
        )?;
        Ok(ClusterClass {
            name,
            parameters,
            ports,
            instances,
            channels,
        })
    }
}

impl Copied for SystemDecl {
    fn copied(&self, alloc: Global) -> Result<SystemDecl, AllocError> {
        let (instances, channels) = copy_two(alloc, &self.instances, &self.channels)?;
        Ok(SystemDecl {
            pos: self.pos,
            instances,
            channels,
        })
    }
}

impl Copied for Instance {
    fn copied(&self, alloc: Global) -> Result<Instance, AllocError> {
        let made = copy_two(alloc, &self.class, &self.given);
        let (name, (class, given)) = both(self.name.copy(), made)?;
        Ok(Instance { name, class, given })
    }
}

impl Copied for Given {
    fn copied(&self, alloc: Global) -> Result<Given, AllocError> {
        let (name, arg) = copy_two(alloc, &self.name, &self.arg)?;
        Ok(Given { name, arg })
    }
}

impl Copied for Arg {
    fn copied(&self, _alloc: Global) -> Result<Arg, AllocError> {
        match self {
            Arg::Plain(literal, pos) => Ok(Arg::Plain(literal.copy()?, *pos)),
            Arg::Negated(number, pos) => Ok(Arg::Negated(*number, *pos)),
            Arg::Parameter(name) => Ok(Arg::Parameter(name.copy()?)),
        }
    }
}

impl Copied for Channel {
    fn copied(&self, alloc: Global) -> Result<Channel, AllocError> {
        Ok(Channel {
            pos: self.pos,
            ends: self.ends.copied(alloc)?,
        })
    }
}

impl Copied for ChannelEnd {
    fn copied(&self, alloc: Global) -> Result<ChannelEnd, AllocError> {
        match self {
            ChannelEnd::Inner(instance, port) => {
                let (instance, port) = copy_two(alloc, instance, port)?;
                Ok(ChannelEnd::Inner(instance, port))
            }
            ChannelEnd::Outer(port) => Ok(ChannelEnd::Outer(port.copy()?)),
        }
    }
}
