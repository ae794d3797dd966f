ghost use Rattle.std.specs.Prelude.{◌≡◌};

use crate::{DataClass, Id, Literal, Pos, ProcessClass, VarGroup};
use pz_items::Items;

/// A whole model.
pub struct Model {
    pub decls: Items<Decl>,
}

// Written out for the same reason as that of `Expr`.
impl Drop for Model {
    fn drop(self) {
        let Model { decls } = self;
        std::mem::drop(decls);
    }
}

impl Model {
    /// Its declarations in order.
    pub fn into_decls(self) -> Items<Decl>
        ensures { result ≡ self.decls }
    {
        let Model { decls } = self;
        decls
    }
}

/// A declaration at the top of a model.
#[derive(Drop)]
pub enum Decl {
    Data(DataClass),
    Process(ProcessClass),
    Cluster(ClusterClass),
    System(SystemDecl),
}

/// A cluster class. A section is there if its keyword is written, and the parameters if their
/// brackets are.
pub struct ClusterClass {
    pub name: Id,
    pub parameters: Option<Items<VarGroup>>,
    pub ports: Option<Items<Id>>,
    pub instances: Option<Items<Instance>>,
    pub channels: Option<Items<Channel>>,
}

// Written out for the same reason as that of `Expr`.
impl Drop for ClusterClass {
    fn drop(self) {
        let ClusterClass {
            name,
            parameters,
            ports,
            instances,
            channels,
        } = self;
        std::mem::drop(name);
        std::mem::drop(parameters);
        std::mem::drop(ports);
        std::mem::drop(instances);
        std::mem::drop(channels);
    }
}

/// The system, at the place of its keyword.
#[derive(Drop)]
pub struct SystemDecl {
    pub pos: Pos,
    pub instances: Option<Items<Instance>>,
    pub channels: Option<Items<Channel>>,
}

/// An instance of a class, with the arguments in its brackets if they are written.
#[derive(Drop)]
pub struct Instance {
    pub name: Id,
    pub class: Id,
    pub given: Option<Items<Given>>,
}

/// A parameter and what it is given.
#[derive(Drop)]
pub struct Given {
    pub name: Id,
    pub arg: Arg,
}

/// An argument of an instance, at the place of its first token. `Negated` has the integer behind
/// the minus.
#[derive(Drop)]
pub enum Arg {
    Plain(Literal, Pos),
    Negated(i64, Pos),
    Parameter(Id),
}

/// A channel, at the place of its opening brace.
#[derive(Drop)]
pub struct Channel {
    pub pos: Pos,
    pub ends: Items<ChannelEnd>,
}

/// A port of an instance, or a port of the cluster itself.
#[derive(Drop)]
pub enum ChannelEnd {
    Inner(Id, Id),
    Outer(Id),
}
