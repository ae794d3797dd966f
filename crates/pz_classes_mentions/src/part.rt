use pz_syntax::{ClusterClass, DataClass, DataMethod, ProcessClass, ProcessMethod, SystemDecl};
use std::marker::Model;

/// A part of a declaration where it stands in the tree. Contracts see the `LocalScope` that it is.
#[derive(Drop)]
pub struct Part<'a> {
    pub(crate) stretch: Stretch<'a>,
}

impl<'a> Model for Part<'a> {
    ghost use Rattle.pz_classes_mentions.specs.declared.local_scope.LocalScope.{LocalScope};
    ghost use Rattle.pz_classes_mentions.specs.Stretches.{scope};

    ghost Value = { LocalScope };

    ghost view = { λ part. scope part.stretch };
}

/// What stands before the methods of a class, a method, or a whole declaration without methods.
#[derive(Clone, Copy)]
pub(crate) enum Stretch<'a> {
    DataHead(&'a DataClass),
    DataMethod(&'a DataMethod),
    ProcessHead(&'a ProcessClass),
    ProcessMethod(&'a ProcessMethod),
    Cluster(&'a ClusterClass),
    System(&'a SystemDecl),
}
