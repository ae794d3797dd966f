use pz_eval_operations::pz_classes::Classes;
use std::alloc::Global;

/// What an evaluation stands on.
#[derive(Clone, Copy)]
pub struct Basis<'a> {
    pub alloc: Global,
    pub classes: &'a Classes,
    pub clock: u128,
}
