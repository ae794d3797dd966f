use pz_bind::Net;
use pz_bind::pz_classes::Checked;
use pz_rules::Limits;
use std::alloc::Global;

/// In what a simulator goes on: the model with its net, what evaluations and terms may take, and the clock.
#[derive(Clone, Copy)]
pub(crate) struct Scene<'a> {
    pub(crate) alloc: Global,
    pub(crate) checked: &'a Checked,
    pub(crate) net: &'a Net,
    pub(crate) limits: Limits,
    /// In clock units from the start of the run.
    pub(crate) clock: u128,
}
