use pz_eval::pz_classes::Classes;
use pz_rules::Limits;

/// From where the statements of a process see the model.
#[derive(Clone, Copy)]
pub struct Standpoint<'a> {
    pub classes: &'a Classes,
    pub limits: Limits,
    /// The number of the process, from 0 in the order of the text.
    pub process: u32,
    /// The clock, in clock units from the start of the run.
    pub clock: u128,
}
