use pz_rules::pz_copy::Parcel;

/// How a part acts.
#[derive(Clone, Copy)]
pub enum How<'a> {
    /// By itself.
    Internal,
    /// It hands over the parcel that it offers.
    Send,
    /// It takes this parcel.
    Receive(&'a Parcel),
}
