use pz_classes_code::pz_syntax::Name;
use pz_copy::Parcel;
use pz_offer::Place;

/// An active send, with the values that it has for the message now.
#[derive(Drop)]
pub struct ActiveSend {
    /// Where it stands in the term.
    pub place: Place,
    /// The number of its port in the class.
    pub port: u32,
    pub message: Name,
    pub parcel: Parcel,
}

/// An active receive.
#[derive(Drop)]
pub struct ActiveReceive {
    /// Where it stands in the term.
    pub place: Place,
    /// The number of its port in the class.
    pub port: u32,
    pub message: Name,
    /// How many values it takes.
    pub count: usize,
    /// Whether it has a condition on these values.
    pub conditional: bool,
    /// Whether it has a condition that names the clock.
    pub uses_clock: bool,
}
