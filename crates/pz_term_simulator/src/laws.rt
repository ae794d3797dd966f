// Laws of simulators, each the contract of a function that does nothing.

ghost use Rattle.pz_term_simulator.specs.Laws.{OneMomentOf, OffersAreThere, OffersAreCounted, OffersAreNumbered, OffersAreDerived, OneOfferOf};
ghost use Rattle.pz_term_simulator.specs.devices.Room.{StartsWithRoom, ChoicesTakeRoom, PassingsTakeNoRoom, RoomMeansLow, LessRoomToo};

/// A simulator has no more than one moment. Where that counts offers they are there, so many; each has its
/// number, which tells it, and is one by the rules, in the configuration at which the simulator stands.
pub fn simulators_show_one_moment()
    ensures one { OneMomentOf }
    ensures there { OffersAreThere }
    ensures counted { OffersAreCounted }
    ensures numbered { OffersAreNumbered }
    ensures derived { OffersAreDerived }
    ensures same { OneOfferOf }
{
    pz_rules::laws::one_moment();
    pz_rules::laws::one_list_of_offers();
}

/// Room for as many actions as a run has is there at the start, an action takes the room of one, a passing
/// that is short takes none, and where there is room and time may pass the clock is below 2^127, so that
/// `pass` may be called.
pub fn room_is_left()
    ensures start { StartsWithRoom }
    ensures choice { ChoicesTakeRoom }
    ensures passing { PassingsTakeNoRoom }
    ensures low { RoomMeansLow }
    ensures less { LessRoomToo }
{
    pz_rules::laws::room_is_left();
}
