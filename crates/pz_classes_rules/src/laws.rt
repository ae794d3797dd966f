// Laws of the definitions, each the contract of a function that does nothing.

ghost use Rattle.pz_classes_rules.specs.Reached.{AncestorsAreReached};
ghost use Rattle.pz_classes_rules.specs.SoundBodies.{SoundBodiesFit};
ghost use Rattle.pz_classes_rules.specs.SoundClasses.{SoundClassesFit};
ghost use Rattle.pz_classes_rules.specs.SoundNumbers.{SoundNumbersFit};
ghost use Rattle.pz_classes_rules.specs.SoundSystem.{SoundSystemsFit};

/// The ancestors of a class that is declared are the classes that one comes to by its parent, that
/// one's parent and so on, and no others.
pub fn ancestors_are_reached()
    ensures law { AncestorsAreReached }
{}

/// A sound model has one system. Each instance has its class and gives each parameter of it once,
/// and no other name. Each end of a channel is there, and stands once. No cluster class holds
/// itself, and the expanded system is not too large.
pub fn sound_systems_fit()
    ensures law { SoundSystemsFit }
{}

/// In a sound model the fields, variables and ports of an ancestor begin those of the class, and no
/// name stands twice among them. Each process class starts with a call of a method that it has. A
/// method that is called in a class is one of the class and of all that descend from it.
pub fn sound_classes_fit()
    ensures law { SoundClassesFit }
{}

/// In a sound model all that a body names is there, in the class that has the method as in each that
/// inherits it: each variable is an input, output or local of the method, or a field or variable of
/// the class, each port one of the class, each class that is created Array or a data class, and each
/// method that is called is one of the class, with its body at its number. No body has a float, and
/// each has room for what its method is handed and hands out. The call with which a process starts is
/// of this kind too.
pub fn sound_bodies_fit()
    ensures law { SoundBodiesFit }
{}

/// Where the text of a sound model has fewer than 2^32 - 1 marks, 32 bits number its classes, the ports
/// of each class with those that it inherits, and the instances that stand in a class or system.
pub fn sound_numbers_fit()
    ensures law { SoundNumbersFit }
{}
