//! The words that options begin with.

ghost use Rattle.std.specs.Prelude.{◌≡◌};
ghost use Rattle.pz_words.specs.devices.Reading as device;

use crate::jobs::Choice;
use crate::options::OptionWord;

/// An option whose value is the next word.
#[derive(Clone, Copy, Debug, PartialEq, Eq)]
pub enum Valued {
    Seed,
    Choices,
    Steps,
    Until,
    Units,
}

/// The option without a value that is written so.
pub fn flag(word: &str) -> Option<OptionWord>
    ensures { result ≡ device.flag word.now }
{
    if word == "--first" {
        return Some(OptionWord::Chooses(Choice::First));
    }
    if word == "--summary" {
        return Some(OptionWord::Summary);
    }
    None
}

/// The option with a value that has this name.
pub fn option_named(word: &str) -> Option<Valued>
    ensures { result ≡ device.option_named word.now }
{
    if word == "--seed" {
        return Some(Valued::Seed);
    }
    if word == "--choices" {
        return Some(Valued::Choices);
    }
    if word == "--steps" {
        return Some(Valued::Steps);
    }
    if word == "--until" {
        return Some(Valued::Until);
    }
    if word == "--units" {
        return Some(Valued::Units);
    }
    None
}
