//! What options with a value say.

ghost use Rattle.std.specs.Prelude.{◌≡◌, IfOk};
ghost use Rattle.pz_words.specs.devices.Reading.{value_of};

use crate::jobs::Choice;
use crate::names::Valued;
use crate::numbers::{number, number_list, number_within};
use crate::options::{MOST_STEPS, MOST_UNITS, OptionWord};
use std::alloc::{AllocError, Global};

/// What an option says with this value, if it may have it. The only error is want of memory.
pub fn value(alloc: Global, option: Valued, word: &str) -> Result<Option<OptionWord>, AllocError>
    ensures { IfOk result (λ setting. setting ≡ value_of option word.now) }
{
    let setting = match option {
        Valued::Seed => number(word).map(|n| OptionWord::Chooses(Choice::Seed(n))),
        Valued::Choices => {
            number_list(alloc, word)?.map(|entries| OptionWord::Chooses(Choice::List(entries)))
        }
        Valued::Steps => number_within(word, 0, MOST_STEPS).map(|n| OptionWord::Steps(n)),
        Valued::Until => number(word).map(|n| OptionWord::Until(n)),
        Valued::Units => number_within(word, 1, MOST_UNITS).map(|n| OptionWord::Units(n)),
    };
    Ok(setting)
}
