ghost use Rattle.std.specs.Prelude.{◌≡◌};
ghost use Rattle.rand_pcg.specs.Pcg.{pcg32};
ghost use Rattle.pz_choice.specs.SeededWords.{generator_after};

use rand_core::SeedableRng;
use rand_core::utils::NextWord;
use rand_pcg::Lcg64Xsh32;
use std::marker::Model;

/// A generator of words of 32 bits, made from a seed. Contracts see its state.
#[derive(Debug, Drop)]
pub struct Generator {
    words: Lcg64Xsh32,
}

impl Model for Generator {
    ghost use Rattle.rand_pcg.specs.Lcg.{Lcg};

    ghost Value = { Lcg };

    ghost view = { λ g. g.words };
}

impl Generator {
    /// The generator that a seed makes, before its first word.
    pub fn new(seed: u64) -> Generator
        ensures { result ≡ generator_after seed 0 }
    {
        Generator {
            words: Lcg64Xsh32::seed_from_u64(seed),
        }
    }

    /// The next word.
    pub fn draw(&mut self) -> u32
        ensures { (result, self.new) ≡ pcg32 self.old }
    {
        self.words.next_word()
    }
}
