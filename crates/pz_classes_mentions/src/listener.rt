ghost use Rattle.std.specs.Prelude.{◌≡◌};
ghost use Rattle.pz_classes_mentions.specs.declared.mention.Mention.{Mention as Mentioned};
ghost use Rattle.pz_classes_mentions.specs.Words.{mention};

use crate::Word;

/// Who is told the words of a declaration one by one, and draws something from them.
pub trait Listener {
    /// What is drawn from words.
    type Heard;

    /// Whether it may be told words.
    ghost listens: { Self → Type 0 };

    /// What is drawn once a word has come.
    ghost after: { Self → Self.Heard → Mentioned → Self.Heard };

    /// Takes what was drawn from the words before, and gives what is drawn with this one.
    fn hear(&self, heard: Self::Heard, word: Word) -> Self::Heard
        requires { listens self.now }
        ensures { result ≡ after self.now heard (mention word.entry) };
}
