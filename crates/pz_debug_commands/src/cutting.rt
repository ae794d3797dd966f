// Texts, cut at a byte. Takes no memory.

ghost use Rattle.std.specs.Prelude.{◌≡◌, ◌∷◌, ◌++◌, MatchOption};
ghost use Rattle.pz_debug_commands.specs.Lines.{Lacks};

/// What stands before the first such byte, and what behind it.
pub fn cut(text: &[u8], byte: u8) -> Option<(&[u8], &[u8])>
    ensures { MatchOption result (Lacks byte text.now) (λ parts. Lacks byte parts.0.now
        × (text.now ≡ parts.0.now ++ (byte ∷ parts.1.now))) }
{
    for (i, other) in text.iter().enumerate() {
        if *other == byte {
            let (before, _from) = text.split_at(i);
            let (_upto, behind) = text.split_at(i + 1);
            return Some((before, behind));
        }
    }
    None
}
