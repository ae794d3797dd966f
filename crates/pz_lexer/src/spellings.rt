ghost use Rattle.std.specs.Prelude.{◌≡◌, map};
ghost use Rattle.pz_lexer.specs.Spellings.{spelled, entry_of};

/// What a text spells by a table of spellings.
pub fn find<T: Copy>(table: &[(&str, T)], text: &[u8]) -> Option<T>
    ensures { result ≡ spelled (map entry_of table.now) text.now }
{
    for (spelling, meaning) in table {
        if spelling.as_bytes() == text {
            return Some(*meaning);
        }
    }
    None
}
