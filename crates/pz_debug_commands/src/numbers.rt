// Numbers in words. Takes no memory.

ghost use Rattle.std.specs.Prelude.{◌≡◌};
ghost use Rattle.pz_words.specs.devices.Reading.{number_of, is_plain as plain};
ghost use Rattle.pz_debug_commands.specs.devices.Reading.{count_of};

/// The most steps of a command.
const MOST_STEPS: u64 = 1_000_000;

/// The number that the word has: decimal digits without sign or leading zero, below 2^64.
pub fn number(word: &[u8]) -> Option<u64>
    ensures { result ≡ number_of word.now }
{
    if !is_plain(word) {
        return None;
    }
    match str::from_utf8(word) {
        Ok(text) => text.parse::<u64>().ok(),
        Err(_) => None,
    }
}

/// The number that the word has, if so many steps may be asked for.
pub fn count(word: &[u8]) -> Option<u64>
    ensures { result ≡ count_of word.now }
{
    let n = number(word)?;
    if n <= MOST_STEPS { Some(n) } else { None }
}

/// Whether what stands first is no plus, and no zero before more.
fn is_plain(word: &[u8]) -> bool
    ensures { result ≡ plain word.now }
{
    match word {
        [] => true,
        [first, rest @ ..] => *first != b'+' && (*first != b'0' || rest.is_empty()),
    }
}
