ghost use Rattle.std.specs.Prelude.{◌≡◌};
ghost use Rattle.pz_lines.specs.Numbers.{number_of};
ghost use Rattle.pz_lines.specs.devices.Plain.{is_plain as plain};

/// The number that the word is: decimal digits without sign or leading zero, below 2^64.
pub fn number(word: &[u8]) -> Option<u64>
    ensures { result ≡ number_of word.now }
{
    if !is_plain(word) {
        return None;
    }
    match str::from_utf8(word) {
        Ok(text) => text.parse::<u64>().ok(),
        Err(_) => None,
    }
}

/// Whether what stands first is no plus, and no zero before more.
fn is_plain(word: &[u8]) -> bool
    ensures { result ≡ plain word.now }
{
    match word {
        [] => true,
        [first, rest @ ..] => *first != b'+' && (*first != b'0' || rest.is_empty()),
    }
}
