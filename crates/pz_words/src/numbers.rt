//! Numbers in words.

ghost use Rattle.std.specs.Prelude.{◌≡◌, IfOk, map, eqb};
ghost use Rattle.std.specs.List.{slice_split};
ghost use Rattle.pz_words.specs.devices.Reading.{number_of, number_between, numbers_of, is_plain as plain};

use pz_items::Items;
use std::alloc::{AllocError, Global};

/// Whether what stands first is no plus, and no zero before more.
fn is_plain(word: &[u8]) -> bool
    ensures { result ≡ plain word.now }
{
    match word {
        [] => true,
        [first, rest @ ..] => *first != b'+' && (*first != b'0' || rest.is_empty()),
    }
}

/// The number that the word has: decimal digits without sign or leading zero, below 2^64.
pub fn number(word: &str) -> Option<u64>
    ensures { result ≡ number_of word.now }
{
    if is_plain(word.as_bytes()) {
        word.parse::<u64>().ok()
    } else {
        None
    }
}

/// The number that the word has, if it is one of these.
pub fn number_within(word: &str, least: u64, most: u64) -> Option<u64>
    ensures { result ≡ number_between least most word.now }
{
    let n = number(word)?;
    if least <= n && n <= most {
        Some(n)
    } else {
        None
    }
}

fn numbers_in(alloc: Global, parts: &[&str]) -> Result<Option<Items<u64>>, AllocError>
    ensures { IfOk result (λ found. found ≡ numbers_of (map (λ p. p.now) parts.now)) }
{
    let mut numbers = Items::new(alloc);
    for part in parts {
        let Some(n) = number(part) else {
            return Ok(None);
        };
        numbers.push(n)?;
    }
    Ok(Some(numbers))
}

/// The numbers that the word has, separated by single commas; one at least. The only error is want
/// of memory.
pub fn number_list(alloc: Global, word: &str) -> Result<Option<Items<u64>>, AllocError>
    ensures { IfOk result (λ found. found ≡ numbers_of (slice_split (λ b. eqb b 44) word.now)) }
{
    let parts = word.split(',').collect::<Vec<&str>>(alloc)?;
    numbers_in(alloc, parts.as_slice())
}
