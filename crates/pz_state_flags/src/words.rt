//! Flags as the bits of words.

ghost use Rattle.std.specs.Prelude.{◌≡◌, ◌≢◌, ◌<◌, ◌≤◌, ◌/◌, ◌^◌, ℕ, if◌then◌else◌, nat_eq, length, OnOk};
ghost use Rattle.std.specs.Int.{bit_at};
ghost use Rattle.pz_state_flags.specs.Flags.{word_at, is_set, IsFirstClear};
ghost use Rattle.pz_state_flags.specs.devices.Words.{is_full, IsFirstOpen};

use std::alloc::AllocError;

/// A word with one of its flags set or cleared.
fn with_flag(word: u64, bit: usize, flag: bool) -> u64
    requires { bit < 64 }
    ensures same { bit_at result bit ≡ if flag then 1 else 0 }
    ensures others { (i : ℕ) → i < 64 → i ≢ bit → bit_at result i ≡ bit_at word i }
{
    if flag {
        word | (1 << bit)
    } else {
        word & !(1 << bit)
    }
}

/// Sets or clears a flag, and tells whether its word is full then.
pub fn set_flag(words: &mut Vec<u64>, place: usize, flag: bool) -> bool
    requires { place / 64 < length words.old.items }
    ensures flags { (i : ℕ) → is_set words.new.items i ≡
        if nat_eq i place then flag else is_set words.old.items i }
    ensures words { (k : ℕ) → k ≢ place / 64 → word_at words.new.items k ≡
        word_at words.old.items k }
    ensures full { result ≡ is_full (word_at words.new.items (place / 64)) }
    ensures length { length words.new.items ≡ length words.old.items }
{
    let word = with_flag(words[place / 64], place % 64, flag);
    words[place / 64] = word;
    word == u64::MAX
}

/// The first word that is not full.
pub fn first_open(words: &Vec<u64>) -> usize
    ensures { IsFirstOpen words.now.items result }
{
    for (place, word) in words.iter().enumerate() {
        if *word != u64::MAX {
            return place;
        }
    }
    words.len()
}

/// The first flag that is not set, which is one of the first word that is not full.
pub fn first_clear_in(words: &Vec<u64>, place: usize) -> usize
    requires first { IsFirstOpen words.now.items place }
    requires small { length words.now.items ≤ 2 ^ 57 }
    ensures { IsFirstClear words.now.items result }
{
    let word = words.get(place).copied().unwrap_or(0);
    place * 64 + word.trailing_ones() as usize
}

/// Makes room for a word, at the end at most. The only error is want of memory.
pub fn extend(words: &mut Vec<u64>, place: usize) -> Result<(), AllocError>
    requires { place ≤ length words.old.items }
    ensures words { (k : ℕ) → word_at words.new.items k ≡ word_at words.old.items k }
    ensures ok { OnOk result (place < length words.new.items) }
    ensures grows { length words.old.items ≤ length words.new.items }
    ensures most { (n : ℕ) → length words.old.items ≤ n → place < n → length words.new.items ≤ n }
{
    if place < words.len() {
        return Ok(());
    }
    words.push(0)?;
    Ok(())
}
