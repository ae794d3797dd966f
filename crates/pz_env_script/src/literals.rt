// The numbers and values that words are.

ghost use Rattle.std.specs.Prelude.{◌≡◌, ◌≤◌, ◌^◌, IfSome};
ghost use Rattle.pz_env_script.specs.devices.Reading.{number_up_to, wait_in, literal_of, integer_of, negative_of};

use pz_lines::number;
use pz_value::Value;

/// The number that the word is, if it is one and no greater than `most`.
pub fn number_up_to(word: &[u8], most: u64) -> Option<u64>
    ensures value { result ≡ number_up_to most word.now }
    ensures within { IfSome result (λ n. n ≤ most) }
{
    match number(word) {
        Some(n) if n <= most => Some(n),
        _ => None,
    }
}

/// The time that the word is, in clock units.
pub fn wait_in(word: &[u8]) -> Option<i64>
    ensures { result ≡ wait_in word.now }
{
    match number_up_to(word, i64::MAX as u64) {
        Some(n) => Some(n as i64),
        None => None,
    }
}

/// The value that the word writes.
pub fn literal(word: &[u8]) -> Option<Value>
    ensures { result ≡ literal_of word.now }
{
    if word == "nil".as_bytes() {
        return Some(Value::Nil);
    }
    if word == "true".as_bytes() {
        return Some(Value::Bool(true));
    }
    if word == "false".as_bytes() {
        return Some(Value::Bool(false));
    }
    match integer(word) {
        Some(n) => Some(Value::Int(n)),
        None => None,
    }
}

/// The integer that the word writes: a number of 64 bits, with a minus before it or without.
fn integer(word: &[u8]) -> Option<i64>
    ensures { result ≡ integer_of word.now }
{
    match word {
        [b'-', digits @ ..] => negative(digits),
        _ => wait_in(word),
    }
}

/// What is written with a minus before this number.
fn negative(digits: &[u8]) -> Option<i64>
    ensures { result ≡ negative_of digits.now }
{
    match number_up_to(digits, i64::MAX as u64 + 1) {
        Some(0) => Some(0),
        Some(n) => Some(-1 - (n - 1) as i64),
        None => None,
    }
}
