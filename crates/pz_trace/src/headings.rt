// What the lines of a trace begin with. Takes no memory.

ghost use Rattle.std.specs.Prelude.{◌≡◌, ◌+◌, ◌*◌, ◌<◌, ◌^◌, ◌++◌, ℕ, List, MatchOption};
ghost use Rattle.std.specs.Char.{digit_value};
ghost use Rattle.std.specs.Fmt.{decimal};
ghost use Rattle.std.specs.Option.{SomeIff};
ghost use Rattle.pz_trace.specs.Headings.{BeginsWithNumbers, IsHeading};
ghost use Rattle.pz_trace.specs.Laws.{Unbroken, IsLine};
ghost use Rattle.pz_trace.specs.devices.Reading.{Lacks, StandsFirst, BeginsWithNumber};

/// What a line begins with.
#[derive(Clone, Copy, Debug, PartialEq, Eq)]
pub enum Heading {
    /// Three numbers: at this clock, in clock units, of `n` offers the one of number `k`, from 0.
    Step { clock: u128, n: u64, k: u64 },
    /// Anything else.
    Other,
}

/// The place, from 0, at which the byte first stands in the text.
pub(crate) fn place_of(text: &[u8], byte: u8) -> Option<usize>
    ensures { MatchOption result (Lacks byte text.now) (StandsFirst byte text.now) }
{
    for (i, other) in text.iter().enumerate() {
        if *other == byte {
            return Some(i);
        }
    }
    None
}

/// The first line of a text, with its LF. None where no LF stands in the text.
pub fn first_line(text: &[u8]) -> Option<&[u8]>
    ensures { MatchOption result (Unbroken text.now)
        (λ line. IsLine line.now × ((rest : List ℕ) × (text.now ≡ line.now ++ rest))) }
{
    let end = place_of(text, b'\n')?;
    let (line, _rest) = text.split_at(end + 1);
    Some(line)
}

/// The heading of a line: a `Step` where it begins with three decimal numbers without sign or leading
/// zero that fit, a blank after each. None where what is given is no line, with LF at its end and none
/// before.
pub fn read_line(line: &[u8]) -> Option<Heading>
    ensures { MatchOption result (IsLine line.now →
        ⊥) (λ heading. IsLine line.now × IsHeading line.now heading) }
{
    let first = first_line(line)?;
    if first.len() < line.len() {
        return None;
    }
    Some(heading_of(line))
}

fn heading_of(line: &[u8]) -> Heading
    ensures { IsHeading line.now result }
{
    match numbers(line) {
        Some((clock, n, k)) => Heading::Step { clock, n, k },
        None => Heading::Other,
    }
}

// The three numbers that the line begins with.
fn numbers(line: &[u8]) -> Option<(u128, u64, u64)>
    ensures { MatchOption result ((clock n k : ℕ) → BeginsWithNumbers line.now clock n k →
        ⊥) (λ found. BeginsWithNumbers line.now found.0 found.1 found.2) }
{
    let (clock, rest) = number(line)?;
    let (n, rest) = short_number(rest)?;
    let (k, _rest) = short_number(rest)?;
    Some((clock, n, k))
}

// The same as `number`, of a number below 2^64.
fn short_number(text: &[u8]) -> Option<(u64, &[u8])>
    ensures { MatchOption result ((n : ℕ) (rest : List ℕ) → BeginsWithNumber text.now n rest →
        n < 2 ^ 64 → ⊥) (λ found. (found.0 < 2 ^ 64)
        × BeginsWithNumber text.now found.0 found.1.now) }
{
    let (n, rest) = number(text)?;
    match u64::try_from(n) {
        Ok(n) => Some((n, rest)),
        Err(_) => None,
    }
}

// The number that stands before the first blank, and what follows the blank.
fn number(text: &[u8]) -> Option<(u128, &[u8])>
    ensures { MatchOption result ((n : ℕ) (rest : List ℕ) → BeginsWithNumber text.now n rest →
        ⊥) (λ found. BeginsWithNumber text.now found.0 found.1.now) }
{
    let end = place_of(text, b' ')?;
    let (digits, _blank) = text.split_at(end);
    let (_number, rest) = text.split_at(end + 1);
    let n = value_of(digits)?;
    Some((n, rest))
}

/// The number that these digits write, without a leading zero.
pub(crate) fn value_of(digits: &[u8]) -> Option<u128>
    ensures { MatchOption result ((n : ℕ) → n < 2 ^ 128 → digits.now ≡ decimal n →
        ⊥) (λ n. (n < 2 ^ 128) × (digits.now ≡ decimal n)) }
{
    let (first, rest) = digits.split_first()?;
    if *first == b'0' && !rest.is_empty() {
        return None;
    }
    let mut value = 0;
    for digit in digits {
        value = with_digit(value, *digit)?;
    }
    Some(value)
}

// The number with one digit more at its end.
fn with_digit(value: u128, digit: u8) -> Option<u128>
    ensures { SomeIff result ((digit_value digit < 10) × (value * 10 + digit_value digit < 2 ^ 128))
        (value * 10 + digit_value digit) }
{
    if !digit.is_ascii_digit() {
        return None;
    }
    let tenfold = value.checked_mul(10)?;
    tenfold.checked_add(u128::from(digit - b'0'))
}
