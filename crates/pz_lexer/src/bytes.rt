ghost use Rattle.std.specs.Prelude.{◌≡◌, ◌==◌, length, take_while};
ghost use Rattle.pz_lexer.specs.Bytes.{is_blank, is_digit, is_letter, is_word, begins};
ghost use Rattle.pz_lexer.specs.Comments.{is_in_line};

/// A tab, an LF, a CR or a blank.
pub fn is_blank(b: u8) -> bool
    ensures { result ≡ is_blank b }
{
    b == b'\t' || b == b'\n' || b == b'\r' || b == b' '
}

/// A decimal digit.
pub fn is_digit(b: u8) -> bool
    ensures { result ≡ is_digit b }
{
    b'0' <= b && b <= b'9'
}

/// An ASCII letter or `_`.
pub fn is_letter(b: u8) -> bool
    ensures { result ≡ is_letter b }
{
    (b'A' <= b && b <= b'Z') || (b'a' <= b && b <= b'z') || b == b'_'
}

fn is_word(b: u8) -> bool
    ensures { result ≡ is_word b }
{
    is_letter(b) || is_digit(b)
}

/// How many bytes at the front may stand in a word.
pub fn word_len(text: &[u8]) -> usize
    ensures { result ≡ length (take_while is_word text.now) }
{
    text.iter().take_while(|b| is_word(**b)).count()
}

/// How many bytes at the front are digits.
pub fn digits_len(text: &[u8]) -> usize
    ensures { result ≡ length (take_while is_digit text.now) }
{
    text.iter().take_while(|b| is_digit(**b)).count()
}

/// How many bytes stand before the next LF or the end.
pub fn line_len(text: &[u8]) -> usize
    ensures { result ≡ length (take_while is_in_line text.now) }
{
    text.iter().take_while(|b| **b != b'\n').count()
}

/// Whether the first byte is a letter.
pub fn begins_letter(text: &[u8]) -> bool
    ensures { result ≡ begins is_letter text.now }
{
    match text {
        [first, ..] => is_letter(*first),
        [] => false,
    }
}

/// Whether the first byte is a digit.
pub fn begins_digit(text: &[u8]) -> bool
    ensures { result ≡ begins is_digit text.now }
{
    match text {
        [first, ..] => is_digit(*first),
        [] => false,
    }
}

/// Whether the first byte is this one.
pub fn begins_byte(text: &[u8], byte: u8) -> bool
    ensures { result ≡ begins (λ b. b == byte) text.now }
{
    match text {
        [first, ..] => *first == byte,
        [] => false,
    }
}
