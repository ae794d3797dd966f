// The identifiers of models.

ghost use Rattle.std.specs.Prelude.{◌≡◌, bytes_eq, map};
ghost use Rattle.std.specs.List.{list_all, list_any};
ghost use Rattle.pz_lexer.specs.Bytes.{is_letter, is_word, begins};
ghost use Rattle.pz_lines.specs.Identifiers.{is_identifier, is_reserved};

/// Whether the text is an identifier of models.
pub fn is_identifier(text: &[u8]) -> bool
    ensures { result ≡ is_identifier text.now }
{
    begins_letter(text) && has_letters_and_digits(text) && !is_reserved(text)
}

fn begins_letter(text: &[u8]) -> bool
    ensures { result ≡ begins is_letter text.now }
{
    match text {
        [first, ..] => is_letter(*first),
        [] => false,
    }
}

fn has_letters_and_digits(text: &[u8]) -> bool
    ensures { result ≡ list_all is_word text.now }
{
    text.iter().all(|b| is_word(*b))
}

/// An ASCII letter or `_`.
fn is_letter(b: u8) -> bool
    ensures { result ≡ is_letter b }
{
    (b'A' <= b && b <= b'Z') || (b'a' <= b && b <= b'z') || b == b'_'
}

fn is_word(b: u8) -> bool
    ensures { result ≡ is_word b }
{
    is_letter(b) || (b'0' <= b && b <= b'9')
}

static RESERVED: [&str; 42] = [
    "data",
    "process",
    "cluster",
    "class",
    "system",
    "extends",
    "ports",
    "messages",
    "variables",
    "init",
    "methods",
    "instances",
    "channels",
    "skip",
    "delay",
    "par",
    "and",
    "rap",
    "sel",
    "or",
    "les",
    "if",
    "then",
    "else",
    "fi",
    "while",
    "do",
    "od",
    "abort",
    "interrupt",
    "with",
    "new",
    "self",
    "nil",
    "true",
    "false",
    "return",
    "currentTime",
    "super",
    "native",
    "import",
    "importlib",
];

/// Whether the word is reserved in models.
fn is_reserved(word: &[u8]) -> bool
    ensures { result ≡ is_reserved word.now }
{
    is_among(&RESERVED, word)
}

fn is_among(words: &[&str], word: &[u8]) -> bool
    ensures { result ≡ list_any (λ w. bytes_eq w word.now) (map (λ w. w.now) words.now) }
{
    for other in words {
        if other.as_bytes() == word {
            return true;
        }
    }
    false
}
