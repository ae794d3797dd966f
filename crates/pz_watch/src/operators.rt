// The operators of formulas, as they are read from the front of the words that are left.

ghost use Rattle.std.specs.Prelude.{◌≡◌, IfOk, IfErr, Some, None, map};
ghost use Rattle.pz_watch.specs.declared.errors.ReadWatchError.TheVariants.{Malformed};
ghost use Rattle.pz_lexer.specs.Spellings.{spelled, entry_of};
ghost use Rattle.pz_watch.specs.devices.Operators.{keywords, said_of, named_at, bound_at, operator_of, operator_in};
ghost use Rattle.pz_watch.specs.devices.Making.{make_one, make_two};
ghost use Rattle.pz_watch.specs.devices.Standing.{IsMadeOf, IsMadeOfBoth};

use crate::{Atom, Monitor, ReadWatchError};
use pz_items::Text;
use pz_lines::{Words, is_word, number, text_of};
use std::alloc::{AllocError, Global};

/// What a word is compared with where something is said of a line.
#[derive(Clone, Copy)]
pub enum Said {
    Message,
    From,
    To,
    Kind,
    At,
}

/// The first word of an operator.
#[derive(Clone, Copy)]
pub enum Keyword {
    /// A word follows.
    Said(Said),
    Pass,
    Not,
    And,
    Or,
    Before,
    Once,
    Always,
    Since,
}

/// An operator with one part.
#[derive(Clone, Copy)]
pub enum One {
    Not,
    Before,
    Once(Option<u64>),
    Always(Option<u64>),
}

/// An operator with two parts.
#[derive(Clone, Copy)]
pub enum Two {
    And,
    Or,
    Since(Option<u64>),
}

/// What stands in front of the parts of a formula.
#[derive(Drop)]
pub enum Operator {
    Line(Atom),
    One(One),
    Two(Two),
}

static KEYWORDS: [(&str, Keyword); 13] = [
    ("message", Keyword::Said(Said::Message)),
    ("from", Keyword::Said(Said::From)),
    ("to", Keyword::Said(Said::To)),
    ("kind", Keyword::Said(Said::Kind)),
    ("at", Keyword::Said(Said::At)),
    ("pass", Keyword::Pass),
    ("not", Keyword::Not),
    ("and", Keyword::And),
    ("or", Keyword::Or),
    ("before", Keyword::Before),
    ("once", Keyword::Once),
    ("always", Keyword::Always),
    ("since", Keyword::Since),
];

/// The keyword that is spelled so.
fn keyword_of(word: &[u8]) -> Option<Keyword>
    ensures { result ≡ spelled keywords word.now }
{
    find(&KEYWORDS, word)
}

/// What a text spells by a table of spellings.
fn find<T: Copy>(table: &[(&str, T)], text: &[u8]) -> Option<T>
    ensures { result ≡ spelled (map entry_of table.now) text.now }
{
    for (spelling, meaning) in table {
        if spelling.as_bytes() == text {
            return Some(*meaning);
        }
    }
    None
}

/// Takes an operator off the front of the words. Where it is malformed, some of it may be gone.
pub fn next_operator(alloc: Global, words: &mut Words<'_>) -> Result<Operator, ReadWatchError>
    ensures found { IfOk result (λ op. operator_in words.old ≡ Some (op, words.new)) }
    ensures malformed { IfErr result (λ e. e ≡ Malformed → operator_in words.old ≡ None) }
{
    let Some(word) = words.next() else {
        return Err(ReadWatchError::Malformed);
    };
    match keyword_of(word) {
        Some(keyword) => behind(alloc, keyword, words),
        None => Err(ReadWatchError::Malformed),
    }
}

/// The operator that this keyword begins, with what of it stands behind.
fn behind(
    alloc: Global,
    keyword: Keyword,
    words: &mut Words<'_>,
) -> Result<Operator, ReadWatchError>
    ensures found { IfOk result (λ op. operator_of keyword words.old ≡ Some (op, words.new)) }
    ensures malformed { IfErr result (λ e. e ≡ Malformed → operator_of keyword words.old ≡ None) }
{
    match keyword {
        Keyword::Said(said) => named(alloc, said, words),
        Keyword::Pass => Ok(Operator::Line(Atom::Pass)),
        Keyword::Not => Ok(Operator::One(One::Not)),
        Keyword::And => Ok(Operator::Two(Two::And)),
        Keyword::Or => Ok(Operator::Two(Two::Or)),
        Keyword::Before => Ok(Operator::One(One::Before)),
        Keyword::Once => Ok(Operator::One(One::Once(bound(words)?))),
        Keyword::Always => Ok(Operator::One(One::Always(bound(words)?))),
        Keyword::Since => Ok(Operator::Two(Two::Since(bound(words)?))),
    }
}

/// What is said of a line with the next word.
fn named(alloc: Global, said: Said, words: &mut Words<'_>) -> Result<Operator, ReadWatchError>
    ensures found { IfOk result (λ op. named_at said words.old ≡ Some (op, words.new)) }
    ensures malformed { IfErr result (λ e. e ≡ Malformed → named_at said words.old ≡ None) }
{
    let Some(word) = words.next() else {
        return Err(ReadWatchError::Malformed);
    };
    if !is_word(word) {
        return Err(ReadWatchError::Malformed);
    }
    Ok(Operator::Line(said.of(text_of(alloc, word)?)))
}

/// Takes a bound off the front of the words: a number, or `*` for none.
fn bound(words: &mut Words<'_>) -> Result<Option<u64>, ReadWatchError>
    ensures found { IfOk result (λ bound. bound_at words.old ≡ Some (bound, words.new)) }
    ensures malformed { IfErr result (λ e. (e ≡ Malformed) × (bound_at words.old ≡ None)) }
{
    let Some(word) = words.next() else {
        return Err(ReadWatchError::Malformed);
    };
    if word == "*".as_bytes() {
        return Ok(None);
    }
    match number(word) {
        Some(number) => Ok(Some(number)),
        None => Err(ReadWatchError::Malformed),
    }
}

impl Said {
    /// What is said with this word.
    fn of(self, text: Text) -> Atom
        ensures { result ≡ said_of self text }
    {
        match self {
            Said::Message => Atom::Message(text),
            Said::From => Atom::From(text),
            Said::To => Atom::To(text),
            Said::Kind => Atom::Kind(text),
            Said::At => Atom::At(text),
        }
    }
}

impl One {
    /// The monitor of the operator over that of its part. The only error is want of memory.
    pub fn over(self, alloc: Global, part: Monitor) -> Result<Monitor, AllocError>
        ensures { IsMadeOf (make_one self) part result }
    {
        match self {
            One::Not => Monitor::negation(alloc, part),
            One::Before => Monitor::before(alloc, part),
            One::Once(bound) => Monitor::once(alloc, bound, part),
            One::Always(bound) => Monitor::always(alloc, bound, part),
        }
    }
}

impl Two {
    /// The monitor of the operator over those of its parts. The only error is want of memory.
    pub fn over(self, alloc: Global, first: Monitor, second: Monitor) -> Result<Monitor, AllocError>
        ensures { IsMadeOfBoth (make_two self) first second result }
    {
        match self {
            Two::And => Monitor::both(alloc, first, second),
            Two::Or => Monitor::either(alloc, first, second),
            Two::Since(bound) => Monitor::since(alloc, bound, first, second),
        }
    }
}
