//! Offers as words of a line.

use std::alloc::{AllocError, Global};
use std::str::Split;

#[derive(Clone, Copy, PartialEq, Eq)]
pub enum Kind {
    Send,
    /// A receive without a condition.
    Receive,
    /// A receive with a condition.
    Asking,
}

/// An offer of a process. Its place is its number among those of the process.
#[derive(Clone, Copy)]
pub struct Wish {
    pub kind: Kind,
    pub wire: Option<u32>,
    /// One of two messages.
    pub second: bool,
    /// How many values it has or takes.
    pub values: u32,
}

fn kind_of(byte: u8) -> Option<Kind> {
    match byte {
        b'!' => Some(Kind::Send),
        b'?' => Some(Kind::Receive),
        b'%' => Some(Kind::Asking),
        _ => None,
    }
}

/// The value of a digit.
fn digit(byte: u8) -> Option<u32> {
    if byte.is_ascii_digit() {
        Some(u32::from(byte - b'0'))
    } else {
        None
    }
}

/// The offer of a word: its kind, its wire or a minus, its message `a` or `b`, and its number of values.
fn wish_of(word: &str) -> Option<Wish> {
    match word.as_bytes() {
        [kind, wire, message, values] => Some(Wish {
            kind: kind_of(*kind)?,
            wire: digit(*wire),
            second: *message == b'b',
            values: digit(*values)?,
        }),
        _ => None,
    }
}

/// The offers of the words that are left.
pub fn wishes(alloc: Global, words: Split<'_, char>) -> Result<Vec<Wish>, AllocError> {
    let mut wishes = Vec::new(alloc);
    for word in words {
        if let Some(wish) = wish_of(word) {
            wishes.push(wish)?;
        }
    }
    Ok(wishes)
}
