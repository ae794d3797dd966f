ghost use Rattle.std.specs.Prelude.{◌≡◌, IfOk, IfSome, IfNone, [], ◌∷◌, map, length, eqb};
ghost use Rattle.pz_lines.specs.Words.{is_word, has_bytes, over, is_end, is_inside};
ghost use Rattle.std.specs.List.{list_all, slice_split};

use pz_items::Text;
use std::alloc::{AllocError, Global};
use std::marker::Model;

/// The words of a line that are left, or the lines of a text. Contracts see the list of them.
#[derive(Drop)]
pub struct Words<'a> {
    rest: &'a [&'a [u8]],
}

impl<'a> Model for Words<'a> {
    ghost use Rattle.std.specs.Prelude.{List, ℕ, map};

    ghost Value = { List (List ℕ) };

    ghost view = { λ ws. map (λ w. w.now) ws.rest.now };
}

impl<'a> Words<'a> {
    /// All of these words are left.
    pub fn new(rest: &'a [&'a [u8]]) -> Words<'a>
        ensures { result ≡ map (λ w. w.now) rest.now }
    {
        Words { rest }
    }

    /// Takes the next word off; at the end there is none.
    pub fn next(&mut self) -> Option<&'a [u8]>
        ensures some { IfSome result (λ word. self.old ≡ word.now ∷ self.new) }
        ensures none { IfNone result (self.old ≡ []) }
    {
        match self.rest {
            [] => None,
            [first, rest @ ..] => {
                self.rest = rest;
                Some(*first)
            }
        }
    }

    /// How many are left.
    pub fn left(&self) -> usize
        ensures { result ≡ length self.now }
    {
        self.rest.len()
    }

    /// Whether one with nothing in it is left, and no other.
    pub fn is_end(&self) -> bool
        ensures { result ≡ is_end self.now }
    {
        match self.rest {
            [last] => last.is_empty(),
            _ => false,
        }
    }

    /// Whether none is left.
    pub fn is_over(&self) -> bool
        ensures { result ≡ over self.now }
    {
        match self.rest {
            [] => true,
            [_, ..] => false,
        }
    }
}

/// What stands between bytes of this sort; where two of them meet, nothing.
pub fn split<'a>(alloc: Global, text: &'a [u8], byte: u8) -> Result<Vec<&'a [u8]>, AllocError>
    ensures { IfOk result (λ parts.
        map (λ w. w.now) parts.items ≡ slice_split (λ b. eqb b byte) text.now) }
{
    text.split(|b| *b == byte).collect::<Vec<&[u8]>>(alloc)
}

/// Whether this may be a word: it has a byte, and neither a blank nor an LF.
pub fn is_word(text: &[u8]) -> bool
    ensures { result ≡ is_word text.now }
{
    has_bytes(text) && is_inside(text)
}

fn has_bytes(text: &[u8]) -> bool
    ensures { result ≡ has_bytes text.now }
{
    match text {
        [] => false,
        [_, ..] => true,
    }
}

fn is_inside(text: &[u8]) -> bool
    ensures { result ≡ list_all is_inside text.now }
{
    text.iter().all(|b| *b != b' ' && *b != b'\n')
}

/// The text of a word. The only error is want of memory.
pub fn text_of(alloc: Global, word: &[u8]) -> Result<Text, AllocError>
    ensures { IfOk result (λ text. text ≡ word.now) }
{
    Ok(Text::new(word.to_vec(alloc)?))
}
