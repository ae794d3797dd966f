//! What is kept of a text: its tokens and comments.

ghost use Rattle.std.specs.Prelude.{◌≡◌, ◌++◌, ◌∷◌, [], IfOk, OnOk};
ghost use Rattle.pz_lexer.specs.Kept.{trimmed, tokens_among};
ghost use Rattle.pz_lexer.specs.devices.Cutting.{unmarked_piece};

use crate::bytes::is_blank;
use crate::sorts::Sort;
use pz_syntax::pz_items::Text;
use pz_syntax::{Mark, Pos, Token};
use std::alloc::{AllocError, Global};

/// A token or a comment of a text.
#[derive(Drop)]
pub enum Piece {
    Token(Token),
    /// A comment that ends with its line: its bytes from `//` on, without blanks, tabs and CRs at
    /// its end.
    Line(Text),
    /// A comment in `/*` and `*/`: all its bytes, these included.
    Block(Text),
}

/// Keeps a piece with this text, unless it is a blank. A token is not marked yet.
pub fn keep(
    alloc: Global,
    pieces: &mut Vec<Piece>,
    sort: Sort,
    pos: Pos,
    text: &[u8],
) -> Result<(), AllocError>
    ensures { OnOk result (pieces.new.items ≡
        pieces.old.items ++ unmarked_piece sort pos text.now) }
{
    match sort {
        Sort::Blank => {}
        Sort::LineComment => pieces.push(Piece::Line(Text::new(trimmed(text).to_vec(alloc)?)))?,
        Sort::BlockComment => pieces.push(Piece::Block(Text::new(text.to_vec(alloc)?)))?,
        Sort::Token(kind) => {
            let mark = Mark { kind, head: false };
            pieces.push(Piece::Token(Token { mark, pos }))?;
        }
    }
    Ok(())
}

/// The text without blanks, tabs, CRs and LFs at its end.
fn trimmed(text: &[u8]) -> &[u8]
    ensures { result.now ≡ trimmed text.now }
{
    let mut rest = text;
    'ends: while let Some((last, front)) = rest.split_last() {
        if is_blank(*last) {
            rest = front;
        } else {
            return rest;
        }
    }
    rest
}

/// The tokens among pieces, in their order.
pub fn tokens_among(alloc: Global, pieces: Vec<Piece>) -> Result<Vec<Token>, AllocError>
    ensures { IfOk result (λ tokens. tokens.items ≡ tokens_among pieces.items) }
{
    let mut tokens = Vec::new(alloc);
    for piece in pieces {
        keep_token(&mut tokens, piece)?;
    }
    Ok(tokens)
}

fn keep_token(tokens: &mut Vec<Token>, piece: Piece) -> Result<(), AllocError>
    ensures { OnOk result (tokens.new.items ≡ tokens.old.items ++ tokens_among (piece ∷ [])) }
{
    if let Piece::Token(token) = piece {
        tokens.push(token)?;
    }
    Ok(())
}
