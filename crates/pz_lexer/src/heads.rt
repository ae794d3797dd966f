ghost use Rattle.std.specs.Prelude.{◌≡◌, OnOk, []};
ghost use Rattle.pz_syntax.specs.Heads.{role};
ghost use Rattle.pz_lexer.specs.devices.Marking.{role_of, Follows, Judges, TakesIn, Marks, with_heads};

use crate::kept::Piece;
use pz_syntax::{Keyword, Symbol, TokenKind};
use std::alloc::{AllocError, Global};

/// What a token is to the rule for heads.
#[derive(Clone, Copy, Debug, PartialEq, Eq)]
enum Role {
    /// An identifier or `init`.
    Name,
    Colon,
    Opening,
    Closing,
    Other,
}

fn role_of_kind(kind: &TokenKind) -> Role
    ensures { role_of result ≡ role kind.now }
{
    match kind {
        TokenKind::Ident(_) | TokenKind::Key(Keyword::Init) => Role::Name,
        TokenKind::Sym(Symbol::Colon) => Role::Colon,
        TokenKind::Sym(Symbol::LeftParen) => Role::Opening,
        TokenKind::Sym(Symbol::RightParen) => Role::Closing,
        _ => Role::Other,
    }
}

/// What is known of the tokens that follow some place.
#[derive(Drop)]
struct Following {
    /// Whether `:` or `(` comes next.
    goes_on: bool,
    /// Whether a name before them is a head.
    makes_head: bool,
    /// For each `)` that has no match among them, whether `:` or `(` follows it. The nearest is last.
    closings: Vec<bool>,
}

impl Following {
    /// Nothing follows.
    fn nothing(alloc: Global) -> Following
        ensures { Follows result [] }
    {
        Following {
            goes_on: false,
            makes_head: false,
            closings: Vec::new(alloc),
        }
    }

    /// Whether a token with this role is a head before them.
    fn is_head(&self, role: Role) -> bool
        ensures { Judges self.now role result }
    {
        match role {
            Role::Name => self.makes_head,
            _ => false,
        }
    }

    /// Takes in the token before. After want of memory nothing is known any more.
    fn put_before(&mut self, role: Role) -> Result<(), AllocError>
        ensures { OnOk result (TakesIn self.old self.new role) }
    {
        match role {
            Role::Colon => {
                self.goes_on = true;
                self.makes_head = true;
            }
            Role::Opening => {
                self.goes_on = true;
                self.makes_head = self.closings.pop().unwrap_or(false);
            }
            Role::Closing => {
                self.closings.push(self.goes_on)?;
                self.goes_on = false;
                self.makes_head = false;
            }
            Role::Name | Role::Other => {
                self.goes_on = false;
                self.makes_head = false;
            }
        }
        Ok(())
    }

    /// Marks the piece before them where it is a head, and takes it in. Comments are passed over.
    fn mark(&mut self, piece: &mut Piece) -> Result<(), AllocError>
        ensures { OnOk result (Marks self.old self.new piece.old piece.new) }
    {
        if let Piece::Token(token) = piece {
            let role = role_of_kind(&token.mark.kind);
            token.mark.head = self.is_head(role);
            self.put_before(role)?;
        }
        Ok(())
    }
}

/// Marks the tokens that are heads, and no others. The pass is from the last piece to the first, so
/// that what follows a token is known when it is met.
pub fn mark_heads(alloc: Global, pieces: &mut [Piece]) -> Result<(), AllocError>
    ensures { OnOk result (pieces.new ≡ with_heads pieces.old) }
{
    let mut following = Following::nothing(alloc);
    let mut left = pieces.len();
    'pieces: while left > 0 {
        left -= 1;
        following.mark(&mut pieces[left])?;
    }
    Ok(())
}
