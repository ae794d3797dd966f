ghost use Rattle.std.specs.Prelude.{◌≡◌, ◌⊎◌, ◌<◌, ◌≤◌, ◌-◌, ◌+◌, ◌^◌, ◌↔◌, ℕ, List, length, IfOk, IfErr, Ok, Err};
ghost use Rattle.pz_syntax.specs.declared.tokens.Token.{Token};
ghost use Rattle.pz_lexer.specs.declared.error.LexError.{LexError};
ghost use Rattle.pz_lexer.specs.devices.Reading.{StopsAt};
ghost use Rattle.pz_lexer.specs.declared.kept.Piece.{Piece};
ghost use Rattle.pz_lexer.specs.Tokens.{error_at, AreTokens, IsRefused, Answers};
ghost use Rattle.pz_lexer.specs.Kept.{AreKept, tokens_among};
ghost use Rattle.pz_lexer.specs.devices.Twin.{lexed, pieced, AnswersKept};
ghost use Rattle.pz_lexer.specs.devices.Cutting.{AreCutInto, Refuses};

use crate::LexError;
use crate::heads::mark_heads;
use crate::kept::{Piece, keep, tokens_among};
use crate::places::{ORIGIN, place_after};
use crate::read::first_piece;
use crate::sorts::{Reason, Stop};
use pz_syntax::pz_items::Items;
use pz_syntax::{Pos, Token};
use std::alloc::Global;

/// The tokens of a text, each with its place, and with a mark if it is a head. `NoMemory` is the one
/// answer that any text may have.
pub fn lex(alloc: Global, text: &[u8]) -> Result<Items<Token>, LexError>
    requires { length text.now < 2 ^ 32 - 1 }
    ensures tokens { IfOk result (λ tokens. AreTokens text.now tokens) }
    ensures counted { IfOk result (λ tokens. length tokens ≤ length text.now) }
    ensures refusal { IfErr result (λ error. (error ≡ LexError.NoMemory)
        ⊎ IsRefused text.now error) }
    // The definition computes: this is the answer that it gives.
    ensures computed { Answers result (lexed text.now) }
{
    let pieces = pieces(alloc, text)?;
    Ok(Items::from_vec(tokens_among(alloc, pieces.into_vec())?))
}

/// The tokens and comments of a text, in their order: the tokens are those of `lex`, and each refusal
/// is one of `lex`.
pub fn pieces(alloc: Global, text: &[u8]) -> Result<Items<Piece>, LexError>
    requires { length text.now < 2 ^ 32 - 1 }
    ensures kept { IfOk result (λ pieces. AreKept text.now pieces) }
    ensures tokens { IfOk result (λ pieces. AreTokens text.now (tokens_among pieces)) }
    ensures refusal { IfErr result (λ error. (error ≡ LexError.NoMemory)
        ⊎ IsRefused text.now error) }
    // The definition computes: this is the answer that it gives.
    ensures computed { AnswersKept result (pieced text.now) }
{
    let mut pieces = cut(alloc, text)?;
    mark_heads(alloc, pieces.as_mut_slice())?;
    Ok(Items::from_vec(pieces))
}

/// Each text has one list of tokens or one refusal, and no text has both. A text that has tokens has
/// one list of tokens and comments, and the tokens of that are its tokens.
pub fn one_answer()
    ensures one_list { (text : List ℕ) (a b : List Token) → AreTokens text a → AreTokens text b →
        a ≡ b }
    ensures one_refusal { (text : List ℕ) (a b : LexError) → IsRefused text a → IsRefused text b →
        a ≡ b }
    ensures not_both { (text : List ℕ) (tokens : List Token) (error : LexError) →
        AreTokens text tokens → IsRefused text error → ⊥ }
    ensures either { (text : List ℕ) → ((tokens : List Token) × AreTokens text tokens)
        ⊎ ((error : LexError) × IsRefused text error) }
    ensures one_cut { (text : List ℕ) (a b : List Piece) → AreKept text a → AreKept text b →
        a ≡ b }
    ensures tokens_kept { (text : List ℕ) (pieces : List Piece) → AreKept text pieces →
        AreTokens text (tokens_among pieces) }

    // The definition computes.
    ensures kept_computed { (text : List ℕ) (pieces : List Piece) →
        AreKept text pieces ↔ (pieced text ≡ Ok pieces) }
    ensures tokens_computed { (text : List ℕ) (tokens : List Token) →
        AreTokens text tokens ↔ (lexed text ≡ Ok tokens) }
    ensures refusal_computed { (text : List ℕ) (error : LexError) →
        IsRefused text error ↔ (lexed text ≡ Err error) }
{}

/// The tokens and comments of a text, no token of them marked as a head.
fn cut(alloc: Global, text: &[u8]) -> Result<Vec<Piece>, LexError>
    requires { length text.now < 2 ^ 32 - 1 }
    ensures pieces { IfOk result (λ pieces. AreCutInto text.now pieces.items) }
    ensures refusal { IfErr result (λ error. (error ≡ LexError.NoMemory)
        ⊎ IsRefused text.now error) }
{
    let mut pieces = Vec::new(alloc);
    let mut rest = text;
    let mut pos = ORIGIN;
    'pieces: while !rest.is_empty() {
        match first_piece(alloc, rest) {
            Ok(found) => {
                let (piece, after) = rest.split_at(found.len);
                keep(alloc, &mut pieces, found.sort, pos, piece)?;
                pos = place_after(pos, piece);
                rest = after;
            }
            Err(stop) => return Err(refusal(stop, pos, rest)),
        }
    }
    Ok(pieces)
}

/// The refusal where a cut stops in the rest of a text that stands at `pos`.
fn refusal(stop: Stop, pos: Pos, rest: &[u8]) -> LexError
    requires stops { StopsAt rest.now stop }
    requires line { pos.line + length rest.now < 2 ^ 32 }
    requires column { pos.column + length rest.now < 2 ^ 32 }
    ensures { Refuses stop pos rest.now result }
{
    match stop {
        Stop::NoMemory => LexError::NoMemory,
        Stop::Refused(reason, at) => {
            let (before, _) = rest.split_at(at);
            error_at(reason, place_after(pos, before))
        }
    }
}

fn error_at(reason: Reason, pos: Pos) -> LexError
    ensures { result ≡ error_at reason pos }
{
    match reason {
        Reason::BadByte => LexError::BadByte(pos),
        Reason::OpenComment => LexError::OpenComment(pos),
        Reason::OpenString => LexError::OpenString(pos),
        Reason::BadNumber => LexError::BadNumber(pos),
    }
}
