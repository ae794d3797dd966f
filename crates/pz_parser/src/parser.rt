//! The call that parses.

ghost use Rattle.std.specs.Prelude.{◌≡◌, ◌<◌, ◌-◌, ◌^◌, IfOk, IfErr};
ghost use Rattle.pz_syntax.specs.Classes.{ModelTree};
ghost use Rattle.pz_syntax.specs.ClassView.{model_view};
ghost use Rattle.pz_parser.specs.Cuts.{Refuses};
ghost use Rattle.pz_parser.specs.Parsing.{IsTextOf, ReadsAs, IsInPlace};
ghost use Rattle.pz_parser.specs.devices.Refused as spec;

use crate::ParseError;
use crate::models::model;
use pz_parser_cursor::{Cursor, Refusal};
use pz_syntax::{Model, Pos, Token};
use std::alloc::Global;

/// The model of these tokens, the last of which stands before `end`. At most 100 constructs stand
/// one in another. `NoMemory` is the one answer that any tokens may have.
pub fn parse(alloc: Global, tokens: &[Token], end: Pos) -> Result<Model, ParseError>
    ensures found { IfOk result (λ m. IsTextOf 100 tokens.now (model_view m)) }
    ensures only { (t : ModelTree) → IsTextOf 100 tokens.now t → ReadsAs tokens.now t result }
    ensures places { IfOk result (λ m. IsInPlace tokens.now (model_view m)) }
    ensures exact { IfErr result (λ e. Refuses 100 tokens.now end e) }
{
    parse_within(alloc, tokens, end, 100)
}

/// The same with another limit.
fn parse_within(
    alloc: Global,
    tokens: &[Token],
    end: Pos,
    limit: usize,
) -> Result<Model, ParseError>
    requires room { limit < 2 ^ 64 - 1 }
    ensures found { IfOk result (λ m. IsTextOf limit tokens.now (model_view m)) }
    ensures only { (t : ModelTree) → IsTextOf limit tokens.now t → ReadsAs tokens.now t result }
    ensures places { IfOk result (λ m. IsInPlace tokens.now (model_view m)) }
    ensures exact { IfErr result (λ e. Refuses limit tokens.now end e) }
{
    let mut cursor = Cursor::new(tokens);
    match model(alloc, &mut cursor, limit) {
        Ok(model) => Ok(model),
        Err(refusal) => Err(error_of(tokens, end, refusal)),
    }
}

fn error_of(tokens: &[Token], end: Pos, refusal: Refusal) -> ParseError
    ensures { result ≡ spec.error_of tokens.now end refusal }
{
    match refusal {
        Refusal::NoMemory => ParseError::NoMemory,
        Refusal::Syntax(left) => ParseError::Syntax(place(tokens, end, left)),
        Refusal::TooNested(left) => ParseError::TooNested(place(tokens, end, left)),
    }
}

/// The place of the token from which on so many are left, or `end` where none is.
#[tactic(auto, unfolding(crate::specs::devices::Refused::place_left))]
fn place(tokens: &[Token], end: Pos, left: usize) -> Pos
    ensures { result ≡ spec.place_left tokens.now end left }
{
    let (_, rest) = tokens.split_at(tokens.len().saturating_sub(left));
    match rest {
        [] => end,
        [token, ..] => token.pos,
    }
}
