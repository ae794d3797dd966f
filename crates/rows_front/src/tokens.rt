//! Tokens, with their places and heads.

use crate::reading::tokens_in;
use pz_classes_code::pz_syntax::{Mark, Token, TokenKind};
use std::io;

/// The mark of a token; of a string, a copy of its bytes.
fn show_mark(rt: &HostRuntime, mark: &Mark) -> io::Result<()> {
    match &mark.kind {
        TokenKind::Str(text) => {
            let copy = text.get().copy();
            println!(rt; "string, copied {copy:?}")
        }
        kind => println!(rt; "{kind:?}"),
    }
}

fn show_token(rt: &HostRuntime, token: &Token) -> io::Result<()> {
    let head = if token.mark.head { "head " } else { "" };
    print!(rt; "  {}:{} {head}", token.pos.line, token.pos.column)?;
    show_mark(rt, &token.mark)
}

fn show_each(rt: &HostRuntime, tokens: &[Token]) -> io::Result<()> {
    for token in tokens {
        show_token(rt, token)?;
    }
    Ok(())
}

/// The tokens of a line, or why it has none.
pub fn show_tokens(rt: &HostRuntime, line: &str) -> io::Result<()> {
    println!(rt; "{line}")?;
    match tokens_in(rt.alloc(), line.as_bytes()) {
        Ok(tokens) => show_each(rt, tokens.as_slice()),
        Err(refusal) => println!(rt; "  {refusal}"),
    }
}
