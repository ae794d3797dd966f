use pz_lexer::lex;
use pz_parser_cursor::Cursor;
use pz_parser_declarations::data_class;
use pz_syntax::{Mark, Name, Pos, Token, TokenKind};
use std::alloc::{AllocError, Global};
use std::test::Fail;

/// An identifier that is spelled as the keyword `init`, which no text has.
fn init_as_identifier(alloc: Global) -> Result<Token, AllocError> {
    let name = Name::new(alloc, "init")?;
    let kind = TokenKind::Ident(name);
    Ok(Token {
        mark: Mark { kind, head: true },
        pos: Pos {
            line: 1,
            column: 36,
        },
    })
}

#[test]
fn a_data_class_ends_before_an_identifier_that_is_spelled_init(
    rt: HostRuntime,
) -> Result<(), Fail> {
    let text = b"data class A methods m : Integer 1".as_slice();
    let mut tokens = lex(rt.alloc(), text)?.into_vec();
    tokens.push(init_as_identifier(rt.alloc())?)?;
    let mut cursor = Cursor::new(tokens.as_slice());
    let class = data_class(rt.alloc(), &mut cursor, 100)?;
    assert_eq!(rt; cursor.left(), 1);
    assert_eq!(rt; class.name.pos.column, 12);
    assert_eq!(rt;
        class.methods.as_ref().map(|methods| methods.len()),
        Some(1)
    );
    Ok(())
}
