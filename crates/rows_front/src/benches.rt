//! Texts of about a mebibyte, to be timed: one sort of token each, one shape of model each, and a
//! long chain of classes.

use crate::reading::{model_in, tokens_in, tree_of};
use pz_bind::pz_classes::Classes;
use std::alloc::{AllocError, Global};
use std::io;

/// A text that begins so, and then has a piece so often.
struct Shape<'a> {
    name: &'a str,
    front: &'a str,
    piece: &'a str,
    times: u32,
}

/// Each sort of token.
const TOKENS: [Shape<'static>; 6] = [
    Shape {
        name: "brackets",
        front: "",
        piece: "(",
        times: 1_048_576,
    },
    Shape {
        name: "heads",
        front: "",
        piece: "a()(",
        times: 262_144,
    },
    Shape {
        name: "assignments",
        front: "",
        piece: "x:=1; ",
        times: 174_762,
    },
    Shape {
        name: "words",
        front: "",
        piece: "methods skip variable ",
        times: 47_662,
    },
    Shape {
        name: "comments",
        front: "",
        piece: "/* abc * / */\n",
        times: 74_898,
    },
    Shape {
        name: "strings",
        front: "",
        piece: "\"abc\\n\\x41\" ",
        times: 87_381,
    },
];

/// Nested brackets, flat statements, expressions, and two sorts of declarations.
const MODELS: [Shape<'static>; 5] = [
    Shape {
        name: "nested",
        front: "process class P methods a()() skip",
        piece: "; ((((((((((((((((((((skip))))))))))))))))))))",
        times: 22_795,
    },
    Shape {
        name: "flat",
        front: "process class P methods a()() skip",
        piece: "; skip",
        times: 174_762,
    },
    Shape {
        name: "expressions",
        front: "process class P methods a()() skip",
        piece: "; x := a f(1) * - b + 2",
        times: 45_590,
    },
    Shape {
        name: "classes",
        front: "",
        piece: "data class A extends B variables x, y : C methods m(a : D) : E a + 1\n",
        times: 15_196,
    },
    Shape {
        name: "instances",
        front: "system instances",
        piece: " p : P(x := 1)",
        times: 74_898,
    },
];

fn text_of(alloc: Global, shape: &Shape<'_>) -> Result<String, AllocError> {
    let mut text = String::from_str(alloc, shape.front)?;
    for _ in 0..shape.times {
        text.push_str(shape.piece)?;
    }
    Ok(text)
}

fn lex_shape(rt: &HostRuntime, shape: &Shape<'_>) -> io::Result<()> {
    let text = text_of(rt.alloc(), shape)?;
    let name = shape.name;
    match tokens_in(rt.alloc(), text.as_bytes()) {
        Ok(tokens) => {
            let count = tokens.len();
            let bytes = text.len();
            println!(rt; "{name}: {bytes} bytes, {count} tokens")
        }
        Err(refusal) => println!(rt; "{name}: {refusal}"),
    }
}

fn lex_shapes(rt: &HostRuntime) -> io::Result<()> {
    for shape in &TOKENS {
        lex_shape(rt, shape)?;
    }
    Ok(())
}

fn parse_text(rt: &HostRuntime, name: &str, text: &[u8]) -> io::Result<()> {
    let Ok(tokens) = tokens_in(rt.alloc(), text) else {
        return println!(rt; "{name}: no tokens");
    };
    match tree_of(rt.alloc(), text, tokens.as_slice()) {
        Ok(model) => {
            let bytes = text.len();
            let count = tokens.len();
            let decls = model.decls.len();
            println!(rt; "{name}: {bytes} bytes, {count} tokens, {decls} declarations")
        }
        Err(refusal) => println!(rt; "{name}: {refusal}"),
    }
}

fn parse_shapes(rt: &HostRuntime) -> io::Result<()> {
    for shape in &MODELS {
        let text = text_of(rt.alloc(), shape)?;
        parse_text(rt, shape.name, text.as_bytes())?;
    }
    Ok(())
}

/// A chain of so many data classes, each with a method, of which each but the first extends the one
/// before it.
fn chain(alloc: Global, classes: u32) -> Result<String, AllocError> {
    let mut text = String::from_str(alloc, "data class C0 methods m : Integer 1\n")?;
    for number in 1..classes {
        let before = number - 1;
        let class = format!(in alloc;
            "data class C{number} extends C{before} methods m(a : Integer) : Integer a + 1\n"
        )?;
        text.push_str(class.as_str())?;
    }
    Ok(text)
}

fn build_chain(rt: &HostRuntime, classes: u32) -> io::Result<()> {
    let text = chain(rt.alloc(), classes)?;
    let Ok(model) = model_in(rt.alloc(), text.as_bytes()) else {
        return println!(rt; "no model");
    };
    match Classes::build(rt.alloc(), &model) {
        Ok(table) => {
            let names = table.names().len();
            let last = table.class(b"C9999");
            println!(rt; "a chain of {classes} classes: {names} numbers, the last is {last:?}")
        }
        Err(error) => println!(rt; "{error:?}"),
    }
}

/// The bench of this name: `lex`, `parse` or `classes`.
pub fn show_bench(rt: &HostRuntime, name: &str) -> io::Result<()> {
    match name {
        "lex" => lex_shapes(rt),
        "parse" => parse_shapes(rt),
        "classes" => build_chain(rt, 10_000),
        _ => println!(rt; "no bench"),
    }
}
