//! Shows what the front end makes of texts, as rows that a stored output says, and lexes, parses
//! and builds long texts to be timed. Nothing is promised here: the output is the test.
//!
//! `rows_front rows TOPIC FILE TOPIC FILE ..` shows of each file what its topic says, under a heading;
//! the topic `bench` has the name of a bench in place of a file. `rows_front bench NAME` is one bench.
#![tactic(auto)]

mod benches;
mod bodies;
mod checking;
mod classes;
mod declarations;
mod models;
mod nets;
mod reading;
mod rules;
mod tokens;
mod topic;
mod violations;

use pz_io::{OsFiles, read_all};
use reading::{LIMIT, model_in};
use std::{env, io};
use topic::Topic;

/// What a topic says of a text.
fn show_text(rt: &HostRuntime, topic: Topic, text: &str) -> io::Result<()> {
    match topic {
        Topic::Model => models::show_model(rt, text.as_bytes()),
        Topic::Classes | Topic::Net | Topic::NetSize => show_whole(rt, topic, text),
        _ => show_lines(rt, topic, text),
    }
}

/// What a topic says of the model of a whole text.
fn show_whole(rt: &HostRuntime, topic: Topic, text: &str) -> io::Result<()> {
    match model_in(rt.alloc(), text.as_bytes()) {
        Ok(model) => match topic {
            Topic::Net => nets::show_net(rt, model, true),
            Topic::NetSize => nets::show_net(rt, model, false),
            _ => classes::show_family(rt, &model, text),
        },
        Err(refusal) => println!(rt; "{refusal}"),
    }
}

/// What a topic says of each line of a text.
fn show_lines(rt: &HostRuntime, topic: Topic, text: &str) -> io::Result<()> {
    for line in text.lines() {
        match topic {
            Topic::Tokens => tokens::show_tokens(rt, line)?,
            Topic::Trees | Topic::Declarations | Topic::Rules => show_below(rt, topic, line)?,
            _ => show_before(rt, topic, line)?,
        }
    }
    Ok(())
}

/// A line, and what a topic says of it in the lines below.
fn show_below(rt: &HostRuntime, topic: Topic, line: &str) -> io::Result<()> {
    println!(rt; "{line}")?;
    match model_in(rt.alloc(), line.as_bytes()) {
        Ok(model) => match topic {
            Topic::Trees => models::show_shape(rt, &model),
            Topic::Declarations => declarations::show_declarations(rt, &model),
            _ => rules::show_rules(rt, model),
        },
        Err(refusal) => println!(rt; "  {refusal}"),
    }
}

/// What a topic says of a line, and the line behind it.
fn show_before(rt: &HostRuntime, topic: Topic, line: &str) -> io::Result<()> {
    match model_in(rt.alloc(), line.as_bytes()) {
        Ok(model) => match topic {
            Topic::Families => classes::show_violated(rt, &model, line),
            Topic::Violations => violations::show_violation(rt, model, line),
            Topic::Openings => violations::show_opening(rt, model, line),
            _ => println!(rt; "accepted: {line}"),
        },
        Err(refusal) => println!(rt; "{refusal}: {line}"),
    }
}

/// What a topic says of the bytes of a file.
fn show_bytes(rt: &HostRuntime, topic: Topic, bytes: &[u8]) -> io::Result<()> {
    match std::str::from_utf8(bytes) {
        Ok(text) => show_text(rt, topic, text),
        Err(_) => println!(rt; "no text"),
    }
}

/// What a topic says of a file, under a heading.
fn show_file(rt: &HostRuntime, topic: Topic, name: &str) -> io::Result<()> {
    match read_all(rt.alloc(), &mut OsFiles::new(*rt), name, LIMIT) {
        Ok(bytes) => show_bytes(rt, topic, bytes.as_slice()),
        Err(_) => println!(rt; "no file"),
    }
}

/// The section of a topic and the name behind it.
fn show_section(rt: &HostRuntime, topic: &str, name: &str) -> io::Result<()> {
    println!(rt; "# {topic} {name}")?;
    if topic == "bench" {
        return benches::show_bench(rt, name);
    }
    match Topic::named(topic) {
        Some(topic) => show_file(rt, topic, name),
        None => println!(rt; "no topic"),
    }
}

/// The section of each topic and the name behind it.
fn show_sections(rt: &HostRuntime, words: &[String]) -> io::Result<()> {
    for pair in words.chunks(2) {
        if let [topic, name] = pair {
            show_section(rt, topic.as_str(), name.as_str())?;
        }
    }
    Ok(())
}

fn show(rt: &HostRuntime, words: &[String]) -> io::Result<()> {
    match words {
        [_, job, rest @ ..] if job.as_str() == "rows" => show_sections(rt, rest),
        [_, job, name] if job.as_str() == "bench" => benches::show_bench(rt, name.as_str()),
        _ => println!(rt; "rows_front rows TOPIC FILE ..; rows_front bench lex, parse or classes"),
    }
}

fn main(rt: HostRuntime) -> io::Result<()> {
    let words = env::args(&rt)?.collect::<Vec<String>>(rt.alloc())?;
    show(&rt, words.as_slice())
}
